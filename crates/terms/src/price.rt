ghost use Rattle.std.specs.Prelude.{◌≡◌, ◌≤◌};
ghost use Rattle.terms.specs.Numbers.{Numbered};
ghost use Rattle.terms.specs.Ranges.{PriceRange};

use crate::refusal::{Reason, Refusal};

/// A price in hundredths of an index point, 1 to 10,000,000.
#[derive(Clone, Copy)]
pub struct Price {
    hundredths: u32,
    ghost least: { 1 ≤ hundredths },
    ghost most: { hundredths ≤ 10000000 },
}

// A type for each unit, here and in `month`, `account`, `contracts` and the rates of `tariffs`, with one law: a generic over
// width and bounds would say the units in constants. So too the enums by their numbers in `family` and `kinds`.
/// The price of so many hundredths of a point.
impl TryFrom<u32> for Price {
    type Error = Refusal;

    ghost try_from_gives = { Numbered PriceRange (λ p. p.hundredths) };

    fn try_from(hundredths: u32) -> Result<Price, Refusal> {
        if !(1..=10_000_000).contains(&hundredths) {
            return Err(Refusal::plain(Reason::OutOfRange));
        }
        Ok(Price { hundredths })
    }
}

impl Price {
    pub fn hundredths(self) -> u32
        ensures value { result ≡ self.hundredths }
        ensures range { PriceRange result }
    {
        self.hundredths
    }
}
