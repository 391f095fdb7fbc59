ghost use Rattle.std.specs.Prelude.{◌≡◌, ◌≤◌};
ghost use Rattle.terms.specs.Numbers.{Numbered};
ghost use Rattle.terms.specs.Ranges.{MonthRange};

use crate::refusal::{Reason, Refusal};

/// A contract month, year × 12 + month − 1, from 24,000 (January 2000) to 25,199 (December 2099).
#[derive(Clone, Copy)]
pub struct Month {
    number: u16,
    ghost least: { 24000 ≤ number },
    ghost most: { number ≤ 25199 },
}

/// The month of this number.
impl TryFrom<u16> for Month {
    type Error = Refusal;

    ghost try_from_gives = { Numbered MonthRange (λ m. m.number) };

    fn try_from(number: u16) -> Result<Month, Refusal> {
        if !(24_000..=25_199).contains(&number) {
            return Err(Refusal::plain(Reason::OutOfRange));
        }
        Ok(Month { number })
    }
}

impl Month {
    pub fn number(self) -> u16
        ensures value { result ≡ self.number }
        ensures range { MonthRange result }
    {
        self.number
    }
}
