ghost use Rattle.std.specs.Prelude.{◌≡◌, ◌≤◌};
ghost use Rattle.terms.specs.Numbers.{Numbered};
ghost use Rattle.terms.specs.Ranges.{ContractsRange};

use crate::refusal::{Reason, Refusal};

/// How many contracts a trade or a close is for, 1 to 100,000.
#[derive(Clone, Copy)]
pub struct Contracts {
    count: u32,
    ghost least: { 1 ≤ count },
    ghost most: { count ≤ 100000 },
}

/// So many contracts.
impl TryFrom<u32> for Contracts {
    type Error = Refusal;

    ghost try_from_gives = { Numbered ContractsRange (λ c. c.count) };

    fn try_from(count: u32) -> Result<Contracts, Refusal> {
        if !(1..=100_000).contains(&count) {
            return Err(Refusal::plain(Reason::OutOfRange));
        }
        Ok(Contracts { count })
    }
}

impl Contracts {
    pub fn count(self) -> u32
        ensures value { result ≡ self.count }
        ensures range { ContractsRange result }
    {
        self.count
    }
}
