ghost use Rattle.std.specs.Prelude.{◌≡◌, ◌≤◌};

use terms::{Reason, Refusal};

/// The highest rate, in cents.
const HIGHEST: u32 = 100_000;

/// What one contract costs, 0 to 100,000 cents.
#[derive(Clone, Copy)]
pub(crate) struct Rate {
    pub(crate) cents: u32,
    ghost most: { cents ≤ 100000 },
}

/// The rate of so many cents.
impl TryFrom<u32> for Rate {
    ghost use Rattle.terms.specs.Numbers.{Numbered};
    ghost use Rattle.tariffs.specs.Rates.{RateRange};

    type Error = Refusal;

    ghost try_from_gives = { Numbered RateRange (λ rate. rate.cents) };

    fn try_from(cents: u32) -> Result<Rate, Refusal> {
        if cents > HIGHEST {
            return Err(Refusal::plain(Reason::OutOfRange));
        }
        Ok(Rate { cents })
    }
}

impl Rate {
    ghost use Rattle.tariffs.specs.Rates.{fee};

    /// What so many contracts cost.
    pub(crate) fn fee(self, count: u32) -> u64
        ensures { result ≡ fee count self }
    {
        u64::from(count) * u64::from(self.cents)
    }
}
