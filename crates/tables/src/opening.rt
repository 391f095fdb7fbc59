ghost use Rattle.std.specs.Prelude.{◌≡◌};
ghost use Rattle.ledger.specs.Book.{opened};
ghost use Rattle.ledger.specs.Judge.{judge_opening};
ghost use Rattle.ledger.specs.Numbers.{family_of};
ghost use Rattle.tables.specs.Model.{model_of, spaces_of, Judges};
ghost use Rattle.tables.specs.Opening.{spaces_in};

use crate::in_use::InUse;
use crate::space::Space;
use crate::tables::Tables;
use registers::{Register, book_accepts};
use terms::{Family, Reason, Refusal};

impl Tables {
    /// Empty tables over the supplied space, for any number of a family.
    pub fn open(family: u8, space: Space) -> Tables
        ensures { model_of result ≡ opened family (spaces_in space) }
    {
        Tables {
            family,
            accounts: Register::over(space.accounts),
            series: Register::over(space.series),
            positions: Register::over(space.positions),
            exchange: 0,
        }
    }

    /// The family, or what every call is refused for: 4 for a family that is none, then 12 for space outside 1 to 4,096.
    pub fn usable(&self) -> Result<Family, Refusal>
        ensures { Judges (judge_opening self.now.family (spaces_of self.now)) (λ f. family_of self.now.family ≡ f) result }
    {
        // With `map` the proof did not close.
        Ok(self.in_use()?.family)
    }

    /// The tables with their family, or what every call is refused for.
    pub fn in_use(&self) -> Result<InUse<'_>, Refusal>
        ensures { Judges (judge_opening self.now.family (spaces_of self.now)) (λ u. u.tables.now ≡ self.now) result }
    {
        let family = Family::try_from(self.family)?;
        let roomy = book_accepts(self.accounts.room())
            && book_accepts(self.series.room())
            && book_accepts(self.positions.room());
        if !roomy {
            return Err(Refusal::plain(Reason::NoSpace));
        }
        Ok(InUse {
            tables: self,
            family,
        })
    }
}
