ghost use Rattle.std.specs.Prelude.{◌≡◌, Ok};
ghost use Rattle.std.specs.Option.{ok_or};
ghost use Rattle.terms.specs.declared.refusal.Reason.TheVariants.{Absent};
ghost use Rattle.terms.specs.Refusals.{plain, about};
ghost use Rattle.registers.specs.Rows.{lookup};
ghost use Rattle.ledger.specs.Book.{terms_at};
ghost use Rattle.ledger.specs.Judge.{need};
ghost use Rattle.ledger.specs.Rows.{present};
ghost use Rattle.tables.specs.Model.{model_of, Judges};

use crate::tables::Tables;
use ledger::{Account, Terms};
use terms::{Reason, Refusal};

impl Tables {
    /// An account's kind and cash balance; 7 where it is not there.
    pub fn account(&self, account: u16) -> Result<Account, Refusal>
        ensures { result ≡ ok_or (lookup (model_of self.now).accounts account) (about Absent account) }
    {
        self.accounts
            .read(u64::from(account))
            .ok_or(Refusal::about(Reason::Absent, account))
    }

    /// What is known of the series with this key; 7 where it is not listed.
    pub fn listed(&self, key: u64) -> Result<Terms, Refusal>
        ensures { Judges (need (present (model_of self.now).series key) (plain Absent) (Ok tt)) (λ t. t ≡ terms_at (model_of self.now) key) result }
    {
        self.series.read(key).ok_or(Refusal::plain(Reason::Absent))
    }
}
