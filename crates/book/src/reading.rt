ghost use Rattle.std.specs.Prelude.{◌≡◌};
ghost use Rattle.std.specs.Option.{ok_or};
ghost use Rattle.registers.specs.Held.{rows_of};
ghost use Rattle.registers.specs.Rows.{lookup};
ghost use Rattle.terms.specs.declared.refusal.Reason.TheVariants.{Absent};
ghost use Rattle.terms.specs.Refusals.{about};
ghost use Rattle.book.specs.Sealed.{book_of, Law};

use crate::sealed::Book;
use ledger::{Account, Terms};
use positions::Position;
use registers::Register;
use terms::Refusal;

impl Book {
    /// An account's kind and cash balance; 7 where it is not there.
    pub fn account(&self, account: u16) -> Result<Account, Refusal>
        ensures { result ≡ ok_or (lookup (book_of self.now).accounts account) (about Absent account) }
    {
        self.tables.account(account)
    }

    /// The exchange's cash balance.
    pub fn exchange(&self) -> i64
        ensures value { result ≡ (book_of self.now).exchange }
        ensures law { Law self.now }
    {
        self.tables.exchange
    }

    /// The accounts in the order of their numbers.
    pub fn accounts(&self) -> &Register<Account>
        ensures { rows_of result.now ≡ (book_of self.now).accounts }
    {
        &self.tables.accounts
    }

    /// The series in the order of their keys: by month, then kind, then strike.
    pub fn series(&self) -> &Register<Terms>
        ensures { rows_of result.now ≡ (book_of self.now).series }
    {
        &self.tables.series
    }

    /// The positions in the order of their keys: by series, then account.
    pub fn positions(&self) -> &Register<Position>
        ensures { rows_of result.now ≡ (book_of self.now).positions }
    {
        &self.tables.positions
    }
}
