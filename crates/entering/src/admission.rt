ghost use Rattle.std.specs.Prelude.{◌≡◌};
ghost use Rattle.ledger.specs.Calls.{admit};
ghost use Rattle.ledger.specs.Judge.{judge_admit};
ghost use Rattle.ledger.specs.Numbers.{account_kind_of};
ghost use Rattle.ledger.specs.Post.{post};
ghost use Rattle.tables.specs.Model.{model_of, unpriced, bare, Judges, Follows};

use ledger::Account;
use tables::Tables;
use terms::{AccountKind, AccountNumber, Reason, Refusal};

/// Admits an account as house 0, maker 1 or client 2, with no cash: 4 for a number out of range, 6 where it is there
/// already, 12 where there is no space.
pub fn admit(tables: &mut Tables, account: u16, kind: u8) -> Result<(), Refusal>
    ensures { Follows (bare (admit account kind)) tables.old tables.new result }
{
    tables.usable()?;
    let kind = judged(tables, account, kind)?;
    // `judged` found place for the row.
    let _ = tables
        .accounts
        .put(u64::from(account), Account { kind, cash: 0 });
    Ok(())
}

fn judged(tables: &Tables, account: u16, kind: u8) -> Result<AccountKind, Refusal>
    ensures { Judges (judge_admit (model_of tables.now) account kind (post (model_of tables.now) (admit account kind) unpriced)) (λ k. k ≡ account_kind_of kind) result }
{
    AccountNumber::try_from(account)?;
    let kind = AccountKind::try_from(kind)?;
    if tables.accounts.read(u64::from(account)).is_some() {
        return Err(Refusal::plain(Reason::Present));
    }
    if !tables.accounts.has_place() {
        return Err(Refusal::plain(Reason::NoSpace));
    }
    Ok(kind)
}
