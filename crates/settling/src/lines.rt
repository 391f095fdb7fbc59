// Amounts that the accounts of a series' positions get, one after the other.
ghost use Rattle.std.specs.Prelude.{◌≡◌, true, Ok};
ghost use Rattle.std.specs.List.{zip};
ghost use Rattle.terms.specs.declared.refusal.Reason.TheVariants.{AmountOutOfRange};
ghost use Rattle.terms.specs.Refusals.{about};
ghost use Rattle.registers.specs.Held.{rows_of, room_of};
ghost use Rattle.positions.specs.Keys.{account_of_key};
ghost use Rattle.ledger.specs.Judge.{need};
ghost use Rattle.ledger.specs.Post.{pay};
ghost use Rattle.settling.specs.Payments.{affords, gains, tested, Ready, pay_all};

use crate::gain::Gain;
use ledger::Account;
use positions::{Position, account_of_key, paid};
use registers::Register;
use terms::{Reason, Refusal};

// Refuses an account whose balance would leave its range.
pub(crate) fn test_line(accounts: &Register<Account>, key: u64, amount: i64) -> Result<(), Refusal>
    ensures { result ≡ need (affords (rows_of accounts.now) (account_of_key key) amount) (about AmountOutOfRange (account_of_key key)) (Ok tt) }
{
    let number = account_of_key(key);
    let refusal = Refusal::about(Reason::AmountOutOfRange, number);
    let account = accounts.read(u64::from(number)).ok_or(refusal)?;
    paid(account.cash, amount).ok_or(refusal)?;
    Ok(())
}

pub(crate) fn post_line(accounts: &mut Register<Account>, key: u64, amount: i64)
    requires { affords (rows_of accounts.old) (account_of_key key) amount ≡ true }
    ensures rows { rows_of accounts.new ≡ pay (account_of_key key) amount (rows_of accounts.old) }
    ensures room { room_of accounts.new ≡ room_of accounts.old }
{
    if let Some(account) = accounts.get_mut(u64::from(account_of_key(key))) {
        account.cash += amount;
    }
}

// Keys and positions come apart, since a register lends its contents for writing without its keys.
/// Tests what each position gets: the first account in the order of keys whose balance would leave its range is refused.
pub(crate) fn test_gains(
    accounts: &Register<Account>,
    keys: &[u64],
    positions: &[Position],
    gain: Gain,
) -> Result<(), Refusal>
    ensures { result ≡ tested (gains gain) (zip keys.now positions.now) (rows_of accounts.now) }
{
    for (key, position) in keys.iter().zip(positions) {
        test_line(accounts, *key, gain.of(*position))?;
    }
    Ok(())
}

/// Pays each account what its position gets.
pub(crate) fn post_gains(
    accounts: &mut Register<Account>,
    keys: &[u64],
    positions: &[Position],
    gain: Gain,
)
    requires { Ready (gains gain) (zip keys.now positions.now) (rows_of accounts.old) }
    ensures rows { rows_of accounts.new ≡ pay_all (gains gain) (zip keys.now positions.now) (rows_of accounts.old) }
    ensures room { room_of accounts.new ≡ room_of accounts.old }
{
    for (key, position) in keys.iter().zip(positions) {
        post_line(accounts, *key, gain.of(*position));
    }
}
