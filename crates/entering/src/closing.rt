ghost use Rattle.ledger.specs.Calls.{close};
ghost use Rattle.ledger.specs.Judge.{judge_close};
ghost use Rattle.ledger.specs.Numbers.{key_of};
ghost use Rattle.tables.specs.Model.{model_of, bare, Judges, Follows, numbered};
ghost use Rattle.entering.specs.Closed.{ClosedAt};

use crate::keyed::Keyed;
use positions::{Position, line_key, series_key};
use series::{Series, SeriesNumbers};
use tables::{InUse, Tables, place};
use terms::{AccountNumber, Contracts, Reason, Refusal};

/// Closes `count` fulls against five times as many minis of opposite sign in an account's position: 4 for a number out
/// of range, 5 for a strike off its step, 7 for an absent account and then an absent series, 11 where there are not so
/// many. No cash moves.
pub fn close(
    tables: &mut Tables,
    numbers: SeriesNumbers,
    account: u16,
    count: u32,
) -> Result<(), Refusal>
    ensures { Follows (bare (close (numbered numbers) account count)) tables.old tables.new result }
{
    let left = closed(&tables.in_use()?, numbers, account, count)?;
    // The position has a row: there was something to close.
    let _ = place(&mut tables.positions, left.key, left.value);
    Ok(())
}

// What is left of the position that may be closed.
fn closed(
    book: &InUse,
    numbers: SeriesNumbers,
    account: u16,
    count: u32,
) -> Result<Keyed<Position>, Refusal>
    ensures { Judges (judge_close (model_of book.now.tables.now) (numbered numbers) account count) (ClosedAt book.now.tables.now (key_of (numbered numbers)) account count) result }
{
    let series = Series::numbered(book.family, numbers)?;
    AccountNumber::try_from(account)?;
    let fulls = Contracts::try_from(count)?;
    if !series.on_step(book.family) {
        return Err(Refusal::plain(Reason::OffStep));
    }
    book.tables.account(account)?;
    book.tables.listed(series_key(series))?;
    let key = line_key(series, account);
    let held = book.tables.positions.read(key).unwrap_or_default();
    let value = held
        .closed(fulls.count())
        .ok_or(Refusal::about(Reason::CloseExceeds, account))?;
    Ok(Keyed { key, value })
}
