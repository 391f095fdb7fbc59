ghost use Rattle.positions.specs.Keys.{series_key};
ghost use Rattle.ledger.specs.Calls.{delta};
ghost use Rattle.ledger.specs.Judge.{judge_delta};
ghost use Rattle.ledger.specs.Numbers.{key_of};
ghost use Rattle.tables.specs.Model.{model_of, bare, Judges, Follows, numbered};
ghost use Rattle.entering.specs.Found.{FoundAt};

use crate::keyed::Keyed;
use crate::listing::takes_delta;
use ledger::{State, Terms};
use positions::series_key;
use series::{Series, SeriesNumbers};
use tables::{InUse, Tables};
use terms::{Reason, Refusal, SeriesKind};

/// Gives an option a new delta, in ten-thousandths: 4 for a number out of range or a future, 5 for a strike off its
/// step, 7 where it is not listed, 8 where it is done.
pub fn delta(tables: &mut Tables, numbers: SeriesNumbers, value: i32) -> Result<(), Refusal>
    ensures { Follows (bare (delta (numbered numbers) value)) tables.old tables.new result }
{
    let state = option_at(&tables.in_use()?, numbers, value)?;
    let terms = Terms {
        value,
        state: state.value,
    };
    // The option has a row.
    let _ = tables.series.put(state.key, terms);
    Ok(())
}

// The state of the option that may have the delta.
fn option_at(book: &InUse, numbers: SeriesNumbers, value: i32) -> Result<Keyed<State>, Refusal>
    ensures { Judges (judge_delta (model_of book.now.tables.now) (numbered numbers) value) (FoundAt book.now.tables.now (key_of (numbered numbers))) result }
{
    let series = Series::numbered(book.family, numbers)?;
    if series.kind() == SeriesKind::Future || !takes_delta(series.kind(), value) {
        return Err(Refusal::plain(Reason::OutOfRange));
    }
    if !series.on_step(book.family) {
        return Err(Refusal::plain(Reason::OffStep));
    }
    let key = series_key(series);
    let terms = book.tables.listed(key)?;
    if terms.state.is_done() {
        return Err(Refusal::plain(Reason::WrongState));
    }
    Ok(Keyed {
        key,
        value: terms.state,
    })
}
