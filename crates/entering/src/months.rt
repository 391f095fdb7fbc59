ghost use Rattle.positions.specs.Keys.{future_key};
ghost use Rattle.ledger.specs.Runs.{judge};
ghost use Rattle.tables.specs.Model.{model_of, Judges};
ghost use Rattle.entering.specs.Entered.{FutureAt, entering, Enters};

use crate::keyed::Keyed;
use fixings::ClosedFixing;
use ledger::{State, Terms};
use positions::future_key;
use tables::Tables;
use terms::{Month, Reason, Refusal};

/// Gives a closed fixing to a month, which fixes its final price: 4 for a month out of range or a fixing of another
/// family, 7 where the month's future is not listed, 8 where it is not trading. The fixing is used up, and given back
/// by a refusal.
pub fn enter(
    tables: &mut Tables,
    month: u16,
    fixing: ClosedFixing,
) -> Result<(), (Refusal, ClosedFixing)>
    ensures { Enters month fixing tables.old tables.new result }
{
    // `map_err` would have to move the fixing into its closure.
    let mark = match future_for(tables, month, &fixing) {
        Ok(mark) => mark,
        Err(refusal) => return Err((refusal, fixing)),
    };
    let (_, price) = fixing.spend();
    let terms = Terms {
        value: mark.value,
        state: State::Fixed(price),
    };
    // The month's future has a row.
    let _ = tables.series.put(mark.key, terms);
    Ok(())
}

// The mark of the month's future, where the fixing may be given to the month.
fn future_for(tables: &Tables, month: u16, fixing: &ClosedFixing) -> Result<Keyed<i32>, Refusal>
    ensures { Judges (judge (model_of tables.now) (entering month fixing.now)) (FutureAt tables.now month) result }
{
    let book = tables.in_use()?;
    let month = Month::try_from(month)?;
    if fixing.family() != book.family {
        return Err(Refusal::plain(Reason::OutOfRange));
    }
    let future = tables.trading_future(month)?;
    Ok(Keyed {
        key: future_key(month),
        value: future.value,
    })
}
