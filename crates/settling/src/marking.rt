ghost use Rattle.std.specs.Prelude.{◌≡◌, ◌^◌, ◌<◌, true, if◌then◌else◌};
ghost use Rattle.registers.specs.Held.{rows_of, room_of};
ghost use Rattle.ledger.specs.Rows.{present, change, in_series};
ghost use Rattle.ledger.specs.Book.{unlisted};
ghost use Rattle.ledger.specs.Post.{valued};
ghost use Rattle.ledger.specs.Judge.{accepted};
ghost use Rattle.ledger.specs.Sound.{Sound};
ghost use Rattle.tables.specs.Model.{model_of, Follows};
ghost use Rattle.ledger.specs.Sound.{Owned};
ghost use Rattle.settling.specs.Payments.{gains, tested};
ghost use Rattle.settling.specs.Marks.{marking, moved};

use crate::gain::Gain;
use crate::lines::{post_gains, test_gains};
use ledger::Terms;
use positions::{KEYS_OF_SERIES, future_key};
use registers::{Register, Span};
use tables::Tables;
use terms::{Month, Price, Reason, Refusal};

/// Moves the mark of a month's future to a price, in hundredths of a point: each position in it gets the difference.
pub fn mark(tables: &mut Tables, month: u16, price: u32) -> Result<(), Refusal>
    ensures { Sound (model_of tables.old) → Owned (model_of tables.old) → Follows (marking month price) tables.old tables.new result }
{
    let family = tables.usable()?;
    let month = Month::try_from(month)?;
    let price = Price::try_from(price)?;
    let future = tables.trading_future(month)?;
    let gain = Gain::between(family, future.value, price.hundredths()).ok_or(Refusal::plain(
        Reason::AmountOutOfRange,
    ))?;
    move_mark(tables, future_key(month), gain, price)
}

// Tests what each position in the future gets, then pays it and writes the mark.
fn move_mark(tables: &mut Tables, future: u64, gain: Gain, mark: Price) -> Result<(), Refusal>
    requires bound { future < 2 ^ 30 }
    requires listed { present (rows_of tables.old.series) future ≡ true }
    ensures answer { result ≡ tested (gains gain) (in_series future (rows_of tables.old.positions)) (rows_of tables.old.accounts) }
    ensures book { model_of tables.new ≡ (if accepted result then moved (gains gain) future mark.hundredths (model_of tables.old) else model_of tables.old) }
{
    let Span { from, to } = tables
        .positions
        .stretch(future * KEYS_OF_SERIES, (future + 1) * KEYS_OF_SERIES);
    let keys = &tables.positions.keys()[from..to];
    let positions = &tables.positions.contents()[from..to];
    test_gains(&tables.accounts, keys, positions, gain)?;
    post_gains(&mut tables.accounts, keys, positions, gain);
    set_value(&mut tables.series, future, mark.hundredths() as i32);
    Ok(())
}

// Writes the value of a listed series.
fn set_value(series: &mut Register<Terms>, key: u64, value: i32)
    requires { present (rows_of series.old) key ≡ true }
    ensures rows { rows_of series.new ≡ change unlisted (valued value) key (rows_of series.old) }
    ensures room { room_of series.new ≡ room_of series.old }
{
    if let Some(terms) = series.get_mut(key) {
        terms.value = value;
    }
}
