// An account's delta.
ghost use Rattle.std.specs.Prelude.{◌≡◌, ◌^◌, ◌≤◌, unsigned_abs};
ghost use Rattle.ledger.specs.Book.{delta_at, delta_of, weight};
ghost use Rattle.positions.specs.Keys.{series_of_key};
ghost use Rattle.positions.specs.Positions.{units};
ghost use Rattle.tables.specs.Model.{model_of};

use positions::{Position, account_of_key, is_future_key, series_of_key};
use tables::{InUse, Tables};
use terms::AccountNumber;

/// The delta of a future, in ten-thousandths.
const OF_FUTURE: i32 = 10_000;

/// The delta of a series by its key, in ten-thousandths.
pub(crate) fn delta_at(tables: &Tables, series: u64) -> i32
    ensures { result ≡ delta_at (model_of tables.now) series }
{
    if is_future_key(series) {
        return OF_FUTURE;
    }
    tables.series.read(series).map_or(0, |terms| terms.value)
}

// What a position adds to the delta of its account. A type for the bound would be made here and taken apart in the sum.
fn weighs(tables: &Tables, key: u64, position: Position) -> i128
    ensures value { result ≡ weight (units position) (delta_at (model_of tables.now) (series_of_key key)) }
    ensures bound { unsigned_abs result ≤ 2 ^ 66 }
{
    i128::from(position.units()) * i128::from(delta_at(tables, series_of_key(key)))
}

/// Units × delta, added up over the account's positions.
pub(crate) fn delta_of(book: &InUse, account: AccountNumber) -> i128
    ensures value { result ≡ delta_of (model_of book.now.tables.now) account.number }
    ensures bound { unsigned_abs result ≤ 2 ^ 78 }
{
    let positions = &book.tables.positions;
    let mut sum: i128 = 0;
    for (key, position) in positions.keys().iter().zip(positions.contents()) {
        // Tested here and not in what is added, so that a position of another account costs no sum.
        if account_of_key(*key) == account.number() {
            sum += weighs(book.tables, *key, *position);
        }
    }
    sum
}
