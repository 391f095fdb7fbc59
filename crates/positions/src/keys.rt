ghost use Rattle.std.specs.Prelude.{◌≡◌, ◌^◌, ◌<◌};
ghost use Rattle.terms.specs.Kinds.{kind_number};
ghost use Rattle.positions.specs.Keys.{series_key, future_key, is_future_key, line_key, series_of_key, account_of_key};

use series::Series;
use terms::Month;

/// The first month that has a number.
const FIRST_MONTH: u16 = 24_000;

/// How many keys each kind of series has in a month, one for each strike.
const KEYS_OF_KIND: u64 = 131_072;

/// How many keys the series of each month have: there are five kinds.
const KEYS_OF_MONTH: u64 = 5 * KEYS_OF_KIND;

/// How many keys the positions in each series have, one for each account: those in the series with the key `s` begin at
/// `s * KEYS_OF_SERIES`.
pub const KEYS_OF_SERIES: u64 = 65_536;

/// The key of a series: a month's series are neighbours, its future first.
pub fn series_key(series: Series) -> u64
    ensures value { result ≡ series_key (kind_number series.kind) series.month.number series.strike }
    ensures bound { result < 2 ^ 30 }
{
    let kind = series.kind() as u64;
    future_key(series.month()) + kind * KEYS_OF_KIND + u64::from(series.strike())
}

/// The key of a month's future.
pub fn future_key(month: Month) -> u64
    ensures value { result ≡ future_key month.number }
    ensures bound { result < 2 ^ 30 }
{
    u64::from(month.number() - FIRST_MONTH) * KEYS_OF_MONTH
}

/// Whether a series with this key is a future.
pub fn is_future_key(series: u64) -> bool
    ensures { result ≡ is_future_key series }
{
    series % KEYS_OF_MONTH == 0
}

/// The key of an account's position in a series: a series' positions are neighbours, in the order of accounts.
pub fn line_key(series: Series, account: u16) -> u64
    ensures { result ≡ line_key (series_key (kind_number series.kind) series.month.number series.strike) account }
{
    series_key(series) * KEYS_OF_SERIES + u64::from(account)
}

/// The key of the series that a position is in.
pub fn series_of_key(line: u64) -> u64
    ensures { result ≡ series_of_key line }
{
    line / KEYS_OF_SERIES
}

/// The account that has a position.
pub fn account_of_key(line: u64) -> u16
    ensures { result ≡ account_of_key line }
{
    (line % KEYS_OF_SERIES) as u16
}
