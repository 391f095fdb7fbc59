ghost use Rattle.std.specs.Prelude.{◌≡◌, pos, ◌+ℤ◌, ◌*ℤ◌, if◌then◌else◌, Some, None, FitsSigned};
ghost use Rattle.std.specs.Int.{w64};
ghost use Rattle.std.specs.Option.{SomeIff};
ghost use Rattle.terms.specs.Families.{cents_of};
ghost use Rattle.positions.specs.Money.{amount, balance_in, payoff, lapses};

use series::Series;
use terms::{Family, Price, SeriesKind};

/// The farthest a cash balance goes, in cents, above and below zero.
const MOST: i64 = 100_000_000_000_000_000;

/// One point, in hundredths.
const POINT: u32 = 100;

/// The cents that a move of so many hundredths brings so many units; `None` where they do not fit 64 bits.
#[tactic(auto, unfolding(crate::specs::Money::amount))]
pub fn amount(family: Family, units: i64, hundredths: i32) -> Option<i64>
    ensures { SomeIff result (FitsSigned w64 (amount family units hundredths)) (amount family units hundredths) }
{
    units.checked_mul(for_one_unit(family, hundredths))
}

fn for_one_unit(family: Family, hundredths: i32) -> i64
    ensures { result ≡ pos (cents_of family) *ℤ hundredths }
{
    i64::from(family.cents_per_hundredth()) * i64::from(hundredths)
}

/// A cash balance after an amount; `None` where it would leave its range.
pub fn paid(balance: i64, amount: i64) -> Option<i64>
    ensures { result ≡ (if balance_in (balance +ℤ amount) then Some (balance +ℤ amount) else None) }
{
    balance
        .checked_add(amount)
        .filter(|after| (-MOST..=MOST).contains(after))
}

/// How far a final price passes a cash option's strike in its favour, in hundredths; 0 for any other series.
pub fn payoff(series: Series, final_price: u32) -> u32
    ensures { result ≡ payoff series.kind series.strike final_price }
{
    let strike = series.strike() * POINT;
    match series.kind() {
        SeriesKind::Call => final_price.saturating_sub(strike),
        SeriesKind::Put => strike.saturating_sub(final_price),
        _ => 0,
    }
}

/// Whether an option on the future lapses at a level: a call is exercised above its strike, a put below.
pub fn lapses(series: Series, level: Price) -> bool
    ensures { result ≡ lapses series.kind series.strike level.hundredths }
{
    let strike = series.strike() * POINT;
    match series.kind() {
        SeriesKind::CallOnFuture => level.hundredths() <= strike,
        SeriesKind::PutOnFuture => strike <= level.hundredths(),
        _ => true,
    }
}
