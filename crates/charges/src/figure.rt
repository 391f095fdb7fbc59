ghost use Rattle.std.specs.Prelude.{◌≡◌, ◌*◌, min, Some, Ok};
ghost use Rattle.tariffs.specs.Allowed.{trade_fee};
ghost use Rattle.charges.specs.Figure.{five, ThreeLeft};

use crate::one::fee_of;
use tariffs::{Allowance, Event, Listing, Side};
use terms::{AccountKind, Refusal, SeriesKind, Size};

/// A worked figure: 3 contracts left at 200 cents over a rate of 1,000, and a maker's trade of 5.
pub fn worked_figure() -> Result<u64, Refusal>
    ensures figure { trade_fee (λ rest. Some (rest.count * 1000)) 200 (min 5 3) five ≡ Some 2600 }
    ensures code { result ≡ Ok 2600 }
{
    let side = Side {
        account: 7,
        account_kind: AccountKind::Maker,
        series_kind: SeriesKind::Future,
        size: Size::Full,
        event: Event::Trade,
        count: 5,
    };
    fee_of(&three_left()?, &side)
}

// Account 7 has 3 contracts left at 200 cents; below, a maker's trade of futures costs 1,000.
fn three_left() -> Result<Allowance<Listing>, Refusal>
    ensures { ThreeLeft result }
{
    let mut listing = Listing::new();
    listing.set(0, 0, 1, 0, Some(1_000))?;
    let mut allowance = Allowance::new(listing);
    allowance.set_reduced(200)?;
    allowance.set_left(7, 3)?;
    Ok(allowance)
}
