// Who and what a deal concerns: refused by 7 where one is not there, by 8 where the states do not allow it, and by 9
// where the buyer is the seller.
ghost use Rattle.std.specs.Prelude.{◌≡◌};
ghost use Rattle.ledger.specs.Book.{month_at};
ghost use Rattle.tables.specs.Model.{Judges, model_of};
ghost use Rattle.trading.specs.Deals.{trade_in};
ghost use Rattle.trading.specs.Parts.{known};
ghost use Rattle.trading.specs.Found.{parties_at};

use crate::deal::Deal;
use crate::found::Parties;
use ledger::State;
use positions::{future_key, series_key};
use tables::Tables;
use terms::{Month, Reason, Refusal};

// The state of a month, which stands with its future.
fn month_state(tables: &Tables, month: Month) -> State
    ensures { result ≡ month_at (model_of tables.now) month.number }
{
    tables
        .series
        .read(future_key(month))
        .map_or(State::Trading, |future| future.state)
}

/// Both accounts and the series of a deal that may be done.
#[tactic(auto, unfolding(ledger::specs::Judge::need, crate::specs::Parts::known))]
pub(crate) fn parties(tables: &Tables, deal: &Deal) -> Result<Parties, Refusal>
    ensures { Judges (known (model_of tables.now) (trade_in deal.now)) (λ q. q ≡ parties_at (model_of tables.now) (trade_in deal.now)) result }
{
    let buyer = tables.account(deal.buyer.number())?;
    let seller = tables.account(deal.seller.number())?;
    let terms = tables.listed(series_key(deal.series))?;
    let month = month_state(tables, deal.series.month());
    if !month.is_trading() || terms.state.is_done() {
        return Err(Refusal::plain(Reason::WrongState));
    }
    if deal.buyer == deal.seller {
        return Err(Refusal::plain(Reason::SameAccount));
    }
    Ok(Parties {
        buyer,
        seller,
        terms,
    })
}
