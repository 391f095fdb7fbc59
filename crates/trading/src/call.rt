ghost use Rattle.std.specs.Prelude.{◌≡◌};
ghost use Rattle.ledger.specs.Runs.{standing_after};
ghost use Rattle.tables.specs.Model.{model_of, Follows};
ghost use Rattle.trading.specs.Deals.{trade_of, event_of};

use crate::judge::judged;
use crate::order::Trade;
use crate::post::post;
use tables::Tables;
use tariffs::Tariff;
use terms::Refusal;

/// Trades: so many contracts go from the seller to the buyer, who settle in cash, and both pay the tariff's fees to the
/// exchange. All tests are made first; a refused trade changes neither the tables nor the tariff's standing.
pub fn trade<T: Tariff>(tables: &mut Tables, tariff: &mut T, trade: Trade) -> Result<(), Refusal>
    ensures follows { Follows (event_of (T.Tariff.price tariff.old) (trade_of trade)) tables.old tables.new result }
    ensures standing { tariff.new ≡ standing_after T.Tariff.after tariff.old (model_of tables.old) (event_of (T.Tariff.price tariff.old) (trade_of trade)) }
{
    let outcome = judged(tables, tariff, trade)?;
    tariff.charge(&outcome.buyer.side);
    tariff.charge(&outcome.seller.side);
    post(tables, &outcome);
    Ok(())
}
