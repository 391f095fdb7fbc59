// From numbers to a deal: refused by 4 where one is out of range, then by 5 off the step or the tick.
ghost use Rattle.std.specs.Prelude.{◌≡◌};
ghost use Rattle.tables.specs.Model.{Judges};
ghost use Rattle.trading.specs.Deals.{trade_of, trade_in};
ghost use Rattle.trading.specs.Parts.{asked};

use crate::deal::Deal;
use crate::order::Trade;
use series::{Series, has_size};
use terms::{AccountNumber, Contracts, Family, Price, Reason, Refusal, Size};

/// The deal of a trade's numbers.
#[tactic(auto, unfolding(ledger::specs::Judge::need, crate::specs::Parts::asked))]
pub(crate) fn deal(family: Family, trade: Trade) -> Result<Deal, Refusal>
    ensures { Judges (asked family (trade_of trade)) (λ d. trade_in d ≡ trade_of trade) result }
{
    let series = Series::numbered(family, trade.series)?;
    let size = Size::try_from(trade.size)?;
    if !has_size(family, series.kind(), size) {
        return Err(Refusal::plain(Reason::OutOfRange));
    }
    let buyer = AccountNumber::try_from(trade.buyer)?;
    let seller = AccountNumber::try_from(trade.seller)?;
    let count = Contracts::try_from(trade.count)?;
    let price = Price::try_from(trade.price)?;
    if !series.on_step(family) || price.hundredths() % family.tick() != 0 {
        return Err(Refusal::plain(Reason::OffStep));
    }
    Ok(Deal {
        series,
        size,
        buyer,
        seller,
        count,
        price,
    })
}
