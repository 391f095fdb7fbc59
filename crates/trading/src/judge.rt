// All tests of a trade, in their order. Nothing is written.
ghost use Rattle.charges.specs.Fees.{rated_all};
ghost use Rattle.ledger.specs.Calls as calls;
ghost use Rattle.ledger.specs.Charges.{charged};
ghost use Rattle.ledger.specs.Post.{post};
ghost use Rattle.ledger.specs.Judge.{also};
ghost use Rattle.ledger.specs.Runs.{judge};
ghost use Rattle.tables.specs.Model.{Judges, model_of};
ghost use Rattle.trading.specs.Deals.{trade_of, event_of, trade_in};
ghost use Rattle.trading.specs.Parts.{afforded};
ghost use Rattle.trading.specs.Found.{OutcomeOf};

use crate::door::deal;
use crate::found::Outcome;
use crate::known::KnownDeal;
use crate::order::Trade;
use crate::reads::parties;
use charges::quote_both;
use tables::Tables;
use tariffs::Tariff;
use terms::Refusal;

impl KnownDeal<'_> {
    // Both fees in the tariff's standing, 13 where one has no rate, and what the deal comes to at them.
    fn priced<T: Tariff>(&self, tariff: &T) -> Result<Outcome, Refusal>
        ensures { Judges (also (rated_all (T.Tariff.price tariff.now) (charged (model_of self.now.book.tables.now) (calls.trade (trade_in self.now.deal)))) (afforded (trade_in self.now.deal) (post (model_of self.now.book.tables.now) (calls.trade (trade_in self.now.deal)) (T.Tariff.price tariff.now)))) (OutcomeOf (model_of self.now.book.tables.now) (trade_in self.now.deal) (T.Tariff.price tariff.now)) result }
    {
        let buyer = self.deal.side(self.deal.buyer, self.parties.buyer.kind);
        let seller = self.deal.side(self.deal.seller, self.parties.seller.kind);
        let fees = quote_both(tariff, &buyer, &seller)?;
        self.outcome(fees)
    }
}

/// What the trade comes to, or its refusal.
pub(crate) fn judged<T: Tariff>(
    tables: &Tables,
    tariff: &T,
    trade: Trade,
) -> Result<Outcome, Refusal>
    ensures { Judges (judge (model_of tables.now) (event_of (T.Tariff.price tariff.now) (trade_of trade))) (OutcomeOf (model_of tables.now) (trade_of trade) (T.Tariff.price tariff.now)) result }
{
    let book = tables.in_use()?;
    let deal = deal(book.family, trade)?;
    let parties = parties(tables, &deal)?;
    let moves = deal.moves(tables, &parties);
    let known = KnownDeal {
        book,
        deal,
        parties,
        moves,
    };
    known.allowed()?;
    known.priced(tariff)
}
