// What a deal comes to: refused by 14 where a count or a balance would leave its range.
ghost use Rattle.std.specs.Prelude.{◌≡◌, ◌+◌, ◌^◌, ◌≤◌, ◌&&◌, pos, ◌+ℤ◌, is_some, Ok, unsigned_abs};
ghost use Rattle.terms.specs.declared.refusal.Reason.TheVariants.{AmountOutOfRange};
ghost use Rattle.terms.specs.Refusals.{about};
ghost use Rattle.positions.specs.Money.{amount, balance_in};
ghost use Rattle.ledger.specs.Calls as calls;
ghost use Rattle.ledger.specs.Calls.{Pricing};
ghost use Rattle.ledger.specs.Charges.{trade_side};
ghost use Rattle.ledger.specs.Post.{cash_of, post};
ghost use Rattle.ledger.specs.Judge.{need};
ghost use Rattle.tables.specs.Model.{Judges, model_of};
ghost use Rattle.trading.specs.Deals.{trade_in};
ghost use Rattle.trading.specs.Parts.{afforded};
ghost use Rattle.trading.specs.Found.{LegBy, OutcomeOf, fee_on};

use crate::deal::Deal;
use crate::found::{Leg, Move, Outcome};
use crate::known::KnownDeal;
use ledger::Account;
use positions::paid;
use tariffs::{Event, Side};
use terms::{AccountKind, AccountNumber, Family, Reason, Refusal, SeriesKind};

impl Deal {
    /// An account's side of a deal.
    pub(crate) fn side(&self, account: AccountNumber, account_kind: AccountKind) -> Side
        ensures { result ≡ trade_side (trade_in self.now) account.number account_kind }
    {
        Side {
            account: account.number(),
            account_kind,
            series_kind: self.series.kind(),
            size: self.size,
            event: Event::Trade,
            count: self.count.count(),
        }
    }

    // What the buyer gets from the seller: in a future up to the mark; in an option he pays the premium.
    fn cash(&self, family: Family, value: i32) -> i64
        ensures value { result ≡ cash_of family value (trade_in self.now) }
        ensures bound { unsigned_abs result ≤ 2 ^ 56 }
    {
        let units = self.units();
        let price = i64::from(self.price.hundredths());
        match self.series.kind() {
            SeriesKind::Future => cents(family, units, i64::from(value) - price),
            _ => -cents(family, units, price),
        }
    }
}

// The cents that a move of so many hundredths brings so many units. `positions::amount` takes 32 bits of hundredths, and two
// prices may lie farther apart.
fn cents(family: Family, units: i64, hundredths: i64) -> i64
    requires units { unsigned_abs units ≤ 500000 }
    requires hundredths { unsigned_abs hundredths ≤ 2 ^ 32 }
    ensures value { result ≡ amount family units hundredths }
    ensures bound { unsigned_abs result ≤ 2 ^ 56 }
{
    units * (i64::from(family.cents_per_hundredth()) * hundredths)
}

// What an account and its position become, unless a count or the balance leaves its range.
#[tactic(auto, unfolding(ledger::specs::Judge::need))]
fn leg(side: Side, before: Account, moved: &Move, amount: i64) -> Result<Leg, Refusal>
    ensures { Judges (need (is_some moved.now.after && balance_in (before.cash +ℤ amount)) (about AmountOutOfRange side.account) (Ok tt)) (LegBy side before moved.now amount) result }
{
    let refusal = Refusal::about(Reason::AmountOutOfRange, side.account);
    let position = moved.after.ok_or(refusal)?;
    let cash = paid(before.cash, amount).ok_or(refusal)?;
    Ok(Leg {
        side,
        key: moved.key,
        account: Account {
            kind: before.kind,
            cash,
        },
        position,
    })
}

impl KnownDeal<'_> {
    /// What the deal comes to at the buyer's and the seller's fee.
    pub(crate) fn outcome(&self, fees: (u64, u64)) -> Result<Outcome, Refusal>
        requires { fees.0 + fees.1 ≤ 20000000000 }
        ensures { (p : Pricing) → fee_on (model_of self.now.book.tables.now) (trade_in self.now.deal) p self.now.deal.buyer.number ≡ pos fees.0 → fee_on (model_of self.now.book.tables.now) (trade_in self.now.deal) p self.now.deal.seller.number ≡ pos fees.1 → Judges (afforded (trade_in self.now.deal) (post (model_of self.now.book.tables.now) (calls.trade (trade_in self.now.deal)) p)) (OutcomeOf (model_of self.now.book.tables.now) (trade_in self.now.deal) p) result }
    {
        let deal = &self.deal;
        let parties = &self.parties;
        let cash = deal.cash(self.book.family, parties.terms.value);
        let buying = deal.side(deal.buyer, parties.buyer.kind);
        let buyer = leg(
            buying,
            parties.buyer,
            &self.moves.buyer,
            cash - fees.0 as i64,
        )?;
        let selling = deal.side(deal.seller, parties.seller.kind);
        let seller = leg(
            selling,
            parties.seller,
            &self.moves.seller,
            -cash - fees.1 as i64,
        )?;
        let exchange = paid(self.book.tables.exchange, (fees.0 + fees.1) as i64).ok_or(
            Refusal::plain(Reason::AmountOutOfRange),
        )?;
        Ok(Outcome {
            buyer,
            seller,
            exchange,
        })
    }
}
