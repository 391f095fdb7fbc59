// Whether the limits and the space allow a deal: refused by 10 for an account, then by 12.
ghost use Rattle.std.specs.Prelude.{◌≡◌, ◌+◌, ◌^◌, ◌≤◌, max, length, ◌+ℤ◌, nat_le, unsigned_abs};
ghost use Rattle.registers.specs.Held.{rows_of, room_of};
ghost use Rattle.ledger.specs.Calls as calls;
ghost use Rattle.ledger.specs.Calls.{Pricing};
ghost use Rattle.ledger.specs.Numbers.{key_of};
ghost use Rattle.ledger.specs.Book.{delta_at, delta_of, weight, family_in};
ghost use Rattle.ledger.specs.Post.{traded, post};
ghost use Rattle.ledger.specs.Judge.{limit};
ghost use Rattle.tables.specs.Model.{model_of};
ghost use Rattle.trading.specs.Deals.{trade_in};
ghost use Rattle.trading.specs.Parts.{allowed};
ghost use Rattle.trading.specs.Found.{stands_before, stands_after};

use crate::deltas::{delta_at, delta_of};
use crate::known::KnownDeal;
use positions::series_key;
use terms::{AccountNumber, Reason, Refusal};

/// The delta of one full contract in ten-thousandths, five units of 10,000.
const FULL: u128 = 50_000;

impl KnownDeal<'_> {
    // By how much the deal raises the buyer's delta, and lowers the seller's.
    fn delta(&self) -> i128
        ensures value { result ≡ weight (traded (trade_in self.now.deal)) (delta_at (model_of self.now.book.tables.now) (key_of (trade_in self.now.deal).series)) }
        ensures bound { unsigned_abs result ≤ 2 ^ 66 }
    {
        let series = series_key(self.deal.series);
        i128::from(self.deal.units()) * i128::from(delta_at(self.book.tables, series))
    }

    // Whether the account's delta, so much more, is within the limit, or no farther from zero than it was.
    fn within_limit(&self, account: AccountNumber, more: i128) -> bool
        requires { unsigned_abs more ≤ 2 ^ 66 }
        ensures { result ≡ nat_le (unsigned_abs (delta_of (model_of self.now.book.tables.now) account.number +ℤ more)) (max (limit (family_in (model_of self.now.book.tables.now))) (unsigned_abs (delta_of (model_of self.now.book.tables.now) account.number))) }
    {
        let before = delta_of(&self.book, account);
        let most = u128::from(self.book.family.limit()) * FULL;
        (before + more).unsigned_abs() <= most.max(before.unsigned_abs())
    }

    // Whether the positions have room for both as they become.
    fn has_room(&self) -> bool
        ensures { result ≡ nat_le (length (rows_of self.now.book.tables.now.positions) + (stands_after self.now.moves.buyer.after + stands_after self.now.moves.seller.after)) (room_of self.now.book.tables.now.positions + (stands_before self.now.moves.buyer.before + stands_before self.now.moves.seller.before)) }
    {
        let positions = &self.book.tables.positions;
        let buyer = &self.moves.buyer;
        let seller = &self.moves.seller;
        let rows = positions.len() + (buyer.rows_after() + seller.rows_after());
        rows <= positions.room() + (buyer.rows_before() + seller.rows_before())
    }

    /// Whether both accounts' limits and the space allow the deal.
    pub(crate) fn allowed(&self) -> Result<(), Refusal>
        ensures { (p : Pricing) → result ≡ allowed (model_of self.now.book.tables.now) (trade_in self.now.deal) (post (model_of self.now.book.tables.now) (calls.trade (trade_in self.now.deal)) p) }
    {
        let delta = self.delta();
        if !self.within_limit(self.deal.buyer, delta) {
            return Err(Refusal::about(Reason::OverLimit, self.deal.buyer.number()));
        }
        if !self.within_limit(self.deal.seller, -delta) {
            return Err(Refusal::about(Reason::OverLimit, self.deal.seller.number()));
        }
        if !self.has_room() {
            return Err(Refusal::plain(Reason::NoSpace));
        }
        Ok(())
    }
}
