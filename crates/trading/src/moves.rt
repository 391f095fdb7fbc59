// The positions of a deal's accounts, before and after it.
ghost use Rattle.std.specs.Prelude.{◌≡◌, ◌≤◌, unsigned_abs};
ghost use Rattle.positions.specs.Positions.{dealt};
ghost use Rattle.ledger.specs.Numbers.{key_of};
ghost use Rattle.ledger.specs.Book.{position_at};
ghost use Rattle.ledger.specs.Post.{traded};
ghost use Rattle.tables.specs.Model.{model_of};
ghost use Rattle.trading.specs.Deals.{trade_in};
ghost use Rattle.trading.specs.Found.{MoveOf, MovesOf, stands_before, stands_after, parties_at};

use crate::deal::Deal;
use crate::found::{Move, Moves, Parties};
use positions::line_key;
use tables::Tables;
use terms::{AccountKind, AccountNumber};

impl Deal {
    /// The units of a deal.
    pub(crate) fn units(&self) -> i64
        ensures value { result ≡ traded (trade_in self.now) }
        ensures bound { unsigned_abs result ≤ 500000 }
    {
        i64::from(self.size.units()) * i64::from(self.count.count())
    }

    // The position of an account in the deal's series before and after `more` contracts.
    fn position_move(
        &self,
        tables: &Tables,
        account: AccountNumber,
        holder: AccountKind,
        more: i32,
    ) -> Move
        ensures { MoveOf (model_of tables.now) (trade_in self.now) account.number (dealt holder self.now.size more (position_at (model_of tables.now) (key_of (trade_in self.now).series) account.number)) result }
    {
        let key = line_key(self.series, account.number());
        let before = tables.positions.read(key);
        let held = before.unwrap_or_default();
        Move {
            key,
            before,
            after: held.changed(holder, self.size, more),
        }
    }

    /// Both positions before and after the deal.
    pub(crate) fn moves(&self, tables: &Tables, parties: &Parties) -> Moves
        requires { parties.now ≡ parties_at (model_of tables.now) (trade_in self.now) }
        ensures { MovesOf (model_of tables.now) (trade_in self.now) result }
    {
        let count = self.count.count() as i32;
        Moves {
            buyer: self.position_move(tables, self.buyer, parties.buyer.kind, count),
            seller: self.position_move(tables, self.seller, parties.seller.kind, -count),
        }
    }
}

impl Move {
    /// How many rows the position takes before the deal.
    pub(crate) fn rows_before(&self) -> usize
        ensures value { result ≡ stands_before self.now.before }
        ensures bound { result ≤ 1 }
    {
        usize::from(self.before.is_some())
    }

    /// How many rows the position takes after the deal; out of range, it is not flat.
    pub(crate) fn rows_after(&self) -> usize
        ensures value { result ≡ stands_after self.now.after }
        ensures bound { result ≤ 1 }
    {
        self.after
            .map_or(1, |position| usize::from(!position.is_flat()))
    }
}
