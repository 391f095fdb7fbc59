ghost use Rattle.std.specs.Prelude.{◌≡◌, Ok};
ghost use Rattle.tables.specs.Model.{model_of};
ghost use Rattle.trading.specs.Deals.{trade_in};
ghost use Rattle.trading.specs.Parts.{known};
ghost use Rattle.trading.specs.Found.{parties_at, MovesOf};

use crate::deal::Deal;
use crate::found::{Moves, Parties};
use tables::InUse;

/// A deal that may be done as far as its accounts, its series and their states go, with what it moves.
#[derive(Clone, Copy)]
pub(crate) struct KnownDeal<'a> {
    pub(crate) book: InUse<'a>,
    pub(crate) deal: Deal,
    pub(crate) parties: Parties,
    pub(crate) moves: Moves,
    ghost passed: { known (model_of book.tables.now) (trade_in deal) ≡ Ok tt },
    ghost found: { parties ≡ parties_at (model_of book.tables.now) (trade_in deal) },
    ghost moved: { MovesOf (model_of book.tables.now) (trade_in deal) moves },
}
