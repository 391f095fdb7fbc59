// What the tests of a trade find.
use ledger::{Account, Terms};
use positions::Position;
use tariffs::Side;

// Both accounts and the series, as they stand before the trade.
#[derive(Clone, Copy)]
pub(crate) struct Parties {
    pub(crate) buyer: Account,
    pub(crate) seller: Account,
    pub(crate) terms: Terms,
}

// An account's position before the trade, if there is one, and after it, if it is in range.
#[derive(Clone, Copy)]
pub(crate) struct Move {
    pub(crate) key: u64,
    pub(crate) before: Option<Position>,
    pub(crate) after: Option<Position>,
}

// Both accounts' positions.
#[derive(Clone, Copy)]
pub(crate) struct Moves {
    pub(crate) buyer: Move,
    pub(crate) seller: Move,
}

// One side of an accepted trade: what its account and its position become.
#[derive(Clone, Copy)]
pub(crate) struct Leg {
    pub(crate) side: Side,
    pub(crate) key: u64,
    pub(crate) account: Account,
    pub(crate) position: Position,
}

// What an accepted trade comes to.
#[derive(Clone, Copy)]
pub(crate) struct Outcome {
    pub(crate) buyer: Leg,
    pub(crate) seller: Leg,
    pub(crate) exchange: i64,
}
