use ledger::{Account, Terms};
use positions::Position;
use registers::Slots;

/// The space that is supplied for a book.
#[derive(Drop)]
pub struct Space {
    pub accounts: Slots<Account>,
    pub series: Slots<Terms>,
    pub positions: Slots<Position>,
}
