use ledger::{Account, Terms};
use positions::Position;
use registers::Register;

/// What a book holds: the number of its family (any opens it, and calls refuse one that is none), its three registers,
/// and the exchange's cash balance in cents. Accounts stand under their numbers, series and positions under the keys of
/// `positions`.
#[derive(Drop)]
pub struct Tables {
    pub family: u8,
    pub accounts: Register<Account>,
    pub series: Register<Terms>,
    pub positions: Register<Position>,
    pub exchange: i64,
}
