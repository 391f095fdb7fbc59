//! The rule book: what each of the nine calls does, the ledger of a list of calls, and the law that ties the two.
#![tactic(auto)]

mod laws;
mod rows;
mod states;

pub use laws::{book_balances, book_is_sound, laws_last, smaller_laws, worked_histories};
pub use rows::{Account, State, Terms};
