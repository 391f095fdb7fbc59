//! The three registers of a book, opened over supplied space, and what is read from them.
#![tactic(auto, unfolding(ledger::specs::Judge::need))]

mod in_use;
mod months;
mod opening;
mod placing;
mod reading;
mod space;
mod tables;

pub use in_use::InUse;
pub use placing::place;
pub use space::Space;
pub use tables::Tables;
