//! Tariffs: what a side of a trade or an exercise costs.
#![tactic(auto)]

mod allowance;
mod choice;
mod entries;
mod listing;
mod rate;
mod side;
mod tariff;

pub use allowance::Allowance;
pub use either::Either;
pub use listing::Listing;
pub use side::{Event, Side};
pub use tariff::Tariff;
