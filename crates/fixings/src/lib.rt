//! The fixing of the last trading day: samples of an index are taken, and from them and the close the final price is made.
#![tactic(auto)]

mod closed;
mod figures;
mod level;
mod mean;
mod open;
#[cfg(test)]
mod tests;
mod whole;

pub use closed::ClosedFixing;
pub use figures::worked_figures;
pub use open::OpenFixing;
pub use whole::fix;
