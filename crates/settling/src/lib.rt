//! New marks of futures, and series that are settled.
#![tactic(auto, unfolding(ledger::specs::Judge::need))]

mod gain;
mod gains;
mod lines;
mod marking;

pub use marking::mark;
