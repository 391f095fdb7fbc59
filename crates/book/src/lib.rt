//! The book: calls that follow the rules, on a book that some list of events leads to.
#![tactic(auto, using(crate::proofs::History::onward, crate::proofs::History::entered_onward))]

mod calls;
mod reading;
mod sealed;

pub use sealed::Book;
