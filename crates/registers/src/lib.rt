//! Registers: rows of any content under strictly ascending keys, in space that a supplier hands over.
#![tactic(auto)]

mod cut;
mod keyed;
mod laws;
mod seek;
mod space;
#[cfg(test)]
mod tests;

pub use keyed::{Register, Span};
pub use laws::register_laws;
pub use space::{Slots, book_accepts};
