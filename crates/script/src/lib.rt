//! Reading a script of commands: its lines, their words, and the numbers among them, all as bytes.
#![tactic(auto)]

mod digits;
mod numbers;
mod points;
#[cfg(test)]
mod tests;
mod words;

pub use numbers::{Misread, hundredths, number};
pub use points::{Points, written};
pub use words::{Span, line_end, word_at};
