//! A register of thousands of rows, run.
#![tactic(auto)]

#[cfg(test)]
mod tests;
