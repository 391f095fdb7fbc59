//! An account's contracts in one series, the cash that they bring, and the keys under which they stand.
#![tactic(auto)]

mod keys;
mod money;
mod position;

pub use keys::{
    KEYS_OF_SERIES, account_of_key, future_key, is_future_key, line_key, series_key, series_of_key,
};
pub use money::{amount, lapses, paid, payoff};
pub use position::Position;
