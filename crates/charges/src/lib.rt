//! What several sides cost, by any tariff: all are quoted in the standing before, then charged in order.
#![tactic(auto)]

mod all;
mod both;
mod figure;
mod listing;
mod one;
#[cfg(test)]
mod tests;

pub use all::{charge_all, charge_each, quote_all};
pub use both::{charge_both, quote_both};
pub use figure::worked_figure;
pub use listing::charge_listing;
pub use one::fee_of;
