//! The call of a trade: its numbers become a deal, which is judged by the tables, charged and posted.
#![tactic(auto)]

mod amounts;
mod call;
mod deal;
mod deltas;
mod door;
mod found;
mod judge;
mod known;
mod limits;
mod moves;
mod order;
mod post;
mod reads;

pub use call::trade;
pub use order::Trade;
