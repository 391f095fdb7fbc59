//! The calls that move no cash: admit, list, close, delta and enter.
#![tactic(auto, unfolding(ledger::specs::Judge::need, ledger::specs::Judge::judge_call, ledger::specs::Judge::also, ledger::specs::Runs::judge, ledger::specs::Runs::afterwards, ledger::specs::Post::post, ledger::specs::Rows::change))]

mod admission;
mod closing;
mod deltas;
mod keyed;
mod listing;
mod months;

pub use admission::admit;
pub use closing::close;
pub use deltas::delta;
pub use listing::list;
pub use months::enter;
