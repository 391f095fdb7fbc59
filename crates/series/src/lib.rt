//! Which series a family has, and the deltas that they take.
#![tactic(auto)]

mod checks;
mod delta;
mod numbers;
mod series;

pub use checks::{has_size, offers};
pub use delta::Delta;
pub use numbers::SeriesNumbers;
pub use series::Series;
