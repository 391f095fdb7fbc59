//! What a contract is: families, kinds, months, prices and steps, and why a call is refused.
#![tactic(auto)]

mod account;
mod contracts;
mod family;
mod kinds;
mod month;
mod price;
mod refusal;
mod steps;
mod texts;

pub use account::AccountNumber;
pub use contracts::Contracts;
pub use family::Family;
pub use kinds::{AccountKind, SeriesKind, Size};
pub use month::Month;
pub use price::Price;
pub use refusal::{NO_ACCOUNT, Reason, Refusal};
pub use steps::{StepBand, StepTable};
