use series::Series;
use terms::{AccountNumber, Contracts, Price, Size};

/// A trade whose numbers are in range.
#[derive(Clone, Copy)]
pub(crate) struct Deal {
    pub(crate) series: Series,
    pub(crate) size: Size,
    pub(crate) buyer: AccountNumber,
    pub(crate) seller: AccountNumber,
    pub(crate) count: Contracts,
    pub(crate) price: Price,
}
