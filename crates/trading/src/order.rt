use series::SeriesNumbers;

/// A trade in the numbers that offices send: the series, the size, the accounts that buy and sell, how many contracts, and
/// the price in hundredths of a point.
#[derive(Clone, Copy)]
pub struct Trade {
    pub series: SeriesNumbers,
    pub size: u8,
    pub buyer: u16,
    pub seller: u16,
    pub count: u32,
    pub price: u32,
}
