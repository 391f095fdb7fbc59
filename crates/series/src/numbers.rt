/// A series in the numbers that offices send: the kind, 0 to 4, the month, year × 12 + month − 1, and the strike in points,
/// 0 for a future.
#[derive(Clone, Copy)]
pub struct SeriesNumbers {
    pub kind: u8,
    pub month: u16,
    pub strike: u32,
}
