use crate::level::Level;
use terms::Family;

mod calls;

/// A fixing that has its final price. It cannot be let go: its price is spent once.
pub struct ClosedFixing {
    pub(crate) family: Family,
    pub(crate) price: Level,
}
