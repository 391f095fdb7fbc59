ghost use Rattle.std.specs.Prelude.{◌≡◌, ◌≤◌};

use crate::closed::ClosedFixing;
use terms::Family;

impl ClosedFixing {
    /// The family whose price is fixed.
    pub fn family(&self) -> Family
        ensures { result ≡ self.now.family }
    {
        self.family
    }

    /// The final price in hundredths of a point; it may be 0.
    pub fn final_price(&self) -> u32
        ensures value { result ≡ self.now.price.hundredths }
        ensures most { result ≤ 10000000 }
    {
        self.price.hundredths
    }

    /// Uses the fixing up. Answers its family and its final price.
    pub fn spend(self) -> (Family, u32)
        ensures value { result ≡ (self.family, self.price.hundredths) }
        ensures most { result.1 ≤ 10000000 }
    {
        let ClosedFixing { family, price } = self;
        (family, price.hundredths)
    }
}
