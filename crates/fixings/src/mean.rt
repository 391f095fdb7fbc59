ghost use Rattle.std.specs.Prelude.{◌≡◌, ◌+◌, ◌*◌, ◌/◌, ◌<◌, ◌≤◌, [], ◌∷◌, ◌++◌, length, sum};
ghost use Rattle.fixings.specs.Finals.{in_hundredths, final_price, IsFinal};

use crate::level::Level;
use terms::Family;

/// A whole point, in hundredths.
const POINT: u64 = 100;

/// Prices of which the mean is taken: their sum, and how many they are.
#[derive(Clone, Copy)]
struct Prices {
    sum: u64,
    count: u64,
    ghost some: { 0 < count },
    ghost few: { count ≤ 201 },
    ghost most: { sum ≤ 10000000 * count },
}

/// The final price that the samples and the close make for the family.
#[tactic(auto, using(crate::proofs::Means::meant))]
pub(crate) fn final_price(family: Family, samples: &[Level], close: Level) -> Level
    requires few { length samples.now ≤ 200 }
    ensures value { result.hundredths ≡ final_price family (in_hundredths samples.now ++ close.hundredths ∷ []) }
    ensures meaning { IsFinal family (in_hundredths samples.now ++ close.hundredths ∷ []) result.hundredths }
{
    let prices = Prices::of(samples, close);
    match family {
        Family::HangSeng | Family::ChinaEnterprises => prices.lowered(),
        Family::MsciTaiwan => prices.rounded(),
    }
}

impl Prices {
    // The samples and the close.
    fn of(samples: &[Level], close: Level) -> Prices
        requires few { length samples.now ≤ 200 }
        ensures total { result.sum ≡ sum (in_hundredths samples.now ++ close.hundredths ∷ []) }
        ensures number { result.count ≡ length (in_hundredths samples.now ++ close.hundredths ∷ []) }
    {
        let total: u64 = samples
            .iter()
            .map(|level| u64::from(level.hundredths))
            .sum();
        Prices {
            sum: total + u64::from(close.hundredths),
            count: samples.len() as u64 + 1,
        }
    }

    // The mean, lowered to a whole point.
    fn lowered(self) -> Level
        ensures { result.hundredths ≡ self.sum / (100 * self.count) * 100 }
    {
        let price = self.sum / (POINT * self.count) * POINT;
        Level {
            hundredths: price as u32,
        }
    }

    // The mean, rounded to hundredths, a half upwards.
    fn rounded(self) -> Level
        ensures { result.hundredths ≡ (2 * self.sum + self.count) / (2 * self.count) }
    {
        let twice = 2 * self.sum + self.count;
        Level {
            hundredths: (twice / (2 * self.count)) as u32,
        }
    }
}
