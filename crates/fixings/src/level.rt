ghost use Rattle.std.specs.Prelude.{◌≡◌, ◌≤◌};

use terms::Price;

/// A sample, a close or a final price, in hundredths of a point: 0 to 10,000,000.
#[derive(Clone, Copy, PartialEq, Eq, Debug)]
pub(crate) struct Level {
    pub(crate) hundredths: u32,
    ghost most: { hundredths ≤ 10000000 },
}

impl From<Price> for Level {
    ghost from_gives = { λ price level. level.hundredths ≡ price.hundredths };

    fn from(price: Price) -> Level {
        Level {
            hundredths: price.hundredths(),
        }
    }
}

/// The level 0, which fills places that hold no sample.
impl Default for Level {
    fn default() -> Level {
        Level { hundredths: 0 }
    }
}
