ghost use Rattle.std.specs.Prelude.{◌≤◌, length};

use crate::level::Level;
use arrayvec::ArrayVec;
use terms::Family;

mod calls;

/// The most samples that a fixing takes.
const MOST_SAMPLES: usize = 200;

/// A fixing that takes samples. It cannot be let go: it is closed, or abandoned by name.
pub struct OpenFixing {
    pub(crate) family: Family,
    pub(crate) expected: usize,
    pub(crate) samples: ArrayVec<Level, MOST_SAMPLES>,
    ghost some: { 1 ≤ expected },
    ghost most: { expected ≤ 200 },
    ghost within: { length samples.items ≤ expected },
}
