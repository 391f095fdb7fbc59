ghost use Rattle.std.specs.Prelude.{◌≡◌, [], length};
ghost use Rattle.fixings.specs.Calls.{taken, Fixes, TakesAll};

use crate::closed::ClosedFixing;
use crate::open::OpenFixing;
use terms::Refusal;

/// A whole fixing in one call: begun with as many samples as there are, sampled and closed.
pub fn fix(family: u8, samples: &[u32], close: u32) -> Result<ClosedFixing, Refusal>
    ensures { Fixes family samples.now close result }
{
    let begun = OpenFixing::begin(family, samples.len())?;
    let sampled = take_all(begun, samples)?;
    sampled.close(close).map_err(|(refusal, left)| {
        left.abandon();
        refusal
    })
}

// Gives all samples to a fixing that has taken none.
fn take_all(begun: OpenFixing, samples: &[u32]) -> Result<OpenFixing, Refusal>
    requires none { taken begun ≡ [] }
    requires all { begun.expected ≡ length samples.now }
    ensures { TakesAll begun samples.now result }
{
    let mut fixing = begun;
    for price in samples {
        if let Err(refusal) = fixing.sample(*price) {
            fixing.abandon();
            return Err(refusal);
        }
    }
    Ok(fixing)
}
