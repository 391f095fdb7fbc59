ghost use Rattle.std.specs.Prelude.{◌≡◌, ◌<◌, pos, ◌-ℤ◌, ◌*ℤ◌, MatchOption, unsigned_abs};
ghost use Rattle.terms.specs.Families.{cents_of};
ghost use Rattle.settling.specs.Payments.{gains};

use crate::gain::Gain;
use positions::Position;
use terms::Family;

/// The farthest that a price goes at once, in hundredths of a point.
const FARTHEST: u64 = 20_000_000;

impl Gain {
    /// The gain where a price goes from one value to another; `None` where they lie farther apart than prices can.
    pub(crate) fn between(family: Family, from: i32, to: u32) -> Option<Gain>
        ensures { MatchOption result (20000000 < unsigned_abs (pos to -ℤ from)) (λ g. g.cents ≡ pos (cents_of family) *ℤ (pos to -ℤ from)) }
    {
        let hundredths = i64::from(to) - i64::from(from);
        if hundredths.unsigned_abs() > FARTHEST {
            return None;
        }
        // For one unit, over 64 bits: `positions::amount` takes 32 bits of hundredths.
        let cents = i64::from(family.cents_per_hundredth()) * hundredths;
        Some(Gain { cents })
    }

    /// What a position gets.
    pub(crate) fn of(self, position: Position) -> i64
        ensures { result ≡ gains self position }
    {
        position.units() * self.cents
    }
}
