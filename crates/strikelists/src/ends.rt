ghost use Rattle.std.specs.Prelude.{ℕ, ◌+◌, ◌*◌, ◌<◌, ◌≤◌};
ghost use Rattle.terms.specs.Steps.{Listed};
ghost use Rattle.strikelists.specs.Strikes.{Nearest, LowEnd, HighEnd};

use crate::grid::{Middle, StrikeGrid};
use terms::Price;

impl StrikeGrid {
    // The greatest strike at or below `point`, or 0 where there is none: 0 is no strike, and `nearest` goes on from it.
    #[tactic(auto, using(crate::proofs::Neighbours::floors))]
    fn at_or_below(&self, point: u32) -> u32
        ensures below { result ≤ point }
        ensures listed { 0 < result → Listed self.now.steps.bands result }
        ensures greatest { (k : ℕ) → Listed self.now.steps.bands k → k ≤ point → k ≤ result }
    {
        point - point % self.steps.step_at(point)
    }

    // The least strike at or above `point`.
    #[tactic(auto, using(crate::proofs::Neighbours::ceilings))]
    fn at_or_above(&self, point: u32) -> u32
        requires { (0 < point) × (point ≤ 1000000) }
        ensures above { (point ≤ result) × (result ≤ point + 200) }
        ensures listed { Listed self.now.steps.bands result }
        ensures least { (k : ℕ) → Listed self.now.steps.bands k → point ≤ k → result ≤ k }
    {
        let step = self.steps.step_at(point);
        let over = point % step;
        if over == 0 {
            point
        } else {
            point - over + step
        }
    }

    /// The strike nearest to a level, the lower of two that are as near.
    pub(crate) fn nearest(&self, level: Price) -> Middle
        ensures { Nearest self.now.steps.bands level.hundredths result.strike }
    {
        let level = level.hundredths();
        let below = self.at_or_below(level / 100);
        let above = self.at_or_above(below + 1);
        let strike = if below > 0 && level - 100 * below <= 100 * above - level {
            below
        } else {
            above
        };
        Middle { strike }
    }

    /// The lower end of the list around a strike.
    pub(crate) fn low_end(&self, middle: Middle) -> u32
        ensures { LowEnd self.now.steps.bands middle.strike result }
    {
        let low = self.at_or_below(9 * middle.strike / 10);
        if low == 0 { self.at_or_above(1) } else { low }
    }

    /// The upper end of the list around a strike.
    pub(crate) fn high_end(&self, middle: Middle) -> u32
        ensures high { HighEnd self.now.steps.bands middle.strike result }
        ensures bound { result ≤ 200000 }
    {
        self.at_or_above((11 * middle.strike + 9) / 10)
    }
}
