ghost use Rattle.std.specs.Prelude.{◌≡◌, ◌-◌, ◌≤◌, ◌++◌, length, drop};
ghost use Rattle.std.specs.Iterator.{at_most};
ghost use Rattle.strikelists.specs.Runs.{rungs_in, rungs_of, strikes_of, run_end, TakesRun};

use crate::span::{Run, Span};
use terms::StepBand;

impl Run {
    // How many strikes lie above the first.
    fn rungs(&self) -> usize
        ensures { result ≡ rungs_in self.now }
    {
        ((self.end - self.from) / self.step) as usize
    }

    // Writes the strikes above the first.
    fn write(&self, part: &mut [u32])
        requires { length part.old ≡ rungs_in self.now }
        ensures { part.new ≡ rungs_of self.now }
    {
        let mut strike = self.from;
        for place in part.iter_mut() {
            strike += self.step;
            *place = strike;
        }
    }
}

// The longest runs from the lower to the upper strike of a span, ascending.
#[derive(Drop)]
struct Runs {
    left: Span,
}

impl Iterator for Runs {
    type Item = Run;

    ghost remaining = { λ runs. at_most (runs.left.high - runs.left.low) };

    ghost next_gives = { λ old run new. TakesRun old.left run new.left };

    #[tactic(auto, using(crate::proofs::NextRun::next_run))]
    fn next(&mut self) -> Option<Run> {
        let Span { grid, low, high } = self.left;
        if low == high {
            return None;
        }
        let run = Run {
            from: low,
            step: grid.steps.step_at(low),
            end: run_end(&grid.steps.bands, low, high),
        };
        self.left.low = run.end;
        Some(run)
    }
}

// Where the first band above `strike` begins, but not past `high`.
fn run_end(bands: &[StepBand], strike: u32, high: u32) -> u32
    ensures { result ≡ run_end bands.now strike high }
{
    bands
        .iter()
        .find(|band| strike < band.from)
        .map_or(high, |band| band.from)
        .min(high)
}

impl Span {
    /// How many strikes there are.
    pub(crate) fn count(&self) -> usize
        ensures { result ≡ length (strikes_of self.now) }
    {
        1 + self.runs().map(|run| run.rungs()).sum::<usize>()
    }

    /// Writes the strikes to the front of `out`.
    pub(crate) fn fill(&self, out: &mut [u32])
        requires { length (strikes_of self.now) ≤ length out.old }
        ensures { out.new ≡ strikes_of self.now ++ drop (length (strikes_of self.now)) out.old }
    {
        out[0] = self.low;
        let mut count = 1;
        for run in self.runs() {
            let end = count + run.rungs();
            run.write(&mut out[count..end]);
            count = end;
        }
    }

    fn runs(&self) -> Runs
        ensures { result.left ≡ self.now }
    {
        Runs { left: *self }
    }
}
