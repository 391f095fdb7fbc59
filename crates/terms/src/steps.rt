ghost use Rattle.std.specs.Prelude.{◌≡◌};
ghost use Rattle.terms.specs.Steps.{step_in};

/// From `from` on, strikes lie `step` points apart.
#[derive(Clone, Copy)]
pub struct StepBand {
    pub from: u32,
    pub step: u32,
}

/// How far apart strikes lie: four bands, ascending, so that a table is a constant and needs no space of its own. A table of
/// fewer repeats its last.
#[derive(Clone, Copy)]
pub struct StepTable {
    pub bands: [StepBand; 4],
}

impl StepTable {
    /// The step that holds at a strike: that of the last band that begins at or below it.
    pub fn step_at(&self, strike: u32) -> u32
        ensures { result ≡ step_in self.now.bands strike }
    {
        step_in(&self.bands, strike)
    }
}

fn step_in(bands: &[StepBand], strike: u32) -> u32
    ensures { result ≡ step_in bands.now strike }
{
    bands.iter().fold(
        1,
        |step, band| if band.from <= strike { band.step } else { step },
    )
}
