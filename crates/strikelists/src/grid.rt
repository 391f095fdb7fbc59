ghost use Rattle.std.specs.Prelude.{◌<◌, ◌≤◌};
ghost use Rattle.strikelists.specs.Grids.{Grid};

use terms::StepTable;

/// The strikes of a step table that passes the test of tables and has no step above 200.
#[derive(Clone, Copy)]
pub(crate) struct StrikeGrid {
    pub(crate) steps: StepTable,
    ghost grid: { Grid steps.bands },
}

/// The strike around which a list goes.
#[derive(Clone, Copy)]
pub(crate) struct Middle {
    pub(crate) strike: u32,
    ghost some: { 0 < strike },
    ghost most: { strike ≤ 100201 },
}
