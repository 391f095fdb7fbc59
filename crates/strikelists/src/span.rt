ghost use Rattle.strikelists.specs.Spans.{Ends, EvenRun};

use crate::grid::StrikeGrid;

/// The two strikes that a list goes between.
#[derive(Clone, Copy)]
pub(crate) struct Span {
    pub(crate) grid: StrikeGrid,
    pub(crate) low: u32,
    pub(crate) high: u32,
    ghost ends: { Ends grid.steps.bands low high },
}

/// From the strike `from` up to the strike `end`, strikes lie `step` apart.
#[derive(Clone, Copy)]
pub(crate) struct Run {
    pub(crate) from: u32,
    pub(crate) step: u32,
    pub(crate) end: u32,
    ghost even: { EvenRun from step end },
}
