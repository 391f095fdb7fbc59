ghost use Rattle.std.specs.Prelude.{◌≤◌};

use terms::{Month, SeriesKind};

/// A series: a kind, a month and a strike, which is 0 for a future. That a family offers it is decided
/// where it is made, by `Series::numbered`; whether its strike stands on the step, by `Series::on_step`; both by `Series::checked`.
#[derive(Clone, Copy)]
pub struct Series {
    pub(crate) kind: SeriesKind,
    pub(crate) month: Month,
    pub(crate) strike: u32,
    ghost most: { strike ≤ 110000 },
}
