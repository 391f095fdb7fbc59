ghost use Rattle.std.specs.Prelude.{◌≤◌, unsigned_abs};

/// The cents that each unit of a position gets, no more than 400,000,000 either way.
#[derive(Clone, Copy)]
pub(crate) struct Gain {
    pub(crate) cents: i64,
    ghost small: { unsigned_abs cents ≤ 400000000 },
}
