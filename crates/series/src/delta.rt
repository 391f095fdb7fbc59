ghost use Rattle.std.specs.Prelude.{pos, negsuc, ◌≤ℤ◌};

/// A delta in ten-thousandths, −10,000 to 10,000.
#[derive(Clone, Copy)]
pub struct Delta {
    pub(crate) value: i16,
    ghost least: { negsuc 9999 ≤ℤ value },
    ghost most: { value ≤ℤ pos 10000 },
}
