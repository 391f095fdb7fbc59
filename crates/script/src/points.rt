ghost use Rattle.std.specs.Prelude.{◌≡◌, IfOk, Some, Ok, string_bytes};
ghost use Rattle.script.specs.Numbers.{Hundredths};
ghost use Rattle.script.specs.Only.{Only};
ghost use Rattle.script.specs.Points.{points_text};

use std::alloc::{AllocError, Global};
use std::fmt;

/// A price in hundredths of an index point, written as points with two decimals.
#[derive(Clone, Copy)]
pub struct Points(pub u32);

impl fmt::Display for Points {
    ghost output = { λ p. Some (points_text p.0) };

    fn fmt<W: fmt::Write>(&self, f: &mut fmt::Formatter<W>) -> fmt::Result {
        let whole = self.0 / 100;
        // `{:02}` was tried: that it writes these two digits was not proved.
        let tens = self.0 / 10 % 10;
        let ones = self.0 % 10;
        write!(f, "{whole}.{tens}{ones}")
    }
}

/// The price's text. Read as hundredths, it gives that price again.
pub fn written(heap: Global, p: Points) -> Result<String, AllocError>
    ensures text { IfOk result (λ s. string_bytes s ≡ points_text p.0) }
    ensures back { IfOk result (λ s. Only (Hundredths (string_bytes s)) (Ok p.0)) }
{
    p.to_string(heap)
}
