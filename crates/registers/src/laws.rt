ghost use Rattle.std.specs.Prelude.{◌≡◌};
ghost use Rattle.registers.specs.Laws.{PutLaws, TakeLaws, OrderLaws, StretchLaws, RewriteLaws};

/// What holds of rows of any content `T` that a register holds. The code does nothing but answer 0: what counts is the statement.
pub fn register_laws<T: Drop>() -> u8
    ensures answer { result ≡ 0 }
    ensures put { PutLaws T }
    ensures take { TakeLaws T }
    ensures order { OrderLaws T }
    ensures stretch { StretchLaws T }
    ensures rewrite { RewriteLaws T }
{
    0
}
