ghost use Rattle.std.specs.Prelude.{◌≡◌, ◌≤◌, length, fold};
ghost use Rattle.tariffs.specs.declared.side.Side.{Side};
ghost use Rattle.charges.specs.Fees.{on_ok, fees_of, rated_all, in_front, answer, written, AllBounded};

use crate::one::fee_of;
use tariffs::{Side, Tariff};
use terms::{Reason, Refusal};

/// Writes the fee of each side into `fees`, in order, up to the first side without a rate.
pub fn quote_all<T: Tariff>(tariff: &T, sides: &[Side], fees: &mut [u64]) -> Result<(), Refusal>
    ensures answer { result ≡ answer (T.Tariff.price tariff.now) sides.now fees.old }
    ensures written { fees.new ≡ written (T.Tariff.price tariff.now) sides.now fees.old }
    ensures bound { AllBounded (T.Tariff.price tariff.now) sides.now result }
{
    if fees.len() < sides.len() {
        return Err(Refusal::plain(Reason::NoSpace));
    }
    write_fees(tariff, sides, fees)
}

// Writes the fees where there is space for them.
fn write_fees<T: Tariff>(tariff: &T, sides: &[Side], fees: &mut [u64]) -> Result<(), Refusal>
    requires { length sides.now ≤ length fees.old }
    ensures answer { result ≡ rated_all (T.Tariff.price tariff.now) sides.now }
    ensures written { fees.new ≡ in_front (fees_of (T.Tariff.price tariff.now) sides.now) fees.old }
{
    // By index: after `iter_mut().zip(..)` no contract says what was written.
    for (i, side) in sides.iter().enumerate() {
        let fee = fee_of(tariff, side)?;
        fees[i] = fee;
    }
    Ok(())
}

/// Charges the sides in order. A tariff that no charge moves stays as it was.
#[tactic(auto, using(crate::proofs::Steps::never_moves))]
pub fn charge_each<T: Tariff>(tariff: &mut T, sides: &[Side])
    ensures standing { tariff.new ≡ fold T.Tariff.after tariff.old sides.now }
    ensures unmoved { ((s : Side) → T.Tariff.after tariff.old s ≡ tariff.old) → tariff.new ≡ tariff.old }
{
    for side in sides {
        tariff.charge(side);
    }
}

/// Charges the sides in order, each at the fee in the standing before, which is written into `fees`.
pub fn charge_all<T: Tariff>(
    tariff: &mut T,
    sides: &[Side],
    fees: &mut [u64],
) -> Result<(), Refusal>
    ensures answer { result ≡ answer (T.Tariff.price tariff.old) sides.now fees.old }
    ensures written { fees.new ≡ written (T.Tariff.price tariff.old) sides.now fees.old }
    ensures bound { AllBounded (T.Tariff.price tariff.old) sides.now result }
    ensures standing { tariff.new ≡ on_ok result (fold T.Tariff.after tariff.old sides.now) tariff.old }
{
    quote_all(tariff, sides, fees)?;
    charge_each(tariff, sides);
    Ok(())
}
