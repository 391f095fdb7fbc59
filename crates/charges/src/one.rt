ghost use Rattle.std.specs.Prelude.{◌≡◌, ◌*◌, ◌≤◌, IfOk};
ghost use Rattle.tariffs.specs.declared.side.Side.{Side};
ghost use Rattle.charges.specs.Fees.{rated};

use tariffs::{Side, Tariff};
use terms::{Reason, Refusal};

/// The fee of a side, in cents.
pub fn fee_of<T: Tariff>(tariff: &T, side: &Side) -> Result<u64, Refusal>
    ensures answer { result ≡ rated (T.Tariff.price tariff.now side.now) side.now.account }
    ensures bound { IfOk result (λ fee. fee ≤ side.now.count * 100000) }
{
    tariff
        .quote(side)
        .ok_or(Refusal::about(Reason::NoRate, side.account))
}
