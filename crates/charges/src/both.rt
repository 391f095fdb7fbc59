ghost use Rattle.std.specs.Prelude.{◌≡◌};
ghost use Rattle.tariffs.specs.declared.side.Side.{Side};
ghost use Rattle.charges.specs.Fees.{rated_both, on_ok, BothBounded};

use crate::one::fee_of;
use tariffs::{Side, Tariff};
use terms::Refusal;

/// The fees of the buyer and of the seller of a trade. Two fees need no lent space; `quote_all` does.
pub fn quote_both<T: Tariff>(tariff: &T, buyer: &Side, seller: &Side) -> Result<(u64, u64), Refusal>
    ensures answer { result ≡ rated_both (T.Tariff.price tariff.now) buyer.now seller.now }
    ensures bound { BothBounded buyer.now seller.now result }
{
    let bought = fee_of(tariff, buyer)?;
    let sold = fee_of(tariff, seller)?;
    Ok((bought, sold))
}

/// Charges the buyer and then the seller, each at the fee in the standing before.
pub fn charge_both<T: Tariff>(
    tariff: &mut T,
    buyer: &Side,
    seller: &Side,
) -> Result<(u64, u64), Refusal>
    ensures answer { result ≡ rated_both (T.Tariff.price tariff.old) buyer.now seller.now }
    ensures bound { BothBounded buyer.now seller.now result }
    ensures standing { tariff.new ≡ on_ok result (T.Tariff.after (T.Tariff.after tariff.old buyer.now) seller.now) tariff.old }
{
    let fees = quote_both(tariff, buyer, seller)?;
    tariff.charge(buyer);
    tariff.charge(seller);
    Ok(fees)
}
