ghost use Rattle.std.specs.Prelude.{◌≡◌};

use crate::all::charge_each;
use tariffs::{Listing, Side};

/// Charges any sides to a listing, which stays as it was.
pub fn charge_listing(listing: &mut Listing, sides: &[Side])
    ensures { listing.new ≡ listing.old }
{
    charge_each(listing, sides);
}
