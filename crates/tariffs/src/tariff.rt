ghost use Rattle.std.specs.Prelude.{◌≡◌, ℕ, ◌*◌, ◌≤◌, false, Some, None, Option};
ghost use Rattle.tariffs.specs.declared.side.Side.{Side};
ghost use Rattle.tariffs.specs.Sides.{within};

use crate::side::Side;

/// What prices sides. Each standing has a fee, or no rate, for each side, and the standing after its charge.
pub trait Tariff {
    ghost price: { Self → Side → Option ℕ };

    ghost after: { Self → Side → Self };

    /// The fee of the side, in cents, or none where there is no rate.
    fn quote(&self, side: &Side) -> Option<u64>
        ensures { result ≡ price self.now side.now };

    /// Moves to the standing after the side.
    fn charge(&mut self, side: &Side)
        ensures { self.new ≡ after self.old side.now };

    ghost bound: { (t : Self) (s : Side) (fee : ℕ) → price t s ≡ Some fee → fee ≤ s.count * 100000 };

    ghost unpriced: { (t : Self) (s : Side) → within s ≡ false → price t s ≡ None };

    ghost unmoved: { (t : Self) (s : Side) → within s ≡ false → after t s ≡ t };
}
