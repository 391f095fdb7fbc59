ghost use Rattle.std.proofs.Common.{ap, rules};
ghost use Rattle.tariffs.specs.Choice.{chosen_price, chosen_after};
ghost use Rattle.either.specs.declared.Either.TheVariants.{Left, Right};

use crate::side::Side;
use crate::tariff::Tariff;
use either::Either;

/// One of two tariffs, chosen when the program runs.
impl<A: Tariff, B: Tariff> Tariff for Either<A, B> {
    ghost price = { chosen_price A.Tariff.price B.Tariff.price };

    ghost after = { chosen_after A.Tariff.after B.Tariff.after };

    ghost bound = { elim [
      | Left a ↦ λ s fee e. A.Tariff.bound a s fee e
      | Right b ↦ λ s fee e. B.Tariff.bound b s fee e
    ] };

    ghost unpriced = { Prim.search rules };

    ghost unmoved = { elim [
      | Left a ↦ λ s e. ap Left (A.Tariff.unmoved a s e)
      | Right b ↦ λ s e. ap Right (B.Tariff.unmoved b s e)
    ] };

    fn quote(&self, side: &Side) -> Option<u64> {
        match self {
            Either::Left(a) => a.quote(side),
            Either::Right(b) => b.quote(side),
        }
    }

    fn charge(&mut self, side: &Side) {
        match self {
            Either::Left(a) => a.charge(side),
            Either::Right(b) => b.charge(side),
        }
    }
}
