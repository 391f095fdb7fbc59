ghost use Rattle.std.specs.Prelude.{◌≡◌, ◌%◌, ◌≤◌, ◌==◌};
ghost use Rattle.terms.specs.Families.{bands_of};
ghost use Rattle.terms.specs.Steps.{step_in};
ghost use Rattle.series.specs.Listing.{offers, size_in, takes_strike, SeriesNumbered, SeriesChecked, DeltaChecked, AnyDelta};

use crate::delta::Delta;
use crate::numbers::SeriesNumbers;
use crate::series::Series;
use terms::{Family, Month, Reason, Refusal, SeriesKind, Size};

/// Whether the family has series of this kind.
pub fn offers(family: Family, kind: SeriesKind) -> bool
    ensures { result ≡ offers family kind }
{
    match kind {
        SeriesKind::Future | SeriesKind::Call | SeriesKind::Put => true,
        SeriesKind::CallOnFuture | SeriesKind::PutOnFuture => family.has_options_on_future(),
    }
}

/// Whether the family's series of this kind have contracts of this size.
pub fn has_size(family: Family, kind: SeriesKind, size: Size) -> bool
    ensures { result ≡ size_in family kind size }
{
    match (size, kind) {
        (Size::Full, _) => true,
        (Size::Mini, SeriesKind::Future | SeriesKind::Call | SeriesKind::Put) => family.has_minis(),
        (Size::Mini, SeriesKind::CallOnFuture | SeriesKind::PutOnFuture) => false,
    }
}

fn takes_strike(kind: SeriesKind, strike: u32) -> bool
    ensures { result ≡ takes_strike kind strike }
{
    match kind {
        SeriesKind::Future => strike == 0,
        _ => (1..=110_000).contains(&strike),
    }
}

impl Series {
    /// The series of these numbers in a family: refused by 4 where one is out of range or the family lacks the kind. The
    /// family stands beside the numbers, so this is no `TryFrom`.
    pub fn numbered(family: Family, numbers: SeriesNumbers) -> Result<Series, Refusal>
        ensures { SeriesNumbered family numbers.kind numbers.month numbers.strike result }
    {
        let kind = SeriesKind::try_from(numbers.kind)?;
        let month = Month::try_from(numbers.month)?;
        let strike = numbers.strike;
        if !offers(family, kind) || !takes_strike(kind, strike) {
            return Err(Refusal::plain(Reason::OutOfRange));
        }
        Ok(Series {
            kind,
            month,
            strike,
        })
    }

    /// Whether the strike is a multiple of the family's step that holds at it.
    pub fn on_step(self, family: Family) -> bool
        ensures { result ≡ (self.strike % step_in (bands_of family) self.strike == 0) }
    {
        let steps = family.steps();
        let strike = self.strike;
        strike % steps.step_at(strike) == 0
    }

    /// The series of these numbers in a family: refused by 4 where one is out of range or the family lacks the kind,
    /// then by 5 where the strike is off its step.
    pub fn checked(family: Family, numbers: SeriesNumbers) -> Result<Series, Refusal>
        ensures { SeriesChecked family numbers.kind numbers.month numbers.strike result }
    {
        let series = Series::numbered(family, numbers)?;
        if !series.on_step(family) {
            return Err(Refusal::plain(Reason::OffStep));
        }
        Ok(series)
    }

    pub fn kind(self) -> SeriesKind
        ensures { result ≡ self.kind }
    {
        self.kind
    }

    pub fn month(self) -> Month
        ensures { result ≡ self.month }
    {
        self.month
    }

    /// The strike in points, 0 for a future.
    pub fn strike(self) -> u32
        ensures value { result ≡ self.strike }
        ensures most { result ≤ 110000 }
    {
        self.strike
    }
}

impl Delta {
    /// The delta of this value for a series of this kind, which stands beside the value, so this is no `TryFrom`.
    pub fn checked(kind: SeriesKind, value: i32) -> Result<Delta, Refusal>
        ensures { DeltaChecked kind value result }
    {
        let range = match kind {
            SeriesKind::Future => 10_000..=10_000,
            SeriesKind::Call | SeriesKind::CallOnFuture => 0..=10_000,
            SeriesKind::Put | SeriesKind::PutOnFuture => -10_000..=0,
        };
        if !range.contains(&value) {
            return Err(Refusal::plain(Reason::OutOfRange));
        }
        Ok(Delta {
            value: value as i16,
        })
    }

    /// The delta in ten-thousandths.
    pub fn value(self) -> i16
        ensures value { result ≡ self.value }
        ensures range { AnyDelta result }
    {
        self.value
    }
}
