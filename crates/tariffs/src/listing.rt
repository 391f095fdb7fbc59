ghost use Rattle.std.specs.Prelude.{◌≡◌, ◌*◌, ◌<◌, replicate, None, slice_index_or};
ghost use Rattle.terms.specs.Kinds.{kind_number, size_number, account_kind_number};
ghost use Rattle.tariffs.specs.Sides.{event_number, within};
ghost use Rattle.tariffs.specs.Rates.{fee_by};
ghost use Rattle.tariffs.specs.Listed.{place_number, Apart, listed, listed_price, Lists, place_of};
ghost use Rattle.tariffs.specs.Bounds.{fee_by_le, within_le};
ghost use Rattle.std.proofs.Common.{rules};

use crate::rate::Rate;
use crate::side::{Event, Side};
use crate::tariff::Tariff;
use terms::{AccountKind, Refusal, SeriesKind, Size};

/// How many kinds of sides have a rate of their own: 5 kinds of series, 2 sizes, 3 kinds of account, 2 events.
const PLACES: usize = 60;

/// A rate, or none, for each kind of side: one row, since arrays in arrays would be indexed four times for each rate.
#[derive(Clone, Copy)]
pub struct Listing {
    pub(crate) rates: [Option<Rate>; PLACES],
}

/// What the sides of one rate have in common.
#[derive(Clone, Copy)]
struct SideKind {
    series_kind: SeriesKind,
    size: Size,
    account_kind: AccountKind,
    event: Event,
}

impl Listing {
    /// A listing without any rate.
    pub fn new() -> Listing
        ensures { listed result ≡ replicate 60 None }
    {
        Listing {
            rates: [None; PLACES],
        }
    }

    /// Lists a rate in cents a contract, or none, for the sides with these numbers, any of which has a stated answer.
    pub fn set(
        &mut self,
        series_kind: u8,
        size: u8,
        account_kind: u8,
        event: u8,
        rate: Option<u32>,
    ) -> Result<(), Refusal>
        ensures { Lists self.old series_kind size account_kind event rate self.new result }
    {
        let kind = SideKind {
            series_kind: SeriesKind::try_from(series_kind)?,
            size: Size::try_from(size)?,
            account_kind: AccountKind::try_from(account_kind)?,
            event: Event::try_from(event)?,
        };
        self.rates[kind.place()] = rate.map(Rate::try_from).transpose()?;
        Ok(())
    }
}

impl SideKind {
    // Where the rate of such sides stands.
    fn place(self) -> usize
        ensures value { result ≡ place_number (kind_number self.series_kind) (size_number self.size) (account_kind_number self.account_kind) (event_number self.event) }
        ensures there { result < 60 }
        ensures apart { Apart }
    {
        let series = self.series_kind as usize * 2 + self.size as usize;
        (series * 3 + self.account_kind as usize) * 2 + self.event as usize
    }
}

impl Tariff for Listing {
    ghost price = { listed_price };

    ghost after = { λ t s. t };

    ghost bound = { λ t s fee e.
        let o = slice_index_or t.rates (place_of s) None in
        within_le (within s) (fee_by s.count o) fee (s.count * 100000) (fee_by_le s.count o fee) e };

    ghost unpriced = { Prim.search rules };

    ghost unmoved = { Prim.search rules };

    fn quote(&self, side: &Side) -> Option<u64> {
        if !side.in_range() {
            return None;
        }
        let kind = SideKind {
            series_kind: side.series_kind,
            size: side.size,
            account_kind: side.account_kind,
            event: side.event,
        };
        self.rates[kind.place()].map(|rate| rate.fee(side.count))
    }

    fn charge(&mut self, _side: &Side) {}
}
