ghost use Rattle.std.specs.Prelude.{◌≡◌, ◌<◌};
ghost use Rattle.terms.specs.Numbers.{Numbered};
ghost use Rattle.tariffs.specs.Sides.{event_number, within, counting};

use terms::{AccountKind, NO_ACCOUNT, Reason, Refusal, SeriesKind, Size};

/// The most contracts of one side.
pub(crate) const MOST_CONTRACTS: u32 = 1_000_000;

/// What a side is charged for.
#[derive(Clone, Copy, PartialEq, Eq, Debug)]
pub enum Event {
    Trade,
    Exercise,
}

/// One account's side of a trade or an exercise.
#[derive(Clone, Copy, PartialEq, Eq, Debug)]
pub struct Side {
    pub account: u16,
    pub account_kind: AccountKind,
    pub series_kind: SeriesKind,
    pub size: Size,
    pub event: Event,
    pub count: u32,
}

/// The event with this number: 0 for a trade, 1 for an exercise.
impl TryFrom<u8> for Event {
    type Error = Refusal;

    ghost try_from_gives = { Numbered (λ n. n < 2) event_number };

    fn try_from(number: u8) -> Result<Event, Refusal> {
        match number {
            0 => Ok(Event::Trade),
            1 => Ok(Event::Exercise),
            _ => Err(Refusal::plain(Reason::OutOfRange)),
        }
    }
}

impl Side {
    // Whether a tariff may price the side at all.
    pub(crate) fn in_range(&self) -> bool
        ensures { result ≡ within self.now }
    {
        self.account != NO_ACCOUNT && (1..=MOST_CONTRACTS).contains(&self.count)
    }

    // The same side with so many contracts.
    pub(crate) fn counting(&self, count: u32) -> Side
        ensures { result ≡ counting self.now count }
    {
        Side { count, ..*self }
    }
}
