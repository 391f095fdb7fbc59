ghost use Rattle.std.specs.Prelude.{◌≡◌, ◌<◌};
ghost use Rattle.terms.specs.Numbers.{Numbered};
ghost use Rattle.terms.specs.Kinds.{kind_number, account_kind_number, size_number, units_in};

use crate::refusal::{Reason, Refusal};

/// The kind of a series.
#[derive(Clone, Copy, PartialEq, Eq, Debug)]
pub enum SeriesKind {
    Future,
    Call,
    Put,
    CallOnFuture,
    PutOnFuture,
}

/// Whose account it is: the broker's own, a market maker's or a client's.
#[derive(Clone, Copy, PartialEq, Eq, Debug)]
pub enum AccountKind {
    House,
    Maker,
    Client,
}

/// The size of a contract: a full one is five minis.
#[derive(Clone, Copy, PartialEq, Eq, Debug)]
pub enum Size {
    Full,
    Mini,
}

/// The kind with this number, 0 to 4.
impl TryFrom<u8> for SeriesKind {
    type Error = Refusal;

    ghost try_from_gives = { Numbered (λ n. n < 5) kind_number };

    fn try_from(number: u8) -> Result<SeriesKind, Refusal> {
        match number {
            0 => Ok(SeriesKind::Future),
            1 => Ok(SeriesKind::Call),
            2 => Ok(SeriesKind::Put),
            3 => Ok(SeriesKind::CallOnFuture),
            4 => Ok(SeriesKind::PutOnFuture),
            _ => Err(Refusal::plain(Reason::OutOfRange)),
        }
    }
}

/// The kind with this number, 0 to 2.
impl TryFrom<u8> for AccountKind {
    type Error = Refusal;

    ghost try_from_gives = { Numbered (λ n. n < 3) account_kind_number };

    fn try_from(number: u8) -> Result<AccountKind, Refusal> {
        match number {
            0 => Ok(AccountKind::House),
            1 => Ok(AccountKind::Maker),
            2 => Ok(AccountKind::Client),
            _ => Err(Refusal::plain(Reason::OutOfRange)),
        }
    }
}

/// The size with this number, 0 or 1.
impl TryFrom<u8> for Size {
    type Error = Refusal;

    ghost try_from_gives = { Numbered (λ n. n < 2) size_number };

    fn try_from(number: u8) -> Result<Size, Refusal> {
        match number {
            0 => Ok(Size::Full),
            1 => Ok(Size::Mini),
            _ => Err(Refusal::plain(Reason::OutOfRange)),
        }
    }
}

impl Size {
    /// How many units one contract of this size is.
    pub fn units(self) -> u8
        ensures { result ≡ units_in self }
    {
        match self {
            Size::Full => 5,
            Size::Mini => 1,
        }
    }
}
