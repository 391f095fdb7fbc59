ghost use Rattle.std.specs.Prelude.{◌≡◌};
ghost use Rattle.terms.specs.Refusals.{reason_number, reason_layer, plain, about};

/// The account number of a refusal that concerns no account. It is what the rules report, so it is a number and no `None`.
pub const NO_ACCOUNT: u16 = 65_535;

/// Why a call is refused. The order is that of the numbers, in which the tests are made.
#[derive(Clone, Copy, PartialEq, Eq, Debug)]
pub enum Reason {
    /// 4: a value, size, kind or family outside its range.
    OutOfRange,
    /// 5: a strike off its step, or a traded price off its tick.
    OffStep,
    /// 6: an account or a series that is there already.
    Present,
    /// 7: an account, a series or a month's future that is not there.
    Absent,
    /// 8: the state does not allow it.
    WrongState,
    /// 9: the buyer is the seller.
    SameAccount,
    /// 10: an account's delta would pass its limit.
    OverLimit,
    /// 11: a close of more than is there.
    CloseExceeds,
    /// 12: too little space.
    NoSpace,
    /// 12 in the tariff's layer: the allowance has entries for 64 accounts already.
    AllowanceFull,
    /// 13: the tariff has no rate for a side.
    NoRate,
    /// 14: a count or a cash balance would leave its range.
    AmountOutOfRange,
}

/// A refused call: why, and the account concerned (`NO_ACCOUNT` where none is).
#[derive(Clone, Copy, PartialEq, Eq, Debug)]
pub struct Refusal {
    pub reason: Reason,
    pub account: u16,
}

impl Reason {
    /// The number by which offices know the reason.
    pub fn number(self) -> u8
        ensures { result ≡ reason_number self }
    {
        match self {
            Reason::OutOfRange => 4,
            Reason::OffStep => 5,
            Reason::Present => 6,
            Reason::Absent => 7,
            Reason::WrongState => 8,
            Reason::SameAccount => 9,
            Reason::OverLimit => 10,
            Reason::CloseExceeds => 11,
            Reason::NoSpace | Reason::AllowanceFull => 12,
            Reason::NoRate => 13,
            Reason::AmountOutOfRange => 14,
        }
    }

    /// The layer that refuses: 3 for the tariff, 2 for the book.
    pub fn layer(self) -> u8
        ensures { result ≡ reason_layer self }
    {
        match self {
            Reason::AllowanceFull | Reason::NoRate => 3,
            _ => 2,
        }
    }
}

impl Refusal {
    /// A refusal that concerns no account.
    pub fn plain(reason: Reason) -> Refusal
        ensures { result ≡ plain reason }
    {
        Refusal {
            reason,
            account: NO_ACCOUNT,
        }
    }

    /// A refusal that concerns one account.
    pub fn about(reason: Reason, account: u16) -> Refusal
        ensures { result ≡ about reason account }
    {
        Refusal { reason, account }
    }
}
