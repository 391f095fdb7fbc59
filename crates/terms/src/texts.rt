// How refusals are printed.
ghost use Rattle.std.specs.Prelude.{Some};
ghost use Rattle.terms.specs.Texts.{reason_text, refusal_text};

use crate::refusal::{NO_ACCOUNT, Reason, Refusal};
use std::error::Error;
use std::fmt;

// By hand, since the contract states the bytes that are written.
impl fmt::Display for Reason {
    ghost output = { λ r. Some (reason_text r) };

    fn fmt<W: fmt::Write>(&self, f: &mut fmt::Formatter<W>) -> fmt::Result {
        f.write_str(match self {
            Reason::OutOfRange => "range",
            Reason::OffStep => "step",
            Reason::Present => "present",
            Reason::Absent => "absent",
            Reason::WrongState => "state",
            Reason::SameAccount => "same account",
            Reason::OverLimit => "limit",
            Reason::CloseExceeds => "exceeds",
            Reason::NoSpace | Reason::AllowanceFull => "space",
            Reason::NoRate => "no rate",
            Reason::AmountOutOfRange => "amount",
        })
    }
}

/// The number and the word of the reason, its layer, and the account concerned, `-` where none is.
impl fmt::Display for Refusal {
    ghost output = { λ e. Some (refusal_text e) };

    fn fmt<W: fmt::Write>(&self, f: &mut fmt::Formatter<W>) -> fmt::Result {
        let number = self.reason.number();
        let reason = self.reason;
        let layer = self.reason.layer();
        write!(f, "refused {number} {reason}, layer {layer}, account ")?;
        if self.account == NO_ACCOUNT {
            f.write_str("-")
        } else {
            write!(f, "{}", self.account)
        }
    }
}

impl Error for Refusal {}
