ghost use Rattle.std.specs.Prelude.{◌≡◌, ◌≤◌};
ghost use Rattle.terms.specs.Numbers.{Numbered};
ghost use Rattle.terms.specs.Ranges.{AccountRange};

use crate::refusal::{NO_ACCOUNT, Reason, Refusal};

/// The number of an account, 0 to 65,534.
#[derive(Clone, Copy, PartialEq, Eq, Debug)]
pub struct AccountNumber {
    number: u16,
    ghost most: { number ≤ 65534 },
}

/// The account of this number.
impl TryFrom<u16> for AccountNumber {
    type Error = Refusal;

    ghost try_from_gives = { Numbered AccountRange (λ a. a.number) };

    fn try_from(number: u16) -> Result<AccountNumber, Refusal> {
        if number == NO_ACCOUNT {
            return Err(Refusal::plain(Reason::OutOfRange));
        }
        Ok(AccountNumber { number })
    }
}

impl AccountNumber {
    pub fn number(self) -> u16
        ensures value { result ≡ self.number }
        ensures range { AccountRange result }
    {
        self.number
    }
}
