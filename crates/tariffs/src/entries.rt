ghost use Rattle.std.specs.Prelude.{◌≡◌, ◌<◌, min, [], length, IfSome};
ghost use Rattle.tariffs.specs.Entries.{entry_of, left as left_of, lowered, spent, Settles};

use crate::side::MOST_CONTRACTS;
use arrayvec::ArrayVec;
use terms::{AccountNumber, Reason, Refusal};

/// How many accounts may have an entry.
const PLACES: usize = 64;

/// How many contracts an account has left at the reduced rate.
#[derive(Clone, Copy, Default)]
pub(crate) struct Entry {
    pub(crate) account: u16,
    pub(crate) left: u32,
}

/// The entries of up to 64 accounts.
#[derive(Drop)]
pub(crate) struct Entries {
    pub(crate) list: ArrayVec<Entry, PLACES>,
}

impl Entry {
    // Takes up to `n` contracts off what is left. Answers how many.
    fn spend(&mut self, n: u32) -> u32
        ensures answer { result ≡ min n self.old.left }
        ensures after { self.new ≡ lowered self.old n }
    {
        let k = n.min(self.left);
        self.left -= k;
        k
    }
}

impl Entries {
    /// A table without entries.
    pub(crate) fn new() -> Entries
        ensures { result.list.items ≡ [] }
    {
        Entries {
            list: ArrayVec::new(),
        }
    }

    // The place of the account's entry.
    fn find(&self, account: u16) -> Option<usize>
        ensures value { result ≡ entry_of self.now account }
        ensures there { IfSome result (λ i. i < length self.now.list.items) }
    {
        self.list.iter().position(|entry| entry.account == account)
    }

    /// How many contracts the account has left.
    pub(crate) fn left(&self, account: u16) -> u32
        ensures { result ≡ left_of self.now account }
    {
        self.find(account).map_or(0, |i| self.list[i].left)
    }

    /// Takes up to `n` contracts off the account's entry. Answers how many.
    pub(crate) fn spend(&mut self, account: u16, n: u32) -> u32
        ensures answer { result ≡ min n (left_of self.old account) }
        ensures after { self.new ≡ spent self.old account n }
    {
        // Under `map_or` no contract would say what the closure writes.
        match self.find(account) {
            Some(i) => self.list[i].spend(n),
            None => 0,
        }
    }

    /// Gives the account so many contracts, in place of what it had.
    pub(crate) fn set(&mut self, account: u16, left: u32) -> Result<(), Refusal>
        ensures { Settles self.old account left self.new result }
    {
        let number = AccountNumber::try_from(account)?;
        if left > MOST_CONTRACTS {
            return Err(Refusal::plain(Reason::OutOfRange));
        }
        let entry = Entry {
            account: number.number(),
            left,
        };
        match self.find(account) {
            Some(i) => self.list[i] = entry,
            None if self.list.is_full() => return Err(Refusal::plain(Reason::AllowanceFull)),
            None => self.list.push(entry),
        }
        Ok(())
    }
}
