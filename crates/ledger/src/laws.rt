//! The theorems, each in the contract of a function. The code does nothing but answer 0: what counts is the statement.
ghost use Rattle.std.specs.Prelude.{◌≡◌};
ghost use Rattle.ledger.specs.Figures.{Figures, Refusals, Afterwards};
ghost use Rattle.ledger.specs.Laws.{BalancedAfterEveryRun, OffsetLaws, EventLaws};
ghost use Rattle.ledger.specs.Reached.{Lasting};
ghost use Rattle.ledger.specs.Sound.{SoundAfterEveryRun};

/// For every opening and every list of events, refused ones among them: counts are the ledger's and units add up to zero in
/// each series; cash is the formula's and adds up to zero; no account's delta rises above the greater of its limit
/// and what it was but by a delta, exercise or settle.
pub fn book_balances() -> u8
    ensures answer { result ≡ 0 }
    ensures law { BalancedAfterEveryRun }
{
    0
}

/// What code may rely on after every run: amounts stay small, rows fit their space, and each position has its account
/// and its series.
pub fn book_is_sound() -> u8
    ensures answer { result ≡ 0 }
    ensures law { SoundAfterEveryRun }
{
    0
}

/// The same two laws of any book that some list of events leads to, which holds at the opening and lasts through each
/// event.
pub fn laws_last() -> u8
    ensures answer { result ≡ 0 }
    ensures law { Lasting }
{
    0
}

/// What is offset by itself is a close of the largest k; neither changes units. A refused event changes nothing, an
/// accepted one adds its entry, and equal events do equal things to equal books.
pub fn smaller_laws() -> u8
    ensures answer { result ≡ 0 }
    ensures offset { OffsetLaws }
    ensures events { EventLaws }
{
    0
}

/// The worked figures of whole histories, a refusal of each number, and what scratch and standing are afterwards.
pub fn worked_histories() -> u8
    ensures answer { result ≡ 0 }
    ensures worked { Figures }
    ensures refused { Refusals }
    ensures left { Afterwards }
{
    0
}
