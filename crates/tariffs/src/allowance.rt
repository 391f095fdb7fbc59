ghost use Rattle.std.specs.Prelude.{◌≡◌, ◌-◌, ◌*◌, ◌≤◌, [], ◌==◌};
ghost use Rattle.tariffs.specs.Allowed.{allowed_price, allowed_after, lower_traded, TakesFromOne, covered, trade_fee};
ghost use Rattle.tariffs.specs.Entries.{spent};
ghost use Rattle.tariffs.specs.Calls.{Reduces, SetsLeft, read_left};
ghost use Rattle.std.proofs.Common.{arith, rules};
ghost use Rattle.tariffs.specs.Sides.{within, by_event};
ghost use Rattle.tariffs.specs.Sides;
ghost use Rattle.tariffs.specs.Rates;
ghost use Rattle.tariffs.specs.Bounds.{fee_le, within_le, event_le, parts_le};

use crate::entries::Entries;
use crate::rate::Rate;
use crate::side::{Event, Side};
use crate::tariff::Tariff;
use terms::{AccountNumber, Refusal};

/// Some contracts of an account at a reduced rate, before a lower tariff prices the others.
#[derive(Drop)]
pub struct Allowance<L> {
    pub(crate) reduced: Rate,
    pub(crate) entries: Entries,
    pub(crate) lower: L,
}

impl<L> Allowance<L> {
    /// An allowance without entries, its reduced rate 0.
    pub fn new(lower: L) -> Allowance<L>
        ensures reduced { result.reduced.cents ≡ 0 }
        ensures entries { result.entries.list.items ≡ [] }
        ensures lower { result.lower ≡ lower }
    {
        Allowance {
            reduced: Rate { cents: 0 },
            entries: Entries::new(),
            lower,
        }
    }

    /// Sets the reduced rate, 0 to 100,000 cents a contract.
    pub fn set_reduced(&mut self, cents: u32) -> Result<(), Refusal>
        ensures { Reduces self.old cents self.new result }
    {
        self.reduced = Rate::try_from(cents)?;
        Ok(())
    }

    /// Gives the account so many contracts at the reduced rate, in place of what it had.
    pub fn set_left(&mut self, account: u16, left: u32) -> Result<(), Refusal>
        ensures { SetsLeft self.old account left self.new result }
    {
        self.entries.set(account, left)
    }

    /// How many contracts the account has left at the reduced rate.
    pub fn left(&self, account: u16) -> Result<u32, Refusal>
        ensures { result ≡ read_left self.now.entries account }
    {
        let account = AccountNumber::try_from(account)?;
        Ok(self.entries.left(account.number()))
    }
}

impl<L: Tariff> Allowance<L> {
    // Takes what the account has left, and charges the rest below.
    fn charge_trade(&mut self, side: &Side)
        ensures reduced { self.new.reduced ≡ self.old.reduced }
        ensures entries { self.new.entries ≡ spent self.old.entries side.now.account side.now.count }
        ensures lower { self.new.lower ≡ lower_traded (L.Tariff.after self.old.lower) self.old side.now }
    {
        let k = self.entries.spend(side.account, side.count);
        let rest = side.count - k;
        if rest > 0 {
            self.lower.charge(&side.counting(rest));
        }
    }
}

impl<L: Tariff> Tariff for Allowance<L> {
    ghost price = { λ t s. allowed_price (L.Tariff.price t.lower) t s };

    ghost after = { λ t s. allowed_after (L.Tariff.after t.lower) t s };

    ghost bound = { λ t s x e.
        let k = covered t.entries s in
        let lower = L.Tariff.price t.lower in
        let bound = L.Tariff.bound t.lower in
        let most = s.count * 100000 in
        let rest = Sides.counting s (s.count - k) in
        let few : k ≤ s.count = omega arith in
        let trade = trade_fee lower t.reduced.cents k s in
        within_le (within s) (by_event s.event trade (lower s)) x most
        (event_le s.event trade (lower s) x most
        (parts_le (s.count - k == 0) (Rates.fee k t.reduced) (lower rest) x s.count k few (fee_le k t.reduced) (bound rest))
        (bound s x))
        e };

    ghost unpriced = { Prim.search rules };

    ghost unmoved = { Prim.search rules };

    fn quote(&self, side: &Side) -> Option<u64> {
        if !side.in_range() {
            return None;
        }
        match side.event {
            Event::Exercise => self.lower.quote(side),
            Event::Trade => {
                let k = side.count.min(self.entries.left(side.account));
                let fee = self.reduced.fee(k);
                let rest = side.count - k;
                if rest == 0 {
                    return Some(fee);
                }
                let more = self.lower.quote(&side.counting(rest))?;
                Some(fee + more)
            }
        }
    }

    #[tactic(auto, using(crate::proofs::Remaining::takes_one))]
    fn charge(&mut self, side: &Side)
        ensures standing { self.new ≡ allowed_after (L.Tariff.after self.old.lower) self.old side.now }
        ensures one { TakesFromOne self.old.entries side.now.account self.new.entries }
    {
        if !side.in_range() {
            return;
        }
        match side.event {
            Event::Exercise => self.lower.charge(side),
            Event::Trade => self.charge_trade(side),
        }
    }
}
