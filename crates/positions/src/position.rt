ghost use Rattle.std.specs.Prelude.{◌≡◌, ◌^◌, ◌≤◌, if◌then◌else◌, Some, None, FitsSigned, unsigned_abs};
ghost use Rattle.std.specs.Int.{w32};
ghost use Rattle.positions.specs.Positions.{units, is_flat, added, opposed, offset, dealt, counted, signed_like, closable, closed};

use terms::{AccountKind, Size};

/// The most contracts of one size that a position counts, bought or sold.
const MOST: i64 = 1_000_000;

/// An account's full and mini contracts in one series; below zero they are sold.
#[derive(Clone, Copy, PartialEq, Eq, Debug, Default)]
pub struct Position {
    pub fulls: i32,
    pub minis: i32,
}

/// Counts on the way, before they are known to be in range. A type over both widths would have no method in common.
#[derive(Clone, Copy)]
struct Counts {
    fulls: i64,
    minis: i64,
    ghost few_fulls: { unsigned_abs fulls ≤ 2 ^ 33 },
    ghost few_minis: { unsigned_abs minis ≤ 2 ^ 33 },
}

impl Position {
    ghost use Rattle.positions.specs.Counts.{position_of};

    /// The units: five a full contract, one a mini.
    pub fn units(self) -> i64
        ensures value { result ≡ units self }
        ensures bound { unsigned_abs result ≤ 2 ^ 34 }
    {
        5 * i64::from(self.fulls) + i64::from(self.minis)
    }

    /// Whether both counts are zero.
    pub fn is_flat(self) -> bool
        ensures { result ≡ is_flat self }
    {
        self == Position::default()
    }

    /// The position after `more` contracts of a size, fewer where `more` is below zero, in an account of that kind: a
    /// house's or a maker's is offset. `None` where a count would leave its range.
    pub fn changed(self, holder: AccountKind, size: Size, more: i32) -> Option<Position>
        ensures { result ≡ counted (dealt holder size more self) }
    {
        let counts = self.added(size, more);
        match holder {
            AccountKind::House | AccountKind::Maker => counts.offset().counted(),
            AccountKind::Client => counts.counted(),
        }
    }

    /// The position after `k` fulls and 5k minis of opposite sign are closed; `None` where there are not so many.
    pub fn closed(self, k: u32) -> Option<Position>
        ensures { result ≡ (if closable k self then Some (closed k self) else None) }
    {
        let counts = self.counts();
        let k = u64::from(k);
        if k > counts.opposed() {
            return None;
        }
        Some(counts.closed(k).narrowed())
    }

    fn counts(self) -> Counts
        ensures { position_of result ≡ self }
    {
        Counts {
            fulls: i64::from(self.fulls),
            minis: i64::from(self.minis),
        }
    }

    fn added(self, size: Size, more: i32) -> Counts
        ensures { position_of result ≡ added size more self }
    {
        let Counts { fulls, minis } = self.counts();
        let more = i64::from(more);
        match size {
            Size::Full => Counts {
                fulls: fulls + more,
                minis,
            },
            Size::Mini => Counts {
                fulls,
                minis: minis + more,
            },
        }
    }
}

impl Counts {
    ghost use Rattle.positions.specs.Counts.{position_of};

    // How many fulls stand against five minis each of the other sign.
    fn opposed(self) -> u64
        ensures { result ≡ unsigned_abs (opposed self.fulls self.minis) }
    {
        if (self.fulls < 0) == (self.minis < 0) {
            return 0;
        }
        self.fulls.unsigned_abs().min(self.minis.unsigned_abs() / 5)
    }

    // `k` with the sign of the fulls.
    fn signed(self, k: u64) -> i64
        requires { k ≤ 2 ^ 33 }
        ensures { result ≡ signed_like self.fulls k }
    {
        if self.fulls < 0 {
            -(k as i64)
        } else {
            k as i64
        }
    }

    // `k` fulls and 5k minis of the other sign are taken off.
    fn closed(self, k: u64) -> Counts
        requires { k ≤ unsigned_abs (opposed self.fulls self.minis) }
        ensures { position_of result ≡ closed k (position_of self) }
    {
        let k = self.signed(k);
        Counts {
            fulls: self.fulls - k,
            minis: self.minis + 5 * k,
        }
    }

    // All fulls that stand against five minis each of the other sign are taken off.
    fn offset(self) -> Counts
        ensures { position_of result ≡ offset (position_of self) }
    {
        self.closed(self.opposed())
    }

    // The position, where both counts are in range.
    fn counted(self) -> Option<Position>
        ensures { result ≡ counted (position_of self) }
    {
        let range = -MOST..=MOST;
        if range.contains(&self.fulls) && range.contains(&self.minis) {
            Some(self.narrowed())
        } else {
            None
        }
    }

    fn narrowed(self) -> Position
        requires fulls { FitsSigned w32 self.fulls }
        requires minis { FitsSigned w32 self.minis }
        ensures { result ≡ position_of self }
    {
        Position {
            fulls: self.fulls as i32,
            minis: self.minis as i32,
        }
    }
}
