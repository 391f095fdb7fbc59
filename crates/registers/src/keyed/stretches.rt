// Rows in their order, and the stretches between two keys.
ghost use Rattle.std.specs.Prelude.{◌≡◌, ℕ, ◌-◌, ◌≤◌, List, ◌++◌, length, take, drop};
ghost use Rattle.std.specs.Borrow.{sem, Array, follows};
ghost use Rattle.std.specs.List.{slice_get, zip, between};
ghost use Rattle.std.specs.Option.{option_map};
ghost use Rattle.registers.specs.Rows.{below, keys_in, contents_in, Rising};
ghost use Rattle.registers.specs.Stretches.{front, stretch, rest, StretchAt, patched, rewritten};
ghost use Rattle.registers.specs.Held.{rows_of, room_of, with_contents};
ghost use Rattle.registers.specs.contracts.keyed.Register.{the_row};

use super::Register;
use crate::cut::cut;

// A type of its own, since the library's `Range` is not `Copy`.
/// The places of a stretch: from the first to before the last.
#[derive(Clone, Copy)]
pub struct Span {
    pub from: usize,
    pub to: usize,
}

impl<T: Drop> Register<T> {
    // How many rows stand before the first whose key is at least `key`. `unwrap_or_else`, with a closure that gives the place back, would be no plainer.
    fn lower_bound(&self, key: u64) -> usize
        ensures { result ≡ below key (rows_of self.now) }
    {
        match self.find(key) {
            Ok(i) => i,
            Err(i) => i,
        }
    }

    /// The places of the rows whose keys lie from `a` to below `b`.
    pub fn stretch(&self, a: u64, b: u64) -> Span
        ensures places { StretchAt a b (rows_of self.now) result.from result.to }
        ensures left { take result.from (rows_of self.now) ++ drop result.to (rows_of self.now) ≡ front a (rows_of self.now) ++ rest a b (rows_of self.now) }
        ensures held { between result.from result.to (contents_in (rows_of self.now)) ≡ contents_in (stretch a b (rows_of self.now)) }
        ensures forward { result.from ≤ result.to }
        ensures within { result.to ≤ length (rows_of self.now) }
    {
        let from = self.lower_bound(a);
        if b <= a {
            return Span { from, to: from };
        }
        Span {
            from,
            to: self.lower_bound(b),
        }
    }

    /// The keys, row by row: each is greater than the one before it.
    #[tactic(auto, using(crate::proofs::Always::facts))]
    pub fn keys(&self) -> &[u64]
        ensures value { result.now ≡ keys_in (rows_of self.now) }
        ensures len { length result.now ≡ length (rows_of self.now) }
        ensures bound { length result.now ≤ room_of self.now }
        ensures order { Rising 0 (rows_of self.now) }
    {
        self.keys.as_slice()
    }

    /// The contents, row by row.
    #[tactic(auto, using(crate::proofs::Always::facts))]
    pub fn contents(&self) -> &[T]
        ensures value { result.now ≡ contents_in (rows_of self.now) }
        ensures len { length result.now ≡ length (rows_of self.now) }
    {
        self.contents.as_slice()
    }

    /// The contents of the rows whose keys lie from `a` to below `b`.
    pub fn stretch_contents(&self, a: u64, b: u64) -> &[T]
        ensures { result.now ≡ contents_in (stretch a b (rows_of self.now)) }
    {
        let Span { from, to } = self.stretch(a, b);
        &self.contents()[from..to]
    }

    /// Lends the contents for writing, row by row: the register then holds what was written, under the same keys.
    /// What is written to the part from one place of a stretch to the other are the new contents of that stretch.
    pub fn contents_mut(&mut self) -> &mut [T]
        ensures* follows { sem 𝓛 (follows (the_row T.row) (Array T.row 0) self.entry.ghost_name result.ghost_name (with_contents self.old)) }
        ensures value { result.now ≡ contents_in (rows_of self.old) }
        ensures len { length result.now ≡ length (rows_of self.old) }
        ensures rows { (ws : List T) → length ws ≡ length (rows_of self.old) → rows_of (with_contents self.old ws) ≡ zip (keys_in (rows_of self.old)) ws }
        ensures part { (a b from to : ℕ) (ws : List T) → StretchAt a b (rows_of self.old) from to → length ws ≡ to - from → rows_of (with_contents self.old (patched from to ws (contents_in (rows_of self.old)))) ≡ rewritten a b ws (rows_of self.old) }
    {
        self.contents.as_mut_slice()
    }

    /// Takes the rows whose keys lie from `a` to below `b` out, in one move, and answers how many they were.
    #[tactic(auto, using(crate::proofs::Always::facts, crate::proofs::Cuts::cuts))]
    pub fn take_stretch(&mut self, a: u64, b: u64) -> usize
        ensures answer { result ≡ length (stretch a b (rows_of self.old)) }
        ensures rows { rows_of self.new ≡ front a (rows_of self.old) ++ rest a b (rows_of self.old) }
        ensures room { room_of self.new ≡ room_of self.old }
    {
        let Span { from, to } = self.stretch(a, b);
        cut(&mut self.keys, from, to);
        cut(&mut self.contents, from, to);
        to - from
    }

    /// The key at the place.
    pub fn key_at(&self, place: usize) -> Option<u64>
        ensures { result ≡ slice_get (keys_in (rows_of self.now)) place }
    {
        self.keys().get(place).copied()
    }

    /// The content at the place.
    pub fn content_at(&self, place: usize) -> Option<&T>
        ensures { option_map (λ x. x.now) result ≡ slice_get (contents_in (rows_of self.now)) place }
    {
        self.contents().get(place)
    }
}
