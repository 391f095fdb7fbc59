// Rows by their places.
ghost use Rattle.std.specs.Prelude.{◌≡◌, ◌<◌, Some, None, Ok, Err, MatchResult};
ghost use Rattle.std.specs.List.{slice_get};
ghost use Rattle.registers.specs.Keys.{Found};
ghost use Rattle.registers.specs.Rows.{below, contents_in, lookup};
ghost use Rattle.registers.specs.Held.{keys_of, rows_of};

use super::Register;
use crate::seek::count_below;

impl<T: Drop> Register<T> {
    // Where the key stands, or where it goes.
    pub(super) fn find(&self, key: u64) -> Result<usize, usize>
        ensures place { Found (keys_of self.now) key result }
        ensures bound { MatchResult result (λ i. i ≡ below key (rows_of self.now)) (λ i. i ≡ below key (rows_of self.now)) }
        ensures held { MatchResult result (λ i. slice_get (contents_in (rows_of self.now)) i ≡ lookup (rows_of self.now) key) (λ _. None ≡ lookup (rows_of self.now) key) }
    {
        let place = count_below(&self.keys, key);
        if self.keys.get(place) == Some(&key) {
            Ok(place)
        } else {
            Err(place)
        }
    }
}
