// A register's rows, by their keys.
ghost use Rattle.std.specs.Prelude.{◌≡◌, true, length, is_some, if◌then◌else◌, nat_lt};
ghost use Rattle.std.specs.Borrow.{sem, follows_so};
ghost use Rattle.std.specs.Option.{ghost_name_of as name_of, option_map};
ghost use Rattle.registers.specs.Rows.{lookup, put, without, place_for, answered};
ghost use Rattle.registers.specs.Held.{rows_of, room_of};
ghost use Rattle.registers.specs.contracts.keyed.Register.{the_row};

use super::Register;

impl<T: Drop> Register<T> {
    /// The content under the key.
    pub fn get(&self, key: u64) -> Option<&T>
        ensures { option_map (λ x. x.now) result ≡ lookup (rows_of self.now) key }
    {
        let place = self.find(key).ok()?;
        self.content_at(place)
    }

    /// Lends the content under the key for writing: what stands there at the end is put in.
    pub fn get_mut(&mut self, key: u64) -> Option<&mut T>
        ensures* writes_back { sem 𝓛 (follows_so (the_row T.row) T.row self.entry.ghost_name (name_of result) (λ w s. (is_some result ≡ true → rows_of s ≡ put key w (rows_of self.old)) × (room_of s ≡ room_of self.old)) (λ s. s ≡ self.old)) }
        ensures facts { option_map (λ x. x.now) result ≡ lookup (rows_of self.old) key }
    {
        let place = self.find(key).ok()?;
        self.contents.get_mut(place)
    }

    /// Whether there is place for one more row.
    pub fn has_place(&self) -> bool
        ensures { result ≡ nat_lt (length (rows_of self.now)) (room_of self.now) }
    {
        self.len() < self.room
    }

    /// Puts the content under the key, in place of what stands there. Where there is no place for one more row, it is
    /// given back, and nothing changes.
    #[tactic(auto, using(crate::proofs::Always::facts))]
    pub fn put(&mut self, key: u64, content: T) -> Result<(), T>
        ensures answer { result ≡ answered (place_for key (rows_of self.old) (room_of self.old)) content }
        ensures rows { rows_of self.new ≡ (if place_for key (rows_of self.old) (room_of self.old) then put key content (rows_of self.old) else rows_of self.old) }
        ensures room { room_of self.new ≡ room_of self.old }
    {
        match self.find(key) {
            Ok(place) => self.contents[place] = content,
            Err(place) if self.has_place() => {
                // Within the reserved capacity an insert succeeds.
                let _ = self.keys.insert(place, key);
                let _ = self.contents.insert(place, content);
            }
            Err(_) => return Err(content),
        }
        Ok(())
    }

    /// Takes the row of the key out, and answers its content.
    #[tactic(auto, using(crate::proofs::Kept::taken))]
    pub fn take(&mut self, key: u64) -> Option<T>
        ensures answer { result ≡ lookup (rows_of self.old) key }
        ensures rows { rows_of self.new ≡ without key (rows_of self.old) }
        ensures room { room_of self.new ≡ room_of self.old }
    {
        let place = self.find(key).ok()?;
        self.keys.remove(place);
        Some(self.contents.remove(place))
    }
}

impl<T: Copy + Drop> Register<T> {
    /// What stands under the key.
    pub fn read(&self, key: u64) -> Option<T>
        ensures { result ≡ lookup (rows_of self.now) key }
    {
        self.get(key).copied()
    }
}
