ghost use Rattle.std.specs.Prelude.{◌≡◌, ◌≤◌, ◌&&◌, IfOk, vec_len, vec_capacity, nat_le};

use std::alloc::{AllocError, Global};

/// Space for rows: empty, and reserved once for as many rows as its room states. Two vectors, since a register has two.
#[derive(Drop)]
pub struct Slots<T> {
    pub(crate) keys: Vec<u64>,
    pub(crate) contents: Vec<T>,
    pub(crate) room: usize,
    ghost empty: { (vec_len keys ≡ 0) × (vec_len contents ≡ 0) },
    ghost roomy: { (room ≤ vec_capacity keys) × (room ≤ vec_capacity contents) },
}

impl<T: Drop> Slots<T> {
    /// Space for `room` rows, any number. Fails only for want of memory.
    pub fn reserve(heap: Global, room: usize) -> Result<Slots<T>, AllocError>
        ensures { IfOk result (λ s. s.room ≡ room) }
    {
        Ok(Slots {
            keys: Vec::with_capacity(heap, room)?,
            contents: Vec::with_capacity(heap, room)?,
            room,
        })
    }

    /// For how many rows there is space.
    pub fn room(&self) -> usize
        ensures { result ≡ self.now.room }
    {
        self.room
    }
}

/// Whether a book accepts a register with this room: 1 to 4,096 rows.
pub fn book_accepts(room: usize) -> bool
    ensures { result ≡ (nat_le 1 room && nat_le room 4096) }
{
    (1..=4096).contains(&room)
}
