ghost use Rattle.std.specs.Prelude.{◌≡◌, ◌≤◌, [], length, IfOk};
ghost use Rattle.registers.specs.Held.{rows_of, room_of};

use super::Register;
use crate::space::Slots;
use std::alloc::{AllocError, Global};

impl<T: Drop> Register<T> {
    /// A register with no rows, over the space.
    pub fn over(slots: Slots<T>) -> Register<T>
        ensures rows { rows_of result ≡ [] }
        ensures room { room_of result ≡ slots.room }
    {
        let Slots {
            keys,
            contents,
            room,
        } = slots;
        Register {
            keys,
            contents,
            room,
        }
    }

    /// A register with no rows and space for `room` rows, any number. Fails only for want of memory.
    pub fn with_room(heap: Global, room: usize) -> Result<Register<T>, AllocError>
        ensures rows { IfOk result (λ r. rows_of r ≡ []) }
        ensures room { IfOk result (λ r. room_of r ≡ room) }
    {
        Slots::reserve(heap, room).map(Register::over)
    }

    /// How many rows it may have.
    pub fn room(&self) -> usize
        ensures { result ≡ room_of self.now }
    {
        self.room
    }

    /// How many rows it has, no more than its room.
    pub fn len(&self) -> usize
        ensures value { result ≡ length (rows_of self.now) }
        ensures bound { result ≤ room_of self.now }
    {
        self.keys().len()
    }
}
