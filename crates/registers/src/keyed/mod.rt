ghost use Rattle.std.specs.Prelude.{◌≡◌, ◌≤◌, vec_len, vec_capacity};
ghost use Rattle.registers.specs.Keys.{Ascending};

mod places;
mod questions;
mod rows;
mod stretches;

pub use stretches::Span;

/// Rows whose keys ascend strictly: key `i` stands over content `i`. Two vectors, since contents are lent for writing
/// without the keys, and a look-up reads keys alone.
/// That the room stays is said of each change, as no invariant of a value can say it.
#[derive(Drop)]
pub struct Register<T> {
    keys: Vec<u64>,
    contents: Vec<T>,
    room: usize,
    ghost even: { vec_len contents ≡ vec_len keys },
    ghost fits: { (vec_len keys ≤ room) × (room ≤ vec_capacity keys) × (room ≤ vec_capacity contents) },
    ghost ascends: { Ascending keys.items },
}
