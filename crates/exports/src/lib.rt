//! The library's calls for programs in C or Rust.
#![tactic(auto)]

ghost use Rattle.exports.specs.Exports.{Counted};

mod runs;

pub use runs::{posbook_register_cut, posbook_register_find, posbook_register_toggle};
use strikelists::strikes;

/// `strikelists::strikes` for C, which has no `Result`: the count of strikes, and 0 where it refuses, as no list is empty.
#[unsafe(no_mangle)]
pub extern "C" fn posbook_strikes(family: u8, level: u32, out: &mut [u32]) -> usize
    ensures { Counted family level out.old out.new result }
{
    strikes(family, level, out).unwrap_or(0)
}
