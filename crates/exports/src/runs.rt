// Whole runs over a register of numbers, for programs that cannot hold a register.
ghost use Rattle.std.specs.Prelude.{◌≡◌, IfOk, fold};
ghost use Rattle.registers.specs.Held.{rows_of, room_of};
ghost use Rattle.exports.specs.Runs.{filled_by, filled, found_by, toggled_by, cut_by, OrNone};

use registers::Register;
use std::alloc::{AllocError, Global};

// Each key as its own content, as long as there is place.
fn fill(register: &mut Register<u64>, keys: &[u64])
    ensures rows { rows_of register.new ≡ fold (filled_by (room_of register.old)) (rows_of register.old) keys.now }
    ensures room { room_of register.new ≡ room_of register.old }
{
    for key in keys {
        let _ = register.put(*key, *key);
    }
}

// The contents that are found, added up.
fn find(register: &Register<u64>, keys: &[u64]) -> u64
    ensures { result ≡ fold (found_by (rows_of register.now)) 0 keys.now }
{
    keys.iter().fold(
        0,
        |sum: u64, key| sum.wrapping_add(register.read(*key).unwrap_or(0)),
    )
}

// Takes each key out, or puts it in where it does not stand, and adds up what was taken.
fn toggle(register: &mut Register<u64>, keys: &[u64]) -> u64
    ensures { result ≡ (fold (toggled_by (room_of register.old)) (rows_of register.old, 0) keys.now).1 }
{
    let mut sum = 0u64;
    for key in keys {
        match register.take(*key) {
            Some(content) => sum = sum.wrapping_add(content),
            None => {
                let _ = register.put(*key, *key);
            }
        }
    }
    sum
}

// Takes the stretch of 64 keys from each key on out, and adds up how many rows they were.
fn cut(register: &mut Register<u64>, keys: &[u64]) -> u64
    ensures { result ≡ (fold cut_by (rows_of register.old, 0) keys.now).1 }
{
    let mut sum = 0u64;
    for key in keys {
        sum = sum.wrapping_add(register.take_stretch(*key, key.saturating_add(64)) as u64);
    }
    sum
}

fn opened(heap: Global, room: usize, keys: &[u64]) -> Result<Register<u64>, AllocError>
    ensures { IfOk result (λ s. (rows_of s ≡ filled room keys.now) × (room_of s ≡ room)) }
{
    let mut register = Register::with_room(heap, room)?;
    fill(&mut register, keys);
    Ok(register)
}

/// A register filled with `keys`, each its own content, then `asked` looked up: what is found, added up.
#[unsafe(no_mangle)]
pub extern "C" fn posbook_register_find(
    heap: Global,
    room: usize,
    keys: &[u64],
    asked: &[u64],
) -> u64
    ensures { OrNone result (fold (found_by (filled room keys.now)) 0 asked.now) }
{
    opened(heap, room, keys).map_or(0, |register| find(&register, asked))
}

/// A register filled with `keys`, then each of `turns` taken out, or put in where it does not stand: what was taken,
/// added up.
#[unsafe(no_mangle)]
pub extern "C" fn posbook_register_toggle(
    heap: Global,
    room: usize,
    keys: &[u64],
    turns: &[u64],
) -> u64
    ensures { OrNone result (fold (toggled_by room) (filled room keys.now, 0) turns.now).1 }
{
    opened(heap, room, keys).map_or(0, |mut register| toggle(&mut register, turns))
}

/// A register filled with `keys`, then the stretch of 64 keys from each of `cuts` taken out: how many rows, added up.
#[unsafe(no_mangle)]
pub extern "C" fn posbook_register_cut(heap: Global, room: usize, keys: &[u64], cuts: &[u64]) -> u64
    ensures { OrNone result (fold cut_by (filled room keys.now, 0) cuts.now).1 }
{
    opened(heap, room, keys).map_or(0, |mut register| cut(&mut register, cuts))
}
