ghost use Rattle.std.specs.Prelude.{◌≡◌, length, replicate, is_some, if◌then◌else◌};
ghost use Rattle.registers.specs.Rows.{lookup, put};
ghost use Rattle.registers.specs.Held.{rows_of, room_of};
ghost use Rattle.registers.specs.Stretches.{stretch, rewritten};

use crate::{Register, Span, book_accepts};
use std::test::Fail;

// Writes a content through the loan of one row.
fn change(register: &mut Register<u32>, key: u64, content: u32)
    ensures rows { rows_of register.new ≡ (if is_some (lookup (rows_of register.old) key) then put key content (rows_of register.old) else rows_of register.old) }
    ensures room { room_of register.new ≡ room_of register.old }
{
    if let Some(place) = register.get_mut(key) {
        *place = content;
    }
}

// Writes a content to each row of a stretch, through the loan of that part.
fn overwrite(register: &mut Register<u32>, a: u64, b: u64, content: u32)
    ensures rows { rows_of register.new ≡ rewritten a b (replicate (length (stretch a b (rows_of register.old))) content) (rows_of register.old) }
    ensures room { room_of register.new ≡ room_of register.old }
{
    let Span { from, to } = register.stretch(a, b);
    register.contents_mut()[from..to].fill(content);
}

#[test]
fn any_room_is_reserved(rt: HostRuntime) -> Result<(), Fail> {
    let none: Register<u32> = Register::with_room(rt.alloc(), 0)?;
    assert_eq!(rt; none.has_place(), false);
    let wide: Register<u32> = Register::with_room(rt.alloc(), 5000)?;
    assert_eq!(rt; wide.room(), 5000);
    assert_eq!(rt; book_accepts(0), false);
    assert_eq!(rt; book_accepts(1), true);
    assert_eq!(rt; book_accepts(4096), true);
    assert_eq!(rt; book_accepts(4097), false);
    Ok(())
}

#[test]
fn a_full_register_refuses_one_more(rt: HostRuntime) -> Result<(), Fail> {
    let mut register = Register::with_room(rt.alloc(), 3)?;
    assert_eq!(rt; register.put(u64::MAX, 9), Ok(()));
    assert_eq!(rt; register.put(0, 1), Ok(()));
    assert_eq!(rt; register.put(7, 5), Ok(()));
    assert_eq!(rt; register.has_place(), false);
    assert_eq!(rt; register.put(8, 6), Err(6));
    assert_eq!(rt; register.put(7, 4), Ok(()));
    assert_eq!(rt; register.keys(), [0, 7, u64::MAX].as_slice());
    assert_eq!(rt; register.contents(), [1, 4, 9].as_slice());
    assert_eq!(rt; register.take(8), None);
    assert_eq!(rt; register.take(u64::MAX), Some(9));
    assert_eq!(rt; register.put(8, 6), Ok(()));
    assert_eq!(rt; register.len(), 3);
    Ok(())
}

#[test]
fn stretches_are_lent_and_taken(rt: HostRuntime) -> Result<(), Fail> {
    let mut register = Register::with_room(rt.alloc(), 8)?;
    for i in 0..8u32 {
        let _ = register.put(u64::from(i) * 10, i);
    }
    change(&mut register, 50, 55);
    change(&mut register, 51, 55);
    assert_eq!(rt; register.stretch_contents(15, 51), [2, 3, 4, 55].as_slice());
    assert_eq!(rt; register.stretch_contents(51, 15).len(), 0);
    overwrite(&mut register, 20, 40, 9);
    assert_eq!(rt; register.contents(), [0, 1, 9, 9, 4, 55, 6, 7].as_slice());
    assert_eq!(rt; register.take_stretch(30, 61), 4);
    assert_eq!(rt; register.keys(), [0, 10, 20, 70].as_slice());
    assert_eq!(rt; register.key_at(3), Some(70));
    assert_eq!(rt; register.key_at(4), None);
    assert_eq!(rt; register.content_at(2).copied(), Some(9));
    Ok(())
}

#[test]
fn mixed_order_beside_a_plain_list(rt: HostRuntime) -> Result<(), Fail> {
    let mut register = Register::with_room(rt.alloc(), 16)?;
    let mut plain: [Option<u32>; 16] = [None; 16];
    for i in 0..200u32 {
        let key = ((i * 7 + i / 16) % 16) as usize;
        if i % 3 == 0 {
            assert_eq!(rt; register.take(key as u64), plain[key]);
            plain[key] = None;
        } else {
            assert_eq!(rt; register.put(key as u64, i), Ok(()));
            plain[key] = Some(i);
        }
        assert_eq!(rt; register.read(key as u64), plain[key]);
    }
    Ok(())
}
