use registers::Register;
use std::test::Fail;

// Thousands of rows: each is put in before the others, and a stretch of them is taken out.
#[test]
fn long_registers_move_by_blocks(rt: HostRuntime) -> Result<(), Fail> {
    let mut register = Register::with_room(rt.alloc(), 2400)?;
    for i in 0..2400u32 {
        let _ = register.put(u64::from(2400 - i), i);
    }
    assert_eq!(rt; register.len(), 2400);
    assert_eq!(rt; register.take(1), Some(2399));
    assert_eq!(rt; register.take_stretch(100, 300), 200);
    for i in 0..2399u32 {
        let key = u64::from(2400 - i);
        let content = if (100..300).contains(&key) {
            None
        } else {
            Some(i)
        };
        assert_eq!(rt; register.read(key), content);
    }
    Ok(())
}
