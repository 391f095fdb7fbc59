use crate::{Misread, Points, Span, hundredths, line_end, number, word_at};
use std::process::Abort;
use std::test::Fail;

fn plain(rt: &impl Abort, text: &[u8], answer: Result<u32, Misread>) {
    assert_eq!(rt; number(text), answer);
}

fn points(rt: &impl Abort, text: &[u8], answer: Result<u32, Misread>) {
    assert_eq!(rt; hundredths(text), answer);
}

fn word(rt: &impl Abort, line: &[u8], from: usize, start: usize, end: usize) {
    assert_eq!(rt; word_at(line, from), Span { start, end });
}

#[test]
fn numbers_are_read(rt: HostRuntime) {
    plain(&rt, b"007", Ok(7));
    plain(&rt, b"4294967295", Ok(u32::MAX));
    plain(&rt, b"4294967296", Err(Misread::TooLarge));
    plain(&rt, b"", Err(Misread::NotANumber));
    plain(&rt, b"+7", Err(Misread::NotANumber));
}

#[test]
fn points_are_read(rt: HostRuntime) {
    points(&rt, b"20126", Ok(2012600));
    points(&rt, b"20123.45", Ok(2012345));
    points(&rt, b"812.3", Ok(81230));
    points(&rt, b"20126.", Err(Misread::NotANumber));
    points(&rt, b".5", Err(Misread::NotANumber));
    points(&rt, b"1.2.3", Err(Misread::NotANumber));
    points(&rt, b"42949673.001", Err(Misread::TooFine));
    points(&rt, b"42949672.96", Err(Misread::TooLarge));
}

#[test]
fn words_are_found(rt: HostRuntime) -> Result<(), Fail> {
    assert_eq!(rt; line_end(b"buy 9\nsell 9", 0), 5);
    word(&rt, b"buy \t9\r", 3, 5, 6);
    word(&rt, b"buy \t9\r", 6, 7, 7);
    word(&rt, b"buy", 9, 3, 3);
    assert_eq!(rt;
        Points(5).to_string(rt.alloc())?.as_bytes(),
        b"0.05".as_slice()
    );
    Ok(())
}
