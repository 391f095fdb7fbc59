ghost use Rattle.std.specs.Prelude.{◌+◌, ◌*◌, Some};
ghost use Rattle.script.specs.Digits.{value};
ghost use Rattle.script.specs.Numbers.{Number, Hundredths, Fitting, FirstPoint};
ghost use Rattle.script.specs.Only.{Only};
ghost use Rattle.script.specs.Texts.{misread_text};

use crate::digits::{Digits, scaled};
use crate::words::first_place;
use std::error::Error;
use std::fmt;

const POINT: u8 = b'.';

/// Why a word gives no number.
#[derive(Clone, Copy, PartialEq, Eq, Debug)]
pub enum Misread {
    /// It is not written as a number.
    NotANumber,
    /// It has more than two decimals.
    TooFine,
    /// It is 2^32 or more.
    TooLarge,
}

// By hand, since the contract states the bytes that are written.
/// What is said of the word.
impl fmt::Display for Misread {
    ghost output = { λ m. Some (misread_text m) };

    fn fmt<W: fmt::Write>(&self, f: &mut fmt::Formatter<W>) -> fmt::Result {
        f.write_str(match self {
            Misread::NotANumber => "is not a number",
            Misread::TooFine => "has more than two decimals",
            Misread::TooLarge => "is too large",
        })
    }
}

impl Error for Misread {}

/// A plain number: one or more decimal digits and nothing else. Leading zeros are fine.
pub fn number(word: &[u8]) -> Result<u32, Misread>
    ensures { Only (Number word.now) result }
{
    Digits::try_from(word)?.value()
}

/// Index points with at most two decimals, in hundredths: `20126` gives 2012600, `812.3` gives 81230.
/// More than two decimals are `TooFine`, however large the number.
pub fn hundredths(word: &[u8]) -> Result<u32, Misread>
    ensures { Only (Hundredths word.now) result }
{
    let point = point_place(word);
    let whole = Digits::try_from(&word[..point])?;
    if point == word.len() {
        return in_hundredths(whole, 0);
    }
    let part = Digits::try_from(&word[point + 1..])?;
    in_hundredths(whole, part.after_point()?)
}

/// The place of the first point, or the word's length where there is none.
fn point_place(word: &[u8]) -> usize
    ensures { FirstPoint word.now result }
{
    first_place(word, |c| c == POINT)
}

/// Whole points and hundredths as hundredths, or `TooLarge`.
fn in_hundredths(whole: Digits, rest: u32) -> Result<u32, Misread>
    ensures { Fitting (100 * value whole.entry.word.now + rest) result }
{
    scaled(whole.value()?, 100, rest)
}
