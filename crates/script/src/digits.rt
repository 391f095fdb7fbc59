ghost use Rattle.std.specs.Prelude.{◌≡◌, ◌+◌, ◌*◌, ◌<◌, ◌≤◌, length, MatchResult};
ghost use Rattle.script.specs.Digits.{Numeral, value};
ghost use Rattle.script.specs.Numbers.{Fitting, after_point};
ghost use Rattle.script.specs.declared.numbers.Misread.TheVariants.{NotANumber, TooFine};

use crate::numbers::Misread;

/// A numeral: one or more decimal digits and nothing else.
#[derive(Clone, Copy)]
pub(crate) struct Digits<'a> {
    word: &'a [u8],
    ghost numeral: { Numeral word.now },
}

impl<'a> TryFrom<&'a [u8]> for Digits<'a> {
    type Error = Misread;

    ghost try_from_gives = { λ w r. MatchResult r
        (λ d. d.word.now ≡ w.now)
        (λ e. (e ≡ NotANumber) × (Numeral w.now → ⊥)) };

    fn try_from(word: &'a [u8]) -> Result<Digits<'a>, Misread> {
        if !word.is_empty() && word.iter().all(u8::is_ascii_digit) {
            Ok(Digits { word })
        } else {
            Err(Misread::NotANumber)
        }
    }
}

impl Digits<'_> {
    // The library's `parse` reads a sign too, and does not say which numbers are too large.
    /// The number that the digits write, or `TooLarge`.
    pub(crate) fn value(self) -> Result<u32, Misread>
        ensures { Fitting (value self.entry.word.now) result }
    {
        let mut number = 0;
        for digit in self.word {
            number = scaled(number, 10, u32::from(digit - b'0'))?;
        }
        Ok(number)
    }

    /// The hundredths that one or two decimals write, where one is worth tens, or `TooFine` where there are more.
    pub(crate) fn after_point(self) -> Result<u32, Misread>
        ensures { MatchResult result
            (λ n. (length self.entry.word.now ≤ 2) × (n ≡ after_point self.entry.word.now))
            (λ e. (e ≡ TooFine) × (3 ≤ length self.entry.word.now)) }
    {
        match self.word {
            [tens] => Ok(u32::from(tens - b'0') * 10),
            [tens, ones] => Ok(u32::from(tens - b'0') * 10 + u32::from(ones - b'0')),
            _ => Err(Misread::TooFine),
        }
    }
}

/// The number times a scale and a rest more, or `TooLarge`.
pub(crate) fn scaled(number: u32, scale: u32, rest: u32) -> Result<u32, Misread>
    ensures { Fitting (scale * number + rest) result }
{
    number
        .checked_mul(scale)
        .and_then(|product| product.checked_add(rest))
        .ok_or(Misread::TooLarge)
}
