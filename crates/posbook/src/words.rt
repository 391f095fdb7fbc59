ghost use Rattle.std.specs.Prelude.{◌≡◌, ◌-◌, length};
ghost use Rattle.std.specs.Iterator.{at_most};
ghost use Rattle.std.specs.Option.{option_map};
ghost use Rattle.posbook.specs.Lines.{Next};

use script::{Span, word_at};

/// The words of a line, one after the other.
#[derive(Clone, Copy)]
pub struct Words<'a> {
    line: &'a [u8],
    at: usize,
}

impl<'a> Words<'a> {
    pub(crate) fn new(line: &'a [u8]) -> Words<'a>
        ensures line { result.line.now ≡ line.now }
        ensures at { result.at ≡ 0 }
    {
        Words { line, at: 0 }
    }
}

impl<'a> Iterator for Words<'a> {
    type Item = &'a [u8];

    ghost remaining = { λ words. at_most (length words.line.now - words.at) };

    ghost next_gives = { λ old word new. (new.line ≡ old.line)
        × Next old.line.now old.at (option_map (λ x. x.now) word) new.at };

    fn next(&mut self) -> Option<&'a [u8]> {
        let Span { start, end } = word_at(self.line, self.at);
        self.at = end;
        if start == end {
            None
        } else {
            Some(&self.line[start..end])
        }
    }
}
