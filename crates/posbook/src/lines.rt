ghost use Rattle.std.specs.Prelude.{◌≡◌, ◌-◌, length};
ghost use Rattle.std.specs.Iterator.{at_most};
ghost use Rattle.std.specs.Option.{option_map};
ghost use Rattle.posbook.specs.Lines.{NextLine};

use script::line_end;

/// The lines of a script, one after the other, without their newlines.
#[derive(Clone, Copy)]
pub struct Lines<'a> {
    script: &'a [u8],
    at: usize,
}

impl<'a> Lines<'a> {
    pub(crate) fn new(script: &'a [u8]) -> Lines<'a>
        ensures script { result.script.now ≡ script.now }
        ensures at { result.at ≡ 0 }
    {
        Lines { script, at: 0 }
    }
}

impl<'a> Iterator for Lines<'a> {
    type Item = &'a [u8];

    ghost remaining = { λ lines. at_most (length lines.script.now - lines.at) };

    ghost next_gives = { λ old line new. (new.script ≡ old.script)
        × NextLine old.script.now old.at (option_map (λ x. x.now) line) new.at };

    fn next(&mut self) -> Option<&'a [u8]> {
        if self.at < self.script.len() {
            let end = line_end(self.script, self.at);
            let line = &self.script[self.at..end];
            self.at = end + 1;
            Some(line)
        } else {
            None
        }
    }
}
