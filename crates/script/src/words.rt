ghost use Rattle.std.specs.Prelude.{◌≡◌, ℕ, ◌<◌, ◌≤◌, true, false, length, slice_index};
ghost use Rattle.script.specs.Only.{Only};
ghost use Rattle.script.specs.Words.{blank, WordAt, LineEnd};

const SPACE: u8 = b' ';

const TAB: u8 = b'\t';

const RETURN: u8 = b'\r';

const NEWLINE: u8 = b'\n';

// A type of its own, since the library's `Range` is not `Copy`.
/// Where a word stands in its line: from `start` to before `end`.
#[derive(Clone, Copy, PartialEq, Eq, Debug)]
pub struct Span {
    pub start: usize,
    pub end: usize,
}

/// The next word of the line at or after `from`. Where there is none, `start` and `end` are the line's length.
pub fn word_at(line: &[u8], from: usize) -> Span
    ensures { Only (WordAt line.now from) result }
{
    let from = from.min(line.len());
    let start = from + first_place(&line[from..], |c| !is_blank(c));
    let end = start + first_place(&line[start..], is_blank);
    Span { start, end }
}

/// The place of the first newline at or after `from`, or the text's length where there is none.
pub fn line_end(text: &[u8], from: usize) -> usize
    ensures { Only (LineEnd text.now from) result }
{
    let from = from.min(text.len());
    from + first_place(&text[from..], |c| c == NEWLINE)
}

/// The place of the first byte that passes the test, or the text's length where none does.
pub(crate) fn first_place<F: Fn(u8) -> bool>(text: &[u8], passes: F) -> usize
    requires { F.IsAlwaysCallable passes }
    ensures within { result ≤ length text.now }
    ensures before { (k : ℕ) → k < result → F.post passes (slice_index text.now k) false }
    ensures found { result < length text.now → F.post passes (slice_index text.now result) true }
{
    text.iter().position(|&c| passes(c)).unwrap_or(text.len())
}

/// Whether a byte separates words: a space, a tab or a carriage return.
fn is_blank(c: u8) -> bool
    ensures { result ≡ blank c }
{
    matches!(c, SPACE | TAB | RETURN)
}
