ghost use Rattle.std.specs.Prelude.{IfOk, Ok, codes};
ghost use Rattle.posbook.specs.Commands.{Behind, Says};
ghost use Rattle.script.specs.Numbers.{Number, Hundredths};

use crate::unreadable::{Field, Unreadable};
use crate::words::Words;
use script::{Misread, hundredths, number};
use std::alloc::Global;

/// A command of the script.
#[derive(Drop)]
pub enum Command {
    /// A whole fixing.
    Fixing {
        family: u8,
        samples: Vec<u32>,
        close: u32,
    },
    /// The strike list around a level.
    Strikes {
        family: u8,
        level: u32,
    },
}

/// The command that a line of text holds.
pub(crate) fn read_command(heap: Global, line: &[u8]) -> Result<Command, Unreadable>
    ensures { IfOk result (Says line.now) }
{
    let mut words = Words::new(line);
    match words.next() {
        Some(b"fixing") => read_fixing(heap, words),
        Some(b"strikes") => read_strikes(words),
        _ => Err(Unreadable::NoCommand),
    }
}

fn read_fixing(heap: Global, mut words: Words) -> Result<Command, Unreadable>
    ensures { IfOk result (Behind words.entry.line.now words.entry.at (codes "fixing")) }
{
    let first = words.next().ok_or(Unreadable::Missing(Field::Family))?;
    let family = read_family(first)?;
    let second = words.next().ok_or(Unreadable::Missing(Field::Close))?;
    let mut samples = Vec::new(heap);
    let mut close = read_sample(second, words)?;
    // `for` would take the words, and each sample asks whether one follows.
    while let Some(word) = words.next() {
        samples.push(close)?;
        close = read_sample(word, words)?;
    }
    Ok(Command::Fixing {
        family,
        samples,
        close,
    })
}

fn read_strikes(mut words: Words) -> Result<Command, Unreadable>
    ensures { IfOk result (Behind words.entry.line.now words.entry.at (codes "strikes")) }
{
    let first = words.next().ok_or(Unreadable::Missing(Field::Family))?;
    let family = read_family(first)?;
    let second = words.next().ok_or(Unreadable::Missing(Field::Level))?;
    let level = read_points(second, Field::Level)?;
    match words.next() {
        None => Ok(Command::Strikes { family, level }),
        Some(_) => Err(Unreadable::TooManyWords),
    }
}

/// A sample, or the close where no word follows.
fn read_sample(word: &[u8], mut after: Words) -> Result<u32, Unreadable>
    ensures { IfOk result (λ n. Hundredths word.now (Ok n)) }
{
    hundredths(word).map_err(|misread| {
        let field = if after.next().is_some() {
            Field::Sample
        } else {
            Field::Close
        };
        Unreadable::Misread(field, misread)
    })
}

/// A family's number, which fits a byte.
fn read_family(word: &[u8]) -> Result<u8, Unreadable>
    ensures { IfOk result (λ n. Number word.now (Ok n)) }
{
    number(word)
        .and_then(|n| u8::try_from(n).map_err(|_| Misread::TooLarge))
        .map_err(|misread| Unreadable::Misread(Field::Family, misread))
}

/// Index points, in hundredths.
fn read_points(word: &[u8], field: Field) -> Result<u32, Unreadable>
    ensures { IfOk result (λ n. Hundredths word.now (Ok n)) }
{
    hundredths(word).map_err(|misread| Unreadable::Misread(field, misread))
}
