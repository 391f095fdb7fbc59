use crate::command::{Command, read_command};
use crate::lines::Lines;
use crate::unreadable::Unreadable;
use crate::words::Words;
use script::Points;
use std::alloc::Global;
use std::io::Write;
use std::str::from_utf8;
use std::{fmt, io};
use terms::Refusal;
use thiserror::Error;

/// The longest line that is read, in bytes.
const LONGEST_LINE: usize = 10_000;

/// Room for the longest strike list.
const MOST_STRIKES: usize = 2_048;

/// Answers every line of the script, and tells at the end how the commands went.
pub(crate) fn run<W: Write>(heap: Global, script: &[u8], out: &mut W) -> io::Result<()> {
    let mut session = Session {
        heap,
        out,
        totals: Totals::default(),
    };
    for (number, line) in (1..).zip(Lines::new(script)) {
        if !is_comment(line) {
            session.answer(number, line)?;
        }
    }
    let totals = session.totals;
    writeln!(out, "{totals}")
}

/// Whether a line is blank or a comment.
fn is_comment(line: &[u8]) -> bool {
    matches!(Words::new(line).next(), None | Some([b'#', ..]))
}

/// The answers so far: where they go, and how many there are of each kind.
#[derive(Drop)]
struct Session<'a, W> {
    heap: Global,
    out: &'a mut W,
    totals: Totals,
}

impl<W: Write> Session<'_, W> {
    /// Answers the line of that number, which holds a command.
    fn answer(&mut self, number: u64, line: &[u8]) -> io::Result<()> {
        match self.obey(number, line) {
            Ok(()) => self.totals.accepted = self.totals.accepted.saturating_add(1),
            Err(Failure::Refused(refusal)) => {
                self.totals.refused = self.totals.refused.saturating_add(1);
                writeln!(self.out, "{number} {refusal}")?;
            }
            Err(Failure::Unreadable(why)) => {
                self.totals.unreadable = self.totals.unreadable.saturating_add(1);
                writeln!(self.out, "{number} unreadable: {why}")?;
            }
            Err(Failure::Output(error)) => return Err(error),
        }
        Ok(())
    }

    /// Carries a line's command out, and prints its answer if it is accepted.
    fn obey(&mut self, number: u64, line: &[u8]) -> Result<(), Failure> {
        match read_line(self.heap, line)? {
            Command::Fixing {
                family,
                samples,
                close,
            } => {
                let (_, price) = fixings::fix(family, &samples, close)?.spend();
                let points = Points(price);
                writeln!(self.out, "{number} final {points}")?;
                Ok(())
            }
            Command::Strikes { family, level } => self.list_strikes(number, family, level),
        }
    }

    fn list_strikes(&mut self, number: u64, family: u8, level: u32) -> Result<(), Failure> {
        // `strikes` writes to supplied space, and answers how much of it the list takes.
        let mut space = [0; MOST_STRIKES];
        let count = strikelists::strikes(family, level, &mut space)?;
        let middle = strikelists::nearest_strike(family, level)?;
        write!(self.out, "{number} strikes {count} around {middle}:")?;
        for strike in &space[..count] {
            write!(self.out, " {strike}")?;
        }
        writeln!(self.out)?;
        Ok(())
    }
}

fn read_line(heap: Global, line: &[u8]) -> Result<Command, Unreadable> {
    if line.len() > LONGEST_LINE {
        return Err(Unreadable::TooLong);
    }
    if from_utf8(line).is_err() {
        return Err(Unreadable::NotText);
    }
    read_command(heap, line)
}

/// Why a line gets no answer from `obey`.
#[derive(Debug, Drop, Error)]
enum Failure {
    #[error(transparent)]
    Unreadable(#[from] Unreadable),
    #[error(transparent)]
    Refused(#[from] Refusal),
    #[error(transparent)]
    Output(#[from] io::Error),
}

/// How many commands ended in which way.
#[derive(Clone, Copy, Default)]
struct Totals {
    accepted: u64,
    refused: u64,
    unreadable: u64,
}

impl fmt::Display for Totals {
    fn fmt<W: fmt::Write>(&self, f: &mut fmt::Formatter<W>) -> fmt::Result {
        let Totals {
            accepted,
            refused,
            unreadable,
        } = *self;
        let all = accepted.saturating_add(refused).saturating_add(unreadable);
        write!(
            f,
            "{all} commands: {accepted} accepted, {refused} refused, {unreadable} unreadable"
        )
    }
}
