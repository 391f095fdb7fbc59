use script::Misread;
use std::alloc::AllocFailed;
use std::fmt;
use thiserror::Error;

/// A word of a command, by the name that the manual has for it.
#[derive(Clone, Copy, Debug)]
pub enum Field {
    Family,
    Level,
    Sample,
    Close,
}

/// Why a line is no command.
#[derive(Clone, Copy, Debug, Error)]
pub enum Unreadable {
    #[error("no command of that name")]
    NoCommand,
    #[error("{0} is missing")]
    Missing(Field),
    #[error("{0} {1}")]
    Misread(Field, Misread),
    #[error("too many words")]
    TooManyWords,
    #[error("the line is not text")]
    NotText,
    #[error("the line is longer than 10000 bytes")]
    TooLong,
    #[error("not enough memory")]
    NoMemory,
}

// A derived `From` would keep the error, which holds a number, in the variant.
impl From<AllocFailed<u32>> for Unreadable {
    fn from(_: AllocFailed<u32>) -> Unreadable {
        Unreadable::NoMemory
    }
}

// No derive prints what is no error.
impl fmt::Display for Field {
    fn fmt<W: fmt::Write>(&self, f: &mut fmt::Formatter<W>) -> fmt::Result {
        f.write_str(match self {
            Field::Family => "FAMILY",
            Field::Level => "LEVEL",
            Field::Sample => "SAMPLE",
            Field::Close => "CLOSE",
        })
    }
}
