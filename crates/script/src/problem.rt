// Why a line is no call.
ghost use Rattle.std.specs.Prelude.{◌≡◌};
ghost use Rattle.script.specs.declared.problem.Problem.TheVariants.{NoMemory};

use std::alloc::{AllocError, AllocFailed};
use std::error::Error;
use std::fmt;

#[derive(Clone, Copy, PartialEq, Eq, Debug)]
pub enum Problem {
    UnknownWord,
    NotAvailable,
    MissingNumber,
    TooManyWords,
    NotNumber,
    TooLarge,
    NotFlag,
    LargeArea,
    LongLine,
    NoWorksheet,
    NoHost,
    NoMemory,
}

// In plain words.
impl Problem {
    // In plain words.
    pub fn text(self) -> &'static str {
        match self {
            Problem::UnknownWord => "no command has this name",
            Problem::NotAvailable => "this command is not available in this version",
            Problem::MissingNumber => "a number is missing",
            Problem::TooManyWords => "there are too many words",
            Problem::NotNumber => "a word is not a number that may stand there",
            Problem::TooLarge => "a number is too large",
            Problem::NotFlag => "a flag is 0 or 1",
            Problem::LargeArea => "an area has at most 1000000 words and 1000000 cells",
            Problem::LongLine => "the line is too long",
            Problem::NoWorksheet => "there is no worksheet to set a row in",
            Problem::NoHost => "there is no host: make a record or a worksheet first",
            Problem::NoMemory => "there is not enough memory",
        }
    }
}

impl fmt::Display for Problem {
    fn fmt<W: fmt::Write>(&self, f: &mut fmt::Formatter<W>) -> fmt::Result {
        f.write_str(self.text())
    }
}

impl Error for Problem {}

// Whatever finds no memory is such a problem.
impl From<AllocError> for Problem {
    ghost from_gives = { λ _ p. p ≡ NoMemory };

    fn from(_error: AllocError) -> Problem {
        Problem::NoMemory
    }
}

impl<T: Drop> From<AllocFailed<T>> for Problem {
    ghost from_gives = { λ _ p. p ≡ NoMemory };

    fn from(_error: AllocFailed<T>) -> Problem {
        Problem::NoMemory
    }
}
