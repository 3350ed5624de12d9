//! Why a run ends early, and the program's status.

ghost use Rattle.std.specs.Prelude.{◌≡◌};
ghost use Rattle.lrkit_parse.specs.Statuses.{path_of, status_of};

use std::alloc::AllocError;
use thiserror::Error;

/// Why a run ends early. An input is known by the number of its path; the system's cause is in words.
#[derive(Debug, Drop, Error)]
pub enum ParseFault {
    /// The input is no UTF-8, from this byte on.
    #[error("not UTF-8 at byte {1}")]
    NotUtf8(usize, usize),
    /// The input can't be opened, or a read fails.
    #[error("{1}")]
    Read(usize, String),
    /// The input has more than 64 MiB.
    #[error("more than 67108864 bytes")]
    TooLong(usize),
    /// The lexemes of a text can't be parsed: they aren't of the grammar's tokens, or not in the order of the text.
    #[error("lexemes are refused")]
    Lexemes,
    /// A write failed, or took nothing of a text that isn't empty.
    #[error("write fault: {0}")]
    Write(String),
    /// The reader of the pipe that is written to is gone.
    #[error("closed pipe")]
    Closed,
    /// A request for memory was refused.
    #[error("out of memory")]
    Memory,
}

impl From<AllocError> for ParseFault {
    ghost use Rattle.lrkit_parse.specs.declared.fault.ParseFault.TheVariants.{Memory};

    ghost from_gives = { λ x e. e ≡ Memory };

    fn from(_e: AllocError) -> ParseFault {
        ParseFault::Memory
    }
}

impl ParseFault {
    /// Returns the number of the path that the fault is about, if it is about one.
    pub fn path_index(&self) -> Option<usize>
        ensures { result ≡ path_of self.now }
    {
        match self {
            ParseFault::NotUtf8(index, _) => Some(*index),
            ParseFault::Read(index, _) => Some(*index),
            ParseFault::TooLong(index) => Some(*index),
            ParseFault::Lexemes => None,
            ParseFault::Write(_) => None,
            ParseFault::Closed => None,
            ParseFault::Memory => None,
        }
    }
}

/// What a run found.
#[derive(Clone, Copy, Debug, PartialEq, Eq)]
pub enum Outcome {
    /// Each text has a tree.
    Parsed,
    /// Some text has an error.
    Faulty,
    /// The grammar or the lexer has one, and no text was read.
    NoParser,
}

/// Returns the program's exit status.
pub fn status(outcome: &Result<Outcome, ParseFault>) -> u8
    ensures { result ≡ status_of outcome.now }
{
    match outcome {
        Ok(Outcome::Parsed) => 0,
        Ok(Outcome::Faulty) => 1,
        Ok(Outcome::NoParser) => 2,
        Err(ParseFault::Memory) => 6,
        Err(_) => 5,
    }
}
