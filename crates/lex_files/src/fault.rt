//! Why a lexer file doesn't read.

use cfg_base::span::Span;
use cfg_sections::header::HeaderError;
use std::alloc::AllocError;
use std::error::Error;
use std::fmt;
use std::fmt::{Display, Formatter, Write};

/// What is wrong with a line.
#[derive(Clone, Copy, Debug, PartialEq, Eq)]
pub enum FaultKind {
    /// The file ends before a line `%%`.
    MissingMark,
    /// A line before `%%` begins with neither `%s` nor `%x`.
    UnknownDeclaration,
    /// The name of a start condition isn't a letter with letters, digits, `_` and `.` behind it, or its `>` is missing.
    InvalidCondition,
    /// No start condition has this name.
    UnknownCondition,
    /// The start condition was declared before.
    RepeatedCondition,
    /// A line behind `%%` begins with white.
    LeadingWhite,
    /// A rule has no white between its expression and its name.
    MissingSpace,
    /// A rule's name is neither in quotes nor `;`.
    InvalidName,
    /// An earlier rule has this name.
    RepeatedName,
    /// Something follows a second `%%`.
    Routines,
}

impl Display for FaultKind {
    fn fmt<W: Write>(&self, f: &mut Formatter<W>) -> fmt::Result {
        let words = match self {
            FaultKind::MissingMark => "missing '%%' before the rules",
            FaultKind::UnknownDeclaration =>
                "unknown declaration: '%s', '%x' or '%%' may come here",
            FaultKind::InvalidCondition => "invalid start condition",
            FaultKind::UnknownCondition => "unknown start condition",
            FaultKind::RepeatedCondition => "start condition declared twice",
            FaultKind::LeadingWhite => "a rule begins with white",
            FaultKind::MissingSpace => "no white between an expression and its name",
            FaultKind::InvalidName => "a rule's name is in quotes, or ';' for text that is skipped",
            FaultKind::RepeatedName => "an earlier rule has this name",
            FaultKind::Routines => "nothing may follow the second '%%'",
        };
        write!(f, "{words}")
    }
}

/// A fault, and the byte offset in the text at which reading stops.
#[derive(Clone, Copy, Debug, PartialEq, Eq)]
pub struct Fault {
    /// What is wrong.
    pub kind: FaultKind,
    /// The byte offset.
    pub offset: usize,
}

/// Why a text gives no lexer file.
#[derive(Debug, Drop)]
pub enum LexFileError {
    /// The request for memory that was refused.
    Memory(AllocError),
    /// The errors of the section `%grmtools{..}`.
    Section(Vec<HeaderError<Span>>),
    /// The first line that doesn't read.
    Line(Fault),
}

impl From<AllocError> for LexFileError {
    ghost use Rattle.std.specs.Prelude.{◌≡◌};
    ghost use Rattle.lex_files.specs.declared.fault.LexFileError.TheVariants.{Memory};

    ghost from_gives = { λ x e. e ≡ Memory x };

    fn from(e: AllocError) -> LexFileError {
        LexFileError::Memory(e)
    }
}

impl From<Fault> for LexFileError {
    ghost use Rattle.std.specs.Prelude.{◌≡◌};
    ghost use Rattle.lex_files.specs.declared.fault.LexFileError.TheVariants.{Line};

    ghost from_gives = { λ x e. e ≡ Line x };

    fn from(fault: Fault) -> LexFileError {
        LexFileError::Line(fault)
    }
}

impl Display for LexFileError {
    fn fmt<W: Write>(&self, f: &mut Formatter<W>) -> fmt::Result {
        match self {
            LexFileError::Memory(_) => write!(f, "out of memory"),
            LexFileError::Section(_) => write!(f, "invalid section"),
            LexFileError::Line(fault) => Display::fmt(&fault.kind, f),
        }
    }
}

impl Error for LexFileError {}
