//! Why a file can't be imported.

use std::alloc::{AllocError, AllocFailed};
use thiserror::Error;

/// What is wrong with a file, or what the profile can't say.
#[derive(Clone, Copy, Debug, PartialEq, Eq, Error)]
pub enum Fault {
    /// A `/*` without `*/`.
    #[error("comment not closed")]
    OpenComment,
    /// A `{` without the `}` that balances it.
    #[error("code not closed")]
    OpenCode,
    /// A `%{` without `%}`.
    #[error("prologue not closed")]
    OpenPrologue,
    /// A string, a character, a tag or a reference that isn't closed.
    #[error("quote not closed")]
    OpenQuote,
    /// A character token that is none: empty, of several characters, or with an escape that C doesn't have.
    #[error("not a character")]
    NotACharacter,
    /// A string that can't be quoted in the profile.
    #[error("string that can't be quoted")]
    NotQuotable,
    /// A byte that begins no token of a Bison file.
    #[error("unknown character")]
    UnknownByte,
    /// A directive that Bison doesn't have.
    #[error("unknown directive")]
    UnknownDirective,
    /// A declaration is wanted.
    #[error("declaration wanted")]
    DeclarationWanted,
    /// A rule is wanted.
    #[error("rule wanted")]
    RuleWanted,
    /// A token is wanted, behind `%prec`.
    #[error("token wanted")]
    TokenWanted,
    /// The file ends before its first `%%`.
    #[error("no rules")]
    RulesWanted,
    /// Two names of the file would be one name in the profile.
    #[error("two names would be one")]
    TakenName,
    /// A declaration that the profile wants on a line of its own.
    #[error("declaration needs a line of its own")]
    CrowdedLine,
    /// A precedence level among the rules.
    #[error("precedence among the rules")]
    LateLevel,
    /// `%no-default-prec`, which the profile can't say.
    #[error("%no-default-prec can't be kept")]
    NoDefaultPrec,
    /// A form that Berkeley Yacc or Racc has, and Bison doesn't.
    #[error("form of another generator")]
    ForeignForm,
    /// The result would be more than 16 times as long as the file, and 4,096 bytes.
    #[error("result too long")]
    TooLong,
    /// The result would be no text.
    #[error("result is no text")]
    NotUtf8,
    /// The notes don't lie one behind the other, which no file should bring about.
    #[error("notes don't fit")]
    Unfit,
}

/// Why there is no import.
#[derive(Debug, Drop, Error)]
pub enum ImportError {
    /// A fault, and the byte offset in the source at which it is.
    #[error("{0} at byte {1}")]
    Refused(Fault, usize),
    /// Memory was refused.
    #[error("out of memory")]
    Memory(AllocError),
}

impl From<AllocError> for ImportError {
    fn from(e: AllocError) -> ImportError {
        ImportError::Memory(e)
    }
}

impl<T: Drop> From<AllocFailed<T>> for ImportError {
    fn from(e: AllocFailed<T>) -> ImportError {
        ImportError::Memory(AllocError::from(e))
    }
}
