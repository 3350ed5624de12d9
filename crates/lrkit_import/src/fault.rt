//! Why no text is written, and the program's status.

ghost use Rattle.std.specs.Prelude.{◌≡◌};
ghost use Rattle.lrkit_import.specs.Statuses.{fault_of, fault_of_import, fault_of_check, status_of};

use byte_streams::InputFault;
use checked_import::CheckedError;
use std::alloc::AllocError;
use thiserror::Error;
use yacc_import::{Fault, ImportError, Imported};

/// Why no text is written, or not all of it.
#[derive(Debug, Drop, Error)]
pub enum RunFault {
    /// The file can't be imported: why, and at which byte.
    #[error("{0} at byte {1}")]
    Refused(Fault, usize),
    /// The file ends within one of its tokens, or within its declarations.
    #[error("no rules")]
    NoRules,
    /// The import does not read, at this byte of it.
    #[error("import does not read, at byte {0} of it")]
    NotRead(usize),
    /// The rules of the import are not those of the file.
    #[error("import has other rules")]
    OtherRules,
    /// The import names another start rule than the file.
    #[error("import has another start rule")]
    OtherStart,
    /// The precedence levels of the import are not those of the file.
    #[error("import has other precedence levels")]
    OtherLevels,
    /// More than 4,096 strings stand for tokens, or tokens have a precedence.
    #[error("too many names")]
    TooManyNames,
    /// The file is no text.
    #[error("file: not UTF-8")]
    NotUtf8,
    /// The file can't be opened, or a read fails.
    #[error("file: read fault")]
    Read,
    /// The file has more than 67,108,864 bytes.
    #[error("file: too long")]
    TooLong,
    /// A write failed, or took nothing of a text that isn't empty.
    #[error("write fault")]
    Write,
    /// Memory was refused.
    #[error("out of memory")]
    Memory(AllocError),
}

/// Returns the fault of an input as the program's.
pub fn fault_of(fault: InputFault) -> RunFault
    ensures { result ≡ fault_of fault }
{
    match fault {
        InputFault::Read => RunFault::Read,
        InputFault::TooLong => RunFault::TooLong,
        InputFault::NotUtf8 => RunFault::NotUtf8,
        InputFault::Memory(e) => RunFault::Memory(e),
    }
}

/// Returns the fault of an import as the program's.
fn fault_of_import(error: ImportError) -> RunFault
    ensures { result ≡ fault_of_import error }
{
    match error {
        ImportError::Refused(fault, at) => RunFault::Refused(fault, at),
        ImportError::Memory(e) => RunFault::Memory(e),
    }
}

/// Returns the fault of a checked import as the program's.
pub fn fault_of_check(error: CheckedError) -> RunFault
    ensures { result ≡ fault_of_check error }
{
    match error {
        CheckedError::Import(e) => fault_of_import(e),
        CheckedError::NoRules => RunFault::NoRules,
        CheckedError::NotRead(at) => RunFault::NotRead(at),
        CheckedError::OtherRules => RunFault::OtherRules,
        CheckedError::OtherStart => RunFault::OtherStart,
        CheckedError::OtherLevels => RunFault::OtherLevels,
        CheckedError::TooManyNames => RunFault::TooManyNames,
        CheckedError::Memory(e) => RunFault::Memory(e),
    }
}

/// Returns the program's exit status.
pub fn status(done: &Result<Imported, RunFault>) -> u8
    ensures { result ≡ status_of done.now }
{
    match done {
        Ok(_) => 0,
        Err(RunFault::Refused(_, _) | RunFault::NoRules | RunFault::NotRead(_)) => 2,
        Err(RunFault::OtherRules | RunFault::OtherStart | RunFault::OtherLevels) => 2,
        Err(RunFault::TooManyNames) => 2,
        Err(RunFault::Memory(_)) => 6,
        Err(_) => 5,
    }
}
