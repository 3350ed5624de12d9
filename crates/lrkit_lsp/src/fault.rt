//! Why the program ends before the client ends it, and its status.

ghost use Rattle.std.specs.Prelude.{◌≡◌};
ghost use Rattle.lrkit_lsp.specs.Statuses.{status_of};

use language_server::ServeFault;
use std::alloc::AllocError;
use thiserror::Error;

/// Why the program ends before the client ends it.
#[derive(Debug, Drop, Error)]
pub enum ProgramFault {
    /// A read or a write failed.
    #[error("input or output failed")]
    Stream,
    /// Memory was refused.
    #[error("{0}")]
    Serve(ServeFault),
    /// A file can't be read: its path and the cause.
    #[error("{0}")]
    Unread(String),
    /// The grammar or the lexer gives no parser: the place in it, and what is wrong there.
    #[error("{0}")]
    NoParser(String),
}

impl From<ServeFault> for ProgramFault {
    fn from(e: ServeFault) -> ProgramFault {
        ProgramFault::Serve(e)
    }
}

impl From<AllocError> for ProgramFault {
    fn from(e: AllocError) -> ProgramFault {
        ProgramFault::Serve(ServeFault::Memory(e))
    }
}

/// Returns the program's exit status.
pub fn status(ended: &Result<u8, ProgramFault>) -> u8
    ensures { result ≡ status_of ended.now }
{
    match ended {
        Ok(status) => *status,
        Err(ProgramFault::Stream) => 5,
        Err(ProgramFault::Serve(_)) => 6,
        Err(ProgramFault::Unread(_)) => 5,
        Err(ProgramFault::NoParser(_)) => 2,
    }
}
