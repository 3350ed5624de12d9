//! Why the server can't go on.

use report_values::FindingsError;
use std::alloc::AllocError;
use thiserror::Error;

/// Why the server can't go on: memory was refused.
#[derive(Clone, Copy, Debug, Error)]
pub enum ServeFault {
    /// The request for memory that was refused.
    #[error("out of memory")]
    Memory(AllocError),
    /// Memory was refused to what reads or writes an object.
    #[error("out of memory")]
    Unwritten,
}

impl From<AllocError> for ServeFault {
    ghost use Rattle.std.specs.Prelude.{◌≡◌};
    ghost use Rattle.language_server.specs.declared.fault.ServeFault.TheVariants.{Memory};

    ghost from_gives = { λ x e. e ≡ Memory x };

    fn from(e: AllocError) -> ServeFault {
        ServeFault::Memory(e)
    }
}

/// Returns the fault of findings that aren't made. Without a wish for states none has too many of them.
pub(crate) fn fault_of(error: FindingsError) -> ServeFault {
    match error {
        FindingsError::Memory(e) => ServeFault::Memory(e),
        FindingsError::TooManyStates(_) => ServeFault::Unwritten,
    }
}
