//! Why there are no findings.

ghost use Rattle.std.specs.Prelude.{◌≡◌};

use std::alloc::AllocError;
use thiserror::Error;

/// Why nothing is found of a text.
#[derive(Clone, Copy, Debug, PartialEq, Eq, Error)]
pub enum FindingsError {
    /// The grammar has this many states, more than are wanted.
    #[error("{0} states are too many")]
    TooManyStates(usize),
    /// The request for memory that was refused.
    #[error("out of memory")]
    Memory(AllocError),
}

impl From<AllocError> for FindingsError {
    ghost use Rattle.report_values.specs.declared.findings_error.FindingsError.TheVariants.{Memory};

    ghost from_gives = { λ x e. e ≡ Memory x };

    fn from(e: AllocError) -> FindingsError {
        FindingsError::Memory(e)
    }
}
