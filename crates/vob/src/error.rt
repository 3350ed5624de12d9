//! Why a list can't grow.

ghost use Rattle.std.specs.Prelude.{◌≡◌, alloc_error};
ghost use Rattle.vob.specs.declared.error.VobError.TheVariants.{Memory};

use std::alloc::{AllocError, AllocFailed};
use std::error::Error;
use std::fmt;
use std::fmt::{Display, Formatter, Write};

/// Why a list can't grow. The list is as it was before; `extend` leaves the items that came before.
#[derive(Debug, Drop)]
pub enum VobError {
    /// The length asked for is past `usize::MAX`.
    TooLong,
    /// There is no memory.
    Memory(AllocError),
}

/// Prints the variant's name.
impl Display for VobError {
    ghost use Rattle.std.specs.Prelude.{Some};
    ghost use Rattle.vob.specs.ErrorText.{error_text};

    ghost output = { λ e. Some (error_text e) };

    fn fmt<W: Write>(&self, f: &mut Formatter<W>) -> fmt::Result {
        match self {
            VobError::TooLong => write!(f, "TooLong"),
            VobError::Memory(_) => write!(f, "Memory"),
        }
    }
}

impl Error for VobError {}

// Written by hand, since a clause has to know which variant a `?` makes.
impl From<AllocError> for VobError {
    ghost from_gives = { λ _ r. r ≡ Memory alloc_error };

    fn from(refused: AllocError) -> VobError {
        VobError::Memory(refused)
    }
}

impl<T: Drop> From<AllocFailed<T>> for VobError {
    ghost from_gives = { λ _ r. r ≡ Memory alloc_error };

    fn from(refused: AllocFailed<T>) -> VobError {
        VobError::Memory(refused.into())
    }
}
