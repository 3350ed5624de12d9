//! Runs of hostile inputs.

use crate::kits::lie_in_bytes;
use crate::rows::Row;
use lrkit::{Counted, KitError, RunFault, run};
use std::alloc::{AllocError, Global};

/// Whether a run of a row comes through, or is refused with nothing out and no fault of reading or writing; errors of the
/// grammar lie in its text.
pub fn is_answered(alloc: Global, row: &Row) -> Result<bool, AllocError> {
    let mut grammar = Counted::new(row.grammar.as_slice());
    let mut lines = Counted::new(row.lines.as_slice());
    let mut repairs = Counted::new(row.repairs.as_slice());
    let mut out: Counted<Vec<u8>> = Counted::new(Vec::new(alloc));
    let outcome = run(alloc, &mut grammar, &mut lines, &mut repairs, &mut out);
    match outcome {
        Ok(_) => Ok(true),
        Err(RunFault::Kit(KitError::Memory(e))) => Err(e),
        Err(RunFault::Read(_) | RunFault::Write) => Ok(false),
        Err(RunFault::Kit(KitError::Grammar(errors))) => Ok(
            out.into_inner().is_empty() && lie_in_bytes(row.grammar.as_slice(), errors.as_slice()),
        ),
        Err(_) => Ok(out.into_inner().is_empty()),
    }
}
