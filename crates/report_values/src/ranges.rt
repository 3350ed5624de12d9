//! Messages with their ranges, by their severity.

ghost use Rattle.std.specs.Prelude.{◌≡◌, ◌≤◌, ◌+◌, IfOk, OnOk, length, min};
ghost use Rattle.report_values.specs.Listed.{LeavesFew, left_len, listed_len};

use report_forms::{Object, Said, said_of};
use std::alloc::{AllocError, Global};
use text_messages::{Message, Severity, Source};

/// How many errors and warnings are left out of lists, since these are full.
#[derive(Clone, Copy, Debug, PartialEq, Eq)]
pub struct LeftOut {
    /// How many errors, with the notes on them.
    pub errors: usize,
    /// How many warnings.
    pub warnings: usize,
}

/// Adds messages to the errors and warnings, until a list has `most`: notes are behind the errors that they are about. Returns how many
/// are left out.
pub(crate) fn push_messages(
    object: &mut Object,
    source: &Source<'_>,
    messages: Vec<Message>,
    most: usize,
) -> Result<LeftOut, AllocError>
    ensures status { OnOk result (object.new.status ≡ object.old.status) }
    ensures counts { OnOk result (object.new.counts ≡ object.old.counts) }
    ensures all { IfOk result (λ left. min (listed_len object.old + length messages.items) usize.MAX ≤ listed_len object.new + left_len left) }
    ensures once { IfOk result (λ left. listed_len object.new + left_len left ≤ listed_len object.old + length messages.items) }
    ensures few { IfOk result (LeavesFew most object.new) }
{
    let mut left = LeftOut {
        errors: 0,
        warnings: 0,
    };
    'messages: for message in messages {
        if message.severity == Severity::Warning {
            if object.warnings.len() < most {
                object.warnings.push(said_of(source, message))?;
            } else {
                left.warnings = left.warnings.saturating_add(1);
            }
        } else if object.errors.len() < most {
            object.errors.push(said_of(source, message))?;
        } else {
            left.errors = left.errors.saturating_add(1);
        }
    }
    Ok(left)
}

/// Returns the first messages about a source's text as values, at most `most`.
pub(crate) fn first_messages(
    alloc: Global,
    source: &Source<'_>,
    messages: Vec<Message>,
    most: usize,
) -> Result<Vec<Said>, AllocError>
    ensures { IfOk result (λ v. length v.items ≡ min most (length messages.items)) }
{
    let mut list = Vec::new(alloc);
    'messages: for message in messages {
        if list.len() < most {
            list.push(said_of(source, message))?;
        }
    }
    Ok(list)
}
