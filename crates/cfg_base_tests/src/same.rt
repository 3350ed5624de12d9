//! What tests compare by, and texts of what is printed.

use std::alloc::{AllocError, Global};
use std::fmt::{Debug, Display};
use std::process::Abort;

/// Ends the test unless two values are the same, with a word that says where.
pub fn same<V: PartialEq + Debug + Copy>(rt: &impl Abort, word: &str, found: V, wanted: V) {
    assert!(rt;
        found == wanted,
        "{word}: found {found:?}, wanted {wanted:?}"
    );
}

/// Returns what a value prints, and drops it.
pub fn text_of<V: Display + Drop>(alloc: Global, value: V) -> Result<String, AllocError> {
    let text = format!(in alloc; "{value}");
    drop(value);
    text
}

/// Returns the form of a value for debugging, and drops it.
pub fn debug_text_of<V: Debug + Drop>(alloc: Global, value: V) -> Result<String, AllocError> {
    let text = format!(in alloc; "{value:?}");
    drop(value);
    text
}
