//! Faults that no text of a row comes to: counts past the numbers of the program's index type, and want of memory.

use crate::streams::number_in;
use cfgrammar::yacc::TooMany;
use lrkit::KitError;
use std::alloc::Global;

/// The fault of a count of the grammar, where a heading has one.
fn count_in(heading: &str) -> Option<TooMany> {
    if let Some(count) = number_in(heading, "rules:") {
        return Some(TooMany::TooManyRules(count));
    }
    if let Some(count) = number_in(heading, "productions:") {
        return Some(TooMany::TooManyProds(count));
    }
    if let Some(count) = number_in(heading, "tokens:") {
        return Some(TooMany::TooManyTokens(count));
    }
    if let Some(count) = number_in(heading, "symbols:") {
        return Some(TooMany::TooManySymbols(count));
    }
    None
}

/// The fault of a list that no memory holds.
fn no_memory(alloc: Global) -> Option<KitError<u32>> {
    match Vec::<u64>::with_capacity(alloc, usize::MAX) {
        Ok(list) => {
            drop(list);
            None
        }
        Err(e) => Some(KitError::Memory(e)),
    }
}

/// The fault that a heading names, if it names one.
pub fn fault_of(alloc: Global, heading: &str) -> Option<KitError<u32>> {
    if let Some(count) = count_in(heading) {
        return Some(KitError::TooMany(count));
    }
    if let Some(count) = number_in(heading, "states:") {
        return Some(KitError::TooManyStates(count));
    }
    match heading {
        "fault cells" => Some(KitError::TooLarge),
        "fault memory" => no_memory(alloc),
        _ => None,
    }
}
