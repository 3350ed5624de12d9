//! The texts of errors.

use crate::same::same;
use cfgrammar::yacc::{TooMany, YaccGrammarMakeError};
use std::alloc::{AllocError, Global};
use std::test::*;

/// Returns what an error prints, and drops it.
fn text_of(alloc: Global, error: YaccGrammarMakeError) -> Result<String, AllocError> {
    let text = format!(in alloc; "{error}");
    drop(error);
    text
}

/// An error without a text of its own prints its variant's name.
#[test]
fn refusals_without_a_text(rt: HostRuntime) -> Result<(), Fail> {
    let alloc = rt.alloc();
    let told = text_of(alloc, YaccGrammarMakeError::Memory(AllocError))?;
    same(&rt, "memory", told.as_str(), "Memory");
    let told = text_of(alloc, YaccGrammarMakeError::Invalid(Vec::new(alloc)))?;
    same(&rt, "invalid", told.as_str(), "Invalid");
    let many = TooMany::TooManyRules(300);
    let told = text_of(alloc, YaccGrammarMakeError::TooMany(many))?;
    same(&rt, "too many", told.as_str(), "TooManyRules");
    Ok(())
}
