//! Errors of grammar texts, a line for each.

use crate::words::push_spans;
use cfg_base::span::{Spanned, SpansKind};
use cfg_read::yacc::YaccGrammarError;
use std::alloc::{AllocError, Global};

/// Returns an error as its kind, its spans and its text.
fn push_error(alloc: Global, out: &mut String, error: &YaccGrammarError) -> Result<(), AllocError> {
    let kind = &error.kind;
    out.push_str(format!(in alloc; "error {kind:?}")?.as_str())?;
    push_spans(alloc, out, error.spans())?;
    if error.spanskind() == SpansKind::DuplicationError {
        out.push_str(" duplicates")?;
    }
    out.push_str(format!(in alloc; ": {error}\n")?.as_str())
}

pub fn push_errors(
    alloc: Global,
    out: &mut String,
    errors: &[YaccGrammarError],
) -> Result<(), AllocError> {
    for error in errors {
        push_error(alloc, out, error)?;
    }
    Ok(())
}
