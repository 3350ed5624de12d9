//! What is wrong with a lexer's text, in words.

use cfg_base::span::Span;
use cfg_sections::header::HeaderError;
use lrlex::{LexFileError, LexTextError};
use std::alloc::{AllocError, Global};
use text_messages::{Severity, Source};

/// Adds the errors of a section.
fn push_section(
    alloc: Global,
    text: &mut String,
    source: &Source<'_>,
    errors: &[HeaderError<Span>],
) -> Result<(), AllocError> {
    'errors: for error in errors {
        let message = error.to_string(alloc)?;
        let first = error.locations.as_slice().first().copied();
        source.push_message_if(alloc, text, Severity::Error, first, message.as_str())?;
    }
    Ok(())
}

/// Returns what an error of an expression says. The offsets in front of it count from before the expression.
fn words_of(shown: &str) -> &str {
    match shown.split_once(": ") {
        Some((_, words)) => words,
        None => shown,
    }
}

/// Adds what is wrong with a lexer's text.
fn push_error(
    alloc: Global,
    text: &mut String,
    source: &Source<'_>,
    error: &LexTextError,
) -> Result<(), AllocError> {
    match error {
        LexTextError::File(LexFileError::Memory(e)) => Err(*e),
        LexTextError::File(LexFileError::Section(errors)) => {
            push_section(alloc, text, source, errors.as_slice())
        }
        LexTextError::File(LexFileError::Line(fault)) => {
            let message = fault.kind.to_string(alloc)?;
            let span = Span::new(fault.offset, fault.offset);
            source.push_message(alloc, text, Severity::Error, span, message.as_str())
        }
        LexTextError::Expression(span, error) => {
            let shown = error.to_string(alloc)?;
            source.push_message(
                alloc,
                text,
                Severity::Error,
                *span,
                words_of(shown.as_str()),
            )
        }
    }
}

/// Returns what is wrong with a lexer's text: a message at the place of the error, or one for each error of its section.
///
/// # Errors
///
/// Where memory is refused.
pub fn lexer_fault(
    alloc: Global,
    text: &str,
    path: &str,
    error: &LexTextError,
) -> Result<String, AllocError> {
    let source = Source::new(alloc, text, path)?;
    let mut shown = String::new(alloc);
    let pushed = push_error(alloc, &mut shown, &source, error);
    drop(source);
    pushed?;
    Ok(shown)
}
