//! What calls that parse answer, as texts.

use crate::spell::repair_text;
use lrpar::{
    DefaultLexeme, DefaultLexerTypes, FoldedOutcome, LRLexError, LexParseError, ParseError,
    ParseRefusal,
};
use std::alloc::{AllocError, Global};

/// An error of a parse.
pub type Wrong = ParseError<DefaultLexeme<u8>, u8>;

/// An error of lexing or of a parse.
pub type AnyError = LexParseError<DefaultLexerTypes<u8>>;

/// Adds an error of a parse: its lexeme with its length, whether that was made up, and the listed sequences.
fn push_parse_error(alloc: Global, text: &mut String, error: &Wrong) -> Result<(), AllocError> {
    let lexeme = *error.lexeme();
    let token = lexeme.tok_id;
    let start = lexeme.span.start();
    let len = lexeme.span.len();
    let faulty = if lexeme.faulty { " faulty" } else { "" };
    text.push_str(format!(in alloc; "; error at {token}@{start}+{len}{faulty}")?.as_str())?;
    for sequence in error.repairs().as_slice() {
        text.push(',')?;
        for repair in sequence.as_slice() {
            text.push_str(repair_text(alloc, *repair)?.as_str())?;
        }
    }
    Ok(())
}

/// Adds errors of a parse.
pub fn push_parse_errors(
    alloc: Global,
    text: &mut String,
    errors: &[Wrong],
) -> Result<(), AllocError> {
    for error in errors {
        push_parse_error(alloc, text, error)?;
    }
    Ok(())
}

/// Adds an error of lexing or of parsing.
fn push_error(alloc: Global, text: &mut String, error: &AnyError) -> Result<(), AllocError> {
    match error {
        LexParseError::LexError(fault) => {
            let start = fault.span.start();
            text.push_str(format!(in alloc; "; fault at {start}")?.as_str())
        }
        LexParseError::ParseError(error) => push_parse_error(alloc, text, error),
    }
}

/// Adds errors of lexing or of parsing.
pub fn push_errors(
    alloc: Global,
    text: &mut String,
    errors: &[AnyError],
) -> Result<(), AllocError> {
    for error in errors {
        push_error(alloc, text, error)?;
    }
    Ok(())
}

/// Returns a refusal.
pub fn refusal_text(alloc: Global, refusal: &ParseRefusal) -> Result<String, AllocError> {
    match refusal {
        ParseRefusal::Memory(e) => Err(*e),
        ParseRefusal::LexemeOutside(index) => format!(in alloc; "{refusal}: outside {index}"),
        ParseRefusal::StartDecreases(index) => format!(in alloc; "{refusal}: decreases {index}"),
    }
}

/// Returns the value, or that there is none, and the errors.
pub fn folded_text(
    alloc: Global,
    outcome: &Result<FoldedOutcome<u8, DefaultLexeme<u8>, LRLexError, String>, ParseRefusal>,
) -> Result<String, AllocError> {
    match outcome {
        Err(e) => refusal_text(alloc, e),
        Ok(FoldedOutcome::Fault(fault)) => {
            let start = fault.span.start();
            format!(in alloc; "none; fault at {start}")
        }
        Ok(FoldedOutcome::Parsed(value, errors)) => {
            let value = match value {
                Some(value) => value.as_str(),
                None => "none",
            };
            let mut text = String::from_str(alloc, value)?;
            push_parse_errors(alloc, &mut text, errors.as_slice())?;
            Ok(text)
        }
    }
}

/// Returns the value, or that there is none, and the errors.
pub fn outcome_text(
    alloc: Global,
    outcome: &Result<(Option<String>, Vec<AnyError>), ParseRefusal>,
) -> Result<String, AllocError> {
    match outcome {
        Err(e) => refusal_text(alloc, e),
        Ok((value, errors)) => {
            let value = match value {
                Some(value) => value.as_str(),
                None => "none",
            };
            let mut text = String::from_str(alloc, value)?;
            push_errors(alloc, &mut text, errors.as_slice())?;
            Ok(text)
        }
    }
}

/// Returns the errors.
pub fn errors_text(
    alloc: Global,
    outcome: &Result<Vec<AnyError>, ParseRefusal>,
) -> Result<String, AllocError> {
    match outcome {
        Err(e) => refusal_text(alloc, e),
        Ok(errors) => {
            let mut text = String::new(alloc);
            push_errors(alloc, &mut text, errors.as_slice())?;
            Ok(text)
        }
    }
}
