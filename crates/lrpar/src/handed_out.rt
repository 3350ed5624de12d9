//! What a parse returns: a value or none, and errors of lexing or of parsing.

ghost use Rattle.std.specs.Prelude.{◌≡◌, map, IfOk};
ghost use Rattle.lrpar.specs.Told.{HandsOut};
ghost use Rattle.lrpar.specs.declared.parse_error.LexParseError.TheVariants as errors;

use crate::folded_parse::FoldedOutcome;
use crate::parse_error::{LexParseError, ParseError};
use parse_trees::lex_api::LexerTypes;
use std::alloc::{AllocError, Global};

/// Returns the errors of a parse, as errors of lexing or of parsing.
fn parse_errors<T: LexerTypes>(
    alloc: Global,
    found: Vec<ParseError<T::LexemeT, T::StorageT>>,
) -> Result<Vec<LexParseError<T>>, AllocError>
    ensures { IfOk result (λ r. r.items ≡ map errors.ParseError found.items) }
{
    let mut told = Vec::new(alloc);
    'errors: for error in found {
        told.push(LexParseError::ParseError(error))?;
    }
    Ok(told)
}

/// Returns the value and the errors of an outcome.
pub(crate) fn hand_out<T: LexerTypes, V: Drop>(
    alloc: Global,
    outcome: FoldedOutcome<T::StorageT, T::LexemeT, T::LexErrorT, V>,
) -> Result<(Option<V>, Vec<LexParseError<T>>), AllocError>
    ensures { IfOk result (λ r. HandsOut errors.LexError errors.ParseError outcome r.0 r.1.items) }
{
    match outcome {
        FoldedOutcome::Fault(fault) => {
            let mut told = Vec::new(alloc);
            told.push(LexParseError::LexError(fault))?;
            Ok((None, told))
        }
        FoldedOutcome::Parsed(value, found) => {
            let told = parse_errors::<T>(alloc, found)?;
            Ok((value, told))
        }
    }
}
