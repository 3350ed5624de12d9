//! The repairs of an error, a line for each sequence, in the form of `lrpar`'s errors.

use crate::names::Grammar;
use crate::parsing::WordError;
use cfg_base::span::Span;
use lrlex::DefaultLexeme;
use lrpar::ParseRepair;
use std::alloc::{AllocError, Global};
use text_messages::part;

/// A sequence of repairs.
type Sequence = Vec<ParseRepair<DefaultLexeme<u32>, u32>>;

/// Adds a part of a text, with each line feed as `\n`.
fn push_part(text: &mut String, input: &str, span: Span) -> Result<(), AllocError> {
    let mut first = true;
    'lines: for line in part(input, span.start(), span.end()).split('\n') {
        if !first {
            text.push_str("\\n")?;
        }
        text.push_str(line)?;
        first = false;
    }
    Ok(())
}

/// Adds a step.
fn push_step(
    text: &mut String,
    grm: &Grammar,
    input: &str,
    step: &ParseRepair<DefaultLexeme<u32>, u32>,
) -> Result<(), AllocError> {
    match step {
        ParseRepair::Insert(token) => {
            text.push_str("Insert ")?;
            if !grm.has_token(*token) {
                return Ok(());
            }
            text.push_str(grm.token_epp(*token).unwrap_or(""))
        }
        ParseRepair::Delete(lexeme) => {
            text.push_str("Delete ")?;
            push_part(text, input, lexeme.span)
        }
        ParseRepair::Shift(lexeme) => {
            text.push_str("Shift ")?;
            push_part(text, input, lexeme.span)
        }
    }
}

/// Adds the line of a sequence.
fn push_sequence(
    alloc: Global,
    text: &mut String,
    grm: &Grammar,
    input: &str,
    number: usize,
    sequence: &Sequence,
) -> Result<(), AllocError> {
    let front = format!(in alloc; "   {number}:")?;
    text.push_str(front.as_str())?;
    let mut between = " ";
    'steps: for step in sequence {
        text.push_str(between)?;
        push_step(text, grm, input, step)?;
        between = ", ";
    }
    text.push('\n')
}

/// Adds the repairs of an error.
pub(crate) fn push_repairs(
    alloc: Global,
    text: &mut String,
    grm: &Grammar,
    input: &str,
    error: &WordError,
) -> Result<(), AllocError> {
    if error.repairs.is_empty() {
        return text.push_str("No repair sequences found.\n");
    }
    text.push_str("Repair sequences found:\n")?;
    let mut number: usize = 0;
    'sequences: for sequence in &error.repairs {
        number = number.saturating_add(1);
        push_sequence(alloc, text, grm, input, number, sequence)?;
    }
    Ok(())
}
