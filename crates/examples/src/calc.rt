//! Computes lines of digits and minus signs: each line is read by a lexer of this example, which is a function that makes
//! a list, parsed, and valued by actions during the parse.
//!
//! The clause of `eval`, that words with a tree have the value of that tree, is proved by the clause `parsed` of
//! `RTParserBuilder::parse_actions`, by its part `flawless`. A run that passes a reduction its values in reverse, or
//! one that returns the value of another tree, would break it.
mod actions;
mod eval;
mod lexer;

use crate::parser_data;
use lrpar::{ParseRefusal, ParserData};
use std::alloc::{AllocError, Global};

const DIFFERENCES: &str = "%start D %% D: D '-' 'digit' | 'digit';";

const LINES: [&str; 5] = ["9 - 3 - 2", "7", "1 - 5", "4 -", "4 * 2"];

/// Returns the line and its value.
fn line_text(alloc: Global, data: &ParserData<u32>, line: &str) -> Result<String, AllocError> {
    let words = lexer::read(alloc, line)?;
    let value = eval::eval(alloc, data, line, &words);
    drop(words);
    match value {
        Ok(Some(value)) => format!(in alloc; "{line} = {value}\n"),
        Ok(None) => format!(in alloc; "{line} has no value\n"),
        Err(ParseRefusal::Memory(e)) => Err(e),
        Err(refusal) => format!(in alloc; "{line}: {refusal}\n"),
    }
}

/// Returns the lines and their values.
fn all_lines(alloc: Global, data: &ParserData<u32>) -> Result<String, AllocError> {
    let mut out = String::new(alloc);
    for line in LINES {
        out.push_str(line_text(alloc, data, line)?.as_str())?;
    }
    Ok(out)
}

/// Returns each line with its value.
pub fn output(alloc: Global) -> Result<String, AllocError> {
    match parser_data::data(alloc, DIFFERENCES)? {
        Some(data) => {
            let text = all_lines(alloc, &data);
            drop(data);
            text
        }
        None => Ok(String::new(alloc)),
    }
}
