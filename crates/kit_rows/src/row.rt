//! A row: a grammar, lines and repairs, under a heading.

use crate::streams::{Giver, kind_in, number_in};
use lrkit::Counted;
use row_files::push_line;
use std::alloc::{AllocError, Global};

/// The inputs of a row so far. Each has its lines, with an LF between two of them.
#[derive(Drop)]
pub struct Row<'a> {
    /// The words that tell how its streams behave.
    pub heading: &'a str,
    pub grammar: Option<Vec<u8>>,
    pub lines: Option<Vec<u8>>,
    pub repairs: Option<Vec<u8>>,
}

/// The bytes before, if there are any, and one more line.
fn with_line(
    alloc: Global,
    before: Option<Vec<u8>>,
    line: &str,
) -> Result<Option<Vec<u8>>, AllocError> {
    let mut bytes = match before {
        Some(mut bytes) => {
            bytes.push(b'\n')?;
            bytes
        }
        None => Vec::new(alloc),
    };
    push_line(&mut bytes, line)?;
    Ok(Some(bytes))
}

impl<'a> Row<'a> {
    /// A row without inputs.
    pub fn under(heading: &'a str) -> Row<'a> {
        Row {
            heading,
            grammar: None,
            lines: None,
            repairs: None,
        }
    }

    /// Takes a line of the grammar (`|`), of the lines (`<`) or of the repairs (`?`). It answers whether it is one.
    pub fn take_line(&mut self, alloc: Global, line: &str) -> Result<bool, AllocError> {
        if let Some(piece) = line.strip_prefix('|') {
            self.grammar = with_line(alloc, self.grammar.take(), piece)?;
            return Ok(true);
        }
        if let Some(piece) = line.strip_prefix('<') {
            self.lines = with_line(alloc, self.lines.take(), piece)?;
            return Ok(true);
        }
        if let Some(piece) = line.strip_prefix('?') {
            self.repairs = with_line(alloc, self.repairs.take(), piece)?;
            return Ok(true);
        }
        Ok(false)
    }
}

/// What gives an input, none of it where it isn't told. `fails` and `blanks` are the words of the heading that speak of it.
pub fn source_of<'a>(
    heading: &str,
    input: &'a Option<Vec<u8>>,
    fails: &str,
    blanks: &str,
) -> Counted<Giver<'a>> {
    let rest: &'a [u8] = match input {
        Some(bytes) => bytes.as_slice(),
        None => b"",
    };
    Counted::new(Giver {
        rest,
        at_once: number_in(heading, "in:").unwrap_or(usize::MAX),
        fault_in: number_in(heading, fails).unwrap_or(0),
        kind: kind_in(heading),
        blanks: number_in(heading, blanks).unwrap_or(0),
    })
}
