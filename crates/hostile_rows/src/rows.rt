//! Rows of a file: grammars, each with lines and repairs.

use crate::{kits, runs};
use row_files::push_line;
use std::alloc::{AllocError, Global};

/// The inputs of a row.
#[derive(Drop)]
pub struct Row {
    pub grammar: Vec<u8>,
    pub lines: Vec<u8>,
    pub repairs: Vec<u8>,
}

/// How many rows were read, and which of them are answered as they may not be.
#[derive(Drop)]
struct Seen {
    rows: usize,
    wrong: String,
}

impl Row {
    fn empty(alloc: Global) -> Row {
        Row {
            grammar: Vec::new(alloc),
            lines: Vec::new(alloc),
            repairs: Vec::new(alloc),
        }
    }

    /// Takes a line of the lines or of the repairs.
    fn take_line(&mut self, line: &str) -> Result<(), AllocError> {
        if let Some(rest) = line.strip_prefix('<') {
            push_line(&mut self.lines, rest)?;
        }
        if let Some(rest) = line.strip_prefix('?') {
            push_line(&mut self.repairs, rest)?;
        }
        Ok(())
    }
}

impl Seen {
    /// Counts a row, and notes it where it is answered wrongly.
    fn take_row(&mut self, alloc: Global, row: &Row) -> Result<(), AllocError> {
        if !kits::are_answered(alloc, row.grammar.as_slice())? || !runs::is_answered(alloc, row)? {
            let number = self.rows;
            self.wrong
                .push_str(format!(in alloc; " {number}")?.as_str())?;
        }
        self.rows = self.rows.saturating_add(1);
        Ok(())
    }
}

/// What is told of a file: how many rows it has, and the numbers, from nought, of those that are answered wrongly.
pub fn summary_of(alloc: Global, file: &str) -> Result<String, AllocError> {
    let mut seen = Seen {
        rows: 0,
        wrong: String::new(alloc),
    };
    let mut row = None;
    for line in file.lines() {
        if let Some(rest) = line.strip_prefix('|') {
            if let Some(whole) = row.take() {
                seen.take_row(alloc, &whole)?;
            }
            let mut next = Row::empty(alloc);
            push_line(&mut next.grammar, rest)?;
            row = Some(next);
        } else if let Some(begun) = &mut row {
            begun.take_line(line)?;
        }
    }
    if let Some(whole) = row {
        seen.take_row(alloc, &whole)?;
    }
    format!(in alloc; "{} rows, answered wrongly:{}\n", seen.rows, seen.wrong)
}
