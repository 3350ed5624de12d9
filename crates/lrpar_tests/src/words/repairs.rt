//! Texts of repairs.

use crate::make::grammar;
use crate::same::same;
use crate::words::SUMS;
use std::alloc::Global;
use std::test::*;
use word_lines::{RepairsError, read_repairs};

/// Returns why a text has no repairs; nothing where it has some.
fn fault_of(alloc: Global, text: &str) -> Result<String, Fail> {
    let grm = grammar(alloc, SUMS)?;
    let read = read_repairs(alloc, &grm, text);
    drop(grm);
    match read {
        Ok(lines) => {
            drop(lines);
            Ok(String::new(alloc))
        }
        Err(RepairsError::Memory(e)) => Err(e.into()),
        Err(error) => Ok(format!(in alloc; "{error}")?),
    }
}

/// Texts, and why they have no repairs.
const TEXTS: &[(&str, &str)] = &[
    ("", ""),
    ("delete\ninsert ID", ""),
    ("insert + shift delete\r\n\r\n  insert  ä  \n", ""),
    ("insert NOPE", "repairs line 1: not a repair"),
    ("delete\n\ninsert\ninserts", "repairs line 3: not a repair"),
    ("insert insert", "repairs line 1: not a repair"),
    (
        "shift\ndelete\r\ndelete\tshift\nx",
        "repairs line 3: not a repair",
    ),
    ("delete\r", "repairs line 1: not a repair"),
];

#[test]
fn first_bad_line_is_told(rt: HostRuntime) -> Result<(), Fail> {
    for row in TEXTS {
        let found = fault_of(rt.alloc(), row.0)?;
        same(&rt, row.0, found.as_str(), row.1);
    }
    Ok(())
}
