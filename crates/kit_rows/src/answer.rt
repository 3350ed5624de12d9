//! What `run` answers to rows.

use crate::fault::fault_of;
use crate::row::{Row, source_of};
use crate::streams::{Taker, number_in};
use lrkit::{Counted, KitError, RunFault, run, status};
use std::alloc::{AllocError, Global};

/// There is room for so many bytes of output before it grows.
const ROOM: usize = 131_072;

/// Adds a line behind a mark.
fn push_line(out: &mut String, mark: &str, line: &str) -> Result<(), AllocError> {
    out.push_str(mark)?;
    out.push_str(line)?;
    out.push('\n')
}

/// Adds the lines of a text, each behind a mark.
fn push_lines(out: &mut String, mark: &str, text: &str) -> Result<(), AllocError> {
    for line in text.lines() {
        push_line(out, mark, line)?;
    }
    Ok(())
}

/// Adds what was written, and whether its last line has no LF.
fn push_written(out: &mut String, written: &str) -> Result<(), AllocError> {
    push_lines(out, ">", written)?;
    if written.is_empty() || written.ends_with('\n') {
        Ok(())
    } else {
        push_line(out, "~", "")
    }
}

/// Adds the text of a fault, if there is one, and the status.
fn push_told(
    alloc: Global,
    out: &mut String,
    outcome: &Result<bool, RunFault>,
) -> Result<(), AllocError> {
    if let Err(fault) = outcome {
        let text = fault.to_string(alloc)?;
        push_lines(out, "! ", text.as_str())?;
    }
    let code = status(outcome);
    out.push_str(format!(in alloc; "status {code}\n")?.as_str())
}

/// Adds the text of a fault, if there is one, and the status. Want of memory is handed on.
fn push_outcome(
    alloc: Global,
    out: &mut String,
    outcome: &Result<bool, RunFault>,
) -> Result<(), AllocError> {
    match outcome {
        Err(RunFault::Kit(KitError::Memory(e))) => Err(*e),
        _ => push_told(alloc, out, outcome),
    }
}

/// Adds the text and the status of the fault that a heading names, if it names one.
fn push_named(alloc: Global, out: &mut String, heading: &str) -> Result<(), AllocError> {
    match fault_of(alloc, heading) {
        Some(fault) => {
            let outcome: Result<bool, RunFault> = Err(RunFault::Kit(fault));
            let told = push_told(alloc, out, &outcome);
            drop(outcome);
            told
        }
        None => Ok(()),
    }
}

/// What takes the output, as a heading tells.
fn sink_of(alloc: Global, heading: &str) -> Result<Counted<Taker>, AllocError> {
    let fails = number_in(heading, "room:");
    let stuck = number_in(heading, "full:");
    Ok(Counted::new(Taker {
        taken: Vec::with_capacity(alloc, ROOM)?,
        at_once: number_in(heading, "out:").unwrap_or(usize::MAX),
        room: fails.or(stuck).unwrap_or(usize::MAX),
        fails: stuck.is_none(),
    }))
}

/// Adds what was written, the fault and the status.
fn push_answer(alloc: Global, out: &mut String, row: &Row<'_>) -> Result<(), AllocError> {
    let heading = row.heading;
    let mut grammar = source_of(heading, &row.grammar, "grammar-fails:", "grammar-blanks:");
    let mut lines = source_of(heading, &row.lines, "lines-fails:", "lines-blanks:");
    let mut repairs = source_of(heading, &row.repairs, "repairs-fails:", "repairs-blanks:");
    let mut sink = sink_of(alloc, heading)?;
    let outcome = run(alloc, &mut grammar, &mut lines, &mut repairs, &mut sink);
    if let Ok(written) = String::from_utf8(sink.into_inner().taken) {
        push_written(out, written.as_str())?;
    }
    push_outcome(alloc, out, &outcome)
}

/// Whether a line is kept as it stands: a heading, a comment, or an empty one.
fn is_kept(line: &str) -> bool {
    line.is_empty() || line.starts_with('#') || line.starts_with('=')
}

/// Ends a row, if one is open.
fn end_row(alloc: Global, out: &mut String, row: &mut Row<'_>) -> Result<(), AllocError> {
    if row.grammar.is_some() {
        push_answer(alloc, out, row)?;
        *row = Row::under(row.heading);
    }
    Ok(())
}

/// Takes a line of the file: it is kept, or part of an answer that is made anew.
fn take_line<'a>(
    alloc: Global,
    out: &mut String,
    row: &mut Row<'a>,
    line: &'a str,
) -> Result<(), AllocError> {
    if row.take_line(alloc, line)? {
        return push_line(out, "", line);
    }
    end_row(alloc, out, row)?;
    if is_kept(line) {
        push_line(out, "", line)?;
    }
    match line.strip_prefix("= ") {
        Some(heading) => {
            row.heading = heading;
            push_named(alloc, out, heading)
        }
        None => Ok(()),
    }
}

/// The file with the answers to its rows.
pub fn answer_file(alloc: Global, file: &str) -> Result<String, AllocError> {
    let mut out = String::new(alloc);
    let mut row = Row::under("");
    for line in file.lines() {
        take_line(alloc, &mut out, &mut row, line)?;
    }
    end_row(alloc, &mut out, &mut row)?;
    Ok(out)
}
