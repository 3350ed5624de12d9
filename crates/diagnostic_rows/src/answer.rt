//! What `lrpar_diagnostics` answers to a text.

use crate::conflicts::push_conflicts;
use crate::errors::{push_made_up, push_of_text};
use crate::repairs::{push_lexing, push_parsing};
use crate::spans::{
    push_located, push_ordinals, push_prefixed, push_underlined, push_unknown, push_unlocated,
};
use cfg_base::span::SpansKind;
use lrpar_diagnostics::SpannedDiagnosticFormatter;
use row_files::{Part, kind_of, parts};
use std::alloc::{AllocError, Global};

/// What a heading asks of a grammar's text, by its second word.
fn push_of_grammar(
    alloc: Global,
    out: &mut String,
    formatter: &SpannedDiagnosticFormatter,
    heading: &str,
    text: &str,
) -> Result<(), AllocError> {
    let kind = kind_of(heading);
    match (heading.split_whitespace().nth(1), kind) {
        (Some("errors"), kind) => push_of_text(alloc, out, formatter, kind, text),
        (Some("conflicts"), Some(kind)) => push_conflicts(alloc, out, formatter, kind, text),
        _ => push_unknown(out),
    }
}

/// What a heading asks, by its first word.
fn push_asked(
    alloc: Global,
    out: &mut String,
    formatter: &SpannedDiagnosticFormatter,
    heading: &str,
    text: &str,
) -> Result<(), AllocError> {
    let (word, words) = heading.split_once(' ').unwrap_or((heading, ""));
    match word {
        "ordinals" => push_ordinals(alloc, out, text),
        "underlined" => push_underlined(alloc, out, formatter, words),
        "prefixed" => push_prefixed(alloc, out, formatter, words),
        "located" => push_located(alloc, out, formatter, words),
        "unlocated" => push_unlocated(alloc, out, formatter, words),
        "repeated" => push_made_up(alloc, out, formatter, SpansKind::DuplicationError, words),
        "faulty" => push_made_up(alloc, out, formatter, SpansKind::Error, words),
        "parsing" => push_parsing(alloc, out, text, words),
        "lexing" => push_lexing(alloc, out, text, words),
        _ => push_of_grammar(alloc, out, formatter, heading, text),
    }
}

fn push_answer(
    alloc: Global,
    out: &mut String,
    heading: &str,
    text: &str,
) -> Result<(), AllocError> {
    let formatter = SpannedDiagnosticFormatter::new(alloc, text, "g.y")?;
    let pushed = push_asked(alloc, out, &formatter, heading, text);
    drop(formatter);
    pushed
}

fn push_part(alloc: Global, out: &mut String, part: &Part) -> Result<(), AllocError> {
    match part {
        Part::Line(line) => {
            out.push_str(line)?;
            out.push('\n')
        }
        Part::Text(heading, text, _start) => push_answer(alloc, out, heading, text.as_str()),
    }
}

fn push_parts(alloc: Global, out: &mut String, parts: &[Part]) -> Result<(), AllocError> {
    for part in parts {
        push_part(alloc, out, part)?;
    }
    Ok(())
}

/// The file with the right answers.
pub fn answer_file(alloc: Global, file: &str) -> Result<String, AllocError> {
    let mut out = String::new(alloc);
    let parts = parts(alloc, file)?;
    let pushed = push_parts(alloc, &mut out, parts.as_slice());
    drop(parts);
    pushed?;
    Ok(out)
}
