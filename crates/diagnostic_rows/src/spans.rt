//! Spans of a text as it is asked for them: underlined, and as places.

use crate::lines::push_lines;
use cfg_base::span::Span;
use lrpar_diagnostics::SpannedDiagnosticFormatter;
use std::alloc::{AllocError, Global};

/// The span of a word such as `7-19`.
pub fn span_of(word: &str) -> Option<Span> {
    let (start, end) = word.split_once('-')?;
    let start: usize = start.parse().ok()?;
    let end: usize = end.parse().ok()?;
    if start > end {
        return None;
    }
    Some(Span::new(start, end))
}

/// The character, the span and the message that words tell.
fn mark_of(words: &str) -> Option<(char, Span, &str)> {
    let (mark, words) = words.split_once(' ')?;
    let (span, message) = words.split_once(' ')?;
    Some((mark.chars().next()?, span_of(span)?, message))
}

fn push_text(out: &mut String, text: Result<String, AllocError>) -> Result<(), AllocError> {
    let text = text?;
    push_lines(out, text.as_str())
}

/// A question that has no answer.
pub fn push_unknown(out: &mut String) -> Result<(), AllocError> {
    out.push_str("no such question\n")
}

pub fn push_underlined(
    alloc: Global,
    out: &mut String,
    formatter: &SpannedDiagnosticFormatter,
    words: &str,
) -> Result<(), AllocError> {
    match mark_of(words) {
        Some((mark, span, message)) => push_text(
            out,
            formatter.underline_span_with_text(alloc, span, message, mark),
        ),
        None => push_unknown(out),
    }
}

pub fn push_prefixed(
    alloc: Global,
    out: &mut String,
    formatter: &SpannedDiagnosticFormatter,
    words: &str,
) -> Result<(), AllocError> {
    let (prefix, words) = words.split_once(' ').unwrap_or(("", ""));
    match mark_of(words) {
        Some((mark, span, message)) => push_text(
            out,
            formatter.prefixed_underline_span_with_text(alloc, prefix, span, message, mark),
        ),
        None => push_unknown(out),
    }
}

pub fn push_located(
    alloc: Global,
    out: &mut String,
    formatter: &SpannedDiagnosticFormatter,
    words: &str,
) -> Result<(), AllocError> {
    let (span, message) = words.split_once(' ').unwrap_or(("", ""));
    match span_of(span) {
        Some(span) => push_text(out, formatter.file_location_msg(alloc, message, Some(span))),
        None => push_unknown(out),
    }
}

pub fn push_unlocated(
    alloc: Global,
    out: &mut String,
    formatter: &SpannedDiagnosticFormatter,
    message: &str,
) -> Result<(), AllocError> {
    push_text(out, formatter.file_location_msg(alloc, message, None))
}

fn push_ordinal(alloc: Global, out: &mut String, word: &str) -> Result<(), AllocError> {
    let number: Option<usize> = word.parse().ok();
    match number {
        Some(number) => push_text(out, SpannedDiagnosticFormatter::ordinal(alloc, number)),
        None => push_unknown(out),
    }
}

pub fn push_ordinals(alloc: Global, out: &mut String, text: &str) -> Result<(), AllocError> {
    for word in text.split_whitespace() {
        push_ordinal(alloc, out, word)?;
    }
    Ok(())
}
