//! Texts with their escapes, and spans.

use cfg_base::span::Span;
use std::alloc::{AllocError, Global};

/// Returns the letter that means a character behind a backslash.
fn letter_of(c: char) -> Option<char> {
    match c {
        '\\' => Some('\\'),
        '"' => Some('"'),
        '\n' => Some('n'),
        '\r' => Some('r'),
        '\t' => Some('t'),
        '\u{b}' => Some('v'),
        '\u{c}' => Some('f'),
        '\0' => Some('0'),
        '\u{a0}' => Some('s'),
        '\u{feff}' => Some('b'),
        _ => None,
    }
}

/// Returns the character that a letter behind a backslash means.
fn escaped_by(letter: char) -> char {
    match letter {
        'n' => '\n',
        'r' => '\r',
        't' => '\t',
        'v' => '\u{b}',
        'f' => '\u{c}',
        '0' => '\0',
        's' => '\u{a0}',
        'b' => '\u{feff}',
        other => other,
    }
}

/// Adds a text in double quotes, with escapes.
pub fn push_quoted(out: &mut String, text: &str) -> Result<(), AllocError> {
    out.push('"')?;
    for c in text.chars() {
        match letter_of(c) {
            Some(letter) => {
                out.push('\\')?;
                out.push(letter)?;
            }
            None => out.push(c)?,
        }
    }
    out.push('"')
}

/// Adds the text that a text with escapes means.
pub fn push_unescaped(out: &mut String, text: &str) -> Result<(), AllocError> {
    let mut is_escaped = false;
    for c in text.chars() {
        if is_escaped {
            out.push(escaped_by(c))?;
            is_escaped = false;
        } else if c == '\\' {
            is_escaped = true;
        } else {
            out.push(c)?;
        }
    }
    Ok(())
}

/// Adds a span behind a blank.
pub fn push_span(alloc: Global, out: &mut String, span: &Span) -> Result<(), AllocError> {
    let start = span.start();
    let end = span.end();
    out.push_str(format!(in alloc; " {start}-{end}")?.as_str())
}

pub fn push_spans(alloc: Global, out: &mut String, spans: &[Span]) -> Result<(), AllocError> {
    for span in spans {
        push_span(alloc, out, span)?;
    }
    Ok(())
}
