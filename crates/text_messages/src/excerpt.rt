//! A line of a text with a part of it underlined.

ghost use Rattle.std.specs.Prelude.{◌≡◌, ◌≤◌, length, slice_range, IsCharBoundary};

use crate::source::Source;
use cfg_base::span::Span;
use std::alloc::{AllocError, Global};
use unicode_width::{UnicodeWidthChar, UnicodeWidthStr};

/// How many columns of a line are shown. A line with more is cut around the place.
const MOST_COLUMNS: usize = 160;

/// How many columns are shown before the place in a line that is cut.
const COLUMNS_BEFORE: usize = 60;

/// How many bytes a character takes at most.
const CHARACTER_BYTES: usize = 4;

/// How many columns the number of a line takes at least.
const NUMBER_COLUMNS: usize = 5;

/// Returns the part of a text between two offsets, each moved to the first byte of the character that it lies in.
pub fn part(text: &str, from: usize, to: usize) -> &str
    ensures { IsCharBoundary text.now from → IsCharBoundary text.now to → from ≤ to → result.now ≡ slice_range text.now from to }
{
    let first = text.floor_char_boundary(from);
    let last = text.floor_char_boundary(to);
    match text.get(first..last) {
        Some(part) => part,
        None => "",
    }
}

/// Adds a text so many times.
fn push_repeated(
    alloc: Global,
    text: &mut String,
    one: &str,
    count: usize,
) -> Result<(), AllocError> {
    let all = one.repeat(alloc, count)?;
    text.push_str(all.as_str())
}

/// Returns how many columns a character takes. A tab and other control characters count as one.
fn columns_of(c: char) -> usize {
    c.width().unwrap_or(1)
}

/// Returns where what is shown of a long line begins: at the first character with no more than so many columns between it
/// and the offset.
fn first_shown(line: &str, at: usize) -> usize {
    let ahead = part(line, 0, at).width();
    let mut passed: usize = 0;
    'characters: for (offset, c) in line.char_indices() {
        if ahead.saturating_sub(passed) <= COLUMNS_BEFORE {
            return offset;
        }
        passed = passed.saturating_add(columns_of(c));
    }
    line.len()
}

/// Returns where what is shown of a long line ends, if it begins at an offset.
fn last_shown(line: &str, first: usize) -> usize {
    let mut passed: usize = 0;
    'characters: for (offset, c) in line.char_indices() {
        if offset >= first {
            passed = passed.saturating_add(columns_of(c));
            if passed > MOST_COLUMNS {
                return offset;
            }
        }
    }
    line.len()
}

/// Returns the offsets between which a line is shown, with an offset that is to be among them. Of a long line it looks at no more
/// bytes than the characters of the columns that are shown may have.
fn shown_between(line: &str, at: usize) -> (usize, usize) {
    if line.len() <= MOST_COLUMNS * CHARACTER_BYTES && line.width() <= MOST_COLUMNS {
        return (0, line.len());
    }
    let front = line.floor_char_boundary(at.saturating_sub(COLUMNS_BEFORE * CHARACTER_BYTES));
    let back = at.saturating_add(MOST_COLUMNS * CHARACTER_BYTES);
    let near = part(line, front, back);
    let first = first_shown(near, at.saturating_sub(front));
    let last = last_shown(near, first);
    (front.saturating_add(first), front.saturating_add(last))
}

/// Adds what stands below a part of a line: a tab below each tab, and else a mark below each column.
fn push_below(alloc: Global, text: &mut String, shown: &str, mark: &str) -> Result<(), AllocError> {
    let mut is_first = true;
    'pieces: for piece in shown.split('\t') {
        if !is_first {
            text.push('\t')?;
        }
        push_repeated(alloc, text, mark, piece.width())?;
        is_first = false;
    }
    Ok(())
}

/// Adds the underline of a part of a line: at least one mark.
fn push_underline(alloc: Global, text: &mut String, shown: &str) -> Result<(), AllocError> {
    if shown.width() == 0 || shown.chars().all(|c| c == '\t') {
        return text.push('^');
    }
    push_below(alloc, text, shown, "^")
}

/// Adds a line, with its number in front.
fn push_line(
    alloc: Global,
    text: &mut String,
    number: &str,
    line: &str,
    shown: (usize, usize),
) -> Result<(), AllocError> {
    let (first, last) = shown;
    push_repeated(
        alloc,
        text,
        " ",
        NUMBER_COLUMNS.saturating_sub(number.len()),
    )?;
    text.push_str(number)?;
    text.push_str(" | ")?;
    text.push_str(if first > 0 { "..." } else { "" })?;
    text.push_str(part(line, first, last))?;
    text.push_str(if last < line.len() { "...\n" } else { "\n" })
}

/// Adds what is below a line before the offset from which it is underlined.
fn push_blank(
    alloc: Global,
    text: &mut String,
    number: &str,
    line: &str,
    shown: (usize, usize),
    from: usize,
) -> Result<(), AllocError> {
    let (first, last) = shown;
    push_repeated(alloc, text, " ", NUMBER_COLUMNS.max(number.len()))?;
    text.push_str(" | ")?;
    text.push_str(if first > 0 { "   " } else { "" })?;
    push_below(alloc, text, part(line, first, from.min(last)), " ")
}

/// Adds the underline of a part of a line, in green if messages are in color.
fn push_colored(
    alloc: Global,
    text: &mut String,
    in_color: bool,
    marked: &str,
) -> Result<(), AllocError> {
    if !in_color {
        return push_underline(alloc, text, marked);
    }
    text.push_str("\u{1b}[1;32m")?;
    push_underline(alloc, text, marked)?;
    text.push_str("\u{1b}[0m")
}

/// Adds the line that a span begins on, with its number, and below it the part of the span on it underlined.
fn push_excerpt(
    alloc: Global,
    text: &mut String,
    source: &Source<'_>,
    span: Span,
) -> Result<(), AllocError> {
    let inside = source.shown_span(span);
    let start = source.line_start(span);
    let line = source.line(span);
    let from = inside.start().saturating_sub(start).min(line.len());
    let to = inside.end().saturating_sub(start).min(line.len());
    let shown = shown_between(line, from);
    let (number, _) = source.place(span);
    let number = format!(in alloc; "{number}")?;
    push_line(alloc, text, number.as_str(), line, shown)?;
    push_blank(alloc, text, number.as_str(), line, shown, from)?;
    let (_, last) = shown;
    let marked = part(line, from.min(last), to.min(last));
    push_colored(alloc, text, source.in_color(), marked)?;
    text.push('\n')
}

/// Returns the line that a span begins on, with its number, and below it the part of the span on it underlined.
pub(crate) fn excerpt(
    alloc: Global,
    source: &Source<'_>,
    span: Span,
) -> Result<String, AllocError> {
    let mut text = String::new(alloc);
    push_excerpt(alloc, &mut text, source, span)?;
    Ok(text)
}
