//! Parts of a text, and what is put behind it.

ghost use Rattle.std.specs.Prelude.{◌≡◌, ◌≤◌, ◌++◌, length, OnOk, IfOk, max};
ghost use Rattle.std.specs.String.{string_bytes};
ghost use Rattle.lrpar_diagnostics.specs.Places.{char_start, part, shown_end, columns};
ghost use Rattle.lrpar_diagnostics.specs.Underlines.{spaces, underline};

use cfg_base::text::{byte_at, line_end};
use std::alloc::{AllocError, Global};
use unicode_width::UnicodeWidthStr;

/// Returns the text from one offset up to another, each moved to the first byte of the character that it lies in.
pub(crate) fn part(text: &str, from: usize, to: usize) -> &str
    requires order { from ≤ to }
    requires inside { to ≤ length text.now }
    ensures { result.now ≡ part text.now from to }
{
    let first = text.floor_char_boundary(from);
    let last = text.floor_char_boundary(to);
    &text[first..last]
}

/// Returns the offset of the end of the shown part of the line that begins here.
pub(crate) fn shown_end(text: &str, start: usize) -> usize
    requires { start ≤ length text.now }
    ensures value { result ≡ shown_end text.now start }
    ensures from { start ≤ result }
    ensures inside { result ≤ length text.now }
{
    let end = line_end(text, start);
    if start < end && byte_at(text, end) == Some(b'\n') && byte_at(text, end - 1) == Some(b'\r') {
        return end - 1;
    }
    end
}

/// Puts `count` spaces.
pub(crate) fn push_spaces(alloc: Global, text: &mut String, count: usize) -> Result<(), AllocError>
    ensures { OnOk result (string_bytes text.new ≡ string_bytes text.old ++ spaces count) }
{
    let spaces = " ".repeat(alloc, count)?;
    text.push_str(spaces.as_str())?;
    Ok(())
}

/// Puts as many spaces as a text has columns.
pub(crate) fn push_blank(alloc: Global, text: &mut String, shown: &str) -> Result<(), AllocError>
    ensures { OnOk result (string_bytes text.new ≡ string_bytes text.old ++ spaces (columns shown.now)) }
{
    push_spaces(alloc, text, shown.width())
}

/// Puts the underline of a text.
pub(crate) fn push_underline(
    alloc: Global,
    text: &mut String,
    shown: &str,
    mark: char,
) -> Result<(), AllocError>
    ensures { OnOk result (string_bytes text.new ≡ string_bytes text.old ++ underline mark shown.now) }
{
    let mut one = String::new(alloc);
    one.push(mark)?;
    let marks = one.as_str().repeat(alloc, shown.width().max(1))?;
    text.push_str(marks.as_str())?;
    Ok(())
}
