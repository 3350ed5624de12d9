//! A text with its lines and columns.

ghost use Rattle.std.specs.Prelude.{◌≡◌, ◌≤◌, ◌-◌, length, slice_range, IfOk};
ghost use Rattle.std.specs.List.{All};
ghost use Rattle.cfg_base.specs.Text.{line_end};
ghost use Rattle.cfg_base.specs.Newlines.{chars_ended, column_of, line_of, line_start, newlines_of};
ghost use Rattle.cfg_base.specs.Marks.{IsMark};

use crate::newlinecache::{NewlineCache, chars_between};
use crate::span::Span;
use std::alloc::{AllocError, Global};
use std::marker::Model;

/// How many bytes lie between two marks.
const STEP: usize = 256;

/// How many characters of a text end at an offset or before it.
#[derive(Clone, Copy)]
struct Mark {
    at: usize,
    chars: usize,
}

/// A text, with what finds its lines and columns. A column costs as much in a long line as in a short one: its characters are
/// counted on from a mark nearby. Contracts see the text.
#[derive(Drop)]
pub struct TextLines<'a> {
    text: &'a str,
    newlines: NewlineCache,
    marks: Vec<Mark>,
}

impl<'a> Model for TextLines<'a> {
    ghost use Rattle.std.specs.Prelude.{◌≡◌, ℕ, List};
    ghost use Rattle.std.specs.List.{All};
    ghost use Rattle.cfg_base.specs.Newlines.{newlines_of};
    ghost use Rattle.cfg_base.specs.Marks.{IsMark};

    ghost Value = { List ℕ };

    ghost view = { λ l. l.text.now };

    ghost invariant = { λ l. (l.newlines ≡ newlines_of l.text.now) × All (IsMark l.text.now) l.marks.items };
}

impl<'a> TextLines<'a> {
    /// Makes it of a text, which is read once.
    pub fn new(alloc: Global, text: &'a str) -> Result<TextLines<'a>, AllocError>
        ensures { IfOk result (λ l. l ≡ text.entry.now) }
    {
        let newlines = NewlineCache::from_str(alloc, text)?;
        let marks = marks_of(alloc, text)?;
        Ok(TextLines {
            text,
            newlines,
            marks,
        })
    }

    /// Returns the text.
    pub fn text(&self) -> &'a str
        ensures { result.now ≡ self.now }
    {
        self.text
    }

    /// Returns the line and the column of an offset. A column counts characters.
    pub fn line_col(&self, offset: usize) -> (usize, usize)
        requires { offset ≤ length self.now }
        ensures { result ≡ (line_of self.now offset, column_of self.now self.now offset) }
    {
        let line = self.newlines.byte_to_line_num(offset).unwrap();
        let start = self.newlines.byte_to_line_byte(offset).unwrap();
        (line, chars_from(self.text, &self.marks, start, offset) + 1)
    }

    /// Returns the first byte of the line that a span begins on.
    pub fn line_start(&self, span: Span) -> usize
        requires { span.end ≤ length self.now }
        ensures value { result ≡ line_start self.now span.start }
        ensures inside { result ≤ length self.now }
    {
        let (start, _) = self.newlines.span_line_bytes(span);
        start
    }

    /// Returns the lines that a span is on, without the last one's LF.
    pub fn lines_of(&self, span: Span) -> &'a str
        requires { span.end ≤ length self.now }
        ensures { result.now ≡ slice_range self.now (line_start self.now span.start) (line_end self.now span.end) }
    {
        lines_part(&self.newlines, self.text, span)
    }
}

/// Returns the marks of a text: none of one that is shorter than a step.
fn marks_of(alloc: Global, text: &str) -> Result<Vec<Mark>, AllocError>
    ensures { IfOk result (λ marks. All (IsMark text.now) marks.items) }
{
    let mut marks = Vec::new(alloc);
    let mut last = Mark { at: 0, chars: 0 };
    'steps: for _ in 0..text.len() / STEP {
        last = next_mark(text, last);
        marks.push(last)?;
    }
    Ok(marks)
}

/// Returns the mark a step behind another one.
fn next_mark(text: &str, last: Mark) -> Mark
    requires { IsMark text.now last }
    ensures { IsMark text.now result }
{
    let at = last.at.saturating_add(STEP).min(text.len());
    Mark {
        at,
        chars: last.chars + chars_between(text, last.at, at),
    }
}

/// Counts the characters that end behind an offset, and at another one or before it.
fn chars_from(text: &str, marks: &[Mark], from: usize, to: usize) -> usize
    requires marks { All (IsMark text.now) marks.now }
    requires order { from ≤ to }
    requires inside { to ≤ length text.now }
    ensures value { result ≡ chars_ended text.now to - chars_ended text.now from }
    ensures small { result ≤ length text.now }
{
    if to - from <= STEP {
        return chars_between(text, from, to);
    }
    chars_before(text, marks, to) - chars_before(text, marks, from)
}

/// Counts the characters that end at an offset or before it, on from the last mark.
fn chars_before(text: &str, marks: &[Mark], to: usize) -> usize
    requires marks { All (IsMark text.now) marks.now }
    requires inside { to ≤ length text.now }
    ensures { result ≡ chars_ended text.now to }
{
    let mark = mark_before(text, marks, to);
    mark.chars + chars_between(text, mark.at, to)
}

/// Returns the last mark up to an offset, or that of the text's beginning.
fn mark_before(text: &str, marks: &[Mark], to: usize) -> Mark
    requires { All (IsMark text.now) marks.now }
    ensures mark { IsMark text.now result }
    ensures before { result.at ≤ to }
{
    let index = (to / STEP).saturating_sub(1);
    if index < marks.len() && marks[index].at <= to {
        return marks[index];
    }
    Mark { at: 0, chars: 0 }
}

/// Returns the lines that a span is on.
fn lines_part<'a>(newlines: &NewlineCache, text: &'a str, span: Span) -> &'a str
    requires cache { newlines.now ≡ newlines_of text.now }
    requires within { span.end ≤ length text.now }
    ensures { result.now ≡ slice_range text.now (line_start text.now span.start) (line_end text.now span.end) }
{
    // Read, so that the proof may use that it ends behind its start.
    span.start();
    let (start, end) = newlines.span_line_bytes(span);
    &text[start..end]
}
