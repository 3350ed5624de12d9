//! Places and spans of a source as texts.

ghost use Rattle.std.specs.Prelude.{◌≡◌, ◌≤◌, length, IfOk, Some, None};
ghost use Rattle.std.specs.String.{string_bytes};
ghost use Rattle.cfg_base.specs.Newlines.{newlines_of};
ghost use Rattle.lrpar_diagnostics.specs.Places.{located_text, place_of};
ghost use Rattle.lrpar_diagnostics.specs.Underlines.{underlined};
ghost use Rattle.lrpar_diagnostics.specs.Occurrences.{ordinal_text, ordinal_suffix};

use cfg_base::newlinecache::NewlineCache;
use cfg_base::span::Span;
use std::alloc::{AllocError, Global};
use std::marker::Model;

/// Shows errors, warnings and conflicts under the lines of the source that they speak of. Contracts see the source and the
/// path.
#[derive(Drop)]
pub struct SpannedDiagnosticFormatter<'a> {
    pub(crate) src: &'a str,
    pub(crate) path: &'a str,
    pub(crate) newlines: NewlineCache,
}

impl<'a> Model for SpannedDiagnosticFormatter<'a> {
    ghost use Rattle.std.specs.Prelude.{◌≡◌};
    ghost use Rattle.cfg_base.specs.Newlines.{newlines_of};
    ghost use Rattle.lrpar_diagnostics.specs.Places.{Source};

    ghost Value = { Source };

    ghost view = { λ f. record { text = f.src.now; path = f.path.now } };

    ghost invariant = { λ f. f.newlines ≡ newlines_of f.src.now };
}

impl<'a> SpannedDiagnosticFormatter<'a> {
    /// Makes the formatter of a source, which is read once for its lines.
    pub fn new(
        alloc: Global,
        src: &'a str,
        path: &'a str,
    ) -> Result<SpannedDiagnosticFormatter<'a>, AllocError>
        ensures { IfOk result (λ f. f ≡ record { text = src.entry.now; path = path.entry.now }) }
    {
        let newlines = NewlineCache::from_str(alloc, src)?;
        Ok(SpannedDiagnosticFormatter {
            src,
            path,
            newlines,
        })
    }

    /// Returns the lines of the source.
    pub fn nlc(&self) -> &NewlineCache
        ensures { result.now ≡ newlines_of self.now.text }
    {
        &self.newlines
    }

    /// Returns an ordinal number: `1st`, `2nd`, `3rd`, `4th`.
    pub fn ordinal(alloc: Global, v: usize) -> Result<String, AllocError>
        ensures { IfOk result (λ text. string_bytes text ≡ ordinal_text v) }
    {
        let suffix = suffix_of(v);
        let text = format!(in alloc; "{v}{suffix}")?;
        Ok(text)
    }

    /// Returns a message with the path and the span's start: its line and column, counted from 1 and in
    /// characters, or (0, 0) past the source's end. Without a span it has the path alone.
    pub fn file_location_msg(
        &self,
        alloc: Global,
        msg: &str,
        span: Option<Span>,
    ) -> Result<String, AllocError>
        ensures { IfOk result (λ text. string_bytes text ≡ located_text self.now msg.now span) }
    {
        match span {
            Some(span) => self.message_at(alloc, msg, span),
            None => self.message_in_path(alloc, msg),
        }
    }

    /// Returns a message with the path alone.
    fn message_in_path(&self, alloc: Global, msg: &str) -> Result<String, AllocError>
        ensures { IfOk result (λ text. string_bytes text ≡ located_text self.now msg.now None) }
    {
        let path = self.path;
        let text = format!(in alloc; "{msg} in {path}")?;
        Ok(text)
    }

    /// Returns a message with the path and where the span starts.
    fn message_at(&self, alloc: Global, msg: &str, span: Span) -> Result<String, AllocError>
        ensures { IfOk result (λ text. string_bytes text ≡ located_text self.now msg.now (Some span)) }
    {
        let path = self.path;
        let (line, column) = self.place_at(span.start());
        let text = format!(in alloc; "{msg} at {path}:{line}:{column}")?;
        Ok(text)
    }

    /// Returns the line and the column of an offset.
    fn place_at(&self, offset: usize) -> (usize, usize)
        ensures { result ≡ place_of self.now.text offset }
    {
        let place = self.newlines.byte_to_line_num_and_col_num(self.src, offset);
        place.unwrap_or((0, 0))
    }
}

/// Returns the suffix of an ordinal number.
fn suffix_of(v: usize) -> &'static str
    ensures { result.now ≡ ordinal_suffix v }
{
    let two_digits = v % 100;
    if two_digits >= 11 && two_digits <= 13 {
        return "th";
    }
    match v % 10 {
        1 => "st",
        2 => "nd",
        3 => "rd",
        _ => "th",
    }
}
