//! Lines of a source with parts of them underlined.

ghost use Rattle.std.specs.Prelude.{◌≡◌, ◌≤◌, ◌++◌, map, suc, length, codes, slice_range, IfOk, OnOk, min};
ghost use Rattle.std.specs.List.{flat_map};
ghost use Rattle.std.specs.String.{string_bytes};
ghost use Rattle.cfg_base.specs.Newlines.{line_of, newline_offsets};
ghost use Rattle.lrpar_diagnostics.specs.Places.{within, columns, shown_end};
ghost use Rattle.lrpar_diagnostics.specs.Underlines.{front_text, shown_line, under_front, underlined_line, underlined};

use crate::diagnostics::SpannedDiagnosticFormatter;
use crate::texts::{part, push_blank, push_spaces, push_underline, shown_end};
use cfg_base::span::Span;
use cfg_base::text::line_end;
use std::alloc::{AllocError, Global};

/// How a span is underlined.
#[derive(Clone, Copy)]
pub(crate) struct Underline<'u> {
    /// The text before each underline, in the place of as many spaces.
    pub prefix: &'u str,
    pub span: Span,
    /// The character of the underline.
    pub mark: char,
}

impl<'a> SpannedDiagnosticFormatter<'a> {
    /// Returns the span, where an offset past the source counts as its end.
    pub(crate) fn within(&self, span: Span) -> Span
        ensures value { result ≡ within self.now.text span }
        ensures inside { result.end ≤ length self.now.text }
    {
        let len = self.src.len();
        Span::new(span.start().min(len), span.end().min(len))
    }

    /// Returns the line of an offset; that of the source's end past it.
    pub(crate) fn line_at(&self, offset: usize) -> usize
        ensures { result ≡ line_of self.now.text (min offset (length self.now.text)) }
    {
        let offset = offset.min(self.src.len());
        self.newlines.byte_to_line_num(offset).unwrap_or(0)
    }

    /// Returns the front of the line that begins here.
    pub(crate) fn front_of(&self, alloc: Global, start: usize) -> Result<String, AllocError>
        requires { start ≤ length self.now.text }
        ensures { IfOk result (λ front. string_bytes front ≡ front_text (line_of self.now.text start)) }
    {
        let line = self.line_at(start);
        let front = format!(in alloc; "{line}| ")?;
        Ok(front)
    }

    /// Puts the line that begins here behind its front, and the marks under that front.
    pub(crate) fn push_shown(
        &self,
        alloc: Global,
        text: &mut String,
        prefix: &str,
        start: usize,
    ) -> Result<(), AllocError>
        requires { start ≤ length self.now.text }
        ensures { OnOk result (string_bytes text.new ≡ string_bytes text.old ++ (shown_line self.now.text start ++ under_front self.now.text start prefix.now)) }
    {
        let front = self.front_of(alloc, start)?;
        let end = shown_end(self.src, start);
        text.push_str(front.as_str())?;
        text.push_str(part(self.src, start, end))?;
        text.push_str("\n")?;
        text.push_str(prefix)?;
        push_spaces(
            alloc,
            text,
            front.as_str().len().saturating_sub(prefix.len()),
        )?;
        Ok(())
    }

    /// Puts the line that begins here, with the part within the span underlined.
    pub(crate) fn push_line(
        &self,
        alloc: Global,
        text: &mut String,
        underline: &Underline<'_>,
        start: usize,
    ) -> Result<(), AllocError>
        requires { start ≤ length self.now.text }
        ensures { OnOk result (string_bytes text.new ≡ string_bytes text.old ++ underlined_line self.now.text underline.now.prefix.now underline.now.span underline.now.mark start) }
    {
        let end = shown_end(self.src, start);
        let from = underline.span.start().max(start).min(end);
        let to = underline.span.end().max(start).min(end);
        self.push_shown(alloc, text, underline.prefix, start)?;
        push_blank(alloc, text, part(self.src, start, from))?;
        push_underline(alloc, text, part(self.src, from, to), underline.mark)?;
        Ok(())
    }

    /// Puts the further lines up to that of an offset, each behind an LF.
    pub(crate) fn push_further(
        &self,
        alloc: Global,
        text: &mut String,
        underline: &Underline<'_>,
        first: usize,
        last: usize,
    ) -> Result<(), AllocError>
        requires first { first ≤ length self.now.text }
        requires last { last ≤ length self.now.text }
        ensures { OnOk result (string_bytes text.new ≡ string_bytes text.old ++ flat_map (λ a. codes "\n" ++ underlined_line self.now.text underline.now.prefix.now underline.now.span underline.now.mark a) (map suc (newline_offsets first (slice_range self.now.text first last)))) }
    {
        let mut end = line_end(self.src, first);
        'lines: while end < last {
            text.push_str("\n")?;
            self.push_line(alloc, text, underline, end + 1)?;
            end = line_end(self.src, end + 1);
        }
        Ok(())
    }

    /// Puts the lines that a span touches, each with its underline, and a message behind the last.
    pub(crate) fn push_underlined(
        &self,
        alloc: Global,
        text: &mut String,
        underline: &Underline<'_>,
        message: &str,
    ) -> Result<(), AllocError>
        ensures { OnOk result (string_bytes text.new ≡ string_bytes text.old ++ underlined self.now.text underline.now.prefix.now underline.now.span message.now underline.now.mark) }
    {
        let span = self.within(underline.span);
        let (first, _) = self.newlines.span_line_bytes(span);
        let last = line_end(self.src, span.end());
        let inside = Underline {
            prefix: underline.prefix,
            span,
            mark: underline.mark,
        };
        self.push_line(alloc, text, &inside, first)?;
        self.push_further(alloc, text, &inside, first, last)?;
        text.push_str(" ")?;
        text.push_str(message)?;
        Ok(())
    }

    /// Returns the lines that a span touches, each with the span underlined below it, and a message behind the
    /// last underline. The underline has the width of the part within the span, and one character where that has
    /// none. A place inside a character counts as that character's first byte, and one past the source as its
    /// end.
    pub fn underline_span_with_text(
        &self,
        alloc: Global,
        span: Span,
        s: &str,
        underline_c: char,
    ) -> Result<String, AllocError>
        ensures { IfOk result (λ text. string_bytes text ≡ underlined self.now.text (codes "") span s.now underline_c) }
    {
        self.prefixed_underline_span_with_text(alloc, "", span, s, underline_c)
    }

    /// Underlines a span with a text as `underline_span_with_text` does, with a prefix before each underline in
    /// the place of as many spaces. A prefix of more than three bytes may move the underlines.
    pub fn prefixed_underline_span_with_text(
        &self,
        alloc: Global,
        prefix: &str,
        span: Span,
        s: &str,
        underline_c: char,
    ) -> Result<String, AllocError>
        ensures { IfOk result (λ text. string_bytes text ≡ underlined self.now.text prefix.now span s.now underline_c) }
    {
        let mut text = String::new(alloc);
        let underline = Underline {
            prefix,
            span,
            mark: underline_c,
        };
        self.push_underlined(alloc, &mut text, &underline, s)?;
        Ok(text)
    }
}
