//! The symbols of a production underlined, line by line.

ghost use Rattle.std.specs.Prelude.{◌≡◌, ◌≤◌, ◌++◌, length, codes, OnOk, IfOk, [], slice_get};
ghost use Rattle.std.specs.String.{string_bytes};
ghost use Rattle.cfg_read.specs.AstModels.{ast_symbol_of};
ghost use Rattle.lrpar_diagnostics.specs.ProductionMarks.{line_of_span, end_of_span, opened_line, mark_behind, next_mark, marks_behind, marked_lines, production_spans};

use crate::diagnostics::SpannedDiagnosticFormatter;
use crate::texts::{part, push_blank, push_underline, shown_end};
use cfg_base::span::Span;
use std::alloc::{AllocError, Global};

impl<'a> SpannedDiagnosticFormatter<'a> {
    /// Returns the first byte of the line that a span starts on.
    fn line_of_span(&self, span: Span) -> usize
        ensures value { result ≡ line_of_span self.now.text span }
        ensures inside { result ≤ length self.now.text }
    {
        let (first, _) = self.newlines.span_line_bytes(self.within(span));
        first
    }

    /// Returns the byte offset at which a span ends on the line that it starts on.
    fn end_of_span(&self, span: Span) -> usize
        ensures value { result ≡ end_of_span self.now.text span }
        ensures inside { result ≤ length self.now.text }
    {
        let start = self.line_of_span(span);
        self.within(span)
            .end()
            .max(start)
            .min(shown_end(self.src, start))
    }

    /// Puts a line, and the marks under its front.
    fn open_line(&self, alloc: Global, text: &mut String, start: usize) -> Result<(), AllocError>
        requires { start ≤ length self.now.text }
        ensures { OnOk result (string_bytes text.new ≡ string_bytes text.old ++ opened_line self.now.text start) }
    {
        self.push_shown(alloc, text, "", start)
    }

    /// Puts spaces from an offset of a line up to a span, and the span's underline.
    fn push_mark(
        &self,
        alloc: Global,
        text: &mut String,
        start: usize,
        from: usize,
        span: Span,
    ) -> Result<(), AllocError>
        requires start { start ≤ length self.now.text }
        requires from { from ≤ length self.now.text }
        ensures { OnOk result (string_bytes text.new ≡ string_bytes text.old ++ mark_behind self.now.text start from span) }
    {
        let end = shown_end(self.src, start);
        let first = span.start().max(start).min(end);
        let last = span.end().max(start).min(end);
        push_blank(alloc, text, part(self.src, from, from.max(first)))?;
        push_underline(alloc, text, part(self.src, first, last), '-')?;
        Ok(())
    }

    /// Puts the underline of a span behind an offset of a line: on that line, or on one of its own.
    fn push_next_mark(
        &self,
        alloc: Global,
        text: &mut String,
        start: usize,
        from: usize,
        span: Span,
    ) -> Result<(), AllocError>
        requires start { start ≤ length self.now.text }
        requires from { from ≤ length self.now.text }
        ensures { OnOk result (string_bytes text.new ≡ string_bytes text.old ++ next_mark self.now.text start from span) }
    {
        let line = self.line_of_span(span);
        let shown = self.within(span);
        if line == start {
            return self.push_mark(alloc, text, start, from, shown);
        }
        text.push_str(" \n")?;
        self.open_line(alloc, text, line)?;
        self.push_mark(alloc, text, line, line, shown)?;
        Ok(())
    }

    /// Puts the underlines of spans behind the first byte of a line.
    fn push_marks(
        &self,
        alloc: Global,
        text: &mut String,
        first: usize,
        spans: &[Span],
    ) -> Result<(), AllocError>
        requires { first ≤ length self.now.text }
        ensures { OnOk result (string_bytes text.new ≡ string_bytes text.old ++ marks_behind self.now.text first first spans.now) }
    {
        let mut start = first;
        let mut from = first;
        'spans: for i in 0..spans.len() {
            self.push_next_mark(alloc, text, start, from, spans[i])?;
            start = self.line_of_span(spans[i]);
            from = self.end_of_span(spans[i]);
        }
        Ok(())
    }

    /// Puts the lines that spans start on, with the spans underlined.
    pub(crate) fn push_marked_lines(
        &self,
        alloc: Global,
        text: &mut String,
        spans: &[Span],
    ) -> Result<(), AllocError>
        ensures { OnOk result (string_bytes text.new ≡ string_bytes text.old ++ marked_lines self.now.text spans.now) }
    {
        let Some(first) = spans.first() else {
            return Ok(());
        };
        let start = self.line_of_span(*first);
        self.open_line(alloc, text, start)?;
        self.push_marks(alloc, text, start, spans)?;
        Ok(())
    }
}
