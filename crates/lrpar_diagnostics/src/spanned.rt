//! Errors and warnings with their spans underlined.

ghost use Rattle.std.specs.Prelude.{◌≡◌, ◌++◌, ◌+◌, ◌<◌, length, codes, drop, IfOk, OnOk};
ghost use Rattle.std.specs.Prelude.{IfSome, option_copied, slice_get, slice_index_or};
ghost use Rattle.std.specs.String.{string_bytes};
ghost use Rattle.lrpar_diagnostics.specs.Underlines.{underlined};
ghost use Rattle.lrpar_diagnostics.specs.Occurrences.{occurrence_text, dots_before, later_texts, spanned_text};

use crate::diagnostics::SpannedDiagnosticFormatter;
use crate::marks::Underline;
use cfg_base::span::{Span, Spanned, SpansKind};
use std::alloc::{AllocError, Global};
use std::error::Error;

/// Shows errors and warnings under the text that they are about.
pub trait DiagnosticFormatter {
    ghost use Rattle.std.specs.Prelude.{List, ℕ};
    ghost use Rattle.cfg_base.specs.SpanModel.{SpanModel};
    ghost use Rattle.cfg_base.specs.declared.span.SpansKind.{SpansKind};

    /// The text for a message, its spans, and what these are. An implementer says here what both calls return.
    ghost shows: { Self → List ℕ → List SpanModel → SpansKind → List ℕ };

    /// Returns an error as text: its spans underlined in order, the first with the error's message.
    fn format_error<E: Spanned + Error>(&self, alloc: Global, e: &E) -> Result<String, AllocError>
        ensures { IfOk result (λ text. IfSome (E.Display.output e.now) (λ message. string_bytes text ≡ shows self.now message (E.spans_of e.now) (E.spanskind_of e.now))) };

    /// Returns a warning as text, as `format_error` does an error.
    fn format_warning<W: Spanned>(&self, alloc: Global, w: &W) -> Result<String, AllocError>
        ensures { IfOk result (λ text. IfSome (W.Display.output w.now) (λ message. string_bytes text ≡ shows self.now message (W.spans_of w.now) (W.spanskind_of w.now))) };
}

/// Returns the text beside the span of this number, from the second on.
fn occurrence(alloc: Global, kind: SpansKind, number: usize) -> Result<String, AllocError>
    ensures { IfOk result (λ text. string_bytes text ≡ occurrence_text kind number) }
{
    match kind {
        SpansKind::DuplicationError => {
            let mut text = SpannedDiagnosticFormatter::ordinal(alloc, number)?;
            text.push_str(" occurrence")?;
            Ok(text)
        }
        SpansKind::Error => {
            let text = String::from_str(alloc, "Unrecognized spanskind")?;
            Ok(text)
        }
    }
}

impl<'a> SpannedDiagnosticFormatter<'a> {
    /// Returns the dots before an underline where the next span starts more than a line below.
    fn dots_before(&self, span: Span, next: Option<&Span>) -> &'static str
        ensures { result.now ≡ dots_before self.now.text span (option_copied next.entry) }
    {
        let Some(next) = next else {
            return "";
        };
        let below = self
            .line_at(next.start())
            .saturating_sub(self.line_at(span.start()));
        if below > 1 { "..." } else { "" }
    }

    /// Puts the span of this number on lines of its own.
    fn push_occurrence(
        &self,
        alloc: Global,
        text: &mut String,
        kind: SpansKind,
        underline: &Underline<'_>,
        number: usize,
    ) -> Result<(), AllocError>
        ensures { OnOk result (string_bytes text.new ≡ string_bytes text.old ++ (codes "\n" ++ underlined self.now.text underline.now.prefix.now underline.now.span (occurrence_text kind number) underline.now.mark)) }
    {
        let message = occurrence(alloc, kind, number)?;
        text.push_str("\n")?;
        self.push_underlined(alloc, text, underline, message.as_str())?;
        Ok(())
    }

    /// Puts the spans from the second on.
    fn push_later(
        &self,
        alloc: Global,
        text: &mut String,
        kind: SpansKind,
        spans: &[Span],
    ) -> Result<(), AllocError>
        requires { 0 < length spans.now }
        ensures { OnOk result (string_bytes text.new ≡ string_bytes text.old ++ later_texts self.now.text kind 2 (drop 1 spans.now)) }
    {
        'spans: for i in 1..spans.len() {
            let span = spans[i];
            let underline = Underline {
                prefix: self.dots_before(span, spans.get(i + 1)),
                span,
                mark: '^',
            };
            self.push_occurrence(alloc, text, kind, &underline, i + 1)?;
        }
        Ok(())
    }

    /// Returns a message with its spans.
    fn message_with_spans(
        &self,
        alloc: Global,
        message: &str,
        spans: &[Span],
        kind: SpansKind,
    ) -> Result<String, AllocError>
        ensures { IfOk result (λ text. string_bytes text ≡ spanned_text self.now.text message.now spans.now kind) }
    {
        let mut text = String::new(alloc);
        let Some(first) = spans.first() else {
            return Ok(text);
        };
        let underline = Underline {
            prefix: self.dots_before(*first, spans.get(1)),
            span: *first,
            mark: '^',
        };
        self.push_underlined(alloc, &mut text, &underline, message)?;
        self.push_later(alloc, &mut text, kind, spans)?;
        Ok(text)
    }

    /// Returns an error or a warning with its spans.
    fn format_spanned<E: Spanned>(&self, alloc: Global, e: &E) -> Result<String, AllocError>
        ensures { IfOk result (λ text. IfSome (E.Display.output e.now) (λ message. string_bytes text ≡ spanned_text self.now.text message (E.spans_of e.now) (E.spanskind_of e.now))) }
    {
        let message = e.to_string(alloc)?;
        let text = self.message_with_spans(alloc, message.as_str(), e.spans(), e.spanskind())?;
        Ok(text)
    }
}

impl<'a> DiagnosticFormatter for SpannedDiagnosticFormatter<'a> {
    ghost use Rattle.lrpar_diagnostics.specs.Occurrences.{spanned_text};

    ghost shows = { λ f message spans kind. spanned_text f.text message spans kind };

    fn format_error<E: Spanned + Error>(&self, alloc: Global, e: &E) -> Result<String, AllocError> {
        self.format_spanned(alloc, e)
    }

    fn format_warning<W: Spanned>(&self, alloc: Global, w: &W) -> Result<String, AllocError> {
        self.format_spanned(alloc, w)
    }
}
