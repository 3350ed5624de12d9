//! Ranges of a text, and messages with them.

ghost use Rattle.std.specs.Prelude.{◌≡◌, IfSome};
ghost use Rattle.report_forms.specs.Within.{LiesIn, place_numbers, place_numbers_at, range_numbers, range_numbers_at};

use crate::values::{Place, Range, Said};
use cfg_base::span::Span;
use text_messages::{Message, Source};

/// Returns the place of an offset.
fn place_at(source: &Source<'_>, offset: usize) -> Place
    ensures { place_numbers result ≡ place_numbers_at source.now offset }
{
    let position = source.position(offset);
    Place {
        byte: position.byte,
        line: position.line,
        column: position.column,
        utf16_column: position.utf16_column,
    }
}

/// Returns the range of a span.
pub fn range_at(source: &Source<'_>, span: Span) -> Range
    ensures numbers { range_numbers result ≡ range_numbers_at source.now span }
    ensures inside { LiesIn source.now.shown result }
{
    Range {
        start: place_at(source, span.start()),
        end: place_at(source, span.end()),
    }
}

/// Returns the range of a span, if there is one.
pub fn range_of(source: &Source<'_>, span: Option<Span>) -> Option<Range>
    ensures { IfSome result (LiesIn source.now.shown) }
{
    let span = span?;
    Some(range_at(source, span))
}

/// Returns a message with its range.
pub fn said_of(source: &Source<'_>, message: Message) -> Said
    ensures message { result.message ≡ message.words }
    ensures range { IfSome result.range (LiesIn source.now.shown) }
{
    let Message {
        severity,
        span,
        words,
        help,
        example,
    } = message;
    Said {
        severity: severity.word(),
        message: words,
        range: range_of(source, span),
        help,
        example,
    }
}
