//! Messages of errors, written one after another.

ghost use Rattle.std.specs.Prelude.{◌≡◌, ◌++◌, IfOk, OnOk, string_bytes};
ghost use Rattle.text_messages.specs.Places.{BeginsWith, SourceValue, heading};
ghost use Rattle.text_messages.specs.declared.source.Severity.TheVariants as severities;
ghost use Rattle.text_parses.specs.Parses.{TellsAt, TellsError, TellsErrors, behind, placed};

use crate::answer_fault::AnswerFault;
use crate::expected::Reader;
use crate::form::Shown;
use crate::listing::push_repairs;
use crate::names::Grammar;
use crate::parsing::{WordError, WordLexer};
use byte_streams::{Sink, write_all};
use cfg_base::span::Span;
use lrlex::{LRLexError, LexErrorKind};
use parser_kit::ParserKit;
use std::alloc::{AllocError, Global};
use text_messages::{Severity, Source};

/// Returns what a lexing error says.
pub(crate) fn lex_message(shown: Shown<'_>, error: LRLexError) -> &'static str {
    match error.kind {
        LexErrorKind::NoMatch => "no rule of the lexer matches here",
        LexErrorKind::UnknownName => match shown.line {
            Some(_) => "no token has this name",
            None => "a rule of the lexer matches here whose name is no token of the grammar",
        },
    }
}

/// Returns an offset behind another one.
fn behind(start: usize, at: usize) -> usize
    ensures { result ≡ behind start at }
{
    start.saturating_add(at)
}

/// Returns a span of a text as one of what shows it, in which the text begins at an offset.
pub(crate) fn span_in_source(start: usize, span: Span) -> Span
    ensures { result ≡ placed start span }
{
    let first = behind(start, span.start());
    let last = behind(start, span.end());
    Span::new(first, first.max(last))
}

/// Returns a message about a place of a text.
fn message_at(
    alloc: Global,
    source: &Source<'_>,
    span: Span,
    message: &str,
) -> Result<String, AllocError>
    ensures { IfOk result (λ t. BeginsWith (heading source.now severities.Error span message.now) (string_bytes t)) }
{
    let mut text = String::new(alloc);
    source.push_message(alloc, &mut text, Severity::Error, span, message)?;
    Ok(text)
}

/// Writes the error of the lexer.
pub(crate) fn write_lex_error<W: Sink>(
    alloc: Global,
    shown: Shown<'_>,
    error: LRLexError,
    out: &mut W,
) -> Result<(), AnswerFault>
    ensures { OnOk result (TellsError shown.entry.source.now (placed shown.entry.start error.span) (W.known out.old) (W.known out.new)) }
{
    let span = span_in_source(shown.start, error.span);
    let text = message_at(alloc, shown.source, span, lex_message(shown, error))?;
    write_all(out, text.as_bytes())?;
    Ok(())
}

/// Returns the repairs of an error as text, if they are to be listed.
fn listing_of(
    alloc: Global,
    grm: &Grammar,
    shown: Shown<'_>,
    error: &WordError,
) -> Result<String, AllocError> {
    let mut text = String::new(alloc);
    if shown.input.listed {
        push_repairs(alloc, &mut text, grm, shown.input.text, error)?;
    }
    Ok(text)
}

/// Returns the message of an error, with its repairs if they are to be listed.
fn error_text(
    alloc: Global,
    reader: &mut Reader<'_>,
    shown: Shown<'_>,
    error: &WordError,
) -> Result<String, AllocError>
    ensures { IfOk result (λ t. TellsAt shown.entry.source.now (placed shown.entry.start error.now.lexeme.span) (string_bytes t)) }
{
    let message = reader.message(alloc, error)?;
    let span = span_in_source(shown.start, error.lexeme.span);
    let mut text = message_at(alloc, shown.source, span, message.as_str())?;
    let listing = listing_of(alloc, reader.grm(), shown, error)?;
    text.push_str(listing.as_str())?;
    Ok(text)
}

/// Writes the message of an error.
fn write_error<W: Sink>(
    alloc: Global,
    reader: &mut Reader<'_>,
    shown: Shown<'_>,
    error: &WordError,
    out: &mut W,
) -> Result<(), AnswerFault>
    ensures { OnOk result (TellsError shown.entry.source.now (placed shown.entry.start error.now.lexeme.span) (W.known out.old) (W.known out.new)) }
{
    let text = error_text(alloc, reader, shown, error)?;
    write_all(out, text.as_bytes())?;
    Ok(())
}

/// Writes the messages of errors.
fn write_each<W: Sink>(
    alloc: Global,
    reader: &mut Reader<'_>,
    shown: Shown<'_>,
    errors: &[WordError],
    out: &mut W,
) -> Result<(), AnswerFault>
    ensures { OnOk result (TellsErrors shown.entry.source.now shown.entry.start errors.now (W.known out.old) (W.known out.new)) }
{
    'errors: for index in 0..errors.len() {
        write_error(alloc, reader, shown, &errors[index], out)?;
    }
    Ok(())
}

/// Writes the errors of a parse, in their order.
pub(crate) fn write_errors<W: Sink>(
    alloc: Global,
    kit: &ParserKit<u32>,
    shown: Shown<'_>,
    lexer: &WordLexer<'_>,
    errors: &[WordError],
    out: &mut W,
) -> Result<(), AnswerFault>
    ensures { OnOk result (TellsErrors shown.entry.source.now shown.entry.start errors.now (W.known out.old) (W.known out.new)) }
{
    let mut reader = Reader::new(alloc, kit, lexer)?;
    let wrote = write_each(alloc, &mut reader, shown, errors, out);
    drop(reader);
    wrote
}
