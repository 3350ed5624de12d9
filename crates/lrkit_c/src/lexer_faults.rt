//! What is wrong with a lexer's text, in words.

ghost use Rattle.std.specs.Prelude.{◌≡◌, ℕ, [], ◌++◌, IfOk, List, OnOk, string_bytes};
ghost use Rattle.lrkit_c.specs.Faults.{BeginsAt, ShowsEach, ShowsError, ShowsFault, lexer_source};

use cfg_base::span::Span;
use cfg_sections::header::HeaderError;
use lrlex::{LexFileError, LexTextError};
use std::alloc::{AllocError, Global};
use text_messages::{Severity, Source};

/// Adds an error of a section, at the first of its places.
fn push_section_error(
    alloc: Global,
    text: &mut String,
    source: &Source<'_>,
    error: &HeaderError<Span>,
) -> Result<(), AllocError>
    ensures { OnOk result ((shown : List ℕ) × ShowsError source.now error.now shown × (string_bytes text.new ≡ string_bytes text.old ++ shown)) }
{
    let message = error.to_string(alloc)?;
    let first = error.locations.as_slice().first().copied();
    source.push_message_if(alloc, text, Severity::Error, first, message.as_str())
}

/// Adds the errors of a section, in their order.
fn push_section(
    alloc: Global,
    text: &mut String,
    source: &Source<'_>,
    errors: &[HeaderError<Span>],
) -> Result<(), AllocError>
    requires { string_bytes text.old ≡ [] }
    ensures { OnOk result (ShowsEach source.now errors.now (string_bytes text.new)) }
{
    'errors: for index in 0..errors.len() {
        push_section_error(alloc, text, source, &errors[index])?;
    }
    Ok(())
}

/// Adds what is wrong with an expression. The offsets in front of what `regex` says count from before the expression.
fn push_expression(
    alloc: Global,
    text: &mut String,
    source: &Source<'_>,
    span: Span,
    shown: &str,
) -> Result<(), AllocError>
    requires { string_bytes text.old ≡ [] }
    ensures { OnOk result (BeginsAt source.now span (string_bytes text.new)) }
{
    let words = match shown.split_once(": ") {
        Some((_, words)) => words,
        None => shown,
    };
    source.push_message(alloc, text, Severity::Error, span, words)
}

/// Adds the fault of a line, at an offset.
fn push_line(
    alloc: Global,
    text: &mut String,
    source: &Source<'_>,
    offset: usize,
    words: &str,
) -> Result<(), AllocError>
    requires { string_bytes text.old ≡ [] }
    ensures { OnOk result (BeginsAt source.now (record { start = offset; end = offset }) (string_bytes text.new)) }
{
    let span = Span::new(offset, offset);
    source.push_message(alloc, text, Severity::Error, span, words)
}

/// Adds what is wrong.
fn push_error(
    alloc: Global,
    text: &mut String,
    source: &Source<'_>,
    error: &LexTextError,
) -> Result<(), AllocError>
    requires { string_bytes text.old ≡ [] }
    ensures { OnOk result (ShowsFault source.now error.now (string_bytes text.new)) }
{
    match error {
        LexTextError::File(LexFileError::Memory(e)) => Err(*e),
        LexTextError::File(LexFileError::Section(errors)) => {
            push_section(alloc, text, source, errors.as_slice())
        }
        LexTextError::File(LexFileError::Line(fault)) => {
            let message = fault.kind.to_string(alloc)?;
            push_line(alloc, text, source, fault.offset, message.as_str())
        }
        LexTextError::Expression(span, error) => {
            let shown = error.to_string(alloc)?;
            push_expression(alloc, text, source, *span, shown.as_str())
        }
    }
}

/// Returns what is wrong with a lexer's text: a message at the place of the error, or one for each error of its section.
pub fn lexer_fault(alloc: Global, text: &str, error: &LexTextError) -> Result<String, AllocError>
    ensures { IfOk result (λ shown. ShowsFault (lexer_source text.now) error.now (string_bytes shown)) }
{
    let source = Source::new(alloc, text, "lexer")?;
    let mut shown = String::new(alloc);
    let pushed = push_error(alloc, &mut shown, &source, error);
    drop(source);
    pushed?;
    Ok(shown)
}
