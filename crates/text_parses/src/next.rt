//! Which tokens may come at the first error of a text, else at its end.

ghost use Rattle.std.specs.Prelude.{◌≡◌, [], IfOk, OnOk};
ghost use Rattle.text_parses.specs.NextTokens.{GoesOn, IsNext, TellsNext};

use crate::answer_fault::AnswerFault;
use crate::errors::span_in_source;
use crate::form::Shown;
use crate::names::{Grammar, names_of};
use crate::parsing::WordLexer;
use byte_streams::{Sink, write_all};
use cfg_base::span::Span;
use cfg_base::symbol::TIdx;
use lrlex::{DefaultLexeme, LRLexError};
use lrpar::{Lexer, Prefix};
use parser_kit::ParserKit;
use std::alloc::{AllocError, Global};
use text_messages::Severity;
use vob::Vob;

/// A place, and the tokens that may come there, a bit for each.
#[derive(Drop)]
pub(crate) struct Next {
    pub(crate) span: Span,
    pub(crate) bits: Vob,
}

/// Adds the tokens of the lexemes up to the first that is an error, and returns its place; else that of the lexer's error, or of
/// the end of the last lexeme.
fn push_items(
    prefix: &mut Prefix<'_, u32>,
    items: &[Result<DefaultLexeme<u32>, LRLexError>],
) -> Result<Span, AllocError>
    ensures { OnOk result (prefix.old.tokens ≡ [] → GoesOn prefix.old.parser items.now prefix.new) }
{
    let mut end: usize = 0;
    'items: for item in items {
        match item {
            Ok(lexeme) => {
                if !prefix.push(TIdx(lexeme.tok_id))? {
                    return Ok(lexeme.span);
                }
                end = lexeme.span.end();
            }
            Err(error) => return Ok(error.span),
        }
    }
    Ok(Span::new(end, end))
}

/// Returns which tokens may come at the first error of a text's lexemes, else at their end.
pub(crate) fn next_of(
    alloc: Global,
    kit: &ParserKit<u32>,
    lexer: &WordLexer<'_>,
) -> Result<Next, AllocError>
    ensures { IfOk result (λ n. IsNext kit.now.parser lexer.now.items n.bits.bits) }
{
    let mut prefix = kit.parser_data().prefix(alloc)?;
    let span = push_items(&mut prefix, lexer.iter().as_slice())?;
    let bits = prefix.next_tokens(alloc)?;
    Ok(Next { span, bits })
}

/// Returns what is said of the tokens that may come.
fn next_text(alloc: Global, grm: &Grammar, bits: &Vob) -> Result<String, AllocError> {
    let names = names_of(alloc, grm, bits)?;
    let mut text = String::from_str(alloc, "may come here:")?;
    'names: for name in &names {
        text.push(' ')?;
        text.push_str(name)?;
    }
    Ok(text)
}

/// Writes which tokens may come at the first error of a text, else at its end.
pub(crate) fn write_next<W: Sink>(
    alloc: Global,
    kit: &ParserKit<u32>,
    shown: Shown<'_>,
    lexer: &WordLexer<'_>,
    out: &mut W,
) -> Result<(), AnswerFault>
    ensures { OnOk result (TellsNext kit.now.parser lexer.now.items shown.entry.source.now (W.known out.old) (W.known out.new)) }
{
    let next = next_of(alloc, kit, lexer)?;
    let message = next_text(alloc, kit.grm(), &next.bits)?;
    let mut text = String::new(alloc);
    let span = span_in_source(shown.start, next.span);
    shown
        .source
        .push_message(alloc, &mut text, Severity::Note, span, message.as_str())?;
    write_all(out, text.as_bytes())?;
    Ok(())
}
