//! Why no parser is made of a grammar with a production that may be reduced where a text has ended.

ghost use Rattle.std.specs.Prelude.{◌≡◌, IfOk, List, None, OnOk, codes};
ghost use Rattle.cfg_read.specs.Files.{FailsToTell};
ghost use Rattle.cfg_read.specs.Validity.{FailureText};
ghost use Rattle.text_messages.specs.Added.{AddsOne};
ghost use Rattle.grammar_report.specs.Places.{production_place};
ghost use Rattle.grammar_report.specs.Messages.{IsError, IsKeptOf};

use crate::production_places::production_span;
use cfg_base::symbol::PIdx;
use cfg_numbered::yacc::NumberedGrammar;
use cfg_read::yacc::{
    ASTWithValidityInfo, YaccGrammarFailure, YaccKind, YaccOriginalActionKind, kind_of,
};
use cfgrammar::yacc::{YaccGrammar, YaccGrammarMakeError};
use conflict_examples::accept_reduce;
use grammar_names::push_prod;
use refused_tables::{push_derivation, push_example};
use std::alloc::{AllocError, Global};
use text_messages::{Message, Messages, Severity};

/// Yacc's own syntax with trees.
const DEFAULT: YaccKind = YaccKind::Original(YaccOriginalActionKind::GenericParseTree);

/// Returns the kind that a text's section names, else that of Yacc's own syntax with trees; none where the section is faulty.
pub(crate) fn told_kind(alloc: Global, text: &str) -> Result<Option<YaccKind>, AllocError>
    ensures { IfOk result (λ o. o ≡ None → (fs : List FailureText) × FailsToTell text.now fs) }
{
    match kind_of(alloc, text) {
        Ok(Some(kind)) => Ok(Some(kind)),
        Ok(None) => Ok(Some(DEFAULT)),
        Err(YaccGrammarFailure::Memory(e)) => Err(e),
        Err(YaccGrammarFailure::Invalid(errors)) => {
            drop(errors);
            Ok(None)
        }
    }
}

/// Returns the kind that a text's section names, else that of Yacc's own syntax with trees.
fn kind_or_default(alloc: Global, text: &str) -> Result<YaccKind, AllocError> {
    let told = told_kind(alloc, text)?;
    Ok(told.unwrap_or(DEFAULT))
}

/// Returns what is kept of a text, of the kind that its section names, else of Yacc's own syntax with trees.
pub(crate) fn kept_of(alloc: Global, source: &str) -> Result<ASTWithValidityInfo, AllocError>
    ensures { IfOk result (IsKeptOf source.now) }
{
    let kind = kind_or_default(alloc, source)?;
    ASTWithValidityInfo::new(alloc, kind, source)
}

/// The grammar of what is kept of a text, if it has one.
pub(crate) fn grammar_of(
    alloc: Global,
    kept: &ASTWithValidityInfo,
) -> Result<Option<NumberedGrammar<u32>>, AllocError> {
    match YaccGrammar::new_from_ast_with_validity_info(alloc, kept) {
        Ok(grm) => Ok(Some(grm.into_numbered())),
        Err(YaccGrammarMakeError::Memory(e)) => Err(e),
        Err(_) => Ok(None),
    }
}

/// Adds which production is to be reduced and why, and an example to a second text.
fn push_cause(
    alloc: Global,
    words: &mut String,
    shown: &mut String,
    grm: &NumberedGrammar<u32>,
    pidx: PIdx<u32>,
) -> Result<(), AllocError> {
    words.push_str(": where a text has ended, reduce ")?;
    push_prod(words, grm, pidx)?;
    let example = accept_reduce(alloc, grm, pidx)?;
    match &example {
        Some(example) => {
            words.push_str(", since")?;
            push_derivation(alloc, words, grm, example.second.spine.as_slice())?;
            push_example(alloc, shown, grm, example, pidx, None)
        }
        None => shown.push_str("  No example was found.\n"),
    }
}

/// Adds the cause by the grammar of what is kept of a text, if it has one.
fn push_cause_in(
    alloc: Global,
    words: &mut String,
    shown: &mut String,
    kept: &ASTWithValidityInfo,
    pidx: PIdx<u32>,
) -> Result<(), AllocError> {
    let Some(grm) = grammar_of(alloc, kept)? else {
        return Ok(());
    };
    let pushed = push_cause(alloc, words, shown, &grm, pidx);
    drop(grm);
    pushed
}

/// Adds that a production may be reduced where a text has ended, how the start rule derives itself, and an example.
pub(crate) fn push_ending(
    alloc: Global,
    messages: &mut Messages<'_>,
    kept: &ASTWithValidityInfo,
    pidx: PIdx<u32>,
) -> Result<(), AllocError>
    ensures { OnOk result (AddsOne (IsError messages.old.text (production_place kept.now.ast pidx.0) (codes "accept/reduce conflict")) messages.old messages.new) }
{
    let (mut cause, mut shown) = (String::new(alloc), String::new(alloc));
    push_cause_in(alloc, &mut cause, &mut shown, kept, pidx)?;
    let words = format!(in alloc; "accept/reduce conflict{cause}")?;
    let span = production_span(kept.ast(), pidx);
    let mut message = Message::new(Severity::Error, span, words);
    message.example = Some(shown);
    messages.push(message)
}
