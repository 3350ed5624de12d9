//! Why no parser is made of a grammar whose table reduces without end.

ghost use Rattle.std.specs.Prelude.{◌≡◌, OnOk, Option, string_bytes};
ghost use Rattle.cfg_base.specs.SpanModel.{SpanModel};
ghost use Rattle.text_messages.specs.Added.{AddsOne};
ghost use Rattle.text_messages.specs.Places.{BeginsWith};
ghost use Rattle.grammar_report.specs.Messages.{IsError, chain_words};

use crate::accept_reduce::grammar_of;
use crate::production_places::production_span;
use cfg_read::yacc::ASTWithValidityInfo;
use refused_tables::{Beginning, push_cycle};
use std::alloc::{AllocError, Global};
use text_messages::{Message, Messages, Severity};

/// Explains an error by the grammar of what is kept of a text.
fn explain(
    alloc: Global,
    message: &mut Message,
    kept: &ASTWithValidityInfo,
    beginning: Beginning,
) -> Result<(), AllocError>
    ensures severity { OnOk result (message.new.severity ≡ message.old.severity) }
    ensures words { OnOk result (BeginsWith (string_bytes message.old.words) (string_bytes message.new.words)) }
{
    let Some(grm) = grammar_of(alloc, kept)? else {
        return Ok(());
    };
    let mut help = String::new(alloc);
    let first = push_cycle(alloc, &mut message.words, &mut help, &grm, beginning);
    drop(grm);
    if let Some(pidx) = first? {
        message.span = production_span(kept.ast(), pidx);
        message.help = Some(help);
    }
    Ok(())
}

/// Adds an error that reductions go round, with their productions and where they begin.
pub(crate) fn push_long_chain(
    alloc: Global,
    messages: &mut Messages<'_>,
    kept: &ASTWithValidityInfo,
    cap: u16,
    beginning: Beginning,
) -> Result<(), AllocError>
    ensures { OnOk result (AddsOne (λ m. (place : Option SpanModel) × IsError messages.old.text place (chain_words cap) m) messages.old messages.new) }
{
    let words = format!(in alloc; "more than {cap} reductions follow each other")?;
    let mut message = Message::new(Severity::Error, None, words);
    match explain(alloc, &mut message, kept, beginning) {
        Ok(()) => messages.push(message),
        Err(e) => {
            drop(message);
            Err(e)
        }
    }
}
