//! Lexemes, nodes and repairs as texts.

use cfg_base::span::Span;
use cfg_base::symbol::{PIdx, RIdx};
use lrpar::{DefaultLexeme, ParseRepair};
use std::alloc::{AllocError, Global};

/// Returns a lexeme as its token and its start.
pub fn leaf(alloc: Global, lexeme: DefaultLexeme<u8>) -> Result<String, AllocError> {
    let token = lexeme.tok_id;
    let start = lexeme.span.start();
    format!(in alloc; "{token}@{start}")
}

/// Returns a node as its production, its rule and span, and its children.
pub fn branch(
    alloc: Global,
    pidx: PIdx<u8>,
    ridx: RIdx<u8>,
    span: Span,
    args: &[String],
) -> Result<String, AllocError> {
    let production = pidx.0;
    let rule = ridx.0;
    let start = span.start();
    let end = span.end();
    let mut text = format!(in alloc; "{production}:{rule}[{start},{end}](")?;
    for arg in args {
        text.push(' ')?;
        text.push_str(arg.as_str())?;
    }
    text.push_str(" )")?;
    Ok(text)
}

/// Returns a repair.
pub fn repair_text(
    alloc: Global,
    repair: ParseRepair<DefaultLexeme<u8>, u8>,
) -> Result<String, AllocError> {
    let (word, lexeme) = match repair {
        ParseRepair::Insert(tidx) => {
            let token = tidx.0;
            return format!(in alloc; " insert {token}");
        }
        ParseRepair::Delete(lexeme) => ("delete", lexeme),
        ParseRepair::Shift(lexeme) => ("shift", lexeme),
    };
    let token = lexeme.tok_id;
    let start = lexeme.span.start();
    format!(in alloc; " {word} {token}@{start}")
}
