//! Values and errors of parses as texts.

use cfg_base::index::{IndexOrder, IndexStorage};
use cfg_base::span::Span;
use cfg_base::symbol::{PIdx, RIdx};
use lrpar::{
    DefaultLexeme, DefaultLexerTypes, FlatTree, FoldedOutcome, LRLexError, LexParseError, Lexeme,
    ParseError, ParseRefusal,
};
use std::alloc::{AllocError, Global};

/// Returns a lexeme as its token and its start.
pub fn leaf<S: IndexStorage>(
    alloc: Global,
    lexeme: DefaultLexeme<S>,
) -> Result<String, AllocError> {
    let token = lexeme.tok_id.to_usize();
    let start = lexeme.span.start();
    format!(in alloc; "{token}@{start}")
}

/// Returns a text, and behind it the texts of children in brackets.
pub fn over(mut text: String, args: Vec<String>) -> Result<String, AllocError> {
    text.push('(')?;
    for arg in args.as_slice() {
        text.push(' ')?;
        text.push_str(arg.as_str())?;
    }
    text.push_str(" )")?;
    Ok(text)
}

/// Returns a node as its production, its rule and span, and its children.
pub fn branch<S: IndexStorage>(
    alloc: Global,
    pidx: PIdx<S>,
    ridx: RIdx<S>,
    span: Span,
    args: Vec<String>,
) -> Result<String, AllocError> {
    let production = pidx.0.to_usize();
    let rule = ridx.0.to_usize();
    let start = span.start();
    let end = span.end();
    over(
        format!(in alloc; "{production}:{rule}[{start},{end}]")?,
        args,
    )
}

/// Returns a node as its rule and its children.
pub fn by_rule<S: IndexStorage>(
    alloc: Global,
    ridx: RIdx<S>,
    args: Vec<String>,
) -> Result<String, AllocError> {
    let rule = ridx.0.to_usize();
    over(format!(in alloc; "{rule}")?, args)
}

/// Adds errors: the lexeme of each, and whether that was made up.
fn push_errors<S: IndexStorage>(
    alloc: Global,
    text: &mut String,
    errors: &[ParseError<DefaultLexeme<S>, S>],
) -> Result<(), AllocError> {
    for error in errors {
        let token = error.lexeme.tok_id.to_usize();
        let start = error.lexeme.span.start();
        let faulty = if error.lexeme.faulty { " faulty" } else { "" };
        text.push_str(format!(in alloc; "; error at {token}@{start}{faulty}")?.as_str())?;
    }
    Ok(())
}

/// Returns what a parse yields: its value, or that there is none, and its errors.
pub fn folded_text<S: IndexStorage>(
    alloc: Global,
    outcome: &Result<FoldedOutcome<S, DefaultLexeme<S>, LRLexError, String>, ParseRefusal>,
) -> Result<String, AllocError> {
    match outcome {
        Err(ParseRefusal::Memory(e)) => Err(*e),
        Err(ParseRefusal::LexemeOutside(index)) => format!(in alloc; "outside {index}"),
        Err(ParseRefusal::StartDecreases(index)) => format!(in alloc; "decreases {index}"),
        Ok(FoldedOutcome::Fault(_)) => String::from_str(alloc, "fault"),
        Ok(FoldedOutcome::Parsed(value, errors)) => {
            let value = match value {
                Some(value) => value.as_str(),
                None => "none",
            };
            let mut text = String::from_str(alloc, value)?;
            push_errors(alloc, &mut text, errors.as_slice())?;
            Ok(text)
        }
    }
}

/// Returns what a parse by rule yields: its value, and how many errors there are.
pub fn mapped_text<S: IndexOrder>(
    alloc: Global,
    outcome: &Result<(Option<String>, Vec<LexParseError<DefaultLexerTypes<S>>>), ParseRefusal>,
) -> Result<String, AllocError> {
    match outcome {
        Err(ParseRefusal::Memory(e)) => Err(*e),
        Err(_) => String::from_str(alloc, "refused"),
        Ok((Some(value), errors)) if errors.is_empty() => value.clone(),
        Ok((value, errors)) => {
            let count = errors.len();
            let value = if value.is_some() { "value" } else { "none" };
            format!(in alloc; "{value}, {count} errors")
        }
    }
}

type Flat<S> = (
    Option<FlatTree<S, DefaultLexeme<S>>>,
    Vec<ParseError<DefaultLexeme<S>, S>>,
);

/// Returns what a parse to a flat tree yields: how many nodes there are.
pub fn flat_text<S: IndexOrder>(
    alloc: Global,
    outcome: &Result<Result<Flat<S>, LRLexError>, ParseRefusal>,
) -> Result<String, AllocError> {
    match outcome {
        Ok(Ok((Some(tree), _))) => {
            let count = tree.nodes().len();
            format!(in alloc; "{count} nodes")
        }
        Ok(Ok((None, _))) => String::from_str(alloc, "none"),
        Err(ParseRefusal::Memory(e)) => Err(*e),
        _ => String::from_str(alloc, "refused"),
    }
}
