//! Errors and refusals as texts.

use crate::outcomes::AnyError;
use crate::same::same;
use cfg_base::span::Span;
use cfg_base::symbol::PIdx;
use lrpar::{DefaultLexeme, LRLexError, ParseError, ParseRefusal};
use lrtable::statetable::{StateTableError, StateTableErrorKind};
use lrtable::{FromYaccError, Minimiser, StIdx};
use std::alloc::{AllocError, Global};
use std::fmt::Display;
use std::test::*;

/// Adds a line with what a value prints, and drops it.
fn push_display<D: Display + Drop>(
    alloc: Global,
    out: &mut String,
    value: D,
) -> Result<(), AllocError> {
    let text = format!(in alloc; "{value}\n");
    drop(value);
    out.push_str(text?.as_str())
}

/// Returns a lexeme.
fn lexeme() -> DefaultLexeme<u8> {
    DefaultLexeme {
        tok_id: 0,
        span: Span::new(2, 3),
        faulty: false,
    }
}

/// Returns an error at a lexeme without repairs.
fn error_at_lexeme(alloc: Global) -> ParseError<DefaultLexeme<u8>, u8> {
    ParseError {
        stidx: StIdx(1),
        lexeme: lexeme(),
        repairs: Vec::new(alloc),
    }
}

/// Adds the texts of errors.
fn push_errors(alloc: Global, out: &mut String) -> Result<(), AllocError> {
    let span = Span::new(2, 3);
    push_display(alloc, out, error_at_lexeme(alloc))?;
    push_display(alloc, out, AnyError::from(error_at_lexeme(alloc)))?;
    push_display(alloc, out, AnyError::from(LRLexError { span }))
}

const CONFLICT: StateTableError<u8> = StateTableError {
    kind: StateTableErrorKind::AcceptReduceConflict,
    pidx: PIdx(3),
};

/// Adds the texts of refusals.
fn push_refusals(alloc: Global, out: &mut String) -> Result<(), AllocError> {
    push_display(alloc, out, FromYaccError::StateTable(CONFLICT))?;
    push_display(alloc, out, FromYaccError::<u8>::TooManyStates(256))?;
    push_display(alloc, out, FromYaccError::<u8>::TooLarge)?;
    push_display(alloc, out, FromYaccError::<u8>::Memory(AllocError))?;
    push_display(alloc, out, ParseRefusal::LexemeOutside(1))?;
    push_display(alloc, out, ParseRefusal::StartDecreases(1))?;
    push_display(alloc, out, ParseRefusal::Memory(AllocError))?;
    let minimiser = Minimiser::Pager;
    let lexeme = lexeme();
    out.push_str(format!(in alloc; "{minimiser:?} {CONFLICT:?} {lexeme:?}\n")?.as_str())
}

/// Returns the texts of errors and of refusals.
fn texts(alloc: Global) -> Result<String, AllocError> {
    let mut out = String::new(alloc);
    push_errors(alloc, &mut out)?;
    push_refusals(alloc, &mut out)?;
    Ok(out)
}

const TEXTS: &str =
    "Parse error at lexeme DefaultLexeme { tok_id: 0, span: Span { start: 2, end: 3 }, faulty: false }
Parse error at lexeme DefaultLexeme { tok_id: 0, span: Span { start: 2, end: 3 }, faulty: false }
Couldn't lex input starting at byte 2
Accept/reduce conflict
TooManyStates
TooLarge
Memory
LexemeOutside
StartDecreases
Memory
Pager StateTableError { kind: AcceptReduceConflict, pidx: PIdx(3) } DefaultLexeme { tok_id: 0, span: Span { start: 2, end: 3 }, faulty: false }
";

#[test]
fn errors_and_refusals_have_texts(rt: HostRuntime) -> Result<(), Fail> {
    same(&rt, "texts", texts(rt.alloc())?.as_str(), TEXTS);
    Ok(())
}
