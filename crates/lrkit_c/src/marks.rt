//! Errors of a parse as a list of marks.

ghost use Rattle.std.specs.Prelude.{◌≡◌, IfOk, map};
ghost use Rattle.std.specs.List.{flat_map};
ghost use Rattle.lrkit_c.specs.Marks.{error_marks, fault_mark, lexeme_mark, repair_marks, step_mark, token_mark};

use lrlex::{DefaultLexeme, LRLexError};
use lrpar::ParseRepair;
use std::alloc::{AllocError, Global};
use text_parses::WordError;

/// A part of what a call says of an error.
#[repr(C)]
#[derive(Clone, Copy)]
pub struct LrkitMark {
    /// 0 an error, 1 a token that may come there, 2 the beginning of a repair; its steps: 3 an insertion, 4 a deletion, 5 a shift.
    pub kind: u32,
    /// The token's number; `UINT32_MAX` where there is none.
    pub token: u32,
    /// The byte offset at which the lexeme begins; 0 where there is none.
    pub start: usize,
    /// The byte offset at which it ends.
    pub end: usize,
}

/// A step of a repair.
pub type Step = ParseRepair<DefaultLexeme<u32>, u32>;

/// Returns the mark of a kind at a lexeme.
fn lexeme_mark(kind: u32, lexeme: DefaultLexeme<u32>) -> LrkitMark
    ensures { result ≡ lexeme_mark kind lexeme }
{
    LrkitMark {
        kind,
        token: lexeme.tok_id,
        start: lexeme.span.start(),
        end: lexeme.span.end(),
    }
}

/// Returns the mark of a kind and a token, which is at no part of the text.
fn token_mark(kind: u32, token: u32) -> LrkitMark
    ensures { result ≡ token_mark kind token }
{
    LrkitMark {
        kind,
        token,
        start: 0,
        end: 0,
    }
}

/// Returns the mark of an error of the lexer.
pub fn fault_mark(error: LRLexError) -> LrkitMark
    ensures { result ≡ fault_mark error }
{
    LrkitMark {
        kind: 0,
        token: u32::MAX,
        start: error.span.start(),
        end: error.span.end(),
    }
}

/// Returns the mark of a step.
fn step_mark(step: Step) -> LrkitMark
    ensures { result ≡ step_mark step }
{
    match step {
        ParseRepair::Insert(token) => token_mark(3, token.0),
        ParseRepair::Delete(lexeme) => lexeme_mark(4, lexeme),
        ParseRepair::Shift(lexeme) => lexeme_mark(5, lexeme),
    }
}

/// Returns the marks of a repair: its beginning and its steps.
fn marks_of_repair(alloc: Global, steps: &[Step]) -> Result<Vec<LrkitMark>, AllocError>
    ensures { IfOk result (λ v. v.items ≡ repair_marks steps.now) }
{
    let mut marks = Vec::new(alloc);
    marks.push(token_mark(2, u32::MAX))?;
    'steps: for index in 0..steps.len() {
        marks.push(step_mark(steps[index]))?;
    }
    Ok(marks)
}

/// Returns the marks of repairs, one behind the other.
fn marks_of_repairs(alloc: Global, repairs: &[Vec<Step>]) -> Result<Vec<LrkitMark>, AllocError>
    ensures { IfOk result (λ v. v.items ≡ flat_map (λ r. repair_marks r.items) repairs.now) }
{
    let mut marks = Vec::new(alloc);
    'repairs: for index in 0..repairs.len() {
        let made = marks_of_repair(alloc, repairs[index].as_slice())?;
        marks.extend_from_slice(made.as_slice())?;
    }
    Ok(marks)
}

/// Returns the marks of tokens that may come.
fn marks_of_tokens(alloc: Global, numbers: &[u32]) -> Result<Vec<LrkitMark>, AllocError>
    ensures { IfOk result (λ v. v.items ≡ map (token_mark 1) numbers.now) }
{
    let mut marks = Vec::new(alloc);
    'tokens: for index in 0..numbers.len() {
        marks.push(token_mark(1, numbers[index]))?;
    }
    Ok(marks)
}

/// Returns the marks of an error: its place, the tokens that may come there, and its repairs in their order.
pub fn marks_of_error(
    alloc: Global,
    numbers: &[u32],
    error: &WordError,
) -> Result<Vec<LrkitMark>, AllocError>
    ensures { IfOk result (λ v. v.items ≡ error_marks numbers.now error.now) }
{
    let mut marks = Vec::new(alloc);
    marks.push(lexeme_mark(0, error.lexeme))?;
    let tokens = marks_of_tokens(alloc, numbers)?;
    marks.extend_from_slice(tokens.as_slice())?;
    let repairs = marks_of_repairs(alloc, error.repairs.as_slice())?;
    marks.extend_from_slice(repairs.as_slice())?;
    Ok(marks)
}
