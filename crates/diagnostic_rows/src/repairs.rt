//! Texts of errors of lexing and of parsing.

ghost use Rattle.std.specs.Prelude.{◌≡◌, IfSome};

use crate::fitting::error_fits;
use crate::lines::push_lines;
use crate::spans::{push_unknown, span_of};
use cfg_base::span::Span;
use cfg_base::symbol::TIdx;
use lrpar::{
    DefaultLexeme, DefaultLexerTypes, LRLexError, LexParseError, ParseError, ParseRepair, TextLexer,
};
use lrtable::StIdx;
use std::alloc::{AllocError, Global};

type RowRepair = ParseRepair<DefaultLexeme<u8>, u8>;

type RowsError = LexParseError<DefaultLexerTypes<u8>>;

fn lexeme_at(span: Span) -> DefaultLexeme<u8> {
    DefaultLexeme {
        tok_id: 0,
        span,
        faulty: false,
    }
}

/// The step of a word: `d1-2` deletes and `s1-2` shifts the lexeme there, `i3` inserts the token of that number.
fn step_of(word: &str) -> Option<RowRepair> {
    if let Some(place) = word.strip_prefix('d') {
        return Some(ParseRepair::Delete(lexeme_at(span_of(place)?)));
    }
    if let Some(place) = word.strip_prefix('s') {
        return Some(ParseRepair::Shift(lexeme_at(span_of(place)?)));
    }
    let token: u8 = word.strip_prefix('i')?.parse().ok()?;
    Some(ParseRepair::Insert(TIdx(token)))
}

/// The sequence of a word such as `d1-2,i0`.
fn sequence_of(alloc: Global, word: &str) -> Result<Vec<RowRepair>, AllocError> {
    let mut steps = Vec::new(alloc);
    for part in word.split(',') {
        if let Some(step) = step_of(part) {
            steps.push(step)?;
        }
    }
    Ok(steps)
}

/// An error of parsing with a sequence for each word.
fn error_at(alloc: Global, span: Span, words: &str) -> Result<RowsError, AllocError> {
    let mut repairs = Vec::new(alloc);
    for word in words.split_whitespace() {
        repairs.push(sequence_of(alloc, word)?)?;
    }
    Ok(LexParseError::ParseError(ParseError {
        stidx: StIdx(0),
        lexeme: lexeme_at(span),
        repairs,
    }))
}

/// The text of an error, if it fits the text that it is told of.
fn push_error(
    alloc: Global,
    out: &mut String,
    text: &str,
    error: &RowsError,
) -> Result<(), AllocError> {
    if !error_fits(text, error) {
        return out.push_str("it doesn't fit\n");
    }
    let lexer = TextLexer::<DefaultLexerTypes<u8>>::new(alloc, text, Vec::new(alloc))?;
    let epp = |tidx: TIdx<u8>| match tidx.0 {
        0 => Some("y"),
        1 => Some("z"),
        _ => None,
    };
    let told = error.pp(alloc, &lexer, &epp);
    drop(lexer);
    push_lines(out, told?.as_str())
}

/// The text of an error of parsing at the place that the first word tells, with a sequence for each further word.
pub fn push_parsing(
    alloc: Global,
    out: &mut String,
    text: &str,
    words: &str,
) -> Result<(), AllocError> {
    let (place, sequences) = words.split_once(' ').unwrap_or((words, ""));
    let Some(span) = span_of(place) else {
        return push_unknown(out);
    };
    let error = error_at(alloc, span, sequences)?;
    let pushed = push_error(alloc, out, text, &error);
    drop(error);
    pushed
}

/// The text of an error of lexing at the place that a word tells.
pub fn push_lexing(
    alloc: Global,
    out: &mut String,
    text: &str,
    word: &str,
) -> Result<(), AllocError> {
    match span_of(word) {
        Some(span) => push_error(
            alloc,
            out,
            text,
            &LexParseError::LexError(LRLexError { span }),
        ),
        None => push_unknown(out),
    }
}
