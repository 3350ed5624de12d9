//! Which errors can be shown over a text.

ghost use Rattle.std.specs.Prelude.{IsTrue, map};
ghost use Rattle.std.specs.List.{AllByRecursion};
ghost use Rattle.parse_trees.specs.Shown.{shown_of, shown_lists};
ghost use Rattle.parse_trees.specs.ErrorTexts.{FitsInput, EditFits};
ghost use Rattle.lrpar.specs.ErrorTexts.{ErrorFits};

use cfg_base::index::IndexStorage;
use cfg_base::span::Span;
use lrpar::{LexError, LexParseError, Lexeme, LexerTypes, ParseRepair};

/// Says whether a span goes from the start of a character to that of another.
fn span_fits(text: &str, span: Span) -> bool
    ensures { IsTrue result → FitsInput text.now span.start span.end }
{
    if !text.is_char_boundary(span.start()) {
        return false;
    }
    text.is_char_boundary(span.end())
}

/// Says whether what is shown of a step fits the text.
fn step_fits<L: Lexeme<S>, S: IndexStorage>(text: &str, repair: &ParseRepair<L, S>) -> bool
    ensures { IsTrue result → EditFits text.now L.lex (shown_of S.number repair.now) }
{
    match repair {
        ParseRepair::Insert(_) => true,
        ParseRepair::Delete(lexeme) => span_fits(text, lexeme.span()),
        ParseRepair::Shift(lexeme) => span_fits(text, lexeme.span()),
    }
}

/// Says whether what is shown of a sequence fits the text.
fn sequence_fits<L: Lexeme<S>, S: IndexStorage>(text: &str, repairs: &[ParseRepair<L, S>]) -> bool
    ensures { IsTrue result → AllByRecursion (EditFits text.now L.lex) (map (shown_of S.number) repairs.now) }
{
    'repairs: for i in 0..repairs.len() {
        if !step_fits(text, &repairs[i]) {
            return false;
        }
    }
    true
}

/// Says whether what is shown of sequences fits the text.
fn lists_fit<L: Lexeme<S>, S: IndexStorage>(text: &str, lists: &[Vec<ParseRepair<L, S>>]) -> bool
    ensures { IsTrue result → AllByRecursion (AllByRecursion (EditFits text.now L.lex)) (shown_lists S.number lists.now) }
{
    'lists: for i in 0..lists.len() {
        if !sequence_fits(text, lists[i].as_slice()) {
            return false;
        }
    }
    true
}

/// Says whether an error can be shown over the text.
pub fn error_fits<T: LexerTypes>(text: &str, error: &LexParseError<T>) -> bool
    ensures { IsTrue result → ErrorFits T.StorageT.number text.now T.LexemeT.lex T.LexErrorT.places error.now }
{
    match error {
        LexParseError::LexError(error) => error.span().end() <= text.len(),
        LexParseError::ParseError(error) => {
            error.lexeme.span().end() <= text.len() && lists_fit(text, error.repairs.as_slice())
        }
    }
}
