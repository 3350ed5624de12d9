//! Errors of lexing and of parsing.

ghost use Rattle.std.specs.Prelude.{◌≡◌, ◌&&◌, ℕ, List, IfOk, map, string_bytes};
ghost use Rattle.std.specs.Cmp.Lexicographic.{pointwise};
ghost use Rattle.parse_trees.specs.ErrorTexts.{AnswersNames};
ghost use Rattle.parse_trees.specs.RepairParts.{repair_eq};
ghost use Rattle.lrpar.specs.ErrorTexts.{ErrorFits, error_text};
ghost use Rattle.lrpar.specs.declared.parse_error.LexParseError.TheVariants as errors;

use cfg_base::index::IndexStorage;
use cfg_base::symbol::TIdx;
use parse_trees::error_texts::{lexing_text, parsing_text};
use parse_trees::lex_api::{LexError, Lexeme, LexerTypes, NonStreamingLexer};
use parse_trees::parse_repair::{ParseRepair, repair_is_its_kind_and_part};
use state_table::StIdx;
use std::alloc::{AllocError, Global};
use std::error::Error;
use std::fmt;
use std::fmt::{Debug, Display, Formatter, Write};
use std::hash::Hash;

/// An error of a parse.
#[derive(Clone, Debug, Drop, PartialEq)]
pub struct ParseError<L, S> {
    /// The state on top of the stack.
    pub stidx: StIdx<S>,
    /// The next lexeme, or past the last one a lexeme of the end token.
    pub lexeme: L,
    /// The sequences of repairs that can be taken there, in the order in which they were passed.
    pub repairs: Vec<Vec<ParseRepair<L, S>>>,
}

/// Proves that errors are equal where their states, their lexemes and all their repairs are, and that a clone has the parts of
/// the error that was cloned, where that holds for clones of lexemes and numbers.
pub fn error_is_its_parts<L: Clone + Eq + Hash, S: Clone + Eq + Hash>()
    ensures equal { (a b : ParseError L S) → ⟦<ParseError<L, S> as PartialEq>⟧.eq a b ≡
        (S.eq a.stidx.0 b.stidx.0 && (L.eq a.lexeme b.lexeme && pointwise (λ r s. pointwise (repair_eq L.eq S.eq) r.items s.items) a.repairs.items b.repairs.items)) }
    ensures clone { ((x y : L) → L.is_clone x y → y ≡ x) → ((x y : S) → S.is_clone x y → y ≡ x) →
        (a b : ParseError L S) → ⟦<ParseError<L, S> as Clone>⟧.is_clone a b →
        (b.stidx ≡ a.stidx) × (b.lexeme ≡ a.lexeme) × (map (λ r. r.items) b.repairs.items ≡ map (λ r. r.items) a.repairs.items) }
{
    repair_is_its_kind_and_part::<L, S>();
}

impl<L: Copy, S: Copy> ParseError<L, S> {
    /// Returns the state on top of the stack.
    pub fn stidx(&self) -> StIdx<S>
        ensures { result ≡ self.now.stidx }
    {
        self.stidx
    }

    /// Returns the next lexeme, or past the last one a lexeme of the end token.
    pub fn lexeme(&self) -> &L
        ensures { result.now ≡ self.now.lexeme }
    {
        &self.lexeme
    }

    /// Returns the sequences of repairs that can be taken there, in the order in which they were passed.
    pub fn repairs(&self) -> &Vec<Vec<ParseRepair<L, S>>>
        ensures { result.now ≡ self.now.repairs }
    {
        &self.repairs
    }
}

impl<L: Debug, S> Display for ParseError<L, S> {
    fn fmt<W: Write>(&self, f: &mut Formatter<W>) -> fmt::Result {
        write!(f, "Parse error at lexeme {:?}", self.lexeme)
    }
}

impl<L: Debug + Drop, S: Debug + Drop> Error for ParseError<L, S> {}

/// An error of lexing or of parsing.
#[derive(Drop)]
pub enum LexParseError<T: LexerTypes> {
    /// An error of lexing.
    LexError(T::LexErrorT),
    /// An error of parsing.
    ParseError(ParseError<T::LexemeT, T::StorageT>),
}

impl<T: LexerTypes> LexParseError<T> {
    /// Returns the error as text: its line and column, both counted from 1, and for a parse error the sequences
    /// of repairs that can be taken. `epp` returns the printed text of a token; one without is shown by its
    /// number.
    pub fn pp<
        'input,
        X: NonStreamingLexer<'input, T>,
        F: Fn(TIdx<T::StorageT>) -> Option<&'input str>,
    >(&self, alloc: Global, lexer: &X, epp: &F) -> Result<String, AllocError>
        requires names { F.IsAlwaysCallable epp.now }
        requires fits { ErrorFits T.StorageT.number (X.text lexer.now) T.LexemeT.lex T.LexErrorT.places self.now }
        ensures { IfOk result (λ text. (names : ℕ → List ℕ) → AnswersNames T.StorageT.number (F.post epp.now) names → string_bytes text ≡ error_text T.StorageT.number (X.text lexer.now) T.LexemeT.lex T.LexErrorT.places names self.now) }
    {
        match self {
            LexParseError::LexError(error) => {
                let text = lexing_text(alloc, lexer, error.span())?;
                Ok(text)
            }
            LexParseError::ParseError(error) => {
                let text = parsing_text(alloc, lexer, epp, error.lexeme, error.repairs.as_slice())?;
                Ok(text)
            }
        }
    }
}

impl<T: LexerTypes> Debug for LexParseError<T> {
    fn fmt<W: Write>(&self, f: &mut Formatter<W>) -> fmt::Result {
        match self {
            LexParseError::LexError(e) => f.debug_tuple("LexError").field(e).finish(),
            LexParseError::ParseError(e) => f.debug_tuple("ParseError").field(e).finish(),
        }
    }
}

impl<T: LexerTypes> Display for LexParseError<T> {
    fn fmt<W: Write>(&self, f: &mut Formatter<W>) -> fmt::Result {
        match self {
            LexParseError::LexError(e) => write!(f, "{e}"),
            LexParseError::ParseError(e) => write!(f, "{e}"),
        }
    }
}

impl<T: LexerTypes> Error for LexParseError<T> {}

impl<T: LexerTypes> From<ParseError<T::LexemeT, T::StorageT>> for LexParseError<T> {
    ghost from_gives = { λ e r. r ≡ errors.ParseError e };

    fn from(e: ParseError<T::LexemeT, T::StorageT>) -> LexParseError<T> {
        LexParseError::ParseError(e)
    }
}

impl<E: LexError, T: LexerTypes<LexErrorT = E>> From<E> for LexParseError<T> {
    ghost from_gives = { λ e r. r ≡ errors.LexError e };

    fn from(e: E) -> LexParseError<T> {
        LexParseError::LexError(e)
    }
}
