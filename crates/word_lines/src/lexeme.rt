//! Words as lexemes.

use cfg_base::index::{IndexOrder, IndexStorage};
use cfg_base::span::Span;
use lrpar::{LexError, Lexeme, LexerTypes};
use std::error::Error;
use std::fmt;
use std::fmt::{Debug, Display, Formatter, Write};
use std::hash::Hash;
use std::marker::PhantomData;

/// A word of a line that is a token's name, or a lexeme that a repair made up. It is shown as `WordLexeme[S..E]`, by the offsets
/// of its first byte and of the one behind its last.
#[derive(Clone, Copy, PartialEq, Eq, Hash)]
pub struct WordLexeme<S> {
    /// The token's number.
    pub token: S,
    /// Whether it was made up.
    pub faulty: bool,
    /// The word's bytes in the line.
    pub span: Span,
}

// Prints the fields as a derived one would, with `faulty` last. The fields' own order saves room.
impl<S: IndexStorage> Debug for WordLexeme<S> {
    fn fmt<W: Write>(&self, f: &mut Formatter<W>) -> fmt::Result {
        let token = self.token;
        let span = self.span;
        let faulty = self.faulty;
        write!(
            f,
            "WordLexeme {{ token: {token:?}, span: {span:?}, faulty: {faulty:?} }}"
        )
    }
}

impl<S: IndexStorage> Display for WordLexeme<S> {
    ghost use Rattle.std.specs.Prelude.{Some};
    ghost use Rattle.word_lines.specs.LexemeTexts.{lexeme_text};

    ghost output = { λ x. Some (lexeme_text x.span) };

    fn fmt<W: Write>(&self, f: &mut Formatter<W>) -> fmt::Result {
        let start = self.span.start();
        let end = self.span.end();
        write!(f, "WordLexeme[{start}..{end}]")
    }
}

impl<S: IndexOrder> Lexeme<S> for WordLexeme<S> {
    ghost use Rattle.std.specs.Prelude.{true, ◌+◌};
    ghost use Rattle.std.proofs.Common.{ap};
    ghost use Rattle.parse_trees.specs.Lex.{lex_at};
    ghost use Rattle.word_lines.specs.Lexing.{lex_of};

    ghost lex = { lex_of S.number };

    ghost faulty_of = { λ token start len. record { token = S.of_number token; span = record { start = start; end = start + len }; faulty = true } };

    ghost faulty_is = { λ token start len fits. ap (λ n. lex_at n start len true) (S.of_number_is token fits) };

    fn new(tok_id: S, start: usize, len: usize) -> Self {
        WordLexeme {
            token: tok_id,
            span: Span::new(start, start + len),
            faulty: false,
        }
    }

    fn new_faulty(tok_id: S, start: usize, len: usize) -> Self {
        // Read, so that the proof may use that the number fits.
        tok_id.to_usize();
        WordLexeme {
            token: tok_id,
            span: Span::new(start, start + len),
            faulty: true,
        }
    }

    fn tok_id(&self) -> S {
        self.token
    }

    fn span(&self) -> Span {
        self.span
    }

    fn faulty(&self) -> bool {
        self.faulty
    }
}

/// A word that is no token's name.
#[derive(Clone, Copy, Debug, PartialEq, Eq)]
pub struct WordLexError {
    /// The word's bytes in the line.
    pub span: Span,
}

impl Display for WordLexError {
    ghost use Rattle.std.specs.Prelude.{Some};
    ghost use Rattle.word_lines.specs.LexemeTexts.{lex_error_text};

    ghost output = { λ e. Some (lex_error_text e.span) };

    fn fmt<W: Write>(&self, f: &mut Formatter<W>) -> fmt::Result {
        let start = self.span.start();
        write!(f, "Couldn't lex input starting at byte {start}")
    }
}

impl Error for WordLexError {}

impl LexError for WordLexError {
    ghost places = { λ e. e.span };

    fn span(&self) -> Span {
        self.span
    }
}

/// The types of a lexer of words.
pub struct WordLexerTypes<S> {
    storage: PhantomData<S>,
}

impl<S: IndexOrder> LexerTypes for WordLexerTypes<S> {
    type LexemeT = WordLexeme<S>;

    type StorageT = S;

    type LexErrorT = WordLexError;
}
