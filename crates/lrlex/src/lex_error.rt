//! Lexing errors of a text, and the types of its lexer.

use cfg_base::index::IndexOrder;
use cfg_base::span::Span;
use lrpar::{DefaultLexeme, TextLexer};
use parse_trees::lex_api::{LexError, LexerTypes};
use std::error::Error;
use std::fmt;
use std::fmt::{Display, Formatter, Write};
use std::marker::PhantomData;

/// Why a text has no lexeme at an offset.
#[derive(Clone, Copy, Debug, PartialEq, Eq)]
pub enum LexErrorKind {
    /// No rule that is active matches.
    NoMatch,
    /// The name of the rule that matches is no token's.
    UnknownName,
}

/// An offset at which a text has no lexeme. Unlike `lrpar`'s error of this name it tells why.
#[derive(Clone, Copy, Debug, PartialEq, Eq)]
pub struct LRLexError {
    /// The offset, as an empty part of the text.
    pub span: Span,
    /// Why there is none.
    pub kind: LexErrorKind,
}

impl Display for LRLexError {
    ghost use Rattle.std.specs.Prelude.{Some};
    ghost use Rattle.lrpar.specs.Lexers.{lex_error_text};

    ghost output = { λ e. Some (lex_error_text e.span) };

    fn fmt<W: Write>(&self, f: &mut Formatter<W>) -> fmt::Result {
        let start = self.span.start();
        write!(f, "Couldn't lex input starting at byte {start}")
    }
}

impl Error for LRLexError {}

impl LexError for LRLexError {
    ghost places = { λ e. e.span };

    fn span(&self) -> Span {
        self.span
    }
}

/// The types of a lexer by rules.
pub struct DefaultLexerTypes<S> {
    storage: PhantomData<S>,
}

impl<S: IndexOrder> LexerTypes for DefaultLexerTypes<S> {
    type LexemeT = DefaultLexeme<S>;

    type StorageT = S;

    type LexErrorT = LRLexError;
}

/// The lexemes of a text, and where it has none. Contracts see the text and this list.
pub type LRNonStreamingLexer<'input, S> = TextLexer<'input, DefaultLexerTypes<S>>;
