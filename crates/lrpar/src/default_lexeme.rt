//! Ready lexemes, lexing errors and lexer types, for lexers whose lexemes are tokens at spans and no more.
//!
//! ```rust
//! use cfg_base::span::Span;
//! use lrpar::{DefaultLexeme, DefaultLexerTypes, LRLexError, ListLexer};
//! use std::alloc::{AllocError, Global};
//!
//! /// A lexer of texts of one token, the letter `a`.
//! fn lexer_of(alloc: Global, text: &str) -> Result<ListLexer<DefaultLexerTypes<u8>>, AllocError> {
//!     let mut items = Vec::new(alloc);
//!     for (start, byte) in text.as_bytes().iter().enumerate() {
//!         let span = Span::new(start, start + 1);
//!         items.push(match *byte {
//!             b'a' => Ok(DefaultLexeme { tok_id: 0, span, faulty: false }),
//!             _ => Err(LRLexError { span }),
//!         })?;
//!     }
//!     Ok(ListLexer::new(items))
//! }
//! ```

use cfg_base::index::{IndexOrder, IndexStorage};
use cfg_base::span::Span;
use parse_trees::lex_api::{LexError, Lexeme, LexerTypes};
use std::error::Error;
use std::fmt;
use std::fmt::{Debug, Display, Formatter, Write};
use std::hash::Hash;
use std::marker::PhantomData;

/// A token at a span of the text. It is shown as `DefaultLexeme[S..E]`, by the offsets of its first byte and of the one behind its
/// last.
#[derive(Clone, Copy, PartialEq, Eq, Hash)]
pub struct DefaultLexeme<S> {
    /// The token's number.
    pub tok_id: S,
    /// Whether a repair inserted it.
    pub faulty: bool,
    /// The lexeme's bytes in the text.
    pub span: Span,
}

// Prints the fields as a derived one would, with `faulty` last. The fields' own order saves room.
impl<S: IndexStorage> Debug for DefaultLexeme<S> {
    fn fmt<W: Write>(&self, f: &mut Formatter<W>) -> fmt::Result {
        let tok_id = self.tok_id;
        let span = self.span;
        let faulty = self.faulty;
        write!(
            f,
            "DefaultLexeme {{ tok_id: {tok_id:?}, span: {span:?}, faulty: {faulty:?} }}"
        )
    }
}

impl<S: IndexStorage> Display for DefaultLexeme<S> {
    ghost use Rattle.std.specs.Prelude.{Some};
    ghost use Rattle.lrpar.specs.Lexers.{lexeme_text};

    ghost output = { λ x. Some (lexeme_text x.span) };

    fn fmt<W: Write>(&self, f: &mut Formatter<W>) -> fmt::Result {
        let start = self.span.start();
        let end = self.span.end();
        write!(f, "DefaultLexeme[{start}..{end}]")
    }
}

impl<S: IndexOrder> Lexeme<S> for DefaultLexeme<S> {
    ghost use Rattle.std.specs.Prelude.{true, ◌+◌};
    ghost use Rattle.std.proofs.Common.{ap};
    ghost use Rattle.parse_trees.specs.Lex.{lex_at};
    ghost use Rattle.lrpar.specs.Lexers.{lex_of};

    ghost lex = { lex_of S.number };

    ghost faulty_of = { λ token start len. record { tok_id = S.of_number token; span = record { start = start; end = start + len }; faulty = true } };

    ghost faulty_is = { λ token start len fits. ap (λ n. lex_at n start len true) (S.of_number_is token fits) };

    fn new(tok_id: S, start: usize, len: usize) -> Self {
        DefaultLexeme {
            tok_id,
            span: Span::new(start, start + len),
            faulty: false,
        }
    }

    fn new_faulty(tok_id: S, start: usize, len: usize) -> Self {
        // Read, so that the proof may use that the number fits.
        tok_id.to_usize();
        DefaultLexeme {
            tok_id,
            span: Span::new(start, start + len),
            faulty: true,
        }
    }

    fn tok_id(&self) -> S {
        self.tok_id
    }

    fn span(&self) -> Span {
        self.span
    }

    fn faulty(&self) -> bool {
        self.faulty
    }
}

/// A part of the text where no lexeme begins.
#[derive(Clone, Copy, Debug, PartialEq, Eq)]
pub struct LRLexError {
    /// The part's bytes in the text.
    pub span: Span,
}

impl Display for LRLexError {
    ghost use Rattle.std.specs.Prelude.{Some};
    ghost use Rattle.lrpar.specs.Lexers.{lex_error_text};

    ghost output = { λ e. Some (lex_error_text e.span) };

    fn fmt<W: Write>(&self, f: &mut Formatter<W>) -> fmt::Result {
        let start = self.span.start();
        write!(f, "Couldn't lex input starting at byte {start}")
    }
}

impl Error for LRLexError {}

impl LexError for LRLexError {
    ghost places = { λ e. e.span };

    fn span(&self) -> Span {
        self.span
    }
}

/// The types of a lexer of such lexemes.
pub struct DefaultLexerTypes<S> {
    storage: PhantomData<S>,
}

impl<S: IndexOrder> LexerTypes for DefaultLexerTypes<S> {
    type LexemeT = DefaultLexeme<S>;

    type StorageT = S;

    type LexErrorT = LRLexError;
}
