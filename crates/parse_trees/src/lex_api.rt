//! What a lexer gives a parse: lexemes, the places where it has none, and the text. A caller implements `Lexeme`, `LexError` and
//! `Lexer` for its own types, and `LexerTypes` for a type that names them; `NonStreamingLexer` is for lexers that hold the text.
//!
//! ```rust
//! /// A token's number, its bytes in the text, and whether a repair inserted it.
//! #[derive(Clone, Copy, Debug, PartialEq, Eq, Hash)]
//! pub struct Word {
//!     token: u8,
//!     span: Span,
//!     faulty: bool,
//! }
//!
//! impl Lexeme<u8> for Word {
//!     ghost use Rattle.std.specs.Prelude.{true, ◌+◌, refl};
//!
//!     ghost lex = { λ x. record { token = x.token; places = x.span; faulty = x.faulty } };
//!
//!     ghost faulty_of = { λ t s l. record { token = t; span = record { start = s; end = s + l }; faulty = true } };
//!
//!     ghost faulty_is = { λ t s l le. refl };
//!
//!     fn new(tok_id: u8, start: usize, len: usize) -> Self {
//!         let span = Span::new(start, start + len);
//!         Word { token: tok_id, span, faulty: false }
//!     }
//!
//!     fn new_faulty(tok_id: u8, start: usize, len: usize) -> Self {
//!         let span = Span::new(start, start + len);
//!         Word { token: tok_id, span, faulty: true }
//!     }
//!
//!     fn tok_id(&self) -> u8 {
//!         self.token
//!     }
//!
//!     fn span(&self) -> Span {
//!         self.span
//!     }
//!
//!     fn faulty(&self) -> bool {
//!         self.faulty
//!     }
//! }
//!
//! /// What was read of a line.
//! pub struct Words {
//!     items: Vec<Result<Word, NoWord>>,
//! }
//!
//! impl Lexer<LineTypes> for Words {
//!     ghost lexed = { λ l. l.items.items };
//!
//!     fn iter<'a>(&'a self) -> Iter<'a, Result<Word, NoWord>> {
//!         self.items.iter()
//!     }
//! }
//! ```
//!
//! `lrpar` has ready lexemes (`DefaultLexeme`) and lexers of lists (`ListLexer`, `TextLexer`), for which no ghost member is to be
//! defined. `crates/word_lines` has a lexer with types of its own.

ghost use Rattle.std.specs.Prelude.{◌≡◌, ℕ, ◌≤◌, ◌<◌, ◌+◌, ◌^◌, Bool, true, false, List, length, slice_range};
ghost use Rattle.std.specs.declared.result.Result.{Result};
ghost use Rattle.std.specs.Slice.Iter.{iter_rest};
ghost use Rattle.std.specs.Prelude.{IsCharBoundary};
ghost use Rattle.cfg_base.specs.SpanModel.{SpanModel};
ghost use Rattle.cfg_base.specs.Newlines.{line_of, line_start, column_of};
ghost use Rattle.cfg_base.specs.Text.{line_end};
ghost use Rattle.parse_trees.specs.Lex.{Lex, lex_at};

use cfg_base::index::IndexStorage;
use cfg_base::span::Span;
use std::error::Error;
use std::fmt::{Debug, Display};
use std::hash::Hash;
use std::slice::Iter;

/// A piece of input of one token.
pub trait Lexeme<S: IndexStorage>: Debug + Display + Eq + Hash + Copy {
    /// The lexeme's token, span and faulty mark as plain data. All calls are stated by it.
    ghost lex: { Self → Lex };

    /// The lexeme that is made up of a token's number, a start and a length.
    ghost faulty_of: { ℕ → ℕ → ℕ → Self };

    /// Makes a lexeme of the text: `tok_id` is its token's number, `start` its byte offset, `len` its number of
    /// bytes. Its `faulty` is false.
    fn new(tok_id: S, start: usize, len: usize) -> Self
        requires { start + len < 2 ^ 64 }
        ensures { lex result ≡ lex_at (S.number tok_id) start len false };

    /// Makes a lexeme that a repair inserts where the text has none, in the same units. Its `faulty` is true.
    fn new_faulty(tok_id: S, start: usize, len: usize) -> Self
        requires { start + len < 2 ^ 64 }
        ensures { result ≡ faulty_of (S.number tok_id) start len };

    /// Returns the number of the lexeme's token.
    fn tok_id(&self) -> S
        ensures { S.number result ≡ (lex self.now).token };

    /// Returns the lexeme's part of the text, as byte offsets.
    fn span(&self) -> Span
        ensures { result ≡ (lex self.now).places };

    /// Returns whether a repair inserted the lexeme, so that the text has no such word.
    fn faulty(&self) -> bool
        ensures { result ≡ (lex self.now).faulty };

    /// A lexeme of `new_faulty` has the token, the start and the length that it was made of, and is faulty.
    ghost faulty_is: { (token start len : ℕ) → token ≤ S.MAX → lex (faulty_of token start len) ≡ lex_at token start len true };
}

/// A place of the input at which no lexeme begins.
pub trait LexError: Error + Copy {
    /// The part of the text that `span` returns.
    ghost places: { Self → SpanModel };

    /// Returns the part of the text at which no lexeme begins, as byte offsets.
    fn span(&self) -> Span
        ensures { result ≡ places self.now };
}

/// The types that go with a lexer: its lexemes, the numbers of their tokens, its errors.
pub trait LexerTypes {
    /// The type of the lexemes that the lexer gives.
    type LexemeT: Lexeme<Self::StorageT>;

    /// The unsigned type of token numbers, that of the grammar and its table.
    type StorageT: IndexStorage;

    /// The type of the errors that the lexer gives.
    type LexErrorT: LexError;
}

/// What gives the lexemes of an input, or where it has none. Its list stays the same from call to call.
pub trait Lexer<T: LexerTypes> {
    /// The lexemes and errors of the input, in order, which `iter` goes through.
    ghost lexed: { Self → List (Result T.LexemeT T.LexErrorT) };

    /// Returns an iterator over the lexemes and errors of the input, in order. Each call begins anew, so an
    /// implementer lexes beforehand and stores the list.
    fn iter<'a>(&'a self) -> Iter<'a, Result<T::LexemeT, T::LexErrorT>>
        ensures { iter_rest result ≡ lexed self.now };
}

/// A lexer with the whole input at hand. Offsets and lengths are in bytes, columns in characters; lines and columns count from 1.
pub trait NonStreamingLexer<'input, T: LexerTypes>: Lexer<T> {
    /// The bytes of the whole input.
    ghost text: { Self → List ℕ };

    /// Returns the text of a span. Both of its offsets are at boundaries of characters.
    fn span_str(&self, span: Span) -> &'input str
        requires start { IsCharBoundary (text self.now) span.start }
        requires end { IsCharBoundary (text self.now) span.end }
        ensures { result.now ≡ slice_range (text self.now) span.start span.end };

    /// Returns the lines that the span is on, without the last one's LF.
    fn span_lines_str(&self, span: Span) -> &'input str
        requires within { span.end ≤ length (text self.now) }
        ensures { result.now ≡ slice_range (text self.now) (line_start (text self.now) span.start) (line_end (text self.now) span.end) };

    /// Returns the line and the column of the span's start, and those of its end.
    fn line_col(&self, span: Span) -> ((usize, usize), (usize, usize))
        requires { span.end ≤ length (text self.now) }
        ensures { result ≡ ((line_of (text self.now) span.start, column_of (text self.now) (text self.now) span.start), (line_of (text self.now) span.end, column_of (text self.now) (text self.now) span.end)) };
}
