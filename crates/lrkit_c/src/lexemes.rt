//! Lexemes as C has them.

ghost use Rattle.std.specs.Prelude.{◌≡◌, IfOk};
ghost use Rattle.lrkit_c.specs.Parses.{items_of, lexeme_of, lexeme_for};

use cfg_base::span::Span;
use lrlex::{DefaultLexeme, LRLexError, LRNonStreamingLexer};
use std::alloc::{AllocError, Global};

/// A lexeme: a token at a part of a text.
#[repr(C)]
#[derive(Clone, Copy)]
pub struct LrkitLexeme {
    /// The token's number.
    pub token: u32,
    /// The byte offset at which it begins.
    pub start: usize,
    /// How many bytes it has.
    pub length: usize,
}

/// The items of a text.
pub type WordLexer<'t> = LRNonStreamingLexer<'t, u32>;

/// An item of a lexer.
pub type Item = Result<DefaultLexeme<u32>, LRLexError>;

/// Returns the kit's lexeme for one of C. One that would end past the greatest offset ends there.
pub fn lexeme_of(lexeme: LrkitLexeme) -> DefaultLexeme<u32>
    ensures { result ≡ lexeme_of lexeme }
{
    let end = lexeme.start.saturating_add(lexeme.length);
    DefaultLexeme {
        tok_id: lexeme.token,
        span: Span::new(lexeme.start, end),
        faulty: false,
    }
}

/// Returns C's lexeme for one of the kit.
pub fn shown_lexeme(lexeme: DefaultLexeme<u32>) -> LrkitLexeme
    ensures { result ≡ lexeme_for lexeme }
{
    let start = lexeme.span.start();
    LrkitLexeme {
        token: lexeme.tok_id,
        start,
        length: lexeme.span.end().saturating_sub(start),
    }
}

/// Makes the list of C's lexemes.
pub fn lexer_of(alloc: Global, lexemes: &[LrkitLexeme]) -> Result<WordLexer<'static>, AllocError>
    ensures { IfOk result (λ l. l.items ≡ items_of lexemes.now) }
{
    let mut items: Vec<Item> = Vec::new(alloc);
    'lexemes: for index in 0..lexemes.len() {
        items.push(Ok(lexeme_of(lexemes[index])))?;
    }
    WordLexer::new(alloc, "", items)
}
