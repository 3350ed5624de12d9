//! Lexemes by hand.

use cfg_base::span::Span;
use lrpar::{DefaultLexeme, DefaultLexerTypes, LRLexError, ListLexer};
use std::alloc::{AllocError, Global};

/// The number of no token.
pub const NO_TOKEN: u8 = 255;

/// A lexeme, or a fault of lexing.
type Item = Result<DefaultLexeme<u8>, LRLexError>;

/// Returns a lexeme of a token, a start and a length; a fault where it is of no token.
fn item_of((token, start, len): (u8, u16, u16)) -> Item {
    let start = start as usize;
    let span = Span::new(start, start + len as usize);
    if token == NO_TOKEN {
        return Err(LRLexError { span });
    }
    Ok(DefaultLexeme {
        tok_id: token,
        span,
        faulty: false,
    })
}

/// Returns lexemes of these tokens, starts and lengths, and a fault for each that is of no token.
pub fn lexer_of(
    alloc: Global,
    lexemes: &[(u8, u16, u16)],
) -> Result<ListLexer<DefaultLexerTypes<u8>>, AllocError> {
    let mut items = Vec::new(alloc);
    for lexeme in lexemes {
        items.push(item_of(*lexeme))?;
    }
    Ok(ListLexer::new(items))
}
