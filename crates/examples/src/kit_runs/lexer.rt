//! Lexemes by hand.

use cfg_base::index::IndexOrder;
use lrpar::{DefaultLexeme, DefaultLexerTypes, Lexeme, ListLexer};
use std::alloc::{AllocError, Global};

/// Returns lexemes of these tokens, starts and lengths.
pub fn lexer_of<S: IndexOrder>(
    alloc: Global,
    lexemes: &[(u8, u16, u16)],
) -> Result<ListLexer<DefaultLexerTypes<S>>, AllocError> {
    let mut items = Vec::new(alloc);
    for index in 0..lexemes.len() {
        let (token, start, len) = lexemes[index];
        if let Some(tok_id) = S::from_usize(token as usize) {
            items.push(Ok(DefaultLexeme::new(tok_id, start as usize, len as usize)))?;
        }
    }
    Ok(ListLexer::new(items))
}
