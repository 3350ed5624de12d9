//! Reads lines of digits and minus signs.

use cfg_base::span::Span;
use lrpar::{DefaultLexeme, DefaultLexerTypes, LRLexError, ListLexer};
use std::alloc::{AllocError, Global};

/// Returns the lexeme of a byte: the token of the minus sign is 0, that of digits 1, and another byte is an error.
fn word_of(byte: u8, span: Span) -> Result<DefaultLexeme<u32>, LRLexError> {
    let tok_id = match byte {
        b'-' => 0,
        b'0'..=b'9' => 1,
        _ => return Err(LRLexError { span }),
    };
    Ok(DefaultLexeme {
        tok_id,
        span,
        faulty: false,
    })
}

/// Returns the lexer of a line, whose words are single bytes between blanks.
pub fn read(alloc: Global, line: &str) -> Result<ListLexer<DefaultLexerTypes<u32>>, AllocError> {
    let mut items = Vec::new(alloc);
    for (index, byte) in line.as_bytes().iter().enumerate() {
        if *byte != b' ' {
            items.push(word_of(*byte, Span::new(index, index + 1)))?;
        }
    }
    Ok(ListLexer::new(items))
}
