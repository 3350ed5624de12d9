//! Lexemes of one byte each.

ghost use Rattle.std.specs.Prelude.{◌+◌, ◌<◌, ◌^◌};

use cfg_base::span::Span;
use cfg_numbered::yacc::NumberedGrammar;
use lrpar::{DefaultLexeme, DefaultLexerTypes, LRLexError, ListLexer};
use std::alloc::{AllocError, Global};

/// Returns the lexeme of a byte, whose token has that byte for its name.
fn lexeme_at(
    alloc: Global,
    grm: &NumberedGrammar<u32>,
    byte: u8,
    start: usize,
) -> Result<Result<DefaultLexeme<u32>, LRLexError>, AllocError>
    requires { start + 1 < 2 ^ 64 }
{
    let span = Span::new(start, start + 1);
    let mut name = String::new(alloc);
    name.push(char::from(byte))?;
    match grm.token_idx(name.as_str()) {
        Some(tidx) => Ok(Ok(DefaultLexeme {
            tok_id: tidx.0,
            span,
            faulty: false,
        })),
        None => Ok(Err(LRLexError { span })),
    }
}

/// Returns the lexemes of a text, which blanks and lines part.
pub fn lexer_of(
    alloc: Global,
    grm: &NumberedGrammar<u32>,
    text: &str,
) -> Result<ListLexer<DefaultLexerTypes<u32>>, AllocError> {
    let mut items = Vec::new(alloc);
    let bytes = text.as_bytes();
    'bytes: for start in 0..bytes.len() {
        if !bytes[start].is_ascii_whitespace() {
            items.push(lexeme_at(alloc, grm, bytes[start], start)?)?;
        }
    }
    Ok(ListLexer::new(items))
}
