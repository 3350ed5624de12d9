//! Lexers of long lines.

ghost use Rattle.std.specs.Prelude.{◌<◌, ◌^◌};

use cfg_base::span::Span;
use lrpar::{DefaultLexeme, DefaultLexerTypes, LRLexError, ListLexer};
use std::alloc::{AllocError, Global};

/// Adds lexemes of a token, each of one byte.
fn push_many(
    items: &mut Vec<Result<DefaultLexeme<u32>, LRLexError>>,
    tok_id: u32,
    start: usize,
    count: u32,
) -> Result<(), AllocError>
    requires { start < 2 ^ 32 }
{
    for number in 0..count {
        let at = start + number as usize;
        items.push(Ok(DefaultLexeme {
            tok_id,
            span: Span::new(at, at + 1),
            faulty: false,
        }))?;
    }
    Ok(())
}

/// Returns the lexer of a line: a token and its count, then another one.
pub fn lexer_of(
    alloc: Global,
    first: (u32, u32),
    second: (u32, u32),
) -> Result<ListLexer<DefaultLexerTypes<u32>>, AllocError> {
    let mut items = Vec::new(alloc);
    push_many(&mut items, first.0, 0, first.1)?;
    push_many(&mut items, second.0, first.1 as usize, second.1)?;
    Ok(ListLexer::new(items))
}
