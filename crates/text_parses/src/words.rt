//! The lexemes of a line of token names.

ghost use Rattle.std.specs.Prelude.{◌≡◌, map, IfOk};
ghost use Rattle.text_parses.specs.LineItems.{line_items, text_item};

use crate::names::Grammar;
use crate::parsing::WordLexer;
use lrlex::{DefaultLexeme, LRLexError, LexErrorKind};
use lrpar::Lexer;
use std::alloc::{AllocError, Global};
use word_lines::{WordLexError, WordLexeme};

/// Returns a word as a lexeme of a text, or as an error if it is no token's name.
fn text_item(item: Result<WordLexeme<u32>, WordLexError>) -> Result<DefaultLexeme<u32>, LRLexError>
    ensures { result ≡ text_item item }
{
    match item {
        Ok(word) => Ok(DefaultLexeme {
            tok_id: word.token,
            span: word.span,
            faulty: word.faulty,
        }),
        Err(error) => Err(LRLexError {
            span: error.span,
            kind: LexErrorKind::UnknownName,
        }),
    }
}

/// Returns words as the lexemes of a text.
fn text_items(
    alloc: Global,
    words: &[Result<WordLexeme<u32>, WordLexError>],
) -> Result<Vec<Result<DefaultLexeme<u32>, LRLexError>>, AllocError>
    ensures { IfOk result (λ v. v.items ≡ map text_item words.now) }
{
    let mut items = Vec::with_capacity(alloc, words.len())?;
    'words: for word in words {
        items.push(text_item(*word))?;
    }
    Ok(items)
}

/// Lexes a line of token names.
pub(crate) fn lex_line<'a>(
    alloc: Global,
    grm: &Grammar,
    line: &'a str,
) -> Result<WordLexer<'a>, AllocError>
    ensures { IfOk result (λ l. l.items ≡ line_items grm.now line.entry.now) }
{
    let words = word_lines::WordLexer::new(alloc, grm, line)?;
    let items = text_items(alloc, words.iter().as_slice())?;
    WordLexer::new(alloc, line, items)
}
