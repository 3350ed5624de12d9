//! Lexers over lists that were made beforehand, by a function of the caller's.

ghost use Rattle.std.specs.Prelude.{◌≡◌, IfOk};

use cfg_base::span::Span;
use cfg_base::text_lines::TextLines;
use parse_trees::lex_api::{Lexer, LexerTypes, NonStreamingLexer};
use std::alloc::{AllocError, Global};
use std::marker::Model;
use std::slice::Iter;

/// The lexer of a list of lexemes and errors. Contracts see the list.
#[derive(Drop)]
pub struct ListLexer<T: LexerTypes> {
    items: Vec<Result<T::LexemeT, T::LexErrorT>>,
}

impl<T: LexerTypes> Model for ListLexer<T> {
    ghost use Rattle.std.specs.Prelude.{List, Result};

    ghost Value = { List (Result T.LexemeT T.LexErrorT) };

    ghost view = { λ l. l.items.items };
}

impl<T: LexerTypes> ListLexer<T> {
    /// Makes the lexer of a list, in the order of the input. A parse returns the list's first error, if it has one.
    pub fn new(items: Vec<Result<T::LexemeT, T::LexErrorT>>) -> ListLexer<T>
        ensures { result ≡ items.items }
    {
        ListLexer { items }
    }
}

impl<T: LexerTypes> Lexer<T> for ListLexer<T> {
    ghost lexed = { λ l. l };

    fn iter<'a>(&'a self) -> Iter<'a, Result<T::LexemeT, T::LexErrorT>> {
        self.items.iter()
    }
}

/// The lexer of a text with a list of its lexemes and errors, as messages on parts of the text need it. Contracts see the text
/// and the list.
#[derive(Drop)]
pub struct TextLexer<'input, T: LexerTypes> {
    text: TextLines<'input>,
    items: Vec<Result<T::LexemeT, T::LexErrorT>>,
}

impl<'input, T: LexerTypes> Model for TextLexer<'input, T> {
    ghost use Rattle.lrpar.specs.Lexers.{LexedText};

    ghost Value = { LexedText T.LexemeT T.LexErrorT };

    ghost view = { λ l. record { text = l.text; items = l.items.items } };
}

impl<'input, T: LexerTypes> TextLexer<'input, T> {
    /// Makes the lexer of a text and a list, which is in the order of the text. Calls that lend parts of the text ask for
    /// spans within it, so the list's spans should be byte offsets in it.
    pub fn new(
        alloc: Global,
        text: &'input str,
        items: Vec<Result<T::LexemeT, T::LexErrorT>>,
    ) -> Result<TextLexer<'input, T>, AllocError>
        ensures text { IfOk result (λ l. l.text ≡ text.entry.now) }
        ensures items { IfOk result (λ l. l.items ≡ items.items) }
    {
        let text = TextLines::new(alloc, text)?;
        Ok(TextLexer { text, items })
    }
}

impl<'input, T: LexerTypes> Lexer<T> for TextLexer<'input, T> {
    ghost lexed = { λ l. l.items };

    fn iter<'a>(&'a self) -> Iter<'a, Result<T::LexemeT, T::LexErrorT>> {
        self.items.iter()
    }
}

impl<'input, T: LexerTypes> NonStreamingLexer<'input, T> for TextLexer<'input, T> {
    ghost text = { λ l. l.text };

    fn span_str(&self, span: Span) -> &'input str {
        &self.text.text()[span.start()..span.end()]
    }

    fn span_lines_str(&self, span: Span) -> &'input str {
        self.text.lines_of(span)
    }

    fn line_col(&self, span: Span) -> ((usize, usize), (usize, usize)) {
        (
            self.text.line_col(span.start()),
            self.text.line_col(span.end()),
        )
    }
}
