//! Lines and their items.

use crate::make::grammar;
use crate::same::same;
use crate::words::SUMS;
use cfg_base::span::Span;
use cfg_numbered::yacc::NumberedGrammar;
use lrpar::{LexError, Lexeme, Lexer, NonStreamingLexer};
use std::alloc::{AllocError, Global};
use std::test::*;
use word_lines::{LexerRoom, WordLexError, WordLexeme, WordLexer};

/// How items are shown.
#[derive(Clone, Copy)]
enum Form {
    /// The token's number, or `?` for a word that is no token, and its span.
    Numbers,
    /// As they are displayed.
    Displayed,
}

/// Returns an item as a text.
fn item_text(
    alloc: Global,
    item: Result<WordLexeme<u8>, WordLexError>,
    form: Form,
) -> Result<String, AllocError> {
    match (item, form) {
        (Ok(lexeme), Form::Numbers) => {
            let span = lexeme.span();
            let token = lexeme.tok_id();
            format!(in alloc; "{token}[{},{}] ", span.start(), span.end())
        }
        (Err(fault), Form::Numbers) => {
            let span = fault.span();
            format!(in alloc; "?[{},{}] ", span.start(), span.end())
        }
        (Ok(lexeme), Form::Displayed) => format!(in alloc; "{lexeme}; "),
        (Err(fault), Form::Displayed) => format!(in alloc; "{fault}; "),
    }
}

/// Returns the items of a lexer.
fn items_of(alloc: Global, lexer: &WordLexer<u8>, form: Form) -> Result<String, AllocError> {
    let mut out = String::new(alloc);
    for item in lexer.iter() {
        out.push_str(item_text(alloc, *item, form)?.as_str())?;
    }
    Ok(out)
}

/// Lines, and their items: only U+0020 ends a word.
const ITEMS: &[(&str, Form, &str)] = &[
    ("", Form::Numbers, ""),
    ("   ", Form::Numbers, ""),
    ("ID + + ID", Form::Numbers, "1[0,2] 0[3,4] 0[5,6] 1[7,9] "),
    ("  ID  +", Form::Numbers, "1[2,4] 0[6,7] "),
    ("ID * ID", Form::Numbers, "1[0,2] ?[3,4] 1[5,7] "),
    ("ID\t+", Form::Numbers, "?[0,4] "),
    ("ä + äö", Form::Numbers, "2[0,2] 0[3,4] ?[5,9] "),
    ("id IDs", Form::Numbers, "?[0,2] ?[3,6] "),
    (
        "ID + ID",
        Form::Displayed,
        "WordLexeme[0..2]; WordLexeme[3..4]; WordLexeme[5..7]; ",
    ),
    (
        "*",
        Form::Displayed,
        "Couldn't lex input starting at byte 0; ",
    ),
    (
        "  ä  äö",
        Form::Displayed,
        "WordLexeme[2..4]; Couldn't lex input starting at byte 6; ",
    ),
];

/// Returns the first row whose line has other items where one list serves line after line, or as many as there are.
fn first_wrong(alloc: Global, grm: &NumberedGrammar<u8>) -> Result<usize, AllocError> {
    let mut room = LexerRoom::new(alloc);
    for index in 0..ITEMS.len() {
        let (line, form, items) = ITEMS[index];
        let lexer = WordLexer::in_room(alloc, room, grm, line)?;
        let found = items_of(alloc, &lexer, form)?;
        if found.as_str() != items {
            return Ok(index);
        }
        room = lexer.into_room();
    }
    Ok(ITEMS.len())
}

#[test]
fn words_are_items(rt: HostRuntime) -> Result<(), Fail> {
    let grm = grammar(rt.alloc(), SUMS)?;
    let wrong = first_wrong(rt.alloc(), &grm);
    drop(grm);
    same(&rt, "first wrong row", wrong?, ITEMS.len());
    Ok(())
}

#[test]
fn columns_count_characters(rt: HostRuntime) -> Result<(), Fail> {
    let grm = grammar(rt.alloc(), SUMS)?;
    let made = WordLexer::new(rt.alloc(), &grm, "ä 语 ID");
    drop(grm);
    let lexer = made?;
    let span = Span::new(7, 9);
    same(&rt, "columns", lexer.line_col(span), ((1, 5), (1, 7)));
    same(&rt, "span", lexer.span_str(span), "ID");
    same(&rt, "lines", lexer.span_lines_str(span), "ä 语 ID");
    Ok(())
}
