//! What lines yield, with repairs and without.

use crate::lexer::lexer_of;
use crate::lines::lines_of;
use crate::make::data;
use crate::rows::{LINES, Row, Shown};
use crate::same::same;
use crate::ways::{Parser, as_nodes, as_one_tree, by_productions, each_way};
use lrpar::{DefaultLexeme, DefaultLexerTypes, ListLexer, ParserData, RTParserBuilder, Recoverer};
use std::alloc::{AllocError, Global};
use std::cell::Cell;
use std::test::*;

/// Returns what is shown of lexemes.
fn shown_of<R: Recoverer<u8, DefaultLexeme<u8>>>(
    alloc: Global,
    parser: &Parser<'_, R>,
    lexer: &ListLexer<DefaultLexerTypes<u8>>,
    shown: Shown,
    indices: &Cell<usize>,
) -> Result<String, AllocError> {
    match shown {
        Shown::Value => by_productions(alloc, parser, lexer, None),
        Shown::Asked => by_productions(alloc, parser, lexer, Some(indices)),
        Shown::Each => each_way(alloc, parser, lexer),
        Shown::Tree(input, nodes) => as_nodes(alloc, parser, lexer, Some((input, nodes))),
        Shown::OneTree => as_one_tree(alloc, parser, lexer),
    }
}

/// Returns what is shown of lexemes with these sequences at each error.
fn repaired_text(
    alloc: Global,
    data: &ParserData<u8>,
    lexer: &ListLexer<DefaultLexerTypes<u8>>,
    letters: &str,
    shown: Shown,
) -> Result<String, AllocError> {
    let indices = Cell::new(0usize);
    let lines = lines_of(alloc, letters, &indices)?;
    let parser = RTParserBuilder::<DefaultLexerTypes<u8>, _>::new(data).recoverer(&lines);
    let text = shown_of(alloc, &parser, lexer, shown, &indices);
    drop(lines);
    text
}

/// Returns what is shown of a row by its data.
fn text_by(alloc: Global, data: &ParserData<u8>, row: Row) -> Result<String, AllocError> {
    let (_, lexemes, letters, shown, _) = row;
    let lexer = lexer_of(alloc, lexemes)?;
    let text = match letters {
        None => {
            let parser = RTParserBuilder::<DefaultLexerTypes<u8>, _>::new(data);
            shown_of(alloc, &parser, &lexer, shown, &Cell::new(0usize))
        }
        Some(letters) => repaired_text(alloc, data, &lexer, letters, shown),
    };
    drop(lexer);
    text
}

/// Returns what is shown of a row.
fn line_text(alloc: Global, row: Row) -> Result<String, Fail> {
    let data = data(alloc, row.0)?;
    let found = text_by(alloc, &data, row);
    drop(data);
    Ok(found?)
}

#[test]
fn lines_are_parsed(rt: HostRuntime) -> Result<(), Fail> {
    for row in LINES {
        let found = line_text(rt.alloc(), *row)?;
        same(&rt, row.0, found.as_str(), row.4);
    }
    Ok(())
}
