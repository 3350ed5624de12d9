//! What long lines come to.

use crate::deep_runs::lexer::lexer_of;
use crate::deep_runs::nodes::push_nodes;
use crate::deep_runs::outcome::push_flat;
use crate::parser_data::data;
use lrpar::{DefaultLexerTypes, ListLexer, NoRecovery, ParserData};
use std::alloc::{AllocError, Global};

const LONG: u32 = 1_000_000;

/// A left-recursive and a right-recursive list of the first token.
const GRAMMARS: &[&str] = &[
    "%start S %% S: S 'a' | 'a'; T: 'b';",
    "%start S %% S: 'a' S | 'a'; T: 'b';",
];

/// Adds what the lexemes come to as a flat tree, and as one by rules.
fn push_trees(
    alloc: Global,
    out: &mut String,
    data: &ParserData<u32>,
    lexer: &ListLexer<DefaultLexerTypes<u32>>,
) -> Result<(), AllocError> {
    out.push_str("flat: ")?;
    push_flat(alloc, out, data, lexer, &NoRecovery)?;
    out.push_str("by rules: ")?;
    push_nodes(alloc, out, data, lexer)
}

/// Adds what a line of the first token comes to, with `wrong` of the second behind it.
fn push_line(
    alloc: Global,
    out: &mut String,
    data: &ParserData<u32>,
    wrong: u32,
) -> Result<(), AllocError> {
    let lexer = lexer_of(alloc, (0, LONG), (1, wrong))?;
    let pushed = push_trees(alloc, out, data, &lexer);
    drop(lexer);
    pushed
}

/// Adds what a line without an error comes to, and one with an error at its end.
fn push_lines(alloc: Global, out: &mut String, data: &ParserData<u32>) -> Result<(), AllocError> {
    push_line(alloc, out, data, 0)?;
    push_line(alloc, out, data, 1)
}

/// Adds a grammar, and what long lines come to by it.
fn push_text(alloc: Global, out: &mut String, text: &str) -> Result<(), AllocError> {
    out.push_str(text)?;
    out.push('\n')?;
    match data(alloc, text)? {
        Some(data) => {
            let pushed = push_lines(alloc, out, &data);
            drop(data);
            pushed
        }
        None => out.push_str("no data\n"),
    }
}

/// Adds what long lines come to by each grammar.
pub fn push_runs(alloc: Global, out: &mut String) -> Result<(), AllocError> {
    for text in GRAMMARS {
        push_text(alloc, out, text)?;
    }
    Ok(())
}
