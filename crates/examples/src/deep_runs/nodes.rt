//! What long lines come to as trees by rules.

use lrpar::{
    DefaultLexeme, DefaultLexerTypes, ListLexer, Node, ParseRefusal, ParserData, RTParserBuilder,
};
use std::alloc::{AllocError, Global};

/// Adds whether a tree equals a copy of it.
fn push_copied(
    alloc: Global,
    out: &mut String,
    tree: &Node<DefaultLexeme<u32>, u32>,
) -> Result<(), AllocError> {
    let copy = tree.clone(alloc)?;
    let same = tree.equals(alloc, &copy);
    drop(copy);
    let same = same?;
    out.push_str(format!(in alloc; "equal to its copy: {same}\n")?.as_str())
}

/// Adds what a tree is, or how many errors there are in its place.
fn push_tree(
    alloc: Global,
    out: &mut String,
    tree: Option<Node<DefaultLexeme<u32>, u32>>,
    errors: usize,
) -> Result<(), AllocError> {
    match tree {
        Some(tree) => {
            let pushed = push_copied(alloc, out, &tree);
            drop(tree);
            pushed
        }
        None => out.push_str(format!(in alloc; "no tree, errors: {errors}\n")?.as_str()),
    }
}

/// Adds what the lexemes come to as a tree by rules.
pub fn push_nodes(
    alloc: Global,
    out: &mut String,
    data: &ParserData<u32>,
    lexer: &ListLexer<DefaultLexerTypes<u32>>,
) -> Result<(), AllocError> {
    let parser = RTParserBuilder::<DefaultLexerTypes<u32>, _>::new(data);
    match parser.parse_generictree(alloc, lexer) {
        Ok((tree, errors)) => {
            let count = errors.len();
            drop(errors);
            push_tree(alloc, out, tree, count)
        }
        Err(ParseRefusal::Memory(e)) => Err(e),
        Err(_) => out.push_str("refused\n"),
    }
}
