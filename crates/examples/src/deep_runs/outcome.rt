//! What lexemes come to as a flat tree.

use lrpar::{
    DefaultLexeme, DefaultLexerTypes, FlatTree, ListLexer, ParseError, ParseRefusal, ParserData,
    RTParserBuilder, Recoverer,
};
use std::alloc::{AllocError, Global};

/// Adds the number of a tree's nodes, and the depth of the deepest one.
fn push_tree(
    alloc: Global,
    out: &mut String,
    tree: &FlatTree<u32, DefaultLexeme<u32>>,
) -> Result<(), AllocError> {
    let nodes = tree.nodes().len();
    let visits = tree.preorder(alloc)?;
    let mut depth = 0;
    for visit in visits.as_slice() {
        depth = visit.depth.max(depth);
    }
    drop(visits);
    out.push_str(format!(in alloc; "{nodes} nodes, {depth} deep")?.as_str())
}

/// Adds where each error is, and the number of repairs that can be taken there.
fn push_errors(
    alloc: Global,
    out: &mut String,
    errors: &[ParseError<DefaultLexeme<u32>, u32>],
) -> Result<(), AllocError> {
    for error in errors {
        let start = error.lexeme.span.start();
        let count = error.repairs.len();
        out.push_str(format!(in alloc; ", error at {start} with {count} repairs")?.as_str())?;
    }
    out.push('\n')
}

/// Adds a tree, if there is one, and errors.
fn push_parse(
    alloc: Global,
    out: &mut String,
    tree: &Option<FlatTree<u32, DefaultLexeme<u32>>>,
    errors: &[ParseError<DefaultLexeme<u32>, u32>],
) -> Result<(), AllocError> {
    match tree {
        Some(tree) => push_tree(alloc, out, tree)?,
        None => out.push_str("no tree")?,
    }
    push_errors(alloc, out, errors)
}

/// Adds what the lexemes come to with the repairs that a recoverer offers.
pub fn push_flat<R: Recoverer<u32, DefaultLexeme<u32>>>(
    alloc: Global,
    out: &mut String,
    data: &ParserData<u32>,
    lexer: &ListLexer<DefaultLexerTypes<u32>>,
    recoverer: &R,
) -> Result<(), AllocError> {
    let parser = RTParserBuilder::<DefaultLexerTypes<u32>, _>::new(data).recoverer(recoverer);
    match parser.parse_flat(alloc, lexer) {
        Ok(Ok((tree, errors))) => {
            let pushed = push_parse(alloc, out, &tree, errors.as_slice());
            drop(tree);
            drop(errors);
            pushed
        }
        Ok(Err(_)) => out.push_str("a lexing error\n"),
        Err(ParseRefusal::Memory(e)) => Err(e),
        Err(_) => out.push_str("refused\n"),
    }
}
