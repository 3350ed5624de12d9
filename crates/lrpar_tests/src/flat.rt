//! Trees as lists of nodes.

use crate::outcomes::{Wrong, push_parse_errors, refusal_text};
use crate::shown::flat_shown;
use cfg_numbered::yacc::grammar::NumberedGrammar;
use lrpar::flat::{FlatNode, Visit};
use lrpar::{DefaultLexeme, FlatTree, LRLexError, ParseRefusal};
use std::alloc::{AllocError, Global};

/// A tree as a list of nodes.
pub type Flat = FlatTree<u8, DefaultLexeme<u8>>;

/// What a parse to a list of nodes answers.
pub type FlatOutcome = Result<Result<(Option<Flat>, Vec<Wrong>), LRLexError>, ParseRefusal>;

/// Returns a lexeme, or a production with its span and the number of nodes below it.
fn node_text(alloc: Global, node: FlatNode<u8, DefaultLexeme<u8>>) -> Result<String, AllocError> {
    match node {
        FlatNode::Term { lexeme } => {
            let token = lexeme.tok_id;
            let start = lexeme.span.start();
            format!(in alloc; "{token}@{start} ")
        }
        FlatNode::Nonterm { pidx, span, below } => {
            let production = pidx.0;
            let start = span.start();
            let end = span.end();
            format!(in alloc; "{production}[{start},{end}]/{below} ")
        }
    }
}

/// Returns the nodes, and the walk over them by index and depth.
fn tree_text(alloc: Global, tree: &Flat) -> Result<String, AllocError> {
    let mut text = String::new(alloc);
    for node in tree.nodes() {
        text.push_str(node_text(alloc, *node)?.as_str())?;
    }
    let visits = tree.preorder(alloc)?;
    for visit in visits.as_slice() {
        let index = visit.index;
        let depth = visit.depth;
        text.push_str(format!(in alloc; " {index}.{depth}")?.as_str())?;
    }
    Ok(text)
}

/// Returns the tree, or that there is none, and the errors.
pub fn flat_text(alloc: Global, outcome: &FlatOutcome) -> Result<String, AllocError> {
    match outcome {
        Err(e) => refusal_text(alloc, e),
        Ok(Err(fault)) => {
            let start = fault.span.start();
            format!(in alloc; "none; fault at {start}")
        }
        Ok(Ok((tree, errors))) => {
            let mut text = match tree {
                Some(tree) => tree_text(alloc, tree)?,
                None => String::from_str(alloc, "none")?,
            };
            push_parse_errors(alloc, &mut text, errors.as_slice())?;
            Ok(text)
        }
    }
}

/// Returns the children of a node, none where there is no such node.
fn children_of(alloc: Global, tree: &Flat, at: Visit) -> Result<Vec<Visit>, AllocError> {
    let count = tree.nodes().len();
    if at.index < count && at.depth < count {
        tree.children(alloc, at)
    } else {
        Ok(Vec::new(alloc))
    }
}

/// Returns the text of a tree over an input, and behind it the children of nodes.
fn shown_with_children(
    alloc: Global,
    grm: &NumberedGrammar<u8>,
    input: &str,
    tree: &Flat,
    nodes: &[Visit],
) -> Result<String, AllocError> {
    let mut text = flat_shown(alloc, grm, input, tree)?;
    for at in nodes {
        let children = children_of(alloc, tree, *at)?;
        text.push_str(format!(in alloc; "{children:?}\n")?.as_str())?;
    }
    Ok(text)
}

/// Returns the text of the tree over an input with the children of nodes, or that there is no tree.
pub fn shown_text(
    alloc: Global,
    grm: &NumberedGrammar<u8>,
    outcome: &FlatOutcome,
    input: &str,
    nodes: &[Visit],
) -> Result<String, AllocError> {
    match outcome {
        Ok(Ok((Some(tree), _))) => shown_with_children(alloc, grm, input, tree, nodes),
        Err(ParseRefusal::Memory(e)) => Err(*e),
        _ => String::from_str(alloc, "no tree"),
    }
}
