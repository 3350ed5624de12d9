//! Trees by rules as texts.

use crate::outcomes::{AnyError, push_errors, refusal_text};
use lrpar::{DefaultLexeme, Node, ParseRefusal};
use std::alloc::{AllocError, Global};

/// A tree by rules.
pub type Tree = Node<DefaultLexeme<u8>, u8>;

/// The most nodes of a tree that are shown.
const NODES: usize = 100;

/// Returns a node: its lexeme, or its rule and the number of nodes below, which wait then with the first one on top.
fn node_text<'a>(
    alloc: Global,
    node: &'a Tree,
    waiting: &mut Vec<&'a Tree>,
) -> Result<String, AllocError> {
    match node {
        Node::Term { lexeme } => {
            let token = lexeme.tok_id;
            let start = lexeme.span.start();
            format!(in alloc; "{token}@{start}")
        }
        Node::Nonterm { ridx, nodes } => {
            let rule = ridx.0;
            let count = nodes.len();
            for at in 0..count {
                waiting.push(&nodes[count - 1 - at])?;
            }
            format!(in alloc; "{rule}/{count}")
        }
    }
}

/// Returns the nodes of a tree, each before those below it.
fn tree_text(alloc: Global, tree: &Tree) -> Result<String, AllocError> {
    let mut text = String::new(alloc);
    let mut waiting = Vec::new(alloc);
    waiting.push(tree)?;
    for at in 0..NODES {
        let Some(node) = waiting.pop() else { break };
        if at > 0 {
            text.push(' ')?;
        }
        text.push_str(node_text(alloc, node, &mut waiting)?.as_str())?;
    }
    Ok(text)
}

/// Returns the tree, or that there is none, and the errors.
pub fn tree_outcome_text(
    alloc: Global,
    outcome: &Result<(Option<Tree>, Vec<AnyError>), ParseRefusal>,
) -> Result<String, AllocError> {
    match outcome {
        Err(e) => refusal_text(alloc, e),
        Ok((tree, errors)) => {
            let mut text = match tree {
                Some(tree) => tree_text(alloc, tree)?,
                None => String::from_str(alloc, "none")?,
            };
            push_errors(alloc, &mut text, errors.as_slice())?;
            Ok(text)
        }
    }
}

/// Returns whether the tree of a parse is this one.
pub fn is_told(
    alloc: Global,
    outcome: &Result<(Option<Tree>, Vec<AnyError>), ParseRefusal>,
    tree: &Tree,
) -> Result<bool, AllocError> {
    match outcome {
        Ok((Some(other), _)) => tree.equals(alloc, other),
        Err(ParseRefusal::Memory(e)) => Err(*e),
        _ => Ok(false),
    }
}
