//! Trees as texts over an input.

ghost use Rattle.std.specs.Prelude.{◌≡◌, IsTrue, IfOk, Some};
ghost use Rattle.std.specs.List.{AllByRecursion};
ghost use Rattle.parse_trees.specs.FlatLines.{CanShowPiece};
ghost use Rattle.parse_trees.specs.FlatTrees.{piece_of};
ghost use Rattle.parse_trees.specs.Shapes.{lexeme, over, nothing, along, shape_of, HasText};

use cfg_base::index::IndexStorage;
use cfg_base::symbol::RIdx;
use cfg_numbered::yacc::grammar::NumberedGrammar;
use lrpar::flat::FlatNode;
use lrpar::{FlatTree, Lexeme, Node};
use std::alloc::{AllocError, Global};
use std::test::*;

/// Checks whether the lexeme is of a token with a name, and of a part of the input.
fn has_text<S: IndexStorage, L: Lexeme<S>>(grm: &NumberedGrammar<S>, input: &str, lexeme: L) -> bool
    ensures { IsTrue result → HasText grm.now L.lex input.now lexeme }
{
    let span = lexeme.span();
    let token = lexeme.tok_id().to_usize();
    token < grm.eof_token_idx().0.to_usize()
        && input.is_char_boundary(span.start())
        && input.is_char_boundary(span.end())
}

/// Checks whether the node of a flat tree can be shown.
fn is_shown<S: IndexStorage, L: Lexeme<S>>(
    grm: &NumberedGrammar<S>,
    input: &str,
    node: FlatNode<S, L>,
) -> bool
    ensures { IsTrue result → CanShowPiece grm.now L.lex input.now (Some (piece_of S.number node)) }
{
    match node {
        FlatNode::Term { lexeme } => has_text(grm, input, lexeme),
        FlatNode::Nonterm {
            pidx,
            span: _,
            below: _,
        } => pidx.0.to_usize() < grm.prods_len().0.to_usize(),
    }
}

/// Checks whether each of these nodes can be shown.
fn are_shown<S: IndexStorage, L: Lexeme<S>>(
    grm: &NumberedGrammar<S>,
    input: &str,
    nodes: &[FlatNode<S, L>],
) -> bool
    ensures { IsTrue result → AllByRecursion (λ n. CanShowPiece grm.now L.lex input.now (Some (piece_of S.number n))) nodes.now }
{
    'nodes: for at in 0..nodes.len() {
        if !is_shown(grm, input, nodes[at]) {
            return false;
        }
    }
    true
}

/// Returns the text of a flat tree, or that there is none.
pub fn flat_shown<S: IndexStorage, L: Lexeme<S>>(
    alloc: Global,
    grm: &NumberedGrammar<S>,
    input: &str,
    tree: &FlatTree<S, L>,
) -> Result<String, AllocError> {
    if !are_shown(grm, input, tree.nodes()) {
        return format!(in alloc; "no text");
    }
    tree.pp(alloc, grm, input)
}

/// Returns a rule over one node.
fn above<S: IndexStorage, L: Lexeme<S>>(
    alloc: Global,
    ridx: RIdx<S>,
    node: Node<L, S>,
) -> Result<Node<L, S>, AllocError>
    ensures { IfOk result (λ n. shape_of S.number n ≡ over (S.number ridx.0) (along (shape_of S.number node) nothing)) }
{
    let mut nodes = Vec::new(alloc);
    nodes.push(node)?;
    Ok(Node::Nonterm { ridx, nodes })
}

/// Returns the tree of `E: T '+' E | T` and `T: ID` over two words with a sign between them.
fn sum<S: IndexStorage, L: Lexeme<S>>(
    alloc: Global,
    whole: RIdx<S>,
    word: RIdx<S>,
    left: L,
    sign: L,
    right: L,
) -> Result<Node<L, S>, AllocError>
    ensures { IfOk result (λ n. shape_of S.number n ≡ over (S.number whole.0)
        (along (over (S.number word.0) (along (lexeme left) nothing)) (along (lexeme sign)
        (along (over (S.number whole.0) (along (over (S.number word.0) (along (lexeme right) nothing)) nothing)) nothing)))) }
{
    let front = above(alloc, word, Node::Term { lexeme: left })?;
    let last = above(alloc, word, Node::Term { lexeme: right })?;
    let rest = above(alloc, whole, last)?;
    let mut nodes = Vec::new(alloc);
    nodes.push(front)?;
    nodes.push(Node::Term { lexeme: sign })?;
    nodes.push(rest)?;
    Ok(Node::Nonterm { ridx: whole, nodes })
}

/// Returns the text of that tree.
pub fn sum_shown<S: IndexStorage, L: Lexeme<S>>(
    alloc: Global,
    grm: &NumberedGrammar<S>,
    input: &str,
    (whole, word): (RIdx<S>, RIdx<S>),
    (left, sign, right): (L, L, L),
) -> Result<String, Fail> {
    if !grm.has_rule(whole) || !grm.has_rule(word) {
        return Err("no rule".into());
    }
    if !has_text(grm, input, left) || !has_text(grm, input, sign) || !has_text(grm, input, right) {
        return Err("no text".into());
    }
    let node = sum(alloc, whole, word, left, sign, right)?;
    let text = node.pp(alloc, grm, input);
    drop(node);
    Ok(text?)
}
