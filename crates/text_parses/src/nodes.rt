//! The nodes of a tree as plain values.

ghost use Rattle.std.specs.Prelude.{◌≡◌, ◌++◌, ◌∷◌, [], map, option_map, slice_get, Some, IfOk, OnOk};
ghost use Rattle.parse_trees.specs.FlatLines.{CanShowPiece, CanVisit};
ghost use Rattle.parse_trees.specs.FlatTrees.{piece_of, pieces_of};
ghost use Rattle.text_parses.specs.Parses.{itself, lexeme_lex};
ghost use Rattle.text_parses.specs.NodeValues.{HasNodes, ShowsNodes, node_of, nodes_from, shown_of};

use crate::lines::{WordNode, node_at};
use crate::names::{Grammar, rule_name, token_name};
use crate::parsing::{Parsed, WordTree};
use cfg_base::symbol::TIdx;
use lrpar::flat::{FlatNode, Visit};
use parser_kit::ParserKit;
use report_forms::TreeNode;
use std::alloc::{AllocError, Global};
use text_messages::part;

/// Returns a node as a value, below the one of this number.
fn node_value<'a>(
    grm: &'a Grammar,
    input: &'a str,
    node: WordNode,
    parent: Option<usize>,
) -> TreeNode<'a>
    ensures { CanShowPiece grm.entry.now lexeme_lex input.entry.now (Some (piece_of itself node)) → shown_of result ≡ node_of grm.entry.now input.entry.now (Some (piece_of itself node)) parent }
{
    match node {
        FlatNode::Term { lexeme } => {
            let (start, end) = (lexeme.span.start(), lexeme.span.end());
            TreeNode {
                kind: "token",
                name: token_name(grm, TIdx(lexeme.tok_id)),
                start,
                end,
                parent,
                text: Some(part(input, start, end)),
            }
        }
        FlatNode::Nonterm {
            pidx,
            span,
            below: _,
        } => TreeNode {
            kind: "rule",
            name: rule_name(grm, pidx),
            start: span.start(),
            end: span.end(),
            parent,
            text: None,
        },
    }
}

/// Adds the node of an index, below the one of this number.
fn push_node<'a>(
    grm: &'a Grammar,
    input: &'a str,
    nodes: &[WordNode],
    index: usize,
    parent: Option<usize>,
    found: &mut Vec<TreeNode<'a>>,
) -> Result<(), AllocError>
    ensures { CanShowPiece grm.entry.now lexeme_lex input.entry.now (slice_get (pieces_of itself nodes.now) index) →
        OnOk result (map shown_of found.new.items ≡ map shown_of found.old.items ++ node_of grm.entry.now input.entry.now (slice_get (pieces_of itself nodes.now) index) parent ∷ []) }
{
    match node_at(nodes, index) {
        Some(node) => {
            found.push(node_value(grm, input, node, parent))?;
            Ok(())
        }
        None => Ok(()),
    }
}

/// Returns visited nodes. The numbers of those above the next one wait.
fn visited_nodes<'a>(
    alloc: Global,
    grm: &'a Grammar,
    input: &'a str,
    nodes: &[WordNode],
    visits: &[Visit],
) -> Result<Vec<TreeNode<'a>>, AllocError>
    ensures { IfOk result (λ v. CanVisit grm.entry.now lexeme_lex input.entry.now (pieces_of itself nodes.now) visits.now →
        map shown_of v.items ≡ nodes_from grm.entry.now input.entry.now (pieces_of itself nodes.now) [] 0 visits.now) }
{
    let mut found = Vec::new(alloc);
    let mut above: Vec<usize> = Vec::new(alloc);
    'visits: for number in 0..visits.len() {
        let visit = visits[number];
        above.truncate(visit.depth);
        let parent = above.last().copied();
        above.push(number)?;
        push_node(grm, input, nodes, visit.index, parent, &mut found)?;
    }
    Ok(found)
}

/// Returns the nodes of a tree, each before those below it.
pub(crate) fn nodes_of<'a>(
    alloc: Global,
    grm: &'a Grammar,
    input: &'a str,
    tree: &WordTree,
) -> Result<Vec<TreeNode<'a>>, AllocError>
    ensures { IfOk result (λ v. ShowsNodes grm.entry.now input.entry.now tree.now v.items) }
{
    let visits = tree.preorder(alloc)?;
    visited_nodes(alloc, grm, input, tree.nodes(), visits.as_slice())
}

/// Returns the nodes of the tree that `parse_lexed` found of a text, each before those below it; none where it found errors.
pub fn tree_nodes<'a>(
    alloc: Global,
    kit: &'a ParserKit<u32>,
    text: &'a str,
    parsed: &Parsed,
) -> Result<Option<Vec<TreeNode<'a>>>, AllocError>
    ensures { IfOk result (λ nodes. HasNodes kit.entry.now.parser.grammar text.entry.now parsed.now (option_map (λ v. v.items) nodes)) }
{
    match parsed {
        Parsed::Tree(tree) => Ok(Some(nodes_of(alloc, kit.grm(), text, tree)?)),
        Parsed::Unlexed(_) => Ok(None),
        Parsed::Unparsed(_) => Ok(None),
    }
}
