//! A node of a tree as a line: the rule's name, or the token's name and its part of the text, a space deeper than the node above.

ghost use Rattle.std.specs.Prelude.{◌≡◌, ◌<◌, ◌++◌, length, slice_get, Some, OnOk};
ghost use Rattle.cfg_theory.specs.Grammar.{head_of};
ghost use Rattle.parse_trees.specs.FlatLines.{CanShowPiece, piece_line, visit_line};
ghost use Rattle.parse_trees.specs.FlatTrees.{piece_of, pieces_of};
ghost use Rattle.parse_trees.specs.Shapes.{HasText, lexeme_line, rule_line};
ghost use Rattle.text_parses.specs.Parses.{itself, lexeme_lex};

use crate::names::{Grammar, rule_name, token_name};
use crate::repeated::push_repeated;
use cfg_base::symbol::{PIdx, TIdx};
use lrlex::DefaultLexeme;
use lrpar::flat::{FlatNode, Visit};
use std::alloc::AllocError;
use text_messages::part;

/// A node of a tree over the lexemes of a text.
pub type WordNode = FlatNode<u32, DefaultLexeme<u32>>;

/// Adds the line of a production's node.
#[tactic(auto, unfolding(parse_trees::specs::Shapes::rule_line))]
pub(crate) fn push_rule_line(
    grm: &Grammar,
    pidx: PIdx<u32>,
    depth: usize,
    text: &mut Vec<u8>,
) -> Result<(), AllocError>
    ensures { pidx.0 < length grm.now.grammar.productions → OnOk result (text.new.items ≡ text.old.items ++ rule_line grm.now depth (head_of grm.now.grammar pidx.0)) }
{
    push_repeated(b' ', depth, text)?;
    text.extend_from_slice(rule_name(grm, pidx).as_bytes())?;
    text.push(b'\n')?;
    Ok(())
}

/// Adds the line of a lexeme.
#[tactic(auto, unfolding(parse_trees::specs::Shapes::lexeme_line))]
pub(crate) fn push_lexeme_line(
    grm: &Grammar,
    input: &str,
    lexeme: DefaultLexeme<u32>,
    depth: usize,
    text: &mut Vec<u8>,
) -> Result<(), AllocError>
    ensures { HasText grm.now lexeme_lex input.now lexeme → OnOk result (text.new.items ≡ text.old.items ++ lexeme_line grm.now lexeme_lex input.now depth lexeme) }
{
    let span = lexeme.span;
    push_repeated(b' ', depth, text)?;
    text.extend_from_slice(token_name(grm, TIdx(lexeme.tok_id)).as_bytes())?;
    text.push(b' ')?;
    text.extend_from_slice(part(input, span.start(), span.end()).as_bytes())?;
    text.push(b'\n')?;
    Ok(())
}

/// Adds the line of a node.
fn push_line(
    grm: &Grammar,
    input: &str,
    node: WordNode,
    depth: usize,
    text: &mut Vec<u8>,
) -> Result<(), AllocError>
    ensures { CanShowPiece grm.now lexeme_lex input.now (Some (piece_of itself node)) → OnOk result (text.new.items ≡ text.old.items ++ piece_line grm.now lexeme_lex input.now depth (Some (piece_of itself node))) }
{
    match node {
        FlatNode::Term { lexeme } => push_lexeme_line(grm, input, lexeme, depth, text),
        FlatNode::Nonterm {
            pidx,
            span: _,
            below: _,
        } => push_rule_line(grm, pidx, depth, text),
    }
}

/// Returns the node of an index, if there is one.
pub fn node_at(nodes: &[WordNode], index: usize) -> Option<WordNode>
    ensures { result ≡ slice_get nodes.now index }
{
    nodes.get(index).copied()
}

/// Adds the line of a visited node.
pub fn push_visit(
    grm: &Grammar,
    input: &str,
    nodes: &[WordNode],
    visit: Visit,
    text: &mut Vec<u8>,
) -> Result<(), AllocError>
    ensures { CanShowPiece grm.now lexeme_lex input.now (slice_get (pieces_of itself nodes.now) visit.index) →
        OnOk result (text.new.items ≡ text.old.items ++ visit_line grm.now lexeme_lex input.now (pieces_of itself nodes.now) visit) }
{
    match node_at(nodes, visit.index) {
        Some(node) => push_line(grm, input, node, visit.depth, text),
        None => Ok(()),
    }
}
