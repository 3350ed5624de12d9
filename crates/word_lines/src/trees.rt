//! The text of a tree over a line, node by node.

ghost use Rattle.std.specs.Prelude.{◌≡◌, ◌<◌, ◌++◌, Some, length, replicate, slice_get, IfOk, OnOk};
ghost use Rattle.std.specs.List.{flat_map};
ghost use Rattle.cfg_theory.specs.Grammar.{end_token};
ghost use Rattle.cfg_theory.specs.Tree.{Tree};
ghost use Rattle.parse_trees.specs.FlatLines.{CanShowPiece, CanVisit, visit_line};
ghost use Rattle.parse_trees.specs.FlatTrees.{IsFlat, pieces_of};
ghost use Rattle.parse_trees.specs.Lex.{span_by};
ghost use Rattle.parse_trees.specs.Shapes.{HasText, lexeme_line, rule_line, token_text};
ghost use Rattle.word_lines.specs.Lexing.{lex_of};
ghost use Rattle.word_lines.specs.LineTexts.{TreeCanBeShown, value_text};

use crate::lexeme::WordLexeme;
use cfg_base::index::{IndexOrder, IndexStorage};
use cfg_base::symbol::{RIdx, TIdx};
use cfg_numbered::yacc::grammar::NumberedGrammar;
use lrpar::FlatTree;
use lrpar::flat::{FlatNode, Visit};
use std::alloc::{AllocError, Global};

// So many spaces are added at once.
const MOST_SPACES: usize = 65_536;

/// Returns the nodes of a tree in the order in which they are shown.
pub fn shown_nodes<S: IndexOrder>(
    alloc: Global,
    grm: &NumberedGrammar<S>,
    line: &str,
    tree: &FlatTree<S, WordLexeme<S>>,
) -> Result<Vec<Visit>, AllocError>
    requires { TreeCanBeShown S.number grm.now line.now (Some tree.now) }
    ensures can { IfOk result (λ visits. CanVisit grm.now (lex_of S.number) line.now tree.now.pieces visits.items) }
    ensures text { (t : Tree (WordLexeme S)) → IsFlat (span_by (lex_of S.number)) t tree.now.pieces →
        IfOk result (λ visits. flat_map (visit_line grm.now (lex_of S.number) line.now tree.now.pieces) visits.items ≡ value_text S.number grm.now line.now (Some t)) }
{
    let visits = tree.preorder(alloc)?;
    Ok(visits)
}

/// Adds the line of a node.
pub fn push_node<S: IndexStorage>(
    grm: &NumberedGrammar<S>,
    line: &str,
    nodes: &[FlatNode<S, WordLexeme<S>>],
    visit: Visit,
    text: &mut Vec<u8>,
) -> Result<(), AllocError>
    requires { CanShowPiece grm.now (lex_of S.number) line.now (slice_get (pieces_of S.number nodes.now) visit.index) }
    ensures { OnOk result (text.new.items ≡ text.old.items ++ visit_line grm.now (lex_of S.number) line.now (pieces_of S.number nodes.now) visit) }
{
    match node_at(nodes, visit.index) {
        FlatNode::Term { lexeme } => {
            push_lexeme(grm, line, visit.depth, lexeme, text)?;
            Ok(())
        }
        FlatNode::Nonterm {
            pidx,
            span: _,
            below: _,
        } => {
            // Read, so that the proof may use that rules are in range.
            let _start = grm.start_prod();
            push_rule(grm, visit.depth, grm.prod_to_rule(pidx), text)?;
            Ok(())
        }
    }
}

// The node of an index.
fn node_at<S: IndexStorage>(
    nodes: &[FlatNode<S, WordLexeme<S>>],
    index: usize,
) -> FlatNode<S, WordLexeme<S>>
    requires { index < length nodes.now }
    ensures { slice_get nodes.now index ≡ Some result }
{
    nodes[index]
}

// Adds a rule's line.
#[tactic(auto, unfolding(parse_trees::specs::Shapes::rule_line))]
fn push_rule<S: IndexStorage>(
    grm: &NumberedGrammar<S>,
    depth: usize,
    ridx: RIdx<S>,
    text: &mut Vec<u8>,
) -> Result<(), AllocError>
    requires { S.number ridx.0 < grm.now.grammar.rules }
    ensures { OnOk result (text.new.items ≡ text.old.items ++ rule_line grm.now depth (S.number ridx.0)) }
{
    push_spaces(depth, text)?;
    text.extend_from_slice(grm.rule_name_str(ridx).as_bytes())?;
    text.push(b'\n')?;
    Ok(())
}

// Adds a lexeme's line.
#[tactic(auto, unfolding(parse_trees::specs::Shapes::lexeme_line))]
fn push_lexeme<S: IndexStorage>(
    grm: &NumberedGrammar<S>,
    line: &str,
    depth: usize,
    lexeme: WordLexeme<S>,
    text: &mut Vec<u8>,
) -> Result<(), AllocError>
    requires { HasText grm.now (lex_of S.number) line.now lexeme }
    ensures { OnOk result (text.new.items ≡ text.old.items ++ lexeme_line grm.now (lex_of S.number) line.now depth lexeme) }
{
    let span = lexeme.span;
    push_spaces(depth, text)?;
    text.extend_from_slice(token_name(grm, TIdx(lexeme.token)).as_bytes())?;
    text.push(b' ')?;
    text.extend_from_slice((&line[span.start()..span.end()]).as_bytes())?;
    text.push(b'\n')?;
    Ok(())
}

// The name of a token that isn't the end token.
pub(crate) fn token_name<S: IndexStorage>(grm: &NumberedGrammar<S>, tidx: TIdx<S>) -> &str
    requires { S.number tidx.0 < end_token grm.now.grammar }
    ensures { result.now ≡ token_text grm.now (S.number tidx.0) }
{
    // Read, so that the proof may use what is so of each grammar.
    let _end = grm.eof_token_idx();
    match grm.token_name(tidx) {
        Some(name) => name,
        None => "",
    }
}

// Adds as many spaces.
pub(crate) fn push_spaces(count: usize, text: &mut Vec<u8>) -> Result<(), AllocError>
    ensures { OnOk result (text.new.items ≡ text.old.items ++ replicate count 32) }
{
    let mut left = count;
    'spaces: while left > 0 {
        let some = left.min(MOST_SPACES);
        text.resize(text.len() + some, b' ')?;
        left -= some;
    }
    Ok(())
}
