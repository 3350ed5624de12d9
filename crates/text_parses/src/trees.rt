//! The tree of a text, which goes out as it is made: little of its text waits at any time.

ghost use Rattle.std.specs.Prelude.{◌≡◌, ◌++◌, None, OnOk, slice_get};
ghost use Rattle.std.specs.Io.KnownBytes.{Appends};
ghost use Rattle.std.specs.List.{flat_map};
ghost use Rattle.byte_streams.specs.Sink.{IsOutBut};
ghost use Rattle.cfg_theory.specs.Tree.{Tree};
ghost use Rattle.parse_trees.specs.FlatLines.{CanShowPiece, CanShowTree, CanVisit, visit_line};
ghost use Rattle.parse_trees.specs.FlatTrees.{IsFlat, pieces_of, preorder};
ghost use Rattle.parse_trees.specs.Lex.{span_by};
ghost use Rattle.parse_trees.specs.Shapes.{shape, tree_text};
ghost use Rattle.text_parses.specs.Answers.{WritesTree};
ghost use Rattle.text_parses.specs.AskedTexts.{asked_in};
ghost use Rattle.text_parses.specs.Quoted.{node_head, sexp_from};
ghost use Rattle.text_parses.specs.declared.form.Form.TheVariants.{Dot};
ghost use Rattle.text_parses.specs.Parses.{TextLexeme, itself, lexeme_lex};

use crate::answer_fault::AnswerFault;
use crate::form::Shown;
use crate::lines::{WordNode, node_at, push_visit};
use crate::names::Grammar;
use crate::nodes::nodes_of;
use crate::parsing::WordTree;
use crate::sexps::{push_end, push_head};
use byte_streams::{Sink, write_all, write_long};
use lrpar::flat::Visit;
use report_forms::tree_dot;
use std::alloc::{AllocError, Global};

/// Adds the lines of visited nodes to what waits, and writes it whenever it is long.
fn write_visits<W: Sink>(
    grm: &Grammar,
    input: &str,
    nodes: &[WordNode],
    visits: &[Visit],
    text: &mut Vec<u8>,
    out: &mut W,
) -> Result<(), AnswerFault>
    ensures { OnOk result (CanVisit grm.now lexeme_lex input.now (pieces_of itself nodes.now) visits.now →
        IsOutBut (W.known out.old) (W.known out.new) (text.old.items ++ flat_map (visit_line grm.now lexeme_lex input.now (pieces_of itself nodes.now)) visits.now) text.new.items) }
{
    'visits: for visit in visits {
        push_visit(grm, input, nodes, *visit, text)?;
        write_long(out, text)?;
    }
    Ok(())
}

/// Writes a line for each node of a tree, behind what waits.
pub fn write_lines<W: Sink>(
    alloc: Global,
    grm: &Grammar,
    input: &str,
    tree: &WordTree,
    text: &mut Vec<u8>,
    out: &mut W,
) -> Result<(), AnswerFault>
    ensures { OnOk result ((t : Tree TextLexeme) → IsFlat (span_by lexeme_lex) t tree.now.pieces → CanShowTree grm.now lexeme_lex input.now t →
        Appends (W.known out.old) (W.known out.new) (text.old.items ++ tree_text grm.now lexeme_lex input.now 0 (shape grm.now.grammar t))) }
{
    let visits = tree.preorder(alloc)?;
    write_visits(grm, input, tree.nodes(), visits.as_slice(), text, out)?;
    write_all(out, text.as_slice())?;
    Ok(())
}

/// Writes a tree as a graph, which is called by the path.
pub fn write_dot<W: Sink>(
    alloc: Global,
    grm: &Grammar,
    shown: Shown<'_>,
    tree: &WordTree,
    out: &mut W,
) -> Result<(), AnswerFault>
    ensures { OnOk result (WritesTree Dot grm.now (asked_in shown.entry) tree.now (W.known out.old) (W.known out.new)) }
{
    let nodes = nodes_of(alloc, grm, shown.input.text, tree)?;
    let text = tree_dot(alloc, shown.input.path, nodes.as_slice())?;
    write_all(out, text.as_bytes())?;
    Ok(())
}

/// Adds the beginning of a visited node, behind one of this depth, if there is one.
fn push_visited(
    grm: &Grammar,
    input: &str,
    nodes: &[WordNode],
    visit: Visit,
    last: Option<usize>,
    text: &mut Vec<u8>,
) -> Result<(), AllocError>
    ensures { CanShowPiece grm.now lexeme_lex input.now (slice_get (pieces_of itself nodes.now) visit.index) →
        OnOk result (text.new.items ≡ text.old.items ++ node_head grm.now input.now last visit.depth (slice_get (pieces_of itself nodes.now) visit.index)) }
{
    match node_at(nodes, visit.index) {
        Some(node) => push_head(grm, input, node, visit.depth, last, text),
        None => Ok(()),
    }
}

/// Adds visited nodes as an expression to what waits, and writes it whenever it is long.
fn write_expression<W: Sink>(
    grm: &Grammar,
    input: &str,
    nodes: &[WordNode],
    visits: &[Visit],
    text: &mut Vec<u8>,
    out: &mut W,
) -> Result<(), AnswerFault>
    ensures { OnOk result (CanVisit grm.now lexeme_lex input.now (pieces_of itself nodes.now) visits.now →
        IsOutBut (W.known out.old) (W.known out.new) (text.old.items ++ sexp_from grm.now input.now (pieces_of itself nodes.now) None visits.now) text.new.items) }
{
    let mut last = None;
    'visits: for visit in visits {
        push_visited(grm, input, nodes, *visit, last, text)?;
        write_long(out, text)?;
        last = Some(visit.depth);
    }
    push_end(last, text)?;
    Ok(())
}

/// Writes a tree as one expression on a line, behind what waits.
pub fn write_sexp<W: Sink>(
    alloc: Global,
    grm: &Grammar,
    input: &str,
    tree: &WordTree,
    text: &mut Vec<u8>,
    out: &mut W,
) -> Result<(), AnswerFault>
    ensures { OnOk result ((t : Tree TextLexeme) → IsFlat (span_by lexeme_lex) t tree.now.pieces → CanShowTree grm.now lexeme_lex input.now t →
        Appends (W.known out.old) (W.known out.new) (text.old.items ++ sexp_from grm.now input.now tree.now.pieces None (preorder 0 0 t))) }
{
    let visits = tree.preorder(alloc)?;
    write_expression(grm, input, tree.nodes(), visits.as_slice(), text, out)?;
    write_all(out, text.as_slice())?;
    Ok(())
}
