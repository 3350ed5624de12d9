//! The tree of a text by its outline, written as it is walked: little of its text waits at any time.

ghost use Rattle.std.specs.Prelude.{◌≡◌, ◌++◌, List, None, OnOk, slice_get};
ghost use Rattle.std.specs.Io.KnownBytes.{Appends};
ghost use Rattle.cfg_theory.specs.Fold.{no_span};
ghost use Rattle.cfg_theory.specs.Tree.{Tree};
ghost use Rattle.parse_trees.specs.FlatTrees.{flat, preorder};
ghost use Rattle.parse_trees.specs.Lex.{span_by};
ghost use Rattle.parse_trees.specs.Lexemes.{AreItems};
ghost use Rattle.parse_trees.specs.OutlineLines.{CanShowSymbol, symbol_visit_line};
ghost use Rattle.parse_trees.specs.Outlines.{IsOutline, symbol_of, visit_of};
ghost use Rattle.parse_trees.specs.Shapes.{shape, tree_text};
ghost use Rattle.text_parses.specs.OutlineTexts.{IsShown, symbol_head};
ghost use Rattle.text_parses.specs.Parses.{TextLexeme, itself, lexeme_lex};
ghost use Rattle.text_parses.specs.Quoted.{sexp_from};

use crate::answer_fault::AnswerFault;
use crate::lines::{push_lexeme_line, push_rule_line};
use crate::names::Grammar;
use crate::sexps::{push_closing, push_end, push_lexeme_head, push_rule_head, push_space};
use byte_streams::{Sink, write_all, write_long};
use lrlex::{DefaultLexeme, LRLexError};
use lrpar::Outline;
use lrpar::outline::{OutlineSymbol, OutlineVisit};
use std::alloc::{AllocError, Global};

/// An outline, and what its nodes are shown by: the grammar, the text and the text's items.
#[derive(Clone, Copy)]
pub(crate) struct Outlined<'a> {
    pub(crate) grm: &'a Grammar,
    pub(crate) input: &'a str,
    pub(crate) items: &'a [Result<DefaultLexeme<u32>, LRLexError>],
    pub(crate) outline: &'a Outline<u32, DefaultLexeme<u32>>,
}

/// Returns the lexeme that is the leaf of a number.
fn leaf_at(outlined: Outlined<'_>, number: usize) -> Option<DefaultLexeme<u32>>
    ensures { (lexemes : List TextLexeme) → AreItems outlined.entry.items.now lexemes → result ≡ slice_get lexemes number }
{
    match outlined.items.get(number) {
        Some(Ok(lexeme)) => Some(*lexeme),
        Some(Err(_)) => None,
        None => None,
    }
}

/// Adds the line of a node.
fn push_symbol_line(
    outlined: Outlined<'_>,
    visit: OutlineVisit<u32>,
    text: &mut Vec<u8>,
) -> Result<(), AllocError>
    ensures { (lexemes : List TextLexeme) → AreItems outlined.entry.items.now lexemes → CanShowSymbol outlined.entry.grm.now lexeme_lex outlined.entry.input.now lexemes (symbol_of itself visit.symbol) →
        OnOk result (text.new.items ≡ text.old.items ++ symbol_visit_line outlined.entry.grm.now lexeme_lex outlined.entry.input.now lexemes (visit_of itself visit)) }
{
    let grm = outlined.grm;
    match visit.symbol {
        OutlineSymbol::Leaf(number) => match leaf_at(outlined, number) {
            Some(lexeme) => push_lexeme_line(grm, outlined.input, lexeme, visit.depth, text),
            None => Ok(()),
        },
        OutlineSymbol::Prod(pidx) => push_rule_line(grm, pidx, visit.depth, text),
    }
}

/// Writes a line for each node of a tree, behind what waits.
pub(crate) fn write_outline_lines<W: Sink>(
    alloc: Global,
    outlined: Outlined<'_>,
    text: &mut Vec<u8>,
    out: &mut W,
) -> Result<(), AnswerFault>
    requires { (t : Tree TextLexeme) × IsOutline t outlined.outline.now }
    ensures { OnOk result ((t : Tree TextLexeme) → IsShown outlined.entry.grm.now outlined.entry.input.now outlined.entry.items.now outlined.entry.outline.now t →
        Appends (W.known out.old) (W.known out.new) (text.old.items ++ tree_text outlined.entry.grm.now lexeme_lex outlined.entry.input.now 0 (shape outlined.entry.grm.now.grammar t))) }
{
    let mut walk = outlined.outline.walk(alloc)?;
    'nodes: for _number in 0..outlined.outline.len() {
        match walk.step()? {
            Some(visit) => {
                push_symbol_line(outlined, visit, text)?;
                write_long(out, text)?;
            }
            None => {}
        }
    }
    write_all(out, text.as_slice())?;
    Ok(())
}

/// Adds the beginning of a node within an expression.
fn push_symbol_head(
    outlined: Outlined<'_>,
    symbol: OutlineSymbol<u32>,
    text: &mut Vec<u8>,
) -> Result<(), AllocError>
    ensures { (lexemes : List TextLexeme) → AreItems outlined.entry.items.now lexemes → CanShowSymbol outlined.entry.grm.now lexeme_lex outlined.entry.input.now lexemes (symbol_of itself symbol) →
        OnOk result (text.new.items ≡ text.old.items ++ symbol_head outlined.entry.grm.now outlined.entry.input.now lexemes (symbol_of itself symbol)) }
{
    match symbol {
        OutlineSymbol::Leaf(number) => match leaf_at(outlined, number) {
            Some(lexeme) => push_lexeme_head(outlined.grm, outlined.input, lexeme, text),
            None => Ok(()),
        },
        OutlineSymbol::Prod(pidx) => push_rule_head(outlined.grm, pidx, text),
    }
}

/// Writes a tree as one expression on a line, behind what waits.
pub(crate) fn write_outline_sexp<W: Sink>(
    alloc: Global,
    outlined: Outlined<'_>,
    text: &mut Vec<u8>,
    out: &mut W,
) -> Result<(), AnswerFault>
    requires { (t : Tree TextLexeme) × IsOutline t outlined.outline.now }
    ensures { OnOk result ((t : Tree TextLexeme) → IsShown outlined.entry.grm.now outlined.entry.input.now outlined.entry.items.now outlined.entry.outline.now t →
        Appends (W.known out.old) (W.known out.new) (text.old.items ++ sexp_from outlined.entry.grm.now outlined.entry.input.now (flat (span_by lexeme_lex) no_span t) None (preorder 0 0 t))) }
{
    let mut walk = outlined.outline.walk(alloc)?;
    let mut last = None;
    'nodes: for _number in 0..outlined.outline.len() {
        match walk.step()? {
            Some(visit) => {
                push_closing(last, visit.depth, text)?;
                push_space(visit.depth, text)?;
                push_symbol_head(outlined, visit.symbol, text)?;
                write_long(out, text)?;
                last = Some(visit.depth);
            }
            None => {}
        }
    }
    push_end(last, text)?;
    write_all(out, text.as_slice())?;
    Ok(())
}
