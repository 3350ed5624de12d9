//! The text of an outline over a line, node by node.

ghost use Rattle.std.specs.Prelude.{◌≡◌, ◌<◌, ◌++◌, List, length, Ok, Some, IfOk, OnOk, slice_get};
ghost use Rattle.std.specs.List.{flat_map};
ghost use Rattle.cfg_theory.specs.Tree.{Tree, yield};
ghost use Rattle.parse_trees.specs.FlatLines.{CanShowTree};
ghost use Rattle.parse_trees.specs.Lexemes.{AreItems};
ghost use Rattle.parse_trees.specs.OutlineLines.{CanShowSymbol, CanShowSymbols, symbol_visit_line};
ghost use Rattle.parse_trees.specs.Outlines.{IsLeft, IsOutline, symbol_of, symbols, visit_of};
ghost use Rattle.word_lines.specs.Lexing.{lex_of};
ghost use Rattle.word_lines.specs.LineTexts.{value_text};
ghost use Rattle.word_lines.specs.NodeRows.{AreNamed};

use crate::lexeme::{WordLexError, WordLexeme};
use crate::node_lines::NodeLines;
use cfg_base::index::{IndexOrder, IndexStorage};
use lrpar::Outline;
use lrpar::outline::{OutlineSymbol, OutlineVisit, OutlineWalk};
use std::alloc::{AllocError, Global};

/// Begins a walk over the nodes of a tree in the order in which they are shown.
pub fn shown_symbols<'t, S: IndexOrder>(
    alloc: Global,
    shown: &NodeLines<'_, S>,
    line: &str,
    outline: &'t Outline<S, WordLexeme<S>>,
) -> Result<OutlineWalk<'t, S, WordLexeme<S>>, AllocError>
    ensures left { (t : Tree (WordLexeme S)) → IsOutline t outline.now → IfOk result (λ w. IsLeft (WordLexeme S) S.number w.nodes.now w.waiting.items w.seen (symbols 0 0 t)) }
    ensures can { (t : Tree (WordLexeme S)) → CanShowTree shown.now (lex_of S.number) line.now t → CanShowSymbols shown.now (lex_of S.number) line.now (yield t) (symbols 0 0 t) }
    ensures text { (t : Tree (WordLexeme S)) → flat_map (symbol_visit_line shown.now (lex_of S.number) line.now (yield t)) (symbols 0 0 t) ≡ value_text S.number shown.now line.now (Some t) }
{
    outline.walk(alloc)
}

/// Returns the item of a number.
fn item_at<S: IndexStorage>(
    items: &[Result<WordLexeme<S>, WordLexError>],
    number: usize,
) -> Result<WordLexeme<S>, WordLexError>
    requires { number < length items.now }
    ensures { slice_get items.now number ≡ Some result }
{
    items[number]
}

/// Returns the lexeme of a number.
fn lexeme_at<S: IndexStorage>(
    items: &[Result<WordLexeme<S>, WordLexError>],
    number: usize,
) -> WordLexeme<S>
    requires { (lexemes : List (WordLexeme S)) × (x : WordLexeme S) × AreItems items.now lexemes × (slice_get lexemes number ≡ Some x) }
    ensures lexeme { (lexemes : List (WordLexeme S)) → AreItems items.now lexemes → slice_get lexemes number ≡ Some result }
    ensures item { slice_get items.now number ≡ Some (Ok result) }
{
    match item_at(items, number) {
        Ok(lexeme) => lexeme,
        Err(_) => unreachable!(),
    }
}

/// Returns what the node of a visit is.
fn symbol_at<S: IndexStorage>(visit: OutlineVisit<S>) -> OutlineSymbol<S>
    ensures { result ≡ visit.symbol }
{
    visit.symbol
}

/// Adds the line of a node of an outline. The lexemes of the line are its leaves, and the text of each is its token's name.
#[inline(always)]
pub fn push_symbol<S: IndexStorage>(
    shown: &NodeLines<'_, S>,
    line: &str,
    items: &[Result<WordLexeme<S>, WordLexError>],
    visit: OutlineVisit<S>,
    text: &mut Vec<u8>,
) -> Result<(), AllocError>
    requires named { AreNamed S.number shown.now line.now items.now }
    requires can { (lexemes : List (WordLexeme S)) × AreItems items.now lexemes × CanShowSymbol shown.now (lex_of S.number) line.now lexemes (symbol_of S.number visit.symbol) }
    ensures { (lexemes : List (WordLexeme S)) → AreItems items.now lexemes → OnOk result (text.new.items ≡ text.old.items ++ symbol_visit_line shown.now (lex_of S.number) line.now lexemes (visit_of S.number visit)) }
{
    let depth = visit.depth;
    match symbol_at(visit) {
        OutlineSymbol::Leaf(number) => shown.push_lexeme(
            line,
            depth,
            lexeme_at(items, number),
            text,
        ),
        OutlineSymbol::Prod(pidx) => shown.push_prod(depth, pidx, text),
    }
}
