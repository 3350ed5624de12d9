//! The text of a tree, which goes out as it is made. What is short waits for that of the next line.

ghost use Rattle.std.specs.Prelude.{◌≡◌, ◌++◌, List, Option, IfErr, OnOk, OnErr};
ghost use Rattle.std.specs.Io.KnownBytes.{Appends};
ghost use Rattle.std.specs.List.{flat_map};
ghost use Rattle.byte_streams.specs.Sink.{BeginningWritten, IsOutBut};
ghost use Rattle.cfg_theory.specs.Tree.{Tree, yield};
ghost use Rattle.parse_trees.specs.FlatLines.{CanShowTree, CanVisit, visit_line};
ghost use Rattle.lrpar.specs.FlatParses.{HasFlat};
ghost use Rattle.parse_trees.specs.FlatTrees.{IsFlat, pieces_of};
ghost use Rattle.parse_trees.specs.Lex.{span_by};
ghost use Rattle.parse_trees.specs.Lexemes.{AreItems};
ghost use Rattle.parse_trees.specs.OutlineLines.{CanShowSymbols, symbol_visit_line};
ghost use Rattle.parse_trees.specs.Outlines.{IsLeft, IsOutline, SymbolVisit};
ghost use Rattle.word_lines.specs.Lexing.{lex_of};
ghost use Rattle.word_lines.specs.LineTexts.{TreeCanBeShown, value_text};
ghost use Rattle.word_lines.specs.NodeRows.{AreNamed};
ghost use Rattle.lrkit.specs.Output.{Word, id};
ghost use Rattle.lrkit.specs.Run.{IsLate, IsWriteCause};

use crate::fault::RunFault;
use byte_streams::{Sink, write_all, write_long};
use cfg_numbered::yacc::NumberedGrammar;
use lrpar::flat::{FlatNode, Visit};
use lrpar::outline::OutlineWalk;
use lrpar::{FlatTree, Outline};
use parser_kit::GrammarKit;
use std::alloc::Global;
use word_lines::outlines::{push_symbol, shown_symbols};
use word_lines::trees::{push_node, shown_nodes};
use word_lines::{NodeLines, RepairLines, WordLexError, WordLexeme};

type LineTree = FlatTree<u32, WordLexeme<u32>>;

/// What each line is answered by: a parser, the repairs, and the names of the parser's grammar in lines of nodes.
#[derive(Drop)]
pub(crate) struct Answers<'a> {
    pub alloc: Global,
    pub kit: &'a GrammarKit<u32>,
    pub repairs: &'a RepairLines<u32>,
    pub shown: &'a NodeLines<'a, u32>,
    ghost same: { shown.now ≡ kit.now.grammar },
}

/// Adds the text of the tree, if there is one, to what waits, which is written whenever it is long.
pub(crate) fn write_tree<W: Sink>(
    alloc: Global,
    grm: &NumberedGrammar<u32>,
    line: &str,
    tree: &Option<LineTree>,
    text: &mut Vec<u8>,
    out: &mut W,
) -> Result<(), RunFault>
    requires { TreeCanBeShown id grm.now line.now tree.now }
    ensures ok { (t : Option (Tree Word)) → HasFlat (span_by (lex_of id)) tree.now t → OnOk result (IsOutBut (W.known out.old) (W.known out.new) (text.old.items ++ value_text id grm.now line.now t) text.new.items) }
    ensures late { IfErr result IsLate }
    ensures begins { (t : Option (Tree Word)) → HasFlat (span_by (lex_of id)) tree.now t → OnErr result (BeginningWritten (W.known out.old) (W.known out.new) (text.old.items ++ value_text id grm.now line.now t)) }
    ensures cause { IfErr result (IsWriteCause (W.faults out.old) (W.faults out.new)) }
    ensures kept { OnOk result (W.faults out.new ≡ W.faults out.old) }
{
    match tree {
        Some(tree) => write_nodes(alloc, grm, line, tree, text, out),
        None => give_out(text, out),
    }
}

/// Adds the text of a tree, by its outline and the items of its line, to what waits, which is written whenever it is long.
pub(crate) fn write_outline<W: Sink>(
    answers: &Answers<'_>,
    line: &str,
    items: &[Result<WordLexeme<u32>, WordLexError>],
    outline: &Outline<u32, WordLexeme<u32>>,
    text: &mut Vec<u8>,
    out: &mut W,
) -> Result<(), RunFault>
    requires named { AreNamed id answers.now.shown.now line.now items.now }
    requires can { (t : Tree Word) × AreItems items.now (yield t) × IsOutline t outline.now × CanShowTree answers.now.shown.now (lex_of id) line.now t }
    ensures ok { (t : Tree Word) → AreItems items.now (yield t) → IsOutline t outline.now → OnOk result (IsOutBut (W.known out.old) (W.known out.new) (text.old.items ++ value_text id answers.now.shown.now line.now (Option.Some t)) text.new.items) }
    ensures late { IfErr result IsLate }
    ensures begins { (t : Tree Word) → AreItems items.now (yield t) → IsOutline t outline.now → OnErr result (BeginningWritten (W.known out.old) (W.known out.new) (text.old.items ++ value_text id answers.now.shown.now line.now (Option.Some t))) }
    ensures cause { IfErr result (IsWriteCause (W.faults out.old) (W.faults out.new)) }
    ensures kept { OnOk result (W.faults out.new ≡ W.faults out.old) }
{
    let mut walk = shown_symbols(answers.alloc, answers.shown, line, outline)?;
    write_symbols(answers.shown, line, items, &mut walk, text, out)
}

// Adds the lines of the nodes of a walk to what waits, and writes it whenever it is long.
fn write_symbols<W: Sink>(
    shown: &NodeLines<'_, u32>,
    line: &str,
    items: &[Result<WordLexeme<u32>, WordLexError>],
    walk: &mut OutlineWalk<'_, u32, WordLexeme<u32>>,
    text: &mut Vec<u8>,
    out: &mut W,
) -> Result<(), RunFault>
    requires named { AreNamed id shown.now line.now items.now }
    requires can { (lexemes : List Word) × (rest : List SymbolVisit) × AreItems items.now lexemes × IsLeft Word id walk.old.nodes.now walk.old.waiting.items walk.old.seen rest × CanShowSymbols shown.now (lex_of id) line.now lexemes rest }
    ensures ok { (lexemes : List Word) (rest : List SymbolVisit) → AreItems items.now lexemes → IsLeft Word id walk.old.nodes.now walk.old.waiting.items walk.old.seen rest →
        OnOk result (IsOutBut (W.known out.old) (W.known out.new) (text.old.items ++ flat_map (symbol_visit_line shown.now (lex_of id) line.now lexemes) rest) text.new.items) }
    ensures late { IfErr result IsLate }
    ensures begins { (lexemes : List Word) (rest : List SymbolVisit) → AreItems items.now lexemes → IsLeft Word id walk.old.nodes.now walk.old.waiting.items walk.old.seen rest →
        OnErr result (BeginningWritten (W.known out.old) (W.known out.new) (text.old.items ++ flat_map (symbol_visit_line shown.now (lex_of id) line.now lexemes) rest)) }
    ensures cause { IfErr result (IsWriteCause (W.faults out.old) (W.faults out.new)) }
    ensures kept { OnOk result (W.faults out.new ≡ W.faults out.old) }
{
    'nodes: for _ in 0..walk.nodes.len() {
        match walk.step()? {
            Some(visit) => {
                push_symbol(shown, line, items, visit, text)?;
                give_out(text, out)?;
            }
            None => return Ok(()),
        }
    }
    Ok(())
}

// Adds the text of the tree to what waits.
fn write_nodes<W: Sink>(
    alloc: Global,
    grm: &NumberedGrammar<u32>,
    line: &str,
    tree: &LineTree,
    text: &mut Vec<u8>,
    out: &mut W,
) -> Result<(), RunFault>
    requires { TreeCanBeShown id grm.now line.now (Option.Some tree.now) }
    ensures ok { (t : Tree Word) → IsFlat (span_by (lex_of id)) t tree.now.pieces → OnOk result (IsOutBut (W.known out.old) (W.known out.new) (text.old.items ++ value_text id grm.now line.now (Option.Some t)) text.new.items) }
    ensures late { IfErr result IsLate }
    ensures begins { (t : Tree Word) → IsFlat (span_by (lex_of id)) t tree.now.pieces → OnErr result (BeginningWritten (W.known out.old) (W.known out.new) (text.old.items ++ value_text id grm.now line.now (Option.Some t))) }
    ensures cause { IfErr result (IsWriteCause (W.faults out.old) (W.faults out.new)) }
    ensures kept { OnOk result (W.faults out.new ≡ W.faults out.old) }
{
    let visits = shown_nodes(alloc, grm, line, tree)?;
    write_visits(grm, line, tree.nodes(), visits.as_slice(), text, out)
}

// Adds the lines of these nodes to what waits, and writes it whenever it is long.
fn write_visits<W: Sink>(
    grm: &NumberedGrammar<u32>,
    line: &str,
    nodes: &[FlatNode<u32, WordLexeme<u32>>],
    visits: &[Visit],
    text: &mut Vec<u8>,
    out: &mut W,
) -> Result<(), RunFault>
    requires { CanVisit grm.now (lex_of id) line.now (pieces_of id nodes.now) visits.now }
    ensures ok { OnOk result (IsOutBut (W.known out.old) (W.known out.new) (text.old.items ++ flat_map (visit_line grm.now (lex_of id) line.now (pieces_of id nodes.now)) visits.now) text.new.items) }
    ensures late { IfErr result IsLate }
    ensures begins { OnErr result (BeginningWritten (W.known out.old) (W.known out.new) (text.old.items ++ flat_map (visit_line grm.now (lex_of id) line.now (pieces_of id nodes.now)) visits.now)) }
    ensures cause { IfErr result (IsWriteCause (W.faults out.old) (W.faults out.new)) }
    ensures kept { OnOk result (W.faults out.new ≡ W.faults out.old) }
{
    'visits: for visit in visits {
        push_node(grm, line, nodes, *visit, text)?;
        give_out(text, out)?;
    }
    Ok(())
}

/// Writes what waits, if it is long.
pub(crate) fn give_out<W: Sink>(text: &mut Vec<u8>, out: &mut W) -> Result<(), RunFault>
    ensures ok { OnOk result (IsOutBut (W.known out.old) (W.known out.new) text.old.items text.new.items) }
    ensures late { IfErr result IsLate }
    ensures begins { OnErr result (BeginningWritten (W.known out.old) (W.known out.new) text.old.items) }
    ensures cause { IfErr result (IsWriteCause (W.faults out.old) (W.faults out.new)) }
    ensures kept { OnOk result (W.faults out.new ≡ W.faults out.old) }
{
    match write_long(out, text) {
        Ok(()) => Ok(()),
        Err(_) => Err(RunFault::Write),
    }
}

/// Writes what waits.
pub(crate) fn write_rest<W: Sink>(text: &[u8], out: &mut W) -> Result<(), RunFault>
    ensures ok { OnOk result (Appends (W.known out.old) (W.known out.new) text.now) }
    ensures late { IfErr result IsLate }
    ensures begins { OnErr result (BeginningWritten (W.known out.old) (W.known out.new) text.now) }
    ensures cause { IfErr result (IsWriteCause (W.faults out.old) (W.faults out.new)) }
    ensures kept { OnOk result (W.faults out.new ≡ W.faults out.old) }
{
    match write_all(out, text) {
        Ok(()) => Ok(()),
        Err(_) => Err(RunFault::Write),
    }
}
