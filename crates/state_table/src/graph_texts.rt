//! State graphs as texts.

ghost use Rattle.std.specs.Prelude.{◌≡◌, ◌<◌, ◌≤◌, ◌⊎◌, ◌++◌, ◌∷◌, [], ℕ, List, Bool, true, false, codes, cond, length, map, get_or, IfOk, OnOk, replicate, All};
ghost use Rattle.std.specs.List.{flat_map};
ghost use Rattle.std.specs.String.{string_bytes};
ghost use Rattle.cfg_theory.specs.Grammar.{InRange, body_of};
ghost use Rattle.cfg_numbered.specs.Symbols.{sym_of, syms_of};
ghost use Rattle.lr_theory.specs.Itemset.{Entry, FitsGrammar};
ghost use Rattle.state_table.specs.GraphTexts.{token_text, symbol_text, spaced, dotted, looks_text, head_text, item_text, edge_text, edges_to, by_target, NoneLead, state_lines, line, lines_text, front_width, number_front, state_text, graph_text, sets_of};
ghost use Rattle.state_table.specs.GraphViews.{edges_seen};
ghost use Rattle.state_table.specs.Graphs.{IsGraphOf};

use crate::conflicts::shown_name;
use crate::itemset::Itemset;
use crate::stategraph::StateGraph;
use crate::stidx::StIdx;
use cfg_base::index::IndexStorage;
use cfg_base::symbol::{PIdx, SIdx, Symbol, TIdx};
use cfg_numbered::yacc::NumberedGrammar;
use std::alloc::{AllocError, Global};
use vob::Vob;

/// Puts a token between quotation marks.
fn push_token<S: IndexStorage>(
    text: &mut String,
    grm: &NumberedGrammar<S>,
    tidx: TIdx<S>,
) -> Result<(), AllocError>
    requires { S.number tidx.0 < grm.now.grammar.tokens }
    ensures { OnOk result (string_bytes text.new ≡ string_bytes text.old ++ token_text grm.now (S.number tidx.0)) }
{
    text.push_str("'")?;
    text.push_str(shown_name(grm, tidx))?;
    text.push_str("'")?;
    Ok(())
}

/// Puts a symbol: a rule's name, or a token between quotation marks.
fn push_symbol<S: IndexStorage>(
    text: &mut String,
    grm: &NumberedGrammar<S>,
    symbol: Symbol<S>,
) -> Result<(), AllocError>
    requires { InRange grm.now.grammar (sym_of S.number symbol) }
    ensures { OnOk result (string_bytes text.new ≡ string_bytes text.old ++ symbol_text grm.now (sym_of S.number symbol)) }
{
    match symbol {
        Symbol::Rule(ridx) => {
            text.push_str(grm.rule_name_str(ridx))?;
            Ok(())
        }
        Symbol::Token(tidx) => push_token(text, grm, tidx),
    }
}

/// Puts a space and a symbol.
fn push_spaced<S: IndexStorage>(
    text: &mut String,
    grm: &NumberedGrammar<S>,
    symbol: Symbol<S>,
) -> Result<(), AllocError>
    requires { InRange grm.now.grammar (sym_of S.number symbol) }
    ensures { OnOk result (string_bytes text.new ≡ string_bytes text.old ++ spaced grm.now (sym_of S.number symbol)) }
{
    text.push_str(" ")?;
    push_symbol(text, grm, symbol)?;
    Ok(())
}

/// Puts symbols, a space before each.
fn push_symbols<S: IndexStorage>(
    text: &mut String,
    grm: &NumberedGrammar<S>,
    symbols: &[Symbol<S>],
) -> Result<(), AllocError>
    requires { All (InRange grm.now.grammar) (syms_of S.number symbols.now) }
    ensures { OnOk result (string_bytes text.new ≡ string_bytes text.old ++ flat_map (spaced grm.now) (syms_of S.number symbols.now)) }
{
    'symbols: for i in 0..symbols.len() {
        push_spaced(text, grm, symbols[i])?;
    }
    Ok(())
}

/// Puts the symbols of a production with a dot among them.
fn push_dotted<S: IndexStorage>(
    text: &mut String,
    grm: &NumberedGrammar<S>,
    pidx: PIdx<S>,
    dot: SIdx<S>,
) -> Result<(), AllocError>
    requires production { S.number pidx.0 < length grm.now.grammar.productions }
    requires dot { S.number dot.0 ≤ length (body_of grm.now.grammar (S.number pidx.0)) }
    ensures { OnOk result (string_bytes text.new ≡ string_bytes text.old ++ dotted grm.now (body_of grm.now.grammar (S.number pidx.0)) (S.number dot.0)) }
{
    // For the proof alone: this read gives it the invariant of each grammar.
    let _start = grm.start_prod();
    let (passed, left) = grm.prod(pidx).split_at(dot.0.to_usize());
    push_symbols(text, grm, passed)?;
    text.push_str(" .")?;
    push_symbols(text, grm, left)?;
    Ok(())
}

/// Returns the separator before a token: nothing before the first.
fn comma(follows: bool) -> &'static str
    ensures { result.now ≡ cond follows (codes ", ") [] }
{
    if follows { ", " } else { "" }
}

/// Puts the separator before a token, and the token.
fn push_look<S: IndexStorage>(
    text: &mut String,
    grm: &NumberedGrammar<S>,
    follows: bool,
    token: usize,
) -> Result<(), AllocError>
    requires { token < grm.now.grammar.tokens }
    ensures { OnOk result (string_bytes text.new ≡ string_bytes text.old ++ (cond follows (codes ", ") [] ++ token_text grm.now token)) }
{
    text.push_str(comma(follows))?;
    push_token(text, grm, grm.token_at(token))?;
    Ok(())
}

/// Puts the tokens of a set between curly brackets.
fn push_looks<S: IndexStorage>(
    text: &mut String,
    grm: &NumberedGrammar<S>,
    looks: &Vob,
) -> Result<(), AllocError>
    requires { length looks.now.bits ≡ grm.now.grammar.tokens }
    ensures { OnOk result (string_bytes text.new ≡ string_bytes text.old ++ looks_text grm.now looks.now.bits) }
{
    text.push_str("{")?;
    let mut follows = false;
    'looks: for token in looks.iter_set_bits(..) {
        push_look(text, grm, follows, token)?;
        follows = true;
    }
    text.push_str("}")?;
    Ok(())
}

/// Puts the front of an item: the rule of its production.
fn push_head<S: IndexStorage>(
    text: &mut String,
    grm: &NumberedGrammar<S>,
    pidx: PIdx<S>,
) -> Result<(), AllocError>
    requires { S.number pidx.0 < length grm.now.grammar.productions }
    ensures { OnOk result (string_bytes text.new ≡ string_bytes text.old ++ head_text grm.now (S.number pidx.0)) }
{
    let _start = grm.start_prod();
    text.push_str("[")?;
    text.push_str(grm.rule_name_str(grm.prod_to_rule(pidx)))?;
    text.push_str(" ->")?;
    Ok(())
}

/// Returns the item at an index as text.
fn item_line<S: IndexStorage>(
    alloc: Global,
    grm: &NumberedGrammar<S>,
    set: &Itemset<S>,
    index: usize,
) -> Result<String, AllocError>
    requires within { index < length set.now }
    requires fits { FitsGrammar grm.now.grammar set.now }
    ensures { IfOk result (λ text. (e : Entry) → string_bytes text ≡ item_text grm.now (get_or set.now index e)) }
{
    let (pidx, dot) = set.item_at(index);
    let mut text = String::new(alloc);
    push_head(&mut text, grm, pidx)?;
    push_dotted(&mut text, grm, pidx, dot)?;
    text.push_str(", ")?;
    push_looks(&mut text, grm, set.looks_at(index))?;
    text.push_str("]")?;
    Ok(text)
}

/// Returns an edge as text.
fn edge_line<S: IndexStorage>(
    alloc: Global,
    grm: &NumberedGrammar<S>,
    symbol: Symbol<S>,
    number: usize,
) -> Result<String, AllocError>
    requires { InRange grm.now.grammar (sym_of S.number symbol) }
    ensures { IfOk result (λ text. string_bytes text ≡ edge_text grm.now (sym_of S.number symbol, number)) }
{
    let target = format!(in alloc; " -> {number}")?;
    let mut text = String::new(alloc);
    push_symbol(&mut text, grm, symbol)?;
    text.push_str(target.as_str())?;
    Ok(text)
}

/// Puts the items of a set behind lines.
fn push_items<S: IndexStorage>(
    alloc: Global,
    lines: &mut Vec<String>,
    grm: &NumberedGrammar<S>,
    set: &Itemset<S>,
) -> Result<(), AllocError>
    requires { FitsGrammar grm.now.grammar set.now }
    ensures { OnOk result (map string_bytes lines.new.items ≡ map string_bytes lines.old.items ++ map (item_text grm.now) set.now) }
{
    'items: for i in 0..set.len() {
        let shown = item_line(alloc, grm, set, i)?;
        lines.push(shown)?;
    }
    Ok(())
}

/// Puts an edge behind lines, if it leads to a state.
#[tactic(auto, using(crate::proofs::GraphTexts::edge_kept, crate::proofs::GraphTexts::edge_left))]
fn push_edge<S: IndexStorage>(
    alloc: Global,
    lines: &mut Vec<String>,
    grm: &NumberedGrammar<S>,
    symbol: Symbol<S>,
    number: usize,
    target: usize,
) -> Result<(), AllocError>
    requires { InRange grm.now.grammar (sym_of S.number symbol) }
    ensures { OnOk result (map string_bytes lines.new.items ≡ map string_bytes lines.old.items ++ map (edge_text grm.now) (edges_to ((sym_of S.number symbol, number) ∷ []) target)) }
{
    if number != target {
        return Ok(());
    }
    let shown = edge_line(alloc, grm, symbol, number)?;
    lines.push(shown)?;
    Ok(())
}

/// Puts the edges that lead to a state behind lines.
fn push_edges_to<S: IndexStorage>(
    alloc: Global,
    lines: &mut Vec<String>,
    grm: &NumberedGrammar<S>,
    edges: &[(Symbol<S>, StIdx<S>)],
    target: usize,
) -> Result<(), AllocError>
    requires { All (λ e. InRange grm.now.grammar e.0) (edges_seen S.number edges.now) }
    ensures { OnOk result (map string_bytes lines.new.items ≡ map string_bytes lines.old.items ++ map (edge_text grm.now) (edges_to (edges_seen S.number edges.now) target)) }
{
    'edges: for i in 0..edges.len() {
        let (symbol, stidx) = edges[i];
        push_edge(alloc, lines, grm, symbol, stidx.0.to_usize(), target)?;
    }
    Ok(())
}

/// Returns the lesser of a target and another number, or that other where the target lies before a third.
fn lesser(target: usize, from: usize, least: usize) -> usize
    ensures least { result ≤ least }
    ensures range { from ≤ least → from ≤ result }
    ensures passed { (target < from) ⊎ (result ≤ target) }
{
    if target < from {
        return least;
    }
    target.min(least)
}

/// Returns the least target from a number on, or the last number where no lesser one is a target.
fn next_target<S: IndexStorage>(edges: &[(Symbol<S>, StIdx<S>)], from: usize, last: usize) -> usize
    requires { from ≤ last }
    ensures range { (from ≤ result) × (result ≤ last) }
    ensures passed { NoneLead (edges_seen S.number edges.now) from result }
{
    let mut least = last;
    'edges: for i in 0..edges.len() {
        let edge = edges[i];
        least = lesser(edge.1.0.to_usize(), from, least);
    }
    least
}

/// Puts edges behind lines, by their targets, which are below a number.
fn push_edges<S: IndexStorage>(
    alloc: Global,
    lines: &mut Vec<String>,
    grm: &NumberedGrammar<S>,
    edges: &[(Symbol<S>, StIdx<S>)],
    count: usize,
) -> Result<(), AllocError>
    requires { All (λ e. InRange grm.now.grammar e.0) (edges_seen S.number edges.now) }
    ensures { OnOk result (map string_bytes lines.new.items ≡ map string_bytes lines.old.items ++ map (edge_text grm.now) (by_target count (edges_seen S.number edges.now))) }
{
    let mut from = 0;
    'targets: while from < count {
        let target = next_target(edges, from, count - 1);
        push_edges_to(alloc, lines, grm, edges, target)?;
        from = target + 1;
    }
    Ok(())
}

/// Returns the lines of a state.
fn lines_of<S: IndexStorage>(
    alloc: Global,
    grm: &NumberedGrammar<S>,
    set: &Itemset<S>,
    edges: &[(Symbol<S>, StIdx<S>)],
    count: usize,
) -> Result<Vec<String>, AllocError>
    requires fits { FitsGrammar grm.now.grammar set.now }
    requires symbols { All (λ e. InRange grm.now.grammar e.0) (edges_seen S.number edges.now) }
    ensures { IfOk result (λ lines. map string_bytes lines.items ≡ state_lines grm.now count set.now (edges_seen S.number edges.now)) }
{
    let mut lines = Vec::new(alloc);
    push_items(alloc, &mut lines, grm, set)?;
    push_edges(alloc, &mut lines, grm, edges, count)?;
    Ok(lines)
}

/// Puts a line behind its front.
fn push_line(text: &mut String, front: &str, shown: &str) -> Result<(), AllocError>
    ensures { OnOk result (string_bytes text.new ≡ string_bytes text.old ++ line front.now shown.now) }
{
    text.push_str(front)?;
    text.push_str(shown)?;
    text.push_str("\n")?;
    Ok(())
}

/// Puts lines with one front.
fn push_rest(text: &mut String, gap: &str, lines: &[String]) -> Result<(), AllocError>
    ensures { OnOk result (string_bytes text.new ≡ string_bytes text.old ++ flat_map (line gap.now) (map string_bytes lines.now)) }
{
    'lines: for i in 0..lines.len() {
        push_line(text, gap, lines[i].as_str())?;
    }
    Ok(())
}

/// Puts lines, of which the first has a front of its own.
fn push_lines(text: &mut String, front: &str, gap: &str, lines: &[String]) -> Result<(), AllocError>
    ensures { OnOk result (string_bytes text.new ≡ string_bytes text.old ++ lines_text front.now gap.now (map string_bytes lines.now)) }
{
    match lines.split_first() {
        Some((first, rest)) => {
            push_line(text, front, first.as_str())?;
            push_rest(text, gap, rest)?;
            Ok(())
        }
        None => Ok(()),
    }
}

/// Returns the spaces in front of a state's lines: as many characters as the greatest number below `count` takes with
/// its `: `.
fn gap_of(alloc: Global, count: usize) -> Result<String, AllocError>
    ensures { IfOk result (λ gap. string_bytes gap ≡ replicate (front_width count) 32) }
{
    let greatest = count.saturating_sub(1);
    let widest = format!(in alloc; "{greatest}: ")?;
    let gap = " ".repeat(alloc, widest.as_str().len())?;
    Ok(gap)
}

/// Returns the front of a state's first line.
fn front_of(alloc: Global, width: usize, number: usize) -> Result<String, AllocError>
    ensures { IfOk result (λ front. string_bytes front ≡ number_front width number) }
{
    let mut front = format!(in alloc; "{number}:")?;
    let filling = " ".repeat(alloc, width.saturating_sub(front.as_str().len()))?;
    front.push_str(filling.as_str())?;
    Ok(front)
}

/// Returns the core of a state, or its closure.
fn shown_set<S: IndexStorage>(
    graph: &StateGraph<S>,
    stidx: StIdx<S>,
    core_states: bool,
) -> &Itemset<S>
    requires { S.number stidx.0 < length graph.now.cores }
    ensures { result.now ≡ get_or (sets_of core_states graph.now) (S.number stidx.0) [] }
{
    if core_states {
        return graph.core_state(stidx);
    }
    graph.closed_state(stidx)
}

/// A graph that is shown as text.
#[derive(Drop)]
struct ShownGraph<'a, S: IndexStorage> {
    grm: &'a NumberedGrammar<S>,
    graph: &'a StateGraph<S>,
    /// The spaces in front of a state's further lines.
    gap: &'a str,
    /// Whether states are shown by their cores.
    core_states: bool,
}

/// Puts the lines of a state.
fn push_state<S: IndexStorage>(
    alloc: Global,
    text: &mut String,
    shown: &ShownGraph<'_, S>,
    stidx: StIdx<S>,
) -> Result<(), AllocError>
    requires state { S.number stidx.0 < length shown.now.graph.now.cores }
    requires graph { IsGraphOf shown.now.grm.now.grammar shown.now.graph.now }
    requires gap { shown.now.gap.now ≡ replicate (front_width (length shown.now.graph.now.cores)) 32 }
    ensures { OnOk result (string_bytes text.new ≡ string_bytes text.old ++ state_text shown.now.grm.now shown.now.graph.now (sets_of shown.now.core_states shown.now.graph.now) (S.number stidx.0)) }
{
    let _start = shown.grm.start_prod();
    let states = shown.graph.all_states_len();
    let count = states.0.to_usize();
    let number = stidx.0.to_usize();
    let set = shown_set(shown.graph, stidx, shown.core_states);
    let edges = shown.graph.edges(stidx);
    let lines = lines_of(alloc, shown.grm, set, edges, count)?;
    let front = front_of(alloc, shown.gap.len(), number)?;
    push_lines(text, front.as_str(), shown.gap, lines.as_slice())?;
    Ok(())
}

/// Puts the lines of all states.
fn push_states<S: IndexStorage>(
    alloc: Global,
    text: &mut String,
    shown: &ShownGraph<'_, S>,
) -> Result<(), AllocError>
    requires graph { IsGraphOf shown.now.grm.now.grammar shown.now.graph.now }
    requires gap { shown.now.gap.now ≡ replicate (front_width (length shown.now.graph.now.cores)) 32 }
    ensures { OnOk result (string_bytes text.new ≡ string_bytes text.old ++ graph_text shown.now.grm.now shown.now.graph.now (sets_of shown.now.core_states shown.now.graph.now)) }
{
    let last = shown.graph.all_states_len();
    let count = last.0.to_usize();
    'states: for number in 0..count {
        let stidx = shown.graph.state_at(number);
        push_state(alloc, text, shown, stidx)?;
    }
    Ok(())
}

impl<S: IndexStorage> StateGraph<S> {
    /// Returns the graph as text, by the cores of its states or by their closures. Each state has its items in
    /// order, then its edges by target, each on a line. `grm` is the graph's own grammar.
    pub fn pp(
        &self,
        alloc: Global,
        grm: &NumberedGrammar<S>,
        core_states: bool,
    ) -> Result<String, AllocError>
        requires { IsGraphOf grm.now.grammar self.now }
        ensures { IfOk result (λ text. string_bytes text ≡ graph_text grm.now self.now (sets_of core_states self.now)) }
    {
        let last = self.all_states_len();
        let count = last.0.to_usize();
        let gap = gap_of(alloc, count)?;
        let mut text = String::new(alloc);
        let shown = ShownGraph {
            grm,
            graph: self,
            gap: gap.as_str(),
            core_states,
        };
        push_states(alloc, &mut text, &shown)?;
        Ok(text)
    }

    /// Returns the graph as text by the cores of its states, as `pp` does.
    pub fn pp_core_states(
        &self,
        alloc: Global,
        grm: &NumberedGrammar<S>,
    ) -> Result<String, AllocError>
        requires { IsGraphOf grm.now.grammar self.now }
        ensures { IfOk result (λ text. string_bytes text ≡ graph_text grm.now self.now self.now.cores) }
    {
        self.pp(alloc, grm, true)
    }

    /// Returns the graph as text by the closures of its states, as `pp` does.
    pub fn pp_closed_states(
        &self,
        alloc: Global,
        grm: &NumberedGrammar<S>,
    ) -> Result<String, AllocError>
        requires { IsGraphOf grm.now.grammar self.now }
        ensures { IfOk result (λ text. string_bytes text ≡ graph_text grm.now self.now self.now.closed) }
    {
        self.pp(alloc, grm, false)
    }
}
