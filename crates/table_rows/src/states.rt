//! States by the numbers of their items, lookaheads and edges.

ghost use Rattle.std.specs.Prelude.{◌<◌, length};

use crate::refusals::push_number;
use cfgrammar::Symbol;
use cfgrammar::index::IndexStorage;
use lrtable::itemset::Itemset;
use lrtable::stategraph::StateGraph;
use lrtable::stidx::StIdx;
use std::alloc::{AllocError, Global};
use vob::Vob;

fn push_lookaheads(alloc: Global, out: &mut String, set: &Vob) -> Result<(), AllocError> {
    out.push('{')?;
    for number in set.iter_set_bits(..) {
        push_number(alloc, out, " ", number)?;
    }
    out.push_str(" }")
}

/// The items as their productions, dots and lookaheads.
fn push_items<S: IndexStorage>(
    alloc: Global,
    out: &mut String,
    set: &Itemset<S>,
) -> Result<(), AllocError> {
    for index in 0..set.len() {
        let (pidx, dot) = set.item_at(index);
        push_number(alloc, out, " ", usize::from(pidx))?;
        push_number(alloc, out, ".", usize::from(dot))?;
        push_lookaheads(alloc, out, set.looks_at(index))?;
    }
    Ok(())
}

/// The symbols of a state's edges, and where the edge of each leads.
fn push_edges<S: IndexStorage>(
    alloc: Global,
    out: &mut String,
    graph: &StateGraph<S>,
    stidx: StIdx<S>,
) -> Result<(), AllocError>
    requires { S.number stidx.0 < length graph.now.cores }
{
    for (symbol, _target) in graph.edges(stidx) {
        match symbol {
            Symbol::Rule(ridx) => push_number(alloc, out, " r", usize::from(*ridx))?,
            Symbol::Token(tidx) => push_number(alloc, out, " t", usize::from(*tidx))?,
        }
        if let Some(target) = graph.edge(stidx, *symbol) {
            push_number(alloc, out, " to ", usize::from(target))?;
        }
    }
    Ok(())
}

fn push_state<S: IndexStorage>(
    alloc: Global,
    out: &mut String,
    graph: &StateGraph<S>,
    stidx: StIdx<S>,
) -> Result<(), AllocError>
    requires { S.number stidx.0 < length graph.now.cores }
{
    push_number(alloc, out, "", usize::from(stidx))?;
    out.push_str(": core")?;
    push_items(alloc, out, graph.core_state(stidx))?;
    out.push_str("; closure")?;
    push_items(alloc, out, graph.closed_state(stidx))?;
    out.push_str("; edges")?;
    push_edges(alloc, out, graph, stidx)?;
    out.push('\n')
}

fn push_states<S: IndexStorage>(
    alloc: Global,
    out: &mut String,
    graph: &StateGraph<S>,
) -> Result<(), AllocError> {
    for stidx in graph.iter_stidxs() {
        if graph.has_state(stidx) {
            push_state(alloc, out, graph, stidx)?;
        }
    }
    Ok(())
}

/// The states by their numbers, and how many items their cores and closures have.
pub fn push_sets<S: IndexStorage>(
    alloc: Global,
    out: &mut String,
    graph: &StateGraph<S>,
) -> Result<(), AllocError> {
    push_states(alloc, out, graph)?;
    out.push_str("items of cores")?;
    for core in graph.iter_core_states() {
        push_number(alloc, out, " ", core.len())?;
    }
    out.push_str(", of closures")?;
    for closed in graph.iter_closed_states() {
        push_number(alloc, out, " ", closed.len())?;
    }
    out.push('\n')
}
