//! Shortest strings that lead to states.

use cfg_base::index::IndexStorage;
use cfg_base::symbol::Symbol;
use lrtable::{StIdx, StateGraph};
use std::alloc::{AllocError, Global};

/// The edge by which a walk first came to a state.
#[derive(Clone, Copy)]
struct Step {
    from: StIdx<u32>,
    symbol: Symbol<u32>,
}

/// A walk over the states, breadth first.
#[derive(Drop)]
struct Walk {
    /// For each state the edge by which it was reached; none of the start state.
    steps: Vec<Option<Step>>,
    /// The states in the order in which they were reached.
    order: Vec<StIdx<u32>>,
}

/// Begins a walk.
fn begin_walk(alloc: Global, graph: &StateGraph<u32>) -> Result<Walk, AllocError> {
    let mut steps = Vec::new(alloc);
    for _state in 0..graph.all_states_len().0.to_usize() {
        steps.push(None)?;
    }
    let mut order = Vec::new(alloc);
    order.push(graph.start_state())?;
    Ok(Walk { steps, order })
}

/// Returns whether a state is reached for the first time, and stores the edge that led there.
fn is_new(walk: &mut Walk, to: StIdx<u32>, step: Step) -> bool {
    match walk.steps.get_mut(to.0.to_usize()) {
        Some(place) => {
            if place.is_some() {
                return false;
            }
            *place = Some(step);
            true
        }
        None => false,
    }
}

/// Follows the edges of a state.
fn follow_edges(
    walk: &mut Walk,
    graph: &StateGraph<u32>,
    from: StIdx<u32>,
) -> Result<(), AllocError> {
    if !graph.has_state(from) {
        return Ok(());
    }
    let edges = graph.edges(from);
    'edges: for index in 0..edges.len() {
        let (symbol, to) = edges[index];
        if to != graph.start_state() && is_new(walk, to, Step { from, symbol }) {
            walk.order.push(to)?;
        }
    }
    Ok(())
}

/// Returns for each state the edge by which a shortest way reaches it.
fn shortest_steps(alloc: Global, graph: &StateGraph<u32>) -> Result<Vec<Option<Step>>, AllocError> {
    let mut walk = begin_walk(alloc, graph)?;
    for index in 0..walk.steps.len() {
        if let Some(from) = walk.order.get(index).copied() {
            follow_edges(&mut walk, graph, from)?;
        }
    }
    Ok(walk.steps)
}

/// Returns the symbols on a shortest way from the start state to a state; none where no edges lead there.
pub(crate) fn string_to(
    alloc: Global,
    graph: &StateGraph<u32>,
    state: StIdx<u32>,
) -> Result<Vec<Symbol<u32>>, AllocError> {
    let steps = shortest_steps(alloc, graph)?;
    let mut symbols = Vec::new(alloc);
    let mut at = state;
    for _state in 0..steps.len() {
        let Some(Some(step)) = steps.get(at.0.to_usize()).copied() else {
            break;
        };
        symbols.push(step.symbol)?;
        at = step.from;
    }
    symbols.reverse();
    Ok(symbols)
}
