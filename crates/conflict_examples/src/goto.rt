//! The state that a string of symbols leads to.

ghost use Rattle.std.specs.Prelude.{reverse, IsTrue, IfSome};
ghost use Rattle.lr_theory.specs.Graph.{Leads};
ghost use Rattle.cfg_numbered.specs.Symbols.{syms_of};
ghost use Rattle.state_table.specs.Graphs.{graph_of};

use cfg_base::index::IndexStorage;
use cfg_base::symbol::Symbol;
use state_table::stategraph::StateGraph;
use state_table::stidx::StIdx;

/// Returns the state that the symbols lead to from the start state, if there is one.
fn state_after<S: IndexStorage>(graph: &StateGraph<S>, symbols: &[Symbol<S>]) -> Option<StIdx<S>>
    ensures { IfSome result (λ s. Leads (graph_of graph.now) (reverse (syms_of S.number symbols.now)) (S.number s.0)) }
{
    let mut state = graph.start_state();
    'symbols: for k in 0..symbols.len() {
        let Some(next) = graph.edge(state, symbols[k]) else {
            return None;
        };
        state = next;
    }
    Some(state)
}

/// Returns whether the symbols lead to the state.
pub(crate) fn leads_to<S: IndexStorage>(
    graph: &StateGraph<S>,
    symbols: &[Symbol<S>],
    stidx: StIdx<S>,
) -> bool
    ensures { IsTrue result → Leads (graph_of graph.now) (reverse (syms_of S.number symbols.now)) (S.number stidx.0) }
{
    match state_after(graph, symbols) {
        Some(state) => state.0.to_usize() == stidx.0.to_usize(),
        None => false,
    }
}
