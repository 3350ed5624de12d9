//! The predecessors of the states of a graph.

use crate::beginnings::{empty_lists, list_at, push_at};
use cfg_base::index::IndexStorage;
use cfg_base::symbol::Symbol;
use state_table::stategraph::StateGraph;
use state_table::stidx::StIdx;
use std::alloc::{AllocError, Global};

/// For each state those from which an edge leads to it, and the last but one of a shortest path from the start state.
#[derive(Drop)]
pub(crate) struct Predecessors<S> {
    all: Vec<Vec<StIdx<S>>>,
    nearest: Vec<Option<StIdx<S>>>,
}

impl<S: IndexStorage> Predecessors<S> {
    /// Goes through the edges of a graph, breadth first from the start state.
    pub(crate) fn new(alloc: Global, graph: &StateGraph<S>) -> Result<Predecessors<S>, AllocError> {
        let count = graph.all_states_len().0.to_usize();
        let mut nearest = Vec::new(alloc);
        nearest.resize(count, None)?;
        let mut predecessors = Predecessors {
            all: empty_lists(alloc, count)?,
            nearest,
        };
        let mut queue = Vec::new(alloc);
        queue.push(graph.start_state())?;
        'queue: for index in 0..count {
            if index < queue.len() && graph.has_state(queue[index]) {
                let edges = graph.edges(queue[index]);
                predecessors.go_on(edges, queue[index], &mut queue)?;
            }
        }
        Ok(predecessors)
    }

    /// Lists a state with those that its edges lead to, and appends those of them that weren't reached before.
    fn go_on(
        &mut self,
        edges: &[(Symbol<S>, StIdx<S>)],
        from: StIdx<S>,
        queue: &mut Vec<StIdx<S>>,
    ) -> Result<(), AllocError> {
        'edges: for k in 0..edges.len() {
            let (_, target) = edges[k];
            let number = target.0.to_usize();
            push_at(&mut self.all, number, from)?;
            if number < self.nearest.len() && self.nearest[number].is_none() {
                self.nearest[number] = Some(from);
                queue.push(target)?;
            }
        }
        Ok(())
    }

    /// Returns the states from which an edge leads to the state.
    pub(crate) fn of(&self, stidx: StIdx<S>) -> &[StIdx<S>] {
        list_at(self.all.as_slice(), stidx.0.to_usize())
    }

    /// Returns the states of a shortest path to the state, the start state first.
    pub(crate) fn shortest_path(
        &self,
        alloc: Global,
        graph: &StateGraph<S>,
        stidx: StIdx<S>,
    ) -> Result<Vec<StIdx<S>>, AllocError> {
        let mut states = Vec::new(alloc);
        let start = graph.start_state().0.to_usize();
        let mut at = stidx;
        'edges: for _ in 0..self.nearest.len() {
            states.push(at)?;
            let number = at.0.to_usize();
            if number == start || number >= self.nearest.len() {
                break 'edges;
            }
            let Some(from) = self.nearest[number] else {
                break 'edges;
            };
            at = from;
        }
        states.as_mut_slice().reverse();
        Ok(states)
    }
}
