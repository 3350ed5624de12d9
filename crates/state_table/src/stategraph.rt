//! State graphs: the states of a grammar with their cores, their closures and the edges between them.

ghost use Rattle.std.specs.Prelude.{◌≡◌, ◌<◌, ◌↔◌, ℕ, [], length, get_or, min, option_map, IsTrue};
ghost use Rattle.std.specs.Iterator.{YieldsFirstBy, item_count};
ghost use Rattle.std.specs.List.{range_with_len};
ghost use Rattle.std.specs.Ordering.{nat_cmp};
ghost use Rattle.std.specs.Slice.Iter.{iter_rest};
ghost use Rattle.cfg_numbered.specs.Symbols.{sym_of};
ghost use Rattle.lr_theory.specs.Building.{same_symbol};
ghost use Rattle.state_table.specs.GraphViews.{edges_seen, graph_seen};
ghost use Rattle.state_table.specs.Graphs.{IsGraphValue, edge_count, graph_of, target_in};

use crate::itemset::Itemset;
pub use crate::stidx::StIdx;
use cfg_base::index::{IndexOrder, IndexStorage};
use cfg_base::symbol::Symbol;
use std::hash::Hash;
use std::marker::{Model, PhantomData};
use std::slice::Iter;

/// Proves that equality, order and hash of a state's index are those of its number.
pub fn state_index_is_its_number<S: IndexOrder>()
    ensures equal { (a b : StIdx S) → ⟦<StIdx<S> as PartialEq>⟧.eq a b ≡ S.eq a.0 b.0 }
    ensures order { (a b : StIdx S) → ⟦<StIdx<S> as Ord>⟧.cmp a b ≡ nat_cmp (S.number a.0) (S.number b.0) }
    ensures hash { (a : StIdx S) → ⟦<StIdx<S> as Hash>⟧.hash_input a ≡ S.hash_input a.0 }
{}

/// The graph of a grammar's states. Contracts see the cores and the closures as lists of item sets. For each state
/// they see the symbols and the targets of its edges, ascending by symbol.
#[derive(Drop)]
pub struct StateGraph<S: IndexStorage> {
    cores: Vec<Itemset<S>>,
    /// The closure of each state, but none for a core that is its own closure.
    closed: Vec<Option<Itemset<S>>>,
    edges: Vec<Vec<(Symbol<S>, StIdx<S>)>>,
}

impl<S: IndexStorage> Model for StateGraph<S> {
    ghost use Rattle.state_table.specs.Graphs.{GraphValue, IsGraphValue};
    ghost use Rattle.state_table.specs.GraphViews.{graph_seen};

    ghost Value = { GraphValue };

    ghost view = { λ g. graph_seen S.number g.cores.items g.closed.items g.edges.items };

    ghost invariant = { λ g. IsGraphValue S.MAX (graph_seen S.number g.cores.items g.closed.items g.edges.items) };
}

/// Returns the graph of these cores, closures and edges, whose first state is the start state, for crates that build
/// states. `None` among the closures is for a core that is its own closure.
pub fn of_lists<S: IndexStorage>(
    cores: Vec<Itemset<S>>,
    closed: Vec<Option<Itemset<S>>>,
    edges: Vec<Vec<(Symbol<S>, StIdx<S>)>>,
) -> StateGraph<S>
    requires { IsGraphValue S.MAX (graph_seen S.number cores.items closed.items edges.items) }
    ensures { result ≡ graph_seen S.number cores.items closed.items edges.items }
{
    StateGraph {
        cores,
        closed,
        edges,
    }
}

impl<S: IndexStorage> StateGraph<S> {
    /// Returns the state in which a run starts.
    pub fn start_state(&self) -> StIdx<S>
        ensures value { S.number result.0 ≡ self.now.start }
        ensures within { self.now.start < length self.now.cores }
    {
        // For the proof alone: this read gives it the invariant of each graph.
        let _cores = &self.cores;
        StIdx(S::from_usize(0).unwrap())
    }

    /// Returns how many states there are.
    pub fn all_states_len(&self) -> StIdx<S>
        ensures value { S.number result.0 ≡ length self.now.cores }
        ensures graph { IsGraphValue S.MAX self.now }
    {
        StIdx(S::from_usize(self.cores.len()).unwrap())
    }

    /// Returns how many edges there are, at most `usize::MAX`.
    pub fn all_edges_len(&self) -> usize
        ensures { result ≡ min (edge_count self.now) usize.MAX }
    {
        let mut count: usize = 0;
        'lists: for index in 0..self.edges.len() {
            count = count.saturating_add(self.edges[index].len());
        }
        count
    }

    /// Returns the state of a number. A loop over all states is `for number in
    /// 0..graph.all_states_len().0.to_usize()`.
    pub fn state_at(&self, number: usize) -> StIdx<S>
        requires { number < length self.now.cores }
        ensures { S.number result.0 ≡ number }
    {
        let _cores = &self.cores;
        StIdx(S::from_usize(number).unwrap())
    }

    /// Returns whether this is a state of the graph.
    pub fn has_state(&self, stidx: StIdx<S>) -> bool
        ensures { IsTrue result ↔ S.number stidx.0 < length self.now.cores }
    {
        stidx.0.to_usize() < self.cores.len()
    }

    /// Returns the core of a state.
    pub fn core_state(&self, stidx: StIdx<S>) -> &Itemset<S>
        requires { S.number stidx.0 < length self.now.cores }
        ensures { result.now ≡ get_or self.now.cores (S.number stidx.0) [] }
    {
        &self.cores[stidx.0.to_usize()]
    }

    /// Returns the closure of a state.
    pub fn closed_state(&self, stidx: StIdx<S>) -> &Itemset<S>
        requires { S.number stidx.0 < length self.now.cores }
        ensures { result.now ≡ get_or self.now.closed (S.number stidx.0) [] }
    {
        let number = stidx.0.to_usize();
        match &self.closed[number] {
            Some(closure) => closure,
            None => &self.cores[number],
        }
    }

    /// Returns the edges of a state: symbols with the states that they lead to, ascending by symbol.
    pub fn edges(&self, stidx: StIdx<S>) -> &[(Symbol<S>, StIdx<S>)]
        requires { S.number stidx.0 < length self.now.cores }
        ensures { edges_seen S.number result.now ≡ get_or self.now.edges (S.number stidx.0) [] }
    {
        self.edges[stidx.0.to_usize()].as_slice()
    }

    /// Returns the state that the edge on a symbol leads to, if there is one.
    pub fn edge(&self, stidx: StIdx<S>, sym: Symbol<S>) -> Option<StIdx<S>>
        ensures { option_map (λ s. S.number s.0) result ≡ (graph_of self.now).edge (S.number stidx.0) (sym_of S.number sym) }
    {
        let number = stidx.0.to_usize();
        if number >= self.edges.len() {
            return None;
        }
        find_edge(self.edges[number].as_slice(), sym)
    }

    /// Walks over the states, from 0 up.
    pub fn iter_stidxs(&self) -> StIdxs<S>
        ensures { result ≡ range_with_len 0 (length self.now.cores) }
    {
        StIdxs {
            next: 0,
            end: self.cores.len(),
            storage: PhantomData,
        }
    }

    /// Walks over the cores of the states, in order.
    pub fn iter_core_states(&self) -> Iter<'_, Itemset<S>>
        ensures { iter_rest result ≡ self.now.cores }
    {
        self.cores.iter()
    }

    /// Walks over the closures of the states, in order.
    pub fn iter_closed_states(&self) -> ClosedStates<'_, S>
        ensures { result ≡ self.now.closed }
    {
        ClosedStates {
            graph: self,
            next: 0,
        }
    }
}

/// Returns whether two symbols are one.
pub fn same_symbols<S: IndexStorage>(a: Symbol<S>, b: Symbol<S>) -> bool
    ensures { result ≡ same_symbol (sym_of S.number a) (sym_of S.number b) }
{
    match (a, b) {
        (Symbol::Rule(a), Symbol::Rule(b)) => a.0.to_usize() == b.0.to_usize(),
        (Symbol::Token(a), Symbol::Token(b)) => a.0.to_usize() == b.0.to_usize(),
        _ => false,
    }
}

/// Returns the state that the edge on a symbol leads to, if there is one.
fn find_edge<S: IndexStorage>(
    edges: &[(Symbol<S>, StIdx<S>)],
    symbol: Symbol<S>,
) -> Option<StIdx<S>>
    ensures { option_map (λ s. S.number s.0) result ≡ target_in (edges_seen S.number edges.now) (sym_of S.number symbol) }
{
    'edges: for i in 0..edges.len() {
        if same_symbols(symbol, edges[i].0) {
            return Some(edges[i].1);
        }
    }
    None
}

/// States in order. Contracts see the numbers that are left.
#[derive(Drop)]
pub struct StIdxs<S: IndexStorage> {
    next: usize,
    end: usize,
    storage: PhantomData<S>,
}

impl<S: IndexStorage> Model for StIdxs<S> {
    ghost use Rattle.std.specs.Prelude.{ℕ, List, ◌-◌, ◌≤◌};
    ghost use Rattle.std.specs.List.{range_with_len};

    ghost Value = { List ℕ };

    ghost view = { λ w. range_with_len w.next (w.end - w.next) };

    ghost invariant = { λ w. (w.next ≤ w.end) × (w.end ≤ S.MAX) };
}

impl<S: IndexStorage> Iterator for StIdxs<S> {
    type Item = StIdx<S>;

    ghost next_gives = { YieldsFirstBy (λ s. S.number s.0) (λ w. w) };

    ghost remaining = { item_count (λ w. w) };

    fn next(&mut self) -> Option<StIdx<S>> {
        if self.next == self.end {
            return None;
        }
        let number = self.next;
        self.next += 1;
        Some(StIdx(S::from_usize(number).unwrap()))
    }
}

/// The closures of a graph's states, in order. Contracts see those that are left.
#[derive(Drop)]
pub struct ClosedStates<'a, S: IndexStorage> {
    graph: &'a StateGraph<S>,
    next: usize,
}

impl<'a, S: IndexStorage> Model for ClosedStates<'a, S> {
    ghost use Rattle.std.specs.Prelude.{List, length, drop, ◌≤◌};
    ghost use Rattle.lr_theory.specs.Itemset.{ItemSet};

    ghost Value = { List ItemSet };

    ghost view = { λ w. drop w.next w.graph.now.closed };

    ghost invariant = { λ w. w.next ≤ length w.graph.now.closed };
}

impl<'a, S: IndexStorage> Iterator for ClosedStates<'a, S> {
    type Item = &'a Itemset<S>;

    ghost next_gives = { YieldsFirstBy (λ s. s.now) (λ w. w) };

    ghost remaining = { item_count (λ w. w) };

    fn next(&mut self) -> Option<&'a Itemset<S>> {
        let graph = self.graph;
        let number = self.next;
        if number == graph.all_states_len().0.to_usize() {
            return None;
        }
        self.next = number + 1;
        Some(graph.closed_state(graph.state_at(number)))
    }
}
