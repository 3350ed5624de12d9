//! Cells at which a graph and a table don't fit a grammar.

use cfg_base::symbol::{PIdx, RIdx, SIdx, TIdx};
use state_table::StIdx;

/// The part of a state at which a graph and a table don't fit a grammar.
#[derive(Clone, Copy, Debug, PartialEq, Eq)]
pub enum Cell<S> {
    /// The numbers of states, rules, tokens or productions of the grammar, the graph and the table, which differ.
    /// The state is 0.
    Counts,
    /// The state's items.
    Items,
    /// The state's action on this token.
    Token(TIdx<S>),
    /// The state's goto after this rule.
    Rule(RIdx<S>),
}

/// A cell at which a graph and a table don't fit a grammar.
#[derive(Clone, Copy, PartialEq, Eq)]
pub(crate) struct Misfit<S> {
    pub state: StIdx<S>,
    pub cell: Cell<S>,
}

/// An item past dot zero, by its production and the dot one less.
#[derive(Clone, Copy, PartialEq, Eq)]
pub(crate) struct PastItem<S> {
    pub pidx: PIdx<S>,
    pub before: SIdx<S>,
}
