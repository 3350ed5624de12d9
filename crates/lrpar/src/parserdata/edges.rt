//! Edges in order: the index of the one on a symbol, and the first that shouldn't be there.

ghost use Rattle.std.specs.Prelude.{◌≡◌, ◌<◌, ◌≤◌, Some, length, slice_get};
ghost use Rattle.cfg_theory.specs.Grammar.{rule, token};
ghost use Rattle.cfg_numbered.specs.Symbols.{sym_of};
ghost use Rattle.state_table.specs.CellViews.{state_of};
ghost use Rattle.state_table.specs.Graphs.{AreInOrder, target_in, SymBefore};
ghost use Rattle.state_table.specs.GraphViews.{edge_seen, edges_seen};
ghost use Rattle.lrpar.specs.Reducing.{rule_number, token_number};
ghost use Rattle.lrpar.specs.Fitting.{LeastNot, Passed, StopsBefore, BadRule, BadToken, NoneBad, TellsBad};
ghost use Rattle.cfg_theory.specs.Decides.{Decides};

use crate::parserdata::items::same_symbols;
use cfg_base::index::IndexStorage;
use cfg_base::symbol::{RIdx, Symbol, TIdx};
use state_table::StIdx;

/// Returns whether a symbol comes before another one.
fn is_before<S: IndexStorage>(a: Symbol<S>, b: Symbol<S>) -> bool
    ensures { Decides (SymBefore (sym_of S.number a) (sym_of S.number b)) result }
{
    match (a, b) {
        (Symbol::Rule(a), Symbol::Rule(b)) => a.0.to_usize() < b.0.to_usize(),
        (Symbol::Token(a), Symbol::Token(b)) => a.0.to_usize() < b.0.to_usize(),
        (Symbol::Rule(_), Symbol::Token(_)) => true,
        (Symbol::Token(_), Symbol::Rule(_)) => false,
    }
}

/// Returns the edge at an index.
pub(crate) fn edge_at<S: IndexStorage>(
    edges: &[(Symbol<S>, StIdx<S>)],
    index: usize,
) -> (Symbol<S>, StIdx<S>)
    requires { index < length edges.now }
    ensures { slice_get (edges_seen S.number edges.now) index ≡ Some (edge_seen S.number result) }
{
    edges[index]
}

/// Returns the first index from `from` on whose edge isn't on a symbol before this one.
pub(crate) fn first_not_before<S: IndexStorage>(
    edges: &[(Symbol<S>, StIdx<S>)],
    from: usize,
    symbol: Symbol<S>,
) -> usize
    requires { Passed (edges_seen S.number edges.now) from (sym_of S.number symbol) }
    ensures passed { Passed (edges_seen S.number edges.now) result (sym_of S.number symbol) }
    ensures stops { StopsBefore (edges_seen S.number edges.now) result (sym_of S.number symbol) }
{
    'edges: for index in from..edges.len() {
        let (found, _) = edge_at(edges, index);
        if !is_before(found, symbol) {
            return index;
        }
    }
    edges.len()
}

/// Returns the target of the edge on a symbol, which is at this index if there is one.
pub(crate) fn target_at<S: IndexStorage>(
    edges: &[(Symbol<S>, StIdx<S>)],
    index: usize,
    symbol: Symbol<S>,
) -> Option<StIdx<S>>
    requires order { AreInOrder (edges_seen S.number edges.now) }
    requires passed { Passed (edges_seen S.number edges.now) index (sym_of S.number symbol) }
    requires stops { StopsBefore (edges_seen S.number edges.now) index (sym_of S.number symbol) }
    ensures { state_of S.number result ≡ target_in (edges_seen S.number edges.now) (sym_of S.number symbol) }
{
    if index >= edges.len() {
        return None;
    }
    let (found, target) = edge_at(edges, index);
    if !same_symbols(found, symbol) {
        return None;
    }
    Some(target)
}

/// Returns the token of an edge that leads into the start state.
fn token_into<S: IndexStorage>(edge: (Symbol<S>, StIdx<S>), start: StIdx<S>) -> Option<TIdx<S>>
    ensures { TellsBad (edge_seen S.number edge) token (BadToken (S.number start.0)) (token_number S.number result) }
{
    let (symbol, target) = edge;
    match symbol {
        Symbol::Rule(_) => None,
        Symbol::Token(tidx) => {
            if target.0.to_usize() == start.0.to_usize() {
                return Some(tidx);
            }
            None
        }
    }
}

/// Returns the rule of an edge that leads into the start state, or that is on no rule below the count.
fn rule_into<S: IndexStorage>(
    edge: (Symbol<S>, StIdx<S>),
    start: StIdx<S>,
    rules: RIdx<S>,
) -> Option<RIdx<S>>
    ensures { TellsBad (edge_seen S.number edge) rule (BadRule (S.number start.0) (S.number rules.0)) (rule_number S.number result) }
{
    let (symbol, target) = edge;
    match symbol {
        Symbol::Token(_) => None,
        Symbol::Rule(ridx) => {
            if target.0.to_usize() == start.0.to_usize() {
                return Some(ridx);
            }
            if ridx.0.to_usize() >= rules.0.to_usize() {
                return Some(ridx);
            }
            None
        }
    }
}

/// Returns the least token on which an edge leads into the start state.
pub(crate) fn least_token_into<S: IndexStorage>(
    edges: &[(Symbol<S>, StIdx<S>)],
    start: StIdx<S>,
) -> Option<TIdx<S>>
    requires { AreInOrder (edges_seen S.number edges.now) }
    ensures { LeastNot (NoneBad (edges_seen S.number edges.now) token (BadToken (S.number start.0))) (token_number S.number result) }
{
    'edges: for index in 0..edges.len() {
        if let Some(tidx) = token_into(edge_at(edges, index), start) {
            return Some(tidx);
        }
    }
    None
}

/// Returns the least rule on which an edge leads into the start state, or which isn't below the count and has an
/// edge.
pub(crate) fn least_rule_into<S: IndexStorage>(
    edges: &[(Symbol<S>, StIdx<S>)],
    start: StIdx<S>,
    rules: RIdx<S>,
) -> Option<RIdx<S>>
    requires { AreInOrder (edges_seen S.number edges.now) }
    ensures { LeastNot (NoneBad (edges_seen S.number edges.now) rule (BadRule (S.number start.0) (S.number rules.0))) (rule_number S.number result) }
{
    'edges: for index in 0..edges.len() {
        if let Some(ridx) = rule_into(edge_at(edges, index), start, rules) {
            return Some(ridx);
        }
    }
    None
}
