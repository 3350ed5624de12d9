//! Whether the cells and gotos of a state fit a grammar.

ghost use Rattle.std.specs.Prelude.{◌≡◌, ◌<◌, ℕ, true, Option, Some, IfSome, length, slice_get};
ghost use Rattle.cfg_theory.specs.Grammar.{Grammar, rule, token};
ghost use Rattle.lr_theory.specs.Itemset.{ItemSet};
ghost use Rattle.state_table.specs.CellViews.{action_of, state_of, targets_of};
ghost use Rattle.state_table.specs.declared.cells.Action.TheVariants as actions;
ghost use Rattle.state_table.specs.Graphs.{AreInOrder, target_in};
ghost use Rattle.state_table.specs.GraphViews.{edges_seen};
ghost use Rattle.state_table.specs.TableValues.{action_at, goto_at};
ghost use Rattle.lrpar.specs.Reducing.{rule_number, token_number};
ghost use Rattle.lrpar.specs.Fitting.{LeastNot, OfGrammar, JustifiesAction, ReducesWell, GoesFrom, HasGotos, AreEdges, least_of};
ghost use Rattle.cfg_theory.specs.Decides.{Decides};

use crate::numbers::index_below;
use crate::parserdata::edges::{edge_at, first_not_before, target_at};
use crate::parserdata::items::has_end;
use crate::parserdata::tested_state::TestedState;
use crate::rows::{cell_of_row, goto_of_row};
use cfg_base::index::IndexStorage;
use cfg_base::symbol::{PIdx, RIdx, SIdx, Symbol, TIdx};
use cfg_numbered::yacc::grammar::NumberedGrammar;
use state_table::{Action, Itemset, StIdx};

/// Returns whether two states are one, or there is none on both sides.
fn same_states<S: IndexStorage>(a: Option<StIdx<S>>, b: Option<StIdx<S>>) -> bool
    ensures { Decides (state_of S.number a ≡ state_of S.number b) result }
{
    match (a, b) {
        (Some(a), Some(b)) => a.0.to_usize() == b.0.to_usize(),
        (None, None) => true,
        _ => false,
    }
}

/// Returns whether a shift on a token fits: it goes along the edge, and the token isn't the end token.
fn shift_fits<S: IndexStorage>(
    grm: &NumberedGrammar<S>,
    items: &Itemset<S>,
    edge: Option<StIdx<S>>,
    tidx: TIdx<S>,
    target: StIdx<S>,
) -> bool
    ensures { Decides (JustifiesAction grm.now.grammar items.now (state_of S.number edge) (S.number tidx.0) (action_of S.number (actions.Shift target))) result }
{
    if !same_states(edge, Some(target)) {
        return false;
    }
    tidx.0.to_usize() != grm.eof_token_idx().0.to_usize()
}

/// Returns whether a reduction fits: its production is complete there, and isn't the start production.
fn reduce_fits<S: IndexStorage>(
    grm: &NumberedGrammar<S>,
    items: &Itemset<S>,
    edge: Option<StIdx<S>>,
    tidx: TIdx<S>,
    pidx: PIdx<S>,
) -> bool
    requires { OfGrammar grm.now.grammar items.now }
    ensures { Decides (JustifiesAction grm.now.grammar items.now (state_of S.number edge) (S.number tidx.0) (action_of S.number (actions.Reduce pidx))) result }
{
    if pidx.0.to_usize() == grm.start_prod().0.to_usize() {
        return false;
    }
    has_end(grm, items, pidx)
}

/// Returns whether accepting on a token fits: the start production is complete there, and it is the end token.
fn accept_fits<S: IndexStorage>(
    grm: &NumberedGrammar<S>,
    items: &Itemset<S>,
    edge: Option<StIdx<S>>,
    tidx: TIdx<S>,
) -> bool
    requires { OfGrammar grm.now.grammar items.now }
    ensures { Decides (JustifiesAction grm.now.grammar items.now (state_of S.number edge) (S.number tidx.0) (action_of S.number actions.Accept)) result }
{
    if tidx.0.to_usize() != grm.eof_token_idx().0.to_usize() {
        return false;
    }
    has_end(grm, items, grm.start_prod())
}

/// Returns whether an action on a token fits.
fn action_fits<S: IndexStorage>(
    grm: &NumberedGrammar<S>,
    items: &Itemset<S>,
    edge: Option<StIdx<S>>,
    tidx: TIdx<S>,
    action: Action<S>,
) -> bool
    requires { OfGrammar grm.now.grammar items.now }
    ensures { Decides (JustifiesAction grm.now.grammar items.now (state_of S.number edge) (S.number tidx.0) (action_of S.number action)) result }
{
    match action {
        Action::Shift(target) => shift_fits(grm, items, edge, tidx, target),
        Action::Reduce(pidx) => reduce_fits(grm, items, edge, tidx, pidx),
        Action::Accept => accept_fits(grm, items, edge, tidx),
        Action::Error => true,
    }
}

/// Returns whether an action reduces by the production of which that was seen to fit.
fn is_seen<S: IndexStorage>(seen: Option<PIdx<S>>, action: Action<S>) -> bool
    ensures { result ≡ true → (G : Grammar) (i : ItemSet) (edge : Option ℕ) (t : ℕ) → ReducesWell S.number G i seen → JustifiesAction G i edge t (action_of S.number action) }
{
    match (seen, action) {
        (Some(seen), Action::Reduce(pidx)) => seen.0.to_usize() == pidx.0.to_usize(),
        _ => false,
    }
}

/// Returns the production of a reduction that fits, or else the one before.
fn seen_after<S: IndexStorage>(seen: Option<PIdx<S>>, action: Action<S>) -> Option<PIdx<S>>
    ensures { (G : Grammar) (i : ItemSet) (edge : Option ℕ) (t : ℕ) → ReducesWell S.number G i seen → JustifiesAction G i edge t (action_of S.number action) → ReducesWell S.number G i result }
{
    match action {
        Action::Reduce(pidx) => Some(pidx),
        _ => seen,
    }
}

/// Returns the least token whose action doesn't fit.
pub(crate) fn least_action<S: IndexStorage>(
    state: &TestedState<'_, S>,
    edges: &[(Symbol<S>, StIdx<S>)],
) -> Option<TIdx<S>>
    requires order { AreInOrder (edges_seen S.number edges.now) }
    ensures { LeastNot (λ t. t < state.now.stable.now.tokens → JustifiesAction state.now.grm.now.grammar state.now.items.now (target_in (edges_seen S.number edges.now) (token t)) t (action_at state.now.stable.now (S.number state.now.stidx.0) t)) (token_number S.number result) }
{
    let tokens = state.stable.tokens_len().0;
    let row = state.stable.state_cells(state.stidx);
    let mut at = 0;
    let mut seen = None;
    'cells: for index in 0..row.len() {
        let (number, action) = cell_of_row(row, index);
        if is_seen(seen, action) {
            continue;
        }
        let tidx = TIdx(index_below(number, tokens));
        at = first_not_before(edges, at, Symbol::Token(tidx));
        let edge = target_at(edges, at, Symbol::Token(tidx));
        if !action_fits(state.grm, state.items, edge, tidx, action) {
            return Some(tidx);
        }
        seen = seen_after(seen, action);
    }
    None
}

/// Returns whether a goto is the edge at an index.
fn is_edge<S: IndexStorage>(
    edges: &[(Symbol<S>, StIdx<S>)],
    index: usize,
    number: usize,
    target: StIdx<S>,
) -> bool
    ensures { result ≡ true → slice_get (edges_seen S.number edges.now) index ≡ Some (rule number, S.number target.0) }
{
    if index >= edges.len() {
        return false;
    }
    let (symbol, to) = edge_at(edges, index);
    match symbol {
        Symbol::Rule(ridx) => {
            if ridx.0.to_usize() != number {
                return false;
            }
            to.0.to_usize() == target.0.to_usize()
        }
        Symbol::Token(_) => false,
    }
}

/// Returns whether no edge on a rule below the count is at an index.
fn ends_at<S: IndexStorage>(edges: &[(Symbol<S>, StIdx<S>)], index: usize, rules: RIdx<S>) -> bool
    ensures { result ≡ true → (A q : ℕ) → slice_get (edges_seen S.number edges.now) index ≡ Some (rule A, q) → A < S.number rules.0 → ⊥ }
{
    if index >= edges.len() {
        return true;
    }
    let (symbol, _) = edge_at(edges, index);
    match symbol {
        Symbol::Rule(ridx) => ridx.0.to_usize() >= rules.0.to_usize(),
        Symbol::Token(_) => true,
    }
}

/// Returns whether the gotos are, one by one, the edges on rules below the count.
fn are_edges<S: IndexStorage>(
    edges: &[(Symbol<S>, StIdx<S>)],
    row: &[(u32, StIdx<S>)],
    rules: RIdx<S>,
) -> bool
    ensures { result ≡ true → AreEdges (targets_of S.number row.now) (edges_seen S.number edges.now) (S.number rules.0) }
{
    'gotos: for index in 0..row.len() {
        let (number, target) = goto_of_row(row, index);
        if !is_edge(edges, index, number, target) {
            return false;
        }
    }
    ends_at(edges, row.len(), rules)
}

/// Returns the least rule whose goto isn't its edge.
pub(crate) fn least_goto<S: IndexStorage>(
    state: &TestedState<'_, S>,
    edges: &[(Symbol<S>, StIdx<S>)],
) -> Option<RIdx<S>>
    requires order { AreInOrder (edges_seen S.number edges.now) }
    ensures { LeastNot (λ A. A < state.now.stable.now.rules → goto_at state.now.stable.now (S.number state.now.stidx.0) A ≡ target_in (edges_seen S.number edges.now) (rule A)) (rule_number S.number result) }
{
    if are_edges(
        edges,
        state.stable.state_gotos(state.stidx),
        state.stable.rules_len(),
    ) {
        return None;
    }
    first_goto(state, edges)
}

/// Returns the least rule whose goto isn't its edge, by a look at each rule.
fn first_goto<S: IndexStorage>(
    state: &TestedState<'_, S>,
    edges: &[(Symbol<S>, StIdx<S>)],
) -> Option<RIdx<S>>
    requires order { AreInOrder (edges_seen S.number edges.now) }
    ensures { LeastNot (λ A. A < state.now.stable.now.rules → goto_at state.now.stable.now (S.number state.now.stidx.0) A ≡ target_in (edges_seen S.number edges.now) (rule A)) (rule_number S.number result) }
{
    let rules = state.stable.rules_len().0;
    let mut at = 0;
    'rules: for number in 0..rules.to_usize() {
        let ridx = RIdx(index_below(number, rules));
        at = first_not_before(edges, at, Symbol::Rule(ridx));
        let edge = target_at(edges, at, Symbol::Rule(ridx));
        if !same_states(state.stable.goto(state.stidx, ridx), edge) {
            return Some(ridx);
        }
    }
    None
}

/// Returns the lesser of two rules, or the one that there is.
pub(crate) fn lesser_rule<S: IndexStorage>(
    a: Option<RIdx<S>>,
    b: Option<RIdx<S>>,
) -> Option<RIdx<S>>
    ensures { rule_number S.number result ≡ least_of (rule_number S.number a) (rule_number S.number b) }
{
    match (a, b) {
        (None, _) => b,
        (Some(_), None) => a,
        (Some(x), Some(y)) => {
            if y.0.to_usize() < x.0.to_usize() {
                return Some(y);
            }
            Some(x)
        }
    }
}

/// Returns the lesser of two tokens, or the one that there is.
pub(crate) fn lesser_token<S: IndexStorage>(
    a: Option<TIdx<S>>,
    b: Option<TIdx<S>>,
) -> Option<TIdx<S>>
    ensures { token_number S.number result ≡ least_of (token_number S.number a) (token_number S.number b) }
{
    match (a, b) {
        (None, _) => b,
        (Some(_), None) => a,
        (Some(x), Some(y)) => {
            if y.0.to_usize() < x.0.to_usize() {
                return Some(y);
            }
            Some(x)
        }
    }
}

/// Returns the rule of a production that begins where there is no goto on it.
fn bare_of<S: IndexStorage>(
    state: &TestedState<'_, S>,
    pidx: PIdx<S>,
    dot: SIdx<S>,
) -> Option<RIdx<S>>
    requires production { S.number pidx.0 < length state.now.grm.now.grammar.productions }
    ensures { LeastNot (λ A. GoesFrom state.now.grm.now.grammar state.now.stable.now (S.number state.now.stidx.0) A (S.number pidx.0) (S.number dot.0)) (rule_number S.number result) }
{
    if dot.0.to_usize() != 0 {
        return None;
    }
    if pidx.0.to_usize() == state.grm.start_prod().0.to_usize() {
        return None;
    }
    let ridx = state.grm.prod_to_rule(pidx);
    match state.stable.goto(state.stidx, ridx) {
        Some(_) => None,
        None => Some(ridx),
    }
}

/// Returns whether the goto at an index of a state's row is on a rule.
fn is_goto_on<S: IndexStorage>(state: &TestedState<'_, S>, index: usize, ridx: RIdx<S>) -> bool
    ensures { result ≡ true → (q : ℕ) × (goto_at state.now.stable.now (S.number state.now.stidx.0) (S.number ridx.0) ≡ Some q) }
{
    let row = state.stable.state_gotos(state.stidx);
    if index >= row.len() {
        return false;
    }
    let (number, _) = goto_of_row(row, index);
    number == ridx.0.to_usize()
}

/// Returns the index in a state's row of the goto on a rule, where that is this index or the next; else this one, if
/// there is a goto on the rule at all.
fn goto_near<S: IndexStorage>(
    state: &TestedState<'_, S>,
    index: usize,
    ridx: RIdx<S>,
) -> Option<usize>
    requires rule { S.number ridx.0 < state.now.stable.now.rules }
    ensures { IfSome result (λ _. (q : ℕ) × (goto_at state.now.stable.now (S.number state.now.stidx.0) (S.number ridx.0) ≡ Some q)) }
{
    if is_goto_on(state, index, ridx) {
        return Some(index);
    }
    let next = index.saturating_add(1);
    if is_goto_on(state, next, ridx) {
        return Some(next);
    }
    match state.stable.goto(state.stidx, ridx) {
        Some(_) => Some(index),
        None => None,
    }
}

/// Returns the index in a state's row of the goto on the rule of a production that begins; this index where none
/// begins.
fn begun_near<S: IndexStorage>(
    state: &TestedState<'_, S>,
    index: usize,
    pidx: PIdx<S>,
    dot: SIdx<S>,
) -> Option<usize>
    requires production { S.number pidx.0 < length state.now.grm.now.grammar.productions }
    ensures { IfSome result (λ _. (A : ℕ) → GoesFrom state.now.grm.now.grammar state.now.stable.now (S.number state.now.stidx.0) A (S.number pidx.0) (S.number dot.0)) }
{
    if dot.0.to_usize() != 0 {
        return Some(index);
    }
    if pidx.0.to_usize() == state.grm.start_prod().0.to_usize() {
        return Some(index);
    }
    goto_near(state, index, state.grm.prod_to_rule(pidx))
}

/// Returns whether there is a goto on the rule of each production that begins. Items and gotos are gone through side
/// by side.
fn begin_all<S: IndexStorage>(state: &TestedState<'_, S>) -> bool
    ensures { result ≡ true → (A : ℕ) → HasGotos state.now.grm.now.grammar state.now.items.now state.now.stable.now (S.number state.now.stidx.0) A }
{
    let mut at = 0;
    'items: for index in 0..state.items.len() {
        let (pidx, dot) = state.items.item_at(index);
        match begun_near(state, at, pidx, dot) {
            Some(next) => at = next,
            None => return false,
        }
    }
    true
}

/// Returns the least rule with a production that begins where there is no goto on it.
pub(crate) fn least_bare<S: IndexStorage>(state: &TestedState<'_, S>) -> Option<RIdx<S>>
    ensures { LeastNot (HasGotos state.now.grm.now.grammar state.now.items.now state.now.stable.now (S.number state.now.stidx.0)) (rule_number S.number result) }
{
    if begin_all(state) {
        return None;
    }
    first_bare(state)
}

/// Returns the least rule with a production that begins where there is no goto on it, by a look at each item.
fn first_bare<S: IndexStorage>(state: &TestedState<'_, S>) -> Option<RIdx<S>>
    ensures { LeastNot (HasGotos state.now.grm.now.grammar state.now.items.now state.now.stable.now (S.number state.now.stidx.0)) (rule_number S.number result) }
{
    let mut least = None;
    'items: for index in 0..state.items.len() {
        let (pidx, dot) = state.items.item_at(index);
        least = lesser_rule(least, bare_of(state, pidx, dot));
    }
    least
}
