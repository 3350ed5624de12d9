//! Whether each item's action is in its cell.

ghost use Rattle.std.specs.Prelude.{◌≡◌, ◌<◌, ℕ, Some, true, length, option_map, slice_get};
ghost use Rattle.cfg_theory.specs.Grammar.{token, symbol_at, IsNext};
ghost use Rattle.lr_theory.specs.Automaton.{shift, reduce, accept, Complete};
ghost use Rattle.lr_theory.specs.Itemset.{HasItem};
ghost use Rattle.state_table.specs.CellViews.{action_of};
ghost use Rattle.state_table.specs.TableValues.{action_at};
ghost use Rattle.state_table.specs.Tables.{automaton_of};
ghost use Rattle.cfg_numbered.specs.Symbols.{sym_of};
ghost use Rattle.lrpar.specs.Fitting.{OfGrammar};
ghost use Rattle.cfg_theory.specs.Decides.{Decides};
ghost use Rattle.lrpar.specs.Completing.{ItemStands};

use crate::machine::Machine;
use crate::numbers::index_below;
use cfg_base::index::IndexStorage;
use cfg_base::symbol::{PIdx, SIdx, Symbol, TIdx};
use cfg_numbered::yacc::grammar::NumberedGrammar;
use state_table::{Action, Itemset, StIdx};
use vob::Vob;

/// Returns whether an action shifts.
fn is_shift<S: IndexStorage>(action: Action<S>) -> bool
    ensures { Decides ((q : ℕ) × (action_of S.number action ≡ shift q)) result }
{
    match action {
        Action::Shift(_) => true,
        _ => false,
    }
}

/// Returns whether an action reduces by a production.
fn is_reduce<S: IndexStorage>(action: Action<S>, pidx: PIdx<S>) -> bool
    ensures { Decides (action_of S.number action ≡ reduce (S.number pidx.0)) result }
{
    match action {
        Action::Reduce(found) => found.0.to_usize() == pidx.0.to_usize(),
        _ => false,
    }
}

/// Returns whether an action accepts.
fn is_accept<S: IndexStorage>(action: Action<S>) -> bool
    ensures { Decides (action_of S.number action ≡ accept) result }
{
    match action {
        Action::Accept => true,
        _ => false,
    }
}

/// Returns the symbol behind a dot, if there is one.
fn next_of<S: IndexStorage>(
    grm: &NumberedGrammar<S>,
    pidx: PIdx<S>,
    dot: SIdx<S>,
) -> Option<Symbol<S>>
    requires { S.number pidx.0 < length grm.now.grammar.productions }
    ensures { option_map (sym_of S.number) result ≡ symbol_at grm.now.grammar (S.number pidx.0) (S.number dot.0) }
{
    let symbols = grm.prod(pidx);
    let at = dot.0.to_usize();
    if at >= symbols.len() {
        return None;
    }
    Some(symbols[at])
}

/// Returns whether a token behind the dot of an item is shifted.
fn next_is_shifted<S: IndexStorage>(
    machine: &Machine<'_, S>,
    state: StIdx<S>,
    pidx: PIdx<S>,
    dot: SIdx<S>,
) -> bool
    requires production { S.number pidx.0 < length machine.now.grm.now.grammar.productions }
    requires state { S.number state.0 < machine.now.stable.now.states }
    ensures { Decides ((t : ℕ) → IsNext machine.now.grm.now.grammar (S.number pidx.0) (S.number dot.0) (token t) → (q : ℕ) × (action_at machine.now.stable.now (S.number state.0) t ≡ shift q)) result }
{
    match next_of(machine.grm, pidx, dot) {
        None => true,
        Some(Symbol::Rule(_)) => true,
        Some(Symbol::Token(tidx)) => is_shift(machine.stable.action(state, tidx)),
    }
}

/// Returns whether a state reduces by a production on each of these tokens.
fn reduces_on<S: IndexStorage>(
    machine: &Machine<'_, S>,
    state: StIdx<S>,
    pidx: PIdx<S>,
    looks: &Vob,
) -> bool
    requires { S.number state.0 < machine.now.stable.now.states }
    ensures { Decides ((t : ℕ) → slice_get looks.now.bits t ≡ Some true → action_at machine.now.stable.now (S.number state.0) t ≡ reduce (S.number pidx.0)) result }
{
    let tokens = machine.stable.tokens_len().0;
    'tokens: for index in looks.iter_set_bits(..) {
        if index >= tokens.to_usize() {
            return false;
        }
        let tidx = TIdx(index_below(index, tokens));
        if !is_reduce(machine.stable.action(state, tidx), pidx) {
            return false;
        }
    }
    true
}

/// Returns whether the actions of an item are in their cells.
fn item_stands<S: IndexStorage>(
    machine: &Machine<'_, S>,
    items: &Itemset<S>,
    state: StIdx<S>,
    pidx: PIdx<S>,
    dot: SIdx<S>,
) -> bool
    requires production { S.number pidx.0 < length machine.now.grm.now.grammar.productions }
    requires state { S.number state.0 < machine.now.stable.now.states }
    ensures { Decides (ItemStands machine.now.grm.now.grammar machine.now.stable.now items.now (S.number state.0) (S.number pidx.0) (S.number dot.0)) result }
{
    if !next_is_shifted(machine, state, pidx, dot) {
        return false;
    }
    if dot.0.to_usize() != machine.grm.prod_len(pidx).0.to_usize() {
        return true;
    }
    if pidx.0.to_usize() == machine.grm.start_prod().0.to_usize() {
        return is_accept(machine.stable.action(state, machine.grm.eof_token_idx()));
    }
    match items.get(pidx, dot) {
        Some(looks) => reduces_on(machine, state, pidx, looks),
        None => true,
    }
}

/// Returns whether those of each item of a state do.
fn state_stands<S: IndexStorage>(
    machine: &Machine<'_, S>,
    items: &Itemset<S>,
    state: StIdx<S>,
) -> bool
    requires items { OfGrammar machine.now.grm.now.grammar items.now }
    requires state { S.number state.0 < machine.now.stable.now.states }
    ensures { Decides ((p d : ℕ) → HasItem items.now p d → ItemStands machine.now.grm.now.grammar machine.now.stable.now items.now (S.number state.0) p d) result }
{
    'items: for index in 0..items.len() {
        let (pidx, dot) = items.item_at(index);
        if !item_stands(machine, items, state, pidx, dot) {
            return false;
        }
    }
    true
}

/// Returns whether those of each item of all states do.
pub(crate) fn is_complete<S: IndexStorage>(machine: &Machine<'_, S>) -> bool
    ensures { Decides (Complete machine.now.grm.now.grammar (automaton_of machine.now.sgraph.now machine.now.stable.now)) result }
{
    let states = machine.sgraph.all_states_len().0;
    'states: for number in 0..states.to_usize() {
        let state = StIdx(index_below(number, states));
        if !state_stands(machine, machine.sgraph.closed_state(state), state) {
            return false;
        }
    }
    true
}
