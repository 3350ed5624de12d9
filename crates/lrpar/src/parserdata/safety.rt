//! Whether a graph and a table fit a grammar: the least cell at which they don't.

ghost use Rattle.std.specs.Prelude.{◌<◌, length, IfOk};
ghost use Rattle.state_table.specs.Graphs.{IsGraphValue};
ghost use Rattle.state_table.specs.Tables.{CountsAgree, HasFullRows, automaton_of};
ghost use Rattle.lrpar.specs.Reducing.{rule_number, token_number};
ghost use Rattle.lrpar.specs.Safety.{TokenFits, RuleFits};
ghost use Rattle.lrpar.specs.Fitting.{LeastNot, OfGrammar, AreFlags, TellsCell, TellsMisfit, closed_at};
ghost use Rattle.cfg_theory.specs.Decides.{Decides};

use crate::numbers::index_below;
use crate::parserdata::carrying::{flags_of, is_flagged};
use crate::parserdata::cells::{least_action, least_bare, least_goto, lesser_rule, lesser_token};
use crate::parserdata::edges::{least_rule_into, least_token_into};
use crate::parserdata::fitting::{Cell, Misfit};
use crate::parserdata::items::items_fit;
use crate::parserdata::tested_state::TestedState;
use cfg_base::index::IndexStorage;
use cfg_base::symbol::{RIdx, TIdx};
use cfg_numbered::yacc::grammar::NumberedGrammar;
use state_table::{StIdx, StateGraph, StateTable};
use std::alloc::{AllocError, Global};

/// Returns whether the counts of the three agree, and the start states of graph and table.
fn counts_agree<S: IndexStorage>(
    grm: &NumberedGrammar<S>,
    sgraph: &StateGraph<S>,
    stable: &StateTable<S>,
) -> bool
    ensures { Decides (CountsAgree grm.now.grammar sgraph.now stable.now) result }
{
    if stable.states_len().0.to_usize() != sgraph.all_states_len().0.to_usize() {
        return false;
    }
    if stable.tokens_len().0.to_usize() != grm.tokens_len().0.to_usize() {
        return false;
    }
    if stable.rules_len().0.to_usize() != grm.rules_len().0.to_usize() {
        return false;
    }
    if stable.prods_len().0.to_usize() != grm.prods_len().0.to_usize() {
        return false;
    }
    stable.start_state().0.to_usize() == sgraph.start_state().0.to_usize()
}

/// Returns the least token whose cell doesn't fit at a state.
fn least_token<S: IndexStorage>(
    grm: &NumberedGrammar<S>,
    sgraph: &StateGraph<S>,
    stable: &StateTable<S>,
    state: StIdx<S>,
) -> Option<TIdx<S>>
    requires counts { CountsAgree grm.now.grammar sgraph.now stable.now }
    requires graph { IsGraphValue S.MAX sgraph.now }
    requires rows { HasFullRows stable.now }
    requires items { OfGrammar grm.now.grammar (closed_at sgraph.now (S.number state.0)) }
    requires state { S.number state.0 < length sgraph.now.cores }
    ensures { LeastNot (TokenFits grm.now.grammar (automaton_of sgraph.now stable.now) (S.number state.0)) (token_number S.number result) }
{
    let items = sgraph.closed_state(state);
    let edges = sgraph.edges(state);
    let tested = TestedState {
        grm,
        items,
        stable,
        stidx: state,
    };
    let action = least_action(&tested, edges);
    let into = least_token_into(edges, sgraph.start_state());
    lesser_token(action, into)
}

/// Returns the least rule whose goto doesn't fit at a state.
fn least_rule<S: IndexStorage>(
    grm: &NumberedGrammar<S>,
    sgraph: &StateGraph<S>,
    stable: &StateTable<S>,
    state: StIdx<S>,
) -> Option<RIdx<S>>
    requires counts { CountsAgree grm.now.grammar sgraph.now stable.now }
    requires graph { IsGraphValue S.MAX sgraph.now }
    requires rows { HasFullRows stable.now }
    requires items { OfGrammar grm.now.grammar (closed_at sgraph.now (S.number state.0)) }
    requires state { S.number state.0 < length sgraph.now.cores }
    ensures { LeastNot (RuleFits grm.now.grammar (automaton_of sgraph.now stable.now) (S.number state.0)) (rule_number S.number result) }
{
    let items = sgraph.closed_state(state);
    let edges = sgraph.edges(state);
    let tested = TestedState {
        grm,
        items,
        stable,
        stidx: state,
    };
    let goto = least_goto(&tested, edges);
    let into = least_rule_into(edges, sgraph.start_state(), stable.rules_len());
    let bare = least_bare(&tested);
    lesser_rule(lesser_rule(goto, into), bare)
}

/// Returns the first part of a state, behind the counts, that doesn't fit.
fn first_cell<S: IndexStorage>(
    grm: &NumberedGrammar<S>,
    sgraph: &StateGraph<S>,
    stable: &StateTable<S>,
    flags: &Vec<bool>,
    state: StIdx<S>,
) -> Option<Cell<S>>
    requires counts { CountsAgree grm.now.grammar sgraph.now stable.now }
    requires graph { IsGraphValue S.MAX sgraph.now }
    requires rows { HasFullRows stable.now }
    requires flags { AreFlags grm.now.grammar sgraph.now (length sgraph.now.cores) flags.now.items }
    requires state { S.number state.0 < length sgraph.now.cores }
    ensures { TellsCell S.number (CountsAgree grm.now.grammar sgraph.now stable.now) grm.now.grammar (automaton_of sgraph.now stable.now) (S.number state.0) result }
{
    if !items_fit(grm, sgraph.closed_state(state), sgraph.start_state(), state) {
        return Some(Cell::Items);
    }
    if is_flagged(flags, state) {
        return Some(Cell::Items);
    }
    if let Some(tidx) = least_token(grm, sgraph, stable, state) {
        return Some(Cell::Token(tidx));
    }
    if let Some(ridx) = least_rule(grm, sgraph, stable, state) {
        return Some(Cell::Rule(ridx));
    }
    None
}

/// Returns the first part of the least state that doesn't fit, where the counts agree.
fn first_misfit<S: IndexStorage>(
    grm: &NumberedGrammar<S>,
    sgraph: &StateGraph<S>,
    stable: &StateTable<S>,
    flags: &Vec<bool>,
) -> Option<Misfit<S>>
    requires counts { CountsAgree grm.now.grammar sgraph.now stable.now }
    requires graph { IsGraphValue S.MAX sgraph.now }
    requires rows { HasFullRows stable.now }
    requires flags { AreFlags grm.now.grammar sgraph.now (length sgraph.now.cores) flags.now.items }
    ensures { TellsMisfit S.number grm.now.grammar sgraph.now stable.now result }
{
    let states = sgraph.all_states_len().0;
    'states: for number in 0..states.to_usize() {
        let state = StIdx(index_below(number, states));
        if let Some(cell) = first_cell(grm, sgraph, stable, flags, state) {
            return Some(Misfit { state, cell });
        }
    }
    None
}

/// Returns the least place where a graph and a table don't fit a grammar; none where they are safe for it.
pub(crate) fn least_misfit<S: IndexStorage>(
    alloc: Global,
    grm: &NumberedGrammar<S>,
    sgraph: &StateGraph<S>,
    stable: &StateTable<S>,
) -> Result<Option<Misfit<S>>, AllocError>
    ensures { IfOk result (TellsMisfit S.number grm.now.grammar sgraph.now stable.now) }
{
    // For the proof alone: this read gives it the invariant of each graph and of each table.
    let states = sgraph.all_states_len().0;
    stable.states_len();
    if !counts_agree(grm, sgraph, stable) {
        let state = StIdx(index_below(0, states));
        return Ok(Some(Misfit {
            state,
            cell: Cell::Counts,
        }));
    }
    let flags = flags_of(alloc, grm, sgraph)?;
    Ok(first_misfit(grm, sgraph, stable, &flags))
}
