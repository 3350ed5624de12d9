//! The cells of a table, by numbers.

ghost use Rattle.std.specs.Prelude.{◌≡◌, ◌<◌};

use crate::refusals::push_number;
use cfgrammar::index::IndexStorage;
use cfgrammar::yacc::YaccGrammar;
use lrtable::cells::Action;
use lrtable::stategraph::StateGraph;
use lrtable::statetable::StateTable;
use lrtable::stidx::StIdx;
use std::alloc::{AllocError, Global};

fn push_action<S: IndexStorage>(
    alloc: Global,
    out: &mut String,
    token: usize,
    action: Action<S>,
) -> Result<(), AllocError> {
    match action {
        Action::Shift(stidx) => {
            push_number(alloc, out, " t", token)?;
            push_number(alloc, out, " shift ", usize::from(stidx))
        }
        Action::Reduce(pidx) => {
            push_number(alloc, out, " t", token)?;
            push_number(alloc, out, " reduce ", usize::from(pidx))
        }
        Action::Accept => {
            push_number(alloc, out, " t", token)?;
            out.push_str(" accept")
        }
        Action::Error => Ok(()),
    }
}

/// What a state does on each token.
fn push_actions<S: IndexStorage>(
    alloc: Global,
    out: &mut String,
    grm: &YaccGrammar<S>,
    table: &StateTable<S>,
    stidx: StIdx<S>,
) -> Result<(), AllocError>
    requires state { S.number stidx.0 < table.now.states }
    requires tokens { table.now.tokens ≡ grm.now.grammar.tokens }
{
    for number in 0..usize::from(grm.tokens_len()) {
        let action = table.action(stidx, grm.token_at(number));
        push_action(alloc, out, number, action)?;
    }
    Ok(())
}

/// Where a state goes after each rule.
fn push_gotos<S: IndexStorage>(
    alloc: Global,
    out: &mut String,
    grm: &YaccGrammar<S>,
    table: &StateTable<S>,
    stidx: StIdx<S>,
) -> Result<(), AllocError>
    requires state { S.number stidx.0 < table.now.states }
    requires rules { table.now.rules ≡ grm.now.grammar.rules }
{
    for number in 0..usize::from(grm.rules_len()) {
        if let Some(target) = table.goto(stidx, grm.rule_at(number)) {
            push_number(alloc, out, " r", number)?;
            push_number(alloc, out, " to ", usize::from(target))?;
        }
    }
    Ok(())
}

/// The tokens on which a state does something, those that it shifts, and the productions by which it reduces.
fn push_walks<S: IndexStorage>(
    alloc: Global,
    out: &mut String,
    table: &StateTable<S>,
    stidx: StIdx<S>,
) -> Result<(), AllocError>
    requires { S.number stidx.0 < table.now.states }
{
    out.push_str("; does")?;
    for tidx in table.state_actions(stidx) {
        push_number(alloc, out, " t", usize::from(tidx))?;
    }
    out.push_str(", shifts")?;
    for tidx in table.state_shifts(stidx) {
        push_number(alloc, out, " t", usize::from(tidx))?;
    }
    out.push_str(", reduces")?;
    for pidx in table.core_reduces(stidx) {
        push_number(alloc, out, " p", usize::from(pidx))?;
    }
    if table.reduce_only_state(stidx) {
        out.push_str(" only")?;
    }
    Ok(())
}

fn push_row<S: IndexStorage>(
    alloc: Global,
    out: &mut String,
    grm: &YaccGrammar<S>,
    table: &StateTable<S>,
    stidx: StIdx<S>,
) -> Result<(), AllocError>
    requires state { S.number stidx.0 < table.now.states }
    requires tokens { table.now.tokens ≡ grm.now.grammar.tokens }
    requires rules { table.now.rules ≡ grm.now.grammar.rules }
{
    push_number(alloc, out, "", usize::from(stidx))?;
    out.push(':')?;
    push_actions(alloc, out, grm, table, stidx)?;
    push_gotos(alloc, out, grm, table, stidx)?;
    push_walks(alloc, out, table, stidx)?;
    out.push('\n')
}

pub fn push_cells<S: IndexStorage>(
    alloc: Global,
    out: &mut String,
    grm: &YaccGrammar<S>,
    table: &StateTable<S>,
) -> Result<(), AllocError>
    requires tokens { table.now.tokens ≡ grm.now.grammar.tokens }
    requires rules { table.now.rules ≡ grm.now.grammar.rules }
{
    for number in 0..usize::from(table.states_len()) {
        push_row(alloc, out, grm, table, table.state_at(number))?;
    }
    Ok(())
}

/// The counts of a graph and of a table, and their start states.
pub fn push_counts<S: IndexStorage>(
    alloc: Global,
    out: &mut String,
    graph: &StateGraph<S>,
    table: &StateTable<S>,
) -> Result<(), AllocError> {
    push_number(alloc, out, "graph: ", usize::from(graph.all_states_len()))?;
    push_number(alloc, out, " states, ", graph.all_edges_len())?;
    push_number(
        alloc,
        out,
        " edges, start ",
        usize::from(graph.start_state()),
    )?;
    push_number(alloc, out, "\ntable: ", usize::from(table.states_len()))?;
    push_number(alloc, out, " states, ", usize::from(table.tokens_len()))?;
    push_number(alloc, out, " tokens, ", usize::from(table.rules_len()))?;
    push_number(alloc, out, " rules, ", usize::from(table.prods_len()))?;
    push_number(alloc, out, " productions, ", table.filled_len())?;
    push_number(
        alloc,
        out,
        " filled, start ",
        usize::from(table.start_state()),
    )?;
    out.push('\n')
}
