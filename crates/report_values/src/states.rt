//! States as plain values.

ghost use Rattle.std.specs.Prelude.{◌≡◌, ◌<◌, ◌+◌, length, OnOk};
ghost use Rattle.report_values.specs.Drawn.{state_count};

use cfg_base::index::IndexStorage;
use cfg_base::symbol::TIdx;
use grammar_names::{push_item, symbol_name, token_name};
use lrtable::{Conflicts, StIdx};
use parser_kit::ParserKit;
use report_forms::{Edge, State};
use std::alloc::{AllocError, Global};

/// Returns the tokens of the conflicts in a state, in order.
fn contested_tokens(
    alloc: Global,
    conflicts: &Conflicts<u32>,
    stidx: StIdx<u32>,
) -> Result<Vec<TIdx<u32>>, AllocError> {
    let mut tokens = Vec::new(alloc);
    'shifts: for entry in conflicts.sr_conflicts() {
        let (token, _, state) = *entry;
        if state == stidx {
            tokens.push(token)?;
        }
    }
    'pairs: for entry in conflicts.rr_conflicts() {
        let (token, _, _, state) = *entry;
        if state == stidx {
            tokens.push(token)?;
        }
    }
    tokens.sort()?;
    tokens.dedup();
    Ok(tokens)
}

/// Adds the tokens of a state's conflicts.
fn push_contested(
    alloc: Global,
    state: &mut State,
    kit: &ParserKit<u32>,
    stidx: StIdx<u32>,
) -> Result<(), AllocError> {
    let Some(conflicts) = kit.conflicts() else {
        return Ok(());
    };
    let tokens = contested_tokens(alloc, conflicts, stidx)?;
    'tokens: for token in &tokens {
        let name = String::from_str(alloc, token_name(kit.grm(), *token))?;
        state.contested.push(name)?;
    }
    Ok(())
}

/// Adds the items of a state's core.
fn push_items(
    alloc: Global,
    state: &mut State,
    kit: &ParserKit<u32>,
    stidx: StIdx<u32>,
) -> Result<(), AllocError>
    requires { stidx.0 < length kit.now.parser.graph.cores }
{
    let items = kit.sgraph().core_state(stidx);
    'items: for index in 0..items.len() {
        let (pidx, dot) = items.item_at(index);
        let mut line = String::new(alloc);
        push_item(&mut line, kit.grm(), pidx, dot)?;
        state.items.push(line)?;
    }
    Ok(())
}

/// Adds the edges of a state.
fn push_edges(
    alloc: Global,
    state: &mut State,
    kit: &ParserKit<u32>,
    stidx: StIdx<u32>,
) -> Result<(), AllocError>
    requires { stidx.0 < length kit.now.parser.graph.cores }
{
    let edges = kit.sgraph().edges(stidx);
    'edges: for index in 0..edges.len() {
        let (symbol, target) = edges[index];
        let symbol = String::from_str(alloc, symbol_name(kit.grm(), symbol))?;
        let target = target.0;
        state.edges.push(Edge { symbol, target })?;
    }
    Ok(())
}

/// Fills in a state.
fn fill_state(
    alloc: Global,
    state: &mut State,
    kit: &ParserKit<u32>,
    stidx: StIdx<u32>,
) -> Result<(), AllocError>
    requires { stidx.0 < length kit.now.parser.graph.cores }
{
    push_items(alloc, state, kit, stidx)?;
    push_contested(alloc, state, kit, stidx)?;
    push_edges(alloc, state, kit, stidx)
}

/// Adds a state to others.
fn push_state(
    alloc: Global,
    states: &mut Vec<State>,
    kit: &ParserKit<u32>,
    stidx: StIdx<u32>,
) -> Result<(), AllocError>
    requires { stidx.0 < length kit.now.parser.graph.cores }
    ensures { OnOk result (length states.new.items ≡ length states.old.items + 1) }
{
    let mut state = State {
        number: stidx.0,
        items: Vec::new(alloc),
        contested: Vec::new(alloc),
        edges: Vec::new(alloc),
    };
    match fill_state(alloc, &mut state, kit, stidx) {
        Ok(()) => {
            states.push(state)?;
            Ok(())
        }
        Err(e) => {
            drop(state);
            Err(e)
        }
    }
}

/// Returns how many states a kit has.
pub(crate) fn states_len(kit: &ParserKit<u32>) -> usize
    ensures { result ≡ state_count kit.now }
{
    kit.sgraph().all_states_len().0.to_usize()
}

/// Adds all states of a kit.
pub(crate) fn push_states(
    alloc: Global,
    states: &mut Vec<State>,
    kit: &ParserKit<u32>,
) -> Result<(), AllocError>
    ensures { OnOk result (length states.new.items ≡ length states.old.items + state_count kit.now) }
{
    'states: for state in 0..states_len(kit) {
        push_state(alloc, states, kit, kit.sgraph().state_at(state))?;
    }
    Ok(())
}
