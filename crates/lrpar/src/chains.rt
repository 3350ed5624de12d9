//! Chains of reductions: whether more than a cap of them come one after another on one token.

ghost use Rattle.std.specs.Prelude.{◌≡◌, ◌<◌, ◌+◌, ℕ, false, Some, None, IfOk, OnOk, length};
ghost use Rattle.lr_theory.specs.Automaton.{reduce};
ghost use Rattle.state_table.specs.Tables.{automaton_of};
ghost use Rattle.lrpar.specs.Reducing.{states_of, stack_of, AreStates, ReducesTo, TellsLong, TellsToken, TellsAbove, TellsOf, TellsChain, AreShorts, BeginsNone, token_number, chain_states, chain_top, chain_depth};
ghost use Rattle.lrpar.specs.Branching.{AreAllReducers};
ghost use Rattle.lrpar.specs.Endings.{IsCell, AreEndings};
ghost use Rattle.state_table.specs.Graphs.{GraphValue};
ghost use Rattle.state_table.specs.CellViews.{action_of, state_of};

use crate::endings::{Ending, Link, ends_within, no_endings};
use crate::machine::Chains;
use crate::numbers::index_below;
use crate::reducers::all_reducers;
use crate::rows::{cell_of_row, goto_of_row};
use crate::tokenless_chains::{Rooms, ends_soon};
use crate::unit_chains::{Short, all_shorts, is_quiet, short_at};
use cfg_base::index::IndexStorage;
use cfg_base::symbol::{PIdx, RIdx, TIdx};
use cfg_numbered::yacc::grammar::NumberedGrammar;
use state_table::{Action, StIdx};
use std::alloc::{AllocError, Global};

/// A chain of reductions on a token that leave a state: from the state alone, or with its goto on the rule above it.
#[derive(Clone, Copy, Debug, PartialEq, Eq)]
pub struct LongChain<S> {
    /// The state on top of the stack when the chain begins.
    pub state: StIdx<S>,
    /// `None` where the chain begins in the state alone; else the rule whose goto is above the state.
    pub ridx: Option<RIdx<S>>,
    /// The token on which all of these reductions are made.
    pub tidx: TIdx<S>,
}

/// Makes one reduction on the token, where one is made that leaves a state on the stack, and returns whether it did.
/// The stack's top is last.
pub(crate) fn reduce_once<S: IndexStorage>(
    chains: &Chains<'_, S>,
    stack: &mut Vec<StIdx<S>>,
    tidx: TIdx<S>,
) -> Result<bool, AllocError>
    requires token { S.number tidx.0 < chains.now.stable.now.tokens }
    requires states { AreStates chains.now.stable.now (states_of S.number stack.old.items) }
    requires some { 0 < length stack.old.items }
    ensures ok { IfOk result (λ made. (g : GraphValue) → ReducesTo chains.now.grm.now.grammar (automaton_of g chains.now.stable.now) (S.number tidx.0) (stack_of S.number stack.old.items) (stack_of S.number stack.new.items) made) }
    ensures states { IfOk result (λ made. AreStates chains.now.stable.now (states_of S.number stack.new.items)) }
    ensures some { IfOk result (λ made. 0 < length stack.new.items) }
{
    let top = stack[stack.len() - 1];
    let Action::Reduce(pidx) = chains.stable.action(top, tidx) else {
        return Ok(false);
    };
    let count = chains.grm.prod_len(pidx).0.to_usize();
    if count >= stack.len() {
        return Ok(false);
    }
    let left = stack.len() - count;
    let below = stack[left - 1];
    let Some(target) = chains.stable.goto(below, chains.grm.prod_to_rule(pidx)) else {
        return Ok(false);
    };
    stack.truncate(left);
    stack.push(target)?;
    Ok(true)
}

/// Puts a chain's first stack in place of what the stack held: `state`, and `above` on it.
fn refill<S: IndexStorage>(
    stack: &mut Vec<StIdx<S>>,
    state: StIdx<S>,
    above: Option<StIdx<S>>,
) -> Result<(), AllocError>
    ensures { OnOk result (states_of S.number stack.new.items ≡ chain_states (S.number state.0) (state_of S.number above)) }
{
    stack.clear();
    stack.push(state)?;
    match above {
        None => Ok(()),
        Some(above) => {
            stack.push(above)?;
            Ok(())
        }
    }
}

/// Returns whether more reductions than the limit come on the token that leave the state at the bottom: `state` alone,
/// or with `above` on it. The stack serves as room.
pub(crate) fn is_long<S: IndexStorage>(
    chains: &Chains<'_, S>,
    stack: &mut Vec<StIdx<S>>,
    state: StIdx<S>,
    above: Option<StIdx<S>>,
    tidx: TIdx<S>,
) -> Result<bool, AllocError>
    requires token { S.number tidx.0 < chains.now.stable.now.tokens }
    requires state { S.number state.0 < chains.now.stable.now.states }
    requires above { (q : ℕ) → state_of S.number above ≡ Some q → q < chains.now.stable.now.states }
    ensures { IfOk result (λ long. (g : GraphValue) → TellsLong chains.now.grm.now.grammar (automaton_of g chains.now.stable.now) chains.now.limit (S.number state.0) (state_of S.number above) (S.number tidx.0) long) }
{
    refill(stack, state, above)?;
    let most = chains.limit as usize + 1;
    'chain: for _ in 0..most {
        if !reduce_once(chains, stack, tidx)? {
            return Ok(false);
        }
    }
    Ok(true)
}

/// The buffers of a search, and the endings that it found.
#[derive(Drop)]
pub(crate) struct Search<S: IndexStorage> {
    pub rooms: Rooms<S>,
    /// The endings of each state, by its cells.
    pub endings: Vec<Vec<Option<Ending<S>>>>,
    /// Links whose upper states have no ending yet.
    pub waiting: Vec<Link<S>>,
}

/// Returns whether a chain on the token passes the limit. Its reductions are run only if the endings of its states leave
/// that open.
fn passes<S: IndexStorage>(
    chains: &Chains<'_, S>,
    search: &mut Search<S>,
    state: StIdx<S>,
    above: Option<StIdx<S>>,
    tidx: TIdx<S>,
) -> Result<bool, AllocError>
    requires cell { IsCell chains.now.stable.now (S.number state.0) (S.number tidx.0) }
    requires above { (q : ℕ) → state_of S.number above ≡ Some q → q < chains.now.stable.now.states }
    requires endings { AreEndings S.number chains.now.grm.now.grammar chains.now.stable.now search.old.endings.items }
    ensures endings { OnOk result (AreEndings S.number chains.now.grm.now.grammar chains.now.stable.now search.new.endings.items) }
    ensures long { IfOk result (λ long. (g : GraphValue) → TellsLong chains.now.grm.now.grammar (automaton_of g chains.now.stable.now) chains.now.limit (S.number state.0) (state_of S.number above) (S.number tidx.0) long) }
{
    let endings = &mut search.endings;
    if ends_within(chains, endings, &mut search.waiting, state, above, tidx)? {
        return Ok(false);
    }
    is_long(chains, &mut search.rooms.stack, state, above, tidx)
}

/// Returns the state on top of a chain's first stack.
fn top_of<S: IndexStorage>(state: StIdx<S>, above: Option<StIdx<S>>) -> StIdx<S>
    ensures { S.number result.0 ≡ chain_top (S.number state.0) (state_of S.number above) }
{
    match above {
        None => state,
        Some(above) => above,
    }
}

/// Returns how many states that stack has.
fn depth_of<S: IndexStorage>(above: Option<StIdx<S>>) -> usize
    ensures { result ≡ chain_depth (state_of S.number above) }
{
    match above {
        None => 1,
        Some(_) => 2,
    }
}

/// Returns whether the first reduction of a chain may be by this action: it takes fewer symbols than there are
/// states.
fn may_begin<S: IndexStorage>(grm: &NumberedGrammar<S>, depth: usize, action: Action<S>) -> bool
    requires { (p : ℕ) → action_of S.number action ≡ reduce p → p < length grm.now.grammar.productions }
    ensures { result ≡ false → BeginsNone grm.now.grammar depth (action_of S.number action) }
{
    match action {
        Action::Reduce(pidx) => grm.prod_len(pidx).0.to_usize() < depth,
        _ => false,
    }
}

/// Returns the least token on which more reductions than the limit come.
pub(crate) fn long_token<S: IndexStorage>(
    chains: &Chains<'_, S>,
    search: &mut Search<S>,
    state: StIdx<S>,
    above: Option<StIdx<S>>,
) -> Result<Option<TIdx<S>>, AllocError>
    requires state { S.number state.0 < chains.now.stable.now.states }
    requires above { (q : ℕ) → state_of S.number above ≡ Some q → q < chains.now.stable.now.states }
    requires endings { AreEndings S.number chains.now.grm.now.grammar chains.now.stable.now search.old.endings.items }
    ensures endings { OnOk result (AreEndings S.number chains.now.grm.now.grammar chains.now.stable.now search.new.endings.items) }
    ensures found { IfOk result (λ found. (g : GraphValue) → TellsToken chains.now.grm.now.grammar (automaton_of g chains.now.stable.now) chains.now.limit chains.now.stable.now.tokens (S.number state.0) (state_of S.number above) (token_number S.number found)) }
{
    let tokens = chains.stable.tokens_len().0;
    let depth = depth_of(above);
    let row = chains.stable.state_cells(top_of(state, above));
    'cells: for index in 0..row.len() {
        let (number, action) = cell_of_row(row, index);
        if !may_begin(chains.grm, depth, action) {
            continue;
        }
        let tidx = TIdx(index_below(number, tokens));
        if passes(chains, search, state, above, tidx)? {
            return Ok(Some(tidx));
        }
    }
    Ok(None)
}

/// Returns the least token on which more reductions than the limit come. Tokens are tried only where following all
/// reductions, on whatever token, doesn't show that no chain is long.
fn least_long<S: IndexStorage>(
    alloc: Global,
    chains: &Chains<'_, S>,
    reducers: &[Vec<PIdx<S>>],
    search: &mut Search<S>,
    state: StIdx<S>,
    above: Option<StIdx<S>>,
) -> Result<Option<TIdx<S>>, AllocError>
    requires reducers { AreAllReducers S.number chains.now.grm.now.grammar chains.now.stable.now reducers.now }
    requires state { S.number state.0 < chains.now.stable.now.states }
    requires above { (q : ℕ) → state_of S.number above ≡ Some q → q < chains.now.stable.now.states }
    requires endings { AreEndings S.number chains.now.grm.now.grammar chains.now.stable.now search.old.endings.items }
    ensures endings { OnOk result (AreEndings S.number chains.now.grm.now.grammar chains.now.stable.now search.new.endings.items) }
    ensures found { IfOk result (λ found. (g : GraphValue) → TellsToken chains.now.grm.now.grammar (automaton_of g chains.now.stable.now) chains.now.limit chains.now.stable.now.tokens (S.number state.0) (state_of S.number above) (token_number S.number found)) }
{
    if ends_soon(alloc, chains, reducers, &mut search.rooms, state, above)? {
        return Ok(None);
    }
    long_token(chains, search, state, above)
}

/// Returns the least token on which a chain of the state alone passes the limit. Such a chain begins with an empty
/// reduction.
fn long_alone<S: IndexStorage>(
    alloc: Global,
    chains: &Chains<'_, S>,
    shorts: &[Short<S>],
    reducers: &[Vec<PIdx<S>>],
    search: &mut Search<S>,
    state: StIdx<S>,
) -> Result<Option<TIdx<S>>, AllocError>
    requires shorts { AreShorts S.number chains.now.grm.now.grammar chains.now.stable.now shorts.now }
    requires reducers { AreAllReducers S.number chains.now.grm.now.grammar chains.now.stable.now reducers.now }
    requires state { S.number state.0 < chains.now.stable.now.states }
    requires endings { AreEndings S.number chains.now.grm.now.grammar chains.now.stable.now search.old.endings.items }
    ensures endings { OnOk result (AreEndings S.number chains.now.grm.now.grammar chains.now.stable.now search.new.endings.items) }
    ensures found { IfOk result (λ found. (g : GraphValue) → TellsToken chains.now.grm.now.grammar (automaton_of g chains.now.stable.now) chains.now.limit chains.now.stable.now.tokens (S.number state.0) None (token_number S.number found)) }
{
    match short_at(shorts, state) {
        Short::Nothing => Ok(None),
        Short::Unit(_) => Ok(None),
        Short::Other => {
            let found = least_long(alloc, chains, reducers, search, state, None)?;
            Ok(found)
        }
    }
}

/// Returns the least chain of the state with a goto above it that passes the limit.
fn long_above<S: IndexStorage>(
    alloc: Global,
    chains: &Chains<'_, S>,
    shorts: &[Short<S>],
    reducers: &[Vec<PIdx<S>>],
    search: &mut Search<S>,
    state: StIdx<S>,
) -> Result<Option<LongChain<S>>, AllocError>
    requires shorts { AreShorts S.number chains.now.grm.now.grammar chains.now.stable.now shorts.now }
    requires reducers { AreAllReducers S.number chains.now.grm.now.grammar chains.now.stable.now reducers.now }
    requires state { S.number state.0 < chains.now.stable.now.states }
    requires endings { AreEndings S.number chains.now.grm.now.grammar chains.now.stable.now search.old.endings.items }
    ensures endings { OnOk result (AreEndings S.number chains.now.grm.now.grammar chains.now.stable.now search.new.endings.items) }
    ensures found { IfOk result (λ found. (g : GraphValue) → TellsAbove S.number chains.now.grm.now.grammar (automaton_of g chains.now.stable.now) chains.now.limit (S.number state.0) found) }
{
    let rules = chains.stable.rules_len().0;
    let row = chains.stable.state_gotos(state);
    'gotos: for index in 0..row.len() {
        let (number, above) = goto_of_row(row, index);
        if is_quiet(chains, shorts, state, above) {
            continue;
        }
        let onto = Some(above);
        if let Some(tidx) = least_long(alloc, chains, reducers, search, state, onto)? {
            let ridx = RIdx(index_below(number, rules));
            return Ok(Some(LongChain {
                state,
                ridx: Some(ridx),
                tidx,
            }));
        }
    }
    Ok(None)
}

/// Returns the least chain of the state that passes the limit.
fn long_of<S: IndexStorage>(
    alloc: Global,
    chains: &Chains<'_, S>,
    shorts: &[Short<S>],
    reducers: &[Vec<PIdx<S>>],
    search: &mut Search<S>,
    state: StIdx<S>,
) -> Result<Option<LongChain<S>>, AllocError>
    requires shorts { AreShorts S.number chains.now.grm.now.grammar chains.now.stable.now shorts.now }
    requires reducers { AreAllReducers S.number chains.now.grm.now.grammar chains.now.stable.now reducers.now }
    requires state { S.number state.0 < chains.now.stable.now.states }
    requires endings { AreEndings S.number chains.now.grm.now.grammar chains.now.stable.now search.old.endings.items }
    ensures endings { OnOk result (AreEndings S.number chains.now.grm.now.grammar chains.now.stable.now search.new.endings.items) }
    ensures found { IfOk result (λ found. (g : GraphValue) → TellsOf S.number chains.now.grm.now.grammar (automaton_of g chains.now.stable.now) chains.now.limit (S.number state.0) found) }
{
    if let Some(tidx) = long_alone(alloc, chains, shorts, reducers, search, state)? {
        return Ok(Some(LongChain {
            state,
            ridx: None,
            tidx,
        }));
    }
    let found = long_above(alloc, chains, shorts, reducers, search, state)?;
    Ok(found)
}

/// Returns the least chain of all states that passes the limit.
fn long_among<S: IndexStorage>(
    alloc: Global,
    chains: &Chains<'_, S>,
    shorts: &[Short<S>],
    reducers: &[Vec<PIdx<S>>],
    search: &mut Search<S>,
) -> Result<Option<LongChain<S>>, AllocError>
    requires shorts { AreShorts S.number chains.now.grm.now.grammar chains.now.stable.now shorts.now }
    requires reducers { AreAllReducers S.number chains.now.grm.now.grammar chains.now.stable.now reducers.now }
    requires endings { AreEndings S.number chains.now.grm.now.grammar chains.now.stable.now search.old.endings.items }
    ensures { IfOk result (λ found. (g : GraphValue) → TellsChain S.number chains.now.grm.now.grammar (automaton_of g chains.now.stable.now) chains.now.limit found) }
{
    let states = chains.stable.states_len().0;
    'states: for number in 0..states.to_usize() {
        let state = StIdx(index_below(number, states));
        if let Some(found) = long_of(alloc, chains, shorts, reducers, search, state)? {
            return Ok(Some(found));
        }
    }
    Ok(None)
}

/// Returns the least chain of reductions that passes the limit; none where all chains are within it.
pub(crate) fn long_chain<S: IndexStorage>(
    alloc: Global,
    chains: &Chains<'_, S>,
) -> Result<Option<LongChain<S>>, AllocError>
    ensures { IfOk result (λ found. (g : GraphValue) → TellsChain S.number chains.now.grm.now.grammar (automaton_of g chains.now.stable.now) chains.now.limit found) }
{
    let reducers = all_reducers(alloc, chains)?;
    let shorts = all_shorts(alloc, chains, reducers.as_slice())?;
    let endings = no_endings(alloc, chains)?;
    let mut search = Search {
        rooms: Rooms {
            stack: Vec::new(alloc),
            stacks: Vec::new(alloc),
            spare: Vec::new(alloc),
        },
        endings,
        waiting: Vec::new(alloc),
    };
    long_among(
        alloc,
        chains,
        shorts.as_slice(),
        reducers.as_slice(),
        &mut search,
    )
}
