//! A test that no chain is long, without looking at tokens: it follows each production by which a state reduces.

ghost use Rattle.std.specs.Prelude.{◌≡◌, ◌<◌, ◌≤◌, ◌+◌, [], ℕ, List, true, Some, drop, length, option_map, IfOk, IfSome, OnOk};
ghost use Rattle.cfg_theory.specs.Grammar.{body_of};
ghost use Rattle.lr_theory.specs.Chains.{goto_from, reduction};
ghost use Rattle.state_table.specs.CellViews.{state_of};
ghost use Rattle.state_table.specs.Graphs.{GraphValue};
ghost use Rattle.state_table.specs.Tables.{automaton_of};
ghost use Rattle.lrpar.specs.Reducing.{states_of, stack_of, chain_states, AreStates, IsLong};
ghost use Rattle.lrpar.specs.Branching.{Lists, AreAllReducers, Stacked, HoldsStates, AllHoldStates};

use crate::machine::Chains;
use crate::reducers::{prod_of_list, reducers_at};
use cfg_base::index::IndexStorage;
use cfg_base::symbol::PIdx;
use state_table::StIdx;
use std::alloc::{AllocError, Global};

/// Buffers of the search for a long chain.
#[derive(Drop)]
pub(crate) struct Rooms<S: IndexStorage> {
    /// A stack that is run on one token.
    pub stack: Vec<StIdx<S>>,
    /// Stacks that are followed on all tokens.
    pub stacks: Vec<Vec<StIdx<S>>>,
    /// Stacks whose memory is used again.
    pub spare: Vec<Vec<StIdx<S>>>,
}

/// Returns a stack without states: one of the spare ones, whose room it keeps, where there is one.
fn empty_stack<S: IndexStorage>(alloc: Global, spare: &mut Vec<Vec<StIdx<S>>>) -> Vec<StIdx<S>>
    ensures { result.items ≡ [] }
{
    match spare.pop() {
        Some(mut stack) => {
            stack.clear();
            stack
        }
        None => Vec::new(alloc),
    }
}

/// Returns the stack after a reduction by a production, where that leaves a state and there is a goto. The stack's
/// top is last.
fn stack_after<S: IndexStorage>(
    alloc: Global,
    chains: &Chains<'_, S>,
    spare: &mut Vec<Vec<StIdx<S>>>,
    stack: &[StIdx<S>],
    pidx: PIdx<S>,
) -> Result<Option<Vec<StIdx<S>>>, AllocError>
    requires production { S.number pidx.0 < length chains.now.grm.now.grammar.productions }
    requires states { AreStates chains.now.stable.now (states_of S.number stack.now) }
    ensures value { IfOk result (λ next. (g : GraphValue) → option_map (λ v. stack_of S.number v.items) next ≡ goto_from chains.now.grm.now.grammar (automaton_of g chains.now.stable.now) (S.number pidx.0) (drop (length (body_of chains.now.grm.now.grammar (S.number pidx.0))) (stack_of S.number stack.now))) }
    ensures states { IfOk result (λ next. IfSome next (λ v. HoldsStates S.number chains.now.stable.now v.items)) }
{
    let count = chains.grm.prod_len(pidx).0.to_usize();
    if count >= stack.len() {
        return Ok(None);
    }
    let left = stack.len() - count;
    let below = stack[left - 1];
    let Some(target) = chains.stable.goto(below, chains.grm.prod_to_rule(pidx)) else {
        return Ok(None);
    };
    let mut next = empty_stack(alloc, spare);
    next.extend_from_slice(&stack[..left])?;
    next.push(target)?;
    Ok(Some(next))
}

/// Puts the stacks after a reduction by each of these productions on the others.
fn follow<S: IndexStorage>(
    alloc: Global,
    chains: &Chains<'_, S>,
    spare: &mut Vec<Vec<StIdx<S>>>,
    list: &[PIdx<S>],
    stack: &[StIdx<S>],
    stacks: &mut Vec<Vec<StIdx<S>>>,
) -> Result<(), AllocError>
    requires list { (p : ℕ) → Lists S.number list.now p → p < length chains.now.grm.now.grammar.productions }
    requires states { AreStates chains.now.stable.now (states_of S.number stack.now) }
    requires stacks { AllHoldStates S.number chains.now.stable.now stacks.old.items }
    ensures kept { OnOk result ((ss : List ℕ) → Stacked S.number stacks.old.items ss → Stacked S.number stacks.new.items ss) }
    ensures put { OnOk result ((g : GraphValue) (p : ℕ) (ss : List ℕ) → Lists S.number list.now p → goto_from chains.now.grm.now.grammar (automaton_of g chains.now.stable.now) p (drop (length (body_of chains.now.grm.now.grammar p)) (stack_of S.number stack.now)) ≡ Some ss → Stacked S.number stacks.new.items ss) }
    ensures stacks { OnOk result (AllHoldStates S.number chains.now.stable.now stacks.new.items) }
{
    'prods: for index in 0..list.len() {
        let pidx = prod_of_list(list, index);
        let Some(next) = stack_after(alloc, chains, spare, stack, pidx)? else {
            continue;
        };
        stacks.push(next)?;
    }
    Ok(())
}

/// Puts the stacks after one reduction, on whatever token, on the others.
fn take_stack<S: IndexStorage>(
    alloc: Global,
    chains: &Chains<'_, S>,
    reducers: &[Vec<PIdx<S>>],
    spare: &mut Vec<Vec<StIdx<S>>>,
    stack: &[StIdx<S>],
    stacks: &mut Vec<Vec<StIdx<S>>>,
) -> Result<(), AllocError>
    requires reducers { AreAllReducers S.number chains.now.grm.now.grammar chains.now.stable.now reducers.now }
    requires states { HoldsStates S.number chains.now.stable.now stack.now }
    requires stacks { AllHoldStates S.number chains.now.stable.now stacks.old.items }
    ensures kept { OnOk result ((ss : List ℕ) → Stacked S.number stacks.old.items ss → Stacked S.number stacks.new.items ss) }
    ensures put { OnOk result ((g : GraphValue) (t : ℕ) (ss : List ℕ) → reduction chains.now.grm.now.grammar (automaton_of g chains.now.stable.now) t (stack_of S.number stack.now) ≡ Some ss → Stacked S.number stacks.new.items ss) }
    ensures stacks { OnOk result (AllHoldStates S.number chains.now.stable.now stacks.new.items) }
{
    let top = stack[stack.len() - 1];
    let list = reducers_at(chains, reducers, top);
    follow(alloc, chains, spare, list, stack, stacks)?;
    Ok(())
}

/// Returns the stack that a chain begins with.
fn first_stack<S: IndexStorage>(
    alloc: Global,
    spare: &mut Vec<Vec<StIdx<S>>>,
    state: StIdx<S>,
    above: Option<StIdx<S>>,
) -> Result<Vec<StIdx<S>>, AllocError>
    ensures { IfOk result (λ v. states_of S.number v.items ≡ chain_states (S.number state.0) (state_of S.number above)) }
{
    let mut stack = empty_stack(alloc, spare);
    stack.push(state)?;
    match above {
        None => Ok(stack),
        Some(above) => {
            stack.push(above)?;
            Ok(stack)
        }
    }
}

/// Returns how many stacks are followed: as many as a chain may have, and no more than 32, since each is a copy.
fn most_stacks(limit: u16) -> usize
    ensures { result ≤ limit + 1 }
{
    if limit < 32 {
        return limit as usize + 1;
    }
    32
}

/// Returns whether it is known, without looking at tokens, that no chain of the state passes the limit: alone, or
/// with `above` on it. All reductions on some token are followed, for at most as many stacks as a chain may have.
pub(crate) fn ends_soon<S: IndexStorage>(
    alloc: Global,
    chains: &Chains<'_, S>,
    reducers: &[Vec<PIdx<S>>],
    rooms: &mut Rooms<S>,
    state: StIdx<S>,
    above: Option<StIdx<S>>,
) -> Result<bool, AllocError>
    requires reducers { AreAllReducers S.number chains.now.grm.now.grammar chains.now.stable.now reducers.now }
    requires state { S.number state.0 < chains.now.stable.now.states }
    requires above { (q : ℕ) → state_of S.number above ≡ Some q → q < chains.now.stable.now.states }
    ensures { IfOk result (λ ends. ends ≡ true → (g : GraphValue) (t : ℕ) → IsLong chains.now.grm.now.grammar (automaton_of g chains.now.stable.now) chains.now.limit (S.number state.0) (state_of S.number above) t → ⊥) }
{
    let stacks = &mut rooms.stacks;
    let spare = &mut rooms.spare;
    stacks.clear();
    stacks.push(first_stack(alloc, spare, state, above)?)?;
    let most = most_stacks(chains.limit);
    'stacks: for _ in 0..most {
        let Some(stack) = stacks.pop() else {
            return Ok(true);
        };
        take_stack(alloc, chains, reducers, spare, stack.as_slice(), stacks)?;
        spare.push(stack)?;
    }
    Ok(false)
}
