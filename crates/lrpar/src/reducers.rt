//! The productions by which each state reduces.

ghost use Rattle.std.specs.Prelude.{◌≡◌, ◌<◌, ℕ, true, Some, length, slice_get, IfOk, OnOk};
ghost use Rattle.lr_theory.specs.Automaton.{reduce};
ghost use Rattle.state_table.specs.CellViews.{action_of};
ghost use Rattle.lrpar.specs.Branching.{Lists, AreReducers, AreAllReducers};

use crate::machine::Chains;
use crate::numbers::index_below;
use crate::rows::cell_of_row;
use cfg_base::index::IndexStorage;
use cfg_base::symbol::PIdx;
use state_table::{Action, StIdx};
use std::alloc::{AllocError, Global};

/// Returns the production at an index.
pub(crate) fn prod_of_list<S: IndexStorage>(list: &[PIdx<S>], index: usize) -> PIdx<S>
    requires { index < length list.now }
    ensures { slice_get list.now index ≡ Some result }
{
    list[index]
}

/// Returns whether a production is in a list.
fn is_listed<S: IndexStorage>(list: &[PIdx<S>], pidx: PIdx<S>) -> bool
    ensures { result ≡ true → Lists S.number list.now (S.number pidx.0) }
{
    'prods: for index in 0..list.len() {
        if prod_of_list(list, index).0.to_usize() == pidx.0.to_usize() {
            return true;
        }
    }
    false
}

/// Puts the production by which an action reduces into a list, where it isn't there.
fn put_reducer<S: IndexStorage>(
    list: &mut Vec<PIdx<S>>,
    action: Action<S>,
) -> Result<(), AllocError>
    ensures kept { OnOk result ((p : ℕ) → Lists S.number list.old.items p → Lists S.number list.new.items p) }
    ensures put { OnOk result ((p : ℕ) → action_of S.number action ≡ reduce p → Lists S.number list.new.items p) }
    ensures within { OnOk result ((n : ℕ) → ((p : ℕ) → Lists S.number list.old.items p → p < n) → ((p : ℕ) → action_of S.number action ≡ reduce p → p < n) → (p : ℕ) → Lists S.number list.new.items p → p < n) }
{
    let Action::Reduce(pidx) = action else {
        return Ok(());
    };
    if is_listed(list.as_slice(), pidx) {
        return Ok(());
    }
    list.push(pidx)?;
    Ok(())
}

/// Returns the productions by which a state reduces.
fn reducers_of<S: IndexStorage>(
    alloc: Global,
    chains: &Chains<'_, S>,
    state: StIdx<S>,
) -> Result<Vec<PIdx<S>>, AllocError>
    requires state { S.number state.0 < chains.now.stable.now.states }
    ensures { IfOk result (λ v. AreReducers S.number chains.now.grm.now.grammar chains.now.stable.now (S.number state.0) v.items) }
{
    let _prods = chains.grm.prods_len();
    let row = chains.stable.state_cells(state);
    let mut list = Vec::new(alloc);
    'cells: for index in 0..row.len() {
        let (_, action) = cell_of_row(row, index);
        put_reducer(&mut list, action)?;
    }
    Ok(list)
}

/// Returns the productions by which each state reduces.
pub(crate) fn all_reducers<S: IndexStorage>(
    alloc: Global,
    chains: &Chains<'_, S>,
) -> Result<Vec<Vec<PIdx<S>>>, AllocError>
    ensures { IfOk result (λ v. AreAllReducers S.number chains.now.grm.now.grammar chains.now.stable.now v.items) }
{
    let states = chains.stable.states_len().0;
    let mut all = Vec::with_capacity(alloc, states.to_usize())?;
    'states: for number in 0..states.to_usize() {
        let state = StIdx(index_below(number, states));
        all.push(reducers_of(alloc, chains, state)?)?;
    }
    Ok(all)
}

/// Returns the ones of a state among those of all.
pub(crate) fn reducers_at<'a, S: IndexStorage>(
    chains: &Chains<'_, S>,
    all: &'a [Vec<PIdx<S>>],
    state: StIdx<S>,
) -> &'a [PIdx<S>]
    requires all { AreAllReducers S.number chains.now.grm.now.grammar chains.now.stable.now all.now }
    requires state { S.number state.0 < chains.now.stable.now.states }
    ensures { AreReducers S.number chains.now.grm.now.grammar chains.now.stable.now (S.number state.0) result.now }
{
    all[state.0.to_usize()].as_slice()
}
