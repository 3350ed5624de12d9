//! Unit chains: a quick test that no chain is long, which follows the reductions of one symbol without looking at
//! tokens.

ghost use Rattle.std.specs.Prelude.{◌≡◌, ◌<◌, ◌+◌, ℕ, List, true, Some, length, slice_get, IfOk};
ghost use Rattle.state_table.specs.Graphs.{GraphValue};
ghost use Rattle.state_table.specs.TableValues.{TableValue};
ghost use Rattle.state_table.specs.Tables.{automaton_of};
ghost use Rattle.lrpar.specs.Reducing.{IsLong, ShortAt, ShortIn, AreShorts};
ghost use Rattle.lrpar.specs.Branching.{Lists, AreReducers, AreAllReducers};

use crate::machine::Chains;
use crate::numbers::index_below;
use crate::reducers::{prod_of_list, reducers_at};
use cfg_base::index::IndexStorage;
use cfg_base::symbol::PIdx;
use cfg_numbered::yacc::grammar::NumberedGrammar;
use state_table::StIdx;
use std::alloc::{AllocError, Global};

/// The reductions of at most one symbol that a state makes: none, by one production of one symbol alone, or others.
#[derive(Clone, Copy, PartialEq, Eq)]
pub(crate) enum Short<S> {
    Nothing,
    Unit(PIdx<S>),
    Other,
}

/// Returns the kind of a state's reductions with those by one production more.
fn short_with<S: IndexStorage>(grm: &NumberedGrammar<S>, found: Short<S>, pidx: PIdx<S>) -> Short<S>
    requires { S.number pidx.0 < length grm.now.grammar.productions }
    ensures { (ps : List (PIdx S)) (n : ℕ) → slice_get ps n ≡ Some pidx → ShortIn S.number grm.now.grammar ps n found → ShortIn S.number grm.now.grammar ps (n + 1) result }
{
    let count = grm.prod_len(pidx).0.to_usize();
    if count > 1 {
        return found;
    }
    if count == 0 {
        return Short::Other;
    }
    match found {
        Short::Nothing => Short::Unit(pidx),
        Short::Unit(other) => {
            if other.0.to_usize() == pidx.0.to_usize() {
                Short::Unit(other)
            } else {
                Short::Other
            }
        }
        Short::Other => Short::Other,
    }
}

/// Returns the kind of the reductions of a state that reduces by these productions.
fn short_of<S: IndexStorage>(grm: &NumberedGrammar<S>, list: &[PIdx<S>]) -> Short<S>
    requires { (p : ℕ) → Lists S.number list.now p → p < length grm.now.grammar.productions }
    ensures { (v : TableValue) (q : ℕ) → AreReducers S.number grm.now.grammar v q list.now → ShortAt S.number grm.now.grammar v q result }
{
    let mut found = Short::Nothing;
    'prods: for index in 0..list.len() {
        found = short_with(grm, found, prod_of_list(list, index));
    }
    found
}

/// Returns the kind of each state's reductions.
pub(crate) fn all_shorts<S: IndexStorage>(
    alloc: Global,
    chains: &Chains<'_, S>,
    reducers: &[Vec<PIdx<S>>],
) -> Result<Vec<Short<S>>, AllocError>
    requires { AreAllReducers S.number chains.now.grm.now.grammar chains.now.stable.now reducers.now }
    ensures { IfOk result (λ v. AreShorts S.number chains.now.grm.now.grammar chains.now.stable.now v.items) }
{
    let states = chains.stable.states_len().0;
    let mut shorts = Vec::with_capacity(alloc, states.to_usize())?;
    'states: for number in 0..states.to_usize() {
        let state = StIdx(index_below(number, states));
        let list = reducers_at(chains, reducers, state);
        shorts.push(short_of(chains.grm, list))?;
    }
    Ok(shorts)
}

/// Returns the kind of a state's reductions.
pub(crate) fn short_at<S: IndexStorage>(shorts: &[Short<S>], state: StIdx<S>) -> Short<S>
    requires { S.number state.0 < length shorts.now }
    ensures { slice_get shorts.now (S.number state.0) ≡ Some result }
{
    shorts[state.0.to_usize()]
}

/// Returns whether it is seen, without looking at tokens, that no chain from the state with another one above it
/// passes the limit.
pub(crate) fn is_quiet<S: IndexStorage>(
    chains: &Chains<'_, S>,
    shorts: &[Short<S>],
    state: StIdx<S>,
    above: StIdx<S>,
) -> bool
    requires shorts { AreShorts S.number chains.now.grm.now.grammar chains.now.stable.now shorts.now }
    requires state { S.number state.0 < chains.now.stable.now.states }
    requires above { S.number above.0 < chains.now.stable.now.states }
    ensures { result ≡ true → (g : GraphValue) (t : ℕ) → IsLong chains.now.grm.now.grammar (automaton_of g chains.now.stable.now) chains.now.limit (S.number state.0) (Some (S.number above.0)) t → ⊥ }
{
    let mut top = above;
    let most = chains.limit as usize + 1;
    'links: for _ in 0..most {
        match short_at(shorts, top) {
            Short::Nothing => return true,
            Short::Other => return false,
            Short::Unit(pidx) => {
                let Some(next) = chains.stable.goto(state, chains.grm.prod_to_rule(pidx)) else {
                    return true;
                };
                top = next;
            }
        }
    }
    false
}
