//! The state graph of a finished building.

ghost use Rattle.std.specs.Prelude.{◌≡◌, ◌<◌, ◌≤◌, ℕ, [], length, map, get_or, IfOk, OnOk, IsErrOf, All};
ghost use Rattle.cfg_sets.specs.Firsts.{AreFirsts};
ghost use Rattle.lr_theory.specs.Itemset.{FitsGrammar};
ghost use Rattle.lr_theory.specs.Sizes.{StaysWithin};
ghost use Rattle.lrtable.specs.Builders.{AreClear};
ghost use Rattle.lrtable.specs.Closers.{IsReady};
ghost use Rattle.lrtable.specs.Closes.{AreFronts};
ghost use Rattle.lrtable.specs.FinalStates.{IsClosureBeside, AreClosures, AreFinal, edge_pairs_of};
ghost use Rattle.state_table.specs.Graphs.{IsGraphOf};
ghost use Rattle.state_table.specs.GraphViews.{closures_seen, edges_seen};
ghost use Rattle.lrtable.specs.Handling.{TooManyStand};
ghost use Rattle.state_table.specs.ItemRows.{IsCoreOf, map_of, FitsCore};
ghost use Rattle.lrtable.specs.States.{state_at};
ghost use Rattle.state_table.specs.CoreViews.{core_of_set};
ghost use Rattle.lrtable.specs.StateViews.{value_of};
ghost use Rattle.lrtable.specs.declared.states.BuildError.TheVariants as faults;

use crate::capacities::rules_behind;
use crate::closures::closed_by;
use crate::left_corners::with_reached;
use crate::openers::Openers;
use crate::opening::Closer;
use crate::pager;
use crate::pager::Buffers;
use crate::states::{BuildError, EdgeTo, State};
use crate::tails::any_incomplete;
use cfg_base::index::IndexStorage;
use cfg_numbered::yacc::NumberedGrammar;
use cfg_sets::YaccFirsts;
use state_table::cores::CoreSet;
use state_table::itemset::{Itemset, of_shared};
use state_table::shared_sets::SharedSets;
use state_table::stategraph::{StateGraph, of_lists};
use std::alloc::{AllocError, Global};
use std::mem;

/// Takes a state out.
fn take_state<S: IndexStorage>(alloc: Global, states: &mut Vec<State<S>>, number: usize) -> State<S>
    requires { number < length states.old.items }
    ensures state { value_of S.number result ≡ state_at (map (value_of S.number) states.old.items) number }
    ensures left { (r : ℕ) → (r ≡ number → ⊥) → state_at (map (value_of S.number) states.new.items) r ≡ state_at (map (value_of S.number) states.old.items) r }
    ensures count { length states.new.items ≡ length states.old.items }
{
    mem::replace(&mut states[number], State::empty(alloc))
}

/// Returns the cores of the states as item sets, and the edges of each, taken out.
fn take_parts<S: IndexStorage>(
    alloc: Global,
    states: &mut Vec<State<S>>,
) -> Result<(Vec<Itemset<S>>, Vec<Vec<EdgeTo<S>>>), AllocError>
    requires { (tokens : ℕ) × ((s : ℕ) → s < length states.old.items → IsCoreOf tokens (state_at (map (value_of S.number) states.old.items) s).core) }
    ensures cores { IfOk result (λ v. v.0.items ≡ map (λ s. map_of s.core) (map (value_of S.number) states.old.items)) }
    ensures edges { IfOk result (λ v. map (λ l. edges_seen S.number l.items) v.1.items ≡ map edge_pairs_of (map (value_of S.number) states.old.items)) }
{
    let mut sets = Vec::with_capacity(alloc, states.len())?;
    let mut lists = Vec::with_capacity(alloc, states.len())?;
    'states: for number in 0..states.len() {
        let State {
            core,
            edges,
            todo: _,
        } = take_state(alloc, states, number);
        lists.push(edges)?;
        let set = SharedSets::from_core(alloc, core)?;
        sets.push(of_shared(set))?;
    }
    Ok((sets, lists))
}

/// Returns the closure of a core, but none if all its items are complete: such a core is its own closure.
fn closed_beside<S: IndexStorage>(
    alloc: Global,
    grm: &NumberedGrammar<S>,
    closer: &mut Closer<'_, S>,
    core: &CoreSet<S>,
) -> Result<Option<Itemset<S>>, AllocError>
    requires ready { IsReady grm.now.grammar closer.old }
    requires fits { FitsCore grm.now.grammar (core_of_set S.number core.now) }
    requires dots { FitsGrammar grm.now.grammar (map_of (core_of_set S.number core.now)) }
    ensures ready { OnOk result (IsReady grm.now.grammar closer.new) }
    ensures closure { IfOk result (IsClosureBeside grm.now.grammar (map_of (core_of_set S.number core.now))) }
{
    if !any_incomplete(grm, core.items.as_slice()) {
        return Ok(None);
    }
    let set = closed_by(alloc, grm, closer, core)?;
    Ok(Some(of_shared(set)))
}

/// Returns the closures of the states, but none for those that are their own closures.
fn closed_sets<S: IndexStorage>(
    alloc: Global,
    grm: &NumberedGrammar<S>,
    closer: &mut Closer<'_, S>,
    states: &[State<S>],
) -> Result<Vec<Option<Itemset<S>>>, AllocError>
    requires ready { IsReady grm.now.grammar closer.old }
    requires fit { (s : ℕ) → s < length states.now → FitsCore grm.now.grammar (state_at (map (value_of S.number) states.now) s).core }
    requires dots { (s : ℕ) → s < length states.now → FitsGrammar grm.now.grammar (map_of (state_at (map (value_of S.number) states.now) s).core) }
    ensures { IfOk result (λ v. AreClosures grm.now.grammar (map (λ s. map_of s.core) (map (value_of S.number) states.now)) (closures_seen (map (λ s. map_of s.core) (map (value_of S.number) states.now)) v.items)) }
{
    let mut sets = Vec::with_capacity(alloc, states.len())?;
    'states: for number in 0..states.len() {
        let core = &states[number].core;
        sets.push(closed_beside(alloc, grm, closer, core)?)?;
    }
    Ok(sets)
}

/// Returns the graph of the states of a finished building, whose cores are taken out.
fn from_states<S: IndexStorage>(
    alloc: Global,
    grm: &NumberedGrammar<S>,
    closer: &mut Closer<'_, S>,
    states: &mut Vec<State<S>>,
) -> Result<StateGraph<S>, AllocError>
    requires closer { IsReady grm.now.grammar closer.old }
    requires few { length states.old.items ≤ S.MAX }
    requires ready { AreFinal grm.now.grammar (map (value_of S.number) states.old.items) }
    ensures graph { IfOk result (λ g. IsGraphOf grm.now.grammar g) }
    ensures cores { IfOk result (λ g. g.cores ≡ map (λ s. map_of s.core) (map (value_of S.number) states.old.items)) }
    ensures edges { IfOk result (λ g. g.edges ≡ map edge_pairs_of (map (value_of S.number) states.old.items)) }
{
    grm.start_prod();
    let closed = closed_sets(alloc, grm, closer, states.as_slice())?;
    let (cores, edges) = take_parts(alloc, states)?;
    Ok(of_lists(cores, closed, edges))
}

/// Returns the left corners of each rule, with what the rules behind dots reach.
fn openers_of_grammar<S: IndexStorage>(
    alloc: Global,
    grm: &NumberedGrammar<S>,
    firsts: &YaccFirsts<S>,
) -> Result<Openers, AllocError>
    requires { AreFirsts grm.now.grammar firsts.now }
    ensures { IfOk result (AreFronts grm.now.grammar) }
{
    let tokens = grm.tokens_len().0.to_usize();
    let behind = rules_behind(alloc, grm)?;
    let fronts = Openers::new(alloc, grm, firsts)?;
    with_reached(alloc, fronts, &behind, tokens)
}

/// Returns the graph of a grammar by these buffers.
fn graph_by<S: IndexStorage>(
    alloc: Global,
    grm: &NumberedGrammar<S>,
    buffers: &mut Buffers<'_, S>,
) -> Result<StateGraph<S>, BuildError>
    requires { AreClear grm.now.grammar buffers.old }
    ensures graph { IfOk result (λ g. IsGraphOf grm.now.grammar g) }
    ensures within { OnOk result (StaysWithin grm.now.grammar S.MAX) }
    ensures many { IsErrOf result faults.TooManyStates → TooManyStand grm.now.grammar S.MAX }
{
    let mut states = pager::states(alloc, grm, buffers)?;
    let graph = from_states(alloc, grm, &mut buffers.closer, &mut states)?;
    Ok(graph)
}

/// Returns the graph of a grammar by the left corners of its rules.
fn graph_over<S: IndexStorage>(
    alloc: Global,
    grm: &NumberedGrammar<S>,
    firsts: &YaccFirsts<S>,
    openers: &Openers,
) -> Result<StateGraph<S>, BuildError>
    requires firsts { AreFirsts grm.now.grammar firsts.now }
    requires openers { AreFronts grm.now.grammar openers.now }
    ensures graph { IfOk result (λ g. IsGraphOf grm.now.grammar g) }
    ensures within { OnOk result (StaysWithin grm.now.grammar S.MAX) }
    ensures many { IsErrOf result faults.TooManyStates → TooManyStand grm.now.grammar S.MAX }
{
    let closer = Closer::new(alloc, grm, firsts, openers)?;
    let mut buffers = Buffers::new(alloc, grm, closer)?;
    let graph = graph_by(alloc, grm, &mut buffers);
    drop(buffers);
    graph
}

/// Returns the graph of a grammar.
pub(crate) fn graph_of_grammar<S: IndexStorage>(
    alloc: Global,
    grm: &NumberedGrammar<S>,
    firsts: &YaccFirsts<S>,
) -> Result<StateGraph<S>, BuildError>
    requires { AreFirsts grm.now.grammar firsts.now }
    ensures graph { IfOk result (λ g. IsGraphOf grm.now.grammar g) }
    ensures within { OnOk result (StaysWithin grm.now.grammar S.MAX) }
    ensures many { IsErrOf result faults.TooManyStates → TooManyStand grm.now.grammar S.MAX }
{
    let openers = openers_of_grammar(alloc, grm, firsts)?;
    let graph = graph_over(alloc, grm, firsts, &openers);
    drop(openers);
    graph
}
