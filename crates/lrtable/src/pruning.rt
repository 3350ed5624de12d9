//! Selects the states that edges reach from the first, in order and with new numbers.

ghost use Rattle.std.specs.Prelude.{◌≡◌, ℕ, ◌+◌, ◌<◌, ◌≤◌, ◌↔◌, true, IsTrue, length, map, get_or, slice_set, IfOk, OnOk};
ghost use Rattle.std.specs.List.{Contains, AllPairs};
ghost use Rattle.vob.specs.Sets.{is_set};
ghost use Rattle.lrtable.specs.Pruning.{AreLinked, Flagged, IsLed, IsTargetOf, Marks, AreNumbered, IsCut, renumbered, renumbered_state};
ghost use Rattle.lrtable.specs.States.{Edge, state_at};
ghost use Rattle.lrtable.specs.StateViews.{edge_of_pair, edges_of, value_of};

use crate::states::{EdgeTo, State};
use cfg_base::index::IndexStorage;
use state_table::stidx::StIdx;
use std::alloc::{AllocError, Global};
use std::mem;
use vob::Vob;

/// Marks a state, and puts it with those that wait if it wasn't marked.
pub(crate) fn mark(
    marked: &mut Vob,
    waiting: &mut Vec<usize>,
    number: usize,
) -> Result<(), AllocError>
    requires { number < length marked.old.bits }
    ensures { OnOk result (Marks (λ s. number ≡ s) marked.old.bits marked.new.bits waiting.old.items waiting.new.items) }
{
    if marked.set(number, true) {
        waiting.push(number)?;
    }
    Ok(())
}

/// Marks the targets of edges.
fn mark_targets<S: IndexStorage>(
    edges: &[EdgeTo<S>],
    marked: &mut Vob,
    waiting: &mut Vec<usize>,
) -> Result<(), AllocError>
    requires { (e : Edge) → Contains (edges_of S.number edges.now) e → e.target < length marked.old.bits }
    ensures { OnOk result (Marks (IsTargetOf (edges_of S.number edges.now)) marked.old.bits marked.new.bits waiting.old.items waiting.new.items) }
{
    'edges: for edge in edges {
        mark(marked, waiting, edge.1.0.to_usize())?;
    }
    Ok(())
}

/// Sets a flag.
fn flag(flags: &mut Vec<bool>, number: usize)
    requires { number < length flags.old.items }
    ensures { flags.new.items ≡ slice_set flags.old.items number true }
{
    flags[number] = true;
}

/// Sets the flags of the targets of edges.
fn flag_targets<S: IndexStorage>(edges: &[EdgeTo<S>], flags: &mut Vec<bool>)
    requires { (e : Edge) → Contains (edges_of S.number edges.now) e → e.target < length flags.old.items }
    ensures { Flagged (IsTargetOf (edges_of S.number edges.now)) flags.old.items flags.new.items }
{
    'edges: for edge in edges {
        flag(flags, edge.1.0.to_usize());
    }
}

/// Returns whether a flag is set.
fn has_flag(flags: &[bool], number: usize) -> bool
    requires { number < length flags.now }
    ensures { result ≡ is_set flags.now number }
{
    flags[number]
}

/// Returns whether an edge leads to each state but the first from a lower one. Then edges lead to all states from the
/// first.
fn are_led<S: IndexStorage>(alloc: Global, states: &[State<S>]) -> Result<bool, AllocError>
    requires some { 0 < length states.now }
    requires linked { AreLinked (map (value_of S.number) states.now) }
    ensures { IfOk result (λ b. b ≡ true → (s : ℕ) → s < length states.now → IsLed (map (value_of S.number) states.now) s) }
{
    let mut led = vec![in alloc; false; states.len()]?;
    flag(&mut led, 0);
    'states: for number in 0..states.len() {
        if !has_flag(led.as_slice(), number) {
            return Ok(false);
        }
        flag_targets(states[number].edges.as_slice(), &mut led);
    }
    Ok(true)
}

/// Marks the states that edges lead to from the first.
fn marks<S: IndexStorage>(alloc: Global, states: &[State<S>]) -> Result<Vob, AllocError>
    requires some { 0 < length states.now }
    requires linked { AreLinked (map (value_of S.number) states.now) }
    ensures width { IfOk result (λ v. length v.bits ≡ length states.now) }
    ensures marks { IfOk result (λ v. (s : ℕ) → IsTrue (is_set v.bits s) ↔ IsLed (map (value_of S.number) states.now) s) }
{
    let mut marked = Vob::from_elem(alloc, false, states.len())?;
    let mut waiting = Vec::new(alloc);
    mark(&mut marked, &mut waiting, 0)?;
    'waiting: while let Some(number) = waiting.pop() {
        mark_targets(states[number].edges.as_slice(), &mut marked, &mut waiting)?;
    }
    Ok(marked)
}

/// Writes down how many selected states come before a state, and the state with these if it is marked.
fn number_one(
    marked: &Vob,
    number: usize,
    kept: &mut Vec<usize>,
    numbers: &mut Vec<usize>,
) -> Result<(), AllocError>
    requires number { number < length marked.now.bits }
    requires before { AreNumbered marked.now.bits number kept.old.items numbers.old.items }
    ensures { OnOk result (AreNumbered marked.now.bits (number + 1) kept.new.items numbers.new.items) }
{
    numbers.push(kept.len())?;
    if marked.get_unchecked(number) {
        kept.push(number)?;
    }
    Ok(())
}

/// Returns the marked states in order, and for each state how many of these come before it.
fn number_all(alloc: Global, marked: &Vob) -> Result<(Vec<usize>, Vec<usize>), AllocError>
    ensures { IfOk result (λ r. AreNumbered marked.now.bits (length marked.now.bits) r.0.items r.1.items) }
{
    let mut kept = Vec::new(alloc);
    let mut numbers = Vec::new(alloc);
    'states: for number in 0..marked.len() {
        number_one(marked, number, &mut kept, &mut numbers)?;
    }
    Ok((kept, numbers))
}

/// Returns an edge with the new number of its target.
fn renumbered_edge<S: IndexStorage>(edge: EdgeTo<S>, numbers: &[usize]) -> EdgeTo<S>
    requires target { S.number edge.1.0 < length numbers.now }
    requires low { (k : ℕ) → get_or numbers.now k 0 ≤ S.MAX }
    ensures { edge_of_pair S.number result ≡ renumbered numbers.now (edge_of_pair S.number edge) }
{
    let (symbol, target) = edge;
    let number = numbers[target.0.to_usize()];
    (symbol, StIdx(S::from_usize(number).unwrap()))
}

/// Gives edges the new numbers of their targets.
fn renumber<S: IndexStorage>(edges: &mut Vec<EdgeTo<S>>, numbers: &[usize])
    requires targets { (e : Edge) → Contains (edges_of S.number edges.old.items) e → e.target < length numbers.now }
    requires low { (k : ℕ) → get_or numbers.now k 0 ≤ S.MAX }
    ensures { edges_of S.number edges.new.items ≡ map (renumbered numbers.now) (edges_of S.number edges.old.items) }
{
    'each: for i in 0..edges.len() {
        let edge = edges[i];
        edges[i] = renumbered_edge(edge, numbers);
    }
}

/// Takes a state out, with edges to the new numbers of their targets.
fn take_out<S: IndexStorage>(
    alloc: Global,
    states: &mut Vec<State<S>>,
    number: usize,
    numbers: &[usize],
) -> State<S>
    requires number { number < length states.old.items }
    requires targets { (e : Edge) → Contains (state_at (map (value_of S.number) states.old.items) number).edges e → e.target < length numbers.now }
    requires low { (k : ℕ) → get_or numbers.now k 0 ≤ S.MAX }
    ensures state { value_of S.number result ≡ renumbered_state numbers.now (state_at (map (value_of S.number) states.old.items) number) }
    ensures left { (r : ℕ) → (r ≡ number → ⊥) → state_at (map (value_of S.number) states.new.items) r ≡ state_at (map (value_of S.number) states.old.items) r }
    ensures count { length states.new.items ≡ length states.old.items }
{
    let mut state = mem::replace(&mut states[number], State::empty(alloc));
    renumber(&mut state.edges, numbers);
    state
}

/// Returns the states of these numbers, taken out in order.
fn take_all<S: IndexStorage>(
    alloc: Global,
    states: &mut Vec<State<S>>,
    kept: &[usize],
    numbers: &[usize],
) -> Result<Vec<State<S>>, AllocError>
    requires ascends { AllPairs (λ j k. j < k) kept.now }
    requires within { (k : ℕ) → Contains kept.now k → k < length states.old.items }
    requires targets { (k : ℕ) (e : Edge) → Contains kept.now k → Contains (state_at (map (value_of S.number) states.old.items) k).edges e → e.target < length numbers.now }
    requires low { (k : ℕ) → get_or numbers.now k 0 ≤ S.MAX }
    ensures { IfOk result (λ v. map (value_of S.number) v.items ≡ map (λ k. renumbered_state numbers.now (state_at (map (value_of S.number) states.old.items) k)) kept.now) }
{
    let mut new = Vec::new(alloc);
    'kept: for i in 0..kept.len() {
        let number = kept[i];
        let state = take_out(alloc, states, number, numbers);
        new.push(state)?;
    }
    Ok(new)
}

/// Returns the states that edges lead to from the first, in order and with new numbers, where there may be others.
fn cut<S: IndexStorage>(
    alloc: Global,
    states: &mut Vec<State<S>>,
) -> Result<Vec<State<S>>, AllocError>
    requires some { 0 < length states.old.items }
    requires linked { AreLinked (map (value_of S.number) states.old.items) }
    requires few { length states.old.items ≤ S.MAX }
    ensures { IfOk result (λ v. IsCut (map (value_of S.number) states.old.items) (map (value_of S.number) v.items)) }
{
    let marked = marks(alloc, states.as_slice())?;
    let numbered = number_all(alloc, &marked)?;
    let new = take_all(alloc, states, numbered.0.as_slice(), numbered.1.as_slice())?;
    Ok(new)
}

/// Returns the states, taken out as they are.
fn whole<S: IndexStorage>(alloc: Global, states: &mut Vec<State<S>>) -> Vec<State<S>>
    ensures { result.items ≡ states.old.items }
{
    mem::replace(states, Vec::new(alloc))
}

/// Returns the states that edges lead to from the first, in order and with new numbers.
pub(crate) fn prune<S: IndexStorage>(
    alloc: Global,
    states: &mut Vec<State<S>>,
) -> Result<Vec<State<S>>, AllocError>
    requires some { 0 < length states.old.items }
    requires linked { AreLinked (map (value_of S.number) states.old.items) }
    requires few { length states.old.items ≤ S.MAX }
    ensures { IfOk result (λ v. IsCut (map (value_of S.number) states.old.items) (map (value_of S.number) v.items)) }
{
    let led = are_led(alloc, states.as_slice())?;
    if led {
        return Ok(whole(alloc, states));
    }
    let new = cut(alloc, states)?;
    Ok(new)
}
