//! Whether the edges into each state carry its items past dot zero.

ghost use Rattle.std.specs.Prelude.{◌≡◌, ◌<◌, ◌+◌, ℕ, [], Some, length, get_or, slice_get, slice_set, true, IfOk};
ghost use Rattle.cfg_numbered.specs.Symbols.{sym_of};
ghost use Rattle.lr_theory.specs.Itemset.{HasItem, ItemSet};
ghost use Rattle.state_table.specs.Graphs.{IsGraphValue};
ghost use Rattle.lrpar.specs.Fitting.{Carries, ArePast, AreAllPast, AreFlags, closed_at};
ghost use Rattle.cfg_theory.specs.Decides.{Decides};

use crate::numbers::index_below;
use crate::parserdata::edges::edge_at;
use crate::parserdata::fitting::PastItem;
use crate::parserdata::items::{has_item, is_next};
use cfg_base::index::IndexStorage;
use cfg_base::symbol::{PIdx, SIdx, Symbol};
use cfg_numbered::yacc::grammar::NumberedGrammar;
use state_table::{Itemset, StIdx, StateGraph};
use std::alloc::{AllocError, Global};

/// Returns the items past dot zero of a set.
fn past_items<S: IndexStorage>(
    alloc: Global,
    items: &Itemset<S>,
) -> Result<Vec<PastItem<S>>, AllocError>
    ensures { IfOk result (λ v. ArePast S.number items.now v.items) }
{
    let mut past = Vec::new(alloc);
    'items: for index in 0..items.len() {
        let (pidx, dot) = items.item_at(index);
        let number = dot.0.to_usize();
        if number == 0 {
            continue;
        }
        let before = SIdx(index_below(number - 1, dot.0));
        past.push(PastItem { pidx, before })?;
    }
    Ok(past)
}

/// Returns the items past dot zero of each state.
fn all_past<S: IndexStorage>(
    alloc: Global,
    sgraph: &StateGraph<S>,
) -> Result<Vec<Vec<PastItem<S>>>, AllocError>
    ensures { IfOk result (λ v. AreAllPast S.number sgraph.now v.items) }
{
    let states = sgraph.all_states_len().0;
    let mut all = Vec::with_capacity(alloc, states.to_usize())?;
    'states: for number in 0..states.to_usize() {
        let state = StIdx(index_below(number, states));
        all.push(past_items(alloc, sgraph.closed_state(state))?)?;
    }
    Ok(all)
}

/// Returns the item at an index.
fn past_at<S: IndexStorage>(past: &[PastItem<S>], index: usize) -> PastItem<S>
    requires { index < length past.now }
    ensures { slice_get past.now index ≡ Some result }
{
    past[index]
}

/// Returns the items past dot zero of a state.
fn past_of<'a, S: IndexStorage>(
    sgraph: &StateGraph<S>,
    past: &'a [Vec<PastItem<S>>],
    state: StIdx<S>,
) -> &'a [PastItem<S>]
    requires past { AreAllPast S.number sgraph.now past.now }
    requires state { S.number state.0 < length sgraph.now.cores }
    ensures { ArePast S.number (closed_at sgraph.now (S.number state.0)) result.now }
{
    past[state.0.to_usize()].as_slice()
}

/// Stores an index for a production, if there is room for it.
fn put_place<S: IndexStorage>(places: &mut Vec<usize>, pidx: PIdx<S>, index: usize)
    ensures { length places.new.items ≡ length places.old.items }
{
    let number = pidx.0.to_usize();
    if number < places.len() {
        places[number] = index;
    }
}

/// Stores for each production of a set the index of its last item; those of the others stay.
fn put_places<S: IndexStorage>(items: &Itemset<S>, places: &mut Vec<usize>)
    ensures { length places.new.items ≡ length places.old.items }
{
    'items: for index in 0..items.len() {
        let (pidx, _) = items.item_at(index);
        put_place(places, pidx, index);
    }
}

/// Returns whether an item is at an index.
fn is_item_at<S: IndexStorage>(
    items: &Itemset<S>,
    index: usize,
    pidx: PIdx<S>,
    dot: SIdx<S>,
) -> bool
    ensures { result ≡ true → HasItem items.now (S.number pidx.0) (S.number dot.0) }
{
    if index >= items.len() {
        return false;
    }
    let (found, at) = items.item_at(index);
    if found.0.to_usize() != pidx.0.to_usize() {
        return false;
    }
    at.0.to_usize() == dot.0.to_usize()
}

/// Returns whether a set has an item. It is looked for at its production's place first.
fn has_item_by<S: IndexStorage>(
    items: &Itemset<S>,
    places: &[usize],
    pidx: PIdx<S>,
    dot: SIdx<S>,
) -> bool
    ensures { Decides (HasItem items.now (S.number pidx.0) (S.number dot.0)) result }
{
    let number = pidx.0.to_usize();
    if number < places.len() {
        if is_item_at(items, places[number], pidx, dot) {
            return true;
        }
    }
    has_item(items, pidx, dot)
}

/// Returns whether an edge carries the items past dot zero of the set that it leads to.
fn carries<S: IndexStorage>(
    grm: &NumberedGrammar<S>,
    from: &Itemset<S>,
    places: &[usize],
    symbol: Symbol<S>,
    past: &[PastItem<S>],
) -> bool
    ensures { (to : ItemSet) → ArePast S.number to past.now → Decides (Carries grm.now.grammar from.now (sym_of S.number symbol) to) result }
{
    'items: for index in 0..past.len() {
        let PastItem { pidx, before } = past_at(past, index);
        if !has_item_by(from, places, pidx, before) {
            return false;
        }
        if !is_next(grm, pidx, before, symbol) {
            return false;
        }
    }
    true
}

/// Returns whether a state is flagged.
pub(crate) fn is_flagged<S: IndexStorage>(flags: &Vec<bool>, state: StIdx<S>) -> bool
    requires { S.number state.0 < length flags.now.items }
    ensures { slice_get flags.now.items (S.number state.0) ≡ Some result }
{
    flags[state.0.to_usize()]
}

/// Flags a state.
fn flag<S: IndexStorage>(flags: &mut Vec<bool>, state: StIdx<S>)
    requires { S.number state.0 < length flags.old.items }
    ensures { flags.new.items ≡ slice_set flags.old.items (S.number state.0) true }
{
    flags[state.0.to_usize()] = true;
}

/// Flags the states with an edge from this one that doesn't carry.
fn flag_from<S: IndexStorage>(
    grm: &NumberedGrammar<S>,
    sgraph: &StateGraph<S>,
    past: &[Vec<PastItem<S>>],
    places: &mut Vec<usize>,
    flags: &mut Vec<bool>,
    state: StIdx<S>,
)
    requires state { S.number state.0 < length sgraph.now.cores }
    requires graph { IsGraphValue S.MAX sgraph.now }
    requires past { AreAllPast S.number sgraph.now past.now }
    requires flags { AreFlags grm.now.grammar sgraph.now (S.number state.0) flags.old.items }
    ensures { AreFlags grm.now.grammar sgraph.now (S.number state.0 + 1) flags.new.items }
{
    let from = sgraph.closed_state(state);
    let edges = sgraph.edges(state);
    put_places(from, places);
    'edges: for index in 0..edges.len() {
        let (symbol, target) = edge_at(edges, index);
        if is_flagged(flags, target) {
            continue;
        }
        if carries(
            grm,
            from,
            places.as_slice(),
            symbol,
            past_of(sgraph, past, target),
        ) {
            continue;
        }
        flag(flags, target);
    }
}

/// Returns a flag for each state, whether some edge into it doesn't carry.
pub(crate) fn flags_of<S: IndexStorage>(
    alloc: Global,
    grm: &NumberedGrammar<S>,
    sgraph: &StateGraph<S>,
) -> Result<Vec<bool>, AllocError>
    ensures { IfOk result (λ fs. AreFlags grm.now.grammar sgraph.now (length sgraph.now.cores) fs.items) }
{
    let past = all_past(alloc, sgraph)?;
    let states = sgraph.all_states_len().0;
    let mut places = vec![in alloc; 0; grm.prods_len().0.to_usize()]?;
    let mut flags = vec![in alloc; false; states.to_usize()]?;
    'states: for number in 0..states.to_usize() {
        let state = StIdx(index_below(number, states));
        flag_from(grm, sgraph, past.as_slice(), &mut places, &mut flags, state);
    }
    Ok(flags)
}
