//! The goto sets of a state that was taken before. Each has the items of the state that its edge leads to, and its
//! lookaheads are read from the rows of the closed state: a set that is held there leaves the edge as it is.

ghost use Rattle.std.specs.Prelude.{◌≡◌, ◌≢◌, ℕ, ◌<◌, ◌+◌, true, false, length, map, get_or, IfOk, OnOk, IsErrOf, None};
ghost use Rattle.cfg_theory.specs.Grammar.{Sym, IsNext};
ghost use Rattle.lr_theory.specs.Building.{Building, same_symbol};
ghost use Rattle.lr_theory.specs.Graph.{core_of};
ghost use Rattle.lr_theory.specs.Itemset.{HasItem, Closure};
ghost use Rattle.lr_theory.specs.ItemLists.{Stands};
ghost use Rattle.lrtable.specs.Builders.{states_in, IsBuilder, GoesOn};
ghost use Rattle.lrtable.specs.Handling.{rank, AreHandled, TooManyStand};
ghost use Rattle.state_table.specs.ItemRows.{Item, IsAt, IsCoreOf, map_of};
ghost use Rattle.state_table.specs.Meeting.{rows_in};
ghost use Rattle.lrtable.specs.MovedItems.{moved_items, row_from, rows_from};
ghost use Rattle.lrtable.specs.Revisits.{core_noted, IsMoved, AreMoved, IsRowBehind, AreRowsBehind, AreHeld, IsNoted, LeadsOn};
ghost use Rattle.lrtable.specs.States.{Edge, AreStates, AreBuckets, AscendEdges, ListsCore, edge_in, edge_of, state_at};
ghost use Rattle.cfg_numbered.specs.Symbols.{sym_of};
ghost use Rattle.state_table.specs.CoreViews.{item_of, items_of, core_of_set};
ghost use Rattle.lrtable.specs.StateViews.{edge_of_pair, edges_of, lists_of, value_of};
ghost use Rattle.lrtable.specs.Stepping.{IsNextTaken};
ghost use Rattle.lrtable.specs.declared.states.BuildError.TheVariants as faults;

use crate::moved_items::{MovedItem, Rows, Source};
use crate::state_lists::{Numbers, numbers_at};
use crate::states::{BuildError, Builder, EdgeTo, State, place};
use cfg_base::index::IndexStorage;
use cfg_base::symbol::SIdx;
use cfg_numbered::yacc::NumberedGrammar;
use state_table::cores::{CoreItem, CoreSet, same_item, same_items};
use std::alloc::{AllocError, Global};

/// A state as it was when it was taken.
#[derive(Drop)]
pub(crate) struct Retaken<S> {
    /// The items of its core.
    pub items: Vec<CoreItem<S>>,
    pub edges: Vec<EdgeTo<S>>,
    /// For each production an index at which an item of it may be in the core.
    pub hints: Vec<usize>,
}

/// Returns whether an item is at an index.
fn stands_at<S: IndexStorage>(items: &[CoreItem<S>], index: usize, item: &CoreItem<S>) -> bool
    ensures { result ≡ true → IsAt (items_of S.number items.now) index (S.number item.now.pidx.0) (S.number item.now.dot.0) }
{
    if index >= items.len() {
        return false;
    }
    same_item(&items[index], item)
}

/// Returns the index of an item.
fn index_among<S: IndexStorage>(items: &[CoreItem<S>], item: &CoreItem<S>) -> usize
    requires { Stands (items_of S.number items.now) (S.number item.now.pidx.0) (S.number item.now.dot.0) }
    ensures { IsAt (items_of S.number items.now) result (S.number item.now.pidx.0) (S.number item.now.dot.0) }
{
    'each: for k in 0..items.len() {
        if same_item(&items[k], item) {
            return k;
        }
    }
    0
}

/// Returns the index of an item, which may be the hint.
fn index_by_hint<S: IndexStorage>(items: &[CoreItem<S>], hint: usize, item: &CoreItem<S>) -> usize
    requires { Stands (items_of S.number items.now) (S.number item.now.pidx.0) (S.number item.now.dot.0) }
    ensures { IsAt (items_of S.number items.now) result (S.number item.now.pidx.0) (S.number item.now.dot.0) }
{
    if stands_at(items, hint, item) {
        return hint;
    }
    index_among(items, item)
}

/// Returns whether an item is behind the first symbol of a production that isn't the start production.
fn was_opened<S: IndexStorage>(grm: &NumberedGrammar<S>, item: &CoreItem<S>) -> bool
    ensures opened { result ≡ true → (S.number item.now.dot.0 ≡ 1) × (S.number item.now.pidx.0 ≢ grm.now.grammar.start) }
    ensures own { result ≡ false → S.number item.now.dot.0 ≡ 1 → S.number item.now.pidx.0 ≡ grm.now.grammar.start }
{
    let start = grm.start_prod().0.to_usize();
    if item.dot.0.to_usize() != 1 {
        return false;
    }
    item.pidx.0.to_usize() != start
}

/// Returns the source of the lookaheads of an item of a closed core. The item moved over the symbol before its dot,
/// so this is the item before it in the core, or its rule, if that was opened.
fn source_behind<S: IndexStorage>(
    grm: &NumberedGrammar<S>,
    was: &Retaken<S>,
    rows: &Rows<'_>,
    item: &CoreItem<S>,
) -> Source
    requires noted { IsNoted S.number grm.now.grammar was.now rows.now }
    requires moved { IsMoved grm.now.grammar (core_noted S.number was.now rows.now) (item_of S.number item.now) }
    ensures { IsRowBehind grm.now.grammar (core_noted S.number was.now rows.now) (item_of S.number item.now) (row_from rows.now result) }
{
    grm.start_prod();
    let pidx = item.pidx;
    let dot = item.dot.0.to_usize() - 1;
    if was_opened(grm, item) {
        let rule = grm.prod_to_rule(pidx).0.to_usize();
        let _looks = rows.of_rule(rule);
        return Source::Rule(rule);
    }
    let before = CoreItem {
        pidx,
        dot: SIdx(S::from_usize(dot).unwrap()),
    };
    let hint = was.hints[pidx.0.to_usize()];
    Source::Own(index_by_hint(was.items.as_slice(), hint, &before))
}

/// Returns whether the lookaheads of a core hold those that its items have in the goto set.
fn are_held<S: IndexStorage>(
    grm: &NumberedGrammar<S>,
    was: &Retaken<S>,
    rows: &Rows<'_>,
    core: &CoreSet<S>,
) -> bool
    requires noted { IsNoted S.number grm.now.grammar was.now rows.now }
    requires core { IsCoreOf grm.now.grammar.tokens (core_of_set S.number core.now) }
    requires moved { AreMoved grm.now.grammar (core_noted S.number was.now rows.now) (items_of S.number core.now.items.items) }
    ensures { result ≡ true → AreHeld grm.now.grammar (core_noted S.number was.now rows.now) (items_of S.number core.now.items.items) (length core.now.items.items) (rows_in core.now.looks.items) }
{
    grm.start_prod();
    'items: for k in 0..core.items.len() {
        let item = &core.items[k];
        let looks = &core.looks[k];
        let source = source_behind(grm, was, rows, item);
        if !looks.holds(rows.row(source)) {
            return false;
        }
    }
    true
}

/// Returns the goto set of these items.
fn goto_of_items<S: IndexStorage>(
    alloc: Global,
    grm: &NumberedGrammar<S>,
    was: &Retaken<S>,
    rows: &Rows<'_>,
    from: &[CoreItem<S>],
) -> Result<Vec<MovedItem<S>>, AllocError>
    requires noted { IsNoted S.number grm.now.grammar was.now rows.now }
    requires moved { AreMoved grm.now.grammar (core_noted S.number was.now rows.now) (items_of S.number from.now) }
    ensures items { IfOk result (λ v. moved_items S.number v.items ≡ items_of S.number from.now) }
    ensures rows { IfOk result (λ v. AreRowsBehind grm.now.grammar (core_noted S.number was.now rows.now) (items_of S.number from.now) (length from.now) (rows_from rows.now v.items)) }
{
    let mut set = Vec::with_capacity(alloc, from.len())?;
    'items: for k in 0..from.len() {
        let item = from[k];
        let source = source_behind(grm, was, rows, &item);
        set.push(MovedItem { item, source })?;
    }
    Ok(set)
}

/// Returns whether a state is the first of its core; `bucket` lists, ascending, those that may have it.
fn is_first<S: IndexStorage>(states: &[State<S>], bucket: &[usize], number: usize) -> bool
    requires number { number < length states.now }
    requires bucket { ListsCore (map (value_of S.number) states.now) (state_at (map (value_of S.number) states.now) number).core.items bucket.now }
    ensures { result ≡ true → (j : ℕ) → j < number → (state_at (map (value_of S.number) states.now) j).core.items ≡ (state_at (map (value_of S.number) states.now) number).core.items → ⊥ }
{
    let own = &states[number];
    'each: for i in 0..bucket.len() {
        let other = bucket[i];
        if other >= number {
            return true;
        }
        let lower = &states[other];
        if same_items(lower.core.items.as_slice(), own.core.items.as_slice()) {
            return false;
        }
    }
    true
}

/// Returns whether the goto set of a state's items joins this state, which holds all its lookaheads.
fn stays<S: IndexStorage>(
    grm: &NumberedGrammar<S>,
    states: &[State<S>],
    begins: &[Vec<Numbers>],
    was: &Retaken<S>,
    rows: &Rows<'_>,
    target: usize,
) -> bool
    requires noted { IsNoted S.number grm.now.grammar was.now rows.now }
    requires states { AreStates grm.now.grammar.tokens (map (value_of S.number) states.now) }
    requires buckets { AreBuckets (map (value_of S.number) states.now) (lists_of begins.now) }
    requires target { target < length states.now }
    requires moved { AreMoved grm.now.grammar (core_noted S.number was.now rows.now) (state_at (map (value_of S.number) states.now) target).core.items }
    requires some { 0 < length (state_at (map (value_of S.number) states.now) target).core.items }
    ensures held { result ≡ true → AreHeld grm.now.grammar (core_noted S.number was.now rows.now) (state_at (map (value_of S.number) states.now) target).core.items (length (state_at (map (value_of S.number) states.now) target).core.items) (state_at (map (value_of S.number) states.now) target).core.rows }
    ensures alone { result ≡ true → (j : ℕ) → j < target → (state_at (map (value_of S.number) states.now) j).core.items ≡ (state_at (map (value_of S.number) states.now) target).core.items → ⊥ }
{
    let core = &states[target].core;
    if !are_held(grm, was, rows, core) {
        return false;
    }
    is_first(states, numbers_at(begins, &core.items[0]), target)
}

/// Places the goto set of an edge's symbol: the edge stays where it is, or leads to the state that the set joins or becomes.
fn retake_edge<S: IndexStorage>(
    alloc: Global,
    grm: &NumberedGrammar<S>,
    builder: &mut Builder<S>,
    edge: EdgeTo<S>,
    was: &Retaken<S>,
    rows: &Rows<'_>,
) -> Result<(), BuildError>
    requires noted { IsNoted S.number grm.now.grammar was.now rows.now }
    requires builder { IsBuilder S.number S.MAX builder.old }
    requires states { AreStates grm.now.grammar.tokens (states_in S.number builder.old) }
    requires leads { LeadsOn grm.now.grammar (core_noted S.number was.now rows.now) (states_in S.number builder.old) builder.old.from (edge_of_pair S.number edge) }
    ensures builder { OnOk result (IsBuilder S.number S.MAX builder.new) }
    ensures goes { OnOk result (GoesOn S.number builder.old builder.new) }
    ensures states { OnOk result (AreStates grm.now.grammar.tokens (states_in S.number builder.new)) }
    ensures items { OnOk result ((k : ℕ) → k < length builder.old.states.items → (state_at (states_in S.number builder.new) k).core.items ≡ (state_at (states_in S.number builder.old) k).core.items) }
    ensures edges { OnOk result ((Y : Sym) → same_symbol Y (sym_of S.number edge.0) ≡ false → edge_of (states_in S.number builder.new) builder.old.from Y ≡ edge_of (states_in S.number builder.old) builder.old.from Y) }
    ensures handled { OnOk result ((before : Building) → core_of before.graph builder.old.from ≡ map_of (core_noted S.number was.now rows.now) → AreHandled grm.now.grammar before builder.old.from (rank grm.now.grammar (sym_of S.number edge.0)) (states_in S.number builder.old) → AreHandled grm.now.grammar before builder.old.from (rank grm.now.grammar (sym_of S.number edge.0) + 1) (states_in S.number builder.new)) }
    ensures many { IsErrOf result faults.TooManyStates → (before : Building) → IsNextTaken grm.now.grammar before builder.old.from → core_of before.graph builder.old.from ≡ map_of (core_noted S.number was.now rows.now) → AreHandled grm.now.grammar before builder.old.from (rank grm.now.grammar (sym_of S.number edge.0)) (states_in S.number builder.old) → TooManyStand grm.now.grammar S.MAX }
{
    grm.start_prod();
    let (symbol, target) = edge;
    let target = target.0.to_usize();
    if stays(
        grm,
        builder.states.as_slice(),
        builder.begins.as_slice(),
        was,
        rows,
        target,
    ) {
        return Ok(());
    }
    let items = builder.states[target].core.items.as_slice();
    let set = goto_of_items(alloc, grm, was, rows, items)?;
    place(alloc, builder, symbol, set.as_slice(), rows)?;
    Ok(())
}

/// Places the goto sets of a state that was taken before, edge by edge.
pub(crate) fn retake_all<S: IndexStorage>(
    alloc: Global,
    grm: &NumberedGrammar<S>,
    builder: &mut Builder<S>,
    was: &Retaken<S>,
    rows: &Rows<'_>,
) -> Result<(), BuildError>
    requires noted { IsNoted S.number grm.now.grammar was.now rows.now }
    requires builder { IsBuilder S.number S.MAX builder.old }
    requires states { AreStates grm.now.grammar.tokens (states_in S.number builder.old) }
    requires leads { (k : ℕ) (e : Edge) → k < length was.now.edges.items → LeadsOn grm.now.grammar (core_noted S.number was.now rows.now) (states_in S.number builder.old) builder.old.from (get_or (edges_of S.number was.now.edges.items) k e) }
    requires ascends { AscendEdges (edges_of S.number was.now.edges.items) }
    requires whole { (X : Sym) (p d : ℕ) → edge_in (edges_of S.number was.now.edges.items) X ≡ None → Closure grm.now.grammar (HasItem (map_of (core_noted S.number was.now rows.now))) p d → IsNext grm.now.grammar p d X → ⊥ }
    ensures builder { OnOk result (IsBuilder S.number S.MAX builder.new) }
    ensures goes { OnOk result (GoesOn S.number builder.old builder.new) }
    ensures handled { OnOk result ((before : Building) → core_of before.graph builder.old.from ≡ map_of (core_noted S.number was.now rows.now) → AreHandled grm.now.grammar before builder.old.from 0 (states_in S.number builder.old) → AreHandled grm.now.grammar before builder.old.from (grm.now.grammar.rules + grm.now.grammar.tokens) (states_in S.number builder.new)) }
    ensures many { IsErrOf result faults.TooManyStates → (before : Building) → IsNextTaken grm.now.grammar before builder.old.from → core_of before.graph builder.old.from ≡ map_of (core_noted S.number was.now rows.now) → AreHandled grm.now.grammar before builder.old.from 0 (states_in S.number builder.old) → TooManyStand grm.now.grammar S.MAX }
{
    'edges: for near in 0..was.edges.len() {
        let edge = was.edges[near];
        builder.near = near;
        retake_edge(alloc, grm, builder, edge, was, rows)?;
    }
    Ok(())
}

/// Writes hints for the items of a core.
fn hint_all<S: IndexStorage>(hints: &mut Vec<usize>, items: &[CoreItem<S>])
    requires { (k : ℕ) (d : Item) → k < length items.now → (get_or (items_of S.number items.now) k d).production < length hints.old.items }
    ensures { length hints.new.items ≡ length hints.old.items }
{
    'items: for k in 0..items.len() {
        let slot = &mut hints[items[k].pidx.0.to_usize()];
        *slot = k;
    }
}

/// Writes values over others.
fn copy_all<T: Copy>(from: &[T], to: &mut Vec<T>) -> Result<(), AllocError>
    ensures { OnOk result (to.new.items ≡ from.now) }
{
    to.clear();
    to.extend_from_slice(from)?;
    Ok(())
}

impl<S: IndexStorage> Retaken<S> {
    /// Makes a state without items and edges.
    pub(crate) fn empty(alloc: Global, grm: &NumberedGrammar<S>) -> Result<Retaken<S>, AllocError>
        ensures { IfOk result (λ w. length w.hints.items ≡ length grm.now.grammar.productions) }
    {
        Ok(Retaken {
            items: Vec::new(alloc),
            edges: Vec::new(alloc),
            hints: vec![in alloc; 0; grm.prods_len().0.to_usize()]?,
        })
    }

    /// Copies a state as it is.
    pub(crate) fn note(&mut self, state: &State<S>) -> Result<(), AllocError>
        requires { (k : ℕ) (d : Item) → k < length (items_of S.number state.now.core.items.items) → (get_or (items_of S.number state.now.core.items.items) k d).production < length self.old.hints.items }
        ensures items { OnOk result (items_of S.number self.new.items.items ≡ items_of S.number state.now.core.items.items) }
        ensures edges { OnOk result (edges_of S.number self.new.edges.items ≡ edges_of S.number state.now.edges.items) }
        ensures hints { OnOk result (length self.new.hints.items ≡ length self.old.hints.items) }
    {
        copy_all(state.core.items.as_slice(), &mut self.items)?;
        copy_all(state.edges.as_slice(), &mut self.edges)?;
        hint_all(&mut self.hints, state.core.items.as_slice());
        Ok(())
    }
}
