//! The states of a building, and the placing of a set among them.

ghost use Rattle.std.specs.Prelude.{◌≡◌, ◌<◌, ◌↔◌, ℕ, Bool, true, false, [], ◌∷◌, ◌++◌, length, map, get_or, slice_set, ◌≤◌, IsTrue, IfOk, IfSome, None, Some, OnOk, IsErrOf, MatchOption, alloc_error};
ghost use Rattle.std.specs.List.{Contains, AllPairs};
ghost use Rattle.cfg_theory.specs.Grammar.{Sym};
ghost use Rattle.cfg_numbered.specs.Symbols.{sym_of};
ghost use Rattle.lr_theory.specs.Building.{same_symbol};
ghost use Rattle.state_table.specs.Meeting.{AreAlike, RowsFit, rows_in};
ghost use Rattle.lrtable.specs.Builders.{states_in, IsBuilder, GoesOn};
ghost use Rattle.lrtable.specs.MovedItems.{AreWide, core_of_moved, moved_items, rows_from};
ghost use Rattle.state_table.specs.ItemRows.{Item, Core, join_rows, CoversRows, LacksRows, IsCoreOf};
ghost use Rattle.lrtable.specs.States.{IsPut, IsLinked, IsPlaced, JoinsAt, JoinsNone, AreStates, AscendEdges, ListsCore, IsApartFrom, Edge, grown_at, state_at};
ghost use Rattle.state_table.specs.Graphs.{SymBefore};
ghost use Rattle.lrtable.specs.declared.states.BuildError.TheVariants as faults;
ghost use Rattle.state_table.specs.CoreViews.{item_of, items_of, core_of_set};
ghost use Rattle.lrtable.specs.StateViews.{edge_of_pair, edges_of, value_of};

use crate::moved_items::{MovedItem, Rows, same_items, to_core};
use crate::state_lists::{Numbers, numbers_at, put_number};
use crate::weak_compatibility::{hold_all, weakly_compatible};
use cfg_base::index::IndexStorage;
use cfg_base::symbol::Symbol;
use state_table::cores::CoreSet;
use state_table::stategraph::same_symbols;
use state_table::stidx::StIdx;
use std::alloc::{AllocError, AllocFailed, Global};
use vob::Vob;

/// An edge: its symbol and its target.
pub(crate) type EdgeTo<S> = (Symbol<S>, StIdx<S>);

/// A state of a building.
#[derive(Drop)]
pub(crate) struct State<S> {
    pub core: CoreSet<S>,
    pub edges: Vec<EdgeTo<S>>,
    /// Whether it is new, or has grown since it was taken last.
    pub todo: bool,
}

/// The states of a building, and the step that places goto sets among them.
#[derive(Drop)]
pub(crate) struct Builder<S> {
    pub states: Vec<State<S>>,
    /// For each production and dot the states whose first item they are, ascending.
    pub begins: Vec<Vec<Numbers>>,
    /// No state below it is to be taken.
    pub cursor: usize,
    /// The state that is taken: the goto sets are its own.
    pub from: usize,
    /// Where its edge on the symbol of the next goto set may be.
    pub near: usize,
}

impl<S: IndexStorage> State<S> {
    /// Returns a state without items and edges.
    pub(crate) fn empty(alloc: Global) -> State<S> {
        State {
            core: CoreSet::empty(alloc),
            edges: Vec::new(alloc),
            todo: false,
        }
    }
}

/// Out of memory, or more states than the index type has numbers for.
#[derive(Clone, Copy, Debug, PartialEq, Eq)]
pub(crate) enum BuildError {
    Memory(AllocError),
    TooManyStates,
}

impl From<AllocError> for BuildError {
    ghost from_gives = { λ x e. e ≡ faults.Memory x };

    fn from(e: AllocError) -> BuildError {
        BuildError::Memory(e)
    }
}

impl<T: Drop> From<AllocFailed<T>> for BuildError {
    ghost from_gives = { λ _ e. e ≡ faults.Memory alloc_error };

    fn from(e: AllocFailed<T>) -> BuildError {
        BuildError::Memory(AllocError::from(e))
    }
}

/// Adds lookaheads to those of the same items, and returns whether some weren't there.
fn join_looks<S: IndexStorage>(looks: &mut Vec<Vob>, new: &[MovedItem<S>], rows: &Rows<'_>) -> bool
    requires alike { AreAlike (rows_in looks.old.items) (rows_from rows.now new.now) }
    requires wide { AreWide (rows_from rows.now new.now) }
    ensures rows { rows_in looks.new.items ≡ join_rows (rows_in looks.old.items) (rows_from rows.now new.now) }
    ensures covered { result ≡ false → CoversRows (rows_in looks.old.items) (rows_from rows.now new.now) }
    ensures still { result ≡ false → rows_in looks.new.items ≡ rows_in looks.old.items }
    ensures lacked { result ≡ true → LacksRows (rows_in looks.old.items) (rows_from rows.now new.now) }
{
    let mut grew = false;
    'each: for i in 0..new.len() {
        let row = &mut looks[i];
        grew |= row.or(rows.row(new[i].source));
    }
    grew
}

/// Returns whether a symbol comes before another: rules before tokens, each by their indices.
fn comes_before<S: IndexStorage>(a: Symbol<S>, b: Symbol<S>) -> bool
    ensures { IsTrue result ↔ SymBefore (sym_of S.number a) (sym_of S.number b) }
{
    match (a, b) {
        (Symbol::Rule(a), Symbol::Rule(b)) => a.0.to_usize() < b.0.to_usize(),
        (Symbol::Rule(_), Symbol::Token(_)) => true,
        (Symbol::Token(_), Symbol::Rule(_)) => false,
        (Symbol::Token(a), Symbol::Token(b)) => a.0.to_usize() < b.0.to_usize(),
    }
}

/// Returns the index of the first edge whose symbol doesn't come before this one.
fn edge_index<S: IndexStorage>(edges: &[EdgeTo<S>], symbol: Symbol<S>) -> usize
    ensures within { result ≤ length edges.now }
    ensures before { (k : ℕ) → k < result → (d : Edge) → SymBefore (get_or (edges_of S.number edges.now) k d).symbol (sym_of S.number symbol) }
    ensures stop { (d : Edge) → result < length edges.now → SymBefore (get_or (edges_of S.number edges.now) result d).symbol (sym_of S.number symbol) → ⊥ }
{
    'each: for i in 0..edges.len() {
        if !comes_before(edges[i].0, symbol) {
            return i;
        }
    }
    edges.len()
}

/// Returns whether the edge at an index is on a symbol.
fn is_on<S: IndexStorage>(edges: &[EdgeTo<S>], index: usize, symbol: Symbol<S>) -> bool
    ensures here { result ≡ true → (index < length edges.now) × ((d : Edge) → same_symbol (get_or (edges_of S.number edges.now) index d).symbol (sym_of S.number symbol) ≡ true) }
    ensures other { result ≡ false → (d : Edge) → index < length edges.now → same_symbol (get_or (edges_of S.number edges.now) index d).symbol (sym_of S.number symbol) ≡ false }
{
    if index >= edges.len() {
        return false;
    }
    same_symbols(edges[index].0, symbol)
}

/// Returns whether all edges come before a symbol, as they do where the last does.
fn all_before<S: IndexStorage>(edges: &[EdgeTo<S>], symbol: Symbol<S>) -> bool
    requires { AscendEdges (edges_of S.number edges.now) }
    ensures { result ≡ true → (k : ℕ) → k < length edges.now → (d : Edge) → SymBefore (get_or (edges_of S.number edges.now) k d).symbol (sym_of S.number symbol) }
{
    let count = edges.len();
    if count == 0 {
        return true;
    }
    comes_before(edges[count - 1].0, symbol)
}

/// Puts an edge in the place of that on its symbol, which may be at `near`, or before those on later symbols.
#[inline(never)]
fn put_among<S: IndexStorage>(
    edges: &mut Vec<EdgeTo<S>>,
    near: usize,
    edge: EdgeTo<S>,
) -> Result<(), AllocError>
    requires { AscendEdges (edges_of S.number edges.old.items) }
    ensures { OnOk result (IsPut (edges_of S.number edges.old.items) (sym_of S.number edge.0) (S.number edge.1.0) (edges_of S.number edges.new.items)) }
{
    if is_on(edges.as_slice(), near, edge.0) {
        edges[near] = edge;
        return Ok(());
    }
    let index = edge_index(edges.as_slice(), edge.0);
    if is_on(edges.as_slice(), index, edge.0) {
        edges[index] = edge;
        return Ok(());
    }
    edges.insert(index, edge)?;
    Ok(())
}

/// Puts an edge as `put_among` does. Mostly it comes last, and `take` made room for it.
#[inline(always)]
fn put_edge<S: IndexStorage>(
    edges: &mut Vec<EdgeTo<S>>,
    near: usize,
    edge: EdgeTo<S>,
) -> Result<(), AllocError>
    requires { AscendEdges (edges_of S.number edges.old.items) }
    ensures { OnOk result (IsPut (edges_of S.number edges.old.items) (sym_of S.number edge.0) (S.number edge.1.0) (edges_of S.number edges.new.items)) }
{
    if !all_before(edges.as_slice(), edge.0) {
        return put_among(edges, near, edge);
    }
    edges.push(edge)?;
    Ok(())
}

/// Returns whether a set joins a state, and if so, whether the state holds all its lookaheads: then no pair of items
/// is compared.
fn joins<S: IndexStorage>(state: &State<S>, set: &[MovedItem<S>], rows: &Rows<'_>) -> Option<bool>
    requires state { (tokens : ℕ) × IsCoreOf tokens (core_of_set S.number state.now.core) × IsCoreOf tokens (core_of_moved S.number rows.now set.now) × (0 < tokens) }
    ensures fits { IfSome result (λ held. (items_of S.number state.now.core.items.items ≡ moved_items S.number set.now) × RowsFit (rows_in state.now.core.looks.items) (rows_from rows.now set.now)) }
    ensures held { result ≡ Some true → CoversRows (rows_in state.now.core.looks.items) (rows_from rows.now set.now) }
    ensures apart { result ≡ None → IsApartFrom (core_of_set S.number state.now.core) (core_of_moved S.number rows.now set.now) }
{
    if !same_items(state.core.items.as_slice(), set) {
        return None;
    }
    let looks = state.core.looks.as_slice();
    if hold_all(looks, set, rows) {
        return Some(true);
    }
    if weakly_compatible(looks, set, rows) {
        return Some(false);
    }
    None
}

/// Returns the first of the states that a set joins, and whether it holds all the set's lookaheads; `bucket` lists,
/// ascending, those that may have its core.
fn first_joined<S: IndexStorage>(
    states: &[State<S>],
    bucket: &[usize],
    set: &[MovedItem<S>],
    rows: &Rows<'_>,
) -> Option<(usize, bool)>
    requires states { (tokens : ℕ) × AreStates tokens (map (value_of S.number) states.now) × IsCoreOf tokens (core_of_moved S.number rows.now set.now) × (0 < tokens) }
    requires bucket { ListsCore (map (value_of S.number) states.now) (moved_items S.number set.now) bucket.now }
    ensures { MatchOption result (JoinsNone (map (value_of S.number) states.now) (core_of_moved S.number rows.now set.now)) (λ k. JoinsAt (map (value_of S.number) states.now) k.0 (core_of_moved S.number rows.now set.now) × (k.1 ≡ true → CoversRows (state_at (map (value_of S.number) states.now) k.0).core.rows (rows_from rows.now set.now))) }
{
    'each: for i in 0..bucket.len() {
        let number = bucket[i];
        if let Some(held) = joins(&states[number], set, rows) {
            return Some((number, held));
        }
    }
    None
}

/// Adds the lookaheads of a set to those of a state of its core, unless it is known to hold them. The state is to be
/// taken again if some weren't there, which is what it returns.
fn grow<S: IndexStorage>(
    states: &mut Vec<State<S>>,
    number: usize,
    set: &[MovedItem<S>],
    rows: &Rows<'_>,
    held: bool,
) -> bool
    requires within { number < length states.old.items }
    requires alike { AreAlike (state_at (map (value_of S.number) states.old.items) number).core.rows (rows_from rows.now set.now) }
    requires wide { AreWide (rows_from rows.now set.now) }
    requires held { held ≡ true → CoversRows (state_at (map (value_of S.number) states.old.items) number).core.rows (rows_from rows.now set.now) }
    ensures covered { result ≡ false → CoversRows (state_at (map (value_of S.number) states.old.items) number).core.rows (rows_from rows.now set.now) }
    ensures kept { result ≡ false → map (value_of S.number) states.new.items ≡ map (value_of S.number) states.old.items }
    ensures lacked { result ≡ true → LacksRows (state_at (map (value_of S.number) states.old.items) number).core.rows (rows_from rows.now set.now) }
    ensures grown { result ≡ true → map (value_of S.number) states.new.items ≡ grown_at (map (value_of S.number) states.old.items) number (rows_from rows.now set.now) }
{
    if held {
        return false;
    }
    let state = &mut states[number];
    if join_looks(&mut state.core.looks, set, rows) {
        state.todo = true;
        return true;
    }
    false
}

/// Puts an edge to the state `target` with those of the state `number`; one on its symbol may be at `near`.
#[inline(never)]
fn link<S: IndexStorage>(
    states: &mut Vec<State<S>>,
    number: usize,
    near: usize,
    symbol: Symbol<S>,
    target: usize,
) -> Result<(), AllocError>
    requires number { number < length states.old.items }
    requires target { target ≤ S.MAX }
    requires ascends { AscendEdges (state_at (map (value_of S.number) states.old.items) number).edges }
    ensures { OnOk result (IsLinked (map (value_of S.number) states.old.items) number (sym_of S.number symbol) target (map (value_of S.number) states.new.items)) }
{
    let state = &mut states[number];
    let target = StIdx(S::from_usize(target).unwrap());
    put_edge(&mut state.edges, near, (symbol, target))?;
    Ok(())
}

/// Moves a cursor down to a state that grew.
fn lower(cursor: &mut usize, grew: bool, number: usize)
    ensures less { cursor.new ≤ cursor.old }
    ensures low { grew ≡ true → cursor.new ≤ number }
{
    if !grew {
        return;
    }
    if number < *cursor {
        *cursor = number;
    }
}

/// Joins the goto set of a symbol to the state `number`, which may be known to hold all its lookaheads.
fn join<S: IndexStorage>(
    builder: &mut Builder<S>,
    symbol: Symbol<S>,
    number: usize,
    set: &[MovedItem<S>],
    rows: &Rows<'_>,
    held: bool,
) -> Result<(), AllocError>
    requires builder { IsBuilder S.number S.MAX builder.old }
    requires states { (tokens : ℕ) × AreStates tokens (states_in S.number builder.old) × IsCoreOf tokens (core_of_moved S.number rows.now set.now) × (0 < tokens) }
    requires joins { JoinsAt (states_in S.number builder.old) number (core_of_moved S.number rows.now set.now) }
    requires held { held ≡ true → CoversRows (state_at (states_in S.number builder.old) number).core.rows (rows_from rows.now set.now) }
    ensures builder { OnOk result (IsBuilder S.number S.MAX builder.new) }
    ensures goes { OnOk result (GoesOn S.number builder.old builder.new) }
    ensures placed { OnOk result (IsPlaced (states_in S.number builder.old) builder.old.from (sym_of S.number symbol) (core_of_moved S.number rows.now set.now) (states_in S.number builder.new)) }
{
    let grew = grow(&mut builder.states, number, set, rows, held);
    lower(&mut builder.cursor, grew, number);
    link(
        &mut builder.states,
        builder.from,
        builder.near,
        symbol,
        number,
    )?;
    Ok(())
}

/// Makes a set a state, the last one.
fn push_state<S: IndexStorage>(
    alloc: Global,
    states: &mut Vec<State<S>>,
    set: &[MovedItem<S>],
    rows: &Rows<'_>,
) -> Result<(), AllocError>
    requires { AreWide (rows_from rows.now set.now) }
    ensures { OnOk result (map (value_of S.number) states.new.items ≡ map (value_of S.number) states.old.items ++ record { core = core_of_moved S.number rows.now set.now; edges = []; todo = true } ∷ []) }
{
    let core = to_core(alloc, set, rows)?;
    states.push(State {
        core,
        edges: Vec::new(alloc),
        todo: true,
    })?;
    Ok(())
}

/// Makes the goto set of a symbol a state, and puts it last in the list of its first item.
#[inline(never)]
fn add<S: IndexStorage>(
    alloc: Global,
    builder: &mut Builder<S>,
    symbol: Symbol<S>,
    set: &[MovedItem<S>],
    rows: &Rows<'_>,
) -> Result<(), BuildError>
    requires builder { IsBuilder S.number S.MAX builder.old }
    requires states { (tokens : ℕ) × AreStates tokens (states_in S.number builder.old) × IsCoreOf tokens (core_of_moved S.number rows.now set.now) × (0 < tokens) }
    requires joins { JoinsNone (states_in S.number builder.old) (core_of_moved S.number rows.now set.now) }
    requires some { 0 < length set.now }
    ensures builder { OnOk result (IsBuilder S.number S.MAX builder.new) }
    ensures goes { OnOk result (GoesOn S.number builder.old builder.new) }
    ensures placed { OnOk result (IsPlaced (states_in S.number builder.old) builder.old.from (sym_of S.number symbol) (core_of_moved S.number rows.now set.now) (states_in S.number builder.new)) }
    ensures full { IsErrOf result faults.TooManyStates → S.MAX ≤ length builder.old.states.items }
{
    let number = builder.states.len();
    if number >= S::MAX {
        return Err(BuildError::TooManyStates);
    }
    push_state(alloc, &mut builder.states, set, rows)?;
    link(
        &mut builder.states,
        builder.from,
        builder.near,
        symbol,
        number,
    )?;
    put_number(alloc, &mut builder.begins, &set[0].item, number)?;
    Ok(())
}

/// Places the goto set of a symbol among the states: it joins the first with which it is compatible, or becomes a new
/// state.
pub(crate) fn place<S: IndexStorage>(
    alloc: Global,
    builder: &mut Builder<S>,
    symbol: Symbol<S>,
    set: &[MovedItem<S>],
    rows: &Rows<'_>,
) -> Result<(), BuildError>
    requires builder { IsBuilder S.number S.MAX builder.old }
    requires states { (tokens : ℕ) × AreStates tokens (states_in S.number builder.old) × IsCoreOf tokens (core_of_moved S.number rows.now set.now) × (0 < tokens) }
    requires some { 0 < length set.now }
    ensures builder { OnOk result (IsBuilder S.number S.MAX builder.new) }
    ensures goes { OnOk result (GoesOn S.number builder.old builder.new) }
    ensures placed { OnOk result (IsPlaced (states_in S.number builder.old) builder.old.from (sym_of S.number symbol) (core_of_moved S.number rows.now set.now) (states_in S.number builder.new)) }
    ensures full { IsErrOf result faults.TooManyStates → JoinsNone (states_in S.number builder.old) (core_of_moved S.number rows.now set.now) × (S.MAX ≤ length builder.old.states.items) }
{
    let bucket = numbers_at(builder.begins.as_slice(), &set[0].item);
    match first_joined(builder.states.as_slice(), bucket, set, rows) {
        Some((number, held)) => {
            join(builder, symbol, number, set, rows, held)?;
            Ok(())
        }
        None => {
            add(alloc, builder, symbol, set, rows)?;
            Ok(())
        }
    }
}
