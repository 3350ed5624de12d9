//! A table beside full rows, in which its cells and its gotos are read at once.

ghost use Rattle.std.specs.Prelude.{◌≡◌, ◌<◌, ℕ, Some, [], length, replicate, slice_get, slice_index_or, slice_set, IfOk};
ghost use Rattle.state_table.specs.CellViews.{action_of, cells_of, state_of, targets_of};
ghost use Rattle.state_table.specs.SparseRows.{IsCellRow, IsTargetRow, full_cells, full_targets};
ghost use Rattle.state_table.specs.Tables.{HasFullRows};
ghost use Rattle.state_table.specs.Rows.{Rises, Below};
ghost use Rattle.state_table.specs.TableValues.{action_at, goto_at};
ghost use Rattle.lrpar.specs.FullTables.{IsFull, AreCells, AreTargets, AreRows};

use cfg_base::index::IndexStorage;
use cfg_base::symbol::{RIdx, TIdx};
use state_table::{Action, StIdx, StateTable};
use std::alloc::{AllocError, Global};
use std::marker::Model;

/// A table with full rows, one of cells and one of gotos for each state. Where a state has few of them the row is empty, and they are
/// searched for in the table. Contracts see the table.
#[derive(Drop)]
pub(crate) struct FullTable<S: IndexStorage> {
    stable: StateTable<S>,
    cells: Vec<Vec<Action<S>>>,
    targets: Vec<Vec<StIdx<S>>>,
}

impl<S: IndexStorage> Model for FullTable<S> {
    ghost use Rattle.state_table.specs.TableValues.{TableValue};
    ghost use Rattle.lrpar.specs.FullTables.{AreCells, AreTargets, AreRows};

    ghost Value = { TableValue };

    ghost view = { λ f. f.stable };

    ghost invariant = { λ f. AreRows f.stable.states (AreCells S.number f.stable) f.cells.items × AreRows f.stable.states (AreTargets S.number f.stable) f.targets.items };
}

// A state has a full row of cells if it has at least one cell for this many tokens.
const TOKENS_PER_CELL: usize = 8;

// It has a full row of gotos, which takes half the room, if it has at least one for this many rules.
const RULES_PER_GOTO: usize = 16;

// A row of at most this many places is made wherever there is an entry.
const SHORT_ROW: usize = 128;

/// Returns whether a row has too few entries for a full row of `count` places: less than one for each `places` of them, or none if
/// it is short.
fn are_few(entries: usize, count: usize, places: usize) -> bool {
    if count <= SHORT_ROW {
        return entries == 0;
    }
    entries.saturating_mul(places) < count
}

/// Sets the entry at an index.
fn put<V: Copy>(full: &mut Vec<V>, number: usize, value: V)
    requires { number < length full.old.items }
    ensures { full.new.items ≡ slice_set full.old.items number value }
{
    full[number] = value;
}

/// Makes `count` entries with one value.
fn copies_of<V: Copy>(alloc: Global, value: V, count: usize) -> Result<Vec<V>, AllocError>
    ensures { IfOk result (λ v. v.items ≡ replicate count value) }
{
    let mut values = Vec::with_capacity(alloc, count)?;
    values.resize(count, value)?;
    Ok(values)
}

/// Returns an entry for each number below the count: what the row has beside it, or else `empty`.
fn full_row<V: Copy>(
    alloc: Global,
    row: &[(u32, V)],
    empty: V,
    count: usize,
) -> Result<Vec<V>, AllocError>
    requires rises { Rises row.now }
    requires below { Below count row.now }
    ensures { IfOk result (λ v. IsFull count row.now empty v.items) }
{
    let mut full = copies_of(alloc, empty, count)?;
    'entries: for i in 0..row.len() {
        let entry = row[i];
        put(&mut full, entry.0 as usize, entry.1);
    }
    Ok(full)
}

/// Returns the row of a state.
#[inline(always)]
fn row_at<E>(rows: &[Vec<E>], s: usize) -> &Vec<E>
    requires { s < length rows.now }
    ensures { slice_get rows.now s ≡ Some result.now }
{
    &rows[s]
}

/// Returns the entry of a row at a number, if the row is that long.
#[inline(always)]
fn place_at<V: Copy>(row: &[V], number: usize) -> Option<V>
    ensures { result ≡ slice_get row.now number }
{
    row.get(number).copied()
}

/// Returns a state's full row of cells, or an empty row if it has few.
fn cell_row<S: IndexStorage>(
    alloc: Global,
    stable: &StateTable<S>,
    stidx: StIdx<S>,
) -> Result<Vec<Action<S>>, AllocError>
    requires { S.number stidx.0 < stable.now.states }
    ensures { IfOk result (λ v. AreCells S.number stable.now (S.number stidx.0) v.items) }
{
    let count = stable.tokens_len().0.to_usize();
    let cells = stable.state_cells(stidx);
    if are_few(cells.len(), count, TOKENS_PER_CELL) {
        return Ok(Vec::new(alloc));
    }
    let row = full_row(alloc, cells, Action::Error, count)?;
    Ok(row)
}

/// Returns a state's full row of gotos, or an empty row if it has few.
fn target_row<S: IndexStorage>(
    alloc: Global,
    stable: &StateTable<S>,
    stidx: StIdx<S>,
) -> Result<Vec<StIdx<S>>, AllocError>
    requires { S.number stidx.0 < stable.now.states }
    ensures { IfOk result (λ v. AreTargets S.number stable.now (S.number stidx.0) v.items) }
{
    let gotos = stable.state_gotos(stidx);
    let count = stable.rules_len().0.to_usize();
    if are_few(gotos.len(), count, RULES_PER_GOTO) {
        return Ok(Vec::new(alloc));
    }
    let row = full_row(alloc, gotos, stidx, count)?;
    Ok(row)
}

/// Returns the rows of cells of all states.
fn cell_rows<S: IndexStorage>(
    alloc: Global,
    stable: &StateTable<S>,
) -> Result<Vec<Vec<Action<S>>>, AllocError>
    ensures { IfOk result (λ v. AreRows stable.now.states (AreCells S.number stable.now) v.items) }
{
    let count = stable.states_len().0.to_usize();
    let mut rows = Vec::with_capacity(alloc, count)?;
    'states: for number in 0..count {
        let row = cell_row(alloc, stable, stable.state_at(number))?;
        rows.push(row)?;
    }
    Ok(rows)
}

/// Returns the rows of gotos of all states.
fn target_rows<S: IndexStorage>(
    alloc: Global,
    stable: &StateTable<S>,
) -> Result<Vec<Vec<StIdx<S>>>, AllocError>
    ensures { IfOk result (λ v. AreRows stable.now.states (AreTargets S.number stable.now) v.items) }
{
    let count = stable.states_len().0.to_usize();
    let mut rows = Vec::with_capacity(alloc, count)?;
    'states: for number in 0..count {
        let row = target_row(alloc, stable, stable.state_at(number))?;
        rows.push(row)?;
    }
    Ok(rows)
}

impl<S: IndexStorage> FullTable<S> {
    /// Makes the full rows of a table.
    pub(crate) fn new(alloc: Global, stable: StateTable<S>) -> Result<FullTable<S>, AllocError>
        ensures { IfOk result (λ f. f ≡ stable) }
    {
        let cells = cell_rows(alloc, &stable)?;
        let targets = target_rows(alloc, &stable)?;
        Ok(FullTable {
            stable,
            cells,
            targets,
        })
    }

    /// Lends the table.
    pub(crate) fn stable(&self) -> &StateTable<S>
        ensures { result.now ≡ self.now }
    {
        &self.stable
    }

    /// Returns the table alone.
    pub(crate) fn into_stable(self) -> StateTable<S>
        ensures { result ≡ self }
    {
        self.stable
    }

    /// Returns the state that a run begins in.
    pub(crate) fn start_state(&self) -> StIdx<S>
        ensures value { S.number result.0 ≡ self.now.start }
        ensures within { self.now.start < self.now.states }
    {
        self.stable.start_state()
    }

    /// Counts the states.
    pub(crate) fn states_len(&self) -> StIdx<S>
        ensures value { S.number result.0 ≡ self.now.states }
        ensures rows { HasFullRows self.now }
    {
        self.stable.states_len()
    }

    /// Counts the tokens, the end token among them.
    pub(crate) fn tokens_len(&self) -> TIdx<S>
        ensures { S.number result.0 ≡ self.now.tokens }
    {
        self.stable.tokens_len()
    }

    /// Counts the rules.
    pub(crate) fn rules_len(&self) -> RIdx<S>
        ensures { S.number result.0 ≡ self.now.rules }
    {
        self.stable.rules_len()
    }

    /// Lends the cells of a state that aren't errors, each beside its token's number, ascending.
    pub(crate) fn state_cells(&self, stidx: StIdx<S>) -> &[(u32, Action<S>)]
        requires { S.number stidx.0 < self.now.states }
        ensures cells { IsCellRow self.now.tokens (cells_of S.number result.now) }
        ensures whole { slice_index_or self.now.actions (S.number stidx.0) [] ≡ full_cells self.now.tokens (cells_of S.number result.now) }
    {
        self.stable.state_cells(stidx)
    }

    /// Lends the gotos of a state, each beside its rule's number, ascending.
    pub(crate) fn state_gotos(&self, stidx: StIdx<S>) -> &[(u32, StIdx<S>)]
        requires { S.number stidx.0 < self.now.states }
        ensures targets { IsTargetRow self.now.rules (targets_of S.number result.now) }
        ensures whole { slice_index_or self.now.gotos (S.number stidx.0) [] ≡ full_targets self.now.rules (targets_of S.number result.now) }
    {
        self.stable.state_gotos(stidx)
    }

    /// Returns the action of the state on the token.
    #[inline(always)]
    pub(crate) fn action(&self, stidx: StIdx<S>, tidx: TIdx<S>) -> Action<S>
        requires state { S.number stidx.0 < self.now.states }
        requires token { S.number tidx.0 < self.now.tokens }
        ensures { action_of S.number result ≡ action_at self.now (S.number stidx.0) (S.number tidx.0) }
    {
        let row = row_at(self.cells.as_slice(), stidx.0.to_usize());
        match place_at(row.as_slice(), tidx.0.to_usize()) {
            Some(action) => action,
            None => self.stable.action(stidx, tidx),
        }
    }

    /// Returns the state after the rule, where there is one.
    #[inline(always)]
    pub(crate) fn target(&self, stidx: StIdx<S>, ridx: RIdx<S>) -> StIdx<S>
        requires there { (q : ℕ) × (goto_at self.now (S.number stidx.0) (S.number ridx.0) ≡ Some q) }
        requires state { S.number stidx.0 < self.now.states }
        ensures { goto_at self.now (S.number stidx.0) (S.number ridx.0) ≡ Some (S.number result.0) }
    {
        let row = row_at(self.targets.as_slice(), stidx.0.to_usize());
        match place_at(row.as_slice(), ridx.0.to_usize()) {
            Some(target) => target,
            None => self.search_target(stidx, ridx),
        }
    }

    /// Returns the state after the rule, where there is one, by search.
    fn search_target(&self, stidx: StIdx<S>, ridx: RIdx<S>) -> StIdx<S>
        requires there { (q : ℕ) × (goto_at self.now (S.number stidx.0) (S.number ridx.0) ≡ Some q) }
        requires state { S.number stidx.0 < self.now.states }
        ensures { goto_at self.now (S.number stidx.0) (S.number ridx.0) ≡ Some (S.number result.0) }
    {
        // Read, so that the proof may use that the rule is in range.
        let _gotos = self.stable.state_gotos(stidx);
        match self.stable.goto(stidx, ridx) {
            Some(target) => target,
            None => unreachable!(),
        }
    }

    /// Returns the state after the rule, if there is one.
    pub(crate) fn goto(&self, stidx: StIdx<S>, ridx: RIdx<S>) -> Option<StIdx<S>>
        requires state { S.number stidx.0 < self.now.states }
        requires rule { S.number ridx.0 < self.now.rules }
        ensures { state_of S.number result ≡ goto_at self.now (S.number stidx.0) (S.number ridx.0) }
    {
        let row = row_at(self.targets.as_slice(), stidx.0.to_usize());
        if let Some(target) = place_at(row.as_slice(), ridx.0.to_usize()) {
            // A full row has the state itself at a rule without a goto.
            if target.0.to_usize() != stidx.0.to_usize() {
                return Some(target);
            }
        }
        self.stable.goto(stidx, ridx)
    }
}
