//! The table: what each state does on each token, and where it goes after each rule.

ghost use Rattle.std.specs.Prelude.{◌≡◌, ◌+◌, ◌*◌, ◌^◌, ◌<◌, ◌≤◌, ◌↔◌, ℕ, IsTrue, IfOk, IfErr, IfSome, IsSome, List, [], length, option_map, slice_index_or};
ghost use Rattle.std.specs.List.{sum_by};
ghost use Rattle.cfg_theory.specs.Grammar.{WellFormed};
ghost use Rattle.cfg_numbered.specs.Value.{GrammarValue};
ghost use Rattle.table_theory.specs.CellLaws.{SomeContested};
ghost use Rattle.table_theory.specs.Cells.{NoPrecedences, some_conflicts};
ghost use Rattle.state_table.specs.CellRows.{PartsValue};
ghost use Rattle.state_table.specs.CellViews.{action_of, cells_of, pairs_of, precedences_of, shifts_of, state_of, targets_of};
ghost use Rattle.state_table.specs.SparseRows.{AllReduce, IsCellRow, IsTargetRow, RowReduces, full_cells, full_targets};
ghost use Rattle.state_table.specs.ConflictTexts.{ConflictsInRange};
ghost use Rattle.state_table.specs.Graphs.{GraphValue, IsGraphOf};
ghost use Rattle.state_table.specs.TableRefusals.{table_refusal_of};
ghost use Rattle.state_table.specs.TableRows.{AreRowsOf, IsTableBy, rows_of};
ghost use Rattle.state_table.specs.TableValues.{ReducesOnly, action_at, filled_count, filled_tokens, goto_at, reduced_productions, shifted_tokens};
ghost use Rattle.state_table.specs.Tables.{HasFullRows, IsTableOf, IsTableRefusal};
ghost use Rattle.state_table.specs.declared.statetable.StateTableNewError.TheVariants as faults;

use crate::cells::{Action, cell_or_error, reduced_by, reduces_by};
pub use crate::conflicts::Conflicts;
use crate::conflicts::of_lists;
use crate::dense_rows::{spread_at, spread_rows};
use crate::graph_rows::{has_room, rows_of_graph};
use crate::rows::look_up;
use crate::state_rows::{ReduceReduce, ShiftReduce};
use crate::stategraph::StateGraph;
use crate::stidx::StIdx;
use crate::table_iterators::{
    CoreReducesIterator, StateActionsIterator, productions_of_row, tokens_of_row,
};
use crate::table_rows::TableRows;
use cfg_base::index::IndexStorage;
use cfg_base::symbol::{PIdx, RIdx, TIdx};
use cfg_numbered::yacc::NumberedGrammar;
use std::alloc::{AllocError, Global};
use std::error::Error;
use std::fmt;
use std::fmt::{Debug, Display, Formatter, Write};
use std::marker::Model;

/// A table of a grammar. For each state it stores the filled cells and gotos in ascending rows, and beside them full
/// rows if `with_full_rows` made these. Contracts see full rows.
#[derive(Drop)]
pub struct StateTable<S: IndexStorage> {
    /// For each state the cells that aren't errors, ascending by token.
    actions: Vec<Vec<(u32, Action<S>)>>,
    /// For each state its gotos, ascending by rule.
    gotos: Vec<Vec<(u32, StIdx<S>)>>,
    start: StIdx<S>,
    /// The number of states.
    states: S,
    /// The number of tokens, the end token among them.
    tokens: S,
    /// The number of rules.
    rules: S,
    /// The number of productions.
    prods: S,
    /// `None` where no conflict is listed.
    conflicts: Option<Conflicts<S>>,
    /// For each state a cell for each token, where `with_full_rows` made these; else empty.
    full_actions: Vec<Vec<Option<Action<S>>>>,
    /// For each state a goto for each rule, where `with_full_rows` made these; else empty.
    full_gotos: Vec<Vec<Option<StIdx<S>>>>,
}

impl<S: IndexStorage> Model for StateTable<S> {
    ghost use Rattle.state_table.specs.TableValues.{TableValue};

    ghost Value = { TableValue };

    ghost use Rattle.state_table.specs.SparseRows.{IsSparse, full};
    ghost use Rattle.state_table.specs.SpreadRows.{AreSpread};
    ghost use Rattle.state_table.specs.TableViews.{sparse_of};

    ghost view = { λ s. full (sparse_of S.number s.states s.tokens s.rules s.prods s.start s.actions.items s.gotos.items s.conflicts) };

    ghost invariant = { λ s. IsSparse (sparse_of S.number s.states s.tokens s.rules s.prods s.start s.actions.items s.gotos.items s.conflicts) × AreSpread s.actions.items s.full_actions.items × AreSpread s.gotos.items s.full_gotos.items };
}

impl<S: IndexStorage> StateTable<S> {
    /// Builds the table of a grammar from its graph.
    ///
    /// # Errors
    ///
    /// - `StateTable` where a state both accepts and reduces at the end token: the least production that it
    ///   reduces.
    /// - Else `TooLarge` where a cell for each state and token, and one for each state and rule, are more than
    ///   `usize::MAX`.
    /// - `Memory` where memory is refused.
    pub fn new(
        alloc: Global,
        grm: &NumberedGrammar<S>,
        sg: &StateGraph<S>,
    ) -> Result<StateTable<S>, StateTableNewError<S>>
        requires { IsGraphOf grm.now.grammar sg.now }
        ensures table { IfOk result (IsTableOf grm.now sg.now) }
        ensures listed { IfOk result (λ t. IfSome t.conflicts (ConflictsInRange grm.now)) }
        ensures refused { IfErr result (λ e. IsTableRefusal grm.now sg.now (table_refusal_of S.number e)) }
    {
        grm.start_prod();
        let rows = rows_of_graph(alloc, grm, sg)?;
        if !has_room(grm, sg) {
            return Err(StateTableNewError::TooLarge);
        }
        Ok(of_rows(alloc, grm, rows, sg.all_states_len(), sg.start_state()))
    }

    /// Adds full rows to the table, by which most cells and gotos are read at once.
    pub fn with_full_rows(mut self, alloc: Global) -> Result<StateTable<S>, AllocError>
        ensures { IfOk result (λ t. t ≡ self) }
    {
        let full_actions = spread_rows(alloc, self.actions.as_slice(), self.tokens.to_usize())?;
        let full_gotos = spread_rows(alloc, self.gotos.as_slice(), self.rules.to_usize())?;
        self.full_actions = full_actions;
        self.full_gotos = full_gotos;
        Ok(self)
    }

    /// Returns the action of the state on the token.
    pub fn action(&self, stidx: StIdx<S>, tidx: TIdx<S>) -> Action<S>
        requires state { S.number stidx.0 < self.now.states }
        requires token { S.number tidx.0 < self.now.tokens }
        ensures { action_of S.number result ≡ action_at self.now (S.number stidx.0) (S.number tidx.0) }
    {
        let state = stidx.0.to_usize();
        match spread_at(self.full_actions.as_slice(), state, tidx.0.to_usize()) {
            Some(cell) => cell_or_error(cell),
            None => self.search_action(stidx, tidx),
        }
    }

    /// Returns the action of the state on the token, by binary search.
    fn search_action(&self, stidx: StIdx<S>, tidx: TIdx<S>) -> Action<S>
        requires state { S.number stidx.0 < self.now.states }
        requires token { S.number tidx.0 < self.now.tokens }
        ensures { action_of S.number result ≡ action_at self.now (S.number stidx.0) (S.number tidx.0) }
    {
        let row = self.actions[stidx.0.to_usize()].as_slice();
        match look_up(row, tidx.0.to_usize()) {
            Some(action) => action,
            None => Action::Error,
        }
    }

    /// Returns the state that the goto on the rule leads to, if there is one.
    pub fn goto(&self, stidx: StIdx<S>, ridx: RIdx<S>) -> Option<StIdx<S>>
        requires state { S.number stidx.0 < self.now.states }
        requires rule { S.number ridx.0 < self.now.rules }
        ensures { state_of S.number result ≡ goto_at self.now (S.number stidx.0) (S.number ridx.0) }
    {
        let state = stidx.0.to_usize();
        match spread_at(self.full_gotos.as_slice(), state, ridx.0.to_usize()) {
            Some(target) => target,
            None => self.search_goto(stidx, ridx),
        }
    }

    /// Returns the state after the rule, by halving.
    fn search_goto(&self, stidx: StIdx<S>, ridx: RIdx<S>) -> Option<StIdx<S>>
        requires state { S.number stidx.0 < self.now.states }
        requires rule { S.number ridx.0 < self.now.rules }
        ensures { state_of S.number result ≡ goto_at self.now (S.number stidx.0) (S.number ridx.0) }
    {
        let row = self.gotos[stidx.0.to_usize()].as_slice();
        look_up(row, ridx.0.to_usize())
    }

    /// Returns the cells of a state that are stored.
    fn row(&self, stidx: StIdx<S>) -> &[(u32, Action<S>)]
        requires { S.number stidx.0 < self.now.states }
        ensures cells { IsCellRow self.now.tokens (cells_of S.number result.now) }
        ensures whole { slice_index_or self.now.actions (S.number stidx.0) [] ≡ full_cells self.now.tokens (cells_of S.number result.now) }
        ensures tokens { self.now.tokens ≤ S.MAX }
    {
        self.tokens.to_usize();
        self.actions[stidx.0.to_usize()].as_slice()
    }

    /// Lends the cells of a state that aren't errors, each beside its token's number, ascending.
    pub fn state_cells(&self, stidx: StIdx<S>) -> &[(u32, Action<S>)]
        requires { S.number stidx.0 < self.now.states }
        ensures cells { IsCellRow self.now.tokens (cells_of S.number result.now) }
        ensures whole { slice_index_or self.now.actions (S.number stidx.0) [] ≡ full_cells self.now.tokens (cells_of S.number result.now) }
    {
        self.row(stidx)
    }

    /// Lends the gotos of a state, each beside its rule's number, ascending.
    pub fn state_gotos(&self, stidx: StIdx<S>) -> &[(u32, StIdx<S>)]
        requires { S.number stidx.0 < self.now.states }
        ensures targets { IsTargetRow self.now.rules (targets_of S.number result.now) }
        ensures whole { slice_index_or self.now.gotos (S.number stidx.0) [] ≡ full_targets self.now.rules (targets_of S.number result.now) }
    {
        self.gotos[stidx.0.to_usize()].as_slice()
    }

    /// Iterates over the tokens on which a state does something, ascending.
    pub fn state_actions(&self, stidx: StIdx<S>) -> StateActionsIterator<'_, S>
        requires { S.number stidx.0 < self.now.states }
        ensures { result ≡ filled_tokens self.now (S.number stidx.0) }
    {
        tokens_of_row(self.row(stidx), false)
    }

    /// Iterates over the tokens that a state shifts, ascending.
    pub fn state_shifts(&self, stidx: StIdx<S>) -> StateActionsIterator<'_, S>
        requires { S.number stidx.0 < self.now.states }
        ensures { result ≡ shifted_tokens self.now (S.number stidx.0) }
    {
        tokens_of_row(self.row(stidx), true)
    }

    /// Iterates over the productions by which the cells of a state reduce, ascending.
    pub fn core_reduces(&self, stidx: StIdx<S>) -> CoreReducesIterator<'_, S>
        requires { S.number stidx.0 < self.now.states }
        ensures { result ≡ reduced_productions self.now (S.number stidx.0) }
    {
        productions_of_row(self.row(stidx), self.prods_len().0.to_usize())
    }

    /// Returns whether a state only reduces, by one production: some cell is filled, and each filled one reduces
    /// by it.
    pub fn reduce_only_state(&self, stidx: StIdx<S>) -> bool
        requires { S.number stidx.0 < self.now.states }
        ensures { IsTrue result ↔ ((p : ℕ) × ReducesOnly self.now (S.number stidx.0) p) }
    {
        reduces_only(self.row(stidx))
    }

    /// Returns the state that a run begins in.
    pub fn start_state(&self) -> StIdx<S>
        ensures value { S.number result.0 ≡ self.now.start }
        ensures within { self.now.start < self.now.states }
    {
        self.start
    }

    /// Counts the states.
    pub fn states_len(&self) -> StIdx<S>
        ensures value { S.number result.0 ≡ self.now.states }
        ensures rows { HasFullRows self.now }
    {
        StIdx(self.states)
    }

    /// Returns the state of a number. A loop over all states is `for number in
    /// 0..table.states_len().0.to_usize()`.
    pub fn state_at(&self, number: usize) -> StIdx<S>
        requires { number < self.now.states }
        ensures { S.number result.0 ≡ number }
    {
        // For the proof alone: this read shows that the count of states fits.
        self.states.to_usize();
        StIdx(S::from_usize(number).unwrap())
    }

    /// Returns whether this is a state of the table.
    pub fn has_state(&self, stidx: StIdx<S>) -> bool
        ensures { IsTrue result ↔ S.number stidx.0 < self.now.states }
    {
        stidx.0.to_usize() < self.states.to_usize()
    }

    /// Counts the tokens, the end token among them.
    pub fn tokens_len(&self) -> TIdx<S>
        ensures { S.number result.0 ≡ self.now.tokens }
    {
        TIdx(self.tokens)
    }

    /// Counts the rules.
    pub fn rules_len(&self) -> RIdx<S>
        ensures { S.number result.0 ≡ self.now.rules }
    {
        RIdx(self.rules)
    }

    /// Counts the productions.
    pub fn prods_len(&self) -> PIdx<S>
        ensures { S.number result.0 ≡ self.now.productions }
    {
        PIdx(self.prods)
    }

    /// Counts the cells that aren't errors and the gotos.
    pub fn filled_len(&self) -> usize
        ensures { result ≡ filled_count self.now }
    {
        let cells = count_entries(self.actions.as_slice());
        let gotos = count_entries(self.gotos.as_slice());
        cells + gotos
    }

    /// Returns the conflicts that no precedence settles, if there are any: without precedences there are some if
    /// and only if canonical LR(1) is contested.
    #[tactic(auto, using(crate::proofs::CanonicalTables::exact))]
    pub fn conflicts(&self) -> Option<&Conflicts<S>>
        ensures value { option_map (λ c. c.now) result ≡ self.now.conflicts }
        ensures canonical { (v : GrammarValue) (g : GraphValue) → WellFormed v.grammar → IsTableOf v g self.now → NoPrecedences (precedences_of v) → IsSome self.now.conflicts ↔ SomeContested v.grammar }
    {
        match &self.conflicts {
            Some(conflicts) => Some(conflicts),
            None => None,
        }
    }
}

/// Counts the entries of rows.
fn count_entries<V>(rows: &[Vec<(u32, V)>]) -> usize
    requires { sum_by (λ row. length row.items) rows.now < 2 ^ 64 }
    ensures { result ≡ sum_by (λ row. length row.items) rows.now }
{
    rows.iter().map(|row| row.len()).sum()
}

/// Returns whether each cell of a row reduces by a production.
fn all_reduce<S: IndexStorage>(row: &[(u32, Action<S>)], pidx: PIdx<S>) -> bool
    ensures { IsTrue result ↔ AllReduce (cells_of S.number row.now) (S.number pidx.0) }
{
    'each: for i in 0..row.len() {
        let cell = row[i];
        if !reduces_by(cell.1, pidx) {
            return false;
        }
    }
    true
}

/// Returns whether a row has a cell, and each reduces by one production.
fn reduces_only<S: IndexStorage>(row: &[(u32, Action<S>)]) -> bool
    ensures { IsTrue result ↔ ((p : ℕ) × RowReduces (cells_of S.number row.now) p) }
{
    if row.is_empty() {
        return false;
    }
    let first = row[0];
    match reduced_by(first.1) {
        Some(pidx) => all_reduce(row, pidx),
        None => false,
    }
}

/// Returns the conflicts of the lists, if one of them has an entry.
fn list_conflicts<S: IndexStorage>(
    pairs: Vec<ReduceReduce<S>>,
    shifts: Vec<ShiftReduce<S>>,
) -> Option<Conflicts<S>>
    ensures { result ≡ some_conflicts (pairs_of S.number pairs.items) (shifts_of S.number shifts.items) }
{
    if pairs.is_empty() && shifts.is_empty() {
        return None;
    }
    Some(of_lists(pairs, shifts))
}

/// Returns the table of the rows of all states.
pub(crate) fn of_rows<S: IndexStorage>(
    alloc: Global,
    grm: &NumberedGrammar<S>,
    rows: TableRows<S>,
    states: StIdx<S>,
    start: StIdx<S>,
) -> StateTable<S>
    requires start { S.number start.0 < S.number states.0 }
    requires actions { length rows.actions.items ≡ S.number states.0 }
    requires gotos { length rows.gotos.items ≡ S.number states.0 }
    requires cells { (s : ℕ) → s < S.number states.0 → IsCellRow grm.now.grammar.tokens (slice_index_or (rows_of S.number rows).actions s []) }
    requires targets { (s : ℕ) → s < S.number states.0 → IsTargetRow grm.now.grammar.rules (slice_index_or (rows_of S.number rows).gotos s []) }
    requires room { S.number states.0 * (grm.now.grammar.tokens + grm.now.grammar.rules) < 2 ^ 64 }
    ensures states { result.states ≡ S.number states.0 }
    ensures tokens { result.tokens ≡ grm.now.grammar.tokens }
    ensures rules { result.rules ≡ grm.now.grammar.rules }
    ensures productions { result.productions ≡ length grm.now.grammar.productions }
    ensures start { result.start ≡ S.number start.0 }
    ensures rows { HasFullRows result }
    ensures table { (parts : ℕ → PartsValue) (gotos : ℕ → List (ℕ × ℕ)) → AreRowsOf grm.now.grammar (precedences_of grm.now) parts gotos (S.number states.0) (rows_of S.number rows) → IsTableBy grm.now.grammar (precedences_of grm.now) parts gotos (S.number states.0) result }
{
    let TableRows {
        actions,
        gotos,
        pairs,
        shifts,
    } = rows;
    StateTable {
        actions,
        gotos,
        start,
        states: states.0,
        tokens: grm.tokens_len().0,
        rules: grm.rules_len().0,
        prods: grm.prods_len().0,
        conflicts: list_conflicts(pairs, shifts),
        full_actions: Vec::new(alloc),
        full_gotos: Vec::new(alloc),
    }
}

/// What is wrong with a grammar of which no table is made.
#[derive(Clone, Copy, Debug, PartialEq, Eq)]
pub enum StateTableErrorKind {
    /// Where a text has ended, a production reduces too.
    AcceptReduceConflict,
}

/// Why no table is made of a grammar.
#[derive(Clone, Copy, Debug, PartialEq, Eq)]
pub struct StateTableError<S> {
    /// What the conflict is.
    pub kind: StateTableErrorKind,
    /// The least production that reduces where a text has ended.
    pub pidx: PIdx<S>,
}

impl<S> Display for StateTableError<S> {
    ghost use Rattle.std.specs.Prelude.{Some, codes};

    ghost output = { λ e. Some (codes "Accept/reduce conflict") };

    fn fmt<W: Write>(&self, f: &mut Formatter<W>) -> fmt::Result {
        write!(f, "Accept/reduce conflict")
    }
}

impl<S: Debug + Drop> Error for StateTableError<S> {}

/// Why a graph has no table.
#[derive(Clone, Copy, Debug, PartialEq, Eq)]
pub enum StateTableNewError<S> {
    /// No table is made of the grammar.
    StateTable(StateTableError<S>),
    /// A cell for each state and token, and one for each state and rule, are more than `usize::MAX`.
    TooLarge,
    /// There is no memory.
    Memory(AllocError),
}

impl<S> From<AllocError> for StateTableNewError<S> {
    ghost from_gives = { λ x e. e ≡ faults.Memory x };

    fn from(e: AllocError) -> StateTableNewError<S> {
        StateTableNewError::Memory(e)
    }
}

/// Prints the inner error, or the variant's name.
impl<S> Display for StateTableNewError<S> {
    ghost use Rattle.std.specs.Prelude.{Some};
    ghost use Rattle.state_table.specs.TableRefusals.{new_error_text};

    ghost output = { λ e. Some (new_error_text e) };

    fn fmt<W: Write>(&self, f: &mut Formatter<W>) -> fmt::Result {
        match self {
            StateTableNewError::StateTable(e) => write!(f, "{e}"),
            StateTableNewError::TooLarge => write!(f, "TooLarge"),
            StateTableNewError::Memory(_) => write!(f, "Memory"),
        }
    }
}

impl<S: Debug + Drop> Error for StateTableNewError<S> {}
