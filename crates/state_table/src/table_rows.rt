//! The rows of a table, state by state.

ghost use Rattle.std.specs.Prelude.{◌≡◌, ◌<◌, ◌≤◌, ◌+◌, ℕ, List, [], length, IfOk, OnOk};
ghost use Rattle.state_table.specs.CellRows.{FitsParts, PartsValue};
ghost use Rattle.state_table.specs.CellViews.{parts_of, precedences_of, targets_of};
ghost use Rattle.state_table.specs.Meeting.{rows_in};
ghost use Rattle.state_table.specs.SparseRows.{IsTargetRow};
ghost use Rattle.state_table.specs.TableRows.{AreRowsOf, IsTableBy, rows_of};

use crate::cells::Action;
use crate::conflicts::{Conflicts, of_lists};
use crate::state_rows::{ReduceReduce, RowSource, ShiftReduce, state_row};
use crate::stidx::StIdx;
use cfg_base::index::IndexStorage;
use std::alloc::{AllocError, Global};

/// The rows of the states so far, and the conflicts that are listed of them.
#[derive(Drop)]
pub(crate) struct TableRows<S> {
    pub actions: Vec<Vec<(u32, Action<S>)>>,
    pub gotos: Vec<Vec<(u32, StIdx<S>)>>,
    pub pairs: Vec<ReduceReduce<S>>,
    pub shifts: Vec<ShiftReduce<S>>,
}

impl<S: IndexStorage> TableRows<S> {
    /// Makes the rows of no state, with room for those of `states`.
    pub(crate) fn new(alloc: Global, states: usize) -> Result<TableRows<S>, AllocError>
        ensures actions { IfOk result (λ r. r.actions.items ≡ []) }
        ensures gotos { IfOk result (λ r. r.gotos.items ≡ []) }
        ensures pairs { IfOk result (λ r. r.pairs.items ≡ []) }
        ensures shifts { IfOk result (λ r. r.shifts.items ≡ []) }
    {
        let actions = Vec::with_capacity(alloc, states)?;
        let gotos = Vec::with_capacity(alloc, states)?;
        Ok(TableRows {
            actions,
            gotos,
            pairs: Vec::new(alloc),
            shifts: Vec::new(alloc),
        })
    }

    /// Adds the rows of the next state.
    pub(crate) fn add_state(
        &mut self,
        alloc: Global,
        source: &RowSource<'_, S>,
        gotos: Vec<(u32, StIdx<S>)>,
    ) -> Result<(), AllocError>
        requires { FitsParts source.now.grm.now.grammar (parts_of S.number (rows_in source.now.sets.now) source.now.parts.now) }
        ensures { OnOk result ((all : ℕ → PartsValue) (targets : ℕ → List (ℕ × ℕ)) → all (S.number source.now.stidx.0) ≡ parts_of S.number (rows_in source.now.sets.now) source.now.parts.now → targets (S.number source.now.stidx.0) ≡ targets_of S.number gotos.items →
            AreRowsOf source.now.grm.now.grammar (precedences_of source.now.grm.now) all targets (S.number source.now.stidx.0) (rows_of S.number self.old) → AreRowsOf source.now.grm.now.grammar (precedences_of source.now.grm.now) all targets (S.number source.now.stidx.0 + 1) (rows_of S.number self.new)) }
    {
        let row = state_row(alloc, source, &mut self.pairs, &mut self.shifts)?;
        self.actions.push(row)?;
        self.gotos.push(gotos)?;
        Ok(())
    }
}
