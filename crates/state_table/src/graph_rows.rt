//! The rows of a table by a graph: what each state has for its row of cells and its gotos, state by state.

ghost use Rattle.std.specs.Prelude.{◌≡◌, ◌<◌, ◌+◌, ◌^◌, ◌++◌, ◌∷◌, ◌||◌, ◌↔◌, ℕ, List, [], Bool, IsTrue, nat_eq, length, All, IfOk, IfErr, OnOk};
ghost use Rattle.cfg_theory.specs.Grammar.{body_of};
ghost use Rattle.lr_theory.specs.Itemset.{FitsGrammar};
ghost use Rattle.lr_theory.specs.Sizes.{cell_count};
ghost use Rattle.table_theory.specs.Cells.{accepts_in, is_start_complete};
ghost use Rattle.state_table.specs.CellRows.{IsContested};
ghost use Rattle.state_table.specs.CellViews.{precedences_of, reductions_of, targets_of};
ghost use Rattle.state_table.specs.GraphParts.{complete_items, parts_in, rule_edges, targets_in, token_edges};
ghost use Rattle.state_table.specs.GraphViews.{edge_seen, edges_seen};
ghost use Rattle.state_table.specs.Graphs.{IsGraphOf, graph_of};
ghost use Rattle.state_table.specs.Meeting.{rows_in};
ghost use Rattle.state_table.specs.Sharing.{IsShared, entries_in, entry_in, shared_map};
ghost use Rattle.state_table.specs.TableRefusals.{table_refusal_of};
ghost use Rattle.state_table.specs.TableRows.{AreRowsOf, rows_of};
ghost use Rattle.state_table.specs.Tables.{IsTableRefusal};

use crate::cores::CoreItem;
use crate::rows::row_number;
use crate::shared_sets::{SharedItem, SharedSets};
use crate::state_rows::{Reduction, RowSource, StateParts, contesting};
use crate::stategraph::StateGraph;
use crate::statetable::{StateTableError, StateTableErrorKind, StateTableNewError};
use crate::stidx::StIdx;
use crate::table_rows::TableRows;
use cfg_base::index::IndexStorage;
use cfg_base::symbol::Symbol;
use cfg_numbered::yacc::NumberedGrammar;
use std::alloc::{AllocError, Global};

/// Returns whether an item is complete.
fn is_whole<S: IndexStorage>(grm: &NumberedGrammar<S>, entry: SharedItem<S>) -> bool
    requires { S.number entry.item.pidx.0 < length grm.now.grammar.productions }
    ensures { result ≡ nat_eq (S.number entry.item.dot.0) (length (body_of grm.now.grammar (S.number entry.item.pidx.0))) }
{
    let CoreItem { pidx, dot } = entry.item;
    dot.0.to_usize() == grm.prod_len(pidx).0.to_usize()
}

/// Returns whether an item is of the start production.
fn is_of_start<S: IndexStorage>(grm: &NumberedGrammar<S>, entry: SharedItem<S>) -> bool
    ensures { result ≡ nat_eq (S.number entry.item.pidx.0) grm.now.grammar.start }
{
    entry.item.pidx.0.to_usize() == grm.start_prod().0.to_usize()
}

/// Puts an item behind the reductions so far, if it is complete, or notes it, if it is the complete start production.
fn keep_complete<S: IndexStorage>(
    grm: &NumberedGrammar<S>,
    entry: SharedItem<S>,
    reductions: &mut Vec<Reduction<S>>,
    accepts: &mut bool,
) -> Result<(), AllocError>
    requires { S.number entry.item.pidx.0 < length grm.now.grammar.productions }
    ensures reductions { OnOk result ((rows : List (List Bool)) → reductions_of S.number rows reductions.new.items ≡ reductions_of S.number rows reductions.old.items ++ complete_items grm.now.grammar (entry_in S.number rows entry ∷ [])) }
    ensures accepts { OnOk result ((rows : List (List Bool)) → accepts.new ≡ (accepts.old || is_start_complete grm.now.grammar (entry_in S.number rows entry))) }
{
    if !is_whole(grm, entry) {
        return Ok(());
    }
    if is_of_start(grm, entry) {
        *accepts = true;
        return Ok(());
    }
    reductions.push(Reduction {
        pidx: entry.item.pidx,
        set: entry.set.get(),
    })?;
    Ok(())
}

/// Replaces the reductions by those of a closed state's items, in order. Notes whether the items have the complete
/// start production.
fn fill_complete<S: IndexStorage>(
    grm: &NumberedGrammar<S>,
    entries: &[SharedItem<S>],
    reductions: &mut Vec<Reduction<S>>,
    accepts: &mut bool,
) -> Result<(), AllocError>
    requires { All (λ e. S.number e.item.pidx.0 < length grm.now.grammar.productions) entries.now }
    ensures reductions { OnOk result ((rows : List (List Bool)) → reductions_of S.number rows reductions.new.items ≡ complete_items grm.now.grammar (entries_in S.number rows entries.now)) }
    ensures accepts { OnOk result ((rows : List (List Bool)) → accepts.new ≡ accepts_in grm.now.grammar (entries_in S.number rows entries.now)) }
{
    reductions.clear();
    *accepts = false;
    'entries: for i in 0..entries.len() {
        keep_complete(grm, entries[i], reductions, accepts)?;
    }
    Ok(())
}

/// Puts an edge behind the shifts so far, if it is on a token.
fn keep_shift<S: IndexStorage>(
    edge: (Symbol<S>, StIdx<S>),
    shifts: &mut Vec<(u32, StIdx<S>)>,
) -> Result<(), AllocError>
    ensures { OnOk result (targets_of S.number shifts.new.items ≡ targets_of S.number shifts.old.items ++ token_edges (edge_seen S.number edge ∷ [])) }
{
    let (symbol, target) = edge;
    match symbol {
        Symbol::Token(tidx) => {
            shifts.push((row_number(tidx.0), target))?;
            Ok(())
        }
        Symbol::Rule(_) => Ok(()),
    }
}

/// Takes the edges on tokens, in order, in place of the shifts that are there.
fn fill_shifts<S: IndexStorage>(
    edges: &[(Symbol<S>, StIdx<S>)],
    shifts: &mut Vec<(u32, StIdx<S>)>,
) -> Result<(), AllocError>
    ensures { OnOk result (targets_of S.number shifts.new.items ≡ token_edges (edges_seen S.number edges.now)) }
{
    shifts.clear();
    'edges: for i in 0..edges.len() {
        keep_shift(edges[i], shifts)?;
    }
    Ok(())
}

/// Puts an edge behind the gotos so far, if it is on a rule.
fn keep_goto<S: IndexStorage>(
    edge: (Symbol<S>, StIdx<S>),
    gotos: &mut Vec<(u32, StIdx<S>)>,
) -> Result<(), AllocError>
    ensures { OnOk result (targets_of S.number gotos.new.items ≡ targets_of S.number gotos.old.items ++ rule_edges (edge_seen S.number edge ∷ [])) }
{
    let (symbol, target) = edge;
    match symbol {
        Symbol::Rule(ridx) => {
            gotos.push((row_number(ridx.0), target))?;
            Ok(())
        }
        Symbol::Token(_) => Ok(()),
    }
}

/// Returns the edges on rules, in order; the first `shifts` edges are on tokens.
fn goto_row<S: IndexStorage>(
    alloc: Global,
    edges: &[(Symbol<S>, StIdx<S>)],
    shifts: usize,
) -> Result<Vec<(u32, StIdx<S>)>, AllocError>
    ensures { IfOk result (λ v. targets_of S.number v.items ≡ rule_edges (edges_seen S.number edges.now)) }
{
    let mut gotos = Vec::with_capacity(alloc, edges.len().saturating_sub(shifts))?;
    'edges: for i in 0..edges.len() {
        keep_goto(edges[i], &mut gotos)?;
    }
    Ok(gotos)
}

/// Takes what a state has for its row, by its closed items and its edges, in place of what is there.
fn fill_parts<S: IndexStorage>(
    grm: &NumberedGrammar<S>,
    shared: &SharedSets<S>,
    edges: &[(Symbol<S>, StIdx<S>)],
    parts: &mut StateParts<S>,
) -> Result<(), AllocError>
    requires shared { IsShared S.number shared.now }
    requires fits { FitsGrammar grm.now.grammar (shared_map S.number shared.now) }
    ensures reductions { OnOk result (reductions_of S.number (rows_in shared.now.sets.items) parts.new.reductions.items ≡ complete_items grm.now.grammar (shared_map S.number shared.now)) }
    ensures shifts { OnOk result (targets_of S.number parts.new.shifts.items ≡ token_edges (edges_seen S.number edges.now)) }
    ensures accepts { OnOk result (parts.new.accepts ≡ accepts_in grm.now.grammar (shared_map S.number shared.now)) }
{
    let entries = shared.entries.as_slice();
    fill_complete(grm, entries, &mut parts.reductions, &mut parts.accepts)?;
    fill_shifts(edges, &mut parts.shifts)?;
    Ok(())
}

/// Adds the rows of the next state, unless it accepts where a production reduces.
fn add_row<S: IndexStorage>(
    alloc: Global,
    grm: &NumberedGrammar<S>,
    sg: &StateGraph<S>,
    stidx: StIdx<S>,
    parts: &mut StateParts<S>,
    rows: &mut TableRows<S>,
) -> Result<(), StateTableNewError<S>>
    requires graph { IsGraphOf grm.now.grammar sg.now }
    requires state { S.number stidx.0 < length sg.now.cores }
    ensures rows { OnOk result (AreRowsOf grm.now.grammar (precedences_of grm.now) (parts_in grm.now.grammar sg.now) (targets_in sg.now) (S.number stidx.0) (rows_of S.number rows.old) → AreRowsOf grm.now.grammar (precedences_of grm.now) (parts_in grm.now.grammar sg.now) (targets_in sg.now) (S.number stidx.0 + 1) (rows_of S.number rows.new)) }
    ensures quiet { OnOk result ((p : ℕ) → IsContested grm.now.grammar (parts_in grm.now.grammar sg.now (S.number stidx.0)) p → ⊥) }
    ensures refused { IfErr result (λ e. IsTableRefusal grm.now sg.now (table_refusal_of S.number e)) }
{
    let shared = sg.closed_state(stidx).shared_sets();
    let sets = shared.sets.as_slice();
    let edges = sg.edges(stidx);
    grm.start_prod();
    fill_parts(grm, shared, edges, parts)?;
    match contesting(grm, parts, sets) {
        Some(pidx) => Err(StateTableNewError::StateTable(StateTableError {
            kind: StateTableErrorKind::AcceptReduceConflict,
            pidx,
        })),
        None => {
            let gotos = goto_row(alloc, edges, parts.shifts.len())?;
            let source = RowSource {
                grm,
                stidx,
                parts,
                sets,
            };
            rows.add_state(alloc, &source, gotos)?;
            Ok(())
        }
    }
}

/// Returns the rows of all states, unless one accepts where a production reduces.
pub(crate) fn rows_of_graph<S: IndexStorage>(
    alloc: Global,
    grm: &NumberedGrammar<S>,
    sg: &StateGraph<S>,
) -> Result<TableRows<S>, StateTableNewError<S>>
    requires { IsGraphOf grm.now.grammar sg.now }
    ensures rows { IfOk result (λ r. AreRowsOf grm.now.grammar (precedences_of grm.now) (parts_in grm.now.grammar sg.now) (targets_in sg.now) (length sg.now.cores) (rows_of S.number r)) }
    ensures quiet { IfOk result (λ r. (s p : ℕ) → s < length sg.now.cores → IsContested grm.now.grammar (parts_in grm.now.grammar sg.now s) p → ⊥) }
    ensures refused { IfErr result (λ e. IsTableRefusal grm.now sg.now (table_refusal_of S.number e)) }
{
    let count = sg.all_states_len().0.to_usize();
    let mut rows = TableRows::new(alloc, count)?;
    let mut parts = StateParts::new(alloc);
    'states: for number in 0..count {
        let stidx = sg.state_at(number);
        add_row(alloc, grm, sg, stidx, &mut parts, &mut rows)?;
    }
    Ok(rows)
}

/// Returns whether the cells and the gotos of all states can be counted.
pub(crate) fn has_room<S: IndexStorage>(grm: &NumberedGrammar<S>, sg: &StateGraph<S>) -> bool
    ensures { IsTrue result ↔ (cell_count grm.now.grammar (graph_of sg.now) < 2 ^ 64) }
{
    let width = grm.tokens_len().0.to_usize() + grm.rules_len().0.to_usize();
    sg.all_states_len()
        .0
        .to_usize()
        .checked_mul(width)
        .is_some()
}
