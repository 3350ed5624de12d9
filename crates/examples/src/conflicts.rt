//! Shows the states of a grammar, its conflicts, and whether it is LR(1) as its precedences leave it: for statements
//! in which an `else` may belong to either of two `if`s.
//!
//! The clause `exact` of `judged` is proved by the clause of that name of `from_yacc`. A table that lists a conflict which no
//! string shows, or none where some string leaves a token two actions, would break it.
ghost use Rattle.std.specs.Prelude.{◌↔◌, IfOk, IfSome, IsTrue};
ghost use Rattle.table_theory.specs.CellLaws.{SomeContested};
ghost use Rattle.table_theory.specs.Cells.{NoPrecedences};
ghost use Rattle.state_table.specs.CellViews.{precedences_of};
ghost use Rattle.state_table.specs.ConflictTexts.{ConflictsInRange};
ghost use Rattle.state_table.specs.Graphs.{IsGraphOf};
ghost use Rattle.state_table.specs.Tables.{IsTableOf};

use crate::text_errors::grammar;
use cfg_numbered::yacc::NumberedGrammar;
use lrtable::{FromYaccError, Minimiser, StateGraph, StateTable, from_yacc};
use std::alloc::{AllocError, Global};

const STATEMENTS: &str = "%start S %% S: 'if' S 'else' S | 'if' S | 'x';";

/// Returns the graph and the table of a grammar, and whether the table lists no conflict. Without precedences it
/// lists none if and only if no string leaves a token two actions of canonical LR(1).
fn tables_and_verdict(
    alloc: Global,
    grm: &NumberedGrammar<u32>,
) -> Result<(StateGraph<u32>, StateTable<u32>, bool), FromYaccError<u32>>
    ensures graph { IfOk result (λ r. IsGraphOf grm.now.grammar r.0) }
    ensures listed { IfOk result (λ r. IsTableOf grm.now r.0 r.1) }
    ensures range { IfOk result (λ r. IfSome r.1.conflicts (ConflictsInRange grm.now)) }
    ensures exact { IfOk result (λ r. NoPrecedences (precedences_of grm.now) → IsTrue r.2 ↔ (SomeContested grm.now.grammar → ⊥)) }
{
    let (graph, table) = from_yacc(alloc, grm, Minimiser::Pager)?;
    let clear = table.conflicts().is_none();
    Ok((graph, table, clear))
}

/// Returns the states of a graph, the conflicts of its table, and whether the grammar is LR(1).
fn listing(
    alloc: Global,
    grm: &NumberedGrammar<u32>,
    graph: &StateGraph<u32>,
    table: &StateTable<u32>,
    clear: bool,
) -> Result<String, AllocError>
    requires graph { IsGraphOf grm.now.grammar graph.now }
    requires range { IfSome table.now.conflicts (ConflictsInRange grm.now) }
{
    let mut out = graph.pp_core_states(alloc, grm)?;
    match table.conflicts() {
        Some(conflicts) => out.push_str(conflicts.pp(alloc, grm)?.as_str())?,
        None => out.push_str("No conflicts\n")?,
    }
    out.push_str(if clear { "LR(1)\n" } else { "Not LR(1)\n" })?;
    Ok(out)
}

/// Returns the states of a grammar's table, what conflicts in it, and whether it is LR(1), or why it has none.
fn report_of(alloc: Global, grm: &NumberedGrammar<u32>) -> Result<String, AllocError> {
    match tables_and_verdict(alloc, grm) {
        Ok((graph, table, clear)) => {
            let report = listing(alloc, grm, &graph, &table, clear);
            drop(table);
            drop(graph);
            report
        }
        Err(FromYaccError::Memory(e)) => Err(e),
        Err(refusal) => format!(in alloc; "{refusal}\n"),
    }
}

fn report_on(alloc: Global, text: &str) -> Result<String, AllocError> {
    match grammar(alloc, text)? {
        Ok(grm) => {
            let report = report_of(alloc, &grm);
            drop(grm);
            report
        }
        Err(report) => Ok(report),
    }
}

/// Returns the output.
pub fn output(alloc: Global) -> Result<String, AllocError> {
    report_on(alloc, STATEMENTS)
}
