//! What `lrtable` answers to a text, at index types of four, two and one bytes.

ghost use Rattle.state_table.specs.Graphs.{IsGraphOf};
ghost use Rattle.state_table.specs.Tables.{CountsAgree};
ghost use Rattle.state_table.specs.ConflictTexts.{ConflictsInRange};
ghost use Rattle.std.specs.Prelude.{IfSome};

use crate::cells::{push_cells, push_counts};
use crate::conflicts::push_conflicts;
use crate::examples::push_examples;
use crate::refusals::{push_no_grammar, push_no_table};
use crate::states::push_sets;
use cfgrammar::index::IndexStorage;
use cfgrammar::yacc::{YaccGrammar, YaccGrammarMakeError};
use lrtable::stategraph::StateGraph;
use lrtable::statetable::StateTable;
use lrtable::{Minimiser, from_yacc};
use row_files::{Part, kind_of, parts};
use std::alloc::{AllocError, Global};

/// The counts, the states as text, the cells and the conflicts.
fn push_all<S: IndexStorage>(
    alloc: Global,
    out: &mut String,
    grm: &YaccGrammar<S>,
    graph: &StateGraph<S>,
    table: &StateTable<S>,
    states: &str,
) -> Result<(), AllocError>
    requires counts { CountsAgree grm.now.grammar graph.now table.now }
    requires listed { IfSome table.now.conflicts (ConflictsInRange grm.now) }
{
    push_counts(alloc, out, graph, table)?;
    out.push_str(states)?;
    push_cells(alloc, out, grm, table)?;
    match table.conflicts() {
        Some(conflicts) => push_conflicts(alloc, out, grm, conflicts),
        None => out.push_str("no conflict\n"),
    }
}

/// What a heading asks of a grammar's table.
fn push_asked<S: IndexStorage>(
    alloc: Global,
    out: &mut String,
    heading: &str,
    grm: &YaccGrammar<S>,
    graph: &StateGraph<S>,
    table: &StateTable<S>,
) -> Result<(), AllocError>
    requires graph { IsGraphOf grm.now.grammar graph.now }
    requires counts { CountsAgree grm.now.grammar graph.now table.now }
    requires listed { IfSome table.now.conflicts (ConflictsInRange grm.now) }
{
    match heading.split_whitespace().nth(1) {
        Some("states") => out.push_str(graph.pp_core_states(alloc, grm)?.as_str()),
        Some("closures") => out.push_str(graph.pp_closed_states(alloc, grm)?.as_str()),
        Some("sets") => push_sets(alloc, out, graph),
        Some("examples") => push_examples(alloc, out, grm, graph, table.conflicts()),
        Some("table") => push_all(alloc, out, grm, graph, table, ""),
        Some("all") => {
            let states = graph.pp_core_states(alloc, grm)?;
            push_all(alloc, out, grm, graph, table, states.as_str())
        }
        _ => push_counts(alloc, out, graph, table),
    }
}

/// What is asked of a grammar, or why it has no table.
fn push_made<S: IndexStorage>(
    alloc: Global,
    out: &mut String,
    heading: &str,
    grm: &YaccGrammar<S>,
) -> Result<(), AllocError> {
    match from_yacc(alloc, grm, Minimiser::Pager) {
        Ok((graph, table)) => {
            let pushed = push_asked(alloc, out, heading, grm, &graph, &table);
            drop(graph);
            drop(table);
            pushed
        }
        Err(refusal) => push_no_table(alloc, out, &refusal),
    }
}

fn grammar_of<S: IndexStorage>(
    alloc: Global,
    heading: &str,
    text: &str,
) -> Result<YaccGrammar<S>, YaccGrammarMakeError> {
    match kind_of(heading) {
        Some(kind) => YaccGrammar::new_with_storaget(alloc, kind, text),
        None => YaccGrammar::from_str(alloc, text),
    }
}

/// The answer at one index type.
fn answer<S: IndexStorage>(alloc: Global, heading: &str, text: &str) -> Result<String, AllocError> {
    let mut out = String::new(alloc);
    let pushed = match grammar_of::<S>(alloc, heading, text) {
        Ok(grm) => {
            let pushed = push_made(alloc, &mut out, heading, &grm);
            drop(grm);
            pushed
        }
        Err(refusal) => {
            let pushed = push_no_grammar(alloc, &mut out, &refusal);
            drop(refusal);
            pushed
        }
    };
    pushed?;
    Ok(out)
}

/// The answer at index types of four bytes, and those of two and of one where they are others.
fn push_answer(
    alloc: Global,
    out: &mut String,
    heading: &str,
    text: &str,
) -> Result<(), AllocError> {
    let wide = answer::<u32>(alloc, heading, text)?;
    out.push_str(wide.as_str())?;
    let middle = answer::<u16>(alloc, heading, text)?;
    if middle != wide {
        out.push_str("by u16: ")?;
        out.push_str(middle.as_str())?;
    }
    let narrow = answer::<u8>(alloc, heading, text)?;
    if narrow != wide {
        out.push_str("by u8: ")?;
        out.push_str(narrow.as_str())?;
    }
    Ok(())
}

fn push_part(alloc: Global, out: &mut String, part: &Part) -> Result<(), AllocError> {
    match part {
        Part::Line(line) => {
            out.push_str(line)?;
            out.push('\n')
        }
        Part::Text(heading, text, _start) => push_answer(alloc, out, heading, text.as_str()),
    }
}

fn push_parts(alloc: Global, out: &mut String, parts: &[Part]) -> Result<(), AllocError> {
    for part in parts {
        push_part(alloc, out, part)?;
    }
    Ok(())
}

/// The file with the right answers.
pub fn answer_file(alloc: Global, file: &str) -> Result<String, AllocError> {
    let mut out = String::new(alloc);
    let parts = parts(alloc, file)?;
    let pushed = push_parts(alloc, &mut out, parts.as_slice());
    drop(parts);
    pushed?;
    Ok(out)
}
