//! Examples of conflicts, by numbers.

use crate::refusals::push_number;
use cfg_base::symbol::{PIdx, SIdx};
use cfgrammar::Symbol;
use cfgrammar::index::IndexStorage;
use cfgrammar::yacc::YaccGrammar;
use conflict_examples::{ActionExample, ConflictExample, ConflictExamples};
use lrtable::conflicts::Conflicts;
use lrtable::stategraph::StateGraph;
use std::alloc::{AllocError, Global};

fn push_symbols<S: IndexStorage>(
    alloc: Global,
    out: &mut String,
    symbols: &[Symbol<S>],
) -> Result<(), AllocError> {
    for symbol in symbols {
        match symbol {
            Symbol::Rule(ridx) => push_number(alloc, out, " r", usize::from(*ridx))?,
            Symbol::Token(tidx) => push_number(alloc, out, " t", usize::from(*tidx))?,
        }
    }
    Ok(())
}

/// The open productions with their dots.
fn push_spine<S: IndexStorage>(
    alloc: Global,
    out: &mut String,
    spine: &[(PIdx<S>, SIdx<S>)],
) -> Result<(), AllocError> {
    for (pidx, dot) in spine {
        push_number(alloc, out, " p", usize::from(*pidx))?;
        push_number(alloc, out, ".", usize::from(*dot))?;
    }
    Ok(())
}

/// What is shown of a shift: the open productions.
fn push_shift<S: IndexStorage>(
    alloc: Global,
    out: &mut String,
    action: &ActionExample<S>,
) -> Result<(), AllocError> {
    out.push_str("  ")?;
    push_spine(alloc, out, action.spine.as_slice())?;
    out.push('\n')
}

/// What is shown of a reduction: the open productions, and the forms.
fn push_reduction<S: IndexStorage>(
    alloc: Global,
    out: &mut String,
    grm: &YaccGrammar<S>,
    action: &ActionExample<S>,
) -> Result<(), AllocError> {
    out.push_str("  ")?;
    push_spine(alloc, out, action.spine.as_slice())?;
    for form in &action.forms(alloc, grm)? {
        out.push_str(" =>")?;
        push_symbols(alloc, out, form.as_slice())?;
    }
    out.push('\n')
}

/// The symbols before the token, and the token.
fn push_string<S: IndexStorage>(
    alloc: Global,
    out: &mut String,
    example: &ConflictExample<S>,
) -> Result<(), AllocError> {
    out.push(':')?;
    push_symbols(alloc, out, example.symbols.as_slice())?;
    push_number(alloc, out, " before t", usize::from(example.token))?;
    out.push('\n')
}

/// The example of a shift against a reduction.
fn push_shift_example<S: IndexStorage>(
    alloc: Global,
    out: &mut String,
    grm: &YaccGrammar<S>,
    example: &Option<ConflictExample<S>>,
) -> Result<(), AllocError> {
    let Some(example) = example else {
        return out.push_str(": none\n");
    };
    push_string(alloc, out, example)?;
    push_shift(alloc, out, &example.first)?;
    push_reduction(alloc, out, grm, &example.second)
}

/// The example of a pair of reductions.
fn push_pair_example<S: IndexStorage>(
    alloc: Global,
    out: &mut String,
    grm: &YaccGrammar<S>,
    example: &Option<ConflictExample<S>>,
) -> Result<(), AllocError> {
    let Some(example) = example else {
        return out.push_str(": none\n");
    };
    push_string(alloc, out, example)?;
    push_reduction(alloc, out, grm, &example.first)?;
    push_reduction(alloc, out, grm, &example.second)
}

/// Each shift against a reduction as state, token and production, with its example.
fn push_shifts<S: IndexStorage>(
    alloc: Global,
    out: &mut String,
    grm: &YaccGrammar<S>,
    graph: &StateGraph<S>,
    conflicts: &Conflicts<S>,
) -> Result<(), AllocError> {
    for entry in conflicts.sr_conflicts() {
        let (tidx, pidx, stidx) = *entry;
        push_number(alloc, out, "s", usize::from(stidx))?;
        push_number(alloc, out, " t", usize::from(tidx))?;
        push_number(alloc, out, " p", usize::from(pidx))?;
        let example = graph.shift_reduce_example(alloc, grm, entry)?;
        push_shift_example(alloc, out, grm, &example)?;
    }
    Ok(())
}

/// Each pair of reductions as state, token and productions, with its example.
fn push_pairs<S: IndexStorage>(
    alloc: Global,
    out: &mut String,
    grm: &YaccGrammar<S>,
    graph: &StateGraph<S>,
    conflicts: &Conflicts<S>,
) -> Result<(), AllocError> {
    for entry in conflicts.rr_conflicts() {
        let (tidx, first, second, stidx) = *entry;
        push_number(alloc, out, "s", usize::from(stidx))?;
        push_number(alloc, out, " t", usize::from(tidx))?;
        push_number(alloc, out, " p", usize::from(first))?;
        push_number(alloc, out, " p", usize::from(second))?;
        let example = graph.reduce_reduce_example(alloc, grm, entry)?;
        push_pair_example(alloc, out, grm, &example)?;
    }
    Ok(())
}

/// An example of each conflict.
pub fn push_examples<S: IndexStorage>(
    alloc: Global,
    out: &mut String,
    grm: &YaccGrammar<S>,
    graph: &StateGraph<S>,
    conflicts: Option<&Conflicts<S>>,
) -> Result<(), AllocError> {
    let Some(conflicts) = conflicts else {
        return out.push_str("no conflict\n");
    };
    push_shifts(alloc, out, grm, graph, conflicts)?;
    push_pairs(alloc, out, grm, graph, conflicts)
}
