//! Conflicts as the object has them.

use cfg_base::index::IndexStorage;
use cfg_base::symbol::{PIdx, SIdx};
use conflict_examples::{ActionExample, ConflictExample, ExampleFinder};
use grammar_names::{Grammar, push_prod, symbol_name, token_name};
use grammar_report::{
    Listed, conflict_blocks, example_of, nearest, production_span, push_example, shift_span,
    states_of,
};
use parser_kit::ParserKit;
use report_forms::{Action, Conflict, Example, Production, range_of};
use std::alloc::{AllocError, Global};
use std::mem;
use text_messages::Source;

/// What conflicts are made of.
#[derive(Clone, Copy)]
pub(crate) struct View<'a> {
    pub source: &'a Source<'a>,
    pub kit: &'a ParserKit<u32>,
    pub full: bool,
}

/// Returns the names of a production.
fn prod_text(alloc: Global, grm: &Grammar, pidx: PIdx<u32>) -> Result<String, AllocError> {
    let mut text = String::new(alloc);
    push_prod(&mut text, grm, pidx)?;
    Ok(text)
}

/// Adds a name.
fn push_name(alloc: Global, names: &mut Vec<String>, name: &str) -> Result<(), AllocError> {
    names.push(String::from_str(alloc, name)?)?;
    Ok(())
}

/// Adds a production.
fn push_production(
    alloc: Global,
    productions: &mut Vec<Production>,
    view: &View<'_>,
    pidx: PIdx<u32>,
    dot: Option<usize>,
) -> Result<(), AllocError> {
    let range = range_of(view.source, production_span(view.kit.ast(), pidx));
    let production = prod_text(alloc, view.kit.grm(), pidx)?;
    productions.push(Production {
        production,
        dot,
        range,
    })?;
    Ok(())
}

/// Adds open productions.
fn push_spine(
    alloc: Global,
    productions: &mut Vec<Production>,
    view: &View<'_>,
    spine: &[(PIdx<u32>, SIdx<u32>)],
) -> Result<(), AllocError> {
    'items: for index in 0..spine.len() {
        let (pidx, dot) = spine[index];
        push_production(alloc, productions, view, pidx, Some(dot.0.to_usize()))?;
    }
    Ok(())
}

/// Fills in why an action is right.
fn fill_action(
    alloc: Global,
    action: &mut Action,
    view: &View<'_>,
    found: &ActionExample<u32>,
) -> Result<(), AllocError> {
    push_spine(alloc, &mut action.spine, view, found.spine.as_slice())?;
    'steps: for index in 0..found.steps.len() {
        push_production(alloc, &mut action.steps, view, found.steps[index], None)?;
    }
    Ok(())
}

/// Fills in an example.
fn fill_example(
    alloc: Global,
    example: &mut Example,
    view: &View<'_>,
    first: &Listed,
    found: &ConflictExample<u32>,
) -> Result<(), AllocError> {
    'symbols: for index in 0..found.symbols.len() {
        let name = symbol_name(view.kit.grm(), found.symbols[index]);
        push_name(alloc, &mut example.symbols, name)?;
    }
    fill_action(alloc, &mut example.first, view, &found.first)?;
    fill_action(alloc, &mut example.second, view, &found.second)?;
    push_example(
        alloc,
        &mut example.lines,
        view.kit.grm(),
        found,
        first.pidx,
        first.other,
    )
}

/// Makes an action without reasons.
fn no_action(alloc: Global) -> Action {
    Action {
        spine: Vec::new(alloc),
        steps: Vec::new(alloc),
    }
}

/// Puts an example into a conflict.
fn put_example(
    alloc: Global,
    conflict: &mut Conflict,
    view: &View<'_>,
    first: &Listed,
    found: &ConflictExample<u32>,
) -> Result<(), AllocError> {
    let token = String::from_str(alloc, token_name(view.kit.grm(), found.token))?;
    let mut example = Example {
        symbols: Vec::new(alloc),
        token,
        first: no_action(alloc),
        second: no_action(alloc),
        lines: String::new(alloc),
    };
    match fill_example(alloc, &mut example, view, first, found) {
        Ok(()) => {
            drop(mem::replace(&mut conflict.example, Some(example)));
            Ok(())
        }
        Err(e) => {
            drop(example);
            Err(e)
        }
    }
}

/// Puts an example into a conflict, from the nearest rule on or from the start, with the place of the shift.
fn put_shown(
    alloc: Global,
    conflict: &mut Conflict,
    view: &View<'_>,
    first: &Listed,
    found: &ConflictExample<u32>,
) -> Result<(), AllocError> {
    if first.other.is_none() {
        conflict.shift = range_of(view.source, shift_span(view.kit, found));
    }
    if view.full {
        return put_example(alloc, conflict, view, first, found);
    }
    let near = nearest(alloc, view.kit.grm(), found)?;
    let put = put_example(alloc, conflict, view, first, &near);
    drop(near);
    put
}

/// Puts the example of the first conflict that has one into their block.
fn find_example(
    alloc: Global,
    conflict: &mut Conflict,
    view: &View<'_>,
    finder: &ExampleFinder<'_, u32>,
    first: &Listed,
    listed: &[Listed],
) -> Result<(), AllocError> {
    let found = example_of(alloc, finder, listed)?;
    let put = match &found {
        Some(example) => put_shown(alloc, conflict, view, first, example),
        None => Ok(()),
    };
    drop(found);
    put
}

/// Adds the tokens of conflicts, which are ordered by token, and their states.
fn push_tokens_and_states(
    alloc: Global,
    conflict: &mut Conflict,
    grm: &Grammar,
    listed: &[Listed],
) -> Result<(), AllocError> {
    let mut before = None;
    'entries: for entry in listed {
        if before != Some(entry.token) {
            push_name(alloc, &mut conflict.tokens, token_name(grm, entry.token))?;
        }
        before = Some(entry.token);
    }
    let states = states_of(alloc, listed)?;
    'states: for state in &states {
        conflict.states.push(state.0)?;
    }
    Ok(())
}

/// Fills in the block of conflicts of the same productions, of which this is the first.
fn fill_conflict(
    alloc: Global,
    conflict: &mut Conflict,
    view: &View<'_>,
    finder: &ExampleFinder<'_, u32>,
    first: &Listed,
    listed: &[Listed],
) -> Result<(), AllocError> {
    push_tokens_and_states(alloc, conflict, view.kit.grm(), listed)?;
    push_production(alloc, &mut conflict.productions, view, first.pidx, None)?;
    if let Some(other) = first.other {
        push_production(alloc, &mut conflict.productions, view, other, None)?;
    }
    find_example(alloc, conflict, view, finder, first, listed)
}

/// Adds a conflict to others.
fn add_conflict(conflicts: &mut Vec<Conflict>, conflict: Conflict) -> Result<(), AllocError> {
    conflicts.push(conflict)?;
    Ok(())
}

/// Adds a block of conflicts.
fn push_block(
    alloc: Global,
    conflicts: &mut Vec<Conflict>,
    view: &View<'_>,
    finder: &ExampleFinder<'_, u32>,
    listed: &[Listed],
) -> Result<(), AllocError> {
    let Some(first) = listed.first() else {
        return Ok(());
    };
    let kind = match first.other {
        Some(_) => "reduce/reduce",
        None => "shift/reduce",
    };
    let mut conflict = Conflict {
        kind,
        tokens: Vec::new(alloc),
        states: Vec::new(alloc),
        productions: Vec::new(alloc),
        shift: None,
        example: None,
    };
    match fill_conflict(alloc, &mut conflict, view, finder, first, listed) {
        Ok(()) => add_conflict(conflicts, conflict),
        Err(e) => {
            drop(conflict);
            Err(e)
        }
    }
}

/// Adds blocks of conflicts.
fn push_blocks(
    alloc: Global,
    conflicts: &mut Vec<Conflict>,
    view: &View<'_>,
    finder: &ExampleFinder<'_, u32>,
    blocks: &[Vec<Listed>],
) -> Result<(), AllocError> {
    'blocks: for block in blocks {
        push_block(alloc, conflicts, view, finder, block.as_slice())?;
    }
    Ok(())
}

/// Adds the conflicts that no precedence settles, in blocks.
pub(crate) fn push_conflicts(
    alloc: Global,
    conflicts: &mut Vec<Conflict>,
    view: &View<'_>,
    each: bool,
) -> Result<(), AllocError> {
    let blocks = conflict_blocks(alloc, view.kit, each)?;
    if blocks.is_empty() {
        return Ok(());
    }
    let finder = ExampleFinder::new(alloc, view.kit.grm(), view.kit.sgraph())?;
    let pushed = push_blocks(alloc, conflicts, view, &finder, blocks.as_slice());
    drop(finder);
    pushed
}
