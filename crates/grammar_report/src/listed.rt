//! Listed conflicts of a kit in blocks, their tokens and states in words, and their examples.

ghost use Rattle.std.specs.Prelude.{All, Contains, IfOk, IfSome, map};
ghost use Rattle.std.specs.List.{Any};
ghost use Rattle.grammar_report.specs.Shown.{IsExampleOf};
ghost use Rattle.refused_tables.specs.Blocks.{AreBlocks, all_listed};

use conflict_examples::laws::examples_are_contests;
use conflict_examples::{ConflictExample, ExampleFinder};
use grammar_names::{Grammar, push_token};
use lrtable::StIdx;
use parser_kit::ParserKit;
use refused_tables::{Listed, blocks_of, states_of};
use std::alloc::{AllocError, Global};

/// Returns the conflicts that a kit lists in blocks, as `blocks_of` makes them; none where it lists none.
pub fn conflict_blocks(
    alloc: Global,
    kit: &ParserKit<u32>,
    each: bool,
) -> Result<Vec<Vec<Listed>>, AllocError>
    ensures blocks { IfOk result (λ v. AreBlocks ⟦<Listed as Ord>⟧.cmp each kit.now.parser.table.conflicts (map (λ b. b.items) v.items)) }
    ensures listed { IfOk result (λ v. All (λ b. All (Contains (all_listed kit.now.parser.table.conflicts)) b.items) v.items) }
{
    match kit.conflicts() {
        Some(conflicts) => blocks_of(alloc, conflicts, each),
        None => Ok(Vec::new(alloc)),
    }
}

/// Adds the tokens of conflicts that are ordered by token.
pub(crate) fn push_tokens(
    text: &mut String,
    grm: &Grammar,
    listed: &[Listed],
) -> Result<(), AllocError> {
    let mut before = None;
    'entries: for entry in listed {
        if before != Some(entry.token) {
            push_token(text, grm, entry.token)?;
        }
        before = Some(entry.token);
    }
    Ok(())
}

/// Adds how many states conflicts are in, or which state the one conflict of a block is in.
pub(crate) fn push_states(
    alloc: Global,
    text: &mut String,
    listed: &[Listed],
    each: bool,
) -> Result<(), AllocError> {
    let states = states_of(alloc, listed)?;
    let told = match states.as_slice() {
        [StIdx(state)] if each => format!(in alloc; " in state {state}")?,
        [_] => String::from_str(alloc, " in 1 state")?,
        more => {
            let count = more.len();
            format!(in alloc; " in {count} states")?
        }
    };
    text.push_str(told.as_str())
}

fn example_of_one(
    alloc: Global,
    finder: &ExampleFinder<'_, u32>,
    entry: &Listed,
) -> Result<Option<ConflictExample<u32>>, AllocError>
    ensures { IfOk result (λ o. IfSome o (IsExampleOf finder.now entry.now)) }
{
    examples_are_contests();
    match entry.other {
        Some(other) => finder.reduce_reduce(alloc, &(entry.token, entry.pidx, other, entry.state)),
        None => finder.shift_reduce(alloc, &(entry.token, entry.pidx, entry.state)),
    }
}

/// Returns an example of the first conflict that has one.
pub fn example_of(
    alloc: Global,
    finder: &ExampleFinder<'_, u32>,
    listed: &[Listed],
) -> Result<Option<ConflictExample<u32>>, AllocError>
    ensures { IfOk result (λ o. IfSome o (λ x. Any (λ e. IsExampleOf finder.now e x) listed.now)) }
{
    'entries: for entry in listed {
        let found = example_of_one(alloc, finder, entry)?;
        if found.is_some() {
            return Ok(found);
        }
    }
    Ok(None)
}
