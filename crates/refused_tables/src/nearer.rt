//! Where an example begins that isn't shown from the start rule on: at the nearest rule in which both actions are open.

ghost use Rattle.std.specs.Prelude.{◌≡◌, take, drop, IsTrue, IfOk};
ghost use Rattle.refused_tables.specs.Nearer.{IsEndOf};

use cfg_base::index::IndexStorage;
use cfg_base::symbol::{PIdx, SIdx};
use conflict_examples::{ActionExample, ConflictExample};
use grammar_names::{Grammar, body_len, symbols_behind};
use std::alloc::{AllocError, Global};

/// Returns whether two open productions are the same, with the same dot.
fn same_item(a: (PIdx<u32>, SIdx<u32>), b: (PIdx<u32>, SIdx<u32>)) -> bool
    ensures { IsTrue result → a ≡ b }
{
    let (pidx, dot) = a;
    let (other, at) = b;
    pidx.0 == other.0 && dot.0 == at.0
}

/// Returns how many open productions both spines begin with, at most so many, and never the last of either.
fn shared_len(
    first: &[(PIdx<u32>, SIdx<u32>)],
    second: &[(PIdx<u32>, SIdx<u32>)],
    limit: usize,
) -> usize
    ensures { take result first.now ≡ take result second.now }
{
    let shorter = first.len().min(second.len());
    let most = shorter.saturating_sub(1).min(limit);
    'items: for index in 0..most {
        if !same_item(first[index], second[index]) {
            return index;
        }
    }
    most
}

/// Returns how many of the symbols behind the innermost production the token comes from: those that steps replace, and
/// the one that is the token then, if none of a step is.
fn taken_len(grm: &Grammar, steps: &[PIdx<u32>]) -> usize {
    let mut taken: usize = 0;
    let mut made: usize = 0;
    'steps: for index in 0..steps.len() {
        if made == 0 {
            taken = taken.saturating_add(1);
        }
        made = made
            .saturating_sub(1)
            .saturating_add(body_len(grm, steps[index]));
    }
    if made == 0 {
        taken.saturating_add(1)
    } else {
        taken
    }
}

/// Returns the index of the open production that the token of a reduction comes from; nought where the text ends there.
fn token_index(grm: &Grammar, action: &ActionExample<u32>) -> usize {
    let taken = taken_len(grm, action.steps.as_slice());
    let outer = action.spine.len().saturating_sub(1);
    let mut behind: usize = 0;
    'items: for back in 0..outer {
        let index = outer - 1 - back;
        let item = action.spine[index];
        behind = behind.saturating_add(symbols_behind(grm, item).len());
        if behind >= taken {
            return index;
        }
    }
    0
}

/// Returns how many open productions aren't needed to see that an action is right.
fn spare_len(grm: &Grammar, action: &ActionExample<u32>) -> usize {
    match action.spine.as_slice().last() {
        Some((pidx, dot)) if dot.0.to_usize() < body_len(grm, *pidx) => action.spine.len(),
        _ => token_index(grm, action),
    }
}

/// Returns how many open productions an example doesn't need: what both spines begin with, before those that give the token.
/// The start production is never needed, since nothing stands behind its rule.
fn cut_of(grm: &Grammar, example: &ConflictExample<u32>) -> usize
    ensures { take result example.now.first.spine.items ≡ take result example.now.second.spine.items }
{
    let spare = spare_len(grm, &example.first).min(spare_len(grm, &example.second));
    shared_len(
        example.first.spine.as_slice(),
        example.second.spine.as_slice(),
        spare.max(1),
    )
}

/// Returns how many symbols stand before the dots of the first open productions.
fn symbols_len(spine: &[(PIdx<u32>, SIdx<u32>)], count: usize) -> usize {
    let mut length: usize = 0;
    'items: for index in 0..count.min(spine.len()) {
        let (_, dot) = spine[index];
        length = length.saturating_add(dot.0.to_usize());
    }
    length
}

/// Returns a copy of what is behind an index.
fn tail_of<T: Copy>(alloc: Global, all: &[T], from: usize) -> Result<Vec<T>, AllocError>
    ensures { IfOk result (λ v. v.items ≡ drop from all.now) }
{
    match all.get(from..) {
        Some(tail) => Vec::from_slice(alloc, tail),
        None => Ok(Vec::new(alloc)),
    }
}

/// Returns an action without its first open productions.
fn action_from(
    alloc: Global,
    action: &ActionExample<u32>,
    cut: usize,
) -> Result<ActionExample<u32>, AllocError>
    ensures spine { IfOk result (λ a. a.spine.items ≡ drop cut action.now.spine.items) }
    ensures steps { IfOk result (λ a. a.steps.items ≡ action.now.steps.items) }
{
    let spine = tail_of(alloc, action.spine.as_slice(), cut)?;
    let steps = tail_of(alloc, action.steps.as_slice(), 0)?;
    Ok(ActionExample { spine, steps })
}

/// Returns an example from the nearest rule on in which both actions are open and the token comes from.
pub fn nearest(
    alloc: Global,
    grm: &Grammar,
    example: &ConflictExample<u32>,
) -> Result<ConflictExample<u32>, AllocError>
    ensures { IfOk result (IsEndOf example.now) }
{
    let cut = cut_of(grm, example);
    let passed = symbols_len(example.first.spine.as_slice(), cut);
    let symbols = tail_of(alloc, example.symbols.as_slice(), passed)?;
    let first = action_from(alloc, &example.first, cut)?;
    let second = action_from(alloc, &example.second, cut)?;
    Ok(ConflictExample {
        symbols,
        token: example.token,
        first,
        second,
    })
}
