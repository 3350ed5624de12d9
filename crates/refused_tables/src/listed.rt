//! Listed conflicts, ordered and taken together by their productions.

ghost use Rattle.std.specs.Prelude.{◌≡◌, ◌<◌, ◌≤◌, ◌++◌, ◌∷◌, ◌↔◌, [], All, Contains, IfOk, ℕ, OnOk, Some, drop, length, map, take};
ghost use Rattle.std.specs.List.Sorted.{IsStrictlyIncreasing};
ghost use Rattle.refused_tables.specs.Blocks.{AreBlocks, AreListed, all_listed, go_together, groups};

use cfg_base::symbol::{PIdx, TIdx};
use lrtable::{Conflicts, StIdx};
use std::alloc::{AllocError, Global};

/// A listed conflict: a reduction against a shift, or against another reduction.
#[derive(Clone, Copy, Debug, PartialEq, Eq, PartialOrd, Ord)]
pub struct Listed {
    /// The production that is reduced.
    pub pidx: PIdx<u32>,
    /// The other production of a pair.
    pub other: Option<PIdx<u32>>,
    /// The token ahead.
    pub token: TIdx<u32>,
    /// The state of both actions.
    pub state: StIdx<u32>,
}

/// Adds a listed conflict.
fn push_listed(
    listed: &mut Vec<Listed>,
    entry: (TIdx<u32>, PIdx<u32>, StIdx<u32>),
    other: Option<PIdx<u32>>,
) -> Result<(), AllocError>
    ensures { OnOk result (listed.new.items ≡ listed.old.items ++ record { pidx = entry.1; other = other; token = entry.0; state = entry.2 } ∷ []) }
{
    let (token, pidx, state) = entry;
    listed.push(Listed {
        pidx,
        other,
        token,
        state,
    })?;
    Ok(())
}

/// Returns the listed pairs of reductions, and then the shifts against reductions, both ordered by their productions, token and
/// state.
fn listed_of(alloc: Global, conflicts: &Conflicts<u32>) -> Result<Vec<Listed>, AllocError>
    ensures { IfOk result (λ v. AreListed ⟦<Listed as Ord>⟧.cmp (Some conflicts.now) v.items) }
{
    let (mut pairs, mut shifts) = (Vec::new(alloc), Vec::new(alloc));
    'pairs: for entry in conflicts.rr_conflicts().as_slice() {
        let (token, pidx, other, state) = *entry;
        push_listed(&mut pairs, (token, pidx, state), Some(other))?;
    }
    'shifts: for entry in conflicts.sr_conflicts().as_slice() {
        push_listed(&mut shifts, *entry, None)?;
    }
    pairs.sort()?;
    shifts.sort()?;
    pairs.extend_from_slice(shifts.as_slice())?;
    Ok(pairs)
}

/// Returns how many conflicts at the front are in one block: those of the productions of the first one, or that one.
fn block_len(listed: &[Listed], each: bool) -> usize
    ensures len { result ≤ length listed.now }
    ensures block { 0 < length listed.now → groups (go_together each) listed.now ≡ take result listed.now ∷ groups (go_together each) (drop result listed.now) }
    ensures some { 0 < length listed.now → 0 < result }
{
    let mut count: usize = 0;
    'entries: for entry in listed {
        let first = listed[0];
        if count > 0 && (each || entry.pidx != first.pidx || entry.other != first.other) {
            return count;
        }
        count = count.saturating_add(1);
    }
    count
}

/// Adds a block for each production or pair of productions, or for each conflict.
fn push_blocks(
    alloc: Global,
    blocks: &mut Vec<Vec<Listed>>,
    listed: &[Listed],
    each: bool,
) -> Result<(), AllocError>
    ensures { OnOk result (map (λ b. b.items) blocks.new.items ≡ map (λ b. b.items) blocks.old.items ++ groups (go_together each) listed.now) }
{
    let mut start: usize = 0;
    'blocks: while start < listed.len() {
        let (_, left) = listed.split_at(start);
        let (block, _) = left.split_at(block_len(left, each).min(left.len()));
        blocks.push(Vec::from_slice(alloc, block)?)?;
        start = start.saturating_add(block.len().max(1));
    }
    Ok(())
}

/// Returns the listed conflicts in blocks: one for each production or pair of productions, or for each conflict. Pairs of
/// reductions come first. Blocks are in the order of the productions, and conflicts in that of the tokens, then of the states.
pub fn blocks_of(
    alloc: Global,
    conflicts: &Conflicts<u32>,
    each: bool,
) -> Result<Vec<Vec<Listed>>, AllocError>
    ensures blocks { IfOk result (λ v. AreBlocks ⟦<Listed as Ord>⟧.cmp each (Some conflicts.now) (map (λ b. b.items) v.items)) }
    ensures listed { IfOk result (λ v. All (λ b. All (Contains (all_listed (Some conflicts.now))) b.items) v.items) }
{
    let listed = listed_of(alloc, conflicts)?;
    let mut blocks = Vec::new(alloc);
    push_blocks(alloc, &mut blocks, listed.as_slice(), each)?;
    Ok(blocks)
}

/// Returns the states that conflicts are in, in order.
pub fn states_of(alloc: Global, listed: &[Listed]) -> Result<Vec<StIdx<u32>>, AllocError>
    ensures each { IfOk result (λ v. (n : ℕ) → Contains (map (λ s. s.0) v.items) n ↔ Contains (map (λ e. e.state.0) listed.now) n) }
    ensures once { IfOk result (λ v. IsStrictlyIncreasing (map (λ s. s.0) v.items)) }
{
    let mut states = Vec::new(alloc);
    'entries: for entry in listed {
        states.push(entry.state)?;
    }
    states.sort()?;
    states.dedup();
    Ok(states)
}
