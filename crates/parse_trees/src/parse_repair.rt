//! Repairs: steps as they are passed, and as they are reported, with the lexemes that they delete or shift.

ghost use Rattle.std.specs.Prelude.{◌≡◌, ◌<◌, true, Some, length, slice_get, drop, map, IfOk};
ghost use Rattle.parse_trees.specs.Edits.{edit_of, edits_of, sequences_of};
ghost use Rattle.parse_trees.specs.RepairParts.{repair_eq};
ghost use Rattle.parse_trees.specs.Shown.{shown, shown_of, shown_lists, ShowsStep};

use crate::lexeme_list::LexemeList;
use cfg_base::index::IndexStorage;
use cfg_base::symbol::TIdx;
use std::alloc::{AllocError, Global};
use std::hash::Hash;

/// A step of a repair, as a recoverer returns it.
#[derive(Clone, Copy, Debug, PartialEq, Eq)]
pub enum RepairStep<S> {
    /// Inserts a lexeme of the token before the next one.
    Insert(TIdx<S>),
    /// Deletes the next lexeme.
    Delete,
    /// Shifts the next lexeme.
    Shift,
}

/// A step of a repair, as an error reports it, with the lexeme that it deletes or shifts.
#[derive(Clone, Copy, Debug, PartialEq, Eq, Hash)]
pub enum ParseRepair<L, S> {
    /// Inserts a lexeme of the token.
    Insert(TIdx<S>),
    /// Deletes the lexeme.
    Delete(L),
    /// Shifts the lexeme.
    Shift(L),
}

/// Proves that repairs are equal where they are of one kind and their tokens or lexemes are equal, that equal repairs
/// have equal hashes, and that a clone is the repair that was cloned, where that holds for clones of its parts.
pub fn repair_is_its_kind_and_part<L: Clone + Eq + Hash, S: Clone + Eq + Hash>()
    ensures equal { (a b : ParseRepair L S) → ⟦<ParseRepair<L, S> as PartialEq>⟧.eq a b ≡ repair_eq L.eq S.eq a b }
    ensures hash { (a b : ParseRepair L S) → repair_eq L.eq S.eq a b ≡ true →
        ⟦<ParseRepair<L, S> as Hash>⟧.hash_input a ≡ ⟦<ParseRepair<L, S> as Hash>⟧.hash_input b }
    ensures clone { ((x y : L) → L.is_clone x y → y ≡ x) → ((x y : S) → S.is_clone x y → y ≡ x) →
        (a b : ParseRepair L S) → ⟦<ParseRepair<L, S> as Clone>⟧.is_clone a b → b ≡ a }
{}

/// Returns the step at an index.
pub fn step_at<S: IndexStorage>(steps: &[RepairStep<S>], number: usize) -> RepairStep<S>
    requires { number < length steps.now }
    ensures { slice_get steps.now number ≡ Some result }
{
    steps[number]
}

/// Returns a step as it is reported where the lexeme at `index` is next, and the index of the lexeme that is next
/// after it. `None` where the step needs a lexeme and none is left.
fn show_step<S: IndexStorage, L: Copy, E: Copy>(
    lexemes: &LexemeList<'_, L, E>,
    index: usize,
    step: RepairStep<S>,
) -> Option<(ParseRepair<L, S>, usize)>
    ensures { ShowsStep S.number (edit_of S.number step) index lexemes.now result }
{
    let count = lexemes.len();
    match step {
        RepairStep::Insert(tidx) => Some((ParseRepair::Insert(tidx), index)),
        RepairStep::Delete => {
            if index >= count {
                return None;
            }
            Some((ParseRepair::Delete(lexemes.at(index)), index + 1))
        }
        RepairStep::Shift => {
            if index >= count {
                return None;
            }
            Some((ParseRepair::Shift(lexemes.at(index)), index + 1))
        }
    }
}

/// Returns a sequence as it is reported where the lexeme at `index` is next.
fn show_steps<S: IndexStorage, L: Copy, E: Copy>(
    alloc: Global,
    lexemes: &LexemeList<'_, L, E>,
    index: usize,
    steps: &[RepairStep<S>],
) -> Result<Vec<ParseRepair<L, S>>, AllocError>
    ensures { IfOk result (λ r. map (shown_of S.number) r.items ≡ shown (edits_of S.number steps.now) (drop index lexemes.now)) }
{
    let mut repairs = Vec::new(alloc);
    let mut at = index;
    'steps: for number in 0..steps.len() {
        let step = step_at(steps, number);
        let Some((repair, next)) = show_step(lexemes, at, step) else {
            return Ok(repairs);
        };
        repairs.push(repair)?;
        at = next;
    }
    Ok(repairs)
}

/// Returns each of these sequences as it is reported where the lexeme at `index` is next.
pub fn show_sequences<S: IndexStorage, L: Copy, E: Copy>(
    alloc: Global,
    lexemes: &LexemeList<'_, L, E>,
    index: usize,
    sequences: &[Vec<RepairStep<S>>],
) -> Result<Vec<Vec<ParseRepair<L, S>>>, AllocError>
    ensures { IfOk result (λ r. shown_lists S.number r.items ≡ map (λ es. shown es (drop index lexemes.now)) (sequences_of S.number sequences.now)) }
{
    let mut shown = Vec::new(alloc);
    'sequences: for steps in sequences {
        let repairs = show_steps(alloc, lexemes, index, steps.as_slice())?;
        shown.push(repairs)?;
    }
    Ok(shown)
}
