//! What was found, as the recoverer of a parser.

ghost use Rattle.std.specs.Prelude.{◌≡◌, ◌≤◌, [], ◌++◌, ◌∷◌, IfOk, OnOk};
ghost use Rattle.parse_trees.specs.Edits.{edit_of, edits_of, sequences_of};
ghost use Rattle.repair_search.specs.FewEdits.{AreFew, edits_in, errors_repaired, most_edits, steps_made, weight};

use crate::search::MOST;
use cfg_base::index::IndexStorage;
use lrpar::{Lexeme, Recoverer, RepairStep};
use state_table::StIdx;
use std::alloc::{AllocError, Global};

/// What was found at an error.
#[derive(Drop)]
pub(crate) struct Found<S> {
    /// The index of the lexeme.
    pub(crate) index: usize,
    pub(crate) sequences: Vec<Vec<RepairStep<S>>>,
}

/// Sequences of repairs for errors, by the indices of their lexemes. At any other error there are none.
#[derive(Drop)]
pub struct Repairs<S> {
    pub(crate) edits: usize,
    pub(crate) steps: usize,
    /// By ascending indices.
    pub(crate) found: Vec<Found<S>>,
}

impl<S: IndexStorage> Repairs<S> {
    /// Makes no repairs. Contracts say of them that they have at most so many edits.
    pub fn none(alloc: Global, edits: usize) -> Repairs<S>
        ensures { most_edits result ≡ edits }
    {
        Repairs {
            edits,
            steps: 0,
            found: Vec::new(alloc),
        }
    }

    /// Counts the errors with repairs.
    pub fn len(&self) -> usize
        ensures { result ≡ errors_repaired self.now }
    {
        self.found.len()
    }

    /// Returns how many actions were looked up in searches.
    pub fn steps(&self) -> usize
        ensures { result ≡ steps_made self.now }
    {
        self.steps
    }

    /// Returns how many errors are before a lexeme, by halving.
    fn count_before(&self, index: usize) -> usize {
        let mut low = 0;
        let mut high = self.found.len();
        'halves: while low < high {
            let middle = low + (high - low) / 2;
            if self.found[middle].index < index {
                low = middle + 1;
            } else {
                high = middle;
            }
        }
        low
    }

    /// Returns the sequences for the error at a lexeme.
    fn few_at(&self, alloc: Global, index: usize) -> Result<Vec<Vec<RepairStep<S>>>, AllocError>
        ensures { IfOk result (λ r. AreFew (most_edits self.now) (sequences_of S.number r.items)) }
    {
        let number = self.count_before(index);
        if number < self.found.len() && self.found[number].index == index {
            few_of(alloc, self.found[number].sequences.as_slice(), self.edits)
        } else {
            Ok(Vec::new(alloc))
        }
    }
}

impl<S: IndexStorage, L: Lexeme<S>> Recoverer<S, L> for Repairs<S> {
    ghost use Rattle.repair_search.specs.FewEdits.{AreFew, most_edits};

    ghost answers = { λ repairs state index lexeme offered. AreFew (most_edits repairs) offered };

    fn sequences(
        &self,
        alloc: Global,
        _stidx: StIdx<S>,
        laidx: usize,
        _lexeme: L,
    ) -> Result<Vec<Vec<RepairStep<S>>>, AllocError>
        ensures { IfOk result (λ r. AreFew (most_edits self.now) (sequences_of S.number r.items)) }
    {
        self.few_at(alloc, laidx)
    }
}

/// Returns 1 for a deletion or an insertion, 0 for a shift.
fn weight<S: IndexStorage>(step: RepairStep<S>) -> usize
    ensures value { result ≡ weight (edit_of S.number step) }
    ensures few { result ≤ 1 }
{
    match step {
        RepairStep::Insert(_) => 1,
        RepairStep::Delete => 1,
        RepairStep::Shift => 0,
    }
}

/// Counts the edits of a sequence.
fn edit_count<S: IndexStorage>(steps: &[RepairStep<S>]) -> usize
    ensures { result ≡ edits_in (edits_of S.number steps.now) }
{
    let mut count = 0;
    'steps: for step in steps {
        count += weight(*step);
    }
    count
}

/// Adds the copy of a sequence.
fn push_copy<S: IndexStorage>(
    alloc: Global,
    sequence: &[RepairStep<S>],
    all: &mut Vec<Vec<RepairStep<S>>>,
) -> Result<(), AllocError>
    ensures { OnOk result (sequences_of S.number all.new.items ≡ sequences_of S.number all.old.items ++ edits_of S.number sequence.now ∷ []) }
{
    let copy = Vec::from_slice(alloc, sequence)?;
    all.push(copy)?;
    Ok(())
}

/// Copies the sequences that have few edits, the first ones where there are more than may be passed on.
fn few_of<S: IndexStorage>(
    alloc: Global,
    sequences: &[Vec<RepairStep<S>>],
    edits: usize,
) -> Result<Vec<Vec<RepairStep<S>>>, AllocError>
    ensures { IfOk result (λ r. AreFew edits (sequences_of S.number r.items)) }
{
    let mut few = Vec::new(alloc);
    'sequences: for sequence in sequences {
        if few.len() < MOST && edit_count(sequence.as_slice()) <= edits {
            push_copy(alloc, sequence.as_slice(), &mut few)?;
        }
    }
    Ok(few)
}
