//! The search at each error of a list.

ghost use Rattle.std.specs.Prelude.{◌≡◌, ◌+◌, ◌<◌, ◌≤◌, ◌^◌, IfOk, OnOk};
ghost use Rattle.repair_search.specs.FewEdits.{most_edits, steps_made};

use crate::repairs::{Found, Repairs};
use crate::search::{Place, Task, search, token_at};
use crate::stacks::{Stacks, Turn};
use cfg_base::index::IndexStorage;
use cfg_base::symbol::TIdx;
use lrpar::{ParserData, RepairStep};
use std::alloc::{AllocError, Global};

/// How far a search goes.
#[derive(Clone, Copy, Debug, PartialEq, Eq)]
pub struct Limits {
    /// How many lexemes a sequence deletes and inserts at most.
    pub edits: usize,
    /// How many actions are looked up at most in all searches of a list. Each search takes at most an eighth of those that are
    /// left, or one.
    pub steps: usize,
}

/// Where the search in a list is.
#[derive(Drop)]
struct Finder<'a, S: IndexStorage> {
    stacks: Stacks<'a, S>,
    place: Place,
    /// How many actions searches may look up from here on.
    left: usize,
    /// How many they have looked up.
    used: usize,
    found: Vec<Found<S>>,
}

/// Returns the place behind a step.
fn behind<S: IndexStorage>(
    stacks: &mut Stacks<'_, S>,
    task: &Task<'_, S>,
    place: Place,
    step: RepairStep<S>,
) -> Result<Place, AllocError>
    ensures { OnOk result (stacks.new.left ≤ stacks.old.left) }
{
    let (token, index) = match step {
        RepairStep::Insert(token) => (token, place.index),
        RepairStep::Shift => (token_at(task, place.index), place.index.saturating_add(1)),
        RepairStep::Delete => {
            return Ok(Place {
                top: place.top,
                index: place.index.saturating_add(1),
            });
        }
    };
    match stacks.advance(place.top, token)? {
        Turn::Shifted(top) => Ok(Place { top, index }),
        Turn::Accepted => Ok(place),
        Turn::Stuck(top) => Ok(Place {
            top,
            index: place.index,
        }),
    }
}

/// Returns the place behind a sequence.
fn behind_all<S: IndexStorage>(
    stacks: &mut Stacks<'_, S>,
    task: &Task<'_, S>,
    from: Place,
    steps: &[RepairStep<S>],
) -> Result<Place, AllocError>
    ensures { OnOk result (stacks.new.left ≤ stacks.old.left) }
{
    let mut place = from;
    'steps: for step in steps {
        place = behind(stacks, task, place, *step)?;
    }
    Ok(place)
}

/// Searches at a place for at most so many look-ups, and returns the sequences and how many were made. The stack of the place is
/// left.
fn search_within<S: IndexStorage>(
    alloc: Global,
    stacks: &mut Stacks<'_, S>,
    task: &Task<'_, S>,
    place: Place,
    share: usize,
) -> Result<(Vec<Vec<RepairStep<S>>>, usize), AllocError>
    ensures used { IfOk result (λ r. r.1 ≤ share) }
    ensures left { OnOk result (stacks.new.left ≡ stacks.old.left) }
{
    let before = stacks.left;
    stacks.left = share;
    stacks.alone = false;
    let sequences = search(alloc, stacks, task, place)?;
    let used = share - stacks.left;
    stacks.truncate(place.top);
    stacks.alone = true;
    stacks.left = before;
    Ok((sequences, used))
}

impl<'a, S: IndexStorage> Finder<'a, S> {
    /// Searches at an error, and goes behind the first sequence. Returns whether there is one.
    fn repair(&mut self, alloc: Global, task: &Task<'_, S>) -> Result<bool, AllocError>
        requires { self.old.used + self.old.left < 2 ^ 64 }
        ensures steps { OnOk result (self.new.used + self.new.left ≡ self.old.used + self.old.left) }
        ensures left { OnOk result (self.new.stacks.left ≤ self.old.stacks.left) }
    {
        let share = self.left - self.left / 8 * 7;
        let index = self.place.index;
        let (sequences, used) = search_within(alloc, &mut self.stacks, task, self.place, share)?;
        self.left -= used;
        self.used += used;
        let Some(first) = sequences.first() else {
            return Ok(false);
        };
        self.place = behind_all(&mut self.stacks, task, self.place, first.as_slice())?;
        self.found.push(Found { index, sequences })?;
        Ok(true)
    }

    /// Goes through a list.
    fn find(&mut self, alloc: Global, task: &Task<'_, S>) -> Result<(), AllocError>
        requires { self.old.used + self.old.left < 2 ^ 64 }
        ensures { OnOk result (self.new.used + self.new.left ≡ self.old.used + self.old.left) }
    {
        'tokens: while self.stacks.left > 0 {
            let Place { top, index } = self.place;
            match self.stacks.advance(top, token_at(task, index))? {
                Turn::Shifted(top) => {
                    self.place = Place {
                        top,
                        index: index.saturating_add(1),
                    };
                }
                Turn::Accepted => return Ok(()),
                Turn::Stuck(top) => {
                    self.place = Place { top, index };
                    if !self.repair(alloc, task)? {
                        return Ok(());
                    }
                }
            }
        }
        Ok(())
    }
}

/// Searches for repairs at each error of a list of tokens, up to the first error without any.
pub fn find_repairs<S: IndexStorage>(
    alloc: Global,
    data: &ParserData<S>,
    tokens: &[TIdx<S>],
    limits: Limits,
) -> Result<Repairs<S>, AllocError>
    ensures edits { IfOk result (λ r. most_edits r ≡ limits.edits) }
    ensures steps { IfOk result (λ r. steps_made r ≤ limits.steps) }
{
    let stacks = Stacks::new(alloc, data)?;
    let mut finder = Finder {
        stacks,
        place: Place { top: 0, index: 0 },
        left: limits.steps,
        used: 0,
        found: Vec::new(alloc),
    };
    let (grm, edits) = (data.grm(), limits.edits);
    let task = Task { grm, tokens, edits };
    finder.find(alloc, &task)?;
    Ok(Repairs {
        edits: limits.edits,
        steps: finder.used,
        found: finder.found,
    })
}
