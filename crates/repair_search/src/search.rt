//! The search at one error.

ghost use Rattle.std.specs.Prelude.{◌≤◌, ◌<◌, OnOk, IfOk};

use crate::stacks::{Stacks, Turn};
use cfg_base::index::IndexStorage;
use cfg_base::symbol::TIdx;
use cfg_numbered::yacc::NumberedGrammar;
use lrpar::RepairStep;
use std::alloc::{AllocError, Global};

/// How many lexemes have to be shifted behind a sequence.
const FURTHER: usize = 3;

/// How many sequences are kept at an error.
pub(crate) const MOST: usize = 8;

/// A stack, and the index of the next token.
#[derive(Clone, Copy)]
pub(crate) struct Place {
    /// The index of the top.
    pub(crate) top: usize,
    /// The index of the token.
    pub(crate) index: usize,
}

/// A grammar, the tokens of a list, and the greatest number of edits.
#[derive(Clone, Copy)]
pub(crate) struct Task<'a, S: IndexStorage> {
    pub(crate) grm: &'a NumberedGrammar<S>,
    pub(crate) tokens: &'a [TIdx<S>],
    pub(crate) edits: usize,
}

/// How a place was come to: from another candidate, by shifts and an edit behind them.
#[derive(Clone, Copy)]
struct Way {
    /// The index of the other candidate.
    parent: usize,
    /// The number of shifts.
    shifts: usize,
    /// The number of all edits since the error.
    edits: usize,
}

/// A place that edits lead to.
#[derive(Clone, Copy)]
struct Candidate<S> {
    place: Place,
    /// The last edit. At the place of the error it is a shift, which isn't read.
    last: RepairStep<S>,
    way: Way,
}

/// Returns the token at an index; the end token past the last one.
pub(crate) fn token_at<S: IndexStorage>(task: &Task<'_, S>, index: usize) -> TIdx<S> {
    match task.tokens.get(index) {
        Some(token) => *token,
        None => task.grm.eof_token_idx(),
    }
}

/// Shifts the next token, if it can be. Where the run accepts, the place stays.
fn shift<S: IndexStorage>(
    stacks: &mut Stacks<'_, S>,
    task: &Task<'_, S>,
    place: Place,
) -> Result<Option<Place>, AllocError>
    ensures at_most { OnOk result (stacks.new.left ≤ stacks.old.left) }
    ensures counts { OnOk result (0 < stacks.old.left → stacks.new.left < stacks.old.left) }
{
    match stacks.advance(place.top, token_at(task, place.index))? {
        Turn::Shifted(top) => Ok(Some(Place {
            top,
            index: place.index.saturating_add(1),
        })),
        Turn::Accepted => Ok(Some(place)),
        Turn::Stuck(_) => Ok(None),
    }
}

/// Returns whether enough lexemes are shifted from a place on, or the run accepts before.
fn serves<S: IndexStorage>(
    stacks: &mut Stacks<'_, S>,
    task: &Task<'_, S>,
    from: Place,
) -> Result<bool, AllocError>
    ensures at_most { OnOk result (stacks.new.left ≤ stacks.old.left) }
    ensures counts { OnOk result (0 < stacks.old.left → stacks.new.left < stacks.old.left) }
{
    let Some(first) = shift(stacks, task, from)? else {
        return Ok(false);
    };
    let Some(second) = shift(stacks, task, first)? else {
        return Ok(false);
    };
    let third = shift(stacks, task, second)?;
    Ok(third.is_some())
}

/// Adds the candidate that the deletion of the next token leads to.
fn push_deletion<S: IndexStorage>(
    task: &Task<'_, S>,
    place: Place,
    way: Way,
    candidates: &mut Vec<Candidate<S>>,
) -> Result<(), AllocError> {
    if place.index >= task.tokens.len() {
        return Ok(());
    }
    let place = Place {
        top: place.top,
        index: place.index.saturating_add(1),
    };
    candidates.push(Candidate {
        place,
        last: RepairStep::Delete,
        way,
    })?;
    Ok(())
}

/// Adds the candidate that the insertion of a token leads to, if it can be shifted.
fn push_insertion<S: IndexStorage>(
    stacks: &mut Stacks<'_, S>,
    place: Place,
    way: Way,
    token: TIdx<S>,
    candidates: &mut Vec<Candidate<S>>,
) -> Result<(), AllocError>
    ensures { OnOk result (stacks.new.left ≤ stacks.old.left) }
{
    if let Turn::Shifted(top) = stacks.advance(place.top, token)? {
        let index = place.index;
        candidates.push(Candidate {
            place: Place { top, index },
            last: RepairStep::Insert(token),
            way,
        })?;
    }
    Ok(())
}

/// Adds the candidates that insertions lead to, of tokens that `%avoid_insert` names or of all others.
fn push_insertions<S: IndexStorage>(
    stacks: &mut Stacks<'_, S>,
    task: &Task<'_, S>,
    avoided: bool,
    place: Place,
    way: Way,
    candidates: &mut Vec<Candidate<S>>,
) -> Result<(), AllocError>
    ensures { OnOk result (stacks.new.left ≤ stacks.old.left) }
{
    'tokens: for number in 0..task.grm.eof_token_idx().0.to_usize() {
        let token = task.grm.token_at(number);
        if task.grm.avoid_insert(token) == avoided {
            push_insertion(stacks, place, way, token, candidates)?;
        }
    }
    Ok(())
}

/// Adds the candidates that one edit at a place leads to.
fn push_edits<S: IndexStorage>(
    stacks: &mut Stacks<'_, S>,
    task: &Task<'_, S>,
    deletes: bool,
    place: Place,
    way: Way,
    candidates: &mut Vec<Candidate<S>>,
) -> Result<(), AllocError>
    ensures { OnOk result (stacks.new.left ≤ stacks.old.left) }
{
    if deletes {
        push_deletion(task, place, way, candidates)?;
    }
    push_insertions(stacks, task, false, place, way, candidates)?;
    push_insertions(stacks, task, true, place, way, candidates)
}

/// Returns whether a deletion at the place of a candidate may lead to what no other order of edits does.
fn may_delete<S>(candidate: &Candidate<S>) -> bool {
    match candidate.last {
        RepairStep::Insert(_) => false,
        RepairStep::Delete => true,
        RepairStep::Shift => true,
    }
}

/// Adds the candidates that one more edit leads to from a candidate, behind no shift, one or two.
fn push_next<S: IndexStorage>(
    stacks: &mut Stacks<'_, S>,
    task: &Task<'_, S>,
    parent: usize,
    from: Candidate<S>,
    candidates: &mut Vec<Candidate<S>>,
) -> Result<(), AllocError>
    ensures { OnOk result (stacks.new.left ≤ stacks.old.left) }
{
    let edits = from.way.edits.saturating_add(1);
    let mut place = from.place;
    'shifts: for shifts in 0..FURTHER {
        let way = Way {
            parent,
            shifts,
            edits,
        };
        let deletes = shifts > 0 || may_delete(&from);
        push_edits(stacks, task, deletes, place, way, candidates)?;
        match shift(stacks, task, place)? {
            Some(next) => place = next,
            None => return Ok(()),
        }
    }
    Ok(())
}

/// Returns the steps that lead to a candidate.
fn steps_to<S: IndexStorage>(
    alloc: Global,
    candidates: &[Candidate<S>],
    number: usize,
    edits: usize,
) -> Result<Vec<RepairStep<S>>, AllocError> {
    let mut steps = Vec::new(alloc);
    let mut at = number;
    'edits: for _edit in 0..edits {
        if let Some(candidate) = candidates.get(at) {
            steps.push(candidate.last)?;
            'shifts: for _shift in 0..candidate.way.shifts {
                steps.push(RepairStep::Shift)?;
            }
            at = candidate.way.parent;
        }
    }
    steps.reverse();
    Ok(steps)
}

/// Returns the sequences of the least number of edits that serve at a place where the next token is an error.
pub(crate) fn search<S: IndexStorage>(
    alloc: Global,
    stacks: &mut Stacks<'_, S>,
    task: &Task<'_, S>,
    place: Place,
) -> Result<Vec<Vec<RepairStep<S>>>, AllocError>
    ensures { OnOk result (stacks.new.left ≤ stacks.old.left) }
{
    let mut found = Vec::new(alloc);
    let mut candidates = Vec::new(alloc);
    let way = Way {
        parent: 0,
        shifts: 0,
        edits: 0,
    };
    candidates.push(Candidate {
        place,
        last: RepairStep::Shift,
        way,
    })?;
    let mut number = 0;
    let mut most = task.edits;
    'candidates: while stacks.left > 0 && found.len() < MOST {
        let Some(candidate) = candidates.get(number).copied() else {
            break;
        };
        let edits = candidate.way.edits;
        if edits > most {
            break;
        }
        if serves(stacks, task, candidate.place)? {
            most = edits;
            found.push(steps_to(alloc, candidates.as_slice(), number, edits)?)?;
        } else if edits < most {
            push_next(stacks, task, number, candidate, &mut candidates)?;
        }
        number = number.saturating_add(1);
    }
    Ok(found)
}
