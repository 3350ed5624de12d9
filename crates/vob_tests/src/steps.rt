//! Lists of bytes, changed step by step. Each row of a table is a call, what it returns, and the list after it.

use crate::common::{same, set_in};
use std::alloc::{AllocError, Global};
use std::mem;
use std::process::Abort;
use vob::Vob;
use vob::error::VobError;

/// A call on the first of two lists, or a question about it.
#[derive(Clone, Copy)]
enum Step {
    Push(bool),
    Slice(&'static [bool]),
    /// Adds the second list.
    Join,
    Reserve(usize),
    Resize(usize, bool),
    /// Makes the items from this index on the second list.
    Part(usize),
    Swap,
    Pop,
    Set(usize, bool),
    SetUnchecked(usize, bool),
    Truncate(usize),
    Clear,
    Shrink,
    IsEmpty,
    IsRoom(usize),
    HasRoom(usize),
    HasSet(usize),
    /// Asks for the greatest room.
    IsTooLong,
}

type Row = (Step, Option<bool>, usize, &'static [u8]);

/// Changes a list by a call that may be refused memory, or takes another step.
fn take_step(
    list: &mut Vob<u8>,
    other: &mut Vob<u8>,
    step: Step,
) -> Result<Option<bool>, VobError> {
    match step {
        Step::Push(item) => list.push(item)?,
        Step::Slice(items) => list.extend_from_slice(items)?,
        Step::Join => list.extend_from_vob(other)?,
        Step::Reserve(additional) => list.reserve(additional)?,
        Step::Resize(len, value) => list.resize(len, value)?,
        Step::Part(at) => *other = parts(list, at)?,
        Step::Swap => mem::swap(list, other),
        _ => return Ok(change(list, step)),
    }
    Ok(None)
}

fn parts(list: &mut Vob<u8>, at: usize) -> Result<Vob<u8>, AllocError> {
    let at = at.min(list.len());
    list.split_off(at)
}

/// Takes a step that takes no memory.
fn change(list: &mut Vob<u8>, step: Step) -> Option<bool> {
    match step {
        Step::Pop => list.pop(),
        Step::Set(index, value) if index < list.len() => Some(list.set(index, value)),
        Step::SetUnchecked(index, value) if index < list.len() => {
            Some(list.set_unchecked(index, value))
        }
        Step::Truncate(len) => {
            list.truncate(len);
            None
        }
        Step::Clear => {
            list.clear();
            None
        }
        Step::Shrink => {
            list.shrink_to_fit();
            None
        }
        Step::IsTooLong => Some(matches!(list.reserve(usize::MAX), Err(VobError::TooLong))),
        _ => ask(list, step),
    }
}

fn ask(list: &Vob<u8>, step: Step) -> Option<bool> {
    match step {
        Step::IsEmpty => Some(list.is_empty()),
        Step::IsRoom(room) => Some(list.capacity() == room),
        Step::HasRoom(room) => Some(list.capacity() >= room),
        Step::HasSet(count) => Some(set_in(list) == count),
        _ => None,
    }
}

/// Returns whether the items are the bits of the blocks.
fn reads_its_blocks(list: &Vob<u8>) -> bool {
    'each: for index in 0..list.len() {
        let Some(block) = list.get_storage().get(index / 8) else {
            return false;
        };
        if list.get(index) != Some(*block >> (index % 8) & 1 == 1) {
            return false;
        }
    }
    list.get(list.len()).is_none()
}

/// Takes a step, once more where it is refused; the list then is as it was.
fn stepped_at_last(
    rt: &impl Abort,
    list: &mut Vob<u8>,
    other: &mut Vob<u8>,
    step: Step,
    before: (usize, &[u8]),
) -> Result<Option<bool>, VobError> {
    if let Ok(answer) = take_step(list, other, step) {
        return Ok(answer);
    }
    same(rt, "refused", (list.len(), list.get_storage()), before);
    take_step(list, other, step)
}

/// Takes the steps of rows, and compares what each returns and leaves.
fn all_steps(
    rt: &impl Abort,
    list: &mut Vob<u8>,
    other: &mut Vob<u8>,
    rows: &[Row],
) -> Result<(), VobError> {
    let mut before: (usize, &[u8]) = (0, &[]);
    'rows: for (number, (step, answer, len, blocks)) in rows.iter().enumerate() {
        let found = stepped_at_last(rt, list, other, *step, before)?;
        let left = (list.len(), list.get_storage(), reads_its_blocks(list));
        same(rt, "answer", (number, found), (number, *answer));
        same(rt, "list", (number, left), (number, (*len, *blocks, true)));
        before = (*len, *blocks);
    }
    Ok(())
}

/// Takes the steps of rows from an empty list with this room on.
fn from_room(rt: &impl Abort, alloc: Global, room: usize, rows: &[Row]) -> Result<(), VobError> {
    let mut list = Vob::new_with_storage_type(alloc, room)?;
    let mut other = Vob::new_with_storage_type(alloc, 0)?;
    let found = all_steps(rt, &mut list, &mut other, rows);
    drop(list);
    drop(other);
    found
}

// Of an empty list with room for nine items.
const GROWN: &[Row] = &[
    (Step::IsRoom(16), Some(true), 0, &[]),
    (Step::IsEmpty, Some(true), 0, &[]),
    (Step::Slice(&[true, false, true]), None, 3, &[0x05]),
    (Step::Push(true), None, 4, &[0x0d]),
    (Step::IsEmpty, Some(false), 4, &[0x0d]),
    (Step::Pop, Some(true), 3, &[0x05]),
    (Step::Resize(20, true), None, 20, &[0xfd, 0xff, 0x0f]),
    (Step::HasSet(19), Some(true), 20, &[0xfd, 0xff, 0x0f]),
    (Step::Resize(2, false), None, 2, &[0x01]),
    (Step::Truncate(1), None, 1, &[0x01]),
    (Step::Shrink, None, 1, &[0x01]),
    (Step::Clear, None, 0, &[]),
    (Step::IsEmpty, Some(true), 0, &[]),
    (Step::Pop, None, 0, &[]),
    (
        Step::Slice(&[true, false, true, true, false]),
        None,
        5,
        &[0x0d],
    ),
    (
        Step::Slice(&[false, true, false, true, true]),
        None,
        10,
        &[0x4d, 0x03],
    ),
];

// Of nine items that are not set.
const CHANGED: &[Row] = &[
    (Step::Resize(9, false), None, 9, &[0x00, 0x00]),
    (Step::Set(8, true), Some(true), 9, &[0x00, 0x01]),
    (Step::SetUnchecked(8, true), Some(false), 9, &[0x00, 0x01]),
    (Step::SetUnchecked(0, true), Some(true), 9, &[0x01, 0x01]),
    (Step::Push(true), None, 10, &[0x01, 0x03]),
    (Step::Resize(12, true), None, 12, &[0x01, 0x0f]),
    (Step::Pop, Some(true), 11, &[0x01, 0x07]),
    (Step::Truncate(9), None, 9, &[0x01, 0x01]),
    (Step::Resize(3, true), None, 3, &[0x01]),
    (Step::Shrink, None, 3, &[0x01]),
    (Step::Clear, None, 0, &[]),
    (Step::Pop, None, 0, &[]),
];

// Of a list with room for 900 items. Where the allocator refuses fewer blocks, the first call leaves the room as it is, and the
// second one gives it back.
const SHRUNK: &[Row] = &[
    (Step::HasRoom(900), Some(true), 0, &[]),
    (Step::Resize(9, true), None, 9, &[0xff, 0x01]),
    (Step::HasRoom(900), Some(true), 9, &[0xff, 0x01]),
    (Step::Shrink, None, 9, &[0xff, 0x01]),
    (Step::Shrink, None, 9, &[0xff, 0x01]),
    (Step::IsRoom(16), Some(true), 9, &[0xff, 0x01]),
];

// Calls that may be refused memory, on eight items that are set, without room for more.
const REFUSED: &[Row] = &[
    (Step::Resize(8, true), None, 8, &[0xff]),
    (Step::Shrink, None, 8, &[0xff]),
    (Step::Push(false), None, 9, &[0xff, 0x00]),
    (Step::Pop, Some(false), 8, &[0xff]),
    (Step::Shrink, None, 8, &[0xff]),
    (Step::Reserve(100), None, 8, &[0xff]),
    (Step::HasRoom(108), Some(true), 8, &[0xff]),
    (Step::Shrink, None, 8, &[0xff]),
    (Step::Resize(99, true), None, 99, &NINETY_NINE),
    (Step::HasSet(99), Some(true), 99, &NINETY_NINE),
];

const NINETY_NINE: [u8; 13] = [
    0xff, 0xff, 0xff, 0xff, 0xff, 0xff, 0xff, 0xff, 0xff, 0xff, 0xff, 0xff, 0x07,
];

// Eight items joined with eight more and with 90, and parted again.
const JOINED: &[Row] = &[
    (Step::Resize(90, true), None, 90, &NINETY),
    (Step::Swap, None, 0, &[]),
    (Step::Resize(8, true), None, 8, &[0xff]),
    (Step::Shrink, None, 8, &[0xff]),
    (Step::Slice(&[true; 8]), None, 16, &[0xff, 0xff]),
    (Step::Truncate(8), None, 8, &[0xff]),
    (Step::Shrink, None, 8, &[0xff]),
    (Step::Join, None, 98, &NINETY_EIGHT),
    (Step::Swap, None, 90, &NINETY),
    (Step::Swap, None, 98, &NINETY_EIGHT),
    (Step::Part(8), None, 8, &[0xff]),
    (Step::Swap, None, 90, &NINETY),
];

const NINETY: [u8; 12] = [
    0xff, 0xff, 0xff, 0xff, 0xff, 0xff, 0xff, 0xff, 0xff, 0xff, 0xff, 0x03,
];

const NINETY_EIGHT: [u8; 13] = [
    0xff, 0xff, 0xff, 0xff, 0xff, 0xff, 0xff, 0xff, 0xff, 0xff, 0xff, 0xff, 0x03,
];

// Nine items, parted and joined, and a length past the greatest.
const PARTED: &[Row] = &[
    (Step::Resize(9, true), None, 9, &[0xff, 0x01]),
    (Step::Part(8), None, 8, &[0xff]),
    (Step::Swap, None, 1, &[0x01]),
    (Step::Swap, None, 8, &[0xff]),
    (Step::Join, None, 9, &[0xff, 0x01]),
    (Step::IsTooLong, Some(true), 9, &[0xff, 0x01]),
    (Step::Reserve(100), None, 9, &[0xff, 0x01]),
    (Step::HasRoom(109), Some(true), 9, &[0xff, 0x01]),
];

#[test]
fn lists_grow_and_shrink(rt: HostRuntime) -> Result<(), VobError> {
    from_room(&rt, rt.alloc(), 9, GROWN)
}

#[test]
fn items_are_changed_one_by_one(rt: HostRuntime) -> Result<(), VobError> {
    from_room(&rt, rt.alloc(), 0, CHANGED)
}

#[test]
fn room_is_given_back(rt: HostRuntime) -> Result<(), VobError> {
    from_room(&rt, rt.alloc(), 900, SHRUNK)
}

// Shows more where the Nth allocation fails: `rt try --test --fail-alloc 1..`.
#[test]
fn a_refused_call_changes_nothing(rt: HostRuntime) -> Result<(), VobError> {
    from_room(&rt, rt.alloc(), 0, REFUSED)
}

#[test]
fn a_refused_join_changes_nothing(rt: HostRuntime) -> Result<(), VobError> {
    from_room(&rt, rt.alloc(), 0, JOINED)
}

#[test]
fn lists_are_parted_and_joined(rt: HostRuntime) -> Result<(), VobError> {
    from_room(&rt, rt.alloc(), 0, PARTED)
}
