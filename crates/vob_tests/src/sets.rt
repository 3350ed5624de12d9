//! Lists as sets: joined, cut and compared.

use crate::common::{Items, list_of, same, set_in, unset_in};
use std::alloc::Global;
use std::iter::DoubleEndedIterator;
use std::process::Abort;
use std::test::Fail;
use vob::error::VobError;
use vob::{Block, Vob, Word};

/// What a list is changed by.
#[derive(Clone, Copy)]
enum Step {
    Or,
    And,
    Xor,
    Negate,
}

/// Changes a list, and returns whether it was changed; `None` where the other has another length.
fn change<T: Word>(list: &mut Vob<T>, other: &Vob<T>, step: Step) -> Option<bool> {
    if list.len() != other.len() {
        return None;
    }
    match step {
        Step::Or => Some(list.or(other)),
        Step::And => Some(list.and(other)),
        Step::Xor => Some(list.xor(other)),
        Step::Negate => {
            list.negate();
            Some(true)
        }
    }
}

// Whether a step changes a list, how many items are set and unset then, and whether it is the other list.
type Stepped = (Option<bool>, usize, usize, bool);

fn step_counts<T: Word>(list: &mut Vob<T>, other: &Vob<T>, step: Step) -> Stepped {
    let is_changed = change(list, other, step);
    (is_changed, set_in(list), unset_in(list), *list == *other)
}

// The last items of 200, and how many of all are set, and how many from 100 to 150 are set and unset.
type Counted = ([Option<bool>; 3], usize, usize, usize);

fn counts_of<T: Word>(list: &Vob<T>) -> Counted {
    let ends = [list.get(198), list.get(199), list.get(200)];
    let set = list.iter_set_bits(100..150).count();
    let unset = list.iter_unset_bits(100..150).count();
    (ends, set_in(list), set, unset)
}

// The first and the last item that is set from 100 to 150, and how many are between.
type Walked = (Option<usize>, Option<usize>, usize);

fn walk_of<T: Word>(list: &Vob<T>) -> Walked {
    let mut walk = list.iter_set_bits(100..150);
    let first = walk.next();
    let last = walk.next_back();
    (first, last, walk.count())
}

// 200 items, of which each third and each second is set: 67 of them, 100, and 34 that both are.
fn as_sets<T: Word>(alloc: Global) -> Result<(Counted, Walked, [Stepped; 5]), VobError> {
    let mut list: Vob<T> = list_of(alloc, Items::Thirds, 0, 200)?;
    let seconds: Vob<T> = list_of(alloc, Items::Seconds, 0, 200)?;
    let of_thirds = (counts_of(&list), walk_of(&list));
    let steps = [
        step_counts(&mut list, &seconds, Step::Or),
        step_counts(&mut list, &seconds, Step::Or),
        step_counts(&mut list, &seconds, Step::And),
        step_counts(&mut list, &seconds, Step::Xor),
        step_counts(&mut list, &seconds, Step::Negate),
    ];
    Ok((of_thirds.0, of_thirds.1, steps))
}

const COUNTED: Counted = ([Some(true), Some(false), None], 67, 16, 34);

const WALKED: Walked = (Some(102), Some(147), 14);

const STEPS: [Stepped; 5] = [
    (Some(true), 133, 67, false),
    (Some(false), 133, 67, false),
    (Some(true), 100, 100, true),
    (Some(true), 0, 200, false),
    (Some(true), 200, 0, false),
];

// Two lists of one length, whether they meet, and whether the first holds the second.
const PAIRS: &[(&[bool], &[bool], bool, bool)] = &[
    (&[], &[], false, true),
    (&[false], &[false], false, true),
    (&[true], &[false], false, true),
    (&[false], &[true], false, false),
    (&[true], &[true], true, true),
    (&[true, false, true], &[false, true, false], false, false),
    (&[true, true, false], &[false, true, false], true, true),
    (&[true, false, true], &[true, true, false], true, false),
];

#[test]
fn pairs_are_compared(rt: HostRuntime) -> Result<(), Fail> {
    for (left, right, meet, hold) in PAIRS {
        let list = Vob::from_slice(rt.alloc(), left)?;
        let other = Vob::from_slice(rt.alloc(), right)?;
        let wanted = Some((*meet, *meet, *hold));
        same(&rt, "pair", comparison(&list, &other), wanted);
    }
    Ok(())
}

// Whether two lists meet, asked both ways, and whether the first holds the second; `None` where their lengths differ.
type Compared = Option<(bool, bool, bool)>;

fn comparison<T: Word>(list: &Vob<T>, other: &Vob<T>) -> Compared {
    if list.len() != other.len() {
        return None;
    }
    Some((list.meets(other), other.meets(list), list.holds(other)))
}

fn set_at<T: Word>(list: &mut Vob<T>, index: usize) {
    if index < list.len() {
        list.set(index, true);
    }
}

/// Compares a list with another that is negated, emptied, and given two items one after the other.
fn compared_in_turn<T: Word>(others: &mut Vob<T>, seconds: &Vob<T>) -> [Compared; 4] {
    others.negate();
    let negated = comparison(others, seconds);
    others.set_all(false);
    let emptied = comparison(seconds, others);
    set_at(others, 198);
    let shared = comparison(seconds, others);
    set_at(others, 199);
    [negated, emptied, shared, comparison(seconds, others)]
}

// 200 items, of which the last one that is set in the other list is in the last block.
fn compared_to_the_end<T: Word>(
    alloc: Global,
) -> Result<(Compared, Compared, [Compared; 4]), VobError> {
    let seconds: Vob<T> = list_of(alloc, Items::Seconds, 0, 200)?;
    let sixths: Vob<T> = list_of(alloc, Items::Sixths, 0, 200)?;
    let mut others: Vob<T> = list_of(alloc, Items::Seconds, 0, 200)?;
    let found = (comparison(&seconds, &sixths), comparison(&sixths, &seconds));
    Ok((found.0, found.1, compared_in_turn(&mut others, &seconds)))
}

const IN_TURN: [Compared; 4] = [
    Some((false, false, false)),
    Some((false, false, true)),
    Some((true, true, true)),
    Some((true, true, false)),
];

const COMPARED: (Compared, Compared) = (Some((true, true, true)), Some((true, true, false)));

/// Ends the test unless lists of these words are the sets that they should be.
fn are_sets<T: Word>(rt: &impl Abort, alloc: Global) -> Result<(), VobError> {
    same(rt, "sets", as_sets::<T>(alloc)?, (COUNTED, WALKED, STEPS));
    let found = compared_to_the_end::<T>(alloc)?;
    same(rt, "compared", found, (COMPARED.0, COMPARED.1, IN_TURN));
    Ok(())
}

/// Does so for words that are blocks, as users name them.
fn blocks_are_sets<T: Block>(rt: &impl Abort, alloc: Global) -> Result<(), VobError> {
    are_sets::<T>(rt, alloc)
}

#[test]
fn blocks_of_each_type_make_a_set(rt: HostRuntime) -> Result<(), VobError> {
    let alloc = rt.alloc();
    blocks_are_sets::<u8>(&rt, alloc)?;
    blocks_are_sets::<u16>(&rt, alloc)?;
    blocks_are_sets::<u32>(&rt, alloc)?;
    blocks_are_sets::<u64>(&rt, alloc)?;
    blocks_are_sets::<u128>(&rt, alloc)?;
    blocks_are_sets::<usize>(&rt, alloc)
}
