//! Operators, and the methods that do as they do.

ghost use Rattle.std.specs.Prelude.{◌≡◌, length};

use crate::common::{Items, holds, list_of, same, set_in};
use std::alloc::{AllocError, Global};
use std::process::Abort;
use vob::error::VobError;
use vob::{Vob, Word};

#[derive(Clone, Copy)]
enum Operator {
    And,
    Or,
    Xor,
}

/// How an operator is called.
#[derive(Clone, Copy)]
enum Way {
    Borrowed,
    Owned,
    Assigned,
    Method,
}

fn of_borrowed<T: Word>(
    operator: Operator,
    list: &Vob<T>,
    other: &Vob<T>,
) -> Result<Vob<T>, AllocError>
    requires { length list.now.bits ≡ length other.now.bits }
{
    match operator {
        Operator::And => list & other,
        Operator::Or => list | other,
        Operator::Xor => list ^ other,
    }
}

fn of_owned<T: Word>(operator: Operator, list: Vob<T>, other: &Vob<T>) -> Vob<T>
    requires { length list.bits ≡ length other.now.bits }
{
    match operator {
        Operator::And => list & other,
        Operator::Or => list | other,
        Operator::Xor => list ^ other,
    }
}

fn assign<T: Word>(operator: Operator, list: &mut Vob<T>, other: &Vob<T>)
    requires { length list.old.bits ≡ length other.now.bits }
{
    match operator {
        Operator::And => *list &= other,
        Operator::Or => *list |= other,
        Operator::Xor => *list ^= other,
    }
}

/// Returns whether the list was changed.
fn change<T: Word>(operator: Operator, list: &mut Vob<T>, other: &Vob<T>) -> bool
    requires { length list.old.bits ≡ length other.now.bits }
{
    match operator {
        Operator::And => list.and(other),
        Operator::Or => list.or(other),
        Operator::Xor => list.xor(other),
    }
}

fn by_way<T: Word>(
    operator: Operator,
    way: Way,
    mut list: Vob<T>,
    other: &Vob<T>,
) -> Result<Vob<T>, AllocError>
    requires { length list.bits ≡ length other.now.bits }
{
    match way {
        Way::Borrowed => of_borrowed(operator, &list, other),
        Way::Owned => Ok(of_owned(operator, list, other)),
        Way::Assigned => {
            assign(operator, &mut list, other);
            Ok(list)
        }
        Way::Method => {
            change(operator, &mut list, other);
            Ok(list)
        }
    }
}

fn items_of(operator: Operator) -> Items {
    match operator {
        Operator::And => Items::Sixths,
        Operator::Or => Items::SecondsOrThirds,
        Operator::Xor => Items::EitherAlone,
    }
}

// The list's seconds with another's thirds: how many items are set then, whether they are right, and whether the other is as before.
type Operated = (usize, bool, bool);

fn seconds_with_thirds<T: Word>(
    alloc: Global,
    operator: Operator,
    way: Way,
    len: usize,
) -> Result<Operated, VobError> {
    let thirds = list_of::<T>(alloc, Items::Thirds, 0, len)?;
    let list = list_of::<T>(alloc, Items::Seconds, 0, len)?;
    if list.len() != thirds.len() {
        return Ok((0, false, false));
    }
    let found = by_way(operator, way, list, &thirds)?;
    let is_right = holds(&found, items_of(operator), 0, len);
    let is_as_before = holds(&thirds, Items::Thirds, 0, len);
    Ok((set_in(&found), is_right, is_as_before))
}

const WAYS: &[Way] = &[Way::Borrowed, Way::Owned, Way::Assigned, Way::Method];

fn by_all_ways<T: Word>(
    rt: &impl Abort,
    alloc: Global,
    operator: Operator,
    len: usize,
    count: usize,
) -> Result<(), VobError> {
    for way in WAYS {
        let found = seconds_with_thirds::<T>(alloc, operator, *way, len)?;
        same(rt, "items", found, (count, true, true));
    }
    Ok(())
}

type Counts = &'static [(Operator, usize, usize)];

fn for_each_block(rt: &impl Abort, alloc: Global, counts: Counts) -> Result<(), VobError> {
    for (operator, len, count) in counts {
        by_all_ways::<u8>(rt, alloc, *operator, *len, *count)?;
        by_all_ways::<u16>(rt, alloc, *operator, *len, *count)?;
        by_all_ways::<u32>(rt, alloc, *operator, *len, *count)?;
        by_all_ways::<u64>(rt, alloc, *operator, *len, *count)?;
        by_all_ways::<u128>(rt, alloc, *operator, *len, *count)?;
        by_all_ways::<usize>(rt, alloc, *operator, *len, *count)?;
    }
    Ok(())
}

// How many items are set in lists of these lengths.
const COUNTS: Counts = &[
    (Operator::And, 4, 1),
    (Operator::Or, 4, 3),
    (Operator::Xor, 4, 2),
    (Operator::And, 150, 25),
    (Operator::Or, 150, 100),
    (Operator::Xor, 150, 75),
    (Operator::And, 3_000, 500),
    (Operator::Or, 3_000, 2_000),
    (Operator::Xor, 3_000, 1_500),
];

#[test]
fn operators_go_over_blocks(rt: HostRuntime) -> Result<(), VobError> {
    for_each_block(&rt, rt.alloc(), COUNTS)
}

const NONE: Counts = &[
    (Operator::And, 0, 0),
    (Operator::Or, 0, 0),
    (Operator::Xor, 0, 0),
];

// These take no memory, so they must pass even where each allocation fails.
#[test]
fn lists_without_items_are_combined(rt: HostRuntime) -> Result<(), VobError> {
    for_each_block(&rt, rt.alloc(), NONE)
}
