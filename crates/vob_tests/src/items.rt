//! Lists as they are made, the room for them, and their items.

use crate::common::{Items, holds, list_of, same, set_in, view_of};
use std::alloc::{AllocError, Global};
use std::iter::DoubleEndedIterator;
use std::test::Fail;
use vob::error::VobError;
use vob::{Vob, vob};

/// Returns the indices that are set, and those that are not, each to the end.
fn walks(three: &Vob) -> ([Option<usize>; 3], [Option<usize>; 2]) {
    let (mut set, mut unset) = (three.iter_set_bits(..), three.iter_unset_bits(..));
    let found = [set.next(), set.next(), set.next()];
    (found, [unset.next(), unset.next()])
}

#[test]
fn one_item_is_set(rt: HostRuntime) -> Result<(), Fail> {
    let mut three = vob!(rt.alloc(); false, true, false)?;
    assert!(rt; three.len() == 3);
    same(&rt, "changed", three.set(2, true), true);
    let wanted = ([Some(1), Some(2), None], [Some(0), None]);
    same(&rt, "walks", walks(&three), wanted);
    Ok(())
}

// Whether a list is empty, its capacity, its first and last item, and the number of its blocks.
type Made = (bool, usize, Option<bool>, Option<bool>, usize);

fn facts(list: &mut Vob) -> Made {
    let (first, last) = (list.get(0), list.pop());
    let blocks = list.get_storage().len();
    (list.is_empty(), list.capacity(), first, last, blocks)
}

#[test]
fn a_new_list_is_empty(rt: HostRuntime) -> Result<(), Fail> {
    let mut list = Vob::new(rt.alloc());
    same(&rt, "new", facts(&mut list), (true, 0, None, None, 0));
    list.push(true)?;
    same(&rt, "one", view_of(&list), (1, 1, Some(1), Some(1)));
    Ok(())
}

// The room that is asked for, and that there is.
#[test]
fn room_is_made_at_once(rt: HostRuntime) -> Result<(), Fail> {
    for (asked, room) in [(0, 0), (65, 128)] {
        let mut list = Vob::with_capacity(rt.alloc(), asked)?;
        same(&rt, "empty", facts(&mut list), (true, room, None, None, 0));
        list.resize(room, true)?;
        let found = (list.capacity(), set_in(&list));
        same(&rt, "room of all", found, (room, room));
    }
    Ok(())
}

/// Returns whether the items of a list are those of the sevenths, read unchecked.
fn are_sevenths(list: &Vob<u8>) -> bool {
    'each: for index in 0..list.len() {
        if list.get_unchecked(index) != (index % 7 == 0) {
            return false;
        }
    }
    true
}

#[test]
fn items_are_read_unchecked(rt: HostRuntime) -> Result<(), VobError> {
    let list: Vob<u8> = list_of(rt.alloc(), Items::Sevenths, 0, 150)?;
    let found = (list.len(), are_sevenths(&list));
    same(&rt, "150 items", found, (150, true));
    Ok(())
}

// Each of these takes no memory, so it must pass even where each allocation fails.
#[test]
fn lists_without_items_take_no_memory(rt: HostRuntime) -> Result<(), AllocError> {
    let none: Vob = Vob::from_elem(rt.alloc(), true, 0)?;
    let found = copies(&none);
    drop(none);
    same(&rt, "copies", found?, (true, 0));
    same(&rt, "made", made_without_items(rt.alloc())?, true);
    Ok(())
}

/// Returns whether a copy of a list is equal to it, and the length of its record.
fn copies(none: &Vob) -> Result<(bool, usize), AllocError> {
    let is_equal = *none == none.clone()?;
    Ok((is_equal, none.to_record()?.len))
}

/// Returns whether two lists without items are equal.
fn made_without_items(alloc: Global) -> Result<bool, AllocError> {
    let made: Vob<u8> = Vob::new_with_storage_type(alloc, 0)?;
    Ok(made == Vob::from_elem_with_storage_type(alloc, true, 0)?)
}

#[test]
fn lists_are_compared_and_copied(rt: HostRuntime) -> Result<(), Fail> {
    let mut list = vob!(rt.alloc(); true, false, true, false)?;
    list.negate();
    same(&rt, "negated", view_of(&list), (4, 2, Some(10), Some(10)));
    list.set_all(true);
    let found = comparisons(&list, rt.alloc());
    same(&rt, "set", view_of(&list), (4, 4, Some(15), Some(15)));
    same(&rt, "compared", found?, [true, true, true]);
    assert!(rt; list.len() == 4);
    assert!(rt; list[3]);
    Ok(())
}

/// Returns whether a list is four items that are set, is no other list, and is its copy.
fn comparisons(list: &Vob, alloc: Global) -> Result<[bool; 3], VobError> {
    let four = *list == vob!(alloc; true; 4)?;
    let other = *list != vob!(alloc; true, false, true, false)?;
    Ok([four, other, list.clone()? == *list])
}

/// Returns the last two items, the first one, and how many are between.
fn ends(list: &Vob) -> ([Option<bool>; 3], usize) {
    let mut walk = list.iter();
    let found = [walk.next_back(), walk.next_back(), walk.next()];
    (found, walk.count())
}

#[test]
fn items_come_from_both_ends(rt: HostRuntime) -> Result<(), VobError> {
    let list: Vob = list_of(rt.alloc(), Items::Mixed, 0, 70)?;
    let found = (ends(&list), holds(&list, Items::Mixed, 0, 70));
    let wanted = [Some(true), Some(false), Some(true)];
    same(&rt, "ends", found, ((wanted, 67), true));
    Ok(())
}
