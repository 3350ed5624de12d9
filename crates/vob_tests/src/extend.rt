//! Lists joined and parted, and made of bytes and iterators.

use crate::common::{Items, Seen, holds, is_set, list_of, same, view_of};
use std::alloc::{AllocError, Global};
use std::process::Abort;
use std::test::Fail;
use vob::error::VobError;
use vob::{Vob, Word};

/// Joins two lists, and parts them again where they were joined; returns whether the whole and both parts are right.
fn join_and_part_again<T: Word>(
    alloc: Global,
    at: usize,
    to: usize,
) -> Result<[bool; 3], VobError> {
    let mut list = list_of::<T>(alloc, Items::Mixed, 0, at)?;
    let other = list_of::<T>(alloc, Items::Mixed, at, to)?;
    let mut whole = list_of::<T>(alloc, Items::Mixed, 0, to)?;
    let found = join_and_part(&mut list, &other, &mut whole, at, to);
    drop(list);
    drop(other);
    drop(whole);
    found
}

/// Joins two lists, and parts them again; compares them with a list of all items.
fn join_and_part<T: Word>(
    list: &mut Vob<T>,
    other: &Vob<T>,
    whole: &mut Vob<T>,
    at: usize,
    to: usize,
) -> Result<[bool; 3], VobError> {
    list.extend_from_vob(other)?;
    let is_joined = *list == *whole && holds(list, Items::Mixed, 0, to);
    let room = list.capacity();
    let part = parts(list, at)?;
    whole.truncate(at);
    let is_left = *list == *whole && holds(list, Items::Mixed, 0, at) && list.capacity() == room;
    let is_parted = part == *other && holds(&part, Items::Mixed, at, to);
    Ok([is_joined, is_left, is_parted])
}

fn parts<T: Word>(list: &mut Vob<T>, at: usize) -> Result<Vob<T>, AllocError> {
    let at = at.min(list.len());
    list.split_off(at)
}

/// Joins lists of each two lengths from the lowest to the highest, and those of one more pair: its first length and both together.
fn all_joined<T: Word>(
    rt: &impl Abort,
    alloc: Global,
    lengths: (usize, usize),
    one_more: (usize, usize),
) -> Result<(), VobError> {
    let (lowest, highest) = lengths;
    'at: for at in lowest..highest {
        'len: for len in lowest..highest {
            let found = join_and_part_again::<T>(alloc, at, at.saturating_add(len))?;
            same(rt, "joined", found, [true; 3]);
        }
    }
    let found = join_and_part_again::<T>(alloc, one_more.0, one_more.1)?;
    same(rt, "one more", found, [true; 3]);
    Ok(())
}

#[test]
fn lists_are_joined_at_each_index(rt: HostRuntime) -> Result<(), VobError> {
    let alloc = rt.alloc();
    all_joined::<u8>(&rt, alloc, (0, 18), (17, 99))?;
    all_joined::<u64>(&rt, alloc, (62, 67), (1, 200))?;
    all_joined::<u128>(&rt, alloc, (126, 131), (100, 400))?;
    all_joined::<usize>(&rt, alloc, (0, 3), (63, 64))?;
    all_joined::<usize>(&rt, alloc, (0, 0), (130, 320))
}

#[test]
fn a_list_is_parted_at_each_index(rt: HostRuntime) -> Result<(), VobError> {
    'at: for at in 0..36 {
        same(&rt, "parted", is_parted(rt.alloc(), at)?, (true, true));
    }
    Ok(())
}

/// Returns whether both parts of 35 items are right.
fn is_parted(alloc: Global, at: usize) -> Result<(bool, bool), VobError> {
    let mut list = list_of::<u16>(alloc, Items::Mixed, 0, 35)?;
    let part = parts(&mut list, at)?;
    let is_left = holds(&list, Items::Mixed, 0, at);
    Ok((is_left, holds(&part, Items::Mixed, at, 35)))
}

fn item(index: usize) -> bool {
    is_set(Items::Mixed, index)
}

#[test]
fn items_are_added_past_the_room(rt: HostRuntime) -> Result<(), VobError> {
    let mut list = list_of::<u8>(rt.alloc(), Items::Mixed, 0, 9)?;
    list.extend((9..50).map(item))?;
    same(&rt, "fifty", holds(&list, Items::Mixed, 0, 50), true);
    let list = Vob::from_iter(rt.alloc(), (0..70).map(item))?;
    same(&rt, "seventy", holds(&list, Items::Mixed, 0, 70), true);
    Ok(())
}

// Bytes, and the list that they make, each byte's most significant bit first.
const BYTES: &[(&[u8], Seen)] = &[
    (&[], (0, 0, None, None)),
    (&[0xa0], (8, 2, Some(0x05), Some(0x05))),
    (&[0xa0, 0x01], (16, 3, Some(0x8005), Some(0x8005))),
];

#[test]
fn a_byte_comes_from_its_top(rt: HostRuntime) -> Result<(), Fail> {
    for (bytes, wanted) in BYTES {
        let list = Vob::from_bytes(rt.alloc(), bytes)?;
        same(&rt, "bits", view_of(&list), *wanted);
    }
    Ok(())
}

#[test]
fn many_bytes_are_taken(rt: HostRuntime) -> Result<(), Fail> {
    let bytes = [0x81u8; 300];
    let list = Vob::from_bytes(rt.alloc(), bytes.as_slice())?;
    let items = [list.get(2_392), list.get(2_393), list.get(2_399)];
    let wanted = (2_400, 600, Some(0x8181818181818181), Some(0x81818181));
    same(&rt, "bits", view_of(&list), wanted);
    same(&rt, "items", items, [Some(true), Some(false), Some(true)]);
    Ok(())
}

#[test]
fn bits_are_printed(rt: HostRuntime) -> Result<(), Fail> {
    let list = Vob::from_bytes(rt.alloc(), &[0xa0])?;
    let text = format!(in rt.alloc(); "{list:?}")?;
    same(&rt, "text", text.as_str(), "Vob[10100000]");
    Ok(())
}
