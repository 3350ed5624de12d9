//! Iterators from both ends.

use crate::common::{full, same, set_in, unset_in};
use std::iter::DoubleEndedIterator;
use std::test::Fail;
use vob::Vob;

#[test]
fn nine_bits_in_two_bytes(rt: HostRuntime) -> Result<(), Fail> {
    let nine = full(rt.alloc(), 9)?;
    let (ends, up_to_eight) = (last_two(&nine), nine.iter_set_bits(..=8).next_back());
    let (counts, hints, blocks) = (counts(&nine), hints(&nine), blocks(&nine));
    drop(nine);
    same(&rt, "ends", ends, [Some(8), Some(7), None, None]);
    same(&rt, "up to 8", up_to_eight, Some(8));
    same(&rt, "counts", counts, [0, 9, 0, 2]);
    same(&rt, "hints", hints, [(0, None), (9, Some(9))]);
    same(&rt, "blocks", blocks, [Some(0xff), Some(0x01), None]);
    Ok(())
}

/// Walks over the last two items from both ends, and past these.
fn last_two(nine: &Vob<u8>) -> [Option<usize>; 4] {
    let mut walk = nine.iter_set_bits(7..20);
    [walk.next_back(), walk.next(), walk.next(), walk.next_back()]
}

/// Counts the items that are set in no range and in all, those that are unset, and the blocks.
fn counts(nine: &Vob<u8>) -> [usize; 4] {
    let in_none = nine.iter_set_bits(5..2).count();
    let blocks = nine.iter_storage().count();
    [in_none, set_in(nine), unset_in(nine), blocks]
}

/// Returns what iterators say of how much is left: those of indices say nothing.
fn hints(nine: &Vob<u8>) -> [(usize, Option<usize>); 2] {
    [nine.iter_set_bits(..).size_hint(), nine.iter().size_hint()]
}

fn blocks(nine: &Vob<u8>) -> [Option<u8>; 3] {
    let mut blocks = nine.iter_storage();
    [blocks.next(), blocks.next(), blocks.next()]
}
