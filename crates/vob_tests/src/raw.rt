//! Raw storage and records.

use crate::common::{full, same};
use std::alloc::{AllocError, Global};
use std::test::Fail;
use vob::error::VobError;
use vob::raw::{RawVob, VobRecord};
use vob::{Vob, vob};

fn write(raw: &mut RawVob<u8>, len: usize, blocks: &[u8]) -> Result<(), AllocError> {
    raw.blocks.clear();
    raw.set_len(len);
    'each: for block in blocks {
        raw.get_storage_mut().push(*block)?;
    }
    Ok(())
}

/// Writes a length and blocks over those of another list.
fn raw_of(alloc: Global, len: usize, blocks: &[u8]) -> Result<RawVob<u8>, AllocError> {
    let mut raw = full(alloc, 9)?.into_raw();
    write(&mut raw, len, blocks)?;
    Ok(raw)
}

/// Makes a list of raw storage, and returns whether it was taken, and whether the length and the blocks are these then.
fn outcome(raw: RawVob<u8>, len: usize, blocks: &[u8]) -> (bool, bool) {
    match raw.into_vob() {
        Ok(list) => (true, list.len() == len && list.get_storage() == blocks),
        Err(raw) => (false, raw.len == len && raw.blocks.as_slice() == blocks),
    }
}

// Lengths, blocks and whether they make a list. Unused bits and a block too many are refused.
const RAW: &[(usize, &[u8], bool)] = &[
    (9, &[0xff, 0x03], false),
    (9, &[0xff, 0x01], true),
    (8, &[0xff, 0x01], false),
    (20, &[0xff, 0x01, 0xff], false),
    (20, &[0xff, 0x01, 0x0a], true),
];

#[test]
fn raw_blocks_are_tested(rt: HostRuntime) -> Result<(), Fail> {
    for (len, blocks, is_taken) in RAW {
        let raw = raw_of(rt.alloc(), *len, blocks)?;
        let found = outcome(raw, *len, blocks);
        same(&rt, "taken and unchanged", found, (*is_taken, true));
    }
    Ok(())
}

#[test]
fn unused_bits_are_masked(rt: HostRuntime) -> Result<(), Fail> {
    let raw = full(rt.alloc(), 9)?.into_raw();
    let nine = [0xff, 0x01];
    same(&rt, "nine", outcome(raw, 9, nine.as_slice()), (true, true));
    let raw = mask_to_nine(raw_of(rt.alloc(), 9, [0xff, 0x03].as_slice())?);
    same(
        &rt,
        "masked",
        outcome(raw, 9, nine.as_slice()),
        (true, true),
    );
    Ok(())
}

fn mask_to_nine(mut raw: RawVob<u8>) -> RawVob<u8> {
    raw.set_len(9);
    if raw.blocks.len() == 2 {
        raw.mask_last_block();
    }
    raw
}

#[test]
fn records_are_tested(rt: HostRuntime) -> Result<(), VobError> {
    let record = record(rt.alloc())?;
    let found = (record.len, record.vec.as_slice());
    same(&rt, "record", found, (3, [5usize].as_slice()));
    same(&rt, "good", list_of(record), Some((3, Some(5))));
    let vec = vec![in rt.alloc(); 5usize]?;
    same(&rt, "bad", list_of(VobRecord { len: 2, vec }), None);
    Ok(())
}

fn record(alloc: Global) -> Result<VobRecord, VobError> {
    let list = vob!(alloc; true, false, true)?;
    Ok(list.to_record()?)
}

/// Returns the length and the first block of the list of a record, if it makes one.
fn list_of(record: VobRecord) -> Option<(usize, Option<usize>)> {
    match Vob::from_record(record) {
        Ok(list) => Some((list.len(), list.get_storage().first().copied())),
        Err(_refused) => None,
    }
}
