//! Joins lists of blocks, and reads blocks from the index of any bit.

ghost use Rattle.std.specs.Prelude.{◌≡◌, ◌<◌, ◌≤◌, ◌+◌, ◌-◌, ◌*◌, ◌/◌, ◌%◌, Bool, true, false, List, [], ◌++◌, length, take, drop, replicate, IfOk, IsOk, vec_len};
ghost use Rattle.std.specs.List.{flat_map};
ghost use Rattle.std.specs.Vec.{vec_capacity};
ghost use Rattle.vob.specs.Packed.{Packs, blocks_for};

use crate::packed;
use crate::word::Word;
use std::alloc::{AllocError, Global};

/// Makes a block of the bits from the index `by` of the block `at` on. What lies past the end is false.
fn block_from<T: Word>(blocks: &[T], at: usize, by: usize) -> T
    requires there { at < length blocks.now }
    requires below { by < T.BITS }
    ensures { T.bits result ≡ take T.BITS (drop (at * T.BITS + by) (flat_map T.bits blocks.now) ++ replicate by false) }
{
    let width = T::BITS;
    let low = blocks[at].moved_down(by);
    if by == 0 {
        return low;
    }
    if at + 1 == blocks.len() {
        return low;
    }
    low.in_either(blocks[at + 1].moved_up(width - by))
}

/// Adds `count` blocks of the bits that other blocks have from the index `from` on. What lies past their end is
/// false.
fn append<T: Word>(blocks: &mut Vec<T>, others: &[T], from: usize, count: usize)
    requires there { from / T.BITS + count ≤ length others.now }
    requires room { vec_len blocks.old + count ≤ vec_capacity blocks.old }
    ensures bits { flat_map T.bits blocks.new.items ≡ flat_map T.bits blocks.old.items ++ take (count * T.BITS) (drop from (flat_map T.bits others.now) ++ replicate (from % T.BITS) false) }
    ensures capacity { vec_capacity blocks.old ≤ vec_capacity blocks.new }
{
    let width = T::BITS;
    let first = from / width;
    let by = from % width;
    'each: for k in 0..count {
        blocks.push(block_from(others, first + k, by)).unwrap();
    }
}

/// Writes the low bits of a block where the last one has unused bits.
fn fill_last<T: Word>(blocks: &mut Vec<T>, len: usize, block: T)
    requires packs { Packs T.BITS len (flat_map T.bits blocks.old.items) }
    requires part { 0 < len % T.BITS }
    ensures bits { flat_map T.bits blocks.new.items ≡ take len (flat_map T.bits blocks.old.items) ++ take (T.BITS - len % T.BITS) (T.bits block) }
    ensures count { vec_len blocks.new ≡ vec_len blocks.old }
    ensures capacity { vec_capacity blocks.new ≡ vec_capacity blocks.old }
{
    let width = T::BITS;
    let last = &mut blocks[len / width];
    *last = last.in_either(block.moved_up(len % width));
}

/// Adds the items of other blocks behind the items of these, where there is room for them.
pub(crate) fn join<T: Word>(blocks: &mut Vec<T>, len: usize, others: &[T], count: usize)
    requires packs { Packs T.BITS len (flat_map T.bits blocks.old.items) }
    requires others { Packs T.BITS count (flat_map T.bits others.now) }
    requires room { len + count ≤ vec_capacity blocks.old * T.BITS }
    requires fits { len + count ≤ usize.MAX }
    ensures bits { flat_map T.bits blocks.new.items ≡ (take len (flat_map T.bits blocks.old.items) ++ take count (flat_map T.bits others.now)) ++ replicate (blocks_for T.BITS (len + count) * T.BITS - (len + count)) false }
    ensures capacity { vec_capacity blocks.old ≤ vec_capacity blocks.new }
{
    let width = T::BITS;
    let used = len % width;
    if used == 0 {
        blocks.extend_from_slice(others).unwrap();
        return;
    }
    if count == 0 {
        return;
    }
    fill_last(blocks, len, others[0]);
    let more = packed::blocks_for::<T>(len + count) - blocks.len();
    append(blocks, others, width - used, more);
}

/// Copies the items from the index `at` on into blocks of their own.
pub(crate) fn part<T: Word>(
    alloc: Global,
    blocks: &[T],
    at: usize,
    len: usize,
) -> Result<Vec<T>, AllocError>
    requires within { at ≤ len }
    requires packs { Packs T.BITS len (flat_map T.bits blocks.now) }
    ensures bits { IfOk result (λ v. flat_map T.bits v.items ≡ drop at (take len (flat_map T.bits blocks.now)) ++ replicate (blocks_for T.BITS (len - at) * T.BITS - (len - at)) false) }
    ensures at_end { at ≡ len → IsOk result }
{
    let count = packed::blocks_for::<T>(len - at);
    let mut made = Vec::with_capacity(alloc, count)?;
    append(&mut made, blocks, at, count);
    Ok(made)
}
