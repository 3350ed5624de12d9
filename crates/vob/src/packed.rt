//! Blocks as one list of bits.

ghost use Rattle.std.specs.Prelude.{◌≡◌, ◌<◌, ◌≤◌, ◌+◌, ◌-◌, ◌*◌, ◌↔◌, ℕ, Bool, true, false, not, List, ◌++◌, length, map, take, drop, replicate, slice_index_or, slice_set, IsTrue, IsOk, IfOk, OnOk, OnErr};
ghost use Rattle.std.specs.List.{flat_map};
ghost use Rattle.std.specs.Vec.{vec_capacity};
ghost use Rattle.vob.specs.Packed.{Packs, Spells, blocks_for};

use crate::word::Word;
use std::alloc::{AllocError, Global};

/// Returns how many blocks `len` items take.
pub(crate) fn blocks_for<T: Word>(len: usize) -> usize
    ensures { result ≡ blocks_for T.BITS len }
{
    let whole = len / T::BITS;
    if len % T::BITS == 0 { whole } else { whole + 1 }
}

/// Copies the blocks of `len` items. Those of no item take no memory.
pub(crate) fn copy_blocks<T: Word>(
    alloc: Global,
    blocks: &[T],
    len: usize,
) -> Result<Vec<T>, AllocError>
    requires { Packs T.BITS len (flat_map T.bits blocks.now) }
    ensures items { IfOk result (λ v. v.items ≡ blocks.now) }
    ensures empty { len ≡ 0 → IsOk result }
{
    let mut made = Vec::with_capacity(alloc, blocks.len())?;
    made.extend_from_slice(blocks).unwrap();
    Ok(made)
}

/// Reads the bit at `index`.
pub(crate) fn bit_at<T: Word>(blocks: &[T], index: usize) -> bool
    requires { index < length (flat_map T.bits blocks.now) }
    ensures { result ≡ slice_index_or (flat_map T.bits blocks.now) index false }
{
    let width = T::BITS;
    blocks[index / width].digit(index % width)
}

/// Writes the bit at `index`.
pub(crate) fn put_bit<T: Word>(blocks: &mut Vec<T>, index: usize, value: bool)
    requires { index < length (flat_map T.bits blocks.old.items) }
    ensures bits { flat_map T.bits blocks.new.items ≡ slice_set (flat_map T.bits blocks.old.items) index value }
    ensures capacity { vec_capacity blocks.new ≡ vec_capacity blocks.old }
{
    let width = T::BITS;
    let block = &mut blocks[index / width];
    *block = block.with_digit(index % width, value);
}

/// Gives the bits from the index `len` up to the end of its block one value.
pub(crate) fn fill_above<T: Word>(blocks: &mut Vec<T>, len: usize, value: bool)
    requires { blocks_for T.BITS len * T.BITS ≤ length (flat_map T.bits blocks.old.items) }
    ensures count { length blocks.new.items ≡ length blocks.old.items }
    ensures bits { flat_map T.bits blocks.new.items ≡ take len (flat_map T.bits blocks.old.items) ++ (replicate (blocks_for T.BITS len * T.BITS - len) value ++ drop (blocks_for T.BITS len * T.BITS) (flat_map T.bits blocks.old.items)) }
    ensures capacity { vec_capacity blocks.new ≡ vec_capacity blocks.old }
{
    let width = T::BITS;
    let used = len % width;
    if used == 0 {
        return;
    }
    let block = &mut blocks[len / width];
    *block = block.low_part(used).in_either(T::all(value).moved_up(used));
}

/// Drops the bits from the index `len` on.
pub(crate) fn cut<T: Word>(blocks: &mut Vec<T>, len: usize)
    requires { len ≤ length (flat_map T.bits blocks.old.items) }
    ensures bits { flat_map T.bits blocks.new.items ≡ take len (flat_map T.bits blocks.old.items) ++ replicate (blocks_for T.BITS len * T.BITS - len) false }
    ensures capacity { vec_capacity blocks.new ≡ vec_capacity blocks.old }
{
    blocks.truncate(blocks_for::<T>(len));
    fill_above(blocks, len, false);
}

/// Adds items that all are `value` up to `new_len`, and unused bits up to the end of a block.
pub(crate) fn widen<T: Word>(
    blocks: &mut Vec<T>,
    len: usize,
    new_len: usize,
    value: bool,
) -> Result<(), AllocError>
    requires packs { Packs T.BITS len (flat_map T.bits blocks.old.items) }
    requires more { len ≤ new_len }
    ensures ok { OnOk result (flat_map T.bits blocks.new.items ≡ (take len (flat_map T.bits blocks.old.items) ++ replicate (new_len - len) value) ++ replicate (blocks_for T.BITS new_len * T.BITS - new_len) false) }
    ensures err { OnErr result (blocks.new.items ≡ blocks.old.items) }
    ensures room { new_len ≤ vec_capacity blocks.old * T.BITS → IsOk result }
    ensures capacity { vec_capacity blocks.old ≤ vec_capacity blocks.new }
{
    blocks.resize(blocks_for::<T>(new_len), T::all(value))?;
    fill_above(blocks, len, value);
    fill_above(blocks, new_len, false);
    Ok(())
}

/// Makes room for one more item.
pub(crate) fn cover<T: Word>(blocks: &mut Vec<T>, len: usize) -> Result<(), AllocError>
    requires { Packs T.BITS len (flat_map T.bits blocks.old.items) }
    ensures ok { OnOk result (flat_map T.bits blocks.new.items ≡ take len (flat_map T.bits blocks.old.items) ++ replicate (blocks_for T.BITS (len + 1) * T.BITS - len) false) }
    ensures err { OnErr result (blocks.new.items ≡ blocks.old.items) }
    ensures full { OnErr result (vec_capacity blocks.old * T.BITS ≤ len) }
    ensures capacity { vec_capacity blocks.old ≤ vec_capacity blocks.new }
{
    if len % T::BITS == 0 {
        blocks.push(T::all(false))?;
    }
    Ok(())
}

/// Clears the unused bits of as many blocks as the length takes.
pub(crate) fn mask<T: Word>(blocks: &mut Vec<T>, len: usize)
    requires { length blocks.old.items ≡ blocks_for T.BITS len }
    ensures count { length blocks.new.items ≡ length blocks.old.items }
    ensures bits { flat_map T.bits blocks.new.items ≡ take len (flat_map T.bits blocks.old.items) ++ replicate (blocks_for T.BITS len * T.BITS - len) false }
{
    fill_above(blocks, len, false);
}

/// Returns whether the blocks spell `len` items, with no unused bit set.
pub(crate) fn spells<T: Word>(blocks: &[T], len: usize) -> bool
    ensures { IsTrue result ↔ Spells T.BITS len (length blocks.now) (flat_map T.bits blocks.now) }
{
    if blocks.len() != blocks_for::<T>(len) {
        return false;
    }
    let width = T::BITS;
    if len % width == 0 {
        return true;
    }
    let last = blocks[len / width];
    last.is_same(last.low_part(len % width))
}
