//! Bit vectors: lists of booleans that take one bit each.
//!
//! A `Vob` is used as a set of small numbers, above all where whole sets are joined and compared:
//!
//! ```rust
//! use std::alloc::{AllocError, Global};
//! use vob::Vob;
//!
//! /// Whether the numbers of a set were new to another one, and whether they are so once more.
//! fn joined(alloc: Global) -> Result<(bool, bool), AllocError> {
//!     let mut set = Vob::from_elem(alloc, false, 10)?;
//!     set.set(3, true);
//!     let mut other = Vob::from_elem(alloc, false, 10)?;
//!     other.set(7, true);
//!     Ok((set.or(&other), set.or(&other)))
//! }
//! ```
//!
//! It returns `(true, false)`: the first `or` brings 7 into the set, the second changes nothing. `or` requires that
//! both have one length, which follows here from `from_elem`.
//!
//! Contracts see the list `bits` of a `Vob`'s items and its `capacity`. The most used calls are `or`, `and` and
//! `xor`, which work item by item and return true if and only if the list changed, `meets` and `holds`, which compare
//! two sets, and `iter_set_bits` and `iter_unset_bits`, which yield the indices of a range, cut at the length, whose
//! item has one value.
#![tactic(auto)]

ghost use Rattle.std.specs.Prelude.{◌≡◌, ◌<◌, ◌≤◌, ◌+◌, ◌-◌, ◌*◌, ◌^◌, ◌==◌, ◌↔◌, false, [], ◌++◌, length, take, replicate, slice_index_or, slice_get, IsTrue, IsOk, IfOk};
ghost use Rattle.std.specs.List.{flat_map};
ghost use Rattle.vob.specs.Packed.{Contents, blocks_for};

pub mod block;
pub mod error;
mod extend;
mod find;
mod items;
pub mod iter;
pub mod laws;
mod packed;
pub mod raw;
mod sets;
mod shift;
mod traits;
pub mod word;

pub use crate::block::Block;
pub use crate::error::VobError;
pub use crate::iter::{Iter, IterSetBits, IterUnsetBits, StorageIter};
pub use crate::raw::{RawVob, VobRecord};
pub use crate::word::Word;
use std::alloc::{AllocError, Global};
use std::marker::Model;

/// A list of truth values in blocks of `T`.
#[derive(Drop)]
pub struct Vob<T: Word = usize> {
    len: usize,
    blocks: Vec<T>,
}

impl<T: Word> Model for Vob<T> {
    ghost use Rattle.std.specs.Prelude.{take, min, ◌*◌, ◌-◌, ◌^◌};
    ghost use Rattle.std.specs.List.{flat_map};
    ghost use Rattle.std.specs.Vec.{vec_capacity};
    ghost use Rattle.vob.specs.Packed.{Contents, Packs};

    ghost Value = { Contents };

    ghost view = { λ v. record {
      bits = take v.len (flat_map T.bits v.blocks.items);
      capacity = min (vec_capacity v.blocks * T.BITS) (2 ^ 64 - 1);
    } };

    ghost invariant = { λ v. Packs T.BITS v.len (flat_map T.bits v.blocks.items) };
}

impl Vob<usize> {
    /// Creates an empty `Vob` without room. It takes no memory.
    pub fn new(alloc: Global) -> Self
        ensures bits { result.bits ≡ [] }
        ensures capacity { result.capacity ≡ 0 }
    {
        Vob {
            len: 0,
            blocks: Vec::new(alloc),
        }
    }

    /// Creates an empty `Vob` with room for at least `capacity` items. Room for none takes no memory.
    pub fn with_capacity(alloc: Global, capacity: usize) -> Result<Self, AllocError>
        ensures bits { IfOk result (λ v. v.bits ≡ []) }
        ensures capacity { IfOk result (λ v. capacity ≤ v.capacity) }
        ensures empty { capacity ≡ 0 → IsOk result }
    {
        Vob::new_with_storage_type(alloc, capacity)
    }

    /// Creates a `Vob` of `len` items that all are `value`. For no item it takes no memory.
    pub fn from_elem(alloc: Global, value: bool, len: usize) -> Result<Self, AllocError>
        ensures bits { IfOk result (λ v. v.bits ≡ replicate len value) }
        ensures empty { len ≡ 0 → IsOk result }
    {
        Vob::from_elem_with_storage_type(alloc, value, len)
    }
}

impl<T: Word> Vob<T> {
    /// Creates an empty `Vob` with room for at least `capacity` items. Room for none takes no memory.
    pub fn new_with_storage_type(alloc: Global, capacity: usize) -> Result<Self, AllocError>
        ensures bits { IfOk result (λ v. v.bits ≡ []) }
        ensures capacity { IfOk result (λ v. capacity ≤ v.capacity) }
        ensures empty { capacity ≡ 0 → IsOk result }
    {
        let blocks = Vec::with_capacity(alloc, packed::blocks_for::<T>(capacity))?;
        Ok(Vob { len: 0, blocks })
    }

    /// Creates a `Vob` of `len` items that all are `value`. For no item it takes no memory.
    pub fn from_elem_with_storage_type(
        alloc: Global,
        value: bool,
        len: usize,
    ) -> Result<Self, AllocError>
        ensures bits { IfOk result (λ v. v.bits ≡ replicate len value) }
        ensures empty { len ≡ 0 → IsOk result }
    {
        let mut blocks = Vec::new(alloc);
        packed::widen(&mut blocks, 0, len, value)?;
        Ok(Vob { len, blocks })
    }

    /// Returns how many items there are.
    pub fn len(&self) -> usize
        ensures { result ≡ length self.now.bits }
    {
        self.len
    }

    /// Returns whether there is no item.
    pub fn is_empty(&self) -> bool
        ensures { IsTrue result ↔ (self.now.bits ≡ []) }
    {
        self.len == 0
    }

    /// Returns how many items there is room for: the blocks that there is room for, times their width, and at
    /// most `usize::MAX`.
    pub fn capacity(&self) -> usize
        ensures { result ≡ self.now.capacity }
    {
        self.blocks.capacity().saturating_mul(T::BITS)
    }

    /// Returns the item at `index`, or None past the end.
    pub fn get(&self, index: usize) -> Option<bool>
        ensures { result ≡ slice_get self.now.bits index }
    {
        if index >= self.len {
            return None;
        }
        Some(packed::bit_at(self.blocks.as_slice(), index))
    }

    /// Returns the item at `index`, which is below the length.
    pub fn get_unchecked(&self, index: usize) -> bool
        requires { index < length self.now.bits }
        ensures { result ≡ slice_index_or self.now.bits index false }
    {
        packed::bit_at(self.blocks.as_slice(), index)
    }

    /// Lends the blocks: bit j of the block k is the item `k * BITS + j`, and bits past the end are false.
    pub fn get_storage(&self) -> &[T]
        ensures { flat_map T.bits result.now ≡ self.now.bits ++ replicate (blocks_for T.BITS (length self.now.bits) * T.BITS - length self.now.bits) false }
    {
        self.blocks.as_slice()
    }
}

/// Makes a list of its items, as `vob!(alloc; true, false)?`, or of one item repeated, as `vob!(alloc; true; 9)?`.
#[macro_export]
macro_rules! vob {
    ($alloc:expr; $value:expr; $len:expr) => {
        $crate::Vob::from_elem($alloc, $value, $len)
    };
    ($alloc:expr; $($item:expr),* $(,)?) => {
        $crate::Vob::from_slice($alloc, &[$($item),*])
    };
}
