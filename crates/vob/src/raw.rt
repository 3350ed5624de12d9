//! Raw storage, which is checked before it is a list again.

ghost use Rattle.std.specs.Prelude.{◌≡◌, ◌<◌, ◌+◌, ◌-◌, ◌*◌, false, ◌++◌, length, take, replicate, IsOk, IfOk, IfErr};
ghost use Rattle.std.specs.List.{flat_map};
ghost use Rattle.vob.specs.Packed.{Spells, blocks_for};

use crate::block::Block;
use crate::word::Word;
use crate::{Vob, packed};
use std::alloc::AllocError;

/// A list taken apart: its length and its blocks, which need not go together.
#[derive(Drop)]
pub struct RawVob<T> {
    /// The number of bits.
    pub len: usize,
    /// The blocks; the first bit is the lowest one of the first block.
    pub blocks: Vec<T>,
}

/// A list of items as plain data: its length and its blocks.
#[derive(Debug, Drop)]
pub struct VobRecord {
    /// The number of bits.
    pub len: usize,
    /// The blocks; the first bit is the lowest one of the first block.
    pub vec: Vec<usize>,
}

impl<T: Word> Vob<T> {
    /// Takes the list apart.
    pub fn into_raw(self) -> RawVob<T>
        ensures len { result.len ≡ length self.bits }
        ensures count { length result.blocks.items ≡ blocks_for T.BITS (length self.bits) }
        ensures blocks { flat_map T.bits result.blocks.items ≡ self.bits ++ replicate (blocks_for T.BITS (length self.bits) * T.BITS - length self.bits) false }
    {
        let Vob { len, blocks } = self;
        RawVob { len, blocks }
    }
}

impl<T: Word> RawVob<T> {
    ghost use Rattle.std.specs.Borrow.{sem};
    ghost use Rattle.vob.specs.Lends.{lends_blocks};

    /// Lends the blocks, to be read and written. The length stays as it is, whatever is written.
    pub fn get_storage_mut(&mut self) -> &mut Vec<T>
        ensures* writes_back { sem 𝓛 (lends_blocks T.row self.entry result) }
        ensures value { result.now ≡ self.old.blocks }
    {
        &mut self.blocks
    }

    /// Sets how many items the blocks are to hold.
    pub fn set_len(&mut self, len: usize)
        ensures len { self.new.len ≡ len }
        ensures blocks { self.new.blocks ≡ self.old.blocks }
    {
        self.len = len;
    }

    /// Clears the unused bits of the last block.
    pub fn mask_last_block(&mut self)
        requires { length self.old.blocks.items ≡ blocks_for T.BITS self.old.len }
        ensures len { self.new.len ≡ self.old.len }
        ensures count { length self.new.blocks.items ≡ length self.old.blocks.items }
        ensures blocks { flat_map T.bits self.new.blocks.items ≡ take self.old.len (flat_map T.bits self.old.blocks.items) ++ replicate (blocks_for T.BITS self.old.len * T.BITS - self.old.len) false }
    {
        packed::mask(&mut self.blocks, self.len);
    }

    /// Makes a list again. Returns the parts unchanged where there are more or fewer blocks than the length
    /// takes, or an unused bit is set.
    pub fn into_vob(self) -> Result<Vob<T>, RawVob<T>>
        ensures ok { IfOk result (λ v. Spells T.BITS self.len (length self.blocks.items) (flat_map T.bits self.blocks.items) × (v.bits ≡ take self.len (flat_map T.bits self.blocks.items))) }
        ensures err { IfErr result (λ raw. (raw ≡ self) × (Spells T.BITS self.len (length self.blocks.items) (flat_map T.bits self.blocks.items) → ⊥)) }
    {
        if !packed::spells(self.blocks.as_slice(), self.len) {
            return Err(self);
        }
        let RawVob { len, blocks } = self;
        Ok(Vob { len, blocks })
    }
}

impl Vob<usize> {
    /// Copies the list into plain data. One without items takes no memory.
    pub fn to_record(&self) -> Result<VobRecord, AllocError>
        ensures len { IfOk result (λ r. r.len ≡ length self.now.bits) }
        ensures blocks { IfOk result (λ r. flat_map ⟦<usize as Block>⟧.bits r.vec.items ≡ self.now.bits ++ replicate (blocks_for 64 (length self.now.bits) * 64 - length self.now.bits) false) }
        ensures empty { length self.now.bits ≡ 0 → IsOk result }
    {
        let vec = packed::copy_blocks(*self.blocks.allocator(), self.blocks.as_slice(), self.len)?;
        Ok(VobRecord { len: self.len, vec })
    }

    /// Makes the list of a record. Returns the record unchanged where it has more or fewer blocks than its length
    /// takes, or an unused bit is set.
    pub fn from_record(stored: VobRecord) -> Result<Self, VobRecord>
        ensures ok { IfOk result (λ v. Spells 64 stored.len (length stored.vec.items) (flat_map ⟦<usize as Block>⟧.bits stored.vec.items) × (v.bits ≡ take stored.len (flat_map ⟦<usize as Block>⟧.bits stored.vec.items))) }
        ensures err { IfErr result (λ r. (r ≡ stored) × (Spells 64 stored.len (length stored.vec.items) (flat_map ⟦<usize as Block>⟧.bits stored.vec.items) → ⊥)) }
    {
        let VobRecord { len, vec } = stored;
        let raw = RawVob { len, blocks: vec };
        match raw.into_vob() {
            Ok(made) => Ok(made),
            Err(raw) => {
                let RawVob { len, blocks } = raw;
                Err(VobRecord { len, vec: blocks })
            }
        }
    }
}
