//! Changes items at an index or at the end, and the capacity.

ghost use Rattle.std.specs.Prelude.{◌≡◌, ◌<◌, ◌≤◌, ◌+◌, ◌-◌, ◌*◌, ◌^◌, ◌==◌, ◌↔◌, ℕ, Bool, true, false, not, List, [], ◌∷◌, ◌++◌, length, map, take, drop, replicate, slice_index_or, slice_set, slice_get, option_to_list, IsTrue, IsOk, IsSome, IfOk, IfErr, OnOk, OnErr, IsErrOf, alloc_error};
ghost use Rattle.std.specs.List.{flat_map};
ghost use Rattle.vob.specs.Packed.{Contents, blocks_for};
ghost use Rattle.vob.specs.Refusal.{IsGrowthRefusal};

use crate::error::VobError;
use crate::word::Word;
use crate::{Vob, packed};
use std::alloc::AllocError;

impl<T: Word> Vob<T> {
    /// Sets the item at `index`, and returns whether that changed it.
    pub fn set(&mut self, index: usize, value: bool) -> bool
        requires { index < length self.old.bits }
        ensures bits { self.new.bits ≡ slice_set self.old.bits index value }
        ensures changed { IsTrue result ↔ (slice_index_or self.old.bits index false ≡ not value) }
        ensures capacity { self.new.capacity ≡ self.old.capacity }
    {
        let before = packed::bit_at(self.blocks.as_slice(), index);
        if before == value {
            return false;
        }
        packed::put_bit(&mut self.blocks, index, value);
        true
    }

    /// Sets the item at `index` as `set` does, and returns whether that changed it.
    pub fn set_unchecked(&mut self, index: usize, value: bool) -> bool
        requires { index < length self.old.bits }
        ensures bits { self.new.bits ≡ slice_set self.old.bits index value }
        ensures changed { IsTrue result ↔ (slice_index_or self.old.bits index false ≡ not value) }
        ensures capacity { self.new.capacity ≡ self.old.capacity }
    {
        self.set(index, value)
    }

    /// Adds an item at the end. Returns `TooLong` where the list has `usize::MAX` items, and `Memory` where
    /// memory for one more is refused; the list then is as it was.
    #[tactic(auto, using(crate::proofs::Refused::all_refusals))]
    pub fn push(&mut self, value: bool) -> Result<(), VobError>
        ensures ok { OnOk result (self.new.bits ≡ self.old.bits ++ value ∷ []) }
        ensures err { OnErr result (self.new.bits ≡ self.old.bits) }
        ensures too_long { IsErrOf result VobError.TooLong ↔ (length self.old.bits ≡ usize.MAX) }
        ensures cause { IfErr result IsGrowthRefusal }
        ensures room { length self.old.bits < self.old.capacity → IsOk result }
        ensures capacity { self.old.capacity ≤ self.new.capacity }
    {
        if self.len == usize::MAX {
            return Err(VobError::TooLong);
        }
        packed::cover(&mut self.blocks, self.len)?;
        packed::put_bit(&mut self.blocks, self.len, value);
        self.len += 1;
        Ok(())
    }

    /// Takes the last item.
    pub fn pop(&mut self) -> Option<bool>
        ensures bits { self.old.bits ≡ self.new.bits ++ option_to_list result }
        ensures some { IsSome result ↔ (0 < length self.old.bits) }
        ensures capacity { self.new.capacity ≡ self.old.capacity }
    {
        if self.len == 0 {
            return None;
        }
        let last = self.len - 1;
        let value = packed::bit_at(self.blocks.as_slice(), last);
        packed::cut(&mut self.blocks, last);
        self.len = last;
        Some(value)
    }

    /// Keeps the first `len` items.
    pub fn truncate(&mut self, len: usize)
        ensures bits { self.new.bits ≡ take len self.old.bits }
        ensures capacity { self.new.capacity ≡ self.old.capacity }
    {
        if len < self.len {
            packed::cut(&mut self.blocks, len);
            self.len = len;
        }
    }

    /// Drops all items.
    pub fn clear(&mut self)
        ensures bits { self.new.bits ≡ [] }
        ensures capacity { self.new.capacity ≡ self.old.capacity }
    {
        self.truncate(0);
    }

    /// Makes room for `additional` items more. Returns `TooLong` where the list would have more than `usize::MAX`
    /// items, and `Memory` where memory for them is refused.
    #[tactic(auto, using(crate::proofs::Refused::all_refusals))]
    pub fn reserve(&mut self, additional: usize) -> Result<(), VobError>
        ensures bits { self.new.bits ≡ self.old.bits }
        ensures ok { OnOk result (length self.old.bits + additional ≤ self.new.capacity) }
        ensures too_long { IsErrOf result VobError.TooLong ↔ (usize.MAX < length self.old.bits + additional) }
        ensures cause { IfErr result IsGrowthRefusal }
        ensures room { length self.old.bits + additional ≤ self.old.capacity → IsOk result }
        ensures capacity { self.old.capacity ≤ self.new.capacity }
    {
        let Some(needed) = self.len.checked_add(additional) else {
            return Err(VobError::TooLong);
        };
        let count = packed::blocks_for::<T>(needed);
        self.blocks
            .reserve(count.saturating_sub(self.blocks.len()))?;
        Ok(())
    }

    /// Frees memory that no item needs. Where the allocator refuses fewer blocks, the capacity stays.
    pub fn shrink_to_fit(&mut self)
        ensures bits { self.new.bits ≡ self.old.bits }
        ensures capacity { self.new.capacity ≤ self.old.capacity }
        ensures frees { length self.old.bits ≡ 0 → self.new.capacity ≡ 0 }
    {
        self.blocks.shrink_to_fit();
    }

    /// Keeps the first `new_len` items, or adds items that are `value` up to that length.
    pub fn resize(&mut self, new_len: usize, value: bool) -> Result<(), AllocError>
        ensures ok { OnOk result (self.new.bits ≡ take new_len self.old.bits ++ replicate (new_len - length self.old.bits) value) }
        ensures err { OnErr result (self.new.bits ≡ self.old.bits) }
        ensures shrinks { new_len ≤ length self.old.bits → IsOk result }
        ensures room { new_len ≤ self.old.capacity → IsOk result }
        ensures capacity { self.old.capacity ≤ self.new.capacity }
    {
        if new_len <= self.len {
            self.truncate(new_len);
            return Ok(());
        }
        packed::widen(&mut self.blocks, self.len, new_len, value)?;
        self.len = new_len;
        Ok(())
    }
}
