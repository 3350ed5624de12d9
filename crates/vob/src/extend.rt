//! Joins and splits lists, and makes them of bytes, slices and iterators.

ghost use Rattle.std.specs.Prelude.{◌≡◌, ◌<◌, ◌≤◌, ◌+◌, ◌-◌, ◌*◌, ◌↔◌, Bool, true, false, List, [], ◌∷◌, ◌++◌, length, take, drop, reverse, Some, IsOk, IfOk, IfErr, OnOk, OnErr, IsErrOf, alloc_error};
ghost use Rattle.std.specs.List.{flat_map};
ghost use Rattle.std.specs.Iterator.{Drains, ExtendsWithItems, IsFinite, YieldsThen};
ghost use Rattle.vob.specs.Digits.{digits};
ghost use Rattle.vob.specs.Refusal.{IsGrowthRefusal};

use crate::error::VobError;
use crate::word::Word;
use crate::{Vob, shift};
use std::alloc::{AllocError, Global};

impl<T: Word> Vob<T> {
    /// Adds the items of a slice at the end. Returns `TooLong` where the list would have more than `usize::MAX`
    /// items, and `Memory` where memory for them is refused; the list then is as it was.
    #[tactic(auto, using(crate::proofs::Refused::all_refusals))]
    pub fn extend_from_slice(&mut self, other: &[bool]) -> Result<(), VobError>
        ensures ok { OnOk result (self.new.bits ≡ self.old.bits ++ other.now) }
        ensures err { OnErr result (self.new.bits ≡ self.old.bits) }
        ensures too_long { IsErrOf result VobError.TooLong ↔ (usize.MAX < length self.old.bits + length other.now) }
        ensures cause { IfErr result IsGrowthRefusal }
        ensures room { length self.old.bits + length other.now ≤ self.old.capacity → IsOk result }
        ensures capacity { self.old.capacity ≤ self.new.capacity }
    {
        self.reserve(other.len())?;
        self.fill_from_slice(other);
        Ok(())
    }

    /// Adds the items of a slice for which there is room.
    fn fill_from_slice(&mut self, other: &[bool])
        requires { length self.old.bits + length other.now ≤ self.old.capacity }
        ensures bits { self.new.bits ≡ self.old.bits ++ other.now }
        ensures capacity { self.old.capacity ≤ self.new.capacity }
    {
        'each: for item in other {
            self.push(*item).unwrap();
        }
    }

    /// Adds the items of another list at the end, block by block. Returns `TooLong` where the list would have
    /// more than `usize::MAX` items, and `Memory` where memory for them is refused; the list then is as it was.
    #[tactic(auto, using(crate::proofs::Refused::all_refusals))]
    pub fn extend_from_vob(&mut self, other: &Vob<T>) -> Result<(), VobError>
        ensures ok { OnOk result (self.new.bits ≡ self.old.bits ++ other.now.bits) }
        ensures err { OnErr result (self.new.bits ≡ self.old.bits) }
        ensures too_long { IsErrOf result VobError.TooLong ↔ (usize.MAX < length self.old.bits + length other.now.bits) }
        ensures cause { IfErr result IsGrowthRefusal }
        ensures room { length self.old.bits + length other.now.bits ≤ self.old.capacity → IsOk result }
        ensures capacity { self.old.capacity ≤ self.new.capacity }
    {
        self.reserve(other.len)?;
        shift::join(
            &mut self.blocks,
            self.len,
            other.blocks.as_slice(),
            other.len,
        );
        self.len += other.len;
        Ok(())
    }

    /// Truncates the list to its first `at` items, without changing the capacity, and returns the others, moved
    /// block by block.
    pub fn split_off(&mut self, at: usize) -> Result<Vob<T>, AllocError>
        requires { at ≤ length self.old.bits }
        ensures kept { OnOk result (self.new.bits ≡ take at self.old.bits) }
        ensures others { IfOk result (λ v. v.bits ≡ drop at self.old.bits) }
        ensures err { OnErr result (self.new.bits ≡ self.old.bits) }
        ensures at_end { at ≡ length self.old.bits → IsOk result }
        ensures capacity { self.new.capacity ≡ self.old.capacity }
    {
        let alloc = *self.blocks.allocator();
        let len = self.len - at;
        let blocks = shift::part(alloc, self.blocks.as_slice(), at, self.len)?;
        self.truncate(at);
        Ok(Vob { len, blocks })
    }

    /// Adds the items in the order in which they come. Returns `TooLong` at the item that would be number
    /// `usize::MAX + 1`, and `Memory` at one for which memory is refused; the items before it stay in the list.
    #[tactic(auto, using(crate::proofs::Refused::all_refusals))]
    pub fn extend<U: IntoIterator<Item = bool>>(&mut self, iter: U) -> Result<(), VobError>
        requires { (it : U.IntoIter) → U.into_iter_gives iter it → U.IntoIter.can_next it × IsFinite (U.IntoIter.remaining it) }
        ensures ran { ExtendsWithItems U.into_iter_gives U.IntoIter.next_gives (λ old xs new. new.bits ≡ old.bits ++ xs) iter self.old self.new result }
        ensures refused { OnErr result ((it : U.IntoIter) × (xs : List Bool) × (x : Bool) × (rest : U.IntoIter) × U.into_iter_gives iter it × YieldsThen U.IntoIter.next_gives it xs (Some x) rest × (self.new.bits ≡ self.old.bits ++ xs)) }
        ensures too_long { OnErr result (IsErrOf result VobError.TooLong ↔ (length self.new.bits ≡ usize.MAX)) }
        ensures cause { IfErr result IsGrowthRefusal }
        ensures full { OnErr result (self.old.capacity ≤ length self.new.bits) }
        ensures capacity { self.old.capacity ≤ self.new.capacity }
    {
        for item in iter {
            self.push(item)?;
        }
        Ok(())
    }

    /// Adds the bits of a byte for which there is room, the most significant one first.
    fn push_byte(&mut self, byte: u8)
        requires { length self.old.bits + 8 ≤ self.old.capacity }
        ensures bits { self.new.bits ≡ self.old.bits ++ reverse (digits 8 byte) }
        ensures capacity { self.old.capacity ≤ self.new.capacity }
    {
        let bits = [
            byte.digit(7),
            byte.digit(6),
            byte.digit(5),
            byte.digit(4),
            byte.digit(3),
            byte.digit(2),
            byte.digit(1),
            byte.digit(0),
        ];
        self.fill_from_slice(bits.as_slice());
    }
}

impl Vob<usize> {
    /// Creates the list of the bytes' bits, each byte's most significant one first. Returns `TooLong` where they
    /// are more than `usize::MAX`, and `Memory` where memory for them is refused.
    #[tactic(auto, using(crate::proofs::Refused::all_refusals))]
    pub fn from_bytes(alloc: Global, slice: &[u8]) -> Result<Self, VobError>
        ensures bits { IfOk result (λ v. v.bits ≡ flat_map (λ byte. reverse (digits 8 byte)) slice.now) }
        ensures too_long { IsErrOf result VobError.TooLong ↔ (usize.MAX < 8 * length slice.now) }
        ensures cause { IfErr result IsGrowthRefusal }
        ensures empty { length slice.now ≡ 0 → IsOk result }
    {
        let Some(len) = slice.len().checked_mul(8) else {
            return Err(VobError::TooLong);
        };
        let mut made = Vob::new(alloc);
        made.reserve(len)?;
        'each: for byte in slice {
            made.push_byte(*byte);
        }
        Ok(made)
    }

    /// Creates the list of a slice's items. Returns `Memory` where memory for them is refused, and no other
    /// error.
    pub fn from_slice(alloc: Global, items: &[bool]) -> Result<Self, VobError>
        ensures bits { IfOk result (λ v. v.bits ≡ items.now) }
        ensures cause { IfErr result (λ e. e ≡ VobError.Memory alloc_error) }
        ensures empty { length items.now ≡ 0 → IsOk result }
    {
        let mut made = Vob::new(alloc);
        made.extend_from_slice(items)?;
        Ok(made)
    }

    /// Creates the list of an iterator's items, in the order in which they come. Returns `TooLong` at the item
    /// that would be number `usize::MAX + 1`, and `Memory` at one for which memory is refused.
    #[tactic(auto, using(crate::proofs::Refused::all_refusals))]
    pub fn from_iter<U: IntoIterator<Item = bool>>(alloc: Global, iter: U) -> Result<Self, VobError>
        requires { (it : U.IntoIter) → U.into_iter_gives iter it → U.IntoIter.can_next it × IsFinite (U.IntoIter.remaining it) }
        ensures ran { IfOk result (λ v. (it : U.IntoIter) × (xs : List Bool) × U.into_iter_gives iter it × Drains U.IntoIter.next_gives it xs × (v.bits ≡ xs)) }
        ensures refused { OnErr result ((it : U.IntoIter) × (xs : List Bool) × (x : Bool) × (rest : U.IntoIter) × U.into_iter_gives iter it × YieldsThen U.IntoIter.next_gives it xs (Some x) rest × (IsErrOf result VobError.TooLong ↔ (length xs ≡ usize.MAX))) }
        ensures cause { IfErr result IsGrowthRefusal }
    {
        let mut made = Vob::new(alloc);
        made.extend(iter)?;
        Ok(made)
    }
}
