//! Iterators over a list's items, its blocks, and the indices of its set and unset items.

ghost use Rattle.std.specs.Prelude.{◌≡◌, ◌<◌, ◌≤◌, ◌+◌, ◌-◌, ℕ, Bool, true, false, List, ◌++◌, length, take, drop, min, IfSome, Some, None};
ghost use Rattle.std.specs.List.{flat_map};
ghost use Rattle.std.specs.Iterator.{YieldsFirst, YieldsLast, item_count, UpTo, at_most};
ghost use Rattle.std.specs.Iterator.SizeHint.{IsWithinCount};
ghost use Rattle.std.specs.Range.Bound.{start_index, end_index, bound_map};
ghost use Rattle.std.specs.Prelude.{replicate, ◌*◌};
ghost use Rattle.vob.specs.Packed.{blocks_for};
ghost use Rattle.vob.specs.Walk.{walk};

use crate::find::Indices;
use crate::word::Word;
use crate::{Vob, packed};
use std::iter::{DoubleEndedIterator, ExactSizeIterator, FusedIterator};
use std::marker::Model;
use std::ops::{Bound, RangeBounds};

/// An iterator over the items of a list, in order. Contracts see it as those that are left.
#[derive(Drop)]
pub struct Iter<'a, T: Word> {
    blocks: &'a [T],
    from: usize,
    to: usize,
}

impl<'a, T: Word> Model for Iter<'a, T> {
    ghost use Rattle.std.specs.Prelude.{List, Bool, length, take, drop, ◌≤◌};
    ghost use Rattle.std.specs.List.{flat_map};

    ghost Value = { List Bool };

    ghost view = { λ it. drop it.from (take it.to (flat_map T.bits it.blocks.now)) };

    ghost invariant = { λ it. (it.from ≤ it.to) × (it.to ≤ length (flat_map T.bits it.blocks.now)) };
}

/// An iterator over the indices whose item is set, in order. Contracts see it as those that are left.
#[derive(Drop)]
pub struct IterSetBits<'a, T: Word> {
    set: Indices<'a, T>,
}

impl<'a, T: Word> Model for IterSetBits<'a, T> {
    ghost use Rattle.std.specs.Prelude.{List, ℕ};

    ghost Value = { List ℕ };

    ghost view = { λ it. it.set };
}

/// An iterator over the indices whose item isn't set, in order. Contracts see it as those that are left.
#[derive(Drop)]
pub struct IterUnsetBits<'a, T: Word> {
    unset: Indices<'a, T>,
}

impl<'a, T: Word> Model for IterUnsetBits<'a, T> {
    ghost use Rattle.std.specs.Prelude.{List, ℕ};

    ghost Value = { List ℕ };

    ghost view = { λ it. it.unset };
}

/// An iterator over the blocks of a list, in order. Contracts see it as those that are left.
#[derive(Drop)]
pub struct StorageIter<'a, T: Word> {
    blocks: &'a [T],
    from: usize,
}

impl<'a, T: Word> Model for StorageIter<'a, T> {
    ghost use Rattle.std.specs.Prelude.{List, length, drop, ◌≤◌};

    ghost Value = { List T };

    ghost view = { λ it. drop it.from it.blocks.now };

    ghost invariant = { λ it. it.from ≤ length it.blocks.now };
}

impl<T: Word> Vob<T> {
    /// Iterates over the blocks.
    pub fn iter_storage(&self) -> StorageIter<'_, T>
        ensures { flat_map T.bits result ≡ self.now.bits ++ replicate (blocks_for T.BITS (length self.now.bits) * T.BITS - length self.now.bits) false }
    {
        StorageIter {
            blocks: self.get_storage(),
            from: 0,
        }
    }

    /// Iterates over the items.
    pub fn iter(&self) -> Iter<'_, T>
        ensures { result ≡ self.now.bits }
    {
        Iter {
            blocks: self.blocks.as_slice(),
            from: 0,
            to: self.len,
        }
    }

    /// Iterates over the indices of a range, cut at the length, whose item is set.
    pub fn iter_set_bits<R: RangeBounds<usize>>(&self, range: R) -> IterSetBits<'_, T>
        requires { R.has_bounds range }
        ensures { result ≡ walk true self.now.bits (R.start_bound range) (R.end_bound range) }
    {
        IterSetBits {
            set: self.indices(true, range),
        }
    }

    /// Iterates over the indices of a range, cut at the length, whose item isn't set.
    pub fn iter_unset_bits<R: RangeBounds<usize>>(&self, range: R) -> IterUnsetBits<'_, T>
        requires { R.has_bounds range }
        ensures { result ≡ walk false self.now.bits (R.start_bound range) (R.end_bound range) }
    {
        IterUnsetBits {
            unset: self.indices(false, range),
        }
    }

    /// Iterates over the indices of a range, cut at the length, whose item has the value.
    fn indices<R: RangeBounds<usize>>(&self, value: bool, range: R) -> Indices<'_, T>
        requires { R.has_bounds range }
        ensures { result ≡ walk value self.now.bits (R.start_bound range) (R.end_bound range) }
    {
        let from = first_of(range.start_bound());
        let to = end_of(range.end_bound(), self.len);
        Indices::new(self.blocks.as_slice(), value, from, to)
    }
}

/// Returns the index at which a range begins.
fn first_of(start: Bound<&usize>) -> usize
    ensures { result ≡ min (start_index (bound_map (λ x. x.now) start.entry)) usize.MAX }
{
    match start {
        Bound::Included(from) => *from,
        Bound::Excluded(before) => before.saturating_add(1),
        Bound::Unbounded => 0,
    }
}

/// Returns the index before which a range ends, cut at the length.
fn end_of(end: Bound<&usize>, len: usize) -> usize
    ensures { result ≡ min (end_index (bound_map (λ x. x.now) end.entry) len) len }
{
    match end {
        Bound::Included(last) if *last < len => *last + 1,
        Bound::Excluded(end) if *end < len => *end,
        _ => len,
    }
}

impl<'a, T: Word> Iter<'a, T> {
    /// Counts the items that are left.
    pub fn count(self) -> usize
        ensures { result ≡ length self.entry }
    {
        self.len()
    }
}

impl<'a, T: Word> Iterator for Iter<'a, T> {
    type Item = bool;

    ghost next_gives = { YieldsFirst (λ s. s) };

    ghost remaining = { item_count (λ s. s) };

    fn next(&mut self) -> Option<bool> {
        if self.from == self.to {
            return None;
        }
        let item = packed::bit_at(self.blocks, self.from);
        self.from += 1;
        Some(item)
    }

    fn size_hint(&self) -> (usize, Option<usize>)
        ensures lower { result.0 ≡ length self.now }
        ensures upper { result.1 ≡ Some (length self.now) }
        ensures within { IsWithinCount result.0 (at_most (length self.now)) }
        ensures up_to { IfSome result.1 (UpTo (at_most (length self.now))) }
    {
        let left = self.to - self.from;
        (left, Some(left))
    }
}

impl<'a, T: Word> DoubleEndedIterator for Iter<'a, T> {
    ghost next_back_gives = { YieldsLast (λ s. s) };

    fn next_back(&mut self) -> Option<bool> {
        if self.from == self.to {
            return None;
        }
        let last = self.to - 1;
        let item = packed::bit_at(self.blocks, last);
        self.to = last;
        Some(item)
    }
}

impl<'a, T: Word> ExactSizeIterator for Iter<'a, T> {
    fn len(&self) -> usize {
        self.to - self.from
    }
}

impl<'a, T: Word> IterSetBits<'a, T> {
    /// Counts the indices that are left.
    pub fn count(self) -> usize
        ensures { result ≡ length self.entry }
    {
        self.set.count()
    }
}

impl<'a, T: Word> Iterator for IterSetBits<'a, T> {
    type Item = usize;

    ghost next_gives = { YieldsFirst (λ s. s) };

    ghost remaining = { item_count (λ s. s) };

    fn next(&mut self) -> Option<usize> {
        self.set.first()
    }

    /// Returns the bounds of how many indices are left: at least 0, and no upper one.
    fn size_hint(&self) -> (usize, Option<usize>)
        ensures lower { result.0 ≡ 0 }
        ensures upper { result.1 ≡ None }
        ensures within { IsWithinCount result.0 (at_most (length self.now)) }
        ensures up_to { IfSome result.1 (UpTo (at_most (length self.now))) }
    {
        self.set.size_hint()
    }
}

impl<'a, T: Word> DoubleEndedIterator for IterSetBits<'a, T> {
    ghost next_back_gives = { YieldsLast (λ s. s) };

    fn next_back(&mut self) -> Option<usize> {
        self.set.last()
    }
}

impl<'a, T: Word> FusedIterator for IterSetBits<'a, T> {}

impl<'a, T: Word> IterUnsetBits<'a, T> {
    /// Counts the indices that are left.
    pub fn count(self) -> usize
        ensures { result ≡ length self.entry }
    {
        self.unset.count()
    }
}

impl<'a, T: Word> Iterator for IterUnsetBits<'a, T> {
    type Item = usize;

    ghost next_gives = { YieldsFirst (λ s. s) };

    ghost remaining = { item_count (λ s. s) };

    fn next(&mut self) -> Option<usize> {
        self.unset.first()
    }

    /// Returns the bounds of how many indices are left: at least 0, and no upper one.
    fn size_hint(&self) -> (usize, Option<usize>)
        ensures lower { result.0 ≡ 0 }
        ensures upper { result.1 ≡ None }
        ensures within { IsWithinCount result.0 (at_most (length self.now)) }
        ensures up_to { IfSome result.1 (UpTo (at_most (length self.now))) }
    {
        self.unset.size_hint()
    }
}

impl<'a, T: Word> DoubleEndedIterator for IterUnsetBits<'a, T> {
    ghost next_back_gives = { YieldsLast (λ s. s) };

    fn next_back(&mut self) -> Option<usize> {
        self.unset.last()
    }
}

impl<'a, T: Word> FusedIterator for IterUnsetBits<'a, T> {}

impl<'a, T: Word> IntoIterator for &'a Vob<T> {
    type Item = bool;

    type IntoIter = Iter<'a, T>;

    ghost into_iter_gives = { λ v it. it ≡ v.now.bits };

    fn into_iter(self) -> Iter<'a, T> {
        self.iter()
    }
}

impl<'a, T: Word> StorageIter<'a, T> {
    /// Counts the blocks that are left.
    pub fn count(self) -> usize
        ensures { result ≡ length self.entry }
    {
        self.blocks.len() - self.from
    }
}

impl<'a, T: Word> Iterator for StorageIter<'a, T> {
    type Item = T;

    ghost next_gives = { YieldsFirst (λ s. s) };

    ghost remaining = { item_count (λ s. s) };

    fn next(&mut self) -> Option<T> {
        if self.from == self.blocks.len() {
            return None;
        }
        let block = self.blocks[self.from];
        self.from += 1;
        Some(block)
    }
}
