//! Searches for the bits that have one value, from either end, block by block.

ghost use Rattle.std.specs.Prelude.{◌≡◌, ◌<◌, ◌≤◌, ◌+◌, ◌-◌, ℕ, false, not, List, [], ◌∷◌, ◌++◌, length, map, slice_index_or, MatchOption, None, if◌then◌else◌};
ghost use Rattle.std.specs.List.{flat_map};
ghost use Rattle.vob.specs.Walk.{indices_of};

use crate::word::Word;
use std::marker::Model;

/// An iterator over the indices in a range whose bit has a value. Contracts see it as those that are left.
#[derive(Drop)]
pub struct Indices<'a, T: Word> {
    blocks: &'a [T],
    value: bool,
    from: usize,
    to: usize,
}

impl<'a, T: Word> Model for Indices<'a, T> {
    ghost use Rattle.std.specs.Prelude.{List, ℕ, length, ◌≤◌};
    ghost use Rattle.std.specs.List.{flat_map};
    ghost use Rattle.vob.specs.Walk.{indices_of};

    ghost Value = { List ℕ };

    ghost view = { λ it. indices_of it.value (flat_map T.bits it.blocks.now) it.from it.to };

    ghost invariant = { λ it. it.to ≤ length (flat_map T.bits it.blocks.now) };
}

impl<'a, T: Word> Indices<'a, T> {
    /// Begins with all indices of bits that have the value.
    pub fn new(blocks: &'a [T], value: bool, from: usize, to: usize) -> Self
        requires { to ≤ length (flat_map T.bits blocks.now) }
        ensures { result ≡ indices_of value (flat_map T.bits blocks.now) from to }
    {
        Indices {
            blocks,
            value,
            from,
            to,
        }
    }

    /// Takes the first index.
    pub fn first(&mut self) -> Option<usize>
        ensures { MatchOption result ((self.old ≡ []) × (self.new ≡ [])) (λ p. self.old ≡ p ∷ self.new) }
    {
        match first_index(self.blocks, self.value, self.from, self.to) {
            Some(index) => {
                self.from = index + 1;
                Some(index)
            }
            None => {
                self.from = self.to;
                None
            }
        }
    }

    /// Counts the indices that are left.
    pub fn count(self) -> usize
        ensures { result ≡ length self.entry }
    {
        count_indices(self.blocks, self.value, self.from, self.to)
    }

    /// Returns the bounds of how many indices are left: at least 0, and no upper one.
    pub fn size_hint(&self) -> (usize, Option<usize>)
        ensures lower { result.0 ≡ 0 }
        ensures upper { result.1 ≡ None }
    {
        (0, None)
    }

    /// Takes the last index.
    pub fn last(&mut self) -> Option<usize>
        ensures { MatchOption result ((self.old ≡ []) × (self.new ≡ [])) (λ p. self.old ≡ self.new ++ p ∷ []) }
    {
        match last_index(self.blocks, self.value, self.from, self.to) {
            Some(index) => {
                self.to = index;
                Some(index)
            }
            None => {
                self.to = self.from.min(self.to);
                None
            }
        }
    }
}

/// Counts the bits from one index up to before another that have the value.
fn count_indices<T: Word>(blocks: &[T], value: bool, from: usize, to: usize) -> usize
    requires { to ≤ length (flat_map T.bits blocks.now) }
    ensures { result ≡ length (indices_of value (flat_map T.bits blocks.now) from to) }
{
    let width = T::BITS;
    let mut at = from;
    let mut count = 0;
    'each: while at < to {
        let used = at % width;
        let taken = (width - used).min(to - at);
        count += matching(blocks[at / width], value)
            .low_part(used + taken)
            .moved_down(used)
            .set_count();
        at += taken;
    }
    count
}

/// Makes a block in which a bit is set where it has the value here.
pub(crate) fn matching<T: Word>(block: T, value: bool) -> T
    ensures { T.bits result ≡ (if value then T.bits block else map not (T.bits block)) }
{
    if value { block } else { block.turn_bits() }
}

/// Counts the bits of a block from an index up that don't have the value, before the first that has it.
fn others_above<T: Word>(block: T, value: bool, index: usize) -> usize
    requires { index < T.BITS }
    ensures within { index + result ≤ T.BITS }
    ensures before { (i : ℕ) → index ≤ i → i < index + result → slice_index_or (T.bits block) i false ≡ not value }
    ensures found { index + result < T.BITS → slice_index_or (T.bits block) (index + result) false ≡ value }
{
    let zeros = matching(block, value).moved_down(index).clear_below();
    zeros.min(T::BITS - index)
}

/// Counts the bits of a block below an index that don't have the value, after the last that has it.
fn others_below<T: Word>(block: T, value: bool, index: usize) -> usize
    requires some { 0 < index }
    requires within { index ≤ T.BITS }
    ensures within { result ≤ index }
    ensures after { (i : ℕ) → index ≤ i + result → i < index → slice_index_or (T.bits block) i false ≡ not value }
    ensures found { (i : ℕ) → i + result + 1 ≡ index → slice_index_or (T.bits block) i false ≡ value }
{
    let zeros = matching(block, value)
        .moved_up(T::BITS - index)
        .clear_above();
    zeros.min(index)
}

/// Finds the first bit that has the value, from one index up to before another.
fn first_index<T: Word>(blocks: &[T], value: bool, from: usize, to: usize) -> Option<usize>
    requires { to ≤ length (flat_map T.bits blocks.now) }
    ensures cases { MatchOption result ((i : ℕ) → from ≤ i → i < to → slice_index_or (flat_map T.bits blocks.now) i false ≡ not value)
        (λ p. (from ≤ p) × (p < to) × (slice_index_or (flat_map T.bits blocks.now) p false ≡ value) × ((i : ℕ) → from ≤ i → i < p → slice_index_or (flat_map T.bits blocks.now) i false ≡ not value)) }
{
    let width = T::BITS;
    let mut at = from;
    'each: while at < to {
        let others = others_above(blocks[at / width], value, at % width);
        if others >= to - at {
            return None;
        }
        let rest = width - at % width;
        at += others;
        if others < rest {
            return Some(at);
        }
    }
    None
}

/// Finds the last bit that has the value, from one index up to before another.
fn last_index<T: Word>(blocks: &[T], value: bool, from: usize, to: usize) -> Option<usize>
    requires { to ≤ length (flat_map T.bits blocks.now) }
    ensures cases { MatchOption result ((i : ℕ) → from ≤ i → i < to → slice_index_or (flat_map T.bits blocks.now) i false ≡ not value)
        (λ p. (from ≤ p) × (p < to) × (slice_index_or (flat_map T.bits blocks.now) p false ≡ value) × ((i : ℕ) → p < i → i < to → slice_index_or (flat_map T.bits blocks.now) i false ≡ not value)) }
{
    let width = T::BITS;
    let mut at = to;
    'each: while from < at {
        let used = (at - 1) % width + 1;
        let others = others_below(blocks[(at - 1) / width], value, used);
        if others >= at - from {
            return None;
        }
        at -= others;
        if others < used {
            return Some(at - 1);
        }
    }
    None
}
