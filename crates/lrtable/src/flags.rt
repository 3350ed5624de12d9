//! Flags of which few are set, as a rule. Their numbers are noted too, as long as there is room, so that few of many are
//! found and cleared without going over all.

ghost use Rattle.std.specs.Prelude.{◌≡◌, ◌<◌, ◌≤◌, ◌↔◌, ℕ, Bool, List, false, true, length, replicate, slice_set, IfOk, IsTrue, MatchOption};
ghost use Rattle.std.specs.Iterator.{YieldsFirst, item_count};
ghost use Rattle.std.specs.List.{Contains};
ghost use Rattle.std.specs.declared.ops.Bound.TheVariants.{Unbounded};
ghost use Rattle.vob.specs.Sets.{is_set};
ghost use Rattle.vob.specs.Walk.{walk};
ghost use Rattle.lrtable.specs.FlagWalks.{IsLeastFrom};
ghost use Rattle.lrtable.specs.Opening.{AreNoted};

use crate::insertion_list::Noted;
use std::alloc::{AllocError, Global};
use std::marker::Model;
use vob::Vob;
use vob::iter::IterSetBits;

// How many flags are cleared together in the time of one alone.
const FLAGS_AT_ONCE: usize = 512;

// How many flags are passed over in the time in which two numbers are compared.
const FLAGS_PASSED: usize = 64;

/// Flags, with the numbers of those that are set.
#[derive(Drop)]
pub(crate) struct Flags {
    bits: Vob,
    /// The numbers of the set flags, as far as there is room.
    noted: Noted,
}

impl Model for Flags {
    ghost use Rattle.std.specs.Prelude.{take};
    ghost use Rattle.lrtable.specs.FlagWalks.{FlagBits};
    ghost use Rattle.lrtable.specs.Opening.{AreNoted};

    ghost Value = { FlagBits };

    ghost view = { λ s. record {
      bits = s.bits.bits;
      noted = take s.noted.count s.noted.order.items;
    } };

    ghost invariant = { λ s. AreNoted s.bits.bits s.noted.count s.noted.order.items };
}

/// Notes the number of a flag that was set, if it is a new one.
fn note_if(noted: &mut Noted, number: usize, new: bool)
    ensures { (flags : List Bool) → number < length flags → (is_set flags number ≡ false → new ≡ true) → AreNoted flags noted.old.count noted.old.order.items → AreNoted (slice_set flags number true) noted.new.count noted.new.order.items }
{
    if !new {
        return;
    }
    noted.put(number);
}

/// Clears the flags of these numbers, which are those of all set flags.
fn clear_each(bits: &mut Vob, numbers: &[usize])
    requires within { (A : ℕ) → Contains numbers.now A → A < length bits.old.bits }
    requires all { (A : ℕ) → IsTrue (is_set bits.old.bits A) → Contains numbers.now A }
    ensures { bits.new.bits ≡ replicate (length bits.old.bits) false }
{
    'numbers: for number in numbers {
        bits.set(*number, false);
    }
}

/// Clears the flags: the noted ones alone, if these are few and all.
fn clear_bits(bits: &mut Vob, noted: &Noted)
    requires { AreNoted bits.old.bits noted.now.count noted.now.order.items }
    ensures { bits.new.bits ≡ replicate (length bits.old.bits) false }
{
    if noted.count > bits.len() / FLAGS_AT_ONCE || noted.is_full() {
        bits.set_all(false);
        return;
    }
    clear_each(bits, noted.numbers());
}

/// Returns a number instead of the least so far, if it is less, not below `from`, and its flag is set.
fn lesser_of(bits: &Vob, from: usize, number: usize, least: usize) -> usize
    requires { least ≤ length bits.now.bits }
    ensures within { result ≤ least }
    ensures less { result < least → (result ≡ number) × (from ≤ number) × (is_set bits.now.bits number ≡ true) }
    ensures none { from ≤ number → number < result → is_set bits.now.bits number ≡ false }
{
    if number < from {
        return least;
    }
    if number >= least {
        return least;
    }
    if bits.get_unchecked(number) {
        return number;
    }
    least
}

/// Returns the least of these numbers, from one number on, whose flag is set.
#[inline(never)]
fn least_from(bits: &Vob, numbers: &[usize], from: usize) -> Option<usize>
    requires { (A : ℕ) → from ≤ A → IsTrue (is_set bits.now.bits A) → Contains numbers.now A }
    ensures { MatchOption result ((j : ℕ) → from ≤ j → j < length bits.now.bits → is_set bits.now.bits j ≡ false) (IsLeastFrom bits.now.bits from) }
{
    let mut least = bits.len();
    'numbers: for k in 0..numbers.len() {
        least = lesser_of(bits, from, numbers[k], least);
    }
    if least == bits.len() {
        return None;
    }
    Some(least)
}

impl Flags {
    /// Makes `count` flags that are clear, with room for the numbers of `room` flags.
    pub(crate) fn empty(alloc: Global, count: usize, room: usize) -> Result<Flags, AllocError>
        ensures { IfOk result (λ f. f.bits ≡ replicate count false) }
    {
        let bits = Vob::from_elem(alloc, false, count)?;
        let noted = Noted::empty(alloc, room)?;
        Ok(Flags { bits, noted })
    }

    /// Sets a flag, and returns whether it was clear.
    pub(crate) fn set(&mut self, index: usize) -> bool
        requires { index < length self.old.bits }
        ensures bits { self.new.bits ≡ slice_set self.old.bits index true }
        ensures changed { IsTrue result ↔ (is_set self.old.bits index ≡ false) }
    {
        let new = self.bits.set(index, true);
        note_if(&mut self.noted, index, new);
        new
    }

    /// Returns a flag.
    pub(crate) fn get_unchecked(&self, index: usize) -> bool
        requires { index < length self.now.bits }
        ensures { result ≡ is_set self.now.bits index }
    {
        self.bits.get_unchecked(index)
    }

    /// Returns how many flags there are.
    pub(crate) fn len(&self) -> usize
        ensures { result ≡ length self.now.bits }
    {
        self.bits.len()
    }

    /// Clears all flags.
    pub(crate) fn clear(&mut self)
        ensures { self.new.bits ≡ replicate (length self.old.bits) false }
    {
        clear_bits(&mut self.bits, &self.noted);
        self.noted.clear();
    }

    /// Returns whether set flags may be missing among the noted ones.
    pub(crate) fn is_full(&self) -> bool
        ensures { result ≡ false → (A : ℕ) → IsTrue (is_set self.now.bits A) → Contains self.now.noted A }
    {
        self.noted.is_full()
    }

    /// Returns the numbers of the set flags in the order in which they were set, as far as there was room.
    pub(crate) fn noted_numbers(&self) -> &[usize]
        ensures numbers { result.now ≡ self.now.noted }
        ensures within { (A : ℕ) → Contains result.now A → A < length self.now.bits }
    {
        self.noted.numbers()
    }

    /// Returns how many flags are set.
    pub(crate) fn count(&self) -> usize {
        self.noted.total()
    }

    /// Iterates over the set flags in ascending order.
    pub(crate) fn iter(&self) -> SetFlags<'_>
        ensures { result ≡ walk true self.now.bits Unbounded Unbounded }
    {
        let end = self.bits.len();
        let count = self.noted.count;
        if count.saturating_mul(count) > end / FLAGS_PASSED || self.noted.is_full() {
            return SetFlags {
                others: self.bits.iter_set_bits(..),
                bits: &self.bits,
                numbers: &[],
                from: end,
            };
        }
        SetFlags {
            others: self.bits.iter_set_bits(end..),
            bits: &self.bits,
            numbers: self.noted.numbers(),
            from: 0,
        }
    }
}

/// An iterator over the set flags in ascending order. Contracts see it as those that are left.
#[derive(Drop)]
pub(crate) struct SetFlags<'a> {
    /// Those that are found among all flags.
    others: IterSetBits<'a, usize>,
    bits: &'a Vob,
    /// Those that are found among these numbers, from one number on.
    numbers: &'a [usize],
    from: usize,
}

impl<'a> Model for SetFlags<'a> {
    ghost use Rattle.std.specs.Prelude.{◌≤◌, ◌++◌, ℕ, true, IsTrue, List, length};
    ghost use Rattle.std.specs.List.{Contains};
    ghost use Rattle.vob.specs.Sets.{is_set};
    ghost use Rattle.vob.specs.Walk.{indices_of};

    ghost Value = { List ℕ };

    ghost view = { λ it. it.others ++ indices_of true it.bits.now.bits it.from (length it.bits.now.bits) };

    ghost invariant = { λ it. (it.from ≤ length it.bits.now.bits) × ((A : ℕ) → it.from ≤ A → IsTrue (is_set it.bits.now.bits A) → Contains it.numbers.now A) };
}

impl<'a> Iterator for SetFlags<'a> {
    type Item = usize;

    ghost next_gives = { YieldsFirst (λ s. s) };

    ghost remaining = { item_count (λ s. s) };

    fn next(&mut self) -> Option<usize> {
        if let Some(number) = self.others.next() {
            return Some(number);
        }
        let end = self.bits.len();
        if self.from == end {
            return None;
        }
        match least_from(self.bits, self.numbers, self.from) {
            Some(number) => {
                self.from = number + 1;
                Some(number)
            }
            None => {
                self.from = end;
                None
            }
        }
    }
}
