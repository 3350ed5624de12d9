//! Lists as sets of indices: operations on two lists, a block at a time.

ghost use Rattle.std.specs.Prelude.{◌≡◌, ◌≢◌, ◌<◌, ◌-◌, ◌↔◌, ◌&&◌, ◌||◌, true, false, not, length, map, replicate, IsTrue, if◌then◌else◌};
ghost use Rattle.std.specs.List.{flat_map};
ghost use Rattle.std.specs.Vec.{vec_capacity};
ghost use Rattle.vob.specs.Bits.{bitwise, differs, Meets, IsApart, HoldsAll, LacksSome};
ghost use Rattle.vob.specs.Pointwise.{item_of};

use crate::find::matching;
use crate::word::Word;
use crate::{Vob, packed};

// Of lists of this many blocks several are read at once.
const MANY_BLOCKS: usize = 4;

/// An operation on two lists of one length, item by item.
#[derive(Clone, Copy)]
enum Pointwise {
    And,
    Or,
    Xor,
}

impl<T: Word> Vob<T> {
    /// Keeps an item set where it is set in both lists, and returns whether that changed the list.
    pub fn and(&mut self, other: &Vob<T>) -> bool
        requires { length self.old.bits ≡ length other.now.bits }
        ensures bits { self.new.bits ≡ bitwise (λ x y. x && y) self.old.bits other.now.bits }
        ensures changed { IsTrue result ↔ (self.new.bits ≢ self.old.bits) }
        ensures capacity { self.new.capacity ≡ self.old.capacity }
    {
        self.combine(Pointwise::And, other)
    }

    /// Sets an item where it is set in either list, and returns whether that changed the list.
    pub fn or(&mut self, other: &Vob<T>) -> bool
        requires { length self.old.bits ≡ length other.now.bits }
        ensures bits { self.new.bits ≡ bitwise (λ x y. x || y) self.old.bits other.now.bits }
        ensures changed { IsTrue result ↔ (self.new.bits ≢ self.old.bits) }
        ensures capacity { self.new.capacity ≡ self.old.capacity }
    {
        self.combine(Pointwise::Or, other)
    }

    /// Sets an item where the lists differ, and returns whether that changed the list.
    pub fn xor(&mut self, other: &Vob<T>) -> bool
        requires { length self.old.bits ≡ length other.now.bits }
        ensures bits { self.new.bits ≡ bitwise differs self.old.bits other.now.bits }
        ensures changed { IsTrue result ↔ (self.new.bits ≢ self.old.bits) }
        ensures capacity { self.new.capacity ≡ self.old.capacity }
    {
        self.combine(Pointwise::Xor, other)
    }

    /// Combines each item with the other list's, and returns whether that changed the list.
    fn combine(&mut self, how: Pointwise, other: &Vob<T>) -> bool
        requires { length self.old.bits ≡ length other.now.bits }
        ensures bits { self.new.bits ≡ bitwise (item_of how) self.old.bits other.now.bits }
        ensures changed { IsTrue result ↔ (self.new.bits ≢ self.old.bits) }
        ensures capacity { self.new.capacity ≡ self.old.capacity }
    {
        combine_blocks(how, &mut self.blocks, other.blocks.as_slice())
    }

    /// Returns whether some item is set in both lists.
    pub fn meets(&self, other: &Vob<T>) -> bool
        requires { length self.now.bits ≡ length other.now.bits }
        ensures meets { IsTrue result ↔ Meets self.now.bits other.now.bits }
        ensures apart { result ≡ false → IsApart self.now.bits other.now.bits }
    {
        blocks_meet(self.get_storage(), other.get_storage(), true)
    }

    /// Returns whether each item that is set in the other list is set in this one.
    pub fn holds(&self, other: &Vob<T>) -> bool
        requires { length self.now.bits ≡ length other.now.bits }
        ensures holds { IsTrue result ↔ HoldsAll self.now.bits other.now.bits }
        ensures lacks { result ≡ false → LacksSome self.now.bits other.now.bits }
    {
        !blocks_lack(other.get_storage(), self.get_storage())
    }

    /// Turns every item.
    pub fn negate(&mut self)
        ensures bits { self.new.bits ≡ map not self.old.bits }
        ensures capacity { self.new.capacity ≡ self.old.capacity }
    {
        flip_blocks(&mut self.blocks);
        packed::fill_above(&mut self.blocks, self.len, false);
    }

    /// Gives every item one value.
    pub fn set_all(&mut self, value: bool)
        ensures bits { self.new.bits ≡ replicate (length self.old.bits) value }
        ensures capacity { self.new.capacity ≡ self.old.capacity }
    {
        fill_blocks(&mut self.blocks, T::all(value));
        packed::fill_above(&mut self.blocks, self.len, false);
    }
}

impl Pointwise {
    /// Does the operation on each bit of two blocks.
    fn of<T: Word>(self, a: T, b: T) -> T
        ensures { T.bits result ≡ bitwise (item_of self) (T.bits a) (T.bits b) }
    {
        match self {
            Pointwise::And => a.in_both(b),
            Pointwise::Or => a.in_either(b),
            Pointwise::Xor => a.in_one(b),
        }
    }
}

/// Combines each block with the other list's, and returns whether that changed a bit.
fn combine_blocks<T: Word>(how: Pointwise, to: &mut Vec<T>, from: &[T]) -> bool
    requires { length to.old.items ≡ length from.now }
    ensures bits { flat_map T.bits to.new.items ≡ bitwise (item_of how) (flat_map T.bits to.old.items) (flat_map T.bits from.now) }
    ensures changed { IsTrue result ↔ (flat_map T.bits to.new.items ≢ flat_map T.bits to.old.items) }
    ensures capacity { vec_capacity to.new ≡ vec_capacity to.old }
{
    let mut changed = false;
    'each: for k in 0..from.len() {
        let block = to[k];
        let new = how.of(block, from[k]);
        changed |= !new.is_same(block);
        to[k] = new;
    }
    changed
}

/// Turns each bit.
fn flip_blocks<T: Word>(blocks: &mut Vec<T>)
    ensures bits { flat_map T.bits blocks.new.items ≡ map not (flat_map T.bits blocks.old.items) }
    ensures capacity { vec_capacity blocks.new ≡ vec_capacity blocks.old }
{
    'each: for k in 0..blocks.len() {
        blocks[k] = blocks[k].turn_bits();
    }
}

/// Gives each block one value.
fn fill_blocks<T: Word>(blocks: &mut Vec<T>, with: T)
    ensures items { blocks.new.items ≡ replicate (length blocks.old.items) with }
    ensures capacity { vec_capacity blocks.new ≡ vec_capacity blocks.old }
{
    'each: for k in 0..blocks.len() {
        blocks[k] = with;
    }
}

/// Returns whether as many blocks have the same bits.
pub(crate) fn same_blocks<T: Word>(a: &[T], b: &[T]) -> bool
    requires { length a.now ≡ length b.now }
    ensures { IsTrue result ↔ (flat_map T.bits a.now ≡ flat_map T.bits b.now) }
{
    'each: for k in 0..a.len() {
        if !a[k].is_same(b[k]) {
            return false;
        }
    }
    true
}

/// Returns whether at some index a bit is set in one list of blocks and has a value in another. It ends at the first
/// such block.
fn blocks_meet<T: Word>(blocks: &[T], others: &[T], value: bool) -> bool
    requires { length blocks.now ≡ length others.now }
    ensures { IsTrue result ↔ Meets (flat_map T.bits blocks.now) (if value then flat_map T.bits others.now else map not (flat_map T.bits others.now)) }
{
    'each: for k in 0..blocks.len() {
        let common = blocks[k].in_both(matching(others[k], value));
        if common.clear_below() < T::BITS {
            return true;
        }
    }
    false
}

/// Returns whether at some index a bit is set in one list of blocks and not in another. Of many blocks all are read, since it takes
/// longer to end at the first.
fn blocks_lack<T: Word>(blocks: &[T], others: &[T]) -> bool
    requires { length blocks.now ≡ length others.now }
    ensures { IsTrue result ↔ Meets (flat_map T.bits blocks.now) (map not (flat_map T.bits others.now)) }
{
    if blocks.len() < MANY_BLOCKS {
        return blocks_meet(blocks, others, false);
    }
    let mut lacking = T::all(false);
    'each: for k in 0..blocks.len() {
        let alone = blocks[k].in_both(others[k].turn_bits());
        lacking = lacking.in_either(alone);
    }
    if lacking.clear_below() < T::BITS {
        return true;
    }
    false
}
