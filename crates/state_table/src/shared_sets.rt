//! Item sets that store each set of lookaheads once: the items that a closure opens share those of their rule, and
//! none has a set of its own. These are for crates that build states; others see an `Itemset`.

ghost use Rattle.std.specs.Prelude.{◌≡◌, ◌<◌, ◌≤◌, ◌-◌, ◌↔◌, ℕ, [], true, false, length, get_or, option_map, IsTrue, IfOk, IfSome, OnOk, OnErr};
ghost use Rattle.lr_theory.specs.Itemset.{entry_at};
ghost use Rattle.state_table.specs.ItemRows.{no_core, Item, IsAt, ItemBefore, Ascends, IsCoreOf, map_of};
ghost use Rattle.state_table.specs.Itemsets.{IsNewTo};
ghost use Rattle.state_table.specs.Meeting.{rows_in, row};
ghost use Rattle.state_table.specs.OwnSets.{HaveOwn};
ghost use Rattle.state_table.specs.Sharing.{keys_of, shared_core, shared_map, PointIn, IsShared, BelongsAt, KeepsSets, TakesIn, StaysAs};
ghost use Rattle.state_table.specs.CoreViews.{item_of, items_of, core_of_set};

use crate::cores::{CoreItem, CoreSet, comes_before, same_item};
use crate::set_index::SetIndex;
use cfg_base::index::IndexStorage;
use std::alloc::{AllocError, Global};
use vob::Vob;

/// An item, and the index of its lookaheads.
#[derive(Clone, Copy)]
pub struct SharedItem<S> {
    /// The production with its dot.
    pub item: CoreItem<S>,
    /// Where its lookaheads are among the sets.
    pub set: SetIndex,
}

/// Items in ascending order, and the sets of lookaheads that they share.
#[derive(Drop)]
pub struct SharedSets<S> {
    /// In ascending order of production and then dot.
    pub entries: Vec<SharedItem<S>>,
    /// Sets of lookaheads, each with one bit for each token of the grammar. Several items may share one.
    pub sets: Vec<Vob>,
}

/// Returns the index at which an item is, or belongs.
fn index_in<S: IndexStorage>(entries: &[SharedItem<S>], item: &CoreItem<S>) -> usize
    requires { Ascends (keys_of S.number entries.now) }
    ensures within { result ≤ length entries.now }
    ensures below { (k : ℕ) (d : Item) → k < result → ItemBefore (get_or (keys_of S.number entries.now) k d) (item_of S.number item.now) }
    ensures above { (k : ℕ) (d : Item) → result ≤ k → k < length entries.now → ItemBefore (get_or (keys_of S.number entries.now) k d) (item_of S.number item.now) → ⊥ }
{
    'back: for n in 0..entries.len() {
        let last = entries.len() - 1 - n;
        if comes_before(&entries[last].item, item) {
            return last + 1;
        }
    }
    0
}

/// Returns whether an item is at an index.
fn is_at<S: IndexStorage>(entries: &[SharedItem<S>], index: usize, item: &CoreItem<S>) -> bool
    ensures here { result ≡ true → IsAt (keys_of S.number entries.now) index (S.number item.now.pidx.0) (S.number item.now.dot.0) }
    ensures other { result ≡ false → (d : Item) → index < length entries.now → get_or (keys_of S.number entries.now) index d ≡ item_of S.number item.now → ⊥ }
{
    if index >= entries.len() {
        return false;
    }
    same_item(&entries[index].item, item)
}

/// Returns the index of a set like this one, if one of the last four is.
fn like_among(sets: &[Vob], looks: &Vob) -> Option<usize>
    ensures { IfSome result (λ k. (k < length sets.now) × (row (rows_in sets.now) k ≡ looks.now.bits)) }
{
    'back: for n in 0..sets.len().min(4) {
        let last = sets.len() - 1 - n;
        if sets[last] == *looks {
            return Some(last);
        }
    }
    None
}

/// Returns whether the last set is like this one.
fn is_last(sets: &[Vob], looks: &Vob) -> bool
    ensures { result ≡ true → (0 < length sets.now) × (row (rows_in sets.now) (length sets.now - 1) ≡ looks.now.bits) }
{
    let count = sets.len();
    if count == 0 {
        return false;
    }
    sets[count - 1] == *looks
}

/// Items, each with the index of a set of its own.
fn each_own<S: IndexStorage>(
    alloc: Global,
    items: &[CoreItem<S>],
) -> Result<Vec<SharedItem<S>>, AllocError>
    ensures { IfOk result (λ v. HaveOwn S.number (items_of S.number items.now) (length items.now) v.items) }
{
    let mut entries = Vec::with_capacity(alloc, items.len())?;
    'items: for set in 0..items.len() {
        let item = items[set];
        entries.push(SharedItem {
            item,
            set: SetIndex::of(set),
        })?;
    }
    Ok(entries)
}

/// Gives back the room that no set takes, if there is more than a little.
fn give_back(sets: &mut Vec<Vob>)
    ensures { sets.new.items ≡ sets.old.items }
{
    if sets.capacity().saturating_sub(sets.len()) > 2 {
        sets.shrink_to_fit();
    }
}

impl<S: IndexStorage> SharedSets<S> {
    /// Makes a set without items.
    pub fn empty(alloc: Global) -> SharedSets<S>
        ensures core { shared_core S.number result ≡ no_core }
        ensures within { PointIn (rows_in result.sets.items) result.entries.items }
    {
        SharedSets {
            entries: Vec::new(alloc),
            sets: Vec::new(alloc),
        }
    }

    /// Puts a new item with a set of its own at the index at which it belongs.
    fn put(&mut self, index: usize, item: CoreItem<S>, looks: &Vob) -> Result<bool, AllocError>
        requires core { IsCoreOf (length looks.now.bits) (shared_core S.number self.old) }
        requires within { PointIn (rows_in self.old.sets.items) self.old.entries.items }
        requires belongs { BelongsAt (keys_of S.number self.old.entries.items) index (item_of S.number item) }
        ensures added { OnOk result (TakesIn S.number (S.number item.pidx.0) (S.number item.dot.0) looks.now.bits self.old self.new) }
        ensures grew { IfOk result (λ b. IsTrue b ↔ IsNewTo (shared_map S.number self.old) (S.number item.pidx.0) (S.number item.dot.0) looks.now.bits) }
        ensures kept { OnErr result (StaysAs S.number self.old self.new) }
    {
        let own = looks.clone()?;
        let set = self.sets.len();
        self.sets.push(own)?;
        let entry = SharedItem {
            item,
            set: SetIndex::of(set),
        };
        self.entries.insert(index, entry)?;
        Ok(true)
    }

    /// Adds lookaheads to those of the item at an index, which gets a set of its own if it lacks some.
    fn grow(&mut self, index: usize, item: CoreItem<S>, looks: &Vob) -> Result<bool, AllocError>
        requires core { IsCoreOf (length looks.now.bits) (shared_core S.number self.old) }
        requires within { PointIn (rows_in self.old.sets.items) self.old.entries.items }
        requires here { IsAt (keys_of S.number self.old.entries.items) index (S.number item.pidx.0) (S.number item.dot.0) }
        ensures added { OnOk result (TakesIn S.number (S.number item.pidx.0) (S.number item.dot.0) looks.now.bits self.old self.new) }
        ensures grew { IfOk result (λ b. IsTrue b ↔ IsNewTo (shared_map S.number self.old) (S.number item.pidx.0) (S.number item.dot.0) looks.now.bits) }
        ensures kept { OnErr result (StaysAs S.number self.old self.new) }
    {
        let number = self.entries[index].set.get();
        if self.sets[number].holds(looks) {
            return Ok(false);
        }
        let mut joined = self.sets[number].clone()?;
        joined.or(looks);
        let set = self.sets.len();
        self.sets.push(joined)?;
        let entry = &mut self.entries[index];
        entry.set = SetIndex::of(set);
        Ok(true)
    }

    /// Adds an item with its lookaheads, or lookaheads to those of the item that is there, and returns whether
    /// something was new.
    pub fn add(&mut self, item: CoreItem<S>, looks: &Vob) -> Result<bool, AllocError>
        requires core { IsCoreOf (length looks.now.bits) (shared_core S.number self.old) }
        requires within { PointIn (rows_in self.old.sets.items) self.old.entries.items }
        ensures added { OnOk result (TakesIn S.number (S.number item.pidx.0) (S.number item.dot.0) looks.now.bits self.old self.new) }
        ensures grew { IfOk result (λ b. IsTrue b ↔ IsNewTo (shared_map S.number self.old) (S.number item.pidx.0) (S.number item.dot.0) looks.now.bits) }
        ensures kept { OnErr result (StaysAs S.number self.old self.new) }
    {
        let index = index_in(self.entries.as_slice(), &item);
        if is_at(self.entries.as_slice(), index, &item) {
            return self.grow(index, item, looks);
        }
        self.put(index, item, looks)
    }

    /// Returns the lookaheads of an item, if it is there.
    pub fn get(&self, item: &CoreItem<S>) -> Option<&Vob>
        requires { IsShared S.number self.now }
        ensures { option_map (λ v. v.now.bits) result ≡ entry_at (shared_map S.number self.now) (S.number item.now.pidx.0) (S.number item.now.dot.0) }
    {
        let index = index_in(self.entries.as_slice(), item);
        if !is_at(self.entries.as_slice(), index, item) {
            return None;
        }
        Some(&self.sets[self.entries[index].set.get()])
    }

    /// Adds an item with the set at an index, or its lookaheads to those of the item that is there.
    pub fn share(&mut self, item: CoreItem<S>, set: usize) -> Result<(), AllocError>
        requires set { set < length self.old.sets.items }
        requires core { IsCoreOf (length (row (rows_in self.old.sets.items) set)) (shared_core S.number self.old) }
        requires within { PointIn (rows_in self.old.sets.items) self.old.entries.items }
        ensures { OnOk result (TakesIn S.number (S.number item.pidx.0) (S.number item.dot.0) (row (rows_in self.old.sets.items) set) self.old self.new) }
    {
        let index = index_in(self.entries.as_slice(), &item);
        if is_at(self.entries.as_slice(), index, &item) {
            let looks = self.sets[set].clone()?;
            self.grow(index, item, &looks)?;
            return Ok(());
        }
        let entry = SharedItem {
            item,
            set: SetIndex::of(set),
        };
        if index == self.entries.len() {
            self.entries.push(entry)?;
            return Ok(());
        }
        self.entries.insert(index, entry)?;
        Ok(())
    }

    /// Returns the index of a set like this one, which is put behind the others unless the last is like it.
    fn own_set(&mut self, looks: &Vob) -> Result<usize, AllocError>
        ensures entries { OnOk result (self.new.entries.items ≡ self.old.entries.items) }
        ensures within { IfOk result (λ k. k < length (rows_in self.new.sets.items)) }
        ensures like { IfOk result (λ k. row (rows_in self.new.sets.items) k ≡ looks.now.bits) }
        ensures sets { OnOk result (KeepsSets (rows_in self.old.sets.items) (rows_in self.new.sets.items)) }
    {
        if is_last(self.sets.as_slice(), looks) {
            return Ok(self.sets.len() - 1);
        }
        let set = self.sets.len();
        self.sets.push(looks.clone()?)?;
        Ok(set)
    }

    /// Returns the index of a set like this one, which is put behind the others unless one of the last is like
    /// it.
    pub fn set_like(&mut self, looks: &Vob) -> Result<usize, AllocError>
        ensures entries { OnOk result (self.new.entries.items ≡ self.old.entries.items) }
        ensures within { IfOk result (λ k. k < length (rows_in self.new.sets.items)) }
        ensures like { IfOk result (λ k. row (rows_in self.new.sets.items) k ≡ looks.now.bits) }
        ensures sets { OnOk result (KeepsSets (rows_in self.old.sets.items) (rows_in self.new.sets.items)) }
    {
        if let Some(set) = like_among(self.sets.as_slice(), looks) {
            return Ok(set);
        }
        let set = self.sets.len();
        self.sets.push(looks.clone()?)?;
        Ok(set)
    }

    /// Frees memory that no item and no set needs.
    pub fn fit(&mut self)
        ensures core { shared_core S.number self.new ≡ shared_core S.number self.old }
        ensures within { PointIn (rows_in self.old.sets.items) self.old.entries.items → PointIn (rows_in self.new.sets.items) self.new.entries.items }
    {
        self.entries.shrink_to_fit();
        give_back(&mut self.sets);
    }

    /// Copies the items of a core and their sets, one set for neighboring items with equal sets. There is room
    /// for `more_sets` and `more_items` more.
    pub fn of_core(
        alloc: Global,
        core: &CoreSet<S>,
        more_sets: usize,
        more_items: usize,
    ) -> Result<SharedSets<S>, AllocError>
        requires { length core.now.looks.items ≡ length core.now.items.items }
        ensures core { IfOk result (λ s. shared_core S.number s ≡ core_of_set S.number core.now) }
        ensures within { IfOk result (λ s. PointIn (rows_in s.sets.items) s.entries.items) }
    {
        let own = core.items.len();
        let mut shared = SharedSets {
            entries: Vec::with_capacity(alloc, own.saturating_add(more_items))?,
            sets: Vec::with_capacity(alloc, own.saturating_add(more_sets))?,
        };
        'items: for k in 0..core.items.len() {
            let item = core.items[k];
            let set = shared.own_set(&core.looks[k])?;
            shared.entries.push(SharedItem {
                item,
                set: SetIndex::of(set),
            })?;
        }
        Ok(shared)
    }

    /// Returns the items of a core, each with its own set.
    pub fn from_core(alloc: Global, core: CoreSet<S>) -> Result<SharedSets<S>, AllocError>
        requires { length core.looks.items ≡ length core.items.items }
        ensures core { IfOk result (λ s. shared_core S.number s ≡ core_of_set S.number core) }
        ensures within { IfOk result (λ s. PointIn (rows_in s.sets.items) s.entries.items) }
    {
        let CoreSet { items, looks } = core;
        let entries = each_own(alloc, items.as_slice())?;
        Ok(SharedSets {
            entries,
            sets: looks,
        })
    }

    /// Returns the items, each with a copy of its lookaheads.
    pub fn to_core(&self, alloc: Global) -> Result<CoreSet<S>, AllocError>
        requires { PointIn (rows_in self.now.sets.items) self.now.entries.items }
        ensures { IfOk result (λ c. core_of_set S.number c ≡ shared_core S.number self.now) }
    {
        let mut items = Vec::new(alloc);
        let mut looks = Vec::new(alloc);
        'entries: for k in 0..self.entries.len() {
            let entry = &self.entries[k];
            items.push(entry.item)?;
            looks.push(self.sets[entry.set.get()].clone()?)?;
        }
        Ok(CoreSet { items, looks })
    }
}
