//! Item sets: items of a grammar with their lookaheads. Closure and goto are in `lrtable`.

ghost use Rattle.std.specs.Prelude.{◌≡◌, ◌<◌, ◌≤◌, ◌↔◌, ◌⊎◌, ℕ, [], true, length, get_or, option_map, IsTrue, IfOk, OnOk, OnErr};
ghost use Rattle.std.specs.Iterator.{YieldsFirstBy, item_count};
ghost use Rattle.cfg_theory.specs.Grammar.{Grammar, body_of};
ghost use Rattle.lr_theory.specs.Itemset.{Entry, entry_at, HasItem, HasLook, SameItems, SameLooks, FitsGrammar};
ghost use Rattle.state_table.specs.Adding.{WithItem, WithLooks};
ghost use Rattle.state_table.specs.Itemsets.{HasWidth, IsNewTo};
ghost use Rattle.state_table.specs.ItemWalks.{entry_seen};
ghost use Rattle.state_table.specs.Sharing.{shared_map, IsShared};

use crate::cores::CoreItem;
use crate::shared_sets::SharedSets;
use cfg_base::index::IndexStorage;
use cfg_base::symbol::{PIdx, SIdx};
use std::alloc::{AllocError, Global};
use std::marker::Model;
use vob::Vob;

/// A set of items with lookaheads. Items that a closure opens share their sets of tokens. Contracts see a finite map,
/// as the list of its entries in ascending order: from items, a production with a dot, to a flag for each token.
#[derive(Drop)]
pub struct Itemset<S: IndexStorage> {
    set: SharedSets<S>,
}

impl<S: IndexStorage> Model for Itemset<S> {
    ghost use Rattle.lr_theory.specs.Itemset.{ItemSet};
    ghost use Rattle.state_table.specs.Sharing.{shared_map, IsShared};

    ghost Value = { ItemSet };

    ghost view = { λ s. shared_map S.number s.set };

    ghost invariant = { λ s. IsShared S.number s.set };
}

/// Returns the item set of items that share their sets, for crates that build states.
pub fn of_shared<S: IndexStorage>(set: SharedSets<S>) -> Itemset<S>
    requires { IsShared S.number set }
    ensures { result ≡ shared_map S.number set }
{
    Itemset { set }
}

impl<S: IndexStorage> Itemset<S> {
    /// Makes a set without items.
    pub fn new(alloc: Global) -> Self
        ensures none { result ≡ [] }
        ensures fits { (G : Grammar) → FitsGrammar G result }
    {
        Itemset {
            set: SharedSets::empty(alloc),
        }
    }

    /// Adds lookaheads to those of an item, which is added where it isn't there, and returns whether something
    /// was new: the item, or one of the lookaheads. There is a flag for each token in `ctx`, as in the sets that
    /// are there.
    pub fn add(&mut self, pidx: PIdx<S>, dot: SIdx<S>, ctx: &Vob) -> Result<bool, AllocError>
        requires { HasWidth (length ctx.now.bits) self.old }
        ensures items { OnOk result (SameItems (WithItem (HasItem self.old) (S.number pidx.0) (S.number dot.0)) (HasItem self.new)) }
        ensures looks { OnOk result (SameLooks (WithLooks (HasLook self.old) (S.number pidx.0) (S.number dot.0) ctx.now.bits) (HasLook self.new)) }
        ensures width { OnOk result (HasWidth (length ctx.now.bits) self.new) }
        ensures fits { OnOk result ((G : Grammar) → FitsGrammar G self.old → S.number pidx.0 < length G.productions → S.number dot.0 ≤ length (body_of G (S.number pidx.0)) → length ctx.now.bits ≡ G.tokens → FitsGrammar G self.new) }
        ensures grew { IfOk result (λ b. IsTrue b ↔ IsNewTo self.old (S.number pidx.0) (S.number dot.0) ctx.now.bits) }
        ensures kept { OnErr result (self.new ≡ self.old) }
    {
        let grew = self.set.add(CoreItem { pidx, dot }, ctx)?;
        Ok(grew)
    }

    /// Returns how many items there are.
    pub fn len(&self) -> usize
        ensures { result ≡ length self.now }
    {
        self.set.entries.len()
    }

    /// Returns the item at an index: its production and its dot. Items ascend by production, then by dot.
    pub fn item_at(&self, index: usize) -> (PIdx<S>, SIdx<S>)
        requires { index < length self.now }
        ensures production { (e : Entry) → S.number result.0.0 ≡ (get_or self.now index e).production }
        ensures dot { (e : Entry) → S.number result.1.0 ≡ (get_or self.now index e).dot }
    {
        let entry = &self.set.entries[index];
        (entry.item.pidx, entry.item.dot)
    }

    /// Returns the lookaheads of the item at an index.
    pub fn looks_at(&self, index: usize) -> &Vob
        requires { index < length self.now }
        ensures { (e : Entry) → result.now.bits ≡ (get_or self.now index e).lookaheads }
    {
        let entry = &self.set.entries[index];
        &self.set.sets[entry.set.get()]
    }

    /// Walks over the items with their lookaheads, ascending by production, then by dot.
    pub fn items(&self) -> Items<'_, S>
        ensures { result ≡ self.now }
    {
        Items {
            itemset: self,
            index: 0,
        }
    }

    /// Returns the items with the sets that they share, for crates that build states.
    pub fn shared_sets(&self) -> &SharedSets<S>
        ensures value { shared_map S.number result.now ≡ self.now }
        ensures kept { IsShared S.number result.now }
    {
        &self.set
    }

    /// Returns the lookaheads of an item, if it is there.
    pub fn get(&self, pidx: PIdx<S>, dot: SIdx<S>) -> Option<&Vob>
        ensures { option_map (λ v. v.now.bits) result ≡ entry_at self.now (S.number pidx.0) (S.number dot.0) }
    {
        self.set.get(&CoreItem { pidx, dot })
    }
}

/// The items of a set with their lookaheads, ascending. Contracts see the entries that are left.
#[derive(Drop)]
pub struct Items<'a, S: IndexStorage> {
    itemset: &'a Itemset<S>,
    index: usize,
}

impl<'a, S: IndexStorage> Model for Items<'a, S> {
    ghost use Rattle.std.specs.Prelude.{length, drop, ◌≤◌};
    ghost use Rattle.lr_theory.specs.Itemset.{ItemSet};

    ghost Value = { ItemSet };

    ghost view = { λ w. drop w.index w.itemset.now };

    ghost invariant = { λ w. w.index ≤ length w.itemset.now };
}

impl<'a, S: IndexStorage> Iterator for Items<'a, S> {
    type Item = ((PIdx<S>, SIdx<S>), &'a Vob);

    ghost next_gives = { YieldsFirstBy (entry_seen S.number) (λ s. s) };

    ghost remaining = { item_count (λ s. s) };

    fn next(&mut self) -> Option<((PIdx<S>, SIdx<S>), &'a Vob)> {
        let itemset = self.itemset;
        let index = self.index;
        if index == itemset.len() {
            return None;
        }
        self.index = index + 1;
        Some((itemset.item_at(index), itemset.looks_at(index)))
    }
}
