//! Items in ascending order, each with its lookaheads: the cores of states, and the sets that become states. These are for
//! crates that build states; others see an `Itemset`.

ghost use Rattle.std.specs.Prelude.{◌≡◌, ◌<◌, ◌≤◌, ◌↔◌, ℕ, true, false, [], length, get_or, IfOk, IsTrue, OnOk};
ghost use Rattle.std.specs.List.{insert};
ghost use Rattle.state_table.specs.Adding.{Adds};
ghost use Rattle.state_table.specs.ItemRows.{no_core, Item, IsAt, ItemBefore, Ascends, IsCoreOf, map_of};
ghost use Rattle.state_table.specs.Meeting.{rows_in};
ghost use Rattle.state_table.specs.CoreViews.{item_of, items_of, core_of_set};

use cfg_base::index::IndexStorage;
use cfg_base::symbol::{PIdx, SIdx};
use std::alloc::{AllocError, Global};
use vob::Vob;

/// A production with a dot.
#[derive(Clone, Copy)]
pub struct CoreItem<S> {
    /// The production's number.
    pub pidx: PIdx<S>,
    /// The number of symbols before the dot.
    pub dot: SIdx<S>,
}

/// Items in ascending order, and the lookaheads of each.
#[derive(Drop)]
pub struct CoreSet<S> {
    /// In ascending order of production and then dot.
    pub items: Vec<CoreItem<S>>,
    /// For each item, at the same index, its lookaheads: one bit for each token of the grammar.
    pub looks: Vec<Vob>,
}

/// Returns whether two lists have the same items.
pub fn same_items<S: IndexStorage>(a: &[CoreItem<S>], b: &[CoreItem<S>]) -> bool
    ensures { IsTrue result ↔ (items_of S.number a.now ≡ items_of S.number b.now) }
{
    if a.len() != b.len() {
        return false;
    }
    'each: for i in 0..a.len() {
        if !same_item(&a[i], &b[i]) {
            return false;
        }
    }
    true
}

/// Returns whether two items are one.
pub fn same_item<S: IndexStorage>(a: &CoreItem<S>, b: &CoreItem<S>) -> bool
    ensures { IsTrue result ↔ (item_of S.number a.now ≡ item_of S.number b.now) }
{
    if a.pidx.0.to_usize() != b.pidx.0.to_usize() {
        return false;
    }
    a.dot.0.to_usize() == b.dot.0.to_usize()
}

/// Returns whether the first item comes before the second: by production, then by dot.
pub fn comes_before<S: IndexStorage>(a: &CoreItem<S>, b: &CoreItem<S>) -> bool
    ensures { IsTrue result ↔ ItemBefore (item_of S.number a.now) (item_of S.number b.now) }
{
    let first = a.pidx.0.to_usize();
    let second = b.pidx.0.to_usize();
    if first != second {
        return first < second;
    }
    a.dot.0.to_usize() < b.dot.0.to_usize()
}

/// Puts a value at an index of a list, most often at its end.
pub fn put_in<T: Drop>(list: &mut Vec<T>, index: usize, value: T) -> Result<(), AllocError>
    requires { index ≤ length list.old.items }
    ensures { OnOk result (list.new.items ≡ insert list.old.items index value) }
{
    if index == list.len() {
        list.push(value)?;
        return Ok(());
    }
    list.insert(index, value)?;
    Ok(())
}

impl<S: IndexStorage> CoreSet<S> {
    /// Returns a set without items.
    pub fn empty(alloc: Global) -> CoreSet<S>
        ensures { core_of_set S.number result ≡ no_core }
    {
        CoreSet {
            items: Vec::new(alloc),
            looks: Vec::new(alloc),
        }
    }
}
