//! Items that move over a symbol. An item has the source of its lookaheads in place of a copy.

ghost use Rattle.std.specs.Prelude.{◌≡◌, ◌<◌, ℕ, [], length, get_or, IfOk, IsTrue, OnOk, ◌↔◌};
ghost use Rattle.std.specs.List.{insert};
ghost use Rattle.state_table.specs.ItemRows.{Ascends, BelongsAt};
ghost use Rattle.state_table.specs.Meeting.{rows_in};
ghost use Rattle.lrtable.specs.MovedItems.{AreWide, core_of_moved, moved_item, moved_items, row_from, rows_from};
ghost use Rattle.lrtable.specs.Opening.{IsOpen};
ghost use Rattle.state_table.specs.CoreViews.{core_of_set, item_of, items_of};

use crate::flags::Flags;
use crate::opening::Opening;
use cfg_base::index::IndexStorage;
use state_table::cores::{CoreItem, CoreSet, comes_before, put_in, same_item};
use std::alloc::{AllocError, Global};
use std::marker::Model;
use vob::Vob;

/// Where lookaheads are stored: with an item of the core that is moved, or with a rule that the core opens.
#[derive(Clone, Copy)]
pub(crate) enum Source {
    Own(usize),
    Rule(usize),
}

/// An item that moved, and the source of its lookaheads.
#[derive(Clone, Copy)]
pub(crate) struct MovedItem<S> {
    pub item: CoreItem<S>,
    pub source: Source,
}

/// The lookaheads of a core's items, and those of the rules that it opens.
#[derive(Drop)]
pub(crate) struct Rows<'a> {
    own: &'a [Vob],
    opening: &'a Opening,
}

impl<'a> Model for Rows<'a> {
    ghost use Rattle.lrtable.specs.LookRows.{LookRows};
    ghost use Rattle.state_table.specs.Meeting.{rows_in};

    ghost Value = { LookRows };

    ghost view = { λ r. record { own = rows_in r.own.now; opening = r.opening.now } };
}

impl<'a> Rows<'a> {
    /// Returns the rows of a core's items, and of the rules that its closure opens.
    pub(crate) fn new(own: &'a [Vob], opening: &'a Opening) -> Rows<'a>
        ensures { result ≡ record { own = rows_in own.now; opening = opening.now } }
    {
        Rows { own, opening }
    }

    /// Returns the lookaheads of a source, where there are some.
    pub(crate) fn row(&self, source: Source) -> &Vob
        requires { 0 < length (row_from self.now source) }
        ensures { result.now.bits ≡ row_from self.now source }
    {
        match source {
            Source::Own(k) => &self.own[k],
            Source::Rule(rule) => self.opening.row(rule),
        }
    }

    /// Returns the lookaheads of a rule.
    pub(crate) fn of_rule(&self, rule: usize) -> &Vob
        requires { rule < length self.now.opening.rows }
        ensures bits { result.now.bits ≡ get_or self.now.opening.rows rule [] }
        ensures width { length result.now.bits ≡ self.now.opening.tokens }
    {
        self.opening.row(rule)
    }

    /// Returns whether a rule is open.
    pub(crate) fn is_open(&self, rule: usize) -> bool
        requires { rule < length self.now.opening.opened }
        ensures { IsTrue result ↔ IsOpen self.now.opening rule }
    {
        self.opening.is_open(rule)
    }

    /// Returns a flag for each rule: whether it is open.
    pub(crate) fn open_flags(&self) -> &Flags
        ensures { result.now.bits ≡ self.now.opening.opened }
    {
        self.opening.open_flags()
    }
}

/// Returns the index at which an item belongs.
fn index_of<S: IndexStorage>(items: &[MovedItem<S>], item: &CoreItem<S>) -> usize
    requires { Ascends (moved_items S.number items.now) }
    ensures { BelongsAt (moved_items S.number items.now) (item_of S.number item.now) result }
{
    'back: for n in 0..items.len() {
        let last = items.len() - 1 - n;
        if comes_before(&items[last].item, item) {
            return last + 1;
        }
    }
    0
}

/// Puts an item where it belongs.
pub(crate) fn put_moved<S: IndexStorage>(
    items: &mut Vec<MovedItem<S>>,
    moved: MovedItem<S>,
) -> Result<(), AllocError>
    requires { Ascends (moved_items S.number items.old.items) }
    ensures { OnOk result ((k : ℕ) × BelongsAt (moved_items S.number items.old.items) (moved_item S.number moved) k × (items.new.items ≡ insert items.old.items k moved)) }
{
    let index = index_of(items.as_slice(), &moved.item);
    put_in(items, index, moved)?;
    Ok(())
}

/// Inserts a moved item of a core, unless it is there. A core has few items; the many of the rules that it opens are
/// inserted by a loop of their own.
pub(crate) fn insert_moved<S: IndexStorage>(
    items: &mut Vec<MovedItem<S>>,
    moved: MovedItem<S>,
) -> Result<(), AllocError>
    requires { Ascends (moved_items S.number items.old.items) }
    ensures { OnOk result ((k : ℕ) × BelongsAt (moved_items S.number items.old.items) (moved_item S.number moved) k × (items.new.items ≡ insert items.old.items k moved)) }
{
    let place = index_of(items.as_slice(), &moved.item);
    items.insert(place, moved)?;
    Ok(())
}

/// Returns whether moved items are those of a core.
pub(crate) fn same_items<S: IndexStorage>(core: &[CoreItem<S>], moved: &[MovedItem<S>]) -> bool
    ensures { IsTrue result ↔ (items_of S.number core.now ≡ moved_items S.number moved.now) }
{
    if core.len() != moved.len() {
        return false;
    }
    'each: for i in 0..core.len() {
        if !same_item(&core[i], &moved[i].item) {
            return false;
        }
    }
    true
}

/// Copies moved items and their lookaheads into a core.
pub(crate) fn to_core<S: IndexStorage>(
    alloc: Global,
    moved: &[MovedItem<S>],
    rows: &Rows<'_>,
) -> Result<CoreSet<S>, AllocError>
    requires { AreWide (rows_from rows.now moved.now) }
    ensures { IfOk result (λ c. core_of_set S.number c ≡ core_of_moved S.number rows.now moved.now) }
{
    let mut items = Vec::with_capacity(alloc, moved.len())?;
    let mut looks = Vec::with_capacity(alloc, moved.len())?;
    'each: for i in 0..moved.len() {
        items.push(moved[i].item)?;
        looks.push(rows.row(moved[i].source).clone()?)?;
    }
    Ok(CoreSet { items, looks })
}
