//! The numbers of states by their first items.

ghost use Rattle.std.specs.Prelude.{◌≡◌, ◌≢◌, ℕ, ◌<◌, [], ◌∷◌, ◌++◌, length, map, get_or, IfOk, OnOk};
ghost use Rattle.lrtable.specs.States.{list_at};
ghost use Rattle.lrtable.specs.StateViews.{lists_of, numbers_of};
ghost use Rattle.state_table.specs.CoreViews.{item_of};
ghost use Rattle.state_table.specs.ItemRows.{Item};

use cfg_base::index::IndexStorage;
use state_table::cores::CoreItem;
use std::alloc::{AllocError, Global};
use std::slice;

/// Numbers in order. Most items begin one state, whose number takes no memory of its own.
#[derive(Drop)]
pub(crate) enum Numbers {
    None,
    One(usize),
    Many(Vec<usize>),
}

impl Numbers {
    /// Returns the numbers.
    fn as_slice(&self) -> &[usize]
        ensures { result.now ≡ numbers_of self.now }
    {
        match self {
            Numbers::None => &[],
            Numbers::One(number) => slice::from_ref(number),
            Numbers::Many(list) => list.as_slice(),
        }
    }

    /// Puts a number last.
    fn push(&mut self, alloc: Global, number: usize) -> Result<(), AllocError>
        ensures { OnOk result (numbers_of self.new ≡ numbers_of self.old ++ number ∷ []) }
    {
        match self {
            Numbers::None => {
                *self = Numbers::One(number);
                Ok(())
            }
            Numbers::One(first) => {
                let list = pair_of(alloc, *first, number)?;
                *self = Numbers::Many(list);
                Ok(())
            }
            Numbers::Many(list) => {
                list.push(number)?;
                Ok(())
            }
        }
    }
}

/// Returns a list of two numbers.
fn pair_of(alloc: Global, first: usize, second: usize) -> Result<Vec<usize>, AllocError>
    ensures { IfOk result (λ v. v.items ≡ first ∷ second ∷ []) }
{
    let mut list = Vec::with_capacity(alloc, 2)?;
    list.push(first)?;
    list.push(second)?;
    Ok(list)
}

/// Returns the list of an item.
pub(crate) fn numbers_at<'a, S: IndexStorage>(
    lists: &'a [Vec<Numbers>],
    item: &CoreItem<S>,
) -> &'a [usize]
    ensures { result.now ≡ list_at (lists_of lists.now) (item_of S.number item.now) }
{
    let number = item.pidx.0.to_usize();
    if number >= lists.len() {
        return &[];
    }
    let by_dot = &lists[number];
    let dot = item.dot.0.to_usize();
    if dot >= by_dot.len() {
        return &[];
    }
    by_dot[dot].as_slice()
}

/// Adds empty lists until there is one at an index.
fn make_room(alloc: Global, lists: &mut Vec<Vec<Numbers>>, index: usize) -> Result<(), AllocError>
    ensures within { OnOk result (index < length lists.new.items) }
    ensures same { OnOk result ((k : ℕ) → get_or (map (λ l. l.items) lists.new.items) k [] ≡ get_or (map (λ l. l.items) lists.old.items) k []) }
{
    'lists: while lists.len() <= index {
        lists.push(Vec::new(alloc))?;
    }
    Ok(())
}

/// Adds lists without numbers until there is one at an index.
fn make_numbers(lists: &mut Vec<Numbers>, index: usize) -> Result<(), AllocError>
    ensures within { OnOk result (index < length lists.new.items) }
    ensures same { OnOk result ((k : ℕ) → get_or (map numbers_of lists.new.items) k [] ≡ get_or (map numbers_of lists.old.items) k []) }
{
    'lists: while lists.len() <= index {
        lists.push(Numbers::None)?;
    }
    Ok(())
}

/// Puts a number last in the list of an item.
pub(crate) fn put_number<S: IndexStorage>(
    alloc: Global,
    lists: &mut Vec<Vec<Numbers>>,
    item: &CoreItem<S>,
    number: usize,
) -> Result<(), AllocError>
    ensures own { OnOk result (list_at (lists_of lists.new.items) (item_of S.number item.now) ≡ list_at (lists_of lists.old.items) (item_of S.number item.now) ++ number ∷ []) }
    ensures others { OnOk result ((i : Item) → i ≢ item_of S.number item.now → list_at (lists_of lists.new.items) i ≡ list_at (lists_of lists.old.items) i) }
{
    let pidx = item.pidx.0.to_usize();
    make_room(alloc, lists, pidx)?;
    let by_dot = &mut lists[pidx];
    let dot = item.dot.0.to_usize();
    make_numbers(by_dot, dot)?;
    let list = &mut by_dot[dot];
    list.push(alloc, number)?;
    Ok(())
}
