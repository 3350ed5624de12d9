//! Lists to begin with, and what several tests ask of a list.

use std::alloc::{AllocError, Global};
use std::fmt::Debug;
use std::process::Abort;
use vob::error::VobError;
use vob::{Vob, Word};

/// Ends the test unless two values are the same, with a word that says where.
pub fn same<V: PartialEq + Debug + Copy>(rt: &impl Abort, word: &str, found: V, wanted: V) {
    assert!(rt;
        found == wanted,
        "{word}: found {found:?}, wanted {wanted:?}"
    );
}

/// The indices at which an item is set. No block's width divides the period of the mixed ones.
#[derive(Clone, Copy)]
pub enum Items {
    Seconds,
    Thirds,
    Sixths,
    Sevenths,
    SecondsOrThirds,
    EitherAlone,
    Mixed,
}

pub fn is_set(items: Items, index: usize) -> bool {
    match items {
        Items::Seconds => index % 2 == 0,
        Items::Thirds => index % 3 == 0,
        Items::Sixths => index % 6 == 0,
        Items::Sevenths => index % 7 == 0,
        Items::SecondsOrThirds => index % 2 == 0 || index % 3 == 0,
        Items::EitherAlone => (index % 2 == 0) != (index % 3 == 0),
        Items::Mixed => index % 7 == 2 || index % 3 == 0,
    }
}

/// Makes the list of the items at a range of indices, one by one.
pub fn list_of<T: Word>(
    alloc: Global,
    items: Items,
    from: usize,
    to: usize,
) -> Result<Vob<T>, VobError> {
    let mut list = Vob::new_with_storage_type(alloc, 0)?;
    'each: for index in from..to {
        list.push(is_set(items, index))?;
    }
    Ok(list)
}

/// Returns whether a list has just the items at a range of indices, read one by one.
pub fn holds<T: Word>(list: &Vob<T>, items: Items, from: usize, to: usize) -> bool {
    let mut at = 0usize;
    'each: for index in from..to {
        if list.get(at) != Some(is_set(items, index)) {
            return false;
        }
        at = at.saturating_add(1);
    }
    list.get(at).is_none() && list.len() == to.saturating_sub(from)
}

pub fn set_in<T: Word>(list: &Vob<T>) -> usize {
    list.iter_set_bits(..).count()
}

pub fn unset_in<T: Word>(list: &Vob<T>) -> usize {
    list.iter_unset_bits(..).count()
}

/// Makes a list of items that are set, without room for more.
pub fn full(alloc: Global, len: usize) -> Result<Vob<u8>, AllocError> {
    let mut list = Vob::from_elem_with_storage_type(alloc, true, len)?;
    list.shrink_to_fit();
    Ok(list)
}

/// The length of a list, how many items are set, and the first and the last block.
pub type Seen = (usize, usize, Option<usize>, Option<usize>);

pub fn view_of(list: &Vob) -> Seen {
    let blocks = list.get_storage();
    let (first, last) = (blocks.first().copied(), blocks.last().copied());
    (list.len(), set_in(list), first, last)
}
