//! Iterators over the keys that have a value.

ghost use Rattle.std.specs.Prelude.{◌≡◌, is_some};
ghost use Rattle.std.specs.Iterator.{YieldsFirstRef, YieldsFirstBy, item_count};
ghost use Rattle.std.specs.Map.Iter.{deref_pair};
ghost use Rattle.std.specs.List.Sorted.{IsStrictlySortedBy};
ghost use Rattle.std.specs.Ordering.{eq_by_cmp};
ghost use Rattle.std.specs.Set.{is_member};
ghost use Rattle.cfg_sections.specs.MarkMaps.{keys_of, pairs_of, value_at};

use super::{MarkMap, Slot};
use std::collections::btree_map;
use std::marker::Model;

/// An iterator over the keys of a `MarkMap` that have a value, in order.
#[derive(Drop)]
pub struct Keys<'a, K, V> {
    slots: btree_map::Iter<'a, K, Slot<V>>,
}

impl<'a, K, V> Model for Keys<'a, K, V> {
    ghost use Rattle.std.specs.Prelude.{List};
    ghost use Rattle.cfg_sections.specs.MarkMaps.{keys_among};

    ghost Value = { List K };

    ghost view = { λ w. keys_among w.slots };
}

impl<'a, K, V> Iterator for Keys<'a, K, V> {
    type Item = &'a K;

    ghost next_gives = { YieldsFirstRef (λ s. s) };

    ghost remaining = { item_count (λ s. s) };

    fn next(&mut self) -> Option<&'a K> {
        loop {
            let (key, slot) = self.slots.next()?;
            if slot.value.is_some() {
                return Some(key);
            }
        }
    }
}

/// An iterator over the keys of a `MarkMap` that have a value, with it, in the keys' order.
#[derive(Drop)]
pub struct MarkMapIterRef<'a, K, V> {
    slots: btree_map::Iter<'a, K, Slot<V>>,
}

impl<'a, K, V> Model for MarkMapIterRef<'a, K, V> {
    ghost use Rattle.std.specs.Prelude.{List};
    ghost use Rattle.cfg_sections.specs.MarkMaps.{pairs_among};

    ghost Value = { List (K × V) };

    ghost view = { λ w. pairs_among w.slots };
}

impl<'a, K, V> Iterator for MarkMapIterRef<'a, K, V> {
    type Item = (&'a K, &'a V);

    ghost next_gives = { YieldsFirstBy deref_pair (λ s. s) };

    ghost remaining = { item_count (λ s. s) };

    fn next(&mut self) -> Option<(&'a K, &'a V)> {
        loop {
            let (key, slot) = self.slots.next()?;
            if let Some(value) = &slot.value {
                return Some((key, value));
            }
        }
    }
}

impl<K: Ord, V> MarkMap<K, V> {
    /// Returns an iterator over the keys that have a value, in order.
    pub fn keys(&self) -> Keys<'_, K, V>
        ensures rest { result ≡ keys_of self.now }
        ensures ordered { IsStrictlySortedBy K.cmp (keys_of self.now) }
        ensures each { (q : K) → is_member (eq_by_cmp K.cmp) (keys_of self.now) q ≡ is_some (value_at K.cmp self.now q) }
    {
        Keys {
            slots: self.slots.iter(),
        }
    }
}

impl<'a, K: Ord, V> IntoIterator for &'a MarkMap<K, V> {
    type Item = (&'a K, &'a V);

    type IntoIter = MarkMapIterRef<'a, K, V>;

    ghost into_iter_gives = { λ m r. r ≡ pairs_of m.now };

    fn into_iter(self) -> MarkMapIterRef<'a, K, V> {
        MarkMapIterRef {
            slots: self.slots.iter(),
        }
    }
}
