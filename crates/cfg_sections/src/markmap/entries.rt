//! Entries of keys, for several steps at one key.

ghost use Rattle.std.specs.Prelude.{◌≡◌, IfOk, OnErr, OnOk, IsOk, None, Some, is_some, true, false};
ghost use Rattle.std.specs.Borrow.{sem};
ghost use Rattle.cfg_sections.specs.MarkMaps.{ClonesAreEqual, SetsMarks, SetsValue, is_stored, marks_at, stored_keys, value_at};

use super::{MarkMap, Marks, MergeBehavior};
use std::alloc::AllocError;

/// The entry of a key, which has a value or none.
#[derive(Drop)]
pub enum Entry<'a, K: Ord, V> {
    /// The key has a value.
    Occupied(OccupiedEntry<'a, K, V>),
    /// The key has no value; it may have marks.
    Vacant(VacantEntry<'a, K, V>),
}

/// The entry of a key that has a value.
#[derive(Drop)]
pub struct OccupiedEntry<'a, K: Ord, V> {
    map: &'a mut MarkMap<K, V>,
    key: K,
    ghost has: { is_some (value_at K.cmp map.now key) ≡ true },
}

/// The entry of a key that has no value. It may have marks.
#[derive(Drop)]
pub struct VacantEntry<'a, K: Ord, V> {
    map: &'a mut MarkMap<K, V>,
    key: K,
    ghost lacks: { is_some (value_at K.cmp map.now key) ≡ false },
}

impl<K: Ord, V> MarkMap<K, V> {
    ghost use Rattle.cfg_sections.specs.Entries.{entry_key, entry_map_ref, is_occupied};

    /// Returns the entry of a key: `Occupied` if and only if it has a value.
    pub fn entry(&mut self, key: K) -> Entry<'_, K, V>
        ensures same_map { (entry_map_ref result).ghost_name ≡ self.entry.ghost_name }
        ensures unchanged { (entry_map_ref result).now ≡ self.old }
        ensures key { entry_key result ≡ key }
        ensures variant { is_occupied result ≡ is_some (value_at K.cmp self.old key) }
    {
        if self.contains_key(&key) {
            return Entry::Occupied(OccupiedEntry { map: self, key });
        }
        Entry::Vacant(VacantEntry { map: self, key })
    }
}

impl<'a, K: Ord, V> OccupiedEntry<'a, K, V> {
    ghost use Rattle.cfg_sections.specs.Entries.{IsSameEntry, occupied_key, occupied_map};

    /// Returns the value.
    pub fn get(&self) -> &V
        ensures { value_at K.cmp (occupied_map self.now) (occupied_key self.now) ≡ Some result.now }
    {
        self.map.get(&self.key).unwrap()
    }

    /// Gives the key another value, and returns the one that it had. Its marks stay.
    pub fn insert(&mut self, value: V) -> V
        ensures entry { IsSameEntry self.old self.new }
        ensures old { value_at K.cmp (occupied_map self.old) (occupied_key self.old) ≡ Some result }
        ensures value { SetsValue K.cmp (occupied_map self.old) (occupied_map self.new) (occupied_key self.old) (Some value) }
        ensures stored { stored_keys (occupied_map self.new) ≡ stored_keys (occupied_map self.old) }
    {
        self.map.replace_value(&self.key, value)
    }

    /// Returns the marks of the key.
    pub fn get_mark(&self) -> Marks
        ensures { result ≡ marks_at K.cmp (occupied_map self.now) (occupied_key self.now) }
    {
        self.map.marks_of(&self.key)
    }

    /// Marks the key as used.
    pub fn mark_used(&mut self)
        ensures entry { IsSameEntry self.old self.new }
        ensures marks { let marks = marks_at K.cmp (occupied_map self.old) (occupied_key self.old) in
            SetsMarks K.cmp (occupied_map self.old) (occupied_map self.new) (occupied_key self.old) (record marks { used = true }) }
        ensures stored { stored_keys (occupied_map self.new) ≡ stored_keys (occupied_map self.old) }
    {
        let marks = self.get_mark();
        let marks = Marks {
            used: true,
            ..marks
        };
        self.map.replace_marks(&self.key, marks);
    }

    /// Returns whether the key is marked as used.
    pub fn is_used(&self) -> bool
        ensures { result ≡ (marks_at K.cmp (occupied_map self.now) (occupied_key self.now)).used }
    {
        self.get_mark().used
    }

    /// Marks the key as required.
    pub fn mark_required(&mut self)
        ensures entry { IsSameEntry self.old self.new }
        ensures marks { let marks = marks_at K.cmp (occupied_map self.old) (occupied_key self.old) in
            SetsMarks K.cmp (occupied_map self.old) (occupied_map self.new) (occupied_key self.old) (record marks { required = true }) }
        ensures stored { stored_keys (occupied_map self.new) ≡ stored_keys (occupied_map self.old) }
    {
        let marks = self.get_mark();
        let marks = Marks {
            required: true,
            ..marks
        };
        self.map.replace_marks(&self.key, marks);
    }

    /// Returns whether the key is marked as required.
    pub fn is_required(&self) -> bool
        ensures { result ≡ (marks_at K.cmp (occupied_map self.now) (occupied_key self.now)).required }
    {
        self.get_mark().required
    }

    /// Sets what a merge does with the key.
    pub fn set_merge_behavior(&mut self, behavior: MergeBehavior)
        ensures entry { IsSameEntry self.old self.new }
        ensures marks { let marks = marks_at K.cmp (occupied_map self.old) (occupied_key self.old) in
            SetsMarks K.cmp (occupied_map self.old) (occupied_map self.new) (occupied_key self.old) (record marks { behavior = Some behavior }) }
        ensures stored { stored_keys (occupied_map self.new) ≡ stored_keys (occupied_map self.old) }
    {
        let marks = self.get_mark();
        let marks = Marks {
            behavior: Some(behavior),
            ..marks
        };
        self.map.replace_marks(&self.key, marks);
    }
}

impl<'a, K: Ord, V> VacantEntry<'a, K, V> {
    ghost use Rattle.cfg_sections.specs.Entries.{Fills, IsSameVacant, lends_filled, rests_if_refused, vacant_key, vacant_map};

    /// Returns the key, as it was asked for.
    pub fn key(&self) -> &K
        ensures { result.now ≡ vacant_key self.now }
    {
        &self.key
    }

    /// Gives the key a value, and lends it. A stored key stays, and so do its marks, and no memory is taken for
    /// it. Clones of keys equal them.
    pub fn insert(self, value: V) -> Result<&'a mut V, AllocError>
    where
        K: Clone + Drop,
        V: Drop,
        requires { ClonesAreEqual K.is_clone K.cmp }
        ensures* writes_back { sem 𝓛 (lends_filled K.row V.row self.entry result) }
        ensures value { IfOk result (λ x. x.now ≡ value) }
        ensures in_place { is_stored K.cmp (vacant_map self.entry) (vacant_key self.entry) ≡ true → IsOk result }
    {
        let VacantEntry { map, key } = self;
        let kept = map.put_value(key, value)?;
        match map.value_mut(&kept) {
            Some(value) => Ok(value),
            None => unreachable!(),
        }
    }

    /// Gives the key a value, and returns its entry. A stored key stays, and so do its marks, and no memory is
    /// taken for it. Clones of keys equal them.
    pub fn insert_entry(self, value: V) -> Result<OccupiedEntry<'a, K, V>, AllocError>
    where
        K: Clone + Drop,
        V: Drop,
        requires { ClonesAreEqual K.is_clone K.cmp }
        ensures* err { sem 𝓛 (rests_if_refused K.row V.row self.entry result) }
        ensures ok { IfOk result (Fills self.entry value) }
        ensures in_place { is_stored K.cmp (vacant_map self.entry) (vacant_key self.entry) ≡ true → IsOk result }
    {
        let VacantEntry { map, key } = self;
        let key = map.put_value(key, value)?;
        Ok(OccupiedEntry { map, key })
    }

    /// Marks the key as required, and makes it, without a value, where it is absent, which alone takes memory.
    /// Clones of keys equal them.
    pub fn mark_required(&mut self) -> Result<(), AllocError>
    where
        K: Clone,
        V: Drop,
        requires { ClonesAreEqual K.is_clone K.cmp }
        ensures entry { IsSameVacant self.old self.new }
        ensures ok { let marks = marks_at K.cmp (vacant_map self.old) (vacant_key self.old) in
            OnOk result (SetsMarks K.cmp (vacant_map self.old) (vacant_map self.new) (vacant_key self.old) (record marks { required = true })) }
        ensures in_place { is_stored K.cmp (vacant_map self.old) (vacant_key self.old) ≡ true → IsOk result }
        ensures err { OnErr result (vacant_map self.new ≡ vacant_map self.old) }
    {
        self.map.mark_required(&self.key)
    }

    /// Sets what a merge does with the key, and makes it, without a value, where it is absent, which alone
    /// takes memory. Clones of keys equal them.
    pub fn set_merge_behavior(&mut self, behavior: MergeBehavior) -> Result<(), AllocError>
    where
        K: Clone,
        V: Drop,
        requires { ClonesAreEqual K.is_clone K.cmp }
        ensures entry { IsSameVacant self.old self.new }
        ensures ok { let marks = marks_at K.cmp (vacant_map self.old) (vacant_key self.old) in
            OnOk result (SetsMarks K.cmp (vacant_map self.old) (vacant_map self.new) (vacant_key self.old) (record marks { behavior = Some behavior })) }
        ensures in_place { is_stored K.cmp (vacant_map self.old) (vacant_key self.old) ≡ true → IsOk result }
        ensures err { OnErr result (vacant_map self.new ≡ vacant_map self.old) }
    {
        self.map.set_merge_behavior(&self.key, behavior)
    }
}
