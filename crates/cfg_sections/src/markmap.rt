//! A map with marks on its keys, which can be merged with another.

ghost use Rattle.std.specs.Prelude.{◌≡◌, ◌↔◌, unwrap_or, ◌++◌, ◌∷◌, if◌then◌else◌, IfOk, OnOk, OnErr, IsOk, Some, None, true, is_some, is_none, not, ◌&&◌, [], map};
ghost use Rattle.std.specs.Option.{option_copied, option_copied_mut};
ghost use Rattle.std.specs.Borrow.{sem};
ghost use Rattle.std.specs.BTreeMap.{get, insert_entry, is_at, keys};
ghost use Rattle.std.specs.Map.{remove_entry};
ghost use Rattle.std.specs.List.Sorted.{IsStrictlySortedBy};
ghost use Rattle.std.specs.Ordering.{eq_by_cmp};
ghost use Rattle.std.specs.Set.{is_member};
ghost use Rattle.std.specs.declared.cmp.Ordering.TheVariants.{Equal};
ghost use Rattle.cfg_sections.specs.declared.markmap.MergeBehavior.TheVariants.{MutuallyExclusive as Exclusive};
ghost use Rattle.cfg_sections.specs.MarkMaps.{ClonesAreEqual, blank, unmarked, SetsValue, SetsMarks, Forgets, behavior_at, is_stored, slot_in, stored_keys, value_at, marks_at, keys_of, unused_of, missing_of};

use std::alloc::{AllocError, Global};
use std::collections::BTreeMap;
use std::marker::Model;
use std::mem::replace;

mod entries;
mod iterators;
mod merge;

pub use entries::{Entry, OccupiedEntry, VacantEntry};
pub use iterators::{Keys, MarkMapIterRef};
pub use merge::MergeError;

/// What a merge does with a key that has a value on both sides.
#[derive(Clone, Copy, Debug, PartialEq, Eq)]
pub enum MergeBehavior {
    /// The other map's value replaces this one's.
    Theirs,
    /// This map's value stays.
    Ours,
    /// The merge is refused.
    MutuallyExclusive,
}

/// The marks of a key.
#[derive(Clone, Copy, Debug, PartialEq, Eq)]
pub struct Marks {
    /// Whether a reader of the map has looked at the key; a value whose key isn't used is listed by `unused`.
    pub used: bool,
    /// Whether the key has to have a value; one without is listed by `missing`.
    pub required: bool,
    /// What a merge does with the key; the map's default where there is none.
    pub behavior: Option<MergeBehavior>,
}

/// What a map has at a key.
#[derive(Drop)]
pub struct Slot<V> {
    /// `None` where the key has marks alone.
    pub value: Option<V>,
    /// What was marked of the key, whether it has a value or not.
    pub marks: Marks,
}

/// A finite map from keys, in order, to an optional value and marks.
#[derive(Drop)]
pub struct MarkMap<K: Ord, V> {
    slots: BTreeMap<K, Slot<V>>,
    default: MergeBehavior,
    alloc: Global,
}

impl<K: Ord, V> Model for MarkMap<K, V> {
    ghost use Rattle.cfg_sections.specs.MarkMaps.{Marked};

    ghost Value = { Marked K V };

    ghost view = { λ m. record { entries = m.slots.entries; default = m.default } };
}

// Returns marks that say nothing.
fn no_marks() -> Marks
    ensures { result ≡ unmarked }
{
    Marks {
        used: false,
        required: false,
        behavior: None,
    }
}

impl<V> Slot<V> {
    // Returns whether there is a value that isn't marked as used.
    fn is_unused(&self) -> bool
        ensures { result ≡ (is_some self.now.value && not self.now.marks.used) }
    {
        self.value.is_some() && !self.marks.used
    }

    // Puts another value in, and returns the one that was there.
    fn replace_value(&mut self, value: V) -> V
        requires { is_some self.old.value ≡ true }
        ensures old { self.old.value ≡ Some result }
        ensures slot { self.new ≡ record self.old { value = Some value } }
    {
        replace(&mut self.value, Some(value)).unwrap()
    }

    // Returns whether a value is required and not there.
    fn is_missing(&self) -> bool
        ensures { result ≡ (self.now.marks.required && is_none self.now.value) }
    {
        self.marks.required && self.value.is_none()
    }
}

// Makes a slot with neither a value nor a mark.
fn blank_slot<V>() -> Slot<V>
    ensures { result ≡ blank }
{
    Slot {
        value: None,
        marks: no_marks(),
    }
}

// Returns the value of a slot that was taken out.
fn value_of<V>(slot: Option<Slot<V>>) -> Option<V>
    ensures { result ≡ (unwrap_or slot blank).value }
{
    match slot {
        Some(slot) => slot.value,
        None => None,
    }
}

impl<K: Ord, V> MarkMap<K, V> {
    /// Makes a map without a key. A merge with values on both sides of a key is refused, until another
    /// default is set.
    pub fn new(alloc: Global) -> MarkMap<K, V>
        ensures empty { result.entries ≡ [] }
        ensures default { result.default ≡ Exclusive }
    {
        MarkMap {
            slots: BTreeMap::new(alloc),
            default: MergeBehavior::MutuallyExclusive,
            alloc,
        }
    }

    /// Gives a key a value, and returns the one that it had. A stored key stays, and so do its marks, and no
    /// memory is taken for it.
    pub fn insert(&mut self, key: K, value: V) -> Result<Option<V>, AllocError>
    where
        K: Drop,
        V: Drop,
        ensures old { IfOk result (λ old. old ≡ value_at K.cmp self.old key) }
        ensures ok { OnOk result (SetsValue K.cmp self.old self.new key (Some value)) }
        ensures entries { OnOk result (self.new.entries ≡ insert_entry K.cmp self.old.entries key
            (record { value = Some value; marks = marks_at K.cmp self.old key })) }
        ensures stored { OnOk result (is_stored K.cmp self.old key ≡ true → stored_keys self.new ≡ stored_keys self.old) }
        ensures in_place { is_stored K.cmp self.old key ≡ true → IsOk result }
        ensures err { OnErr result (self.new ≡ self.old) }
    {
        let marks = self.marks_of(&key);
        let slot = Slot {
            value: Some(value),
            marks,
        };
        let old = self.slots.insert(key, slot)?;
        Ok(value_of(old))
    }

    /// Returns the value of a key, if it has one.
    pub fn get(&self, key: &K) -> Option<&V>
        ensures { option_copied result ≡ value_at K.cmp self.now key.now }
    {
        match self.slots.get(key) {
            Some(slot) => slot.value.as_ref(),
            None => None,
        }
    }

    /// Returns whether a key has a value.
    pub fn contains_key(&self, key: &K) -> bool
        ensures { result ≡ is_some (value_at K.cmp self.now key.now) }
    {
        self.get(key).is_some()
    }

    /// Takes a key out, with its value and its marks.
    pub fn remove(&mut self, key: &K) -> Option<V>
    where
        K: Drop,
        ensures old { result ≡ value_at K.cmp self.old key.now }
        ensures forgets { Forgets K.cmp self.old self.new key.now }
        ensures entries { self.new.entries ≡ remove_entry (is_at (K.cmp key.now)) self.old.entries }
    {
        value_of(self.slots.remove(key))
    }

    /// Lists the keys that have a value and aren't marked as used, in order.
    pub fn unused(&self, alloc: Global) -> Result<Vec<&K>, AllocError>
        ensures keys { IfOk result (λ found. map (λ k. k.now) found.items ≡ unused_of self.now) }
        ensures ordered { IfOk result (λ found. IsStrictlySortedBy K.cmp (map (λ k. k.now) found.items)) }
        ensures each { IfOk result (λ found. (q : K) → is_member (eq_by_cmp K.cmp) (map (λ k. k.now) found.items) q ≡
            (is_some (value_at K.cmp self.now q) && not (marks_at K.cmp self.now q).used)) }
    {
        let mut found = Vec::new(alloc);
        'keys: for (key, slot) in self.slots.iter() {
            push_if(&mut found, key, slot.is_unused())?;
        }
        Ok(found)
    }

    /// Lists the keys that are marked as required and have no value, in order.
    pub fn missing(&self, alloc: Global) -> Result<Vec<&K>, AllocError>
        ensures keys { IfOk result (λ found. map (λ k. k.now) found.items ≡ missing_of self.now) }
        ensures ordered { IfOk result (λ found. IsStrictlySortedBy K.cmp (map (λ k. k.now) found.items)) }
        ensures each { IfOk result (λ found. (q : K) → is_member (eq_by_cmp K.cmp) (map (λ k. k.now) found.items) q ≡
            ((marks_at K.cmp self.now q).required && is_none (value_at K.cmp self.now q))) }
    {
        let mut found = Vec::new(alloc);
        'keys: for (key, slot) in self.slots.iter() {
            push_if(&mut found, key, slot.is_missing())?;
        }
        Ok(found)
    }

    // Returns the marks of a key.
    fn marks_of(&self, key: &K) -> Marks
        ensures { result ≡ marks_at K.cmp self.now key.now }
    {
        match self.slots.get(key) {
            Some(slot) => slot.marks,
            None => no_marks(),
        }
    }

    // Returns the merge behavior of a key.
    fn behavior_of(&self, key: &K) -> MergeBehavior
        ensures { result ≡ behavior_at K.cmp self.now key.now }
    {
        self.marks_of(key).behavior.unwrap_or(self.default)
    }

    /// Returns whether a key is marked as used.
    pub fn is_used(&self, key: &K) -> bool
        ensures { result ≡ (marks_at K.cmp self.now key.now).used }
    {
        self.marks_of(key).used
    }

    /// Returns whether a key is marked as required.
    pub fn is_required(&self, key: &K) -> bool
        ensures { result ≡ (marks_at K.cmp self.now key.now).required }
    {
        self.marks_of(key).required
    }

    // Gives a key marks, and makes it, without a value, where it is absent.
    fn put_marks(&mut self, key: &K, marks: Marks) -> Result<(), AllocError>
    where
        K: Clone,
        V: Drop,
        requires { ClonesAreEqual K.is_clone K.cmp }
        ensures ok { OnOk result (SetsMarks K.cmp self.old self.new key.now marks) }
        ensures stored { OnOk result (is_stored K.cmp self.old key.now ≡ true → stored_keys self.new ≡ stored_keys self.old) }
        ensures in_place { is_stored K.cmp self.old key.now ≡ true → IsOk result }
        ensures err { OnErr result (self.new ≡ self.old) }
    {
        if let Some(slot) = self.slots.get_mut(key) {
            slot.marks = marks;
            return Ok(());
        }
        let key = key.clone()?;
        let slot = Slot { value: None, marks };
        drop(self.slots.insert(key, slot)?);
        Ok(())
    }

    ghost use Rattle.cfg_sections.specs.LentValues.{lends_value};

    // Lends the value of a key that has one, for writing.
    fn value_mut(&mut self, key: &K) -> Option<&mut V>
        requires { is_some (value_at K.cmp self.old key.now) ≡ true }
        ensures* writes_back { sem 𝓛 (lends_value K.row V.row K.Ord self.entry key.now result) }
        ensures value { option_copied_mut result ≡ value_at K.cmp self.old key.now }
    {
        match self.slots.get_mut(key) {
            Some(slot) => match &mut slot.value {
                Some(value) => Some(value),
                None => None,
            },
            None => None,
        }
    }

    // Gives a key a value, and hands back a key that equals it. For a key that is stored no memory is taken,
    // and none is cloned.
    fn put_value(&mut self, key: K, value: V) -> Result<K, AllocError>
    where
        K: Clone + Drop,
        V: Drop,
        requires { ClonesAreEqual K.is_clone K.cmp }
        ensures ok { OnOk result (SetsValue K.cmp self.old self.new key (Some value)) }
        ensures entries { OnOk result (self.new.entries ≡ insert_entry K.cmp self.old.entries key
            (record { value = Some value; marks = marks_at K.cmp self.old key })) }
        ensures key { IfOk result (λ kept. K.cmp key kept ≡ Equal) }
        ensures in_place { is_stored K.cmp self.old key ≡ true → IsOk result }
        ensures err { OnErr result (self.new ≡ self.old) }
    {
        if self.slots.contains_key(&key) {
            put_value_at(&mut self.slots, &key, value);
            return Ok(key);
        }
        let kept = key.clone()?;
        drop(self.insert(key, value)?);
        Ok(kept)
    }

    // Gives a key that has a value another one.
    fn replace_value(&mut self, key: &K, value: V) -> V
        requires { is_some (value_at K.cmp self.old key.now) ≡ true }
        ensures old { value_at K.cmp self.old key.now ≡ Some result }
        ensures value { SetsValue K.cmp self.old self.new key.now (Some value) }
        ensures stored { stored_keys self.new ≡ stored_keys self.old }
    {
        replace_value_at(&mut self.slots, key, value)
    }

    // Gives a stored key other marks.
    fn replace_marks(&mut self, key: &K, marks: Marks)
        requires { is_stored K.cmp self.old key.now ≡ true }
        ensures marks { SetsMarks K.cmp self.old self.new key.now marks }
        ensures stored { stored_keys self.new ≡ stored_keys self.old }
    {
        match self.slots.get_mut(key) {
            Some(slot) => slot.marks = marks,
            None => unreachable!(),
        }
    }

    /// Marks a key as used, and makes it, without a value, where it is absent, which alone takes memory.
    /// Clones of keys equal them.
    pub fn mark_used(&mut self, key: &K) -> Result<(), AllocError>
    where
        K: Clone,
        V: Drop,
        requires { ClonesAreEqual K.is_clone K.cmp }
        ensures ok { let marks = marks_at K.cmp self.old key.now in
            OnOk result (SetsMarks K.cmp self.old self.new key.now (record marks { used = true })) }
        ensures stored { OnOk result (is_stored K.cmp self.old key.now ≡ true → stored_keys self.new ≡ stored_keys self.old) }
        ensures in_place { is_stored K.cmp self.old key.now ≡ true → IsOk result }
        ensures err { OnErr result (self.new ≡ self.old) }
    {
        let marks = self.marks_of(key);
        self.put_marks(
            key,
            Marks {
                used: true,
                ..marks
            },
        )
    }

    /// Marks a key as required, and makes it, without a value, where it is absent, which alone takes memory.
    /// Clones of keys equal them.
    pub fn mark_required(&mut self, key: &K) -> Result<(), AllocError>
    where
        K: Clone,
        V: Drop,
        requires { ClonesAreEqual K.is_clone K.cmp }
        ensures ok { let marks = marks_at K.cmp self.old key.now in
            OnOk result (SetsMarks K.cmp self.old self.new key.now (record marks { required = true })) }
        ensures stored { OnOk result (is_stored K.cmp self.old key.now ≡ true → stored_keys self.new ≡ stored_keys self.old) }
        ensures in_place { is_stored K.cmp self.old key.now ≡ true → IsOk result }
        ensures err { OnErr result (self.new ≡ self.old) }
    {
        let marks = self.marks_of(key);
        self.put_marks(
            key,
            Marks {
                required: true,
                ..marks
            },
        )
    }

    /// Sets what a merge does with a key, and makes it, without a value, where it is absent, which alone
    /// takes memory. Clones of keys equal them.
    pub fn set_merge_behavior(&mut self, key: &K, behavior: MergeBehavior) -> Result<(), AllocError>
    where
        K: Clone,
        V: Drop,
        requires { ClonesAreEqual K.is_clone K.cmp }
        ensures ok { let marks = marks_at K.cmp self.old key.now in
            OnOk result (SetsMarks K.cmp self.old self.new key.now (record marks { behavior = Some behavior })) }
        ensures stored { OnOk result (is_stored K.cmp self.old key.now ≡ true → stored_keys self.new ≡ stored_keys self.old) }
        ensures in_place { is_stored K.cmp self.old key.now ≡ true → IsOk result }
        ensures err { OnErr result (self.new ≡ self.old) }
    {
        let marks = self.marks_of(key);
        self.put_marks(
            key,
            Marks {
                behavior: Some(behavior),
                ..marks
            },
        )
    }

    /// Sets what a merge does with keys that have no behavior of their own.
    pub fn set_default_merge_behavior(&mut self, behavior: MergeBehavior)
        ensures default { self.new.default ≡ behavior }
        ensures entries { self.new.entries ≡ self.old.entries }
    {
        self.default = behavior;
    }
}

/// Proves that two behaviors are equal if and only if they are one value.
pub fn merge_behavior_is_its_value()
    ensures { (a b : MergeBehavior) → (⟦<MergeBehavior as PartialEq>⟧.eq a b ≡ true) ↔ (a ≡ b) }
{}

// Gives a key that has a value another one.
fn replace_value_at<K: Ord, V>(slots: &mut BTreeMap<K, Slot<V>>, key: &K, value: V) -> V
    requires { is_some (slot_in K.cmp slots.old.entries key.now).value ≡ true }
    ensures old { (slot_in K.cmp slots.old.entries key.now).value ≡ Some result }
    ensures updates { (q : K) → get K.cmp slots.new q ≡
        (if is_at (K.cmp key.now) q then Some (record (slot_in K.cmp slots.old.entries key.now) { value = Some value })
        else get K.cmp slots.old q) }
    ensures stored { keys slots.new ≡ keys slots.old }
{
    match slots.get_mut(key) {
        Some(slot) => slot.replace_value(value),
        None => unreachable!(),
    }
}

// Gives a stored key a value.
fn put_value_at<K: Ord, V: Drop>(slots: &mut BTreeMap<K, Slot<V>>, key: &K, value: V)
    requires { is_some (get K.cmp slots.old key.now) ≡ true }
    ensures updates { (q : K) → get K.cmp slots.new q ≡
        (if is_at (K.cmp key.now) q then Some (record (slot_in K.cmp slots.old.entries key.now) { value = Some value })
        else get K.cmp slots.old q) }
    ensures entries { slots.new.entries ≡ insert_entry K.cmp slots.old.entries key.now
        (record (slot_in K.cmp slots.old.entries key.now) { value = Some value }) }
{
    match slots.get_mut(key) {
        Some(slot) => slot.value = Some(value),
        None => unreachable!(),
    }
}

// Adds a key that is wanted.
fn push_if<'a, K>(found: &mut Vec<&'a K>, key: &'a K, wanted: bool) -> Result<(), AllocError>
    ensures { OnOk result (map (λ k. k.now) found.new.items ≡
        (if wanted then map (λ k. k.now) found.old.items ++ key.now ∷ [] else map (λ k. k.now) found.old.items)) }
{
    if wanted {
        found.push(key)?;
    }
    Ok(())
}
