//! Merges one map with marks into another.

ghost use Rattle.std.specs.Prelude.{◌≡◌, [], true, is_some, IfErr, IfNone, IfSome, OnErr, OnOk, Some, map, if◌then◌else◌};
ghost use Rattle.std.specs.BTreeMap.{ContainsKey, get, is_at};
ghost use Rattle.cfg_sections.specs.declared.markmap.merge.MergeError.TheVariants.{Memory as NoMemory};
ghost use Rattle.cfg_sections.specs.MarkMaps.{ClonesAreEqual, slot_in, value_at};
ghost use Rattle.cfg_sections.specs.Merges.{HasRoom, IsExclusivityAt, IsFirstOf, IsMergeRefusal, Merges, conflicts_at, conflicts_of, is_exclusive, joined_marks, merged_slot, without};

use super::{MarkMap, Marks, MergeBehavior, Slot, blank_slot};
use std::alloc::{AllocError, Global};
use std::collections::BTreeMap;
use std::error::Error;
use std::fmt;
use std::fmt::{Debug, Display, Formatter, Write};

/// Why a map wasn't merged.
#[derive(Debug, Drop)]
pub enum MergeError<K, V> {
    /// This key has values on both sides, and may not. The value is the other map's.
    Exclusivity(K, V),
    /// The request for memory that was refused.
    Memory(AllocError),
}

impl<K, V> Display for MergeError<K, V> {
    ghost use Rattle.std.specs.Prelude.{Some};
    ghost use Rattle.cfg_sections.specs.Merges.{merge_error_text};

    ghost output = { λ e. Some (merge_error_text e) };

    fn fmt<W: Write>(&self, f: &mut Formatter<W>) -> fmt::Result {
        match self {
            MergeError::Exclusivity(_, _) => write!(f, "Value on both sides"),
            MergeError::Memory(_) => write!(f, "Memory"),
        }
    }
}

impl<K: Debug + Drop, V: Debug + Drop> Error for MergeError<K, V> {}

impl<K, V> From<AllocError> for MergeError<K, V> {
    ghost from_gives = { λ e refused. refused ≡ NoMemory e };

    fn from(e: AllocError) -> MergeError<K, V> {
        MergeError::Memory(e)
    }
}

impl<K: Ord, V> MarkMap<K, V> {
    /// Takes the values and the marks of another map in. A key with values on both sides follows its merge
    /// behavior here, else this map's default; a value on one side alone stays. A key is used, and required, if
    /// it is so on one of both sides. It has its own merge behavior, else the other's. Clones of keys equal them.
    ///
    /// # Errors
    ///
    /// In both cases this map is as it was.
    ///
    /// - `Exclusivity` with the first key, in order, that has values on both sides and may not, and the other
    ///   map's value.
    /// - `Memory` where memory is refused.
    pub fn merge_from(&mut self, mut other: MarkMap<K, V>) -> Result<(), MergeError<K, V>>
    where
        K: Clone + Drop,
        V: Drop,
        requires { ClonesAreEqual K.is_clone K.cmp }
        ensures ok { OnOk result (Merges K.cmp self.old other self.new) }
        ensures exclusive { OnOk result (conflicts_of K.cmp self.old other ≡ []) }
        ensures refused { IfErr result (IsMergeRefusal K.cmp self.old other) }
        ensures err { OnErr result (self.new ≡ self.old) }
    {
        if let Some(key) = self.conflict(&other) {
            return Err(refusal(key, other));
        }
        make_room(self.alloc, &mut self.slots, &other.slots)?;
        take_slots(&mut self.slots, self.default, &mut other.slots);
        Ok(())
    }

    // Returns whether a key with values on both sides refuses a merge.
    fn is_exclusive(&self, key: &K) -> bool
        ensures { result ≡ is_exclusive K.cmp self.now key.now }
    {
        matches!(self.behavior_of(key), MergeBehavior::MutuallyExclusive)
    }

    // Returns whether a key with a value here has one there too, and may not.
    fn conflicts_at(&self, other: &MarkMap<K, V>, key: &K) -> bool
        ensures { result ≡ conflicts_at K.cmp self.now other.now key.now }
    {
        other.contains_key(key) && self.is_exclusive(key)
    }

    // Returns the least key that refuses a merge.
    fn conflict(&self, other: &MarkMap<K, V>) -> Option<&K>
        ensures none { IfNone result (conflicts_of K.cmp self.now other.now ≡ []) }
        ensures least { IfSome result (IsFirstOf (conflicts_of K.cmp self.now other.now)) }
    {
        'keys: for key in self.keys() {
            if self.conflicts_at(other, key) {
                return Some(key);
            }
        }
        None
    }
}

// Makes the refusal at a key that has a value on the other side.
fn refusal<K: Ord + Drop, V: Drop>(key: &K, mut other: MarkMap<K, V>) -> MergeError<K, V>
    requires { is_some (value_at K.cmp other key.now) ≡ true }
    ensures { IsExclusivityAt K.cmp other key.now result }
{
    match other.slots.remove_entry(key) {
        Some((key, slot)) => match slot.value {
            Some(value) => MergeError::Exclusivity(key, value),
            None => unreachable!(),
        },
        None => unreachable!(),
    }
}

// Makes each key that is wanted one of `slots`, an absent one with nothing at it.
fn make_room<K: Ord + Clone, V: Drop>(
    alloc: Global,
    slots: &mut BTreeMap<K, Slot<V>>,
    wanted: &BTreeMap<K, Slot<V>>,
) -> Result<(), AllocError>
    requires { ClonesAreEqual K.is_clone K.cmp }
    ensures same { OnOk result ((q : K) → slot_in K.cmp slots.new.entries q ≡ slot_in K.cmp slots.old.entries q) }
    ensures room { OnOk result (HasRoom K.cmp slots.new wanted.now) }
    ensures err { OnErr result (slots.new.entries ≡ slots.old.entries) }
{
    let mut added = Vec::new(alloc);
    let made = add_keys(slots, wanted, &mut added);
    if made.is_err() {
        take_out(slots, added);
    }
    made
}

// Adds each key that is wanted and absent, and lists it.
fn add_keys<'a, K: Ord + Clone, V: Drop>(
    slots: &mut BTreeMap<K, Slot<V>>,
    wanted: &'a BTreeMap<K, Slot<V>>,
    added: &mut Vec<&'a K>,
) -> Result<(), AllocError>
    requires clones { ClonesAreEqual K.is_clone K.cmp }
    requires none { added.old.items ≡ [] }
    ensures same { OnOk result ((q : K) → slot_in K.cmp slots.new.entries q ≡ slot_in K.cmp slots.old.entries q) }
    ensures room { OnOk result (HasRoom K.cmp slots.new wanted.now) }
    ensures added { without K.cmp slots.new.entries (map (λ k. k.now) added.new.items) ≡ slots.old.entries }
{
    'keys: for key in wanted.keys() {
        if !slots.contains_key(key) {
            let again = key.clone()?;
            added.push(key)?;
            drop(slots.insert(again, blank_slot())?);
        }
    }
    Ok(())
}

// Takes the keys out again, the last first.
fn take_out<K: Ord + Drop, V: Drop>(slots: &mut BTreeMap<K, Slot<V>>, mut added: Vec<&K>)
    ensures { slots.new.entries ≡ without K.cmp slots.old.entries (map (λ k. k.now) added.entry.items) }
{
    'keys: while let Some(key) = added.pop() {
        drop(slots.remove(key));
    }
}

// Takes in what is at keys for which there is room.
fn take_slots<K: Ord + Drop, V: Drop>(
    ours: &mut BTreeMap<K, Slot<V>>,
    default: MergeBehavior,
    theirs: &mut BTreeMap<K, Slot<V>>,
)
    requires { HasRoom K.cmp ours.old theirs.old }
    ensures { (q : K) → slot_in K.cmp ours.new.entries q ≡
        merged_slot default (slot_in K.cmp ours.old.entries q) (slot_in K.cmp theirs.old.entries q) }
{
    'slots: while let Some((key, slot)) = theirs.pop_first() {
        take_slot(ours, default, &key, slot);
    }
}

// Takes in what is at a key for which there is room.
fn take_slot<K: Ord, V: Drop>(
    ours: &mut BTreeMap<K, Slot<V>>,
    default: MergeBehavior,
    key: &K,
    theirs: Slot<V>,
)
    requires { ContainsKey K.cmp ours.old key.now }
    ensures { (q : K) → get K.cmp ours.new q ≡
        (if is_at (K.cmp key.now) q then Some (merged_slot default (slot_in K.cmp ours.old.entries key.now) theirs)
        else get K.cmp ours.old q) }
{
    match ours.get_mut(key) {
        Some(slot) => merge_slot(slot, default, theirs),
        None => unreachable!(),
    }
}

fn merge_slot<V: Drop>(ours: &mut Slot<V>, default: MergeBehavior, theirs: Slot<V>)
    ensures { ours.new ≡ merged_slot default ours.old theirs }
{
    let behavior = ours.marks.behavior.unwrap_or(default);
    let keeps = ours.value.is_some() && !matches!(behavior, MergeBehavior::Theirs);
    ours.marks = join_marks(ours.marks, theirs.marks);
    if theirs.value.is_some() && !keeps {
        ours.value = theirs.value;
    }
}

fn join_marks(ours: Marks, theirs: Marks) -> Marks
    ensures { result ≡ joined_marks ours theirs }
{
    Marks {
        used: ours.used || theirs.used,
        required: ours.required || theirs.required,
        behavior: ours.behavior.or(theirs.behavior),
    }
}
