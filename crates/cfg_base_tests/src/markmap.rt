//! Tests of maps with marks. Each row of a table is a call on a map, what it returns, and what the map has then.
//! A map is lent to what may fail, and dropped by name: so its drop is checked at one place a test.

use crate::same::{same, text_of};
use cfg_sections::markmap::{Entry, MarkMap, Marks, MergeBehavior, MergeError};
use std::alloc::{AllocError, Global};
use std::mem;
use std::process::Abort;

type Small = MarkMap<u32, u8>;

/// A call on the first of two maps.
#[derive(Clone, Copy)]
enum Call {
    Insert(u32, u8),
    Remove(u32),
    MarkUsed(u32),
    MarkRequired(u32),
    Behavior(u32, MergeBehavior),
    Default(MergeBehavior),
    /// Merges the second map, which is empty then; that is refused at this key, or not at all.
    Merge(u32),
    Swap,
    /// Changes the value of an entry, and gives it all marks.
    Occupied(u32, u8),
    /// Marks a vacant entry as required or not, gives it a behavior or none, and fills it.
    Vacant(u32, bool, Option<MergeBehavior>, Fill),
}

/// How a vacant entry is filled.
#[derive(Clone, Copy)]
enum Fill {
    Nothing,
    /// With a value, to which one is added then.
    Value(u8),
    /// With a value by an entry, which is marked as used and changed to 8 then.
    Entry(u8),
}

const THEIRS: Option<MergeBehavior> = Some(MergeBehavior::Theirs);

/// Makes a call, and returns the value that it tells.
fn make_call(
    alloc: Global,
    map: &mut Small,
    other: &mut Small,
    call: Call,
) -> Result<Option<u8>, AllocError> {
    match call {
        Call::Insert(key, value) => map.insert(key, value),
        Call::Remove(key) => Ok(map.remove(&key)),
        Call::Merge(at) => merge(alloc, map, other, at),
        Call::Occupied(key, value) => Ok(change_occupied(map, key, value)),
        Call::Vacant(key, required, behavior, fill) => {
            change_vacant(map, key, required, behavior, fill)
        }
        Call::Swap => {
            mem::swap(map, other);
            Ok(None)
        }
        _ => match mark(map, call) {
            Ok(()) => Ok(None),
            Err(e) => Err(e),
        },
    }
}

fn mark(map: &mut Small, call: Call) -> Result<(), AllocError> {
    match call {
        Call::MarkUsed(key) => map.mark_used(&key),
        Call::MarkRequired(key) => map.mark_required(&key),
        Call::Behavior(key, behavior) => map.set_merge_behavior(&key, behavior),
        Call::Default(behavior) => {
            map.set_default_merge_behavior(behavior);
            Ok(())
        }
        _ => Ok(()),
    }
}

/// Merges a map that is empty then, and returns the value for which that is refused at a key.
fn merge(
    alloc: Global,
    map: &mut Small,
    other: &mut Small,
    at: u32,
) -> Result<Option<u8>, AllocError> {
    let theirs = mem::replace(other, MarkMap::new(alloc));
    match map.merge_from(theirs) {
        Ok(()) => Ok(None),
        Err(MergeError::Exclusivity(key, value)) => Ok((key == at).then_some(value)),
        Err(MergeError::Memory(e)) => Err(e),
    }
}

const ALL_MARKS: Marks = Marks {
    used: true,
    required: true,
    behavior: Some(MergeBehavior::Ours),
};

/// Gives an entry a value and all marks, and returns its old value, where the entry has all that then.
fn change_occupied(map: &mut Small, key: u32, value: u8) -> Option<u8> {
    let Entry::Occupied(mut entry) = map.entry(key) else {
        return None;
    };
    let old = entry.insert(value);
    entry.mark_used();
    entry.mark_required();
    entry.set_merge_behavior(MergeBehavior::Ours);
    let is_marked = entry.is_used() && entry.is_required() && entry.get_mark() == ALL_MARKS;
    (is_marked && *entry.get() == value).then_some(old)
}

/// Marks and fills an entry, and returns the value that it was filled with.
fn change_vacant(
    map: &mut Small,
    key: u32,
    required: bool,
    behavior: Option<MergeBehavior>,
    fill: Fill,
) -> Result<Option<u8>, AllocError> {
    let Entry::Vacant(mut entry) = map.entry(key) else {
        return Ok(None);
    };
    let is_of_key = *entry.key() == key;
    if required {
        entry.mark_required()?;
    }
    if let Some(behavior) = behavior {
        entry.set_merge_behavior(behavior)?;
    }
    match fill {
        Fill::Nothing => Ok(None),
        Fill::Value(value) => {
            let put = entry.insert(value)?;
            *put = value.wrapping_add(1);
            Ok(is_of_key.then_some(value))
        }
        Fill::Entry(value) => {
            let mut entry = entry.insert_entry(value)?;
            let old = entry.insert(8);
            entry.mark_used();
            Ok(is_of_key.then_some(old))
        }
    }
}

/// Renders the keys with a value, those that are unused and those that are missing; then each key with its marks and its value.
fn render(alloc: Global, map: &Small) -> Result<String, AllocError> {
    let keys: Vec<u32> = map.keys().copied().collect(alloc)?;
    let unused = map.unused(alloc)?;
    let missing = map.missing(alloc)?;
    let mut text = format!(in alloc; "{keys:?} {unused:?} {missing:?}")?;
    for key in 1..10u32 {
        render_key(alloc, &mut text, map, key)?;
    }
    Ok(text)
}

/// Adds a key, `u` where it is used, `r` where it is required, and its value.
fn render_key(alloc: Global, text: &mut String, map: &Small, key: u32) -> Result<(), AllocError> {
    let used = if map.is_used(&key) { "u" } else { "" };
    let required = if map.is_required(&key) { "r" } else { "" };
    let value = map.get(&key).copied();
    if map.contains_key(&key) != value.is_some() {
        text.push_str(" wrong")?;
    }
    if let Some(value) = value {
        let shown = format!(in alloc; " {key}{used}{required}={value}")?;
        return text.push_str(shown.as_str());
    }
    if used.is_empty() && required.is_empty() {
        return Ok(());
    }
    let shown = format!(in alloc; " {key}{used}{required}")?;
    text.push_str(shown.as_str())
}

type Row = (Call, Option<u8>, &'static str);

/// Ends the test unless a map is rendered so.
fn is_rendered(
    rt: &impl Abort,
    alloc: Global,
    map: &Small,
    wanted: &str,
) -> Result<(), AllocError> {
    let found = render(alloc, map)?;
    same(rt, "map", found.as_str(), wanted);
    Ok(())
}

/// Makes a call, once more where it is refused memory; the map then is as before. A map that was to be merged is gone then.
fn called_at_last(
    rt: &impl Abort,
    alloc: Global,
    map: &mut Small,
    other: &mut Small,
    call: Call,
    before: &str,
) -> Result<Option<u8>, AllocError> {
    match make_call(alloc, map, other, call) {
        Ok(answer) => Ok(answer),
        Err(e) => {
            is_rendered(rt, alloc, map, before)?;
            match call {
                Call::Merge(_at) => Err(e),
                _ => make_call(alloc, map, other, call),
            }
        }
    }
}

fn all_called(
    rt: &impl Abort,
    alloc: Global,
    map: &mut Small,
    other: &mut Small,
    rows: &[Row],
) -> Result<(), AllocError> {
    let mut before = "[] [] []";
    'rows: for (call, answer, wanted) in rows {
        let found = called_at_last(rt, alloc, map, other, *call, before)?;
        same(rt, wanted, found, *answer);
        is_rendered(rt, alloc, map, wanted)?;
        before = wanted;
    }
    Ok(())
}

/// Makes the calls of rows on empty maps.
fn from_empty(rt: &impl Abort, alloc: Global, rows: &[Row]) -> Result<(), AllocError> {
    let mut map: Small = MarkMap::new(alloc);
    let mut other: Small = MarkMap::new(alloc);
    let found = all_called(rt, alloc, &mut map, &mut other, rows);
    drop(map);
    drop(other);
    found
}

const MARKS: &[Row] = &[
    (Call::Insert(3, 30), None, "[3] [3] [] 3=30"),
    (Call::Insert(1, 10), None, "[1, 3] [1, 3] [] 1=10 3=30"),
    (Call::MarkUsed(3), None, "[1, 3] [1] [] 1=10 3u=30"),
    (Call::MarkRequired(2), None, "[1, 3] [1] [2] 1=10 2r 3u=30"),
    (Call::MarkRequired(3), None, "[1, 3] [1] [2] 1=10 2r 3ur=30"),
    (
        Call::Behavior(3, MergeBehavior::Theirs),
        None,
        "[1, 3] [1] [2] 1=10 2r 3ur=30",
    ),
    (
        Call::Default(MergeBehavior::Ours),
        None,
        "[1, 3] [1] [2] 1=10 2r 3ur=30",
    ),
    (
        Call::Insert(3, 31),
        Some(30),
        "[1, 3] [1] [2] 1=10 2r 3ur=31",
    ),
    (Call::Swap, None, "[] [] []"),
    (Call::Insert(3, 99), None, "[3] [3] [] 3=99"),
    (Call::Insert(1, 98), None, "[1, 3] [1, 3] [] 1=98 3=99"),
    (
        Call::Insert(9, 90),
        None,
        "[1, 3, 9] [1, 3, 9] [] 1=98 3=99 9=90",
    ),
    (
        Call::MarkRequired(1),
        None,
        "[1, 3, 9] [1, 3, 9] [] 1r=98 3=99 9=90",
    ),
    (Call::Swap, None, "[1, 3] [1] [2] 1=10 2r 3ur=31"),
    (
        Call::Merge(0),
        None,
        "[1, 3, 9] [1, 9] [2] 1r=10 2r 3ur=99 9=90",
    ),
    (
        Call::Insert(3, 31),
        Some(99),
        "[1, 3, 9] [1, 9] [2] 1r=10 2r 3ur=31 9=90",
    ),
    (Call::Remove(3), Some(31), "[1, 9] [1, 9] [2] 1r=10 2r 9=90"),
    (Call::Remove(3), None, "[1, 9] [1, 9] [2] 1r=10 2r 9=90"),
];

const SEVERAL: &[Row] = &[
    (Call::Insert(7, 0), None, "[7] [7] [] 7=0"),
    (Call::Insert(3, 0), None, "[3, 7] [3, 7] [] 3=0 7=0"),
    (
        Call::Insert(5, 0),
        None,
        "[3, 5, 7] [3, 5, 7] [] 3=0 5=0 7=0",
    ),
    (
        Call::Insert(1, 0),
        None,
        "[1, 3, 5, 7] [1, 3, 5, 7] [] 1=0 3=0 5=0 7=0",
    ),
    (
        Call::MarkRequired(8),
        None,
        "[1, 3, 5, 7] [1, 3, 5, 7] [8] 1=0 3=0 5=0 7=0 8r",
    ),
    (
        Call::MarkRequired(2),
        None,
        "[1, 3, 5, 7] [1, 3, 5, 7] [2, 8] 1=0 2r 3=0 5=0 7=0 8r",
    ),
    (
        Call::MarkRequired(5),
        None,
        "[1, 3, 5, 7] [1, 3, 5, 7] [2, 8] 1=0 2r 3=0 5r=0 7=0 8r",
    ),
    (
        Call::MarkRequired(4),
        None,
        "[1, 3, 5, 7] [1, 3, 5, 7] [2, 4, 8] 1=0 2r 3=0 4r 5r=0 7=0 8r",
    ),
    (
        Call::MarkUsed(3),
        None,
        "[1, 3, 5, 7] [1, 5, 7] [2, 4, 8] 1=0 2r 3u=0 4r 5r=0 7=0 8r",
    ),
];

const CLASHING: &[Row] = &[
    (Call::Insert(7, 3), None, "[7] [7] [] 7=3"),
    (Call::Insert(5, 2), None, "[5, 7] [5, 7] [] 5=2 7=3"),
    (
        Call::Insert(4, 2),
        None,
        "[4, 5, 7] [4, 5, 7] [] 4=2 5=2 7=3",
    ),
    (Call::MarkUsed(4), None, "[4, 5, 7] [5, 7] [] 4u=2 5=2 7=3"),
    (Call::Swap, None, "[] [] []"),
    (Call::Insert(5, 1), None, "[5] [5] [] 5=1"),
    (Call::Insert(7, 1), None, "[5, 7] [5, 7] [] 5=1 7=1"),
    (Call::Merge(5), Some(2), "[5, 7] [5, 7] [] 5=1 7=1"),
];

const ENTRIES: &[Row] = &[
    (Call::Insert(6, 1), None, "[6] [6] [] 6=1"),
    (Call::Occupied(6, 2), Some(1), "[6] [] [] 6ur=2"),
    (Call::MarkUsed(7), None, "[6] [] [] 6ur=2 7u"),
    (
        Call::Vacant(7, true, THEIRS, Fill::Value(5)),
        Some(5),
        "[6, 7] [] [] 6ur=2 7ur=6",
    ),
    (Call::Swap, None, "[] [] []"),
    (Call::Insert(7, 9), None, "[7] [7] [] 7=9"),
    (Call::Insert(6, 9), None, "[6, 7] [6, 7] [] 6=9 7=9"),
    (Call::Swap, None, "[6, 7] [] [] 6ur=2 7ur=6"),
    (Call::Merge(0), None, "[6, 7] [] [] 6ur=2 7ur=9"),
    (Call::MarkRequired(5), None, "[6, 7] [] [5] 5r 6ur=2 7ur=9"),
    (
        Call::Vacant(5, false, None, Fill::Entry(7)),
        Some(7),
        "[5, 6, 7] [] [] 5ur=8 6ur=2 7ur=9",
    ),
];

const MADE: &[Row] = &[
    (Call::Behavior(7, MergeBehavior::Theirs), None, "[] [] []"),
    (
        Call::Vacant(6, false, THEIRS, Fill::Nothing),
        None,
        "[] [] []",
    ),
    (
        Call::Vacant(5, true, None, Fill::Nothing),
        None,
        "[] [] [5] 5r",
    ),
    (
        Call::Vacant(4, false, None, Fill::Value(5)),
        Some(5),
        "[4] [4] [5] 4=6 5r",
    ),
    (
        Call::Vacant(3, false, None, Fill::Entry(7)),
        Some(7),
        "[3, 4] [4] [5] 3u=8 4=6 5r",
    ),
];

// Merges of 2 into 1, by the default and the behavior of the key.
const MERGES: &[&[Row]] = &[
    &[
        (Call::Insert(7, 2), None, "[7] [7] [] 7=2"),
        (Call::Swap, None, "[] [] []"),
        (Call::Insert(7, 1), None, "[7] [7] [] 7=1"),
        (Call::Default(MergeBehavior::Ours), None, "[7] [7] [] 7=1"),
        (Call::Merge(7), None, "[7] [7] [] 7=1"),
    ],
    &[
        (Call::Insert(7, 2), None, "[7] [7] [] 7=2"),
        (Call::Swap, None, "[] [] []"),
        (Call::Insert(7, 1), None, "[7] [7] [] 7=1"),
        (Call::Default(MergeBehavior::Theirs), None, "[7] [7] [] 7=1"),
        (Call::Merge(7), None, "[7] [7] [] 7=2"),
    ],
    &[
        (Call::Insert(7, 2), None, "[7] [7] [] 7=2"),
        (Call::Swap, None, "[] [] []"),
        (Call::Insert(7, 1), None, "[7] [7] [] 7=1"),
        (
            Call::Default(MergeBehavior::MutuallyExclusive),
            None,
            "[7] [7] [] 7=1",
        ),
        (Call::Merge(7), Some(2), "[7] [7] [] 7=1"),
    ],
    &[
        (Call::Insert(7, 2), None, "[7] [7] [] 7=2"),
        (Call::Swap, None, "[] [] []"),
        (Call::Insert(7, 1), None, "[7] [7] [] 7=1"),
        (
            Call::Default(MergeBehavior::MutuallyExclusive),
            None,
            "[7] [7] [] 7=1",
        ),
        (
            Call::Behavior(7, MergeBehavior::Ours),
            None,
            "[7] [7] [] 7=1",
        ),
        (Call::Merge(7), None, "[7] [7] [] 7=1"),
    ],
    &[
        (Call::Insert(7, 2), None, "[7] [7] [] 7=2"),
        (Call::Swap, None, "[] [] []"),
        (Call::Insert(7, 1), None, "[7] [7] [] 7=1"),
        (
            Call::Default(MergeBehavior::MutuallyExclusive),
            None,
            "[7] [7] [] 7=1",
        ),
        (
            Call::Behavior(7, MergeBehavior::Theirs),
            None,
            "[7] [7] [] 7=1",
        ),
        (Call::Merge(7), None, "[7] [7] [] 7=2"),
    ],
    &[
        (Call::Insert(7, 2), None, "[7] [7] [] 7=2"),
        (Call::Swap, None, "[] [] []"),
        (Call::Insert(7, 1), None, "[7] [7] [] 7=1"),
        (Call::Default(MergeBehavior::Theirs), None, "[7] [7] [] 7=1"),
        (
            Call::Behavior(7, MergeBehavior::MutuallyExclusive),
            None,
            "[7] [7] [] 7=1",
        ),
        (Call::Merge(7), Some(2), "[7] [7] [] 7=1"),
    ],
];

#[test]
fn values_and_marks(rt: HostRuntime) -> Result<(), AllocError> {
    from_empty(&rt, rt.alloc(), MARKS)
}

#[test]
fn several_keys_are_unused_and_missing(rt: HostRuntime) -> Result<(), AllocError> {
    from_empty(&rt, rt.alloc(), SEVERAL)
}

// The value of the least key is answered, the other map's, and this map stays.
#[test]
fn values_on_both_sides_are_refused(rt: HostRuntime) -> Result<(), AllocError> {
    from_empty(&rt, rt.alloc(), CLASHING)
}

#[test]
fn entries_are_changed(rt: HostRuntime) -> Result<(), AllocError> {
    from_empty(&rt, rt.alloc(), ENTRIES)
}

// A call that makes its key leaves none where it is refused, and can be made again.
#[test]
fn absent_keys_are_made(rt: HostRuntime) -> Result<(), AllocError> {
    from_empty(&rt, rt.alloc(), MADE)
}

#[test]
fn merges_go_by_the_behavior(rt: HostRuntime) -> Result<(), AllocError> {
    for rows in MERGES {
        from_empty(&rt, rt.alloc(), rows)?;
    }
    Ok(())
}

#[test]
fn behaviors_are_compared(rt: HostRuntime) {
    assert!(rt; MergeBehavior::Ours == MergeBehavior::Ours);
    assert!(rt; MergeBehavior::Theirs != MergeBehavior::Ours);
    assert!(rt; MergeBehavior::MutuallyExclusive != MergeBehavior::Theirs);
}

#[test]
fn a_merge_without_memory_prints_its_kind(rt: HostRuntime) -> Result<(), AllocError> {
    let error: MergeError<u32, u8> = MergeError::Memory(AllocError);
    same(&rt, "error", text_of(rt.alloc(), error)?.as_str(), "Memory");
    Ok(())
}

// What five steps of each iterator give: a key and its value, and a key.
type Step = (Option<(u32, u8)>, Option<u32>);

const STEPS: &[Step] = &[
    (Some((1, 1)), Some(1)),
    (Some((2, 2)), Some(2)),
    (Some((3, 3)), Some(3)),
    (None, None),
    (None, None),
];

fn put_out_of_order(map: &mut Small) -> Result<(), AllocError> {
    map.mark_required(&4)?;
    'keys: for key in [3u8, 1, 2] {
        map.insert(u32::from(key), key)?;
    }
    map.mark_used(&9)
}

fn steps_over(alloc: Global, map: &Small) -> Result<Vec<Step>, AllocError> {
    let mut steps = Vec::new(alloc);
    let mut pairs = map.into_iter();
    let mut keys = map.keys();
    for _ in 0..5 {
        let pair = match pairs.next() {
            Some((key, value)) => Some((*key, *value)),
            None => None,
        };
        steps.push((pair, keys.next().copied()))?;
    }
    Ok(steps)
}

// Keys without a value are in no iterator.
#[test]
fn iterators_give_keys_with_a_value(rt: HostRuntime) -> Result<(), AllocError> {
    let mut map: Small = MarkMap::new(rt.alloc());
    let put = put_out_of_order(&mut map);
    let steps = steps_over(rt.alloc(), &map);
    drop(map);
    put?;
    same(&rt, "steps", steps?.as_slice(), STEPS);
    Ok(())
}

type Named = MarkMap<String, u8>;

fn put_k(alloc: Global, map: &mut Named, value: u8) -> Result<(), AllocError> {
    map.insert(String::from_str(alloc, "k")?, value)?;
    Ok(())
}

/// Merges a map with another value of `k`, and returns what the refusal prints, and its key and value; nothing where it is let.
#[tactic(auto, using(crate::proofs::TextKeys::text_clones_are_equal))]
fn refusal(alloc: Global, ours: &mut Named) -> Result<String, AllocError> {
    let mut theirs: Named = MarkMap::new(alloc);
    if let Err(e) = put_k(alloc, &mut theirs, 2) {
        drop(theirs);
        return Err(e);
    }
    match ours.merge_from(theirs) {
        Ok(()) => Ok(String::new(alloc)),
        Err(MergeError::Memory(e)) => Err(e),
        Err(error) => {
            let text = format!(in alloc; "{error}: {error:?}");
            drop(error);
            text
        }
    }
}

/// Puts a value to `k`, and returns how a merge with another is refused, and the value then.
fn refusal_and_value(alloc: Global, ours: &mut Named) -> Result<String, AllocError> {
    put_k(alloc, ours, 1)?;
    let text = refusal(alloc, ours)?;
    let value = ours.get(&String::from_str(alloc, "k")?).copied();
    format!(in alloc; "{text} {value:?}")
}

#[test]
fn a_text_on_both_sides_is_refused(rt: HostRuntime) -> Result<(), AllocError> {
    let mut ours: Named = MarkMap::new(rt.alloc());
    let found = refusal_and_value(rt.alloc(), &mut ours);
    drop(ours);
    let wanted = "Value on both sides: Exclusivity(\"k\", 2) Some(1)";
    same(&rt, "refused", found?.as_str(), wanted);
    Ok(())
}
