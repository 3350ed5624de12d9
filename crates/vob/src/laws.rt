//! Laws of the definitions that the contracts name.

ghost use Rattle.std.specs.Prelude.{◌≡◌, ◌≢◌, ◌⊎◌, ◌<◌, ◌≤◌, ◌+◌, ◌-◌, ◌*◌, ◌&&◌, ◌||◌, ◌↔◌, ℕ, Bool, true, false, not, List, [], ◌∷◌, ◌++◌, length, map, take, drop, replicate, min, slice_index_or, slice_set, option_to_list, IsTrue, IsSome, Option, Some, None, Contains};
ghost use Rattle.std.specs.Iterator.{YieldsFirst, YieldsLast, Drains};
ghost use Rattle.std.specs.List.{flat_map, fold};
ghost use Rattle.std.specs.Range.Bound.{start_index, end_index};
ghost use Rattle.std.specs.declared.ops.Bound.{Bound};
ghost use Rattle.vob.specs.Bits.{bitwise, differs, count_true, Joins};
ghost use Rattle.vob.specs.Packed.{Contents, blocks_for};
ghost use Rattle.vob.specs.Walk.{walk, has_item};

use crate::Vob;
use crate::word::Word;
use std::hash::Hash;

/// Proves that `==` is equality of lists, and that equal lists feed a hasher the same. Lists of one length are equal
/// if and only if their stored blocks have the same bits.
pub fn equal_as_lists<T: Word>()
    ensures equal { (a b : Contents) → IsTrue (⟦<Vob<T> as PartialEq>⟧.eq a b) ↔ (a.bits ≡ b.bits) }
    ensures hash { (a b : Contents) → a.bits ≡ b.bits → ⟦<Vob<T> as Hash>⟧.hash_input a ≡ ⟦<Vob<T> as Hash>⟧.hash_input b }
    ensures storage { (a b : List Bool) (xs ys : List T) → flat_map T.bits xs ≡ a ++ replicate (blocks_for T.BITS (length a) * T.BITS - length a) false → flat_map T.bits ys ≡ b ++ replicate (blocks_for T.BITS (length b) * T.BITS - length b) false → (a ≡ b) ↔ ((length a ≡ length b) × (flat_map T.bits xs ≡ flat_map T.bits ys)) }
{}

/// Proves that turning every item twice changes nothing.
pub fn negate_twice()
    ensures { (xs : List Bool) → map not (map not xs) ≡ xs }
{}

/// Proves that a list differs nowhere from itself.
pub fn xor_with_itself()
    ensures { (xs : List Bool) → bitwise differs xs xs ≡ replicate (length xs) false }
{}

/// Proves De Morgan's laws.
pub fn negated_joins()
    ensures and { (xs ys : List Bool) → map not (bitwise (λ x y. x && y) xs ys) ≡ bitwise (λ x y. x || y) (map not xs) (map not ys) }
    ensures or { (xs ys : List Bool) → map not (bitwise (λ x y. x || y) xs ys) ≡ bitwise (λ x y. x && y) (map not xs) (map not ys) }
{}

/// Proves that `extend_from_vob` joins what `split_off` splits.
pub fn parts_join()
    ensures { (xs : List Bool) (at : ℕ) → take at xs ++ drop at xs ≡ xs }
{}

/// Proves that `extend_from_vob` and `extend_from_slice` leave what pushing each item in order leaves.
pub fn pushes_append()
    ensures { (xs ys : List Bool) → fold (λ (zs : List Bool) (y : Bool). zs ++ y ∷ []) xs ys ≡ xs ++ ys }
{}

/// Proves that after `reserve(n)` succeeded, n items can be pushed. The clause of `reserve` is the first premise;
/// below its capacity a list isn't refused a push.
pub fn reserved_room_takes_pushes()
    ensures { (xs pushed : List Bool) (n capacity : ℕ) → length xs + n ≤ capacity → length pushed < n → length (xs ++ pushed) < capacity }
{}

/// Proves that `set`, which compares the item with the value, returns true if and only if the list changes.
pub fn set_changes_the_list()
    ensures { (xs : List Bool) (index : ℕ) (value : Bool) → index < length xs → (slice_index_or xs index false ≡ not value) ↔ (slice_set xs index value ≢ xs) }
{}

/// Proves that a walk has exactly those indices of the range, cut at the length, whose item has the value.
pub fn walks_find_all()
    ensures { (value : Bool) (xs : List Bool) (start end : Bound ℕ) (index : ℕ) → Contains (walk value xs start end) index ↔ ((start_index start ≤ index) × (index < min (end_index end (length xs)) (length xs)) × (slice_index_or xs index false ≡ value)) }
{}

/// Proves that the set indices of a range and the unset ones are disjoint, and together all of it, cut at the length.
pub fn set_and_unset_split_the_range()
    ensures disjoint { (xs : List Bool) (start end : Bound ℕ) (index : ℕ) → Contains (walk true xs start end) index → Contains (walk false xs start end) index → ⊥ }
    ensures together { (xs : List Bool) (start end : Bound ℕ) (index : ℕ) → start_index start ≤ index → index < min (end_index end (length xs)) (length xs) → Contains (walk true xs start end) index ⊎ Contains (walk false xs start end) index }
    ensures counts { (xs : List Bool) (start end : Bound ℕ) → length (walk true xs start end) + length (walk false xs start end) ≡ min (end_index end (length xs)) (length xs) - start_index start }
{}

/// Proves that an item within the length is set or unset, and not both.
pub fn set_or_unset()
    ensures { (xs : List Bool) (index : ℕ) → index < length xs → has_item false xs index ≡ not (has_item true xs index) }
{}

/// Proves that `count` of a walk is the number of indices that it still yields, from either end and after any that it
/// yielded.
pub fn counts_are_what_comes()
    ensures front { (s xs : List ℕ) → Drains (YieldsFirst (λ (l : List ℕ). l)) s xs → length xs ≡ length s }
    ensures back { (s xs : List ℕ) → Drains (YieldsLast (λ (l : List ℕ). l)) s xs → length xs ≡ length s }
    ensures after_next { (s t : List ℕ) (index : ℕ) → YieldsFirst (λ (l : List ℕ). l) s (Some index) t → length s ≡ length t + 1 }
    ensures after_next_back { (s t : List ℕ) (index : ℕ) → YieldsLast (λ (l : List ℕ). l) s (Some index) t → length s ≡ length t + 1 }
{}

/// Proves that a walk that returned `None` yields nothing more, from either end.
pub fn an_ended_walk_stays_ended()
    ensures front { (s t u : List ℕ) (r : Option ℕ) → YieldsFirst (λ (l : List ℕ). l) s None t → YieldsFirst (λ (l : List ℕ). l) t r u → r ≡ None }
    ensures back { (s t u : List ℕ) (r : Option ℕ) → YieldsFirst (λ (l : List ℕ). l) s None t → YieldsLast (λ (l : List ℕ). l) t r u → r ≡ None }
    ensures from_back { (s t u : List ℕ) (r : Option ℕ) → YieldsLast (λ (l : List ℕ). l) s None t → YieldsFirst (λ (l : List ℕ). l) t r u → r ≡ None }
    ensures back_again { (s t u : List ℕ) (r : Option ℕ) → YieldsLast (λ (l : List ℕ). l) s None t → YieldsLast (λ (l : List ℕ). l) t r u → r ≡ None }
{}

/// Proves that, where lists are joined to one in turn, `or` returns true at most as often as the list has items.
pub fn or_changes_seldom()
    ensures { (xs : List Bool) (others : List (List Bool)) (flags : List Bool) → Joins xs others flags → count_true flags ≤ length xs }
{}

/// Proves that each call leaves and returns the same in blocks of every type, since its clauses speak of the items
/// alone. Where a clause is a condition and no value, as for the flag of a change, a step of a walk or what `pop`
/// takes, it has one solution. Stored blocks of two types spell the same items.
pub fn block_types_agree<T: Word, U: Word>()
    ensures changed { (old new : List Bool) (a b : Bool) → (IsTrue a ↔ (new ≢ old)) → (IsTrue b ↔ (new ≢ old)) → a ≡ b }
    ensures set { (xs : List Bool) (index : ℕ) (value a b : Bool) → (IsTrue a ↔ (slice_index_or xs index false ≡ not value)) → (IsTrue b ↔ (slice_index_or xs index false ≡ not value)) → a ≡ b }
    ensures next { (s t u : List ℕ) (a b : Option ℕ) → YieldsFirst (λ (l : List ℕ). l) s a t → YieldsFirst (λ (l : List ℕ). l) s b u → (a ≡ b) × (t ≡ u) }
    ensures next_back { (s t u : List ℕ) (a b : Option ℕ) → YieldsLast (λ (l : List ℕ). l) s a t → YieldsLast (λ (l : List ℕ). l) s b u → (a ≡ b) × (t ≡ u) }
    ensures item { (s t u : List Bool) (a b : Option Bool) → YieldsFirst (λ (l : List Bool). l) s a t → YieldsFirst (λ (l : List Bool). l) s b u → (a ≡ b) × (t ≡ u) }
    ensures item_back { (s t u : List Bool) (a b : Option Bool) → YieldsLast (λ (l : List Bool). l) s a t → YieldsLast (λ (l : List Bool). l) s b u → (a ≡ b) × (t ≡ u) }
    ensures pop { (old t u : List Bool) (a b : Option Bool) → old ≡ t ++ option_to_list a → old ≡ u ++ option_to_list b → (IsSome a ↔ (0 < length old)) → (IsSome b ↔ (0 < length old)) → (a ≡ b) × (t ≡ u) }
    ensures storage { (bits : List Bool) (xs : List T) (ys : List U) → flat_map T.bits xs ≡ bits ++ replicate (blocks_for T.BITS (length bits) * T.BITS - length bits) false → flat_map U.bits ys ≡ bits ++ replicate (blocks_for U.BITS (length bits) * U.BITS - length bits) false → take (length bits) (flat_map T.bits xs) ≡ take (length bits) (flat_map U.bits ys) }
{}
