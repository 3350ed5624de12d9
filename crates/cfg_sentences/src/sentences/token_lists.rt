//! Token lists in dictionary order.

ghost use Rattle.std.specs.Prelude.{◌≡◌, ℕ, ◌<◌, ◌≤◌, ◌↔◌, ◌⊎◌, IsTrue, IfOk, MatchOption, List, [], ◌++◌, length, map, get_or, Contains, AllPairs};
ghost use Rattle.cfg_theory.specs.Cost.{IsBefore};
ghost use Rattle.cfg_sentences.specs.TokenLists.{tokens_of, lists_of, joined, AddsLists, BelongsAt};

use cfg_base::index::IndexStorage;
use cfg_base::symbol::TIdx;
use std::alloc::{AllocError, Global};
use std::marker::Model;

/// Token lists in dictionary order, each once.
#[derive(Drop)]
pub struct TokenLists<S: IndexStorage> {
    lists: Vec<Vec<TIdx<S>>>,
}

impl<S: IndexStorage> Model for TokenLists<S> {
    ghost use Rattle.std.specs.Prelude.{ℕ, List, AllPairs};
    ghost use Rattle.cfg_theory.specs.Cost.{IsBefore};
    ghost use Rattle.cfg_sentences.specs.TokenLists.{lists_of};

    ghost Value = { List (List ℕ) };

    ghost view = { λ s. lists_of S.number s.lists.items };

    ghost invariant = { λ s. AllPairs IsBefore (lists_of S.number s.lists.items) };
}

impl<S: IndexStorage> TokenLists<S> {
    /// Makes the table entry without a list.
    pub fn none(alloc: Global) -> Self
        ensures { result ≡ [] }
    {
        TokenLists {
            lists: Vec::new(alloc),
        }
    }

    /// Lends the lists.
    pub fn as_slice(&self) -> &[Vec<TIdx<S>>]
        ensures { lists_of S.number result.now ≡ self.now }
    {
        self.lists.as_slice()
    }

    /// Hands the lists over.
    pub fn into_vec(self) -> Vec<Vec<TIdx<S>>>
        ensures lists { lists_of S.number result.items ≡ self }
        ensures ordered { AllPairs IsBefore self }
    {
        self.lists
    }

    /// Puts a copy of the list in, and returns whether it wasn't there.
    pub fn insert(&mut self, alloc: Global, list: &[TIdx<S>]) -> Result<bool, AllocError>
        ensures { IfOk result (λ b. AddsLists (λ v. v ≡ tokens_of S.number list.now) self.old self.new b) }
    {
        let Some(index) = free_place(self.lists.as_slice(), list) else {
            return Ok(false);
        };
        let mut copy = Vec::new(alloc);
        append(list, &mut copy)?;
        self.lists.insert(index, copy)?;
        Ok(true)
    }
}

/// Puts copies of all the lists in, and returns whether one wasn't there.
pub(crate) fn insert_all<S: IndexStorage>(
    alloc: Global,
    lists: &[Vec<TIdx<S>>],
    own: &mut TokenLists<S>,
) -> Result<bool, AllocError>
    ensures { IfOk result (λ b. AddsLists (Contains (lists_of S.number lists.now)) own.old own.new b) }
{
    let mut changed = false;
    'lists: for index in 0..lists.len() {
        changed |= own.insert(alloc, lists[index].as_slice())?;
    }
    Ok(changed)
}

/// Returns how many of the lists are before this one.
fn count_before<S: IndexStorage>(lists: &[Vec<TIdx<S>>], list: &[TIdx<S>]) -> usize
    requires { AllPairs IsBefore (lists_of S.number lists.now) }
    ensures within { result ≤ length lists.now }
    ensures before { (k : ℕ) → k < result → IsBefore (get_or (lists_of S.number lists.now) k []) (tokens_of S.number list.now) }
    ensures behind { (k : ℕ) → result ≤ k → k < length lists.now → IsBefore (get_or (lists_of S.number lists.now) k []) (tokens_of S.number list.now) → ⊥ }
{
    let mut low = 0;
    let mut high = lists.len();
    'halves: while low < high {
        let middle = low + (high - low) / 2;
        if is_before(lists[middle].as_slice(), list) {
            low = middle + 1;
        } else {
            high = middle;
        }
    }
    low
}

/// Returns the index at which a list belongs; `None` where it is there.
fn free_place<S: IndexStorage>(lists: &[Vec<TIdx<S>>], list: &[TIdx<S>]) -> Option<usize>
    requires { AllPairs IsBefore (lists_of S.number lists.now) }
    ensures { MatchOption result (Contains (lists_of S.number lists.now) (tokens_of S.number list.now)) (λ n. BelongsAt (lists_of S.number lists.now) (tokens_of S.number list.now) n) }
{
    let index = count_before(lists, list);
    if lists.len() <= index {
        return Some(index);
    }
    if is_before(list, lists[index].as_slice()) {
        return Some(index);
    }
    None
}

/// Returns whether a list is before another in the dictionary order of token numbers.
fn is_before<S: IndexStorage>(a: &[TIdx<S>], b: &[TIdx<S>]) -> bool
    ensures { IsTrue result ↔ IsBefore (tokens_of S.number a.now) (tokens_of S.number b.now) }
{
    'indices: for index in 0..a.len() {
        if b.len() <= index {
            return false;
        }
        let left = a[index].0.to_usize();
        let right = b[index].0.to_usize();
        if left < right {
            return true;
        }
        if right < left {
            return false;
        }
    }
    a.len() < b.len()
}

/// Puts the tokens behind those of a list.
pub(crate) fn append<S: IndexStorage>(
    tokens: &[TIdx<S>],
    list: &mut Vec<TIdx<S>>,
) -> Result<(), AllocError>
    ensures { IfOk result (λ _. list.new.items ≡ list.old.items ++ tokens.now) }
{
    'tokens: for index in 0..tokens.len() {
        list.push(tokens[index])?;
    }
    Ok(())
}

/// Returns the tokens of both, one behind the other.
fn join<S: IndexStorage>(
    alloc: Global,
    u: &[TIdx<S>],
    v: &[TIdx<S>],
) -> Result<Vec<TIdx<S>>, AllocError>
    ensures { IfOk result (λ w. tokens_of S.number w.items ≡ tokens_of S.number u.now ++ tokens_of S.number v.now) }
{
    let mut list = Vec::new(alloc);
    append(u, &mut list)?;
    append(v, &mut list)?;
    Ok(list)
}

/// Puts the tokens before each of the lists, and these behind the others.
pub(crate) fn put_before<S: IndexStorage>(
    alloc: Global,
    u: &[TIdx<S>],
    rests: &[Vec<TIdx<S>>],
    out: &mut Vec<Vec<TIdx<S>>>,
) -> Result<(), AllocError>
    ensures { IfOk result (λ _. lists_of S.number out.new.items ≡ lists_of S.number out.old.items ++ map (λ v. tokens_of S.number u.now ++ v) (lists_of S.number rests.now)) }
{
    'rests: for index in 0..rests.len() {
        out.push(join(alloc, u, rests[index].as_slice())?)?;
    }
    Ok(())
}

/// Returns each of the first lists before each of the second ones.
pub(crate) fn join_all<S: IndexStorage>(
    alloc: Global,
    firsts: &[Vec<TIdx<S>>],
    rests: &[Vec<TIdx<S>>],
) -> Result<Vec<Vec<TIdx<S>>>, AllocError>
    ensures { IfOk result (λ out. lists_of S.number out.items ≡ joined (lists_of S.number firsts.now) (lists_of S.number rests.now)) }
{
    let mut out = Vec::new(alloc);
    'firsts: for index in 0..firsts.len() {
        put_before(alloc, firsts[index].as_slice(), rests, &mut out)?;
    }
    Ok(out)
}
