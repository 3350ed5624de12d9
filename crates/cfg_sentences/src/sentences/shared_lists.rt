//! Token lists of rules that share their parts: a list is a token, or two lists one behind the other.

ghost use Rattle.std.specs.Prelude.{◌≡◌, ℕ, ◌+◌, ◌<◌, ◌++◌, ◌∷◌, IfOk, MatchOption, List, [], length, get_or, set, replicate, Some, None, true, false};
ghost use Rattle.std.specs.List.{All};
ghost use Rattle.cfg_sentences.specs.TokenLists.{tokens_of};
ghost use Rattle.cfg_sentences.specs.SharedLists.{Shared, spelled_by, IsFit, HasTokens, stacked, turns, turns_of};

use cfg_base::index::IndexStorage;
use cfg_base::symbol::TIdx;
use std::alloc::{AllocError, Global};
use std::marker::Model;

/// What a list is made of; the lists of a pair have tokens, and smaller numbers.
#[derive(Clone, Copy)]
pub enum Part<S> {
    /// No token.
    Empty,
    /// One token.
    Token(TIdx<S>),
    /// The lists of these two numbers, the first before the second.
    Pair(usize, usize),
}

/// Numbered token lists, and for each rule the number of its list, where it has one.
#[derive(Drop)]
pub struct SharedLists<S: IndexStorage> {
    parts: Vec<Part<S>>,
    of_rules: Vec<Option<usize>>,
}

impl<S: IndexStorage> Model for SharedLists<S> {
    ghost use Rattle.std.specs.Prelude.{[], length, map};
    ghost use Rattle.cfg_sentences.specs.SharedLists.{Shared, spelled_on, AreSpelled, list_by, AreNumbers};

    ghost Value = { Shared };

    ghost view = { λ s. record { lists = spelled_on S.number [] s.parts.items; table = map (list_by (spelled_on S.number [] s.parts.items)) s.of_rules.items } };

    ghost invariant = { λ s. AreSpelled S.number s.parts.items (spelled_on S.number [] s.parts.items) × AreNumbers (length s.parts.items) s.of_rules.items };
}

impl<S: IndexStorage> SharedLists<S> {
    /// Makes the table in which no rule has a list.
    pub fn new(alloc: Global, rules: usize) -> Result<Self, AllocError>
        ensures { IfOk result (λ s. s.table ≡ replicate rules None) }
    {
        let mut parts = Vec::new(alloc);
        parts.push(Part::Empty)?;
        let of_rules = no_numbers(alloc, rules)?;
        Ok(SharedLists { parts, of_rules })
    }

    /// Returns the number of the empty list.
    pub fn empty(&self) -> usize
        ensures within { result < length self.now.lists }
        ensures list { get_or self.now.lists result [] ≡ [] }
    {
        // For the proof alone: this read gives it the invariant of each such table.
        let _parts = &self.parts;
        0
    }

    /// Returns the number of the rule's list.
    pub fn of_rule(&self, rule: usize) -> Option<usize>
        requires { rule < length self.now.table }
        ensures { MatchOption result (get_or self.now.table rule None ≡ None) (λ k. (k < length self.now.lists) × (get_or self.now.table rule None ≡ Some (get_or self.now.lists k []))) }
    {
        self.of_rules[rule]
    }

    /// Makes a list of a part, and gives its number.
    fn push(&mut self, part: Part<S>) -> Result<usize, AllocError>
        requires { IsFit self.old.lists part }
        ensures number { IfOk result (λ k. k ≡ length self.old.lists) }
        ensures lists { IfOk result (λ _. self.new.lists ≡ self.old.lists ++ spelled_by S.number self.old.lists part ∷ []) }
        ensures table { IfOk result (λ _. self.new.table ≡ self.old.table) }
    {
        let number = self.parts.len();
        self.parts.push(part)?;
        Ok(number)
    }

    /// Makes a list of two, one behind the other.
    pub fn join(&mut self, left: usize, right: usize) -> Result<usize, AllocError>
        requires left { left < length self.old.lists }
        requires right { right < length self.old.lists }
        ensures within { IfOk result (λ k. k < length self.new.lists) }
        ensures list { IfOk result (λ k. get_or self.new.lists k [] ≡ get_or self.old.lists left [] ++ get_or self.old.lists right []) }
        ensures table { IfOk result (λ _. self.new.table ≡ self.old.table) }
    {
        if self.is_empty(left) {
            return Ok(right);
        }
        if self.is_empty(right) {
            return Ok(left);
        }
        self.push(Part::Pair(left, right))
    }

    /// Makes a list of one and a token behind it.
    pub fn join_token(&mut self, left: usize, token: TIdx<S>) -> Result<usize, AllocError>
        requires left { left < length self.old.lists }
        ensures within { IfOk result (λ k. k < length self.new.lists) }
        ensures list { IfOk result (λ k. get_or self.new.lists k [] ≡ get_or self.old.lists left [] ++ S.number token.0 ∷ []) }
        ensures table { IfOk result (λ _. self.new.table ≡ self.old.table) }
    {
        let right = self.push(Part::Token(token))?;
        self.join(left, right)
    }

    /// Returns whether a list has no token.
    pub fn is_empty(&self, list: usize) -> bool
        requires { list < length self.now.lists }
        ensures empty { result ≡ true → get_or self.now.lists list [] ≡ [] }
        ensures some { result ≡ false → 0 < length (get_or self.now.lists list []) }
    {
        match self.parts[list] {
            Part::Empty => true,
            Part::Token(_) => false,
            Part::Pair(_, _) => false,
        }
    }

    /// Gives the rule a list.
    pub fn put(&mut self, rule: usize, list: usize)
        requires rule { rule < length self.old.table }
        requires list { list < length self.old.lists }
        ensures lists { self.new.lists ≡ self.old.lists }
        ensures table { self.new.table ≡ set self.old.table rule (Some (get_or self.old.lists list [])) }
    {
        self.of_rules[rule] = Some(list);
    }

    /// Takes a list apart: its token is put out, or its two lists wait to be taken apart, the left one first.
    fn open(
        &self,
        list: usize,
        rest: &mut Vec<usize>,
        out: &mut Vec<TIdx<S>>,
    ) -> Result<(), AllocError>
        requires list { list < length self.now.lists }
        requires rest { All (λ k. k < length self.now.lists) rest.old.items }
        ensures rest { IfOk result (λ _. All (λ k. k < length self.now.lists) rest.new.items) }
        ensures list { IfOk result (λ _. tokens_of S.number out.new.items ++ stacked self.now.lists rest.new.items ≡ tokens_of S.number out.old.items ++ (get_or self.now.lists list [] ++ stacked self.now.lists rest.old.items)) }
        ensures fewer { IfOk result (λ _. turns self.now.lists rest.new.items < turns self.now.lists rest.old.items + turns_of self.now.lists list) }
    {
        match self.parts[list] {
            Part::Empty => {}
            Part::Token(token) => out.push(token)?,
            Part::Pair(left, right) => {
                rest.push(right)?;
                rest.push(left)?;
            }
        }
        Ok(())
    }

    /// Takes a list with tokens apart: its token is given, or its two lists wait to be taken apart, the left one first.
    pub fn split(&self, list: usize, rest: &mut Vec<usize>) -> Result<Option<TIdx<S>>, AllocError>
        requires list { HasTokens self.now.lists list }
        requires rest { All (HasTokens self.now.lists) rest.old.items }
        ensures rest { IfOk result (λ _. All (HasTokens self.now.lists) rest.new.items) }
        ensures list { IfOk result (λ o. MatchOption o (stacked self.now.lists rest.new.items ≡ get_or self.now.lists list [] ++ stacked self.now.lists rest.old.items) (λ t. (get_or self.now.lists list [] ≡ S.number t.0 ∷ []) × (rest.new.items ≡ rest.old.items))) }
        ensures fewer { IfOk result (λ _. turns self.now.lists rest.new.items < turns self.now.lists rest.old.items + turns_of self.now.lists list) }
    {
        match self.parts[list] {
            Part::Empty => unreachable!(),
            Part::Token(token) => Ok(Some(token)),
            Part::Pair(left, right) => {
                rest.push(right)?;
                rest.push(left)?;
                Ok(None)
            }
        }
    }
}

/// Writes a list out.
pub(crate) fn write<S: IndexStorage>(
    alloc: Global,
    shared: &SharedLists<S>,
    list: usize,
) -> Result<Vec<TIdx<S>>, AllocError>
    requires { list < length shared.now.lists }
    ensures { IfOk result (λ v. tokens_of S.number v.items ≡ get_or shared.now.lists list []) }
{
    let mut out = Vec::new(alloc);
    let mut rest = Vec::new(alloc);
    rest.push(list)?;
    'turns: loop {
        match rest.pop() {
            Some(index) => shared.open(index, &mut rest, &mut out)?,
            None => return Ok(out),
        }
    }
}

fn no_numbers(alloc: Global, rules: usize) -> Result<Vec<Option<usize>>, AllocError>
    ensures { IfOk result (λ v. v.items ≡ replicate rules None) }
{
    let mut table = Vec::new(alloc);
    'rules: for _ in 0..rules {
        table.push(None)?;
    }
    Ok(table)
}
