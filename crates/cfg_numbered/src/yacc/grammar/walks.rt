//! Walks over the numbers of productions, rules and tokens.

ghost use Rattle.std.specs.Prelude.{◌≡◌, ◌<◌, ℕ, List, length};
ghost use Rattle.std.specs.List.{range_with_len};
ghost use Rattle.std.specs.Iterator.{YieldsFirstBy, item_count};

use super::{NumberedGrammar, index_of};
use cfg_base::index::IndexStorage;
use cfg_base::symbol::{PIdx, RIdx, TIdx};
use std::marker::{Model, PhantomData};

/// Productions in order. Contracts see the numbers that are left.
#[derive(Drop)]
pub struct PIdxs<S: IndexStorage> {
    next: usize,
    end: usize,
    storage: PhantomData<S>,
}

impl<S: IndexStorage> Model for PIdxs<S> {
    ghost use Rattle.std.specs.Prelude.{ℕ, List, ◌-◌, ◌≤◌};
    ghost use Rattle.std.specs.List.{range_with_len};

    ghost Value = { List ℕ };

    ghost view = { λ w. range_with_len w.next (w.end - w.next) };

    ghost invariant = { λ w. (w.next ≤ w.end) × (w.end ≤ S.MAX) };
}

impl<S: IndexStorage> Iterator for PIdxs<S> {
    type Item = PIdx<S>;

    ghost next_gives = { YieldsFirstBy (λ p. S.number p.0) (λ w. w) };

    ghost remaining = { item_count (λ w. w) };

    fn next(&mut self) -> Option<PIdx<S>> {
        if self.next == self.end {
            return None;
        }
        let number = self.next;
        self.next += 1;
        Some(PIdx(index_of(number)))
    }
}

/// Rules in order. Contracts see the numbers that are left.
#[derive(Drop)]
pub struct RIdxs<S: IndexStorage> {
    next: usize,
    end: usize,
    storage: PhantomData<S>,
}

impl<S: IndexStorage> Model for RIdxs<S> {
    ghost use Rattle.std.specs.Prelude.{ℕ, List, ◌-◌, ◌≤◌};
    ghost use Rattle.std.specs.List.{range_with_len};

    ghost Value = { List ℕ };

    ghost view = { λ w. range_with_len w.next (w.end - w.next) };

    ghost invariant = { λ w. (w.next ≤ w.end) × (w.end ≤ S.MAX) };
}

impl<S: IndexStorage> Iterator for RIdxs<S> {
    type Item = RIdx<S>;

    ghost next_gives = { YieldsFirstBy (λ r. S.number r.0) (λ w. w) };

    ghost remaining = { item_count (λ w. w) };

    fn next(&mut self) -> Option<RIdx<S>> {
        if self.next == self.end {
            return None;
        }
        let number = self.next;
        self.next += 1;
        Some(RIdx(index_of(number)))
    }
}

/// Tokens in order. Contracts see the numbers that are left.
#[derive(Drop)]
pub struct TIdxs<S: IndexStorage> {
    next: usize,
    end: usize,
    storage: PhantomData<S>,
}

impl<S: IndexStorage> Model for TIdxs<S> {
    ghost use Rattle.std.specs.Prelude.{ℕ, List, ◌-◌, ◌≤◌};
    ghost use Rattle.std.specs.List.{range_with_len};

    ghost Value = { List ℕ };

    ghost view = { λ w. range_with_len w.next (w.end - w.next) };

    ghost invariant = { λ w. (w.next ≤ w.end) × (w.end ≤ S.MAX) };
}

impl<S: IndexStorage> Iterator for TIdxs<S> {
    type Item = TIdx<S>;

    ghost next_gives = { YieldsFirstBy (λ t. S.number t.0) (λ w. w) };

    ghost remaining = { item_count (λ w. w) };

    fn next(&mut self) -> Option<TIdx<S>> {
        if self.next == self.end {
            return None;
        }
        let number = self.next;
        self.next += 1;
        Some(TIdx(index_of(number)))
    }
}

impl<S: IndexStorage> NumberedGrammar<S> {
    /// Walks over the productions, from 0 up.
    pub fn iter_pidxs(&self) -> PIdxs<S>
        ensures { result ≡ range_with_len 0 (length self.now.grammar.productions) }
    {
        PIdxs {
            next: 0,
            end: self.prods.len(),
            storage: PhantomData,
        }
    }

    /// Walks over the rules, from 0 up.
    pub fn iter_rules(&self) -> RIdxs<S>
        ensures { result ≡ range_with_len 0 self.now.grammar.rules }
    {
        RIdxs {
            next: 0,
            end: self.rules.len(),
            storage: PhantomData,
        }
    }

    /// Walks over the tokens, from 0 up, the end token last.
    pub fn iter_tidxs(&self) -> TIdxs<S>
        ensures { result ≡ range_with_len 0 self.now.grammar.tokens }
    {
        TIdxs {
            next: 0,
            end: self.tokens.len() + 1,
            storage: PhantomData,
        }
    }
}
