//! Sets of tokens, one for each rule: FIRST and FOLLOW sets are stored so, and lookaheads of a closure may be.

ghost use Rattle.std.specs.Prelude.{◌≡◌, ℕ, ◌<◌, ◌↔◌, ◌||◌, Bool, true, false, not, IsTrue, IfOk, List, [], length, map, get_or, replicate, slice_set, if◌then◌else◌};
ghost use Rattle.vob.specs.Sets.{SetRows, is_set, is_set_in, missing_in, joined_to, HasAllOf, AreRows};
ghost use Rattle.vob.specs.Passes.{PassStep};

use std::alloc::{AllocError, Global};
use std::marker::Model;
use vob::Vob;

/// A set of tokens for each rule.
#[derive(Drop)]
pub struct TokenSets {
    width: usize,
    rows: Vec<Vob>,
}

impl Model for TokenSets {
    ghost use Rattle.std.specs.Prelude.{map, length};
    ghost use Rattle.vob.specs.Sets.{SetRows, AreRows};

    ghost Value = { SetRows };

    ghost view = { λ s. record { width = s.width; rows = map (λ v. v.bits) s.rows.items } };

    ghost invariant = { λ s. AreRows (length (map (λ v. v.bits) s.rows.items)) s.width (map (λ v. v.bits) s.rows.items) };
}

impl TokenSets {
    /// Creates `count` empty sets of numbers below `width`.
    pub fn empty(alloc: Global, count: usize, width: usize) -> Result<TokenSets, AllocError>
        ensures { IfOk result (λ s. s ≡ record { width = width; rows = replicate count (replicate width false) }) }
    {
        let mut rows = Vec::new(alloc);
        'rows: for _ in 0..count {
            rows.push(Vob::from_elem(alloc, false, width)?)?;
        }
        Ok(TokenSets { width, rows })
    }

    /// Returns the set of a rule.
    pub fn row(&self, rule: usize) -> &Vob
        requires { rule < length self.now.rows }
        ensures bits { result.now.bits ≡ get_or self.now.rows rule [] }
        ensures width { length result.now.bits ≡ self.now.width }
    {
        &self.rows[rule]
    }

    /// Adds the tokens to the set of a rule, and returns whether that changed it.
    pub fn join(&mut self, rule: usize, tokens: &Vob) -> bool
        requires within { rule < length self.old.rows }
        requires width { length tokens.now.bits ≡ self.old.width }
        ensures value { self.new ≡ record { width = self.old.width; rows = joined_to self.old.rows rule tokens.now.bits } }
        ensures width_was { length (get_or self.old.rows rule []) ≡ self.old.width }
        ensures steps { PassStep missing_in (HasAllOf rule tokens.now.bits) self.old.rows self.new.rows result }
    {
        let row = &mut self.rows[rule];
        row.or(tokens)
    }

    /// Puts a token into the set of a rule, and returns whether it was there.
    pub fn put(&mut self, rule: usize, token: usize) -> bool
        requires rule { rule < length self.old.rows }
        requires token { token < self.old.width }
        ensures was { IsTrue result ↔ IsTrue (is_set_in self.old.rows rule token) }
        ensures value { self.new ≡ record { width = self.old.width; rows = slice_set self.old.rows rule (slice_set (get_or self.old.rows rule []) token true) } }
    {
        let row = &mut self.rows[rule];
        !row.set(token, true)
    }
}

/// Empties a set unless `keep`.
pub fn clear_unless(set: &mut Vob, keep: bool)
    ensures { set.new.bits ≡ if keep then set.old.bits else replicate (length set.old.bits) false }
{
    if !keep {
        set.set_all(false);
    }
}
