//! Sets of tokens, one for each rule, that are emptied and used again.

ghost use Rattle.std.specs.Prelude.{◌≡◌, ◌<◌, ℕ, false, IfOk, IsTrue, [], length, get_or, replicate, slice_set};
ghost use Rattle.std.specs.List.{Contains};
ghost use Rattle.vob.specs.Sets.{SetRows, is_set, is_set_in, missing_in, joined_to, HasAllOf};
ghost use Rattle.vob.specs.Passes.{PassStep};

use crate::flags::Flags;
use std::alloc::{AllocError, Global};
use std::marker::Model;
use vob::Vob;

/// A set of tokens for each rule.
#[derive(Drop)]
pub(crate) struct RuleRows {
    width: usize,
    rows: Vec<Vob>,
}

impl Model for RuleRows {
    ghost use Rattle.std.specs.Prelude.{map, length};
    ghost use Rattle.vob.specs.Sets.{SetRows, AreRows};

    ghost Value = { SetRows };

    ghost view = { λ s. record { width = s.width; rows = map (λ v. v.bits) s.rows.items } };

    ghost invariant = { λ s. AreRows (length (map (λ v. v.bits) s.rows.items)) s.width (map (λ v. v.bits) s.rows.items) };
}

impl RuleRows {
    /// Creates `count` empty sets of numbers below `width`.
    pub(crate) fn empty(alloc: Global, count: usize, width: usize) -> Result<RuleRows, AllocError>
        ensures { IfOk result (λ s. s ≡ record { width = width; rows = replicate count (replicate width false) }) }
    {
        let mut rows = Vec::with_capacity(alloc, count)?;
        'rows: for _ in 0..count {
            rows.push(Vob::from_elem(alloc, false, width)?)?;
        }
        Ok(RuleRows { width, rows })
    }

    /// Returns the set of a rule.
    pub(crate) fn row(&self, rule: usize) -> &Vob
        requires { rule < length self.now.rows }
        ensures bits { result.now.bits ≡ get_or self.now.rows rule [] }
        ensures width { length result.now.bits ≡ self.now.width }
    {
        &self.rows[rule]
    }

    /// Adds the tokens to the set of a rule, and returns whether that changed it.
    pub(crate) fn join(&mut self, rule: usize, tokens: &Vob) -> bool
        requires within { rule < length self.old.rows }
        requires width { length tokens.now.bits ≡ self.old.width }
        ensures value { self.new ≡ record { width = self.old.width; rows = joined_to self.old.rows rule tokens.now.bits } }
        ensures width_was { length (get_or self.old.rows rule []) ≡ self.old.width }
        ensures steps { PassStep missing_in (HasAllOf rule tokens.now.bits) self.old.rows self.new.rows result }
    {
        let row = &mut self.rows[rule];
        row.or(tokens)
    }

    /// Empties the set of a rule.
    pub(crate) fn clear(&mut self, rule: usize)
        requires { rule < length self.old.rows }
        ensures { self.new ≡ record { width = self.old.width; rows = slice_set self.old.rows rule (replicate self.old.width false) } }
    {
        let row = &mut self.rows[rule];
        row.set_all(false);
    }

    /// Empties the sets of these rules.
    pub(crate) fn clear_each(&mut self, rules: &[usize])
        requires { (A : ℕ) → Contains rules.now A → A < length self.old.rows }
        ensures width { self.new.width ≡ self.old.width }
        ensures count { length self.new.rows ≡ length self.old.rows }
        ensures kept { (A t : ℕ) → IsTrue (is_set_in self.new.rows A t) → IsTrue (is_set_in self.old.rows A t) }
        ensures emptied { (A t : ℕ) → Contains rules.now A → IsTrue (is_set_in self.new.rows A t) → ⊥ }
    {
        'rules: for rule in rules {
            self.clear(*rule);
        }
    }

    /// Empties the sets of the rules whose flags are set.
    pub(crate) fn clear_all(&mut self, rules: &Flags)
        requires { length rules.now.bits ≡ length self.old.rows }
        ensures width { self.new.width ≡ self.old.width }
        ensures count { length self.new.rows ≡ length self.old.rows }
        ensures kept { (A t : ℕ) → IsTrue (is_set_in self.new.rows A t) → IsTrue (is_set_in self.old.rows A t) }
        ensures emptied { (A t : ℕ) → IsTrue (is_set rules.now.bits A) → IsTrue (is_set_in self.new.rows A t) → ⊥ }
    {
        'rules: for rule in rules.iter() {
            self.clear(rule);
        }
    }
}
