//! Rules that wait to be taken: the first that came is taken first, and none waits twice.

ghost use Rattle.std.specs.Prelude.{◌≡◌, true, [], ◌∷◌, IfOk, OnOk, MatchOption};
ghost use Rattle.std.specs.List.{Contains};
ghost use Rattle.lrtable.specs.Waits.{WaitsToo};

use crate::capacities::zeros;
use std::alloc::{AllocError, Global};
use std::collections::VecDeque;
use std::marker::Model;

/// The rules that wait, the first first.
#[derive(Drop)]
pub(crate) struct RuleQueue {
    rules: VecDeque<usize>,
    /// How many were taken.
    taken: usize,
    /// For each rule, how many had come before it when it came last. What is read there is checked.
    places: Vec<usize>,
}

impl Model for RuleQueue {
    ghost use Rattle.std.specs.Prelude.{List, ℕ};

    ghost Value = { List ℕ };

    ghost view = { λ q. q.rules.items };
}

impl RuleQueue {
    /// Makes a queue for so many rules, in which none waits.
    pub(crate) fn empty(alloc: Global, rules: usize) -> Result<RuleQueue, AllocError>
        ensures { IfOk result (λ q. q ≡ []) }
    {
        Ok(RuleQueue {
            rules: VecDeque::new(alloc),
            taken: 0,
            places: zeros(alloc, rules)?,
        })
    }

    /// Returns whether a rule waits.
    fn has(&self, rule: usize) -> bool
        ensures { result ≡ true → Contains self.now rule }
    {
        let place = self.places.get(rule).copied().unwrap_or(0);
        match self.rules.get(place.wrapping_sub(self.taken)) {
            Some(other) => *other == rule,
            None => false,
        }
    }

    /// Puts a rule last, unless it waits.
    pub(crate) fn put(&mut self, rule: usize) -> Result<(), AllocError>
        ensures { OnOk result (WaitsToo rule self.old self.new) }
    {
        if self.has(rule) {
            return Ok(());
        }
        if let Some(place) = self.places.get_mut(rule) {
            *place = self.taken.wrapping_add(self.rules.len());
        }
        self.rules.push_back(rule)?;
        Ok(())
    }

    /// Takes the first rule.
    pub(crate) fn take(&mut self) -> Option<usize>
        ensures { MatchOption result ((self.old ≡ []) × (self.new ≡ [])) (λ A. self.old ≡ A ∷ self.new) }
    {
        let rule = self.rules.pop_front();
        self.taken = self.taken.wrapping_add(1);
        rule
    }
}
