//! The nullable rules, and the productions by which they become empty in the fewest steps.

use crate::productions::symbols_of;
use cfg_base::index::IndexStorage;
use cfg_base::symbol::{PIdx, RIdx, Symbol};
use cfg_numbered::yacc::NumberedGrammar;
use std::alloc::{AllocError, Global};

/// For each rule the fewest steps to the empty form; `usize::MAX` where it isn't nullable, or the steps can't be counted.
#[derive(Drop)]
pub(crate) struct Nullable {
    steps: Vec<usize>,
}

impl Nullable {
    /// Counts the steps, in passes over the productions until none finds fewer.
    pub(crate) fn new<S: IndexStorage>(
        alloc: Global,
        grm: &NumberedGrammar<S>,
    ) -> Result<Nullable, AllocError> {
        let mut steps = Vec::new(alloc);
        steps.resize(grm.rules_len().0.to_usize(), usize::MAX)?;
        let mut nullable = Nullable { steps };
        'passes: for _ in 0..usize::MAX {
            if !nullable.improve(grm) {
                return Ok(nullable);
            }
        }
        Ok(nullable)
    }

    /// Goes through the productions, and returns whether a rule needs fewer steps than was known.
    fn improve<S: IndexStorage>(&mut self, grm: &NumberedGrammar<S>) -> bool {
        let mut improved = false;
        'prods: for number in 0..grm.prods_len().0.to_usize() {
            let pidx = grm.prod_at(number);
            let steps = self.steps_by(grm, pidx);
            let rule = grm.prod_to_rule(pidx).0.to_usize();
            if rule < self.steps.len() && steps < self.steps[rule] {
                self.steps[rule] = steps;
                improved = true;
            }
        }
        improved
    }

    /// Returns the steps that a rule needs.
    fn steps_of<S: IndexStorage>(&self, ridx: RIdx<S>) -> usize {
        let number = ridx.0.to_usize();
        if number >= self.steps.len() {
            return usize::MAX;
        }
        self.steps[number]
    }

    /// Returns the steps that a rule needs if it begins with this production.
    fn steps_by<S: IndexStorage>(&self, grm: &NumberedGrammar<S>, pidx: PIdx<S>) -> usize {
        let symbols = symbols_of(grm, pidx);
        let mut steps: usize = 1;
        'symbols: for k in 0..symbols.len() {
            let more = match symbols[k] {
                Symbol::Rule(ridx) => self.steps_of(ridx),
                Symbol::Token(_) => usize::MAX,
            };
            steps = steps.saturating_add(more);
            if steps == usize::MAX {
                return steps;
            }
        }
        steps
    }

    /// Returns whether the symbol is a nullable rule.
    pub(crate) fn has<S: IndexStorage>(&self, symbol: Symbol<S>) -> bool {
        match symbol {
            Symbol::Rule(ridx) => self.steps_of(ridx) < usize::MAX,
            Symbol::Token(_) => false,
        }
    }

    /// Returns whether all symbols are nullable rules.
    pub(crate) fn has_all<S: IndexStorage>(&self, symbols: &[Symbol<S>]) -> bool {
        'symbols: for k in 0..symbols.len() {
            if !self.has(symbols[k]) {
                return false;
            }
        }
        true
    }

    /// Returns the first production by which the rule becomes empty in the fewest steps, if it is nullable.
    pub(crate) fn production<S: IndexStorage>(
        &self,
        grm: &NumberedGrammar<S>,
        ridx: RIdx<S>,
    ) -> Option<PIdx<S>> {
        let steps = self.steps_of(ridx);
        if steps == usize::MAX || !grm.has_rule(ridx) {
            return None;
        }
        let prods = grm.rule_to_prods(ridx);
        'prods: for k in 0..prods.len() {
            if self.steps_by(grm, prods[k]) == steps {
                return Some(prods[k]);
            }
        }
        None
    }
}
