//! The indices of rules, productions and tokens by their numbers, and which indices are in range.

ghost use Rattle.std.specs.Prelude.{◌≡◌, ◌<◌, ◌↔◌, IsTrue, length};

use super::{NumberedGrammar, index_of};
use cfg_base::index::IndexStorage;
use cfg_base::symbol::{PIdx, RIdx, TIdx};

impl<S: IndexStorage> NumberedGrammar<S> {
    /// Returns the rule of a number. A loop over all rules is `for number in 0..grm.rules_len().0.to_usize()`.
    pub fn rule_at(&self, number: usize) -> RIdx<S>
        requires { number < self.now.grammar.rules }
        ensures { S.number result.0 ≡ number }
    {
        // For the proof alone: this read gives it the invariant of each grammar.
        let _rules = &self.rules;
        RIdx(index_of(number))
    }

    /// Returns the production of a number. A loop over all productions is `for number in
    /// 0..grm.prods_len().0.to_usize()`.
    pub fn prod_at(&self, number: usize) -> PIdx<S>
        requires { number < length self.now.grammar.productions }
        ensures { S.number result.0 ≡ number }
    {
        let _rules = &self.rules;
        PIdx(index_of(number))
    }

    /// Returns the token of a number. A loop over all tokens is `for number in 0..grm.tokens_len().0.to_usize()`.
    pub fn token_at(&self, number: usize) -> TIdx<S>
        requires { number < self.now.grammar.tokens }
        ensures { S.number result.0 ≡ number }
    {
        let _rules = &self.rules;
        TIdx(index_of(number))
    }

    /// Returns whether this is a rule of the grammar.
    pub fn has_rule(&self, ridx: RIdx<S>) -> bool
        ensures { IsTrue result ↔ S.number ridx.0 < self.now.grammar.rules }
    {
        ridx.0.to_usize() < self.rules.len()
    }

    /// Returns whether this is a production of the grammar.
    pub fn has_prod(&self, pidx: PIdx<S>) -> bool
        ensures { IsTrue result ↔ S.number pidx.0 < length self.now.grammar.productions }
    {
        pidx.0.to_usize() < self.prods.len()
    }

    /// Returns whether this is a token of the grammar.
    pub fn has_token(&self, tidx: TIdx<S>) -> bool
        ensures { IsTrue result ↔ S.number tidx.0 < self.now.grammar.tokens }
    {
        tidx.0.to_usize() <= self.tokens.len()
    }
}
