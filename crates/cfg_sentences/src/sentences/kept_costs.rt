//! Costs that say which rules derive a token list, and one that costs something.

ghost use Rattle.std.specs.Prelude.{◌≡◌, ℕ, ◌<◌, ◌↔◌, false, IsTrue, MatchOption, length};
ghost use Rattle.cfg_theory.specs.Grammar.{WellFormed, rule, IsNext, head_of, body_of};
ghost use Rattle.cfg_theory.specs.Greatest.{IsKeptTable};
ghost use Rattle.cfg_numbered.specs.Symbols.{sym_of, syms_of, numbers_of};
ghost use Rattle.cfg_numbered.specs.Value.{productions_of};
ghost use Rattle.vob.specs.Sets.{is_set};
ghost use Rattle.cfg_sets.specs.Paths.{HasPlace};
ghost use Rattle.cfg_sentences.specs.Sentences.{CostedTable};
ghost use Rattle.cfg_sentences.specs.CostTable.{cost_of, cost_in, IsCost, HasNoCost};
ghost use Rattle.cfg_sentences.specs.Greatest.{IsAmong};

use super::token_costs::TokenCosts;
use cfg_base::index::IndexStorage;
use cfg_base::symbol::{PIdx, RIdx, Symbol};
use std::marker::Model;
use vob::Vob;

/// The greatest costs of a grammar's rules, capped at 1.
#[derive(Drop)]
pub(super) struct KeptCosts<'t, 'a, S: IndexStorage> {
    tokens: &'t TokenCosts<'a, S>,
    costly: Vec<Option<u32>>,
}

impl<'t, 'a, S: IndexStorage> Model for KeptCosts<'t, 'a, S> {
    ghost use Rattle.std.specs.Prelude.{◌≡◌, false, length};
    ghost use Rattle.cfg_theory.specs.Greatest.{IsKeptTable};
    ghost use Rattle.cfg_sentences.specs.CostTable.{cost_of, cost_in};
    ghost use Rattle.cfg_sentences.specs.Sentences.{CostedTable};

    ghost Value = { CostedTable };

    ghost view = { λ s. record { grammar = s.tokens.now.grammar; costs = s.tokens.now.costs; table = s.costly.items } };

    ghost invariant = { λ s.
        (length s.costly.items ≡ s.tokens.now.grammar.rules) ×
        IsKeptTable s.tokens.now.grammar (cost_of s.tokens.now.costs) 1 (λ _. false) (cost_in s.costly.items) };
}

impl<'t, 'a, S: IndexStorage> KeptCosts<'t, 'a, S> {
    /// Takes the cost of each rule, in order.
    pub fn new(tokens: &'t TokenCosts<'a, S>, costly: Vec<Option<u32>>) -> Self
        requires count { length costly.items ≡ tokens.now.grammar.rules }
        requires table { IsKeptTable tokens.now.grammar (cost_of tokens.now.costs) 1 (λ _. false) (cost_in costly.items) }
        ensures grammar { result.grammar ≡ tokens.now.grammar }
        ensures costs { result.costs ≡ tokens.now.costs }
    {
        KeptCosts { tokens, costly }
    }

    /// Proves that the table has the greatest costs, capped at 1.
    pub fn stays_kept(&self)
        ensures count { length self.now.table ≡ self.now.grammar.rules }
        ensures table { IsKeptTable self.now.grammar (cost_of self.now.costs) 1 (λ _. false) (cost_in self.now.table) }
    {
        // For the proof alone: this read gives it the invariant of each such table.
        let _costly = &self.costly;
    }

    /// Proves that the grammar is well formed. This and the next calls are those of the tokens' costs.
    pub fn stays_well_formed(&self)
        ensures { WellFormed self.now.grammar }
    {
        self.tokens.stays_well_formed();
    }

    /// Returns how many rules the grammar has.
    pub fn rules_len(&self) -> RIdx<S>
        ensures { S.number result.0 ≡ self.now.grammar.rules }
    {
        self.tokens.rules_len()
    }

    /// Returns how many productions the grammar has.
    pub fn prods_len(&self) -> PIdx<S>
        ensures { S.number result.0 ≡ length self.now.grammar.productions }
    {
        self.tokens.prods_len()
    }

    /// Returns the rule of a number.
    pub fn rule_at(&self, number: usize) -> RIdx<S>
        requires { number < self.now.grammar.rules }
        ensures { S.number result.0 ≡ number }
    {
        self.tokens.rule_at(number)
    }

    /// Returns the production of a number.
    pub fn prod_at(&self, number: usize) -> PIdx<S>
        requires { number < length self.now.grammar.productions }
        ensures { S.number result.0 ≡ number }
    {
        self.tokens.prod_at(number)
    }

    /// Returns the symbols of a production.
    pub fn prod(&self, pidx: PIdx<S>) -> &[Symbol<S>]
        requires { S.number pidx.0 < length self.now.grammar.productions }
        ensures { syms_of S.number result.now ≡ body_of self.now.grammar (S.number pidx.0) }
    {
        self.tokens.prod(pidx)
    }

    /// Returns the rule of a production.
    pub fn prod_to_rule(&self, pidx: PIdx<S>) -> RIdx<S>
        requires { S.number pidx.0 < length self.now.grammar.productions }
        ensures { S.number result.0 ≡ head_of self.now.grammar (S.number pidx.0) }
    {
        self.tokens.prod_to_rule(pidx)
    }

    /// Returns the productions of a rule.
    pub fn rule_to_prods(&self, ridx: RIdx<S>) -> &[PIdx<S>]
        requires { S.number ridx.0 < self.now.grammar.rules }
        ensures { numbers_of S.number result.now ≡ productions_of self.now.grammar (S.number ridx.0) }
    {
        self.tokens.rule_to_prods(ridx)
    }

    /// Returns the cost of a production's symbols, where each rule among them has one.
    pub fn body_cost(&self, pidx: PIdx<S>) -> Option<u32>
        requires { S.number pidx.0 < length self.now.grammar.productions }
        ensures { MatchOption result (HasNoCost self.now.costs self.now.table (body_of self.now.grammar (S.number pidx.0))) (λ k. IsCost self.now.costs self.now.table (body_of self.now.grammar (S.number pidx.0)) k) }
    {
        self.stays_kept();
        self.tokens.body_cost(pidx, self.costly.as_slice())
    }

    /// Returns whether a production names a rule of the set.
    pub fn names_any(&self, pidx: PIdx<S>, set: &Vob) -> bool
        requires production { S.number pidx.0 < length self.now.grammar.productions }
        requires width { length set.now.bits ≡ self.now.grammar.rules }
        ensures some { IsTrue result → (d : ℕ) × (R : ℕ) × IsNext self.now.grammar (S.number pidx.0) d (rule R) × IsTrue (is_set set.now.bits R) }
        ensures none { result ≡ false → (d R : ℕ) → IsNext self.now.grammar (S.number pidx.0) d (rule R) → is_set set.now.bits R ≡ false }
    {
        self.stays_well_formed();
        let symbols = self.prod(pidx);
        'symbols: for index in 0..symbols.len() {
            if is_among(symbols[index], set) {
                return true;
            }
        }
        false
    }
}

fn is_among<S: IndexStorage>(symbol: Symbol<S>, set: &Vob) -> bool
    requires { HasPlace set.now.bits (sym_of S.number symbol) }
    ensures { IsTrue result ↔ IsAmong set.now.bits (sym_of S.number symbol) }
{
    match symbol {
        Symbol::Rule(rule) => set.get_unchecked(rule.0.to_usize()),
        Symbol::Token(_) => false,
    }
}
