//! A grammar with a cost for each of its tokens, and costs of lists of symbols.

ghost use Rattle.std.specs.Prelude.{◌≡◌, ℕ, ◌+◌, ◌<◌, ◌≤◌, IfOk, IfSome, MatchOption, length, min};
ghost use Rattle.cfg_theory.specs.Grammar.{Grammar, WellFormed, head_of, body_of};
ghost use Rattle.cfg_numbered.specs.Symbols.{sym_of, syms_of, numbers_of};
ghost use Rattle.cfg_numbered.specs.Value.{productions_of};
ghost use Rattle.cfg_sentences.specs.Sentences.{Costed};
ghost use Rattle.cfg_sets.specs.WorkLists.{ListsNaming};
ghost use Rattle.cfg_sets.specs.Orders.{IsOrder};
ghost use Rattle.cfg_sentences.specs.CostTable.{bound, cost_of, cost_at, HasCost, AllHaveCosts, AreCapped, IsCost, HasNoCost};

use cfg_base::index::IndexStorage;
use cfg_base::symbol::{PIdx, RIdx, Symbol};
use cfg_numbered::yacc::grammar::NumberedGrammar;
use cfg_sets::naming::Naming;
use cfg_sets::orders::Order;
use std::alloc::{AllocError, Global};
use std::marker::Model;

/// A grammar with a cost for each of its tokens.
#[derive(Drop)]
pub(super) struct TokenCosts<'a, S: IndexStorage> {
    grm: &'a NumberedGrammar<S>,
    costs: Vec<u8>,
}

impl<'a, S: IndexStorage> Model for TokenCosts<'a, S> {
    ghost use Rattle.std.specs.Prelude.{◌≡◌, length};
    ghost use Rattle.cfg_sentences.specs.Sentences.{Costed};

    ghost Value = { Costed };

    ghost view = { λ s. record { grammar = s.grm.now.grammar; costs = s.costs.items } };

    ghost invariant = { λ s. length s.costs.items ≡ s.grm.now.grammar.tokens };
}

impl<'a, S: IndexStorage> TokenCosts<'a, S> {
    /// Takes the cost of each token, in order.
    pub fn new(grm: &'a NumberedGrammar<S>, costs: Vec<u8>) -> Self
        requires { length costs.items ≡ grm.now.grammar.tokens }
        ensures grammar { result.grammar ≡ grm.now.grammar }
        ensures costs { result.costs ≡ costs.items }
    {
        TokenCosts { grm, costs }
    }

    /// Returns the costs, by the tokens' numbers.
    pub fn costs(&self) -> &[u8]
        ensures value { result.now ≡ self.now.costs }
        ensures count { length self.now.costs ≡ self.now.grammar.tokens }
    {
        self.costs.as_slice()
    }

    /// Proves that the grammar is well formed, for calls that require it.
    pub fn stays_well_formed(&self)
        ensures { WellFormed self.now.grammar }
    {
        self.grm.stays_well_formed();
    }

    /// Returns, for each rule, the productions that name it.
    pub fn naming(&self, alloc: Global) -> Result<Naming, AllocError>
        ensures { IfOk result (λ n. ListsNaming self.now.grammar (length self.now.grammar.productions) n) }
    {
        Naming::new(alloc, self.grm)
    }

    /// Returns an order of the productions in which those of a rule come after those of the rules that they name,
    /// unless names lead around in a cycle.
    pub fn order(&self, alloc: Global) -> Result<Order, AllocError>
        ensures { IfOk result (λ o. IsOrder (length self.now.grammar.productions) o) }
    {
        Order::named_first(alloc, self.grm)
    }

    /// Returns how many productions the grammar has. This and the next calls are those of the grammar.
    pub fn prods_len(&self) -> PIdx<S>
        ensures { S.number result.0 ≡ length self.now.grammar.productions }
    {
        self.grm.prods_len()
    }

    /// Returns how many rules the grammar has.
    pub fn rules_len(&self) -> RIdx<S>
        ensures { S.number result.0 ≡ self.now.grammar.rules }
    {
        self.grm.rules_len()
    }

    /// Returns the rule of a number.
    pub fn rule_at(&self, number: usize) -> RIdx<S>
        requires { number < self.now.grammar.rules }
        ensures { S.number result.0 ≡ number }
    {
        self.grm.rule_at(number)
    }

    /// Returns the production of a number.
    pub fn prod_at(&self, number: usize) -> PIdx<S>
        requires { number < length self.now.grammar.productions }
        ensures { S.number result.0 ≡ number }
    {
        self.grm.prod_at(number)
    }

    /// Returns the symbols of a production.
    pub fn prod(&self, pidx: PIdx<S>) -> &[Symbol<S>]
        requires { S.number pidx.0 < length self.now.grammar.productions }
        ensures { syms_of S.number result.now ≡ body_of self.now.grammar (S.number pidx.0) }
    {
        self.grm.prod(pidx)
    }

    /// Returns the rule of a production.
    pub fn prod_to_rule(&self, pidx: PIdx<S>) -> RIdx<S>
        requires { S.number pidx.0 < length self.now.grammar.productions }
        ensures { S.number result.0 ≡ head_of self.now.grammar (S.number pidx.0) }
    {
        self.grm.prod_to_rule(pidx)
    }

    /// Returns the productions of a rule.
    pub fn rule_to_prods(&self, ridx: RIdx<S>) -> &[PIdx<S>]
        requires { S.number ridx.0 < self.now.grammar.rules }
        ensures { numbers_of S.number result.now ≡ productions_of self.now.grammar (S.number ridx.0) }
    {
        self.grm.rule_to_prods(ridx)
    }

    /// Returns the cost of a production's symbols by the costs of the rules, where each rule among them has one.
    pub fn body_cost(&self, pidx: PIdx<S>, table: &[Option<u32>]) -> Option<u32>
        requires production { S.number pidx.0 < length self.now.grammar.productions }
        requires rules { length table.now ≡ self.now.grammar.rules }
        requires capped { AreCapped table.now }
        ensures { MatchOption result (HasNoCost self.now.costs table.now (body_of self.now.grammar (S.number pidx.0))) (λ k. IsCost self.now.costs table.now (body_of self.now.grammar (S.number pidx.0)) k) }
    {
        self.stays_well_formed();
        symbols_cost(self.prod(pidx), self.costs(), table)
    }
}

/// One more than the greatest cost that is returned. A cost past it is stored as it, and no sum with it is below it
/// again.
pub(super) const BOUND: u32 = 65_536;

fn plus(a: u32, b: u32) -> u32
    requires a { a ≤ bound }
    requires b { b ≤ bound }
    ensures { result ≡ min (a + b) bound }
{
    let sum = a + b;
    if sum > BOUND {
        return BOUND;
    }
    sum
}

fn symbol_cost<S: IndexStorage>(
    symbol: Symbol<S>,
    costs: &[u8],
    least: &[Option<u32>],
) -> Option<u32>
    requires within { HasCost costs.now least.now (sym_of S.number symbol) }
    requires capped { AreCapped least.now }
    ensures value { result ≡ cost_at costs.now least.now (sym_of S.number symbol) }
    ensures capped { IfSome result (λ n. n ≤ bound) }
{
    match symbol {
        Symbol::Rule(rule) => least[rule.0.to_usize()],
        Symbol::Token(token) => Some(u32::from(costs[token.0.to_usize()])),
    }
}

/// Returns the cost of a list of symbols, where each rule in it has one.
fn symbols_cost<S: IndexStorage>(
    symbols: &[Symbol<S>],
    costs: &[u8],
    least: &[Option<u32>],
) -> Option<u32>
    requires within { AllHaveCosts costs.now least.now (syms_of S.number symbols.now) }
    requires capped { AreCapped least.now }
    ensures { MatchOption result (HasNoCost costs.now least.now (syms_of S.number symbols.now)) (λ k. IsCost costs.now least.now (syms_of S.number symbols.now) k) }
{
    let mut sum = 0;
    'back: for index in 0..symbols.len() {
        let symbol = symbols[symbols.len() - 1 - index];
        let Some(cost) = symbol_cost(symbol, costs, least) else {
            return None;
        };
        sum = plus(cost, sum);
    }
    Some(sum)
}
