//! Least costs, by productions that lower them.

ghost use Rattle.std.specs.Prelude.{◌≡◌, ℕ, ◌<◌, ◌↔◌, IsTrue, IfOk, MatchOption, List, length, replicate, None, Some};
ghost use Rattle.cfg_theory.specs.Grammar.{Grammar, WellFormed, head_of, body_of};
ghost use Rattle.cfg_numbered.specs.Symbols.{syms_of, numbers_of};
ghost use Rattle.cfg_numbered.specs.Value.{productions_of};
ghost use Rattle.cfg_sentences.specs.Sentences.{CostedTable};
ghost use Rattle.cfg_sentences.specs.CostTable.{cost_of, cost_in, IsCost, HasNoCost, AreCosts, IsClosedBy, fall, IsLess};
ghost use Rattle.cfg_sets.specs.WorkLists.{ListsNaming, TakesIn};
ghost use Rattle.cfg_sets.specs.Orders.{IsOrder};
ghost use Rattle.cfg_sentences.specs.CheapestTable.{GivesLeast};

use super::dirty_productions::closed_by_prods;
use super::token_costs::{BOUND, TokenCosts};
use crate::by_prods::ProdTable;
use cfg_base::index::IndexStorage;
use cfg_base::symbol::{PIdx, RIdx, Symbol};
use cfg_sets::naming::Naming;
use cfg_sets::orders::Order;
use std::alloc::{AllocError, Global};
use std::marker::Model;

/// The least costs of a grammar's rules, capped at the bound, with the costs of the tokens.
#[derive(Drop)]
pub(super) struct LeastCosts<'a, S: IndexStorage> {
    tokens: TokenCosts<'a, S>,
    least: Vec<Option<u32>>,
}

impl<'a, S: IndexStorage> Model for LeastCosts<'a, S> {
    ghost use Rattle.std.specs.Prelude.{ℕ, ◌<◌, length};
    ghost use Rattle.cfg_sentences.specs.CostTable.{cost_of, AreCosts, IsClosedBy};
    ghost use Rattle.cfg_sentences.specs.Sentences.{CostedTable};

    ghost Value = { CostedTable };

    ghost view = { λ s. record { grammar = s.tokens.grammar; costs = s.tokens.costs; table = s.least.items } };

    ghost invariant = { λ s.
        AreCosts s.tokens.grammar (cost_of s.tokens.costs) s.least.items ×
        ((p : ℕ) → p < length s.tokens.grammar.productions → IsClosedBy s.tokens.grammar (cost_of s.tokens.costs) p s.least.items) };
}

impl<'a, S: IndexStorage> LeastCosts<'a, S> {
    /// Computes the least costs.
    pub fn new(
        alloc: Global,
        tokens: TokenCosts<'a, S>,
        naming: &Naming,
        order: &Order,
    ) -> Result<Self, AllocError>
        requires naming { ListsNaming tokens.grammar (length tokens.grammar.productions) naming.now }
        requires order { IsOrder (length tokens.grammar.productions) order.now }
        ensures grammar { IfOk result (λ s. s.grammar ≡ tokens.entry.grammar) }
        ensures costs { IfOk result (λ s. s.costs ≡ tokens.entry.costs) }
    {
        let least = least_costs(alloc, &tokens, naming, order)?;
        Ok(LeastCosts { tokens, least })
    }

    /// Proves that the table holds costs of token lists, and no production makes its rule cheaper.
    pub fn stays_least(&self)
        ensures costs { AreCosts self.now.grammar (cost_of self.now.costs) self.now.table }
        ensures closed { (p : ℕ) → p < length self.now.grammar.productions → IsClosedBy self.now.grammar (cost_of self.now.costs) p self.now.table }
    {
        // For the proof alone: this read gives it the invariant of each such table.
        let _least = &self.least;
    }

    /// Proves that the grammar is well formed. This and the next calls are those of the tokens' costs.
    pub fn stays_well_formed(&self)
        ensures { WellFormed self.now.grammar }
    {
        self.tokens.stays_well_formed();
    }

    /// Returns the costs, one for each token.
    pub fn token_costs(&self) -> &[u8]
        ensures value { result.now ≡ self.now.costs }
        ensures count { length self.now.costs ≡ self.now.grammar.tokens }
    {
        self.tokens.costs()
    }

    /// Returns how many productions the grammar has.
    pub fn prods_len(&self) -> PIdx<S>
        ensures { S.number result.0 ≡ length self.now.grammar.productions }
    {
        self.tokens.prods_len()
    }

    /// Returns how many rules the grammar has.
    pub fn rules_len(&self) -> RIdx<S>
        ensures { S.number result.0 ≡ self.now.grammar.rules }
    {
        self.tokens.rules_len()
    }

    /// Returns the rule of a number.
    pub fn rule_at(&self, number: usize) -> RIdx<S>
        requires { number < self.now.grammar.rules }
        ensures { S.number result.0 ≡ number }
    {
        self.tokens.rule_at(number)
    }

    /// Returns the production of a number.
    pub fn prod_at(&self, number: usize) -> PIdx<S>
        requires { number < length self.now.grammar.productions }
        ensures { S.number result.0 ≡ number }
    {
        self.tokens.prod_at(number)
    }

    /// Lists for each rule the productions that name it.
    pub fn naming(&self, alloc: Global) -> Result<Naming, AllocError>
        ensures { IfOk result (λ n. ListsNaming self.now.grammar (length self.now.grammar.productions) n) }
    {
        self.tokens.naming(alloc)
    }

    /// Lists the productions so that those of named rules come first, as far as that goes.
    pub fn order(&self, alloc: Global) -> Result<Order, AllocError>
        ensures { IfOk result (λ o. IsOrder (length self.now.grammar.productions) o) }
    {
        self.tokens.order(alloc)
    }

    /// Returns the productions of a rule.
    pub fn rule_to_prods(&self, ridx: RIdx<S>) -> &[PIdx<S>]
        requires { S.number ridx.0 < self.now.grammar.rules }
        ensures { numbers_of S.number result.now ≡ productions_of self.now.grammar (S.number ridx.0) }
    {
        self.tokens.rule_to_prods(ridx)
    }

    /// Returns the symbols of a production.
    pub fn prod(&self, pidx: PIdx<S>) -> &[Symbol<S>]
        requires { S.number pidx.0 < length self.now.grammar.productions }
        ensures { syms_of S.number result.now ≡ body_of self.now.grammar (S.number pidx.0) }
    {
        self.tokens.prod(pidx)
    }

    /// Returns the rule of a production.
    pub fn prod_to_rule(&self, pidx: PIdx<S>) -> RIdx<S>
        requires { S.number pidx.0 < length self.now.grammar.productions }
        ensures { S.number result.0 ≡ head_of self.now.grammar (S.number pidx.0) }
    {
        self.tokens.prod_to_rule(pidx)
    }

    /// Returns the cost of a rule that derives some token list.
    pub fn of_rule(&self, ridx: RIdx<S>) -> Option<u32>
        requires { S.number ridx.0 < self.now.grammar.rules }
        ensures { result ≡ cost_in self.now.table (S.number ridx.0) }
    {
        self.least[ridx.0.to_usize()]
    }

    fn body_cost(&self, pidx: PIdx<S>) -> Option<u32>
        requires { S.number pidx.0 < length self.now.grammar.productions }
        ensures { MatchOption result (HasNoCost self.now.costs self.now.table (body_of self.now.grammar (S.number pidx.0))) (λ k. IsCost self.now.costs self.now.table (body_of self.now.grammar (S.number pidx.0)) k) }
    {
        self.tokens.body_cost(pidx, self.least.as_slice())
    }

    /// Returns whether a production gives its rule the least cost, and that is below the bound.
    pub fn gives_least(&self, pidx: PIdx<S>) -> bool
        requires { S.number pidx.0 < length self.now.grammar.productions }
        ensures { IsTrue result ↔ GivesLeast self.now.grammar (cost_of self.now.costs) self.now.table (S.number pidx.0) }
    {
        self.stays_well_formed();
        let Some(cost) = self.of_rule(self.prod_to_rule(pidx)) else {
            return false;
        };
        if cost >= BOUND {
            return false;
        }
        let Some(sum) = self.body_cost(pidx) else {
            return false;
        };
        sum == cost
    }
}

fn is_less(new: u32, old: Option<u32>) -> bool
    ensures { IsTrue result ↔ IsLess (Some new) old }
{
    match old {
        None => true,
        Some(old) => new < old,
    }
}

/// Takes in one production, and gives its rule where that made it cheaper.
fn take_prod<S: IndexStorage>(
    tokens: &TokenCosts<S>,
    number: usize,
    least: &mut Vec<Option<u32>>,
) -> Option<usize>
    requires production { number < length tokens.now.grammar.productions }
    requires costs { AreCosts tokens.now.grammar (cost_of tokens.now.costs) least.old.items }
    ensures costs { AreCosts tokens.now.grammar (cost_of tokens.now.costs) least.new.items }
    ensures takes { TakesIn tokens.now.grammar fall (λ t p. IsClosedBy tokens.now.grammar (cost_of tokens.now.costs) p t) number least.old.items least.new.items result }
{
    tokens.stays_well_formed();
    let pidx = tokens.prod_at(number);
    let Some(new) = tokens.body_cost(pidx, least.as_slice()) else {
        return None;
    };
    let rule = tokens.prod_to_rule(pidx).0.to_usize();
    if !is_less(new, least[rule]) {
        return None;
    }
    least[rule] = Some(new);
    Some(rule)
}

/// Least costs, as they are lowered.
#[derive(Drop)]
struct Lowering<'t, 'a, S: IndexStorage> {
    tokens: &'t TokenCosts<'a, S>,
    least: Vec<Option<u32>>,
}

impl<'t, 'a, S: IndexStorage> ProdTable for Lowering<'t, 'a, S> {
    ghost use Rattle.std.specs.Prelude.{◌≡◌, refl};
    ghost use Rattle.std.proofs.Common.{◌∙◌};
    ghost use Rattle.cfg_sentences.specs.CostTable.{cost_of, AreCosts, IsClosedBy, fall};

    ghost grammar = { λ s. s.tokens.now.grammar };

    ghost is_sound = { λ s. AreCosts s.tokens.now.grammar (cost_of s.tokens.now.costs) s.least.items };

    ghost room = { λ s. fall s.least.items };

    ghost is_closed_by = { λ s p. IsClosedBy s.tokens.now.grammar (cost_of s.tokens.now.costs) p s.least.items };

    ghost is_of_same = { λ s t. t.tokens.now ≡ s.tokens.now };

    ghost same_refl = { λ s. refl };

    ghost same_trans = { λ s t u h k. k ∙ h };

    fn take_prod(&mut self, number: usize) -> Result<Option<usize>, AllocError> {
        Ok(take_prod(self.tokens, number, &mut self.least))
    }
}

pub(super) fn no_costs(alloc: Global, rules: usize) -> Result<Vec<Option<u32>>, AllocError>
    ensures { IfOk result (λ v. v.items ≡ replicate rules None) }
{
    let mut least = Vec::new(alloc);
    'rules: for _ in 0..rules {
        least.push(None)?;
    }
    Ok(least)
}

/// Returns the least costs of the rules, capped at the bound.
fn least_costs<S: IndexStorage>(
    alloc: Global,
    tokens: &TokenCosts<S>,
    naming: &Naming,
    order: &Order,
) -> Result<Vec<Option<u32>>, AllocError>
    requires naming { ListsNaming tokens.now.grammar (length tokens.now.grammar.productions) naming.now }
    requires order { IsOrder (length tokens.now.grammar.productions) order.now }
    ensures costs { IfOk result (λ v. AreCosts tokens.now.grammar (cost_of tokens.now.costs) v.items) }
    ensures closed { IfOk result (λ v. (p : ℕ) → p < length tokens.now.grammar.productions → IsClosedBy tokens.now.grammar (cost_of tokens.now.costs) p v.items) }
{
    let least = no_costs(alloc, tokens.rules_len().0.to_usize())?;
    let table = Lowering { tokens, least };
    let prods = tokens.prods_len().0.to_usize();
    let closed = closed_by_prods(alloc, order, naming, prods, table)?;
    Ok(closed.least)
}
