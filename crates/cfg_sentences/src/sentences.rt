//! Costs of the token lists that a rule derives.

ghost use Rattle.std.specs.Prelude.{◌≡◌, ◌<◌, IfOk, IfErr, length};
ghost use Rattle.cfg_theory.specs.Cost.{IsLeastCost};
ghost use Rattle.cfg_sentences.specs.CostTable.{cost_of};
ghost use Rattle.cfg_sentences.specs.Sentences.{Costed, LeastIsRefused, AreAnswers};
ghost use Rattle.cfg_sentences.specs.declared.sentences.SentenceError.TheVariants.{Memory};

mod bounded;
mod cheapest;
mod cheapest_first;
mod dirty_productions;
mod first_cheapest;
mod groups;
mod kept_costs;
mod least;
mod max_cost;
mod needed;
mod shared_lists;
mod shared_order;
mod token_costs;
mod token_lists;
mod unbounded;

use cfg_base::index::IndexStorage;
use cfg_base::symbol::{RIdx, TIdx};
use cfg_numbered::yacc::grammar::NumberedGrammar;
use cfg_theory::cost::productive_rules_have_least_costs;
use cheapest_first::cheapest_first;
use least::LeastCosts;
use max_cost::greatest_tables;
use std::alloc::{AllocError, Global};
use std::marker::Model;
use thiserror::Error;
use token_costs::{BOUND, TokenCosts};
use vob::Vob;

/// Why a cost isn't given.
#[derive(Debug, Drop, Error)]
pub enum CostError {
    /// The rule derives no token list.
    #[error("NoSentence")]
    NoSentence,
    /// The cost is past 65,535.
    #[error("CostTooLarge")]
    CostTooLarge,
}

/// Why token lists aren't given.
#[derive(Debug, Drop, Error)]
pub enum SentenceError {
    /// The rule derives no token list.
    #[error("NoSentence")]
    NoSentence,
    /// The lists' cost is past 65,535.
    #[error("CostTooLarge")]
    CostTooLarge,
    /// The lists don't fit into memory.
    #[error("Memory")]
    Memory(AllocError),
}

impl From<AllocError> for SentenceError {
    ghost from_gives = { λ e f. f ≡ Memory e };

    fn from(e: AllocError) -> SentenceError {
        SentenceError::Memory(e)
    }
}

/// Costs of a grammar's rules, by costs of its tokens.
#[derive(Drop)]
pub struct SentenceGenerator<'a, S: IndexStorage> {
    least: LeastCosts<'a, S>,
    unbounded: Vob,
    greatest: Vec<Option<u32>>,
}

impl<'a, S: IndexStorage> Model for SentenceGenerator<'a, S> {
    ghost use Rattle.cfg_sentences.specs.CostTable.{cost_of};
    ghost use Rattle.cfg_sentences.specs.Sentences.{Costed};
    ghost use Rattle.cfg_sentences.specs.Greatest.{AreGreatest};

    ghost Value = { Costed };

    ghost view = { λ s. record { grammar = s.least.grammar; costs = s.least.costs } };

    ghost invariant = { λ s. AreGreatest s.least.grammar (cost_of s.least.costs) s.unbounded.bits s.greatest.items };
}

impl<'a, S: IndexStorage> SentenceGenerator<'a, S> {
    /// Computes the costs of the rules' sentences from costs of the tokens: `f` is called once for each token in
    /// order, the end token too.
    pub fn new<F: Fn(TIdx<S>) -> u8 + Drop>(
        alloc: Global,
        grm: &'a NumberedGrammar<S>,
        f: F,
    ) -> Result<Self, AllocError>
        requires { F.IsAlwaysCallable f }
        ensures grammar { IfOk result (λ s. s.grammar ≡ grm.now.grammar) }
        ensures costs { IfOk result (λ s. AreAnswers S.number (F.post f) grm.now.grammar.tokens s.costs) }
    {
        let mut costs = Vec::new(alloc);
        'tokens: for number in 0..grm.tokens_len().0.to_usize() {
            costs.push(f(grm.token_at(number)))?;
        }
        let made = SentenceGenerator::of_costs(alloc, grm, costs)?;
        Ok(made)
    }

    /// Computes the costs of the rules, by a cost for each token, in order.
    fn of_costs(
        alloc: Global,
        grm: &'a NumberedGrammar<S>,
        costs: Vec<u8>,
    ) -> Result<Self, AllocError>
        requires { length costs.items ≡ grm.now.grammar.tokens }
        ensures grammar { IfOk result (λ s. s.grammar ≡ grm.now.grammar) }
        ensures costs { IfOk result (λ s. s.costs ≡ costs.items) }
    {
        let tokens = TokenCosts::new(grm, costs);
        let naming = tokens.naming(alloc)?;
        let order = tokens.order(alloc)?;
        let (unbounded, greatest) = greatest_tables(alloc, &tokens, &naming, &order)?;
        let order = cheapest_first(alloc, &tokens, &naming)?;
        let least = LeastCosts::new(alloc, tokens, &naming, &order)?;
        Ok(SentenceGenerator {
            least,
            unbounded,
            greatest,
        })
    }

    /// Returns the least cost of the token lists that the rule derives. Returns `NoSentence` where it derives
    /// none, and `CostTooLarge` where the least cost is past 65,535.
    pub fn min_sentence_cost(&self, ridx: RIdx<S>) -> Result<u16, CostError>
        requires { S.number ridx.0 < self.now.grammar.rules }
        ensures ok { IfOk result (λ n. IsLeastCost self.now.grammar (cost_of self.now.costs) (S.number ridx.0) n) }
        ensures err { IfErr result (λ e. LeastIsRefused self.now.grammar (cost_of self.now.costs) (S.number ridx.0) e) }
    {
        productive_rules_have_least_costs();
        self.least.stays_well_formed();
        self.least.stays_least();
        match self.least.of_rule(ridx) {
            None => Err(CostError::NoSentence),
            Some(cost) if cost < BOUND => Ok(cost as u16),
            Some(_) => Err(CostError::CostTooLarge),
        }
    }
}
