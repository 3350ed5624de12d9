//! Greatest costs, by productions that raise them.

ghost use Rattle.std.specs.Prelude.{◌≡◌, ℕ, ◌<◌, ◌≤◌, ◌↔◌, IsTrue, IfOk, IfErr, MatchOption, length, min, None, Some};
ghost use Rattle.cfg_theory.specs.Cost.{IsGreatestCost, IsUnbounded};
ghost use Rattle.cfg_theory.specs.Greatest.{IsKeptTable};
ghost use Rattle.cfg_sentences.specs.CostTable.{bound, cost_of, cost_in};
ghost use Rattle.vob.specs.Sets.{is_set};
ghost use Rattle.cfg_sets.specs.WorkLists.{ListsNaming, TakesIn};
ghost use Rattle.cfg_sets.specs.Orders.{IsOrder};
ghost use Rattle.cfg_sentences.specs.Greatest.{AreRaised, IsRaisedBy, IsMore, rise, AreGreatest, GreatestIsRefused};

use super::dirty_productions::closed_by_prods;
use super::kept_costs::KeptCosts;
use super::least::no_costs;
use super::token_costs::{BOUND, TokenCosts};
use super::unbounded::unbounded_rules;
use super::{CostError, SentenceGenerator};
use crate::by_prods::ProdTable;
use cfg_base::index::IndexStorage;
use cfg_base::symbol::RIdx;
use cfg_sets::naming::Naming;
use cfg_sets::orders::Order;
use cfg_theory::cost::{bounded_rules_have_greatest_costs, kept_tables_are_exact};
use std::alloc::{AllocError, Global};
use vob::Vob;

impl<'a, S: IndexStorage> SentenceGenerator<'a, S> {
    /// Returns the greatest cost of the token lists that the rule derives, and `None` where for each number some
    /// list costs more. Returns `NoSentence` where the rule derives none, and `CostTooLarge` where the greatest
    /// cost is past 65,535.
    pub fn max_sentence_cost(&self, ridx: RIdx<S>) -> Result<Option<u16>, CostError>
        requires { S.number ridx.0 < self.now.grammar.rules }
        ensures ok { IfOk result (λ o. MatchOption o (IsUnbounded self.now.grammar (cost_of self.now.costs) (S.number ridx.0)) (λ n. IsGreatestCost self.now.grammar (cost_of self.now.costs) (S.number ridx.0) n)) }
        ensures err { IfErr result (λ e. GreatestIsRefused self.now.grammar (cost_of self.now.costs) (S.number ridx.0) e) }
    {
        bounded_rules_have_greatest_costs();
        kept_tables_are_exact();
        self.least.stays_well_formed();
        let rule = ridx.0.to_usize();
        if self.unbounded.get_unchecked(rule) {
            return Ok(None);
        }
        match self.greatest[rule] {
            None => Err(CostError::NoSentence),
            Some(cost) if cost < BOUND => Ok(Some(cost as u16)),
            Some(_) => Err(CostError::CostTooLarge),
        }
    }
}

/// Returns the unbounded rules, and the greatest costs of the others, capped at the bound.
pub(super) fn greatest_tables<S: IndexStorage>(
    alloc: Global,
    tokens: &TokenCosts<S>,
    naming: &Naming,
    order: &Order,
) -> Result<(Vob, Vec<Option<u32>>), AllocError>
    requires naming { ListsNaming tokens.now.grammar (length tokens.now.grammar.productions) naming.now }
    requires order { IsOrder (length tokens.now.grammar.productions) order.now }
    ensures { IfOk result (λ r. AreGreatest tokens.now.grammar (cost_of tokens.now.costs) r.0.bits r.1.items) }
{
    let none = Vob::from_elem(alloc, false, tokens.rules_len().0.to_usize())?;
    let table = greatest_costs(alloc, tokens, naming, order, &none, 1)?;
    let costly = KeptCosts::new(tokens, table);
    let unbounded = unbounded_rules(alloc, &costly, naming, order)?;
    let greatest = greatest_costs(alloc, tokens, naming, order, &unbounded, BOUND)?;
    Ok((unbounded, greatest))
}

fn is_more(new: u32, old: Option<u32>) -> bool
    ensures { IsTrue result ↔ IsMore new old }
{
    match old {
        None => true,
        Some(old) => old < new,
    }
}

pub(super) fn at_most(cost: u32, top: u32) -> u32
    ensures { result ≡ min cost top }
{
    if cost > top {
        return top;
    }
    cost
}

/// Takes in one production of a rule that isn't skipped, and gives the rule where that made it dearer.
fn take_prod<S: IndexStorage>(
    tokens: &TokenCosts<S>,
    skipped: &Vob,
    top: u32,
    number: usize,
    greatest: &mut Vec<Option<u32>>,
) -> Option<usize>
    requires production { number < length tokens.now.grammar.productions }
    requires rules { length skipped.now.bits ≡ tokens.now.grammar.rules }
    requires top { top ≤ bound }
    requires costs { AreRaised tokens.now.grammar (cost_of tokens.now.costs) top greatest.old.items }
    ensures costs { AreRaised tokens.now.grammar (cost_of tokens.now.costs) top greatest.new.items }
    ensures takes { TakesIn tokens.now.grammar (rise top) (λ t p. IsRaisedBy tokens.now.grammar (cost_of tokens.now.costs) top skipped.now.bits p t) number greatest.old.items greatest.new.items result }
{
    tokens.stays_well_formed();
    let pidx = tokens.prod_at(number);
    let rule = tokens.prod_to_rule(pidx).0.to_usize();
    if skipped.get_unchecked(rule) {
        return None;
    }
    let Some(cost) = tokens.body_cost(pidx, greatest.as_slice()) else {
        return None;
    };
    let new = at_most(cost, top);
    if !is_more(new, greatest[rule]) {
        return None;
    }
    greatest[rule] = Some(new);
    Some(rule)
}

/// Greatest costs of rules that aren't skipped, capped at `top`, as they are raised.
#[derive(Drop)]
struct Raising<'t, 'a, S: IndexStorage> {
    tokens: &'t TokenCosts<'a, S>,
    skipped: &'t Vob,
    top: u32,
    greatest: Vec<Option<u32>>,
}

impl<'t, 'a, S: IndexStorage> ProdTable for Raising<'t, 'a, S> {
    ghost use Rattle.std.specs.Prelude.{◌≡◌, ◌≤◌, length, refl};
    ghost use Rattle.std.proofs.Common.{◌∙◌};
    ghost use Rattle.cfg_sentences.specs.CostTable.{bound, cost_of};
    ghost use Rattle.cfg_sentences.specs.Greatest.{AreRaised, IsRaisedBy, rise};

    ghost grammar = { λ s. s.tokens.now.grammar };

    ghost is_sound = { λ s. (length s.skipped.now.bits ≡ s.tokens.now.grammar.rules) × (s.top ≤ bound) × AreRaised s.tokens.now.grammar (cost_of s.tokens.now.costs) s.top s.greatest.items };

    ghost room = { λ s. rise s.top s.greatest.items };

    ghost is_closed_by = { λ s p. IsRaisedBy s.tokens.now.grammar (cost_of s.tokens.now.costs) s.top s.skipped.now.bits p s.greatest.items };

    ghost is_of_same = { λ s t. (t.tokens.now ≡ s.tokens.now) × (t.skipped.now ≡ s.skipped.now) × (t.top ≡ s.top) };

    ghost same_refl = { λ s. (refl, refl, refl) };

    ghost same_trans = { λ s t u h k. (k.0 ∙ h.0, k.1 ∙ h.1, k.2 ∙ h.2) };

    fn take_prod(&mut self, number: usize) -> Result<Option<usize>, AllocError> {
        let (tokens, skipped) = (self.tokens, self.skipped);
        Ok(take_prod(tokens, skipped, self.top, number, &mut self.greatest))
    }
}

/// Returns the greatest costs of the rules that aren't skipped, capped at `top`.
fn greatest_costs<S: IndexStorage>(
    alloc: Global,
    tokens: &TokenCosts<S>,
    naming: &Naming,
    order: &Order,
    skipped: &Vob,
    top: u32,
) -> Result<Vec<Option<u32>>, AllocError>
    requires naming { ListsNaming tokens.now.grammar (length tokens.now.grammar.productions) naming.now }
    requires order { IsOrder (length tokens.now.grammar.productions) order.now }
    requires rules { length skipped.now.bits ≡ tokens.now.grammar.rules }
    requires top { top ≤ bound }
    ensures count { IfOk result (λ v. length v.items ≡ tokens.now.grammar.rules) }
    ensures table { IfOk result (λ v. IsKeptTable tokens.now.grammar (cost_of tokens.now.costs) top (is_set skipped.now.bits) (cost_in v.items)) }
{
    let greatest = no_costs(alloc, tokens.rules_len().0.to_usize())?;
    let table = Raising {
        tokens,
        skipped,
        top,
        greatest,
    };
    let prods = tokens.prods_len().0.to_usize();
    let closed = closed_by_prods(alloc, order, naming, prods, table)?;
    Ok(closed.greatest)
}
