//! The first of a rule's cheapest token lists.
//!
//! Each rule has one list, since all of its cheapest ones could be too many, and lists share their parts, so that
//! they take no more room than the productions. Of two lists the first offset where they differ decides which comes
//! first. So a list that is joined of first lists is first too, unless one of two lists is a prefix of the other:
//! then what follows decides. All of a rule's cheapest lists cost the same, so this happens only where the further
//! tokens of the longer one cost nothing. In that case all cheapest lists are made.

ghost use Rattle.std.specs.Prelude.{◌≡◌, ℕ, ◌<◌, ◌≤◌, IfOk, IfErr, IfSome, MatchOption, [], length, get_or, set, replicate, true, false, Some, None};
ghost use Rattle.cfg_theory.specs.Productive.{RulesIn};
ghost use Rattle.cfg_theory.specs.Cost.{cost};
ghost use Rattle.cfg_numbered.specs.Symbols.{syms_of};
ghost use Rattle.cfg_sets.specs.WorkLists.{TakesIn};
ghost use Rattle.cfg_sentences.specs.CostTable.{bound, cost_of, cost_in};
ghost use Rattle.cfg_sentences.specs.TokenLists.{tokens_of};
ghost use Rattle.cfg_sentences.specs.CheapestTable.{ListsAreRefused, IsFirstCheapest};
ghost use Rattle.cfg_sentences.specs.EarliestTable.{GivesNone, GivesOne, ComesFirst, IsNestedIn, AreFound, IsTakenIn, room_in};

use super::cheapest::lists_of_rule;
use super::dirty_productions::closed_by_prods;
use super::least::LeastCosts;
use super::needed::wanted_rules;
use super::shared_lists::{SharedLists, write};
use super::shared_order::is_list_ahead;
use super::token_costs::BOUND;
use super::{SentenceError, SentenceGenerator};
use crate::by_prods::ProdTable;
use cfg_base::index::IndexStorage;
use cfg_base::symbol::{RIdx, Symbol, TIdx};
use cfg_theory::cost::{
    cheap_lists_are_short, cheapest_lists_of_wanted_rules, productive_rules_have_least_costs,
};
use std::alloc::{AllocError, Global};
use vob::Vob;

impl<'a, S: IndexStorage> SentenceGenerator<'a, S> {
    /// Returns the first of the cheapest token lists of the rule. Where one of a rule's cheapest lists is a
    /// prefix of another, by tokens that cost nothing, all of them are made to find the first.
    ///
    /// # Errors
    ///
    /// - `NoSentence` where the rule derives no list.
    /// - `CostTooLarge` where its cheapest lists cost more than 65,535.
    /// - `Memory` where memory is refused, also where infinitely many lists would be made.
    pub fn min_sentence(&self, alloc: Global, ridx: RIdx<S>) -> Result<Vec<TIdx<S>>, SentenceError>
        requires { S.number ridx.0 < self.now.grammar.rules }
        ensures ok { IfOk result (λ w. IsFirstCheapest self.now.grammar (cost_of self.now.costs) (S.number ridx.0) (tokens_of S.number w.items)) }
        ensures short { ((t : ℕ) → t < self.now.grammar.tokens → 1 ≤ cost_of self.now.costs t) → IfOk result (λ w. length w.items ≤ cost (cost_of self.now.costs) (tokens_of S.number w.items)) }
        ensures err { IfErr result (λ e. ListsAreRefused self.now.grammar (cost_of self.now.costs) (S.number ridx.0) e) }
    {
        productive_rules_have_least_costs();
        cheap_lists_are_short();
        self.least.stays_well_formed();
        self.least.stays_least();
        match self.least.of_rule(ridx) {
            None => Err(SentenceError::NoSentence),
            Some(cost) if cost < BOUND => {
                let list = list_of_rule(alloc, &self.least, ridx)?;
                Ok(list)
            }
            Some(_) => Err(SentenceError::CostTooLarge),
        }
    }
}

/// Returns the first of the cheapest lists of a rule whose least cost is below the bound.
fn list_of_rule<S: IndexStorage>(
    alloc: Global,
    least: &LeastCosts<S>,
    ridx: RIdx<S>,
) -> Result<Vec<TIdx<S>>, AllocError>
    requires rule { S.number ridx.0 < least.now.grammar.rules }
    requires cost { (n : ℕ) × (cost_in least.now.table (S.number ridx.0) ≡ Some n) × (n < bound) }
    ensures { IfOk result (λ w. IsFirstCheapest least.now.grammar (cost_of least.now.costs) (S.number ridx.0) (tokens_of S.number w.items)) }
{
    match find_list(alloc, least, ridx)? {
        Some(list) => Ok(list),
        None => first_of_all(alloc, least, ridx),
    }
}

/// Returns the first of the rule's cheapest lists, from all of them.
fn first_of_all<S: IndexStorage>(
    alloc: Global,
    least: &LeastCosts<S>,
    ridx: RIdx<S>,
) -> Result<Vec<TIdx<S>>, AllocError>
    requires rule { S.number ridx.0 < least.now.grammar.rules }
    requires cost { (n : ℕ) × (cost_in least.now.table (S.number ridx.0) ≡ Some n) × (n < bound) }
    ensures { IfOk result (λ w. IsFirstCheapest least.now.grammar (cost_of least.now.costs) (S.number ridx.0) (tokens_of S.number w.items)) }
{
    let mut lists = lists_of_rule(alloc, least, ridx)?;
    Ok(lists.swap_remove(0))
}

/// Returns the first of the rule's cheapest lists, from one list for each rule; `None` where it isn't known which
/// ones come first.
fn find_list<S: IndexStorage>(
    alloc: Global,
    least: &LeastCosts<S>,
    ridx: RIdx<S>,
) -> Result<Option<Vec<TIdx<S>>>, AllocError>
    requires rule { S.number ridx.0 < least.now.grammar.rules }
    requires cost { (n : ℕ) × (cost_in least.now.table (S.number ridx.0) ≡ Some n) × (n < bound) }
    ensures { IfOk result (λ o. IfSome o (λ w. IsFirstCheapest least.now.grammar (cost_of least.now.costs) (S.number ridx.0) (tokens_of S.number w.items))) }
{
    least.stays_well_formed();
    least.stays_least();
    let wanted = wanted_rules(alloc, least, ridx)?;
    let firsts = first_lists(alloc, least, &wanted)?;
    if !firsts.is_told {
        return Ok(None);
    }
    match firsts.shared.of_rule(ridx.0.to_usize()) {
        Some(number) => {
            let list = write(alloc, &firsts.shared, number)?;
            Ok(Some(list))
        }
        None => unreachable!(),
    }
}

/// Makes the list that symbols put together of the rules' lists; none where a rule has no list.
fn body_list<S: IndexStorage>(
    symbols: &[Symbol<S>],
    shared: &mut SharedLists<S>,
) -> Result<Option<usize>, AllocError>
    requires { RulesIn (λ A. A < length shared.old.table) (syms_of S.number symbols.now) }
    ensures table { IfOk result (λ o. shared.new.table ≡ shared.old.table) }
    ensures list { IfOk result (λ o. MatchOption o (GivesNone shared.old.table (syms_of S.number symbols.now)) (λ k. (k < length shared.new.lists) × GivesOne shared.old.table (syms_of S.number symbols.now) (get_or shared.new.lists k []))) }
{
    let mut list = shared.empty();
    'symbols: for index in 0..symbols.len() {
        match symbols[index] {
            Symbol::Rule(rule) => {
                let Some(own) = shared.of_rule(rule.0.to_usize()) else {
                    return Ok(None);
                };
                list = shared.join(list, own)?;
            }
            Symbol::Token(token) => list = shared.join_token(list, token)?,
        }
    }
    Ok(Some(list))
}

/// Returns whether a list forks before the one that the rule has, or that one leads it; none where one begins the
/// other.
fn comes_first<S: IndexStorage>(
    alloc: Global,
    shared: &SharedLists<S>,
    list: usize,
    rule: usize,
) -> Result<Option<bool>, AllocError>
    requires list { list < length shared.now.lists }
    requires rule { rule < length shared.now.table }
    ensures { IfOk result (λ o. MatchOption o (IsNestedIn (get_or shared.now.lists list []) (get_or shared.now.table rule None)) (λ b. ComesFirst (get_or shared.now.lists list []) (get_or shared.now.table rule None) b)) }
{
    match shared.of_rule(rule) {
        None => Ok(Some(true)),
        Some(kept) => is_list_ahead(alloc, shared, list, kept),
    }
}

/// A list for each rule, the first that was found.
#[derive(Drop)]
struct FirstLists<S: IndexStorage> {
    shared: SharedLists<S>,
    /// Whether it is known, of each two lists of a rule that were compared, which one comes first.
    is_told: bool,
    /// The number of lists that may still replace others. It never reaches 0.
    left: usize,
}

impl<S: IndexStorage> FirstLists<S> {
    /// Makes the table in which no rule has a list.
    fn new(alloc: Global, rules: usize) -> Result<Self, AllocError>
        ensures table { IfOk result (λ s. s.shared.table ≡ replicate rules None) }
    {
        let shared = SharedLists::new(alloc, rules)?;
        Ok(FirstLists {
            shared,
            is_told: true,
            left: usize::MAX,
        })
    }

    /// Gives the rule a list, and returns the rule. Where `left` is 0 it clears `is_told`, and returns `None`.
    fn put(&mut self, rule: usize, list: usize) -> Option<usize>
        requires rule { rule < length self.old.shared.table }
        requires list { list < length self.old.shared.lists }
        ensures { MatchOption result ((self.new.shared.table ≡ self.old.shared.table) × (self.new.is_told ≡ false) × (self.new.left ≡ self.old.left)) (λ A. (A ≡ rule) × (self.new.shared.table ≡ set self.old.shared.table rule (Some (get_or self.old.shared.lists list []))) × (self.new.is_told ≡ self.old.is_told) × (self.new.left < self.old.left)) }
    {
        if self.left == 0 {
            self.is_told = false;
            return None;
        }
        self.left -= 1;
        self.shared.put(rule, list);
        Some(rule)
    }
}

/// Takes in one production, and gives its rule where that has a list that comes first by it.
fn take_prod<S: IndexStorage>(
    alloc: Global,
    least: &LeastCosts<S>,
    wanted: &Vob,
    number: usize,
    firsts: &mut FirstLists<S>,
) -> Result<Option<usize>, AllocError>
    requires production { number < length least.now.grammar.productions }
    requires width { length wanted.now.bits ≡ least.now.grammar.rules }
    requires lists { AreFound least.now.grammar (cost_of least.now.costs) least.now.table firsts.old.shared.table }
    ensures lists { IfOk result (λ _. AreFound least.now.grammar (cost_of least.now.costs) least.now.table firsts.new.shared.table) }
    ensures takes { IfOk result (λ o. TakesIn least.now.grammar room_in (λ t p. IsTakenIn least.now.grammar (cost_of least.now.costs) least.now.table wanted.now.bits p t) number (record { table = firsts.old.shared.table; is_told = firsts.old.is_told; left = firsts.old.left }) (record { table = firsts.new.shared.table; is_told = firsts.new.is_told; left = firsts.new.left }) o) }
{
    cheapest_lists_of_wanted_rules();
    least.stays_well_formed();
    if !firsts.is_told {
        return Ok(None);
    }
    let pidx = least.prod_at(number);
    let rule = least.prod_to_rule(pidx).0.to_usize();
    if !wanted.get_unchecked(rule) {
        return Ok(None);
    }
    if !least.gives_least(pidx) {
        return Ok(None);
    }
    let Some(list) = body_list(least.prod(pidx), &mut firsts.shared)? else {
        return Ok(None);
    };
    let Some(is_first) = comes_first(alloc, &firsts.shared, list, rule)? else {
        firsts.is_told = false;
        return Ok(None);
    };
    if !is_first {
        return Ok(None);
    }
    Ok(firsts.put(rule, list))
}

/// The first lists of wanted rules, as they are found.
#[derive(Drop)]
struct Finding<'t, 'a, S: IndexStorage> {
    alloc: Global,
    least: &'t LeastCosts<'a, S>,
    wanted: &'t Vob,
    firsts: FirstLists<S>,
}

impl<'t, 'a, S: IndexStorage> ProdTable for Finding<'t, 'a, S> {
    ghost use Rattle.std.specs.Prelude.{◌≡◌, length, refl};
    ghost use Rattle.std.proofs.Common.{◌∙◌};
    ghost use Rattle.cfg_sentences.specs.CostTable.{cost_of};
    ghost use Rattle.cfg_sentences.specs.EarliestTable.{AreFound, IsTakenIn};

    ghost grammar = { λ s. s.least.now.grammar };

    ghost is_sound = { λ s. (length s.wanted.now.bits ≡ s.least.now.grammar.rules) × AreFound s.least.now.grammar (cost_of s.least.now.costs) s.least.now.table s.firsts.shared.table };

    ghost room = { λ s. s.firsts.left };

    ghost is_closed_by = { λ s p. IsTakenIn s.least.now.grammar (cost_of s.least.now.costs) s.least.now.table s.wanted.now.bits p (record { table = s.firsts.shared.table; is_told = s.firsts.is_told; left = s.firsts.left }) };

    ghost is_of_same = { λ s t. (t.least.now ≡ s.least.now) × (t.wanted.now ≡ s.wanted.now) };

    ghost same_refl = { λ s. (refl, refl) };

    ghost same_trans = { λ s t u h k. (k.0 ∙ h.0, k.1 ∙ h.1) };

    fn take_prod(&mut self, number: usize) -> Result<Option<usize>, AllocError> {
        take_prod(
            self.alloc,
            self.least,
            self.wanted,
            number,
            &mut self.firsts,
        )
    }
}

/// Returns the first lists of the wanted rules.
fn first_lists<S: IndexStorage>(
    alloc: Global,
    least: &LeastCosts<S>,
    wanted: &Vob,
) -> Result<FirstLists<S>, AllocError>
    requires { length wanted.now.bits ≡ least.now.grammar.rules }
    ensures lists { IfOk result (λ v. AreFound least.now.grammar (cost_of least.now.costs) least.now.table v.shared.table) }
    ensures taken_in { IfOk result (λ v. (p : ℕ) → p < length least.now.grammar.productions → IsTakenIn least.now.grammar (cost_of least.now.costs) least.now.table wanted.now.bits p (record { table = v.shared.table; is_told = v.is_told; left = v.left })) }
{
    let naming = least.naming(alloc)?;
    let order = least.order(alloc)?;
    let firsts = FirstLists::new(alloc, least.rules_len().0.to_usize())?;
    let table = Finding {
        alloc,
        least,
        wanted,
        firsts,
    };
    let prods = least.prods_len().0.to_usize();
    let closed = closed_by_prods(alloc, &order, &naming, prods, table)?;
    Ok(closed.firsts)
}
