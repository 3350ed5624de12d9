//! All cheapest token lists of a rule.
//!
//! Each production that gives its rule the least cost joins lists of the rules that it names. Productions are taken
//! in once, in an order, and again where they name a rule that got a new list, as in a cycle of names. Only rules
//! that the asked one needs take part, so each list is a part of a returned one.

ghost use Rattle.std.specs.Prelude.{◌≡◌, ℕ, ◌<◌, ◌↔◌, ◌∷◌, IsTrue, IfOk, IfErr, List, [], length, get_or, replicate, Contains, Some};
ghost use Rattle.cfg_theory.specs.Grammar.{Grammar, body_of};
ghost use Rattle.cfg_theory.specs.Cost.{AreCheapest};
ghost use Rattle.cfg_theory.specs.CostTables.{Concatenates};
ghost use Rattle.cfg_numbered.specs.Symbols.{sym_of, syms_of};
ghost use Rattle.cfg_sets.specs.WorkLists.{TakesIn};
ghost use Rattle.cfg_sentences.specs.CostTable.{bound, cost_of, cost_in};
ghost use Rattle.cfg_sentences.specs.TokenLists.{lists_of};
ghost use Rattle.cfg_sentences.specs.CheapestTable.{ListsAreRefused, lists_in, lists_before, AllHaveLists, AreLists, IsJoined, spare_in};

use super::dirty_productions::closed_by_prods;
use super::least::LeastCosts;
use super::needed::wanted_rules;
use super::token_costs::BOUND;
use super::token_lists::{TokenLists, insert_all, join_all, put_before};
use super::{SentenceError, SentenceGenerator};
use crate::by_prods::ProdTable;
use cfg_base::index::IndexStorage;
use cfg_base::symbol::{RIdx, Symbol, TIdx};
use cfg_theory::cost::{cheapest_lists_of_wanted_rules, productive_rules_have_least_costs};
use std::alloc::{AllocError, Global};
use vob::Vob;

impl<'a, S: IndexStorage> SentenceGenerator<'a, S> {
    /// Returns all cheapest token lists of the rule in the dictionary order of token numbers, each once. Returns
    /// `NoSentence` where the rule derives none, and `CostTooLarge` where they cost more than 65,535. Returns
    /// `Memory` where they don't fit into memory; where a token costs nothing there may be infinitely many.
    pub fn min_sentences(
        &self,
        alloc: Global,
        ridx: RIdx<S>,
    ) -> Result<Vec<Vec<TIdx<S>>>, SentenceError>
        requires { S.number ridx.0 < self.now.grammar.rules }
        ensures ok { IfOk result (λ v. AreCheapest self.now.grammar (cost_of self.now.costs) (S.number ridx.0) (lists_of S.number v.items)) }
        ensures some { IfOk result (λ v. 0 < length v.items) }
        ensures err { IfErr result (λ e. ListsAreRefused self.now.grammar (cost_of self.now.costs) (S.number ridx.0) e) }
    {
        productive_rules_have_least_costs();
        self.least.stays_well_formed();
        self.least.stays_least();
        match self.least.of_rule(ridx) {
            None => Err(SentenceError::NoSentence),
            Some(cost) if cost < BOUND => {
                let lists = lists_of_rule(alloc, &self.least, ridx)?;
                Ok(lists)
            }
            Some(_) => Err(SentenceError::CostTooLarge),
        }
    }
}

/// Returns the cheapest lists of a rule whose least cost is below the bound.
pub(super) fn lists_of_rule<S: IndexStorage>(
    alloc: Global,
    least: &LeastCosts<S>,
    ridx: RIdx<S>,
) -> Result<Vec<Vec<TIdx<S>>>, AllocError>
    requires rule { S.number ridx.0 < least.now.grammar.rules }
    requires cost { (n : ℕ) × (cost_in least.now.table (S.number ridx.0) ≡ Some n) × (n < bound) }
    ensures lists { IfOk result (λ v. AreCheapest least.now.grammar (cost_of least.now.costs) (S.number ridx.0) (lists_of S.number v.items)) }
    ensures some { IfOk result (λ v. 0 < length v.items) }
{
    cheapest_lists_of_wanted_rules();
    least.stays_least();
    let wanted = wanted_rules(alloc, least, ridx)?;
    let mut table = cheapest_lists(alloc, least, &wanted)?;
    let lists = table.swap_remove(ridx.0.to_usize());
    Ok(lists.into_vec())
}

/// Returns the lists of a symbol, each joined with each of the lists behind it.
fn put_symbol<S: IndexStorage>(
    alloc: Global,
    symbol: Symbol<S>,
    table: &[TokenLists<S>],
    rests: &[Vec<TIdx<S>>],
) -> Result<Vec<Vec<TIdx<S>>>, AllocError>
    requires { AllHaveLists table.now (sym_of S.number symbol ∷ []) }
    ensures { IfOk result (λ out. lists_of S.number out.items ≡ lists_before table.now (sym_of S.number symbol) (lists_of S.number rests.now)) }
{
    match symbol {
        Symbol::Rule(rule) => join_all(alloc, table[rule.0.to_usize()].as_slice(), rests),
        Symbol::Token(token) => {
            let mut list = Vec::new(alloc);
            list.push(token)?;
            let mut out = Vec::new(alloc);
            put_before(alloc, list.as_slice(), rests, &mut out)?;
            Ok(out)
        }
    }
}

/// Returns the lists that symbols put together, of lists of the rules.
fn put_together<S: IndexStorage>(
    alloc: Global,
    symbols: &[Symbol<S>],
    table: &[TokenLists<S>],
) -> Result<Vec<Vec<TIdx<S>>>, AllocError>
    requires { AllHaveLists table.now (syms_of S.number symbols.now) }
    ensures { IfOk result (λ out. (w : List ℕ) → Contains (lists_of S.number out.items) w ↔ Concatenates (lists_in table.now) (syms_of S.number symbols.now) w) }
{
    let mut out = Vec::new(alloc);
    out.push(Vec::new(alloc))?;
    'back: for index in 0..symbols.len() {
        let symbol = symbols[symbols.len() - 1 - index];
        out = put_symbol(alloc, symbol, table, out.as_slice())?;
    }
    Ok(out)
}

/// Takes in one production, and gives its rule where that has a new list by it.
fn take_prod<S: IndexStorage>(
    alloc: Global,
    least: &LeastCosts<S>,
    wanted: &Vob,
    number: usize,
    table: &mut Vec<TokenLists<S>>,
) -> Result<Option<usize>, AllocError>
    requires production { number < length least.now.grammar.productions }
    requires width { length wanted.now.bits ≡ least.now.grammar.rules }
    requires lists { AreLists least.now.grammar (cost_of least.now.costs) least.now.table table.old.items }
    ensures lists { IfOk result (λ _. AreLists least.now.grammar (cost_of least.now.costs) least.now.table table.new.items) }
    ensures takes { IfOk result (λ o. TakesIn least.now.grammar spare_in (λ t p. IsJoined least.now.grammar (cost_of least.now.costs) least.now.table wanted.now.bits p t) number table.old.items table.new.items o) }
{
    cheapest_lists_of_wanted_rules();
    least.stays_well_formed();
    let pidx = least.prod_at(number);
    let rule = least.prod_to_rule(pidx).0.to_usize();
    if !wanted.get_unchecked(rule) {
        return Ok(None);
    }
    if !least.gives_least(pidx) {
        return Ok(None);
    }
    let lists = put_together(alloc, least.prod(pidx), table.as_slice())?;
    let own = &mut table[rule];
    let changed = insert_all(alloc, lists.as_slice(), own)?;
    if !changed {
        return Ok(None);
    }
    Ok(Some(rule))
}

/// The cheapest lists of wanted rules, as they are put together.
#[derive(Drop)]
struct Joining<'t, 'a, S: IndexStorage> {
    alloc: Global,
    least: &'t LeastCosts<'a, S>,
    wanted: &'t Vob,
    lists: Vec<TokenLists<S>>,
}

impl<'t, 'a, S: IndexStorage> ProdTable for Joining<'t, 'a, S> {
    ghost use Rattle.std.specs.Prelude.{◌≡◌, length, refl};
    ghost use Rattle.std.proofs.Common.{◌∙◌};
    ghost use Rattle.cfg_sentences.specs.CostTable.{cost_of};
    ghost use Rattle.cfg_sentences.specs.CheapestTable.{AreLists, IsJoined, spare_in};

    ghost grammar = { λ s. s.least.now.grammar };

    ghost is_sound = { λ s. (length s.wanted.now.bits ≡ s.least.now.grammar.rules) × AreLists s.least.now.grammar (cost_of s.least.now.costs) s.least.now.table s.lists.items };

    ghost room = { λ s. spare_in s.lists.items };

    ghost is_closed_by = { λ s p. IsJoined s.least.now.grammar (cost_of s.least.now.costs) s.least.now.table s.wanted.now.bits p s.lists.items };

    ghost is_of_same = { λ s t. (t.least.now ≡ s.least.now) × (t.wanted.now ≡ s.wanted.now) };

    ghost same_refl = { λ s. (refl, refl) };

    ghost same_trans = { λ s t u h k. (k.0 ∙ h.0, k.1 ∙ h.1) };

    fn take_prod(&mut self, number: usize) -> Result<Option<usize>, AllocError> {
        take_prod(self.alloc, self.least, self.wanted, number, &mut self.lists)
    }
}

fn no_lists<S: IndexStorage>(alloc: Global, rules: usize) -> Result<Vec<TokenLists<S>>, AllocError>
    ensures { IfOk result (λ v. v.items ≡ replicate rules []) }
{
    let mut table = Vec::new(alloc);
    'rules: for _ in 0..rules {
        table.push(TokenLists::none(alloc))?;
    }
    Ok(table)
}

/// Returns the lists of the wanted rules.
fn cheapest_lists<S: IndexStorage>(
    alloc: Global,
    least: &LeastCosts<S>,
    wanted: &Vob,
) -> Result<Vec<TokenLists<S>>, AllocError>
    requires width { length wanted.now.bits ≡ least.now.grammar.rules }
    ensures lists { IfOk result (λ v. AreLists least.now.grammar (cost_of least.now.costs) least.now.table v.items) }
    ensures joined { IfOk result (λ v. (p : ℕ) → p < length least.now.grammar.productions → IsJoined least.now.grammar (cost_of least.now.costs) least.now.table wanted.now.bits p v.items) }
{
    let naming = least.naming(alloc)?;
    let order = least.order(alloc)?;
    let lists = no_lists(alloc, least.rules_len().0.to_usize())?;
    let table = Joining {
        alloc,
        least,
        wanted,
        lists,
    };
    let prods = least.prods_len().0.to_usize();
    let closed = closed_by_prods(alloc, &order, &naming, prods, table)?;
    Ok(closed.lists)
}
