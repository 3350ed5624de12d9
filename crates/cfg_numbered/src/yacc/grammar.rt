//! The grammar value: rules, productions and tokens by numbers.

ghost use Rattle.std.specs.Prelude.{◌≡◌, ℕ, zero, ◌<◌, ◌≤◌, ◌↔◌, ◌-◌, List, [], length, map, get_or, slice_get, option_map, Some, MatchOption, IfOk, replicate};
ghost use Rattle.std.specs.List.{range_with_len};
ghost use Rattle.std.specs.Option.{option_copied};
ghost use Rattle.std.specs.String.{string_bytes};
ghost use Rattle.cfg_theory.specs.Grammar.{Grammar, WellFormed, IsOf, head_of, body_of, end_token};
ghost use Rattle.cfg_numbered.specs.Symbols.{syms_of, numbers_of};
ghost use Rattle.cfg_numbered.specs.Value.{GrammarValue, IsGrammar, GrammarLevelsHaveOneKind, IsRuleNamed, IsTokenNamed, productions_of};
ghost use Rattle.cfg_numbered.specs.Info.{value_of, production_of, with_productions, rule_seen, token_seen, ListsProductions};

mod indices;
mod kept;
pub mod laws;
mod names;
mod pretty_print;
mod tokens_map;
mod walks;

use crate::yacc::info::{KeptInfo, ProductionInfo, RuleInfo, TokenInfo};
use cfg_base::index::IndexStorage;
use cfg_base::name_hasher::NameHasher;
use cfg_base::symbol::{PIdx, RIdx, SIdx, Symbol, TIdx};
use indexmap::IndexMap;
use std::alloc::{AllocError, Global};
use std::marker::Model;
pub use walks::{PIdxs, RIdxs, TIdxs};

/// A grammar whose rules, tokens and productions have numbers of `S`.
#[derive(Drop)]
pub struct NumberedGrammar<S: IndexStorage> {
    /// The rules by name; a rule's number is its index.
    rules: IndexMap<String, RuleInfo, NameHasher>,
    /// For each rule the numbers of its productions, ascending.
    rule_prods: Vec<Vec<PIdx<S>>>,
    /// The tokens by name, without the end token, which is the last number.
    tokens: IndexMap<String, TokenInfo, NameHasher>,
    /// The productions; one's number is its index.
    prods: Vec<ProductionInfo<S>>,
    /// The production of the start rule.
    start: PIdx<S>,
    /// Data of the whole text that derivations don't depend on.
    kept: KeptInfo<S>,
}

impl<S: IndexStorage> Model for NumberedGrammar<S> {
    ghost use Rattle.std.specs.Prelude.{map};
    ghost use Rattle.cfg_numbered.specs.Symbols.{numbers_of};
    ghost use Rattle.cfg_numbered.specs.Value.{GrammarValue, IsGrammar};
    ghost use Rattle.cfg_numbered.specs.Info.{value_of, ListsProductions};

    ghost Value = { GrammarValue };

    ghost view = { λ g. value_of S.number g.rules.entries g.tokens.entries g.prods.items (S.number g.start.0) g.kept };

    ghost invariant = { λ g.
        IsGrammar S.MAX (value_of S.number g.rules.entries g.tokens.entries g.prods.items (S.number g.start.0) g.kept) ×
        ListsProductions (value_of S.number g.rules.entries g.tokens.entries g.prods.items (S.number g.start.0) g.kept).grammar (map (λ l. numbers_of S.number l.items) g.rule_prods.items) };
}

/// Returns the index of a number that fits.
pub fn index_of<S: IndexStorage>(n: usize) -> S
    requires { n ≤ S.MAX }
    ensures { S.number result ≡ n }
{
    S::from_usize(n).unwrap()
}

/// Returns the productions of each rule.
fn list_productions<S: IndexStorage>(
    alloc: Global,
    rules: usize,
    prods: &[ProductionInfo<S>],
) -> Result<Vec<Vec<PIdx<S>>>, AllocError>
    requires fits { length prods.now ≤ S.MAX }
    requires heads { (p A : ℕ) → IsOf (with_productions rules (map (production_of S.number) prods.now)) p A → A < rules }
    ensures { IfOk result (λ v. ListsProductions (with_productions rules (map (production_of S.number) prods.now)) (map (λ l. numbers_of S.number l.items) v.items)) }
{
    let mut lists = empty_lists(alloc, rules)?;
    'prods: for number in 0..prods.len() {
        let rule = prods[number].rule.0.to_usize();
        let list = &mut lists[rule];
        list.push(PIdx(index_of(number)))?;
    }
    Ok(lists)
}

fn empty_lists<S: IndexStorage>(
    alloc: Global,
    rules: usize,
) -> Result<Vec<Vec<PIdx<S>>>, AllocError>
    ensures { IfOk result (λ v. map (λ l. numbers_of S.number l.items) v.items ≡ replicate rules []) }
{
    let mut lists = Vec::new(alloc);
    'rules: for _ in 0..rules {
        lists.push(Vec::new(alloc))?;
    }
    Ok(lists)
}

impl<S: IndexStorage> NumberedGrammar<S> {
    /// Makes a grammar of parts that make a well-formed one, whose counts fit the index type.
    pub fn of_parts(
        alloc: Global,
        rules: IndexMap<String, RuleInfo, NameHasher>,
        tokens: IndexMap<String, TokenInfo, NameHasher>,
        prods: Vec<ProductionInfo<S>>,
        start: PIdx<S>,
        kept: KeptInfo<S>,
    ) -> Result<Self, AllocError>
        requires { IsGrammar S.MAX (value_of S.number rules.entries tokens.entries prods.items (S.number start.0) kept) }
        ensures { IfOk result (λ g. g ≡ value_of S.number rules.entries tokens.entries prods.items (S.number start.0) kept) }
    {
        let rule_prods = list_productions(alloc, rules.len(), prods.as_slice())?;
        Ok(NumberedGrammar {
            rules,
            rule_prods,
            tokens,
            prods,
            start,
            kept,
        })
    }

    /// Returns a rule's name and the data beside it.
    fn rule_info(&self, ridx: RIdx<S>) -> (&str, &RuleInfo)
        requires { S.number ridx.0 < self.now.grammar.rules }
        ensures { slice_get self.now.rules (S.number ridx.0) ≡ Some (rule_seen result) }
    {
        let (name, rule) = self.rules.get_index(ridx.0.to_usize()).unwrap();
        (name.as_str(), rule)
    }

    /// Returns a token's name and the data beside it; `None` for the end token.
    fn token_info(&self, tidx: TIdx<S>) -> Option<(&str, &TokenInfo)>
        requires { S.number tidx.0 < self.now.grammar.tokens }
        ensures value { slice_get self.now.tokens (S.number tidx.0) ≡ Some (token_seen result) }
        ensures end { MatchOption result (S.number tidx.0 ≡ end_token self.now.grammar) (λ _. S.number tidx.0 < end_token self.now.grammar) }
        ensures levels { GrammarLevelsHaveOneKind self.now }
    {
        match self.tokens.get_index(tidx.0.to_usize()) {
            Some((name, token)) => Some((name.as_str(), token)),
            None => None,
        }
    }

    /// Proves that the grammar is well formed, for calls that require it.
    pub fn stays_well_formed(&self)
        ensures { WellFormed self.now.grammar }
    {
        self.start_prod();
    }

    /// Returns how many productions there are.
    pub fn prods_len(&self) -> PIdx<S>
        ensures { S.number result.0 ≡ length self.now.grammar.productions }
    {
        PIdx(index_of(self.prods.len()))
    }

    /// Returns how many rules there are.
    pub fn rules_len(&self) -> RIdx<S>
        ensures { S.number result.0 ≡ self.now.grammar.rules }
    {
        RIdx(index_of(self.rules.len()))
    }

    /// Returns how many tokens there are, the end token among them.
    pub fn tokens_len(&self) -> TIdx<S>
        ensures { S.number result.0 ≡ self.now.grammar.tokens }
    {
        TIdx(index_of(self.tokens.len() + 1))
    }

    /// Returns the symbols of a production.
    pub fn prod(&self, pidx: PIdx<S>) -> &[Symbol<S>]
        requires { S.number pidx.0 < length self.now.grammar.productions }
        ensures { syms_of S.number result.now ≡ body_of self.now.grammar (S.number pidx.0) }
    {
        self.prods[pidx.0.to_usize()].symbols.as_slice()
    }

    /// Returns how many symbols a production has.
    pub fn prod_len(&self, pidx: PIdx<S>) -> SIdx<S>
        requires { S.number pidx.0 < length self.now.grammar.productions }
        ensures { S.number result.0 ≡ length (body_of self.now.grammar (S.number pidx.0)) }
    {
        let symbols = self.prods[pidx.0.to_usize()].symbols.as_slice();
        SIdx(index_of(symbols.len()))
    }

    /// Returns the rule of a production.
    pub fn prod_to_rule(&self, pidx: PIdx<S>) -> RIdx<S>
        requires { S.number pidx.0 < length self.now.grammar.productions }
        ensures { S.number result.0 ≡ head_of self.now.grammar (S.number pidx.0) }
    {
        self.prods[pidx.0.to_usize()].rule
    }

    /// Returns the productions of a rule, in order.
    pub fn rule_to_prods(&self, ridx: RIdx<S>) -> &[PIdx<S>]
        requires { S.number ridx.0 < self.now.grammar.rules }
        ensures { numbers_of S.number result.now ≡ productions_of self.now.grammar (S.number ridx.0) }
    {
        self.rule_prods[ridx.0.to_usize()].as_slice()
    }

    /// Returns the production of the start rule, whose one symbol is the rule that a text begins with.
    pub fn start_prod(&self) -> PIdx<S>
        ensures value { S.number result.0 ≡ self.now.grammar.start }
        ensures well_formed { WellFormed self.now.grammar }
    {
        self.start
    }

    /// Returns the start rule, which no production names.
    pub fn start_rule_idx(&self) -> RIdx<S>
        ensures value { S.number result.0 ≡ 0 }
        ensures within { 0 < self.now.grammar.rules }
    {
        // For the proof alone: this read gives it the invariant of each grammar.
        let _rules = &self.rules;
        RIdx(index_of(0))
    }

    /// Returns the end token, which is the last one and is in no production.
    pub fn eof_token_idx(&self) -> TIdx<S>
        ensures value { S.number result.0 ≡ end_token self.now.grammar }
        ensures within { S.number result.0 < self.now.grammar.tokens }
    {
        TIdx(index_of(self.tokens.len()))
    }
}
