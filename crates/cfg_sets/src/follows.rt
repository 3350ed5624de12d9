//! FOLLOW sets: the tokens that come right after a rule in some derived list.

ghost use Rattle.std.specs.Prelude.{◌≡◌, ℕ, ◌<◌, ◌↔◌, true, false, IsTrue, IfOk, OnOk, [], length, get_or, slice_set, replicate};
ghost use Rattle.cfg_theory.specs.Grammar.{rule, Grammar, IsEnd};
ghost use Rattle.cfg_numbered.specs.Symbols.{sym_of, syms_of};
ghost use Rattle.vob.specs.Sets.{is_set, joined_to, HasAllOf};
ghost use Rattle.cfg_sets.specs.Firsts.{AreFirsts};
ghost use Rattle.cfg_sets.specs.Follows.{FollowSets, HasFollow, AreFollows, AreFollowsSoundOf, HoldsFirsts, HoldsAll, HandsOn, FollowsGoOn, Hands, AddsFollows, HasSet, HasAll, added, follow_room};
ghost use Rattle.cfg_sets.specs.Orders.{IsOrder};
ghost use Rattle.vob.specs.Passes.{PassStep, Anything};

use crate::firsts::YaccFirsts;
use crate::orders::Order;
use crate::sets::TokenSets;
use crate::work_list::{WorkList, WorkTable, fill};
use cfg_base::index::IndexStorage;
use cfg_base::steps::Steps;
use cfg_base::symbol::{PIdx, RIdx, Symbol, TIdx};
use cfg_numbered::yacc::grammar::NumberedGrammar;
use cfg_theory::first::{first_tables_are_exact, follow_tables_are_exact};
use std::alloc::{AllocError, Global};
use std::marker::{Brand, Model, PhantomData};
use std::sync::ledger::{Blank, Ledger};
use vob::Vob;

/// FOLLOW sets of a grammar's rules.
#[derive(Drop)]
pub struct YaccFollows<S: IndexStorage> {
    follows: TokenSets,
    storage: PhantomData<S>,
}

impl<S: IndexStorage> Model for YaccFollows<S> {
    ghost use Rattle.cfg_sets.specs.Follows.{FollowSets};

    ghost Value = { FollowSets };

    ghost view = { λ s. record { tokens = s.follows.width; rows = s.follows.rows } };
}

impl<S: IndexStorage> YaccFollows<S> {
    /// Computes the FOLLOW sets of a grammar's rules (Aho, Sethi and Ullman 1986, section 4.4), whether a text's
    /// derivations reach them or not. The end token follows the start rule, and the rules that it derives last.
    pub fn new(alloc: Global, grm: &NumberedGrammar<S>) -> Result<Self, AllocError>
        ensures { IfOk result (λ f. AreFollows grm.now.grammar f) }
    {
        fill_with_blank::<S, Brand>(alloc, grm, Blank::new(1))
    }

    /// Returns the set of a rule: a bit for each token.
    pub fn follows(&self, ridx: RIdx<S>) -> &Vob
        requires { S.number ridx.0 < length self.now.rows }
        ensures bits { result.now.bits ≡ get_or self.now.rows (S.number ridx.0) [] }
        ensures width { length result.now.bits ≡ self.now.tokens }
    {
        self.follows.row(ridx.0.to_usize())
    }

    /// Returns whether the token is in the set of the rule.
    pub fn is_set(&self, ridx: RIdx<S>, tidx: TIdx<S>) -> bool
        requires rule { S.number ridx.0 < length self.now.rows }
        requires token { S.number tidx.0 < self.now.tokens }
        ensures { IsTrue result ↔ HasFollow self.now (S.number ridx.0) (S.number tidx.0) }
    {
        self.follows(ridx).get_unchecked(tidx.0.to_usize())
    }

    fn put(&mut self, rule: RIdx<S>, token: TIdx<S>)
        requires rule { S.number rule.0 < length self.old.rows }
        requires token { S.number token.0 < self.old.tokens }
        ensures tokens { self.new.tokens ≡ self.old.tokens }
        ensures rows { self.new.rows ≡ slice_set self.old.rows (S.number rule.0) (slice_set (get_or self.old.rows (S.number rule.0) []) (S.number token.0) true) }
    {
        self.follows.put(rule.0.to_usize(), token.0.to_usize());
    }

    /// Makes of `to` the set of a rule.
    fn copy_set(&self, rule: RIdx<S>, to: &mut Vob)
        requires rule { S.number rule.0 < length self.now.rows }
        requires width { length to.old.bits ≡ self.now.tokens }
        ensures width { length to.new.bits ≡ self.now.tokens }
        ensures bits { (t : ℕ) → IsTrue (is_set to.new.bits t) ↔ HasFollow self.now (S.number rule.0) t }
    {
        to.set_all(false);
        to.or(self.follows.row(rule.0.to_usize()));
    }

    /// Adds the tokens to the set of a rule, and returns whether that changed it.
    fn add_tokens(&mut self, rule: RIdx<S>, tokens: &Vob) -> bool
        requires within { S.number rule.0 < length self.old.rows }
        requires width { length tokens.now.bits ≡ self.old.tokens }
        ensures tokens { self.new.tokens ≡ self.old.tokens }
        ensures rows { self.new.rows ≡ joined_to self.old.rows (S.number rule.0) tokens.now.bits }
        ensures width_was { length (get_or self.old.rows (S.number rule.0) []) ≡ self.old.tokens }
        ensures steps { PassStep follow_room (λ s. HasAllOf (S.number rule.0) tokens.now.bits s.rows) self.old self.new result }
    {
        self.follows.join(rule.0.to_usize(), tokens)
    }

    /// Adds the tokens to the set of a symbol, if it is a rule, and returns whether that changed it.
    fn add_behind(&mut self, symbol: Symbol<S>, tokens: &Vob) -> bool
        requires within { HasSet self.old (sym_of S.number symbol) }
        requires width { length tokens.now.bits ≡ self.old.tokens }
        ensures tokens { self.new.tokens ≡ self.old.tokens }
        ensures rows { self.new.rows ≡ added self.old.rows (sym_of S.number symbol) tokens.now.bits }
        ensures steps { PassStep follow_room (λ s. HasAll s (sym_of S.number symbol) tokens.now.bits) self.old self.new result }
    {
        match symbol {
            Symbol::Rule(rule) => self.add_tokens(rule, tokens),
            Symbol::Token(_) => false,
        }
    }

    /// Adds to the set of each rule of a production what begins behind the rule there, and what follows the
    /// production's rule where all behind is nullable.
    fn take_prod(
        &mut self,
        grm: &NumberedGrammar<S>,
        firsts: &YaccFirsts<S>,
        pidx: PIdx<S>,
        behind: &mut Vob,
    )
        requires production { S.number pidx.0 < length grm.now.grammar.productions }
        requires firsts { AreFirsts grm.now.grammar firsts.now }
        requires sound { AreFollowsSoundOf grm.now.grammar self.old behind.old.bits }
        ensures sound { AreFollowsSoundOf grm.now.grammar self.new behind.new.bits }
        ensures kept { (A t : ℕ) → HasFollow self.old A t → HasFollow self.new A t }
        ensures firsts { HoldsFirsts grm.now.grammar firsts.now self.new (S.number pidx.0) }
    {
        grm.stays_well_formed();
        let symbols = grm.prod(pidx);
        self.copy_set(grm.prod_to_rule(pidx), behind);
        'back: for index in 0..symbols.len() {
            let symbol = symbols[symbols.len() - 1 - index];
            self.add_behind(symbol, behind);
            firsts.put_before(symbol, behind);
        }
    }

    /// Adds the set of one rule to that of another, by way of `row`, and returns whether that changed it.
    fn add_row(&mut self, to: RIdx<S>, from: RIdx<S>, row: &mut Vob) -> bool
        requires to { S.number to.0 < length self.old.rows }
        requires from { S.number from.0 < length self.old.rows }
        requires width { length row.old.bits ≡ self.old.tokens }
        ensures width { length row.new.bits ≡ self.old.tokens }
        ensures added { AddsFollows (S.number from.0) (S.number to.0) self.old self.new }
        ensures steps { PassStep follow_room Anything self.old self.new result }
    {
        self.copy_set(from, row);
        self.add_tokens(to, row)
    }

    /// Adds what follows one rule to what follows another, which enters the list where that changed its set.
    fn hand_to(
        &mut self,
        from: RIdx<S>,
        to: RIdx<S>,
        row: &mut Vob,
        work: &mut WorkList,
    ) -> Result<(), AllocError>
        requires to { S.number to.0 < length self.old.rows }
        requires from { S.number from.0 < length self.old.rows }
        requires width { length row.old.bits ≡ self.old.tokens }
        requires work { work.old.rules ≡ length self.old.rows }
        ensures width { OnOk result (length row.new.bits ≡ self.old.tokens) }
        ensures handed { OnOk result (Hands (S.number from.0) (rule (S.number to.0)) self.old self.new work.old work.new) }
    {
        if !self.add_row(to, from, row) {
            return Ok(());
        }
        work.put(to.0.to_usize())?;
        Ok(())
    }

    /// Adds what follows one rule to what follows a symbol, if that is a rule.
    fn hand_to_symbol(
        &mut self,
        from: RIdx<S>,
        symbol: Symbol<S>,
        row: &mut Vob,
        work: &mut WorkList,
    ) -> Result<(), AllocError>
        requires within { HasSet self.old (sym_of S.number symbol) }
        requires from { S.number from.0 < length self.old.rows }
        requires width { length row.old.bits ≡ self.old.tokens }
        requires work { work.old.rules ≡ length self.old.rows }
        ensures width { OnOk result (length row.new.bits ≡ self.old.tokens) }
        ensures handed { OnOk result (Hands (S.number from.0) (sym_of S.number symbol) self.old self.new work.old work.new) }
    {
        match symbol {
            Symbol::Rule(to) => self.hand_to(from, to, row, work),
            Symbol::Token(_) => Ok(()),
        }
    }

    /// Hands what follows a production's rule on to the rules behind which all is nullable. Those whose sets that
    /// changes enter the list.
    fn hand_on(
        &mut self,
        grm: &NumberedGrammar<S>,
        firsts: &YaccFirsts<S>,
        pidx: PIdx<S>,
        row: &mut Vob,
        work: &mut WorkList,
    ) -> Result<(), AllocError>
        requires production { S.number pidx.0 < length grm.now.grammar.productions }
        requires firsts { AreFirsts grm.now.grammar firsts.now }
        requires sound { AreFollowsSoundOf grm.now.grammar self.old row.old.bits }
        requires work { work.old.rules ≡ grm.now.grammar.rules }
        ensures sound { OnOk result (AreFollowsSoundOf grm.now.grammar self.new row.new.bits) }
        ensures went_on { OnOk result (FollowsGoOn grm.now.grammar firsts.now self.old self.new work.old work.new) }
        ensures here { OnOk result (HandsOn grm.now.grammar firsts.now self.new (S.number pidx.0)) }
    {
        grm.stays_well_formed();
        let symbols = grm.prod(pidx);
        let head = grm.prod_to_rule(pidx);
        'back: for index in 0..symbols.len() {
            let symbol = symbols[symbols.len() - 1 - index];
            self.hand_to_symbol(head, symbol, row, work)?;
            if !firsts.is_nullable(symbol) {
                return Ok(());
            }
        }
        Ok(())
    }
}

/// FOLLOW sets that are being filled.
#[derive(Drop)]
struct Filling<'a, S: IndexStorage> {
    grm: &'a NumberedGrammar<S>,
    firsts: &'a YaccFirsts<S>,
    follows: YaccFollows<S>,
    row: Vob,
}

impl<'a, S: IndexStorage> WorkTable for Filling<'a, S> {
    ghost use Rattle.std.specs.Prelude.{◌≡◌, length, refl};
    ghost use Rattle.std.proofs.Common.{◌∙◌};
    ghost use Rattle.cfg_sets.specs.Firsts.{AreFirsts};
    ghost use Rattle.cfg_sets.specs.Follows.{AreFollowsSoundOf, HoldsAll, AreFollowsClosedBut, follow_room};

    ghost rules = { λ s. s.grm.now.grammar.rules };

    ghost is_sound = { λ s. AreFollowsSoundOf s.grm.now.grammar s.follows s.row.bits × AreFirsts s.grm.now.grammar s.firsts.now × HoldsAll s.grm.now.grammar s.firsts.now s.follows };

    ghost room = { λ s. follow_room s.follows };

    ghost is_closed_but = { λ s list. AreFollowsClosedBut s.grm.now.grammar s.firsts.now s.follows list };

    ghost is_of_same = { λ s t. (t.grm.now ≡ s.grm.now) × (t.firsts.now ≡ s.firsts.now) };

    ghost same_refl = { λ s. (refl, refl) };

    ghost same_trans = { λ s t u h k. (k.0 ∙ h.0, k.1 ∙ h.1) };

    fn take(&mut self, rule: usize, work: &mut WorkList) -> Result<(), AllocError> {
        let prods = self.grm.rule_to_prods(self.grm.rule_at(rule));
        'prods: for index in 0..prods.len() {
            self.follows
                .hand_on(self.grm, self.firsts, prods[index], &mut self.row, work)?;
        }
        Ok(())
    }
}

impl<'a, S: IndexStorage> Filling<'a, S> {
    /// Begins with the end token in the set of the start rule.
    fn new(
        alloc: Global,
        grm: &'a NumberedGrammar<S>,
        firsts: &'a YaccFirsts<S>,
    ) -> Result<Filling<'a, S>, AllocError>
        ensures grammar { IfOk result (λ f. f.grm.now ≡ grm.now) }
        ensures firsts { IfOk result (λ f. f.firsts.now ≡ firsts.now) }
        ensures sound { IfOk result (λ f. AreFollowsSoundOf grm.now.grammar f.follows f.row.bits) }
        ensures end { IfOk result (λ f. (t : ℕ) → IsEnd grm.now.grammar t → HasFollow f.follows 0 t) }
    {
        let rules = grm.rules_len().0.to_usize();
        let tokens = grm.tokens_len().0.to_usize();
        let row = Vob::from_elem(alloc, false, tokens)?;
        let mut follows = YaccFollows {
            follows: TokenSets::empty(alloc, rules, tokens)?,
            storage: PhantomData,
        };
        follows.put(grm.start_rule_idx(), grm.eof_token_idx());
        Ok(Filling {
            grm,
            firsts,
            follows,
            row,
        })
    }

    /// Goes through all productions once, from the end of the order.
    fn start(&mut self, mut order: Order)
        requires order { IsOrder (length self.old.grm.now.grammar.productions) order }
        requires sound { AreFollowsSoundOf self.old.grm.now.grammar self.old.follows self.old.row.bits }
        requires firsts { AreFirsts self.old.grm.now.grammar self.old.firsts.now }
        requires end { (t : ℕ) → IsEnd self.old.grm.now.grammar t → HasFollow self.old.follows 0 t }
        ensures grammar { self.new.grm.now ≡ self.old.grm.now }
        ensures firsts { self.new.firsts.now ≡ self.old.firsts.now }
        ensures sound { AreFollowsSoundOf self.old.grm.now.grammar self.new.follows self.new.row.bits }
        ensures holds { HoldsAll self.old.grm.now.grammar self.old.firsts.now self.new.follows }
    {
        'prods: loop {
            let Some(number) = order.pop() else {
                return;
            };
            let pidx = self.grm.prod_at(number);
            self.follows
                .take_prod(self.grm, self.firsts, pidx, &mut self.row);
        }
    }
}

/// Computes the FOLLOW sets of a grammar's rules, with a step for each rule that is taken from the work list.
fn fill_follows<S: IndexStorage, L: Ledger>(
    alloc: Global,
    grm: &NumberedGrammar<S>,
    steps: &mut Steps<L>,
) -> Result<YaccFollows<S>, AllocError>
    ensures { IfOk result (λ f. AreFollows grm.now.grammar f) }
{
    let firsts = YaccFirsts::new(alloc, grm)?;
    let filled = fill_over(alloc, grm, &firsts, steps);
    drop(firsts);
    filled
}

/// Computes the FOLLOW sets over the FIRST sets.
fn fill_over<S: IndexStorage, L: Ledger>(
    alloc: Global,
    grm: &NumberedGrammar<S>,
    firsts: &YaccFirsts<S>,
    steps: &mut Steps<L>,
) -> Result<YaccFollows<S>, AllocError>
    requires { AreFirsts grm.now.grammar firsts.now }
    ensures { IfOk result (λ f. AreFollows grm.now.grammar f) }
{
    first_tables_are_exact();
    follow_tables_are_exact();
    grm.stays_well_formed();
    let order = Order::named_first(alloc, grm)?;
    let mut work = WorkList::full(alloc, grm.rules_len().0.to_usize())?;
    let mut filling = Filling::new(alloc, grm, firsts)?;
    filling.start(order);
    match fill(&mut filling, &mut work, steps) {
        Ok(()) => Ok(filling.follows),
        Err(e) => {
            drop(filling);
            Err(e)
        }
    }
}

/// Computes the FOLLOW sets without a step counter.
fn fill_with_blank<S: IndexStorage, L: Ledger>(
    alloc: Global,
    grm: &NumberedGrammar<S>,
    blank: Blank,
) -> Result<YaccFollows<S>, AllocError>
    requires name { blank.name ≡ L.name }
    requires parts { blank.parts ≡ L.parts }
    requires one { blank.parts ≡ 1 }
    ensures { IfOk result (λ f. AreFollows grm.now.grammar f) }
{
    let mut steps = Steps::<L>::new(blank);
    fill_follows(alloc, grm, &mut steps)
}
