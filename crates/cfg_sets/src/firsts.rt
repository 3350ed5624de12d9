//! FIRST sets: the tokens with which a rule's lists begin, and whether it derives the empty list.

ghost use Rattle.std.specs.Prelude.{◌≡◌, ℕ, ◌+◌, ◌*◌, ◌<◌, ◌≤◌, ◌↔◌, ◌⊎◌, Bool, true, false, IsTrue, IfOk, OnOk, [], length, get_or, replicate, slice_set};
ghost use Rattle.cfg_theory.specs.Grammar.{rule, Grammar};
ghost use Rattle.cfg_theory.specs.First.{AllOf};
ghost use Rattle.cfg_numbered.specs.Symbols.{sym_of, syms_of};
ghost use Rattle.vob.specs.Sets.{is_set, joined_to, HasAllOf};
ghost use Rattle.cfg_sets.specs.Firsts.{FirstSets, HasEpsilon, HasFirst, AreFirsts, AreSoundOf, AreUnderWay, IsClosedOrWaits, AreFirstsClosedBut, IsWithin, IsNullableIn, FirstBefore, SymbolFirst, FirstsOf, AllWithin, Adds, first_room};
ghost use Rattle.cfg_sets.specs.Orders.{IsOrder};
ghost use Rattle.cfg_sets.specs.WorkLists.{ListsNaming};
ghost use Rattle.vob.specs.Passes.{PassStep, Anything};

use crate::naming::Naming;
use crate::orders::Order;
use crate::sets::{TokenSets, clear_unless};
use crate::work_list::{WorkList, WorkTable, fill};
use cfg_base::index::IndexStorage;
use cfg_base::steps::Steps;
use cfg_base::symbol::{RIdx, Symbol, TIdx};
use cfg_numbered::yacc::grammar::NumberedGrammar;
use cfg_theory::first::first_tables_are_exact;
use std::alloc::{AllocError, Global};
use std::marker::{Brand, Model, PhantomData};
use std::sync::ledger::{Blank, Ledger};
use vob::Vob;

/// FIRST sets of a grammar's rules.
#[derive(Drop)]
pub struct YaccFirsts<S: IndexStorage> {
    firsts: TokenSets,
    epsilons: Vob,
    storage: PhantomData<S>,
}

impl<S: IndexStorage> Model for YaccFirsts<S> {
    ghost use Rattle.std.specs.Prelude.{◌≡◌, length};
    ghost use Rattle.cfg_sets.specs.Firsts.{FirstSets};

    ghost Value = { FirstSets };

    ghost view = { λ s. record { tokens = s.firsts.width; rows = s.firsts.rows; epsilons = s.epsilons.bits } };

    ghost invariant = { λ s. length s.firsts.rows ≡ length s.epsilons.bits };
}

impl<S: IndexStorage> YaccFirsts<S> {
    /// Returns whether the symbol is a nullable rule; a token isn't nullable.
    pub fn is_nullable(&self, symbol: Symbol<S>) -> bool
        requires { IsWithin self.now (sym_of S.number symbol) }
        ensures { IsTrue result ↔ IsNullableIn self.now (sym_of S.number symbol) }
    {
        match symbol {
            Symbol::Rule(rule) => self.epsilons.get_unchecked(rule.0.to_usize()),
            Symbol::Token(_) => false,
        }
    }

    /// Turns what a list begins with into what the rule followed by the list begins with.
    fn put_rule_before(&self, ridx: RIdx<S>, tail: &mut Vob)
        requires within { S.number ridx.0 < length self.now.rows }
        requires width { length tail.old.bits ≡ self.now.tokens }
        ensures width { length tail.new.bits ≡ self.now.tokens }
        ensures bits { (t : ℕ) → IsTrue (is_set tail.new.bits t) ↔ FirstBefore self.now (rule (S.number ridx.0)) (λ u. IsTrue (is_set tail.old.bits u)) t }
    {
        let number = ridx.0.to_usize();
        clear_unless(tail, self.epsilons.get_unchecked(number));
        tail.or(self.firsts.row(number));
    }

    /// Makes of `tail`, the FIRST set of a list, that of the list behind a token: the token alone.
    fn put_token_before(&self, tidx: TIdx<S>, tail: &mut Vob)
        requires within { S.number tidx.0 < self.now.tokens }
        requires width { length tail.old.bits ≡ self.now.tokens }
        ensures width { length tail.new.bits ≡ self.now.tokens }
        ensures bits { (t : ℕ) → IsTrue (is_set tail.new.bits t) ↔ (S.number tidx.0 ≡ t) }
    {
        tail.set_all(false);
        tail.set(tidx.0.to_usize(), true);
    }

    /// Turns the tokens that a list begins with into those that the symbol followed by the list begins with.
    pub fn put_before(&self, symbol: Symbol<S>, tail: &mut Vob)
        requires within { IsWithin self.now (sym_of S.number symbol) }
        requires width { length tail.old.bits ≡ self.now.tokens }
        ensures width { length tail.new.bits ≡ self.now.tokens }
        ensures bits { (t : ℕ) → IsTrue (is_set tail.new.bits t) ↔ FirstBefore self.now (sym_of S.number symbol) (λ u. IsTrue (is_set tail.old.bits u)) t }
    {
        match symbol {
            Symbol::Rule(rule) => self.put_rule_before(rule, tail),
            Symbol::Token(token) => self.put_token_before(token, tail),
        }
    }

    /// Sets `begins` to the tokens that the symbols begin with, by these sets, and returns whether all the
    /// symbols are nullable.
    pub fn first_of(&self, symbols: &[Symbol<S>], begins: &mut Vob) -> bool
        requires within { AllWithin self.now (syms_of S.number symbols.now) }
        requires width { length begins.old.bits ≡ self.now.tokens }
        ensures width { length begins.new.bits ≡ self.now.tokens }
        ensures nullable { IsTrue result ↔ AllOf (HasEpsilon self.now) (syms_of S.number symbols.now) }
        ensures first { (t : ℕ) → IsTrue (is_set begins.new.bits t) ↔ FirstsOf self.now (syms_of S.number symbols.now) t }
    {
        begins.set_all(false);
        'prefix: for index in 0..symbols.len() {
            let symbol = symbols[index];
            self.put_first(symbol, begins);
            if !self.is_nullable(symbol) {
                return false;
            }
        }
        true
    }

    /// Adds the tokens that a symbol begins with to a set.
    fn put_first(&self, symbol: Symbol<S>, begins: &mut Vob)
        requires within { IsWithin self.now (sym_of S.number symbol) }
        requires width { length begins.old.bits ≡ self.now.tokens }
        ensures width { length begins.new.bits ≡ self.now.tokens }
        ensures bits { (t : ℕ) → IsTrue (is_set begins.new.bits t) ↔ (IsTrue (is_set begins.old.bits t) ⊎ SymbolFirst self.now (sym_of S.number symbol) t) }
    {
        match symbol {
            Symbol::Rule(rule) => {
                let number = rule.0.to_usize();
                begins.or(self.firsts.row(number));
            }
            Symbol::Token(token) => {
                begins.set(token.0.to_usize(), true);
            }
        }
    }

    /// Adds the tokens to the set of a rule, and returns whether that changed it.
    fn add_tokens(&mut self, rule: RIdx<S>, tokens: &Vob) -> bool
        requires within { S.number rule.0 < length self.old.rows }
        requires width { length tokens.now.bits ≡ self.old.tokens }
        ensures tokens { self.new.tokens ≡ self.old.tokens }
        ensures rows { self.new.rows ≡ joined_to self.old.rows (S.number rule.0) tokens.now.bits }
        ensures epsilons { self.new.epsilons ≡ self.old.epsilons }
        ensures width_was { length (get_or self.old.rows (S.number rule.0) []) ≡ self.old.tokens }
        ensures steps { PassStep first_room (λ s. HasAllOf (S.number rule.0) tokens.now.bits s.rows) self.old self.new result }
    {
        self.firsts.join(rule.0.to_usize(), tokens)
    }

    /// Puts a rule among the nullable ones, and returns whether it wasn't one of them.
    fn add_epsilon(&mut self, rule: RIdx<S>) -> bool
        requires { S.number rule.0 < length self.old.rows }
        ensures tokens { self.new.tokens ≡ self.old.tokens }
        ensures rows { self.new.rows ≡ self.old.rows }
        ensures within { S.number rule.0 < length self.old.epsilons }
        ensures epsilons { self.new.epsilons ≡ slice_set self.old.epsilons (S.number rule.0) true }
        ensures steps { PassStep first_room Anything self.old self.new result }
    {
        self.epsilons.set(rule.0.to_usize(), true)
    }
}

impl<S: IndexStorage> YaccFirsts<S> {
    /// Computes the FIRST sets of a grammar's rules (Aho, Sethi and Ullman 1986, section 4.4).
    pub fn new(alloc: Global, grm: &NumberedGrammar<S>) -> Result<Self, AllocError>
        ensures { IfOk result (λ f. AreFirsts grm.now.grammar f) }
    {
        fill_with_blank::<S, Brand>(alloc, grm, Blank::new(1))
    }

    fn empty(alloc: Global, rules: usize, tokens: usize) -> Result<Self, AllocError>
        ensures tokens { IfOk result (λ f. f.tokens ≡ tokens) }
        ensures rows { IfOk result (λ f. f.rows ≡ replicate rules (replicate tokens false)) }
        ensures epsilons { IfOk result (λ f. f.epsilons ≡ replicate rules false) }
    {
        let firsts = TokenSets::empty(alloc, rules, tokens)?;
        let epsilons = Vob::from_elem(alloc, false, rules)?;
        Ok(YaccFirsts {
            firsts,
            epsilons,
            storage: PhantomData,
        })
    }

    /// Returns the set of a rule: a bit for each token.
    pub fn firsts(&self, ridx: RIdx<S>) -> &Vob
        requires { S.number ridx.0 < length self.now.rows }
        ensures bits { result.now.bits ≡ get_or self.now.rows (S.number ridx.0) [] }
        ensures width { length result.now.bits ≡ self.now.tokens }
    {
        self.firsts.row(ridx.0.to_usize())
    }

    /// Returns whether the token is in the set of the rule.
    pub fn is_set(&self, ridx: RIdx<S>, tidx: TIdx<S>) -> bool
        requires rule { S.number ridx.0 < length self.now.rows }
        requires token { S.number tidx.0 < self.now.tokens }
        ensures { IsTrue result ↔ HasFirst self.now (S.number ridx.0) (S.number tidx.0) }
    {
        self.firsts(ridx).get_unchecked(tidx.0.to_usize())
    }

    /// Returns whether the rule is among the nullable ones.
    pub fn is_epsilon_set(&self, ridx: RIdx<S>) -> bool
        requires { S.number ridx.0 < length self.now.rows }
        ensures { IsTrue result ↔ HasEpsilon self.now (S.number ridx.0) }
    {
        self.epsilons.get_unchecked(ridx.0.to_usize())
    }

    /// Puts the token into the set of the rule, and returns whether it was there.
    pub fn set(&mut self, ridx: RIdx<S>, tidx: TIdx<S>) -> bool
        requires rule { S.number ridx.0 < length self.old.rows }
        requires token { S.number tidx.0 < self.old.tokens }
        ensures was { IsTrue result ↔ HasFirst self.old (S.number ridx.0) (S.number tidx.0) }
        ensures tokens { self.new.tokens ≡ self.old.tokens }
        ensures epsilons { self.new.epsilons ≡ self.old.epsilons }
        ensures rows { self.new.rows ≡ slice_set self.old.rows (S.number ridx.0) (slice_set (get_or self.old.rows (S.number ridx.0) []) (S.number tidx.0) true) }
    {
        self.firsts.put(ridx.0.to_usize(), tidx.0.to_usize())
    }
}

impl<S: IndexStorage> YaccFirsts<S> {
    /// Adds the set of one rule to that of another, by way of `row`, and returns whether that changed it.
    fn add_row(&mut self, head: RIdx<S>, rule: RIdx<S>, row: &mut Vob) -> bool
        requires head { S.number head.0 < length self.old.rows }
        requires rule { S.number rule.0 < length self.old.rows }
        requires width { length row.old.bits ≡ self.old.tokens }
        ensures width { length row.new.bits ≡ self.old.tokens }
        ensures added { Adds (S.number head.0) (HasFirst self.old (S.number rule.0)) ⊥ self.old self.new }
        ensures steps { PassStep first_room Anything self.old self.new result }
    {
        row.set_all(false);
        row.or(self.firsts.row(rule.0.to_usize()));
        self.add_tokens(head, row)
    }

    /// Adds a token to the set of a rule, and returns whether that changed it.
    fn add_token(&mut self, head: RIdx<S>, token: TIdx<S>) -> bool
        requires head { S.number head.0 < length self.old.rows }
        requires token { S.number token.0 < self.old.tokens }
        ensures added { Adds (S.number head.0) (λ t. S.number token.0 ≡ t) ⊥ self.old self.new }
        ensures steps { PassStep first_room Anything self.old self.new result }
    {
        // For the proof alone: this read gives it how wide the set is.
        let _set = self.firsts(head);
        !self.set(head, token)
    }

    /// Adds the tokens that a symbol begins with to the set of a rule, and returns whether that changed it.
    fn add_symbol(&mut self, head: RIdx<S>, symbol: Symbol<S>, row: &mut Vob) -> bool
        requires head { S.number head.0 < length self.old.rows }
        requires within { IsWithin self.old (sym_of S.number symbol) }
        requires width { length row.old.bits ≡ self.old.tokens }
        ensures width { length row.new.bits ≡ self.old.tokens }
        ensures added { Adds (S.number head.0) (SymbolFirst self.old (sym_of S.number symbol)) ⊥ self.old self.new }
        ensures steps { PassStep first_room Anything self.old self.new result }
    {
        match symbol {
            Symbol::Rule(rule) => self.add_row(head, rule, row),
            Symbol::Token(token) => self.add_token(head, token),
        }
    }

    /// Adds to a rule's set the tokens with which the symbols begin, up to the first symbol that isn't nullable.
    /// Makes the rule nullable where all are. Returns whether that changed the sets.
    fn add_body(&mut self, head: RIdx<S>, symbols: &[Symbol<S>], row: &mut Vob) -> bool
        requires head { S.number head.0 < length self.old.rows }
        requires within { AllWithin self.old (syms_of S.number symbols.now) }
        requires width { length row.old.bits ≡ self.old.tokens }
        ensures width { length row.new.bits ≡ self.old.tokens }
        ensures added { Adds (S.number head.0) (FirstsOf self.old (syms_of S.number symbols.now)) (AllOf (HasEpsilon self.old) (syms_of S.number symbols.now)) self.old self.new }
        ensures steps { PassStep first_room Anything self.old self.new result }
    {
        let mut changed = false;
        'front: for index in 0..symbols.len() {
            let symbol = symbols[index];
            changed |= self.add_symbol(head, symbol, row);
            if !self.is_nullable(symbol) {
                return changed;
            }
        }
        let found = self.add_epsilon(head);
        changed | found
    }
}

/// FIRST sets that are being filled.
#[derive(Drop)]
struct Filling<'a, S: IndexStorage> {
    grm: &'a NumberedGrammar<S>,
    naming: &'a Naming,
    firsts: YaccFirsts<S>,
    row: Vob,
    /// The productions that were gone through, and name no rule whose set changed since.
    done: Vob,
}

impl<'a, S: IndexStorage> WorkTable for Filling<'a, S> {
    ghost use Rattle.std.specs.Prelude.{◌≡◌, length, refl};
    ghost use Rattle.std.proofs.Common.{◌∙◌};
    ghost use Rattle.cfg_sets.specs.Firsts.{AreUnderWay, AreFirstsClosedBut, first_room};

    ghost rules = { λ s. s.grm.now.grammar.rules };

    ghost is_sound = { λ s. AreUnderWay s.grm.now.grammar s.firsts s.row.bits s.done.bits s.naming.now };

    ghost room = { λ s. first_room s.firsts };

    ghost is_closed_but = { λ s list. AreFirstsClosedBut s.grm.now.grammar s.firsts list };

    ghost is_of_same = { λ s t. t.grm.now ≡ s.grm.now };

    ghost same_refl = { λ s. refl };

    ghost same_trans = { λ s t u h k. k ∙ h };

    fn take(&mut self, rule: usize, work: &mut WorkList) -> Result<(), AllocError> {
        let named = self.naming.of(rule);
        'prods: for index in 0..named.len() {
            self.take_prod(named[index], work)?;
        }
        Ok(())
    }
}

impl<'a, S: IndexStorage> Filling<'a, S> {
    /// Begins with empty sets.
    fn new(
        alloc: Global,
        grm: &'a NumberedGrammar<S>,
        naming: &'a Naming,
    ) -> Result<Filling<'a, S>, AllocError>
        requires { ListsNaming grm.now.grammar (length grm.now.grammar.productions) naming.now }
        ensures grammar { IfOk result (λ f. f.grm.now ≡ grm.now) }
        ensures naming { IfOk result (λ f. f.naming.now ≡ naming.now) }
        ensures under_way { IfOk result (λ f. AreUnderWay grm.now.grammar f.firsts f.row.bits f.done.bits naming.now) }
        ensures room { IfOk result (λ f. first_room f.firsts ≡ grm.now.grammar.rules * (grm.now.grammar.tokens + 1)) }
    {
        let rules = grm.rules_len().0.to_usize();
        let tokens = grm.tokens_len().0.to_usize();
        Ok(Filling {
            grm,
            naming,
            firsts: YaccFirsts::empty(alloc, rules, tokens)?,
            row: Vob::from_elem(alloc, false, tokens)?,
            done: Vob::from_elem(alloc, false, grm.prods_len().0.to_usize())?,
        })
    }

    /// Goes through a production, unless that would change nothing. Where the sets change, its rule enters the list.
    fn take_prod(&mut self, number: usize, work: &mut WorkList) -> Result<(), AllocError>
        requires production { number < length self.old.grm.now.grammar.productions }
        requires under_way { AreUnderWay self.old.grm.now.grammar self.old.firsts self.old.row.bits self.old.done.bits self.old.naming.now }
        requires work { work.old.rules ≡ self.old.grm.now.grammar.rules }
        ensures grammar { OnOk result (self.new.grm.now ≡ self.old.grm.now) }
        ensures naming { OnOk result (self.new.naming.now ≡ self.old.naming.now) }
        ensures under_way { OnOk result (AreUnderWay self.old.grm.now.grammar self.new.firsts self.new.row.bits self.new.done.bits self.old.naming.now) }
        ensures work { OnOk result (work.new.rules ≡ work.old.rules) }
        ensures kept { OnOk result ((p : ℕ) → IsClosedOrWaits self.old.grm.now.grammar self.old.firsts work.old.list p → IsClosedOrWaits self.old.grm.now.grammar self.new.firsts work.new.list p) }
        ensures here { OnOk result (IsClosedOrWaits self.old.grm.now.grammar self.new.firsts work.new.list number) }
        ensures room { OnOk result (first_room self.new.firsts + length work.new.list ≤ first_room self.old.firsts + length work.old.list) }
    {
        if self.done.get_unchecked(number) {
            return Ok(());
        }
        self.done.set(number, true);
        let grm = self.grm;
        grm.stays_well_formed();
        let pidx = grm.prod_at(number);
        let head = grm.prod_to_rule(pidx);
        if !self.firsts.add_body(head, grm.prod(pidx), &mut self.row) {
            return Ok(());
        }
        let rule = head.0.to_usize();
        self.naming.take_out(rule, &mut self.done);
        work.put(rule)?;
        Ok(())
    }

    /// Goes through all productions once, in the order.
    fn start(&mut self, order: &Order, work: &mut WorkList) -> Result<(), AllocError>
        requires order { IsOrder (length self.old.grm.now.grammar.productions) order.now }
        requires under_way { AreUnderWay self.old.grm.now.grammar self.old.firsts self.old.row.bits self.old.done.bits self.old.naming.now }
        requires work { work.old.rules ≡ self.old.grm.now.grammar.rules }
        ensures grammar { OnOk result (self.new.grm.now ≡ self.old.grm.now) }
        ensures naming { OnOk result (self.new.naming.now ≡ self.old.naming.now) }
        ensures under_way { OnOk result (AreUnderWay self.old.grm.now.grammar self.new.firsts self.new.row.bits self.new.done.bits self.old.naming.now) }
        ensures work { OnOk result (work.new.rules ≡ work.old.rules) }
        ensures closed { OnOk result (AreFirstsClosedBut self.old.grm.now.grammar self.new.firsts work.new.list) }
        ensures room { OnOk result (first_room self.new.firsts + length work.new.list ≤ first_room self.old.firsts + length work.old.list) }
    {
        'prods: for index in 0..order.len() {
            self.take_prod(order.at(index), work)?;
        }
        Ok(())
    }

    /// Goes through all productions in the order, and then takes rules off the list until none is left.
    fn fill_from<L: Ledger>(
        &mut self,
        order: &Order,
        work: &mut WorkList,
        steps: &mut Steps<L>,
    ) -> Result<(), AllocError>
        requires order { IsOrder (length self.old.grm.now.grammar.productions) order.now }
        requires under_way { AreUnderWay self.old.grm.now.grammar self.old.firsts self.old.row.bits self.old.done.bits self.old.naming.now }
        requires work { work.old.rules ≡ self.old.grm.now.grammar.rules }
        ensures grammar { OnOk result (self.new.grm.now ≡ self.old.grm.now) }
        ensures sound { OnOk result (AreSoundOf self.old.grm.now.grammar self.new.firsts self.new.row.bits) }
        ensures closed { OnOk result (AreFirstsClosedBut self.old.grm.now.grammar self.new.firsts []) }
        ensures takings { steps.new ≤ steps.old + (first_room self.old.firsts + length work.old.list) }
    {
        self.start(order, work)?;
        fill(self, work, steps)
    }
}

/// Computes the FIRST sets of a grammar's rules, as `YaccFirsts::new` does (Aho, Sethi and Ullman 1986, section 4.4).
/// A step is counted for each rule that is taken from the work list: once, and again when its set grew or it was
/// found to be nullable.
pub fn fill_firsts<S: IndexStorage, L: Ledger>(
    alloc: Global,
    grm: &NumberedGrammar<S>,
    steps: &mut Steps<L>,
) -> Result<YaccFirsts<S>, AllocError>
    ensures firsts { IfOk result (λ f. AreFirsts grm.now.grammar f) }
    ensures takings { steps.new ≤ steps.old + grm.now.grammar.rules * (grm.now.grammar.tokens + 2) }
{
    let naming = Naming::new(alloc, grm)?;
    let filled = fill_over(alloc, grm, &naming, steps);
    drop(naming);
    filled
}

/// Computes the FIRST sets, where `naming` has the productions that name each rule.
fn fill_over<S: IndexStorage, L: Ledger>(
    alloc: Global,
    grm: &NumberedGrammar<S>,
    naming: &Naming,
    steps: &mut Steps<L>,
) -> Result<YaccFirsts<S>, AllocError>
    requires { ListsNaming grm.now.grammar (length grm.now.grammar.productions) naming.now }
    ensures firsts { IfOk result (λ f. AreFirsts grm.now.grammar f) }
    ensures takings { steps.new ≤ steps.old + grm.now.grammar.rules * (grm.now.grammar.tokens + 2) }
{
    first_tables_are_exact();
    let order = Order::named_first(alloc, grm)?;
    let mut work = WorkList::full(alloc, grm.rules_len().0.to_usize())?;
    let mut filling = Filling::new(alloc, grm, naming)?;
    let filled = filling.fill_from(&order, &mut work, steps);
    match filled {
        Ok(()) => Ok(filling.firsts),
        Err(e) => {
            drop(filling);
            Err(e)
        }
    }
}

/// Computes the FIRST sets without a step counter.
fn fill_with_blank<S: IndexStorage, L: Ledger>(
    alloc: Global,
    grm: &NumberedGrammar<S>,
    blank: Blank,
) -> Result<YaccFirsts<S>, AllocError>
    requires name { blank.name ≡ L.name }
    requires parts { blank.parts ≡ L.parts }
    requires one { blank.parts ≡ 1 }
    ensures { IfOk result (λ f. AreFirsts grm.now.grammar f) }
{
    let mut steps = Steps::<L>::new(blank);
    fill_firsts(alloc, grm, &mut steps)
}
