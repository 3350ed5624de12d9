//! The rules that a closure opens. All productions of an opened rule come in at dot zero with the same lookaheads, so
//! these are stored once for each rule.

ghost use Rattle.std.specs.Prelude.{◌≡◌, ℕ, Bool, List, ◌<◌, ◌≤◌, ◌+◌, ◌++◌, true, false, [], ◌∷◌, length, map, get_or, replicate, slice_set, IfOk, OnOk, IsTrue, ◌↔◌, if◌then◌else◌};
ghost use Rattle.std.specs.List.{Contains};
ghost use Rattle.vob.specs.Passes.{PassStep};
ghost use Rattle.vob.specs.Sets.{joined_to, is_set, is_set_in, HasAllOf};
ghost use Rattle.lrtable.specs.Fronts.{front_of, front_with};
ghost use Rattle.cfg_sets.specs.Firsts.{AreFirsts};
ghost use Rattle.lr_theory.specs.Itemset.{HasItem, HasLook};
ghost use Rattle.state_table.specs.Adding.{SingleItem, OneLooks};
ghost use Rattle.lrtable.specs.Closes.{Seeds, SeedsLook, AreFronts};
ghost use Rattle.state_table.specs.ItemRows.{map_of, FitsCore};
ghost use Rattle.state_table.specs.Meeting.{rows_in};
ghost use Rattle.state_table.specs.CoreViews.{core_of_set};
ghost use Rattle.lrtable.specs.Stepping.{IsSized, IsClosureOf};
ghost use Rattle.lrtable.specs.Closers.{IsReady};
ghost use Rattle.lrtable.specs.Opening.{Front, RuleSets, IsTidy, IsOpen, HasRuleLook, room, FitsIn, AllFit, Brings, Comes, Follows, FrontStep, NamedIn, BroughtBy, GainsOwn, SameSizes, Underway, AreOpened};
ghost use Rattle.lrtable.specs.Reaching.{AreListed, IsAlone};
ghost use Rattle.lrtable.specs.MadeTails.{AreTails};

use crate::capacities::production_counts;
use crate::flags::{Flags, SetFlags};
use crate::openers::{Opener, Openers};
use crate::rule_queue::RuleQueue;
use crate::rule_rows::RuleRows;
use crate::tails::{Rest, Tails, rule_after};
use cfg_base::index::IndexStorage;
use cfg_numbered::yacc::NumberedGrammar;
use cfg_sets::YaccFirsts;
use state_table::cores::{CoreItem, CoreSet};
use std::alloc::{AllocError, Global};
use std::marker::Model;
use vob::Vob;

/// Empties the sets of the open rules.
fn empty_rows(looks: &mut RuleRows, opened: &Flags)
    requires { length opened.now.bits ≡ length looks.old.rows }
    ensures width { looks.new.width ≡ looks.old.width }
    ensures count { length looks.new.rows ≡ length looks.old.rows }
    ensures kept { (A t : ℕ) → IsTrue (is_set_in looks.new.rows A t) → IsTrue (is_set_in looks.old.rows A t) }
    ensures emptied { (A t : ℕ) → IsTrue (is_set opened.now.bits A) → IsTrue (is_set_in looks.new.rows A t) → ⊥ }
{
    if opened.is_full() {
        looks.clear_all(opened);
        return;
    }
    looks.clear_each(opened.noted_numbers());
}

/// The open rules with their lookaheads.
#[derive(Drop)]
pub(crate) struct Opening {
    /// A set of tokens for each rule.
    looks: RuleRows,
    /// A flag for each rule: whether it is open.
    opened: Flags,
}

impl Model for Opening {
    ghost use Rattle.std.specs.Prelude.{◌≡◌, length};
    ghost use Rattle.lrtable.specs.Opening.{RuleSets};

    ghost Value = { RuleSets };

    ghost view = { λ s. record { tokens = s.looks.width; rows = s.looks.rows; opened = s.opened.bits } };

    ghost invariant = { λ s. (length s.looks.rows ≡ length s.opened.bits) };
}

impl Opening {
    /// Makes an opening without an open rule.
    pub(crate) fn empty(alloc: Global, rules: usize, tokens: usize) -> Result<Opening, AllocError>
        ensures { IfOk result (λ s. s ≡ record { tokens = tokens; rows = replicate rules (replicate tokens false); opened = replicate rules false }) }
    {
        let looks = RuleRows::empty(alloc, rules, tokens)?;
        let opened = Flags::empty(alloc, rules, rules)?;
        Ok(Opening { looks, opened })
    }

    /// Proves that there are as many sets as flags, for calls that require it.
    fn counts_agree(&self)
        ensures { length self.now.rows ≡ length self.now.opened }
    {
        let _ = &self.opened;
    }

    /// Closes all rules and empties their sets, where those of the others are empty.
    pub(crate) fn clear(&mut self)
        requires { IsTidy self.old }
        ensures sizes { SameSizes self.old self.new }
        ensures none_open { (A : ℕ) → IsOpen self.new A → ⊥ }
        ensures no_look { (A t : ℕ) → HasRuleLook self.new A t → ⊥ }
    {
        empty_rows(&mut self.looks, &self.opened);
        self.opened.clear();
    }

    /// Opens a rule.
    fn open(&mut self, rule: usize) -> bool
        requires { rule < length self.old.opened }
        ensures tokens { self.new.tokens ≡ self.old.tokens }
        ensures rows { self.new.rows ≡ self.old.rows }
        ensures opened { self.new.opened ≡ slice_set self.old.opened rule true }
        ensures steps { PassStep room (λ s. IsOpen s rule) self.old self.new result }
    {
        self.opened.set(rule)
    }

    /// Returns whether a rule is open.
    pub(crate) fn is_open(&self, rule: usize) -> bool
        requires { rule < length self.now.opened }
        ensures { IsTrue result ↔ IsOpen self.now rule }
    {
        self.opened.get_unchecked(rule)
    }

    /// Walks over the open rules.
    pub(crate) fn open_rules(&self) -> SetFlags<'_>
        ensures { (A : ℕ) → Contains result A ↔ IsOpen self.now A }
    {
        self.opened.iter()
    }

    /// Returns the open rules as they were opened, or most of them.
    pub(crate) fn noted_rules(&self) -> &[usize] {
        self.opened.noted_numbers()
    }

    /// Returns a flag for each rule: whether it is open.
    pub(crate) fn open_flags(&self) -> &Flags
        ensures { result.now.bits ≡ self.now.opened }
    {
        &self.opened
    }

    /// Returns the lookaheads of a rule.
    pub(crate) fn row(&self, rule: usize) -> &Vob
        requires { rule < length self.now.rows }
        ensures bits { result.now.bits ≡ get_or self.now.rows rule [] }
        ensures width { length result.now.bits ≡ self.now.tokens }
    {
        self.looks.row(rule)
    }

    /// Adds lookaheads of a rule.
    fn join(&mut self, rule: usize, looks: &Vob) -> bool
        requires within { rule < length self.old.rows }
        requires width { length looks.now.bits ≡ self.old.tokens }
        ensures tokens { self.new.tokens ≡ self.old.tokens }
        ensures rows { self.new.rows ≡ joined_to self.old.rows rule looks.now.bits }
        ensures opened { self.new.opened ≡ self.old.opened }
        ensures width { length (get_or self.old.rows rule []) ≡ self.old.tokens }
        ensures steps { PassStep room (λ s. HasAllOf rule looks.now.bits s.rows) self.old self.new result }
    {
        self.looks.join(rule, looks)
    }

    /// Adds lookaheads of a rule, if what follows it in a production is `nullable`, and returns whether that
    /// changed something.
    fn pass(&mut self, rule: usize, nullable: bool, looks: &Vob) -> bool
        requires within { rule < length self.old.rows }
        requires width { length looks.now.bits ≡ self.old.tokens }
        ensures tokens { self.new.tokens ≡ self.old.tokens }
        ensures rows { self.new.rows ≡ if nullable then joined_to self.old.rows rule looks.now.bits else self.old.rows }
        ensures opened { self.new.opened ≡ self.old.opened }
        ensures width { IsTrue nullable → length (get_or self.old.rows rule []) ≡ self.old.tokens }
        ensures steps { PassStep room (λ s. IsTrue nullable → HasAllOf rule looks.now.bits s.rows) self.old self.new result }
    {
        if !nullable {
            return false;
        }
        self.join(rule, looks)
    }

    /// Opens a rule with what follows it in a production that has these lookaheads, and returns whether that
    /// changed something.
    fn bring(&mut self, rule: usize, rest: &Rest, looks: &Vob) -> bool
        requires rules { rule < length self.old.opened }
        requires within { rule < length self.old.rows }
        requires first { length rest.now.first.bits ≡ self.old.tokens }
        requires width { length looks.now.bits ≡ self.old.tokens }
        ensures { FrontStep looks.now.bits (front_with rule rest.now) self.old self.new result }
    {
        let opened = self.open(rule);
        let grew = self.join(rule, &rest.first);
        let passed = self.pass(rule, rest.nullable, looks);
        opened | grew | passed
    }

    /// Opens a rule as `bring` does, and puts it with those that wait if something changed.
    pub(crate) fn follow(
        &mut self,
        rule: usize,
        rest: &Rest,
        looks: &Vob,
        waiting: &mut RuleQueue,
    ) -> Result<(), AllocError>
        requires rules { rule < length self.old.opened }
        requires within { rule < length self.old.rows }
        requires first { length rest.now.first.bits ≡ self.old.tokens }
        requires width { length looks.now.bits ≡ self.old.tokens }
        ensures { OnOk result (Follows (λ A. rule ≡ A) (λ A t. (rule ≡ A) × Brings looks.now.bits (front_with rule rest.now) t) self.old self.new waiting.old waiting.new) }
    {
        if self.bring(rule, rest, looks) {
            waiting.put(rule)?;
        }
        Ok(())
    }

    /// Brings to the left corners of a rule, which has these lookaheads, what follows them.
    fn follow_all(
        &mut self,
        openers: &[Opener],
        looks: &Vob,
        waiting: &mut RuleQueue,
    ) -> Result<(), AllocError>
        requires fit { AllFit (length self.old.opened) self.old.tokens (map front_of openers.now) }
        requires width { length looks.now.bits ≡ self.old.tokens }
        ensures { OnOk result (Follows (NamedIn (map front_of openers.now)) (BroughtBy looks.now.bits (map front_of openers.now)) self.old self.new waiting.old waiting.new) }
    {
        self.counts_agree();
        'openers: for opener in openers {
            self.follow(opener.rule, &opener.rest, looks, waiting)?;
        }
        Ok(())
    }

    /// Adds to the lookaheads of a rule what follows the rule where it comes first by an opener.
    fn keep_one(&mut self, rule: usize, opener: &Opener)
        requires within { rule < length self.old.rows }
        requires first { length opener.now.rest.first.bits ≡ self.old.tokens }
        ensures { GainsOwn (front_of opener.now ∷ []) rule self.old self.new }
    {
        if opener.rule != rule {
            return;
        }
        self.join(rule, &opener.rest.first);
    }

    /// Adds to the lookaheads of a rule what follows the rule by each of its own openers. So the rule needn't
    /// wait for what it brings to itself.
    fn keep_own(&mut self, rule: usize, openers: &[Opener])
        requires within { rule < length self.old.rows }
        requires first { (e : Front) → Contains (map front_of openers.now) e → length e.first ≡ self.old.tokens }
        ensures { GainsOwn (map front_of openers.now) rule self.old self.new }
    {
        'openers: for opener in openers {
            self.keep_one(rule, opener);
        }
    }

    /// Writes the lookaheads of a rule over a set.
    fn copy_looks(&self, rule: usize, looks: &mut Vob)
        requires within { rule < length self.now.rows }
        requires width { length looks.old.bits ≡ self.now.tokens }
        ensures width { length looks.new.bits ≡ self.now.tokens }
        ensures bits { (t : ℕ) → IsTrue (is_set looks.new.bits t) ↔ HasRuleLook self.now rule t }
    {
        looks.set_all(false);
        looks.or(self.looks.row(rule));
    }

    /// Opens a rule as `bring` does, without returning whether that changed something.
    fn bring_on(&mut self, opener: &Opener, looks: &Vob)
        requires rules { opener.now.rule < length self.old.opened }
        requires within { opener.now.rule < length self.old.rows }
        requires first { length opener.now.rest.first.bits ≡ self.old.tokens }
        requires width { length looks.now.bits ≡ self.old.tokens }
        ensures { (changed : Bool) × FrontStep looks.now.bits (front_of opener.now) self.old self.new changed }
    {
        self.open(opener.rule);
        self.join(opener.rule, &opener.rest.first);
        self.pass(opener.rule, opener.rest.nullable, looks);
    }

    /// Brings to the rules of openers what follows them, where a rule with these lookaheads leads to them.
    fn bring_all(&mut self, reached: &[Opener], looks: &Vob)
        requires fit { AllFit (length self.old.opened) self.old.tokens (map front_of reached.now) }
        requires width { length looks.now.bits ≡ self.old.tokens }
        ensures comes { Comes (NamedIn (map front_of reached.now)) (BroughtBy looks.now.bits (map front_of reached.now)) self.old self.new }
        ensures fewer { room self.new ≤ room self.old }
    {
        self.counts_agree();
        'openers: for opener in reached {
            self.bring_on(opener, looks);
        }
    }

    /// Brings to all rules that a rule reaches what follows them, if that was computed before. Else takes the
    /// rule itself, and puts the rules to which something was brought with those that wait.
    fn take_rule(
        &mut self,
        openers: &Openers,
        rule: usize,
        looks: &mut Vob,
        waiting: &mut RuleQueue,
    ) -> Result<(), AllocError>
        requires rules { length openers.now ≡ length self.old.opened }
        requires rule { rule < length self.old.opened }
        requires open_is { IsOpen self.old rule }
        requires tidy { IsTidy self.old }
        requires fit { (A : ℕ) → AllFit (length self.old.opened) self.old.tokens (get_or openers.now A []) }
        requires width { length looks.old.bits ≡ self.old.tokens }
        ensures sizes { OnOk result (SameSizes self.old self.new) }
        ensures tidy { OnOk result (IsTidy self.new) }
        ensures width { OnOk result (length looks.new.bits ≡ self.old.tokens) }
        ensures waiting { OnOk result ((from : RuleSets) → Underway openers.now from self.old (waiting.old ++ rule ∷ []) → Underway openers.now from self.new waiting.new) }
        ensures fewer { OnOk result (room self.new + length waiting.new ≤ room self.old + length waiting.old) }
    {
        self.counts_agree();
        match openers.reached_from(rule, looks.len()) {
            Some(reached) => {
                self.copy_looks(rule, looks);
                self.bring_all(reached, looks);
                Ok(())
            }
            None => {
                self.keep_own(rule, openers.of_rule(rule));
                self.copy_looks(rule, looks);
                self.follow_all(openers.of_rule(rule), looks, waiting)?;
                Ok(())
            }
        }
    }

    /// Opens one rule without lookaheads, and what it leads to.
    pub(crate) fn open_from(
        &mut self,
        openers: &Openers,
        looks: &mut Vob,
        waiting: &mut RuleQueue,
        rule: usize,
    ) -> Result<(), AllocError>
        requires tidy { IsTidy self.old }
        requires rules { length openers.now ≡ length self.old.opened }
        requires rule { rule < length openers.now }
        requires fit { (A : ℕ) → AllFit (length self.old.opened) self.old.tokens (get_or openers.now A []) }
        requires width { length looks.old.bits ≡ self.old.tokens }
        requires none_waits { waiting.old ≡ [] }
        ensures opened { OnOk result ((from : RuleSets) × IsAlone rule from × AreOpened openers.now from self.new) }
        ensures tidy { OnOk result (IsTidy self.new) }
        ensures sizes { OnOk result (SameSizes self.old self.new) }
        ensures width { OnOk result (length looks.new.bits ≡ self.old.tokens) }
        ensures none_waits { OnOk result (waiting.new ≡ []) }
    {
        self.clear();
        self.open(rule);
        waiting.put(rule)?;
        self.close(openers, looks, waiting)?;
        Ok(())
    }

    /// Returns an open rule with its lookaheads, and whether it is a marked one.
    fn opener_at(&self, passed: &Vob, rule: usize) -> Result<Opener, AllocError>
        requires rule { rule < length self.now.rows }
        requires width { rule < length passed.now.bits }
        ensures rule { IfOk result (λ o. o.rule ≡ rule) }
        ensures first { IfOk result (λ o. o.rest.first.bits ≡ get_or self.now.rows rule []) }
        ensures width { IfOk result (λ o. length o.rest.first.bits ≡ self.now.tokens) }
        ensures nullable { IfOk result (λ o. o.rest.nullable ≡ is_set passed.now.bits rule) }
    {
        let first = self.row(rule).clone()?;
        let rest = Rest {
            first,
            nullable: passed.get_unchecked(rule),
        };
        Ok(Opener { rule, rest })
    }

    /// Returns the open rules with their lookaheads, and which of them are marked.
    pub(crate) fn to_openers(&self, alloc: Global, passed: &Vob) -> Result<Vec<Opener>, AllocError>
        requires { length passed.now.bits ≡ length self.now.opened }
        ensures { IfOk result (λ v. AreListed self.now passed.now.bits (map front_of v.items)) }
    {
        self.counts_agree();
        let mut list = Vec::with_capacity(alloc, self.opened.count())?;
        'rules: for rule in self.open_rules() {
            list.push(self.opener_at(passed, rule)?)?;
        }
        Ok(list)
    }

    /// Opens what the open rules reach: the least sets that have these and are closed. Each rule that waits is
    /// taken, and again when something was brought to it.
    pub(crate) fn close(
        &mut self,
        openers: &Openers,
        looks: &mut Vob,
        waiting: &mut RuleQueue,
    ) -> Result<(), AllocError>
        requires rules { length openers.now ≡ length self.old.opened }
        requires fit { (A : ℕ) → AllFit (length self.old.opened) self.old.tokens (get_or openers.now A []) }
        requires width { length looks.old.bits ≡ self.old.tokens }
        requires tidy { IsTidy self.old }
        requires waiting { Underway openers.now self.old self.old waiting.old }
        ensures tidy { OnOk result (IsTidy self.new) }
        ensures opened { OnOk result (AreOpened openers.now self.old self.new) }
        ensures sizes { OnOk result (SameSizes self.old self.new) }
        ensures width { OnOk result (length looks.new.bits ≡ self.old.tokens) }
        ensures none_waits { OnOk result (waiting.new ≡ []) }
    {
        'waiting: while let Some(rule) = waiting.take() {
            self.take_rule(openers, rule, looks, waiting)?;
        }
        Ok(())
    }

    /// Opens the rule behind the dot of an item with these lookaheads, if there is one, with what follows it.
    fn seed_one<S: IndexStorage>(
        &mut self,
        grm: &NumberedGrammar<S>,
        tails: &Tails<'_, S>,
        pair: (&CoreItem<S>, &Vob),
        rest: &mut Rest,
        waiting: &mut RuleQueue,
    ) -> Result<(), AllocError>
        requires production { S.number pair.0.now.pidx.0 < length grm.now.grammar.productions }
        requires tails { AreTails grm.now.grammar tails.now }
        requires sizes { IsSized grm.now.grammar self.old }
        requires width { length pair.1.now.bits ≡ grm.now.grammar.tokens }
        requires room { length rest.old.first.bits ≡ grm.now.grammar.tokens }
        ensures room { length rest.new.first.bits ≡ grm.now.grammar.tokens }
        ensures follows { OnOk result (Follows (Seeds grm.now.grammar (SingleItem (S.number pair.entry.0.now.pidx.0) (S.number pair.entry.0.now.dot.0))) (SeedsLook grm.now.grammar (SingleItem (S.number pair.entry.0.now.pidx.0) (S.number pair.entry.0.now.dot.0)) (OneLooks (S.number pair.entry.0.now.pidx.0) (S.number pair.entry.0.now.dot.0) pair.entry.1.now.bits)) self.old self.new waiting.old waiting.new) }
    {
        grm.start_prod();
        let (item, looks) = pair;
        let dot = item.dot.0.to_usize();
        match rule_after(grm, item.pidx, dot) {
            Some(ridx) => {
                tails.fill(grm, item.pidx, dot, rest);
                self.follow(ridx.0.to_usize(), rest, looks, waiting)?;
                Ok(())
            }
            None => Ok(()),
        }
    }

    /// Opens the rules behind the dots of a core.
    fn seed<S: IndexStorage>(
        &mut self,
        grm: &NumberedGrammar<S>,
        tails: &Tails<'_, S>,
        set: &CoreSet<S>,
        rest: &mut Rest,
        waiting: &mut RuleQueue,
    ) -> Result<(), AllocError>
        requires fits { FitsCore grm.now.grammar (core_of_set S.number set.now) }
        requires tails { AreTails grm.now.grammar tails.now }
        requires sizes { IsSized grm.now.grammar self.old }
        requires room { length rest.old.first.bits ≡ grm.now.grammar.tokens }
        ensures room { length rest.new.first.bits ≡ grm.now.grammar.tokens }
        ensures follows { OnOk result (Follows (Seeds grm.now.grammar (HasItem (map_of (core_of_set S.number set.now)))) (SeedsLook grm.now.grammar (HasItem (map_of (core_of_set S.number set.now))) (HasLook (map_of (core_of_set S.number set.now)))) self.old self.new waiting.old waiting.new) }
    {
        'items: for k in 0..set.items.len() {
            let item = &set.items[k];
            let looks = &set.looks[k];
            self.seed_one(grm, tails, (item, looks), rest, waiting)?;
        }
        Ok(())
    }
}

/// Closes one core after another, in buffers that it reuses.
#[derive(Drop)]
pub(crate) struct Closer<'a, S: IndexStorage> {
    pub tails: Tails<'a, S>,
    pub openers: &'a Openers,
    /// The open rules.
    pub opening: Opening,
    /// The lookaheads of the rule that is taken.
    pub looks: Vob,
    /// The tail behind the symbol that is looked at.
    pub rest: Rest,
    /// The rules that wait to be taken.
    pub waiting: RuleQueue,
    /// The number of productions of each rule.
    pub counts: Vec<usize>,
}

impl<'a, S: IndexStorage> Closer<'a, S> {
    /// Makes the buffers, with no open rule.
    pub(crate) fn new(
        alloc: Global,
        grm: &NumberedGrammar<S>,
        firsts: &'a YaccFirsts<S>,
        openers: &'a Openers,
    ) -> Result<Closer<'a, S>, AllocError>
        requires firsts { AreFirsts grm.now.grammar firsts.now }
        requires openers { AreFronts grm.now.grammar openers.now }
        ensures { IfOk result (λ c. IsReady grm.now.grammar c) }
    {
        let rules = grm.rules_len().0.to_usize();
        let tokens = grm.tokens_len().0.to_usize();
        Ok(Closer {
            tails: Tails::new(alloc, grm, firsts)?,
            openers,
            opening: Opening::empty(alloc, rules, tokens)?,
            looks: Vob::from_elem(alloc, false, tokens)?,
            rest: Rest::empty(alloc, tokens)?,
            waiting: RuleQueue::empty(alloc, rules)?,
            counts: production_counts(alloc, grm)?,
        })
    }

    /// Opens the rules that the closure of a core opens, with their lookaheads, and no others.
    pub(crate) fn close(
        &mut self,
        grm: &NumberedGrammar<S>,
        set: &CoreSet<S>,
    ) -> Result<(), AllocError>
        requires ready { IsReady grm.now.grammar self.old }
        requires fits { FitsCore grm.now.grammar (core_of_set S.number set.now) }
        ensures ready { OnOk result (IsReady grm.now.grammar self.new) }
        ensures closed { OnOk result (IsClosureOf grm.now.grammar self.old.openers.now (core_of_set S.number set.now) self.new.opening) }
    {
        self.opening.clear();
        self.opening
            .seed(grm, &self.tails, set, &mut self.rest, &mut self.waiting)?;
        self.opening
            .close(self.openers, &mut self.looks, &mut self.waiting)?;
        Ok(())
    }
}
