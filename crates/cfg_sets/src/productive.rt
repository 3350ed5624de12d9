//! Whether each rule of a grammar derives some text.
//!
//! A production is held up at the first of its rules that isn't known to derive some text. Where a rule comes to be known,
//! the productions that name it are looked at again, each from where it was held up. So each symbol is passed twice at
//! most.

ghost use Rattle.std.specs.Prelude.{◌≡◌, ℕ, ◌<◌, ◌≤◌, [], ◌∷◌, ◌++◌, IsTrue, IfOk, IfSome, OnOk, None, false, length, replicate};
ghost use Rattle.vob.specs.Sets.{is_set};
ghost use Rattle.cfg_numbered.specs.Symbols.{sym_of};
ghost use Rattle.cfg_sets.specs.WorkLists.{HasList, ListsNaming};
ghost use Rattle.cfg_sets.specs.Productive.{EachProductive};
ghost use Rattle.cfg_theory.specs.Decides.{Decides};
ghost use Rattle.cfg_sets.specs.Searching.{AllFoundFrom, IsLookedAt, IsSearch, LooksAt, NamesUnfound, TellsHeld, TellsHold, room};

use crate::naming::Naming;
use cfg_base::index::IndexStorage;
use cfg_base::symbol::{PIdx, Symbol};
use cfg_numbered::yacc::NumberedGrammar;
use cfg_theory::rules::productive_tables_are_exact;
use std::alloc::{AllocError, Global};
use vob::Vob;

/// The rules that are known to derive some text, where each production was held up, and the rules of which those that name
/// them are still to be looked at.
#[derive(Drop)]
pub(crate) struct Search {
    found: Vob,
    hints: Vec<usize>,
    work: Vec<usize>,
}

/// Whether a symbol is a rule that isn't found.
fn is_held<S: IndexStorage>(symbol: Symbol<S>, found: &Vob) -> bool
    requires { HasList (length found.now.bits) (sym_of S.number symbol) }
    ensures { TellsHeld found.now.bits (sym_of S.number symbol) result }
{
    match symbol {
        Symbol::Rule(ridx) => !found.get_unchecked(ridx.0.to_usize()),
        Symbol::Token(_) => false,
    }
}

/// The index of the first rule of a production, from `start` on, that isn't found.
fn held_from<S: IndexStorage>(
    grm: &NumberedGrammar<S>,
    pidx: PIdx<S>,
    start: usize,
    found: &Vob,
) -> Option<usize>
    requires production { S.number pidx.0 < length grm.now.grammar.productions }
    requires width { length found.now.bits ≡ grm.now.grammar.rules }
    ensures some { IfSome result (λ d. NamesUnfound grm.now.grammar found.now.bits (S.number pidx.0)) }
    ensures none { result ≡ None → AllFoundFrom grm.now.grammar found.now.bits (S.number pidx.0) start }
{
    grm.start_prod();
    let symbols = grm.prod(pidx);
    'symbols: for index in start..symbols.len() {
        if is_held(symbols[index], found) {
            return Some(index);
        }
    }
    None
}

/// The index of a rule of a production that isn't found, where there is one. It is looked for from `hint` on, and only
/// where there is none from the first symbol on.
fn held_up<S: IndexStorage>(
    grm: &NumberedGrammar<S>,
    pidx: PIdx<S>,
    hint: usize,
    found: &Vob,
) -> Option<usize>
    requires production { S.number pidx.0 < length grm.now.grammar.productions }
    requires width { length found.now.bits ≡ grm.now.grammar.rules }
    ensures { TellsHold grm.now.grammar found.now.bits (S.number pidx.0) result }
{
    match held_from(grm, pidx, hint, found) {
        Some(index) => Some(index),
        None => held_from(grm, pidx, 0, found),
    }
}

impl Search {
    /// Nothing is found, and each production begins with its first symbol.
    fn new(alloc: Global, rules: usize, prods: usize) -> Result<Search, AllocError>
        ensures found { IfOk result (λ s. s.found.bits ≡ replicate rules false) }
        ensures hints { IfOk result (λ s. length s.hints.items ≡ prods) }
        ensures work { IfOk result (λ s. s.work.items ≡ []) }
    {
        let mut hints = Vec::new(alloc);
        'prods: for _ in 0..prods {
            hints.push(0)?;
        }
        Ok(Search {
            found: Vob::from_elem(alloc, false, rules)?,
            hints,
            work: Vec::new(alloc),
        })
    }

    /// Looks at a production: its rule was found before, or it is held up, or its rule is found.
    fn look_at<S: IndexStorage>(
        &mut self,
        grm: &NumberedGrammar<S>,
        number: usize,
    ) -> Result<(), AllocError>
        requires production { number < length grm.now.grammar.productions }
        requires search { IsSearch grm.now.grammar self.old }
        ensures { OnOk result (LooksAt grm.now.grammar number self.old self.new) }
    {
        grm.start_prod();
        let pidx = grm.prod_at(number);
        let head = grm.prod_to_rule(pidx).0.to_usize();
        if self.found.get_unchecked(head) {
            return Ok(());
        }
        if let Some(index) = held_up(grm, pidx, self.hints[number], &self.found) {
            self.hints[number] = index;
            return Ok(());
        }
        self.find(grm, pidx)
    }

    /// Finds the rule of a production whose rules are all found.
    fn find<S: IndexStorage>(
        &mut self,
        grm: &NumberedGrammar<S>,
        pidx: PIdx<S>,
    ) -> Result<(), AllocError>
        requires production { S.number pidx.0 < length grm.now.grammar.productions }
        requires search { IsSearch grm.now.grammar self.old }
        requires all { AllFoundFrom grm.now.grammar self.old.found.bits (S.number pidx.0) 0 }
        ensures { OnOk result (LooksAt grm.now.grammar (S.number pidx.0) self.old self.new) }
    {
        grm.start_prod();
        let rule = grm.prod_to_rule(pidx).0.to_usize();
        if self.found.set(rule, true) {
            self.work.push(rule)?;
        }
        Ok(())
    }

    /// Looks at all productions once.
    fn look_at_all<S: IndexStorage>(&mut self, grm: &NumberedGrammar<S>) -> Result<(), AllocError>
        requires { IsSearch grm.now.grammar self.old }
        ensures search { OnOk result (IsSearch grm.now.grammar self.new) }
        ensures looked_at { OnOk result ((p : ℕ) → p < length grm.now.grammar.productions → IsLookedAt grm.now.grammar self.new.found.bits self.new.work.items p) }
    {
        'prods: for number in 0..grm.prods_len().0.to_usize() {
            self.look_at(grm, number)?;
        }
        Ok(())
    }

    /// Looks at the productions that name a rule, which was taken off the list.
    fn look_at_named<S: IndexStorage>(
        &mut self,
        grm: &NumberedGrammar<S>,
        naming: &Naming,
        rule: usize,
    ) -> Result<(), AllocError>
        requires rule { rule < grm.now.grammar.rules }
        requires naming { ListsNaming grm.now.grammar (length grm.now.grammar.productions) naming.now }
        requires search { IsSearch grm.now.grammar self.old }
        requires looked_at { (p : ℕ) → p < length grm.now.grammar.productions → IsLookedAt grm.now.grammar self.old.found.bits (self.old.work.items ++ rule ∷ []) p }
        ensures search { OnOk result (IsSearch grm.now.grammar self.new) }
        ensures looked_at { OnOk result ((p : ℕ) → p < length grm.now.grammar.productions → IsLookedAt grm.now.grammar self.new.found.bits self.new.work.items p) }
        ensures less { OnOk result (room self.new ≤ room self.old) }
    {
        let named = naming.of(rule);
        'prods: for index in 0..named.len() {
            self.look_at(grm, named[index])?;
        }
        Ok(())
    }

    /// Looks at productions until no rule waits.
    fn run<S: IndexStorage>(
        &mut self,
        grm: &NumberedGrammar<S>,
        naming: &Naming,
    ) -> Result<(), AllocError>
        requires naming { ListsNaming grm.now.grammar (length grm.now.grammar.productions) naming.now }
        requires search { IsSearch grm.now.grammar self.old }
        requires looked_at { (p : ℕ) → p < length grm.now.grammar.productions → IsLookedAt grm.now.grammar self.old.found.bits self.old.work.items p }
        ensures search { OnOk result (IsSearch grm.now.grammar self.new) }
        ensures looked_at { OnOk result ((p : ℕ) → p < length grm.now.grammar.productions → IsLookedAt grm.now.grammar self.new.found.bits [] p) }
    {
        'takings: loop {
            match self.work.pop() {
                Some(rule) => self.look_at_named(grm, naming, rule)?,
                None => return Ok(()),
            }
        }
    }

    /// Whether all rules are found.
    fn has_all(&self) -> bool
        ensures { Decides ((A : ℕ) → A < length self.now.found.bits → IsTrue (is_set self.now.found.bits A)) result }
    {
        'rules: for rule in 0..self.found.len() {
            if !self.found.get_unchecked(rule) {
                return false;
            }
        }
        true
    }
}

/// Returns whether each rule of a grammar derives some text.
pub fn all_productive<S: IndexStorage>(
    alloc: Global,
    grm: &NumberedGrammar<S>,
) -> Result<bool, AllocError>
    ensures { IfOk result (Decides (EachProductive grm.now.grammar)) }
{
    productive_tables_are_exact();
    let naming = Naming::new(alloc, grm)?;
    let rules = grm.rules_len().0.to_usize();
    let mut search = Search::new(alloc, rules, grm.prods_len().0.to_usize())?;
    search.look_at_all(grm)?;
    search.run(grm, &naming)?;
    Ok(search.has_all())
}
