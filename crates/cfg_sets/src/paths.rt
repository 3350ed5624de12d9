//! Which rules a rule reaches by references.

ghost use Rattle.std.specs.Prelude.{◌≡◌, ◌<◌, ◌↔◌, ◌⊎◌, IsTrue, IfOk, OnOk, length};
ghost use Rattle.cfg_theory.specs.Grammar.{head_of};
ghost use Rattle.cfg_theory.specs.Derivation.{HasPath};
ghost use Rattle.cfg_numbered.specs.Symbols.{sym_of};
ghost use Rattle.vob.specs.Sets.{is_set, missing};
ghost use Rattle.cfg_sets.specs.Paths.{AreReached, IsReachedFrom, IsIn, HasPlace, Reaches, ReachGoesOn, with_rule};
ghost use Rattle.vob.specs.Passes.{PassStep};

use crate::work_list::{WorkList, WorkTable, fill};
use cfg_base::index::IndexStorage;
use cfg_base::steps::Steps;
use cfg_base::symbol::{PIdx, RIdx, Symbol};
use cfg_numbered::yacc::grammar::NumberedGrammar;
use cfg_theory::rules::path_tables_are_exact;
use std::alloc::{AllocError, Global};
use std::marker::Brand;
use std::sync::ledger::{Blank, Ledger};
use vob::Vob;

/// Returns whether a rule reaches another, or itself, by one or more references in productions.
pub fn has_path<S: IndexStorage>(
    alloc: Global,
    grm: &NumberedGrammar<S>,
    from: RIdx<S>,
    to: RIdx<S>,
) -> Result<bool, AllocError>
    requires from { S.number from.0 < grm.now.grammar.rules }
    requires to { S.number to.0 < grm.now.grammar.rules }
    ensures { IfOk result (λ b. IsTrue b ↔ HasPath grm.now.grammar (S.number from.0) (S.number to.0)) }
{
    find_with_blank::<S, Brand>(alloc, grm, from, to, Blank::new(1))
}

/// Puts a symbol into the set, where it is a rule, and returns whether that changed the set.
fn add_symbol<S: IndexStorage>(symbol: Symbol<S>, reached: &mut Vob) -> bool
    requires { HasPlace reached.old.bits (sym_of S.number symbol) }
    ensures bits { reached.new.bits ≡ with_rule reached.old.bits (sym_of S.number symbol) }
    ensures steps { PassStep missing (λ b. IsIn b (sym_of S.number symbol)) reached.old.bits reached.new.bits result }
{
    match symbol {
        Symbol::Rule(rule) => reached.set(rule.0.to_usize(), true),
        Symbol::Token(_) => false,
    }
}

/// Puts a symbol into the set, where it is a rule. That waits from then on, where it wasn't there.
pub fn reach<S: IndexStorage>(
    symbol: Symbol<S>,
    reached: &mut Vob,
    work: &mut WorkList,
) -> Result<(), AllocError>
    requires place { HasPlace reached.old.bits (sym_of S.number symbol) }
    requires work { work.old.rules ≡ length reached.old.bits }
    ensures { OnOk result (Reaches (sym_of S.number symbol) reached.old.bits reached.new.bits work.old work.new) }
{
    if !add_symbol(symbol, reached) {
        return Ok(());
    }
    match symbol {
        Symbol::Rule(rule) => {
            work.put(rule.0.to_usize())?;
            Ok(())
        }
        Symbol::Token(_) => Ok(()),
    }
}

/// Puts the rules that a production names into the set. Those that weren't there wait from then on.
fn reach_named<S: IndexStorage>(
    grm: &NumberedGrammar<S>,
    from: RIdx<S>,
    pidx: PIdx<S>,
    reached: &mut Vob,
    work: &mut WorkList,
) -> Result<(), AllocError>
    requires production { S.number pidx.0 < length grm.now.grammar.productions }
    requires width { length reached.old.bits ≡ grm.now.grammar.rules }
    requires sound { AreReached grm.now.grammar (S.number from.0) reached.old.bits }
    requires reached { (head_of grm.now.grammar (S.number pidx.0) ≡ S.number from.0) ⊎ IsTrue (is_set reached.old.bits (head_of grm.now.grammar (S.number pidx.0))) }
    requires work { work.old.rules ≡ grm.now.grammar.rules }
    ensures width { OnOk result (length reached.new.bits ≡ grm.now.grammar.rules) }
    ensures sound { OnOk result (AreReached grm.now.grammar (S.number from.0) reached.new.bits) }
    ensures went_on { OnOk result (ReachGoesOn grm.now.grammar (S.number from.0) reached.old.bits reached.new.bits work.old work.new) }
    ensures here { OnOk result (IsReachedFrom grm.now.grammar (S.number from.0) (S.number pidx.0) reached.new.bits) }
{
    grm.stays_well_formed();
    let symbols = grm.prod(pidx);
    'symbols: for index in 0..symbols.len() {
        reach(symbols[index], reached, work)?;
    }
    Ok(())
}

/// The rules that a rule reaches, as they are found.
#[derive(Drop)]
struct Reaching<'a, S: IndexStorage> {
    grm: &'a NumberedGrammar<S>,
    from: RIdx<S>,
    reached: Vob,
}

impl<'a, S: IndexStorage> WorkTable for Reaching<'a, S> {
    ghost use Rattle.std.specs.Prelude.{◌≡◌, length, refl};
    ghost use Rattle.std.proofs.Common.{◌∙◌};
    ghost use Rattle.vob.specs.Sets.{missing};
    ghost use Rattle.cfg_sets.specs.Paths.{AreReached, IsReachClosedBut};

    ghost rules = { λ s. s.grm.now.grammar.rules };

    ghost is_sound = { λ s. (length s.reached.bits ≡ s.grm.now.grammar.rules) × AreReached s.grm.now.grammar (S.number s.from.0) s.reached.bits };

    ghost room = { λ s. missing s.reached.bits };

    ghost is_closed_but = { λ s list. IsReachClosedBut s.grm.now.grammar (S.number s.from.0) s.reached.bits list };

    ghost is_of_same = { λ s t. (t.grm.now ≡ s.grm.now) × (S.number t.from.0 ≡ S.number s.from.0) };

    ghost same_refl = { λ s. (refl, refl) };

    ghost same_trans = { λ s t u h k. (k.0 ∙ h.0, k.1 ∙ h.1) };

    fn take(&mut self, rule: usize, work: &mut WorkList) -> Result<(), AllocError> {
        let prods = self.grm.rule_to_prods(self.grm.rule_at(rule));
        'prods: for index in 0..prods.len() {
            reach_named(self.grm, self.from, prods[index], &mut self.reached, work)?;
        }
        Ok(())
    }
}

/// Returns whether a rule reaches another, with a step for each rule that is taken from the work list.
fn find_path<S: IndexStorage, L: Ledger>(
    alloc: Global,
    grm: &NumberedGrammar<S>,
    from: RIdx<S>,
    to: RIdx<S>,
    steps: &mut Steps<L>,
) -> Result<bool, AllocError>
    requires from { S.number from.0 < grm.now.grammar.rules }
    requires to { S.number to.0 < grm.now.grammar.rules }
    ensures { IfOk result (λ b. IsTrue b ↔ HasPath grm.now.grammar (S.number from.0) (S.number to.0)) }
{
    path_tables_are_exact();
    let rules = grm.rules_len().0.to_usize();
    let reached = Vob::from_elem(alloc, false, rules)?;
    let mut work = WorkList::new(alloc, rules)?;
    work.put(from.0.to_usize())?;
    let mut reaching = Reaching { grm, from, reached };
    fill(&mut reaching, &mut work, steps)?;
    Ok(reaching.reached.get_unchecked(to.0.to_usize()))
}

/// Finds whether there is a path, without a step counter.
fn find_with_blank<S: IndexStorage, L: Ledger>(
    alloc: Global,
    grm: &NumberedGrammar<S>,
    from: RIdx<S>,
    to: RIdx<S>,
    blank: Blank,
) -> Result<bool, AllocError>
    requires from { S.number from.0 < grm.now.grammar.rules }
    requires to { S.number to.0 < grm.now.grammar.rules }
    requires name { blank.name ≡ L.name }
    requires parts { blank.parts ≡ L.parts }
    requires one { blank.parts ≡ 1 }
    ensures { IfOk result (λ b. IsTrue b ↔ HasPath grm.now.grammar (S.number from.0) (S.number to.0)) }
{
    let mut steps = Steps::<L>::new(blank);
    find_path(alloc, grm, from, to, &mut steps)
}
