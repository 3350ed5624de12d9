//! The rules that the cheapest token lists of one rule need.

ghost use Rattle.std.specs.Prelude.{◌≡◌, ℕ, ◌<◌, IsTrue, IfOk, OnOk, length};
ghost use Rattle.vob.specs.Sets.{is_set};
ghost use Rattle.cfg_sentences.specs.CostTable.{cost_of};
ghost use Rattle.cfg_sentences.specs.CheapestTable.{AreNamedIn, IsHandedOn, Wants};

use super::least::LeastCosts;
use cfg_base::index::IndexStorage;
use cfg_base::steps::Steps;
use cfg_base::symbol::{PIdx, RIdx};
use cfg_sets::paths::reach;
use cfg_sets::work_list::{WorkList, WorkTable, fill};
use std::alloc::{AllocError, Global};
use std::marker::Brand;
use std::sync::ledger::{Blank, Ledger};
use vob::Vob;

/// Puts the rules that a production names into the set. Those that weren't there wait from then on.
fn want_named<S: IndexStorage>(
    least: &LeastCosts<S>,
    pidx: PIdx<S>,
    wanted: &mut Vob,
    work: &mut WorkList,
) -> Result<(), AllocError>
    requires production { S.number pidx.0 < length least.now.grammar.productions }
    requires width { length wanted.old.bits ≡ least.now.grammar.rules }
    requires work { work.old.rules ≡ least.now.grammar.rules }
    ensures width { OnOk result (length wanted.new.bits ≡ least.now.grammar.rules) }
    ensures wants { OnOk result (Wants least.now.grammar (cost_of least.now.costs) least.now.table wanted.old.bits wanted.new.bits work.old work.new) }
    ensures here { OnOk result (AreNamedIn least.now.grammar (S.number pidx.0) wanted.new.bits) }
{
    least.stays_well_formed();
    let symbols = least.prod(pidx);
    'symbols: for index in 0..symbols.len() {
        reach(symbols[index], wanted, work)?;
    }
    Ok(())
}

/// Marks the rules that a production names as needed, if it gives its rule the least cost.
fn want_by<S: IndexStorage>(
    least: &LeastCosts<S>,
    pidx: PIdx<S>,
    wanted: &mut Vob,
    work: &mut WorkList,
) -> Result<(), AllocError>
    requires production { S.number pidx.0 < length least.now.grammar.productions }
    requires width { length wanted.old.bits ≡ least.now.grammar.rules }
    requires work { work.old.rules ≡ least.now.grammar.rules }
    ensures width { OnOk result (length wanted.new.bits ≡ least.now.grammar.rules) }
    ensures wants { OnOk result (Wants least.now.grammar (cost_of least.now.costs) least.now.table wanted.old.bits wanted.new.bits work.old work.new) }
    ensures here { OnOk result (IsHandedOn least.now.grammar (cost_of least.now.costs) least.now.table (S.number pidx.0) wanted.new.bits) }
{
    if !least.gives_least(pidx) {
        return Ok(());
    }
    want_named(least, pidx, wanted, work)?;
    Ok(())
}

/// The rules that cheapest lists need, as they are found.
#[derive(Drop)]
struct Wanting<'t, 'a, S: IndexStorage> {
    least: &'t LeastCosts<'a, S>,
    wanted: Vob,
}

impl<'t, 'a, S: IndexStorage> WorkTable for Wanting<'t, 'a, S> {
    ghost use Rattle.std.specs.Prelude.{◌≡◌, length, refl};
    ghost use Rattle.std.proofs.Common.{◌∙◌};
    ghost use Rattle.vob.specs.Sets.{missing};
    ghost use Rattle.cfg_sentences.specs.CostTable.{cost_of};
    ghost use Rattle.cfg_sentences.specs.CheapestTable.{AreKept, AreHandedOnBut};

    ghost rules = { λ s. s.least.now.grammar.rules };

    ghost is_sound = { λ s. length s.wanted.bits ≡ s.least.now.grammar.rules };

    ghost room = { λ s. missing s.wanted.bits };

    ghost is_closed_but = { λ s list. AreHandedOnBut s.least.now.grammar (cost_of s.least.now.costs) s.least.now.table s.wanted.bits list };

    ghost is_of_same = { λ s t. (t.least.now ≡ s.least.now) × AreKept s.wanted.bits t.wanted.bits };

    ghost same_refl = { λ s. (refl, λ B h. h) };

    ghost same_trans = { λ s t u h k. (k.0 ∙ h.0, λ B x. k.1 B (h.1 B x)) };

    fn take(&mut self, rule: usize, work: &mut WorkList) -> Result<(), AllocError> {
        let prods = self.least.rule_to_prods(self.least.rule_at(rule));
        'prods: for index in 0..prods.len() {
            want_by(self.least, prods[index], &mut self.wanted, work)?;
        }
        Ok(())
    }
}

/// Returns the rule, and each rule that productions of the set's rules name, where they give these the least cost.
pub(crate) fn wanted_rules<S: IndexStorage>(
    alloc: Global,
    least: &LeastCosts<S>,
    ridx: RIdx<S>,
) -> Result<Vob, AllocError>
    requires rule { S.number ridx.0 < least.now.grammar.rules }
    ensures width { IfOk result (λ v. length v.bits ≡ least.now.grammar.rules) }
    ensures rule { IfOk result (λ v. IsTrue (is_set v.bits (S.number ridx.0))) }
    ensures handed_on { IfOk result (λ v. (p : ℕ) → p < length least.now.grammar.productions → IsHandedOn least.now.grammar (cost_of least.now.costs) least.now.table p v.bits) }
{
    find_with_blank::<S, Brand>(alloc, least, ridx, Blank::new(1))
}

/// Finds the needed rules, with a step for each rule that is taken from the work list.
fn find_wanted<S: IndexStorage, L: Ledger>(
    alloc: Global,
    least: &LeastCosts<S>,
    ridx: RIdx<S>,
    steps: &mut Steps<L>,
) -> Result<Vob, AllocError>
    requires rule { S.number ridx.0 < least.now.grammar.rules }
    ensures width { IfOk result (λ v. length v.bits ≡ least.now.grammar.rules) }
    ensures rule { IfOk result (λ v. IsTrue (is_set v.bits (S.number ridx.0))) }
    ensures handed_on { IfOk result (λ v. (p : ℕ) → p < length least.now.grammar.productions → IsHandedOn least.now.grammar (cost_of least.now.costs) least.now.table p v.bits) }
{
    let rules = least.rules_len().0.to_usize();
    let rule = ridx.0.to_usize();
    let mut wanted = Vob::from_elem(alloc, false, rules)?;
    wanted.set(rule, true);
    let mut work = WorkList::new(alloc, rules)?;
    work.put(rule)?;
    let mut wanting = Wanting { least, wanted };
    fill(&mut wanting, &mut work, steps)?;
    Ok(wanting.wanted)
}

/// Finds the needed rules without a step counter.
fn find_with_blank<S: IndexStorage, L: Ledger>(
    alloc: Global,
    least: &LeastCosts<S>,
    ridx: RIdx<S>,
    blank: Blank,
) -> Result<Vob, AllocError>
    requires rule { S.number ridx.0 < least.now.grammar.rules }
    requires name { blank.name ≡ L.name }
    requires parts { blank.parts ≡ L.parts }
    requires one { blank.parts ≡ 1 }
    ensures width { IfOk result (λ v. length v.bits ≡ least.now.grammar.rules) }
    ensures rule { IfOk result (λ v. IsTrue (is_set v.bits (S.number ridx.0))) }
    ensures handed_on { IfOk result (λ v. (p : ℕ) → p < length least.now.grammar.productions → IsHandedOn least.now.grammar (cost_of least.now.costs) least.now.table p v.bits) }
{
    let mut steps = Steps::<L>::new(blank);
    find_wanted(alloc, least, ridx, &mut steps)
}
