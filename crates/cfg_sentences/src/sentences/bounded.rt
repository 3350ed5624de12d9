//! Groups of rules whose productions name no rule of a set, except rules of the group where nothing else costs
//! anything. Such a group is bounded if all rules outside of the set are, so it leaves the set at once, without a
//! round.

ghost use Rattle.std.specs.Prelude.{◌≡◌, ℕ, ◌<◌, ◌≤◌, false, IsTrue, OnOk, length, slice_set};
ghost use Rattle.cfg_theory.specs.Grammar.{IsOf};
ghost use Rattle.cfg_theory.specs.Greatest.{IsBoundedBy};
ghost use Rattle.cfg_sentences.specs.CostTable.{cost_of};
ghost use Rattle.vob.specs.Sets.{is_set};
ghost use Rattle.cfg_sentences.specs.Greatest.{Settles, AreSettled, TakesOut, PutsBack, Covers, AreOut, held};

use super::groups::{gather, left_behind};
use super::kept_costs::KeptCosts;
use super::unbounded::{names_kept, put_rule};
use cfg_base::index::IndexStorage;
use cfg_base::symbol::{PIdx, RIdx};
use cfg_sets::naming::Naming;
use cfg_theory::cost::unbounded_rules_gain;
use std::alloc::{AllocError, Global};
use vob::Vob;

/// Returns whether a production can't be used, or names no rule of the set; of the rest, where no two of its symbols
/// cost something.
fn settles<S: IndexStorage>(costly: &KeptCosts<S>, pidx: PIdx<S>, set: &Vob, rest: &Vob) -> bool
    requires production { S.number pidx.0 < length costly.now.grammar.productions }
    requires width { length set.now.bits ≡ costly.now.grammar.rules }
    requires rest_width { length rest.now.bits ≡ costly.now.grammar.rules }
    ensures { IsTrue result → Settles costly.now.grammar (cost_of costly.now.costs) costly.now.table set.now.bits rest.now.bits (S.number pidx.0) }
{
    let Some(cost) = costly.body_cost(pidx) else {
        return true;
    };
    !names_kept(costly, pidx, cost, set, rest)
}

/// Returns whether all productions of a rule do so.
fn is_settled<S: IndexStorage>(costly: &KeptCosts<S>, ridx: RIdx<S>, set: &Vob, rest: &Vob) -> bool
    requires rule { S.number ridx.0 < costly.now.grammar.rules }
    requires width { length set.now.bits ≡ costly.now.grammar.rules }
    requires rest_width { length rest.now.bits ≡ costly.now.grammar.rules }
    ensures { IsTrue result → (p : ℕ) → IsOf costly.now.grammar p (S.number ridx.0) → Settles costly.now.grammar (cost_of costly.now.costs) costly.now.table set.now.bits rest.now.bits p }
{
    let prods = costly.rule_to_prods(ridx);
    'prods: for index in 0..prods.len() {
        if !settles(costly, prods[index], set, rest) {
            return false;
        }
    }
    true
}

/// Returns whether all rules of a group do so.
fn are_settled<S: IndexStorage>(
    costly: &KeptCosts<S>,
    group: &[usize],
    set: &Vob,
    rest: &Vob,
) -> bool
    requires width { length set.now.bits ≡ costly.now.grammar.rules }
    requires rest_width { length rest.now.bits ≡ costly.now.grammar.rules }
    ensures { IsTrue result → AreSettled costly.now.grammar (cost_of costly.now.costs) costly.now.table set.now.bits rest.now.bits group.now (length group.now) }
{
    let rules = costly.rules_len().0.to_usize();
    'rules: for index in 0..group.len() {
        let rule = group[index];
        if rules <= rule {
            return false;
        }
        if !is_settled(costly, costly.rule_at(rule), set, rest) {
            return false;
        }
    }
    true
}

fn take_one(rule: usize, set: &mut Vob)
    ensures within { rule < length set.old.bits → set.new.bits ≡ slice_set set.old.bits rule false }
    ensures past { length set.old.bits ≤ rule → set.new.bits ≡ set.old.bits }
{
    if rule < set.len() {
        set.set(rule, false);
    }
}

/// Takes rules out of a set.
pub(super) fn take_out(group: &[usize], set: &mut Vob)
    ensures { TakesOut group.now (length group.now) set.old.bits set.new.bits }
{
    'rules: for index in 0..group.len() {
        take_one(group[index], set);
    }
}

/// Puts a rule back into the rest, if the set has it.
fn put_back(rule: usize, set: &Vob, rest: &mut Vob)
    requires { length rest.old.bits ≡ length set.now.bits }
    ensures width { length rest.new.bits ≡ length rest.old.bits }
    ensures grows { (R : ℕ) → is_set rest.new.bits R ≡ false → is_set rest.old.bits R ≡ false }
    ensures back { is_set rest.new.bits rule ≡ false → is_set set.now.bits rule ≡ false }
{
    match set.get(rule) {
        Some(true) => {
            put_rule(rule, rest);
        }
        Some(false) => {}
        None => {}
    }
}

/// Puts those rules back into the rest that the set has.
fn put_all_back(group: &[usize], set: &Vob, rest: &mut Vob)
    requires { length rest.old.bits ≡ length set.now.bits }
    ensures { PutsBack group.now (length group.now) set.now.bits rest.old.bits rest.new.bits }
{
    'rules: for index in 0..group.len() {
        put_back(group[index], set, rest);
    }
}

/// Takes such a group out of the set. The rest has what the set has, on both sides of the call.
fn take_group<S: IndexStorage>(
    costly: &KeptCosts<S>,
    group: &[usize],
    set: &mut Vob,
    rest: &mut Vob,
)
    requires width { length set.old.bits ≡ costly.now.grammar.rules }
    requires rest_width { length rest.old.bits ≡ costly.now.grammar.rules }
    requires covers { Covers rest.old.bits set.old.bits }
    requires out { AreOut costly.now.grammar (cost_of costly.now.costs) costly.now.table set.old.bits }
    requires bounded { (n : ℕ) × IsBoundedBy costly.now.grammar (cost_of costly.now.costs) (is_set set.old.bits) n }
    ensures width { length set.new.bits ≡ costly.now.grammar.rules }
    ensures rest_width { length rest.new.bits ≡ costly.now.grammar.rules }
    ensures covers { Covers rest.new.bits set.new.bits }
    ensures out { AreOut costly.now.grammar (cost_of costly.now.costs) costly.now.table set.new.bits }
    ensures bounded { (n : ℕ) × IsBoundedBy costly.now.grammar (cost_of costly.now.costs) (is_set set.new.bits) n }
    ensures held { held set.new.bits ≤ held set.old.bits }
{
    unbounded_rules_gain();
    costly.stays_kept();
    take_out(group, rest);
    if are_settled(costly, group, set, rest) {
        take_out(group, set);
        return;
    }
    put_all_back(group, set, rest);
}

/// Takes such groups out, each behind the groups that it leads on to.
pub(super) fn settle<S: IndexStorage>(
    alloc: Global,
    costly: &KeptCosts<S>,
    naming: &Naming,
    set: &mut Vob,
) -> Result<(), AllocError>
    requires naming { length naming.now ≡ costly.now.grammar.rules }
    requires width { length set.old.bits ≡ costly.now.grammar.rules }
    requires out { AreOut costly.now.grammar (cost_of costly.now.costs) costly.now.table set.old.bits }
    requires bounded { (n : ℕ) × IsBoundedBy costly.now.grammar (cost_of costly.now.costs) (is_set set.old.bits) n }
    ensures width { OnOk result (length set.new.bits ≡ costly.now.grammar.rules) }
    ensures out { OnOk result (AreOut costly.now.grammar (cost_of costly.now.costs) costly.now.table set.new.bits) }
    ensures bounded { OnOk result ((n : ℕ) × IsBoundedBy costly.now.grammar (cost_of costly.now.costs) (is_set set.new.bits) n) }
    ensures held { OnOk result (held set.new.bits ≤ held set.old.bits) }
{
    let order = left_behind(alloc, costly, naming)?;
    let mut rest = set.clone()?;
    let mut seen = Vob::from_elem(alloc, false, costly.rules_len().0.to_usize())?;
    'rules: for index in 0..order.len() {
        let rule = order[order.len() - 1 - index];
        let group = gather(alloc, costly, rule, &mut seen)?;
        take_group(costly, group.as_slice(), set, &mut rest);
    }
    Ok(())
}
