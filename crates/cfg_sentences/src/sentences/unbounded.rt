//! The unbounded rules: those left of all rules when each round retains the ones from which a rule of the last round
//! is reached, with tokens beside it that cost something.

ghost use Rattle.std.specs.Prelude.{◌≡◌, ℕ, ◌<◌, ◌≤◌, ◌↔◌, true, false, IsTrue, IfOk, MatchOption, length, slice_set};
ghost use Rattle.cfg_theory.specs.Grammar.{rule, IsNext};
ghost use Rattle.cfg_theory.specs.Greatest.{AreUnbounded};
ghost use Rattle.cfg_sentences.specs.CostTable.{cost_of};
ghost use Rattle.vob.specs.Sets.{is_set, missing};
ghost use Rattle.cfg_sets.specs.WorkLists.{ListsNaming, TakesIn};
ghost use Rattle.cfg_sets.specs.Orders.{IsOrder};
ghost use Rattle.cfg_sentences.specs.Greatest.{AreGaining, IsNarrowedBy};

use super::bounded::settle;
use super::dirty_productions::closed_by_prods;
use super::kept_costs::KeptCosts;
use crate::by_prods::ProdTable;
use cfg_base::index::IndexStorage;
use cfg_base::symbol::PIdx;
use cfg_sets::naming::Naming;
use cfg_sets::orders::Order;
use cfg_theory::cost::unbounded_rules_gain;
use std::alloc::{AllocError, Global};
use vob::Vob;

/// Returns whether a production whose symbols cost so much names a rule that its own rule is stored for.
pub(super) fn names_kept<S: IndexStorage>(
    costly: &KeptCosts<S>,
    pidx: PIdx<S>,
    cost: u32,
    old: &Vob,
    new: &Vob,
) -> bool
    requires production { S.number pidx.0 < length costly.now.grammar.productions }
    requires old_width { length old.now.bits ≡ costly.now.grammar.rules }
    requires new_width { length new.now.bits ≡ costly.now.grammar.rules }
    ensures several { 2 ≤ cost → IsTrue result → (d : ℕ) × (R : ℕ) × IsNext costly.now.grammar (S.number pidx.0) d (rule R) × IsTrue (is_set old.now.bits R) }
    ensures single { cost < 2 → IsTrue result → (d : ℕ) × (R : ℕ) × IsNext costly.now.grammar (S.number pidx.0) d (rule R) × IsTrue (is_set new.now.bits R) }
    ensures none_old { 2 ≤ cost → result ≡ false → (d R : ℕ) → IsNext costly.now.grammar (S.number pidx.0) d (rule R) → is_set old.now.bits R ≡ false }
    ensures none_new { cost < 2 → result ≡ false → (d R : ℕ) → IsNext costly.now.grammar (S.number pidx.0) d (rule R) → is_set new.now.bits R ≡ false }
{
    if cost < 2 {
        return costly.names_any(pidx, new);
    }
    costly.names_any(pidx, old)
}

/// Puts a rule into a set, and gives it where it wasn't there.
pub(super) fn put_rule(rule: usize, set: &mut Vob) -> Option<usize>
    requires { rule < length set.old.bits }
    ensures bits { set.new.bits ≡ slice_set set.old.bits rule true }
    ensures told { MatchOption result (is_set set.old.bits rule ≡ true) (λ A. (A ≡ rule) × (is_set set.old.bits rule ≡ false)) }
{
    if set.set(rule, true) {
        return Some(rule);
    }
    None
}

/// Takes in one production, and gives its rule where that put it into the new set.
fn take_prod<S: IndexStorage>(
    costly: &KeptCosts<S>,
    old: &Vob,
    number: usize,
    new: &mut Vob,
) -> Option<usize>
    requires production { number < length costly.now.grammar.productions }
    requires old_width { length old.now.bits ≡ costly.now.grammar.rules }
    requires width { length new.old.bits ≡ costly.now.grammar.rules }
    requires sound { AreGaining costly.now.grammar (cost_of costly.now.costs) old.now.bits new.old.bits }
    ensures width { length new.new.bits ≡ costly.now.grammar.rules }
    ensures sound { AreGaining costly.now.grammar (cost_of costly.now.costs) old.now.bits new.new.bits }
    ensures takes { TakesIn costly.now.grammar missing (λ b p. IsNarrowedBy costly.now.grammar (cost_of costly.now.costs) costly.now.table old.now.bits p b) number new.old.bits new.new.bits result }
{
    costly.stays_well_formed();
    costly.stays_kept();
    let pidx = costly.prod_at(number);
    let Some(cost) = costly.body_cost(pidx) else {
        return None;
    };
    if !names_kept(costly, pidx, cost, old, new) {
        return None;
    }
    put_rule(costly.prod_to_rule(pidx).0.to_usize(), new)
}

/// The rules that lead on to one of a set with a gain, as they are found.
#[derive(Drop)]
struct Narrowing<'t, 'u, 'a, S: IndexStorage> {
    costly: &'t KeptCosts<'u, 'a, S>,
    old: &'t Vob,
    new: Vob,
}

impl<'t, 'u, 'a, S: IndexStorage> ProdTable for Narrowing<'t, 'u, 'a, S> {
    ghost use Rattle.std.specs.Prelude.{◌≡◌, length, refl};
    ghost use Rattle.std.proofs.Common.{◌∙◌};
    ghost use Rattle.vob.specs.Sets.{missing};
    ghost use Rattle.cfg_sentences.specs.CostTable.{cost_of};
    ghost use Rattle.cfg_sentences.specs.Greatest.{AreGaining, IsNarrowedBy};

    ghost grammar = { λ s. s.costly.now.grammar };

    ghost is_sound = { λ s. (length s.old.now.bits ≡ s.costly.now.grammar.rules) × (length s.new.bits ≡ s.costly.now.grammar.rules) × AreGaining s.costly.now.grammar (cost_of s.costly.now.costs) s.old.now.bits s.new.bits };

    ghost room = { λ s. missing s.new.bits };

    ghost is_closed_by = { λ s p. IsNarrowedBy s.costly.now.grammar (cost_of s.costly.now.costs) s.costly.now.table s.old.now.bits p s.new.bits };

    ghost is_of_same = { λ s t. (t.costly.now ≡ s.costly.now) × (t.old.now ≡ s.old.now) };

    ghost same_refl = { λ s. (refl, refl) };

    ghost same_trans = { λ s t u h k. (k.0 ∙ h.0, k.1 ∙ h.1) };

    fn take_prod(&mut self, number: usize) -> Result<Option<usize>, AllocError> {
        let (costly, old) = (self.costly, self.old);
        Ok(take_prod(costly, old, number, &mut self.new))
    }
}

/// Returns the rules that lead on to one of the set with a gain.
fn rules_before<S: IndexStorage>(
    alloc: Global,
    costly: &KeptCosts<S>,
    naming: &Naming,
    order: &Order,
    old: &Vob,
) -> Result<Vob, AllocError>
    requires naming { ListsNaming costly.now.grammar (length costly.now.grammar.productions) naming.now }
    requires order { IsOrder (length costly.now.grammar.productions) order.now }
    requires old_width { length old.now.bits ≡ costly.now.grammar.rules }
    ensures width { IfOk result (λ v. length v.bits ≡ costly.now.grammar.rules) }
    ensures sound { IfOk result (λ v. AreGaining costly.now.grammar (cost_of costly.now.costs) old.now.bits v.bits) }
    ensures closed { IfOk result (λ v. (p : ℕ) → p < length costly.now.grammar.productions → IsNarrowedBy costly.now.grammar (cost_of costly.now.costs) costly.now.table old.now.bits p v.bits) }
{
    let new = Vob::from_elem(alloc, false, costly.rules_len().0.to_usize())?;
    let table = Narrowing { costly, old, new };
    let prods = costly.prods_len().0.to_usize();
    let closed = closed_by_prods(alloc, order, naming, prods, table)?;
    Ok(closed.new)
}

/// Returns the unbounded rules, where `costly` says which rules derive a token list, and one that costs something.
pub(super) fn unbounded_rules<S: IndexStorage>(
    alloc: Global,
    costly: &KeptCosts<S>,
    naming: &Naming,
    order: &Order,
) -> Result<Vob, AllocError>
    requires naming { ListsNaming costly.now.grammar (length costly.now.grammar.productions) naming.now }
    requires order { IsOrder (length costly.now.grammar.productions) order.now }
    ensures width { IfOk result (λ v. length v.bits ≡ costly.now.grammar.rules) }
    ensures unbounded { IfOk result (λ v. AreUnbounded costly.now.grammar (cost_of costly.now.costs) (is_set v.bits)) }
{
    unbounded_rules_gain();
    costly.stays_well_formed();
    costly.stays_kept();
    let rules = costly.rules_len().0.to_usize();
    let mut kept = Vob::from_elem(alloc, true, rules)?;
    'rounds: loop {
        settle(alloc, costly, naming, &mut kept)?;
        let new = rules_before(alloc, costly, naming, order, &kept)?;
        if !kept.and(&new) {
            return Ok(kept);
        }
    }
}
