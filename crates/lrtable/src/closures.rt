//! Closures and goto sets as items that share their sets of lookaheads.

ghost use Rattle.std.specs.Prelude.{◌≡◌, ◌<◌, ℕ, length, IfOk, IsTrue, OnOk};
ghost use Rattle.vob.specs.Sets.{is_set};
ghost use Rattle.cfg_numbered.specs.Symbols.{sym_of};
ghost use Rattle.lr_theory.specs.Itemset.{HasItem, HasLook, Closure, ClosureLook, Goto, GotoLook, Is};
ghost use Rattle.state_table.specs.Adding.{SingleItem, OneLooks};
ghost use Rattle.lrtable.specs.Closers.{IsReady};
ghost use Rattle.lrtable.specs.Stepping.{IsSized, OfRule, OfRuleLooks, OpenBelow, OpenLooksBelow};
ghost use Rattle.state_table.specs.ItemRows.{IsCoreOf, map_of, FitsCore};
ghost use Rattle.state_table.specs.Meeting.{rows_in};
ghost use Rattle.state_table.specs.Sharing.{shared_core, shared_map, PointIn, GrowsBy};
ghost use Rattle.state_table.specs.CoreViews.{core_of_set};

use crate::capacities::opened_room;
use crate::moves::dot_behind;
use crate::opening::{Closer, Opening};
use crate::tails::symbol_after;
use cfg_base::index::IndexStorage;
use cfg_base::symbol::{PIdx, RIdx, SIdx, Symbol};
use cfg_numbered::yacc::NumberedGrammar;
use state_table::cores::{CoreItem, CoreSet};
use state_table::shared_sets::SharedSets;
use state_table::stategraph::same_symbols;
use std::alloc::{AllocError, Global};
use vob::Vob;

/// Returns the closure of a core: its items, each with a set of its own, and the productions of the rules that it
/// opens, with one set for each rule. Successive closures reuse the buffers.
pub(crate) fn closed_by<S: IndexStorage>(
    alloc: Global,
    grm: &NumberedGrammar<S>,
    closer: &mut Closer<'_, S>,
    core: &CoreSet<S>,
) -> Result<SharedSets<S>, AllocError>
    requires ready { IsReady grm.now.grammar closer.old }
    requires fits { FitsCore grm.now.grammar (core_of_set S.number core.now) }
    ensures ready { OnOk result (IsReady grm.now.grammar closer.new) }
    ensures is { IfOk result (λ s. Is (shared_map S.number s) (Closure grm.now.grammar (HasItem (map_of (core_of_set S.number core.now)))) (ClosureLook grm.now.grammar (HasItem (map_of (core_of_set S.number core.now))) (HasLook (map_of (core_of_set S.number core.now))))) }
    ensures core { IfOk result (λ s. IsCoreOf grm.now.grammar.tokens (shared_core S.number s)) }
    ensures within { IfOk result (λ s. PointIn (rows_in s.sets.items) s.entries.items) }
{
    grm.start_prod();
    closer.close(grm, core)?;
    let (rules, productions) = opened_room(closer.counts.as_slice(), &closer.opening);
    let mut set = SharedSets::of_core(alloc, core, rules, productions)?;
    open_rules(&mut set, grm, &closer.opening)?;
    set.fit();
    Ok(set)
}

/// Adds the productions of a rule at dot zero with one set.
fn open_rule<S: IndexStorage>(
    set: &mut SharedSets<S>,
    grm: &NumberedGrammar<S>,
    ridx: RIdx<S>,
    looks: &Vob,
) -> Result<(), AllocError>
    requires rule { S.number ridx.0 < grm.now.grammar.rules }
    requires width { length looks.now.bits ≡ grm.now.grammar.tokens }
    requires core { IsCoreOf grm.now.grammar.tokens (shared_core S.number set.old) }
    requires within { PointIn (rows_in set.old.sets.items) set.old.entries.items }
    ensures { OnOk result (GrowsBy S.number grm.now.grammar.tokens (OfRule grm.now.grammar (S.number ridx.0)) (OfRuleLooks grm.now.grammar (S.number ridx.0) (λ t. IsTrue (is_set looks.now.bits t))) set.old set.new) }
{
    let index = set.set_like(looks)?;
    let prods = grm.rule_to_prods(ridx);
    'prods: for k in 0..prods.len() {
        let dot = SIdx(S::from_usize(0).unwrap());
        let item = CoreItem {
            pidx: prods[k],
            dot,
        };
        set.share(item, index)?;
    }
    Ok(())
}

/// Adds the productions of the open rules at dot zero, those of a rule with one set.
fn open_rules<S: IndexStorage>(
    set: &mut SharedSets<S>,
    grm: &NumberedGrammar<S>,
    opening: &Opening,
) -> Result<(), AllocError>
    requires sizes { IsSized grm.now.grammar opening.now }
    requires core { IsCoreOf grm.now.grammar.tokens (shared_core S.number set.old) }
    requires within { PointIn (rows_in set.old.sets.items) set.old.entries.items }
    ensures { OnOk result (GrowsBy S.number grm.now.grammar.tokens (OpenBelow grm.now.grammar opening.now grm.now.grammar.rules) (OpenLooksBelow grm.now.grammar opening.now grm.now.grammar.rules) set.old set.new) }
{
    'rules: for number in opening.open_rules() {
        open_rule(set, grm, grm.rule_at(number), opening.row(number))?;
    }
    Ok(())
}

/// Moves an item into a set, if the symbol is behind its dot.
fn move_one<S: IndexStorage>(
    grm: &NumberedGrammar<S>,
    moved: &mut SharedSets<S>,
    pidx: PIdx<S>,
    dot: usize,
    looks: &Vob,
    symbol: Symbol<S>,
) -> Result<(), AllocError>
    requires production { S.number pidx.0 < length grm.now.grammar.productions }
    requires core { IsCoreOf (length looks.now.bits) (shared_core S.number moved.old) }
    requires within { PointIn (rows_in moved.old.sets.items) moved.old.entries.items }
    ensures { OnOk result (GrowsBy S.number (length looks.now.bits) (Goto grm.now.grammar (SingleItem (S.number pidx.0) dot) (sym_of S.number symbol)) (GotoLook grm.now.grammar (OneLooks (S.number pidx.0) dot looks.now.bits) (sym_of S.number symbol)) moved.old moved.new) }
{
    match symbol_after(grm, pidx, dot) {
        Some(next) => {
            if !same_symbols(next, symbol) {
                return Ok(());
            }
            let item = CoreItem {
                pidx,
                dot: dot_behind(grm, pidx, dot),
            };
            moved.add(item, looks)?;
            Ok(())
        }
        None => Ok(()),
    }
}

/// Returns the goto set of a symbol.
pub(crate) fn moved_set<S: IndexStorage>(
    alloc: Global,
    grm: &NumberedGrammar<S>,
    set: &SharedSets<S>,
    symbol: &Symbol<S>,
) -> Result<SharedSets<S>, AllocError>
    requires fits { FitsCore grm.now.grammar (shared_core S.number set.now) }
    requires within { PointIn (rows_in set.now.sets.items) set.now.entries.items }
    ensures is { IfOk result (λ s. Is (shared_map S.number s) (Goto grm.now.grammar (HasItem (shared_map S.number set.now)) (sym_of S.number symbol.now)) (GotoLook grm.now.grammar (HasLook (shared_map S.number set.now)) (sym_of S.number symbol.now))) }
    ensures core { IfOk result (λ s. IsCoreOf grm.now.grammar.tokens (shared_core S.number s)) }
    ensures within { IfOk result (λ s. PointIn (rows_in s.sets.items) s.entries.items) }
{
    let symbol = *symbol;
    let mut moved = SharedSets::empty(alloc);
    'items: for k in 0..set.entries.len() {
        let entry = &set.entries[k];
        let looks = &set.sets[entry.set.get()];
        let dot = entry.item.dot.0.to_usize();
        move_one(grm, &mut moved, entry.item.pidx, dot, looks, symbol)?;
    }
    Ok(moved)
}
