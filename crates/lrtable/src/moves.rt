//! The sets to which the items of a closed state move: one for each symbol, rules before tokens.

ghost use Rattle.std.specs.Prelude.{◌≡◌, ◌<◌, ◌≤◌, ◌+◌, ℕ, List, length, map, IfOk, OnOk, IsTrue};
ghost use Rattle.cfg_theory.specs.Grammar.{InRange, body_of};
ghost use Rattle.vob.specs.Sets.{is_set};
ghost use Rattle.cfg_numbered.specs.Symbols.{sym_of};
ghost use Rattle.lr_theory.specs.Itemset.{HasItem, HasLook, Closure, ClosureLook};
ghost use Rattle.state_table.specs.Adding.{SingleItem, OneLooks};
ghost use Rattle.lrtable.specs.Closes.{AreFronts};
ghost use Rattle.lrtable.specs.Gaining.{AreMarked, AreSymbolSets, Gains, KeepsMarks};
ghost use Rattle.lrtable.specs.Handling.{rank};
ghost use Rattle.state_table.specs.ItemRows.{map_of, FitsCore};
ghost use Rattle.lrtable.specs.Opening.{Front};
ghost use Rattle.state_table.specs.Meeting.{rows_in};
ghost use Rattle.lrtable.specs.MovedItems.{AreEmpty, HaveNone, IsKernel, row_from, set_of_moved};
ghost use Rattle.state_table.specs.CoreViews.{core_of_set};
ghost use Rattle.lrtable.specs.Stepping.{IsSized, IsClosureOf, OfRule, OfRuleLooks, OpenAt, OpenLooksAt, OpenBelow, OpenLooksBelow, AreGotos};

use crate::flags::Flags;
use crate::moved_items::{MovedItem, Rows, Source, insert_moved, put_moved};
use crate::tails::symbol_after;
use cfg_base::index::IndexStorage;
use cfg_base::symbol::{PIdx, RIdx, SIdx, Symbol};
use cfg_numbered::yacc::NumberedGrammar;
use state_table::cores::{CoreItem, CoreSet};
use std::alloc::{AllocError, Global};

/// Returns the rank of a symbol among all: rules before tokens.
pub(crate) fn rank_of<S: IndexStorage>(grm: &NumberedGrammar<S>, symbol: Symbol<S>) -> usize
    ensures { result ≡ rank grm.now.grammar (sym_of S.number symbol) }
{
    match symbol {
        Symbol::Rule(rule) => rule.0.to_usize(),
        Symbol::Token(token) => grm.rules_len().0.to_usize() + token.0.to_usize(),
    }
}

/// Returns the symbol of a rank.
pub(crate) fn symbol_at<S: IndexStorage>(grm: &NumberedGrammar<S>, number: usize) -> Symbol<S>
    requires { number < grm.now.grammar.rules + grm.now.grammar.tokens }
    ensures rank { rank grm.now.grammar (sym_of S.number result) ≡ number }
    ensures range { InRange grm.now.grammar (sym_of S.number result) }
{
    let rules = grm.rules_len().0.to_usize();
    if number < rules {
        return Symbol::Rule(grm.rule_at(number));
    }
    Symbol::Token(grm.token_at(number - rules))
}

/// Returns the dot behind a symbol of a production.
pub(crate) fn dot_behind<S: IndexStorage>(
    grm: &NumberedGrammar<S>,
    pidx: PIdx<S>,
    dot: usize,
) -> SIdx<S>
    requires production { S.number pidx.0 < length grm.now.grammar.productions }
    requires dot { dot < length (body_of grm.now.grammar (S.number pidx.0)) }
    ensures { S.number result.0 ≡ dot + 1 }
{
    let _len = grm.prod_len(pidx).0.to_usize();
    SIdx(S::from_usize(dot + 1).unwrap())
}

/// Moves an item over the symbol behind its dot, if there is one, into the set of that symbol. Its lookaheads are at
/// the source among the rows, of which nothing is read here.
fn move_over<S: IndexStorage>(
    grm: &NumberedGrammar<S>,
    sets: &mut Vec<Vec<MovedItem<S>>>,
    marks: &mut Flags,
    rows: &Rows<'_>,
    item: &CoreItem<S>,
    source: Source,
) -> Result<(), AllocError>
    requires production { S.number item.now.pidx.0 < length grm.now.grammar.productions }
    requires sets { AreSymbolSets grm.now.grammar marks.old.bits (map (set_of_moved S.number rows.now) sets.old.items) }
    requires width { length (row_from rows.now source) ≡ grm.now.grammar.tokens }
    requires fresh { HaveNone grm.now.grammar (SingleItem (S.number item.now.pidx.0) (S.number item.now.dot.0)) (map (set_of_moved S.number rows.now) sets.old.items) }
    ensures gains { OnOk result (Gains grm.now.grammar (SingleItem (S.number item.now.pidx.0) (S.number item.now.dot.0)) (OneLooks (S.number item.now.pidx.0) (S.number item.now.dot.0) (row_from rows.now source)) (map (set_of_moved S.number rows.now) sets.old.items) (map (set_of_moved S.number rows.now) sets.new.items)) }
    ensures marks { OnOk result (KeepsMarks marks.old.bits (map (set_of_moved S.number rows.now) sets.old.items) marks.new.bits (map (set_of_moved S.number rows.now) sets.new.items)) }
{
    grm.start_prod();
    let pidx = item.pidx;
    let dot = item.dot.0.to_usize();
    match symbol_after(grm, pidx, dot) {
        Some(symbol) => {
            let item = CoreItem {
                pidx,
                dot: dot_behind(grm, pidx, dot),
            };
            let number = rank_of(grm, symbol);
            marks.set(number);
            let set = &mut sets[number];
            insert_moved(set, MovedItem { item, source })?;
            Ok(())
        }
        None => Ok(()),
    }
}

/// Moves a production at dot zero over its first symbol, if it has one, into the set of that symbol.
fn move_first<S: IndexStorage>(
    grm: &NumberedGrammar<S>,
    sets: &mut Vec<Vec<MovedItem<S>>>,
    marks: &mut Flags,
    rows: &Rows<'_>,
    pidx: PIdx<S>,
    source: Source,
) -> Result<(), AllocError>
    requires production { S.number pidx.0 < length grm.now.grammar.productions }
    requires sets { AreSymbolSets grm.now.grammar marks.old.bits (map (set_of_moved S.number rows.now) sets.old.items) }
    requires width { length (row_from rows.now source) ≡ grm.now.grammar.tokens }
    requires fresh { HaveNone grm.now.grammar (SingleItem (S.number pidx.0) 0) (map (set_of_moved S.number rows.now) sets.old.items) }
    ensures gains { OnOk result (Gains grm.now.grammar (SingleItem (S.number pidx.0) 0) (OneLooks (S.number pidx.0) 0 (row_from rows.now source)) (map (set_of_moved S.number rows.now) sets.old.items) (map (set_of_moved S.number rows.now) sets.new.items)) }
    ensures marks { OnOk result (KeepsMarks marks.old.bits (map (set_of_moved S.number rows.now) sets.old.items) marks.new.bits (map (set_of_moved S.number rows.now) sets.new.items)) }
{
    grm.start_prod();
    match symbol_after(grm, pidx, 0) {
        Some(symbol) => {
            let item = CoreItem {
                pidx,
                dot: dot_behind(grm, pidx, 0),
            };
            let rank = rank_of(grm, symbol);
            marks.set(rank);
            let set = &mut sets[rank];
            put_moved(set, MovedItem { item, source })?;
            Ok(())
        }
        None => Ok(()),
    }
}

/// Moves the items of a core.
fn move_core<S: IndexStorage>(
    grm: &NumberedGrammar<S>,
    sets: &mut Vec<Vec<MovedItem<S>>>,
    marks: &mut Flags,
    rows: &Rows<'_>,
    core: &CoreSet<S>,
) -> Result<(), AllocError>
    requires fits { FitsCore grm.now.grammar (core_of_set S.number core.now) }
    requires sets { AreSymbolSets grm.now.grammar marks.old.bits (map (set_of_moved S.number rows.now) sets.old.items) }
    requires own { rows.now.own ≡ rows_in core.now.looks.items }
    requires fresh { HaveNone grm.now.grammar (HasItem (map_of (core_of_set S.number core.now))) (map (set_of_moved S.number rows.now) sets.old.items) }
    ensures gains { OnOk result (Gains grm.now.grammar (HasItem (map_of (core_of_set S.number core.now))) (HasLook (map_of (core_of_set S.number core.now))) (map (set_of_moved S.number rows.now) sets.old.items) (map (set_of_moved S.number rows.now) sets.new.items)) }
    ensures marks { OnOk result (KeepsMarks marks.old.bits (map (set_of_moved S.number rows.now) sets.old.items) marks.new.bits (map (set_of_moved S.number rows.now) sets.new.items)) }
{
    'items: for k in 0..core.items.len() {
        let item = &core.items[k];
        let source = Source::Own(k);
        move_over(grm, sets, marks, rows, item, source)?;
    }
    Ok(())
}

/// Moves the productions of a rule from dot zero.
fn move_rule<S: IndexStorage>(
    grm: &NumberedGrammar<S>,
    sets: &mut Vec<Vec<MovedItem<S>>>,
    marks: &mut Flags,
    rows: &Rows<'_>,
    ridx: RIdx<S>,
    source: Source,
) -> Result<(), AllocError>
    requires rule { S.number ridx.0 < grm.now.grammar.rules }
    requires sets { AreSymbolSets grm.now.grammar marks.old.bits (map (set_of_moved S.number rows.now) sets.old.items) }
    requires width { length (row_from rows.now source) ≡ grm.now.grammar.tokens }
    requires fresh { HaveNone grm.now.grammar (OfRule grm.now.grammar (S.number ridx.0)) (map (set_of_moved S.number rows.now) sets.old.items) }
    ensures gains { OnOk result (Gains grm.now.grammar (OfRule grm.now.grammar (S.number ridx.0)) (OfRuleLooks grm.now.grammar (S.number ridx.0) (λ t. IsTrue (is_set (row_from rows.now source) t))) (map (set_of_moved S.number rows.now) sets.old.items) (map (set_of_moved S.number rows.now) sets.new.items)) }
    ensures marks { OnOk result (KeepsMarks marks.old.bits (map (set_of_moved S.number rows.now) sets.old.items) marks.new.bits (map (set_of_moved S.number rows.now) sets.new.items)) }
{
    let prods = grm.rule_to_prods(ridx);
    'prods: for k in 0..prods.len() {
        move_first(grm, sets, marks, rows, prods[k], source)?;
    }
    Ok(())
}

/// Moves the productions of a rule from dot zero, if the rule is open.
fn move_if_open<S: IndexStorage>(
    grm: &NumberedGrammar<S>,
    sets: &mut Vec<Vec<MovedItem<S>>>,
    marks: &mut Flags,
    rows: &Rows<'_>,
    number: usize,
) -> Result<(), AllocError>
    requires rule { number < grm.now.grammar.rules }
    requires sizes { IsSized grm.now.grammar rows.now.opening }
    requires sets { AreSymbolSets grm.now.grammar marks.old.bits (map (set_of_moved S.number rows.now) sets.old.items) }
    requires fresh { HaveNone grm.now.grammar (OpenAt grm.now.grammar rows.now.opening number) (map (set_of_moved S.number rows.now) sets.old.items) }
    ensures gains { OnOk result (Gains grm.now.grammar (OpenAt grm.now.grammar rows.now.opening number) (OpenLooksAt grm.now.grammar rows.now.opening number) (map (set_of_moved S.number rows.now) sets.old.items) (map (set_of_moved S.number rows.now) sets.new.items)) }
    ensures marks { OnOk result (KeepsMarks marks.old.bits (map (set_of_moved S.number rows.now) sets.old.items) marks.new.bits (map (set_of_moved S.number rows.now) sets.new.items)) }
{
    if !rows.is_open(number) {
        return Ok(());
    }
    let _looks = rows.of_rule(number);
    move_rule(
        grm,
        sets,
        marks,
        rows,
        grm.rule_at(number),
        Source::Rule(number),
    )?;
    Ok(())
}

/// Moves the productions of the open rules from dot zero.
fn move_open<S: IndexStorage>(
    grm: &NumberedGrammar<S>,
    sets: &mut Vec<Vec<MovedItem<S>>>,
    marks: &mut Flags,
    rows: &Rows<'_>,
) -> Result<(), AllocError>
    requires sizes { IsSized grm.now.grammar rows.now.opening }
    requires sets { AreSymbolSets grm.now.grammar marks.old.bits (map (set_of_moved S.number rows.now) sets.old.items) }
    requires fresh { HaveNone grm.now.grammar (OpenBelow grm.now.grammar rows.now.opening grm.now.grammar.rules) (map (set_of_moved S.number rows.now) sets.old.items) }
    ensures gains { OnOk result (Gains grm.now.grammar (OpenBelow grm.now.grammar rows.now.opening grm.now.grammar.rules) (OpenLooksBelow grm.now.grammar rows.now.opening grm.now.grammar.rules) (map (set_of_moved S.number rows.now) sets.old.items) (map (set_of_moved S.number rows.now) sets.new.items)) }
    ensures marks { OnOk result (KeepsMarks marks.old.bits (map (set_of_moved S.number rows.now) sets.old.items) marks.new.bits (map (set_of_moved S.number rows.now) sets.new.items)) }
{
    'rules: for number in rows.open_flags().iter() {
        move_if_open(grm, sets, marks, rows, number)?;
    }
    Ok(())
}

/// Makes `count` sets without items.
pub(crate) fn empty_sets<S: IndexStorage>(
    alloc: Global,
    count: usize,
) -> Result<Vec<Vec<MovedItem<S>>>, AllocError>
    ensures { IfOk result (λ v. AreEmpty count v.items) }
{
    let mut sets = Vec::new(alloc);
    'sets: for _ in 0..count {
        sets.push(Vec::new(alloc))?;
    }
    Ok(sets)
}

/// Makes empty sets, one for each symbol, the goto sets of a closed core.
pub(crate) fn goto_sets<S: IndexStorage>(
    grm: &NumberedGrammar<S>,
    core: &CoreSet<S>,
    sets: &mut Vec<Vec<MovedItem<S>>>,
    marks: &mut Flags,
    rows: &Rows<'_>,
) -> Result<(), AllocError>
    requires own { rows.now.own ≡ rows_in core.now.looks.items }
    requires kernel { IsKernel grm.now.grammar (HasItem (map_of (core_of_set S.number core.now))) }
    requires fits { FitsCore grm.now.grammar (core_of_set S.number core.now) }
    requires sizes { IsSized grm.now.grammar rows.now.opening }
    requires closed { (fronts : List (List Front)) × AreFronts grm.now.grammar fronts × IsClosureOf grm.now.grammar fronts (core_of_set S.number core.now) rows.now.opening }
    requires wide { length marks.old.bits ≡ grm.now.grammar.rules + grm.now.grammar.tokens }
    requires empty { AreEmpty (grm.now.grammar.rules + grm.now.grammar.tokens) sets.old.items }
    ensures gotos { OnOk result (AreGotos grm.now.grammar (Closure grm.now.grammar (HasItem (map_of (core_of_set S.number core.now)))) (ClosureLook grm.now.grammar (HasItem (map_of (core_of_set S.number core.now))) (HasLook (map_of (core_of_set S.number core.now)))) (map (set_of_moved S.number rows.now) sets.new.items)) }
    ensures marked { OnOk result (AreMarked marks.new.bits (map (set_of_moved S.number rows.now) sets.new.items)) }
    ensures wide { OnOk result (length marks.new.bits ≡ grm.now.grammar.rules + grm.now.grammar.tokens) }
{
    grm.start_prod();
    move_core(grm, sets, marks, rows, core)?;
    move_open(grm, sets, marks, rows)?;
    Ok(())
}
