//! Whether the items of a state fit a grammar.

ghost use Rattle.std.specs.Prelude.{◌≡◌, ◌<◌, ℕ, length};
ghost use Rattle.cfg_theory.specs.Grammar.{body_of, IsNext};
ghost use Rattle.cfg_numbered.specs.Symbols.{sym_of};
ghost use Rattle.lr_theory.specs.Itemset.{HasItem};
ghost use Rattle.state_table.specs.Graphs.{GraphValue};
ghost use Rattle.state_table.specs.Tables.{automaton_of};
ghost use Rattle.state_table.specs.TableValues.{TableValue};
ghost use Rattle.lrpar.specs.Safety.{ItemFits};
ghost use Rattle.lrpar.specs.Fitting.{OfGrammar};
ghost use Rattle.cfg_theory.specs.Decides.{Decides};

use cfg_base::index::IndexStorage;
use cfg_base::symbol::{PIdx, SIdx, Symbol};
use cfg_numbered::yacc::grammar::NumberedGrammar;
use state_table::{Itemset, StIdx};

/// Returns whether a set has an item.
pub(crate) fn has_item<S: IndexStorage>(items: &Itemset<S>, pidx: PIdx<S>, dot: SIdx<S>) -> bool
    ensures { Decides (HasItem items.now (S.number pidx.0) (S.number dot.0)) result }
{
    match items.get(pidx, dot) {
        Some(_) => true,
        None => false,
    }
}

/// Returns whether two symbols are one.
pub(crate) fn same_symbols<S: IndexStorage>(a: Symbol<S>, b: Symbol<S>) -> bool
    ensures { Decides (sym_of S.number a ≡ sym_of S.number b) result }
{
    match (a, b) {
        (Symbol::Rule(a), Symbol::Rule(b)) => a.0.to_usize() == b.0.to_usize(),
        (Symbol::Token(a), Symbol::Token(b)) => a.0.to_usize() == b.0.to_usize(),
        _ => false,
    }
}

/// Returns whether the symbol is behind the dot.
pub(crate) fn is_next<S: IndexStorage>(
    grm: &NumberedGrammar<S>,
    pidx: PIdx<S>,
    dot: SIdx<S>,
    symbol: Symbol<S>,
) -> bool
    ensures { Decides (IsNext grm.now.grammar (S.number pidx.0) (S.number dot.0) (sym_of S.number symbol)) result }
{
    if !grm.has_prod(pidx) {
        return false;
    }
    let symbols = grm.prod(pidx);
    let at = dot.0.to_usize();
    if at >= symbols.len() {
        return false;
    }
    same_symbols(symbols[at], symbol)
}

/// Returns whether a set has the item of a production whose dot is at its end.
pub(crate) fn has_end<S: IndexStorage>(
    grm: &NumberedGrammar<S>,
    items: &Itemset<S>,
    pidx: PIdx<S>,
) -> bool
    requires { OfGrammar grm.now.grammar items.now }
    ensures { Decides (HasItem items.now (S.number pidx.0) (length (body_of grm.now.grammar (S.number pidx.0)))) result }
{
    if !grm.has_prod(pidx) {
        return false;
    }
    has_item(items, pidx, grm.prod_len(pidx))
}

/// Returns whether an item of a state fits.
fn item_fits<S: IndexStorage>(
    grm: &NumberedGrammar<S>,
    start: StIdx<S>,
    state: StIdx<S>,
    pidx: PIdx<S>,
    dot: SIdx<S>,
) -> bool
    ensures { (g : GraphValue) (v : TableValue) → g.start ≡ S.number start.0 → Decides (ItemFits grm.now.grammar (automaton_of g v) (S.number state.0) (S.number pidx.0) (S.number dot.0)) result }
{
    if !grm.has_prod(pidx) {
        return false;
    }
    let at = dot.0.to_usize();
    if at > grm.prod_len(pidx).0.to_usize() {
        return false;
    }
    if state.0.to_usize() == start.0.to_usize() {
        return at == 0;
    }
    if pidx.0.to_usize() == grm.start_prod().0.to_usize() {
        return at != 0;
    }
    true
}

/// Returns whether each item of a state fits.
pub(crate) fn items_fit<S: IndexStorage>(
    grm: &NumberedGrammar<S>,
    items: &Itemset<S>,
    start: StIdx<S>,
    state: StIdx<S>,
) -> bool
    ensures { (g : GraphValue) (v : TableValue) → g.start ≡ S.number start.0 → Decides ((p d : ℕ) → HasItem items.now p d → ItemFits grm.now.grammar (automaton_of g v) (S.number state.0) p d) result }
{
    'items: for index in 0..items.len() {
        let (pidx, dot) = items.item_at(index);
        if !item_fits(grm, start, state, pidx, dot) {
            return false;
        }
    }
    true
}
