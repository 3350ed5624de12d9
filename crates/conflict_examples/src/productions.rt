//! Reads productions by numbers that need not be those of the grammar.

ghost use Rattle.std.specs.Prelude.{◌≡◌, ◌<◌, ◌≤◌, ℕ, suc, take, drop, length, IsTrue, IfSome};
ghost use Rattle.cfg_theory.specs.Grammar.{body_of, IsNext, IsOf};
ghost use Rattle.cfg_numbered.specs.Symbols.{sym_of, syms_of};

use cfg_base::index::IndexStorage;
use cfg_base::symbol::{PIdx, RIdx, SIdx, Symbol};
use cfg_numbered::yacc::NumberedGrammar;

/// Returns whether the grammar has the production.
pub(crate) fn has_production<S: IndexStorage>(grm: &NumberedGrammar<S>, pidx: PIdx<S>) -> bool
    ensures { IsTrue result → S.number pidx.0 < length grm.now.grammar.productions }
{
    pidx.0.to_usize() < grm.prods_len().0.to_usize()
}

/// Returns whether the grammar has the production, and it is one of the rule.
pub(crate) fn is_of<S: IndexStorage>(grm: &NumberedGrammar<S>, pidx: PIdx<S>, ridx: RIdx<S>) -> bool
    ensures { IsTrue result → IsOf grm.now.grammar (S.number pidx.0) (S.number ridx.0) }
{
    if !has_production(grm, pidx) {
        return false;
    }
    grm.prod_to_rule(pidx).0.to_usize() == ridx.0.to_usize()
}

/// Returns the symbols of a production; none where the grammar doesn't have it.
pub(crate) fn symbols_of<S: IndexStorage>(grm: &NumberedGrammar<S>, pidx: PIdx<S>) -> &[Symbol<S>]
    ensures { syms_of S.number result.now ≡ body_of grm.now.grammar (S.number pidx.0) }
{
    if pidx.0.to_usize() >= grm.prods_len().0.to_usize() {
        return &[];
    }
    grm.prod(pidx)
}

/// Returns the symbol after the dot, if there is one.
pub(crate) fn symbol_after<S: IndexStorage>(
    grm: &NumberedGrammar<S>,
    pidx: PIdx<S>,
    dot: SIdx<S>,
) -> Option<Symbol<S>>
    ensures symbol { IfSome result (λ x. IsNext grm.now.grammar (S.number pidx.0) (S.number dot.0) (sym_of S.number x)) }
    ensures production { IfSome result (λ _. S.number pidx.0 < length grm.now.grammar.productions) }
{
    if !has_production(grm, pidx) {
        return None;
    }
    let symbols = grm.prod(pidx);
    let index = dot.0.to_usize();
    if index >= symbols.len() {
        return None;
    }
    Some(symbols[index])
}

/// Returns the symbols before the index.
pub(crate) fn symbols_before<S>(symbols: &[Symbol<S>], index: usize) -> &[Symbol<S>]
    requires { index ≤ length symbols.now }
    ensures { result.now ≡ take index symbols.now }
{
    &symbols[..index]
}

/// Returns the symbols behind the one at the index.
pub(crate) fn symbols_behind<S>(symbols: &[Symbol<S>], index: usize) -> &[Symbol<S>]
    ensures { result.now ≡ drop (suc index) symbols.now }
{
    if index >= symbols.len() {
        return &symbols[symbols.len()..];
    }
    &symbols[index + 1..]
}
