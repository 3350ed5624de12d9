//! Checks a spine: opens one production within another, and collects the symbols before the dots and those that follow.

ghost use Rattle.std.specs.Prelude.{ℕ, reverse, IsTrue, IfOk, IfSome};
ghost use Rattle.cfg_theory.specs.Grammar.{rule, IsNext, IsOf};
ghost use Rattle.conflict_examples.specs.Opening.{IsOpen, IsInnermost};

use crate::productions::{has_production, is_of, symbol_after, symbols_before, symbols_behind};
use crate::symbols::push_reversed;
use cfg_base::index::IndexStorage;
use cfg_base::symbol::{PIdx, SIdx, Symbol};
use cfg_numbered::yacc::NumberedGrammar;
use std::alloc::{AllocError, Global};

/// A spine: productions that are open one within another.
#[derive(Drop)]
pub(crate) struct Spine<S> {
    /// The productions with their dots, from that of the start in.
    pub items: Vec<(PIdx<S>, SIdx<S>)>,
    /// The symbols before the dots.
    pub symbols: Vec<Symbol<S>>,
    /// The symbols that follow the innermost production, the first of them last.
    pub rest: Vec<Symbol<S>>,
}

/// Opens the start production.
fn open_start<S: IndexStorage>(
    alloc: Global,
    grm: &NumberedGrammar<S>,
    dot: SIdx<S>,
) -> Result<Option<Spine<S>>, AllocError>
    ensures { IfOk result (λ o. IfSome o (IsOpen S.number grm.now.grammar)) }
{
    let pidx = grm.start_prod();
    let body = grm.prod(pidx);
    let index = dot.0.to_usize();
    if index > body.len() {
        return Ok(None);
    }
    let symbols = Vec::from_slice(alloc, symbols_before(body, index))?;
    let mut items = Vec::new(alloc);
    items.push((pidx, dot))?;
    Ok(Some(Spine {
        items,
        symbols,
        rest: Vec::new(alloc),
    }))
}

/// Returns whether the production is one of the rule after the dot of another.
fn is_after_dot<S: IndexStorage>(
    grm: &NumberedGrammar<S>,
    outer: PIdx<S>,
    at: SIdx<S>,
    pidx: PIdx<S>,
) -> bool
    ensures { IsTrue result → (A : ℕ) × IsNext grm.now.grammar (S.number outer.0) (S.number at.0) (rule A) × IsOf grm.now.grammar (S.number pidx.0) A }
{
    match symbol_after(grm, outer, at) {
        Some(Symbol::Rule(ridx)) => is_of(grm, pidx, ridx),
        Some(Symbol::Token(_)) => false,
        None => false,
    }
}

/// Returns the innermost of the productions.
pub(crate) fn innermost<S: IndexStorage>(items: &[(PIdx<S>, SIdx<S>)]) -> Option<(PIdx<S>, SIdx<S>)>
    ensures { IfSome result (λ x. IsInnermost x items.now) }
{
    if items.is_empty() {
        return None;
    }
    Some(items[items.len() - 1])
}

impl<S: IndexStorage> Spine<S> {
    /// Opens a production within the innermost one, and returns whether it is one of the rule after the dot there.
    fn open(
        &mut self,
        grm: &NumberedGrammar<S>,
        pidx: PIdx<S>,
        dot: SIdx<S>,
    ) -> Result<bool, AllocError>
        requires { IsOpen S.number grm.now.grammar self.old }
        ensures { IfOk result (λ b. IsTrue b → IsOpen S.number grm.now.grammar self.new) }
    {
        let Some((outer, at)) = innermost(self.items.as_slice()) else {
            return Ok(false);
        };
        if !has_production(grm, outer) || !is_after_dot(grm, outer, at, pidx) {
            return Ok(false);
        }
        let body = grm.prod(pidx);
        let index = dot.0.to_usize();
        if index > body.len() {
            return Ok(false);
        }
        let behind = symbols_behind(grm.prod(outer), at.0.to_usize());
        push_reversed(behind, &mut self.rest)?;
        self.symbols.extend_from_slice(symbols_before(body, index))?;
        self.items.push((pidx, dot))?;
        Ok(true)
    }
}

/// Opens productions, of which the first has to be that of the start. None where one isn't of the rule after the dot of the one
/// before it, or has no such dot.
pub(crate) fn open_all<S: IndexStorage>(
    alloc: Global,
    grm: &NumberedGrammar<S>,
    items: &[(PIdx<S>, SIdx<S>)],
) -> Result<Option<Spine<S>>, AllocError>
    ensures { IfOk result (λ o. IfSome o (IsOpen S.number grm.now.grammar)) }
{
    if items.is_empty() {
        return Ok(None);
    }
    let (_, dot) = items[0];
    let Some(mut spine) = open_start(alloc, grm, dot)? else {
        return Ok(None);
    };
    'items: for k in 1..items.len() {
        let (pidx, dot) = items[k];
        if !spine.open(grm, pidx, dot)? {
            return Ok(None);
        }
    }
    Ok(Some(spine))
}
