//! A leftmost derivation: productions in the place of the first symbol, one after the other. A form has its first symbol last,
//! so that a step moves none of the others.

ghost use Rattle.std.specs.Prelude.{◌≡◌, ◌∷◌, ◌++◌, ℕ, List, [], drop, reverse, IsTrue, IfOk, IfSome, MatchOption};
ghost use Rattle.cfg_theory.specs.Grammar.{Sym, rule, Grammar, body_of, IsOf};
ghost use Rattle.cfg_numbered.specs.Symbols.{sym_of, syms_of, numbers_of};
ghost use Rattle.conflict_examples.specs.Opening.{ComeBy, AreStepsTo};
ghost use Rattle.conflict_examples.specs.Spines.{Begins};

use crate::productions::{is_of, symbols_of};
use crate::symbols::push_reversed;
use cfg_base::index::IndexStorage;
use cfg_base::symbol::{PIdx, Symbol, TIdx};
use cfg_numbered::yacc::NumberedGrammar;
use std::alloc::{AllocError, Global};

/// The most steps, and symbols in their productions, that a derivation may have, all together. A rule may be nullable
/// only by a chain of rules of which each occurs twice in the one before: then the steps would double with each.
const MOST_STEPS: usize = 262_144;

/// A leftmost derivation.
#[derive(Drop)]
pub(crate) struct Derivation<S> {
    /// The form that it reached, its first symbol last.
    pub form: Vec<Symbol<S>>,
    /// The productions of its steps.
    pub steps: Vec<PIdx<S>>,
    /// How many further steps and symbols it may have.
    room: usize,
}

/// Returns the first symbol of a form that has it last, if there is one.
pub(crate) fn first_of<S: IndexStorage>(form: &[Symbol<S>]) -> Option<Symbol<S>>
    ensures { MatchOption result (reverse (syms_of S.number form.now) ≡ []) (λ x. (rest : List Sym) × (reverse (syms_of S.number form.now) ≡ sym_of S.number x ∷ rest)) }
{
    if form.is_empty() {
        return None;
    }
    Some(form[form.len() - 1])
}

/// Returns whether the form begins with the rule of the production.
fn begins_with_rule_of<S: IndexStorage>(
    grm: &NumberedGrammar<S>,
    form: &[Symbol<S>],
    pidx: PIdx<S>,
) -> bool
    ensures { IsTrue result → (A : ℕ) × (rest : List Sym) × (reverse (syms_of S.number form.now) ≡ rule A ∷ rest) × IsOf grm.now.grammar (S.number pidx.0) A }
{
    match first_of(form) {
        Some(Symbol::Rule(ridx)) => is_of(grm, pidx, ridx),
        Some(Symbol::Token(_)) => false,
        None => false,
    }
}

/// Puts the production in the place of the first symbol, and nothing where there is no such production.
pub(crate) fn put_first<S: IndexStorage>(
    grm: &NumberedGrammar<S>,
    pidx: PIdx<S>,
    form: &mut Vec<Symbol<S>>,
) -> Result<(), AllocError>
    ensures { IfOk result (λ _. reverse (syms_of S.number form.new.items) ≡ body_of grm.now.grammar (S.number pidx.0) ++ drop 1 (reverse (syms_of S.number form.old.items))) }
{
    let _first = form.pop();
    push_reversed(symbols_of(grm, pidx), form)
}

/// Returns whether the form begins with the token, or is empty and the token is the end token.
fn begins<S: IndexStorage>(grm: &NumberedGrammar<S>, form: &[Symbol<S>], token: TIdx<S>) -> bool
    ensures { IsTrue result → Begins grm.now.grammar (S.number token.0) (reverse (syms_of S.number form.now)) }
{
    match first_of(form) {
        Some(Symbol::Rule(_)) => false,
        Some(Symbol::Token(tidx)) => tidx.0.to_usize() == token.0.to_usize(),
        None => token.0.to_usize() == grm.eof_token_idx().0.to_usize(),
    }
}

impl<S: IndexStorage> Derivation<S> {
    /// Returns the derivation without steps.
    pub(crate) fn new(alloc: Global, form: &[Symbol<S>]) -> Result<Derivation<S>, AllocError>
        ensures { IfOk result (λ r. (G : Grammar) → ComeBy S.number G (reverse (syms_of S.number form.now)) r) }
    {
        Ok(Derivation {
            form: Vec::from_slice(alloc, form)?,
            steps: Vec::new(alloc),
            room: MOST_STEPS,
        })
    }

    /// Puts the production in the place of the first symbol, and returns whether that is its rule and there is room for it.
    pub(crate) fn replace(
        &mut self,
        grm: &NumberedGrammar<S>,
        pidx: PIdx<S>,
    ) -> Result<bool, AllocError>
        ensures { IfOk result (λ b. IsTrue b → (a : List Sym) → ComeBy S.number grm.now.grammar a self.old → ComeBy S.number grm.now.grammar a self.new) }
    {
        if !begins_with_rule_of(grm, self.form.as_slice(), pidx) {
            return Ok(false);
        }
        let count = symbols_of(grm, pidx).len().saturating_add(1);
        let Some(room) = self.room.checked_sub(count) else {
            return Ok(false);
        };
        self.room = room;
        put_first(grm, pidx, &mut self.form)?;
        self.steps.push(pidx)?;
        Ok(true)
    }

    /// Returns the steps, if the form begins with the token, or is empty and the token is the end token.
    fn steps_to(self, grm: &NumberedGrammar<S>, token: TIdx<S>) -> Option<Vec<PIdx<S>>>
        ensures { IfSome result (λ v. (a : List Sym) → ComeBy S.number grm.now.grammar a self → AreStepsTo grm.now.grammar (S.number token.0) a (numbers_of S.number v.items)) }
    {
        if !begins(grm, self.form.as_slice(), token) {
            return None;
        }
        Some(self.steps)
    }
}

/// Returns the steps, if they lead from the form to one that begins with the token, or to the empty one before the end token.
pub(crate) fn checked_steps<S: IndexStorage>(
    alloc: Global,
    grm: &NumberedGrammar<S>,
    form: &[Symbol<S>],
    steps: &[PIdx<S>],
    token: TIdx<S>,
) -> Result<Option<Vec<PIdx<S>>>, AllocError>
    ensures { IfOk result (λ o. IfSome o (λ v. AreStepsTo grm.now.grammar (S.number token.0) (reverse (syms_of S.number form.now)) (numbers_of S.number v.items))) }
{
    let mut derivation = Derivation::new(alloc, form)?;
    'steps: for k in 0..steps.len() {
        if !derivation.replace(grm, steps[k])? {
            return Ok(None);
        }
    }
    Ok(derivation.steps_to(grm, token))
}
