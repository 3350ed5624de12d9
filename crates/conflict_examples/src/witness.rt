//! Checks a candidate for one action, and makes the witness of the action, or the example of two actions.

ghost use Rattle.std.specs.Prelude.{◌≡◌, ◌≢◌, length, reverse, IsTrue, IfOk, IfSome};
ghost use Rattle.cfg_theory.specs.Grammar.{token, Grammar, body_of, end_token, IsNext};
ghost use Rattle.lr_theory.specs.Canonical.{Act, shift, reduce, accept};
ghost use Rattle.cfg_numbered.specs.Symbols.{syms_of, numbers_of};
ghost use Rattle.conflict_examples.specs.ExampleViews.{example_of};
ghost use Rattle.conflict_examples.specs.Opening.{IsOpen, AreStepsTo, WitnessShows};
ghost use Rattle.conflict_examples.specs.Spines.{IsExample};

use crate::derivation::checked_steps;
use crate::examples::{ActionExample, ConflictExample};
use crate::productions::{has_production, symbol_after};
use crate::spine::{Spine, innermost, open_all};
use crate::symbols::same_symbols;
use cfg_base::index::IndexStorage;
use cfg_base::symbol::{PIdx, SIdx, Symbol, TIdx};
use cfg_numbered::yacc::NumberedGrammar;
use std::alloc::{AllocError, Global};

/// The result of a search for one action, which may be wrong: the open productions, from that of the start in, and
/// the productions by which the token can follow them.
#[derive(Drop)]
pub(crate) struct Candidate<S> {
    pub items: Vec<(PIdx<S>, SIdx<S>)>,
    pub steps: Vec<PIdx<S>>,
}

/// An action with its spine and steps, and the symbols before the dots.
#[derive(Drop)]
pub(crate) struct Witness<S> {
    pub symbols: Vec<Symbol<S>>,
    pub action: ActionExample<S>,
}

/// Returns whether the token is the symbol after the dot.
fn shifts<S: IndexStorage>(
    grm: &NumberedGrammar<S>,
    pidx: PIdx<S>,
    dot: SIdx<S>,
    wanted: TIdx<S>,
) -> bool
    ensures { IsTrue result → IsNext grm.now.grammar (S.number pidx.0) (S.number dot.0) (token (S.number wanted.0)) }
{
    match symbol_after(grm, pidx, dot) {
        Some(Symbol::Token(tidx)) => tidx.0.to_usize() == wanted.0.to_usize(),
        Some(Symbol::Rule(_)) => false,
        None => false,
    }
}

/// Returns whether this is the wanted production, complete, and not that of the start.
fn reduces<S: IndexStorage>(
    grm: &NumberedGrammar<S>,
    pidx: PIdx<S>,
    dot: SIdx<S>,
    wanted: PIdx<S>,
) -> bool
    ensures production { IsTrue result → S.number pidx.0 ≡ S.number wanted.0 }
    ensures other { IsTrue result → S.number wanted.0 ≢ grm.now.grammar.start }
    ensures complete { IsTrue result → S.number dot.0 ≡ length (body_of grm.now.grammar (S.number wanted.0)) }
{
    if !has_production(grm, wanted) {
        return false;
    }
    if wanted.0.to_usize() == grm.start_prod().0.to_usize() {
        return false;
    }
    if pidx.0.to_usize() != wanted.0.to_usize() {
        return false;
    }
    dot.0.to_usize() == grm.prod(wanted).len()
}

/// Returns whether this is the production of the start, complete.
fn accepts<S: IndexStorage>(grm: &NumberedGrammar<S>, pidx: PIdx<S>, dot: SIdx<S>) -> bool
    ensures production { IsTrue result → S.number pidx.0 ≡ grm.now.grammar.start }
    ensures complete { IsTrue result → S.number dot.0 ≡ length (body_of grm.now.grammar grm.now.grammar.start) }
{
    let start = grm.start_prod();
    if pidx.0.to_usize() != start.0.to_usize() {
        return false;
    }
    dot.0.to_usize() == grm.prod(start).len()
}

/// Makes a witness of a spine and steps.
fn witness_of<S: IndexStorage>(spine: Spine<S>, steps: Vec<PIdx<S>>) -> Witness<S>
    ensures symbols { result.symbols.items ≡ spine.symbols.items }
    ensures spine { result.action.spine.items ≡ spine.items.items }
    ensures steps { result.action.steps ≡ steps }
{
    let Spine {
        items,
        symbols,
        rest: _,
    } = spine;
    Witness {
        symbols,
        action: ActionExample {
            spine: items,
            steps,
        },
    }
}

/// Makes the witness of a reduction on the token, by steps from what follows the spine. None where the spine isn't one.
fn reduce_by<S: IndexStorage>(
    grm: &NumberedGrammar<S>,
    spine: Spine<S>,
    steps: Vec<PIdx<S>>,
    token: TIdx<S>,
    production: PIdx<S>,
) -> Option<Witness<S>>
    requires spine { IsOpen S.number grm.now.grammar spine }
    requires steps { AreStepsTo grm.now.grammar (S.number token.0) (reverse (syms_of S.number spine.rest.items)) (numbers_of S.number steps.items) }
    ensures { IfSome result (WitnessShows S.number grm.now.grammar (S.number token.0) (reduce (S.number production.0))) }
{
    let Some((pidx, dot)) = innermost(spine.items.as_slice()) else {
        return None;
    };
    if !reduces(grm, pidx, dot, production) {
        return None;
    }
    Some(witness_of(spine, steps))
}

/// Returns the witness of a shift of the token, if the candidate is one.
pub(crate) fn shift_witness<S: IndexStorage>(
    alloc: Global,
    grm: &NumberedGrammar<S>,
    candidate: &Candidate<S>,
    token: TIdx<S>,
) -> Result<Option<Witness<S>>, AllocError>
    ensures { IfOk result (λ o. IfSome o (WitnessShows S.number grm.now.grammar (S.number token.0) shift)) }
{
    let Some(spine) = open_all(alloc, grm, candidate.items.as_slice())? else {
        return Ok(None);
    };
    let Some((pidx, dot)) = innermost(spine.items.as_slice()) else {
        return Ok(None);
    };
    if !shifts(grm, pidx, dot, token) {
        return Ok(None);
    }
    Ok(Some(witness_of(spine, Vec::new(alloc))))
}

/// Returns the witness of the end of a text, if the candidate is one.
pub(crate) fn accept_witness<S: IndexStorage>(
    alloc: Global,
    grm: &NumberedGrammar<S>,
    candidate: &Candidate<S>,
) -> Result<Option<Witness<S>>, AllocError>
    ensures { IfOk result (λ o. IfSome o (WitnessShows S.number grm.now.grammar (end_token grm.now.grammar) accept)) }
{
    let Some(spine) = open_all(alloc, grm, candidate.items.as_slice())? else {
        return Ok(None);
    };
    let Some((pidx, dot)) = innermost(spine.items.as_slice()) else {
        return Ok(None);
    };
    if !accepts(grm, pidx, dot) {
        return Ok(None);
    }
    Ok(Some(witness_of(spine, Vec::new(alloc))))
}

/// Returns the witness of a reduction on the token, if the candidate is one.
pub(crate) fn reduce_witness<S: IndexStorage>(
    alloc: Global,
    grm: &NumberedGrammar<S>,
    candidate: &Candidate<S>,
    token: TIdx<S>,
    production: PIdx<S>,
) -> Result<Option<Witness<S>>, AllocError>
    ensures { IfOk result (λ o. IfSome o (WitnessShows S.number grm.now.grammar (S.number token.0) (reduce (S.number production.0)))) }
{
    let Some(spine) = open_all(alloc, grm, candidate.items.as_slice())? else {
        return Ok(None);
    };
    let rest = spine.rest.as_slice();
    let Some(steps) = checked_steps(alloc, grm, rest, candidate.steps.as_slice(), token)? else {
        return Ok(None);
    };
    Ok(reduce_by(grm, spine, steps, token, production))
}

/// Makes the example of two actions. None where they come after different symbols.
pub(crate) fn pair_witnesses<S: IndexStorage>(
    token: TIdx<S>,
    first: Witness<S>,
    second: Witness<S>,
) -> Option<ConflictExample<S>>
    ensures token { IfSome result (λ x. x.token ≡ token) }
    ensures symbols { IfSome result (λ x. x.symbols ≡ first.symbols) }
    ensures example { IfSome result (λ x. (G : Grammar) (a b : Act) → a ≢ b → WitnessShows S.number G (S.number token.0) a first → WitnessShows S.number G (S.number token.0) b second → IsExample G (example_of S.number x) a b) }
{
    if !same_symbols(first.symbols.as_slice(), second.symbols.as_slice()) {
        return None;
    }
    Some(ConflictExample {
        symbols: first.symbols,
        token,
        first: first.action,
        second: second.action,
    })
}
