//! Makes examples of the candidates that pass the check.

ghost use Rattle.std.specs.Prelude.{◌≡◌, ◌≢◌, IfOk, IfSome};
ghost use Rattle.cfg_theory.specs.Grammar.{Grammar, end_token};
ghost use Rattle.lr_theory.specs.Canonical.{Act, shift, reduce, accept};
ghost use Rattle.lr_theory.specs.Graph.{Leads};
ghost use Rattle.state_table.specs.Graphs.{graph_of};
ghost use Rattle.conflict_examples.specs.ExampleViews.{example_of};
ghost use Rattle.conflict_examples.specs.Opening.{WitnessShows};
ghost use Rattle.conflict_examples.specs.Spines.{IsExample};

use crate::examples::ConflictExample;
use crate::goto::leads_to;
use crate::source::Source;
use crate::witness::{
    Candidate, Witness, accept_witness, pair_witnesses, reduce_witness, shift_witness,
};
use cfg_base::index::IndexStorage;
use cfg_base::symbol::PIdx;
use cfg_numbered::yacc::NumberedGrammar;
use state_table::stidx::StIdx;
use std::alloc::{AllocError, Global};

/// Makes the example of two actions in a state. None where they come after different symbols, or these don't lead there.
fn paired_in<'a, S: IndexStorage>(
    source: &Source<'a, S>,
    stidx: StIdx<S>,
    first: Witness<S>,
    second: Witness<S>,
) -> Option<ConflictExample<S>>
    ensures token { IfSome result (λ x. x.token ≡ source.now.token) }
    ensures state { IfSome result (λ x. Leads (graph_of source.now.graph.now) (example_of S.number x).string (S.number stidx.0)) }
    ensures example { IfSome result (λ x. (G : Grammar) (a b : Act) → a ≢ b → WitnessShows S.number G (S.number source.now.token.0) a first → WitnessShows S.number G (S.number source.now.token.0) b second → IsExample G (example_of S.number x) a b) }
{
    if !leads_to(source.graph, first.symbols.as_slice(), stidx) {
        return None;
    }
    pair_witnesses(source.token, first, second)
}

/// Returns the example of a shift against a reduction, if the candidates are one.
pub(crate) fn shift_example<'a, S: IndexStorage>(
    alloc: Global,
    source: &Source<'a, S>,
    candidates: &(Candidate<S>, Candidate<S>),
    production: PIdx<S>,
    stidx: StIdx<S>,
) -> Result<Option<ConflictExample<S>>, AllocError>
    ensures example { IfOk result (λ o. IfSome o (λ x. IsExample source.now.grm.now.grammar (example_of S.number x) shift (reduce (S.number production.0)))) }
    ensures token { IfOk result (λ o. IfSome o (λ x. x.token ≡ source.now.token)) }
    ensures state { IfOk result (λ o. IfSome o (λ x. Leads (graph_of source.now.graph.now) (example_of S.number x).string (S.number stidx.0))) }
{
    let Some(one) = shift_witness(alloc, source.grm, &candidates.0, source.token)? else {
        return Ok(None);
    };
    let other = reduce_witness(alloc, source.grm, &candidates.1, source.token, production)?;
    let Some(other) = other else {
        return Ok(None);
    };
    Ok(paired_in(source, stidx, one, other))
}

/// Returns the example of two reductions, if the candidates are one.
pub(crate) fn pair_example<'a, S: IndexStorage>(
    alloc: Global,
    source: &Source<'a, S>,
    candidates: &(Candidate<S>, Candidate<S>),
    first: PIdx<S>,
    second: PIdx<S>,
    stidx: StIdx<S>,
) -> Result<Option<ConflictExample<S>>, AllocError>
    ensures example { IfOk result (λ o. IfSome o (λ x. IsExample source.now.grm.now.grammar (example_of S.number x) (reduce (S.number first.0)) (reduce (S.number second.0)))) }
    ensures state { IfOk result (λ o. IfSome o (λ x. Leads (graph_of source.now.graph.now) (example_of S.number x).string (S.number stidx.0))) }
{
    if first.0.to_usize() == second.0.to_usize() {
        return Ok(None);
    }
    let Some(one) = reduce_witness(alloc, source.grm, &candidates.0, source.token, first)? else {
        return Ok(None);
    };
    let other = reduce_witness(alloc, source.grm, &candidates.1, source.token, second)?;
    let Some(other) = other else {
        return Ok(None);
    };
    Ok(paired_in(source, stidx, one, other))
}

/// Returns the example of the end of a text against a reduction, if the candidates are one.
pub(crate) fn accept_example<S: IndexStorage>(
    alloc: Global,
    grm: &NumberedGrammar<S>,
    candidates: &(Candidate<S>, Candidate<S>),
    production: PIdx<S>,
) -> Result<Option<ConflictExample<S>>, AllocError>
    ensures example { IfOk result (λ o. IfSome o (λ x. IsExample grm.now.grammar (example_of S.number x) accept (reduce (S.number production.0)))) }
    ensures token { IfOk result (λ o. IfSome o (λ x. S.number x.token.0 ≡ end_token grm.now.grammar)) }
{
    let token = grm.eof_token_idx();
    let Some(one) = accept_witness(alloc, grm, &candidates.0)? else {
        return Ok(None);
    };
    let Some(other) = reduce_witness(alloc, grm, &candidates.1, token, production)? else {
        return Ok(None);
    };
    Ok(pair_witnesses(token, one, other))
}
