//! Parses whose value is given by functions of rules alone.

ghost use Rattle.std.specs.Prelude.{IfOk, IfErr};
ghost use Rattle.parse_trees.specs.Refusals.{IsParseRefusal};
ghost use Rattle.parse_trees.specs.Stacks.{mapped_by};
ghost use Rattle.lrpar.specs.Told.{IsFoldedOutcome};

use crate::folded_parse::{FoldedOutcome, parse_folded};
use crate::machine::Machine;
use crate::recoverer::Recoverer;
use cfg_base::index::IndexStorage;
use cfg_base::span::Span;
use cfg_base::symbol::{PIdx, RIdx};
use parse_trees::lex_api::Lexeme;
use parse_trees::lexemes::ParseRefusal;
use std::alloc::{AllocError, Global};

/// Parses the list of a lexer, with the value that functions of lexemes, and of rules and values, make.
pub(crate) fn parse_mapped<
    S: IndexStorage,
    L: Lexeme<S>,
    E: Copy,
    N: Drop,
    F,
    H,
    R: Recoverer<S, L>,
>(
    alloc: Global,
    machine: &Machine<'_, S>,
    items: &[Result<L, E>],
    recoverer: &R,
    fterm: &F,
    fnonterm: &H,
) -> Result<FoldedOutcome<S, L, E, N>, ParseRefusal>
where
    F: Fn(Global, L) -> Result<N, AllocError>,
    H: Fn(Global, RIdx<S>, Vec<N>) -> Result<N, AllocError>,
    requires term { F.IsAlwaysCallable fterm.now }
    requires nonterm { H.IsAlwaysCallable fnonterm.now }
    ensures parsed { IfOk result (λ o. IsFoldedOutcome S.number L.lex L.faulty_of machine.now.grm.now.grammar machine.now.sgraph.now machine.now.stable.now (mapped_by S.number (F.post fterm.now) (H.post fnonterm.now)) (R.answers recoverer.now) items.now o) }
    ensures refused { IfErr result (IsParseRefusal machine.now.grm.now.grammar L.lex items.now) }
{
    let by_rule = |alloc: Global, _pidx: PIdx<S>, ridx: RIdx<S>, _span: Span, args: Vec<N>| {
        fnonterm(alloc, ridx, args)
    };
    parse_folded(alloc, machine, items, recoverer, fterm, &by_rule)
}
