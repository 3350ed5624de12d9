//! Parses without a value.

ghost use Rattle.std.specs.Prelude.{IfOk, IfErr};
ghost use Rattle.parse_trees.specs.Refusals.{IsParseRefusal};
ghost use Rattle.lrpar.specs.Told.{IsReportedOutcome};

use crate::folded_parse::{FoldedOutcome, tell_errors};
use crate::machine::Machine;
use crate::parser::{Outcome, parse_items};
use crate::recoverer::Recoverer;
use cfg_base::index::IndexStorage;
use parse_trees::folded::NoValues;
use parse_trees::lex_api::Lexeme;
use parse_trees::lexemes::ParseRefusal;
use std::alloc::Global;

/// Parses the list of a lexer without making a value.
pub(crate) fn parse_unvalued<S: IndexStorage, L: Lexeme<S>, E: Copy, R: Recoverer<S, L>>(
    alloc: Global,
    machine: &Machine<'_, S>,
    items: &[Result<L, E>],
    recoverer: &R,
) -> Result<FoldedOutcome<S, L, E, ()>, ParseRefusal>
    ensures parsed { IfOk result (λ o. IsReportedOutcome S.number L.lex L.faulty_of machine.now.grm.now.grammar machine.now.sgraph.now machine.now.stable.now (λ value tree. Unit {0}) (R.answers recoverer.now) items.now o) }
    ensures refused { IfErr result (IsParseRefusal machine.now.grm.now.grammar L.lex items.now) }
{
    match parse_items(alloc, machine, items, recoverer, NoValues)? {
        Outcome::Fault(fault) => Ok(FoldedOutcome::Fault(fault)),
        Outcome::Parsed(lexemes, parsed) => {
            match tell_errors(alloc, &lexemes, parsed.errors.as_slice()) {
                Ok(errors) => Ok(FoldedOutcome::Parsed(None, errors)),
                Err(e) => Err(ParseRefusal::Memory(e)),
            }
        }
    }
}
