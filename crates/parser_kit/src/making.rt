//! The steps from a grammar to a kit.

ghost use Rattle.std.specs.Prelude.{◌≡◌, ℕ, IfOk, IfErr, OnOk};
ghost use Rattle.cfg_theory.specs.Grammar.{WellFormed};
ghost use Rattle.lr_theory.specs.Sizes.{StaysWithin};
ghost use Rattle.state_table.specs.Graphs.{IsGraphOf};
ghost use Rattle.state_table.specs.Tables.{IsTableOf};
ghost use Rattle.parser_kit.specs.Tabled.{HasTabledCause, IsTabled, IsTabledRefusal, NeverAcceptsAndReduces};

use crate::grammar_kit_error::GrammarKitError;
use cfg_base::index::IndexStorage;
use cfg_numbered::yacc::NumberedGrammar;
use lrpar::{BuiltDataError, ParserData};
use lrtable::{FromYaccError, Minimiser, StateGraph, StateTable, from_yacc};
use std::alloc::Global;

/// The graph and the table of a grammar.
pub(crate) fn tables_of<S: IndexStorage>(
    alloc: Global,
    grm: &NumberedGrammar<S>,
) -> Result<(StateGraph<S>, StateTable<S>), GrammarKitError<S>>
    ensures graph { IfOk result (λ r. IsGraphOf grm.now.grammar r.0) }
    ensures table { IfOk result (λ r. IsTableOf grm.now r.0 r.1) }
    ensures states { OnOk result (StaysWithin grm.now.grammar S.MAX) }
    ensures accepts { OnOk result (NeverAcceptsAndReduces grm.now.grammar) }
    ensures refused { (cap : ℕ) → IfErr result (IsTabledRefusal S.number S.MAX grm.now cap) }
    ensures crowded { IfErr result (HasTabledCause S.number S.MAX grm.now) }
{
    match from_yacc(alloc, grm, Minimiser::Pager) {
        Ok(parts) => Ok(parts),
        Err(FromYaccError::TooManyStates(count)) => Err(GrammarKitError::TooManyStates(count)),
        Err(FromYaccError::StateTable(e)) => Err(GrammarKitError::AcceptReduce(e.pidx)),
        Err(FromYaccError::TooLarge) => Err(GrammarKitError::TooLarge),
        Err(FromYaccError::Memory(e)) => Err(GrammarKitError::Memory(e)),
    }
}

/// Makes the checked data of a grammar with its own graph and table.
pub(crate) fn data_of<S: IndexStorage>(
    alloc: Global,
    grm: NumberedGrammar<S>,
    graph: StateGraph<S>,
    table: StateTable<S>,
    cap: u16,
) -> Result<ParserData<S>, GrammarKitError<S>>
    requires well_formed { WellFormed grm.grammar }
    requires states { StaysWithin grm.grammar S.MAX }
    requires graph { IsGraphOf grm.grammar graph }
    requires table { IsTableOf grm graph table }
    ensures data { IfOk result (λ d. d ≡ record { grammar = grm; graph = graph; table = table; cap = cap }) }
    ensures tabled { IfOk result (IsTabled S.MAX) }
    ensures refused { IfErr result (IsTabledRefusal S.number S.MAX grm cap) }
    ensures crowded { IfErr result (HasTabledCause S.number S.MAX grm) }
{
    match ParserData::of_builder(alloc, grm, graph, table, cap) {
        Ok(data) => Ok(data),
        Err(BuiltDataError::TooManyReductions(chain)) => Err(GrammarKitError::TooManyReductions {
            state: chain.state,
            rule: chain.ridx,
            token: chain.tidx,
            cap,
        }),
        Err(BuiltDataError::Memory(e)) => Err(GrammarKitError::Memory(e)),
    }
}
