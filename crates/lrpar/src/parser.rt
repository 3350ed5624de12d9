//! Parsers over checked data, and what the Rust crate's module of this name has.

ghost use Rattle.std.specs.Prelude.{◌<◌, ℕ, [], IfOk, IfErr};
ghost use Rattle.parse_trees.specs.Refusals.{IsParseRefusal};
ghost use Rattle.lrpar.specs.Outcomes.{IsOutcome, OutcomeKeeps};

pub use crate::builder::RTParserBuilder;
use crate::machine::Machine;
use crate::parse::{Parsed, parse_lexemes};
pub use crate::parse_actions::AStackType;
pub use crate::parse_error::{LexParseError, ParseError};
use crate::recoverer::Recoverer;
use cfg_base::index::IndexStorage;
use parse_trees::lex_api::Lexeme;
use parse_trees::lexeme_list::LexemeList;
use parse_trees::lexemes::{ParseRefusal, admit};
pub use parse_trees::node::Node;
pub use parse_trees::parse_repair::ParseRepair;
use parse_trees::values::ValueStack;
use std::alloc::Global;

/// The result of parsing a lexer's list: its first error, or its lexemes with their parse.
#[derive(Drop)]
pub(crate) enum Outcome<'a, S: IndexStorage, L, E, V> {
    Fault(E),
    Parsed(LexemeList<'a, L, E>, Parsed<S, L, V>),
}

/// Parses the list of a lexer. `values` is a stack without entries.
pub(crate) fn parse_items<
    'a,
    S: IndexStorage,
    L: Lexeme<S>,
    E: Copy,
    V: ValueStack<S, L> + Drop,
    R: Recoverer<S, L>,
>(
    alloc: Global,
    machine: &Machine<'_, S>,
    items: &'a [Result<L, E>],
    recoverer: &R,
    values: V,
) -> Result<Outcome<'a, S, L, E, V>, ParseRefusal>
    requires empty { V.stands machine.now.grm.now.grammar values [] }
    requires starts { (n : ℕ) → V.starts_by values n }
    ensures parsed { IfOk result (λ o. IsOutcome S.number L.lex L.faulty_of machine.now.grm.now.grammar machine.now.sgraph.now machine.now.stable.now (V.stands machine.now.grm.now.grammar) (R.answers recoverer.now) items.now o) }
    ensures keeps { IfOk result (OutcomeKeeps (V.keeps values)) }
    ensures refused { IfErr result (IsParseRefusal machine.now.grm.now.grammar L.lex items.now) }
{
    let lexemes = match admit(machine.grm, items)? {
        Ok(lexemes) => lexemes,
        Err(fault) => return Ok(Outcome::Fault(fault)),
    };
    match parse_lexemes(alloc, machine, &lexemes, recoverer, values) {
        Ok(parsed) => Ok(Outcome::Parsed(lexemes, parsed)),
        Err(e) => Err(ParseRefusal::Memory(e)),
    }
}
