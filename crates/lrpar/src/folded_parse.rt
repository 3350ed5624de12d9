//! Parses whose value is a fold by functions that are passed.

ghost use Rattle.std.specs.Prelude.{◌≡◌, Option, map, IfOk, IfErr};
ghost use Rattle.cfg_theory.specs.Grammar.{Grammar};
ghost use Rattle.cfg_theory.specs.Tree.{Tree};
ghost use Rattle.lrpar.specs.Parses.{HasValue, HoldsValue};
ghost use Rattle.lrpar.specs.Parsing.{errors_of};
ghost use Rattle.parse_trees.specs.Refusals.{IsParseRefusal};
ghost use Rattle.parse_trees.specs.Lex.{span_by};
ghost use Rattle.parse_trees.specs.Stacks.{FoldedStand, values_by};
ghost use Rattle.lrpar.specs.Told.{told_of, as_told, IsFoldedOutcome};

use crate::machine::Machine;
use crate::parse::{ErrorFound, Parsed};
use crate::parse_error::ParseError;
use crate::parser::{Outcome, parse_items};
use crate::recoverer::Recoverer;
use cfg_base::index::IndexStorage;
use cfg_base::span::Span;
use cfg_base::symbol::{PIdx, RIdx};
use parse_trees::folded::{FoldedValues, folded_value, no_folds};
use parse_trees::lex_api::Lexeme;
use parse_trees::lexeme_list::LexemeList;
use parse_trees::lexemes::ParseRefusal;
use parse_trees::parse_repair::show_sequences;
use std::alloc::{AllocError, Global};

/// The result of parsing a lexer's list: its first error, or the value, if there is one, and the parse errors.
#[derive(Drop)]
pub enum FoldedOutcome<S: IndexStorage, L, E, V> {
    /// The first error of the lexer.
    Fault(E),
    /// The value, if there is one, and the errors.
    Parsed(Option<V>, Vec<ParseError<L, S>>),
}

/// Returns the errors of a parse of these lexemes, with the lexemes that their sequences delete or keep.
pub(crate) fn tell_errors<S: IndexStorage, L: Lexeme<S>, E: Copy>(
    alloc: Global,
    lexemes: &LexemeList<'_, L, E>,
    found: &[ErrorFound<S, L>],
) -> Result<Vec<ParseError<L, S>>, AllocError>
    ensures { IfOk result (λ r. map (told_of S.number) r.items ≡ map (as_told lexemes.now) (errors_of S.number found.now)) }
{
    let mut told = Vec::new(alloc);
    'errors: for error in found {
        let repairs = show_sequences(alloc, lexemes, error.index, error.repairs.as_slice())?;
        told.push(ParseError {
            stidx: error.stidx,
            lexeme: error.lexeme,
            repairs,
        })?;
    }
    Ok(told)
}

/// Returns the value that a parse leaves, where it accepts.
fn value_left<'a, S: IndexStorage, L: Lexeme<S>, V: Drop, F, H>(
    folded: FoldedValues<'a, V, F, H>,
    accepted: bool,
) -> Option<V>
where
    F: Fn(Global, L) -> Result<V, AllocError>,
    H: Fn(Global, PIdx<S>, RIdx<S>, Span, Vec<V>) -> Result<V, AllocError>,
    ensures { (G : Grammar) (tree : Option (Tree L)) → HoldsValue (FoldedStand (F.IsAlwaysCallable folded.entry.fterm.now) (H.IsAlwaysCallable folded.entry.fnonterm.now) G (values_by S.number (F.post folded.entry.fterm.now) (H.post folded.entry.fnonterm.now)) (span_by L.lex) folded.entry.values.items folded.entry.spans.items) accepted tree →
        HasValue G (values_by S.number (F.post folded.entry.fterm.now) (H.post folded.entry.fnonterm.now)) (span_by L.lex) result tree }
{
    if accepted {
        folded_value::<S, L, V, F, H>(folded)
    } else {
        None
    }
}

/// Parses the list of a lexer, with the value that the functions make.
pub(crate) fn parse_folded<
    S: IndexStorage,
    L: Lexeme<S>,
    E: Copy,
    V: Drop,
    F,
    H,
    R: Recoverer<S, L>,
>(
    alloc: Global,
    machine: &Machine<'_, S>,
    items: &[Result<L, E>],
    recoverer: &R,
    fterm: &F,
    fnonterm: &H,
) -> Result<FoldedOutcome<S, L, E, V>, ParseRefusal>
where
    F: Fn(Global, L) -> Result<V, AllocError>,
    H: Fn(Global, PIdx<S>, RIdx<S>, Span, Vec<V>) -> Result<V, AllocError>,
    requires term { F.IsAlwaysCallable fterm.now }
    requires nonterm { H.IsAlwaysCallable fnonterm.now }
    ensures parsed { IfOk result (λ o. IsFoldedOutcome S.number L.lex L.faulty_of machine.now.grm.now.grammar machine.now.sgraph.now machine.now.stable.now (values_by S.number (F.post fterm.now) (H.post fnonterm.now)) (R.answers recoverer.now) items.now o) }
    ensures refused { IfErr result (IsParseRefusal machine.now.grm.now.grammar L.lex items.now) }
{
    let values = no_folds::<S, L, V, F, H>(alloc, fterm, fnonterm);
    match parse_items(alloc, machine, items, recoverer, values)? {
        Outcome::Fault(fault) => Ok(FoldedOutcome::Fault(fault)),
        Outcome::Parsed(lexemes, parsed) => {
            let Parsed {
                values,
                accepted,
                errors,
            } = parsed;
            let value = value_left::<S, L, V, F, H>(values, accepted);
            match tell_errors(alloc, &lexemes, errors.as_slice()) {
                Ok(errors) => Ok(FoldedOutcome::Parsed(value, errors)),
                Err(e) => Err(ParseRefusal::Memory(e)),
            }
        }
    }
}
