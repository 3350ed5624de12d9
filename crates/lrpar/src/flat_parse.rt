//! Parses whose value is a flat tree.

ghost use Rattle.std.specs.Prelude.{Option, IfOk, IfErr, Err};
ghost use Rattle.cfg_theory.specs.Tree.{Tree};
ghost use Rattle.lrpar.specs.FlatParses.{HasFlat, IsFlatParse};
ghost use Rattle.parse_trees.specs.FlatTrees.{pieces_of};
ghost use Rattle.parse_trees.specs.FlatValues.{FlatStand};
ghost use Rattle.parse_trees.specs.Lexemes.{IsFirstLexError};
ghost use Rattle.lrpar.specs.Parses.{HoldsValue};
ghost use Rattle.parse_trees.specs.Refusals.{IsParseRefusal};
ghost use Rattle.parse_trees.specs.Lex.{span_by};

use crate::folded_parse::tell_errors;
use crate::machine::Machine;
use crate::parse::Parsed;
use crate::parse_error::ParseError;
use crate::parser::{Outcome, parse_items};
use crate::recoverer::Recoverer;
use cfg_base::index::IndexStorage;
use parse_trees::flat::FlatTree;
use parse_trees::flat_values::FlatValues;
use parse_trees::lex_api::Lexeme;
use parse_trees::lexemes::ParseRefusal;
use std::alloc::Global;

/// Returns the flat tree that a parse leaves, where it accepts.
fn tree_left<S: IndexStorage, L: Lexeme<S>>(
    values: FlatValues<S, L>,
    accepted: bool,
) -> Option<FlatTree<S, L>>
    requires { (tree : Option (Tree L)) × HoldsValue (λ ts. FlatStand (span_by L.lex) ts (pieces_of S.number values.builder.nodes.items) values.builder.ends.items) accepted tree }
    ensures { (tree : Option (Tree L)) → HoldsValue (λ ts. FlatStand (span_by L.lex) ts (pieces_of S.number values.builder.nodes.items) values.builder.ends.items) accepted tree → HasFlat (span_by L.lex) result tree }
{
    if accepted {
        Some(values.finish())
    } else {
        None
    }
}

/// Returns the first fault of a lexer's list; else the flat tree of its parse, if it has one, and the errors.
pub(crate) fn parse_flat<S: IndexStorage, L: Lexeme<S>, E: Copy, R: Recoverer<S, L>>(
    alloc: Global,
    machine: &Machine<'_, S>,
    items: &[Result<L, E>],
    recoverer: &R,
) -> Result<Result<(Option<FlatTree<S, L>>, Vec<ParseError<L, S>>), E>, ParseRefusal>
    ensures fault { IfOk result (λ r. IfErr r (IsFirstLexError items.now)) }
    ensures parsed { IfOk result (λ r. IfOk r (λ p. IsFlatParse S.number L.lex L.faulty_of machine.now.grm.now.grammar machine.now.sgraph.now machine.now.stable.now (R.answers recoverer.now) items.now p.0 p.1.items)) }
    ensures refused { IfErr result (IsParseRefusal machine.now.grm.now.grammar L.lex items.now) }
{
    // Room for three nodes a lexeme; where there are more, the list grows.
    let values = match FlatValues::with_room(alloc, items.len().saturating_mul(3)) {
        Ok(values) => values,
        Err(e) => return Err(ParseRefusal::Memory(e)),
    };
    match parse_items(alloc, machine, items, recoverer, values)? {
        Outcome::Fault(fault) => Ok(Err(fault)),
        Outcome::Parsed(lexemes, parsed) => {
            let Parsed {
                values,
                accepted,
                errors,
            } = parsed;
            let tree = tree_left(values, accepted);
            match tell_errors(alloc, &lexemes, errors.as_slice()) {
                Ok(errors) => Ok(Ok((tree, errors))),
                Err(e) => Err(ParseRefusal::Memory(e)),
            }
        }
    }
}
