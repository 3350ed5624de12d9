//! Parses whose value is an outline of the tree.

ghost use Rattle.std.specs.Prelude.{Option, IfOk, IfErr};
ghost use Rattle.cfg_theory.specs.Tree.{Tree};
ghost use Rattle.lrpar.specs.OutlineParses.{HasOutline, IsOutlineParse};
ghost use Rattle.lrpar.specs.Parses.{HoldsValue};
ghost use Rattle.parse_trees.specs.Lexemes.{IsFirstLexError};
ghost use Rattle.parse_trees.specs.Outlines.{IsOutlineStack, marks_of};
ghost use Rattle.parse_trees.specs.Refusals.{IsParseRefusal};

use crate::folded_parse::tell_errors;
use crate::machine::Machine;
use crate::parse::Parsed;
use crate::parse_error::ParseError;
use crate::parser::{Outcome, parse_items};
use crate::recoverer::Recoverer;
use cfg_base::index::IndexStorage;
use parse_trees::lex_api::Lexeme;
use parse_trees::lexemes::ParseRefusal;
use parse_trees::outline::{Outline, OutlineValues};
use std::alloc::Global;

/// Returns the outline that a parse leaves, where it accepts.
fn outline_left<S: IndexStorage, L: Lexeme<S>>(
    values: OutlineValues<S, L>,
    accepted: bool,
) -> Option<Outline<S, L>>
    requires { (tree : Option (Tree L)) × HoldsValue (λ ts. IsOutlineStack ts (marks_of S.number values.nodes.items) values.ends.items values.large) accepted tree }
    ensures { (tree : Option (Tree L)) → HoldsValue (λ ts. IsOutlineStack ts (marks_of S.number values.nodes.items) values.ends.items values.large) accepted tree → HasOutline result tree }
{
    if accepted { values.finish() } else { None }
}

/// Returns the first fault of a lexer's list; else the outline of the tree of its parse, if it has one that is not too large, and
/// the errors.
pub(crate) fn parse_outline<S: IndexStorage, L: Lexeme<S>, E: Copy, R: Recoverer<S, L>>(
    alloc: Global,
    machine: &Machine<'_, S>,
    items: &[Result<L, E>],
    recoverer: &R,
) -> Result<Result<(Option<Outline<S, L>>, Vec<ParseError<L, S>>), E>, ParseRefusal>
    ensures fault { IfOk result (λ r. IfErr r (IsFirstLexError items.now)) }
    ensures parsed { IfOk result (λ r. IfOk r (λ p. IsOutlineParse S.number L.lex L.faulty_of machine.now.grm.now.grammar machine.now.sgraph.now machine.now.stable.now (R.answers recoverer.now) items.now p.0 p.1.items)) }
    ensures refused { IfErr result (IsParseRefusal machine.now.grm.now.grammar L.lex items.now) }
{
    // Room for three nodes a lexeme; where there are more, the list grows.
    let values = match OutlineValues::with_room(alloc, items.len().saturating_mul(3)) {
        Ok(values) => values,
        Err(e) => return Err(ParseRefusal::Memory(e)),
    };
    match parse_items(alloc, machine, items, recoverer, values)? {
        Outcome::Fault(fault) => Ok(Err(fault)),
        Outcome::Parsed(lexemes, parsed) => {
            let Parsed {
                values,
                accepted,
                errors,
            } = parsed;
            let outline = outline_left(values, accepted);
            match tell_errors(alloc, &lexemes, errors.as_slice()) {
                Ok(errors) => Ok(Ok((outline, errors))),
                Err(e) => Err(ParseRefusal::Memory(e)),
            }
        }
    }
}
