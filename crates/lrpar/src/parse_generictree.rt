//! Parses whose value is a node.

ghost use Rattle.std.specs.Prelude.{◌≡◌, Option, map, IfOk, IfErr};
ghost use Rattle.cfg_theory.specs.Grammar.{Grammar};
ghost use Rattle.cfg_theory.specs.Tree.{Tree};
ghost use Rattle.parse_trees.specs.NodeLists.{shapes_on};
ghost use Rattle.parse_trees.specs.NodeValues.{HasNode};
ghost use Rattle.lrpar.specs.Parses.{HoldsValue};
ghost use Rattle.parse_trees.specs.Refusals.{IsParseRefusal};
ghost use Rattle.parse_trees.specs.Shapes.{shape};
ghost use Rattle.lrpar.specs.Told.{IsReportedOutcome};

use crate::folded_parse::{FoldedOutcome, tell_errors};
use crate::machine::Machine;
use crate::parse::Parsed;
use crate::parser::{Outcome, parse_items};
use crate::recoverer::Recoverer;
use cfg_base::index::IndexStorage;
use parse_trees::lex_api::Lexeme;
use parse_trees::lexemes::ParseRefusal;
use parse_trees::node::Node;
use parse_trees::node_values::NodeValues;
use std::alloc::Global;

/// Returns the node that a parse leaves, where it accepts.
fn node_left<S: IndexStorage, L: Lexeme<S>>(
    values: NodeValues<S, L>,
    accepted: bool,
) -> Option<Node<L, S>>
    ensures { (G : Grammar) (tree : Option (Tree L)) → HoldsValue (λ ts. shapes_on S.number values.nodes.items ≡ map (shape G) ts) accepted tree → HasNode S.number G result tree }
{
    if accepted { values.finish() } else { None }
}

/// Parses the list of a lexer, with a node for its value.
pub(crate) fn parse_nodes<S: IndexStorage, L: Lexeme<S>, E: Copy, R: Recoverer<S, L>>(
    alloc: Global,
    machine: &Machine<'_, S>,
    items: &[Result<L, E>],
    recoverer: &R,
) -> Result<FoldedOutcome<S, L, E, Node<L, S>>, ParseRefusal>
    ensures parsed { IfOk result (λ o. IsReportedOutcome S.number L.lex L.faulty_of machine.now.grm.now.grammar machine.now.sgraph.now machine.now.stable.now (HasNode S.number machine.now.grm.now.grammar) (R.answers recoverer.now) items.now o) }
    ensures refused { IfErr result (IsParseRefusal machine.now.grm.now.grammar L.lex items.now) }
{
    // Room for a stack of 24; a higher one grows.
    let values = match NodeValues::with_room(alloc, 24) {
        Ok(values) => values,
        Err(e) => return Err(ParseRefusal::Memory(e)),
    };
    match parse_items(alloc, machine, items, recoverer, values)? {
        Outcome::Fault(fault) => Ok(FoldedOutcome::Fault(fault)),
        Outcome::Parsed(lexemes, parsed) => {
            let Parsed {
                values,
                accepted,
                errors,
            } = parsed;
            let value = node_left(values, accepted);
            match tell_errors(alloc, &lexemes, errors.as_slice()) {
                Ok(errors) => Ok(FoldedOutcome::Parsed(value, errors)),
                Err(e) => Err(ParseRefusal::Memory(e)),
            }
        }
    }
}
