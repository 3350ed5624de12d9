//! Makes the `Node` of a flat tree.

ghost use Rattle.std.specs.Prelude.{◌≡◌, ℕ, List, map, Some, IfOk, OnOk};
ghost use Rattle.cfg_theory.specs.Tree.{Tree, IsTree};
ghost use Rattle.parse_trees.specs.FlatTrees.{IsFlat, piece_of, pieces_of};
ghost use Rattle.parse_trees.specs.FlatReading.{put};
ghost use Rattle.parse_trees.specs.NodeLists.{shapes_on};
ghost use Rattle.parse_trees.specs.Lex.{span_by, token_by};
ghost use Rattle.parse_trees.specs.Shapes.{shape, shape_of};

use crate::flat::{FlatNode, node_at};
use crate::lex_api::Lexeme;
use crate::node::Node;
use crate::node_values::NodeValues;
use crate::values::ValueStack;
use cfg_base::index::IndexStorage;
use cfg_numbered::yacc::grammar::NumberedGrammar;
use std::alloc::{AllocError, Global};

/// Puts a listed node on the nodes of those before it, in the place of its children.
fn put_listed<S: IndexStorage, L: Lexeme<S>>(
    alloc: Global,
    grm: &NumberedGrammar<S>,
    values: &mut NodeValues<S, L>,
    node: FlatNode<S, L>,
) -> Result<(), AllocError>
    requires { (ts : List (Tree L)) × (us : List (Tree L)) × (shapes_on S.number values.old.nodes.items ≡ map (shape grm.now.grammar) ts) × (put grm.now.grammar (piece_of S.number node) ts ≡ Some us) }
    ensures { (ts us : List (Tree L)) → shapes_on S.number values.old.nodes.items ≡ map (shape grm.now.grammar) ts → put grm.now.grammar (piece_of S.number node) ts ≡ Some us →
        OnOk result (shapes_on S.number values.new.nodes.items ≡ map (shape grm.now.grammar) us) }
{
    match node {
        FlatNode::Term { lexeme } => {
            values.shift(alloc, lexeme)?;
            Ok(())
        }
        FlatNode::Nonterm {
            pidx,
            span: _,
            below: _,
        } => {
            let count = grm.prod_len(pidx).0.to_usize();
            values.reduce(alloc, pidx, grm.prod_to_rule(pidx), count)?;
            Ok(())
        }
    }
}

/// Returns the node of a list that is of a tree of the grammar.
pub(crate) fn node_of<S: IndexStorage, L: Lexeme<S>>(
    alloc: Global,
    grm: &NumberedGrammar<S>,
    nodes: &[FlatNode<S, L>],
) -> Result<Node<L, S>, AllocError>
    requires { (t : Tree L) × IsFlat (span_by L.lex) t (pieces_of S.number nodes.now) × IsTree grm.now.grammar (token_by L.lex) t }
    ensures { (t : Tree L) → IsFlat (span_by L.lex) t (pieces_of S.number nodes.now) → IsTree grm.now.grammar (token_by L.lex) t →
        IfOk result (λ node. shape_of S.number node ≡ shape grm.now.grammar t) }
{
    let mut values = NodeValues::with_room(alloc, 24)?;
    'nodes: for index in 0..nodes.len() {
        put_listed(alloc, grm, &mut values, node_at(nodes, index))?;
    }
    match values.finish() {
        Some(node) => Ok(node),
        None => unreachable!(),
    }
}
