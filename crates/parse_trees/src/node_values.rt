//! Nodes of trees by rules, made beside a run.

ghost use Rattle.std.specs.Prelude.{◌≡◌, ◌≤◌, ◌∷◌, ℕ, List, length, [], Some, map, IfOk, OnOk};
ghost use Rattle.cfg_theory.specs.Grammar.{Grammar, head_of};
ghost use Rattle.cfg_theory.specs.Tree.{Tree, Forest, node, none};
ghost use Rattle.lr_theory.specs.Machine.{pop};
ghost use Rattle.parse_trees.specs.NodeLists.{shapes_on};
ghost use Rattle.parse_trees.specs.NodeValues.{HasNode};
ghost use Rattle.parse_trees.specs.Shapes.{shape};

use crate::lex_api::Lexeme;
use crate::node::Node;
use crate::node_lists::{join_last, join_one};
use crate::values::ValueStack;
use cfg_base::index::IndexStorage;
use cfg_base::symbol::{PIdx, RIdx};
use std::alloc::{AllocError, Global};

/// The trees of a run by their rules, the last one on top.
#[derive(Drop)]
pub struct NodeValues<S: IndexStorage, L: Lexeme<S>> {
    /// One tree for each symbol on the stack.
    pub nodes: Vec<Node<L, S>>,
}

impl<S: IndexStorage, L: Lexeme<S>> NodeValues<S, L> {
    /// Makes a stack without trees, with room for `count` of them.
    pub fn with_room(alloc: Global, count: usize) -> Result<Self, AllocError>
        ensures { IfOk result (λ s. shapes_on S.number s.nodes.items ≡ []) }
    {
        let nodes = Vec::with_capacity(alloc, count)?;
        Ok(NodeValues { nodes })
    }

    /// Returns the topmost tree, if there is one.
    pub fn finish(self) -> Option<Node<L, S>>
        ensures { (G : Grammar) (t : Tree L) → shapes_on S.number self.nodes.items ≡ map (shape G) (t ∷ []) → HasNode S.number G result (Some t) }
    {
        let mut nodes = self.nodes;
        nodes.pop()
    }
}

impl<S: IndexStorage, L: Lexeme<S>> ValueStack<S, L> for NodeValues<S, L> {
    ghost stands = { λ G s ts. shapes_on S.number s.nodes.items ≡ map (shape G) ts };

    ghost starts_by = { λ s offset. Unit {0} };

    ghost starts_later = { λ s m n up le. tt };

    ghost keeps = { λ s t. Unit {0} };

    ghost keeps_all = { λ s. tt };

    ghost keeps_on = { λ s t u h k. tt };

    fn shift(&mut self, alloc: Global, lexeme: L) -> Result<(), AllocError> {
        self.nodes.push(Node::Term { lexeme })?;
        Ok(())
    }

    fn reduce(
        &mut self,
        alloc: Global,
        pidx: PIdx<S>,
        ridx: RIdx<S>,
        count: usize,
    ) -> Result<(), AllocError>
        requires stands { (G : Grammar) × (ts : List (Tree L)) × (shapes_on S.number self.old.nodes.items ≡ map (shape G) ts) × (count ≤ length ts) }
        ensures stands { OnOk result ((G : Grammar) (ts below : List (Tree L)) (f : Forest L) → S.number ridx.0 ≡ head_of G (S.number pidx.0) → shapes_on S.number self.old.nodes.items ≡ map (shape G) ts → pop count ts none ≡ Some (f, below) → shapes_on S.number self.new.nodes.items ≡ map (shape G) (node (S.number pidx.0) f ∷ below)) }
        ensures start { OnOk result ((offset : ℕ) → Unit {0} → Unit {0}) }
        ensures keeps { OnOk result (Unit {0}) }
    {
        if count == 1 {
            join_one(&mut self.nodes, ridx)?;
            return Ok(());
        }
        join_last(&mut self.nodes, ridx, count)?;
        Ok(())
    }
}
