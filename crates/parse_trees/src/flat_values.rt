//! A flat tree, made beside a run.

ghost use Rattle.std.specs.Prelude.{◌≡◌, ◌≤◌, ◌∷◌, ℕ, List, length, [], Some, IfOk, OnOk};
ghost use Rattle.cfg_theory.specs.Grammar.{Grammar, head_of};
ghost use Rattle.cfg_theory.specs.Tree.{Tree, Forest, node, none};
ghost use Rattle.lr_theory.specs.Machine.{pop};
ghost use Rattle.lr_theory.specs.StackValues.{stack_spans, reduction_span};
ghost use Rattle.parse_trees.specs.Lex.{span_by};
ghost use Rattle.parse_trees.specs.Stacks.{span_of_places};
ghost use Rattle.parse_trees.specs.FlatTrees.{pieces_of, IsFlat};
ghost use Rattle.parse_trees.specs.FlatValues.{FlatStand, PiecesStartBy};
ghost use Rattle.std.proofs.Math.Nat.{le_trans};

use crate::flat::{FlatBuilder, FlatTree, span_at};
use crate::lex_api::Lexeme;
use crate::values::ValueStack;
use cfg_base::index::IndexStorage;
use cfg_base::span::Span;
use cfg_base::symbol::{PIdx, RIdx};
use std::alloc::{AllocError, Global};

/// The trees of a run by their nodes.
#[derive(Drop)]
pub struct FlatValues<S: IndexStorage, L: Lexeme<S>> {
    /// The trees of the stack.
    pub builder: FlatBuilder<S, L>,
}

impl<S: IndexStorage, L: Lexeme<S>> FlatValues<S, L> {
    /// Makes a stack without trees, with room for `count` nodes.
    pub fn with_room(alloc: Global, count: usize) -> Result<Self, AllocError>
        ensures stands { IfOk result (λ s. FlatStand (span_by L.lex) [] (pieces_of S.number s.builder.nodes.items) s.builder.ends.items) }
        ensures start { IfOk result (λ s. (n : ℕ) → PiecesStartBy (span_by L.lex) (pieces_of S.number s.builder.nodes.items) n) }
    {
        let builder = FlatBuilder::with_room(alloc, count)?;
        Ok(FlatValues { builder })
    }

    /// Returns the span of a reduction of `count` trees: from the start of the deepest to the end of the top one.
    /// Where `count` is 0 it is that of the top tree, or (0, 0) on an empty stack.
    fn reduced_span(&self, count: usize) -> Span
        requires { (ts : List (Tree L)) × FlatStand (span_by L.lex) ts (pieces_of S.number self.now.builder.nodes.items) self.now.builder.ends.items × (count ≤ length ts) }
        ensures { (ts : List (Tree L)) → FlatStand (span_by L.lex) ts (pieces_of S.number self.now.builder.nodes.items) self.now.builder.ends.items → span_of_places result ≡ reduction_span count (stack_spans (span_by L.lex) ts) }
    {
        let nodes = self.builder.nodes.as_slice();
        let ends = self.builder.ends.as_slice();
        if ends.is_empty() {
            return Span::new(0, 0);
        }
        let top = span_at(nodes, nodes.len() - 1);
        if count < 2 {
            return top;
        }
        let deepest = span_at(nodes, ends[ends.len() - count] - 1);
        Span::new(deepest.start(), top.end())
    }

    /// Makes the tree of the one tree on the stack.
    pub fn finish(self) -> FlatTree<S, L>
        requires { (t : Tree L) × FlatStand (span_by L.lex) (t ∷ []) (pieces_of S.number self.builder.nodes.items) self.builder.ends.items }
        ensures { (t : Tree L) → FlatStand (span_by L.lex) (t ∷ []) (pieces_of S.number self.builder.nodes.items) self.builder.ends.items → IsFlat (span_by L.lex) t result.pieces }
    {
        self.builder.finish()
    }
}

impl<S: IndexStorage, L: Lexeme<S>> ValueStack<S, L> for FlatValues<S, L> {
    ghost stands = { λ G s ts. FlatStand (span_by L.lex) ts (pieces_of S.number s.builder.nodes.items) s.builder.ends.items };

    ghost starts_by = { λ s offset. PiecesStartBy (span_by L.lex) (pieces_of S.number s.builder.nodes.items) offset };

    ghost starts_later = { λ s m n up le. record { by = λ k x e. le_trans (up.by k x e) le } };

    ghost keeps = { λ s t. Unit {0} };

    ghost keeps_all = { λ s. tt };

    ghost keeps_on = { λ s t u h k. tt };

    fn shift(&mut self, alloc: Global, lexeme: L) -> Result<(), AllocError> {
        self.builder.shift(lexeme)?;
        Ok(())
    }

    fn reduce(
        &mut self,
        alloc: Global,
        pidx: PIdx<S>,
        ridx: RIdx<S>,
        count: usize,
    ) -> Result<(), AllocError>
        requires stands { (G : Grammar) × (ts : List (Tree L)) × FlatStand (span_by L.lex) ts (pieces_of S.number self.old.builder.nodes.items) self.old.builder.ends.items × (count ≤ length ts) }
        ensures stands { OnOk result ((G : Grammar) (ts below : List (Tree L)) (f : Forest L) → S.number ridx.0 ≡ head_of G (S.number pidx.0) → FlatStand (span_by L.lex) ts (pieces_of S.number self.old.builder.nodes.items) self.old.builder.ends.items → pop count ts none ≡ Some (f, below) → FlatStand (span_by L.lex) (node (S.number pidx.0) f ∷ below) (pieces_of S.number self.new.builder.nodes.items) self.new.builder.ends.items) }
        ensures start { OnOk result ((offset : ℕ) → PiecesStartBy (span_by L.lex) (pieces_of S.number self.old.builder.nodes.items) offset → PiecesStartBy (span_by L.lex) (pieces_of S.number self.new.builder.nodes.items) offset) }
        ensures keeps { OnOk result (Unit {0}) }
    {
        let span = self.reduced_span(count);
        self.builder.reduce(pidx, span, count)?;
        Ok(())
    }
}
