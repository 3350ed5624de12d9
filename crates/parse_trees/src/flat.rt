//! A tree as one vector of nodes, children before their parent.

ghost use Rattle.std.specs.Prelude.{◌≡◌, ◌<◌, ◌+◌, ◌∷◌, ◌++◌, [], ℕ, List, length, reverse, Some, OnOk, IfOk, slice_get, option_map, string_bytes};
ghost use Rattle.std.specs.List.{flat_map};
ghost use Rattle.parse_trees.specs.FlatLines.{CanShowTree, CanShowPiece, CanVisit, visit_line};
ghost use Rattle.parse_trees.specs.Shapes.{tree_text, shape, shape_of};
ghost use Rattle.cfg_theory.specs.Tree.{Tree, leaf, node, Forest, none};
ghost use Rattle.cfg_theory.specs.Fold.{span_over};
ghost use Rattle.lr_theory.specs.Machine.{pop};
ghost use Rattle.lr_theory.specs.StackValues.{top_span};
ghost use Rattle.parse_trees.specs.Lex.{span_by, token_by};
ghost use Rattle.parse_trees.specs.Stacks.{span_of_places};
ghost use Rattle.parse_trees.specs.FlatTrees.{term, nonterm, IsFlatStack, IsFlat, IsFlatTree, IsSomeTree, FlatValue, StandsAt, pieces_of, piece_span, nodes_below, size, below, preorder, root_visits};

use crate::flat_nodes::node_of;
use crate::lex_api::Lexeme;
use crate::node::{Node, push_lexeme_line, push_rule_line};
use crate::vec_stack::put_above;
use cfg_base::index::IndexStorage;
use cfg_base::span::Span;
use cfg_base::symbol::PIdx;
use cfg_numbered::yacc::grammar::NumberedGrammar;
use std::alloc::{AllocError, Global};
use std::marker::Model;

/// A lexeme, or a production with its span and the number of nodes below it, which come right before it.
#[derive(Clone, Copy)]
pub enum FlatNode<S, L> {
    /// A leaf.
    Term {
        /// The lexeme, which has the token and the span.
        lexeme: L,
    },
    /// A node of a production.
    Nonterm {
        /// The production's number, which names the rule too.
        pidx: PIdx<S>,
        /// From the first symbol's start to the last one's end. For a production without symbols it is the
        /// span of the tree before, or (0, 0).
        span: Span,
        /// The number of all nodes below, at every depth; they come right before this one.
        below: usize,
    },
}

/// A node on a walk: its index, and the number of nodes above it.
#[derive(Clone, Copy, Debug, PartialEq, Eq)]
pub struct Visit {
    /// The index in the tree's vector of nodes.
    pub index: usize,
    /// The number of nodes above it; 0 for the root.
    pub depth: usize,
}

/// A tree as one vector of nodes, each behind its children; the root is the last one.
#[derive(Drop)]
pub struct FlatTree<S: IndexStorage, L: Lexeme<S>> {
    nodes: Vec<FlatNode<S, L>>,
}

impl<S: IndexStorage, L: Lexeme<S>> Model for FlatTree<S, L> {
    ghost use Rattle.parse_trees.specs.Lex.{span_by};
    ghost use Rattle.parse_trees.specs.FlatTrees.{FlatValue, IsSomeTree, pieces_of};

    ghost Value = { FlatValue L };

    ghost view = { λ f. record { pieces = pieces_of S.number f.nodes.items } };

    ghost invariant = { λ f. IsSomeTree (span_by L.lex) (record { pieces = pieces_of S.number f.nodes.items }) };
}

/// Returns the node of an index.
pub(crate) fn node_at<S: IndexStorage, L: Lexeme<S>>(
    nodes: &[FlatNode<S, L>],
    index: usize,
) -> FlatNode<S, L>
    requires { index < length nodes.now }
    ensures { slice_get nodes.now index ≡ Some result }
{
    nodes[index]
}

/// Returns the number of nodes below the one of an index.
fn below_at<S: IndexStorage, L: Lexeme<S>>(nodes: &[FlatNode<S, L>], index: usize) -> usize
    requires { index < length nodes.now }
    ensures { option_map nodes_below (slice_get (pieces_of S.number nodes.now) index) ≡ Some result }
{
    match node_at(nodes, index) {
        FlatNode::Term { lexeme: _ } => 0,
        FlatNode::Nonterm {
            pidx: _,
            span: _,
            below,
        } => below,
    }
}

/// Returns the span of the node of an index.
pub(crate) fn span_at<S: IndexStorage, L: Lexeme<S>>(nodes: &[FlatNode<S, L>], index: usize) -> Span
    requires { index < length nodes.now }
    ensures { option_map (piece_span (span_by L.lex)) (slice_get (pieces_of S.number nodes.now) index) ≡ Some (span_of_places result) }
{
    match node_at(nodes, index) {
        FlatNode::Term { lexeme } => lexeme.span(),
        FlatNode::Nonterm {
            pidx: _,
            span,
            below: _,
        } => span,
    }
}

/// Puts the children of a node on those that wait, the first one on top.
fn push_children<S: IndexStorage, L: Lexeme<S>>(
    nodes: &[FlatNode<S, L>],
    at: Visit,
    waiting: &mut Vec<Visit>,
) -> Result<(), AllocError>
    requires stands { (k : ℕ) × (t : Tree L) × StandsAt (span_by L.lex) (pieces_of S.number nodes.now) k t × (at.index + 1 ≡ k + size t) }
    requires depth { at.depth < length nodes.now }
    ensures { (k : ℕ) (t : Tree L) → StandsAt (span_by L.lex) (pieces_of S.number nodes.now) k t → at.index + 1 ≡ k + size t →
        OnOk result (waiting.new.items ≡ waiting.old.items ++ reverse (root_visits k (at.depth + 1) (below t))) }
{
    // For the proof alone: this read shows that the number of nodes fits.
    let _count = nodes.len();
    let depth = at.depth + 1;
    let stop = at.index - below_at(nodes, at.index);
    let mut end = at.index;
    'children: while stop < end {
        let index = end - 1;
        waiting.push(Visit { index, depth })?;
        end = index - below_at(nodes, index);
    }
    Ok(())
}

impl<S: IndexStorage, L: Lexeme<S>> FlatTree<S, L> {
    /// Returns the nodes, each behind its children.
    pub fn nodes(&self) -> &[FlatNode<S, L>]
        ensures value { pieces_of S.number result.now ≡ self.now.pieces }
        ensures tree { IsSomeTree (span_by L.lex) self.now }
        ensures only { (t u : Tree L) → IsFlat (span_by L.lex) t self.now.pieces → IsFlat (span_by L.lex) u self.now.pieces → t ≡ u }
    {
        self.nodes.as_slice()
    }

    /// Returns the tree by rules. It is one of the grammar, as each tree that `parse_flat` returns is.
    pub fn to_node(&self, alloc: Global, grm: &NumberedGrammar<S>) -> Result<Node<L, S>, AllocError>
        requires { IsFlatTree grm.now.grammar (token_by L.lex) (span_by L.lex) self.now }
        ensures { (t : Tree L) → IsFlat (span_by L.lex) t self.now.pieces → IfOk result (λ node. shape_of S.number node ≡ shape grm.now.grammar t) }
    {
        let node = node_of(alloc, grm, self.nodes())?;
        Ok(node)
    }

    /// Returns all nodes, each before its children, these from left to right.
    pub fn preorder(&self, alloc: Global) -> Result<Vec<Visit>, AllocError>
        ensures { (t : Tree L) → IsFlat (span_by L.lex) t self.now.pieces → IfOk result (λ visits. visits.items ≡ preorder 0 0 t) }
    {
        let visits = preorder_of(alloc, self.nodes())?;
        Ok(visits)
    }

    /// Returns the children of a visited node, from left to right.
    pub fn children(&self, alloc: Global, at: Visit) -> Result<Vec<Visit>, AllocError>
        requires index { at.index < length self.now.pieces }
        requires depth { at.depth < length self.now.pieces }
        ensures root { (k : ℕ) × (t : Tree L) × StandsAt (span_by L.lex) self.now.pieces k t × (at.index + 1 ≡ k + size t) }
        ensures children { (k : ℕ) (t : Tree L) → StandsAt (span_by L.lex) self.now.pieces k t → at.index + 1 ≡ k + size t →
            IfOk result (λ visits. visits.items ≡ root_visits k (at.depth + 1) (below t)) }
    {
        let mut visits = Vec::new(alloc);
        push_children(self.nodes(), at, &mut visits)?;
        visits.reverse();
        Ok(visits)
    }

    /// Returns a line for each node, a space deeper than its parent: a rule's name, or a token's and the text of
    /// the lexeme.
    pub fn pp(
        &self,
        alloc: Global,
        grm: &NumberedGrammar<S>,
        input: &str,
    ) -> Result<String, AllocError>
        requires { (t : Tree L) × IsFlat (span_by L.lex) t self.now.pieces × CanShowTree grm.now L.lex input.now t }
        ensures { (t : Tree L) → IsFlat (span_by L.lex) t self.now.pieces → IfOk result (λ text. string_bytes text ≡ tree_text grm.now L.lex input.now 0 (shape grm.now.grammar t)) }
    {
        let text = text_of(alloc, grm, input, self.nodes())?;
        Ok(text)
    }
}

/// Returns the lines of a tree's nodes.
fn text_of<S: IndexStorage, L: Lexeme<S>>(
    alloc: Global,
    grm: &NumberedGrammar<S>,
    input: &str,
    nodes: &[FlatNode<S, L>],
) -> Result<String, AllocError>
    requires { (t : Tree L) × IsFlat (span_by L.lex) t (pieces_of S.number nodes.now) × CanShowTree grm.now L.lex input.now t }
    ensures { (t : Tree L) → IsFlat (span_by L.lex) t (pieces_of S.number nodes.now) → IfOk result (λ text. string_bytes text ≡ tree_text grm.now L.lex input.now 0 (shape grm.now.grammar t)) }
{
    let visits = preorder_of(alloc, nodes)?;
    let text = visited_text(alloc, grm, input, nodes, visits.as_slice())?;
    Ok(text)
}

/// Adds the line of a visited node.
fn push_visit<S: IndexStorage, L: Lexeme<S>>(
    text: &mut String,
    grm: &NumberedGrammar<S>,
    input: &str,
    nodes: &[FlatNode<S, L>],
    visit: Visit,
) -> Result<(), AllocError>
    requires within { visit.index < length nodes.now }
    requires shown { CanShowPiece grm.now L.lex input.now (slice_get (pieces_of S.number nodes.now) visit.index) }
    ensures { OnOk result (string_bytes text.new ≡ string_bytes text.old ++ visit_line grm.now L.lex input.now (pieces_of S.number nodes.now) visit) }
{
    match node_at(nodes, visit.index) {
        FlatNode::Term { lexeme } => {
            push_lexeme_line(text, grm, input, visit.depth, lexeme)?;
            Ok(())
        }
        FlatNode::Nonterm {
            pidx,
            span: _,
            below: _,
        } => {
            // For the proof alone: this read shows that rules are in range.
            let _start = grm.start_prod();
            push_rule_line(text, grm, visit.depth, grm.prod_to_rule(pidx))?;
            Ok(())
        }
    }
}

/// Returns the lines of visited nodes.
fn visited_text<S: IndexStorage, L: Lexeme<S>>(
    alloc: Global,
    grm: &NumberedGrammar<S>,
    input: &str,
    nodes: &[FlatNode<S, L>],
    visits: &[Visit],
) -> Result<String, AllocError>
    requires { CanVisit grm.now L.lex input.now (pieces_of S.number nodes.now) visits.now }
    ensures { IfOk result (λ text. string_bytes text ≡ flat_map (visit_line grm.now L.lex input.now (pieces_of S.number nodes.now)) visits.now) }
{
    let mut text = String::new(alloc);
    'visits: for visit in visits {
        push_visit(&mut text, grm, input, nodes, *visit)?;
    }
    Ok(text)
}

/// Returns the nodes of a tree, each before its children.
fn preorder_of<S: IndexStorage, L: Lexeme<S>>(
    alloc: Global,
    nodes: &[FlatNode<S, L>],
) -> Result<Vec<Visit>, AllocError>
    requires { (t : Tree L) × IsFlat (span_by L.lex) t (pieces_of S.number nodes.now) }
    ensures { (t : Tree L) → IsFlat (span_by L.lex) t (pieces_of S.number nodes.now) → IfOk result (λ visits. visits.items ≡ preorder 0 0 t) }
{
    let mut found = Vec::with_capacity(alloc, nodes.len())?;
    let mut waiting = Vec::new(alloc);
    waiting.push(Visit {
        index: nodes.len() - 1,
        depth: 0,
    })?;
    'waiting: while let Some(visit) = waiting.pop() {
        found.push(visit)?;
        push_children(nodes, visit, &mut waiting)?;
    }
    Ok(found)
}

/// The trees on a parser's stack, one behind the other. The last one is on top.
#[derive(Drop)]
pub struct FlatBuilder<S: IndexStorage, L: Lexeme<S>> {
    /// The nodes of all trees, each node behind those below it.
    pub nodes: Vec<FlatNode<S, L>>,
    /// For each tree the number of nodes up to its root, that one included.
    pub ends: Vec<usize>,
}

/// Puts a node behind all.
#[inline(always)]
fn put_node<S: IndexStorage, L: Lexeme<S>>(
    nodes: &mut Vec<FlatNode<S, L>>,
    entry: FlatNode<S, L>,
) -> Result<(), AllocError>
    ensures { OnOk result (nodes.new.items ≡ nodes.old.items ++ entry ∷ []) }
{
    nodes.push(entry)?;
    Ok(())
}

impl<S: IndexStorage, L: Lexeme<S>> FlatBuilder<S, L> {
    /// Makes a stack without trees, with room for `count` nodes.
    pub(crate) fn with_room(alloc: Global, count: usize) -> Result<Self, AllocError>
        ensures stack { IfOk result (λ s. IsFlatStack (span_by L.lex) [] (pieces_of S.number s.nodes.items) s.ends.items) }
        ensures empty { IfOk result (λ s. s.nodes.items ≡ []) }
    {
        let nodes = Vec::with_capacity(alloc, count)?;
        let ends = Vec::with_capacity(alloc, 64)?;
        Ok(FlatBuilder { nodes, ends })
    }

    /// Puts a lexeme on top.
    pub(crate) fn shift(&mut self, lexeme: L) -> Result<(), AllocError>
        ensures put { OnOk result (pieces_of S.number self.new.nodes.items ≡ pieces_of S.number self.old.nodes.items ++ term lexeme ∷ []) }
        ensures stack { (ts : List (Tree L)) → IsFlatStack (span_by L.lex) ts (pieces_of S.number self.old.nodes.items) self.old.ends.items →
            OnOk result (IsFlatStack (span_by L.lex) (leaf lexeme ∷ ts) (pieces_of S.number self.new.nodes.items) self.new.ends.items) }
    {
        put_node(&mut self.nodes, FlatNode::Term { lexeme })?;
        self.ends.push(self.nodes.len())?;
        Ok(())
    }

    /// Puts the `count` topmost trees below the production, which has the span.
    pub(crate) fn reduce(
        &mut self,
        pidx: PIdx<S>,
        span: Span,
        count: usize,
    ) -> Result<(), AllocError>
        requires { (ts below : List (Tree L)) × (f : Forest L) × IsFlatStack (span_by L.lex) ts (pieces_of S.number self.old.nodes.items) self.old.ends.items × (pop count ts none ≡ Some (f, below)) }
        ensures put { OnOk result ((n : ℕ) × (pieces_of S.number self.new.nodes.items ≡ pieces_of S.number self.old.nodes.items ++ nonterm (S.number pidx.0) (span_of_places span) n ∷ [])) }
        ensures stack { (ts below : List (Tree L)) (f : Forest L) → IsFlatStack (span_by L.lex) ts (pieces_of S.number self.old.nodes.items) self.old.ends.items →
            pop count ts none ≡ Some (f, below) → span_of_places span ≡ span_over (span_by L.lex) (top_span (span_by L.lex) below) f →
            OnOk result (IsFlatStack (span_by L.lex) (node (S.number pidx.0) f ∷ below) (pieces_of S.number self.new.nodes.items) self.new.ends.items) }
    {
        let left = self.ends.len() - count;
        let start = if left == 0 { 0 } else { self.ends[left - 1] };
        let below = self.nodes.len() - start;
        put_node(&mut self.nodes, FlatNode::Nonterm { pidx, span, below })?;
        put_above(&mut self.ends, left, self.nodes.len())?;
        Ok(())
    }

    /// Makes the tree of the one tree on the stack.
    pub(crate) fn finish(self) -> FlatTree<S, L>
        requires { (t : Tree L) × IsFlatStack (span_by L.lex) (t ∷ []) (pieces_of S.number self.nodes.items) self.ends.items }
        ensures { (t : Tree L) → IsFlatStack (span_by L.lex) (t ∷ []) (pieces_of S.number self.nodes.items) self.ends.items → IsFlat (span_by L.lex) t result.pieces }
    {
        FlatTree { nodes: self.nodes }
    }
}
