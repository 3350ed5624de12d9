//! A tree as one vector of small nodes, children before their parent. It has no lexemes: its leaves are those of a list that the
//! caller has, in their order.

ghost use Rattle.std.specs.Prelude.{◌≡◌, ◌⊎◌, ◌<◌, ◌≤◌, ◌+◌, ◌^◌, ◌++◌, ◌∷◌, [], ℕ, List, Some, false, length, map, reverse, slice_get, IfSome, IfOk, OnOk};
ghost use Rattle.cfg_theory.specs.Grammar.{Grammar, head_of};
ghost use Rattle.cfg_theory.specs.Tree.{Tree, Forest, node, none};
ghost use Rattle.lr_theory.specs.Machine.{pop};
ghost use Rattle.parse_trees.specs.FlatTrees.{Piece, StandsAt, below, root_visits, size};
ghost use Rattle.parse_trees.specs.Outlines.{IsLeft, IsOutline, IsOutlineStack, StepsTo, SymbolVisit, erased, leaf_count, leaf_mark, mark_below, mark_of, marks_of, symbol_by, symbol_of, symbols, unplaced};

use crate::flat::Visit;
use crate::lex_api::Lexeme;
use crate::values::ValueStack;
use crate::vec_stack::put_above;
use cfg_base::index::IndexStorage;
use cfg_base::symbol::{PIdx, RIdx};
use std::alloc::{AllocError, Global};
use std::marker::{Model, PhantomData};

/// A leaf, or a production with the number of nodes below it.
#[derive(Clone, Copy)]
pub struct OutlineNode<S> {
    /// The production's number; of a leaf any.
    pub pidx: PIdx<S>,
    /// 0 for a leaf, else one more than the number of all nodes below; they come right before this one.
    pub reach: u32,
}

/// A tree without its lexemes, as one vector of nodes, each behind its children; the root is the last one.
#[derive(Drop)]
pub struct Outline<S: IndexStorage, L: Lexeme<S>> {
    nodes: Vec<OutlineNode<S>>,
    lexemes: PhantomData<L>,
}

impl<S: IndexStorage, L: Lexeme<S>> Model for Outline<S, L> {
    ghost use Rattle.parse_trees.specs.Outlines.{IsSomeOutline, OutlineValue, marks_of};

    ghost Value = { OutlineValue };

    ghost view = { λ o. record { marks = marks_of S.number o.nodes.items } };

    ghost invariant = { λ o. IsSomeOutline L (record { marks = marks_of S.number o.nodes.items }) };
}

/// The trees on a parser's stack without their lexemes, one behind the other. The last one is on top.
#[derive(Drop)]
pub struct OutlineValues<S: IndexStorage, L: Lexeme<S>> {
    /// The nodes of all trees, each node behind those below it.
    pub nodes: Vec<OutlineNode<S>>,
    /// For each tree the number of nodes up to its root, that one included.
    pub ends: Vec<usize>,
    /// Whether some node has too many nodes below for its entry.
    pub large: bool,
    lexemes: PhantomData<L>,
}

/// Returns the entry of a leaf.
fn leaf_node<S: IndexStorage>() -> OutlineNode<S>
    ensures { mark_of S.number result ≡ leaf_mark }
{
    OutlineNode {
        pidx: PIdx(S::from_usize(0).unwrap()),
        reach: 0,
    }
}

/// Returns one more than a number of nodes, or 0 if that is too large.
fn reach_of(below: usize) -> u32
    ensures { (result ≡ 0) ⊎ (result ≡ below + 1) }
{
    if below >= u32::MAX as usize {
        return 0;
    }
    below as u32 + 1
}

/// Returns whether some node has too many below, the last one, with this entry, among them.
fn are_large(large: bool, reach: u32) -> bool
    ensures { result ≡ false → (large ≡ false) × (reach ≡ 0 → ⊥) }
{
    large || reach == 0
}

impl<S: IndexStorage, L: Lexeme<S>> OutlineValues<S, L> {
    /// Makes a stack without trees, with room for `count` nodes.
    #[tactic(auto, using(crate::proofs::Outlines::no_trees))]
    pub fn with_room(alloc: Global, count: usize) -> Result<Self, AllocError>
        ensures { IfOk result (λ s. IsOutlineStack {L = L} [] (marks_of S.number s.nodes.items) s.ends.items s.large) }
    {
        let nodes = Vec::with_capacity(alloc, count)?;
        let ends = Vec::with_capacity(alloc, 64)?;
        Ok(OutlineValues {
            nodes,
            ends,
            large: false,
            lexemes: PhantomData,
        })
    }

    /// Makes the outline of the one tree on the stack, if each number of nodes has fitted.
    #[tactic(auto, using(crate::proofs::Outlines::one_tree))]
    pub fn finish(self) -> Option<Outline<S, L>>
        requires { (t : Tree L) × IsOutlineStack (t ∷ []) (marks_of S.number self.nodes.items) self.ends.items self.large }
        ensures { (t : Tree L) → IsOutlineStack (t ∷ []) (marks_of S.number self.nodes.items) self.ends.items self.large → IfSome result (IsOutline t) }
    {
        if self.large {
            return None;
        }
        Some(Outline {
            nodes: self.nodes,
            lexemes: PhantomData,
        })
    }
}

impl<S: IndexStorage, L: Lexeme<S>> ValueStack<S, L> for OutlineValues<S, L> {
    ghost stands = { λ G s ts. IsOutlineStack ts (marks_of S.number s.nodes.items) s.ends.items s.large };

    ghost starts_by = { λ s offset. Unit {0} };

    ghost starts_later = { λ s m n up le. tt };

    ghost keeps = { λ s t. Unit {0} };

    ghost keeps_all = { λ s. tt };

    ghost keeps_on = { λ s t u h k. tt };

    fn shift(&mut self, alloc: Global, lexeme: L) -> Result<(), AllocError> {
        self.nodes.push(leaf_node())?;
        self.ends.push(self.nodes.len())?;
        Ok(())
    }

    fn reduce(
        &mut self,
        alloc: Global,
        pidx: PIdx<S>,
        ridx: RIdx<S>,
        count: usize,
    ) -> Result<(), AllocError>
        requires stands { (G : Grammar) × (ts : List (Tree L)) × IsOutlineStack ts (marks_of S.number self.old.nodes.items) self.old.ends.items self.old.large × (count ≤ length ts) }
        ensures stands { OnOk result ((G : Grammar) (ts below : List (Tree L)) (f : Forest L) → S.number ridx.0 ≡ head_of G (S.number pidx.0) → IsOutlineStack ts (marks_of S.number self.old.nodes.items) self.old.ends.items self.old.large → pop count ts none ≡ Some (f, below) → IsOutlineStack (node (S.number pidx.0) f ∷ below) (marks_of S.number self.new.nodes.items) self.new.ends.items self.new.large) }
        ensures start { OnOk result ((offset : ℕ) → Unit {0} → Unit {0}) }
        ensures keeps { OnOk result (Unit {0}) }
    {
        let left = self.ends.len() - count;
        let start = if left == 0 { 0 } else { self.ends[left - 1] };
        let reach = reach_of(self.nodes.len() - start);
        self.large = are_large(self.large, reach);
        self.nodes.push(OutlineNode { pidx, reach })?;
        put_above(&mut self.ends, left, self.nodes.len())?;
        Ok(())
    }
}

/// A node on a walk: a leaf, by the number of leaves before it, or a node of a production.
#[derive(Clone, Copy)]
pub enum OutlineSymbol<S> {
    /// A leaf, by the number of those before it.
    Leaf(usize),
    /// A node of a production.
    Prod(PIdx<S>),
}

/// A node on a walk, and the number of nodes above it.
#[derive(Clone, Copy)]
pub struct OutlineVisit<S> {
    /// What the node is.
    pub symbol: OutlineSymbol<S>,
    /// The number of nodes above it; 0 for the root.
    pub depth: usize,
}

/// A walk over the nodes of a tree, each before its children, these from left to right. It stores only the nodes that wait.
#[derive(Drop)]
pub struct OutlineWalk<'t, S: IndexStorage, L: Lexeme<S>> {
    /// The nodes of the tree.
    pub nodes: &'t [OutlineNode<S>],
    /// The nodes that wait, the next one last.
    pub waiting: Vec<Visit>,
    /// The number of leaves that were visited.
    pub seen: usize,
    lexemes: PhantomData<L>,
}

/// Returns the node of an index.
fn node_at<S: IndexStorage>(nodes: &[OutlineNode<S>], index: usize) -> OutlineNode<S>
    requires { index < length nodes.now }
    ensures { slice_get nodes.now index ≡ Some result }
{
    nodes[index]
}

/// Returns the number of nodes below a node.
fn below_of<S: IndexStorage>(node: OutlineNode<S>) -> usize
    ensures { result ≡ mark_below (mark_of S.number node) }
{
    (node.reach as usize).saturating_sub(1)
}

/// Puts the children of a node on those that wait, the first one on top.
fn push_children<S: IndexStorage, L: Lexeme<S>>(
    nodes: &[OutlineNode<S>],
    at: Visit,
    waiting: &mut Vec<Visit>,
) -> Result<(), AllocError>
    requires stands { (pieces : List (Piece L)) × (k : ℕ) × (t : Tree L) × (marks_of S.number nodes.now ≡ map erased pieces) × StandsAt unplaced pieces k t × (at.index + 1 ≡ k + size t) }
    requires depth { at.depth < length nodes.now }
    ensures { (pieces : List (Piece L)) (k : ℕ) (t : Tree L) → marks_of S.number nodes.now ≡ map erased pieces → StandsAt unplaced pieces k t → at.index + 1 ≡ k + size t →
        OnOk result (waiting.new.items ≡ waiting.old.items ++ reverse (root_visits k (at.depth + 1) (below t))) }
{
    // For the proof alone: this read shows that the number of nodes fits.
    let _count = nodes.len();
    let depth = at.depth + 1;
    let stop = at.index - below_of(node_at(nodes, at.index));
    let mut end = at.index;
    'children: while stop < end {
        let index = end - 1;
        waiting.push(Visit { index, depth })?;
        end = index - below_of(node_at(nodes, index));
    }
    Ok(())
}

/// Returns what a node behind `seen` leaves is.
fn symbol_of_node<S: IndexStorage>(node: OutlineNode<S>, seen: usize) -> OutlineSymbol<S>
    ensures { symbol_of S.number result ≡ symbol_by (mark_of S.number node) seen }
{
    if node.reach == 0 {
        return OutlineSymbol::Leaf(seen);
    }
    OutlineSymbol::Prod(node.pidx)
}

/// Returns the number of leaves up to a node behind `seen` of them.
fn seen_behind<S: IndexStorage>(node: OutlineNode<S>, seen: usize) -> usize
    ensures { seen + 1 < 2 ^ 64 → result ≡ seen + leaf_count (mark_of S.number node) }
{
    if node.reach == 0 {
        return seen.saturating_add(1);
    }
    seen
}

impl<S: IndexStorage, L: Lexeme<S>> Outline<S, L> {
    /// Returns the number of nodes.
    pub fn len(&self) -> usize
        ensures { result ≡ length self.now.marks }
    {
        self.nodes.len()
    }

    /// Begins a walk at the root.
    pub fn walk(&self, alloc: Global) -> Result<OutlineWalk<'_, S, L>, AllocError>
        ensures { (t : Tree L) → IsOutline t self.now → IfOk result (λ w. IsLeft L S.number w.nodes.now w.waiting.items w.seen (symbols 0 0 t)) }
    {
        let mut waiting = Vec::with_capacity(alloc, 64)?;
        waiting.push(Visit {
            index: self.nodes.len() - 1,
            depth: 0,
        })?;
        Ok(OutlineWalk {
            nodes: self.nodes.as_slice(),
            waiting,
            seen: 0,
            lexemes: PhantomData,
        })
    }
}

impl<'t, S: IndexStorage, L: Lexeme<S>> OutlineWalk<'t, S, L> {
    /// Returns the next node, if one is left.
    pub fn step(&mut self) -> Result<Option<OutlineVisit<S>>, AllocError>
        requires { (rest : List SymbolVisit) × IsLeft L S.number self.old.nodes.now self.old.waiting.items self.old.seen rest }
        ensures { (rest : List SymbolVisit) → IsLeft L S.number self.old.nodes.now self.old.waiting.items self.old.seen rest →
            IfOk result (λ o. StepsTo S.number o rest (IsLeft L S.number self.new.nodes.now self.new.waiting.items self.new.seen)) }
    {
        match self.waiting.pop() {
            Some(visit) => {
                let node = node_at(self.nodes, visit.index);
                push_children::<S, L>(self.nodes, visit, &mut self.waiting)?;
                let symbol = symbol_of_node(node, self.seen);
                self.seen = seen_behind(node, self.seen);
                let depth = visit.depth;
                Ok(Some(OutlineVisit { symbol, depth }))
            }
            None => Ok(None),
        }
    }
}
