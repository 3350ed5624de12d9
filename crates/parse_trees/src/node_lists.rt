//! Trees by rules as lists of their nodes, so that copies and comparisons don't recurse.

ghost use Rattle.std.specs.Prelude.{◌≡◌, ◌≤◌, ◌+◌, ◌∷◌, ◌++◌, ℕ, List, length, map, reverse, Some, IsSome, IfOk, OnOk};
ghost use Rattle.parse_trees.specs.NodeLists.{entry_of, downward, all_downward, waiting_entries, grab, put_entry, shapes_on, same_entry, same_entries};
ghost use Rattle.parse_trees.specs.Shapes.{Shape, Shapes, over, nothing, shape_of, shapes_of};

use crate::lex_api::Lexeme;
use crate::node::Node;
use cfg_base::index::IndexStorage;
use cfg_base::symbol::RIdx;
use std::alloc::{AllocError, Global};

/// A lexeme, or a rule with the number of its node's children.
#[derive(Clone, Copy)]
pub(crate) enum NodeEntry<S, L> {
    Term(L),
    Nonterm(RIdx<S>, usize),
}

/// Puts nodes on those that wait, the last one on top.
fn put_all<'a, L: Lexeme<S>, S: IndexStorage>(
    nodes: &'a [Node<L, S>],
    waiting: &mut Vec<&'a Node<L, S>>,
) -> Result<(), AllocError>
    ensures { OnOk result (waiting_entries S.number (reverse waiting.new.items) ≡ all_downward (shapes_of S.number nodes.now) ++ waiting_entries S.number (reverse waiting.old.items)) }
{
    'nodes: for index in 0..nodes.len() {
        waiting.push(&nodes[index])?;
    }
    Ok(())
}

/// Lists a node, and puts its children on those that wait.
fn list_next<'a, L: Lexeme<S>, S: IndexStorage>(
    node: &'a Node<L, S>,
    found: &mut Vec<NodeEntry<S, L>>,
    waiting: &mut Vec<&'a Node<L, S>>,
) -> Result<(), AllocError>
    ensures listed { OnOk result (map (entry_of S.number) found.new.items ++ waiting_entries S.number (reverse waiting.new.items) ≡
        map (entry_of S.number) found.old.items ++ (downward (shape_of S.number node.now) ++ waiting_entries S.number (reverse waiting.old.items))) }
    ensures more { OnOk result (length found.new.items ≡ length found.old.items + 1) }
{
    match node {
        Node::Term { lexeme } => {
            found.push(NodeEntry::Term(*lexeme))?;
            Ok(())
        }
        Node::Nonterm { ridx, nodes } => {
            found.push(NodeEntry::Nonterm(*ridx, nodes.len()))?;
            put_all(nodes.as_slice(), waiting)?;
            Ok(())
        }
    }
}

/// Returns the nodes, each before its children, these from right to left.
pub(crate) fn entries_of<L: Lexeme<S>, S: IndexStorage>(
    alloc: Global,
    root: &Node<L, S>,
) -> Result<Vec<NodeEntry<S, L>>, AllocError>
    ensures { IfOk result (λ entries. map (entry_of S.number) entries.items ≡ downward (shape_of S.number root.now)) }
{
    let mut found = Vec::new(alloc);
    let mut waiting = Vec::new(alloc);
    waiting.push(root)?;
    'waiting: while let Some(node) = waiting.pop() {
        list_next(node, &mut found, &mut waiting)?;
    }
    Ok(found)
}

/// Takes the `count` last nodes for the children of one of the rule.
pub(crate) fn join_last<L: Lexeme<S>, S: IndexStorage>(
    made: &mut Vec<Node<L, S>>,
    ridx: RIdx<S>,
    count: usize,
) -> Result<(), AllocError>
    requires { count ≤ length made.old.items }
    ensures { (ss : Shapes L) (rest : List (Shape L)) → grab (shapes_on S.number made.old.items) count nothing ≡ Some (ss, rest) →
        OnOk result (shapes_on S.number made.new.items ≡ over (S.number ridx.0) ss ∷ rest) }
{
    let left = made.len() - count;
    let nodes = made.split_off(left)?;
    made.push(Node::Nonterm { ridx, nodes })?;
    Ok(())
}

/// Replaces the last node by one of the rule, whose only child it is.
#[inline(always)]
pub(crate) fn join_one<L: Lexeme<S>, S: IndexStorage>(
    made: &mut Vec<Node<L, S>>,
    ridx: RIdx<S>,
) -> Result<(), AllocError>
    requires { 1 ≤ length made.old.items }
    ensures { (ss : Shapes L) (rest : List (Shape L)) → grab (shapes_on S.number made.old.items) 1 nothing ≡ Some (ss, rest) →
        OnOk result (shapes_on S.number made.new.items ≡ over (S.number ridx.0) ss ∷ rest) }
{
    let mut nodes = Vec::with_capacity(*made.allocator(), 1)?;
    nodes.push_reserved(made.take_last());
    made.push_reserved(Node::Nonterm { ridx, nodes });
    Ok(())
}

/// Puts the node of an entry behind these, in the place of its children.
fn make_next<L: Lexeme<S>, S: IndexStorage>(
    made: &mut Vec<Node<L, S>>,
    entry: NodeEntry<S, L>,
) -> Result<(), AllocError>
    requires { IsSome (put_entry (entry_of S.number entry) (shapes_on S.number made.old.items)) }
    ensures { OnOk result (put_entry (entry_of S.number entry) (shapes_on S.number made.old.items) ≡ Some (shapes_on S.number made.new.items)) }
{
    match entry {
        NodeEntry::Term(lexeme) => {
            made.push(Node::Term { lexeme })?;
            Ok(())
        }
        NodeEntry::Nonterm(ridx, count) => {
            join_last(made, ridx, count)?;
            Ok(())
        }
    }
}

/// Returns the node that the entries list.
pub(crate) fn node_of<L: Lexeme<S>, S: IndexStorage>(
    alloc: Global,
    entries: &[NodeEntry<S, L>],
) -> Result<Node<L, S>, AllocError>
    requires { (s : Shape L) × (map (entry_of S.number) entries.now ≡ downward s) }
    ensures { (s : Shape L) → map (entry_of S.number) entries.now ≡ downward s → IfOk result (λ node. shape_of S.number node ≡ s) }
{
    let mut made = Vec::new(alloc);
    let count = entries.len();
    'entries: for number in 0..count {
        make_next(&mut made, entries[count - 1 - number])?;
    }
    match made.pop() {
        Some(node) => Ok(node),
        None => unreachable!(),
    }
}

/// Returns whether the entries are equal.
fn same_entry<L: Lexeme<S>, S: IndexStorage>(one: NodeEntry<S, L>, other: NodeEntry<S, L>) -> bool
    ensures { result ≡ same_entry L.eq (entry_of S.number one) (entry_of S.number other) }
{
    match (one, other) {
        (NodeEntry::Term(x), NodeEntry::Term(y)) => x == y,
        (NodeEntry::Nonterm(r, n), NodeEntry::Nonterm(q, m)) => {
            r.0.to_usize() == q.0.to_usize() && n == m
        }
        _ => false,
    }
}

/// Returns whether the lists are equal.
pub(crate) fn same_lists<L: Lexeme<S>, S: IndexStorage>(
    one: &[NodeEntry<S, L>],
    other: &[NodeEntry<S, L>],
) -> bool
    ensures { result ≡ same_entries L.eq (map (entry_of S.number) one.now) (map (entry_of S.number) other.now) }
{
    if one.len() != other.len() {
        return false;
    }
    'entries: for index in 0..one.len() {
        if !same_entry(one[index], other[index]) {
            return false;
        }
    }
    true
}
