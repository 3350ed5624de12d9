//! A tree by rules.

ghost use Rattle.std.specs.Prelude.{◌≡◌, None, ◌<◌, ◌≤◌, ◌++◌, ℕ, List, length, reverse, IfSome, IfOk, OnOk, string_bytes, replicate};
ghost use Rattle.cfg_theory.specs.Grammar.{end_token};
ghost use Rattle.parse_trees.specs.NodeLists.{same_shape};
ghost use Rattle.parse_trees.specs.Shapes.{rule_line, lexeme_line, token_text, HasText, CanShow, CanShowAll, CanShowWaiting, tree_text, trees_text, waiting_text, shape_of, shapes_of};
ghost use Rattle.cfg_numbered.specs.Value.{GrammarValue};
ghost use Rattle.parse_trees.specs.declared.node.Node.TheVariants as variants;

use crate::lex_api::Lexeme;
use crate::node_lists::{entries_of, node_of, same_lists};
use cfg_base::index::IndexStorage;
use cfg_base::symbol::{RIdx, TIdx};
use cfg_numbered::yacc::grammar::NumberedGrammar;
use std::alloc::{AllocError, Global};

/// A lexeme, or a rule with the nodes of its symbols.
pub enum Node<L: Lexeme<S>, S: IndexStorage> {
    /// A leaf.
    Term {
        /// The lexeme, which has the token and the span.
        lexeme: L,
    },
    /// A node of a rule.
    Nonterm {
        /// The rule's number.
        ridx: RIdx<S>,
        /// The nodes of the symbols of one of the rule's productions, in order.
        nodes: Vec<Node<L, S>>,
    },
}

impl<L: Lexeme<S>, S: IndexStorage> Drop for Node<L, S> {
    fn drop(self) {
        match self {
            Node::Term { lexeme: _ } => {}
            Node::Nonterm { ridx: _, nodes } => dismantle(nodes),
        }
    }
}

impl<L: Lexeme<S>, S: IndexStorage> Node<L, S> {
    /// Returns a line for each node, a space deeper than its parent: a rule's name, or a token's and the text of
    /// the lexeme.
    pub fn pp(
        &self,
        alloc: Global,
        grm: &NumberedGrammar<S>,
        input: &str,
    ) -> Result<String, AllocError>
        requires { CanShow grm.now L.lex input.now (shape_of S.number self.now) }
        ensures { IfOk result (λ text. string_bytes text ≡ tree_text grm.now L.lex input.now 0 (shape_of S.number self.now)) }
    {
        let mut text = String::new(alloc);
        let mut waiting = Vec::new(alloc);
        waiting.push(Waiting {
            node: self,
            depth: 0,
        })?;
        'waiting: while let Some(next) = waiting.pop() {
            let Waiting { node, depth } = next;
            show_next(&mut text, grm, input, node, depth, &mut waiting)?;
        }
        Ok(text)
    }

    /// Copies the tree.
    pub fn clone(&self, alloc: Global) -> Result<Node<L, S>, AllocError>
        ensures { IfOk result (λ node. shape_of S.number node ≡ shape_of S.number self.now) }
    {
        let entries = entries_of(alloc, self)?;
        let node = node_of(alloc, entries.as_slice())?;
        Ok(node)
    }

    /// Returns whether the nodes have the same rules at the same places, and equal lexemes.
    pub fn equals(&self, alloc: Global, other: &Node<L, S>) -> Result<bool, AllocError>
        ensures { IfOk result (λ same. same ≡ same_shape L.eq (shape_of S.number self.now) (shape_of S.number other.now)) }
    {
        let one = entries_of(alloc, self)?;
        let two = entries_of(alloc, other)?;
        Ok(same_lists(one.as_slice(), two.as_slice()))
    }

    /// Returns the nodes below, and the rule; a lexeme has none.
    pub fn into_nodes(self) -> Option<(RIdx<S>, Vec<Node<L, S>>)>
        ensures below { IfSome result (λ below. self ≡ variants.Nonterm below.0 below.1) }
        ensures none { result ≡ None → (lexeme : L) × (self ≡ variants.Term lexeme) }
    {
        match self {
            Node::Term { lexeme: _ } => None,
            Node::Nonterm { ridx, nodes } => Some((ridx, nodes)),
        }
    }
}

// Each vector from `above` on ends in a node that holds the one above it, the root's aside.
fn dismantle<L: Lexeme<S>, S: IndexStorage>(mut nodes: Vec<Node<L, S>>) {
    let alloc = *nodes.allocator();
    let mut above = Vec::new(alloc);
    'turns: loop {
        match nodes.pop() {
            Some(node) => {
                if let Some((ridx, below)) = node.into_nodes() {
                    if nodes.is_empty() {
                        nodes.destroy_empty();
                        nodes = below;
                    } else if below.is_empty() {
                        below.destroy_empty();
                    } else {
                        nodes.push_reserved(Node::Nonterm { ridx, nodes: above });
                        above = nodes;
                        nodes = below;
                    }
                }
            }
            None => {
                nodes.destroy_empty();
                let Some(link) = above.pop() else {
                    above.destroy_empty();
                    return;
                };
                nodes = above;
                match link.into_nodes() {
                    Some((_ridx, higher)) => above = higher,
                    None => above = Vec::new(alloc),
                }
            }
        }
    }
}

/// A node that is still to be shown, and the number of nodes above it.
#[derive(Clone, Copy)]
pub(crate) struct Waiting<'a, L: Lexeme<S>, S: IndexStorage> {
    pub node: &'a Node<L, S>,
    pub depth: usize,
}

/// Adds as many spaces.
fn push_spaces(text: &mut String, count: usize) -> Result<(), AllocError>
    ensures { OnOk result (string_bytes text.new ≡ string_bytes text.old ++ replicate count 32) }
{
    for _at in 0..count {
        text.push_str(" ")?;
    }
    Ok(())
}

/// Adds a rule's line.
#[tactic(auto, unfolding(crate::specs::Shapes::rule_line))]
pub(crate) fn push_rule_line<S: IndexStorage>(
    text: &mut String,
    grm: &NumberedGrammar<S>,
    depth: usize,
    ridx: RIdx<S>,
) -> Result<(), AllocError>
    requires { S.number ridx.0 < grm.now.grammar.rules }
    ensures { OnOk result (string_bytes text.new ≡ string_bytes text.old ++ rule_line grm.now depth (S.number ridx.0)) }
{
    push_spaces(text, depth)?;
    text.push_str(grm.rule_name_str(ridx))?;
    text.push_str("\n")?;
    Ok(())
}

/// Returns the name of a token that isn't the end token.
fn name_of<S: IndexStorage>(grm: &NumberedGrammar<S>, tidx: TIdx<S>) -> &str
    requires { S.number tidx.0 < end_token grm.now.grammar }
    ensures { result.now ≡ token_text grm.now (S.number tidx.0) }
{
    // For the proof alone: this read gives it the invariant of each grammar.
    let _end = grm.eof_token_idx();
    match grm.token_name(tidx) {
        Some(name) => name,
        None => "",
    }
}

/// Adds a lexeme's line.
#[tactic(auto, unfolding(crate::specs::Shapes::lexeme_line))]
pub(crate) fn push_lexeme_line<L: Lexeme<S>, S: IndexStorage>(
    text: &mut String,
    grm: &NumberedGrammar<S>,
    input: &str,
    depth: usize,
    lexeme: L,
) -> Result<(), AllocError>
    requires { HasText grm.now L.lex input.now lexeme }
    ensures { OnOk result (string_bytes text.new ≡ string_bytes text.old ++ lexeme_line grm.now L.lex input.now depth lexeme) }
{
    let span = lexeme.span();
    push_spaces(text, depth)?;
    text.push_str(name_of(grm, TIdx(lexeme.tok_id())))?;
    text.push_str(" ")?;
    text.push_str(&input[span.start()..span.end()])?;
    text.push_str("\n")?;
    Ok(())
}

/// Adds the line of a node, and puts the nodes below it on those that wait.
fn show_next<'a, L: Lexeme<S>, S: IndexStorage>(
    text: &mut String,
    grm: &NumberedGrammar<S>,
    input: &str,
    node: &'a Node<L, S>,
    depth: usize,
    waiting: &mut Vec<Waiting<'a, L, S>>,
) -> Result<(), AllocError>
    requires shown { CanShow grm.now L.lex input.now (shape_of S.number node.now) }
    requires depth { depth ≤ length (string_bytes text.old) }
    requires waiting { CanShowWaiting grm.now L.lex input.now S.number (length (string_bytes text.old)) (reverse waiting.old.items) }
    ensures text { OnOk result (string_bytes text.new ++ waiting_text grm.now L.lex input.now S.number (reverse waiting.new.items) ≡
        string_bytes text.old ++ (tree_text grm.now L.lex input.now depth (shape_of S.number node.now) ++ waiting_text grm.now L.lex input.now S.number (reverse waiting.old.items))) }
    ensures waiting { OnOk result (CanShowWaiting grm.now L.lex input.now S.number (length (string_bytes text.new)) (reverse waiting.new.items)) }
    ensures more { OnOk result (length (string_bytes text.old) < length (string_bytes text.new)) }
{
    match node {
        Node::Term { lexeme } => {
            push_lexeme_line(text, grm, input, depth, *lexeme)?;
            Ok(())
        }
        Node::Nonterm { ridx, nodes } => {
            push_rule_line(text, grm, depth, *ridx)?;
            // For the proof alone: this read shows that the text's length fits.
            let _len = text.len();
            push_nodes(nodes.as_slice(), depth + 1, waiting)?;
            Ok(())
        }
    }
}

/// Puts the nodes on those that wait, the first one on top.
fn push_nodes<'a, L: Lexeme<S>, S: IndexStorage>(
    nodes: &'a [Node<L, S>],
    depth: usize,
    waiting: &mut Vec<Waiting<'a, L, S>>,
) -> Result<(), AllocError>
    ensures text { (g : GrammarValue) (input : List ℕ) → OnOk result (waiting_text g L.lex input S.number (reverse waiting.new.items) ≡
        trees_text g L.lex input depth (shapes_of S.number nodes.now) ++ waiting_text g L.lex input S.number (reverse waiting.old.items)) }
    ensures shown { (g : GrammarValue) (input : List ℕ) (bound : ℕ) → depth ≤ bound → CanShowAll g L.lex input (shapes_of S.number nodes.now) →
        CanShowWaiting g L.lex input S.number bound (reverse waiting.old.items) → OnOk result (CanShowWaiting g L.lex input S.number bound (reverse waiting.new.items)) }
{
    let count = nodes.len();
    'nodes: for at in 0..count {
        waiting.push(Waiting {
            node: &nodes[count - 1 - at],
            depth,
        })?;
    }
    Ok(())
}
