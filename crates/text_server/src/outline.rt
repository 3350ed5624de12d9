//! The outline of a text: nodes of its tree, by the names of their rules.

ghost use Rattle.std.specs.Prelude.{◌≡◌, IfOk, None, OnOk, length};
ghost use Rattle.language_server.specs.Protocol.{error_in};
ghost use Rattle.text_server.specs.Outlines.{IsBounded, IsOutline};

use crate::diagnostics::parse_of;
use language_server::{Answer, Asked, Nested, Outline, ServeFault, Symbol};
use lrlex::BoundRules;
use parser_kit::ParserKit;
use report_forms::TreeNode;
use std::alloc::{AllocError, Global};
use text_parses::{Parsed, WordLexer, tree_nodes};

/// The most symbols of an outline.
const MOST_SYMBOLS: usize = 4096;

/// No symbol is below so many others.
const MOST_DEPTH: usize = 16;

/// The protocol's number for the kind of symbol that a rule is.
const RULE: u8 = 12;

/// The nearest symbol at a node or above it.
#[derive(Clone, Copy)]
struct Nearest<'a> {
    /// How many symbols a node below is below.
    depth: usize,
    /// The name of its rule.
    name: &'a str,
}

/// The text of a node.
#[derive(Clone, Copy)]
struct Extent {
    /// Where its first lexeme begins.
    start: usize,
    /// Where its last lexeme ends.
    end: usize,
    /// How many nodes right below it have some text; of a lexeme 1.
    parts: usize,
}

/// Returns the text of a node as far as its own lexeme is.
fn own_extent(node: TreeNode<'_>) -> Extent {
    match node.text {
        Some(_) => Extent {
            start: node.start,
            end: node.end,
            parts: 1,
        },
        None => Extent {
            start: usize::MAX,
            end: 0,
            parts: 0,
        },
    }
}

/// Adds the text of a node to that of the one above it.
fn add_extent(extents: &mut Vec<Extent>, one: Extent, parent: Option<usize>)
    ensures { length extents.new.items ≡ length extents.old.items }
{
    let Some(parent) = parent else {
        return;
    };
    if let Some(above) = extents.get_mut(parent) {
        above.start = above.start.min(one.start);
        above.end = above.end.max(one.end);
        above.parts = above.parts.saturating_add(1);
    }
}

/// Returns the text of each node, where each is before those below it.
fn extents_of(alloc: Global, nodes: &[TreeNode<'_>]) -> Result<Vec<Extent>, AllocError>
    ensures { IfOk result (λ v. length v.items ≡ length nodes.now) }
{
    let mut extents = Vec::new(alloc);
    'nodes: for index in 0..nodes.len() {
        extents.push(own_extent(nodes[index]))?;
    }
    let mut left = nodes.len();
    'backwards: while left > 0 {
        left -= 1;
        let one = extents[left];
        if one.parts > 0 {
            add_extent(&mut extents, one, nodes[left].parent);
        }
    }
    Ok(extents)
}

/// Returns the nearest symbol above a node.
fn nearest_above<'a>(nearest: &[Nearest<'a>], parent: Option<usize>) -> Nearest<'a> {
    let none = Nearest { depth: 0, name: "" };
    match parent {
        Some(parent) => nearest.get(parent).copied().unwrap_or(none),
        None => none,
    }
}

/// Adds the symbol of a node, unless there are too many or it is too deep.
fn push_symbol(
    alloc: Global,
    asked: &Asked<'_>,
    name: &str,
    extent: Extent,
    depth: usize,
    symbols: &mut Vec<Nested>,
) -> Result<(), AllocError>
    requires { IsBounded symbols.old.items }
    ensures { OnOk result (IsBounded symbols.new.items) }
{
    if depth >= MOST_DEPTH || symbols.len() >= MOST_SYMBOLS {
        return Ok(());
    }
    let name = String::from_str(alloc, name)?;
    let range = asked.range(extent.start, extent.end);
    let symbol = Symbol {
        name,
        kind: RULE,
        range,
        selection_range: range,
    };
    symbols.push(Nested { depth, symbol })?;
    Ok(())
}

/// Adds the symbols of nodes: those with more than one node right below them that has some text, unless the symbol that they would be
/// below is of the same rule.
fn push_symbols(
    alloc: Global,
    asked: &Asked<'_>,
    nodes: &[TreeNode<'_>],
    symbols: &mut Vec<Nested>,
) -> Result<(), AllocError>
    requires { IsBounded symbols.old.items }
    ensures { OnOk result (IsBounded symbols.new.items) }
{
    let extents = extents_of(alloc, nodes)?;
    let mut nearest = Vec::new(alloc);
    'nodes: for index in 0..nodes.len() {
        let node = nodes[index];
        let extent = extents[index];
        let mut near = nearest_above(nearest.as_slice(), node.parent);
        if extent.parts > 1 && near.name != node.name {
            push_symbol(alloc, asked, node.name, extent, near.depth, symbols)?;
            near = Nearest {
                depth: near.depth.saturating_add(1),
                name: node.name,
            };
        }
        nearest.push(near)?;
    }
    Ok(())
}

/// Adds the symbols of a parse: none if the text has an error.
fn push_parsed(
    alloc: Global,
    kit: &ParserKit<u32>,
    parsed: &Parsed,
    asked: &Asked<'_>,
    symbols: &mut Vec<Nested>,
) -> Result<(), AllocError>
    requires { IsBounded symbols.old.items }
    ensures { OnOk result (IsBounded symbols.new.items) }
{
    match tree_nodes(alloc, kit, asked.text, parsed)? {
        Some(nodes) => push_symbols(alloc, asked, nodes.as_slice(), symbols),
        None => Ok(()),
    }
}

/// Returns the symbols of a text's lexemes.
fn symbols_of(
    alloc: Global,
    kit: &ParserKit<u32>,
    lexer: &WordLexer<'_>,
    asked: &Asked<'_>,
) -> Result<Vec<Nested>, ServeFault>
    ensures { IfOk result (λ v. IsBounded v.items) }
{
    let parsed = parse_of(alloc, kit, lexer)?;
    let mut symbols = Vec::new(alloc);
    let pushed = push_parsed(alloc, kit, &parsed, asked, &mut symbols);
    drop(parsed);
    match pushed {
        Ok(()) => Ok(symbols),
        Err(e) => {
            drop(symbols);
            Err(ServeFault::Memory(e))
        }
    }
}

/// Answers the outline of a text: nodes of its tree with more than one node right below them that has some text, each from its first
/// lexeme to its last one. A node whose symbol would be below one of the same rule, as those of a list, has none; its parts are
/// below that one. A text with errors has no outline.
///
/// # Errors
///
/// Where memory is refused.
pub fn outline_answer(
    alloc: Global,
    kit: &ParserKit<u32>,
    bound: &BoundRules<'_, u32>,
    asked: &Asked<'_>,
) -> Result<Answer, ServeFault>
    ensures outline { IfOk result IsOutline }
    ensures error { IfOk result (λ a. error_in a ≡ None) }
{
    let lexer = bound.lex(alloc, asked.text)?;
    let symbols = symbols_of(alloc, kit, &lexer, asked);
    drop(lexer);
    match symbols {
        Ok(symbols) => Ok(Answer::Outline(Outline { symbols })),
        Err(e) => Err(e),
    }
}
