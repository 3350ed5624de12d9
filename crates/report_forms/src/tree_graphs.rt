//! A tree for Graphviz.

ghost use Rattle.std.specs.Prelude.{◌≡◌, ◌++◌, IfOk, OnOk, option_map, string_bytes};
ghost use Rattle.report_forms.specs.TreeDots.{edge_text, head_text, nodes_text, node_text, part_text, token_end, tree_graph};

use crate::dot::push_label;
use crate::parse_values::TreeNode;
use std::alloc::{AllocError, Global};

/// Adds what the box of a node begins with: its number.
fn push_head(alloc: Global, text: &mut String, number: usize) -> Result<(), AllocError>
    ensures { OnOk result (string_bytes text.new ≡ string_bytes text.old ++ head_text number) }
{
    let head = format!(in alloc; "  {number} [label=\"")?;
    text.push_str(head.as_str())?;
    Ok(())
}

/// Adds the end of a token's box: below its name the part of the text.
fn push_token_end(text: &mut String, part: &str) -> Result<(), AllocError>
    ensures { OnOk result (string_bytes text.new ≡ string_bytes text.old ++ token_end part.now) }
{
    text.push_str("\\n")?;
    push_label(text, part)?;
    text.push_str("\", shape=plaintext]\n")?;
    Ok(())
}

/// Adds the end of a node's box.
fn push_part(text: &mut String, part: Option<&str>) -> Result<(), AllocError>
    ensures { OnOk result (string_bytes text.new ≡ string_bytes text.old ++ part_text (option_map (λ t. t.now) part.entry)) }
{
    match part {
        Some(part) => push_token_end(text, part),
        None => text.push_str("\"]\n"),
    }
}

/// Adds the edge to a node from the one above it, if there is one.
fn push_edge(
    alloc: Global,
    text: &mut String,
    number: usize,
    parent: Option<usize>,
) -> Result<(), AllocError>
    ensures { OnOk result (string_bytes text.new ≡ string_bytes text.old ++ edge_text number parent) }
{
    match parent {
        Some(parent) => {
            let edge = format!(in alloc; "  {parent} -> {number}\n")?;
            text.push_str(edge.as_str())?;
            Ok(())
        }
        None => Ok(()),
    }
}

/// Adds a node: its box, and the edge to it.
#[tactic(auto, unfolding(crate::specs::TreeDots::node_text))]
fn push_node(
    alloc: Global,
    text: &mut String,
    number: usize,
    node: TreeNode<'_>,
) -> Result<(), AllocError>
    ensures { OnOk result (string_bytes text.new ≡ string_bytes text.old ++ node_text number node.entry) }
{
    push_head(alloc, text, number)?;
    push_label(text, node.name)?;
    push_part(text, node.text)?;
    push_edge(alloc, text, number, node.parent)
}

/// Adds nodes.
fn push_nodes(alloc: Global, text: &mut String, nodes: &[TreeNode<'_>]) -> Result<(), AllocError>
    ensures { OnOk result (string_bytes text.new ≡ string_bytes text.old ++ nodes_text 0 nodes.now) }
{
    'nodes: for number in 0..nodes.len() {
        push_node(alloc, text, number, nodes[number])?;
    }
    Ok(())
}

/// Returns a tree for Graphviz: a box for each node with its name, that of a token with its part of the text, and an edge to it
/// from the node above. The graph is called by a path.
pub fn tree_dot(alloc: Global, path: &str, nodes: &[TreeNode<'_>]) -> Result<String, AllocError>
    ensures { IfOk result (λ text. string_bytes text ≡ tree_graph path.now nodes.now) }
{
    let mut text = String::from_str(alloc, "digraph \"")?;
    push_label(&mut text, path)?;
    text.push_str("\" {\n  node [shape=box]\n")?;
    push_nodes(alloc, &mut text, nodes)?;
    text.push_str("}\n")?;
    Ok(text)
}
