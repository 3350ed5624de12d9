//! The states and their edges for Graphviz.

ghost use Rattle.std.specs.Prelude.{◌≡◌, ◌++◌, IfOk, OnOk, string_bytes, codes};
ghost use Rattle.std.specs.List.{flat_map};
ghost use Rattle.report_forms.specs.DotTexts.{label, label_line, contest, contest_end, box, box_end, box_head, box_lines, edge_line, state_lines, graph_text};

use crate::values::{Edge, Findings, State};
use std::alloc::{AllocError, Global};

/// Adds a text as a part of a label.
pub(crate) fn push_label(text: &mut String, part: &str) -> Result<(), AllocError>
    ensures { OnOk result (string_bytes text.new ≡ string_bytes text.old ++ label part.now) }
{
    'characters: for c in part.chars() {
        if c == '"' || c == '\\' {
            text.push('\\')?;
        }
        text.push(c)?;
    }
    Ok(())
}

/// Adds a line of a label, to the left.
fn push_label_line(text: &mut String, line: &str) -> Result<(), AllocError>
    ensures { OnOk result (string_bytes text.new ≡ string_bytes text.old ++ label_line line.now) }
{
    push_label(text, line)?;
    text.push_str("\\l")
}

/// Returns the line of a state's box on its conflicts: their tokens.
fn contest_of(alloc: Global, contested: &[String]) -> Result<String, AllocError>
    ensures { IfOk result (λ line. string_bytes line ≡ contest contested.now) }
{
    let mut line = String::from_str(alloc, "conflict before")?;
    'tokens: for token in contested {
        line.push(' ')?;
        line.push_str(token.as_str())?;
    }
    Ok(line)
}

/// Adds the end of a box with conflicts, which is red: their tokens.
fn push_contest_end(
    alloc: Global,
    text: &mut String,
    contested: &[String],
) -> Result<(), AllocError>
    ensures { OnOk result (string_bytes text.new ≡ string_bytes text.old ++ contest_end contested.now) }
{
    let line = contest_of(alloc, contested)?;
    push_label(text, line.as_str())?;
    text.push_str("\\l\", color=red, fontcolor=red]\n")?;
    Ok(())
}

/// Adds the end of a state's box: the tokens of its conflicts, if it has some.
fn push_box_end(alloc: Global, text: &mut String, contested: &[String]) -> Result<(), AllocError>
    ensures { OnOk result (string_bytes text.new ≡ string_bytes text.old ++ box_end contested.now) }
{
    if contested.is_empty() {
        return text.push_str("\"]\n");
    }
    push_contest_end(alloc, text, contested)
}

/// Adds an edge of a state.
fn push_edge(alloc: Global, text: &mut String, from: u32, edge: &Edge) -> Result<(), AllocError>
    ensures { OnOk result (string_bytes text.new ≡ string_bytes text.old ++ edge_line from edge.now) }
{
    let target = edge.target;
    let arrow = format!(in alloc; "  {from} -> {target} [label=\"")?;
    text.push_str(arrow.as_str())?;
    push_label(text, edge.symbol.as_str())?;
    text.push_str("\"]\n")
}

/// Adds the edges of a state.
fn push_edges(alloc: Global, text: &mut String, from: u32, edges: &[Edge]) -> Result<(), AllocError>
    ensures { OnOk result (string_bytes text.new ≡ string_bytes text.old ++ flat_map (edge_line from) edges.now) }
{
    'edges: for edge in edges {
        push_edge(alloc, text, from, edge)?;
    }
    Ok(())
}

/// Adds the items of a state's core.
fn push_items(text: &mut String, items: &[String]) -> Result<(), AllocError>
    ensures { OnOk result (string_bytes text.new ≡ string_bytes text.old ++ box_lines items.now) }
{
    'items: for item in items {
        push_label_line(text, item.as_str())?;
    }
    Ok(())
}

/// Adds what the box of a state begins with: its number.
fn push_box_head(alloc: Global, text: &mut String, number: u32) -> Result<(), AllocError>
    ensures { OnOk result (string_bytes text.new ≡ string_bytes text.old ++ box_head number) }
{
    let head = format!(in alloc; "  {number} [label=\"state {number}\\l")?;
    text.push_str(head.as_str())?;
    Ok(())
}

/// Adds the box of a state.
fn push_box(alloc: Global, text: &mut String, state: &State) -> Result<(), AllocError>
    ensures { OnOk result (string_bytes text.new ≡ string_bytes text.old ++ box state.now) }
{
    push_box_head(alloc, text, state.number)?;
    push_items(text, state.items.as_slice())?;
    push_box_end(alloc, text, state.contested.as_slice())
}

/// Adds a state, with its edges.
#[tactic(auto, unfolding(crate::specs::DotTexts::state_lines))]
fn push_state(alloc: Global, text: &mut String, state: &State) -> Result<(), AllocError>
    ensures { OnOk result (string_bytes text.new ≡ string_bytes text.old ++ state_lines state.now) }
{
    push_box(alloc, text, state)?;
    push_edges(alloc, text, state.number, state.edges.as_slice())
}

/// Adds states, with their edges.
fn push_states(alloc: Global, text: &mut String, states: &[State]) -> Result<(), AllocError>
    ensures { OnOk result (string_bytes text.new ≡ string_bytes text.old ++ flat_map state_lines states.now) }
{
    'states: for state in states {
        push_state(alloc, text, state)?;
    }
    Ok(())
}

/// Returns the states for Graphviz: a box for each with the items of its core, and an edge for each symbol. A state with
/// conflicts is red and names their tokens.
pub fn dot_text(alloc: Global, findings: &Findings) -> Result<String, AllocError>
    ensures { IfOk result (λ text. string_bytes text ≡ graph_text findings.now) }
{
    let mut text = String::from_str(alloc, "digraph states {\n  node [shape=box]\n")?;
    push_states(alloc, &mut text, findings.states.as_slice())?;
    text.push_str("}\n")?;
    Ok(text)
}
