//! Rules as railroad pictures in SVG: a way from the left to the right for each production.

use crate::escapes::{push_between, push_text};
use crate::values::{Name, Rule};
use std::alloc::{AllocError, Global};
use unicode_width::UnicodeWidthStr;

/// Columns of the picture, in pixels: of a column of text, around it in a box, and between boxes.
const COLUMN: usize = 8;

const PADDING: usize = 20;

const GAP: usize = 16;

/// The width of either side, on which ways part and meet.
const SIDE: usize = 24;

/// The height of a way.
const HEIGHT: usize = 36;

/// Returns how wide the box of a symbol is.
fn box_width(name: &Name) -> usize {
    name.name
        .as_str()
        .width()
        .saturating_mul(COLUMN)
        .saturating_add(PADDING)
}

/// Returns how wide the boxes of a production are, with a gap behind each.
fn boxes_width(names: &[Name]) -> usize {
    let mut width: usize = GAP;
    'names: for name in names {
        width = width.saturating_add(box_width(name)).saturating_add(GAP);
    }
    width
}

/// Returns how wide the widest production of a rule is.
fn rule_width(rule: &Rule) -> usize {
    let mut width: usize = 0;
    'productions: for names in &rule.productions {
        width = width.max(boxes_width(names.as_slice()));
    }
    width
}

/// Returns the middle of the way of a production.
fn middle_of(index: usize) -> usize {
    index.saturating_mul(HEIGHT).saturating_add(HEIGHT / 2)
}

/// Adds a line between two points.
fn push_line(
    alloc: Global,
    page: &mut String,
    from: (usize, usize),
    to: (usize, usize),
) -> Result<(), AllocError> {
    let ((x, y), (u, v)) = (from, to);
    let line = format!(in alloc; "<path d=\"M{x} {y}L{u} {v}\"/>")?;
    page.push_str(line.as_str())
}

/// Adds the box of a symbol, whose left end and middle are given: round for a token, a link for a rule.
fn push_box(
    alloc: Global,
    page: &mut String,
    name: &Name,
    x: usize,
    y: usize,
) -> Result<(), AllocError> {
    let width = box_width(name);
    let top = y.saturating_sub(12);
    let rect = match name.rule {
        Some(rule) => format!(in alloc;
            "<a href=\"#rule-{rule}\"><rect class=\"rule\" x=\"{x}\" y=\"{top}\" width=\"{width}\" height=\"24\"/>"
        )?,
        None => format!(in alloc;
            "<rect class=\"token\" x=\"{x}\" y=\"{top}\" width=\"{width}\" height=\"24\" rx=\"12\"/>"
        )?,
    };
    page.push_str(rect.as_str())?;
    let middle = x.saturating_add(width / 2);
    let below = y.saturating_add(5);
    let text = format!(in alloc; "<text x=\"{middle}\" y=\"{below}\">")?;
    push_between(page, text.as_str(), name.name.as_str(), "</text>")?;
    page.push_str(if name.rule.is_some() { "</a>" } else { "" })
}

/// Adds the boxes of a production, with lines between them and to the right side.
fn push_boxes(
    alloc: Global,
    page: &mut String,
    names: &[Name],
    y: usize,
    end: usize,
) -> Result<(), AllocError> {
    let mut x = SIDE;
    'names: for name in names {
        let left = x.saturating_add(GAP);
        push_line(alloc, page, (x, y), (left, y))?;
        push_box(alloc, page, name, left, y)?;
        x = left.saturating_add(box_width(name));
    }
    push_line(alloc, page, (x, y), (end, y))
}

/// Adds the way of a production, from the left side to the right one.
fn push_way(
    alloc: Global,
    page: &mut String,
    names: &[Name],
    index: usize,
    end: usize,
) -> Result<(), AllocError> {
    let (above, y) = (middle_of(index.saturating_sub(1)), middle_of(index));
    let (left, right) = (SIDE / 2, end.saturating_add(SIDE / 2));
    if index > 0 {
        push_line(alloc, page, (left, above), (left, y))?;
        push_line(alloc, page, (right, above), (right, y))?;
    }
    push_line(alloc, page, (left, y), (SIDE, y))?;
    push_line(alloc, page, (end, y), (right, y))?;
    push_boxes(alloc, page, names, y, end)
}

/// Adds the picture of a rule.
pub(crate) fn push_railroad(
    alloc: Global,
    page: &mut String,
    rule: &Rule,
) -> Result<(), AllocError> {
    let end = rule_width(rule).saturating_add(SIDE);
    let width = end.saturating_add(SIDE);
    let height = rule.productions.len().saturating_mul(HEIGHT);
    let head = format!(in alloc;
        "<div class=\"wide\"><svg width=\"{width}\" height=\"{height}\" role=\"img\" aria-label=\""
    )?;
    page.push_str(head.as_str())?;
    push_text(page, rule.name.as_str())?;
    page.push_str("\">")?;
    let y = middle_of(0);
    push_line(alloc, page, (0, y), (SIDE / 2, y))?;
    push_line(alloc, page, (end.saturating_add(SIDE / 2), y), (width, y))?;
    'ways: for index in 0..rule.productions.len() {
        let names = rule.productions[index].as_slice();
        push_way(alloc, page, names, index, end)?;
    }
    page.push_str("</svg></div>\n")
}
