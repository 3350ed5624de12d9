//! What is asked of a text.

use text_messages::Source;

/// How a tree is written.
#[derive(Clone, Copy, Debug, PartialEq, Eq)]
pub enum Form {
    /// A line for each node.
    Tree,
    /// One expression, on a line.
    Sexp,
    /// As a graph.
    Dot,
    /// Within a JSON object, with all that is said of the text.
    Json,
    /// Not at all.
    Quiet,
}

/// A text with its path, and what is asked of it.
#[derive(Clone, Copy)]
pub struct Input<'a> {
    /// The path.
    pub path: &'a str,
    /// The text.
    pub text: &'a str,
    /// The form of the tree.
    pub form: Form,
    /// Whether the path is written above the tree.
    pub named: bool,
    /// How many lexemes a repair deletes and inserts at most. With 0 there are no repairs, and parsing ends at the first error.
    pub edits: usize,
    /// Whether the repairs of each error are listed below it.
    pub listed: bool,
    /// Whether the tokens are told that may come at the first error, else at the end.
    pub next: bool,
}

/// Where a line is.
#[derive(Clone, Copy)]
pub struct FileLine<'a> {
    /// The file.
    pub source: &'a Source<'a>,
    /// The offset at which the line begins.
    pub start: usize,
    /// The line's number, from 1.
    pub number: usize,
}

/// What is asked of a text, and where messages show it.
#[derive(Clone, Copy)]
pub(crate) struct Shown<'a> {
    pub(crate) input: Input<'a>,
    pub(crate) source: &'a Source<'a>,
    /// The offset at which the text begins in the source.
    pub(crate) start: usize,
    /// The number of the line that is the text.
    pub(crate) line: Option<usize>,
}
