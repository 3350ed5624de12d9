//! The parse of a text as plain values. Names and parts of the text are lent.

use crate::values::Range;

/// A step of a repair.
#[derive(Clone, Copy, Debug)]
pub struct Step<'a> {
    /// `insert`, `delete` or `shift`.
    pub edit: &'static str,
    /// The token's name.
    pub token: &'a str,
    /// The part of the text that is deleted or shifted.
    pub text: Option<&'a str>,
}

/// An error of a text.
#[derive(Debug, Drop)]
pub struct TextError<'a> {
    /// What it says.
    pub message: String,
    /// Its place.
    pub range: Range,
    /// The tokens that may come there, in the order of their numbers; none for an error of the lexer.
    pub expected: Vec<&'a str>,
    /// The repairs that were found, of which the parse goes on with the first.
    pub repairs: Vec<Vec<Step<'a>>>,
}

/// A node of a tree.
#[derive(Clone, Copy, Debug)]
pub struct TreeNode<'a> {
    /// `rule` or `token`.
    pub kind: &'static str,
    /// The name of the rule or the token.
    pub name: &'a str,
    /// The offset in bytes at which it begins.
    pub start: usize,
    /// The offset behind its last byte.
    pub end: usize,
    /// The number of the node above, counted from 0; none of the root.
    pub parent: Option<usize>,
    /// The part of the text of a token.
    pub text: Option<&'a str>,
}

/// The parse of a text as other programs read it. `docs/parse.schema.json` is its schema.
#[derive(Debug, Drop)]
pub struct Parse<'a> {
    /// The version of the object. It grows if a member changes its meaning or goes.
    pub version: u32,
    /// The path of the text, as it was given.
    pub path: &'a str,
    /// The line of the file that is the text, where each line is one.
    pub line: Option<usize>,
    /// The errors, in their order.
    pub errors: Vec<TextError<'a>>,
    /// The nodes of the tree, each before those below it, if the text has no error.
    pub tree: Option<Vec<TreeNode<'a>>>,
    /// The tokens that may come at the first error, else at the end, if they are asked for.
    pub next: Option<Vec<&'a str>>,
}
