//! Answers to requests, and the objects that are sent.

use crate::messages::{ErrorCode, Id};
use crate::places::{Encoding, Position};
use serde::Serialize;

/// Which requests are offered.
#[derive(Clone, Copy, Debug, PartialEq, Eq)]
pub enum Offers {
    /// Those about grammar files.
    Grammars,
    /// Those about texts of a language: an outline, and what may come at a place.
    Texts,
}

/// The answer to a request.
#[derive(Debug, Drop)]
pub enum Answer {
    /// What the server can do, and how it counts columns.
    Initialized(Offers, Encoding),
    /// Nothing but that it is done.
    Done,
    /// An error.
    Error(ErrorCode),
    /// Why a rename is refused, in words.
    Refused(String),
    /// Places of a name.
    Locations(Places),
    /// Ranges to highlight.
    Highlights(Highlights),
    /// The range of what may be renamed.
    Range(Range),
    /// The edits of a rename.
    Edits(Edits),
    /// The symbols of a document.
    Symbols(Vec<Symbol>),
    /// The symbols of a document, some below others.
    Outline(Outline),
    /// What can be folded.
    Folds(Vec<Fold>),
    /// What may be written.
    Items(Vec<Item>),
    /// What there is to say of a name.
    Hover(Hover),
}

/// An answer, and the id of the request.
#[derive(Debug, Drop)]
pub struct Response {
    /// The id.
    pub id: Id,
    /// The answer.
    pub answer: Answer,
}

/// From where to where.
#[derive(Clone, Copy, Debug)]
pub struct Range {
    /// Where it begins.
    pub start: Position,
    /// Where it ends.
    pub end: Position,
}

/// A range of a document.
#[derive(Debug, Drop, Serialize)]
pub struct Location {
    /// The document.
    pub uri: String,
    /// The range.
    pub range: Range,
}

/// A place that says more of a diagnostic.
#[derive(Debug, Drop, Serialize)]
pub struct Related {
    /// The place.
    pub location: Location,
    /// What it says.
    pub message: String,
}

/// A message about a range of a document.
#[derive(Debug, Drop, Serialize)]
#[serde(rename_all = "camelCase")]
pub struct Diagnostic {
    /// The range.
    pub range: Range,
    /// 1 for an error, 2 for a warning, 3 for information.
    pub severity: u8,
    /// Who says it.
    pub source: &'static str,
    /// What it says.
    pub message: String,
    /// Places that say more.
    pub related_information: Vec<Related>,
}

/// All diagnostics of a document.
#[derive(Debug, Drop, Serialize)]
pub struct Published {
    /// The document.
    pub uri: String,
    /// The version that they are about, if the client gave one.
    #[serde(skip_serializing_if = "Option::is_none")]
    pub version: Option<i64>,
    /// The diagnostics.
    pub diagnostics: Vec<Diagnostic>,
}

/// Places of a name in a document.
#[derive(Debug, Drop)]
pub struct Places {
    /// The document.
    pub uri: String,
    /// The ranges.
    pub ranges: Vec<Range>,
}

/// Ranges to highlight.
#[derive(Debug, Drop)]
pub struct Highlights {
    /// The ranges.
    pub ranges: Vec<Range>,
}

/// Parts of a document, and what replaces each of them.
#[derive(Debug, Drop)]
pub struct Edits {
    /// The document.
    pub uri: String,
    /// The parts.
    pub ranges: Vec<Range>,
    /// What replaces each.
    pub new_text: String,
}

/// A rule or a token of an outline.
#[derive(Debug, Drop)]
pub struct Symbol {
    /// Its name.
    pub name: String,
    /// 12 for a rule, 14 for a token.
    pub kind: u8,
    /// All of it.
    pub range: Range,
    /// Its name's place.
    pub selection_range: Range,
}

/// A symbol of an outline that is a tree.
#[derive(Debug, Drop)]
pub struct Nested {
    /// How many symbols it is below.
    pub depth: usize,
    /// The symbol.
    pub symbol: Symbol,
}

/// An outline that is a tree: each symbol before those below it, which are one deeper.
#[derive(Debug, Drop)]
pub struct Outline {
    /// The symbols.
    pub symbols: Vec<Nested>,
}

/// Lines that can be folded.
#[derive(Clone, Copy, Debug)]
pub struct Fold {
    /// The first line, which stays.
    pub start_line: u64,
    /// The last line.
    pub end_line: u64,
}

/// A text that may be written.
#[derive(Debug, Drop)]
pub struct Item {
    /// The text.
    pub label: String,
    /// 3 for a rule, 21 for a token, 14 for a word behind `%`.
    pub kind: u8,
}

/// A text that is shown as it is.
#[derive(Debug, Drop)]
pub struct Contents {
    /// `plaintext`.
    pub kind: &'static str,
    /// The text.
    pub value: String,
}

/// What there is to say of a name.
#[derive(Debug, Drop)]
pub struct Hover {
    /// The text.
    pub contents: Contents,
    /// The name's place.
    pub range: Range,
}
