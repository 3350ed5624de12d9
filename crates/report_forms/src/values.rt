//! The report on a grammar as plain values.

/// A place of a grammar's text. Lines and columns count from 1.
#[derive(Clone, Copy, Debug)]
pub struct Place {
    /// The offset in bytes, from 0.
    pub byte: usize,
    /// The line.
    pub line: usize,
    /// The column in characters.
    pub column: usize,
    /// The column in units of UTF-16.
    pub utf16_column: usize,
}

/// A range of a grammar's text, with the place behind its last byte.
#[derive(Clone, Copy, Debug)]
pub struct Range {
    /// Where it begins.
    pub start: Place,
    /// Where it ends.
    pub end: Place,
}

/// A message about a grammar's text.
#[derive(Debug, Drop)]
pub struct Said {
    /// `error`, `warning` or `note`.
    pub severity: &'static str,
    /// What it says.
    pub message: String,
    /// Its place, if it has one.
    pub range: Option<Range>,
    /// What may help.
    pub help: Option<String>,
    /// Lines that show it.
    pub example: Option<String>,
}

/// A production, where the text has it, and how far it has come.
#[derive(Debug, Drop)]
pub struct Production {
    /// Its rule and its symbols: `E: E + E`.
    pub production: String,
    /// How many of its symbols are before the dot, where it is open.
    pub dot: Option<usize>,
    /// Its place, if the text has it.
    pub range: Option<Range>,
}

/// Why an action is right.
#[derive(Debug, Drop)]
pub struct Action {
    /// Open productions, from the outermost one.
    pub spine: Vec<Production>,
    /// The productions of the way to the token behind a reduction.
    pub steps: Vec<Production>,
}

/// An example of a conflict: after the symbols the token leaves both actions.
#[derive(Debug, Drop)]
pub struct Example {
    /// The symbols before the token.
    pub symbols: Vec<String>,
    /// The token.
    pub token: String,
    /// Why the shift is right, or the first reduction of a pair.
    pub first: Action,
    /// Why the other reduction is right.
    pub second: Action,
    /// The example in lines, as the report for a person has it.
    pub lines: String,
}

/// Conflicts of the same productions.
#[derive(Debug, Drop)]
pub struct Conflict {
    /// `shift/reduce` or `reduce/reduce`.
    pub kind: &'static str,
    /// The tokens, in the order of their numbers.
    pub tokens: Vec<String>,
    /// The states, in order.
    pub states: Vec<u32>,
    /// The production, or both of a pair.
    pub productions: Vec<Production>,
    /// Where the token of the example is shifted.
    pub shift: Option<Range>,
    /// An example, where one was found.
    pub example: Option<Example>,
}

/// Counts of a grammar.
#[derive(Clone, Copy, Debug)]
pub struct Counts {
    /// Rules of the text.
    pub rules: usize,
    /// Tokens of the text.
    pub tokens: usize,
    /// Productions of the text.
    pub productions: usize,
    /// States.
    pub states: usize,
    /// Listed conflicts of a shift and a reduction.
    pub shift_reduce: usize,
    /// Listed pairs of reductions.
    pub reduce_reduce: usize,
    /// The number of `%expect`, else 0.
    pub expected_shift_reduce: usize,
    /// The number of `%expect-rr`, else 0.
    pub expected_reduce_reduce: usize,
}

/// The report as other programs read it. `docs/report.schema.json` is its schema.
#[derive(Debug, Drop)]
pub struct Object {
    /// The version of the object. It grows if a member changes its meaning or goes.
    pub version: u32,
    /// The exit status of a program that shows the report.
    pub status: u8,
    /// Errors, each followed by its notes.
    pub errors: Vec<Said>,
    /// Warnings.
    pub warnings: Vec<Said>,
    /// Listed conflicts, in blocks.
    pub conflicts: Vec<Conflict>,
    /// Counts, where the text gives a parser.
    pub counts: Option<Counts>,
    /// What was left out or changed of a file in another syntax.
    pub notes: Vec<Said>,
}

/// An edge of a state.
#[derive(Debug, Drop)]
pub struct Edge {
    /// The symbol.
    pub symbol: String,
    /// The state that it leads to.
    pub target: u32,
}

/// A state.
#[derive(Debug, Drop)]
pub struct State {
    /// Its number.
    pub number: u32,
    /// The items of its core.
    pub items: Vec<String>,
    /// The tokens of its conflicts.
    pub contested: Vec<String>,
    /// Its edges, rules first.
    pub edges: Vec<Edge>,
}

/// A symbol of a production.
#[derive(Debug, Drop)]
pub struct Name {
    /// Its name.
    pub name: String,
    /// The number of its rule; none of a token.
    pub rule: Option<usize>,
}

/// A rule.
#[derive(Debug, Drop)]
pub struct Rule {
    /// Its name.
    pub name: String,
    /// The symbols of each of its productions.
    pub productions: Vec<Vec<Name>>,
}

/// What a report says of a grammar's text. Each form but the one for a person is a rendering of it.
#[derive(Debug, Drop)]
pub struct Findings {
    /// The report as other programs read it.
    pub object: Object,
    /// The rules by their numbers, from that of the start on, where they are asked for.
    pub rules: Vec<Rule>,
    /// The states, where they are asked for.
    pub states: Vec<State>,
}
