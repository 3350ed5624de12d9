//! Occurrences of names.

/// What a name is for, where it is.
#[derive(Clone, Copy, Debug, PartialEq, Eq)]
pub enum Role {
    /// The rule of a heading.
    Head,
    /// The rule of `%start`.
    Start,
    /// A token of `%token`.
    Declared,
    /// A token of another line, behind `%prec`, or in quotes in an alternative.
    Token,
    /// A name without quotes in an alternative or of `%expect-unused`: a token if `%token` declares it, else a rule.
    Bare,
}

/// A name in a text, without quotes.
#[derive(Clone, Copy, Debug, PartialEq, Eq)]
pub struct Occurrence {
    /// The offset of its first byte.
    pub start: usize,
    /// The offset behind its last byte.
    pub end: usize,
    /// What it is for.
    pub role: Role,
}

/// A heading with its alternatives.
#[derive(Clone, Copy, Debug, PartialEq, Eq)]
pub struct Heading {
    /// The rule's name.
    pub name: Occurrence,
    /// The offset behind the last symbol, or behind the text of the last action.
    pub end: usize,
}
