//! What is asked for.

/// A file of lines of token names.
#[derive(Clone, Copy)]
pub struct LineFile<'a> {
    /// What the file holds.
    pub text: &'a str,
    /// The path that places are told with.
    pub path: &'a str,
}

/// What a report has beside what each has.
#[derive(Clone, Copy)]
pub struct Asked<'a> {
    /// A block for each listed conflict, in place of one for each production or pair of productions.
    pub each: bool,
    /// Each example from the start rule on.
    pub full: bool,
    /// The closed states.
    pub states: bool,
    /// A cheapest sentence for each rule.
    pub sentences: bool,
    /// The first error of each line, with the tokens that may come there.
    pub next: Option<LineFile<'a>>,
}
