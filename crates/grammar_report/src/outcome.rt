//! What a report says of a text.

ghost use Rattle.std.specs.Prelude.{◌≡◌};
ghost use Rattle.grammar_report.specs.Outcomes.{status_of};

/// What is so of a grammar's text.
#[derive(Clone, Copy, Debug, PartialEq, Eq)]
pub enum Outcome {
    /// It gives no parser.
    Invalid,
    /// It gives one that accepts no text: the start rule derives none.
    Barren,
    /// It gives one, with other conflicts than expected.
    Unexpected,
    /// It gives one, with no conflicts, or as many as expected.
    Expected,
}

/// A report on a grammar's text.
#[derive(Debug, Drop)]
pub struct Report {
    /// The text to print.
    pub text: String,
    /// What decides the status.
    pub outcome: Outcome,
}

/// Returns the exit status of a program that shows the report.
pub fn status(outcome: Outcome) -> u8
    ensures { result ≡ status_of outcome }
{
    match outcome {
        Outcome::Expected => 0,
        Outcome::Unexpected => 1,
        Outcome::Barren => 2,
        Outcome::Invalid => 2,
    }
}
