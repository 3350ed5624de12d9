//! Errors, warnings and conflicts of a grammar text, shown under the lines that they are about.
//!
//! ```rust
//! use cfg_base::span::Span;
//! use lrpar_diagnostics::SpannedDiagnosticFormatter;
//! use std::alloc::{AllocError, Global};
//!
//! /// The lines of a span in a text, with a message under it.
//! fn shown(alloc: Global, text: &str, span: Span) -> Result<String, AllocError> {
//!     let formatter = SpannedDiagnosticFormatter::new(alloc, text, "sums")?;
//!     formatter.underline_span_with_text(alloc, span, "Insert `)`", '^')
//! }
//! ```
//!
//! For the text `"(n+n;\nn+;\n"` and the span of the first `;` it returns
//!
//! ```text
//! 1| (n+n;
//!        ^ Insert `)`
//! ```
//!
//! The contracts that matter most are those of `SpannedDiagnosticFormatter`: each text is a function of the source,
//! the spans and the messages. `prefixed_underline_span_with_text` returns `underlined` of `specs/Underlines`,
//! `format_error` and `format_warning` return `spanned_text` of `specs/Occurrences`, and `format_conflicts` returns
//! `conflicts_text` of `specs/ConflictTexts`, with the symbols of productions underlined as in
//! `specs/ProductionMarks`. No span makes a call fail: an offset past the source counts as its end, and one inside a
//! character as the character's first byte. Columns are those that `unicode_width` counts.
#![tactic(auto)]

mod conflict_marks;
mod conflict_names;
mod conflicts;
mod diagnostics;
mod marks;
mod spanned;
mod texts;

pub use diagnostics::SpannedDiagnosticFormatter;
pub use spanned::DiagnosticFormatter;
