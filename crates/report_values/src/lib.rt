//! The report on a grammar's text as plain values, of which `report_forms` makes a JSON object, a graph and a page.
//!
//! ```rust
//! use report_values::{FindingsError, Wanted, findings_on};
//! use std::alloc::Global;
//! use text_messages::Source;
//!
//! /// How many blocks of conflicts the report on a text has.
//! fn blocks_len(alloc: Global, text: &str) -> Result<usize, FindingsError> {
//!     let wanted = Wanted {
//!         conflicts: true,
//!         each: false,
//!         full: false,
//!         rules: false,
//!         states: None,
//!     };
//!     let source = Source::new(alloc, text, "grammar.y")?;
//!     let found = findings_on(alloc, &source, wanted)?;
//!     Ok(found.findings.object.conflicts.len())
//! }
//! ```
//!
//! For `%start E %% E: E '+' E | 'n';` it is one. By the contract of `findings_on` the outcome holds for the
//! text, and states are refused only if there are more than are wanted. The values are tested, by the rows of `report_rows` and by
//! `tools/gate/program-runs`.
#![tactic(auto)]

mod conflicts;
mod findings;
mod findings_error;
mod ranges;
mod rules;
mod states;

pub use findings::{
    FirstFound, FirstSaid, Found, Wanted, findings_of_error, findings_on, first_findings_on,
    untabled_on,
};
pub use findings_error::FindingsError;
pub use ranges::LeftOut;
