//! A report on a grammar's text for who writes the grammar: errors and warnings under the text, counts, conflicts each with
//! an example that can be checked against the grammar alone, what precedences settle, and whether each sentence gets its only
//! tree.
//!
//! ```rust
//! use grammar_report::{Asked, report, status};
//! use std::alloc::{AllocError, Global};
//!
//! /// The exit status of a report that asks for nothing more.
//! fn judged(alloc: Global, text: &str) -> Result<u8, AllocError> {
//!     let asked = Asked {
//!         each: false,
//!         full: false,
//!         states: false,
//!         sentences: false,
//!         next: None,
//!     };
//!     let told = report(alloc, text, "grammar.y", asked)?;
//!     Ok(status(told.outcome))
//! }
//! ```
//!
//! For `%start E %% E: E '+' 'n' | 'n';` it answers 0, for `%start E %% E: E '+' E | 'n';` 1, and for `%start E %% E: E '+'`
//! 2. By the contract of `report` its outcome holds for the text (`specs/Outcomes`), and it shows, in order, the messages of the text
//! (`specs/Messages`): errors, or warnings, rules without sentences and a message for each of the first hundred blocks of
//! conflicts, each at a place within the text. The lines between these are tested. Other forms may take the messages, counts and blocks too.
#![tactic(auto)]

mod accept_reduce;
mod asked;
mod conflicts;
mod counts;
mod faults;
mod idle;
mod large;
mod listed;
mod long_chains;
mod next;
mod outcome;
mod production_places;
mod reading;
mod reporting;
mod sentences;
mod settled;

pub use asked::{Asked, LineFile};
pub use counts::{Counts, counts_of};
pub use faults::push_refusal;
pub use large::{Untabled, push_untabled};
pub use listed::{conflict_blocks, example_of};
pub use outcome::{Outcome, Report, status};
pub use production_places::{production_span, shift_span};
pub use reading::{Reading, read_grammar};
pub use refused_tables::{Listed, nearest, push_example, states_of};
pub use reporting::{push_first_kit_warnings, push_kit_warnings, report, report_on};
pub use sentences::push_unproductive;
