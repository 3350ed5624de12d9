//! Imports of Bison files that are checked: `import_checked` answers a text only if the rules, the start rule and the
//! precedence levels that the kit's syntax reads in it are those of the file (`specs/SameRules`).
//!
//! ```rust
//! use checked_import::{CheckedError, import_checked};
//! use std::alloc::Global;
//!
//! /// Returns the text of a Bison file in the syntax of `cfg_read`.
//! fn text_of(alloc: Global, file: &str) -> Result<String, CheckedError> {
//!     Ok(import_checked(alloc, file)?.text)
//! }
//! ```
//!
//! Of `%% S: "a" { } 'b'` it answers `%% S: "a" mid_1 'b'; mid_1: ;`, with blanks between.
#![tactic(auto)]

mod checking;
mod matching;
mod spelling;

pub use checking::{CheckedError, check_rules, import_checked};
pub use matching::{same_levels, same_rules, same_starts};
