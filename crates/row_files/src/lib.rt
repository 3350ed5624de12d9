//! Files of grammar texts with their answers, for the programs that read them: `read_rows`, `grammar_rows`,
//! `table_rows`.
//!
//! - A line `= WORD ..` says how the texts below it are read: as one of the kind `user`, `tree` or `none` (`Original`
//!   with `UserAction`, `GenericParseTree` or `NoAction`), `grmtools` or `eco`, or with `section` as one of the kind
//!   that its section names. A program may know further words.
//! - The lines that begin with `|` are a text: without that `|`, with an LF between them, and with escapes (`words`).
//! - A line `@NAME` behind a text asks for another start rule.
//! - Lines that begin with `#` and empty lines are retained. All others are answers, which are left out here, so that a
//!   program can write its own in their place.
#![tactic(auto)]

mod bytes;
mod errors;
mod file;
mod words;

pub use bytes::push_line;
pub use errors::push_errors;
pub use file::{Part, kind_of, parts};
pub use words::{push_quoted, push_span, push_spans};
