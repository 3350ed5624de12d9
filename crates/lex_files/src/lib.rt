//! Lexer files, in the format of lrlex: start conditions, `%%`, and a rule a line.
//!
//! ```rust
//! use lex_files::{LexFileError, read_file};
//! use std::alloc::Global;
//!
//! /// Returns how many rules of a lexer file have a name.
//! fn count(alloc: Global, text: &str) -> Result<usize, LexFileError> {
//!     let file = read_file(alloc, text)?;
//!     let mut named = 0usize;
//!     for rule in &file.rules {
//!         if rule.name.is_some() {
//!             named = named.saturating_add(1);
//!         }
//!     }
//!     Ok(named)
//! }
//! ```
//!
//! For `"%%\n[0-9]+ \"NUM\"\n\\s+ ;\n"` it answers 1. For `"[0-9]+ \"NUM\"\n"` it fails with `FaultKind::UnknownDeclaration` at offset 0,
//! since no line `%%` is there.
//!
//! `specs/LexFiles` defines what each line reads as. Expressions stay texts here; `lrlex` compiles them.
#![tactic(auto)]

mod conditions;
mod fault;
mod pieces;
mod reading;
mod rules;

pub use conditions::Condition;
pub use fault::{Fault, FaultKind, LexFileError};
pub use maximal_munch::Target;
pub use reading::{FilePart, LexFile, read_file};
pub use rules::RuleText;
