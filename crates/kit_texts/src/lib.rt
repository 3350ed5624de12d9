//! Parsers of grammars' texts and files, and what is wrong with a grammar or with a lexer's text, as messages at its places.
//!
//! ```rust
//! use kit_texts::kit_of_file;
//! use std::alloc::{AllocError, Global};
//!
//! /// What a program says of a grammar's file that gives no parser.
//! fn complaint(alloc: Global, text: &str) -> Result<Option<String>, AllocError> {
//!     match kit_of_file(alloc, text, "sums.y")? {
//!         Ok(kit) => {
//!             drop(kit);
//!             Ok(None)
//!         }
//!         Err(messages) => Ok(Some(messages)),
//!     }
//! }
//! ```
//!
//! For `%start S %% S: T;` it answers a text that begins with `sums.y:1:16: error: Unknown reference to rule 'T'`. By contract a kit
//! is that of the text, or of the import of a Bison file, which has the file's rules (`specs/KitFiles`).
#![tactic(auto)]

mod kits;
mod lexer_faults;

pub use kits::{kit_of_file, make_kit};
pub use lexer_faults::lexer_fault;
