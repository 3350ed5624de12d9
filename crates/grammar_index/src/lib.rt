//! Where a grammar's text names its rules and tokens: an index of occurrences, and what an editor asks of it.
//!
//! ```rust
//! use grammar_index::{GrammarIndex, references};
//! use std::alloc::{AllocError, Global};
//!
//! /// How often a text names what it names at an offset.
//! fn uses_len(alloc: Global, text: &str, offset: usize) -> Result<usize, AllocError> {
//!     let index = GrammarIndex::of_text(alloc, text)?;
//!     match index.at(offset) {
//!         Some(asked) => Ok(references(alloc, text, index.names(), asked)?.len()),
//!         None => Ok(0),
//!     }
//! }
//! ```
//!
//! For `%token N %% S: N S | N;` and the offset 7 it returns 3. By contract `references` are exactly the occurrences of the index with
//! that name, and each lies in the text (`specs/Occurrences`). Where a text reads, its index has the names of its reading; where
//! it doesn't, the rules or lines with the faults are passed over.
#![tactic(auto)]

mod asking;
mod index;
mod listing;
mod mending;
mod occurrence;
mod renaming;

pub use asking::{definitions, means_token, references, spelling};
pub use index::{GrammarIndex, kind_in};
pub use occurrence::{Heading, Occurrence, Role};
pub use renaming::{RenameFault, check_rename};
