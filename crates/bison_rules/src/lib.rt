//! The rules of a Bison file: heads, alternatives with their symbols and `%prec`; and its start rules, aliases and precedence
//! levels. `read_rules` answers them, and its contract says by plain functions which they are (`specs/Pieces`: the tokens of a
//! text; `specs/Rules`: what they say).
//!
//! ```rust
//! use bison_rules::read_rules;
//! use std::alloc::{AllocError, Global};
//!
//! /// Returns how many rules a file has; none where it isn't one of Bison.
//! fn count_of(alloc: Global, file: &[u8]) -> Result<Option<usize>, AllocError> {
//!     match read_rules(alloc, file)? {
//!         Some(read) => Ok(Some(read.rules.len())),
//!         None => Ok(None),
//!     }
//! }
//! ```
//!
//! It is written apart from `yacc_import`, which searches for the changes that make such a file one of the kit's. What that
//! search finds is compared with these rules (crate `checked_import`).
#![tactic(auto)]

mod characters;
mod pieces;
mod reading;
mod sizes;
mod tokens;

pub use characters::code_of;
pub use pieces::{Piece, Symbol, Token};
pub use reading::{Alias, BisonFile, Body, Level, Rule, read_rules};
