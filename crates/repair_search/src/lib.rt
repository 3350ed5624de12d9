//! A recoverer: at each error of a list of tokens, a breadth-first search for the sequences of repairs with the least number of
//! edits.
//!
//! ```rust
//! use cfg_base::symbol::TIdx;
//! use lrpar::ParserData;
//! use repair_search::{Limits, find_repairs};
//! use std::alloc::{AllocError, Global};
//!
//! /// Returns how many errors of a list of tokens have repairs of at most two edits.
//! fn count(alloc: Global, data: &ParserData<u32>, tokens: &[TIdx<u32>]) -> Result<usize, AllocError> {
//!     let limits = Limits { edits: 2, steps: 1_000_000 };
//!     let repairs = find_repairs(alloc, data, tokens, limits)?;
//!     Ok(repairs.len())
//! }
//! ```
//!
//! A parser takes the result as its `Recoverer`. `find_repairs` goes through the list as the parser will: at an error it searches,
//! goes on behind the first sequence that it finds, and keeps all that it finds for that place. An edit deletes the next lexeme or
//! inserts one of a token; lexemes before, between and behind edits are shifted. A sequence serves where three more lexemes are
//! shifted behind it, or the text ends well before that. Sequences with fewer edits come first; of one number a deletion comes
//! before insertions, these in the order of token numbers, and tokens of `%avoid_insert` last. The search at an error ends with the
//! least number of edits that serves, and keeps eight sequences at most.
//!
//! It is not the search of the Rust crate (CPCT+): that one merges configurations and ranks sequences by how far they lead.
//!
//! The search itself is not proved, since the parser tests each sequence that it is passed: a wrong one is left out. By contract
//! each sequence has at most the edits that were asked for and there are at most eight at an error (`specs/FewEdits`), and the
//! search looks an action up at most as often as it may (`Limits::steps`).
#![tactic(auto)]

mod finding;
mod repairs;
mod search;
mod stacks;

pub use finding::{Limits, find_repairs};
pub use repairs::Repairs;
