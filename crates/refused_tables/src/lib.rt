//! Why a grammar is refused a table, for a reader: how its start rule derives itself (`push_derivation`), and which
//! productions are reduced before a token without end (`find_cycle`, `push_cycle`), behind a string that leads there. Of a table
//! that is made, the conflicts that it lists, ordered and in blocks (`blocks_of`), and their examples (`nearest`) as texts
//! (`push_example`).
//!
//! ```rust
//! use cfg_base::symbol::{RIdx, TIdx};
//! use cfg_numbered::yacc::NumberedGrammar;
//! use lrtable::StIdx;
//! use refused_tables::{Beginning, ReductionCycle, find_cycle};
//! use std::alloc::{AllocError, Global};
//!
//! /// The productions that go round from the start state on the first token.
//! fn cycle_at_start(
//!     alloc: Global,
//!     grm: &NumberedGrammar<u32>,
//! ) -> Result<Option<ReductionCycle>, AllocError> {
//!     let beginning = Beginning {
//!         state: StIdx(0),
//!         rule: None,
//!         token: TIdx(0),
//!     };
//!     find_cycle(alloc, grm, beginning)
//! }
//! ```
//!
//! For `%% E: ; S: E S 'b' | ;` with the start rule `S` it returns the one production `E: %empty`, since `E` is
//! reduced before `b` again and again.
#![tactic(auto)]

mod cycle;
mod derivations;
mod examples;
mod listed;
mod nearer;
mod paths;
mod runs;
mod words;

pub use cycle::{Beginning, ReductionCycle, find_cycle};
pub use derivations::push_derivation;
pub use examples::push_example;
pub use listed::{Listed, blocks_of, states_of};
pub use nearer::nearest;
pub use words::push_cycle;
