//! Examples of the conflicts of a table, which can be checked against the grammar alone.
//!
//! ```rust
//! use cfg_numbered::yacc::NumberedGrammar;
//! use conflict_examples::ExampleFinder;
//! use state_table::{Conflicts, StateGraph};
//! use std::alloc::{AllocError, Global};
//!
//! /// Of each listed shift against a reduction, how many symbols are before the token in an example.
//! fn lengths(
//!     alloc: Global,
//!     grm: &NumberedGrammar<u32>,
//!     graph: &StateGraph<u32>,
//!     conflicts: &Conflicts<u32>,
//! ) -> Result<Vec<usize>, AllocError> {
//!     let finder = ExampleFinder::new(alloc, grm, graph)?;
//!     let mut lengths = Vec::new(alloc);
//!     for entry in conflicts.sr_conflicts() {
//!         if let Some(example) = finder.shift_reduce(alloc, entry)? {
//!             lengths.push(example.symbols.len())?;
//!         }
//!     }
//!     Ok(lengths)
//! }
//! ```
//!
//! For `%start s %% s: 'if' e 'then' s | 'if' e 'then' s 'else' s | 'x'; e: 'e';` the list holds 6 alone: the example
//! is `if e then if e then s` before `else`. Its spine for the shift is `^ -> . s`, `s -> if e then . s` and `s -> if
//! e then s . else s`; for the reduction it is `^ -> . s`, `s -> if e then . s else s` and `s -> if e then s .`, with
//! no further productions, since `else s` follows, its one form.
//!
//! Where one example is wanted, `ConflictExamples` has calls on the graph: `graph.shift_reduce_example(alloc, grm,
//! entry)` makes a finder and asks it once.
//!
//! A backward search over the finished graph finds a path to the conflict (`backward_search`), a second search the
//! open productions along this path (`spine_search`), and a third one how the token can follow them (`left_corner`).
//! None of this is trusted: each result is a candidate (`witness::Candidate`) that is checked against the grammar
//! (`spine`, `derivation`, `witness`), and only what passes is returned (`example_check`). Where a production may be
//! reduced at the end of a text no table is made, and `accept_reduce` searches over the productions alone
//! (`end_search`). No example is found where its derivation would have more than 262,144 steps and symbols
//! (`derivation`). The forms are written out only when asked for (`forms`).
//!
//! The contracts that matter most are those of `finder::ExampleFinder` and of `graph_examples::ConflictExamples`; the laws that
//! tie examples to canonical LR(1) are in `laws`.
#![tactic(auto)]

mod backward_search;
mod beginnings;
mod candidates;
mod derivation;
mod end_search;
mod example_check;
pub mod examples;
pub mod finder;
mod forms;
mod goto;
pub mod graph_examples;
pub mod laws;
mod left_corner;
mod nullable;
mod predecessors;
mod productions;
mod source;
mod spine;
mod spine_search;
mod symbols;
mod tables;
mod witness;

pub use end_search::accept_reduce;
pub use examples::{ActionExample, ConflictExample};
pub use finder::ExampleFinder;
pub use graph_examples::ConflictExamples;
