//! What the kit promises: a function a promise, its sentence above it, the clauses below it.
//!
//! A promise on a call is a function that makes the call and has those of its clauses that say the promise; one on values is
//! a law, a function with nothing to run. Nothing is promised by prose alone: `tools/docs/promises` makes `docs/PROMISES.md` of
//! this crate. `kits` is of texts and what they give, `lists` of conflict lists, `parses` of values and errors, `texts`
//! of texts by a lexer, `runs` of whole runs.
#![tactic(auto)]

pub mod kits;
pub mod lists;
pub mod parses;
pub mod runs;
pub mod texts;
