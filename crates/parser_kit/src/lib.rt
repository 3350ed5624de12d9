//! A parser from the text of a grammar: what is kept of the text, its grammar, graph, table and checked data in one value.
//!
//! ```rust
//! use parser_kit::{KitError, ParserKit};
//! use std::alloc::Global;
//!
//! /// How many conflicts a text's grammar has, shift/reduce and reduce/reduce, or why it has no parser.
//! fn conflicts(alloc: Global, text: &str) -> Result<(usize, usize), KitError<u32>> {
//!     let kit = ParserKit::<u32>::of_text(alloc, text, 1000)?;
//!     match kit.conflicts() {
//!         Some(listed) => Ok((listed.sr_len(), listed.rr_len())),
//!         None => Ok((0, 0)),
//!     }
//! }
//! ```
//!
//! For `%start E %% E: E '+' E | 'n';` it answers `Ok((1, 0))`. For `%start E %% E: E '+'` it answers
//! `Err(KitError::Grammar(errors))`, with the one error `Incomplete rule` at the text's end. 1000 is the cap on chains of
//! reductions on one token.
//!
//! `ParserKit` stands on the public contracts of the crates below it alone. Those of `ParserKit::new` say which kit a text
//! gives and why it gives none, and those of `ParserKit::of_text` the same of a text whose section may tell its kind;
//! `conflicts`, `complete` and `all_productive` tell what a caller may rely on. Its parses, `parse`, `parse_fold` and
//! `parse_flat`, give values that fold derivations of the lexemes as repaired, and where no precedence is declared and no
//! conflict is listed they have no errors exactly where the lexemes are a sentence. `kit` lends the `GrammarKit`, the same of
//! a grammar that is at hand.
#![tactic(auto)]

pub mod declared_kind;
mod grammar_kit;
pub mod grammar_kit_error;
pub mod kit;
pub mod kit_error;
pub mod laws;
mod making;
mod text_making;

pub use cfg_sets::all_productive;
pub use grammar_kit::GrammarKit;
pub use grammar_kit_error::GrammarKitError;
pub use kit::ParserKit;
pub use kit_error::KitError;
