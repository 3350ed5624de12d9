//! Lexers by rules of regular expressions, as those of lrlex: rules with names, bound to the tokens of a grammar, and the lexer
//! of a text for a parser of `lrpar`.
//!
//! ```rust
//! use cfg_numbered::yacc::grammar::NumberedGrammar;
//! use lrlex::LexRules;
//! use maximal_munch::Target;
//! use parse_trees::lex_api::Lexer;
//! use regex::Error;
//! use std::alloc::Global;
//!
//! /// Returns how many lexemes and errors a text of numbers has.
//! fn count(alloc: Global, grm: &NumberedGrammar<u32>, text: &str) -> Result<usize, Error> {
//!     let mut rules = LexRules::new(alloc);
//!     rules.push(alloc, "[0-9]+", Some("INT"), Vec::new(alloc), Target::Stay)?;
//!     rules.push(alloc, r"\s+", None, Vec::new(alloc), Target::Stay)?;
//!     let bound = rules.bind(alloc, grm)?;
//!     let lexer = bound.lex(alloc, text)?;
//!     Ok(lexer.iter().count())
//! }
//! ```
//!
//! For a grammar with the token `INT` and the text `12 7` it answers 2, for `12 x` 2 too: a lexeme, and an error at offset 3.
//!
//! At each offset the rule counts whose match there is longest, the first of these on ties, of those active in the start
//! condition; a match without a byte is none (crate `maximal_munch`). `specs/Lexing` defines the list of a text (`Lexes`).
#![tactic(auto)]

mod bound;
mod expression;
mod from_text;
pub mod laws;
mod lex_error;
mod rules;

pub use bound::{BoundRules, Meaning};
pub use expression::compile;
pub use from_text::LexTextError;
pub use lex_error::{DefaultLexerTypes, LRLexError, LRNonStreamingLexer, LexErrorKind};
pub use lex_files::{Fault, FaultKind, LexFileError};
pub use lrpar::DefaultLexeme;
pub use rules::LexRules;
