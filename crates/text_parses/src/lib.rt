//! Parses of whole texts by a kit and the rules of a lexer: the tree, or the errors.
//!
//! ```rust
//! use byte_streams::Sink;
//! use lrlex::BoundRules;
//! use parser_kit::ParserKit;
//! use std::alloc::Global;
//! use text_parses::{AnswerFault, Form, Input, answer_text};
//!
//! /// Writes the tree or the errors of a text, and returns whether it has a tree.
//! fn answer<W: Sink>(
//!     alloc: Global,
//!     kit: &ParserKit<u32>,
//!     bound: &BoundRules<'_, u32>,
//!     text: &str,
//!     out: &mut W,
//! ) -> Result<bool, AnswerFault> {
//!     let input = Input { path: "text", text, form: Form::Tree, named: false, edits: 3, listed: false, next: false };
//!     answer_text(alloc, kit, bound, input, out)
//! }
//! ```
//!
//! A text's lexemes are its parts by the longest match (`lrlex`). Where they have no error, their tree is written in the form that
//! is asked for; else a message for each error, in their order. `Form::Json` has an object for either. A parse goes on behind an error by the first repair that
//! `repair_search` finds there. `answer_line` takes the words of a line in place of a lexer's parts. `specs/Answers` says what is written.
#![tactic(auto)]

mod answer_fault;
mod answering;
mod errors;
mod expected;
mod form;
mod lines;
mod listing;
mod names;
mod next;
mod nodes;
mod objects;
mod outlines;
mod parsing;
mod repeated;
mod sexps;
mod trees;
mod words;

pub use answer_fault::AnswerFault;
pub use answering::{answer_line, answer_text};
pub use form::{FileLine, Form, Input};
pub use names::{Grammar, shown_name, token_name};
pub use nodes::tree_nodes;
pub use objects::{object_text, parse_value};
pub use parsing::{Parsed, WordError, WordLexer, WordTree, parse_lexed};
