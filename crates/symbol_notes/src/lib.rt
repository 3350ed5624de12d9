//! What a grammar says of a rule or a token, for its author: productions, FIRST, FOLLOW, a cheapest sentence, a precedence.
//!
//! ```rust
//! use cfgrammar::yacc::{YaccKind, YaccOriginalActionKind};
//! use std::alloc::{AllocError, Global};
//! use symbol_notes::rule_note;
//!
//! const TREE: YaccKind = YaccKind::Original(YaccOriginalActionKind::GenericParseTree);
//!
//! /// What the grammar of a text says of its rule `S`.
//! fn note(alloc: Global, text: &str) -> Result<Option<String>, AllocError> {
//!     rule_note(alloc, TREE, text, "S")
//! }
//! ```
//!
//! For `%start S %% S: 'a' S | 'b';` it returns the lines `S: a S`, `S: b`, `FIRST: a b`, `FOLLOW: $` and `cheapest sentence: b`. It
//! returns `None` where the text is no grammar, or has no such rule. Of a grammar of more than 12000 productions or tokens it returns
//! the productions alone, and a line that says so: FIRST, FOLLOW and costs of all its rules would be made for one.
#![tactic(auto)]

mod notes;
mod rules;

pub use notes::{rule_note, token_note};
