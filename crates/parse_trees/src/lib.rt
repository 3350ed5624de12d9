//! What a parse makes, apart from tables: lexemes, trees, the stacks of values beside a run, repairs and errors as
//! texts.
//!
//! ```rust
//! use cfg_base::index::IndexStorage;
//! use parse_trees::lex_api::Lexeme;
//! use parse_trees::node::Node;
//! use std::alloc::{AllocError, Global};
//!
//! /// Whether two trees have the same rules at the same places, and equal lexemes.
//! fn are_same<L: Lexeme<S>, S: IndexStorage>(
//!     alloc: Global,
//!     one: &Node<L, S>,
//!     other: &Node<L, S>,
//! ) -> Result<bool, AllocError> {
//!     one.equals(alloc, other)
//! }
//! ```
//!
//! `lrpar` runs lexers' lexemes over tables, makes such values on the way, and exports what its callers need of this
//! crate. The contracts that matter most: those of the trait `values::ValueStack`, which each stack of values meets
//! and the run relies on; `lexemes::admit`, which returns the lexemes that a run takes, by `specs/Lexemes`; those of
//! `node::Node` and `flat::FlatTree`, by `specs/Shapes` and `specs/FlatTrees`; and those of `error_texts`.
#![tactic(auto)]

pub mod error_texts;
pub mod flat;
mod flat_nodes;
pub mod flat_values;
pub mod folded;
pub mod lex_api;
pub mod lexeme_list;
pub mod lexemes;
pub mod node;
mod node_lists;
pub mod node_values;
pub mod outline;
pub mod parse_repair;
pub mod values;
pub mod vec_stack;
