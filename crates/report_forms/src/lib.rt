//! Forms for other programs. Of the report on a grammar: plain values, and their renderings as one JSON object, as the states for
//! Graphviz and as a page. Of the parse of a text: plain values, as one JSON object, and its tree for Graphviz.
//!
//! ```rust
//! use report_forms::{Findings, json_text};
//! use std::alloc::Global;
//!
//! /// The length of the report as JSON, if there is memory for it.
//! fn object_len(alloc: Global, findings: &Findings) -> Option<usize> {
//!     match json_text(alloc, findings) {
//!         Ok(text) => Some(text.len()),
//!         Err(_) => None,
//!     }
//! }
//! ```
//!
//! For the findings of `%start E %% E: E '+' 'n' | 'n';` it is the length of
//!
//! ```text
//! {"version":1,"status":0,"errors":[],"warnings":[],"conflicts":[],"counts":{"rules":1,"tokens":2,"productions":2,"states":5,
//! "shift_reduce":0,"reduce_reduce":0,"expected_shift_reduce":0,"expected_reduce_reduce":0},"notes":[]}
//! ```
//!
//! on one line. `docs/report.schema.json` is the object's schema, and `docs/parse.schema.json` that of a parse. By contract an
//! object has each member of the values, in their order (`specs/ObjectTexts`, `specs/ParseTexts`), and a graph each state, node
//! and edge (`specs/DotTexts`, `specs/TreeDots`). Of a page the contract gives the head and
//! the title (`specs/PageTexts`); no clause describes what is below.
#![tactic(auto)]

mod dot;
mod escapes;
mod html;
mod members;
mod objects;
mod parse_members;
mod parse_values;
mod railroads;
mod ranges;
mod tree_graphs;
mod values;

pub use dot::dot_text;
pub use html::html_text;
pub use objects::{Unwritten, json_text, parse_json};
pub use parse_values::{Parse, Step, TextError, TreeNode};
pub use ranges::{range_at, range_of, said_of};
pub use tree_graphs::tree_dot;
pub use values::{
    Action, Conflict, Counts, Edge, Example, Findings, Name, Object, Place, Production, Range,
    Rule, Said, State,
};
