//! Texts of a language in an editor: what the server of `language_server` does with them, by a parser and the rules of a lexer.
//!
//! ```rust
//! use language_server::{Message, ServeFault, Server, Taken};
//! use lrlex::BoundRules;
//! use parser_kit::ParserKit;
//! use std::alloc::Global;
//! use text_server::TextLanguage;
//!
//! /// What a server does with a message about texts of the grammar.
//! fn take(
//!     alloc: Global,
//!     kit: &ParserKit<u32>,
//!     bound: &BoundRules<'_, u32>,
//!     server: &mut Server,
//!     message: Message,
//! ) -> Result<Taken, ServeFault> {
//!     server.take(alloc, &TextLanguage { kit, bound }, message)
//! }
//! ```
//!
//! A text's diagnostics are the errors that `lrkit-parse` lists of it: by contract none where it has a tree, one for the lexer's
//! error, else one for each error of its parse (`specs/Found`). Completion has the tokens that may come behind the lexemes before the
//! place, and none where these have an error (`specs/Fronts`). The outline has at most 4,096 nodes of the tree, at most 16 deep.
#![tactic(auto)]

mod completion;
mod diagnostics;
mod language;
mod outline;

pub use completion::completion_answer;
pub use diagnostics::push_errors;
pub use language::TextLanguage;
pub use outline::outline_answer;
