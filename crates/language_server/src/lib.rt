//! A server of the Language Server Protocol, as a state and what it does with a message: for grammar files, or another `Language`.
//!
//! ```rust
//! use language_server::{GrammarFiles, ServeFault, Server, read_message};
//! use std::alloc::Global;
//!
//! /// Whether a server that has just begun answers what these bytes say.
//! fn is_answered(alloc: Global, bytes: &[u8]) -> Result<bool, ServeFault> {
//!     let mut server = Server::new(alloc);
//!     let message = read_message(alloc, bytes)?;
//!     let taken = server.take(alloc, &GrammarFiles, message)?;
//!     Ok(taken.response.is_some())
//! }
//! ```
//!
//! For `{"jsonrpc":"2.0","id":1,"method":"shutdown"}` it is `true`: the answer is an error, since `initialize` hasn't come. By the
//! contract of `Server::take` each request is answered once, with its id, and nothing else is answered but by its error
//! (`specs/Protocol`); so are lists of messages (`laws`).
#![tactic(auto)]

mod answers;
mod asked;
mod bison;
mod completion;
mod diagnostics;
mod documents;
mod fault;
mod frames;
mod hovering;
mod languages;
pub mod laws;
mod messages;
mod naming;
mod nested;
mod objects;
mod offers;
mod outline;
mod place_lists;
mod places;
mod queries;
mod reading;
mod server;
mod texts;

pub use answers::{
    Answer, Contents, Diagnostic, Edits, Fold, Highlights, Hover, Item, Location, Nested, Offers,
    Outline, Places, Published, Range, Related, Response, Symbol,
};
pub use asked::Asked;
pub use diagnostics::{View, diagnostic};
pub use documents::Document;
pub use fault::ServeFault;
pub use frames::{Frame, Frames, MOST_BYTES};
pub use languages::{GrammarFiles, Language};
pub use messages::{Change, ErrorCode, Id, Message, Method, Notice, Params, Query};
pub use places::{Encoding, Lines, Position};
pub use reading::read_message;
pub use server::{Phase, Server, Taken};
pub use texts::{published_text, response_text};
