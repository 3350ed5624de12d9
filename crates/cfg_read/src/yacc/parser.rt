//! Reads a grammar text: what it says, construct by construct, or its one fault.

mod bytes;
mod declaration;
mod declarations;
mod draft;
pub mod error;
pub mod laws;
mod read;
mod rules;
mod scan;
pub mod syntax;
mod words;

pub use crate::yacc::ast::warnings::{YaccGrammarWarning, YaccGrammarWarningKind};
pub use crate::yacc::validity::YaccGrammarError;
pub use cfg_base::span::SpansKind;
pub use error::YaccGrammarErrorKind;
pub use rules::read_syntax;
