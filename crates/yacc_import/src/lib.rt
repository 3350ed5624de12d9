//! Grammars in the syntax of Bison 3.8 and of POSIX yacc, in the syntax that `cfg_read` reads. `import` answers the text, each of
//! its bytes with its place in the file, and a note for each change.
//!
//! ```rust
//! use std::alloc::Global;
//! use yacc_import::{ImportError, import};
//!
//! /// Returns the text of a Bison file in the syntax of `cfg_read`.
//! fn text_of(alloc: Global, file: &str) -> Result<String, ImportError> {
//!     Ok(import(alloc, file)?.text)
//! }
//! ```
//!
//! Of the lines `%%`, `S: "a" { f(); } 'b'` it answers `%%`, `S: "a" mid_1    'b'; mid_1: ;`. Of `%% S: 'a` it answers
//! `Err(ImportError::Refused(Fault::OpenQuote, 6))`.
//!
//! The search for notes is one pass from the text to tokens (`tokens`), one from tokens to what each is for (`roles`), one over
//! names (`names`, `levels`), and one that makes the notes (`edits`). Nothing is proved of what it finds, but that it ends. What
//! notes make of a source is `specs/Changes`: `marks` applies them, or refuses them where they don't fit.
#![tactic(auto)]

mod edits;
mod ends;
mod errors;
mod importing;
mod late;
mod levels;
mod marks;
mod names;
mod notes;
mod roles;
mod tokens;
mod words;

pub use errors::{Fault, ImportError};
pub use importing::{Imported, apply_notes, import};
pub use marks::Mark;
pub use notes::{Note, NoteKind};
