//! Grammars in files of Bison or Yacc: what shows that a file is one, its import with the file's places, and what was left out or
//! changed, in words.
//!
//! ```rust
//! use bison_sources::{bison_file, import_file};
//! use checked_import::CheckedError;
//! use std::alloc::Global;
//!
//! /// The text that is read in place of a file's, if that is one of Bison.
//! fn text_of(alloc: Global, text: &str) -> Result<Option<String>, CheckedError> {
//!     match bison_file(text, "sums.y", false) {
//!         Some(file) => {
//!             let import = import_file(alloc, file)?;
//!             Ok(Some(import.imported.text))
//!         }
//!         None => Ok(None),
//!     }
//! }
//! ```
//!
//! For `%token <n> NUM %% sum: NUM;` it answers `Some` of `%token NUM %% sum: NUM;`, with blanks between. By contract the rules
//! that the text of an import reads as are those of the file, and `BisonImport::source` shows the file in its place.
#![tactic(auto)]

mod imports;
mod notes;
mod signs;

pub use imports::{BisonImport, import_file, refusal_message};
pub use notes::{note_messages, push_notes};
pub use signs::{BisonFile, bison_file, bison_sign};
