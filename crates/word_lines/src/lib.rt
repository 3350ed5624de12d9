//! Lexemes of a line of words, and repairs of lines of words.
//!
//! ```rust
//! use cfg_base::span::Span;
//! use cfg_numbered::yacc::NumberedGrammar;
//! use lrpar::{LexError, Lexer};
//! use std::alloc::{AllocError, Global};
//! use word_lines::WordLexer;
//!
//! /// The place of the first word of a line that is no token's name.
//! fn stranger(
//!     alloc: Global,
//!     grm: &NumberedGrammar<u32>,
//!     line: &str,
//! ) -> Result<Option<Span>, AllocError> {
//!     let lexer = WordLexer::new(alloc, grm, line)?;
//!     for item in lexer.iter() {
//!         if let Err(fault) = item {
//!             return Ok(Some(fault.span()));
//!         }
//!     }
//!     Ok(None)
//! }
//! ```
//!
//! For a grammar with the tokens `+` and `ID` and the line `ID * ID` it answers `Some` of the span (3, 4), for `ID + ID` None. A
//! parser of `lrpar` takes the lexer as it is: `RTParserBuilder::<WordLexerTypes<u32>, _>::new(&data)`.
//!
//! A line is words with spaces between them. `WordLexer::new` makes its list of lexemes, by contract the items of
//! `specs/Lexing` (`items_of`): a word that is a token's name is a lexeme, any other a lexing error. No such list is refused by
//! a parse, and its items are parts of the line (`laws::items_are_parts_of_their_line`), so that the errors and the tree of its
//! parse can be shown over it (`laws::flat_parses_can_be_shown`, over `specs/ShownTexts`). The text of each lexeme is the name of
//! its token (`laws::lexemes_of_lines_are_named`), so `NodeLines` has the lines of lexemes ready. `read_repairs` reads a text of
//! lines of repairs (`specs/Repairs`), which `RepairLines` hands in, all of them, at each error. `shown` adds the texts of a
//! line's errors to a text (`specs/LineTexts`); `trees` adds that of its tree node by node, so that a caller may let it go a part
//! at a time.
#![tactic(auto)]

pub mod laws;
pub mod lexeme;
pub mod lexer;
mod names;
mod node_lines;
pub mod outlines;
pub mod repairs;
pub mod shown;
pub mod trees;

pub use lexeme::{WordLexError, WordLexeme, WordLexerTypes};
pub use lexer::{LexerRoom, WordLexer};
pub use node_lines::NodeLines;
pub use repairs::{RepairLines, RepairsError, read_repairs};
