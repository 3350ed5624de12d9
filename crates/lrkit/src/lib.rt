//! The kit over the crates: a parser of a grammar text, lexers of lines of token names, lines of repairs, and `run`, the
//! whole program over what gives and takes bytes.
//!
//! ```rust
//! use lrkit::{Sink, Source, run, status};
//! use std::alloc::Global;
//!
//! /// The exit status of a run.
//! fn answered<G: Source, L: Source, R: Source, W: Sink>(
//!     alloc: Global,
//!     grammar: &mut G,
//!     lines: &mut L,
//!     repairs: &mut R,
//!     out: &mut W,
//! ) -> u8 {
//!     status(&run(alloc, grammar, lines, repairs, out))
//! }
//! ```
//!
//! Of the grammar `%start S %% S: 'a';`, the line `a` and no repairs it answers 0, and `S` and below it ` a a` are out; of the
//! line `b` it answers 1, with `Lexing error at line 1 column 1.`; of the grammar `%% S: 'a'` it answers 2, and nothing is out.
//!
//! `run` reads a grammar, repairs and lines, and writes for each line its errors and its tree. What it reads from is a
//! `Source`, what it writes to a `Sink`; `Counted` makes either of a reader or a writer. `status` is the program's exit
//! status after a run. `specs/Output` says which text inputs give, `specs/Run` why a run stops and what is out then.
#![tactic(auto)]

mod answering;
mod counts;
mod fault;
pub mod laws;
mod running;
mod trees;

pub use byte_streams::{Counted, Sink, Source};
pub use fault::{Input, RunFault, status};
pub use parser_kit::{GrammarKit, KitError, ParserKit};
pub use running::run;
pub use word_lines::{
    RepairLines, RepairsError, WordLexError, WordLexeme, WordLexer, WordLexerTypes, read_repairs,
};
