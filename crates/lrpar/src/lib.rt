//! LR parsing over checked tables: the check of tables, the run with repairs, and the parses that make values and
//! trees.
//!
//! ```rust
//! use lrpar::{Lexer, LexerTypes, ParseRefusal, ParserData, RTParserBuilder};
//! use std::alloc::Global;
//!
//! /// How many errors a parse of a lexer's lexemes has.
//! fn errors_in<T: LexerTypes<StorageT = u32>, X: Lexer<T>>(
//!     alloc: Global,
//!     data: &ParserData<u32>,
//!     lexer: &X,
//! ) -> Result<usize, ParseRefusal> {
//!     let parser = RTParserBuilder::<T, _>::new(data);
//!     let errors = parser.parse_noaction(alloc, lexer)?;
//!     Ok(errors.len())
//! }
//! ```
//!
//! Without repairs it returns 0 or 1: a parse stops at its first error. `parser.recoverer(&offers)` has a parser with
//! repairs. `parse_generictree`, `parse_map`, `parse_actions`, `parse_fold` and `parse_flat` make values in place of
//! `parse_noaction`. Modules `calc` and `editor` of `crates/examples` have lexers and a recoverer.
//!
//! `ParserData` holds a grammar, a graph and a table that were checked against it, so no call on it requires more.
//! Its `next_tokens` returns the tokens that may come after some lexemes, such as those before an error. A parser
//! (`RTParserBuilder`) runs the lexemes of a lexer over them. It returns the first error of the lexer, or the value
//! and the errors of the run with repairs: at each error a `Recoverer` returns sequences, and the first that can be
//! taken is applied. The contracts that matter most: `parserdata::ParserData::new` (a pair of a graph and a table is
//! refused if and only if it isn't safe, at its least place, or where a chain of reductions passes the cap), and
//! those of `builder::RTParserBuilder`, by `specs/Parses` (`IsParse`: the result of a parse, and what follows from
//! it).
//!
//! A caller's lexer is a function that makes a list of `DefaultLexeme` and `LRLexError`: `ListLexer` is the lexer of
//! that list, and `TextLexer` that of the list and its text.
//!
//! Lexemes, trees, the stacks of values and the texts of errors are those of `parse_trees`, whose modules `flat`,
//! `lex_api`, `node` and `parse_repair` are exported here.
#![tactic(auto)]

mod apply;
pub mod builder;
mod chains;
pub mod default_lexeme;
mod endings;
mod flat_parse;
pub mod folded_parse;
mod full_table;
mod handed_out;
pub mod laws;
pub mod list_lexer;
mod machine;
mod next_tokens;
mod numbers;
mod outline_parse;
mod overlay;
mod parse;
pub mod parse_actions;
pub mod parse_error;
mod parse_generictree;
mod parse_map;
mod parse_noaction;
pub mod parser;
pub mod parserdata;
pub mod prefix;
pub mod recoverer;
mod reducers;
mod repair;
mod rows;
mod run;
mod stacks;
mod tokenless_chains;
mod unit_chains;

pub use builder::RTParserBuilder;
pub use default_lexeme::{DefaultLexeme, DefaultLexerTypes, LRLexError};
pub use folded_parse::FoldedOutcome;
pub use list_lexer::{ListLexer, TextLexer};
pub use parse_actions::{AStackType, Actions, GenericTreeActions};
pub use parse_error::{LexParseError, ParseError};
pub use parse_trees::flat::FlatTree;
pub use parse_trees::lex_api::{LexError, Lexeme, Lexer, LexerTypes, NonStreamingLexer};
pub use parse_trees::lexemes::ParseRefusal;
pub use parse_trees::node::Node;
pub use parse_trees::outline::Outline;
pub use parse_trees::parse_repair::ParseRepair;
pub use parse_trees::{flat, lex_api, node, outline, parse_repair};
pub use parserdata::{BuiltDataError, Cell, ParserData, ParserDataError, Parts};
pub use prefix::Prefix;
pub use recoverer::{NoRecovery, Recoverer, RepairStep};
