//! Hints for who writes a grammar: what a fault of reading mostly comes from, which name an unknown one may stand for, and what of
//! the declarations means something else here than in other tools.
//!
//! ```rust
//! use cfg_read::yacc::YaccGrammarError;
//! use cfg_read::yacc::ast::GrammarAST;
//! use grammar_hints::hint_of;
//! use std::alloc::{AllocError, Global};
//!
//! /// How many of these errors have a hint.
//! fn hinted_len(
//!     alloc: Global,
//!     text: &str,
//!     ast: &GrammarAST,
//!     errors: &[YaccGrammarError],
//! ) -> Result<usize, AllocError> {
//!     let mut count: usize = 0;
//!     for error in errors {
//!         if hint_of(alloc, text, ast, error)?.is_some() {
//!             count = count.saturating_add(1);
//!         }
//!     }
//!     Ok(count)
//! }
//! ```
//!
//! Of `%% E: E '+' T;` the one error has a hint: `T` is used, but no rule and no `%token` declares it. Places are byte offsets of the
//! text. A hint changes nothing of what an error says, and is tested, by the rows of `report_rows`; its place lies within the
//! text, by contract.
#![tactic(auto)]

mod declared_tokens;
mod hint;
mod names;
mod reading;

pub use declared_tokens::token_warnings;
pub use hint::{Hint, hint_of};
