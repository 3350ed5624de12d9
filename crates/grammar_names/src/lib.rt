//! Symbols, productions and items of a grammar by their names. Each word of a line has a space before it, the end token is `$`,
//! and no symbols are `%empty`.
//!
//! ```rust
//! use cfg_base::symbol::{PIdx, SIdx};
//! use grammar_names::{Grammar, push_item};
//! use std::alloc::{AllocError, Global};
//!
//! /// The first production with the dot before its second symbol.
//! fn second_item(alloc: Global, grm: &Grammar) -> Result<String, AllocError> {
//!     let mut text = String::new(alloc);
//!     push_item(&mut text, grm, PIdx(0), SIdx(1))?;
//!     Ok(text)
//! }
//! ```
//!
//! For the grammar of `%start E %% E: E '+' 'n' | 'n';` it returns `E: E . + n`. A number that the grammar doesn't have is no
//! fault: such a rule has an empty name, such a token that of the end token, and such a production no symbols.
#![tactic(auto)]

mod names;

pub use names::{
    Grammar, body_len, prod_body, push_body, push_item, push_line, push_prod, push_symbols,
    push_token, push_word, symbol_name, symbols_behind, token_name,
};
