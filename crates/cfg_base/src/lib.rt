//! Shared parts of a Yacc toolkit: index types and symbols, spans, lines and bytes of a text.
//!
//! A line of a text is found so:
//!
//! ```rust
//! use cfg_base::newlinecache::NewlineCache;
//! use std::alloc::{AllocError, Global};
//!
//! /// The line and the column of a byte; None past the text's end.
//! fn place(alloc: Global, text: &str, byte: usize) -> Result<Option<(usize, usize)>, AllocError> {
//!     let cache = NewlineCache::from_str(alloc, text)?;
//!     Ok(cache.byte_to_line_num_and_col_num(text, byte))
//! }
//! ```
//!
//! For byte 20 of `"%start S\n%%\nS: 'é' T;\n"`, the `T`, it returns `Some((3, 8))`: columns count characters, and
//! `é` is one of two bytes.
//!
//! Contracts see an index as its number, and a symbol as its kind and number, so a theory of grammars over numbers
//! holds for every index type. A span is a pair of byte offsets; lines count LFs and columns count characters. Module
//! `text` has what all readers of texts share: classes of bytes, runs and gaps; `name_hasher` how their maps hash
//! names. The contracts that matter most are those of `index::IndexStorage` (`from_usize` takes exactly the numbers up
//! to `MAX`) with the laws `index::each_number_is_of_one_value`, `symbol::symbol_is_its_kind_and_number` and
//! `span::span_is_its_offsets`; and of `newlinecache::NewlineCache`, whose answers are those of the fed text
//! (`newlinecache::pieces_make_the_whole`).
#![tactic(auto)]

pub mod index;
pub mod name_hasher;
pub mod newlinecache;
pub mod precedence;
pub mod span;
pub mod steps;
pub mod symbol;
pub mod text;
pub mod text_lines;
