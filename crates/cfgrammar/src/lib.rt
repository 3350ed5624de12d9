//! Grammars of texts.
//!
//! ```rust
//! use cfgrammar::yacc::{YaccGrammar, YaccGrammarMakeError, YaccKind, YaccOriginalActionKind};
//! use std::alloc::{AllocError, Global};
//!
//! const TREE: YaccKind = YaccKind::Original(YaccOriginalActionKind::GenericParseTree);
//!
//! /// How many rules and tokens the grammar of a text has, or why it has none.
//! fn counts(alloc: Global, text: &str) -> Result<String, AllocError> {
//!     match YaccGrammar::<u32>::new(alloc, TREE, text) {
//!         Ok(grm) => {
//!             let (rules, tokens) = (grm.rules_len().0, grm.tokens_len().0);
//!             format!(in alloc; "{rules} rules, {tokens} tokens")
//!         }
//!         Err(YaccGrammarMakeError::Memory(e)) => Err(e),
//!         Err(refusal) => format!(in alloc; "{refusal}"),
//!     }
//! }
//! ```
//!
//! For `%start E %% E: E '+' 'n' | 'n';` it answers `2 rules, 3 tokens`: the rule `^` stands above the start rule, and the last
//! token is the end. For a text that isn't valid it answers `Invalid`, the name of the variant that has the list of its errors.
//!
//! A `YaccGrammar` is the `NumberedGrammar` of `cfg_numbered` that is made of a text: all that the latter answers it
//! answers too, by `Deref`, and contracts see the two as one value. The contracts that matter most are those of
//! `YaccGrammar::new` and the other ways from a text to a grammar, by the rules of numbering in `specs/FromAst`, with the
//! laws `yacc::from_ast::sound_trees_make_grammars` and
//! `yacc::from_ast::trees_without_precedences_make_grammars_without`; and of `TooMany`, which is answered exactly where a
//! count has no number in the index type.
//!
//! What users of grammars name of `cfg_base`, `cfg_read` and `cfg_numbered` stands here too.
#![tactic(auto)]

pub mod yacc;

pub use cfg_base::newlinecache::NewlineCache;
pub use cfg_base::span::{Location, Span, Spanned};
pub use cfg_base::symbol::{PIdx, RIdx, SIdx, Symbol, TIdx};
pub use cfg_base::{index, newlinecache, precedence, span, steps, symbol};
pub use cfg_sections::{header, markmap};
