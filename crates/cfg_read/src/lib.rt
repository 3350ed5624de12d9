//! Reads grammar files: the syntax tree of a text, with byte spans, and all that is wrong with it.
//!
//! ```rust
//! use cfg_read::yacc::{ASTWithValidityInfo, YaccKind, YaccOriginalActionKind};
//! use std::alloc::{AllocError, Global};
//!
//! const TREE: YaccKind = YaccKind::Original(YaccOriginalActionKind::GenericParseTree);
//!
//! /// All that is wrong with a text, a line each.
//! fn faults(alloc: Global, text: &str) -> Result<String, AllocError> {
//!     let read = ASTWithValidityInfo::new(alloc, TREE, text)?;
//!     let mut out = String::new(alloc);
//!     for error in read.errors() {
//!         out.push_str(format!(in alloc; "{error}\n")?.as_str())?;
//!     }
//!     Ok(out)
//! }
//! ```
//!
//! For `%start T %% S: 'a' U;` it returns the lines `Start rule 'T' does not appear in grammar` and `Unknown
//! reference to rule 'U'`; each error has its kind and its spans too. Where a text doesn't read, its one error is the
//! first fault, as `Incomplete rule` for `%% S: 'a'`. The tree is `read.ast()`.
//!
//! The contracts that matter most are those of `yacc::ASTWithValidityInfo::new` and `from_str`, by the definition
//! `IsChecked` of `specs/ValidityInfo`, and of `yacc::ast::GrammarAST::warnings`, by `specs/Warnings`. They use
//! `yacc::parser::read_syntax`, which returns what a text says or its one fault, the pass that makes productions of
//! its alternatives (`specs/Settling`), and the listing of what is wrong with a text that reads (`specs/Validity`).
//! `docs/FILE_GRAMMAR.md` describes the file grammar in words.
//!
//! The definitions are in `specs/`: the words of a text (`Words`), the constructs one after another (`Reading`), the
//! offsets where none goes on (`SyntaxErrors`), what is wrong with a text that reads (`Validity`), and the tree of
//! what was read (`Asts`).
#![tactic(auto)]

pub mod yacc;
