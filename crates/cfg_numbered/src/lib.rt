//! Grammars as values, with rules, tokens and productions as numbers.
//!
//! ```rust
//! use cfg_base::index::IndexStorage;
//! use cfg_numbered::yacc::NumberedGrammar;
//! use std::alloc::{AllocError, Global};
//!
//! /// The names of the rules.
//! fn rule_names<S: IndexStorage>(
//!     alloc: Global,
//!     grm: &NumberedGrammar<S>,
//! ) -> Result<String, AllocError> {
//!     let mut names = String::new(alloc);
//!     for number in 0..usize::from(grm.rules_len()) {
//!         names.push_str(grm.rule_name_str(grm.rule_at(number)))?;
//!         names.push_str(" ")?;
//!     }
//!     Ok(names)
//! }
//! ```
//!
//! For the grammar of `%start S %% S: A 'b'; A: 'a' A | ;` it returns `^ S A `. `rule_name_str` requires that each
//! index is one of this grammar, which follows from `rule_at`; that requires a number below the count.
//!
//! A `NumberedGrammar` numbers rules, tokens and productions in an index type; contracts see it as a grammar of
//! numbers, well formed, with names, spans, precedences and other texts of the file beside them. `of_parts` makes one
//! of its parts, and requires what holds for each grammar value; `cfgrammar` makes one of a text. The contracts that
//! matter most are those of `of_parts`, and of `prod`, `prod_to_rule` and `start_prod`, with the law
//! `yacc::grammar::laws::productions_stand_in_one_list` on the lists of `rule_to_prods`. What depends on derivations
//! is in the crates above: FIRST, FOLLOW and paths in `cfg_sets`, costs and shortest sentences in `cfg_sentences`.
#![tactic(auto)]

pub mod yacc;
