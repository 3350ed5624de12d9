//! Sentences: the least and the greatest cost of the token lists that a rule derives, and the cheapest lists.
//!
//! ```rust
//! use cfg_numbered::yacc::NumberedGrammar;
//! use cfg_sentences::{SentenceError, SentenceGenerator};
//! use std::alloc::Global;
//!
//! /// How many tokens the shortest sentence has.
//! fn shortest(alloc: Global, grm: &NumberedGrammar<u32>) -> Result<usize, SentenceError> {
//!     let costs = SentenceGenerator::new(alloc, grm, |_token| 1)?;
//!     let sentence = costs.min_sentence(alloc, grm.start_rule_idx())?;
//!     Ok(sentence.len())
//! }
//! ```
//!
//! For the grammar of `%start S %% S: 'a' S | 'b';` it returns 1.
//!
//! The contracts that matter most are those of `SentenceGenerator::min_sentence_cost`, `max_sentence_cost`,
//! `min_sentence` and `min_sentences`: costs and cheapest sentences are over all token lists that a rule derives.
//!
//! Least and greatest costs, the rules without a greatest cost, and the rules that cheapest lists need, with all
//! lists of each or with the first one, are found by takings from a list of rules that wait (`by_prods`, over
//! `work_list` of `cfg_sets`). What they end with is closed under the productions and true of derivations, so that it
//! is exact by the laws of `cfg_theory`.
#![tactic(auto)]

pub mod by_prods;
pub mod sentences;

pub use sentences::{CostError, SentenceError, SentenceGenerator};
