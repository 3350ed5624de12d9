//! FIRST and FOLLOW sets of a grammar value (Aho, Sethi and Ullman 1986, section 4.4), paths between its rules, and whether each
//! derives some text.
//!
//! ```rust
//! use cfg_base::index::IndexStorage;
//! use cfg_numbered::yacc::NumberedGrammar;
//! use cfg_sets::YaccFirsts;
//! use std::alloc::{AllocError, Global};
//!
//! /// The rules that derive the empty list.
//! fn nullable<S: IndexStorage>(
//!     alloc: Global,
//!     grm: &NumberedGrammar<S>,
//! ) -> Result<String, AllocError> {
//!     let firsts = YaccFirsts::new(alloc, grm)?;
//!     let mut names = String::new(alloc);
//!     for number in 0..usize::from(grm.rules_len()) {
//!         let ridx = grm.rule_at(number);
//!         if firsts.is_epsilon_set(ridx) {
//!             names.push_str(grm.rule_name_str(ridx))?;
//!             names.push_str(" ")?;
//!         }
//!     }
//!     Ok(names)
//! }
//! ```
//!
//! For the grammar of `%start S %% S: A 'b'; A: 'a' A | ;` it returns `A `. `is_epsilon_set` requires that the index
//! is one of this grammar, which follows from `rule_at`; that requires a number below the count.
//!
//! The contracts that matter most are those of `YaccFirsts::new` and `YaccFollows::new`, whose sets have exactly the
//! tokens that derivations have, of `has_path` and of `all_productive`.
//!
//! Sets and paths are found with a work list of rules (`work_list`): a rule is taken from it, what depends on the
//! rule is updated, and a rule whose set grows enters the list. All that is in a set is true of derivations, at the
//! end the sets are closed under the productions, and such sets are exact by the laws of `cfg_theory`.
#![tactic(auto)]

pub mod firsts;
pub mod follows;
pub mod naming;
pub mod orders;
pub mod paths;
mod productive;
pub mod sets;
pub mod work_list;

pub use firsts::YaccFirsts;
pub use follows::YaccFollows;
pub use paths::has_path;
pub use productive::all_productive;
