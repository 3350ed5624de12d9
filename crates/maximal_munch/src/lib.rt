//! Lexing by maximal munch: at each offset of a text the longest match of the regular expressions that are active there, and of
//! these that of the first. Rules may be limited to start conditions, and change them by a stack, as in Lex.
//!
//! ```rust
//! use maximal_munch::{Ending, Rule, RuleSet, Target, munch};
//! use regex::{Error, Regex};
//! use std::alloc::Global;
//!
//! /// Returns the number of words and gaps in a text of letters and spaces, or None where it has something else.
//! fn count(alloc: Global, text: &str) -> Result<Option<usize>, Error> {
//!     let mut rules = RuleSet::new(alloc);
//!     for source in [r"\A(?:[a-z]+)", r"\A(?: +)"] {
//!         let regex = Regex::new(alloc, source)?;
//!         let conditions = Vec::new(alloc);
//!         rules.push(Rule { regex, conditions, target: Target::Stay })?;
//!     }
//!     let munched = munch(alloc, &rules, text)?;
//!     Ok(match munched.ending {
//!         Ending::Finished => Some(munched.parts.len()),
//!         _ => None,
//!     })
//! }
//! ```
//!
//! For `a bc` it answers `Some(3)`, for `a, b` None: lexing ends with `Ending::NoMatch(1)`.
//!
//! A rule's expression is searched for in the rest of the text alone, so `^` and `\b` don't see what is before the offset, and
//! what is found counts only where it begins at the offset. An expression that is anchored with `\A` is tried there alone; any
//! other one is right, but looked for in all of the rest. Of the matches of one expression its regex chooses (leftmost-first: of
//! `a|ab` the first branch that fits), and the longest of these over all rules counts. A match without a byte is none.
//!
//! A rule that is put in by `RuleSet::push` is tried at each offset, one by `RuleSet::push_read` only before the bytes that its
//! matches may begin with, which takes the time of rules that match nothing away and changes no answer.
//!
//! `specs/Munching` defines what `munch` answers, and `laws` has what follows from it: one answer for each text, whose parts follow
//! one another.
#![tactic(auto)]

mod beginnings;
mod conditions;
pub mod laws;
mod matching;
mod munching;
mod rules;
mod tried;

pub use munching::{Ending, Munched, Part, munch};
pub use rules::{Rule, RuleSet, Target};
