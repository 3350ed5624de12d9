//! Tests of `cfg_read` and `cfgrammar` that need more than a text and what is printed of it: calls that change a value, loops
//! over a grammar's numbers, functions handed in, values made by hand, texts of errors. Texts with their trees and errors are
//! rows of `read_rows`; those with what is printed of their grammars, FIRST and FOLLOW sets, paths, sentences and refusals
//! are rows of `grammar_rows`.
//! Large values are dropped by name, at one exit: such drops go through one function for each type,
//! which is checked once, where a drop at the end of a scope is checked anew at each exit.
#![tactic(auto)]

#[cfg(test)]
mod error_texts;
#[cfg(test)]
mod kinds;
#[cfg(test)]
mod make;
#[cfg(test)]
mod numbers;
#[cfg(test)]
mod refusals;
#[cfg(test)]
mod same;
#[cfg(test)]
mod sentences;
#[cfg(test)]
mod texts;
#[cfg(test)]
mod trees;
