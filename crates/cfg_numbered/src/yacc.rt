//! Grammar values.

pub mod grammar;
pub mod info;

pub use grammar::NumberedGrammar;
