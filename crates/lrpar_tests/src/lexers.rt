//! Lexers by regular expressions.

mod lexing;
mod rules;
