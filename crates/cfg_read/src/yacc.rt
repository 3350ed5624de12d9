//! Yacc grammars.

pub mod ast;
mod file;
mod kind;
pub mod laws;
mod name;
mod name_table;
mod names;
pub mod parser;
mod text_kind;
pub mod validity;
mod validity_info;

pub use ast::warnings::{YaccGrammarWarning, YaccGrammarWarningKind};
pub use cfg_base::precedence::{AssocKind, Precedence, PrecedenceLevel};
pub use file::{YaccGrammarFailure, YaccGrammarResult, one_file, one_kind};
pub use kind::{KindError, kind_comes_back};
pub use name::Name;
pub use parser::error::YaccGrammarErrorKind;
pub use text_kind::kind_of;
pub use validity::YaccGrammarError;
pub use validity_info::{
    ASTModificationError, ASTWithValidityInfo, one_answer, valid_trees_are_well_formed,
};

/// The syntax of a grammar text.
#[derive(Clone, Copy, Debug, PartialEq, Eq)]
pub enum YaccKind {
    /// Yacc's own syntax.
    Original(YaccOriginalActionKind),
    /// A syntax where each rule has the type of its actions behind its name.
    Grmtools,
    /// A syntax with `%implicit_tokens`, which may appear anywhere without being named in a rule.
    Eco,
}

/// What the actions of an original Yacc grammar are.
#[derive(Clone, Copy, Debug, PartialEq, Eq)]
pub enum YaccOriginalActionKind {
    /// Code of the grammar's author.
    UserAction,
    /// A tree of the whole parse.
    GenericParseTree,
    /// Nothing: no actions are run.
    NoAction,
}
