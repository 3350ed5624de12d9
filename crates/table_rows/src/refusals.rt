//! Why there is no grammar of a text, or no table of a grammar.

use cfgrammar::index::IndexStorage;
use cfgrammar::yacc::{TooMany, YaccGrammarMakeError};
use lrtable::FromYaccError;
use lrtable::statetable::StateTableError;
use row_files::push_errors;
use std::alloc::{AllocError, Global};

pub fn push_number(
    alloc: Global,
    out: &mut String,
    before: &str,
    number: usize,
) -> Result<(), AllocError> {
    out.push_str(format!(in alloc; "{before}{number}")?.as_str())
}

fn push_too_many(alloc: Global, out: &mut String, many: TooMany) -> Result<(), AllocError> {
    let count = match many {
        TooMany::TooManyRules(count) => count,
        TooMany::TooManyProds(count) => count,
        TooMany::TooManyTokens(count) => count,
        TooMany::TooManySymbols(count) => count,
    };
    out.push_str(format!(in alloc; "{many} {count}\n")?.as_str())
}

pub fn push_no_grammar(
    alloc: Global,
    out: &mut String,
    refusal: &YaccGrammarMakeError,
) -> Result<(), AllocError> {
    match refusal {
        YaccGrammarMakeError::Memory(e) => Err(*e),
        YaccGrammarMakeError::Invalid(errors) => push_errors(alloc, out, errors.as_slice()),
        YaccGrammarMakeError::TooMany(many) => push_too_many(alloc, out, *many),
    }
}

fn push_told<S: IndexStorage>(
    alloc: Global,
    out: &mut String,
    told: &StateTableError<S>,
) -> Result<(), AllocError> {
    let kind = told.kind;
    let production = usize::from(told.pidx);
    out.push_str(format!(in alloc; "{kind:?} p{production}: {told}\n")?.as_str())
}

pub fn push_no_table<S: IndexStorage>(
    alloc: Global,
    out: &mut String,
    refusal: &FromYaccError<S>,
) -> Result<(), AllocError> {
    match refusal {
        FromYaccError::Memory(e) => Err(*e),
        FromYaccError::TooManyStates(count) => {
            out.push_str(format!(in alloc; "{refusal} {count}\n")?.as_str())
        }
        FromYaccError::StateTable(told) => push_told(alloc, out, told),
        FromYaccError::TooLarge => out.push_str(format!(in alloc; "{refusal}\n")?.as_str()),
    }
}
