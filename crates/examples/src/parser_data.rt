//! The data that a parser runs on.

use crate::text_errors::grammar;
use cfg_numbered::yacc::grammar::NumberedGrammar;
use cfgrammar::yacc::YaccGrammar;
use lrpar::{ParserData, ParserDataError};
use lrtable::{FromYaccError, Minimiser, StateGraph, StateTable, from_yacc};
use std::alloc::{AllocError, Global};

/// Returns the graph and the table of a grammar, if it has them.
fn tables(
    alloc: Global,
    grm: &YaccGrammar<u32>,
) -> Result<Option<(StateGraph<u32>, StateTable<u32>)>, AllocError> {
    match from_yacc(alloc, grm, Minimiser::Pager) {
        Ok(parts) => Ok(Some(parts)),
        Err(FromYaccError::Memory(e)) => Err(e),
        Err(_) => Ok(None),
    }
}

/// Returns the data of a grammar and its tables, if they are safe.
fn data_of_parts(
    alloc: Global,
    grm: NumberedGrammar<u32>,
    graph: StateGraph<u32>,
    table: StateTable<u32>,
) -> Result<Option<ParserData<u32>>, AllocError> {
    match ParserData::new(alloc, grm, graph, table, 1000) {
        Ok(data) => Ok(Some(data)),
        Err(ParserDataError::Memory(e)) => Err(e),
        Err(_) => Ok(None),
    }
}

/// Returns the data of a grammar, if it has them.
fn data_of_grammar(
    alloc: Global,
    grm: YaccGrammar<u32>,
) -> Result<Option<ParserData<u32>>, AllocError> {
    let parts = tables(alloc, &grm);
    let numbered = grm.into_numbered();
    match parts {
        Ok(Some((graph, table))) => data_of_parts(alloc, numbered, graph, table),
        Ok(None) => {
            drop(numbered);
            Ok(None)
        }
        Err(e) => {
            drop(numbered);
            Err(e)
        }
    }
}

/// Returns the data of a text, if it has them.
pub fn data(alloc: Global, text: &str) -> Result<Option<ParserData<u32>>, AllocError> {
    match grammar(alloc, text)? {
        Ok(grm) => data_of_grammar(alloc, grm),
        Err(_) => Ok(None),
    }
}
