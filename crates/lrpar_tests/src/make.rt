//! Grammars, tables and checked data of texts.

use cfgrammar::yacc::{YaccGrammar, YaccGrammarMakeError, YaccKind, YaccOriginalActionKind};
use lrpar::{ParserData, ParserDataError};
use lrtable::{FromYaccError, Minimiser, StateGraph, StateTable, from_yacc};
use std::alloc::Global;
use std::test::*;

const TREE: YaccKind = YaccKind::Original(YaccOriginalActionKind::GenericParseTree);

/// Data that were made, or their refusal.
pub type Made = Result<ParserData<u8>, ParserDataError<u8>>;

/// Returns the grammar of a text that has one.
pub fn grammar(alloc: Global, text: &str) -> Result<YaccGrammar<u8>, Fail> {
    match YaccGrammar::new_with_storaget(alloc, TREE, text) {
        Ok(grm) => Ok(grm),
        Err(YaccGrammarMakeError::Memory(e)) => Err(e.into()),
        Err(_) => Err("no grammar".into()),
    }
}

/// Returns the graph and the table of a text's grammar.
pub fn tables(alloc: Global, text: &str) -> Result<(StateGraph<u8>, StateTable<u8>), Fail> {
    let grm = grammar(alloc, text)?;
    let made = from_yacc(alloc, &grm, Minimiser::Pager);
    drop(grm);
    match made {
        Ok(parts) => Ok(parts),
        Err(FromYaccError::Memory(e)) => Err(e.into()),
        Err(_) => Err("no table".into()),
    }
}

/// Returns the data of a text's grammar, a graph and a table, or their refusal.
pub fn data_of(
    alloc: Global,
    text: &str,
    graph: StateGraph<u8>,
    table: StateTable<u8>,
) -> Result<Made, Fail> {
    match grammar(alloc, text) {
        Ok(grm) => Ok(ParserData::new(alloc, grm.into_numbered(), graph, table, 1000)),
        Err(fail) => {
            drop(graph);
            drop(table);
            Err(fail)
        }
    }
}

/// Returns the graph of one text's grammar and the table of another's.
fn mixed_tables(
    alloc: Global,
    drawn: &str,
    tabled: &str,
) -> Result<(StateGraph<u8>, StateTable<u8>), Fail> {
    let (graph, foreign) = tables(alloc, drawn)?;
    drop(foreign);
    match tables(alloc, tabled) {
        Ok((other, table)) => {
            drop(other);
            Ok((graph, table))
        }
        Err(fail) => {
            drop(graph);
            Err(fail)
        }
    }
}

/// Returns the data of one text's grammar, another's graph and a third's table, or their refusal.
pub fn mixed_data(alloc: Global, text: &str, drawn: &str, tabled: &str) -> Result<Made, Fail> {
    let (graph, table) = mixed_tables(alloc, drawn, tabled)?;
    data_of(alloc, text, graph, table)
}

/// Returns the data of one text's grammar and the tables of another's, or their refusal.
pub fn new_data(alloc: Global, text: &str, tabled: &str) -> Result<Made, Fail> {
    let (graph, table) = tables(alloc, tabled)?;
    data_of(alloc, text, graph, table)
}

/// Returns the data of a text that has them.
pub fn data(alloc: Global, text: &str) -> Result<ParserData<u8>, Fail> {
    match new_data(alloc, text, text)? {
        Ok(data) => Ok(data),
        Err(ParserDataError::Memory(e)) => Err(e.into()),
        Err(refusal) => {
            drop(refusal);
            Err("refused".into())
        }
    }
}
