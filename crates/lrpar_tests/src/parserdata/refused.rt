//! Grammars with the graphs and the tables of others, chains of reductions without an end, and the parts that a refusal returns.

use crate::make::{Made, data_of, mixed_data, new_data, tables};
use crate::same::same;
use cfg_base::symbol::{RIdx, TIdx};
use lrpar::parserdata::{Cell, Parts};
use lrpar::{ParserData, ParserDataError};
use lrtable::StIdx;
use std::alloc::{AllocError, Global};
use std::test::*;

/// Why data are refused, and where.
#[derive(Clone, Copy, PartialEq)]
enum Reason {
    Unsafe(StIdx<u8>, Cell<u8>),
    Long(StIdx<u8>, Option<RIdx<u8>>, TIdx<u8>),
}

/// Returns whether data were made. Lack of memory is an error.
fn are_made(made: &Made) -> Result<bool, AllocError> {
    match made {
        Ok(_) => Ok(true),
        Err(ParserDataError::Memory(e)) => Err(*e),
        Err(_) => Ok(false),
    }
}

/// Returns whether data are made of the grammar of the first text, the graph of the second and the table of the third.
fn are_taken(alloc: Global, text: &str, drawn: &str, tabled: &str) -> Result<bool, Fail> {
    let made = mixed_data(alloc, text, drawn, tabled)?;
    let taken = are_made(&made);
    drop(made);
    Ok(taken?)
}

/// Returns whether data are made of parts of two refusals: the grammar of the first, the graph and the table of the second.
fn are_fitting(alloc: Global, first: Parts<u8>, second: Parts<u8>) -> Result<bool, AllocError> {
    let Parts {
        grm,
        sgraph: foreign_graph,
        stable: foreign_table,
    } = first;
    drop(foreign_graph);
    drop(foreign_table);
    let Parts {
        grm: foreign,
        sgraph,
        stable,
    } = second;
    drop(foreign);
    let made = ParserData::new(alloc, grm, sgraph, stable, 1000);
    let taken = are_made(&made);
    drop(made);
    taken
}

/// Returns whether data are refused for this reason, past a cap of 1000, and the refusal is shown by its name.
fn is_told(
    alloc: Global,
    refusal: &ParserDataError<u8>,
    reason: Reason,
) -> Result<bool, AllocError> {
    let text = format!(in alloc; "{refusal}")?;
    match refusal {
        ParserDataError::UnsafeTable {
            state,
            cell,
            parts: _,
        } => Ok(Reason::Unsafe(*state, *cell) == reason && text.as_str() == "UnsafeTable"),
        ParserDataError::TooManyReductions {
            state,
            rule,
            token,
            cap,
            parts: _,
        } => Ok(
            Reason::Long(*state, *rule, *token) == reason
                && *cap == 1000
                && text.as_str() == "TooManyReductions",
        ),
        ParserDataError::Memory(e) => Err(*e),
    }
}

/// Returns the parts of a refusal.
fn parts_of(refusal: ParserDataError<u8>) -> Result<Parts<u8>, Fail> {
    match refusal {
        ParserDataError::UnsafeTable {
            state: _,
            cell: _,
            parts,
        } => Ok(parts),
        ParserDataError::TooManyReductions {
            state: _,
            rule: _,
            token: _,
            cap: _,
            parts,
        } => Ok(parts),
        ParserDataError::Memory(e) => Err(e.into()),
    }
}

/// Returns the parts of the refusal of one text's grammar with another's tables for this reason.
fn refused_for(alloc: Global, text: &str, tabled: &str, reason: Reason) -> Result<Parts<u8>, Fail> {
    match new_data(alloc, text, tabled)? {
        Ok(data) => {
            drop(data);
            Err("not refused".into())
        }
        Err(refusal) => match is_told(alloc, &refusal, reason) {
            Ok(true) => parts_of(refusal),
            Ok(false) => {
                drop(refusal);
                Err("refused for another reason".into())
            }
            Err(e) => {
                drop(refusal);
                Err(e.into())
            }
        },
    }
}

/// Returns whether the grammar of each text is refused with the tables of the other, for the first reason and for the second,
/// and all parts come back: the first grammar is taken then with its own tables.
fn come_back(
    alloc: Global,
    text: &str,
    other: &str,
    reason: Reason,
    other_reason: Reason,
) -> Result<bool, Fail> {
    let parts = refused_for(alloc, text, other, reason)?;
    match refused_for(alloc, other, text, other_reason) {
        Ok(other_parts) => Ok(are_fitting(alloc, parts, other_parts)?),
        Err(fail) => {
            drop(parts);
            Err(fail)
        }
    }
}

const FIRST: &str = "%% S: 'a' 'b' | 'b';";

const SECOND: &str = "%% S: 'b' | 'a' 'b';";

const SUMS: &str = "%start E %% E: T '+' E | T; T: 'ID';";

const PLUS: &str = "%start E %% E: E '+' E | 'n';";

const EMPTY: &str = "%% S: ;";

const PAIR: &str = "%% S: 'a' 'b';";

const ONE: &str = "%% S: 'a';";

const COUNTS: Reason = Reason::Unsafe(StIdx(0), Cell::Counts);

const SECOND_REASON: Reason = Reason::Unsafe(StIdx(3), Cell::Token(TIdx(2)));

const FIRST_REASON: Reason = Reason::Unsafe(StIdx(2), Cell::Token(TIdx(2)));

/// Two texts, each with why its grammar is refused with the tables of the other.
const PAIRS: &[((&str, Reason), (&str, Reason))] = &[
    ((SECOND, SECOND_REASON), (FIRST, FIRST_REASON)),
    ((FIRST, FIRST_REASON), (SECOND, SECOND_REASON)),
    ((PLUS, COUNTS), (SUMS, COUNTS)),
    ((SUMS, COUNTS), (PLUS, COUNTS)),
    ((PAIR, COUNTS), (ONE, COUNTS)),
    ((ONE, COUNTS), (PAIR, COUNTS)),
];

#[test]
fn parts_come_back(rt: HostRuntime) -> Result<(), Fail> {
    for ((text, reason), (other, other_reason)) in PAIRS {
        let back = come_back(rt.alloc(), text, other, *reason, *other_reason)?;
        same(&rt, text, back, true);
    }
    Ok(())
}

/// Returns the rules, productions and tokens of the grammar, the states and edges of the graph, and the states, rules, productions
/// and tokens of the table.
fn counts_of(parts: &Parts<u8>) -> [usize; 9] {
    [
        parts.grm.rules_len().0 as usize,
        parts.grm.prods_len().0 as usize,
        parts.grm.tokens_len().0 as usize,
        parts.sgraph.all_states_len().0 as usize,
        parts.sgraph.all_edges_len(),
        parts.stable.states_len().0 as usize,
        parts.stable.rules_len().0 as usize,
        parts.stable.prods_len().0 as usize,
        parts.stable.tokens_len().0 as usize,
    ]
}

/// Returns the counts of the parts that come back of a text whose own tables are refused for this reason.
fn counts_back(alloc: Global, text: &str, reason: Reason) -> Result<[usize; 9], Fail> {
    let parts = refused_for(alloc, text, text, reason)?;
    let counts = counts_of(&parts);
    drop(parts);
    Ok(counts)
}

/// On `a` the first table reduces by the rule without symbols, whose precedence is higher, again and again; at the end the
/// second one reduces from `A` to `B` and back.
const LONG: &[(&str, Reason, [usize; 9])] = &[
    (
        "%nonassoc 'a'\n%nonassoc 'p'\n%start S %% S: E S 'b' | 'a'; E: %prec 'p';",
        Reason::Long(StIdx(0), None, TIdx(1)),
        [3, 4, 3, 6, 7, 6, 3, 4, 3],
    ),
    (
        "%start S %% A: B; B: A | 'x'; S: A;",
        Reason::Long(StIdx(0), Some(RIdx(1)), TIdx(1)),
        [4, 5, 2, 5, 4, 5, 4, 5, 2],
    ),
];

#[test]
fn long_chains_are_told(rt: HostRuntime) -> Result<(), Fail> {
    for (text, reason, counts) in LONG {
        same(&rt, text, counts_back(rt.alloc(), text, *reason)?, *counts);
    }
    Ok(())
}

const TEXTS: [&str; 5] = [FIRST, SECOND, SUMS, PLUS, EMPTY];

/// Gives the grammar of the first text and the graph of the second with the table of each text.
fn try_tables(alloc: Global, text: &str, drawn: &str) -> Result<(), Fail> {
    for tabled in TEXTS {
        are_taken(alloc, text, drawn, tabled)?;
    }
    Ok(())
}

#[test]
fn foreign_tables_are_answered(rt: HostRuntime) -> Result<(), Fail> {
    for text in TEXTS {
        for drawn in TEXTS {
            try_tables(rt.alloc(), text, drawn)?;
        }
        assert!(rt; are_taken(rt.alloc(), text, text, text)?);
    }
    Ok(())
}

/// Returns whether a grammar is taken with its tables, whose rows were made full.
fn is_taken_full(alloc: Global, text: &str) -> Result<bool, Fail> {
    let (graph, table) = tables(alloc, text)?;
    match table.with_full_rows(alloc) {
        Ok(full) => {
            let made = data_of(alloc, text, graph, full)?;
            let taken = are_made(&made);
            drop(made);
            Ok(taken?)
        }
        Err(e) => {
            drop(graph);
            Err(e.into())
        }
    }
}

#[test]
fn tables_with_full_rows_are_taken(rt: HostRuntime) -> Result<(), Fail> {
    assert!(rt; is_taken_full(rt.alloc(), SUMS)?);
    Ok(())
}
