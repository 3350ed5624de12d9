//! Tables that the searches for all conflicts of a graph share. They need not be right: an example is checked.

use crate::beginnings::Beginnings;
use crate::nullable::Nullable;
use crate::predecessors::Predecessors;
use cfg_base::index::IndexStorage;
use cfg_base::symbol::{RIdx, Symbol, TIdx};
use cfg_numbered::yacc::NumberedGrammar;
use cfg_sets::YaccFirsts;
use state_table::stategraph::StateGraph;
use std::alloc::{AllocError, Global};
use vob::Vob;

/// The productions that begin with each symbol, the FIRST sets, the nullable rules, and the predecessors of the states.
#[derive(Drop)]
pub(crate) struct Tables<S> {
    pub beginnings: Beginnings<S>,
    firsts: Vec<Vob>,
    pub nullable: Nullable,
    pub predecessors: Predecessors<S>,
}

/// Whether a list may begin with the token, and whether it may be empty.
#[derive(Clone, Copy)]
pub(crate) struct Start {
    pub has: bool,
    pub vanishes: bool,
}

/// Copies the FIRST sets of the rules.
fn first_sets<S: IndexStorage>(
    alloc: Global,
    grm: &NumberedGrammar<S>,
) -> Result<Vec<Vob>, AllocError> {
    let firsts = YaccFirsts::new(alloc, grm)?;
    let mut sets = Vec::new(alloc);
    'rules: for number in 0..grm.rules_len().0.to_usize() {
        sets.push(firsts.firsts(grm.rule_at(number)).clone()?)?;
    }
    Ok(sets)
}

impl<S: IndexStorage> Tables<S> {
    /// Makes the tables of a grammar and its graph.
    pub(crate) fn new(
        alloc: Global,
        grm: &NumberedGrammar<S>,
        graph: &StateGraph<S>,
    ) -> Result<Tables<S>, AllocError> {
        Ok(Tables {
            beginnings: Beginnings::new(alloc, grm)?,
            firsts: first_sets(alloc, grm)?,
            nullable: Nullable::new(alloc, grm)?,
            predecessors: Predecessors::new(alloc, graph)?,
        })
    }

    /// Returns whether the token is in the FIRST set of the rule.
    pub(crate) fn has_first(&self, ridx: RIdx<S>, token: TIdx<S>) -> bool {
        let number = ridx.0.to_usize();
        if number >= self.firsts.len() {
            return false;
        }
        self.firsts[number].get(token.0.to_usize()).unwrap_or(false)
    }

    /// Returns how a list of symbols may begin.
    pub(crate) fn start_of(&self, symbols: &[Symbol<S>], token: TIdx<S>) -> Start {
        let mut start = Start {
            has: false,
            vanishes: true,
        };
        'symbols: for k in 0..symbols.len() {
            start.has |= match symbols[k] {
                Symbol::Rule(ridx) => self.has_first(ridx, token),
                Symbol::Token(tidx) => tidx.0.to_usize() == token.0.to_usize(),
            };
            start.vanishes = self.nullable.has(symbols[k]);
            if !start.vanishes {
                return start;
            }
        }
        start
    }
}
