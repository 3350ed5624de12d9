//! Reductions on a stack of states.

use cfg_base::index::IndexStorage;
use cfg_base::symbol::{PIdx, RIdx, Symbol, TIdx};
use cfg_numbered::yacc::NumberedGrammar;
use lrtable::{Action, StIdx, StateGraph, StateTable};
use std::alloc::{AllocError, Global};

/// A stack of states over the table of a grammar.
#[derive(Drop)]
pub(crate) struct Run<'a> {
    grm: &'a NumberedGrammar<u32>,
    table: &'a StateTable<u32>,
    states: Vec<StIdx<u32>>,
}

impl<'a> Run<'a> {
    /// Makes a stack of the start state alone.
    pub(crate) fn new(
        alloc: Global,
        grm: &'a NumberedGrammar<u32>,
        table: &'a StateTable<u32>,
    ) -> Result<Self, AllocError> {
        let mut states = Vec::new(alloc);
        states.push(table.start_state())?;
        Ok(Run { grm, table, states })
    }

    /// Returns the state on top, if the table has it.
    fn top(&self) -> Option<StIdx<u32>> {
        self.states.last().copied()
    }

    /// Follows the edges on symbols, as far as there are any.
    pub(crate) fn follow(
        &mut self,
        graph: &StateGraph<u32>,
        symbols: &[Symbol<u32>],
    ) -> Result<(), AllocError> {
        'symbols: for index in 0..symbols.len() {
            if let Some(top) = self.top() {
                if let Some(next) = graph.edge(top, symbols[index]) {
                    self.states.push(next)?;
                }
            }
        }
        Ok(())
    }

    /// Goes on a rule from the state on top, and returns whether there is a goto.
    fn go(&mut self, ridx: RIdx<u32>) -> Result<bool, AllocError> {
        let Some(top) = self.top() else {
            return Ok(false);
        };
        if !self.table.has_state(top) || ridx.0.to_usize() >= self.table.rules_len().0.to_usize() {
            return Ok(false);
        }
        match self.table.goto(top, ridx) {
            Some(next) => {
                self.states.push(next)?;
                Ok(true)
            }
            None => Ok(false),
        }
    }

    /// Returns the production that the state on top reduces before a token, if it reduces one.
    fn reduction_before(&self, tidx: TIdx<u32>) -> Option<PIdx<u32>> {
        let top = self.top()?;
        if !self.table.has_state(top) || tidx.0.to_usize() >= self.table.tokens_len().0.to_usize() {
            return None;
        }
        match self.table.action(top, tidx) {
            Action::Reduce(pidx) => Some(pidx),
            _ => None,
        }
    }

    /// Makes a reduction, and returns whether there is a goto behind it.
    fn reduce(&mut self, pidx: PIdx<u32>) -> Result<bool, AllocError> {
        if !self.grm.has_prod(pidx) {
            return Ok(false);
        }
        let count = self.grm.prod_len(pidx).0.to_usize();
        let left = self.states.len().saturating_sub(count);
        self.states.truncate(left);
        self.go(self.grm.prod_to_rule(pidx))
    }

    /// Makes the reductions before a token, at most `most` of them, and returns their productions.
    pub(crate) fn reductions_before(
        &mut self,
        alloc: Global,
        tidx: TIdx<u32>,
        most: usize,
    ) -> Result<Vec<PIdx<u32>>, AllocError> {
        let mut found = Vec::new(alloc);
        for _turn in 0..most {
            let Some(pidx) = self.reduction_before(tidx) else {
                break;
            };
            found.push(pidx)?;
            if !self.reduce(pidx)? {
                break;
            }
        }
        Ok(found)
    }
}
