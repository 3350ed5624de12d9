//! The productions that begin with each symbol.

use crate::productions::symbol_after;
use cfg_base::index::IndexStorage;
use cfg_base::symbol::{PIdx, SIdx, Symbol};
use cfg_numbered::yacc::NumberedGrammar;
use std::alloc::{AllocError, Global};

/// A production, its dot 0, and the number of its rule.
#[derive(Clone, Copy)]
pub(crate) struct Beginning<S> {
    pub rule: usize,
    pub pidx: PIdx<S>,
    pub dot: SIdx<S>,
}

/// For each rule, and for each token, the productions that begin with it, in the order of their rules.
#[derive(Drop)]
pub(crate) struct Beginnings<S> {
    rules: Vec<Vec<Beginning<S>>>,
    tokens: Vec<Vec<Beginning<S>>>,
}

/// Makes `count` empty lists.
pub(crate) fn empty_lists<T: Drop>(alloc: Global, count: usize) -> Result<Vec<Vec<T>>, AllocError> {
    let mut lists = Vec::new(alloc);
    'lists: for _ in 0..count {
        lists.push(Vec::new(alloc))?;
    }
    Ok(lists)
}

/// Appends to the list at the index, if there is one.
pub(crate) fn push_at<T: Drop>(
    lists: &mut Vec<Vec<T>>,
    index: usize,
    value: T,
) -> Result<(), AllocError> {
    if index < lists.len() {
        lists[index].push(value)?;
    }
    Ok(())
}

/// Returns the list at the index, or an empty one.
pub(crate) fn list_at<T>(lists: &[Vec<T>], index: usize) -> &[T] {
    if index >= lists.len() {
        return &[];
    }
    lists[index].as_slice()
}

impl<S: IndexStorage> Beginnings<S> {
    /// Lists the productions of a grammar.
    pub(crate) fn new(
        alloc: Global,
        grm: &NumberedGrammar<S>,
    ) -> Result<Beginnings<S>, AllocError> {
        let mut beginnings = Beginnings {
            rules: empty_lists(alloc, grm.rules_len().0.to_usize())?,
            tokens: empty_lists(alloc, grm.tokens_len().0.to_usize())?,
        };
        let Some(zero) = S::from_usize(0) else {
            return Ok(beginnings);
        };
        'rules: for rule in 0..grm.rules_len().0.to_usize() {
            let prods = grm.rule_to_prods(grm.rule_at(rule));
            'prods: for k in 0..prods.len() {
                let pidx = prods[k];
                let dot = SIdx(zero);
                beginnings.push(grm, Beginning { rule, pidx, dot })?;
            }
        }
        Ok(beginnings)
    }

    /// Appends a production to those that begin with its first symbol, if it has one.
    fn push(
        &mut self,
        grm: &NumberedGrammar<S>,
        beginning: Beginning<S>,
    ) -> Result<(), AllocError> {
        match symbol_after(grm, beginning.pidx, beginning.dot) {
            Some(Symbol::Rule(ridx)) => { push_at(&mut self.rules, ridx.0.to_usize(), beginning) }
            Some(Symbol::Token(tidx)) => { push_at(&mut self.tokens, tidx.0.to_usize(), beginning) }
            None => Ok(()),
        }
    }

    /// Returns the productions that begin with the symbol.
    pub(crate) fn of(&self, symbol: Symbol<S>) -> &[Beginning<S>] {
        match symbol {
            Symbol::Rule(ridx) => list_at(self.rules.as_slice(), ridx.0.to_usize()),
            Symbol::Token(tidx) => list_at(self.tokens.as_slice(), tidx.0.to_usize()),
        }
    }
}
