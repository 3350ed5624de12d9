//! Searches for a leftmost derivation from what follows a spine to a form that begins with the token. The rules on the way are
//! left corners: each is the first symbol of the production before it, or behind nullable ones.

use crate::derivation::{Derivation, first_of};
use crate::forms::behind_innermost;
use crate::nullable::Nullable;
use crate::productions::symbols_of;
use crate::source::Source;
use crate::symbols::reverse_form;
use cfg_base::index::IndexStorage;
use cfg_base::symbol::{PIdx, SIdx, Symbol};
use cfg_numbered::yacc::NumberedGrammar;
use std::alloc::{AllocError, Global};
use std::collections::BTreeSet;

/// A left corner: a symbol that is first in a production, or behind nullable ones.
#[derive(Clone, Copy)]
struct Corner<S> {
    symbol: Symbol<S>,
    /// The production; `None` for what follows the spine.
    pidx: Option<PIdx<S>>,
    /// The number of symbols before this one.
    index: usize,
    /// The index of the corner whose rule the production is of.
    parent: usize,
}

/// The state of the search.
#[derive(Drop)]
struct Corners<S> {
    /// The corners so far, in the order of the search.
    list: Vec<Corner<S>>,
    /// The rules of these corners.
    seen: BTreeSet<usize>,
    /// The index of the corner that is the token.
    done: Option<usize>,
}

impl<S: IndexStorage> Corners<S> {
    /// Appends the left corners of a list, up to the token: of rules each new one that may begin with it.
    fn put<'a>(
        &mut self,
        source: &Source<'a, S>,
        pidx: Option<PIdx<S>>,
        symbols: &[Symbol<S>],
        parent: usize,
    ) -> Result<(), AllocError> {
        'symbols: for index in 0..symbols.len() {
            let corner = Corner {
                symbol: symbols[index],
                pidx,
                index,
                parent,
            };
            match symbols[index] {
                Symbol::Token(tidx) => {
                    if tidx.0.to_usize() == source.token.0.to_usize() {
                        self.done = Some(self.list.len());
                        self.list.push(corner)?;
                    }
                }
                Symbol::Rule(ridx) => {
                    let begins = source.tables.has_first(ridx, source.token);
                    if begins && self.seen.insert(ridx.0.to_usize())? {
                        self.list.push(corner)?;
                    }
                }
            }
            if self.done.is_some() || !source.tables.nullable.has(symbols[index]) {
                return Ok(());
            }
        }
        Ok(())
    }

    /// Appends the left corners of the productions of a corner.
    fn go_in<'a>(&mut self, source: &Source<'a, S>, parent: usize) -> Result<(), AllocError> {
        if parent >= self.list.len() {
            return Ok(());
        }
        let Symbol::Rule(ridx) = self.list[parent].symbol else {
            return Ok(());
        };
        if !source.grm.has_rule(ridx) {
            return Ok(());
        }
        let prods = source.grm.rule_to_prods(ridx);
        'prods: for k in 0..prods.len() {
            let symbols = symbols_of(source.grm, prods[k]);
            self.put(source, Some(prods[k]), symbols, parent)?;
            if self.done.is_some() {
                return Ok(());
            }
        }
        Ok(())
    }

    /// Returns the productions from what follows the spine to a corner, each with the number of symbols before the next.
    fn way(
        &self,
        alloc: Global,
        index: usize,
    ) -> Result<Vec<(Option<PIdx<S>>, usize)>, AllocError> {
        let mut way = Vec::new(alloc);
        let mut at = index;
        'corners: for _ in 0..self.list.len() {
            if at < self.list.len() {
                let corner = self.list[at];
                way.push((corner.pidx, corner.index))?;
                at = corner.parent;
            }
        }
        way.as_mut_slice().reverse();
        Ok(way)
    }
}

/// Searches breadth first for the fewest productions that lead from the form to the token, if there are any.
fn way_from<'a, S: IndexStorage>(
    alloc: Global,
    source: &Source<'a, S>,
    form: &[Symbol<S>],
) -> Result<Option<Vec<(Option<PIdx<S>>, usize)>>, AllocError> {
    let mut corners = Corners {
        list: Vec::new(alloc),
        seen: BTreeSet::new(alloc),
        done: None,
    };
    corners.put(source, None, form, usize::MAX)?;
    'corners: for index in 0..usize::MAX {
        if let Some(found) = corners.done {
            let way = corners.way(alloc, found)?;
            return Ok(Some(way));
        }
        if index >= corners.list.len() {
            return Ok(None);
        }
        corners.go_in(source, index)?;
    }
    Ok(None)
}

/// Makes `count` first symbols empty, and returns whether that was possible.
fn empty_first<S: IndexStorage>(
    grm: &NumberedGrammar<S>,
    nullable: &Nullable,
    derivation: &mut Derivation<S>,
    count: usize,
) -> Result<bool, AllocError> {
    let height = derivation.form.len().saturating_sub(count);
    'symbols: for _ in 0..usize::MAX {
        if derivation.form.len() <= height {
            return Ok(true);
        }
        let Some(Symbol::Rule(ridx)) = first_of(derivation.form.as_slice()) else {
            return Ok(false);
        };
        let Some(pidx) = nullable.production(grm, ridx) else {
            return Ok(false);
        };
        if !derivation.replace(grm, pidx)? {
            return Ok(false);
        }
    }
    Ok(false)
}

/// Goes the way from the form.
fn go_way<'a, S: IndexStorage>(
    source: &Source<'a, S>,
    derivation: &mut Derivation<S>,
    way: &[(Option<PIdx<S>>, usize)],
) -> Result<bool, AllocError> {
    let nullable = &source.tables.nullable;
    'way: for k in 0..way.len() {
        let (pidx, count) = way[k];
        if let Some(pidx) = pidx {
            if !derivation.replace(source.grm, pidx)? {
                return Ok(false);
            }
        }
        if !empty_first(source.grm, nullable, derivation, count)? {
            return Ok(false);
        }
    }
    Ok(true)
}

/// Returns the steps by which what follows the innermost production becomes empty.
pub(crate) fn steps_to_empty<S: IndexStorage>(
    alloc: Global,
    grm: &NumberedGrammar<S>,
    nullable: &Nullable,
    items: &[(PIdx<S>, SIdx<S>)],
) -> Result<Option<Vec<PIdx<S>>>, AllocError> {
    let rest = behind_innermost(alloc, grm, items)?;
    let mut derivation = Derivation::new(alloc, rest.as_slice())?;
    if !empty_first(grm, nullable, &mut derivation, rest.len())? {
        return Ok(None);
    }
    Ok(Some(derivation.steps))
}

/// Returns the steps by which what follows the innermost production begins with the token, or becomes empty before the end token.
pub(crate) fn steps_behind<'a, S: IndexStorage>(
    alloc: Global,
    source: &Source<'a, S>,
    items: &[(PIdx<S>, SIdx<S>)],
) -> Result<Option<Vec<PIdx<S>>>, AllocError> {
    if source.is_end() {
        return steps_to_empty(alloc, source.grm, &source.tables.nullable, items);
    }
    let rest = behind_innermost(alloc, source.grm, items)?;
    let form = reverse_form(alloc, rest.as_slice())?;
    let Some(way) = way_from(alloc, source, form.as_slice())? else {
        return Ok(None);
    };
    let mut derivation = Derivation::new(alloc, rest.as_slice())?;
    if !go_way(source, &mut derivation, way.as_slice())? {
        return Ok(None);
    }
    Ok(Some(derivation.steps))
}
