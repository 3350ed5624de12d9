//! Capacities of lists, and which lists are worth storing. Only the number of requests for memory and the cost of
//! closings depend on these.

use crate::opening::Opening;
use cfg_base::index::IndexStorage;
use cfg_base::symbol::Symbol;
use cfg_numbered::yacc::NumberedGrammar;
use std::alloc::{AllocError, Global};
use vob::Vob;

/// Returns a list of this length with zeros alone.
pub(crate) fn zeros(alloc: Global, count: usize) -> Result<Vec<usize>, AllocError> {
    let mut list = Vec::with_capacity(alloc, count)?;
    'items: for _ in 0..count {
        list.push(0)?;
    }
    Ok(list)
}

/// Returns how many productions each rule has.
pub(crate) fn production_counts<S: IndexStorage>(
    alloc: Global,
    grm: &NumberedGrammar<S>,
) -> Result<Vec<usize>, AllocError> {
    grm.start_prod();
    let mut counts = Vec::with_capacity(alloc, grm.rules_len().0.to_usize())?;
    'rules: for number in 0..grm.rules_len().0.to_usize() {
        counts.push(grm.rule_to_prods(grm.rule_at(number)).len())?;
    }
    Ok(counts)
}

/// Returns the count of a rule.
fn count_of(counts: &[usize], rule: usize) -> usize {
    match counts.get(rule) {
        Some(count) => *count,
        None => 0,
    }
}

/// Returns how many rules are open, and how many productions these have.
pub(crate) fn opened_room(counts: &[usize], opening: &Opening) -> (usize, usize) {
    let noted = opening.noted_rules();
    let mut productions: usize = 0;
    'rules: for rule in noted {
        productions = productions.saturating_add(count_of(counts, *rule));
    }
    (noted.len(), productions)
}

/// Marks a rule.
fn mark_rule<S: IndexStorage>(symbol: Symbol<S>, behind: &mut Vob) {
    if let Symbol::Rule(ridx) = symbol {
        let number = ridx.0.to_usize();
        if number < behind.len() {
            behind.set(number, true);
        }
    }
}

/// Marks the rules behind the first symbol.
fn mark_rules<S: IndexStorage>(symbols: &[Symbol<S>], behind: &mut Vob) {
    'symbols: for k in 1..symbols.len() {
        mark_rule(symbols[k], behind);
    }
}

/// Marks the rules that occur in a production elsewhere than first: only these are behind the dot of an item that
/// moved.
pub(crate) fn rules_behind<S: IndexStorage>(
    alloc: Global,
    grm: &NumberedGrammar<S>,
) -> Result<Vob, AllocError> {
    grm.start_prod();
    let mut behind = Vob::from_elem(alloc, false, grm.rules_len().0.to_usize())?;
    'prods: for number in 0..grm.prods_len().0.to_usize() {
        mark_rules(grm.prod(grm.prod_at(number)), &mut behind);
    }
    Ok(behind)
}
