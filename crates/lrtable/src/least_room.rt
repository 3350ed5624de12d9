//! The least room that the states of a grammar take. It is asked for before they are made, and given back at once: where it isn't there,
//! to make states until memory runs out could take minutes.
//!
//! Behind each symbol that comes before a rule somewhere there is a state of its own, whose closure has the productions of the rule. So it
//! has an edge for each symbol that these begin with: as many as the widest such rule has. All this of productions that the start rule
//! reaches.

ghost use Rattle.std.specs.Prelude.{◌<◌};

use crate::capacities::zeros;
use crate::states::EdgeTo;
use cfg_base::index::IndexStorage;
use cfg_base::symbol::{RIdx, Symbol};
use cfg_numbered::yacc::NumberedGrammar;
use state_table::shared_sets::SharedItem;
use std::alloc::{AllocError, Global};

/// Returns the place of a symbol in a list of all: the tokens come first.
fn place_of<S: IndexStorage>(grm: &NumberedGrammar<S>, symbol: Symbol<S>) -> usize {
    let tokens = grm.tokens_len().0.to_usize();
    match symbol {
        Symbol::Token(tidx) => tidx.0.to_usize(),
        Symbol::Rule(ridx) => tokens.saturating_add(ridx.0.to_usize()),
    }
}

/// Returns the symbols of a production of a rule: none past its last one.
fn body_at<'g, S: IndexStorage>(
    grm: &'g NumberedGrammar<S>,
    ridx: RIdx<S>,
    k: usize,
) -> &'g [Symbol<S>]
    requires { S.number ridx.0 < grm.now.grammar.rules }
{
    let prods = grm.rule_to_prods(ridx);
    if k >= prods.len() {
        return &[];
    }
    grm.prod(prods[k])
}

/// Puts a mark at a place, and returns whether another one was there.
fn put_mark(marks: &mut Vec<usize>, place: usize, mark: usize) -> bool {
    match marks.get_mut(place) {
        Some(it) => {
            let is_new = *it != mark;
            *it = mark;
            is_new
        }
        None => false,
    }
}

/// A walk over the rules that the start rule reaches.
#[derive(Drop)]
struct Walk {
    /// How many symbols the productions of each rule begin with.
    starts: Vec<usize>,
    /// For each symbol, the greatest such number of a rule that comes behind it.
    widest: Vec<usize>,
    /// For each rule, 1 if it was reached.
    reached: Vec<usize>,
    /// The rules that were reached, and not gone through.
    waiting: Vec<usize>,
}

impl Walk {
    /// Counts the symbols that the productions of a rule begin with, each once.
    fn count_starts<S: IndexStorage>(
        &mut self,
        grm: &NumberedGrammar<S>,
        ridx: RIdx<S>,
        marks: &mut Vec<usize>,
    ) -> Result<(), AllocError>
        requires { S.number ridx.0 < grm.now.grammar.rules }
    {
        let mark = ridx.0.to_usize().saturating_add(1);
        let mut count: usize = 0;
        'prods: for k in 0..grm.rule_to_prods(ridx).len() {
            if let Some(symbol) = body_at(grm, ridx, k).first() {
                if put_mark(marks, place_of(grm, *symbol), mark) {
                    count = count.saturating_add(1);
                }
            }
        }
        self.starts.push(count)?;
        Ok(())
    }

    /// Reaches a rule.
    fn reach(&mut self, rule: usize) -> Result<(), AllocError> {
        if put_mark(&mut self.reached, rule, 1) {
            self.waiting.push(rule)?;
        }
        Ok(())
    }

    /// Takes into account that a rule comes behind the symbol of a place.
    fn widen(&mut self, place: usize, rule: usize) {
        let count = self.starts.get(rule).copied().unwrap_or(0);
        if let Some(widest) = self.widest.get_mut(place) {
            *widest = count.max(*widest);
        }
    }

    /// Goes through the symbols of a production.
    fn take_body<S: IndexStorage>(
        &mut self,
        grm: &NumberedGrammar<S>,
        symbols: &[Symbol<S>],
    ) -> Result<(), AllocError> {
        'symbols: for k in 0..symbols.len() {
            if let Symbol::Rule(ridx) = symbols[k] {
                let rule = ridx.0.to_usize();
                self.reach(rule)?;
                if k > 0 {
                    self.widen(place_of(grm, symbols[k - 1]), rule);
                }
            }
        }
        Ok(())
    }

    /// Goes through the productions of a rule.
    fn take_rule<S: IndexStorage>(
        &mut self,
        grm: &NumberedGrammar<S>,
        ridx: RIdx<S>,
    ) -> Result<(), AllocError>
        requires { S.number ridx.0 < grm.now.grammar.rules }
    {
        'prods: for k in 0..grm.rule_to_prods(ridx).len() {
            self.take_body(grm, body_at(grm, ridx, k))?;
        }
        Ok(())
    }

    /// Goes through each rule that is reached, once.
    fn take_all<S: IndexStorage>(&mut self, grm: &NumberedGrammar<S>) -> Result<(), AllocError> {
        let rules = grm.rules_len().0.to_usize();
        self.reach(grm.start_rule_idx().0.to_usize())?;
        'rules: for _ in 0..rules {
            match self.waiting.pop() {
                Some(rule) => {
                    if rule < rules {
                        self.take_rule(grm, grm.rule_at(rule))?;
                    }
                }
                None => return Ok(()),
            }
        }
        Ok(())
    }

    /// Counts the symbols that the productions of each rule begin with, and goes through all that are reached.
    fn fill<S: IndexStorage>(
        &mut self,
        grm: &NumberedGrammar<S>,
        marks: &mut Vec<usize>,
    ) -> Result<(), AllocError> {
        'rules: for number in 0..grm.rules_len().0.to_usize() {
            self.count_starts(grm, grm.rule_at(number), marks)?;
        }
        self.take_all(grm)
    }
}

/// Returns how many edges the states of a grammar have at least.
fn least_edges<S: IndexStorage>(
    alloc: Global,
    grm: &NumberedGrammar<S>,
) -> Result<usize, AllocError> {
    let rules = grm.rules_len().0.to_usize();
    let symbols = grm.tokens_len().0.to_usize().saturating_add(rules);
    let mut marks = zeros(alloc, symbols)?;
    let mut walk = Walk {
        starts: Vec::with_capacity(alloc, rules)?,
        widest: zeros(alloc, symbols)?,
        reached: zeros(alloc, rules)?,
        waiting: Vec::new(alloc),
    };
    walk.fill(grm, &mut marks)?;
    let mut edges: usize = 0;
    'symbols: for count in walk.widest.as_slice() {
        edges = edges.saturating_add(*count);
    }
    Ok(edges)
}

/// Asks for the least room that the states of a grammar and their table take, and gives it back: each edge is in the graph, has an
/// item of a closure, and is a cell of the table.
pub(crate) fn try_room<S: IndexStorage>(
    alloc: Global,
    grm: &NumberedGrammar<S>,
) -> Result<(), AllocError> {
    let edges = least_edges(alloc, grm)?;
    let graph: Vec<EdgeTo<S>> = Vec::with_capacity(alloc, edges)?;
    let items: Vec<SharedItem<S>> = Vec::with_capacity(alloc, edges)?;
    let cells: Vec<EdgeTo<S>> = Vec::with_capacity(alloc, edges)?;
    drop(cells);
    drop(items);
    drop(graph);
    Ok(())
}
