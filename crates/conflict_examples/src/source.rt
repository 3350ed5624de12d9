//! What a search for one token reads of the grammar and the graph. It may be wrong: an example is checked.

use crate::beginnings::Beginning;
use crate::productions::{symbol_after, symbols_behind, symbols_of};
use crate::symbols::same_symbol;
use crate::tables::{Start, Tables};
use cfg_base::index::IndexStorage;
use cfg_base::symbol::{PIdx, SIdx, Symbol, TIdx};
use cfg_numbered::yacc::NumberedGrammar;
use state_table::Itemset;
use state_table::stategraph::StateGraph;
use state_table::stidx::StIdx;
use std::alloc::AllocError;

/// The grammar, its graph, the tables of both, and the token.
#[derive(Drop)]
pub(crate) struct Source<'a, S: IndexStorage> {
    pub grm: &'a NumberedGrammar<S>,
    pub graph: &'a StateGraph<S>,
    pub tables: &'a Tables<S>,
    pub token: TIdx<S>,
}

/// Returns the number of a rule; `usize::MAX` for a token.
fn rule_number<S: IndexStorage>(symbol: Symbol<S>) -> usize {
    match symbol {
        Symbol::Rule(ridx) => ridx.0.to_usize(),
        Symbol::Token(_) => usize::MAX,
    }
}

/// Returns the index of the first edge from `index` on whose rule isn't before this one.
fn skip_to<S: IndexStorage>(edges: &[(Symbol<S>, StIdx<S>)], index: usize, rule: usize) -> usize {
    'edges: for at in index..edges.len() {
        if rule_number(edges[at].0) >= rule {
            return at;
        }
    }
    edges.len()
}

impl<'a, S: IndexStorage> Source<'a, S> {
    /// Returns whether the token is a lookahead of the item in the state.
    pub(crate) fn has_look(&self, stidx: StIdx<S>, pidx: PIdx<S>, dot: SIdx<S>) -> bool {
        if !self.graph.has_state(stidx) {
            return false;
        }
        match self.graph.closed_state(stidx).get(pidx, dot) {
            Some(looks) => looks.get(self.token.0.to_usize()).unwrap_or(false),
            None => false,
        }
    }

    /// Puts items of the state before the symbol into `found`, in place of what it holds: all, or of those that its closure adds one of
    /// each rule.
    pub(crate) fn items_before(
        &self,
        stidx: StIdx<S>,
        symbol: Symbol<S>,
        is_one_each: bool,
        found: &mut Vec<(PIdx<S>, SIdx<S>)>,
    ) -> Result<(), AllocError> {
        found.clear();
        if !self.graph.has_state(stidx) {
            return Ok(());
        }
        self.push_core(self.graph.core_state(stidx), symbol, found)?;
        self.push_closure(self.graph.edges(stidx), symbol, is_one_each, found)
    }

    /// Appends the items of a core before the symbol.
    fn push_core(
        &self,
        core: &Itemset<S>,
        symbol: Symbol<S>,
        found: &mut Vec<(PIdx<S>, SIdx<S>)>,
    ) -> Result<(), AllocError> {
        'items: for index in 0..core.len() {
            let (pidx, dot) = core.item_at(index);
            if let Some(after) = symbol_after(self.grm, pidx, dot) {
                if same_symbol(after, symbol) {
                    found.push((pidx, dot))?;
                }
            }
        }
        Ok(())
    }

    /// Appends the items that the closure adds: productions of the rules that label edges. Both are in the order of the rules.
    fn push_closure(
        &self,
        edges: &[(Symbol<S>, StIdx<S>)],
        symbol: Symbol<S>,
        is_one_each: bool,
        found: &mut Vec<(PIdx<S>, SIdx<S>)>,
    ) -> Result<(), AllocError> {
        let items = self.tables.beginnings.of(symbol);
        let mut edge = 0;
        let mut last = usize::MAX;
        'items: for k in 0..items.len() {
            let Beginning { rule, pidx, dot } = items[k];
            edge = skip_to(edges, edge, rule);
            let is_on = edge < edges.len() && rule_number(edges[edge].0) == rule;
            if is_on && (!is_one_each || rule != last) {
                found.push((pidx, dot))?;
                last = rule;
            }
        }
        Ok(())
    }

    /// Returns how the symbols behind the one after the dot may begin.
    pub(crate) fn start_behind(&self, pidx: PIdx<S>, dot: SIdx<S>) -> Start {
        let rest = symbols_behind(symbols_of(self.grm, pidx), dot.0.to_usize());
        self.tables.start_of(rest, self.token)
    }

    /// Returns whether the token is the end token.
    pub(crate) fn is_end(&self) -> bool {
        self.token.0.to_usize() == self.grm.eof_token_idx().0.to_usize()
    }

    /// Returns whether the production is that of the start.
    pub(crate) fn is_start(&self, pidx: PIdx<S>) -> bool {
        pidx.0.to_usize() == self.grm.start_prod().0.to_usize()
    }
}
