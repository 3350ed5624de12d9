//! Finds examples of the conflicts of a table.

ghost use Rattle.std.specs.Prelude.{◌≡◌, IfOk, IfSome};
ghost use Rattle.lr_theory.specs.Canonical.{shift, reduce};
ghost use Rattle.lr_theory.specs.Graph.{Leads};
ghost use Rattle.state_table.specs.Graphs.{graph_of};
ghost use Rattle.conflict_examples.specs.ExampleViews.{FinderValue, example_of};
ghost use Rattle.conflict_examples.specs.Spines.{IsExample};

use crate::candidates::candidates;
use crate::example_check::{pair_example, shift_example};
use crate::examples::ConflictExample;
use crate::source::Source;
use crate::tables::Tables;
use cfg_base::index::IndexStorage;
use cfg_base::symbol::{PIdx, TIdx};
use cfg_numbered::yacc::NumberedGrammar;
use state_table::stategraph::StateGraph;
use state_table::stidx::StIdx;
use std::alloc::{AllocError, Global};
use std::marker::Model;

/// Finds examples of the conflicts in the states of a grammar's graph. Contracts see the grammar and the graph.
#[derive(Drop)]
pub struct ExampleFinder<'a, S: IndexStorage> {
    grm: &'a NumberedGrammar<S>,
    graph: &'a StateGraph<S>,
    tables: Tables<S>,
}

impl<'a, S: IndexStorage> Model for ExampleFinder<'a, S> {
    ghost use Rattle.conflict_examples.specs.ExampleViews.{FinderValue};

    ghost Value = { FinderValue };

    ghost view = { λ f. record { grammar = f.grm.now; graph = f.graph.now } };
}

impl<'a, S: IndexStorage> ExampleFinder<'a, S> {
    /// Makes the tables that the search for each conflict reads. The graph has to be that of the grammar; of another one no
    /// example may be found.
    pub fn new(
        alloc: Global,
        grm: &'a NumberedGrammar<S>,
        graph: &'a StateGraph<S>,
    ) -> Result<ExampleFinder<'a, S>, AllocError>
        ensures { IfOk result (λ f. f ≡ record { grammar = grm.now; graph = graph.now }) }
    {
        let tables = Tables::new(alloc, grm, graph)?;
        Ok(ExampleFinder { grm, graph, tables })
    }

    /// Returns an example of a listed shift against a reduction: on its own token, after symbols that lead to its
    /// state. `None` where the search finds none. It is not proved that it finds one for each entry that a table
    /// lists.
    pub fn shift_reduce(
        &self,
        alloc: Global,
        entry: &(TIdx<S>, PIdx<S>, StIdx<S>),
    ) -> Result<Option<ConflictExample<S>>, AllocError>
        ensures example { IfOk result (λ o. IfSome o (λ x. IsExample self.now.grammar.grammar (example_of S.number x) shift (reduce (S.number entry.now.1.0)))) }
        ensures token { IfOk result (λ o. IfSome o (λ x. S.number x.token.0 ≡ S.number entry.now.0.0)) }
        ensures state { IfOk result (λ o. IfSome o (λ x. Leads (graph_of self.now.graph) (example_of S.number x).string (S.number entry.now.2.0))) }
    {
        let (token, production, stidx) = *entry;
        let source = Source {
            grm: self.grm,
            graph: self.graph,
            tables: &self.tables,
            token,
        };
        let Some(found) = candidates(alloc, &source, None, production, stidx)? else {
            return Ok(None);
        };
        shift_example(alloc, &source, &found, production, stidx)
    }

    /// Returns an example of a listed pair of reductions, after symbols that lead to its state. Its token may be
    /// another than the listed one: states that were merged share lookaheads that no single string has. `None`
    /// where the search finds none. It is not proved that it finds one for each entry that a table lists.
    pub fn reduce_reduce(
        &self,
        alloc: Global,
        entry: &(TIdx<S>, PIdx<S>, PIdx<S>, StIdx<S>),
    ) -> Result<Option<ConflictExample<S>>, AllocError>
        ensures example { IfOk result (λ o. IfSome o (λ x. IsExample self.now.grammar.grammar (example_of S.number x) (reduce (S.number entry.now.1.0)) (reduce (S.number entry.now.2.0)))) }
        ensures state { IfOk result (λ o. IfSome o (λ x. Leads (graph_of self.now.graph) (example_of S.number x).string (S.number entry.now.3.0))) }
    {
        let (listed, first, second, stidx) = *entry;
        match self.pair_on(alloc, listed, first, second, stidx)? {
            Some(example) => Ok(Some(example)),
            None => self.pair_on_any(alloc, first, second, stidx),
        }
    }

    /// Returns an example of a pair of reductions on the first token that has one.
    fn pair_on_any(
        &self,
        alloc: Global,
        first: PIdx<S>,
        second: PIdx<S>,
        stidx: StIdx<S>,
    ) -> Result<Option<ConflictExample<S>>, AllocError>
        ensures example { IfOk result (λ o. IfSome o (λ x. IsExample self.now.grammar.grammar (example_of S.number x) (reduce (S.number first.0)) (reduce (S.number second.0)))) }
        ensures state { IfOk result (λ o. IfSome o (λ x. Leads (graph_of self.now.graph) (example_of S.number x).string (S.number stidx.0))) }
    {
        'tokens: for number in 0..self.grm.tokens_len().0.to_usize() {
            let token = self.grm.token_at(number);
            match self.pair_on(alloc, token, first, second, stidx)? {
                Some(example) => return Ok(Some(example)),
                None => {}
            }
        }
        Ok(None)
    }

    /// Returns an example of a pair of reductions on the token.
    fn pair_on(
        &self,
        alloc: Global,
        token: TIdx<S>,
        first: PIdx<S>,
        second: PIdx<S>,
        stidx: StIdx<S>,
    ) -> Result<Option<ConflictExample<S>>, AllocError>
        ensures example { IfOk result (λ o. IfSome o (λ x. IsExample self.now.grammar.grammar (example_of S.number x) (reduce (S.number first.0)) (reduce (S.number second.0)))) }
        ensures state { IfOk result (λ o. IfSome o (λ x. Leads (graph_of self.now.graph) (example_of S.number x).string (S.number stidx.0))) }
    {
        let source = Source {
            grm: self.grm,
            graph: self.graph,
            tables: &self.tables,
            token,
        };
        let Some(found) = candidates(alloc, &source, Some(first), second, stidx)? else {
            return Ok(None);
        };
        pair_example(alloc, &source, &found, first, second, stidx)
    }
}
