//! Examples asked of a graph itself.

ghost use Rattle.std.specs.Prelude.{◌≡◌, IfOk, IfSome};
ghost use Rattle.lr_theory.specs.Canonical.{Contest, Look, Present, shift, reduce};
ghost use Rattle.lr_theory.specs.Graph.{Leads};
ghost use Rattle.state_table.specs.Graphs.{GraphValue, graph_of};
ghost use Rattle.conflict_examples.specs.ExampleViews.{example_of};
ghost use Rattle.conflict_examples.specs.Spines.{IsExample};

use crate::examples::ConflictExample;
use crate::finder::ExampleFinder;
use crate::laws::examples_are_contests;
use cfg_base::index::IndexStorage;
use cfg_base::symbol::{PIdx, TIdx};
use cfg_numbered::yacc::NumberedGrammar;
use state_table::stategraph::StateGraph;
use state_table::stidx::StIdx;
use std::alloc::{AllocError, Global};

/// Asks a graph for an example of a listed conflict. Each call makes an `ExampleFinder`, which goes through the grammar and
/// the graph, and asks it once: who wants many examples makes one finder and asks that. The graph is to be that of the
/// grammar; of another one no example may be found.
pub trait ConflictExamples<S: IndexStorage> {
    /// The graph that is asked.
    ghost graph: { Self → GraphValue };

    /// Returns an example of a listed shift against a reduction: on its own token, after symbols that lead to its
    /// state and leave the token both actions of canonical LR(1). `None` where the search finds none. It is not
    /// proved that it finds one for each entry that a table lists.
    fn shift_reduce_example(
        &self,
        alloc: Global,
        grm: &NumberedGrammar<S>,
        entry: &(TIdx<S>, PIdx<S>, StIdx<S>),
    ) -> Result<Option<ConflictExample<S>>, AllocError>
        ensures example { IfOk result (λ o. IfSome o (λ x. IsExample grm.now.grammar (example_of S.number x) shift (reduce (S.number entry.now.1.0)))) }
        ensures contest { IfOk result (λ o. IfSome o (λ x. Contest grm.now.grammar (Present grm.now.grammar (example_of S.number x).string) (Look grm.now.grammar (example_of S.number x).string) (S.number x.token.0) shift (reduce (S.number entry.now.1.0)))) }
        ensures token { IfOk result (λ o. IfSome o (λ x. S.number x.token.0 ≡ S.number entry.now.0.0)) }
        ensures state { IfOk result (λ o. IfSome o (λ x. Leads (graph_of (graph self.now)) (example_of S.number x).string (S.number entry.now.2.0))) };

    /// Returns an example of a listed pair of reductions, after symbols that lead to its state and leave its
    /// token both actions of canonical LR(1). Its token may be another than the listed one: states that were
    /// merged share lookaheads that no single string has. `None` where the search finds none. It is not proved
    /// that it finds one for each entry that a table lists.
    fn reduce_reduce_example(
        &self,
        alloc: Global,
        grm: &NumberedGrammar<S>,
        entry: &(TIdx<S>, PIdx<S>, PIdx<S>, StIdx<S>),
    ) -> Result<Option<ConflictExample<S>>, AllocError>
        ensures example { IfOk result (λ o. IfSome o (λ x. IsExample grm.now.grammar (example_of S.number x) (reduce (S.number entry.now.1.0)) (reduce (S.number entry.now.2.0)))) }
        ensures contest { IfOk result (λ o. IfSome o (λ x. Contest grm.now.grammar (Present grm.now.grammar (example_of S.number x).string) (Look grm.now.grammar (example_of S.number x).string) (S.number x.token.0) (reduce (S.number entry.now.1.0)) (reduce (S.number entry.now.2.0)))) }
        ensures state { IfOk result (λ o. IfSome o (λ x. Leads (graph_of (graph self.now)) (example_of S.number x).string (S.number entry.now.3.0))) };
}

impl<S: IndexStorage> ConflictExamples<S> for StateGraph<S> {
    ghost graph = { λ g. g };

    fn shift_reduce_example(
        &self,
        alloc: Global,
        grm: &NumberedGrammar<S>,
        entry: &(TIdx<S>, PIdx<S>, StIdx<S>),
    ) -> Result<Option<ConflictExample<S>>, AllocError> {
        examples_are_contests();
        let finder = ExampleFinder::new(alloc, grm, self)?;
        let found = finder.shift_reduce(alloc, entry)?;
        Ok(found)
    }

    fn reduce_reduce_example(
        &self,
        alloc: Global,
        grm: &NumberedGrammar<S>,
        entry: &(TIdx<S>, PIdx<S>, PIdx<S>, StIdx<S>),
    ) -> Result<Option<ConflictExample<S>>, AllocError> {
        examples_are_contests();
        let finder = ExampleFinder::new(alloc, grm, self)?;
        let found = finder.reduce_reduce(alloc, entry)?;
        Ok(found)
    }
}
