//! A table with the grammar that it fits, as a run and the search for long chains go by them.

ghost use Rattle.lr_theory.specs.Chains.{ChainsWithin};
ghost use Rattle.lrpar.specs.OneFit.{one_fit, one_pair};
ghost use Rattle.lrpar.specs.Pair.{IsSafePair};
ghost use Rattle.lrpar.specs.Reducing.{IsTableFor};
ghost use Rattle.state_table.specs.Graphs.{GraphValue};
ghost use Rattle.state_table.specs.Tables.{automaton_of};

use crate::full_table::FullTable;
use cfg_base::index::IndexStorage;
use cfg_numbered::yacc::grammar::NumberedGrammar;
use state_table::StateGraph;

/// The machine of a run: a grammar, a graph and a table that are safe for it, and the cap that its chains of
/// reductions are within.
#[derive(Drop)]
pub(crate) struct Machine<'a, S: IndexStorage> {
    pub grm: &'a NumberedGrammar<S>,
    pub sgraph: &'a StateGraph<S>,
    pub stable: &'a FullTable<S>,
    /// The cap: the greatest number of reductions one after another on a token.
    pub limit: u16,
    ghost table: { IsTableFor grm.now.grammar stable.now } by { one_fit grm.now.grammar stable.now },
    ghost pair: { IsSafePair grm.now.grammar sgraph.now stable.now } by { one_pair grm.now.grammar sgraph.now stable.now },
    ghost chains: { (g : GraphValue) → ChainsWithin grm.now.grammar (automaton_of g stable.now) limit },
}

/// The chains of reductions of a table that fits a grammar, and the cap on them.
#[derive(Drop)]
pub(crate) struct Chains<'a, S: IndexStorage> {
    pub grm: &'a NumberedGrammar<S>,
    pub stable: &'a FullTable<S>,
    /// A chain of more reductions is long.
    pub limit: u16,
    ghost table: { IsTableFor grm.now.grammar stable.now } by { one_fit grm.now.grammar stable.now },
}
