//! A state that is tested against a grammar.

ghost use Rattle.std.specs.Prelude.{◌≡◌, ◌<◌};
ghost use Rattle.lrpar.specs.Fitting.{OfGrammar};

use cfg_base::index::IndexStorage;
use cfg_numbered::yacc::grammar::NumberedGrammar;
use state_table::{Itemset, StIdx, StateTable};

/// A state of a table, beside its closed items in a graph, which are of the grammar.
#[derive(Drop)]
pub(crate) struct TestedState<'a, S: IndexStorage> {
    pub grm: &'a NumberedGrammar<S>,
    pub items: &'a Itemset<S>,
    pub stable: &'a StateTable<S>,
    pub stidx: StIdx<S>,
    ghost of_grammar: { OfGrammar grm.now.grammar items.now },
    ghost rules: { stable.now.rules ≡ grm.now.grammar.rules },
    ghost within: { S.number stidx.0 < stable.now.states },
}
