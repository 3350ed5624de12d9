//! The graph and the table of a grammar.

ghost use Rattle.std.specs.Prelude.{◌≡◌, ◌↔◌, ℕ, true, List, IfOk, IfErr, IfSome, IsSome, OnOk};
ghost use Rattle.cfg_theory.specs.Grammar.{Sym};
ghost use Rattle.lr_theory.specs.Canonical.{Contest, Look, Present, accept, reduce};
ghost use Rattle.lr_theory.specs.GraphLaws.{Holds};
ghost use Rattle.lr_theory.specs.Sizes.{StaysWithin};
ghost use Rattle.table_theory.specs.CellLaws.{SomeContested};
ghost use Rattle.table_theory.specs.Cells.{NoPrecedences};
ghost use Rattle.state_table.specs.CellViews.{precedences_of};
ghost use Rattle.state_table.specs.ConflictTexts.{ConflictsInRange};
ghost use Rattle.state_table.specs.Graphs.{IsGraphOf, graph_of};
ghost use Rattle.lrtable.specs.RefusalViews.{refusal_of};
ghost use Rattle.state_table.specs.Tables.{AreContested, CountsAgree, HasCanonicalCause, IsRefusal, IsTableOf};
ghost use Rattle.lrtable.specs.declared.grammar_table.FromYaccError.TheVariants as refusals;

use crate::finishing::graph_of_grammar;
use crate::least_room::try_room;
use crate::states::BuildError;
use cfg_base::index::IndexStorage;
use cfg_numbered::yacc::NumberedGrammar;
use cfg_sets::YaccFirsts;
use state_table::stategraph::StateGraph;
use state_table::statetable::{StateTable, StateTableError, StateTableNewError};
use std::alloc::{AllocError, Global};
use std::error::Error;
use std::fmt;
use std::fmt::{Debug, Display, Formatter, Write};

/// How LR(1) states are merged.
#[derive(Clone, Copy, Debug, PartialEq, Eq)]
pub enum Minimiser {
    /// Item sets of one core are one state where they are weakly compatible (Pager 1977).
    Pager,
}

/// Proves that two minimisers are equal if and only if they are one value, and that a clone is the one that was cloned.
pub fn minimiser_is_its_value()
    ensures equal { (a b : Minimiser) → (⟦<Minimiser as PartialEq>⟧.eq a b ≡ true) ↔ (a ≡ b) }
    ensures clone { (a b : Minimiser) → ⟦<Minimiser as Clone>⟧.is_clone a b → b ≡ a }
{}

/// Why a grammar has no graph and table: refused memory aside, the first of these that holds. It prints the text of
/// the error within, or else its variant's name.
#[derive(Clone, Copy, Debug, PartialEq, Eq)]
pub enum FromYaccError<S> {
    /// While the states are built, more of them are there at once than the index type's greatest number; the
    /// count is one more than that number.
    TooManyStates(usize),
    /// A state both accepts and reduces at the end token.
    StateTable(StateTableError<S>),
    /// For each state a cell for each token and one for each rule are more than `usize::MAX`.
    TooLarge,
    /// The request for memory that was refused.
    Memory(AllocError),
}

impl<S> Display for FromYaccError<S> {
    ghost use Rattle.std.specs.Prelude.{Some};
    ghost use Rattle.lrtable.specs.RefusalViews.{from_yacc_text};

    ghost output = { λ e. Some (from_yacc_text e) };

    fn fmt<W: Write>(&self, f: &mut Formatter<W>) -> fmt::Result {
        match self {
            FromYaccError::TooManyStates(_) => write!(f, "TooManyStates"),
            FromYaccError::StateTable(e) => write!(f, "{e}"),
            FromYaccError::TooLarge => write!(f, "TooLarge"),
            FromYaccError::Memory(_) => write!(f, "Memory"),
        }
    }
}

impl<S: Debug + Drop> Error for FromYaccError<S> {}

impl<S> From<AllocError> for FromYaccError<S> {
    ghost from_gives = { λ e r. r ≡ refusals.Memory e };

    fn from(e: AllocError) -> FromYaccError<S> {
        FromYaccError::Memory(e)
    }
}

/// Returns the graph of a grammar.
fn make_graph<S: IndexStorage>(
    alloc: Global,
    grm: &NumberedGrammar<S>,
) -> Result<StateGraph<S>, FromYaccError<S>>
    ensures graph { IfOk result (λ g. IsGraphOf grm.now.grammar g) }
    ensures within { OnOk result (StaysWithin grm.now.grammar S.MAX) }
    ensures refused { IfErr result (λ e. IsRefusal S.MAX grm.now (refusal_of S.number e)) }
{
    let firsts = YaccFirsts::new(alloc, grm)?;
    match graph_of_grammar(alloc, grm, &firsts) {
        Ok(graph) => Ok(graph),
        Err(BuildError::TooManyStates) => Err(FromYaccError::TooManyStates(S::MAX + 1)),
        Err(BuildError::Memory(e)) => Err(FromYaccError::Memory(e)),
    }
}

/// Returns the table of a grammar's graph.
fn make_table<S: IndexStorage>(
    alloc: Global,
    grm: &NumberedGrammar<S>,
    graph: &StateGraph<S>,
) -> Result<StateTable<S>, FromYaccError<S>>
    requires graph { IsGraphOf grm.now.grammar graph.now }
    requires within { StaysWithin grm.now.grammar S.MAX }
    ensures table { IfOk result (λ t. IsTableOf grm.now graph.now t) }
    ensures listed { IfOk result (λ t. IfSome t.conflicts (ConflictsInRange grm.now)) }
    ensures refused { IfErr result (λ e. IsRefusal S.MAX grm.now (refusal_of S.number e)) }
{
    match StateTable::new(alloc, grm, graph) {
        Ok(table) => Ok(table),
        Err(StateTableNewError::StateTable(e)) => Err(FromYaccError::StateTable(e)),
        Err(StateTableNewError::TooLarge) => Err(FromYaccError::TooLarge),
        Err(StateTableNewError::Memory(e)) => Err(FromYaccError::Memory(e)),
    }
}

/// Returns the graph of a grammar by Pager's merging, and its table.
fn by_pager<S: IndexStorage>(
    alloc: Global,
    grm: &NumberedGrammar<S>,
) -> Result<(StateGraph<S>, StateTable<S>), FromYaccError<S>>
    ensures graph { IfOk result (λ r. IsGraphOf grm.now.grammar r.0) }
    ensures table { IfOk result (λ r. IsTableOf grm.now r.0 r.1) }
    ensures listed { IfOk result (λ r. IfSome r.1.conflicts (ConflictsInRange grm.now)) }
    ensures states { OnOk result (StaysWithin grm.now.grammar S.MAX) }
    ensures refused { IfErr result (λ e. IsRefusal S.MAX grm.now (refusal_of S.number e)) }
{
    try_room(alloc, grm)?;
    let graph = make_graph(alloc, grm)?;
    let table = make_table(alloc, grm, &graph)?;
    Ok((graph, table))
}

/// Builds the graph and the table of a grammar. The graph holds the canonical LR(1) items of each string, and any two
/// states of one core cross. Without precedences a conflict is listed if and only if canonical LR(1) has one, and
/// each listed one is a conflict there.
///
/// # Errors
///
/// The first of these that holds; `Memory` may come at any time.
///
/// - `TooManyStates` where, while the states are built, there are more of them at once than the index type's greatest
///   number.
/// - `StateTable` where a state both accepts and reduces at the end token: the least production that it reduces.
/// - `TooLarge` where a cell for each state and token, and one for each state and rule, are more than `usize::MAX`.
/// - `Memory` where memory is refused.
pub fn from_yacc<S: IndexStorage>(
    alloc: Global,
    grm: &NumberedGrammar<S>,
    m: Minimiser,
) -> Result<(StateGraph<S>, StateTable<S>), FromYaccError<S>>
    ensures graph { IfOk result (λ r. IsGraphOf grm.now.grammar r.0) }
    ensures table { IfOk result (λ r. IsTableOf grm.now r.0 r.1) }
    ensures counts { IfOk result (λ r. CountsAgree grm.now.grammar r.0 r.1) }
    ensures listed { IfOk result (λ r. IfSome r.1.conflicts (ConflictsInRange grm.now)) }
    ensures states { OnOk result (StaysWithin grm.now.grammar S.MAX) }
    ensures refused { IfErr result (λ e. IsRefusal S.MAX grm.now (refusal_of S.number e)) }
    ensures canonical { IfOk result (λ r. Holds grm.now.grammar (graph_of r.0)) }
    ensures exact { IfOk result (λ r. NoPrecedences (precedences_of grm.now) → IsSome r.1.conflicts ↔ SomeContested grm.now.grammar) }
    ensures contested { IfOk result (λ r. IfSome r.1.conflicts (AreContested grm.now.grammar)) }
    ensures unrefused { OnOk result ((w : List Sym) (t p : ℕ) → Contest grm.now.grammar (Present grm.now.grammar w) (Look grm.now.grammar w) t accept (reduce p) → ⊥) }
    ensures crowded { IfErr result (λ e. HasCanonicalCause grm.now.grammar S.MAX (refusal_of S.number e)) }
{
    grm.start_prod();
    match m {
        Minimiser::Pager => by_pager(alloc, grm),
    }
}
