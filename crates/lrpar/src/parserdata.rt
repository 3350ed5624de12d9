//! Checked data of a parser: a graph and a table that fit a grammar, and whose chains of reductions are within a cap.

ghost use Rattle.std.specs.Prelude.{◌≡◌, ◌↔◌, IsNone, IsTrue, IfOk, IfErr, OnOk};
ghost use Rattle.lr_theory.specs.Automaton.{Complete};
ghost use Rattle.lr_theory.specs.Chains.{ChainsWithin};
ghost use Rattle.state_table.specs.Graphs.{GraphValue};
ghost use Rattle.state_table.specs.CellViews.{precedences_of};
ghost use Rattle.state_table.specs.Tables.{IsTableOf, automaton_of};
ghost use Rattle.table_theory.specs.Cells.{NoPrecedences};
ghost use Rattle.lrpar.specs.Pair.{IsSafePair};
ghost use Rattle.lrpar.specs.Reducing.{IsTableFor};
ghost use Rattle.lrpar.specs.Checked.{IsBuiltRefusal, IsData, IsDataRefusal, IsUnsafeTable, TellsVerdict};
ghost use Rattle.lrpar.specs.declared.parserdata.BuiltDataError.TheVariants as built_errors;
ghost use Rattle.lrpar.specs.declared.parserdata.ParserDataError.TheVariants as errors;

mod carrying;
mod cells;
mod complete;
mod edges;
mod fitting;
mod items;
mod safety;
mod tested_state;

pub use crate::chains::LongChain;
use crate::chains::long_chain;
use crate::full_table::FullTable;
use crate::machine::{Chains, Machine};
use crate::parserdata::complete::is_complete;
pub use crate::parserdata::fitting::Cell;
use crate::parserdata::fitting::Misfit;
use crate::parserdata::safety::least_misfit;
use cfg_base::index::IndexStorage;
use cfg_base::symbol::{RIdx, TIdx};
use cfg_numbered::yacc::grammar::NumberedGrammar;
use state_table::{StIdx, StateGraph, StateTable};
use std::alloc::{AllocError, Global};
use std::error::Error;
use std::fmt;
use std::fmt::{Debug, Display, Formatter, Write};
use std::marker::Model;

/// A grammar with a graph and a table that are safe for it. Contracts see the three and the cap.
#[derive(Drop)]
pub struct ParserData<S: IndexStorage> {
    grm: NumberedGrammar<S>,
    sgraph: StateGraph<S>,
    stable: FullTable<S>,
    /// The greatest number of reductions allowed one after another on a token.
    cap: u16,
}

impl<S: IndexStorage> Model for ParserData<S> {
    ghost use Rattle.lrpar.specs.Checked.{ParserValue, IsData};

    ghost Value = { ParserValue };

    ghost view = { λ d. record { grammar = d.grm; graph = d.sgraph; table = d.stable; cap = d.cap } };

    ghost invariant = { λ d. IsData d.grm.grammar d.sgraph d.stable d.cap };
}

/// The parts of data that were refused.
#[derive(Drop)]
pub struct Parts<S: IndexStorage> {
    /// The grammar, as it was passed.
    pub grm: NumberedGrammar<S>,
    /// The graph, as it was passed.
    pub sgraph: StateGraph<S>,
    /// The table, as it was passed.
    pub stable: StateTable<S>,
}

/// Why data were refused. The first two have the parts, to be used again.
#[derive(Drop)]
pub enum ParserDataError<S: IndexStorage> {
    /// A run on the table could be stuck or accept what is no derivation: the least place that doesn't fit.
    UnsafeTable {
        /// The least state that doesn't fit.
        state: StIdx<S>,
        /// The first part of the state that doesn't fit.
        cell: Cell<S>,
        /// What was passed, to be used again.
        parts: Parts<S>,
    },
    /// More than `cap` reductions come one after another: the least such chain.
    TooManyReductions {
        /// The state at which the chain begins.
        state: StIdx<S>,
        /// `None` where the chain begins in the state alone; else the rule whose goto is above the state.
        rule: Option<RIdx<S>>,
        /// The token on which all of these reductions are made.
        token: TIdx<S>,
        /// The greatest number of reductions allowed one after another on a token.
        cap: u16,
        /// What was passed, to be used again.
        parts: Parts<S>,
    },
    /// There is no memory.
    Memory(AllocError),
}

impl<S: IndexStorage> From<AllocError> for ParserDataError<S> {
    ghost from_gives = { λ x e. e ≡ errors.Memory x };

    fn from(e: AllocError) -> ParserDataError<S> {
        ParserDataError::Memory(e)
    }
}

impl<S: IndexStorage> Debug for ParserDataError<S> {
    fn fmt<W: Write>(&self, f: &mut Formatter<W>) -> fmt::Result {
        match self {
            ParserDataError::UnsafeTable { state, cell, .. } => {
                write!(f, "UnsafeTable {{ state: {state:?}, cell: {cell:?}, .. }}")
            }
            ParserDataError::TooManyReductions {
                state,
                rule,
                token,
                cap,
                ..
            } => write!(
                f,
                "TooManyReductions {{ state: {state:?}, rule: {rule:?}, token: {token:?}, cap: {cap}, .. }}"
            ),
            ParserDataError::Memory(e) => write!(f, "Memory({e:?})"),
        }
    }
}

impl<S: IndexStorage> Display for ParserDataError<S> {
    fn fmt<W: Write>(&self, f: &mut Formatter<W>) -> fmt::Result {
        match self {
            ParserDataError::UnsafeTable { .. } => write!(f, "UnsafeTable"),
            ParserDataError::TooManyReductions { .. } => write!(f, "TooManyReductions"),
            ParserDataError::Memory(_) => write!(f, "Memory"),
        }
    }
}

impl<S: IndexStorage> Error for ParserDataError<S> {}

/// Why data that the builder made were refused.
#[derive(Clone, Copy, Debug, PartialEq, Eq)]
pub enum BuiltDataError<S> {
    /// More than the cap of reductions come one after another: the least such chain.
    TooManyReductions(LongChain<S>),
    /// There is no memory.
    Memory(AllocError),
}

impl<S> From<AllocError> for BuiltDataError<S> {
    ghost from_gives = { λ x e. e ≡ built_errors.Memory x };

    fn from(e: AllocError) -> BuiltDataError<S> {
        BuiltDataError::Memory(e)
    }
}

impl<S> Display for BuiltDataError<S> {
    fn fmt<W: Write>(&self, f: &mut Formatter<W>) -> fmt::Result {
        match self {
            BuiltDataError::TooManyReductions(_) => write!(f, "TooManyReductions"),
            BuiltDataError::Memory(_) => write!(f, "Memory"),
        }
    }
}

impl<S: IndexStorage> Error for BuiltDataError<S> {}

/// The result of a check.
#[derive(Clone, Copy, PartialEq, Eq)]
enum Verdict<S> {
    Checked,
    Unsafe(Misfit<S>),
    Long(LongChain<S>),
}

/// Checks the chains of a pair that is safe.
fn judge_chains<S: IndexStorage>(
    alloc: Global,
    grm: &NumberedGrammar<S>,
    sgraph: &StateGraph<S>,
    stable: &FullTable<S>,
    cap: u16,
) -> Result<(), BuiltDataError<S>>
    requires { IsSafePair grm.now.grammar sgraph.now stable.now }
    ensures checked { OnOk result (IsData grm.now.grammar sgraph.now stable.now cap) }
    ensures refused { IfErr result (IsBuiltRefusal S.number grm.now.grammar sgraph.now stable.now cap) }
{
    // For the proof alone: this read gives it the invariant of each grammar, graph and table.
    grm.start_prod();
    sgraph.all_states_len();
    stable.states_len();
    let chains = Chains {
        grm,
        stable,
        limit: cap,
    };
    if let Some(chain) = long_chain(alloc, &chains)? {
        return Err(BuiltDataError::TooManyReductions(chain));
    }
    Ok(())
}

/// Checks the pair, and then the chains.
fn judge<S: IndexStorage>(
    alloc: Global,
    grm: &NumberedGrammar<S>,
    sgraph: &StateGraph<S>,
    stable: &FullTable<S>,
    cap: u16,
) -> Result<Verdict<S>, AllocError>
    ensures { IfOk result (TellsVerdict S.number grm.now.grammar sgraph.now stable.now cap) }
{
    if let Some(misfit) = least_misfit(alloc, grm, sgraph, stable.stable())? {
        return Ok(Verdict::Unsafe(misfit));
    }
    match judge_chains(alloc, grm, sgraph, stable, cap) {
        Ok(()) => Ok(Verdict::Checked),
        Err(BuiltDataError::TooManyReductions(chain)) => Ok(Verdict::Long(chain)),
        Err(BuiltDataError::Memory(e)) => Err(e),
    }
}

impl<S: IndexStorage> ParserData<S> {
    /// Checks a graph and a table against a grammar, and their chains of reductions against a cap. A pair that
    /// the builder made of the grammar is never `UnsafeTable`.
    ///
    /// # Errors
    ///
    /// - `UnsafeTable` where a run could be stuck, or accept what the grammar doesn't derive: the least cell that
    ///   doesn't fit, and the parts.
    /// - Else `TooManyReductions` where more than `cap` reductions follow each other on one token: the least such
    ///   chain, and the parts.
    /// - `Memory` where memory is refused; the parts are dropped.
    pub fn new(
        alloc: Global,
        grm: NumberedGrammar<S>,
        sgraph: StateGraph<S>,
        stable: StateTable<S>,
        cap: u16,
    ) -> Result<ParserData<S>, ParserDataError<S>>
        ensures holds { IfOk result (λ d. d ≡ record { grammar = grm; graph = sgraph; table = stable; cap = cap }) }
        ensures safe { OnOk result (IsSafePair grm.grammar sgraph stable) }
        ensures chains { OnOk result (ChainsWithin grm.grammar (automaton_of sgraph stable) cap) }
        ensures refused { IfErr result (IsDataRefusal S.number grm sgraph stable cap) }
        ensures of_builder { IfErr result (λ e. IsTableOf grm sgraph stable → IsUnsafeTable e → ⊥) }
    {
        // Cells and gotos are read at once from here on.
        let full = FullTable::new(alloc, stable)?;
        ParserData::of_parts(alloc, grm, sgraph, full, cap)
    }

    /// Makes data of the graph and the table that the builder made of the grammar. Such a pair is safe, so of it only
    /// the chains of reductions are checked.
    ///
    /// # Errors
    ///
    /// The parts are dropped in both cases.
    ///
    /// - `TooManyReductions` where more than `cap` reductions follow each other on one token: the least such chain.
    /// - `Memory` where memory is refused.
    pub fn of_builder(
        alloc: Global,
        grm: NumberedGrammar<S>,
        sgraph: StateGraph<S>,
        stable: StateTable<S>,
        cap: u16,
    ) -> Result<ParserData<S>, BuiltDataError<S>>
        requires { IsTableOf grm sgraph stable }
        ensures holds { IfOk result (λ d. d ≡ record { grammar = grm; graph = sgraph; table = stable; cap = cap }) }
        ensures chains { OnOk result (ChainsWithin grm.grammar (automaton_of sgraph stable) cap) }
        ensures refused { IfErr result (IsBuiltRefusal S.number grm.grammar sgraph stable cap) }
    {
        // For the proof alone: this read gives it the invariant of each grammar.
        grm.start_prod();
        let full = FullTable::new(alloc, stable)?;
        match judge_chains(alloc, &grm, &sgraph, &full, cap) {
            Ok(()) => Ok(ParserData {
                grm,
                sgraph,
                stable: full,
                cap,
            }),
            Err(e) => {
                drop(grm);
                drop(sgraph);
                drop(full);
                Err(e)
            }
        }
    }

    /// Checks data as `new` does, over a table that has its full rows.
    fn of_parts(
        alloc: Global,
        grm: NumberedGrammar<S>,
        sgraph: StateGraph<S>,
        stable: FullTable<S>,
        cap: u16,
    ) -> Result<ParserData<S>, ParserDataError<S>>
        ensures holds { IfOk result (λ d. d ≡ record { grammar = grm; graph = sgraph; table = stable; cap = cap }) }
        ensures safe { OnOk result (IsSafePair grm.grammar sgraph stable) }
        ensures chains { OnOk result (ChainsWithin grm.grammar (automaton_of sgraph stable) cap) }
        ensures refused { IfErr result (IsDataRefusal S.number grm sgraph stable cap) }
        ensures of_builder { IfErr result (λ e. IsTableOf grm sgraph stable → IsUnsafeTable e → ⊥) }
    {
        // For the proof alone: this read gives it the invariant of each grammar.
        grm.start_prod();
        let verdict = match judge(alloc, &grm, &sgraph, &stable, cap) {
            Ok(verdict) => verdict,
            Err(e) => {
                drop(grm);
                drop(sgraph);
                drop(stable);
                return Err(e.into());
            }
        };
        match verdict {
            Verdict::Checked => Ok(ParserData {
                grm,
                sgraph,
                stable,
                cap,
            }),
            Verdict::Unsafe(misfit) => Err(ParserDataError::UnsafeTable {
                state: misfit.state,
                cell: misfit.cell,
                parts: Parts {
                    grm,
                    sgraph,
                    stable: stable.into_stable(),
                },
            }),
            Verdict::Long(chain) => Err(ParserDataError::TooManyReductions {
                state: chain.state,
                rule: chain.ridx,
                token: chain.tidx,
                cap,
                parts: Parts {
                    grm,
                    sgraph,
                    stable: stable.into_stable(),
                },
            }),
        }
    }

    /// Lends the grammar.
    pub fn grm(&self) -> &NumberedGrammar<S>
        ensures { result.now ≡ self.now.grammar }
    {
        &self.grm
    }

    /// Lends the graph.
    pub fn sgraph(&self) -> &StateGraph<S>
        ensures { result.now ≡ self.now.graph }
    {
        &self.sgraph
    }

    /// Lends the table.
    pub fn stable(&self) -> &StateTable<S>
        ensures { result.now ≡ self.now.table }
    {
        self.stable.stable()
    }

    /// Returns the machine of a run.
    pub(crate) fn machine(&self) -> Machine<'_, S>
        ensures grammar { result.grm.now ≡ self.now.grammar }
        ensures graph { result.sgraph.now ≡ self.now.graph }
        ensures table { result.stable.now ≡ self.now.table }
        ensures limit { result.limit ≡ self.now.cap }
    {
        Machine {
            grm: &self.grm,
            sgraph: &self.sgraph,
            stable: &self.stable,
            limit: self.cap,
        }
    }

    /// Returns how many reductions a chain has at most.
    pub fn cap(&self) -> u16
        ensures { result ≡ self.now.cap }
    {
        self.cap
    }

    /// Returns whether each item's action is in its cell, so that a run accepts each sentence. For data that the
    /// builder made of a grammar without precedences this holds if and only if no conflict is listed. All items are looked at.
    pub fn complete(&self) -> bool
        ensures value { IsTrue result ↔ Complete self.now.grammar.grammar (automaton_of self.now.graph self.now.table) }
        ensures listed { IsTableOf self.now.grammar self.now.graph self.now.table → NoPrecedences (precedences_of self.now.grammar) → IsTrue result ↔ IsNone self.now.table.conflicts }
    {
        self.facts();
        is_complete(&self.machine())
    }

    /// Proves the facts that a run relies on.
    pub(crate) fn facts(&self)
        ensures table { IsTableFor self.now.grammar.grammar self.now.table }
        ensures pair { IsSafePair self.now.grammar.grammar self.now.graph self.now.table }
        ensures chains { (g : GraphValue) → ChainsWithin self.now.grammar.grammar (automaton_of g self.now.table) self.now.cap }
    {
        // For the proof alone: this read gives it the invariant of all data.
        let _cap = self.cap;
    }
}
