//! Why a grammar has no kit.

ghost use Rattle.std.specs.Prelude.{◌≡◌};
ghost use Rattle.parser_kit.specs.declared.grammar_kit_error.GrammarKitError.TheVariants as errors;

use cfg_base::index::IndexStorage;
use cfg_base::symbol::{PIdx, RIdx, TIdx};
use lrtable::StIdx;
use std::alloc::AllocError;
use std::error::Error;
use std::fmt;
use std::fmt::{Debug, Display, Formatter, Write};

/// Why a grammar has no kit: refused memory aside, the first of these that holds.
#[derive(Clone, Copy, Debug, PartialEq, Eq)]
pub enum GrammarKitError<S> {
    /// While the states are built, more of them are there at once than the index type's greatest number; the
    /// count is one more than that number.
    TooManyStates(usize),
    /// A state both accepts and reduces at the end token: the least production that it reduces.
    AcceptReduce(PIdx<S>),
    /// For each state a cell for each token and one for each rule are more than `usize::MAX`.
    TooLarge,
    /// More than `cap` reductions follow each other on one token: the least such chain.
    TooManyReductions {
        /// The state at which the chain begins.
        state: StIdx<S>,
        /// `None` where the chain begins in the state alone; else the rule whose goto is above the state.
        rule: Option<RIdx<S>>,
        /// The token on which all of these reductions are made.
        token: TIdx<S>,
        /// The greatest number of reductions allowed one after another on a token.
        cap: u16,
    },
    /// There is no memory.
    Memory(AllocError),
}

impl<S> From<AllocError> for GrammarKitError<S> {
    ghost from_gives = { λ x e. e ≡ errors.Memory x };

    fn from(e: AllocError) -> GrammarKitError<S> {
        GrammarKitError::Memory(e)
    }
}

impl<S: IndexStorage> Display for GrammarKitError<S> {
    fn fmt<W: Write>(&self, f: &mut Formatter<W>) -> fmt::Result {
        match self {
            GrammarKitError::TooManyStates(n) => write!(f, "too many states: {n}"),
            GrammarKitError::AcceptReduce(pidx) => {
                let number = pidx.0.to_usize();
                write!(f, "Accept/reduce conflict, production {number}")
            }
            GrammarKitError::TooLarge => write!(f, "table too large"),
            GrammarKitError::TooManyReductions {
                state,
                rule,
                token,
                cap,
            } => write_chain(f, *cap, *state, *token, *rule),
            GrammarKitError::Memory(_) => write!(f, "out of memory"),
        }
    }
}

/// A chain of reductions.
pub(crate) fn write_chain<S: IndexStorage, W: Write>(
    f: &mut Formatter<W>,
    cap: u16,
    state: StIdx<S>,
    token: TIdx<S>,
    rule: Option<RIdx<S>>,
) -> fmt::Result {
    let state = state.0.to_usize();
    let token = token.0.to_usize();
    write!(
        f,
        "more than {cap} reductions in state {state} on token {token}"
    )?;
    match rule {
        Some(ridx) => {
            let rule = ridx.0.to_usize();
            write!(f, " after rule {rule}")
        }
        None => Ok(()),
    }
}

impl<S: IndexStorage> Error for GrammarKitError<S> {}
