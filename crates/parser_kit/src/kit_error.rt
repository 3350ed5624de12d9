//! Why a text gives no kit.

ghost use Rattle.std.specs.Prelude.{◌≡◌};
ghost use Rattle.parser_kit.specs.KitErrors.{told_as};
ghost use Rattle.parser_kit.specs.declared.kit_error.KitError.TheVariants as errors;

use crate::grammar_kit_error::{GrammarKitError, write_chain};
use cfg_base::index::IndexStorage;
use cfg_base::span::Spanned;
use cfg_base::symbol::{PIdx, RIdx, TIdx};
use cfgrammar::yacc::{TooMany, YaccGrammarError};
use lrtable::StIdx;
use std::alloc::{AllocError, Global};
use std::error::Error;
use std::fmt;
use std::fmt::{Debug, Display, Formatter, Write};

/// Why a text gives no kit: refused memory aside, the first of these that holds. Its text has a line for each error of the
/// grammar, and else one line.
#[derive(Debug, Drop)]
pub enum KitError<S: IndexStorage> {
    /// All that is wrong with the text.
    Grammar(Vec<YaccGrammarError>),
    /// A count of the grammar that the index type has no number for.
    TooMany(TooMany),
    /// While the states are built, more of them are there at once than the index type's greatest number; the
    /// count is one more than that number.
    TooManyStates(usize),
    /// A state both accepts and reduces at the end token: the least production that it reduces.
    AcceptReduce(PIdx<S>),
    /// For each state a cell for each token and one for each rule are more than `usize::MAX`.
    TooLarge,
    /// More than `cap` reductions follow each other on one token: the least such chain.
    TooManyReductions {
        /// The state at which the chain begins.
        state: StIdx<S>,
        /// `None` where the chain begins in the state alone; else the rule whose goto is above the state.
        rule: Option<RIdx<S>>,
        /// The token on which all of these reductions are made.
        token: TIdx<S>,
        /// The greatest number of reductions allowed one after another on a token.
        cap: u16,
    },
    /// There is no memory.
    Memory(AllocError),
}

impl<S: IndexStorage> From<AllocError> for KitError<S> {
    ghost from_gives = { λ x e. e ≡ errors.Memory x };

    fn from(e: AllocError) -> KitError<S> {
        KitError::Memory(e)
    }
}

impl<S: IndexStorage> From<GrammarKitError<S>> for KitError<S> {
    ghost from_gives = { λ x e. e ≡ told_as x };

    fn from(e: GrammarKitError<S>) -> KitError<S> {
        match e {
            GrammarKitError::TooManyStates(n) => KitError::TooManyStates(n),
            GrammarKitError::AcceptReduce(pidx) => KitError::AcceptReduce(pidx),
            GrammarKitError::TooLarge => KitError::TooLarge,
            GrammarKitError::TooManyReductions {
                state,
                rule,
                token,
                cap,
            } => KitError::TooManyReductions {
                state,
                rule,
                token,
                cap,
            },
            GrammarKitError::Memory(e) => KitError::Memory(e),
        }
    }
}

/// What has too many, and how many these are.
fn write_count<W: Write>(f: &mut Formatter<W>, count: TooMany) -> fmt::Result {
    match count {
        TooMany::TooManyRules(n) => write!(f, "too many rules: {n}"),
        TooMany::TooManyProds(n) => write!(f, "too many productions: {n}"),
        TooMany::TooManyTokens(n) => write!(f, "too many tokens: {n}"),
        TooMany::TooManySymbols(n) => write!(f, "too many symbols: {n}"),
    }
}

/// Writes a line for each error, by the first byte of its first span, with no line feed behind the last.
fn write_errors<W: Write>(f: &mut Formatter<W>, errors: &[YaccGrammarError]) -> fmt::Result {
    let mut front = "";
    for error in errors {
        let start = error.spans().first().map_or(0, |span| span.start());
        write!(f, "{front}grammar error at byte {start}: {error}")?;
        front = "\n";
    }
    Ok(())
}

impl<S: IndexStorage> Display for KitError<S> {
    fn fmt<W: Write>(&self, f: &mut Formatter<W>) -> fmt::Result {
        match self {
            KitError::Grammar(errors) => write_errors(f, errors.as_slice()),
            KitError::TooMany(count) => write_count(f, *count),
            KitError::TooManyStates(n) => write!(f, "too many states: {n}"),
            KitError::AcceptReduce(pidx) => {
                let number = pidx.0.to_usize();
                write!(f, "Accept/reduce conflict, production {number}")
            }
            KitError::TooLarge => write!(f, "table too large"),
            KitError::TooManyReductions {
                state,
                rule,
                token,
                cap,
            } => write_chain(f, *cap, *state, *token, *rule),
            KitError::Memory(_) => write!(f, "out of memory"),
        }
    }
}

impl<S: IndexStorage> Error for KitError<S> {}
