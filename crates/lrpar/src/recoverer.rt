//! What a parse asks for repairs.

ghost use Rattle.std.specs.Prelude.{◌≡◌, ℕ, List, [], IfOk};
ghost use Rattle.lr_theory.specs.Repair.{Edit};
ghost use Rattle.parse_trees.specs.Edits.{sequences_of};

use cfg_base::index::IndexStorage;
use parse_trees::lex_api::Lexeme;
pub use parse_trees::parse_repair::RepairStep;
use state_table::StIdx;
use std::alloc::{AllocError, Global};

/// Returns, at an error, the sequences of repairs that are to be tested there.
pub trait Recoverer<S: IndexStorage, L: Lexeme<S>> {
    /// The sequences that `sequences` may return at an error, by its state, the index of the next lexeme, and
    /// that lexeme.
    ghost answers: { Self → ℕ → ℕ → L → List (List Edit) → Type 0 };

    /// Returns the sequences to test, in this order. `stidx` is the state on top, and `lexeme` the next lexeme,
    /// at the index `laidx`; past the last one it is a lexeme of the end token.
    fn sequences(
        &self,
        alloc: Global,
        stidx: StIdx<S>,
        laidx: usize,
        lexeme: L,
    ) -> Result<Vec<Vec<RepairStep<S>>>, AllocError>
        ensures { IfOk result (λ r. answers self.now (S.number stidx.0) laidx lexeme (sequences_of S.number r.items)) };
}

/// A recoverer without repairs, so that a parse ends at its first error.
#[derive(Clone, Copy, Debug, PartialEq, Eq)]
pub struct NoRecovery;

impl<S: IndexStorage, L: Lexeme<S>> Recoverer<S, L> for NoRecovery {
    ghost answers = { λ recoverer state index lexeme offered. offered ≡ [] };

    fn sequences(
        &self,
        alloc: Global,
        _stidx: StIdx<S>,
        _laidx: usize,
        _lexeme: L,
    ) -> Result<Vec<Vec<RepairStep<S>>>, AllocError>
        ensures { IfOk result (λ r. sequences_of S.number r.items ≡ []) }
    {
        Ok(Vec::new(alloc))
    }
}
