//! What a run makes of lexemes and reductions: a stack with one entry for each tree of the machine.

ghost use Rattle.std.specs.Prelude.{◌≡◌, ◌≤◌, ◌∷◌, ℕ, List, length, Some, OnOk};
ghost use Rattle.cfg_theory.specs.Grammar.{Grammar, head_of};
ghost use Rattle.cfg_theory.specs.Tree.{Tree, Forest, leaf, node, none};
ghost use Rattle.lr_theory.specs.Machine.{pop};

use crate::lex_api::Lexeme;
use cfg_base::index::IndexStorage;
use cfg_base::symbol::{PIdx, RIdx};
use std::alloc::{AllocError, Global};

/// A stack beside the machine's trees: a shift puts an entry on it, and a reduction puts one in place of several.
pub trait ValueStack<S: IndexStorage, L: Lexeme<S>> {
    /// The entries are for these trees, the topmost first.
    ghost stands: { Grammar → Self → List (Tree L) → Type 0 };

    /// No entry starts after this offset.
    ghost starts_by: { Self → ℕ → Type 0 };

    /// What starts by an offset starts by each later one. An implementer proves it.
    ghost starts_later: { (s : Self) (m n : ℕ) → starts_by s m → m ≤ n → starts_by s n };

    /// Whether two stacks agree in all that no call changes, such as functions that were passed.
    ghost keeps: { Self → Self → Type 0 };

    /// A stack agrees with itself. An implementer proves it.
    ghost keeps_all: { (s : Self) → keeps s s };

    /// Stacks that agree with a third one agree. An implementer proves it.
    ghost keeps_on: { (s t u : Self) → keeps s t → keeps t u → keeps s u };

    /// Puts an entry for a lexeme on top.
    fn shift(&mut self, alloc: Global, lexeme: L) -> Result<(), AllocError>
        requires stands { (G : Grammar) × (ts : List (Tree L)) × stands G self.old ts }
        requires start { starts_by self.old (L.lex lexeme).places.start }
        ensures stands { OnOk result ((G : Grammar) (ts : List (Tree L)) → stands G self.old ts → stands G self.new (leaf lexeme ∷ ts)) }
        ensures start { OnOk result (starts_by self.new (L.lex lexeme).places.start) }
        ensures keeps { OnOk result (keeps self.old self.new) };

    /// Puts an entry for a node of a production and its rule in place of the `count` topmost ones.
    fn reduce(
        &mut self,
        alloc: Global,
        pidx: PIdx<S>,
        ridx: RIdx<S>,
        count: usize,
    ) -> Result<(), AllocError>
        requires stands { (G : Grammar) × (ts : List (Tree L)) × stands G self.old ts × (count ≤ length ts) }
        ensures stands { OnOk result ((G : Grammar) (ts below : List (Tree L)) (f : Forest L) → S.number ridx.0 ≡ head_of G (S.number pidx.0) → stands G self.old ts → pop count ts none ≡ Some (f, below) → stands G self.new (node (S.number pidx.0) f ∷ below)) }
        ensures start { OnOk result ((offset : ℕ) → starts_by self.old offset → starts_by self.new offset) }
        ensures keeps { OnOk result (keeps self.old self.new) };
}
