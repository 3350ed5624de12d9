//! Laws over the definitions of this crate.

ghost use Rattle.std.specs.Prelude.{◌≡◌, ◌≢◌, ◌↔◌, ℕ, Contains, IfSome, IsSome};
ghost use Rattle.cfg_theory.specs.Grammar.{Grammar, WellFormed};
ghost use Rattle.cfg_numbered.specs.Value.{GrammarValue, HasNoPrecedences};
ghost use Rattle.lr_theory.specs.GraphLaws.{Holds};
ghost use Rattle.lr_theory.specs.Sizes.{StaysWithin};
ghost use Rattle.table_theory.specs.CellLaws.{SomeContested};
ghost use Rattle.table_theory.specs.Cells.{NoPrecedences};
ghost use Rattle.state_table.specs.CellViews.{precedences_of};
ghost use Rattle.state_table.specs.Graphs.{GraphValue, IsGraphOf, graph_of};
ghost use Rattle.state_table.specs.TableValues.{TableValue, filled_tokens, shifted_tokens};
ghost use Rattle.state_table.specs.Tables.{AreContested, IsRefusal, IsTableOf, Refusal};

/// Proves that a graph of a grammar has its canonical LR(1) items. A string leads to each state; the state that a
/// string leads to has each item present after it, with all its lookaheads; each core is tied to canonical LR(1); and
/// any two states of one core cross, so they could not be one.
pub fn graphs_hold_canonical_items()
    ensures { (G : Grammar) (g : GraphValue) → WellFormed G → IsGraphOf G g → Holds G (graph_of g) }
{}

/// Proves that a grammar has one graph and one table, whatever type their numbers are stored in.
pub fn tables_are_one()
    ensures graphs { (G : Grammar) (g h : GraphValue) → WellFormed G → IsGraphOf G g → IsGraphOf G h → g ≡ h }
    ensures tables { (v : GrammarValue) (g : GraphValue) (t u : TableValue) → WellFormed v.grammar → IsTableOf v g t → IsTableOf v g u → t ≡ u }
{}

/// Proves what the conflicts that a table lists are in canonical LR(1). Without precedences some are listed if and
/// only if some token is contested after some string; with precedences each listed one is contested.
#[tactic(auto, using(crate::proofs::CanonicalTables::exact, crate::proofs::CanonicalTables::contested))]
pub fn conflicts_are_canonical()
    ensures exact { (v : GrammarValue) (g : GraphValue) (t : TableValue) → WellFormed v.grammar → IsTableOf v g t → NoPrecedences (precedences_of v) → IsSome t.conflicts ↔ SomeContested v.grammar }
    ensures contested { (v : GrammarValue) (g : GraphValue) (t : TableValue) → WellFormed v.grammar → IsTableOf v g t → IfSome t.conflicts (AreContested v.grammar) }
{}

/// Proves that the tokens that a state shifts are among those on which it does something.
#[tactic(auto, using(crate::proofs::Shifted::shifted_are_filled))]
pub fn shifts_are_actions()
    ensures { (t : TableValue) (s u : ℕ) → Contains (shifted_tokens t s) u → Contains (filled_tokens t s) u }
{}

/// Proves that a grammar without precedences is one without them for its table.
#[tactic(auto, using(crate::proofs::Precedences::no_precedences))]
pub fn precedences_are_kept()
    ensures { (v : GrammarValue) → HasNoPrecedences v → NoPrecedences (precedences_of v) }
{}

/// Proves that a grammar that has a table isn't refused, and that no grammar is refused in two ways, refused memory
/// apart.
pub fn refusals_are_exact()
    ensures tables { (top : ℕ) (v : GrammarValue) (g : GraphValue) (t : TableValue) (r : Refusal) → WellFormed v.grammar → StaysWithin v.grammar top → IsTableOf v g t → IsRefusal top v r → r ≡ Refusal.memory }
    ensures refusals { (top : ℕ) (v : GrammarValue) (r s : Refusal) → WellFormed v.grammar → IsRefusal top v r → IsRefusal top v s → r ≢ Refusal.memory → s ≢ Refusal.memory → r ≡ s }
{}
