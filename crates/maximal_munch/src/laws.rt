//! What follows from `Munches`. Nothing here runs: a function names a law by a call, and its proof may use the clause from then
//! on.

ghost use Rattle.std.specs.Prelude.{◌≡◌, ℕ, ◌+◌, ◌≤◌, List, All, length};
ghost use Rattle.maximal_munch.specs.RuleValues.{RuleSetValue};
ghost use Rattle.maximal_munch.specs.Munching.{Munches, Follow, end_of};
ghost use Rattle.maximal_munch.specs.declared.munching.Part.{Part};
ghost use Rattle.maximal_munch.specs.declared.munching.Ending.{Ending};

/// Proves that a text has one list of parts and one ending.
pub fn texts_munch_in_one_way()
    ensures parts { (v : RuleSetValue) (text : List ℕ) (ps qs : List Part) (d e : Ending) → Munches v text ps d → Munches v text qs e → ps ≡ qs }
    ensures ending { (v : RuleSetValue) (text : List ℕ) (ps qs : List Part) (d e : Ending) → Munches v text ps d → Munches v text qs e → d ≡ e }
{}

/// Proves that each part has a byte and begins where the one before it ends, from the text's start up to where lexing ends.
pub fn parts_follow_one_another()
    ensures { (v : RuleSetValue) (text : List ℕ) (ps : List Part) (e : Ending) → Munches v text ps e → Follow 0 ps (end_of (length text) e) }
{}

/// Proves that each part lies within the text.
pub fn parts_lie_within_their_text()
    ensures { (v : RuleSetValue) (text : List ℕ) (ps : List Part) (e : Ending) → Munches v text ps e → All (λ p. p.start + p.len ≤ length text) ps }
{}
