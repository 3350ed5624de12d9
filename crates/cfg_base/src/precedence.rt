//! Precedences of tokens and productions.

ghost use Rattle.std.specs.Prelude.{◌≡◌, ◌↔◌, IsTrue};
ghost use Rattle.cfg_base.specs.declared.precedence.AssocKind.{AssocKind};
ghost use Rattle.cfg_base.specs.declared.precedence.Precedence.{Precedence};

/// A level of precedence: the number of a precedence line, counted from 0.
pub type PrecedenceLevel = u64;

/// How tightly a token or production binds.
#[derive(Clone, Copy, Debug, PartialEq, Eq)]
pub struct Precedence {
    /// The number of the line that names the token; a greater one binds tighter.
    pub level: PrecedenceLevel,
    /// Decides between a shift and a reduction of the same level.
    pub kind: AssocKind,
}

/// To which side the tokens of a precedence line group.
#[derive(Clone, Copy, Debug, PartialEq, Eq)]
pub enum AssocKind {
    /// `%left`: at equal levels the reduction is made.
    Left,
    /// `%right`: at equal levels the token is shifted.
    Right,
    /// `%nonassoc`: at equal levels the token is an error.
    Nonassoc,
}

/// Proves that precedences are equal if their level and kind are, and that two kinds are equal if and only if they
/// are one value.
pub fn precedence_is_level_and_kind()
    ensures precedence { (a b : Precedence) → IsTrue (⟦<Precedence as PartialEq>⟧.eq a b) ↔ (a ≡ b) }
    ensures assoc { (a b : AssocKind) → IsTrue (⟦<AssocKind as PartialEq>⟧.eq a b) ↔ (a ≡ b) }
{}
