//! Laws of valid texts, and of the values of their trees.

ghost use Rattle.std.specs.Prelude.{◌≡◌, ◌↔◌, IsTrue, Bool, Some, Contains};
ghost use Rattle.cfg_read.specs.declared.yacc.YaccKind.{YaccKind};
ghost use Rattle.cfg_read.specs.declared.yacc.YaccOriginalActionKind.{YaccOriginalActionKind};
ghost use Rattle.cfg_read.specs.SyntaxTexts.{WordText, SyntaxText};
ghost use Rattle.cfg_read.specs.Validity.{IsValid};
ghost use Rattle.cfg_read.specs.Asts.{Ast, ast_of};
ghost use Rattle.cfg_read.specs.WellFormedAst.{IsWellFormedAst, names_of_rules};

use crate::yacc::{YaccKind, YaccOriginalActionKind};

/// Proves that the tree of a valid text is well formed. What it names is there, each name once; each production is
/// one rule's; and precedences of one level have one kind.
pub fn valid_texts_have_well_formed_trees()
    ensures { (told : Bool) (x : SyntaxText) → IsValid x → IsWellFormedAst (ast_of told x) }
{}

/// Proves that the tree stays well formed whichever of its rules is made the start rule.
pub fn any_rule_may_start()
    ensures { (ast : Ast) (w : WordText) → IsWellFormedAst ast → Contains (names_of_rules ast) w.text → IsWellFormedAst (record ast { start = Some w }) }
{}

/// Proves that `==` of kinds is equality of the values.
pub fn equality_is_of_values()
    ensures kind { (a b : YaccKind) → IsTrue (⟦<YaccKind as PartialEq>⟧.eq a b) ↔ (a ≡ b) }
    ensures action { (a b : YaccOriginalActionKind) → IsTrue (⟦<YaccOriginalActionKind as PartialEq>⟧.eq a b) ↔ (a ≡ b) }
{}
