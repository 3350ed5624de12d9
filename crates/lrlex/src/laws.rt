//! What follows from `Lexes`. Nothing here runs: a function names a law by a call, and its proof may use the clause from then on.

ghost use Rattle.std.specs.Prelude.{◌≡◌, ℕ, List, Result};
ghost use Rattle.maximal_munch.specs.RuleValues.{RuleSetValue};
ghost use Rattle.lrlex.specs.Lexing.{Lexes};
ghost use Rattle.lrlex.specs.declared.bound.Meaning.{Meaning};
ghost use Rattle.lrpar.specs.declared.default_lexeme.DefaultLexeme.{DefaultLexeme};
ghost use Rattle.lrlex.specs.declared.lex_error.LRLexError.{LRLexError};

use cfg_base::index::IndexStorage;
use maximal_munch::laws;

/// Proves that a text has one list of items, by rules and what they are.
pub fn texts_lex_in_one_way<S: IndexStorage>()
    ensures { (rules : RuleSetValue) (meanings : List (Meaning S)) (text : List ℕ) (xs ys : List (Result (DefaultLexeme S) LRLexError)) →
        Lexes rules meanings text xs → Lexes rules meanings text ys → xs ≡ ys }
{
    laws::texts_munch_in_one_way();
}
