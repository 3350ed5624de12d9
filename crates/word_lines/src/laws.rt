//! What is so of the items of each line, and of what a parse of a text's lexemes tells: its errors and its tree can be shown over
//! that text. Nothing here runs: a function names a law by a call, and its proof may use the clause from then on.

ghost use Rattle.std.specs.Prelude.{◌≡◌, ℕ, List};
ghost use Rattle.std.specs.List.{AllByRecursion};
ghost use Rattle.std.specs.Str.{IsUtf8};
ghost use Rattle.cfg_numbered.specs.Value.{GrammarValue, IsGrammar};
ghost use Rattle.parse_trees.specs.ErrorTexts.{FitsInput};
ghost use Rattle.parse_trees.specs.Lexemes.{AreItems, IsFirstLexError, Misfit, AreLexemes};
ghost use Rattle.parse_trees.specs.Refusals.{HasMisfit};
ghost use Rattle.word_lines.specs.Lexing.{lex_of, items_of};
ghost use Rattle.word_lines.specs.NodeRows.{AreNamed};
ghost use Rattle.word_lines.specs.ShownTexts.{FlatParsesCanBeShown, ParsesCanBeShown};
ghost use Rattle.word_lines.specs.declared.lexeme.WordLexeme.{WordLexeme};
ghost use Rattle.word_lines.specs.declared.lexeme.WordLexError.{WordLexError};

use cfg_base::index::{IndexStorage, each_number_is_of_one_value};
use lrpar::{LexerTypes, Recoverer};

/// Proves that the lexemes of a line are never refused by a parse. Their tokens are those of the grammar other than
/// the end, and none starts before one that comes earlier.
pub fn lexemes_of_lines_are_taken<S: IndexStorage>()
    ensures taken { (g : GrammarValue) (line : List ℕ) (lexemes : List (WordLexeme S)) → IsGrammar S.MAX g → AreItems (items_of S.of_number g line) lexemes → AreLexemes g.grammar (lex_of S.number) lexemes }
    ensures not_refused { (g : GrammarValue) (line : List ℕ) (m : Misfit) → IsGrammar S.MAX g → HasMisfit g.grammar (lex_of S.number) (items_of S.of_number g line) m → ⊥ }
{
    each_number_is_of_one_value::<S>();
}

/// Proves that the lexemes of a line, and its errors, are parts of it, from the start of a character to that of
/// another.
pub fn items_are_parts_of_their_line<S: IndexStorage>()
    ensures lexemes { (g : GrammarValue) (line : List ℕ) (lexemes : List (WordLexeme S)) → IsUtf8 line → AreItems (items_of S.of_number g line) lexemes → AllByRecursion (λ x. FitsInput line x.span.start x.span.end) lexemes }
    ensures errors { (g : GrammarValue) (line : List ℕ) (e : WordLexError) → IsUtf8 line → IsFirstLexError (items_of S.of_number g line) e → FitsInput line e.span.start e.span.end }
{}

/// Proves that the text of each lexeme of a line is the name of its token, if the storage type holds each number.
pub fn lexemes_of_lines_are_named<S: IndexStorage>()
    ensures { (g : GrammarValue) (line : List ℕ) → ((t : ℕ) → S.number (S.of_number t) ≡ t) → AreNamed S.number g line (items_of S.of_number g line) }
{}

/// Shows that each error of a parse lies within the text, that its repairs show parts of the text, and so do the lexemes of the
/// tree. The tables are any, and so is the lexer, where its lexemes lie within the text.
#[tactic(auto, using(crate::proofs::ShownTexts::parses_can_be_shown))]
pub fn parses_can_be_shown<T: LexerTypes, R: Recoverer<T::StorageT, T::LexemeT>>()
    ensures { (recoverer : R) → ParsesCanBeShown T.LexemeT (R.answers recoverer) (λ tree. Unit {0}) }
{}

/// Shows the same of errors as they are handed out, and of a flat tree, as `LexParseError::pp` and `FlatTree::pp` ask it.
#[tactic(auto, using(crate::proofs::ShownTexts::flat_parses_can_be_shown))]
pub fn flat_parses_can_be_shown<T: LexerTypes, R: Recoverer<T::StorageT, T::LexemeT>>()
    ensures { (recoverer : R) → FlatParsesCanBeShown T.StorageT T.LexemeT T.LexErrorT (R.answers recoverer) }
{}
