//! Laws of whole runs.

ghost use Rattle.std.specs.Prelude.{◌≡◌, ℕ, Bool, List};
ghost use Rattle.lrkit.specs.Answers.{GivesFault, GivesOutput, IsSameFault};
ghost use Rattle.lrkit.specs.Output.{Output};
ghost use Rattle.lrkit.specs.declared.fault.RunFault.{RunFault};

use cfg_read::yacc::{one_answer, one_kind, valid_trees_are_well_formed};
use cfgrammar::yacc::from_ast::sound_trees_make_grammars;
use lrtable::laws::{refusals_are_exact, tables_are_one};
use parser_kit::laws::{kinds_of_texts_are_one, kits_of_texts_are_one, kits_of_texts_parse_alike};
use word_lines::{WordLexError, WordLexeme};

/// A grammar, lines and repairs have one output at most: one text, and one answer whether some line has an error.
pub fn outputs_are_one()
    ensures { (grammar lines repairs text other : List ℕ) (faulty other_faulty : Bool) → Output grammar lines repairs text faulty → Output grammar lines repairs other other_faulty → (text ≡ other) × (faulty ≡ other_faulty) }
{
    kinds_of_texts_are_one();
    kits_of_texts_are_one();
    kits_of_texts_parse_alike::<u32, u32, WordLexeme<u32>, WordLexError>();
}

/// Inputs whose bytes are known have an output or a refusal, never both, and one refusal at most: what their bytes are
/// refused with is one fault, told with the same numbers, and with the same failures where it tells errors of the grammar.
/// Want of memory, and a read or a write that failed, is said by no bytes.
pub fn refusals_are_one()
    ensures apart { (grammar lines repairs text : List ℕ) (faulty : Bool) (e : RunFault) → GivesOutput grammar lines repairs text faulty → GivesFault grammar lines repairs e → ⊥ }
    ensures one { (grammar lines repairs : List ℕ) (e f : RunFault) → GivesFault grammar lines repairs e → GivesFault grammar lines repairs f → IsSameFault e f }
{
    kinds_of_texts_are_one();
    kits_of_texts_are_one();
    one_kind();
    one_answer();
    valid_trees_are_well_formed();
    sound_trees_make_grammars();
    tables_are_one();
    refusals_are_exact();
}
