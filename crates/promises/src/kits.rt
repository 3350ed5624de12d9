//! A text gives a parser, or a true reason.

ghost use Rattle.std.specs.Prelude.{◌≡◌, ℕ, List, IfErr, IfOk};
ghost use Rattle.cfg_read.specs.declared.yacc.YaccKind.{YaccKind};
ghost use Rattle.cfg_read.specs.ValidityInfo.{CheckedAst, IsChecked};
ghost use Rattle.parser_kit.specs.Kit.{IsKitOf, KitValue};
ghost use Rattle.parser_kit.specs.KitErrors.{HasKitCause, IsKitRefusal};

use cfg_base::index::IndexStorage;
use cfg_read::yacc::{YaccKind, one_answer};
use parser_kit::laws::kits_of_texts_are_one;
use parser_kit::{KitError, ParserKit};
use std::alloc::Global;

/// A text gives a kit of the grammar that it reads as, with the grammar's own graph and table; or it is refused, and what the
/// refusal says is so of the text: all that is wrong with it, the first count that doesn't fit, the number of states, the least
/// production against which accepting stands, the least chain of reductions that passes the cap. Want of memory apart.
/// Shown by `examples` (`kit`); `read_rows`, `table_rows`; refused: `mutants/parser_kit`.
pub fn a_text_gives_a_kit_or_a_reason<S: IndexStorage>(
    alloc: Global,
    text: &str,
    kind: YaccKind,
    cap: u16,
) -> Result<ParserKit<S>, KitError<S>>
    ensures kit { IfOk result (IsKitOf S.MAX kind text.now cap) }
    ensures refused { IfErr result (IsKitRefusal S.number S.MAX kind text.now cap) }
{
    ParserKit::new(alloc, text, kind, cap)
}

/// A refusal for states, for accepting or for cells is one of canonical LR(1), with no word of how states are built.
/// Shown by `examples` (`kit`), its last text.
pub fn refusals_have_canonical_causes<S: IndexStorage>(
    alloc: Global,
    text: &str,
    kind: YaccKind,
    cap: u16,
) -> Result<ParserKit<S>, KitError<S>>
    ensures { IfErr result (HasKitCause S.number S.MAX kind text.now) }
{
    ParserKit::new(alloc, text, kind, cap)
}

/// A text of a kind has one reading, or one list of errors: never two, never both.
/// Shown by the 988 texts of `read_rows`; refused: `mutants/cfg_read/symbol_after_empty`.
pub fn a_text_has_one_reading()
    ensures { (kind : YaccKind) (text : List ℕ) (c d : CheckedAst) → IsChecked kind text c → IsChecked kind text d → c ≡ d }
{
    one_answer();
}

/// A text of a kind has one kit of a cap, whatever type its numbers are stored in.
/// Shown by `table_rows`, by three index types.
pub fn a_text_has_one_kit()
    ensures { (top top' cap : ℕ) (kind : YaccKind) (text : List ℕ) (k l : KitValue) → IsKitOf top kind text cap k → IsKitOf top' kind text cap l → k ≡ l }
{
    kits_of_texts_are_one();
}
