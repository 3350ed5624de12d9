//! Laws of kits.

ghost use Rattle.std.specs.Prelude.{◌≡◌, ℕ, List, min};
ghost use Rattle.cfg_read.specs.declared.yacc.YaccKind.{YaccKind};
ghost use Rattle.lrpar.specs.Checked.{ParserValue};
ghost use Rattle.parser_kit.specs.Kit.{IsKitOf, KitValue};
ghost use Rattle.parser_kit.specs.KitParses.{ParseAlike};
ghost use Rattle.parser_kit.specs.SeenLexemes.{ParseSeenAlike};
ghost use Rattle.parser_kit.specs.Tabled.{IsTabled};
ghost use Rattle.parser_kit.specs.TextKinds.{IsKindOfText};

use cfg_base::index::IndexStorage;
use cfg_read::yacc::{one_answer, one_kind};
use lrpar::Lexeme;
use lrpar::laws::parses_are_one;
use lrtable::laws::tables_are_one;

/// Proves that a grammar has one kit of a cap, whatever type its numbers are stored in. Kits of `u8`, `u16` and `u32`
/// have the same numbers, conflicts and tables, and so the same values and errors for the same lexemes and repairs.
pub fn kits_are_one()
    ensures { (top top' : ℕ) (k l : ParserValue) → IsTabled top k → IsTabled top' l → k.grammar ≡ l.grammar → k.cap ≡ l.cap → k ≡ l }
{
    tables_are_one();
}

/// Proves that a text of a kind has one kit of a cap, whatever type its numbers are stored in.
pub fn kits_of_texts_are_one()
    ensures { (top top' cap : ℕ) (kind : YaccKind) (text : List ℕ) (k l : KitValue) → IsKitOf top kind text cap k → IsKitOf top' kind text cap l → k ≡ l }
{
    one_answer();
    kits_are_one();
}

/// Proves that kits of one text, kind and cap parse alike, whatever types their numbers are stored in. For the same
/// lexemes, and the same sequences at the same errors, they report the same errors and give the same tree or none.
pub fn kits_of_texts_parse_alike<S, U, L, E>()
    ensures { (top top' cap : ℕ) (kind : YaccKind) (text : List ℕ) (k l : KitValue) → IsKitOf top kind text cap k → IsKitOf top' kind text cap l → ParseAlike S U L E k.parser l.parser }
{
    kits_of_texts_are_one();
    parses_are_one::<L, L>();
}

/// Proves that kits of one text, kind and cap parse alike where each has lexemes of its own type, such as lexemes that
/// store their token in the kit's index type. For lexemes that contracts see as the same ones, and the same sequences at the
/// same errors, they report the same errors and give the same tree or none, as seen.
pub fn kits_with_own_lexemes_parse_alike<
    S: IndexStorage,
    U: IndexStorage,
    L: Lexeme<S>,
    M: Lexeme<U>,
    E,
    F,
>()
    ensures { (cap : ℕ) (kind : YaccKind) (text : List ℕ) (k l : KitValue) → IsKitOf S.MAX kind text cap k → IsKitOf U.MAX kind text cap l →
        ParseSeenAlike S.number U.number L.lex M.lex E F L.faulty_of M.faulty_of (min S.MAX U.MAX) k.parser l.parser }
{
    kits_of_texts_are_one();
}

/// Proves that a text has at most one kind, the one that its section names, or, where it has no key for it, that of
/// Yacc's own syntax with trees.
pub fn kinds_of_texts_are_one()
    ensures { (text : List ℕ) (k l : YaccKind) → IsKindOfText text k → IsKindOfText text l → k ≡ l }
{
    one_kind();
}
