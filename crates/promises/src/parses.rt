//! Values fold derivations, sentences come through with their only tree, repairs leave no trace.

ghost use Rattle.std.specs.Prelude.{◌≡◌, ℕ, List, [], Option, map, IfErr, IfOk, IsNone};
ghost use Rattle.cfg_theory.specs.Cost.{IsCheapest};
ghost use Rattle.cfg_theory.specs.Derivation.{AllProductive};
ghost use Rattle.cfg_theory.specs.Grammar.{rule, start_symbol};
ghost use Rattle.cfg_theory.specs.Tree.{Tree};
ghost use Rattle.lr_theory.specs.Repair.{Edit};
ghost use Rattle.lrpar.specs.FlatParses.{HasFlat};
ghost use Rattle.lrpar.specs.Told.{told_of};
ghost use Rattle.lrpar.specs.declared.parse_error.ParseError.{ParseError};
ghost use Rattle.parse_trees.specs.Lexemes.{AreItems, IsFirstLexError};
ghost use Rattle.parse_trees.specs.Refusals.{IsParseRefusal};
ghost use Rattle.parse_trees.specs.Lex.{span_by, token_by};
ghost use Rattle.cfg_read.specs.declared.yacc.YaccKind.{YaccKind};
ghost use Rattle.parser_kit.specs.Kit.{IsKitOf, KitValue};
ghost use Rattle.parser_kit.specs.KitParses.{IsKitParse, ItemsFollowSentences, LeavesNoTrace, ParseAlike};
ghost use Rattle.parser_kit.specs.SeenLexemes.{ParseSeenAlike};
ghost use Rattle.word_lines.specs.Lexing.{items_of, lex_of};
ghost use Rattle.word_lines.specs.declared.lexeme.WordLexError.{WordLexError as LexFault};
ghost use Rattle.lrkit.specs.Output.{Word, id, made_up};

use cfg_base::index::IndexStorage;
use cfg_theory::grammar::well_formed_has_start;
use lrpar::{FlatTree, Lexeme, Lexer, LexerTypes, ParseError, ParseRefusal, Recoverer};
use parser_kit::ParserKit;
use parser_kit::laws::{
    kits_of_texts_are_one, kits_of_texts_parse_alike, kits_with_own_lexemes_parse_alike,
};
use std::alloc::Global;
use word_lines::{WordLexError, WordLexeme};

/// For any lexer and any recoverer a parse tells the lexer's first fault alone, or is that of the machine with repairs: the
/// tree is a derivation of the lexemes as repaired, it comes exactly where each error lists a repair, and each error lists
/// in the order handed in exactly the sequences that can be taken.
/// Shown by `a_missing_lexeme_is_inserted` of `lr_theory`; `lrpar_tests`; refused: `insert_left_off`, `mutants/lrpar/deleted_stays`.
pub fn trees_derive_the_lexemes_as_repaired<
    S: IndexStorage,
    T: LexerTypes<StorageT = S>,
    X: Lexer<T>,
    R: Recoverer<S, T::LexemeT>,
>(
    kit: &ParserKit<S>,
    alloc: Global,
    lexer: &X,
    recoverer: &R,
) -> Result<
    Result<
        (
            Option<FlatTree<S, T::LexemeT>>,
            Vec<ParseError<T::LexemeT, S>>,
        ),
        T::LexErrorT,
    >,
    ParseRefusal,
>
    ensures fault { IfOk result (λ r. IfErr r (IsFirstLexError (X.lexed lexer.now))) }
    ensures parsed { IfOk result (λ r. IfOk r (λ p. IsKitParse S.number T.LexemeT.lex T.LexemeT.faulty_of kit.now.parser (R.answers recoverer.now) (X.lexed lexer.now) (HasFlat (span_by T.LexemeT.lex) p.0) p.1.items)) }
    ensures refused { IfErr result (IsParseRefusal kit.now.parser.grammar.grammar T.LexemeT.lex (X.lexed lexer.now)) }
{
    kit.parse_flat::<T, X, R>(alloc, lexer, recoverer)
}

/// Where the text declares no precedence and no conflict is listed, lexemes come through without errors exactly where they
/// are a sentence, and then with their only tree.
/// Shown by `a_grammar_has_its_machine` of `lr_theory`; `examples` (`deep_runs`); refused: `reduce_without_lookahead`.
pub fn sentences_get_their_only_tree<
    S: IndexStorage,
    T: LexerTypes<StorageT = S>,
    X: Lexer<T>,
    R: Recoverer<S, T::LexemeT>,
>(
    kit: &ParserKit<S>,
    alloc: Global,
    lexer: &X,
    recoverer: &R,
) -> Result<
    Result<
        (
            Option<FlatTree<S, T::LexemeT>>,
            Vec<ParseError<T::LexemeT, S>>,
        ),
        T::LexErrorT,
    >,
    ParseRefusal,
>
    ensures { kit.now.kept.ast.precedences ≡ [] → IsNone kit.now.parser.table.conflicts → IfOk result (λ r. IfOk r (λ p. ItemsFollowSentences T.LexemeT.lex kit.now.parser.grammar.grammar (X.lexed lexer.now) (HasFlat (span_by T.LexemeT.lex) p.0) p.1.items)) }
{
    kit.parse_flat::<T, X, R>(alloc, lexer, recoverer)
}

/// There each least sentence of the start symbol, by any costs of tokens, comes through without errors, and so does each of the
/// rule `^`, which `start_rule_idx` returns.
/// Shown by `examples` (`shortest`); refused: `least_by_any_production`.
pub fn least_sentences_come_through<
    S: IndexStorage,
    T: LexerTypes<StorageT = S>,
    X: Lexer<T>,
    R: Recoverer<S, T::LexemeT>,
>(
    kit: &ParserKit<S>,
    alloc: Global,
    lexer: &X,
    recoverer: &R,
) -> Result<
    Result<
        (
            Option<FlatTree<S, T::LexemeT>>,
            Vec<ParseError<T::LexemeT, S>>,
        ),
        T::LexErrorT,
    >,
    ParseRefusal,
>
    ensures start_symbol { kit.now.kept.ast.precedences ≡ [] → IsNone kit.now.parser.table.conflicts → (A : ℕ) (cost : ℕ → ℕ) (lexemes : List T.LexemeT) → start_symbol kit.now.parser.grammar.grammar ≡ rule A → AreItems (X.lexed lexer.now) lexemes →
        IsCheapest kit.now.parser.grammar.grammar cost A (map (token_by T.LexemeT.lex) lexemes) → IfOk result (λ r. IfOk r (λ p. p.1.items ≡ [])) }
    ensures start_rule { kit.now.kept.ast.precedences ≡ [] → IsNone kit.now.parser.table.conflicts → (cost : ℕ → ℕ) (lexemes : List T.LexemeT) → AreItems (X.lexed lexer.now) lexemes →
        IsCheapest kit.now.parser.grammar.grammar cost 0 (map (token_by T.LexemeT.lex) lexemes) → IfOk result (λ r. IfOk r (λ p. p.1.items ≡ [])) }
{
    well_formed_has_start();
    kit.stays_kit();
    kit.parse_flat::<T, X, R>(alloc, lexer, recoverer)
}

/// Where moreover each rule derives some text, repairs leave no trace: the tree is that of a run without repairs on the
/// lexemes as repaired, and each error stands at the first lexeme up to which no sentence begins.
/// Shown by `a_missing_lexeme_is_inserted` of `lr_theory`; refused: `edges_without_lookaheads`.
pub fn repairs_leave_no_trace<
    S: IndexStorage,
    T: LexerTypes<StorageT = S>,
    X: Lexer<T>,
    R: Recoverer<S, T::LexemeT>,
>(
    kit: &ParserKit<S>,
    alloc: Global,
    lexer: &X,
    recoverer: &R,
) -> Result<
    Result<
        (
            Option<FlatTree<S, T::LexemeT>>,
            Vec<ParseError<T::LexemeT, S>>,
        ),
        T::LexErrorT,
    >,
    ParseRefusal,
>
    ensures { kit.now.kept.ast.precedences ≡ [] → IsNone kit.now.parser.table.conflicts → AllProductive kit.now.parser.grammar.grammar → IfOk result (λ r. IfOk r (λ p. LeavesNoTrace S.number T.LexemeT.lex T.LexemeT.faulty_of kit.now.parser (R.answers recoverer.now) (X.lexed lexer.now) (HasFlat (span_by T.LexemeT.lex) p.0) p.1.items)) }
{
    kit.parse_flat::<T, X, R>(alloc, lexer, recoverer)
}

/// Kits of one text, kind and cap, whatever types their numbers are stored in, are the same in numbers, conflicts and tables,
/// and of the same lexemes, where the same sequences are handed in at the same errors, they tell the same errors and give the
/// same tree or none.
/// Shown by `table_rows`, by three index types.
pub fn kits_of_a_text_answer_alike<S, U, L, E>()
    ensures kits { (top top' cap : ℕ) (kind : YaccKind) (text : List ℕ) (k l : KitValue) → IsKitOf top kind text cap k → IsKitOf top' kind text cap l → k ≡ l }
    ensures parses { (top top' cap : ℕ) (kind : YaccKind) (text : List ℕ) (k l : KitValue) → IsKitOf top kind text cap k → IsKitOf top' kind text cap l → ParseAlike S U L E k.parser l.parser }
{
    kits_of_texts_are_one();
    kits_of_texts_parse_alike::<S, U, L, E>();
}

/// A kit with numbers of 8 bits and one with numbers of 32 bits of one text, kind and cap, each over the words of a line that
/// its own lexer makes, tell the same errors and give the same tree or none, where the same repairs are handed in at each error.
/// So do they over any `WordLexeme<u8>` and `WordLexeme<u32>` of the same tokens, places and marks, where any repairs that
/// insert no token past 255 are handed in by the error's state, index and lexeme.
/// Shown by `table_rows`, by three index types; refused: `mutants/promises`.
pub fn kits_of_8_and_of_32_bits_answer_alike()
    ensures words { (cap : ℕ) (kind : YaccKind) (text line : List ℕ) (repairs : List (List Edit)) (k l : KitValue) (tree other_tree : Option (Tree Word)) (errors others : List (ParseError Word ℕ)) →
        IsKitOf 255 kind text cap k → IsKitOf 4294967295 kind text cap l →
        IsKitParse id (lex_of id) made_up k.parser (λ state index lexeme offered. offered ≡ repairs) (items_of id k.parser.grammar line) (λ t. t ≡ tree) errors →
        IsKitParse id (lex_of id) made_up l.parser (λ state index lexeme offered. offered ≡ repairs) (items_of id l.parser.grammar line) (λ t. t ≡ other_tree) others →
        (map (told_of id) errors ≡ map (told_of id) others) × (tree ≡ other_tree) }
    ensures own_lexemes { (cap : ℕ) (kind : YaccKind) (text : List ℕ) (k l : KitValue) → IsKitOf 255 kind text cap k → IsKitOf 4294967295 kind text cap l →
        ParseSeenAlike id id ⟦<WordLexeme<u8> as Lexeme<u8>>⟧.lex ⟦<WordLexeme<u32> as Lexeme<u32>>⟧.lex LexFault LexFault
        ⟦<WordLexeme<u8> as Lexeme<u8>>⟧.faulty_of ⟦<WordLexeme<u32> as Lexeme<u32>>⟧.faulty_of 255 k.parser l.parser }
{
    kits_of_texts_are_one();
    kits_of_texts_parse_alike::<u8, u32, WordLexeme<u8>, WordLexError>();
    kits_with_own_lexemes_parse_alike::<
        u8,
        u32,
        WordLexeme<u8>,
        WordLexeme<u32>,
        WordLexError,
        WordLexError,
    >();
}
