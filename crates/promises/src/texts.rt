//! Texts by the rules of a lexer: their lexemes are their parts by maximal munch, and these have the tree.

ghost use Rattle.std.specs.Prelude.{◌≡◌, ℕ, List, [], Result, IfErr, IfOk, IsNone};
ghost use Rattle.parse_trees.specs.Lex.{span_by};
ghost use Rattle.parse_trees.specs.Lexemes.{IsFirstLexError};
ghost use Rattle.parser_kit.specs.KitParses.{IsKitParse, ItemsFollowSentences};
ghost use Rattle.lrpar.specs.FlatParses.{HasFlat};
ghost use Rattle.lrpar.specs.Lexers.{lex_of};
ghost use Rattle.lrpar.specs.declared.default_lexeme.DefaultLexeme.{DefaultLexeme};
ghost use Rattle.promises.specs.Numbers.{id, made_up_at};
ghost use Rattle.lrlex.specs.Lexing.{Lexes, bound_meanings, bound_rules};
ghost use Rattle.lrlex.specs.declared.lex_error.LRLexError.{LRLexError};

use lrlex::{BoundRules, DefaultLexerTypes, LRLexError, LRNonStreamingLexer};
use lrpar::{DefaultLexeme, FlatTree, ParseError, ParseRefusal, Recoverer};
use parser_kit::ParserKit;
use std::alloc::Global;

/// What a parse of a text gives: a tree or none, with errors, or the lexer's first fault.
type TextParse = Result<
    (
        Option<FlatTree<u32, DefaultLexeme<u32>>>,
        Vec<ParseError<DefaultLexeme<u32>, u32>>,
    ),
    LRLexError,
>;

/// Parses the lexemes of a text.
fn parse_lexed<R: Recoverer<u32, DefaultLexeme<u32>>>(
    kit: &ParserKit<u32>,
    alloc: Global,
    lexer: &LRNonStreamingLexer<'_, u32>,
    recoverer: &R,
) -> Result<TextParse, ParseRefusal>
    ensures fault { IfOk result (λ r. IfErr r (IsFirstLexError lexer.now.items)) }
    ensures parsed { IfOk result (λ r. IfOk r (λ p. IsKitParse id (lex_of id) made_up_at kit.now.parser (R.answers recoverer.now) lexer.now.items (HasFlat (span_by (lex_of id)) p.0) p.1.items)) }
    ensures sentences { kit.now.kept.ast.precedences ≡ [] → IsNone kit.now.parser.table.conflicts → IfOk result (λ r. IfOk r (λ p. ItemsFollowSentences (lex_of id) kit.now.parser.grammar.grammar lexer.now.items (HasFlat (span_by (lex_of id)) p.0) p.1.items)) }
{
    kit.parse_flat::<DefaultLexerTypes<u32>, LRNonStreamingLexer<'_, u32>, R>(
        alloc, lexer, recoverer,
    )
}

/// Lexes a text, and parses its lexemes.
fn parse_text<R: Recoverer<u32, DefaultLexeme<u32>>>(
    kit: &ParserKit<u32>,
    alloc: Global,
    rules: &BoundRules<'_, u32>,
    recoverer: &R,
    text: &str,
) -> Result<TextParse, ParseRefusal>
    ensures fault { IfOk result (λ r. IfErr r (λ e. (items : List (Result (DefaultLexeme ℕ) LRLexError)) × Lexes (bound_rules rules.now) (bound_meanings rules.now) text.now items × IsFirstLexError items e)) }
    ensures parsed { IfOk result (λ r. IfOk r (λ p. (items : List (Result (DefaultLexeme ℕ) LRLexError)) × Lexes (bound_rules rules.now) (bound_meanings rules.now) text.now items ×
        IsKitParse id (lex_of id) made_up_at kit.now.parser (R.answers recoverer.now) items (HasFlat (span_by (lex_of id)) p.0) p.1.items)) }
    ensures sentences { kit.now.kept.ast.precedences ≡ [] → IsNone kit.now.parser.table.conflicts → IfOk result (λ r. IfOk r (λ p. (items : List (Result (DefaultLexeme ℕ) LRLexError)) × Lexes (bound_rules rules.now) (bound_meanings rules.now) text.now items ×
        ItemsFollowSentences (lex_of id) kit.now.parser.grammar.grammar items (HasFlat (span_by (lex_of id)) p.0) p.1.items)) }
{
    let lexer = match rules.lex(alloc, text) {
        Ok(lexer) => lexer,
        Err(e) => return Err(ParseRefusal::Memory(e)),
    };
    let parsed = parse_lexed(kit, alloc, &lexer, recoverer);
    drop(lexer);
    parsed
}

/// By rules that are bound to a kit's grammar a text's lexemes are its parts by maximal munch: the longest match at each offset, of
/// the first rule on ties. The parse tells the first fault of these alone, or its tree is a derivation of the lexemes as repaired,
/// and comes exactly where each error lists a repair.
/// Shown by `lrpar_tests`, the texts of `examples/`; refused: `mutants/promises/nothing_is_lexed`, `mutants/maximal_munch`.
pub fn trees_derive_the_lexemes_of_texts<R: Recoverer<u32, DefaultLexeme<u32>>>(
    kit: &ParserKit<u32>,
    alloc: Global,
    rules: &BoundRules<'_, u32>,
    recoverer: &R,
    text: &str,
) -> Result<TextParse, ParseRefusal>
    ensures fault { IfOk result (λ r. IfErr r (λ e. (items : List (Result (DefaultLexeme ℕ) LRLexError)) × Lexes (bound_rules rules.now) (bound_meanings rules.now) text.now items × IsFirstLexError items e)) }
    ensures parsed { IfOk result (λ r. IfOk r (λ p. (items : List (Result (DefaultLexeme ℕ) LRLexError)) × Lexes (bound_rules rules.now) (bound_meanings rules.now) text.now items ×
        IsKitParse id (lex_of id) made_up_at kit.now.parser (R.answers recoverer.now) items (HasFlat (span_by (lex_of id)) p.0) p.1.items)) }
{
    parse_text(kit, alloc, rules, recoverer, text)
}

/// Where the grammar's text declares no precedence and no conflict is listed, a text comes through without errors exactly where the
/// tokens of its lexemes are a sentence, and then with their only tree.
/// Shown by `examples` (`deep_runs`), the texts of `examples/`; refused: `mutants/promises/texts_with_conflicts_follow_sentences`.
pub fn texts_of_sentences_get_their_only_tree<R: Recoverer<u32, DefaultLexeme<u32>>>(
    kit: &ParserKit<u32>,
    alloc: Global,
    rules: &BoundRules<'_, u32>,
    recoverer: &R,
    text: &str,
) -> Result<TextParse, ParseRefusal>
    ensures { kit.now.kept.ast.precedences ≡ [] → IsNone kit.now.parser.table.conflicts → IfOk result (λ r. IfOk r (λ p. (items : List (Result (DefaultLexeme ℕ) LRLexError)) × Lexes (bound_rules rules.now) (bound_meanings rules.now) text.now items ×
        ItemsFollowSentences (lex_of id) kit.now.parser.grammar.grammar items (HasFlat (span_by (lex_of id)) p.0) p.1.items)) }
{
    parse_text(kit, alloc, rules, recoverer, text)
}
