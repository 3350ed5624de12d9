//! The parse of a text's lexemes.

ghost use Rattle.std.specs.Prelude.{◌≡◌, IfErr, IfOk, IfSome, IsTrue};
ghost use Rattle.parse_trees.specs.Refusals.{IsParseRefusal};
ghost use Rattle.repair_search.specs.FewEdits.{most_edits};
ghost use Rattle.text_parses.specs.ParseObjects.{is_tree};
ghost use Rattle.text_parses.specs.Parses.{HasTree, IsFaultless, IsParsed, lexeme_lex};

use cfg_base::symbol::TIdx;
use lrlex::{DefaultLexeme, DefaultLexerTypes, LRLexError, LRNonStreamingLexer};
use lrpar::{FlatTree, Lexer, Outline, ParseError, ParseRefusal, RTParserBuilder};
use parser_kit::ParserKit;
use repair_search::{Limits, Repairs, find_repairs};
use std::alloc::{AllocError, Global};

/// How many actions the searches for repairs of a text look up at most.
const STEPS: usize = 4_000_000;

/// The lexemes of a text.
pub type WordLexer<'t> = LRNonStreamingLexer<'t, u32>;

/// A tree over the lexemes of a text.
pub type WordTree = FlatTree<u32, DefaultLexeme<u32>>;

/// An error of a parse.
pub type WordError = ParseError<DefaultLexeme<u32>, u32>;

/// What is found of a text's lexemes.
#[derive(Drop)]
pub enum Parsed {
    /// The tree.
    Tree(WordTree),
    /// The first error of the lexer.
    Unlexed(LRLexError),
    /// The errors of the parse, at least one. Past the last lexeme an error's lexeme is of the end token.
    Unparsed(Vec<WordError>),
}

impl Parsed {
    /// Returns whether a tree was found.
    pub(crate) fn is_tree(&self) -> bool
        ensures { result ≡ is_tree self.now }
    {
        matches!(self, Parsed::Tree(_))
    }
}

/// Parses the lexemes of a text with these repairs.
fn parse_with(
    alloc: Global,
    kit: &ParserKit<u32>,
    lexer: &WordLexer<'_>,
    repairs: &Repairs<u32>,
) -> Result<Parsed, ParseRefusal>
    ensures parsed { IfOk result (IsParsed kit.now.parser lexer.now.items (most_edits repairs.now)) }
    ensures refused { IfErr result (IsParseRefusal kit.now.parser.grammar.grammar lexeme_lex lexer.now.items) }
{
    let parsed = kit.parse_flat::<DefaultLexerTypes<u32>, WordLexer<'_>, Repairs<u32>>(
        alloc, lexer, repairs,
    );
    match parsed {
        Ok(Ok((tree, errors))) => {
            if !errors.is_empty() {
                drop(tree);
                return Ok(Parsed::Unparsed(errors));
            }
            drop(errors);
            match tree {
                Some(tree) => Ok(Parsed::Tree(tree)),
                None => unreachable!(),
            }
        }
        Ok(Err(error)) => Ok(Parsed::Unlexed(error)),
        Err(refusal) => Err(refusal),
    }
}

/// Returns whether the parse of a text's lexemes with these repairs has no error. It makes no tree.
fn has_no_error(
    alloc: Global,
    kit: &ParserKit<u32>,
    lexer: &WordLexer<'_>,
    repairs: &Repairs<u32>,
) -> Result<bool, ParseRefusal>
    ensures parsed { IfOk result (λ well. IsTrue well → HasTree kit.now.parser lexer.now.items (most_edits repairs.now)) }
    ensures refused { IfErr result (IsParseRefusal kit.now.parser.grammar.grammar lexeme_lex lexer.now.items) }
{
    kit.kit().stays_tabled();
    let parser = RTParserBuilder::<DefaultLexerTypes<u32>, _>::new(kit.parser_data()).recoverer(
        repairs,
    );
    match parser.parse_noaction(alloc, lexer) {
        Ok(errors) => Ok(errors.is_empty()),
        Err(refusal) => Err(refusal),
    }
}

/// Returns whether the lexemes of a text have a tree, by a parse that makes none and takes little memory.
///
/// # Errors
///
/// As `parse_lexed`.
pub(crate) fn has_tree(
    alloc: Global,
    kit: &ParserKit<u32>,
    lexer: &WordLexer<'_>,
    edits: usize,
) -> Result<bool, ParseRefusal>
    ensures parsed { IfOk result (λ well. IsTrue well → HasTree kit.now.parser lexer.now.items edits) }
    ensures refused { IfErr result (IsParseRefusal kit.now.parser.grammar.grammar lexeme_lex lexer.now.items) }
{
    let repairs = Repairs::none(alloc, edits);
    has_no_error(alloc, kit, lexer, &repairs)
}

/// Returns the outline of the tree of a text's lexemes, where they have a tree whose outline is not too large.
///
/// # Errors
///
/// As `parse_lexed`.
pub(crate) fn outline_of(
    alloc: Global,
    kit: &ParserKit<u32>,
    lexer: &WordLexer<'_>,
    edits: usize,
) -> Result<Option<Outline<u32, DefaultLexeme<u32>>>, ParseRefusal>
    ensures parsed { IfOk result (λ o. IfSome o (IsFaultless kit.now.parser lexer.now.items edits)) }
    ensures refused { IfErr result (IsParseRefusal kit.now.parser.grammar.grammar lexeme_lex lexer.now.items) }
{
    let repairs = Repairs::none(alloc, edits);
    let parsed = kit.parse_outline::<DefaultLexerTypes<u32>, WordLexer<'_>, Repairs<u32>>(
        alloc, lexer, &repairs,
    );
    drop(repairs);
    match parsed {
        Ok(Ok((outline, errors))) => {
            if errors.is_empty() {
                Ok(outline)
            } else {
                Ok(None)
            }
        }
        Ok(Err(_)) => Ok(None),
        Err(refusal) => Err(refusal),
    }
}

/// Returns the tokens of the lexemes.
fn tokens_of(alloc: Global, lexer: &WordLexer<'_>) -> Result<Vec<TIdx<u32>>, AllocError> {
    let mut tokens = Vec::new(alloc);
    'items: for item in lexer.iter() {
        if let Ok(lexeme) = item {
            tokens.push(TIdx(lexeme.tok_id))?;
        }
    }
    Ok(tokens)
}

/// Searches for repairs at each error of the lexemes.
fn repairs_of(
    alloc: Global,
    kit: &ParserKit<u32>,
    lexer: &WordLexer<'_>,
    edits: usize,
) -> Result<Repairs<u32>, AllocError>
    ensures { IfOk result (λ r. most_edits r ≡ edits) }
{
    let tokens = tokens_of(alloc, lexer)?;
    let steps = STEPS;
    find_repairs(
        alloc,
        kit.parser_data(),
        tokens.as_slice(),
        Limits { edits, steps },
    )
}

/// Parses the lexemes of a text, with repairs at each error.
fn parse_repaired(
    alloc: Global,
    kit: &ParserKit<u32>,
    lexer: &WordLexer<'_>,
    edits: usize,
) -> Result<Parsed, ParseRefusal>
    ensures parsed { IfOk result (IsParsed kit.now.parser lexer.now.items edits) }
    ensures refused { IfErr result (IsParseRefusal kit.now.parser.grammar.grammar lexeme_lex lexer.now.items) }
{
    match repairs_of(alloc, kit, lexer, edits) {
        Ok(repairs) => {
            let parsed = parse_with(alloc, kit, lexer, &repairs);
            drop(repairs);
            parsed
        }
        Err(e) => Err(ParseRefusal::Memory(e)),
    }
}

/// Parses the lexemes of a text. Where they have an error, it is repaired by at most so many edits and the parse goes on.
///
/// # Errors
///
/// Where memory is refused, or the lexemes are none that a run takes.
pub fn parse_lexed(
    alloc: Global,
    kit: &ParserKit<u32>,
    lexer: &WordLexer<'_>,
    edits: usize,
) -> Result<Parsed, ParseRefusal>
    ensures parsed { IfOk result (IsParsed kit.now.parser lexer.now.items edits) }
    ensures refused { IfErr result (IsParseRefusal kit.now.parser.grammar.grammar lexeme_lex lexer.now.items) }
{
    let none = Repairs::none(alloc, edits);
    match parse_with(alloc, kit, lexer, &none)? {
        Parsed::Unparsed(errors) => {
            if edits == 0 {
                return Ok(Parsed::Unparsed(errors));
            }
            drop(errors);
            parse_repaired(alloc, kit, lexer, edits)
        }
        other => Ok(other),
    }
}
