//! Parses.

ghost use Rattle.std.specs.Prelude.{◌≡◌, IfErr, IfOk, IfSome, IsSome};
ghost use Rattle.parse_trees.specs.FlatTrees.{pieces_of};
ghost use Rattle.parse_trees.specs.Refusals.{IsParseRefusal};
ghost use Rattle.lrkit_c.specs.Answers.{Puts, number_of};
ghost use Rattle.lrkit_c.specs.Lexed.{AnswersOnce, AnswersText, number_for};
ghost use Rattle.lrkit_c.specs.Parses.{AnswersParse, IsParsed, WritesFound, WritesParsed, first_lexeme, items_of, lexeme_lex, place_of, status_for};
ghost use Rattle.lrkit_c.specs.Nodes.{itself, nodes_of};
ghost use Rattle.lrkit_c.specs.declared.status.Status.TheVariants as statuses;

use crate::answers::{LrkitAnswer, LrkitPlace, answer};
use crate::handle::LrkitParser;
use crate::held::Held;
use crate::lexemes::{LrkitLexeme, WordLexer, lexer_of};
use crate::lexing::{lexer_of_text, place_of_lexing};
use crate::making::{Refusal, make_held};
use crate::nodes::{LrkitNode, WordNode, put_nodes};
use crate::status::Status;
use lrlex::{DefaultLexeme, DefaultLexerTypes, LRLexError};
use lrpar::{FlatTree, NoRecovery, ParseError, ParseRefusal};
use parser_kit::ParserKit;
use std::alloc::Global;

/// A tree over lexemes.
pub type WordTree = FlatTree<u32, DefaultLexeme<u32>>;

type WordError = ParseError<DefaultLexeme<u32>, u32>;

/// What is found of lexemes.
#[derive(Drop)]
pub enum Parsed {
    /// The tree.
    Tree(WordTree),
    /// The first error of the lexer.
    Unlexed(LRLexError),
    /// The lexeme of the first error of the parse; past the last one it is a lexeme of the end token.
    Unparsed(DefaultLexeme<u32>),
}

/// Returns the lexeme of the first error, if there is one.
fn first_lexeme(errors: &[WordError]) -> Option<DefaultLexeme<u32>>
    ensures { result ≡ first_lexeme errors.now }
{
    match errors.first() {
        Some(error) => Some(error.lexeme),
        None => None,
    }
}

/// Parses the lexemes of a list.
fn parse_lexed(
    alloc: Global,
    kit: &ParserKit<u32>,
    lexer: &WordLexer<'_>,
) -> Result<Parsed, ParseRefusal>
    ensures parsed { IfOk result (IsParsed kit.now.parser lexer.now.items) }
    ensures refused { IfErr result (IsParseRefusal kit.now.parser.grammar.grammar lexeme_lex lexer.now.items) }
{
    let parsed = kit.parse_flat::<DefaultLexerTypes<u32>, WordLexer<'_>, NoRecovery>(
        alloc,
        lexer,
        &NoRecovery,
    );
    match parsed {
        Ok(Ok((tree, errors))) => {
            let first = first_lexeme(errors.as_slice());
            drop(errors);
            match first {
                Some(lexeme) => {
                    drop(tree);
                    Ok(Parsed::Unparsed(lexeme))
                }
                None => match tree {
                    Some(tree) => Ok(Parsed::Tree(tree)),
                    None => unreachable!(),
                },
            }
        }
        Ok(Err(error)) => Ok(Parsed::Unlexed(error)),
        Err(refusal) => Err(refusal),
    }
}

/// Returns the place of a lexeme.
fn place_of_lexeme(lexeme: DefaultLexeme<u32>) -> LrkitPlace
    ensures { result ≡ place_of lexeme }
{
    LrkitPlace {
        token: lexeme.tok_id,
        start: lexeme.span.start(),
        end: lexeme.span.end(),
    }
}

/// Writes a tree, where it fits.
fn put_tree(kit: &ParserKit<u32>, from: &[WordNode], nodes: &mut [LrkitNode]) -> LrkitAnswer
    ensures { Puts statuses.Done (nodes_of kit.now.parser.grammar.grammar (pieces_of itself from.now)) nodes.old nodes.new result }
{
    if nodes.len() < from.len() {
        return answer(Status::Room, from.len());
    }
    put_nodes(kit.grm(), from, nodes);
    answer(Status::Done, from.len())
}

/// Writes what is found.
fn put_parsed(
    kit: &ParserKit<u32>,
    parsed: &Parsed,
    nodes: &mut [LrkitNode],
    error: &mut LrkitPlace,
) -> LrkitAnswer
    ensures { WritesParsed kit.now.parser.grammar.grammar parsed.now nodes.old nodes.new error.old error.new result }
{
    match parsed {
        Parsed::Tree(tree) => put_tree(kit, tree.nodes(), nodes),
        Parsed::Unlexed(fault) => {
            *error = place_of_lexing(*fault);
            answer(Status::Unlexed, 0)
        }
        Parsed::Unparsed(lexeme) => {
            *error = place_of_lexeme(*lexeme);
            answer(Status::Syntax, 0)
        }
    }
}

/// Returns the status of a refusal.
pub fn status_of(refusal: &ParseRefusal) -> Status
    ensures { result ≡ status_for refusal.now }
{
    match refusal {
        ParseRefusal::Memory(_) => Status::Memory,
        ParseRefusal::LexemeOutside(_) => Status::Lexemes,
        ParseRefusal::StartDecreases(_) => Status::Lexemes,
    }
}

/// Writes what is found, or why nothing is.
fn put_found(
    kit: &ParserKit<u32>,
    found: &Result<Parsed, ParseRefusal>,
    nodes: &mut [LrkitNode],
    error: &mut LrkitPlace,
) -> LrkitAnswer
    ensures { WritesFound kit.now.parser.grammar.grammar found.now nodes.old nodes.new error.old error.new result }
{
    match found {
        Ok(parsed) => put_parsed(kit, parsed, nodes, error),
        Err(refusal) => answer(status_of(refusal), 0),
    }
}

/// Parses the lexemes of a list, and writes what is found.
fn answer_lexed(
    alloc: Global,
    kit: &ParserKit<u32>,
    lexer: &WordLexer<'_>,
    nodes: &mut [LrkitNode],
    error: &mut LrkitPlace,
) -> LrkitAnswer
    ensures { AnswersParse kit.now.parser lexer.now.items nodes.old nodes.new error.old error.new result }
{
    let found = parse_lexed(alloc, kit, lexer);
    let put = put_found(kit, &found, nodes, error);
    drop(found);
    put
}

/// Parses C's lexemes.
fn parse_lexemes(
    alloc: Global,
    kit: &ParserKit<u32>,
    lexemes: &[LrkitLexeme],
) -> Result<Parsed, ParseRefusal>
    ensures parsed { IfOk result (IsParsed kit.now.parser (items_of lexemes.now)) }
    ensures refused { IfErr result (IsParseRefusal kit.now.parser.grammar.grammar lexeme_lex (items_of lexemes.now)) }
{
    match lexer_of(alloc, lexemes) {
        Ok(lexer) => {
            let found = parse_lexed(alloc, kit, &lexer);
            drop(lexer);
            found
        }
        Err(e) => Err(ParseRefusal::Memory(e)),
    }
}

/// Parses C's lexemes, and writes what is found.
fn answer_lexemes(
    alloc: Global,
    kit: &ParserKit<u32>,
    lexemes: &[LrkitLexeme],
    nodes: &mut [LrkitNode],
    error: &mut LrkitPlace,
) -> LrkitAnswer
    ensures { AnswersParse kit.now.parser (items_of lexemes.now) nodes.old nodes.new error.old error.new result }
{
    let found = parse_lexemes(alloc, kit, lexemes);
    let put = put_found(kit, &found, nodes, error);
    drop(found);
    put
}

/// Lexes and parses a text, and writes what is found.
fn answer_text(
    alloc: Global,
    held: &Held,
    text: &[u8],
    nodes: &mut [LrkitNode],
    error: &mut LrkitPlace,
) -> LrkitAnswer
    ensures { AnswersText held.now text.now nodes.old nodes.new error.old error.new result }
{
    match lexer_of_text(alloc, held, text) {
        Ok(lexer) => {
            let put = answer_lexed(alloc, &held.kit, &lexer, nodes, error);
            drop(lexer);
            put
        }
        Err(status) => answer(status, 0),
    }
}

/// Parses lexemes: the nodes of the tree, or the place of the first error.
#[unsafe(no_mangle)]
pub extern "C" fn lrkit_parse(
    alloc: Global,
    parser: &mut LrkitParser,
    lexemes: &[LrkitLexeme],
    nodes: &mut [LrkitNode],
    error: &mut LrkitPlace,
) -> LrkitAnswer
    requires { IsSome parser.old.value }
    ensures parser { parser.new.value ≡ parser.old.value }
    ensures answer { IfSome parser.old.value (λ h. AnswersParse h.kit.parser (items_of lexemes.now) nodes.old nodes.new error.old error.new result) }
{
    let held = parser.take(alloc);
    let put = answer_lexemes(alloc, &held.kit, lexemes, nodes, error);
    parser.put(held);
    put
}

/// Lexes and parses a text: the nodes of the tree, or the place of the first error.
#[unsafe(no_mangle)]
pub extern "C" fn lrkit_parse_text(
    alloc: Global,
    parser: &mut LrkitParser,
    text: &[u8],
    nodes: &mut [LrkitNode],
    error: &mut LrkitPlace,
) -> LrkitAnswer
    requires { IsSome parser.old.value }
    ensures parser { parser.new.value ≡ parser.old.value }
    ensures answer { IfSome parser.old.value (λ h. AnswersText h text.now nodes.old nodes.new error.old error.new result) }
{
    let held = parser.take(alloc);
    let put = answer_text(alloc, &held, text, nodes, error);
    parser.put(held);
    put
}

/// Returns the status of a refusal of texts.
fn status_of_texts(refusal: &Refusal) -> Status
    ensures { number_of result ≡ number_for refusal.now }
{
    match refusal {
        Refusal::Memory => Status::Memory,
        Refusal::NotUtf8 => Status::NotUtf8,
        Refusal::Grammar(_) => Status::Grammar,
        Refusal::Lexer(_) => Status::Lexer,
    }
}

/// Lexes and parses a text by the texts of a grammar and a lexer, and keeps nothing.
#[unsafe(no_mangle)]
pub extern "C" fn lrkit_parse_once(
    alloc: Global,
    grammar: &[u8],
    lexer: &[u8],
    text: &[u8],
    nodes: &mut [LrkitNode],
    error: &mut LrkitPlace,
) -> LrkitAnswer
    ensures { AnswersOnce grammar.now lexer.now text.now nodes.old nodes.new error.old error.new result }
{
    match make_held(alloc, grammar, lexer) {
        Ok(held) => {
            let put = answer_text(alloc, &held, text, nodes, error);
            drop(held);
            put
        }
        Err(refusal) => {
            let status = status_of_texts(&refusal);
            drop(refusal);
            answer(status, 0)
        }
    }
}
