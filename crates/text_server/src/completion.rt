//! What may come at a place of a text.

ghost use Rattle.std.specs.Prelude.{◌≡◌, ◌≤◌, IfOk, None};
ghost use Rattle.language_server.specs.Protocol.{error_in};
ghost use Rattle.text_server.specs.Fronts.{IsExpected, fronts, has_error_before};

use cfg_base::index::IndexStorage;
use language_server::{Answer, Asked, Item, Position, ServeFault};
use lrlex::{BoundRules, DefaultLexeme, LRLexError};
use lrpar::Lexer;
use parser_kit::ParserKit;
use std::alloc::{AllocError, Global};
use text_parses::{Grammar, WordLexer, shown_name};
use vob::Vob;

/// The protocol's number for the kind of item that a token is.
const TOKEN: u8 = 21;

/// Returns whether a byte may be in a word.
fn is_word_byte(byte: u8) -> bool {
    byte.is_ascii_alphanumeric() || byte == b'_' || byte >= 0x80
}

/// Returns where the word begins that ends at an offset; the offset where none does.
fn word_start(text: &str, offset: usize) -> usize
    ensures { result ≤ offset }
{
    let ahead = text.as_bytes().get(..offset).unwrap_or(&[]);
    match ahead.iter().rposition(|byte| !is_word_byte(*byte)) {
        Some(at) => at.saturating_add(1).min(offset),
        None => 0,
    }
}

/// Returns the lexemes up to the first that ends behind an offset.
fn lexemes_before(
    alloc: Global,
    items: &[Result<DefaultLexeme<u32>, LRLexError>],
    cut: usize,
) -> Result<Vec<DefaultLexeme<u32>>, AllocError>
    ensures { IfOk result (λ v. v.items ≡ fronts cut items.now) }
{
    let mut lexemes = Vec::new(alloc);
    'items: for item in items {
        match item {
            Ok(lexeme) if lexeme.span.end() <= cut => lexemes.push(*lexeme)?,
            _ => return Ok(lexemes),
        }
    }
    Ok(lexemes)
}

/// Returns whether the lexer has an error before an offset.
fn has_error_before(items: &[Result<DefaultLexeme<u32>, LRLexError>], cut: usize) -> bool
    ensures { result ≡ has_error_before cut items.now }
{
    'items: for item in items {
        if let Err(error) = item {
            if error.span.start() < cut {
                return true;
            }
        }
    }
    false
}

/// Returns which tokens may come behind lexemes, a bit for each; none where the lexemes have an error.
fn expected_bits(
    alloc: Global,
    kit: &ParserKit<u32>,
    items: &[Result<DefaultLexeme<u32>, LRLexError>],
    cut: usize,
) -> Result<Option<Vob>, AllocError>
    ensures { IfOk result (IsExpected kit.now.parser (fronts cut items.now)) }
{
    let lexemes = lexemes_before(alloc, items, cut)?;
    match kit.parser_data().next_tokens(alloc, lexemes.as_slice())? {
        Some(bits) => Ok(Some(bits)),
        None => Ok(None),
    }
}

/// Adds the tokens whose bits are set, but for the end token, by the texts that messages show.
fn push_tokens(
    alloc: Global,
    grm: &Grammar,
    bits: &Vob,
    list: &mut Vec<Item>,
) -> Result<(), AllocError> {
    'tokens: for token in 0..grm.tokens_len().0.to_usize() {
        let tidx = grm.token_at(token);
        if bits.get(token) == Some(true) && tidx != grm.eof_token_idx() {
            let label = String::from_str(alloc, shown_name(grm, tidx))?;
            list.push(Item { label, kind: TOKEN })?;
        }
    }
    Ok(())
}

/// Returns what may come behind the lexemes before an offset: nothing where these have an error.
fn items_at(
    alloc: Global,
    kit: &ParserKit<u32>,
    lexer: &WordLexer<'_>,
    cut: usize,
) -> Result<Vec<Item>, AllocError> {
    let items = lexer.iter().as_slice();
    let mut list = Vec::new(alloc);
    if has_error_before(items, cut) {
        return Ok(list);
    }
    if let Some(bits) = expected_bits(alloc, kit, items, cut)? {
        push_tokens(alloc, kit.grm(), &bits, &mut list)?;
    }
    Ok(list)
}

/// Answers which tokens may come at a place: those behind the lexemes that end before it. A word that ends at the place counts as
/// one that is being written, and the tokens are those that may come in its place.
pub fn completion_answer(
    alloc: Global,
    kit: &ParserKit<u32>,
    bound: &BoundRules<'_, u32>,
    asked: &Asked<'_>,
    place: Option<Position>,
) -> Result<Answer, ServeFault>
    ensures { IfOk result (λ a. error_in a ≡ None) }
{
    let Some(place) = place else {
        return Ok(Answer::Done);
    };
    let cut = word_start(asked.text, asked.offset(place));
    let lexer = bound.lex(alloc, asked.text)?;
    let items = items_at(alloc, kit, &lexer, cut);
    drop(lexer);
    match items {
        Ok(items) => Ok(Answer::Items(items)),
        Err(e) => Err(ServeFault::Memory(e)),
    }
}
