//! Lexemes of texts.

ghost use Rattle.std.specs.Prelude.{◌≡◌, IfErr, IfOk, IfSome, IsSome};
ghost use Rattle.std.specs.List.{flat_map};
ghost use Rattle.lrkit_c.specs.Lexed.{AnswersLex, HasLexed, IsLexed, IsLexedBy, IsUnlexable, WritesLexemes, first_fault, shown_item};
ghost use Rattle.lrkit_c.specs.Parses.{lexing_place};

use crate::answers::{LrkitAnswer, LrkitPlace, answer, put_all};
use crate::handle::LrkitParser;
use crate::held::Held;
use crate::lexemes::{Item, LrkitLexeme, WordLexer, shown_lexeme};
use crate::status::Status;
use lrlex::{LRLexError, LexRules};
use lrpar::Lexer;
use parser_kit::ParserKit;
use std::alloc::{AllocError, Global};

/// Returns the place of an error of the lexer.
pub fn place_of_lexing(error: LRLexError) -> LrkitPlace
    ensures { result ≡ lexing_place error }
{
    LrkitPlace {
        token: u32::MAX,
        start: error.span.start(),
        end: error.span.end(),
    }
}

/// Lexes a text by rules for the tokens of a kit's grammar.
fn lex_by<'t>(
    alloc: Global,
    kit: &ParserKit<u32>,
    rules: &LexRules,
    text: &'t str,
) -> Result<WordLexer<'t>, AllocError>
    ensures { IfOk result (λ l. IsLexedBy kit.now.parser.grammar rules.now text.entry.now l.items) }
{
    let bound = rules.bind(alloc, kit.grm())?;
    let lexed = bound.lex(alloc, text);
    drop(bound);
    lexed
}

/// Lexes a text by the rules that a parser was made with.
pub fn lexer_of_text<'t>(
    alloc: Global,
    held: &Held,
    text: &'t [u8],
) -> Result<WordLexer<'t>, Status>
    ensures lexed { IfOk result (λ l. IsLexed held.now text.entry.now l.items) }
    ensures refused { IfErr result (IsUnlexable held.now text.entry.now) }
{
    let Ok(text) = std::str::from_utf8(text) else {
        return Err(Status::NotUtf8);
    };
    match &held.rules {
        Some(rules) => match lex_by(alloc, &held.kit, rules, text) {
            Ok(lexer) => Ok(lexer),
            Err(_) => Err(Status::Memory),
        },
        None => Err(Status::NoLexer),
    }
}

/// Returns the first error of items.
fn first_fault(items: &[Item]) -> Option<LRLexError>
    ensures { result ≡ first_fault items.now }
{
    'items: for index in 0..items.len() {
        if let Err(error) = items[index] {
            return Some(error);
        }
    }
    None
}

/// Returns the lexemes of items.
fn shown_lexemes(alloc: Global, items: &[Item]) -> Result<Vec<LrkitLexeme>, AllocError>
    ensures { IfOk result (λ v. v.items ≡ flat_map shown_item items.now) }
{
    let mut lexemes = Vec::new(alloc);
    'items: for index in 0..items.len() {
        if let Ok(lexeme) = items[index] {
            lexemes.push(shown_lexeme(lexeme))?;
        }
    }
    Ok(lexemes)
}

/// Writes lexemes, where they fit, and the place of the error, if there is one.
fn put_lexemes(
    fault: Option<LRLexError>,
    from: &[LrkitLexeme],
    lexemes: &mut [LrkitLexeme],
    error: &mut LrkitPlace,
) -> LrkitAnswer
    ensures { WritesLexemes fault from.now lexemes.old lexemes.new error.old error.new result }
{
    match fault {
        Some(fault) => {
            *error = place_of_lexing(fault);
            put_all(Status::Unlexed, from, lexemes)
        }
        None => put_all(Status::Done, from, lexemes),
    }
}

/// What a text has: its lexemes, and its first error.
#[derive(Drop)]
struct Lexed {
    lexemes: Vec<LrkitLexeme>,
    fault: Option<LRLexError>,
}

/// Lexes a text.
fn find_lexemes(alloc: Global, held: &Held, text: &[u8]) -> Result<Lexed, Status>
    ensures lexed { IfOk result (λ l. HasLexed held.now text.now l.lexemes.items l.fault) }
    ensures refused { IfErr result (IsUnlexable held.now text.now) }
{
    let lexer = lexer_of_text(alloc, held, text)?;
    let items = lexer.iter().as_slice();
    let fault = first_fault(items);
    let shown = shown_lexemes(alloc, items);
    drop(lexer);
    match shown {
        Ok(lexemes) => Ok(Lexed { lexemes, fault }),
        Err(_) => Err(Status::Memory),
    }
}

/// Lexes a text, and writes its lexemes.
fn answer_lex(
    alloc: Global,
    held: &Held,
    text: &[u8],
    lexemes: &mut [LrkitLexeme],
    error: &mut LrkitPlace,
) -> LrkitAnswer
    ensures { AnswersLex held.now text.now lexemes.old lexemes.new error.old error.new result }
{
    match find_lexemes(alloc, held, text) {
        Ok(found) => {
            let put = put_lexemes(found.fault, found.lexemes.as_slice(), lexemes, error);
            drop(found);
            put
        }
        Err(status) => answer(status, 0),
    }
}

/// Lexes a text: its lexemes, or those up to the first error.
#[unsafe(no_mangle)]
pub extern "C" fn lrkit_lex(
    alloc: Global,
    parser: &mut LrkitParser,
    text: &[u8],
    lexemes: &mut [LrkitLexeme],
    error: &mut LrkitPlace,
) -> LrkitAnswer
    requires { IsSome parser.old.value }
    ensures parser { parser.new.value ≡ parser.old.value }
    ensures answer { IfSome parser.old.value (λ h. AnswersLex h text.now lexemes.old lexemes.new error.old error.new result) }
{
    let held = parser.take(alloc);
    let put = answer_lex(alloc, &held, text, lexemes, error);
    parser.put(held);
    put
}
