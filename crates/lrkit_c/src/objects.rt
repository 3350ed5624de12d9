//! Parses of lexemes and of texts as JSON objects, which `lrkit-parse --json` writes too.

ghost use Rattle.std.specs.Prelude.{◌≡◌, [], IfErr, IfOk, IfSome, IsSome, string_bytes};
ghost use Rattle.text_parses.specs.AskedTexts.{asked_of};
ghost use Rattle.lrkit_c.specs.Errors.{IsParseStatus};
ghost use Rattle.lrkit_c.specs.Objects.{AnswersLexemeObject, AnswersObject, AnswersTextObject, HasObject, PutsObject, asked_as_object};
ghost use Rattle.lrkit_c.specs.Parses.{items_of};

use crate::answers::{LrkitAnswer, answer, put_text};
use crate::errors::parse_repaired;
use crate::handle::LrkitParser;
use crate::held::Held;
use crate::lexemes::{LrkitLexeme, WordLexer, lexer_of};
use crate::lexing::lexer_of_text;
use crate::status::Status;
use parser_kit::ParserKit;
use std::alloc::Global;
use text_parses::{Form, Input, object_text};

/// Returns what is asked of a text.
fn input_of<'t>(path: &'t str, text: &'t str, edits: usize) -> Input<'t>
    ensures { asked_of result ≡ asked_as_object path.entry.now text.entry.now edits }
{
    Input {
        path,
        text,
        form: Form::Json,
        named: false,
        edits,
        listed: false,
        next: false,
    }
}

/// Parses lexemes of a text, and returns what is found as an object, a line.
fn find_object(
    alloc: Global,
    kit: &ParserKit<u32>,
    lexer: &WordLexer<'_>,
    input: Input<'_>,
) -> Result<String, Status>
    ensures object { IfOk result (λ line. HasObject kit.now.parser lexer.now.items (asked_of input.entry) (string_bytes line)) }
    ensures refused { IfErr result (IsParseStatus kit.now.parser.grammar.grammar lexer.now.items) }
{
    match parse_repaired(alloc, kit, lexer, input.edits) {
        Ok(parsed) => {
            let made = object_text(alloc, kit, lexer, &parsed, input);
            drop(parsed);
            match made {
                Ok(line) => Ok(line),
                Err(_) => Err(Status::Memory),
            }
        }
        Err(refused) => Err(refused),
    }
}

/// Writes an object, or why there is none.
fn put_object(found: &Result<String, Status>, out: &mut [u8]) -> LrkitAnswer
    ensures { PutsObject found.now out.old out.new result }
{
    match found {
        Ok(line) => put_text(Status::Done, line.as_bytes(), out),
        Err(refused) => answer(*refused, 0),
    }
}

/// Parses lexemes of a text, and writes what is found as an object.
fn answer_object(
    alloc: Global,
    kit: &ParserKit<u32>,
    lexer: &WordLexer<'_>,
    input: Input<'_>,
    out: &mut [u8],
) -> LrkitAnswer
    ensures { AnswersObject kit.now.parser lexer.now.items (asked_of input.entry) out.old out.new result }
{
    let found = find_object(alloc, kit, lexer, input);
    let put = put_object(&found, out);
    drop(found);
    put
}

/// Parses C's lexemes of a text, and writes what is found as an object with an empty path.
fn answer_pathless_object(
    alloc: Global,
    kit: &ParserKit<u32>,
    lexemes: &[LrkitLexeme],
    text: &str,
    edits: usize,
    out: &mut [u8],
) -> LrkitAnswer
    ensures { AnswersObject kit.now.parser (items_of lexemes.now) (asked_as_object [] text.now edits) out.old out.new result }
{
    match lexer_of(alloc, lexemes) {
        Ok(lexer) => {
            let put = answer_object(alloc, kit, &lexer, input_of("", text, edits), out);
            drop(lexer);
            put
        }
        Err(_) => answer(Status::Memory, 0),
    }
}

/// Parses C's lexemes of a text of bytes, and writes what is found as an object.
fn answer_lexeme_object(
    alloc: Global,
    kit: &ParserKit<u32>,
    lexemes: &[LrkitLexeme],
    text: &[u8],
    edits: usize,
    out: &mut [u8],
) -> LrkitAnswer
    ensures { AnswersLexemeObject kit.now.parser (items_of lexemes.now) text.now edits out.old out.new result }
{
    match std::str::from_utf8(text) {
        Ok(text) => answer_pathless_object(alloc, kit, lexemes, text, edits, out),
        Err(_) => answer(Status::NotUtf8, 0),
    }
}

/// Lexes and parses a text, and writes what is found as an object with this path.
fn answer_shown_object(
    alloc: Global,
    held: &Held,
    text: &str,
    path: &str,
    edits: usize,
    out: &mut [u8],
) -> LrkitAnswer
    ensures { AnswersTextObject held.now text.now path.now edits out.old out.new result }
{
    match lexer_of_text(alloc, held, text.as_bytes()) {
        Ok(lexer) => {
            let put = answer_object(alloc, &held.kit, &lexer, input_of(path, text, edits), out);
            drop(lexer);
            put
        }
        Err(status) => answer(status, 0),
    }
}

/// Lexes and parses a text, and writes what is found as an object with a path of bytes.
fn answer_path_object(
    alloc: Global,
    held: &Held,
    text: &str,
    path: &[u8],
    edits: usize,
    out: &mut [u8],
) -> LrkitAnswer
    ensures { AnswersTextObject held.now text.now path.now edits out.old out.new result }
{
    match std::str::from_utf8(path) {
        Ok(path) => answer_shown_object(alloc, held, text, path, edits, out),
        Err(_) => answer(Status::NotUtf8, 0),
    }
}

/// Lexes and parses a text of bytes, and writes what is found as an object with a path of bytes.
fn answer_text_object(
    alloc: Global,
    held: &Held,
    text: &[u8],
    path: &[u8],
    edits: usize,
    out: &mut [u8],
) -> LrkitAnswer
    ensures { AnswersTextObject held.now text.now path.now edits out.old out.new result }
{
    match std::str::from_utf8(text) {
        Ok(text) => answer_path_object(alloc, held, text, path, edits, out),
        Err(_) => answer(Status::NotUtf8, 0),
    }
}

/// Parses lexemes of a text, and writes one JSON object, a line: the nodes of the tree, or all errors, each with the tokens that may
/// come there and its repairs, of at most `edits` insertions and deletions. The object's path is empty.
#[unsafe(no_mangle)]
pub extern "C" fn lrkit_parse_json(
    alloc: Global,
    parser: &mut LrkitParser,
    lexemes: &[LrkitLexeme],
    text: &[u8],
    edits: usize,
    out: &mut [u8],
) -> LrkitAnswer
    requires { IsSome parser.old.value }
    ensures parser { parser.new.value ≡ parser.old.value }
    ensures answer { IfSome parser.old.value (λ h. AnswersLexemeObject h.kit.parser (items_of lexemes.now) text.now edits out.old out.new result) }
{
    let held = parser.take(alloc);
    let put = answer_lexeme_object(alloc, &held.kit, lexemes, text, edits, out);
    parser.put(held);
    put
}

/// Lexes and parses a text, and writes the object of `lrkit_parse_json` with this path.
#[unsafe(no_mangle)]
pub extern "C" fn lrkit_parse_text_json(
    alloc: Global,
    parser: &mut LrkitParser,
    text: &[u8],
    path: &[u8],
    edits: usize,
    out: &mut [u8],
) -> LrkitAnswer
    requires { IsSome parser.old.value }
    ensures parser { parser.new.value ≡ parser.old.value }
    ensures answer { IfSome parser.old.value (λ h. AnswersTextObject h text.now path.now edits out.old out.new result) }
{
    let held = parser.take(alloc);
    let put = answer_text_object(alloc, &held, text, path, edits, out);
    parser.put(held);
    put
}
