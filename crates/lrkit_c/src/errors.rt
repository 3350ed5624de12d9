//! All errors of lexemes and of texts, with their repairs.

ghost use Rattle.std.specs.Prelude.{◌≡◌, IfErr, IfOk, IfSome, IsSome};
ghost use Rattle.std.specs.List.{flat_map};
ghost use Rattle.text_parses.specs.Parses.{IsParsed};
ghost use Rattle.text_parses.specs.declared.parsing.Parsed.TheVariants.{Unparsed};
ghost use Rattle.lrkit_c.specs.Errors.{AnswersErrors, AnswersTextErrors, HasErrors, IsMarked, IsParseStatus, PutsErrors, lexeme_in, status_found};
ghost use Rattle.lrkit_c.specs.Parses.{items_of};

use crate::answers::{LrkitAnswer, answer, put_all};
use crate::handle::LrkitParser;
use crate::held::Held;
use crate::lexemes::{Item, LrkitLexeme, WordLexer, lexer_of};
use crate::lexing::lexer_of_text;
use crate::marks::{LrkitMark, fault_mark};
use crate::parsing::status_of;
use crate::reading::marks_of_errors;
use crate::status::Status;
use lrlex::DefaultLexeme;
use lrpar::Lexer;
use parser_kit::ParserKit;
use std::alloc::{AllocError, Global};
use text_parses::{Parsed, WordError, parse_lexed};

/// Parses lexemes with repairs of at most `edits` edits.
pub fn parse_repaired(
    alloc: Global,
    kit: &ParserKit<u32>,
    lexer: &WordLexer<'_>,
    edits: usize,
) -> Result<Parsed, Status>
    ensures parsed { IfOk result (IsParsed kit.now.parser lexer.now.items edits) }
    ensures refused { IfErr result (IsParseStatus kit.now.parser.grammar.grammar lexer.now.items) }
{
    match parse_lexed(alloc, kit, lexer, edits) {
        Ok(parsed) => Ok(parsed),
        Err(refusal) => Err(status_of(&refusal)),
    }
}

/// Returns the lexemes of items.
fn lexemes_in(alloc: Global, items: &[Item]) -> Result<Vec<DefaultLexeme<u32>>, AllocError>
    ensures { IfOk result (λ v. v.items ≡ flat_map lexeme_in items.now) }
{
    let mut lexemes = Vec::new(alloc);
    'items: for index in 0..items.len() {
        if let Ok(lexeme) = items[index] {
            lexemes.push(lexeme)?;
        }
    }
    Ok(lexemes)
}

/// What is found of lexemes: how the call ends, and the marks of the errors.
#[derive(Drop)]
struct Marked {
    status: Status,
    marks: Vec<LrkitMark>,
}

/// Returns the marks of errors of a parse.
fn unparsed_marks(
    alloc: Global,
    kit: &ParserKit<u32>,
    lexer: &WordLexer<'_>,
    errors: &Vec<WordError>,
) -> Result<Vec<LrkitMark>, AllocError>
    ensures { IfOk result (λ v. IsMarked kit.now.parser lexer.now.items (Unparsed errors.now) v.items) }
{
    let lexemes = lexemes_in(alloc, lexer.iter().as_slice())?;
    let marks = marks_of_errors(
        alloc,
        kit.parser_data(),
        lexemes.as_slice(),
        errors.as_slice(),
    )?;
    Ok(marks)
}

/// Returns the marks of what is found.
fn marks_found(
    alloc: Global,
    kit: &ParserKit<u32>,
    lexer: &WordLexer<'_>,
    parsed: &Parsed,
) -> Result<Vec<LrkitMark>, AllocError>
    ensures { IfOk result (λ v. IsMarked kit.now.parser lexer.now.items parsed.now v.items) }
{
    match parsed {
        Parsed::Tree(_) => Ok(Vec::new(alloc)),
        Parsed::Unlexed(error) => {
            let mut marks = Vec::new(alloc);
            marks.push(fault_mark(*error))?;
            Ok(marks)
        }
        Parsed::Unparsed(errors) => unparsed_marks(alloc, kit, lexer, errors),
    }
}

/// Returns how a call ends that found this.
fn status_found(parsed: &Parsed) -> Status
    ensures { result ≡ status_found parsed.now }
{
    match parsed {
        Parsed::Tree(_) => Status::Done,
        Parsed::Unlexed(_) => Status::Unlexed,
        Parsed::Unparsed(_) => Status::Syntax,
    }
}

/// Finds the errors of lexemes.
fn find_errors(
    alloc: Global,
    kit: &ParserKit<u32>,
    lexer: &WordLexer<'_>,
    edits: usize,
) -> Result<Marked, Status>
    ensures found { IfOk result (λ m. HasErrors kit.now.parser lexer.now.items edits m.status m.marks.items) }
    ensures refused { IfErr result (IsParseStatus kit.now.parser.grammar.grammar lexer.now.items) }
{
    match parse_repaired(alloc, kit, lexer, edits) {
        Ok(parsed) => {
            let status = status_found(&parsed);
            let marks = marks_found(alloc, kit, lexer, &parsed);
            drop(parsed);
            match marks {
                Ok(marks) => Ok(Marked { status, marks }),
                Err(_) => Err(Status::Memory),
            }
        }
        Err(refused) => Err(refused),
    }
}

/// Writes the marks of errors, or why there are none.
fn put_errors(found: &Result<Marked, Status>, marks: &mut [LrkitMark]) -> LrkitAnswer
    ensures { PutsErrors found.now marks.old marks.new result }
{
    match found {
        Ok(made) => put_all(made.status, made.marks.as_slice(), marks),
        Err(refused) => answer(*refused, 0),
    }
}

/// Finds the errors of lexemes, and writes them.
fn answer_errors(
    alloc: Global,
    kit: &ParserKit<u32>,
    lexer: &WordLexer<'_>,
    edits: usize,
    marks: &mut [LrkitMark],
) -> LrkitAnswer
    ensures { AnswersErrors kit.now.parser lexer.now.items edits marks.old marks.new result }
{
    let found = find_errors(alloc, kit, lexer, edits);
    let put = put_errors(&found, marks);
    drop(found);
    put
}

/// Finds the errors of C's lexemes, and writes them.
fn answer_lexeme_errors(
    alloc: Global,
    kit: &ParserKit<u32>,
    lexemes: &[LrkitLexeme],
    edits: usize,
    marks: &mut [LrkitMark],
) -> LrkitAnswer
    ensures { AnswersErrors kit.now.parser (items_of lexemes.now) edits marks.old marks.new result }
{
    match lexer_of(alloc, lexemes) {
        Ok(lexer) => {
            let put = answer_errors(alloc, kit, &lexer, edits, marks);
            drop(lexer);
            put
        }
        Err(_) => answer(Status::Memory, 0),
    }
}

/// Finds the errors of a text, and writes them.
fn answer_text_errors(
    alloc: Global,
    held: &Held,
    text: &[u8],
    edits: usize,
    marks: &mut [LrkitMark],
) -> LrkitAnswer
    ensures { AnswersTextErrors held.now text.now edits marks.old marks.new result }
{
    match lexer_of_text(alloc, held, text) {
        Ok(lexer) => {
            let put = answer_errors(alloc, &held.kit, &lexer, edits, marks);
            drop(lexer);
            put
        }
        Err(status) => answer(status, 0),
    }
}

/// Parses lexemes, and writes the marks of all errors: each with the tokens that may come there and its repairs, of at most `edits`
/// insertions and deletions. The parse goes on behind an error by its first repair. With 0 edits the first error is the only one.
#[unsafe(no_mangle)]
pub extern "C" fn lrkit_parse_errors(
    alloc: Global,
    parser: &mut LrkitParser,
    lexemes: &[LrkitLexeme],
    edits: usize,
    marks: &mut [LrkitMark],
) -> LrkitAnswer
    requires { IsSome parser.old.value }
    ensures parser { parser.new.value ≡ parser.old.value }
    ensures answer { IfSome parser.old.value (λ h. AnswersErrors h.kit.parser (items_of lexemes.now) edits marks.old marks.new result) }
{
    let held = parser.take(alloc);
    let put = answer_lexeme_errors(alloc, &held.kit, lexemes, edits, marks);
    parser.put(held);
    put
}

/// Lexes and parses a text, and writes the marks of all errors: that of the lexer, or those of the parse as `lrkit_parse_errors`
/// does.
#[unsafe(no_mangle)]
pub extern "C" fn lrkit_parse_text_errors(
    alloc: Global,
    parser: &mut LrkitParser,
    text: &[u8],
    edits: usize,
    marks: &mut [LrkitMark],
) -> LrkitAnswer
    requires { IsSome parser.old.value }
    ensures parser { parser.new.value ≡ parser.old.value }
    ensures answer { IfSome parser.old.value (λ h. AnswersTextErrors h text.now edits marks.old marks.new result) }
{
    let held = parser.take(alloc);
    let put = answer_text_errors(alloc, &held, text, edits, marks);
    parser.put(held);
    put
}
