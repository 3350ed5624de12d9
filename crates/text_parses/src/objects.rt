//! The parse of a text as plain values, and as a JSON object.

ghost use Rattle.std.specs.Prelude.{◌≡◌, ◌↔◌, IfOk, IsSome, IsTrue, None, OnOk, string_bytes};
ghost use Rattle.report_forms.specs.Within.{range_numbers, range_numbers_at};
ghost use Rattle.text_parses.specs.AskedTexts.{asked_in, asked_of, shown_in};
ghost use Rattle.text_parses.specs.ParseObjects.{IsTextObject, IsParseOf, WritesObject, error_places, places_of};
ghost use Rattle.text_parses.specs.Parses.{placed};
ghost use Rattle.text_parses.specs.declared.parsing.Parsed.TheVariants.{Tree, Unlexed, Unparsed};

use crate::answer_fault::AnswerFault;
use crate::errors::{lex_message, span_in_source};
use crate::expected::{Reader, message_of};
use crate::form::{Input, Shown};
use crate::names::{Grammar, names_of, shown_token};
use crate::next::next_of;
use crate::nodes::nodes_of;
use crate::parsing::{Parsed, WordError, WordLexer, WordTree};
use byte_streams::{Sink, write_all};
use cfg_base::symbol::TIdx;
use lrlex::{DefaultLexeme, LRLexError};
use lrpar::ParseRepair;
use parser_kit::ParserKit;
use report_forms::{Parse, Step, TextError, parse_json, range_at};
use std::alloc::{AllocError, Global};
use text_messages::{Source, part};

/// The version of the object.
const VERSION: u32 = 1;

/// Returns a step of a repair.
fn step_of<'a>(
    grm: &'a Grammar,
    input: &'a str,
    step: &ParseRepair<DefaultLexeme<u32>, u32>,
) -> Step<'a> {
    let (edit, token, span) = match step {
        ParseRepair::Insert(token) => ("insert", *token, None),
        ParseRepair::Delete(lexeme) => ("delete", TIdx(lexeme.tok_id), Some(lexeme.span)),
        ParseRepair::Shift(lexeme) => ("shift", TIdx(lexeme.tok_id), Some(lexeme.span)),
    };
    let token = shown_token(grm, token);
    let text = match span {
        Some(span) => Some(part(input, span.start(), span.end())),
        None => None,
    };
    Step { edit, token, text }
}

/// Returns the steps of a repair.
fn steps_of<'a>(
    alloc: Global,
    grm: &'a Grammar,
    input: &'a str,
    repair: &[ParseRepair<DefaultLexeme<u32>, u32>],
) -> Result<Vec<Step<'a>>, AllocError> {
    let mut steps = Vec::new(alloc);
    'steps: for step in repair {
        steps.push(step_of(grm, input, step))?;
    }
    Ok(steps)
}

/// Returns the repairs of an error.
fn repairs_of<'a>(
    alloc: Global,
    grm: &'a Grammar,
    input: &'a str,
    error: &WordError,
) -> Result<Vec<Vec<Step<'a>>>, AllocError> {
    let mut repairs = Vec::new(alloc);
    'repairs: for repair in &error.repairs {
        repairs.push(steps_of(alloc, grm, input, repair.as_slice())?)?;
    }
    Ok(repairs)
}

/// Returns an error of the parse, and goes behind it.
fn error_value<'a>(
    alloc: Global,
    reader: &mut Reader<'a>,
    shown: Shown<'a>,
    error: &WordError,
) -> Result<TextError<'a>, AllocError>
    ensures { IfOk result (λ e. range_numbers e.range ≡ range_numbers_at shown.entry.source.now (placed shown.entry.start error.now.lexeme.span)) }
{
    let bits = reader.expected(alloc, error)?;
    let message = message_of(alloc, reader.grm(), error, &bits)?;
    let expected = names_of(alloc, reader.grm(), &bits)?;
    let repairs = repairs_of(alloc, reader.grm(), shown.input.text, error)?;
    Ok(TextError {
        message,
        range: range_at(shown.source, span_in_source(shown.start, error.lexeme.span)),
        expected,
        repairs,
    })
}

/// Returns the errors of the parse, in their order.
fn error_values<'a>(
    alloc: Global,
    reader: &mut Reader<'a>,
    shown: Shown<'a>,
    errors: &[WordError],
) -> Result<Vec<TextError<'a>>, AllocError>
    ensures { IfOk result (λ v. places_of v.items ≡ error_places shown.entry.source.now shown.entry.start errors.now) }
{
    let mut values = Vec::new(alloc);
    'errors: for error in errors {
        values.push(error_value(alloc, reader, shown, error)?)?;
    }
    Ok(values)
}

/// Returns the object of a text with a tree or with errors.
fn object_of<'a>(shown: Shown<'a>, errors: Vec<TextError<'a>>) -> Parse<'a>
    ensures version { result.version ≡ 1 }
    ensures path { result.path.now ≡ shown.entry.input.path.now }
    ensures line { result.line ≡ shown.entry.line }
    ensures told { result.errors ≡ errors.entry }
    ensures tree { result.tree ≡ None }
{
    Parse {
        version: VERSION,
        path: shown.input.path,
        line: shown.line,
        errors,
        tree: None,
        next: None,
    }
}

/// Returns the object of a text with a tree.
fn tree_object<'a>(
    alloc: Global,
    grm: &'a Grammar,
    shown: Shown<'a>,
    tree: &WordTree,
) -> Result<Parse<'a>, AllocError>
    ensures { IfOk result (IsParseOf grm.entry.now (asked_in shown.entry) (Tree tree.now)) }
{
    let nodes = nodes_of(alloc, grm, shown.input.text, tree)?;
    let mut object = object_of(shown, Vec::new(alloc));
    object.tree = Some(nodes);
    Ok(object)
}

/// Returns the object of a text with an error of the lexer.
fn unlexed_object<'a>(
    alloc: Global,
    grm: &'a Grammar,
    shown: Shown<'a>,
    error: LRLexError,
) -> Result<Parse<'a>, AllocError>
    ensures { IfOk result (IsParseOf grm.entry.now (asked_in shown.entry) (Unlexed error)) }
{
    let range = range_at(shown.source, span_in_source(shown.start, error.span));
    let message = String::from_str(alloc, lex_message(shown, error))?;
    let mut errors = Vec::new(alloc);
    errors.push(TextError {
        message,
        range,
        expected: Vec::new(alloc),
        repairs: Vec::new(alloc),
    })?;
    Ok(object_of(shown, errors))
}

/// Returns the object of a text with errors of the parse.
fn unparsed_object<'a>(
    alloc: Global,
    kit: &'a ParserKit<u32>,
    shown: Shown<'a>,
    lexer: &WordLexer<'_>,
    errors: &Vec<WordError>,
) -> Result<Parse<'a>, AllocError>
    ensures { IfOk result (IsParseOf kit.entry.now.parser.grammar (asked_in shown.entry) (Unparsed errors.now)) }
{
    let mut reader = Reader::new(alloc, kit, lexer)?;
    let values = error_values(alloc, &mut reader, shown, errors.as_slice());
    drop(reader);
    Ok(object_of(shown, values?))
}

/// Returns the object of a text.
fn parse_object<'a>(
    alloc: Global,
    kit: &'a ParserKit<u32>,
    shown: Shown<'a>,
    lexer: &WordLexer<'_>,
    parsed: &Parsed,
) -> Result<Parse<'a>, AllocError>
    ensures { IfOk result (IsParseOf kit.entry.now.parser.grammar (asked_in shown.entry) parsed.now) }
{
    match parsed {
        Parsed::Tree(tree) => tree_object(alloc, kit.grm(), shown, tree),
        Parsed::Unlexed(error) => unlexed_object(alloc, kit.grm(), shown, *error),
        Parsed::Unparsed(errors) => unparsed_object(alloc, kit, shown, lexer, errors),
    }
}

/// Returns the names of the tokens that may come at the first error of a text, else at its end, if they are asked for.
fn next_names<'a>(
    alloc: Global,
    kit: &'a ParserKit<u32>,
    shown: Shown<'_>,
    lexer: &WordLexer<'_>,
) -> Result<Option<Vec<&'a str>>, AllocError>
    ensures { IfOk result (λ names. IsTrue shown.entry.input.next ↔ IsSome names) }
{
    if !shown.input.next {
        return Ok(None);
    }
    let next = next_of(alloc, kit, lexer)?;
    let names = names_of(alloc, kit.grm(), &next.bits)?;
    Ok(Some(names))
}

/// Returns what is found of a text as one JSON object, a line.
fn object_line(
    alloc: Global,
    kit: &ParserKit<u32>,
    shown: Shown<'_>,
    lexer: &WordLexer<'_>,
    parsed: &Parsed,
) -> Result<String, AnswerFault>
    ensures { IfOk result (λ line. IsTextObject kit.now.parser.grammar (asked_in shown.entry) parsed.now (string_bytes line)) }
{
    let mut object = parse_object(alloc, kit, shown, lexer, parsed)?;
    object.next = next_names(alloc, kit, shown, lexer)?;
    let line = parse_json(alloc, &object);
    drop(object);
    match line {
        Ok(line) => Ok(line),
        Err(_) => Err(AnswerFault::Unwritten),
    }
}

/// Returns what `parse_lexed` found of a text as one JSON object, a line. It is the object that `answer_text` writes.
///
/// # Errors
///
/// Where memory is refused.
pub fn object_text(
    alloc: Global,
    kit: &ParserKit<u32>,
    lexer: &WordLexer<'_>,
    parsed: &Parsed,
    input: Input<'_>,
) -> Result<String, AnswerFault>
    ensures { IfOk result (λ line. IsTextObject kit.now.parser.grammar (asked_of input.entry) parsed.now (string_bytes line)) }
{
    let source = Source::new(alloc, input.text, input.path)?;
    let shown = Shown {
        input,
        source: &source,
        start: 0,
        line: None,
    };
    let line = object_line(alloc, kit, shown, lexer, parsed);
    drop(source);
    line
}

/// Returns what `parse_lexed` found of a text as plain values, with the places of the source.
///
/// # Errors
///
/// Where memory is refused.
pub fn parse_value<'a>(
    alloc: Global,
    kit: &'a ParserKit<u32>,
    lexer: &WordLexer<'_>,
    parsed: &Parsed,
    source: &'a Source<'a>,
    input: Input<'a>,
) -> Result<Parse<'a>, AllocError>
    ensures { IfOk result (IsParseOf kit.entry.now.parser.grammar (shown_in source.entry.now 0 None (asked_of input.entry)) parsed.now) }
{
    let shown = Shown {
        input,
        source,
        start: 0,
        line: None,
    };
    parse_object(alloc, kit, shown, lexer, parsed)
}

/// Writes what is found of a text as one JSON object on a line.
pub(crate) fn write_object<W: Sink>(
    alloc: Global,
    kit: &ParserKit<u32>,
    shown: Shown<'_>,
    lexer: &WordLexer<'_>,
    parsed: &Parsed,
    out: &mut W,
) -> Result<(), AnswerFault>
    ensures { OnOk result (WritesObject kit.now.parser.grammar (asked_in shown.entry) parsed.now (W.known out.old) (W.known out.new)) }
{
    let line = object_line(alloc, kit, shown, lexer, parsed)?;
    write_all(out, line.as_bytes())?;
    Ok(())
}
