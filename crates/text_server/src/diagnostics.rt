//! The errors of a text as diagnostics.

ghost use Rattle.std.specs.Prelude.{◌≡◌, ◌+◌, IfOk, OnOk, length};
ghost use Rattle.lrlex.specs.Lexing.{bound_meanings, bound_rules};
ghost use Rattle.text_parses.specs.Parses.{IsParsed};
ghost use Rattle.text_server.specs.Found.{Finds, FindsIn, edits, error_count};

use language_server::{Diagnostic, ServeFault, View, diagnostic};
use lrlex::BoundRules;
use lrpar::ParseRefusal;
use parser_kit::ParserKit;
use report_forms::TextError;
use std::alloc::{AllocError, Global};
use text_messages::Source;
use text_parses::{Form, Input, Parsed, WordLexer, parse_lexed, parse_value};

/// How many lexemes a repair deletes and inserts at most, as `lrkit-parse` has it.
const EDITS: usize = 3;

/// The protocol's number for an error.
const ERROR: u8 = 1;

/// Returns what is asked of a text: that which its errors need.
fn input_of<'a>(uri: &'a str, text: &'a str) -> Input<'a> {
    Input {
        path: uri,
        text,
        form: Form::Json,
        named: false,
        edits: EDITS,
        listed: false,
        next: false,
    }
}

/// Parses the lexemes of a text.
pub fn parse_of(
    alloc: Global,
    kit: &ParserKit<u32>,
    lexer: &WordLexer<'_>,
) -> Result<Parsed, ServeFault>
    ensures { IfOk result (IsParsed kit.now.parser lexer.now.items edits) }
{
    match parse_lexed(alloc, kit, lexer, EDITS) {
        Ok(parsed) => Ok(parsed),
        Err(ParseRefusal::Memory(e)) => Err(ServeFault::Memory(e)),
        // Lexemes of a lexer are of the grammar's tokens, and in order.
        Err(_) => Err(ServeFault::Unwritten),
    }
}

/// Adds an error.
fn push_error(
    alloc: Global,
    view: &View<'_>,
    error: &TextError<'_>,
    found: &mut Vec<Diagnostic>,
) -> Result<(), AllocError>
    ensures { OnOk result (length found.new.items ≡ length found.old.items + 1) }
{
    let message = String::from_str(alloc, error.message.as_str())?;
    let range = view.range(error.range.start.byte, error.range.end.byte);
    found.push(diagnostic(alloc, range, ERROR, message))?;
    Ok(())
}

/// Adds errors.
fn push_each(
    alloc: Global,
    view: &View<'_>,
    errors: &[TextError<'_>],
    found: &mut Vec<Diagnostic>,
) -> Result<(), AllocError>
    ensures { OnOk result (length found.new.items ≡ length found.old.items + length errors.now) }
{
    'errors: for index in 0..errors.len() {
        push_error(alloc, view, &errors[index], found)?;
    }
    Ok(())
}

/// Adds the errors of a parse that found no tree.
fn push_unparsed(
    alloc: Global,
    kit: &ParserKit<u32>,
    lexer: &WordLexer<'_>,
    parsed: &Parsed,
    view: &View<'_>,
    found: &mut Vec<Diagnostic>,
) -> Result<(), AllocError>
    ensures { OnOk result (length found.new.items ≡ length found.old.items + error_count parsed.now) }
{
    let source = Source::new(alloc, view.text, view.uri)?;
    let input = input_of(view.uri, view.text);
    let value = parse_value(alloc, kit, lexer, parsed, &source, input)?;
    let pushed = push_each(alloc, view, value.errors.as_slice(), found);
    drop(value);
    drop(source);
    pushed
}

/// Adds the errors of a parse, if it has some.
fn push_parsed(
    alloc: Global,
    kit: &ParserKit<u32>,
    lexer: &WordLexer<'_>,
    parsed: &Parsed,
    view: &View<'_>,
    found: &mut Vec<Diagnostic>,
) -> Result<(), AllocError>
    ensures { OnOk result (length found.new.items ≡ length found.old.items + error_count parsed.now) }
{
    match parsed {
        Parsed::Tree(_) => Ok(()),
        Parsed::Unlexed(_) => push_unparsed(alloc, kit, lexer, parsed, view, found),
        Parsed::Unparsed(_) => push_unparsed(alloc, kit, lexer, parsed, view, found),
    }
}

/// Adds the errors of a text's lexemes, if they have some.
fn push_lexed(
    alloc: Global,
    kit: &ParserKit<u32>,
    lexer: &WordLexer<'_>,
    view: &View<'_>,
    found: &mut Vec<Diagnostic>,
) -> Result<(), ServeFault>
    ensures { OnOk result (FindsIn kit.now.parser lexer.now.items (length found.old.items) (length found.new.items)) }
{
    let parsed = parse_of(alloc, kit, lexer)?;
    let pushed = push_parsed(alloc, kit, lexer, &parsed, view, found);
    drop(parsed);
    match pushed {
        Ok(()) => Ok(()),
        Err(e) => Err(ServeFault::Memory(e)),
    }
}

/// Adds the errors of a text, if it has some: that of its lexer, else each of its parse, which goes on behind an error with a repair.
///
/// # Errors
///
/// Where memory is refused.
pub fn push_errors(
    alloc: Global,
    kit: &ParserKit<u32>,
    bound: &BoundRules<'_, u32>,
    view: &View<'_>,
    found: &mut Vec<Diagnostic>,
) -> Result<(), ServeFault>
    ensures { OnOk result (Finds kit.now.parser (bound_rules bound.now) (bound_meanings bound.now) view.now.text.now (length found.old.items) (length found.new.items)) }
{
    let lexer = bound.lex(alloc, view.text)?;
    let pushed = push_lexed(alloc, kit, &lexer, view, found);
    drop(lexer);
    pushed
}
