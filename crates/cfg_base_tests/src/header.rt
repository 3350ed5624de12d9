//! Tests of sections that rows of texts can't say: single pairs, ten thousand keys, values and errors by themselves. What
//! texts say, or where they fail, are rows of `read_rows`.

ghost use Rattle.std.specs.Prelude.{◌<◌};

use crate::same::{same, text_of};
use cfg_base::span::{Span, Spanned};
use cfg_sections::header::{
    GrmtoolsSectionParser, HeaderError, HeaderErrorKind, KeyValueError, Namespaced, SectionError,
    Setting, Value,
};
use std::alloc::{AllocError, Global};
use std::fmt::Display;
use std::process::Abort;

/// Returns a key, its span, its value and the offset behind it; or an error and its spans.
fn read_pair(alloc: Global, text: &str, i: usize) -> Result<String, AllocError> {
    if i > text.len() {
        return Ok(String::new(alloc));
    }
    match GrmtoolsSectionParser::new(text, false).parse_key_value(alloc, i) {
        Ok((key, span, value, end)) => {
            let shown = format!(in alloc; "{key} {span:?} {value:?} {end}");
            drop(value);
            shown
        }
        Err(KeyValueError::Memory(e)) => Err(e),
        Err(KeyValueError::Invalid(error)) => {
            let spans = error.spans();
            let shown = format!(in alloc; "{error} {spans:?}");
            drop(error);
            shown
        }
    }
}

const SINGLE_PAIRS: &[(&str, usize, &str)] = &[
    (
        "a: 1, b",
        0,
        "a Span { start: 0, end: 1 } Setting(Num(1, Span { start: 3, end: 4 })) 4",
    ),
    (
        "a: 1, b",
        6,
        "b Span { start: 6, end: 7 } Flag(true, Span { start: 6, end: 7 }) 7",
    ),
    (
        "!A }",
        0,
        "a Span { start: 1, end: 2 } Flag(false, Span { start: 0, end: 2 }) 3",
    ),
    (
        "x: [1] ,",
        0,
        "x Span { start: 0, end: 1 } Setting(Array([Num(1, Span { start: 4, end: 5 })], Span { start: 3, end: 4 }, Span { start: 5, end: 6 })) 7",
    ),
    ("}", 0, "Illegal name [Span { start: 0, end: 0 }]"),
    ("a", 1, "Illegal name [Span { start: 1, end: 1 }]"),
    ("a: ", 0, "Illegal name [Span { start: 3, end: 3 }]"),
];

#[test]
fn single_pairs(rt: HostRuntime) -> Result<(), AllocError> {
    'cases: for (text, i, expected) in SINGLE_PAIRS {
        let found = read_pair(rt.alloc(), text, *i)?;
        same(&rt, text, found.as_str(), *expected);
    }
    Ok(())
}

const TEXTS_OF_ERRORS: &[(HeaderErrorKind, &str)] = &[
    (
        HeaderErrorKind::MissingGrmtoolsSection,
        "Missing %grmtools section",
    ),
    (HeaderErrorKind::IllegalName, "Illegal name"),
    (HeaderErrorKind::ExpectedToken('{'), "Expected token '{'"),
    (
        HeaderErrorKind::UnexpectedToken(':', "a hint"),
        "Unexpected token ':'",
    ),
    (HeaderErrorKind::DuplicateEntry, "Duplicate entry"),
    (
        HeaderErrorKind::InvalidEntry("number"),
        "Invalid entry 'number'",
    ),
    (
        HeaderErrorKind::ConversionError("YaccKind", "Unknown variant"),
        "Cannot convert to YaccKind: Unknown variant",
    ),
];

#[test]
fn texts_of_errors(rt: HostRuntime) -> Result<(), AllocError> {
    'cases: for (kind, expected) in TEXTS_OF_ERRORS {
        let found = text_of(rt.alloc(), *kind)?;
        same(&rt, "kind", found.as_str(), *expected);
    }
    Ok(())
}

/// Ends the test unless an error prints this.
fn prints<E: Display + Drop>(
    rt: &impl Abort,
    alloc: Global,
    error: E,
    expected: &str,
) -> Result<(), AllocError> {
    same(rt, "error", text_of(alloc, error)?.as_str(), expected);
    Ok(())
}

/// Makes an error that no text of a section has.
fn unexpected_token(alloc: Global) -> HeaderError<Span> {
    HeaderError {
        kind: HeaderErrorKind::UnexpectedToken(':', "a hint"),
        locations: Vec::new(alloc),
    }
}

// An error without a text of its own prints its kind's name.
#[test]
fn errors_of_calls_print_their_kind(rt: HostRuntime) -> Result<(), AllocError> {
    let alloc = rt.alloc();
    prints(&rt, alloc, SectionError::Memory(AllocError), "Memory")?;
    let errors = SectionError::Invalid(Vec::new(alloc));
    prints(&rt, alloc, errors, "Invalid")?;
    prints(&rt, alloc, KeyValueError::Memory(AllocError), "Memory")?;
    let error = KeyValueError::Invalid(unexpected_token(alloc));
    prints(&rt, alloc, error, "Invalid")?;
    prints(&rt, alloc, unexpected_token(alloc), "Unexpected token ':'")
}

/// Returns the primary location of a value, and drops it.
fn place_of(value: Value<Span>) -> Span {
    let place = *value.primary_location();
    drop(value);
    place
}

fn path_value(alloc: Global, at: Span, elsewhere: Span) -> Result<Value<Span>, AllocError> {
    let word = String::from_str(alloc, "w")?;
    Ok(Value::Setting(Setting::Unitary(Namespaced {
        namespace: Some((String::new(alloc), elsewhere)),
        member: (word, at),
    })))
}

#[test]
fn primary_locations(rt: HostRuntime) -> Result<(), AllocError> {
    let at = Span::new(3, 5);
    let elsewhere = Span::new(0, 1);
    let path = path_value(rt.alloc(), at, elsewhere)?;
    same(&rt, "path", place_of(path), at);
    same(&rt, "flag", place_of(Value::Flag(true, at)), at);
    let number = Value::Setting(Setting::Num(1, at));
    same(&rt, "number", place_of(number), at);
    let array = Value::Setting(Setting::Array(Vec::new(rt.alloc()), at, elsewhere));
    same(&rt, "array", place_of(array), at);
    Ok(())
}

const LETTERS: &[&str] = &["a", "b", "c", "d", "e", "f", "g", "h", "i", "j"];

fn add_letter(text: &mut String, digit: usize) -> Result<(), AllocError>
    requires { digit < 10 }
{
    text.push_str(LETTERS[digit])
}

fn add_pair(text: &mut String, i: usize) -> Result<(), AllocError> {
    add_letter(text, i % 10)?;
    add_letter(text, i / 10 % 10)?;
    add_letter(text, i / 100 % 10)?;
    add_letter(text, i / 1000 % 10)?;
    text.push_str(",")
}

/// Returns where a text's section ends, if it reads.
fn end_of(alloc: Global, text: &str) -> Result<Option<usize>, AllocError> {
    match GrmtoolsSectionParser::new(text, false).parse(alloc) {
        Ok((header, end)) => {
            drop(header);
            Ok(Some(end))
        }
        Err(SectionError::Memory(e)) => Err(e),
        Err(SectionError::Invalid(errors)) => {
            drop(errors);
            Ok(None)
        }
    }
}

#[test]
fn ten_thousand_pairs(rt: HostRuntime) -> Result<(), AllocError> {
    let mut text = String::from_str(rt.alloc(), "%grmtools{")?;
    for i in 0..10_000usize {
        add_pair(&mut text, i)?;
    }
    text.push_str("}")?;
    let end = end_of(rt.alloc(), text.as_str())?;
    same(&rt, "pairs", end, Some(50_011));
    Ok(())
}
