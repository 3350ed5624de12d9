//! Hints for faults of reading, by what stands at the place.

ghost use Rattle.std.specs.Prelude.{◌≡◌, None, IfOk, IfSome};
ghost use Rattle.grammar_hints.specs.Within.{IsWithin};

use crate::hint::Hint;
use cfg_base::span::Span;
use cfg_read::yacc::YaccGrammarErrorKind;
use std::alloc::{AllocError, Global};

/// What is said where a declaration is wanted and the text goes on so.
const DECLARATIONS: &[(&str, &str)] = &[
    ("\u{feff}", "a byte order mark: save the file without it"),
    (
        "%{",
        "no code stands before the rules: leave `%{ .. %}` out; `lrkit-check --bison` reads a Bison file, `lrkit-import` makes a grammar of it",
    ),
    (
        "%union",
        "there is no %union: values have the types of %actiontype, or those of the rules in the kind Grmtools",
    ),
    (
        "%type",
        "there is no %type: rules have types in the kind Grmtools alone, as `E -> T: ..`",
    ),
    (
        "%nterm",
        "there is no %nterm: a rule is declared by its heading",
    ),
    (
        "%precedence",
        "there is no %precedence: %nonassoc is the nearest, which keeps an operator from chaining too",
    ),
    (
        "%define",
        "there is no %define: settings stand in a section `%grmtools{..}`",
    ),
    ("%code", "no code stands before the rules: leave %code out"),
];

const NO_RULES: &str = "no `%%` stands before the rules";

/// What is said where a token is wanted in a list behind this beginning of a text, and the text goes on so.
fn list_words(front: &str, next: Option<char>) -> Option<&'static str> {
    match next {
        Some(':') if front.find("%%").is_none() => Some(NO_RULES),
        Some('<') => Some("tokens have no <types>"),
        Some(',') => Some("a list has no commas: its items stand side by side"),
        Some(c) if c.is_ascii_digit() => Some("a token has no number of its own"),
        _ => None,
    }
}

/// What is said where a declaration is wanted and something else stands.
fn declaration_words(rest: &str) -> Option<&'static str> {
    'words: for (word, words) in DECLARATIONS {
        if rest.starts_with(*word) {
            return Some(*words);
        }
    }
    match rest.chars().next() {
        Some(c) if is_name_char(c) => Some(NO_RULES),
        _ => None,
    }
}

fn is_name_char(c: char) -> bool {
    c.is_ascii_alphanumeric() || c == '_' || c == '.'
}

/// Makes a hint with no place of its own.
fn hint_of_words(alloc: Global, words: Option<&str>) -> Result<Option<Hint>, AllocError>
    ensures { IfOk result (λ o. IfSome o (λ h. h.span ≡ None)) }
{
    let Some(words) = words else {
        return Ok(None);
    };
    let span = None;
    Ok(Some(Hint {
        words: String::from_str(alloc, words)?,
        span,
    }))
}

/// Makes the hint that a `;` is missing behind this beginning of a text.
fn missing_end(alloc: Global, text: &str, front: &str) -> Result<Option<Hint>, AllocError>
    ensures within { IfOk result (λ o. IfSome o (λ h. IsWithin text.now h.span)) }
{
    let end = front.len().min(text.len());
    Ok(Some(Hint {
        words: String::from_str(alloc, "a `;` is missing here")?,
        span: Some(Span::new(end, end)),
    }))
}

/// Returns a hint where an alternative doesn't go on as the text does: the next rule begins there, or what stands behind an
/// action.
fn alternative_hint(
    alloc: Global,
    text: &str,
    front: &str,
    rest: &str,
) -> Result<Option<Hint>, AllocError>
    ensures within { IfOk result (λ o. IfSome o (λ h. IsWithin text.now h.span)) }
{
    let before = front.trim_end();
    if rest.starts_with("%%") {
        return missing_end(alloc, text, before);
    }
    if rest.starts_with(':') || rest.starts_with("->") {
        return missing_end(
            alloc,
            text,
            before.trim_end_matches(is_name_char).trim_end(),
        );
    }
    if before.ends_with('}') {
        return hint_of_words(
            alloc,
            Some(
                "an action stands at the end of its alternative: put what is before it into a rule of its own",
            ),
        );
    }
    Ok(None)
}

/// Returns a hint for a fault of reading at an offset.
pub(crate) fn reading_hint(
    alloc: Global,
    text: &str,
    kind: &YaccGrammarErrorKind,
    offset: usize,
) -> Result<Option<Hint>, AllocError>
    ensures within { IfOk result (λ o. IfSome o (λ h. IsWithin text.now h.span)) }
{
    let front = text.get(..offset).unwrap_or("");
    let rest = text.get(offset..).unwrap_or("");
    match kind {
        YaccGrammarErrorKind::UnknownDeclaration => hint_of_words(alloc, declaration_words(rest)),
        YaccGrammarErrorKind::PrematureEnd => hint_of_words(alloc, Some(NO_RULES)),
        YaccGrammarErrorKind::IllegalName => hint_of_words(
            alloc,
            list_words(front, rest.chars().next()),
        ),
        YaccGrammarErrorKind::IncompleteRule => missing_end(alloc, text, front.trim_end()),
        YaccGrammarErrorKind::ProductionNotTerminated => alternative_hint(alloc, text, front, rest),
        _ => Ok(None),
    }
}
