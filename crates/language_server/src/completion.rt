//! What may be written at a place.

ghost use Rattle.std.specs.Prelude.{◌≡◌, IfOk, None};
ghost use Rattle.language_server.specs.Protocol.{error_in};

use crate::answers::{Answer, Item};
use crate::asked::Asked;
use crate::messages::Params;
use grammar_index::{Occurrence, Role};
use std::alloc::{AllocError, Global};

/// The protocol's numbers of kinds of items.
const RULE: u8 = 3;

const TOKEN: u8 = 21;

const DIRECTIVE: u8 = 14;

/// The words behind a `%` before the rules.
const DECLARATIONS: &[&str] = &[
    "avoid_insert",
    "epp",
    "expect",
    "expect-rr",
    "expect-unused",
    "left",
    "nonassoc",
    "right",
    "start",
    "token",
];

/// The words behind a `%` in an alternative.
const PARTS: &[&str] = &["empty", "prec"];

/// Adds an item.
fn push_item(alloc: Global, list: &mut Vec<Item>, label: &str, kind: u8) -> Result<(), AllocError> {
    let label = String::from_str(alloc, label)?;
    list.push(Item { label, kind })?;
    Ok(())
}

/// Adds words.
fn push_words(alloc: Global, list: &mut Vec<Item>, words: &[&str]) -> Result<(), AllocError> {
    'words: for index in 0..words.len() {
        push_item(alloc, list, words[index], DIRECTIVE)?;
    }
    Ok(())
}

/// Returns whether a byte is a quote.
fn is_quote(byte: Option<&u8>) -> bool {
    byte == Some(&b'\'') || byte == Some(&b'"')
}

/// Returns a name as it is written in an alternative, with its quotes if it has some.
fn label_of<'a>(asked: &Asked<'a>, one: Occurrence) -> &'a str {
    let bytes = asked.text.as_bytes();
    let before = one.start.saturating_sub(1);
    if is_quote(bytes.get(before)) && is_quote(bytes.get(one.end)) {
        return asked.part(before, one.end.saturating_add(1));
    }
    asked.part(one.start, one.end)
}

/// Returns the kind of item that a name is: none of a rule that has no heading.
fn kind_of(one: Occurrence) -> Option<u8> {
    match one.role {
        Role::Head => Some(RULE),
        Role::Declared => Some(TOKEN),
        Role::Token => Some(TOKEN),
        _ => None,
    }
}

/// Collects the names that may be in an alternative, sorted and each once.
fn labels<'a>(alloc: Global, asked: &Asked<'a>) -> Result<Vec<(&'a str, u8)>, AllocError> {
    let names = asked.index.names();
    let mut found = Vec::new(alloc);
    'names: for index in 0..names.len() {
        if let Some(kind) = kind_of(names[index]) {
            found.push((label_of(asked, names[index]), kind))?;
        }
    }
    found.sort()?;
    found.dedup();
    Ok(found)
}

/// Adds the names of rules and tokens.
fn push_labels(alloc: Global, list: &mut Vec<Item>, asked: &Asked<'_>) -> Result<(), AllocError> {
    let found = labels(alloc, asked)?;
    'labels: for index in 0..found.len() {
        let (label, kind) = found[index];
        push_item(alloc, list, label, kind)?;
    }
    Ok(())
}

/// Returns whether a byte may be in a directive's word.
fn is_word_byte(byte: u8) -> bool {
    byte.is_ascii_alphabetic() || byte == b'_' || byte == b'-'
}

/// Returns whether the word that ends at an offset has a `%` before it.
fn is_directive(text: &str, offset: usize) -> bool {
    let ahead = text.as_bytes().get(..offset).unwrap_or(&[]);
    match ahead.iter().rposition(|byte| !is_word_byte(*byte)) {
        Some(at) => ahead.get(at) == Some(&b'%'),
        None => false,
    }
}

/// Returns whether an offset is behind the first `%%`.
fn is_in_rules(text: &str, offset: usize) -> bool {
    match text.find("%%") {
        Some(at) => at.saturating_add(2) <= offset,
        None => false,
    }
}

/// Adds what may be written at an offset.
fn push_items(
    alloc: Global,
    list: &mut Vec<Item>,
    asked: &Asked<'_>,
    offset: usize,
) -> Result<(), AllocError> {
    let in_rules = is_in_rules(asked.text, offset);
    if !is_directive(asked.text, offset) {
        return push_labels(alloc, list, asked);
    }
    push_words(alloc, list, if in_rules { PARTS } else { DECLARATIONS })
}

/// Answers what may be written at a place.
pub fn completion_answer(
    alloc: Global,
    asked: &Asked<'_>,
    params: &Params,
) -> Result<Answer, AllocError>
    ensures { IfOk result (λ a. error_in a ≡ None) }
{
    let Some(place) = params.place else {
        return Ok(Answer::Done);
    };
    let mut list = Vec::new(alloc);
    match push_items(alloc, &mut list, asked, asked.offset(place)) {
        Ok(()) => Ok(Answer::Items(list)),
        Err(e) => {
            drop(list);
            Err(e)
        }
    }
}
