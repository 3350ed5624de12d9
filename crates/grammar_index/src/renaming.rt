//! Whether a rule or a token may have another name.

ghost use Rattle.std.specs.Prelude.{◌≡◌, IfOk};
ghost use Rattle.std.specs.List.{list_any};
ghost use Rattle.grammar_index.specs.Renames.{begins_name, begins_there, fault_of, fits, is_bare, is_in_name, is_name, is_no_name_byte, is_quotable, is_quote, is_quote_there, is_unquotable};
ghost use Rattle.grammar_index.specs.Occurrences.{spells};

use crate::asking::{references, spelling, spells};
use crate::occurrence::Occurrence;
use cfg_base::text::{is_digit, is_letter};
use std::alloc::{AllocError, Global};

/// Why a name can't be another one.
#[derive(Clone, Copy, Debug, PartialEq, Eq)]
pub enum RenameFault {
    /// The text can't have the new name in all places of the old one.
    NoName,
    /// The text names something by the new name.
    Taken,
}

/// Returns whether a name may begin with a byte.
fn begins_name(byte: u8) -> bool
    ensures { result ≡ begins_name byte }
{
    is_letter(byte) || byte == b'_' || byte == b'.'
}

/// Returns whether a name can't have a byte.
fn is_no_name_byte(byte: u8) -> bool
    ensures { result ≡ is_no_name_byte byte }
{
    !(begins_name(byte) || is_digit(byte))
}

/// Returns whether a name can't have one of these bytes.
fn has_no_name_byte(bytes: &[u8]) -> bool
    ensures { result ≡ list_any is_no_name_byte bytes.now }
{
    'bytes: for byte in bytes {
        if is_no_name_byte(*byte) {
            return true;
        }
    }
    false
}

/// Returns whether a byte that may be missing begins a name.
fn begins_there(byte: Option<u8>) -> bool
    ensures { result ≡ begins_there byte }
{
    match byte {
        Some(byte) => begins_name(byte),
        None => false,
    }
}

/// Returns whether a text is a name.
fn is_name(name: &[u8]) -> bool
    ensures { result ≡ is_name name.now }
{
    begins_there(name.first().copied()) && !has_no_name_byte(name)
}

/// Returns whether a byte is a quote.
fn is_quote(byte: u8) -> bool
    ensures { result ≡ is_quote byte }
{
    byte == b'\'' || byte == b'"'
}

/// Returns whether a token in quotes can't have a byte.
fn is_unquotable(byte: u8) -> bool
    ensures { result ≡ is_unquotable byte }
{
    is_quote(byte) || byte == b'\n' || byte == b'\r'
}

/// Returns whether a token in quotes can't have one of these bytes.
fn has_unquotable(bytes: &[u8]) -> bool
    ensures { result ≡ list_any is_unquotable bytes.now }
{
    'bytes: for byte in bytes {
        if is_unquotable(*byte) {
            return true;
        }
    }
    false
}

/// Returns whether a text may be a token in quotes.
fn is_quotable(name: &[u8]) -> bool
    ensures { result ≡ is_quotable name.now }
{
    0 < name.len() && !has_unquotable(name)
}

/// Returns whether a byte that may be missing is a quote.
fn is_quote_there(byte: Option<u8>) -> bool
    ensures { result ≡ is_quote_there byte }
{
    match byte {
        Some(byte) => is_quote(byte),
        None => false,
    }
}

/// Returns whether an occurrence isn't between quotes.
fn is_bare(text: &str, one: Occurrence) -> bool
    ensures { result ≡ is_bare text.now one }
{
    let bytes = text.as_bytes();
    !(is_quote_there(bytes.get(one.start.saturating_sub(1)).copied())
        && is_quote_there(bytes.get(one.end).copied()))
}

/// Returns whether one of these places isn't between quotes.
fn has_bare(text: &str, places: &[Occurrence]) -> bool
    ensures { result ≡ list_any (is_bare text.now) places.now }
{
    'places: for one in places {
        if is_bare(text, *one) {
            return true;
        }
    }
    false
}

/// Returns whether all these places may have a name.
fn fits(text: &str, places: &[Occurrence], name: &[u8]) -> bool
    ensures { result ≡ fits text.now places.now name.now }
{
    is_name(name) || is_quotable(name) && !has_bare(text, places)
}

/// Returns whether a text names something by a name.
fn is_taken(text: &str, names: &[Occurrence], name: &[u8]) -> bool
    ensures { result ≡ list_any (spells text.now name.now) names.now }
{
    'names: for one in names {
        if spells(text, name, *one) {
            return true;
        }
    }
    false
}

/// Returns why what is named at an occurrence can't have another name, if it can't.
pub fn check_rename(
    alloc: Global,
    text: &str,
    names: &[Occurrence],
    one: Occurrence,
    name: &str,
) -> Result<Option<RenameFault>, AllocError>
    ensures { IfOk result (λ f. f ≡ fault_of text.now names.now one name.now) }
{
    let wanted = name.as_bytes();
    if wanted == spelling(text, one) {
        return Ok(None);
    }
    let places = references(alloc, text, names, one)?;
    if !fits(text, places.as_slice(), wanted) {
        return Ok(Some(RenameFault::NoName));
    }
    if is_taken(text, names, wanted) {
        return Ok(Some(RenameFault::Taken));
    }
    Ok(None)
}
