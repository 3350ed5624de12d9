//! Start conditions, and their declarations.

ghost use Rattle.std.specs.Prelude.{◌≡◌, Result, map, option_map, IfOk, IfErr, OnOk, OnErr, length, ◌≤◌};
ghost use Rattle.std.specs.List.{prefix_len};
ghost use Rattle.std.specs.Str.{bytes_eq};
ghost use Rattle.lex_files.specs.LexFiles.{condition_value, is_name_byte, is_condition_name, condition_named, number_of, declare, declare_part, declare_words, read_declaration, exclusive_of, Tells};

use crate::fault::{Fault, FaultKind, LexFileError};
use crate::pieces::cut_at;
use cfg_base::text::{is_digit, is_letter};
use std::alloc::AllocError;

/// A start condition.
#[derive(Clone, Copy, Debug)]
pub struct Condition<'t> {
    /// Its name.
    pub name: &'t str,
    /// Whether rules without conditions are inactive in it.
    pub exclusive: bool,
}

/// Makes the fault of a kind at an offset.
pub(crate) fn fault_at(kind: FaultKind, offset: usize) -> Fault
    ensures { result ≡ record { kind = kind; offset = offset } }
{
    Fault { kind, offset }
}

/// Returns whether the name of a condition may have a byte.
fn is_name_byte(b: u8) -> bool
    ensures { result ≡ is_name_byte b }
{
    is_letter(b) || is_digit(b) || b == b'_' || b == b'.'
}

/// Counts the bytes in front that a condition's name may have.
fn name_len(bytes: &[u8]) -> usize
    ensures value { result ≡ prefix_len is_name_byte bytes.now }
    ensures within { result ≤ length bytes.now }
{
    bytes.iter().take_while(|b| is_name_byte(**b)).count()
}

/// Returns whether a text may be the name of a condition: a letter, and then letters, digits, `_` and `.`.
fn is_condition_name(name: &str) -> bool
    ensures { result ≡ is_condition_name name.now }
{
    match name.as_bytes().first() {
        Some(b) => is_letter(*b) && name_len(name.as_bytes()) == name.len(),
        None => false,
    }
}

/// Returns the number of the first condition with a name; their count where none has it.
fn condition_named(conditions: &[Condition<'_>], name: &str) -> usize
    ensures { result ≡ condition_named (map condition_value conditions.now) name.now }
{
    'conditions: for index in 0..conditions.len() {
        if conditions[index].name == name {
            return index;
        }
    }
    conditions.len()
}

/// Finds the number of the condition with a name that is used at an offset.
pub(crate) fn number_of(conditions: &[Condition<'_>], name: &str, at: usize) -> Result<usize, Fault>
    ensures { result ≡ number_of (map condition_value conditions.now) at name.now }
{
    let number = condition_named(conditions, name);
    if number < conditions.len() {
        Ok(number)
    } else {
        Err(fault_at(FaultKind::UnknownCondition, at))
    }
}

/// Adds a condition that is declared at an offset.
pub(crate) fn declare<'t>(
    conditions: &mut Vec<Condition<'t>>,
    name: &'t str,
    exclusive: bool,
    at: usize,
) -> Result<(), LexFileError>
    ensures ok { OnOk result (declare exclusive at (map condition_value conditions.old.items) name.now ≡ Result.Ok (map condition_value conditions.new.items)) }
    ensures err { IfErr result (Tells (declare exclusive at (map condition_value conditions.old.items) name.now)) }
{
    if !is_condition_name(name) {
        return Err(LexFileError::Line(fault_at(FaultKind::InvalidCondition, at)));
    }
    if condition_named(conditions.as_slice(), name) < conditions.len() {
        return Err(LexFileError::Line(fault_at(FaultKind::RepeatedCondition, at)));
    }
    match conditions.push(Condition { name, exclusive }) {
        Ok(()) => Ok(()),
        Err(e) => Err(LexFileError::Memory(AllocError::from(e))),
    }
}

/// Adds the condition of a part between spaces; an empty part has none.
fn declare_part<'t>(
    conditions: &mut Vec<Condition<'t>>,
    part: &'t str,
    exclusive: bool,
    at: usize,
) -> Result<(), LexFileError>
    ensures ok { OnOk result (declare_part exclusive at (map condition_value conditions.old.items) part.now ≡ Result.Ok (map condition_value conditions.new.items)) }
    ensures err { IfErr result (Tells (declare_part exclusive at (map condition_value conditions.old.items) part.now)) }
{
    if part.is_empty() {
        return Ok(());
    }
    declare(conditions, part, exclusive, at)
}

/// Adds the conditions of all words.
fn declare_words<'t>(
    conditions: &mut Vec<Condition<'t>>,
    words: &'t str,
    exclusive: bool,
    at: usize,
) -> Result<(), LexFileError>
    ensures ok { OnOk result (declare_words exclusive at (map condition_value conditions.old.items) words.now ≡ Result.Ok (map condition_value conditions.new.items)) }
    ensures err { IfErr result (Tells (declare_words exclusive at (map condition_value conditions.old.items) words.now)) }
{
    'parts: for part in words.split(' ') {
        match declare_part(conditions, part, exclusive, at) {
            Ok(()) => {}
            Err(e) => return Err(e),
        }
    }
    Ok(())
}

/// Returns whether a word declares exclusive conditions, if it declares any.
fn exclusive_of(word: &str) -> Option<bool>
    ensures { result ≡ exclusive_of word.now }
{
    if word == "%s" || word == "%S" {
        Some(false)
    } else if word == "%x" || word == "%X" {
        Some(true)
    } else {
        None
    }
}

/// Adds the conditions that a line at an offset declares.
pub(crate) fn read_declaration<'t>(
    conditions: &mut Vec<Condition<'t>>,
    line: &'t str,
    at: usize,
) -> Result<(), LexFileError>
    ensures ok { OnOk result (read_declaration at (map condition_value conditions.old.items) line.now ≡ Result.Ok (map condition_value conditions.new.items)) }
    ensures err { IfErr result (Tells (read_declaration at (map condition_value conditions.old.items) line.now)) }
{
    let (word, words) = match cut_at(line, ' ') {
        Some(parts) => parts,
        None => (line, ""),
    };
    match exclusive_of(word) {
        Some(exclusive) => declare_words(conditions, words, exclusive, at),
        None => Err(LexFileError::Line(fault_at(FaultKind::UnknownDeclaration, at))),
    }
}
