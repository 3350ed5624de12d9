//! The documents that the client has open, and their changes.

ghost use Rattle.std.specs.Prelude.{◌≡◌, ◌<◌, ◌≤◌, ◌^◌, ◌++◌, ℕ, None, length, take, drop, string_bytes, IfOk, IfSome, OnOk, is_some, true};
ghost use Rattle.std.specs.Str.{IsCharBoundary};
ghost use Rattle.language_server.specs.Positions.{AreLinesOf, IsBetween, IsPlaceOf};

use crate::languages::Language;
use crate::messages::Change;
use crate::places::{Encoding, Lines, offset_at};
use byte_streams::MOST_BYTES;
use grammar_index::GrammarIndex;
use std::alloc::{AllocError, Global};

/// A version of a document.
#[derive(Debug, Drop)]
pub struct Document {
    /// Its text.
    pub text: String,
    /// Its lines.
    pub lines: Lines,
    /// Where the text names its rules and tokens, once that was asked for.
    pub index: Option<GrammarIndex>,
}

/// Returns where a text names its rules and tokens: nowhere, if it is too long.
fn index_of<L: Language>(
    alloc: Global,
    language: &L,
    text: &str,
) -> Result<GrammarIndex, AllocError> {
    if text.len() > MOST_BYTES {
        return Ok(GrammarIndex::empty(alloc));
    }
    language.index(alloc, text)
}

impl Document {
    /// Makes the document of a text with these lines.
    pub fn new(text: String, lines: Lines) -> Document
        ensures text { result.text ≡ text }
        ensures lines { result.lines ≡ lines }
        ensures index { result.index ≡ None }
    {
        Document {
            text,
            lines,
            index: None,
        }
    }

    /// Makes the index if there is none: nothing names anything in a text that is too long, in Bison's syntax, or no grammar.
    pub fn make_index<L: Language>(&mut self, alloc: Global, language: &L) -> Result<(), AllocError>
        ensures { OnOk result (is_some self.new.index ≡ true) }
    {
        if self.index.is_none() {
            self.index = Some(index_of(alloc, language, self.text.as_str())?);
        }
        Ok(())
    }
}

/// Returns a text with the bytes between two offsets replaced; the text itself where an offset is within a character.
fn with_part(
    alloc: Global,
    text: String,
    first: usize,
    past: usize,
    part: &str,
) -> Result<String, AllocError>
    ensures { IsCharBoundary (string_bytes text) first → IsCharBoundary (string_bytes text) past → IfOk result (λ s. string_bytes s ≡ take first (string_bytes text) ++ (part.now ++ drop past (string_bytes text))) }
{
    let whole = text.as_str();
    let (Some(ahead), Some(behind)) = (whole.get(..first), whole.get(past..)) else {
        return Ok(text);
    };
    let mut changed = String::from_str(alloc, ahead)?;
    changed.push_str(part)?;
    changed.push_str(behind)?;
    Ok(changed)
}

/// Returns a text with a change. Its lines are given, or found where a part is changed.
fn with_change(
    alloc: Global,
    text: String,
    lines: Option<Lines>,
    change: Change,
    encoding: Encoding,
) -> Result<String, AllocError>
    ensures whole { change.range ≡ None → IfOk result (λ s. s ≡ change.text) }
    ensures part { length (string_bytes text) < 2 ^ 63 → IfSome lines (AreLinesOf (string_bytes text)) → IfSome change.range (λ r. (a b : ℕ) → a ≤ b → b ≤ length (string_bytes text) → IsPlaceOf encoding (string_bytes text) a r.0 → IsPlaceOf encoding (string_bytes text) b r.1 → IsBetween (string_bytes text) a → IsBetween (string_bytes text) b → IfOk result (λ s. string_bytes s ≡ take a (string_bytes text) ++ (string_bytes change.text ++ drop b (string_bytes text)))) }
{
    let Some((start, end)) = change.range else {
        return Ok(change.text);
    };
    let lines = match lines {
        Some(lines) => lines,
        None => Lines::of_text(alloc, text.as_str())?,
    };
    let first = offset_at(text.as_str(), &lines, start, encoding);
    let past = offset_at(text.as_str(), &lines, end, encoding).max(first);
    with_part(alloc, text, first, past, change.text.as_str())
}

/// Returns a text, of which these are the lines, with changes, one after the other.
pub fn with_changes(
    alloc: Global,
    text: String,
    lines: Lines,
    changes: Vec<Change>,
    encoding: Encoding,
) -> Result<String, AllocError> {
    let mut text = text;
    let mut lines = Some(lines);
    'changes: for change in changes {
        text = with_change(alloc, text, lines.take(), change, encoding)?;
    }
    Ok(text)
}
