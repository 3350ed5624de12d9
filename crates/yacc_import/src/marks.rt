//! A source with its notes applied: each byte of the result with its place in the source.

ghost use Rattle.std.specs.Prelude.{◌≡◌, ◌+◌, ◌<◌, ◌≤◌, ◌^◌, ◌++◌, length, slice_range, string_bytes, nat_eq, IfOk, OnOk};
ghost use Rattle.std.specs.List.{list_any};
ghost use Rattle.yacc_import.specs.Changes.{blank_of, marks_of, blanks_of, put_at, in_place, changed, Fits, FitsAlone, bytes_of};

use crate::errors::{Fault, ImportError};
use crate::notes::Note;
use std::alloc::Global;

/// A byte of the result, and the byte offset in the source that it is for.
#[derive(Clone, Copy, Debug, PartialEq, Eq)]
pub struct Mark {
    /// The byte in the text.
    pub byte: u8,
    /// The byte offset in the source.
    pub place: usize,
}

/// Returns what is in place of a byte that is left out: white stays, and a space is for all else.
fn blank_of(byte: u8) -> u8
    ensures { result ≡ blank_of byte }
{
    if byte == b'\t' || byte == b'\n' || byte == b'\r' {
        byte
    } else {
        b' '
    }
}

/// Puts bytes behind the result, which are at `at` and the places after it in the source.
fn push_marks(out: &mut Vec<Mark>, bytes: &[u8], at: usize) -> Result<(), ImportError>
    requires { at + length bytes.now < 2 ^ 64 }
    ensures { OnOk result (out.new.items ≡ out.old.items ++ marks_of at bytes.now) }
{
    'bytes: for (i, b) in bytes.iter().enumerate() {
        let place = at + i;
        out.push(Mark { byte: *b, place })?;
    }
    Ok(())
}

/// Puts blanks behind the result for bytes, which are at `at` and the places after it in the source.
fn push_blanks(out: &mut Vec<Mark>, bytes: &[u8], at: usize) -> Result<(), ImportError>
    requires { at + length bytes.now < 2 ^ 64 }
    ensures { OnOk result (out.new.items ≡ out.old.items ++ blanks_of at bytes.now) }
{
    'bytes: for (i, b) in bytes.iter().enumerate() {
        let place = at + i;
        let byte = blank_of(*b);
        out.push(Mark { byte, place })?;
    }
    Ok(())
}

/// Puts bytes behind the result, which are all for the place `at` in the source.
fn push_put(out: &mut Vec<Mark>, bytes: &[u8], place: usize) -> Result<(), ImportError>
    ensures { OnOk result (out.new.items ≡ out.old.items ++ put_at place bytes.now) }
{
    'bytes: for b in bytes {
        out.push(Mark { byte: *b, place })?;
    }
    Ok(())
}

/// Returns a part of the source; a fault where the range isn't one.
fn part_of(source: &[u8], start: usize, end: usize) -> Result<&[u8], ImportError>
    ensures part { IfOk result (λ part. part.now ≡ slice_range source.now start end) }
    ensures order { OnOk result (start ≤ end) }
    ensures within { OnOk result (end ≤ length source.now) }
    ensures size { IfOk result (λ part. start + length part.now ≡ end) }
{
    match source.get(start..end) {
        Some(part) => Ok(part),
        None => Err(ImportError::Refused(Fault::Unfit, start)),
    }
}

/// Puts a part of the source behind the result.
fn push_kept(
    out: &mut Vec<Mark>,
    source: &[u8],
    start: usize,
    end: usize,
) -> Result<(), ImportError>
    ensures made { OnOk result (out.new.items ≡ out.old.items ++ marks_of start (slice_range source.now start end)) }
    ensures order { OnOk result (start ≤ end) }
    ensures within { OnOk result (end ≤ length source.now) }
{
    let part = part_of(source, start, end)?;
    push_marks(out, part, start)
}

/// Returns whether there is a line feed.
fn has_line_feed(bytes: &[u8]) -> bool
    ensures { result ≡ list_any (λ b. nat_eq b 10) bytes.now }
{
    bytes.contains(&b'\n')
}

/// Puts what a note says in place of its range behind the result.
fn push_note(out: &mut Vec<Mark>, source: &[u8], note: &Note) -> Result<(), ImportError>
    ensures made { OnOk result (out.new.items ≡ out.old.items ++ in_place source.now note.now) }
    ensures fits { OnOk result (FitsAlone source.now note.now) }
{
    let range = part_of(source, note.start, note.end)?;
    let Some(text) = &note.text else {
        return push_blanks(out, range, note.start);
    };
    let bytes = text.as_bytes();
    if has_line_feed(range) || has_line_feed(bytes) {
        return Err(ImportError::Refused(Fault::Unfit, note.start));
    }
    push_put(out, bytes, note.start)
}

/// Applies notes to a source.
pub(crate) fn marks_for(
    alloc: Global,
    source: &[u8],
    notes: &[Note],
) -> Result<Vec<Mark>, ImportError>
    ensures made { IfOk result (λ v. v.items ≡ changed source.now 0 notes.now) }
    ensures fits { OnOk result (Fits source.now 0 notes.now) }
{
    let mut out = Vec::with_capacity(alloc, source.len())?;
    let mut at = 0;
    'notes: for note in notes {
        push_kept(&mut out, source, at, note.start)?;
        push_note(&mut out, source, note)?;
        at = note.end;
    }
    push_kept(&mut out, source, at, source.len())?;
    Ok(out)
}

/// Returns the bytes of the result as a text.
pub(crate) fn text_of(alloc: Global, marks: &[Mark]) -> Result<String, ImportError>
    ensures { IfOk result (λ t. string_bytes t ≡ bytes_of marks.now) }
{
    let bytes = marks.iter().map(|mark| mark.byte).collect(alloc)?;
    match String::from_utf8(bytes) {
        Ok(text) => Ok(text),
        Err(_) => Err(ImportError::Refused(Fault::NotUtf8, 0)),
    }
}
