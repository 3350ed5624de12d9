//! From a Bison file to the profile's text.

ghost use Rattle.std.specs.Prelude.{◌≡◌, ◌≤◌, ◌<◌, ◌+◌, ◌*◌, length, vec_len, string_bytes, IfOk, IfErr, OnOk};
ghost use Rattle.std.specs.List.{All};
ghost use Rattle.yacc_import.specs.Changes.{bytes_of, places_of, changed, Fits, IsFor, LiesIn, Rises, line_feeds, marks_of, place_of};
ghost use Rattle.yacc_import.specs.Faults.{LiesWithin};

use crate::edits::notes_of;
use crate::errors::{Fault, ImportError};
use crate::levels::meeting_levels;
use crate::marks::{Mark, marks_for, text_of};
use crate::names::{Names, names_of};
use crate::notes::Note;
use crate::roles::{Parts, parts_of};
use crate::tokens::tokens_of;
use std::alloc::Global;

/// A Bison file in the profile's syntax.
#[derive(Drop)]
pub struct Imported {
    /// The text in the profile's syntax.
    pub text: String,
    /// The bytes of the text, each with the byte offset in the source that it is for.
    pub marks: Vec<Mark>,
    /// What was left out or changed, in order.
    pub notes: Vec<Note>,
    /// How many bytes the source has.
    pub source_len: usize,
}

impl Imported {
    /// Returns the byte offset in the source of a byte offset in the text: the source's end at the text's end and past it.
    pub fn place_in_source(&self, at: usize) -> usize
        ensures { result ≡ place_of self.now.marks.items self.now.source_len at }
    {
        match self.marks.get(at) {
            Some(mark) => mark.place,
            None => self.source_len,
        }
    }
}

/// Leaves out the levels that the profile can't say, and returns the notes.
fn notes_with<'a>(
    alloc: Global,
    source: &'a str,
    found: &mut Parts,
    names: &mut Names<'a>,
) -> Result<Vec<Note>, ImportError> {
    let levels = meeting_levels(alloc, names, found.list.as_slice())?;
    names.unsettle(levels, found.list.as_slice());
    notes_of(alloc, source, found, names, levels)
}

/// Returns the notes for a source.
fn notes_for(alloc: Global, source: &str) -> Result<Vec<Note>, ImportError> {
    let tokens = tokens_of(alloc, source.as_bytes())?;
    let mut found = parts_of(alloc, source, &tokens)?;
    let mut names = names_of(alloc, source, found.list.as_slice())?;
    let made = notes_with(alloc, source, &mut found, &mut names);
    drop(names);
    made
}

/// Returns an error whose place lies in a source of so many bytes.
fn within(error: ImportError, len: usize) -> ImportError
    ensures { LiesWithin len result }
{
    match error {
        ImportError::Refused(fault, at) => ImportError::Refused(fault, at.min(len)),
        ImportError::Memory(e) => ImportError::Memory(e),
    }
}

/// Applies notes to a source. Refused are notes that don't lie one behind the other or lie past the end, a text with or in place of
/// a line feed (`Fault::Unfit`), and a result that is no text (`Fault::NotUtf8`); `import` is not known to make any such notes.
pub fn apply_notes(alloc: Global, source: &str, notes: Vec<Note>) -> Result<Imported, ImportError>
    ensures text { IfOk result (λ m. string_bytes m.text ≡ bytes_of m.marks.items) }
    ensures made { IfOk result (λ m. m.marks.items ≡ changed source.now 0 m.notes.items) }
    ensures fits { IfOk result (λ m. Fits source.now 0 m.notes.items) }
    ensures len { IfOk result (λ m. m.source_len ≡ length source.now) }
    ensures short { IfOk result (λ m. vec_len m.marks ≤ 16 * length source.now + 4096) }
{
    let source_len = source.len();
    let marks = marks_for(alloc, source.as_bytes(), &notes)?;
    if marks.len() > source_len.saturating_mul(16).saturating_add(4096) {
        return Err(ImportError::Refused(Fault::TooLong, source_len));
    }
    let text = text_of(alloc, &marks)?;
    Ok(Imported {
        text,
        marks,
        notes,
        source_len,
    })
}

/// Imports a file in the syntax of Bison or of POSIX yacc. The text has the source's bytes, but for the ranges that notes name:
/// there it has blanks, with the line feeds, tabs and carriage returns of the source, or a note's text.
pub fn import(alloc: Global, source: &str) -> Result<Imported, ImportError>
    ensures text { IfOk result (λ m. string_bytes m.text ≡ bytes_of m.marks.items) }
    ensures made { IfOk result (λ m. m.marks.items ≡ changed source.now 0 m.notes.items) }
    ensures bytes { IfOk result (λ m. All (IsFor source.now m.notes.items) m.marks.items) }
    ensures line_feeds { IfOk result (λ m. line_feeds m.marks.items ≡ line_feeds (marks_of 0 source.now)) }
    ensures places { IfOk result (λ m. Rises 0 (places_of m.marks.items) (length source.now)) }
    ensures notes { IfOk result (λ m. All (LiesIn (length source.now)) m.notes.items) }
    ensures len { IfOk result (λ m. m.source_len ≡ length source.now) }
    ensures short { IfOk result (λ m. vec_len m.marks ≤ 16 * length source.now + 4096) }
    ensures fault { IfErr result (LiesWithin (length source.now)) }
{
    let notes = match notes_for(alloc, source) {
        Ok(notes) => notes,
        Err(e) => return Err(within(e, source.len())),
    };
    match apply_notes(alloc, source, notes) {
        Ok(imported) => Ok(imported),
        Err(e) => Err(within(e, source.len())),
    }
}
