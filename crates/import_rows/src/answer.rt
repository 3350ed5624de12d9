//! Imports as answers.

use row_files::{Part, parts};
use std::alloc::{AllocError, Global};
use yacc_import::{ImportError, Imported, Note, NoteKind, apply_notes, import};

/// Adds a line behind a mark.
fn push_line(out: &mut String, mark: &str, line: &str) -> Result<(), AllocError> {
    out.push_str(mark)?;
    out.push_str(line)?;
    out.push('\n')
}

/// Adds a note.
fn push_note(alloc: Global, out: &mut String, note: &Note) -> Result<(), AllocError> {
    let (start, end) = (note.start, note.end);
    let kind = note.kind;
    out.push_str(format!(in alloc; "{kind:?} {start}-{end}")?.as_str())?;
    if let Some(text) = &note.text {
        out.push(':')?;
        out.push_str(text.as_str())?;
    }
    out.push('\n')
}

/// Adds the text of an import and, if they are asked for, its notes.
fn push_imported(
    alloc: Global,
    out: &mut String,
    heading: &str,
    imported: &Imported,
) -> Result<(), AllocError> {
    for line in imported.text.as_str().lines() {
        push_line(out, ">", line)?;
    }
    if heading.ends_with("notes") {
        for note in imported.notes.as_slice() {
            push_note(alloc, out, note)?;
        }
    }
    Ok(())
}

/// Returns a note of the range that a word `START-END` names.
fn note_at(range: &str, text: Option<String>) -> Option<Note> {
    let (start, end) = range.split_once('-')?;
    let (Ok(start), Ok(end)) = (start.parse::<usize>(), end.parse::<usize>()) else {
        return None;
    };
    let kind = NoteKind::Mark;
    Some(Note {
        start,
        end,
        kind,
        text,
    })
}

/// Returns the note that a heading `leave out START-END` or `put TEXT in START-END` asks for; `LF` stands for a line feed.
fn asked_note(alloc: Global, heading: &str) -> Result<Option<Note>, AllocError> {
    if let Some(range) = heading.strip_prefix("leave out ") {
        return Ok(note_at(range, None));
    }
    let Some(words) = heading.strip_prefix("put ") else {
        return Ok(None);
    };
    let Some((text, range)) = words.split_once(" in ") else {
        return Ok(None);
    };
    let put = if text == "LF" { "\n" } else { text };
    Ok(note_at(range, Some(String::from_str(alloc, put)?)))
}

/// Applies the note that a heading asks for, or imports a text.
fn import_as(alloc: Global, heading: &str, text: &str) -> Result<Imported, ImportError> {
    let Some(note) = asked_note(alloc, heading)? else {
        return import(alloc, text);
    };
    let mut notes = Vec::new(alloc);
    notes.push(note)?;
    apply_notes(alloc, text, notes)
}

fn push_answer(
    alloc: Global,
    out: &mut String,
    heading: &str,
    text: &str,
) -> Result<(), AllocError> {
    match import_as(alloc, heading, text) {
        Ok(imported) => {
            let pushed = push_imported(alloc, out, heading, &imported);
            drop(imported);
            pushed
        }
        Err(ImportError::Refused(fault, at)) => {
            out.push_str(format!(in alloc; "refused {fault:?} {at}\n")?.as_str())
        }
        Err(ImportError::Memory(e)) => Err(e),
    }
}

fn push_part(alloc: Global, out: &mut String, part: &Part<'_>) -> Result<(), AllocError> {
    match part {
        Part::Line(line) => push_line(out, "", line),
        Part::Text(heading, text, _start) => push_answer(alloc, out, heading, text.as_str()),
    }
}

fn push_parts(alloc: Global, out: &mut String, parts: &[Part<'_>]) -> Result<(), AllocError> {
    for part in parts {
        push_part(alloc, out, part)?;
    }
    Ok(())
}

/// Returns the file with the right answers.
pub fn answer_file(alloc: Global, file: &str) -> Result<String, AllocError> {
    let mut out = String::new(alloc);
    let parts = parts(alloc, file)?;
    let pushed = push_parts(alloc, &mut out, parts.as_slice());
    drop(parts);
    pushed?;
    Ok(out)
}
