//! What an import leaves out, puts in and changes.

use crate::errors::{Fault, ImportError};
use std::alloc::{AllocError, Global};

/// What was done, and with what.
#[derive(Clone, Copy, Debug, PartialEq, Eq)]
pub enum NoteKind {
    /// A prologue is left out.
    Prologue,
    /// The epilogue is left out, with the `%%` before it.
    Epilogue,
    /// A directive that says nothing about the grammar is left out, with what belongs to it.
    Directive,
    /// A declaration is left out, since it is made elsewhere.
    Moved,
    /// A tag is left out.
    Tag,
    /// A token's number is left out.
    Number,
    /// An alias is left out where it is declared, and is its token elsewhere.
    Alias,
    /// A mark that the profile doesn't have, or a character that isn't white in it, is left out.
    Mark,
    /// An action is left out.
    Action,
    /// An action in the middle of an alternative becomes a rule of its own.
    Midrule,
    /// The rules of actions in the middle are added.
    Midrules,
    /// A name in brackets is left out.
    Reference,
    /// `%dprec`, `%merge` or a rule's own `%expect` is left out.
    RuleDirective,
    /// A name or a quoted token is spelled otherwise.
    Spelling,
    /// `%precedence`, `%binary` or `%term` is called by the profile's word.
    Word,
    /// `%precedence` is left out, and so its conflicts stay.
    Unsettled,
    /// `%prec` is left out, since its token has no precedence.
    Unleveled,
    /// Tokens that the file declares by their precedence, or not at all, are declared.
    Declared,
    /// A `;` is put behind a rule.
    Semicolon,
}

/// A change: the bytes of the source from `start` up to `end` are left out, and blanks or `text` are in their place.
#[derive(Debug, Drop)]
pub struct Note {
    /// The byte offset in the source at which the change begins.
    pub start: usize,
    /// The byte offset in the source at which it ends.
    pub end: usize,
    /// What is done, and with what.
    pub kind: NoteKind,
    /// What is there instead; none where blanks are, and the line feeds of the source.
    pub text: Option<String>,
}

/// The notes so far, and how many bytes of text further ones may put.
#[derive(Drop)]
pub(crate) struct Notes {
    pub list: Vec<Note>,
    room: usize,
}

impl Notes {
    /// Returns no notes, for a source of so many bytes.
    pub(crate) fn new(alloc: Global, len: usize) -> Notes {
        Notes {
            list: Vec::new(alloc),
            room: len.saturating_mul(15).saturating_add(4096),
        }
    }

    /// Adds a note; without a text the range is left out.
    pub(crate) fn push(
        &mut self,
        kind: NoteKind,
        (start, end): (usize, usize),
        text: Option<String>,
    ) -> Result<(), ImportError> {
        self.list.push(Note {
            start,
            end,
            kind,
            text,
        })?;
        Ok(())
    }

    /// Puts a text in place of a range that has no line feed, with blanks up to the range's length.
    pub(crate) fn put(
        &mut self,
        kind: NoteKind,
        range: (usize, usize),
        mut text: String,
    ) -> Result<(), ImportError> {
        for _ in text.len()..range.1.saturating_sub(range.0) {
            text.push(' ')?;
        }
        let Some(room) = self.room.checked_sub(text.len()) else {
            return Err(ImportError::Refused(Fault::TooLong, range.0));
        };
        self.room = room;
        self.push(kind, range, Some(text))
    }
}

/// Returns the part of a text between two byte offsets; nothing where it isn't one.
pub(crate) fn cut(text: &str, start: usize, end: usize) -> &str {
    let Some((front, _)) = text.split_at_checked(end) else {
        return "";
    };
    match front.split_at_checked(start) {
        Some((_, part)) => part,
        None => "",
    }
}

/// A text of bytes that are put behind one another.
pub(crate) fn text_of(alloc: Global, parts: &[&str]) -> Result<String, AllocError> {
    let mut text = String::new(alloc);
    for part in parts {
        text.push_str(part)?;
    }
    Ok(text)
}
