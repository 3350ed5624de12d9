//! The notes of an import, token by token.

use crate::ends::{byte_at, is_name_byte, line_end};
use crate::errors::{Fault, ImportError};
use crate::late::place_levels;
use crate::names::{Names, with_underscores};
use crate::notes::{Note, NoteKind, Notes, text_of};
use crate::roles::{Part, Parts, Role};
use crate::tokens::Token;
use std::alloc::Global;

/// What notes are made from.
#[derive(Drop)]
struct Edits<'a, 'b> {
    alloc: Global,
    text: &'a str,
    found: &'b Parts,
    names: &'b Names<'a>,
    /// The levels of `%precedence` that are left out, a bit for each.
    levels: u64,
    /// How the names of rules for actions begin.
    fresh: &'static str,
}

impl<'a> Edits<'a, '_> {
    /// Returns how the profile spells a token.
    fn spelling(&self, token: Token) -> Result<String, ImportError> {
        let key = self.names.key(token);
        match self.names.spelling_of(self.alloc, key)? {
            Some(text) => Ok(text),
            None => Err(ImportError::Refused(Fault::NotQuotable, token.start)),
        }
    }

    /// Puts a token's spelling in its place, where that differs.
    fn respell(&self, notes: &mut Notes, token: Token) -> Result<(), ImportError> {
        if self.names.is_plain(token) {
            return Ok(());
        }
        let text = self.spelling(token)?;
        if text.as_str() == self.names.raw(token) {
            return Ok(());
        }
        let bytes = self.text.as_bytes();
        let before = blank_beside(byte_at(bytes, token.start.saturating_sub(1)));
        let behind = blank_beside(byte_at(bytes, token.end));
        let text = text_of(self.alloc, &[before, text.as_str(), behind])?;
        notes.put(NoteKind::Spelling, (token.start, token.end), text)
    }

    /// Returns whether the token at an index has a precedence.
    fn has_level(&self, at: usize) -> bool {
        match self.found.token(at) {
            Some(token) => self.names.has_level(token),
            None => false,
        }
    }

    /// Puts the rule of an action in its place, and blanks behind the line.
    fn put_midrule(
        &self,
        notes: &mut Notes,
        token: Token,
        number: usize,
    ) -> Result<(), ImportError> {
        let name = format!(in self.alloc; "{}{number}", self.fresh)?;
        let end = line_end(self.text.as_bytes(), token.start, token.end);
        notes.put(NoteKind::Midrule, (token.start, end), name)?;
        if end < token.end {
            return notes.push(NoteKind::Action, (end, token.end), None);
        }
        Ok(())
    }

    /// Adds the declaration of the tokens that the file doesn't declare.
    fn push_tokens(&self, text: &mut String) -> Result<(), ImportError> {
        for name in &self.names.late {
            text.push_str(if text.is_empty() { "%token " } else { " " })?;
            let spelled = with_underscores(self.alloc, name)?;
            text.push_str(spelled.as_str())?;
        }
        Ok(())
    }

    /// Adds the declarations of the start rule that are among the rules.
    fn push_starts(&self, text: &mut String) -> Result<(), ImportError> {
        for part in self.found.list.as_slice() {
            if part.role == Role::LateStart {
                text.push_str(" %start ")?;
                text.push_str(self.spelling(part.token)?.as_str())?;
            }
        }
        Ok(())
    }

    /// Declares tokens and the start rule before the first `%%`.
    fn declare(&self, notes: &mut Notes, at: usize) -> Result<(), ImportError> {
        let mut text = String::new(self.alloc);
        self.push_tokens(&mut text)?;
        self.push_starts(&mut text)?;
        if text.is_empty() {
            return Ok(());
        }
        text.push(' ')?;
        notes.put(NoteKind::Declared, (at, at), text)
    }

    /// Puts a word, and the tokens behind it that follow the token at an index and are moved, behind a token.
    fn put_level(
        &self,
        notes: &mut Notes,
        word: &str,
        at: usize,
        end: usize,
    ) -> Result<(), ImportError> {
        let mut text = text_of(self.alloc, &[word])?;
        let next = at.saturating_add(1);
        for part in self.found.list.get(next..).unwrap_or(&[]) {
            match part.role {
                Role::MovedLevel => {
                    text.push(' ')?;
                    text.push_str(self.spelling(part.token)?.as_str())?;
                }
                Role::Leave(_) => {}
                _ => break,
            }
        }
        notes.put(NoteKind::Moved, (end, end), text)
    }

    /// Puts a level from among the rules behind a token.
    fn put_late(&self, notes: &mut Notes, word: usize, end: usize) -> Result<(), ImportError> {
        let Some(token) = self.found.token(word) else {
            return Ok(());
        };
        let raw = match self.names.raw(token) {
            "%binary" => "%nonassoc",
            raw => raw,
        };
        let text = text_of(self.alloc, &[" ", raw])?;
        self.put_level(notes, text.as_str(), word, end)
    }

    /// Puts the token of a `%prec` behind an alternative.
    fn put_prec(&self, notes: &mut Notes, at: usize, end: usize) -> Result<(), ImportError> {
        let Some(token) = self.found.token(at) else {
            return Ok(());
        };
        if !self.names.has_level(token) {
            return Ok(());
        }
        let spelled = self.spelling(token)?;
        let text = text_of(self.alloc, &[" %prec ", spelled.as_str()])?;
        notes.put(NoteKind::Moved, (end, end), text)
    }

    /// Puts the rules of actions behind the file's.
    fn put_midrules(&self, notes: &mut Notes, end: usize) -> Result<(), ImportError> {
        let mut text = String::new(self.alloc);
        for number in 1..self.found.midrules.saturating_add(1) {
            let rule = format!(in self.alloc; " {}{number}: ;", self.fresh)?;
            text.push_str(rule.as_str())?;
        }
        if text.is_empty() {
            return Ok(());
        }
        notes.put(NoteKind::Midrules, (end, end), text)
    }

    /// Makes the notes of a token.
    fn take(&self, notes: &mut Notes, at: usize, part: Part) -> Result<(), ImportError> {
        let token = part.token;
        let left_out = match part.role {
            Role::Keep => return Ok(()),
            Role::Section => return self.declare(notes, token.start),
            Role::Rename(word) => return self.rename(notes, token, word),
            Role::Midrule(number) => return self.put_midrule(notes, token, number),
            Role::Precedence if self.levels & part.bit == 0 => {
                return self.rename(notes, token, "%nonassoc");
            }
            Role::Level | Role::MovedLevel if !self.has_level(at) => NoteKind::Unsettled,
            Role::PrecWord if self.has_level(at.saturating_add(1)) => return Ok(()),
            Role::Prec if !self.has_level(at) => NoteKind::Unleveled,
            Role::Declared | Role::Start | Role::Level | Role::Head | Role::Symbol | Role::Prec => {
                return self.respell(notes, token);
            }
            Role::Precedence => NoteKind::Unsettled,
            Role::PrecWord => NoteKind::Unleveled,
            Role::AliasOf(_) => NoteKind::Alias,
            Role::Leave(kind) => kind,
            Role::Late | Role::LateLevel | Role::LateDeclared => NoteKind::Moved,
            Role::LateStart | Role::MovedLevel | Role::MovedPrec => NoteKind::Moved,
        };
        notes.push(left_out, (token.start, token.end), None)
    }

    /// Puts the profile's word for a directive in its place.
    fn rename(&self, notes: &mut Notes, token: Token, word: &str) -> Result<(), ImportError> {
        if self.names.raw(token) == word {
            return Ok(());
        }
        let text = text_of(self.alloc, &[word])?;
        notes.put(NoteKind::Word, (token.start, token.end), text)
    }

    /// Makes the notes of what is put behind a token.
    fn take_behind(&self, notes: &mut Notes, at: usize, part: Part) -> Result<(), ImportError> {
        let end = part.token.end;
        if part.level && self.has_level(at) {
            self.put_level(notes, "", at, end)?;
        }
        if let Some(word) = part.late {
            self.put_late(notes, word, end)?;
        }
        if let Some(prec) = part.prec {
            self.put_prec(notes, prec, end)?;
        }
        if part.semicolon {
            let text = text_of(self.alloc, &[";"])?;
            notes.put(NoteKind::Semicolon, (end, end), text)?;
        }
        if self.found.last == Some(at) {
            return self.put_midrules(notes, end);
        }
        Ok(())
    }

    /// Makes all notes.
    fn take_all(&self, notes: &mut Notes) -> Result<(), ImportError> {
        for (at, part) in self.found.list.iter().enumerate() {
            self.take(notes, at, *part)?;
            self.take_behind(notes, at, *part)?;
        }
        Ok(())
    }
}

/// Returns a blank where a byte may be one of a name.
fn blank_beside(byte: u8) -> &'static str {
    if is_name_byte(byte) { " " } else { "" }
}

/// Returns the notes of an import, without these levels of `%precedence`.
pub(crate) fn notes_of<'a>(
    alloc: Global,
    text: &'a str,
    found: &mut Parts,
    names: &Names<'a>,
    levels: u64,
) -> Result<Vec<Note>, ImportError> {
    let Some(fresh) = names.fresh(found.list.as_slice()) else {
        return Err(ImportError::Refused(Fault::TakenName, 0));
    };
    place_levels(text.as_bytes(), found)?;
    let edits = Edits {
        alloc,
        text,
        found,
        names,
        levels,
        fresh,
    };
    let mut notes = Notes::new(alloc, text.len());
    edits.take_all(&mut notes)?;
    Ok(notes.list)
}
