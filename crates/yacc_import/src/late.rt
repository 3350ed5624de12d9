//! Precedence levels among the rules: where they go before the rules.

use crate::ends::line_end;
use crate::errors::{Fault, ImportError};
use crate::roles::{Part, Parts, Role};
use crate::tokens::{Kind, Token};

/// Returns whether only blanks are between two byte offsets, up to a line feed that is there.
fn ends_line(bytes: &[u8], start: usize, end: usize) -> bool {
    let feed = line_end(bytes, start, end);
    let line = bytes.get(start..feed).unwrap_or(&[]);
    feed < end && line.iter().all(|b| matches!(*b, b' ' | b'\t' | b'\r'))
}

/// Returns whether a declaration may be put behind a token on its line: the line ends there, and so does a declaration.
fn has_room(bytes: &[u8], token: Token, next: Token) -> bool {
    matches!(next.kind, Kind::Directive | Kind::Prologue | Kind::Section)
        && ends_line(bytes, token.end, next.start)
}

/// Returns the index of the first token, from one on, behind which a level may be put before the rules.
fn next_place(bytes: &[u8], parts: &[Part], from: usize) -> Option<usize> {
    for at in from..parts.len() {
        let token = parts.get(at)?.token;
        let next = parts.get(at.saturating_add(1))?.token;
        if token.kind == Kind::Section {
            return None;
        }
        if has_room(bytes, token, next) {
            return Some(at);
        }
    }
    None
}

/// Finds a token before the rules for each level among the rules, behind which it is put. A level needs a line of its own behind
/// all levels before the rules.
pub(crate) fn place_levels(bytes: &[u8], found: &mut Parts) -> Result<(), ImportError> {
    let mut from = match found.last_level {
        Some(last) => last.saturating_add(1),
        None => 0,
    };
    for word in 0..found.list.len() {
        let token = match found.list.get(word) {
            Some(part) if part.role == Role::LateLevel => part.token,
            _ => continue,
        };
        let Some(at) = next_place(bytes, found.list.as_slice(), from) else {
            return Err(ImportError::Refused(Fault::LateLevel, token.start));
        };
        if let Some(part) = found.list.get_mut(at) {
            part.late = Some(word);
        }
        from = at.saturating_add(1);
    }
    Ok(())
}
