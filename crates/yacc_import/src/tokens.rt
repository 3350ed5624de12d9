//! The tokens of a Bison file.

use crate::ends::{
    byte_at, code_end, comment_end, is_name_start, line_end, name_end, number_end, quote_end,
    reference_end, tag_end,
};
use crate::errors::{Fault, ImportError};
use std::alloc::Global;

/// What a token is.
#[derive(Clone, Copy, PartialEq, Eq)]
pub(crate) enum Kind {
    /// `%%`
    Section,
    /// `%{ .. %}`
    Prologue,
    /// All behind the second `%%`.
    Epilogue,
    /// A word with its `%`.
    Directive,
    /// `{ .. }`, or a predicate `%?{ .. }`.
    Code,
    /// `< .. >`
    Tag,
    /// A string, also in `_( .. )`.
    Text,
    /// A character in single quotes.
    Character,
    /// A name in brackets.
    Reference,
    Number,
    Name,
    /// A name that a colon follows, with a reference between if there is one.
    Head,
    Colon,
    Bar,
    Semicolon,
    /// A comma, an equals sign, a form feed, a line number, and a comment that isn't plain: to be left out.
    Mark,
    /// White and comments, which stay.
    Gap,
}

/// A token, from the byte offset `start` up to `end`.
#[derive(Clone, Copy)]
pub(crate) struct Token {
    pub kind: Kind,
    pub start: usize,
    pub end: usize,
}

/// The tokens so far, and what they make of the next one.
#[derive(Drop)]
struct Reading {
    tokens: Vec<Token>,
    /// The index of the name that is a heading if a colon comes next.
    name: Option<usize>,
    /// How many `%%` there were, up to two.
    sections: u8,
}

/// Returns a kind with its end, or the fault at `at` where it isn't closed.
fn kind_to(
    kind: Kind,
    end: Option<usize>,
    fault: Fault,
    at: usize,
) -> Result<(Kind, usize), ImportError> {
    match end {
        Some(end) => Ok((kind, end)),
        None => Err(ImportError::Refused(fault, at)),
    }
}

/// Returns whether a text has this part at `at`.
fn has_at(bytes: &[u8], at: usize, part: &[u8]) -> bool {
    match bytes.get(at..) {
        Some(rest) => rest.starts_with(part),
        None => false,
    }
}

/// Returns the kind and the end of what begins with a `%`.
fn percent_at(bytes: &[u8], at: usize) -> Result<(Kind, usize), ImportError> {
    let next = at.saturating_add(1);
    match byte_at(bytes, next) {
        b'%' => Ok((Kind::Section, next.saturating_add(1))),
        b'{' => kind_to(
            Kind::Prologue,
            code_end(bytes, at, true),
            Fault::OpenPrologue,
            at,
        ),
        b'?' => kind_to(Kind::Code, code_end(bytes, at, false), Fault::OpenCode, at),
        b if is_name_start(b) => Ok((Kind::Directive, name_end(bytes, next))),
        _ => Err(ImportError::Refused(Fault::UnknownDirective, at)),
    }
}

/// Returns the kind and the end of a comment, which stays if it is ASCII.
fn comment_at(bytes: &[u8], at: usize) -> Result<(Kind, usize), ImportError> {
    if !has_at(bytes, at, b"//") && !has_at(bytes, at, b"/*") {
        return Err(ImportError::Refused(Fault::UnknownByte, at));
    }
    let end = comment_end(bytes, at);
    let kind = match bytes.get(at..end.unwrap_or(at)) {
        Some(part) if part.is_ascii() => Kind::Gap,
        _ => Kind::Mark,
    };
    kind_to(kind, end, Fault::OpenComment, at)
}

/// Returns the kind and the end of what begins with a letter, `_` or `.`.
fn word_at(bytes: &[u8], at: usize) -> Result<(Kind, usize), ImportError> {
    if !has_at(bytes, at, b"_(\"") {
        return Ok((Kind::Name, name_end(bytes, at)));
    }
    let end = match quote_end(bytes, at.saturating_add(2)) {
        Some(end) if byte_at(bytes, end) == b')' => end.checked_add(1),
        _ => None,
    };
    kind_to(Kind::Text, end, Fault::OpenQuote, at)
}

/// Returns the kind and the end of a mark of one byte.
fn mark_at(bytes: &[u8], at: usize, byte: u8) -> Result<(Kind, usize), ImportError> {
    let next = at.saturating_add(1);
    match byte {
        b':' => Ok((Kind::Colon, next)),
        b'|' => Ok((Kind::Bar, next)),
        b';' => Ok((Kind::Semicolon, next)),
        b',' | b'=' | 11 | 12 => Ok((Kind::Mark, next)),
        b'#' if has_at(bytes, at, b"#line ") => {
            Ok((Kind::Mark, line_end(bytes, at, bytes.len())))
        }
        0xef if at == 0 && has_at(bytes, 0, b"\xef\xbb\xbf") => Ok((Kind::Mark, 3)),
        b'(' | b')' | b'$' | b'@' => Err(ImportError::Refused(Fault::ForeignForm, at)),
        _ => Err(ImportError::Refused(Fault::UnknownByte, at)),
    }
}

/// Returns the kind and the end of what begins at `at` with this byte.
fn token_at(bytes: &[u8], at: usize, byte: u8) -> Result<(Kind, usize), ImportError> {
    match byte {
        b' ' | b'\t' | b'\r' | b'\n' => Ok((Kind::Gap, at.saturating_add(1))),
        b'%' => percent_at(bytes, at),
        b'/' => comment_at(bytes, at),
        b'{' => kind_to(Kind::Code, code_end(bytes, at, false), Fault::OpenCode, at),
        b'<' => kind_to(Kind::Tag, tag_end(bytes, at), Fault::OpenQuote, at),
        b'[' => kind_to(
            Kind::Reference,
            reference_end(bytes, at),
            Fault::OpenQuote,
            at,
        ),
        b'"' => kind_to(Kind::Text, quote_end(bytes, at), Fault::OpenQuote, at),
        b'\'' => kind_to(Kind::Character, quote_end(bytes, at), Fault::OpenQuote, at),
        b if b.is_ascii_digit() => Ok((Kind::Number, number_end(bytes, at))),
        b if is_name_start(b) => word_at(bytes, at),
        b => mark_at(bytes, at, b),
    }
}

impl Reading {
    /// Marks the name before a colon as a heading.
    fn mark_head(&mut self) {
        let Some(at) = self.name else {
            return;
        };
        if let Some(token) = self.tokens.get_mut(at) {
            token.kind = Kind::Head;
        }
        self.name = None;
    }

    /// Puts a token behind the others.
    fn push(&mut self, kind: Kind, start: usize, end: usize) -> Result<(), ImportError> {
        match kind {
            Kind::Name => self.name = Some(self.tokens.len()),
            Kind::Colon => self.mark_head(),
            Kind::Reference | Kind::Mark => {}
            _ => self.name = None,
        }
        if kind == Kind::Section {
            self.sections = self.sections.saturating_add(1);
        }
        self.tokens.push(Token { kind, start, end })?;
        Ok(())
    }

    /// Reads all tokens.
    fn read_all(&mut self, bytes: &[u8]) -> Result<(), ImportError> {
        let mut at: usize = 0;
        for _ in 0..bytes.len() {
            let Some(byte) = bytes.get(at) else {
                return Ok(());
            };
            if self.sections == 2 {
                return self.push(Kind::Epilogue, at, bytes.len());
            }
            let (kind, end) = token_at(bytes, at, *byte)?;
            if kind != Kind::Gap {
                self.push(kind, at, end)?;
            }
            at = end;
        }
        Ok(())
    }
}

/// Reads the tokens of a text.
pub(crate) fn tokens_of(alloc: Global, bytes: &[u8]) -> Result<Vec<Token>, ImportError> {
    let mut reading = Reading {
        tokens: Vec::new(alloc),
        name: None,
        sections: 0,
    };
    reading.read_all(bytes)?;
    Ok(reading.tokens)
}
