//! The parts of a file: lines that are written as they were read, and texts.

use crate::words::push_unescaped;
use cfg_read::yacc::{YaccKind, YaccOriginalActionKind};
use std::alloc::{AllocError, Global};

#[derive(Drop)]
pub enum Part<'a> {
    /// A line that is written as it was read.
    Line(&'a str),
    /// The heading above a text, without its `= `, the text, and the start rule that is asked for. Its lines come
    /// before it.
    Text(&'a str, String, Option<&'a str>),
}

/// The parts so far, and what is open: the heading, and the text whose lines come.
#[derive(Drop)]
struct Open<'a> {
    parts: Vec<Part<'a>>,
    heading: &'a str,
    text: Option<String>,
}

/// Returns the kind that the first word of a heading names; `None` where the section is to name it.
pub fn kind_of(heading: &str) -> Option<YaccKind> {
    match heading.split_whitespace().next() {
        Some("user") => Some(YaccKind::Original(YaccOriginalActionKind::UserAction)),
        Some("tree") => Some(YaccKind::Original(YaccOriginalActionKind::GenericParseTree)),
        Some("none") => Some(YaccKind::Original(YaccOriginalActionKind::NoAction)),
        Some("grmtools") => Some(YaccKind::Grmtools),
        Some("eco") => Some(YaccKind::Eco),
        _ => None,
    }
}

/// Returns the text before, if there is one, and one more line.
fn with_line(alloc: Global, before: Option<String>, line: &str) -> Result<String, AllocError> {
    let mut text = String::new(alloc);
    if let Some(before) = before {
        text.push_str(before.as_str())?;
        text.push('\n')?;
    }
    push_unescaped(&mut text, line)?;
    Ok(text)
}

impl<'a> Open<'a> {
    fn keep(&mut self, line: &'a str) -> Result<(), AllocError> {
        self.parts.push(Part::Line(line))?;
        Ok(())
    }

    /// Ends the text, if one is open.
    fn end_text(&mut self, start: Option<&'a str>) -> Result<(), AllocError> {
        if let Some(text) = self.text.take() {
            self.parts.push(Part::Text(self.heading, text, start))?;
        }
        Ok(())
    }

    /// Stores a line behind a text, unless it is part of an answer.
    fn take_other(&mut self, line: &'a str) -> Result<(), AllocError> {
        self.end_text(None)?;
        if let Some(heading) = line.strip_prefix("= ") {
            self.heading = heading;
            return self.keep(line);
        }
        if line.is_empty() || line.starts_with('#') {
            return self.keep(line);
        }
        Ok(())
    }

    fn take_line(&mut self, alloc: Global, line: &'a str) -> Result<(), AllocError> {
        if let Some(piece) = line.strip_prefix('|') {
            let text = with_line(alloc, self.text.take(), piece)?;
            self.text = Some(text);
            return self.keep(line);
        }
        if let Some(name) = line.strip_prefix('@') {
            self.keep(line)?;
            return self.end_text(Some(name));
        }
        self.take_other(line)
    }

    fn take_all(&mut self, alloc: Global, file: &'a str) -> Result<(), AllocError> {
        for line in file.lines() {
            self.take_line(alloc, line)?;
        }
        self.end_text(None)
    }
}

/// Returns the parts of a file, in order.
pub fn parts(alloc: Global, file: &str) -> Result<Vec<Part<'_>>, AllocError> {
    let mut open = Open {
        parts: Vec::new(alloc),
        heading: "",
        text: None,
    };
    open.take_all(alloc, file)?;
    Ok(open.parts)
}
