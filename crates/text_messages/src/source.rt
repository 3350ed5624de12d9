//! A text with its path, and messages about places in it.

ghost use Rattle.std.specs.Prelude.{◌≡◌, ◌≤◌, false, [], ◌∷◌, ◌++◌, length, IfOk, OnOk};
ghost use Rattle.std.specs.String.{string_bytes};
ghost use Rattle.cfg_base.specs.Newlines.{line_start};
ghost use Rattle.text_messages.specs.Places.{offset_by, shown_at, place_of, place_text, severity_text, colored_severity_text, word_text, heading, heading_without_place, heading_if, BeginsWith};

use crate::excerpt::excerpt;
use cfg_base::span::Span;
use cfg_base::text_lines::TextLines;
use std::alloc::{AllocError, Global};
use std::marker::Model;

/// How grave a message is.
#[derive(Clone, Copy, Debug, PartialEq, Eq)]
pub enum Severity {
    /// The text can't be used.
    Error,
    /// It can be used, and may mean something else than it seems to.
    Warning,
    /// Says more of what was said before.
    Note,
}

impl Severity {
    /// Returns the word that a message begins with behind its place.
    pub fn word(self) -> &'static str
        ensures { result.now ≡ severity_text self }
    {
        match self {
            Severity::Error => "error",
            Severity::Warning => "warning",
            Severity::Note => "note",
        }
    }

    /// Returns that word in the color of its severity: red, magenta or cyan, and bold.
    fn colored_word(self) -> &'static str
        ensures { result.now ≡ colored_severity_text self }
    {
        match self {
            Severity::Error => "\u{1b}[1;31merror\u{1b}[0m",
            Severity::Warning => "\u{1b}[1;35mwarning\u{1b}[0m",
            Severity::Note => "\u{1b}[1;36mnote\u{1b}[0m",
        }
    }
}

/// A place in a text. Lines and columns count from 1.
#[derive(Clone, Copy, Debug, PartialEq, Eq)]
pub struct Position {
    /// The offset in bytes, from 0.
    pub byte: usize,
    /// The line.
    pub line: usize,
    /// The column in characters.
    pub column: usize,
    /// The column in units of UTF-16, of which a character past U+FFFF has two.
    pub utf16_column: usize,
}

/// A message about a text.
#[derive(Debug, Drop)]
pub struct Message {
    /// How grave it is.
    pub severity: Severity,
    /// Its place, if it has one.
    pub span: Option<Span>,
    /// What it says, without an end of a line.
    pub words: String,
    /// What may help, in a line below.
    pub help: Option<String>,
    /// Lines that show it, below all else, each with its LF.
    pub example: Option<String>,
}

impl Message {
    /// Makes a message without help.
    pub fn new(severity: Severity, span: Option<Span>, words: String) -> Message
        ensures severity { result.severity ≡ severity }
        ensures span { result.span ≡ span }
        ensures words { result.words ≡ words }
    {
        let (help, example) = (None, None);
        Message {
            severity,
            span,
            words,
            help,
            example,
        }
    }

    /// Adds the message to others.
    pub fn push_to(self, messages: &mut Vec<Message>) -> Result<(), AllocError>
        ensures { OnOk result (messages.new.items ≡ messages.old.items ++ self ∷ []) }
    {
        messages.push(self)?;
        Ok(())
    }
}

/// The text that is shown where another one was made of it and read.
#[derive(Clone, Copy, Debug)]
pub struct Original<'a> {
    /// The text.
    pub text: &'a str,
    /// For each byte of the text that was read the offset of what it is for.
    pub places: &'a [usize],
}

/// A text, and the path that its places are shown with. Spans are of the text; where it was made of another one, that is shown,
/// with the places there. Contracts see the texts, the places, the path, and whether messages are in color.
#[derive(Drop)]
pub struct Source<'a> {
    text: &'a str,
    shown: TextLines<'a>,
    places: &'a [usize],
    path: &'a str,
    color: bool,
    wide: Vec<usize>,
}

impl<'a> Model for Source<'a> {
    ghost use Rattle.text_messages.specs.Places.{SourceValue};

    ghost Value = { SourceValue };

    ghost view = { λ s. record { text = s.text.now; shown = s.shown; places = s.places.now; path = s.path.now; color = s.color } };
}

impl<'a> Source<'a> {
    /// Makes the source of a text, which is read once for its lines. Its messages are plain.
    pub fn new(alloc: Global, text: &'a str, path: &'a str) -> Result<Source<'a>, AllocError>
        ensures { IfOk result (λ s. s ≡ record { text = text.entry.now; shown = text.entry.now; places = []; path = path.entry.now; color = false }) }
    {
        let places = &[];
        Source::of_original(alloc, text, Original { text, places }, path)
    }

    /// Makes the source of a text that was made of another one, which is shown in its place. Its messages are plain. Where there
    /// are no places each byte is at its own offset.
    pub fn of_original(
        alloc: Global,
        text: &'a str,
        original: Original<'a>,
        path: &'a str,
    ) -> Result<Source<'a>, AllocError>
        ensures { IfOk result (λ s. s ≡ record { text = text.entry.now; shown = original.entry.text.now; places = original.entry.places.now; path = path.entry.now; color = false }) }
    {
        let shown = TextLines::new(alloc, original.text)?;
        let wide = wide_of(alloc, original.text)?;
        let color = false;
        Ok(Source {
            text,
            shown,
            places: original.places,
            path,
            color,
            wide,
        })
    }

    /// Returns the source with messages in the colors of a terminal, or plain.
    pub fn with_color(mut self, color: bool) -> Source<'a>
        ensures { result ≡ record self.entry { color = color } }
    {
        self.color = color;
        self
    }

    /// Returns whether messages are in color.
    pub fn in_color(&self) -> bool
        ensures { result ≡ self.now.color }
    {
        self.color
    }

    /// Returns the text that spans are of.
    pub fn text(&self) -> &str
        ensures { result.now ≡ self.now.text }
    {
        self.text
    }

    /// Returns the text that is shown.
    pub(crate) fn shown_text(&self) -> &str
        ensures { result.now ≡ self.now.shown }
    {
        self.shown.text()
    }

    /// Returns the offset in the text shown for an offset: one past the end counts as the end.
    fn shown_at(&self, at: usize) -> usize
        ensures value { result ≡ shown_at self.now at }
        ensures inside { result ≤ length self.now.shown }
    {
        offset_by(self.places, self.shown_text().len(), at)
    }

    /// Returns where what is shown for a span ends: at the next byte with a place behind that of the span's last one.
    fn shown_end(&self, span: Span) -> usize {
        let last = self.shown_at(span.end().saturating_sub(1));
        match self.places.get(span.end()..) {
            Some(rest) if !span.is_empty() => first_past(rest, last).unwrap_or(
                self.shown_text().len(),
            ),
            _ => self.shown_at(span.end()),
        }
    }

    /// Returns a span in the text shown: an offset past the end counts as the end.
    pub(crate) fn shown_span(&self, span: Span) -> Span
        ensures start { result.start ≡ shown_at self.now span.start }
        ensures inside { result.end ≤ length self.now.shown }
    {
        let first = self.shown_at(span.start());
        let last = self.shown_end(span).min(self.shown_text().len());
        Span::new(first, last.max(first))
    }

    /// Returns the line and the column, in characters, of where a span begins within the text shown.
    pub(crate) fn place(&self, span: Span) -> (usize, usize)
        ensures { result ≡ place_of self.now span.start }
    {
        self.shown.line_col(self.shown_span(span).start())
    }

    /// Returns the first byte of the line that a span begins on.
    pub(crate) fn line_start(&self, span: Span) -> usize
        ensures value { result ≡ line_start self.now.shown (shown_at self.now span.start) }
        ensures inside { result ≤ length self.now.shown }
    {
        self.shown.line_start(self.shown_span(span))
    }

    /// Returns the line that a span begins on, without its LF and a CR before that.
    pub(crate) fn line(&self, span: Span) -> &str {
        let first = self.shown_span(span).start();
        let line = self.shown.lines_of(Span::new(first, first));
        if self.line_start(span).saturating_add(line.len()) == self.shown_text().len() {
            return line;
        }
        line.strip_suffix('\r').unwrap_or(line)
    }

    /// Returns the place of an offset, in the text shown. One past the text's end counts as the end, and one inside a character
    /// has the columns of that character.
    pub fn position(&self, offset: usize) -> Position
        ensures byte { result.byte ≡ shown_at self.now offset }
        ensures line { result.line ≡ (place_of self.now offset).0 }
        ensures column { result.column ≡ (place_of self.now offset).1 }
    {
        let span = Span::new(offset, offset);
        let byte = self.shown_span(span).start();
        let (line, column) = self.place(span);
        let begin = self.wide_before(self.line_start(span));
        let end = self.wide_before(self.shown_text().floor_char_boundary(byte));
        Position {
            byte,
            line,
            column,
            utf16_column: column.saturating_add(end.saturating_sub(begin)),
        }
    }

    /// Returns how many characters that take two units of UTF-16 begin before an offset in the text shown.
    fn wide_before(&self, at: usize) -> usize {
        self.wide.as_slice().partition_point(|begin| *begin < at)
    }

    /// Returns the word of a severity, in color if messages are.
    fn word(&self, severity: Severity) -> &'static str
        ensures { result.now ≡ word_text self.now.color severity }
    {
        if self.color {
            severity.colored_word()
        } else {
            severity.word()
        }
    }

    /// Returns where a span begins: `PATH:LINE:COLUMN`.
    fn place_text(&self, alloc: Global, span: Span) -> Result<String, AllocError>
        ensures { IfOk result (λ text. string_bytes text ≡ place_text self.now span) }
    {
        let path = self.path;
        let (line, column) = self.place(span);
        let text = format!(in alloc; "{path}:{line}:{column}")?;
        Ok(text)
    }

    /// Returns the line that tells a place: `PATH:LINE:COLUMN: error: MESSAGE`.
    fn heading(
        &self,
        alloc: Global,
        severity: Severity,
        span: Span,
        message: &str,
    ) -> Result<String, AllocError>
        ensures { IfOk result (λ text. string_bytes text ≡ heading self.now severity span message.now) }
    {
        let place = self.place_text(alloc, span)?;
        let word = self.word(severity);
        let text = format!(in alloc; "{place}: {word}: {message}\n")?;
        Ok(text)
    }

    /// Adds that line.
    pub fn push_heading(
        &self,
        alloc: Global,
        text: &mut String,
        severity: Severity,
        span: Span,
        message: &str,
    ) -> Result<(), AllocError>
        ensures { OnOk result (string_bytes text.new ≡ string_bytes text.old ++ heading self.now severity span message.now) }
    {
        let told = self.heading(alloc, severity, span, message)?;
        text.push_str(told.as_str())
    }

    /// Adds a message of what has no place: `PATH: error: MESSAGE`.
    pub fn push_unplaced(
        &self,
        alloc: Global,
        text: &mut String,
        severity: Severity,
        message: &str,
    ) -> Result<(), AllocError>
        ensures { OnOk result (string_bytes text.new ≡ string_bytes text.old ++ heading_without_place self.now severity message.now) }
    {
        let path = self.path;
        let word = self.word(severity);
        let told = format!(in alloc; "{path}: {word}: {message}\n")?;
        text.push_str(told.as_str())
    }

    /// Adds a message: the line that shows its place, and below it the line of the text that the span begins on, with the
    /// span underlined.
    pub fn push_message(
        &self,
        alloc: Global,
        text: &mut String,
        severity: Severity,
        span: Span,
        message: &str,
    ) -> Result<(), AllocError>
        ensures heading { OnOk result (BeginsWith (string_bytes text.old ++ heading self.now severity span message.now) (string_bytes text.new)) }
    {
        let excerpt = excerpt(alloc, self, span)?;
        self.push_heading(alloc, text, severity, span, message)?;
        text.push_str(excerpt.as_str())
    }

    /// Adds a message with a place, where it has one.
    pub fn push_message_if(
        &self,
        alloc: Global,
        text: &mut String,
        severity: Severity,
        span: Option<Span>,
        message: &str,
    ) -> Result<(), AllocError>
        ensures heading { OnOk result (BeginsWith (string_bytes text.old ++ heading_if self.now severity span message.now) (string_bytes text.new)) }
    {
        match span {
            Some(span) => self.push_message(alloc, text, severity, span, message),
            None => self.push_unplaced(alloc, text, severity, message),
        }
    }

    /// Adds a message with what may help and what shows it.
    pub fn push(
        &self,
        alloc: Global,
        text: &mut String,
        message: &Message,
    ) -> Result<(), AllocError>
        ensures heading { OnOk result (BeginsWith (string_bytes text.old ++ heading_if self.now message.now.severity message.now.span (string_bytes message.now.words)) (string_bytes text.new)) }
    {
        let below = below_of(alloc, message)?;
        let words = message.words.as_str();
        self.push_message_if(alloc, text, message.severity, message.span, words)?;
        text.push_str(below.as_str())
    }
}

/// Returns the offset in a text of so many bytes for an offset.
fn offset_by(places: &[usize], len: usize, at: usize) -> usize
    ensures value { result ≡ offset_by places.now len at }
    ensures inside { result ≤ len }
{
    if places.is_empty() {
        return at.min(len);
    }
    if at < places.len() {
        return places[at].min(len);
    }
    len
}

/// Returns the first place behind another one.
fn first_past(places: &[usize], last: usize) -> Option<usize> {
    for place in places {
        if *place > last {
            return Some(*place);
        }
    }
    None
}

/// Returns where the characters of a text begin that take two units of UTF-16.
fn wide_of(alloc: Global, text: &str) -> Result<Vec<usize>, AllocError> {
    let mut wide = Vec::new(alloc);
    if text.is_ascii() {
        return Ok(wide);
    }
    let bytes = text.as_bytes();
    'bytes: for index in 0..bytes.len() {
        if bytes[index] >= 0xf0 {
            wide.push(index)?;
        }
    }
    Ok(wide)
}

/// Returns the lines below a message: its help, and what shows it.
fn below_of(alloc: Global, message: &Message) -> Result<String, AllocError> {
    let mut below = String::new(alloc);
    if let Some(help) = &message.help {
        below.push_str("      = help: ")?;
        below.push_str(help.as_str())?;
        below.push('\n')?;
    }
    if let Some(example) = &message.example {
        below.push_str(example.as_str())?;
    }
    Ok(below)
}
