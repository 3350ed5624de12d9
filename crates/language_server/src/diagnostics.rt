//! From a document's text to its diagnostics.

ghost use Rattle.std.specs.Prelude.{◌≡◌, ◌<◌, ◌≤◌, ◌+◌, ◌^◌, IfOk, IfSome, OnOk, false, length};
ghost use Rattle.language_server.specs.Counts.{count_notes};
ghost use Rattle.language_server.specs.Positions.{AreLinesOf, IsRangeOf};

use crate::answers::{Diagnostic, Location, Range, Related};
use crate::bison::push_bison;
use crate::fault::{ServeFault, fault_of};
use crate::places::{Encoding, Lines, Position, position_at};
use bison_sources::bison_file;
use report_forms::{Conflict, Findings, Range as Reported, Said};
use report_values::{FirstSaid, LeftOut, Wanted, first_findings_on, untabled_on};
use std::alloc::{AllocError, Global};
use text_messages::Source;

/// Who says what is found.
const SOURCE: &str = "lrkit";

/// The numbers of the protocol.
const ERROR: u8 = 1;

const WARNING: u8 = 2;

const INFORMATION: u8 = 3;

/// A table is made of no grammar that has more productions and symbols in them, or more tokens, than these.
const MOST_SYMBOLS: usize = 12000;

/// Of each list of messages, and of conflicts, not more than these are shown.
const MOST_SHOWN: usize = 1000;

/// The beginning of a document, where what has no place is shown.
const BEGINNING: Position = Position {
    line: 0,
    character: 0,
};

/// A document, with what is needed to name places in it.
#[derive(Clone, Copy)]
pub struct View<'a> {
    /// Its name.
    pub uri: &'a str,
    /// Its text.
    pub text: &'a str,
    /// The lines of the text.
    pub lines: &'a Lines,
    /// In what columns count.
    pub encoding: Encoding,
    /// Whether places are shown beside a diagnostic; else they are left out, and what they say is behind its message.
    pub has_related: bool,
}

/// What conflicts are wanted: a block for each production, with an example.
const WANTED: Wanted = Wanted {
    conflicts: true,
    each: false,
    full: false,
    rules: false,
    states: None,
};

impl<'a> View<'a> {
    /// Returns the range between two offsets.
    pub fn range(&self, start: usize, end: usize) -> Range
        ensures { length self.now.text.now < 2 ^ 63 → AreLinesOf self.now.text.now self.now.lines.now → IsRangeOf self.now.encoding self.now.text.now start end result }
    {
        Range {
            start: position_at(self.text, self.lines, start, self.encoding),
            end: position_at(self.text, self.lines, end, self.encoding),
        }
    }
}

/// Returns a range of the report as one of the document.
fn range_in(view: &View<'_>, range: &Option<Reported>) -> Range
    ensures { length view.now.text.now < 2 ^ 63 → AreLinesOf view.now.text.now view.now.lines.now → IfSome range.now (λ r. IsRangeOf view.now.encoding view.now.text.now r.start.byte r.end.byte result) }
{
    match range {
        Some(range) => view.range(range.start.byte, range.end.byte),
        None => Range {
            start: BEGINNING,
            end: BEGINNING,
        },
    }
}

/// Adds a line to a message.
fn push_line(message: &mut String, line: &str) -> Result<(), AllocError> {
    message.push('\n')?;
    message.push_str(line.trim_end())
}

/// Adds what says more: a place beside the diagnostic, or a line behind its message.
fn push_related(
    alloc: Global,
    view: &View<'_>,
    found: &mut Diagnostic,
    range: Range,
    words: &str,
) -> Result<(), AllocError> {
    if !view.has_related {
        return push_line(&mut found.message, words);
    }
    let message = String::from_str(alloc, words.trim_end())?;
    let uri = String::from_str(alloc, view.uri)?;
    let location = Location { uri, range };
    found
        .related_information
        .push(Related { location, message })?;
    Ok(())
}

/// Makes a diagnostic without more than its message. The numbers of `severity` are the protocol's.
pub fn diagnostic(alloc: Global, range: Range, severity: u8, message: String) -> Diagnostic
    ensures range { result.range ≡ range }
    ensures severity { result.severity ≡ severity }
    ensures message { result.message ≡ message }
{
    Diagnostic {
        range,
        severity,
        source: SOURCE,
        message,
        related_information: Vec::new(alloc),
    }
}

/// Returns the words of a message with its help and its example.
fn words_of(alloc: Global, said: &Said) -> Result<String, AllocError> {
    let mut words = String::from_str(alloc, said.message.as_str())?;
    if let Some(help) = &said.help {
        words.push_str("\nhelp: ")?;
        words.push_str(help.as_str())?;
    }
    if let Some(example) = &said.example {
        push_line(&mut words, example.as_str())?;
    }
    Ok(words)
}

/// Adds a message; a note to the error before it.
fn push_said(
    alloc: Global,
    view: &View<'_>,
    found: &mut Vec<Diagnostic>,
    said: &Said,
) -> Result<(), AllocError>
    ensures { OnOk result (length found.new.items ≤ length found.old.items + 1) }
{
    let words = words_of(alloc, said)?;
    let range = range_in(view, &said.range);
    if said.severity == "note" {
        if let Some(last) = found.last_mut() {
            return push_related(alloc, view, last, range, words.as_str());
        }
    }
    let severity = if said.severity == "warning" {
        WARNING
    } else {
        ERROR
    };
    found.push(diagnostic(alloc, range, severity, words))?;
    Ok(())
}

/// Adds information that has no place.
fn push_note(alloc: Global, found: &mut Vec<Diagnostic>, message: String) -> Result<(), AllocError>
    ensures { OnOk result (length found.new.items ≡ length found.old.items + 1) }
{
    let range = Range {
        start: BEGINNING,
        end: BEGINNING,
    };
    found.push(diagnostic(alloc, range, INFORMATION, message))?;
    Ok(())
}

/// Adds how many there are, where not all of them are shown.
fn push_count(
    alloc: Global,
    found: &mut Vec<Diagnostic>,
    len: usize,
    what: &str,
) -> Result<(), AllocError>
    ensures { OnOk result (length found.new.items ≡ length found.old.items + count_notes len) }
{
    if len <= MOST_SHOWN {
        return Ok(());
    }
    let message = format!(in alloc; "the first {MOST_SHOWN} of {len} {what}")?;
    push_note(alloc, found, message)
}

/// Adds the first messages of a list, and how many there are with `left` others.
fn push_all_said(
    alloc: Global,
    view: &View<'_>,
    found: &mut Vec<Diagnostic>,
    list: &[Said],
    left: usize,
) -> Result<(), AllocError>
    ensures { OnOk result (length found.new.items ≤ length found.old.items + 1001) }
{
    'messages: for index in 0..list.len().min(MOST_SHOWN) {
        push_said(alloc, view, found, &list[index])?;
    }
    push_count(alloc, found, list.len().saturating_add(left), "messages")
}

/// Returns what a conflict is, in words.
fn conflict_words(alloc: Global, conflict: &Conflict) -> Result<String, AllocError> {
    let mut words = String::from_str(alloc, conflict.kind)?;
    words.push_str(" conflict: reduce ")?;
    for index in 0..conflict.productions.len() {
        if index > 0 {
            words.push_str(", or ")?;
        }
        words.push_str(conflict.productions[index].production.as_str())?;
    }
    words.push_str(if conflict.productions.len() > 1 {
        ", before"
    } else {
        ", or shift"
    })?;
    for index in 0..conflict.tokens.len() {
        words.push(' ')?;
        words.push_str(conflict.tokens[index].as_str())?;
    }
    Ok(words)
}

/// Adds the other action of a conflict, and its example.
fn push_shown(
    alloc: Global,
    view: &View<'_>,
    found: &mut Diagnostic,
    conflict: &Conflict,
) -> Result<(), AllocError> {
    let here = found.range;
    if let Some(example) = &conflict.example {
        push_related(alloc, view, found, here, example.lines.as_str())?;
    }
    if conflict.shift.is_some() {
        let range = range_in(view, &conflict.shift);
        push_related(alloc, view, found, range, "the token is shifted here")?;
    }
    if let Some(other) = conflict.productions.get(1) {
        let range = range_in(view, &other.range);
        return push_related(alloc, view, found, range, "the other production");
    }
    Ok(())
}

/// Adds a conflict.
fn push_conflict(
    alloc: Global,
    view: &View<'_>,
    found: &mut Vec<Diagnostic>,
    conflict: &Conflict,
    severity: u8,
) -> Result<(), AllocError>
    ensures { OnOk result (length found.new.items ≡ length found.old.items + 1) }
{
    let words = conflict_words(alloc, conflict)?;
    let range = match conflict.productions.first() {
        Some(first) => range_in(view, &first.range),
        None => range_in(view, &None),
    };
    found.push(diagnostic(alloc, range, severity, words))?;
    match found.last_mut() {
        Some(last) => push_shown(alloc, view, last, conflict),
        None => Ok(()),
    }
}

/// Adds the first conflicts, and how many there are.
fn push_conflicts(
    alloc: Global,
    view: &View<'_>,
    found: &mut Vec<Diagnostic>,
    conflicts: &[Conflict],
    severity: u8,
) -> Result<(), AllocError>
    ensures { OnOk result (length found.new.items ≤ length found.old.items + 1001) }
{
    'conflicts: for index in 0..conflicts.len().min(MOST_SHOWN) {
        push_conflict(alloc, view, found, &conflicts[index], severity)?;
    }
    push_count(alloc, found, conflicts.len(), "conflicts")
}

/// Adds what is found of a document, of which these messages are left out. Conflicts that are expected are no warnings.
pub(crate) fn push_findings(
    alloc: Global,
    view: &View<'_>,
    found: &mut Vec<Diagnostic>,
    findings: &Findings,
    left: LeftOut,
) -> Result<(), AllocError>
    ensures { OnOk result (length found.new.items ≤ length found.old.items + 3003) }
{
    let object = &findings.object;
    push_all_said(alloc, view, found, object.errors.as_slice(), left.errors)?;
    push_all_said(
        alloc,
        view,
        found,
        object.warnings.as_slice(),
        left.warnings,
    )?;
    let severity = if object.status == 0 {
        INFORMATION
    } else {
        WARNING
    };
    push_conflicts(alloc, view, found, object.conflicts.as_slice(), severity)
}

/// Adds what is said of a grammar that no table is made of.
fn push_first_said(
    alloc: Global,
    view: &View<'_>,
    found: &mut Vec<Diagnostic>,
    said: &FirstSaid,
) -> Result<(), AllocError>
    ensures { OnOk result (length found.new.items ≤ length found.old.items + 1002) }
{
    let left = said.len.saturating_sub(said.list.len());
    push_all_said(alloc, view, found, said.list.as_slice(), left)?;
    if !said.is_large {
        return Ok(());
    }
    let message = format!(in alloc;
        "more than {MOST_SYMBOLS} productions and symbols in them, or tokens: lrkit-check lists the conflicts"
    )?;
    push_note(alloc, found, message)
}

/// Adds what is found of a source without its table, if that isn't made, and returns whether it isn't.
fn push_untabled(
    alloc: Global,
    view: &View<'_>,
    found: &mut Vec<Diagnostic>,
    source: &Source<'_>,
) -> Result<bool, AllocError>
    ensures count { OnOk result (length found.new.items ≤ length found.old.items + 1002) }
    ensures rest { IfOk result (λ pushed. pushed ≡ false → found.new ≡ found.old) }
{
    let Some(said) = untabled_on(alloc, source, MOST_SYMBOLS, MOST_SHOWN)? else {
        return Ok(false);
    };
    let pushed = push_first_said(alloc, view, found, &said);
    drop(said);
    pushed?;
    Ok(true)
}

/// Adds what is found of a source by its table.
fn push_tabled(
    alloc: Global,
    view: &View<'_>,
    found: &mut Vec<Diagnostic>,
    source: &Source<'_>,
) -> Result<(), ServeFault>
    ensures { OnOk result (length found.new.items ≤ length found.old.items + 3003) }
{
    match first_findings_on(alloc, source, WANTED, MOST_SHOWN) {
        Ok(read) => {
            let pushed = push_findings(alloc, view, found, &read.found.findings, read.left);
            drop(read);
            pushed?;
            Ok(())
        }
        Err(e) => Err(fault_of(e)),
    }
}

/// Adds what is found of a source.
pub(crate) fn push_source(
    alloc: Global,
    view: &View<'_>,
    found: &mut Vec<Diagnostic>,
    source: &Source<'_>,
) -> Result<(), ServeFault>
    ensures { OnOk result (length found.new.items ≤ length found.old.items + 3003) }
{
    if push_untabled(alloc, view, found, source)? {
        return Ok(());
    }
    push_tabled(alloc, view, found, source)
}

/// Adds the diagnostics of a document's text as it is.
fn push_plain(alloc: Global, view: &View<'_>, found: &mut Vec<Diagnostic>) -> Result<(), ServeFault>
    ensures { OnOk result (length found.new.items ≤ length found.old.items + 3003) }
{
    let source = Source::new(alloc, view.text, view.uri)?;
    let pushed = push_source(alloc, view, found, &source);
    drop(source);
    pushed
}

/// Adds the diagnostics of a document. Of a grammar of more than 12000 productions and symbols in them, or tokens, these are its errors,
/// else the warnings that need no table, and a note that says so: a table may take seconds, and a change comes with each key.
pub fn push_diagnostics(
    alloc: Global,
    view: &View<'_>,
    found: &mut Vec<Diagnostic>,
) -> Result<(), ServeFault>
    ensures { OnOk result (length found.new.items ≤ length found.old.items + 3003) }
{
    match bison_file(view.text, view.uri, false) {
        Some(file) => push_bison(alloc, view, found, file),
        None => push_plain(alloc, view, found),
    }
}

/// Adds the diagnostic of a document that is too long to be read.
pub fn push_too_long(alloc: Global, found: &mut Vec<Diagnostic>) -> Result<(), AllocError>
    ensures { OnOk result (length found.new.items ≡ length found.old.items + 1) }
{
    let message = String::from_str(alloc, "more than 67108864 bytes")?;
    let range = Range {
        start: BEGINNING,
        end: BEGINNING,
    };
    found.push(diagnostic(alloc, range, ERROR, message))?;
    Ok(())
}
