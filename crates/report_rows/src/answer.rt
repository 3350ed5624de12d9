//! Reports on texts as answers.

use grammar_report::{Asked, LineFile, Report, report_on, status};
use report_forms::{Findings, dot_text, json_text};
use report_values::{FindingsError, Found, Wanted, findings_on};
use row_files::{Part, parts};
use std::alloc::{AllocError, Global};
use text_messages::Source;

/// How many states are drawn at most.
const MOST_STATES: usize = 2000;

/// Adds a line behind a mark.
fn push_line(out: &mut String, mark: &str, line: &str) -> Result<(), AllocError> {
    out.push_str(mark)?;
    out.push_str(line)?;
    out.push('\n')
}

/// Adds the lines of a report and its status; each text of a report ends with an LF.
fn push_report(alloc: Global, out: &mut String, told: &Report) -> Result<(), AllocError> {
    for line in told.text.as_str().lines() {
        push_line(out, ">", line)?;
    }
    if !told.text.as_str().ends_with('\n') {
        push_line(out, "~", "")?;
    }
    let code = status(told.outcome);
    out.push_str(format!(in alloc; "status {code}\n")?.as_str())
}

/// Whether a heading has a word.
fn asks(heading: &str, name: &str) -> bool {
    for word in heading.split_whitespace() {
        if word == name {
            return true;
        }
    }
    false
}

/// The path that a heading tells.
fn path_of(heading: &str) -> &str {
    for word in heading.split_whitespace() {
        if let Some(path) = word.strip_prefix("path:") {
            return path;
        }
    }
    "g.y"
}

/// The grammar of a row, and the lines behind a line of four dashes, if there is one.
fn grammar_and_lines(text: &str) -> (&str, Option<LineFile<'_>>) {
    match text.split_once("\n----\n") {
        Some((grammar, lines)) => (
            grammar,
            Some(LineFile {
                text: lines,
                path: "g.lines",
            }),
        ),
        None => (text, None),
    }
}

/// What a heading asks of a report for a person.
fn asked_of<'a>(heading: &str, next: Option<LineFile<'a>>) -> Asked<'a> {
    Asked {
        each: asks(heading, "each"),
        full: asks(heading, "full"),
        states: asks(heading, "states"),
        sentences: asks(heading, "sentences"),
        next,
    }
}

/// Returns findings as an object, or as states.
fn text_of(alloc: Global, findings: &Findings, as_object: bool) -> Result<String, AllocError> {
    if !as_object {
        return dot_text(alloc, findings);
    }
    match json_text(alloc, findings) {
        Ok(text) => Ok(text),
        Err(_) => String::from_str(alloc, "out of memory"),
    }
}

/// Adds the report in a form for other programs, for what was found.
fn push_found(
    alloc: Global,
    out: &mut String,
    heading: &str,
    found: &Found,
) -> Result<(), AllocError> {
    let text = text_of(alloc, &found.findings, asks(heading, "json"))?;
    let outcome = found.outcome;
    push_report(alloc, out, &Report { text, outcome })
}

/// Returns what a heading asks of a report for other programs.
fn wanted_of(heading: &str) -> Wanted {
    let is_dot = asks(heading, "dot");
    Wanted {
        conflicts: !is_dot,
        each: asks(heading, "each"),
        full: asks(heading, "full"),
        rules: false,
        states: if is_dot { Some(MOST_STATES) } else { None },
    }
}

/// Adds the report in a form for other programs.
fn push_form(
    alloc: Global,
    out: &mut String,
    heading: &str,
    source: &Source<'_>,
) -> Result<(), AllocError> {
    match findings_on(alloc, source, wanted_of(heading)) {
        Ok(found) => {
            let pushed = push_found(alloc, out, heading, &found);
            drop(found);
            pushed
        }
        Err(FindingsError::TooManyStates(count)) => {
            let line = format!(in alloc; "{count} states")?;
            push_line(out, ">", line.as_str())
        }
        Err(FindingsError::Memory(e)) => Err(e),
    }
}

/// Adds the report that a heading asks for.
fn push_told(
    alloc: Global,
    out: &mut String,
    heading: &str,
    source: &Source<'_>,
    next: Option<LineFile<'_>>,
) -> Result<(), AllocError> {
    if asks(heading, "json") || asks(heading, "dot") {
        return push_form(alloc, out, heading, source);
    }
    let told = report_on(alloc, source, asked_of(heading, next))?;
    push_report(alloc, out, &told)
}

fn push_answer(
    alloc: Global,
    out: &mut String,
    heading: &str,
    text: &str,
) -> Result<(), AllocError> {
    let (grammar, next) = grammar_and_lines(text);
    let color = asks(heading, "color");
    let source = Source::new(alloc, grammar, path_of(heading))?.with_color(color);
    let pushed = push_told(alloc, out, heading, &source, next);
    drop(source);
    pushed
}

fn push_part(alloc: Global, out: &mut String, part: &Part<'_>) -> Result<(), AllocError> {
    match part {
        Part::Line(line) => push_line(out, "", line),
        Part::Text(heading, text, _start) => push_answer(alloc, out, heading, text.as_str()),
    }
}

fn push_parts(alloc: Global, out: &mut String, parts: &[Part<'_>]) -> Result<(), AllocError> {
    for part in parts {
        push_part(alloc, out, part)?;
    }
    Ok(())
}

/// The file with the right answers.
pub fn answer_file(alloc: Global, file: &str) -> Result<String, AllocError> {
    let mut out = String::new(alloc);
    let parts = parts(alloc, file)?;
    let pushed = push_parts(alloc, &mut out, parts.as_slice());
    drop(parts);
    pushed?;
    Ok(out)
}
