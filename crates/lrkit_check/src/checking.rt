//! From the words to the report.

ghost use Rattle.std.specs.Prelude.{◌≡◌, IfOk};
ghost use Rattle.grammar_report.specs.Outcomes.{IsOutcome};
ghost use Rattle.lrkit_check.specs.Texts.{IsOfFile, IsOfSomeFile};

use crate::bison::report_on_bison;
use crate::fault::{CheckFault, Input, fault_of};
use crate::forms::{Form, report_in};
use crate::words::{Shape, Words};
use bison_sources::bison_file;
use byte_streams::{Recorded, cause_of, read_text, write_all};
use grammar_report::{Asked, LineFile, Outcome, Report};
use report_values::Wanted;
use std::alloc::Global;
use std::io::Read;
use std::rt::Files;
use std::{fs, io};
use text_messages::Source;

/// Reads an input to its end as a text.
fn read_from<S: Read + Drop>(alloc: Global, input: Input, from: S) -> Result<String, CheckFault> {
    let mut source = Recorded::new(from);
    match read_text(alloc, &mut source) {
        Ok(text) => Ok(text),
        Err(e) => {
            let cause = source.cause(alloc)?;
            Err(fault_of(input, cause, e))
        }
    }
}

/// Reads a file as a text; standard input where the path is `-`.
fn read_input<R: Files + io::Input + AllocGlobal>(
    rt: &R,
    input: Input,
    path: &str,
) -> Result<String, CheckFault> {
    if path == "-" {
        return read_from(rt.alloc(), input, rt.reader());
    }
    match fs::open(rt, path) {
        Ok(file) => read_from(rt.alloc(), input, file),
        Err(e) => {
            let cause = cause_of(rt.alloc(), &e)?;
            Err(CheckFault::Read(input, cause))
        }
    }
}

/// Writes a page to a file, and returns its report's outcome.
fn write_page<R: Files + AllocGlobal>(
    rt: &R,
    path: &str,
    told: &Report,
) -> Result<Outcome, CheckFault>
    ensures { IfOk result (λ outcome. outcome ≡ told.now.outcome) }
{
    let file = match fs::create(rt, path) {
        Ok(file) => file,
        Err(e) => {
            let cause = cause_of(rt.alloc(), &e)?;
            return Err(CheckFault::Page(cause));
        }
    };
    let mut out = Recorded::new(file);
    if write_all(&mut out, told.text.as_bytes()).is_err() {
        let cause = out.cause(rt.alloc())?;
        return Err(CheckFault::Page(cause));
    }
    let outcome = told.outcome;
    Ok(outcome)
}

/// Writes a report to standard output, and returns its outcome.
fn write_report<R: Print + AllocGlobal>(rt: &R, told: &Report) -> Result<Outcome, CheckFault>
    ensures { IfOk result (λ outcome. outcome ≡ told.now.outcome) }
{
    let mut out = Recorded::new(io::writer(rt));
    match write_all(&mut out, told.text.as_bytes()) {
        Ok(()) => Ok(told.outcome),
        Err(_) => {
            if out.is_closed_pipe() {
                return Err(CheckFault::Closed);
            }
            let cause = out.cause(rt.alloc())?;
            Err(CheckFault::Write(cause))
        }
    }
}

/// Returns the report on a grammar's text.
fn report_on_text(
    alloc: Global,
    grammar: &str,
    path: &str,
    form: Form<'_>,
    color: bool,
) -> Result<Report, CheckFault>
    ensures { IfOk result (λ r. IsOutcome grammar.now r.outcome) }
{
    let source = Source::new(alloc, grammar, path)?.with_color(color);
    let told = report_in(alloc, &source, &source, Vec::new(alloc), form);
    drop(source);
    told
}

/// Returns the form that is asked for, with the lines if they are.
fn form_of<'a>(words: Words<'a>, next: Option<LineFile<'a>>) -> Form<'a> {
    match words.shape {
        Shape::Text => Form::Text(Asked {
            each: words.each,
            full: words.full,
            states: words.states,
            sentences: words.sentences,
            next,
        }),
        Shape::Json => Form::Json(Wanted {
            conflicts: true,
            each: words.each,
            full: words.full,
            rules: false,
            states: None,
        }),
        Shape::Dot => Form::Dot,
        Shape::Html => Form::Html(words.path(Input::Grammar)),
    }
}

/// Returns the report on a grammar's file, in either syntax.
fn report_of(
    alloc: Global,
    words: Words<'_>,
    grammar: &str,
    form: Form<'_>,
) -> Result<Report, CheckFault>
    ensures { IfOk result (λ r. IsOfFile grammar.now r.outcome) }
{
    let path = words.path(Input::Grammar);
    match bison_file(grammar, path, words.bison) {
        Some(file) => report_on_bison(alloc, file, form, words.color),
        None => report_on_text(alloc, grammar, path, form, words.color),
    }
}

/// Writes the report on a grammar's file.
fn write_report_in<R: Files + Print + AllocGlobal>(
    rt: &R,
    words: Words<'_>,
    grammar: &str,
    next: Option<LineFile<'_>>,
) -> Result<Outcome, CheckFault>
    ensures { IfOk result IsOfSomeFile }
{
    let told = report_of(rt.alloc(), words, grammar, form_of(words, next))?;
    match words.page {
        Some(page) => write_page(rt, page, &told),
        None => write_report(rt, &told),
    }
}

/// Reads the grammar, and then the lines if they are asked for, and writes the report.
pub fn check<R: Files + io::Input + Print + AllocGlobal>(
    rt: &R,
    words: Words<'_>,
) -> Result<Outcome, CheckFault>
    ensures { IfOk result IsOfSomeFile }
{
    let grammar = read_input(rt, Input::Grammar, words.path(Input::Grammar))?;
    if words.lines.is_none() {
        return write_report_in(rt, words, grammar.as_str(), None);
    }
    let lines = words.path(Input::Lines);
    let read = read_input(rt, Input::Lines, lines)?;
    let next = Some(LineFile {
        text: read.as_str(),
        path: lines,
    });
    write_report_in(rt, words, grammar.as_str(), next)
}
