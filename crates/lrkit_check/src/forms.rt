//! Reports in the form that is asked for.

ghost use Rattle.std.specs.Prelude.{◌≡◌, IfOk, IfErr};
ghost use Rattle.grammar_report.specs.Outcomes.{IsOutcome};
ghost use Rattle.grammar_report.specs.declared.outcome.Outcome.TheVariants.{Invalid};
ghost use Rattle.lrkit_check.specs.Forms.{IsRefusalOf, IsWant, wanted_of};
ghost use Rattle.lrkit_check.specs.declared.forms.Form.TheVariants.{Dot};

use crate::fault::CheckFault;
use bison_sources::push_notes;
use grammar_report::{Asked, Outcome, Report, report_on};
use report_forms::{Findings, dot_text, html_text, json_text, said_of};
use report_values::{Wanted, findings_of_error, findings_on};
use std::alloc::{AllocError, Global};
use text_messages::{Message, Source};

/// How many states are drawn at most.
const MOST_STATES: usize = 2000;

/// The form of a report, with what is asked for of it.
#[derive(Clone, Copy)]
pub enum Form<'a> {
    /// For a person.
    Text(Asked<'a>),
    /// One JSON object of these values.
    Json(Wanted),
    /// The states for Graphviz.
    Dot,
    /// A page with this title.
    Html(&'a str),
}

/// The form for a person without more than each report has.
const PLAIN: Asked<'static> = Asked {
    each: false,
    full: false,
    states: false,
    sentences: false,
    next: None,
};

/// Returns the values that a form is made of. A graph has no examples.
fn wanted_of(form: Form<'_>) -> Wanted
    ensures { result ≡ wanted_of form.entry }
{
    let conflicts = match form {
        Form::Json(wanted) => return wanted,
        Form::Dot => false,
        _ => true,
    };
    Wanted {
        conflicts,
        each: false,
        full: false,
        rules: conflicts,
        states: Some(MOST_STATES),
    }
}

/// Adds notes on how a file was read.
fn add_notes(
    findings: &mut Findings,
    file: &Source<'_>,
    notes: Vec<Message>,
) -> Result<(), AllocError> {
    'notes: for note in notes {
        findings.object.notes.push(said_of(file, note))?;
    }
    Ok(())
}

/// Returns findings as one JSON object.
fn object_text(alloc: Global, findings: &Findings) -> Result<String, CheckFault>
    ensures { IfErr result IsWant }
{
    match json_text(alloc, findings) {
        Ok(text) => Ok(text),
        Err(_) => Err(CheckFault::Unwritten),
    }
}

/// Returns findings as one JSON object, as a graph or as a page, with notes on how a file was read.
fn findings_text(
    alloc: Global,
    findings: &mut Findings,
    file: &Source<'_>,
    notes: Vec<Message>,
    form: Form<'_>,
) -> Result<String, CheckFault>
    ensures { IfErr result IsWant }
{
    add_notes(findings, file, notes)?;
    let text = match form {
        Form::Dot => dot_text(alloc, findings)?,
        Form::Html(title) => html_text(alloc, findings, title)?,
        _ => object_text(alloc, findings)?,
    };
    Ok(text)
}

/// Returns the report on a source's text in a form for other programs.
fn findings_report(
    alloc: Global,
    source: &Source<'_>,
    file: &Source<'_>,
    notes: Vec<Message>,
    form: Form<'_>,
) -> Result<Report, CheckFault>
    ensures outcome { IfOk result (λ r. IsOutcome source.now.text r.outcome) }
    ensures refusal { IfErr result (IsRefusalOf form.entry) }
{
    let mut found = findings_on(alloc, source, wanted_of(form))?;
    let outcome = found.outcome;
    let text = findings_text(alloc, &mut found.findings, file, notes, form);
    drop(found);
    let text = text?;
    Ok(Report { text, outcome })
}

/// Returns the report on a source's text for a person, behind notes on how a file was read.
fn text_report(
    alloc: Global,
    source: &Source<'_>,
    file: &Source<'_>,
    notes: &[Message],
    asked: Asked<'_>,
) -> Result<Report, AllocError>
    ensures { IfOk result (λ r. IsOutcome source.now.text r.outcome) }
{
    let mut text = String::new(alloc);
    push_notes(alloc, &mut text, file, notes)?;
    let Report {
        text: told,
        outcome,
    } = report_on(alloc, source, asked)?;
    text.push_str(told.as_str())?;
    Ok(Report { text, outcome })
}

/// Returns the states of a source's text for Graphviz; where it gives no parser, its errors for a person.
fn dot_report(alloc: Global, source: &Source<'_>, file: &Source<'_>) -> Result<Report, CheckFault>
    ensures outcome { IfOk result (λ r. IsOutcome source.now.text r.outcome) }
    ensures refusal { IfErr result (IsRefusalOf Dot) }
{
    let drawn = findings_report(alloc, source, file, Vec::new(alloc), Form::Dot)?;
    if drawn.outcome == Outcome::Invalid {
        let told = report_on(alloc, source, PLAIN)?;
        return Ok(told);
    }
    Ok(drawn)
}

/// Returns the report on a source's text in a form. The notes are on how the file was read that the text was made of.
pub fn report_in(
    alloc: Global,
    source: &Source<'_>,
    file: &Source<'_>,
    notes: Vec<Message>,
    form: Form<'_>,
) -> Result<Report, CheckFault>
    ensures outcome { IfOk result (λ r. IsOutcome source.now.text r.outcome) }
    ensures refusal { IfErr result (IsRefusalOf form.entry) }
{
    match form {
        Form::Text(asked) => {
            let told = text_report(alloc, source, file, notes.as_slice(), asked)?;
            Ok(told)
        }
        Form::Dot => dot_report(alloc, source, file),
        _ => findings_report(alloc, source, file, notes, form),
    }
}

/// Returns an error in a form for other programs, with notes on how the file was read.
fn error_findings(
    alloc: Global,
    file: &Source<'_>,
    notes: Vec<Message>,
    error: Message,
    form: Form<'_>,
) -> Result<String, CheckFault> {
    let mut found = findings_of_error(alloc, file, error)?;
    let text = findings_text(alloc, &mut found.findings, file, notes, form);
    drop(found);
    text
}

/// Returns an error for a person, behind notes on how the file was read.
fn error_text(
    alloc: Global,
    file: &Source<'_>,
    notes: &[Message],
    error: &Message,
) -> Result<String, AllocError> {
    let mut text = String::new(alloc);
    push_notes(alloc, &mut text, file, notes)?;
    file.push(alloc, &mut text, error)?;
    Ok(text)
}

/// Returns the report on a file of which no grammar's text could be made, for an error.
pub fn report_of_error(
    alloc: Global,
    file: &Source<'_>,
    notes: Vec<Message>,
    error: Message,
    form: Form<'_>,
) -> Result<Report, CheckFault>
    ensures { IfOk result (λ r. r.outcome ≡ Invalid) }
{
    let text = match form {
        Form::Json(_) | Form::Html(_) => error_findings(alloc, file, notes, error, form)?,
        _ => error_text(alloc, file, notes.as_slice(), &error)?,
    };
    let outcome = Outcome::Invalid;
    Ok(Report { text, outcome })
}
