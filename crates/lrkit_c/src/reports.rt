//! Calls on a grammar's text, which make no parser to keep.

ghost use Rattle.std.specs.Prelude.{◌≡◌, IfErr, IfOk, string_bytes};
ghost use Rattle.grammar_report.specs.Outcomes.{IsOutcome};
ghost use Rattle.yacc_import.specs.Changes.{bytes_of, changed};
ghost use Rattle.lrkit_c.specs.Reports.{Imports, IsReportRefusal, PutsImport, PutsReport, Reports};
ghost use Rattle.lrkit_c.specs.declared.status.Status.TheVariants as statuses;

use crate::answers::{LrkitAnswer, answer, put_text};
use crate::status::Status;
use grammar_report::{Asked, Report, report, status};
use report_forms::json_text;
use report_values::{Wanted, findings_on};
use std::alloc::{AllocError, Global};
use text_messages::Source;
use yacc_import::{ImportError, Imported, import};

/// Makes the report on a grammar's text, with the closed states if they are asked for.
pub fn report_on(alloc: Global, text: &str, path: &str, states: bool) -> Result<Report, AllocError>
    ensures { IfOk result (λ r. IsOutcome text.now r.outcome) }
{
    let asked = Asked {
        each: false,
        full: false,
        states,
        sentences: false,
        next: None,
    };
    report(alloc, text, path, asked)
}

/// Makes the report on a source's text as one JSON object.
fn object_on(alloc: Global, source: &Source<'_>) -> Result<Report, Status>
    ensures outcome { IfOk result (λ r. IsOutcome source.now.text r.outcome) }
    ensures refused { IfErr result (λ s. s ≡ statuses.Memory) }
{
    let wanted = Wanted {
        conflicts: true,
        each: false,
        full: false,
        rules: false,
        states: None,
    };
    match findings_on(alloc, source, wanted) {
        Ok(found) => {
            let outcome = found.outcome;
            let text = json_text(alloc, &found.findings);
            drop(found);
            match text {
                Ok(text) => Ok(Report { text, outcome }),
                Err(_) => Err(Status::Memory),
            }
        }
        Err(_) => Err(Status::Memory),
    }
}

/// Makes the report on a text as one JSON object, with places at a path.
fn object_report(alloc: Global, text: &str, path: &str) -> Result<Report, Status>
    ensures outcome { IfOk result (λ r. IsOutcome text.now r.outcome) }
    ensures refused { IfErr result (λ s. s ≡ statuses.Memory) }
{
    match Source::new(alloc, text, path) {
        Ok(source) => {
            let made = object_on(alloc, &source);
            drop(source);
            made
        }
        Err(_) => Err(Status::Memory),
    }
}

/// Makes the report on a text for a person, with the closed states if they are asked for.
fn text_report(alloc: Global, text: &str, path: &str, states: bool) -> Result<Report, Status>
    ensures outcome { IfOk result (λ r. IsOutcome text.now r.outcome) }
    ensures refused { IfErr result (λ s. s ≡ statuses.Memory) }
{
    match report_on(alloc, text, path, states) {
        Ok(made) => Ok(made),
        Err(_) => Err(Status::Memory),
    }
}

/// Makes the report on a grammar's bytes: for a person for 0, as one JSON object for 1, for a person with the closed states for 2.
fn find_report(alloc: Global, text: &[u8], path: &[u8], form: u32) -> Result<Report, Status>
    ensures outcome { IfOk result (λ r. IsOutcome text.now r.outcome) }
    ensures refused { IfErr result (IsReportRefusal text.now path.now form) }
{
    let Ok(text) = std::str::from_utf8(text) else {
        return Err(Status::NotUtf8);
    };
    let Ok(path) = std::str::from_utf8(path) else {
        return Err(Status::NotUtf8);
    };
    if form == 0 {
        return text_report(alloc, text, path, false);
    }
    if form == 1 {
        return object_report(alloc, text, path);
    }
    if form == 2 {
        return text_report(alloc, text, path, true);
    }
    Err(Status::Unknown)
}

/// Writes a report, or why there is none.
fn put_report(found: &Result<Report, Status>, outcome: &mut u32, out: &mut [u8]) -> LrkitAnswer
    ensures { PutsReport out.old out.new outcome.old outcome.new found.now result }
{
    match found {
        Ok(made) => {
            *outcome = u32::from(status(made.outcome));
            put_text(Status::Done, made.text.as_bytes(), out)
        }
        Err(refused) => answer(*refused, 0),
    }
}

/// Writes the report on a grammar's text, with places at a path, and the checker's exit status as the outcome. The form is 0 for a
/// text, 1 for one JSON object, 2 for a text with the closed states.
#[unsafe(no_mangle)]
pub extern "C" fn lrkit_report(
    alloc: Global,
    text: &[u8],
    path: &[u8],
    form: u32,
    outcome: &mut u32,
    out: &mut [u8],
) -> LrkitAnswer
    ensures { Reports text.now path.now form out.old out.new outcome.old outcome.new result }
{
    let found = find_report(alloc, text, path, form);
    let put = put_report(&found, outcome, out);
    drop(found);
    put
}

/// Imports a file's bytes.
fn find_import(alloc: Global, file: &[u8]) -> Result<Imported, ImportRefusal>
    ensures { IfOk result (λ m. string_bytes m.text ≡ bytes_of (changed file.now 0 m.notes.items)) }
{
    let Ok(file) = std::str::from_utf8(file) else {
        return Err(ImportRefusal::NotUtf8);
    };
    match import(alloc, file) {
        Ok(imported) => Ok(imported),
        Err(ImportError::Memory(_)) => Err(ImportRefusal::Memory),
        Err(error) => Err(refusal_of(alloc, &error)),
    }
}

/// Why a file is not imported.
#[derive(Drop)]
enum ImportRefusal {
    /// Memory is refused.
    Memory,
    /// The file is not UTF-8.
    NotUtf8,
    /// What it has can't be imported, for this cause.
    Cause(String),
}

/// Returns the refusal of an error, in words.
fn refusal_of(alloc: Global, error: &ImportError) -> ImportRefusal {
    match error.to_string(alloc) {
        Ok(message) => ImportRefusal::Cause(message),
        Err(_) => ImportRefusal::Memory,
    }
}

/// Writes an imported text, or why there is none.
fn put_import(found: &Result<Imported, ImportRefusal>, out: &mut [u8]) -> LrkitAnswer
    ensures { PutsImport out.old out.new found.now result }
{
    match found {
        Ok(imported) => put_text(Status::Done, imported.text.as_bytes(), out),
        Err(ImportRefusal::Memory) => answer(Status::Memory, 0),
        Err(ImportRefusal::NotUtf8) => answer(Status::NotUtf8, 0),
        Err(ImportRefusal::Cause(message)) => put_text(Status::File, message.as_bytes(), out),
    }
}

/// Writes the text of a Bison or Yacc file in the kit's syntax; where it can't be imported, the message that says why.
#[unsafe(no_mangle)]
pub extern "C" fn lrkit_import(alloc: Global, file: &[u8], out: &mut [u8]) -> LrkitAnswer
    ensures { Imports file.now out.old out.new result }
{
    let found = find_import(alloc, file);
    let put = put_import(&found, out);
    drop(found);
    put
}
