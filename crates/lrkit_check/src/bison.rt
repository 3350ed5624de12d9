//! Reports on files in the syntax of Bison or Yacc, with the places of these files.

ghost use Rattle.std.specs.Prelude.{◌≡◌, string_bytes, IfOk};
ghost use Rattle.grammar_report.specs.Outcomes.{IsOutcome};
ghost use Rattle.grammar_report.specs.declared.outcome.Outcome.TheVariants.{Invalid};
ghost use Rattle.lrkit_check.specs.Texts.{IsOfImport};

use crate::fault::CheckFault;
use crate::forms::{Form, report_in, report_of_error};
use bison_sources::{BisonFile, BisonImport, import_file, note_messages, refusal_message};
use checked_import::CheckedError;
use grammar_report::Report;
use std::alloc::Global;
use text_messages::Source;

/// Returns the report on the text of an import, with places in the file.
fn report_on_import(
    alloc: Global,
    file: BisonFile<'_>,
    shown: &Source<'_>,
    import: &BisonImport,
    form: Form<'_>,
) -> Result<Report, CheckFault>
    ensures { IfOk result (λ r. IsOutcome (string_bytes import.now.imported.text) r.outcome) }
{
    let notes = note_messages(alloc, import.imported.notes.as_slice(), file.sign)?;
    let source = import.source(alloc, file)?.with_color(shown.in_color());
    let told = report_in(alloc, &source, shown, notes, form);
    drop(source);
    told
}

/// Returns the report on a file that isn't imported.
fn refusal(
    alloc: Global,
    file: BisonFile<'_>,
    shown: &Source<'_>,
    error: CheckedError,
    form: Form<'_>,
) -> Result<Report, CheckFault>
    ensures { IfOk result (λ r. r.outcome ≡ Invalid) }
{
    let error = refusal_message(alloc, error)?;
    let notes = note_messages(alloc, &[], file.sign)?;
    report_of_error(alloc, shown, notes, error, form)
}

/// Imports a file, and returns the report on that.
fn report_in_bison(
    alloc: Global,
    file: BisonFile<'_>,
    shown: &Source<'_>,
    form: Form<'_>,
) -> Result<Report, CheckFault>
    ensures { IfOk result (λ r. IsOfImport file.entry.text.now r.outcome) }
{
    match import_file(alloc, file) {
        Ok(import) => {
            let told = report_on_import(alloc, file, shown, &import, form);
            drop(import);
            told
        }
        Err(error) => refusal(alloc, file, shown, error, form),
    }
}

/// Returns the report on a Bison file: what its import leaves out or changes, and what a report says of its text; or why there
/// is no import. Places are those of the file.
pub fn report_on_bison(
    alloc: Global,
    file: BisonFile<'_>,
    form: Form<'_>,
    color: bool,
) -> Result<Report, CheckFault>
    ensures { IfOk result (λ r. IsOfImport file.entry.text.now r.outcome) }
{
    let shown = Source::new(alloc, file.text, file.path)?.with_color(color);
    let told = report_in_bison(alloc, file, &shown, form);
    drop(shown);
    told
}
