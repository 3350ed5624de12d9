//! The diagnostics of Bison files, at their own places.

ghost use Rattle.std.specs.Prelude.{◌≤◌, ◌+◌, OnOk, length};

use crate::answers::Diagnostic;
use crate::diagnostics::{View, push_findings, push_source};
use crate::fault::ServeFault;
use bison_sources::{BisonFile, BisonImport, import_file, refusal_message};
use checked_import::CheckedError;
use report_values::{LeftOut, findings_of_error};
use std::alloc::Global;
use text_messages::Source;

/// No message is left out.
const NONE_LEFT: LeftOut = LeftOut {
    errors: 0,
    warnings: 0,
};

/// Adds what is found of the import of a file.
fn push_import(
    alloc: Global,
    view: &View<'_>,
    found: &mut Vec<Diagnostic>,
    file: BisonFile<'_>,
    import: &BisonImport,
) -> Result<(), ServeFault>
    ensures { OnOk result (length found.new.items ≤ length found.old.items + 3003) }
{
    let source = import.source(alloc, file)?;
    let pushed = push_source(alloc, view, found, &source);
    drop(source);
    pushed
}

/// Adds why a file isn't imported.
fn push_refusal(
    alloc: Global,
    view: &View<'_>,
    found: &mut Vec<Diagnostic>,
    error: CheckedError,
) -> Result<(), ServeFault>
    ensures { OnOk result (length found.new.items ≤ length found.old.items + 3003) }
{
    let message = refusal_message(alloc, error)?;
    let source = Source::new(alloc, view.text, view.uri)?;
    let read = findings_of_error(alloc, &source, message)?;
    drop(source);
    let pushed = push_findings(alloc, view, found, &read.findings, NONE_LEFT);
    drop(read);
    pushed?;
    Ok(())
}

/// Adds the diagnostics of a Bison file: what is found of its import, or why there is none.
pub fn push_bison(
    alloc: Global,
    view: &View<'_>,
    found: &mut Vec<Diagnostic>,
    file: BisonFile<'_>,
) -> Result<(), ServeFault>
    ensures { OnOk result (length found.new.items ≤ length found.old.items + 3003) }
{
    match import_file(alloc, file) {
        Ok(import) => {
            let pushed = push_import(alloc, view, found, file, &import);
            drop(import);
            pushed
        }
        Err(error) => push_refusal(alloc, view, found, error),
    }
}
