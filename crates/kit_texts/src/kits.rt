//! Parsers of grammars' texts and files.

ghost use Rattle.std.specs.Prelude.{IfErr, IfOk, string_bytes};
ghost use Rattle.grammar_report.specs.Outcomes.{IsKitIn, IsOutcome};
ghost use Rattle.kit_texts.specs.KitFiles.{IsKitOfFile};

use bison_sources::{BisonFile, BisonImport, bison_file, import_file, refusal_message};
use checked_import::CheckedError;
use grammar_report::{Asked, Report, report_on};
use parser_kit::{KitError, ParserKit};
use std::alloc::{AllocError, Global};
use text_messages::Source;

/// No chain of reductions on one token goes past this.
const CAP: u16 = 1000;

/// What a report is asked for that says what is wrong with a text.
const PLAIN: Asked<'static> = Asked {
    each: false,
    full: false,
    states: false,
    sentences: false,
    next: None,
};

/// Makes the parser of a grammar's text, or returns the report that says what is wrong with the text.
pub fn make_kit(
    alloc: Global,
    source: &Source<'_>,
) -> Result<Result<ParserKit<u32>, Report>, AllocError>
    ensures kit { IfOk result (λ r. IfOk r (IsKitIn source.now.text)) }
    ensures report { IfOk result (λ r. IfErr r (λ told. IsOutcome source.now.text told.outcome)) }
{
    match ParserKit::of_text(alloc, source.text(), CAP) {
        Ok(kit) => Ok(Ok(kit)),
        Err(KitError::Memory(e)) => Err(e),
        Err(refusal) => {
            drop(refusal);
            let told = report_on(alloc, source, PLAIN)?;
            Ok(Err(told))
        }
    }
}

/// Makes the parser of a source, or returns the messages on what is wrong with it.
fn kit_of_source(
    alloc: Global,
    source: &Source<'_>,
) -> Result<Result<ParserKit<u32>, String>, AllocError>
    ensures { IfOk result (λ r. IfOk r (IsKitIn source.now.text)) }
{
    match make_kit(alloc, source) {
        Ok(Ok(kit)) => Ok(Ok(kit)),
        Ok(Err(told)) => {
            let Report { text, outcome: _ } = told;
            Ok(Err(text))
        }
        Err(e) => Err(e),
    }
}

/// Makes the parser of the import of a Bison file, or returns the messages on what is wrong with it.
fn kit_of_import(
    alloc: Global,
    file: BisonFile<'_>,
    import: &BisonImport,
) -> Result<Result<ParserKit<u32>, String>, AllocError>
    ensures { IfOk result (λ r. IfOk r (IsKitIn (string_bytes import.now.imported.text))) }
{
    let source = import.source(alloc, file)?;
    let made = kit_of_source(alloc, &source);
    drop(source);
    made
}

/// Returns the message on why a Bison file isn't imported.
fn refusal_text(
    alloc: Global,
    file: BisonFile<'_>,
    error: CheckedError,
) -> Result<String, AllocError> {
    let message = refusal_message(alloc, error)?;
    let source = Source::new(alloc, file.text, file.path)?;
    let mut text = String::new(alloc);
    source.push(alloc, &mut text, &message)?;
    Ok(text)
}

/// Makes the parser of a Bison file, or returns the messages on what is wrong with it.
fn kit_of_bison(
    alloc: Global,
    file: BisonFile<'_>,
) -> Result<Result<ParserKit<u32>, String>, AllocError>
    ensures { IfOk result (λ r. IfOk r (IsKitOfFile file.entry.text.now)) }
{
    match import_file(alloc, file) {
        Ok(import) => {
            let made = kit_of_import(alloc, file, &import);
            drop(import);
            made
        }
        Err(error) => Ok(Err(refusal_text(alloc, file, error)?)),
    }
}

/// Makes the parser of a grammar's file, or returns the messages on what is wrong with it. A file in Bison's syntax is imported.
///
/// # Errors
///
/// Where memory is refused.
pub fn kit_of_file(
    alloc: Global,
    text: &str,
    path: &str,
) -> Result<Result<ParserKit<u32>, String>, AllocError>
    ensures { IfOk result (λ r. IfOk r (IsKitOfFile text.now)) }
{
    if let Some(file) = bison_file(text, path, false) {
        return kit_of_bison(alloc, file);
    }
    let source = Source::new(alloc, text, path)?;
    let made = kit_of_source(alloc, &source);
    drop(source);
    made
}
