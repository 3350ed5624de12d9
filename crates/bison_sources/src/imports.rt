//! Imports of Bison files, with the places of these files.

ghost use Rattle.std.specs.Prelude.{◌≡◌, false, string_bytes, IfOk};
ghost use Rattle.checked_import.specs.SameRules.{HasRulesOf};
ghost use Rattle.yacc_import.specs.Changes.{places_of};
ghost use Rattle.bison_sources.specs.Refusals.{place_of_refusal};
ghost use Rattle.text_messages.specs.declared.source.Severity.TheVariants.{Error};

use crate::signs::BisonFile;
use cfg_base::span::Span;
use checked_import::{CheckedError, import_checked};
use std::alloc::{AllocError, Global};
use text_messages::{Message, Original, Severity, Source};
use yacc_import::{ImportError, Imported, Mark};

/// The import of a Bison file.
#[derive(Drop)]
pub struct BisonImport {
    /// The import.
    pub imported: Imported,
    /// The place in the file of each byte of the import's text.
    pub places: Vec<usize>,
}

/// Returns the places of the bytes of an import.
fn places_of(alloc: Global, marks: &[Mark]) -> Result<Vec<usize>, AllocError>
    ensures { IfOk result (λ v. v.items ≡ places_of marks.now) }
{
    marks.iter().map(|mark| mark.place).collect(alloc)
}

/// Imports a file. The rules that the text of the import reads as are those of the file.
pub fn import_file(alloc: Global, file: BisonFile<'_>) -> Result<BisonImport, CheckedError>
    ensures rules { IfOk result (λ m. HasRulesOf file.entry.text.now (string_bytes m.imported.text)) }
    ensures places { IfOk result (λ m. m.places.items ≡ places_of m.imported.marks.items) }
{
    let imported = import_checked(alloc, file.text)?;
    match places_of(alloc, imported.marks.as_slice()) {
        Ok(places) => Ok(BisonImport { imported, places }),
        Err(e) => {
            drop(imported);
            Err(CheckedError::Memory(e))
        }
    }
}

impl BisonImport {
    /// Returns the import's text as a source that shows the file.
    pub fn source<'a>(
        &'a self,
        alloc: Global,
        file: BisonFile<'a>,
    ) -> Result<Source<'a>, AllocError>
        ensures { IfOk result (λ s. s ≡ record { text = string_bytes self.entry.now.imported.text; shown = file.entry.text.now; places = self.entry.now.places.items; path = file.entry.path.now; color = false }) }
    {
        let original = Original {
            text: file.text,
            places: self.places.as_slice(),
        };
        Source::of_original(alloc, self.imported.text.as_str(), original, file.path)
    }
}

/// Returns what is wrong with a file that isn't imported: its first fault at its place, or what the check of the import found.
pub fn refusal_message(alloc: Global, error: CheckedError) -> Result<Message, AllocError>
    ensures severity { IfOk result (λ m. m.severity ≡ Error) }
    ensures place { IfOk result (λ m. m.span ≡ place_of_refusal error) }
{
    let (words, span) = match error {
        CheckedError::Import(ImportError::Refused(fault, at)) => {
            (fault.to_string(alloc)?, Some(Span::new(at, at)))
        }
        CheckedError::Import(ImportError::Memory(e)) => return Err(e),
        CheckedError::NoRules => (String::from_str(alloc, "no rules")?, None),
        CheckedError::NotRead(at) => {
            (
                format!(in alloc; "import does not read, at byte {at} of it")?,
                None,
            )
        }
        CheckedError::OtherRules => (String::from_str(alloc, "import has other rules")?, None),
        CheckedError::OtherStart => {
            (
                String::from_str(alloc, "import has another start rule")?,
                None,
            )
        }
        CheckedError::OtherLevels => {
            (
                String::from_str(alloc, "import has other precedence levels")?,
                None,
            )
        }
        CheckedError::TooManyNames => (String::from_str(alloc, "too many names")?, None),
        CheckedError::Memory(e) => return Err(e),
    };
    Ok(Message::new(Severity::Error, span, words))
}
