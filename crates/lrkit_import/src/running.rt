//! From the words to the written text.

ghost use Rattle.std.specs.Prelude.{◌+◌, IfOk, IfErr, OnOk, OnErr, string_bytes};
ghost use Rattle.std.specs.Io.KnownBytes.{Appends};
ghost use Rattle.byte_streams.specs.Inputs.{most_bytes, TakesAtMost};
ghost use Rattle.byte_streams.specs.Sink.{BeginningWritten};
ghost use Rattle.lrkit_import.specs.Runs.{IsImportOf, IsImportOfSome, IsCause, IsWriteFault};

use crate::counts::counts_text;
use crate::fault::{RunFault, fault_of, fault_of_check};
use crate::words::Words;
use byte_streams::{Counted, Sink, Source, read_text, write_all};
use checked_import::import_checked;
use std::alloc::Global;
use std::rt::Files;
use std::{fs, io};
use yacc_import::Imported;

/// Imports the file that a source gives.
fn import_from<S: Source>(alloc: Global, source: &mut S) -> Result<Imported, RunFault>
    ensures ok { IfOk result (λ m. IsImportOf (S.known source.old) (string_bytes m.text)) }
    ensures cause { IfErr result (IsCause (S.known source.old) (S.faults source.old) (S.faults source.new)) }
    ensures took { TakesAtMost (most_bytes + 1) (S.known source.old) (S.known source.new) }
{
    let text = match read_text(alloc, source) {
        Ok(text) => text,
        Err(e) => return Err(fault_of(e)),
    };
    // Read, so that the proof may use how many bytes it has.
    let _bytes = text.as_bytes();
    match import_checked(alloc, text.as_str()) {
        Ok(imported) => Ok(imported),
        Err(e) => Err(fault_of_check(e)),
    }
}

/// Writes a text to a sink.
fn write_to<W: Sink>(out: &mut W, text: &str) -> Result<(), RunFault>
    ensures ok { OnOk result (Appends (W.known out.old) (W.known out.new) text.now) }
    ensures begins { OnErr result (BeginningWritten (W.known out.old) (W.known out.new) text.now) }
    ensures cause { IfErr result (IsWriteFault (W.faults out.old) (W.faults out.new)) }
{
    match write_all(out, text.as_bytes()) {
        Ok(()) => Ok(()),
        Err(_) => Err(RunFault::Write),
    }
}

/// Imports a file.
fn import_file<R: Files + AllocGlobal>(rt: &R, path: &str) -> Result<Imported, RunFault>
    ensures { IfOk result (λ m. IsImportOfSome (string_bytes m.text)) }
{
    let Ok(file) = fs::open(rt, path) else {
        return Err(RunFault::Read);
    };
    let mut source = Counted::new(file);
    import_from(rt.alloc(), &mut source)
}

/// Writes a text to a file, or to standard output.
fn write_text<R: Files + Print>(rt: &R, out: Option<&str>, text: &str) -> Result<(), RunFault> {
    let Some(path) = out else {
        return write_to(&mut Counted::new(io::writer(rt)), text);
    };
    let Ok(file) = fs::create(rt, path) else {
        return Err(RunFault::Write);
    };
    write_to(&mut Counted::new(file), text)
}

/// Writes the profile's text, and says on standard error what was changed.
fn write_import<R: Files + Print + Eprint + AllocGlobal>(
    rt: &R,
    out: Option<&str>,
    imported: &Imported,
) -> Result<(), RunFault> {
    let counts = match counts_text(rt.alloc(), imported.notes.as_slice()) {
        Ok(counts) => counts,
        Err(e) => return Err(RunFault::Memory(e)),
    };
    let written = write_text(rt, out, imported.text.as_str());
    let _ = eprint!(rt; "{counts}");
    written
}

/// Imports a file, writes the profile's text, and says on standard error what was changed. Returns the import.
pub fn run<R: Files + Print + Eprint + AllocGlobal>(
    rt: &R,
    words: &Words,
) -> Result<Imported, RunFault>
    ensures { IfOk result (λ m. IsImportOfSome (string_bytes m.text)) }
{
    let imported = import_file(rt, words.file.as_str())?;
    let out = words.out.as_ref().map(|path| path.as_str());
    match write_import(rt, out, &imported) {
        Ok(()) => Ok(imported),
        Err(e) => {
            drop(imported);
            Err(e)
        }
    }
}
