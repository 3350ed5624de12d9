//! From the files of a grammar and a lexer to the server of their texts.

ghost use Rattle.std.specs.Prelude.{IfOk};
ghost use Rattle.kit_texts.specs.KitFiles.{IsKitOfFile};
ghost use Rattle.lrkit_lsp.specs.Statuses.{IsStatus};
ghost use Rattle.lrlex.specs.LexTexts.{ReadsRules};

use crate::fault::ProgramFault;
use crate::serving::serve;
use byte_streams::{InputFault, Recorded, cause_of, read_text};
use kit_texts::{kit_of_file, lexer_fault};
use language_server::ServeFault;
use lrlex::{LexRules, LexTextError};
use parser_kit::ParserKit;
use std::alloc::Global;
use std::io::{ErrorKind, Read};
use std::rt::Files;
use std::{fs, io};
use text_server::TextLanguage;

/// Returns the fault of a file that can't be read, for a cause.
fn unread(alloc: Global, path: &str, cause: &str) -> ProgramFault {
    match format!(in alloc; "{path}: {cause}") {
        Ok(line) => ProgramFault::Unread(line),
        Err(e) => ProgramFault::from(e),
    }
}

/// Returns the fault of a file that the system doesn't open or read.
fn read_fault(alloc: Global, path: &str, failure: &io::Error) -> ProgramFault {
    if failure.kind() == ErrorKind::OutOfMemory {
        return ProgramFault::Serve(ServeFault::Unwritten);
    }
    match cause_of(alloc, failure) {
        Ok(cause) => unread(alloc, path, cause.as_str()),
        Err(e) => ProgramFault::from(e),
    }
}

/// Reads a file to its end as a text.
fn read_from<S: Read + Drop>(alloc: Global, path: &str, file: S) -> Result<String, ProgramFault> {
    let mut source = Recorded::new(file);
    match read_text(alloc, &mut source) {
        Ok(text) => Ok(text),
        Err(InputFault::Read) => match source.cause(alloc) {
            Ok(cause) => Err(unread(alloc, path, cause.as_str())),
            Err(e) => Err(ProgramFault::from(e)),
        },
        Err(InputFault::TooLong) => Err(unread(alloc, path, "more than 67108864 bytes")),
        Err(InputFault::NotUtf8) => Err(unread(alloc, path, "not UTF-8")),
        Err(InputFault::Memory(e)) => Err(ProgramFault::from(e)),
    }
}

/// Reads the file of a path as a text.
fn read_file<R: Files + AllocGlobal>(rt: &R, path: &str) -> Result<String, ProgramFault> {
    match fs::open(rt, path) {
        Ok(file) => read_from(rt.alloc(), path, file),
        Err(e) => Err(read_fault(rt.alloc(), path, &e)),
    }
}

/// Returns the first line of messages that is the head of an error.
fn error_line(messages: &str) -> &str {
    'lines: for line in messages.split('\n') {
        if line.find(": error: ").is_some() {
            return line;
        }
    }
    messages.split('\n').next().unwrap_or("")
}

/// Returns the fault of a grammar or a lexer of which there are messages on what is wrong.
fn no_parser(alloc: Global, messages: &str) -> ProgramFault {
    match String::from_str(alloc, error_line(messages)) {
        Ok(line) => ProgramFault::NoParser(line),
        Err(e) => ProgramFault::from(e),
    }
}

/// Makes the parser of a grammar's file.
fn make_kit(alloc: Global, text: &str, path: &str) -> Result<ParserKit<u32>, ProgramFault>
    ensures { IfOk result (IsKitOfFile text.now) }
{
    match kit_of_file(alloc, text, path) {
        Ok(Ok(kit)) => Ok(kit),
        Ok(Err(messages)) => Err(no_parser(alloc, messages.as_str())),
        Err(e) => Err(ProgramFault::from(e)),
    }
}

/// Returns the fault of a lexer's text with an error.
fn rules_fault(alloc: Global, text: &str, path: &str, error: &LexTextError) -> ProgramFault {
    if error.is_memory() {
        return ProgramFault::Serve(ServeFault::Unwritten);
    }
    match lexer_fault(alloc, text, path, error) {
        Ok(messages) => no_parser(alloc, messages.as_str()),
        Err(e) => ProgramFault::from(e),
    }
}

/// Makes the rules of a lexer's file.
fn make_rules(alloc: Global, text: &str, path: &str) -> Result<LexRules, ProgramFault>
    ensures { IfOk result (ReadsRules text.now) }
{
    match LexRules::from_text(alloc, text) {
        Ok(rules) => Ok(rules),
        Err(error) => {
            let fault = rules_fault(alloc, text, path, &error);
            drop(error);
            Err(fault)
        }
    }
}

/// Serves texts by a parser and the rules of a lexer.
fn serve_by<R: io::Input + Print + AllocGlobal>(
    rt: &R,
    kit: &ParserKit<u32>,
    rules: &LexRules,
) -> Result<u8, ProgramFault>
    ensures { IfOk result IsStatus }
{
    let bound = rules.bind(rt.alloc(), kit.grm())?;
    let bound = &bound;
    serve(rt, &TextLanguage { kit, bound })
}

/// Reads the lexer, and serves texts.
fn serve_with_kit<R: Files + io::Input + Print + AllocGlobal>(
    rt: &R,
    kit: &ParserKit<u32>,
    lexer: &str,
) -> Result<u8, ProgramFault>
    ensures { IfOk result IsStatus }
{
    let text = read_file(rt, lexer)?;
    let rules = make_rules(rt.alloc(), text.as_str(), lexer)?;
    let ended = serve_by(rt, kit, &rules);
    drop(rules);
    ended
}

/// Reads the files of a grammar and a lexer, and serves their texts as `serve` does.
pub fn serve_texts<R: Files + io::Input + Print + AllocGlobal>(
    rt: &R,
    grammar: &str,
    lexer: &str,
) -> Result<u8, ProgramFault>
    ensures { IfOk result IsStatus }
{
    let text = read_file(rt, grammar)?;
    let kit = make_kit(rt.alloc(), text.as_str(), grammar)?;
    let ended = serve_with_kit(rt, &kit, lexer);
    drop(kit);
    ended
}
