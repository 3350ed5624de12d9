//! Prints files of rows, each with what a crate answers to its texts in the place of the answers that it holds: a file of right
//! answers is printed as it is. `tools/rows/rows` makes `args` and `stdout` of the files in `data/`.
//!
//! The arguments are words of `Kind` and paths: a file is answered by the crate of the word before it.
#![tactic(auto)]

use std::alloc::{AllocError, Global};
use std::fs::Files;
use std::{env, fs, io};

/// The crate that answers a file.
#[derive(Clone, Copy, Drop)]
enum Kind {
    Read,
    Grammar,
    Table,
    Diagnostic,
    Report,
    Kit,
    Import,
    Hostile,
}

/// Returns the kind of a word, if it is one.
fn kind_of(word: &str) -> Option<Kind> {
    match word {
        "read" => Some(Kind::Read),
        "grammar" => Some(Kind::Grammar),
        "table" => Some(Kind::Table),
        "diagnostic" => Some(Kind::Diagnostic),
        "report" => Some(Kind::Report),
        "kit" => Some(Kind::Kit),
        "import" => Some(Kind::Import),
        "hostile" => Some(Kind::Hostile),
        _ => None,
    }
}

/// Answers a file.
fn answer(alloc: Global, kind: Kind, file: &str) -> Result<String, AllocError> {
    match kind {
        Kind::Read => read_rows::answer_file(alloc, file),
        Kind::Grammar => grammar_rows::answer_file(alloc, file),
        Kind::Table => table_rows::answer_file(alloc, file),
        Kind::Diagnostic => diagnostic_rows::answer_file(alloc, file),
        Kind::Report => report_rows::answer_file(alloc, file),
        Kind::Kit => kit_rows::answer_file(alloc, file),
        Kind::Import => import_rows::answer_file(alloc, file),
        Kind::Hostile => hostile_rows::summary_of(alloc, file),
    }
}

/// Prints the answer to a file; of a hostile one its path too, since its rows aren't printed.
fn print_answer<R: Files + Print + AllocGlobal>(rt: &R, kind: Kind, path: &str) -> io::Result<()> {
    let file = fs::read_to_string(rt, path)?;
    let answered = answer(rt.alloc(), kind, file.as_str())?;
    if let Kind::Hostile = kind {
        print!(rt; "{path}: ")?;
    }
    print!(rt; "{answered}")
}

fn main(rt: HostRuntime) -> io::Result<()> {
    let mut kind = Kind::Read;
    for word in env::args(&rt)?.skip(1) {
        match kind_of(word.as_str()) {
            Some(named) => kind = named,
            None => print_answer(&rt, kind, word.as_str())?,
        }
    }
    Ok(())
}
