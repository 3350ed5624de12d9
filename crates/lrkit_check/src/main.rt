//! The program `lrkit-check GRAMMAR [OPTION ..]`: its arguments, files and standard output around the library's reports.
#![tactic(auto)]

ghost use Rattle.std.specs.Prelude.{◌≡◌};

mod bison;
mod checking;
mod fault;
mod forms;
mod words;

use checking::check;
use clap::error::ErrorKind;
use fault::{CheckFault, status};
use std::env::Args;
use std::process::ExitCode;
use std::rt::Files;
use std::{env, io};
use words::{Words, read_words};

const USAGE: u8 = 64;

const OUT_OF_MEMORY: u8 = 6;

const WRITE_FAULT: u8 = 5;

const HELP: &str = "\
usage: lrkit-check GRAMMAR [--bison] [--each] [--full] [--states] [--sentences] [--next LINES]
                   [--color=always|never] [--json | --dot | --html FILE]
       lrkit-check --help | --version

Reports on a grammar: its errors, warnings, and conflicts with an example each. A path may be `-`, for standard input; behind
`--` each word is a path.

  --bison       reads a Bison or Yacc file, and lists what is left out or changed of it; without this word a file is read so that
                begins with `%{`, `%union` or the like, or has a tag `<..>` in a declaration
  --each        each conflict by itself, in place of one block for each production
  --full        examples from the start rule on
  --states      the states, with their items and edges
  --sentences   for each rule a sentence with as few tokens as can be
  --next LINES  for each line of token names its first error, and what may come there
  --color=WHEN  messages in color, `always` or `never`; never unless asked for
  --json        the report as one JSON object, with --bison, --each and --full alone
  --dot         the states for Graphviz, with --bison alone
  --html FILE   a page with grammar, conflicts and states, with --bison alone

Status: 0 no conflicts, or as many as expected; 1 other conflicts; 2 no parser, or no sentence; 5 input or output; 6 memory;
64 usage.
";

fn main(rt: HostRuntime) -> ExitCode {
    let code = match env::args(&rt) {
        Ok(args) => answer_all(&rt, args),
        Err(e) => refuse_arguments(&rt, &e),
    };
    ExitCode::from(code)
}

// Answers the arguments, of which the first is the program's name.
fn answer_all<R: Files + io::Input + Print + Eprint + AllocGlobal>(rt: &R, args: Args) -> u8 {
    let alloc = rt.alloc();
    let args: Vec<String> = match args.collect(alloc) {
        Ok(args) => args,
        Err(_) => return out_of_memory(rt),
    };
    match read_words(alloc, args.get(1..).unwrap_or(&[])) {
        Ok(words) => answer(rt, words),
        Err(e) => answer_call(rt, &e),
    }
}

// Writes help or the version, if the words ask for it, else what is wrong with them.
fn answer_call<R: Print + Eprint>(rt: &R, error: &clap::Error) -> u8 {
    match error.kind() {
        ErrorKind::DisplayHelp => tell(rt, HELP),
        ErrorKind::DisplayVersion => tell(rt, "lrkit-check, reports of form 1\n"),
        ErrorKind::OutOfMemory => out_of_memory(rt),
        _ => {
            let _ = error.print(rt);
            USAGE
        }
    }
}

// Writes the report, and says on standard error why it didn't, if so.
fn answer<R: Files + io::Input + Print + Eprint + AllocGlobal>(rt: &R, words: Words<'_>) -> u8 {
    let outcome = check(rt, words);
    if let Err(fault) = &outcome {
        complain(rt, words, fault);
    }
    status(&outcome)
}

// Says on standard error why no report is written: of an input its path too, and nothing where nobody reads the report.
fn complain(rt: &impl Eprint, words: Words<'_>, fault: &CheckFault) {
    if let CheckFault::Closed = fault {
        return;
    }
    if let Some(input) = fault.input() {
        let path = words.path(input);
        let _ = eprintln!(rt; "{path}: {fault}");
    } else {
        let _ = eprintln!(rt; "{fault}");
    }
}

// Writes a text to standard output.
fn tell<R: Print>(rt: &R, text: &str) -> u8 {
    match print!(rt; "{text}") {
        Ok(()) => 0,
        Err(_) => WRITE_FAULT,
    }
}

fn out_of_memory(rt: &impl Eprint) -> u8
    ensures { result ≡ OUT_OF_MEMORY }
{
    let _ = eprintln!(rt; "out of memory");
    OUT_OF_MEMORY
}

// An argument that is no text names no file.
fn refuse_arguments(rt: &impl Eprint, error: &io::Error) -> u8 {
    if error.kind() == io::ErrorKind::OutOfMemory {
        return out_of_memory(rt);
    }
    let _ = eprintln!(rt; "an argument is not UTF-8");
    USAGE
}
