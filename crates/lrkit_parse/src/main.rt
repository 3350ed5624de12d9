//! The program `lrkit-parse GRAMMAR LEXER FILE .. [OPTION ..]`: trees of texts, by a grammar and a lexer file.
#![tactic(auto)]

ghost use Rattle.std.specs.Prelude.{◌≡◌};

mod fault;
mod lines;
mod making;
mod running;
mod streams;
mod warnings;
mod words;

use fault::{ParseFault, status};
use running::run;
use std::io::ErrorKind;
use std::process::ExitCode;
use std::rt::Files;
use std::{env, io};
use words::{Call, Words, read_words};

const USAGE: u8 = 64;

const OUT_OF_MEMORY: u8 = 6;

const WRITE_FAULT: u8 = 5;

const HELP: &str = "\
usage: lrkit-parse GRAMMAR LEXER FILE .. [--tree | --sexp | --json | --dot | --quiet] [--bison] [--next] [--repairs N]
       lrkit-parse --lines GRAMMAR LINES [OPTION ..]
       lrkit-parse --help | --version

Parses each file as a whole, by a grammar and the rules of a lexer file, and writes its tree, or its errors. Behind an error
parsing goes on with a repair. A path may be `-`, for standard input; behind `--` each word is a path.

  --tree        a line for each node of the tree, as without this word
  --sexp        each tree as one expression, on a line
  --json        for each file a JSON object on a line, with its errors, repairs and tree
  --dot         each tree for Graphviz, without --next
  --quiet       errors alone
  --bison       reads the grammar as a Bison or Yacc file, and lists what is left out or changed of it; without this word if it
                looks like one
  --next        at the first error of each file, else at its end, which tokens may come there
  --repairs N   repairs of at most N insertions and deletions, which are listed; with 0 only the first error. Else N is 3
  --lines       each line of a file is a text: names of tokens with spaces between, without a lexer and --dot

Status: 0 each file has a tree; 1 some has an error; 2 no parser or no lexer; 5 input or output; 6 memory; 64 usage.
";

fn main(rt: HostRuntime) -> ExitCode {
    let code = match env::args(&rt) {
        Ok(words) => match read_words(rt.alloc(), words) {
            Ok(call) => answer_call(&rt, call),
            Err(_) => refuse_memory(&rt),
        },
        Err(e) => refuse_arguments(&rt, &e),
    };
    ExitCode::from(code)
}

// Does what the arguments ask for.
fn answer_call<R: Files + io::Input + Print + Eprint + AllocGlobal>(rt: &R, call: Call) -> u8 {
    match call {
        Call::Parse(words) => answer(rt, &words),
        Call::Help => tell(rt, HELP),
        Call::Version => tell(rt, "lrkit-parse, trees of form 1\n"),
        Call::Wrong => usage(rt),
    }
}

// Parses, and says on standard error why it didn't, if so.
fn answer<R: Files + io::Input + Print + Eprint + AllocGlobal>(rt: &R, words: &Words) -> u8 {
    let outcome = run(rt, words);
    if let Err(fault) = &outcome {
        complain(rt, words, fault);
    }
    status(&outcome)
}

// Says on standard error why a run has ended early: of an input its path too, and nothing where nobody reads what is written.
fn complain(rt: &impl Eprint, words: &Words, fault: &ParseFault) {
    if let ParseFault::Closed = fault {
        return;
    }
    if let Some(index) = fault.path_index() {
        let path = words.path(index);
        let _ = eprintln!(rt; "{path}: {fault}");
    } else {
        let _ = eprintln!(rt; "{fault}");
    }
}

// Writes a text to standard output.
fn tell<R: Print>(rt: &R, text: &str) -> u8 {
    match print!(rt; "{text}") {
        Ok(()) => 0,
        Err(_) => WRITE_FAULT,
    }
}

fn usage(rt: &impl Eprint) -> u8
    ensures { result ≡ USAGE }
{
    let _ = eprintln!(rt;
        "usage: lrkit-parse GRAMMAR LEXER FILE .. [--tree | --sexp | --json | --dot | --quiet] [--bison] [--next] [--repairs N]\n       lrkit-parse --lines GRAMMAR LINES [OPTION ..]"
    );
    USAGE
}

fn refuse_memory(rt: &impl Eprint) -> u8 {
    let _ = eprintln!(rt; "out of memory");
    OUT_OF_MEMORY
}

// An argument that is no text names no file.
fn refuse_arguments(rt: &impl Eprint, error: &io::Error) -> u8 {
    if error.kind() == ErrorKind::OutOfMemory {
        refuse_memory(rt)
    } else {
        usage(rt)
    }
}
