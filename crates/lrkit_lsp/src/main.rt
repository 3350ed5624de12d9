//! The program `lrkit-lsp [--grammar GRAMMAR --lexer LEXER]`: standard input and output around the server.
#![tactic(auto)]

mod fault;
mod serving;
mod texts;
mod words;

use clap::error::ErrorKind;
use fault::{ProgramFault, status};
use language_server::GrammarFiles;
use serving::serve;
use std::env::Args;
use std::process::ExitCode;
use std::rt::Files;
use std::{env, io};
use texts::serve_texts;
use words::{Call, read_words};

const OUT_OF_MEMORY: u8 = 6;

const USAGE: u8 = 64;

const HELP: &str = "\
usage: lrkit-lsp
       lrkit-lsp --grammar GRAMMAR --lexer LEXER

Serves grammar files to an editor by the Language Server Protocol, over standard input and output; or texts, by a grammar and
the rules of a lexer file.

Status: 0 ended by exit after shutdown; 1 ended otherwise; 2 no parser or no lexer; 5 input or output; 6 memory; 64 usage.
";

fn main(rt: HostRuntime) -> ExitCode {
    let code = match env::args(&rt) {
        Ok(args) => answer_all(&rt, args),
        Err(e) => refuse_arguments(&rt, &e),
    };
    ExitCode::from(code)
}

// Answers the arguments, of which the first is the program's name.
fn answer_all<R: Files + io::Input + Print + Eprint + AllocGlobal>(rt: &R, args: Args) -> u8 {
    let alloc = rt.alloc();
    let args: Vec<String> = match args.collect(alloc) {
        Ok(args) => args,
        Err(_) => return out_of_memory(rt),
    };
    match read_words(alloc, args.get(1..).unwrap_or(&[])) {
        Ok(Call::Grammars) => end(rt, serve(rt, &GrammarFiles)),
        Ok(Call::Texts(grammar, lexer)) => end(rt, serve_texts(rt, grammar, lexer)),
        Ok(Call::Wrong) => usage(rt),
        Err(e) if e.kind() == ErrorKind::OutOfMemory => out_of_memory(rt),
        Err(_) => usage(rt),
    }
}

// Says on standard error why the program ended, if it failed.
fn end<R: Eprint>(rt: &R, ended: Result<u8, ProgramFault>) -> u8 {
    if let Err(fault) = &ended {
        let _ = eprintln!(rt; "{fault}");
    }
    status(&ended)
}

fn out_of_memory(rt: &impl Eprint) -> u8 {
    let _ = eprintln!(rt; "out of memory");
    OUT_OF_MEMORY
}

fn refuse_arguments(rt: &impl Eprint, error: &io::Error) -> u8 {
    if error.kind() == io::ErrorKind::OutOfMemory {
        out_of_memory(rt)
    } else {
        usage(rt)
    }
}

fn usage(rt: &impl Eprint) -> u8 {
    let text = HELP;
    let _ = eprint!(rt; "{text}");
    USAGE
}
