//! The program `lrkit GRAMMAR LINES [REPAIRS]`: its arguments, files and standard output around the
//! library's `run`.
#![tactic(auto)]

ghost use Rattle.std.specs.Prelude.{◌≡◌};

mod input;

use input::{InputFile, open};
use lrkit::{Counted, run, status};
use std::io::ErrorKind;
use std::process::ExitCode;
use std::rt::Files;
use std::{env, io};

const USAGE: u8 = 64;

const OUT_OF_MEMORY: u8 = 6;

fn main(rt: HostRuntime) -> ExitCode {
    let code = match env::args(&rt) {
        Ok(mut words) => {
            let _program = words.next();
            match (words.next(), words.next(), words.next(), words.next()) {
                (Some(grammar), Some(lines), repairs, None) => {
                    answer(&rt, grammar.as_str(), lines.as_str(), repairs)
                }
                _ => usage(&rt),
            }
        }
        Err(e) => refuse_arguments(&rt, &e),
    };
    ExitCode::from(code)
}

// Runs over the files, and says on standard error why it stopped, if it did.
fn answer<R: Files + Print + Eprint + AllocGlobal>(
    rt: &R,
    grammar: &str,
    lines: &str,
    repairs: Option<String>,
) -> u8 {
    let mut grammar = Counted::new(open(rt, grammar));
    let mut lines = Counted::new(open(rt, lines));
    let mut repairs = Counted::new(match repairs {
        Some(path) => open(rt, path.as_str()),
        None => InputFile::Absent,
    });
    let mut out = Counted::new(io::writer(rt));
    let outcome = run(rt.alloc(), &mut grammar, &mut lines, &mut repairs, &mut out);
    if let Err(fault) = &outcome {
        let _ = eprintln!(rt; "{fault}");
    }
    status(&outcome)
}

fn usage(rt: &impl Eprint) -> u8
    ensures { result ≡ USAGE }
{
    let _ = eprintln!(rt; "usage: lrkit GRAMMAR LINES [REPAIRS]");
    USAGE
}

// An argument that is no text names no file.
fn refuse_arguments(rt: &impl Eprint, error: &io::Error) -> u8 {
    if error.kind() == ErrorKind::OutOfMemory {
        let _ = eprintln!(rt; "out of memory");
        OUT_OF_MEMORY
    } else {
        usage(rt)
    }
}
