//! The program `lrkit-import FILE [-o OUT]`: its arguments, files and standard streams around the library's `import`.
#![tactic(auto)]

ghost use Rattle.std.specs.Prelude.{◌≡◌};

mod counts;
mod fault;
mod running;
mod words;

use fault::status;
use running::run;
use std::io::ErrorKind;
use std::process::ExitCode;
use std::rt::Files;
use std::{env, io};
use words::{Words, read_words};

const USAGE: u8 = 64;

const OUT_OF_MEMORY: u8 = 6;

fn main(rt: HostRuntime) -> ExitCode {
    let code = match env::args(&rt) {
        Ok(words) => match read_words(words) {
            Some(words) => answer(&rt, &words),
            None => usage(&rt),
        },
        Err(e) => refuse_arguments(&rt, &e),
    };
    ExitCode::from(code)
}

// Writes the profile's text, and says on standard error why it didn't, if so.
fn answer<R: Files + Print + Eprint + AllocGlobal>(rt: &R, words: &Words) -> u8 {
    let done = run(rt, words);
    if let Err(fault) = &done {
        let _ = eprintln!(rt; "{fault}");
    }
    let code = status(&done);
    drop(done);
    code
}

fn usage(rt: &impl Eprint) -> u8
    ensures { result ≡ USAGE }
{
    let _ = eprintln!(rt; "usage: lrkit-import FILE [-o OUT]");
    USAGE
}

// An argument that is no text names no file.
fn refuse_arguments(rt: &impl Eprint, error: &io::Error) -> u8 {
    if error.kind() == ErrorKind::OutOfMemory {
        let _ = eprintln!(rt; "out of memory");
        OUT_OF_MEMORY
    } else {
        usage(rt)
    }
}
