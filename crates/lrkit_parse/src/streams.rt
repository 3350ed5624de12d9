//! Files to read, and what failed of them or of standard output.

ghost use Rattle.std.specs.Prelude.{◌≡◌, ◌≤◌, IfErr, IfOk, string_bytes, string_len};
ghost use Rattle.byte_streams.specs.Inputs.{most_bytes};
ghost use Rattle.byte_streams.specs.Recording.{failure_of};
ghost use Rattle.lrkit_parse.specs.Faults.{IsFaultOf, IsInputFault, IsReadFault, IsWriteFault};
ghost use Rattle.lrkit_parse.specs.Statuses.{IsTextFault};

use crate::fault::ParseFault;
use crate::words::Words;
use byte_streams::{MOST_BYTES, Recorded, cause_of};
use std::alloc::Global;
use std::io::{ErrorKind, Read, Write};
use std::rt::Files;
use std::{fs, io};
use text_parses::AnswerFault;

/// How many bytes are read of an input at most: one more than it may have.
const MOST_TAKEN: u64 = 67_108_865;

/// Returns the bytes of an input as its text.
fn text_of(index: usize, bytes: Vec<u8>) -> Result<String, ParseFault>
    ensures ok { IfOk result (λ t. string_bytes t ≡ bytes.items) }
    ensures short { IfOk result (λ t. string_len t ≤ most_bytes) }
    ensures err { IfErr result (IsTextFault index bytes.items) }
{
    if bytes.len() > MOST_BYTES {
        return Err(ParseFault::TooLong(index));
    }
    match String::from_utf8(bytes) {
        Ok(text) => Ok(text),
        Err(e) => Err(ParseFault::NotUtf8(index, e.utf8_error().valid_up_to())),
    }
}

/// Returns why an input can't be opened or read.
fn read_fault(alloc: Global, index: usize, failure: &io::Error) -> ParseFault
    ensures { IsReadFault index result }
{
    if failure.kind() == ErrorKind::OutOfMemory {
        return ParseFault::Memory;
    }
    match cause_of(alloc, failure) {
        Ok(cause) => ParseFault::Read(index, cause),
        Err(e) => ParseFault::from(e),
    }
}

/// Reads an input to its end as a text.
fn read_from<S: Read + Drop>(alloc: Global, index: usize, from: S) -> Result<String, ParseFault>
    ensures short { IfOk result (λ t. string_len t ≤ most_bytes) }
    ensures err { IfErr result (IsInputFault index) }
{
    let mut bytes = Vec::new(alloc);
    let mut limited = from.take(MOST_TAKEN);
    match limited.read_to_end(&mut bytes) {
        Ok(_) => text_of(index, bytes),
        Err(e) => Err(read_fault(alloc, index, &e)),
    }
}

/// Reads the file of a path as a text; standard input where the path is `-`.
pub fn read_file<R: Files + io::Input + AllocGlobal>(
    rt: &R,
    words: &Words,
    index: usize,
) -> Result<String, ParseFault>
    ensures short { IfOk result (λ t. string_len t ≤ most_bytes) }
    ensures err { IfErr result (IsInputFault index) }
{
    let path = words.path(index);
    if path == "-" {
        return read_from(rt.alloc(), index, rt.reader());
    }
    match fs::open(rt, path) {
        Ok(file) => read_from(rt.alloc(), index, file),
        Err(e) => Err(read_fault(rt.alloc(), index, &e)),
    }
}

/// Returns why a write failed.
fn write_fault<W: Write>(alloc: Global, out: &Recorded<W>) -> ParseFault
    ensures { IsWriteFault (failure_of out.now) result }
{
    if out.is_closed_pipe() {
        return ParseFault::Closed;
    }
    match out.cause(alloc) {
        Ok(cause) => ParseFault::Write(cause),
        Err(e) => ParseFault::from(e),
    }
}

/// Returns why a text is not answered as the program's fault, with the system's cause.
pub fn fault_of_answer<W: Write>(alloc: Global, out: &Recorded<W>, fault: AnswerFault) -> ParseFault
    ensures { IsFaultOf (failure_of out.now) fault result }
{
    match fault {
        AnswerFault::Write => write_fault(alloc, out),
        AnswerFault::Lexemes => ParseFault::Lexemes,
        AnswerFault::Memory(e) => ParseFault::from(e),
        AnswerFault::Unwritten => ParseFault::Memory,
    }
}
