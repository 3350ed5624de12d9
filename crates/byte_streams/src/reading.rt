//! Sources of bytes, and an input as a whole.

ghost use Rattle.std.specs.Prelude.{◌≡◌, ℕ, ◌≤◌, ◌+◌, ◌-◌, List, Option, IfOk, IfErr, OnOk, OnErr, vec_len, string_bytes, string_len};
ghost use Rattle.std.specs.Io.KnownBytes.{IsAtEnd};
ghost use Rattle.byte_streams.specs.Source.{Reads, IsWhole};
ghost use Rattle.byte_streams.specs.Inputs.{most_bytes, IsInputFault, IsReadFault, TakesAtMost, Moves};

use std::alloc::{AllocError, Global};
use std::error::Error;
use std::fmt::{Display, Formatter, Write};
use std::{fmt, io};

/// The greatest number of bytes of an input.
pub const MOST_BYTES: usize = 67_108_864;

/// Gives bytes, and counts its failures: each failure, and nothing else, raises the count by one, up to `u64::MAX`.
pub trait Source {
    /// The bytes that the reads from here on give, to the end of the input; `None` where an implementer doesn't
    /// say which.
    ghost known: { Self → Option (List ℕ) };

    /// The count of failed reads so far, which `failures` returns.
    ghost faults: { Self → ℕ };

    /// Reads up to `buf.len()` bytes into `buf` and returns how many, 0 at the end of the input, as
    /// `std::io::Read::read`. An error raises `failures` by one.
    fn read(&mut self, buf: &mut [u8]) -> io::Result<usize>
        ensures { Reads (known self.old) (faults self.old) (known self.new) (faults self.new) result buf.new };

    /// Returns how many reads have failed.
    fn failures(&self) -> u64
        ensures { result ≡ faults self.now };
}

/// Why an input is no text.
#[derive(Debug, Drop)]
pub enum InputFault {
    /// A read of the source failed.
    Read,
    /// The input has more than `MOST_BYTES` bytes.
    TooLong,
    /// The input was read to its end, and its bytes aren't UTF-8.
    NotUtf8,
    /// The request for memory that was refused.
    Memory(AllocError),
}

impl Display for InputFault {
    ghost use Rattle.std.specs.Prelude.{Some};
    ghost use Rattle.byte_streams.specs.FaultTexts.{input_fault_text};

    ghost output = { λ e. Some (input_fault_text e) };

    fn fmt<W: Write>(&self, f: &mut Formatter<W>) -> fmt::Result {
        match self {
            InputFault::Read => write!(f, "read fault"),
            InputFault::TooLong => write!(f, "too long"),
            InputFault::NotUtf8 => write!(f, "not UTF-8"),
            InputFault::Memory(_) => write!(f, "out of memory"),
        }
    }
}

impl Error for InputFault {}

impl From<AllocError> for InputFault {
    ghost use Rattle.byte_streams.specs.declared.reading.InputFault.TheVariants.{Memory};

    ghost from_gives = { λ x e. e ≡ Memory x };

    fn from(e: AllocError) -> InputFault {
        InputFault::Memory(e)
    }
}

/// Reads an input to its end. It takes at most one byte more than an input may have.
fn read_whole<S: Source>(alloc: Global, source: &mut S) -> Result<Vec<u8>, InputFault>
    ensures whole { IfOk result (λ v. IsWhole (S.known source.old) v.items) }
    ensures short { IfOk result (λ v. vec_len v ≤ most_bytes) }
    ensures took { TakesAtMost (most_bytes + 1) (S.known source.old) (S.known source.new) }
    ensures cause { IfErr result (IsInputFault (S.known source.old) (S.faults source.old) (S.faults source.new)) }
{
    let mut bytes = Vec::new(alloc);
    'reads: while bytes.len() <= MOST_BYTES {
        if read_more(source, &mut bytes)? == 0 {
            return Ok(bytes);
        }
    }
    Err(InputFault::TooLong)
}

// Makes one read, of at most as many bytes as an input may still have, and one more.
fn read_more<S: Source>(source: &mut S, bytes: &mut Vec<u8>) -> Result<usize, InputFault>
    requires { vec_len bytes.old ≤ most_bytes }
    ensures moves { OnOk result (Moves (S.known source.old) (S.known source.new) bytes.old.items bytes.new.items) }
    ensures count { IfOk result (λ n. vec_len bytes.new ≡ vec_len bytes.old + n) }
    ensures end { IfOk result (λ n. n ≡ 0 → IsAtEnd (S.known source.new)) }
    ensures room { vec_len bytes.new ≤ most_bytes + 1 }
    ensures counted { OnOk result (S.faults source.new ≡ S.faults source.old) }
    ensures took { OnErr result (TakesAtMost (most_bytes + 1 - vec_len bytes.old) (S.known source.old) (S.known source.new)) }
    ensures cause { IfErr result (IsReadFault (S.faults source.old) (S.faults source.new)) }
{
    let mut buffer = [0u8; 8192];
    let room = (MOST_BYTES + 1 - bytes.len()).min(buffer.len());
    match source.read(&mut buffer[..room]) {
        Ok(n) => {
            bytes.extend_from_slice(&buffer[..n])?;
            Ok(n)
        }
        Err(_) => Err(InputFault::Read),
    }
}

/// Reads an input to its end as a text.
///
/// # Errors
///
/// - `Read` where a read of the source failed.
/// - `TooLong` where the input has more than `MOST_BYTES` bytes; one of these more is read, and no further one.
/// - `NotUtf8` where an input that isn't too long is no UTF-8.
/// - `Memory` where memory is refused.
pub fn read_text<S: Source>(alloc: Global, source: &mut S) -> Result<String, InputFault>
    ensures whole { IfOk result (λ t. IsWhole (S.known source.old) (string_bytes t)) }
    ensures short { IfOk result (λ t. string_len t ≤ most_bytes) }
    ensures took { TakesAtMost (most_bytes + 1) (S.known source.old) (S.known source.new) }
    ensures cause { IfErr result (IsInputFault (S.known source.old) (S.faults source.old) (S.faults source.new)) }
{
    let bytes = read_whole(alloc, source)?;
    match String::from_utf8(bytes) {
        Ok(text) => Ok(text),
        Err(_) => Err(InputFault::NotUtf8),
    }
}
