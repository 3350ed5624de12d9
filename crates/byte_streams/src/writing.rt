//! Sinks for bytes, and a text written as a whole.

ghost use Rattle.std.specs.Prelude.{◌≡◌, ◌<◌, ℕ, List, Option, length, vec_len, OnOk, OnErr};
ghost use Rattle.std.specs.Io.KnownBytes.{Appends};
ghost use Rattle.byte_streams.specs.Sink.{Writes, BeginningWritten, IsOutBut, most_waiting};
ghost use Rattle.byte_streams.specs.Source.{one_more};

use std::error::Error;
use std::fmt::{Display, Formatter, Write};
use std::{fmt, io};

/// A text that is written as it is made waits until it has this many bytes.
pub const MOST_WAITING: usize = 65_536;

/// Takes bytes, and counts its failures: each failure, and nothing else, raises the count by one, up to `u64::MAX`.
/// An error is a failure, and so is a write that takes nothing of bytes that aren't empty.
pub trait Sink {
    /// All bytes that were taken so far, in order; `None` where an implementer doesn't say which.
    ghost known: { Self → Option (List ℕ) };

    /// The count of failed writes so far, which `failures` returns.
    ghost faults: { Self → ℕ };

    /// Writes a beginning of `bytes` and returns its length, as `std::io::Write::write`. An error, and 0 where
    /// `bytes` isn't empty, raises `failures` by one.
    fn write(&mut self, bytes: &[u8]) -> io::Result<usize>
        ensures { Writes (known self.old) (faults self.old) (known self.new) (faults self.new) result bytes.now };

    /// Returns how many writes have failed, or took nothing of a text that isn't empty.
    fn failures(&self) -> u64
        ensures { result ≡ faults self.now };
}

/// A write failed, or took nothing of a text that isn't empty.
#[derive(Clone, Copy, Debug)]
pub struct WriteFault;

impl Display for WriteFault {
    ghost use Rattle.std.specs.Prelude.{Some, codes};

    ghost output = { λ e. Some (codes "write fault") };

    fn fmt<W: Write>(&self, f: &mut Formatter<W>) -> fmt::Result {
        write!(f, "write fault")
    }
}

impl Error for WriteFault {}

/// Writes all of the bytes. Returns a `WriteFault` at the first write that fails or takes nothing; a beginning of the
/// bytes, which the writes before took, is then written.
pub fn write_all<W: Sink>(out: &mut W, bytes: &[u8]) -> Result<(), WriteFault>
    ensures ok { OnOk result (Appends (W.known out.old) (W.known out.new) bytes.now) }
    ensures kept { OnOk result (W.faults out.new ≡ W.faults out.old) }
    ensures err { OnErr result (BeginningWritten (W.known out.old) (W.known out.new) bytes.now) }
    ensures cause { OnErr result (W.faults out.new ≡ one_more (W.faults out.old)) }
{
    let mut rest = bytes;
    'writes: while !rest.is_empty() {
        match out.write(rest) {
            Ok(0) => return Err(WriteFault),
            Ok(n) => rest = &rest[n..],
            Err(_) => return Err(WriteFault),
        }
    }
    Ok(())
}

/// Writes the waiting bytes and empties the buffer, once they are at least `MOST_WAITING`; fewer wait on. Returns a
/// `WriteFault` as `write_all` does.
pub fn write_long<W: Sink>(out: &mut W, waiting: &mut Vec<u8>) -> Result<(), WriteFault>
    ensures ok { OnOk result (IsOutBut (W.known out.old) (W.known out.new) waiting.old.items waiting.new.items) }
    ensures kept { OnOk result (W.faults out.new ≡ W.faults out.old) }
    ensures short { OnOk result (vec_len waiting.new < most_waiting) }
    ensures err { OnErr result (BeginningWritten (W.known out.old) (W.known out.new) waiting.old.items) }
    ensures cause { OnErr result (W.faults out.new ≡ one_more (W.faults out.old)) }
{
    if waiting.len() < MOST_WAITING {
        return Ok(());
    }
    write_all(out, waiting.as_slice())?;
    waiting.clear();
    Ok(())
}
