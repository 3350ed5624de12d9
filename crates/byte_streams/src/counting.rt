//! Readers and writers with a count of their failures.

ghost use Rattle.std.specs.Prelude.{◌≡◌};
ghost use Rattle.byte_streams.specs.Sink.{CountsTaken};
ghost use Rattle.byte_streams.specs.Source.{one_more};

use crate::reading::Source;
use crate::writing::Sink;
use std::io;
use std::io::{Read, Write};

/// A reader or a writer with a count of its failures.
#[derive(Drop)]
pub struct Counted<T> {
    inner: T,
    failures: u64,
}

impl<T> Counted<T> {
    ghost use Rattle.byte_streams.specs.Counting.{inner_of, failures_of};

    /// Makes a reader or a writer whose count of failures is 0.
    pub fn new(inner: T) -> Self
        ensures inner { inner_of result ≡ inner }
        ensures failures { failures_of result ≡ 0 }
    {
        Counted { inner, failures: 0 }
    }

    /// Returns the reader or the writer, without its count.
    pub fn into_inner(self) -> T
        ensures { result ≡ inner_of self }
    {
        self.inner
    }
}

// Returns the count raised by one, up to `u64::MAX`.
fn count_one_more(count: u64) -> u64
    ensures { result ≡ one_more count }
{
    count.saturating_add(1)
}

// Returns the count after `taken` of `handed` bytes were taken: one more where none of some were.
fn after_taking(taken: usize, handed: usize, count: u64) -> u64
    ensures { CountsTaken taken handed count result }
{
    if taken == 0 && handed > 0 {
        count_one_more(count)
    } else {
        count
    }
}

impl<R: Read> Source for Counted<R> {
    ghost use Rattle.byte_streams.specs.Counting.{inner_of, failures_of};

    ghost known = { λ s. R.remaining (inner_of s) };

    ghost faults = { λ s. failures_of s };

    fn read(&mut self, buf: &mut [u8]) -> io::Result<usize> {
        match self.inner.read(buf) {
            Ok(n) => Ok(n),
            Err(e) => {
                self.failures = count_one_more(self.failures);
                Err(e)
            }
        }
    }

    fn failures(&self) -> u64 {
        self.failures
    }
}

impl<W: Write> Sink for Counted<W> {
    ghost use Rattle.byte_streams.specs.Counting.{inner_of, failures_of};

    ghost known = { λ s. W.contents (inner_of s) };

    ghost faults = { λ s. failures_of s };

    fn write(&mut self, bytes: &[u8]) -> io::Result<usize> {
        match self.inner.write(bytes) {
            Ok(n) => {
                self.failures = after_taking(n, bytes.len(), self.failures);
                Ok(n)
            }
            Err(e) => {
                self.failures = count_one_more(self.failures);
                Err(e)
            }
        }
    }

    fn failures(&self) -> u64 {
        self.failures
    }
}
