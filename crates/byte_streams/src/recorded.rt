//! A reader or a writer that keeps the cause of its last failure.

ghost use Rattle.std.specs.Prelude.{◌≡◌, ◌↔◌, [], None, IfOk, IsTrue, string_bytes};
ghost use Rattle.byte_streams.specs.Counting.{inner_of, failures_of};
ghost use Rattle.byte_streams.specs.Recording.{counted_of, failure_of, HasNoNumber, IsBroken};

use crate::counting::Counted;
use crate::reading::Source;
use crate::writing::Sink;
use std::alloc::{AllocError, Global};
use std::io;
use std::io::{ErrorKind, Read, Write};

/// A reader or a writer with a count of its failures and the last one.
#[derive(Drop)]
pub struct Recorded<T> {
    counted: Counted<T>,
    failure: Option<io::Error>,
}

impl<T> Recorded<T> {
    /// Wraps a reader or a writer of which no failure is known yet.
    pub fn new(inner: T) -> Self
        ensures inner { inner_of (counted_of result) ≡ inner }
        ensures failures { failures_of (counted_of result) ≡ 0 }
        ensures failure { failure_of result ≡ None }
    {
        let failure = None;
        Recorded {
            counted: Counted::new(inner),
            failure,
        }
    }

    /// Returns the system's cause of the last failure, in words; none where nothing has failed.
    pub fn cause(&self, alloc: Global) -> Result<String, AllocError>
        ensures numberless { IfOk result (λ t. HasNoNumber (string_bytes t)) }
        ensures none { failure_of self.now ≡ None → IfOk result (λ t. string_bytes t ≡ []) }
    {
        match &self.failure {
            Some(failure) => cause_of(alloc, failure),
            None => Ok(String::new(alloc)),
        }
    }

    /// Returns whether what was written to is a pipe whose reader is gone.
    pub fn is_closed_pipe(&self) -> bool
        ensures { IsTrue result ↔ IsBroken (failure_of self.now) }
    {
        match &self.failure {
            Some(failure) => failure.kind() == ErrorKind::BrokenPipe,
            None => false,
        }
    }
}

/// Returns the system's cause in words, without its number.
pub fn cause_of(alloc: Global, failure: &io::Error) -> Result<String, AllocError>
    ensures { IfOk result (λ t. HasNoNumber (string_bytes t)) }
{
    let shown = failure.to_string(alloc)?;
    match shown.as_str().split_once(" (os error ") {
        Some((words, _)) => String::from_str(alloc, words),
        None => String::from_str(alloc, shown.as_str()),
    }
}

impl<R: Read> Source for Recorded<R> {
    ghost use Rattle.byte_streams.specs.Counting.{inner_of, failures_of};
    ghost use Rattle.byte_streams.specs.Recording.{counted_of};

    ghost known = { λ s. R.remaining (inner_of (counted_of s)) };

    ghost faults = { λ s. failures_of (counted_of s) };

    fn read(&mut self, buf: &mut [u8]) -> io::Result<usize> {
        match Source::read(&mut self.counted, buf) {
            Ok(n) => Ok(n),
            Err(e) => {
                self.failure = Some(e);
                Err(e)
            }
        }
    }

    fn failures(&self) -> u64 {
        Source::failures(&self.counted)
    }
}

impl<W: Write> Sink for Recorded<W> {
    ghost use Rattle.byte_streams.specs.Counting.{inner_of, failures_of};
    ghost use Rattle.byte_streams.specs.Recording.{counted_of};

    ghost known = { λ s. W.contents (inner_of (counted_of s)) };

    ghost faults = { λ s. failures_of (counted_of s) };

    fn write(&mut self, bytes: &[u8]) -> io::Result<usize> {
        match Sink::write(&mut self.counted, bytes) {
            Ok(n) => Ok(n),
            Err(e) => {
                self.failure = Some(e);
                Err(e)
            }
        }
    }

    fn failures(&self) -> u64 {
        Sink::failures(&self.counted)
    }
}
