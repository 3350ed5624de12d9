//! Readers and writers that give and take as a heading tells.

use std::io;
use std::io::{ErrorKind, Read, Write};

/// The number behind a name among the words of a heading.
pub fn number_in(heading: &str, name: &str) -> Option<usize> {
    for word in heading.split_whitespace() {
        if let Some(number) = word.strip_prefix(name) {
            return number.parse().ok();
        }
    }
    None
}

/// The kind of the error of a read that fails, among the words of a heading.
pub fn kind_in(heading: &str) -> ErrorKind {
    for word in heading.split_whitespace() {
        if word == "interrupted" {
            return ErrorKind::Interrupted;
        }
    }
    ErrorKind::Other
}

/// Gives bytes, and then spaces.
#[derive(Drop)]
pub struct Giver<'a> {
    pub rest: &'a [u8],
    /// How many bytes a read gives at most.
    pub at_once: usize,
    /// The number of the read that fails, counted from one; none fails where it is nought.
    pub fault_in: usize,
    /// The kind of its error.
    pub kind: ErrorKind,
    /// How many spaces come behind the bytes.
    pub blanks: usize,
}

impl Read for Giver<'_> {
    fn read(&mut self, buf: &mut [u8]) -> io::Result<usize> {
        if self.fault_in == 1 {
            return Err(io::Error::from(self.kind));
        }
        self.fault_in = self.fault_in.saturating_sub(1);
        let count = self.at_once.min(buf.len()).min(self.rest.len());
        if count == 0 {
            let spaces = buf.len().min(self.blanks);
            buf[..spaces].fill(b' ');
            self.blanks -= spaces;
            return Ok(spaces);
        }
        let (front, rest) = self.rest.split_at(count);
        buf[..count].copy_from_slice(front);
        self.rest = rest;
        Ok(count)
    }
}

/// Takes bytes as long as there is room.
#[derive(Drop)]
pub struct Taker {
    pub taken: Vec<u8>,
    /// How many bytes a write takes at most.
    pub at_once: usize,
    /// How many bytes it still takes.
    pub room: usize,
    /// Whether a write fails where there is no room; else it takes nothing there.
    pub fails: bool,
}

impl Write for Taker {
    fn write(&mut self, buf: &[u8]) -> io::Result<usize> {
        let count = self.at_once.min(buf.len()).min(self.room);
        if count == 0 && self.fails {
            return Err(io::Error::from(ErrorKind::BrokenPipe));
        }
        self.taken.extend_from_slice(&buf[..count])?;
        self.room -= count;
        Ok(count)
    }

    fn flush(&mut self) -> io::Result<()> {
        Ok(())
    }
}
