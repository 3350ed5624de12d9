//! Frames: the bytes of each message behind a heading with their count.

ghost use Rattle.std.specs.Prelude.{◌≡◌, ◌≤◌, ◌-◌, length, take, unwrap_or, IfOk};

use std::alloc::{AllocError, Global};
use std::mem;

/// The greatest count of bytes of a message: room for a document of 64 MiB of which each byte is escaped.
pub const MOST_BYTES: usize = 536_870_912;

/// The greatest count of bytes of a heading's line that is looked at.
const MOST_LINE: usize = 256;

/// What a frame has.
#[derive(Debug, Drop)]
pub enum Frame {
    /// The bytes of a message.
    Whole(Vec<u8>),
    /// A message of more than `MOST_BYTES` bytes, which were passed over.
    TooLong,
    /// Nothing, since the heading has no count.
    Uncounted,
}

/// What was read of the frame that has begun.
#[derive(Debug, Drop)]
pub struct Frames {
    line: Vec<u8>,
    count: Option<usize>,
    left: Option<usize>,
    body: Vec<u8>,
}

/// Returns the count of a heading's line, if it is the one with the count.
fn count_of(line: &[u8]) -> Option<usize> {
    let colon = line.iter().position(|byte| *byte == b':')?;
    let (name, rest) = line.split_at(colon.min(line.len()));
    if !name.eq_ignore_ascii_case(b"content-length") {
        return None;
    }
    number_of(rest.get(1..).unwrap_or(&[]))
}

/// Returns the number of decimal digits with spaces around them.
fn number_of(text: &[u8]) -> Option<usize> {
    let digits = text.trim_ascii();
    if digits.is_empty() {
        return None;
    }
    let mut number: usize = 0;
    'digits: for byte in digits {
        if !byte.is_ascii_digit() {
            return None;
        }
        let digit = (*byte).saturating_sub(b'0') as usize;
        number = number.saturating_mul(10).saturating_add(digit);
    }
    Some(number)
}

/// Returns the first bytes, or all.
fn front_of(bytes: &[u8], count: usize) -> &[u8]
    ensures { result.now ≡ take count bytes.now }
{
    match bytes.get(..count) {
        Some(front) => front,
        None => bytes,
    }
}

impl Frames {
    /// Makes what nothing was read of.
    pub fn new(alloc: Global) -> Frames {
        Frames {
            line: Vec::new(alloc),
            count: None,
            left: None,
            body: Vec::new(alloc),
        }
    }

    /// Takes a byte of a heading. Behind the empty line the message begins.
    fn take_heading(&mut self, byte: u8) -> Result<Option<Frame>, AllocError> {
        if byte != b'\n' {
            if self.line.len() < MOST_LINE {
                self.line.push(byte)?;
            }
            return Ok(None);
        }
        let is_end = self.line.as_slice().trim_ascii().is_empty();
        let count = count_of(self.line.as_slice());
        self.line.clear();
        if is_end {
            return Ok(self.begin());
        }
        if count.is_some() {
            self.count = count;
        }
        Ok(None)
    }

    /// Begins a message.
    fn begin(&mut self) -> Option<Frame> {
        match self.count {
            None => Some(Frame::Uncounted),
            Some(0) => {
                self.left = Some(0);
                Some(self.finish())
            }
            Some(count) => {
                self.left = Some(count);
                None
            }
        }
    }

    /// Returns the frame that ends, and begins the next one.
    fn finish(&mut self) -> Frame {
        let is_long = self.count > Some(MOST_BYTES);
        self.count = None;
        self.left = None;
        let alloc = *self.body.allocator();
        let body = mem::replace(&mut self.body, Vec::new(alloc));
        if is_long {
            drop(body);
            return Frame::TooLong;
        }
        Frame::Whole(body)
    }

    /// Takes a byte of a message.
    fn take_body(&mut self, byte: u8, left: usize) -> Result<Option<Frame>, AllocError> {
        if self.count <= Some(MOST_BYTES) {
            self.body.push(byte)?;
        }
        if left > 1 {
            self.left = Some(left - 1);
            return Ok(None);
        }
        Ok(Some(self.finish()))
    }

    /// Takes the bytes of a message that are there, without its last one, and returns how many it took: none of a heading.
    pub fn take_inner(&mut self, bytes: &[u8]) -> Result<usize, AllocError>
        ensures within { IfOk result (λ count. count ≤ length bytes.now) }
        ensures count { IfOk result (λ count. count ≡ length (take (unwrap_or self.old.left 0 - 1) bytes.now)) }
    {
        let left = self.left.unwrap_or(0);
        let inner = front_of(bytes, left.saturating_sub(1));
        if inner.is_empty() {
            return Ok(0);
        }
        if self.count <= Some(MOST_BYTES) {
            self.body.extend_from_slice(inner)?;
        }
        self.left = Some(left.saturating_sub(inner.len()));
        Ok(inner.len())
    }

    /// Takes a byte, and returns the frame that it ends, if it ends one.
    pub fn take(&mut self, byte: u8) -> Result<Option<Frame>, AllocError> {
        match self.left {
            None => self.take_heading(byte),
            Some(left) => self.take_body(byte, left),
        }
    }
}
