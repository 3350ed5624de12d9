//! Inputs read to their ends.

use crate::same::same;
use byte_streams::{Counted, InputFault, Source, read_text};
use std::alloc::{AllocError, Global};
use std::io;
use std::io::{ErrorKind, Read};
use std::test::Fail;

/// Gives its bytes, some at a time, and then fails or ends.
#[derive(Drop)]
struct Parts<'a> {
    rest: &'a [u8],
    at_once: usize,
    fault: Option<ErrorKind>,
}

impl Read for Parts<'_> {
    fn read(&mut self, buf: &mut [u8]) -> io::Result<usize> {
        let count = self.at_once.min(buf.len()).min(self.rest.len());
        if count == 0 {
            return match self.fault {
                Some(kind) => Err(io::Error::from(kind)),
                None => Ok(0),
            };
        }
        let (front, rest) = self.rest.split_at(count);
        buf[..count].copy_from_slice(front);
        self.rest = rest;
        Ok(count)
    }
}

/// Gives spaces without an end, and counts them.
#[derive(Drop)]
struct Endless {
    given: usize,
}

impl Read for Endless {
    fn read(&mut self, buf: &mut [u8]) -> io::Result<usize> {
        for b in buf.iter_mut() {
            *b = b' ';
        }
        self.given = self.given.saturating_add(buf.len());
        Ok(buf.len())
    }
}

fn source(bytes: &[u8], at_once: usize, fault: Option<ErrorKind>) -> Counted<Parts<'_>> {
    Counted::new(Parts {
        rest: bytes,
        at_once,
        fault,
    })
}

/// Returns the text of an input, or what it fails by behind a question mark.
fn text_or_fault<S: Source>(alloc: Global, input: &mut S) -> Result<String, AllocError> {
    match read_text(alloc, input) {
        Ok(text) => Ok(text),
        Err(InputFault::Memory(e)) => Err(e),
        Err(fault) => format!(in alloc; "? {fault}"),
    }
}

#[test]
fn texts_come_whole(rt: HostRuntime) -> Result<(), Fail> {
    for at_once in [1, 3, 8192, 10_000] {
        for text in ["", "a", "ID + ID\n", "é\u{1F600}"] {
            let mut input = source(text.as_bytes(), at_once, None);
            same(
                &rt,
                "text",
                text_or_fault(rt.alloc(), &mut input)?.as_str(),
                text,
            );
            same(&rt, "failures", Source::failures(&input), 0);
        }
    }
    Ok(())
}

#[test]
fn a_failing_read_is_told_and_counted(rt: HostRuntime) -> Result<(), Fail> {
    for kind in [ErrorKind::Interrupted, ErrorKind::NotFound] {
        for text in ["", "ID"] {
            let mut input = source(text.as_bytes(), 1, Some(kind));
            same(
                &rt,
                text,
                text_or_fault(rt.alloc(), &mut input)?.as_str(),
                "? read fault",
            );
            same(&rt, "failures", Source::failures(&input), 1);
        }
    }
    Ok(())
}

#[test]
fn bytes_that_are_no_text_are_told(rt: HostRuntime) -> Result<(), Fail> {
    let cases: [&[u8]; 3] = [b"\xFF", b"ab\xC3", b"\xE2\x82 "];
    for bytes in cases {
        let mut input = source(bytes, 2, None);
        same(
            &rt,
            "bytes",
            text_or_fault(rt.alloc(), &mut input)?.as_str(),
            "? not UTF-8",
        );
        same(&rt, "failures", Source::failures(&input), 0);
    }
    Ok(())
}

#[test]
fn an_input_can_be_too_long(rt: HostRuntime) -> Result<(), Fail> {
    let mut input = Counted::new(Endless { given: 0 });
    same(
        &rt,
        "input",
        text_or_fault(rt.alloc(), &mut input)?.as_str(),
        "? too long",
    );
    same(&rt, "given", input.into_inner().given, 67_108_865);
    Ok(())
}
