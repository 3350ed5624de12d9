//! Texts written whole, and texts written as they are made.

use crate::same::same;
use byte_streams::{Counted, MOST_WAITING, Sink, WriteFault, write_all, write_long};
use std::alloc::{AllocError, Global};
use std::io;
use std::io::{ErrorKind, Write};
use std::test::Fail;

const TEXT: &[u8] = b"E\n T\n  ID ID\n";

/// Takes some bytes, some at a time, and then fails or takes nothing.
#[derive(Drop)]
struct Bounded {
    taken: Vec<u8>,
    room: usize,
    at_once: usize,
    fails: bool,
}

impl Write for Bounded {
    fn write(&mut self, buf: &[u8]) -> io::Result<usize> {
        let count = self.at_once.min(buf.len()).min(self.room);
        if count == 0 && self.fails {
            return Err(io::Error::from(ErrorKind::BrokenPipe));
        }
        self.taken.extend_from_slice(&buf[..count])?;
        self.room -= count;
        Ok(count)
    }

    fn flush(&mut self) -> io::Result<()> {
        Ok(())
    }
}

/// A writer of so much room that takes so many bytes at once.
fn writer(
    alloc: Global,
    room: usize,
    at_once: usize,
    fails: bool,
) -> Result<Counted<Bounded>, AllocError> {
    let taken = Vec::with_capacity(alloc, 65_536)?;
    Ok(Counted::new(Bounded {
        taken,
        room,
        at_once,
        fails,
    }))
}

#[test]
fn a_writer_may_take_few_bytes_a_call(rt: HostRuntime) -> Result<(), Fail> {
    for at_once in [1, 3, 100] {
        let mut out = writer(rt.alloc(), 1000, at_once, true)?;
        same(&rt, "written", write_all(&mut out, TEXT).is_ok(), true);
        same(&rt, "failures", Sink::failures(&out), 0);
        same(&rt, "taken", out.into_inner().taken.as_slice(), TEXT);
    }
    Ok(())
}

// A write that takes nothing is a failure as much as one that fails: either is counted once, and a beginning is out.
#[test]
fn a_failing_write_leaves_a_beginning(rt: HostRuntime) -> Result<(), Fail> {
    for fails in [false, true] {
        for room in 0..TEXT.len() {
            let mut out = writer(rt.alloc(), room, 5, fails)?;
            same(&rt, "written", write_all(&mut out, TEXT).is_ok(), false);
            same(&rt, "failures", Sink::failures(&out), 1);
            same(
                &rt,
                "taken",
                out.into_inner().taken.as_slice(),
                &TEXT[..room],
            );
        }
    }
    Ok(())
}

/// What is displayed of the fault of a write.
fn fault_text(alloc: Global, written: Result<(), WriteFault>) -> Result<String, AllocError> {
    match written {
        Ok(()) => Ok(String::new(alloc)),
        Err(fault) => format!(in alloc; "{fault}"),
    }
}

#[test]
fn a_fault_is_displayed(rt: HostRuntime) -> Result<(), Fail> {
    let mut out = writer(rt.alloc(), 1, 1, true)?;
    let written = write_all(&mut out, TEXT);
    same(
        &rt,
        "fault",
        fault_text(rt.alloc(), written)?.as_str(),
        "write fault",
    );
    Ok(())
}

#[test]
fn nothing_is_written_of_an_empty_text(rt: HostRuntime) -> Result<(), Fail> {
    let mut out = writer(rt.alloc(), 0, 1, true)?;
    same(&rt, "written", write_all(&mut out, b"").is_ok(), true);
    same(&rt, "failures", Sink::failures(&out), 0);
    Ok(())
}

// One byte too few waits; one more, and all of it goes out.
#[test]
fn a_long_text_goes_out_once_it_is_long(rt: HostRuntime) -> Result<(), Fail> {
    let mut out = writer(rt.alloc(), 65_536, 1000, true)?;
    let mut waiting = Vec::new(rt.alloc());
    waiting.resize(MOST_WAITING - 1, b' ')?;
    same(
        &rt,
        "short",
        write_long(&mut out, &mut waiting).is_ok(),
        true,
    );
    same(&rt, "waiting", waiting.len(), 65_535);

    waiting.push(b'E')?;
    same(
        &rt,
        "long",
        write_long(&mut out, &mut waiting).is_ok(),
        true,
    );
    same(&rt, "gone", waiting.len(), 0);

    waiting.resize(MOST_WAITING + 1, b' ')?;
    same(
        &rt,
        "too long",
        write_long(&mut out, &mut waiting).is_ok(),
        false,
    );
    same(&rt, "failures", Sink::failures(&out), 1);
    let taken = out.into_inner().taken;
    same(&rt, "taken", taken.len(), 65_536);
    same(&rt, "last", taken.last().copied(), Some(b'E'));
    Ok(())
}
