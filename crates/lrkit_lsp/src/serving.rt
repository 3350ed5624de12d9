//! From bytes to bytes.

ghost use Rattle.std.specs.Prelude.{IfOk, IfSome};
ghost use Rattle.lrkit_lsp.specs.Statuses.{IsStatus};

use crate::fault::ProgramFault;
use byte_streams::{Recorded, Sink, Source, write_all};
use language_server::{
    ErrorCode, Frame, Frames, Id, Language, Message, ServeFault, Server, Taken, published_text,
    read_message, response_text,
};
use std::alloc::Global;
use std::io;

/// Returns the message of a frame.
fn message_in(alloc: Global, frame: Frame) -> Result<Message, ServeFault> {
    match frame {
        Frame::Whole(bytes) => read_message(alloc, bytes.as_slice()),
        Frame::TooLong => Ok(Message::Malformed(Id::Null, ErrorCode::InvalidRequest)),
        Frame::Uncounted => Ok(Message::Malformed(Id::Null, ErrorCode::ParseError)),
    }
}

/// Writes a text.
fn send<W: Sink>(out: &mut W, text: &str) -> Result<(), ProgramFault> {
    match write_all(out, text.as_bytes()) {
        Ok(()) => Ok(()),
        Err(_) => Err(ProgramFault::Stream),
    }
}

/// Writes what a message brings about.
fn send_taken<W: Sink>(alloc: Global, out: &mut W, taken: &Taken) -> Result<(), ProgramFault> {
    if let Some(response) = &taken.response {
        let text = response_text(alloc, response)?;
        send(out, text.as_str())?;
    }
    if let Some(published) = &taken.published {
        let text = published_text(alloc, published)?;
        send(out, text.as_str())?;
    }
    Ok(())
}

/// Does what a frame asks for, and returns the status if the server ends.
#[tactic(auto, using(crate::proofs::Ended::of_status))]
fn take_frame<W: Sink, L: Language>(
    alloc: Global,
    language: &L,
    out: &mut W,
    server: &mut Server,
    frame: Frame,
) -> Result<Option<u8>, ProgramFault>
    ensures { IfOk result (λ o. IfSome o IsStatus) }
{
    let message = message_in(alloc, frame)?;
    let taken = server.take(alloc, language, message)?;
    let sent = send_taken(alloc, out, &taken);
    let status = taken.status;
    drop(taken);
    match sent {
        Ok(()) => Ok(status),
        Err(e) => Err(e),
    }
}

/// Takes bytes, and returns the status if the server ends.
fn take_bytes<W: Sink, L: Language>(
    alloc: Global,
    language: &L,
    out: &mut W,
    server: &mut Server,
    frames: &mut Frames,
    bytes: &[u8],
) -> Result<Option<u8>, ProgramFault>
    ensures { IfOk result (λ o. IfSome o IsStatus) }
{
    let mut at: usize = 0;
    'bytes: for _ in 0..bytes.len() {
        let inner = frames.take_inner(bytes.get(at..).unwrap_or(&[]))?;
        at = at.saturating_add(inner);
        let Some(byte) = bytes.get(at) else {
            return Ok(None);
        };
        at = at.saturating_add(1);
        if let Some(frame) = frames.take(*byte)? {
            let status = take_frame(alloc, language, out, server, frame)?;
            if status.is_some() {
                return Ok(status);
            }
        }
    }
    Ok(None)
}

/// Serves until `exit` or the input's end.
fn serve_with<S: Source, W: Sink, L: Language>(
    alloc: Global,
    language: &L,
    source: &mut S,
    out: &mut W,
    server: &mut Server,
    frames: &mut Frames,
) -> Result<u8, ProgramFault>
    ensures { IfOk result IsStatus }
{
    let mut chunk = [0u8; 8192];
    for _ in 0..u64::MAX {
        let count = match source.read(&mut chunk) {
            Ok(0) => return Ok(server.phase.status()),
            Ok(count) => count,
            Err(_) => return Err(ProgramFault::Stream),
        };
        let status = take_bytes(alloc, language, out, server, frames, &chunk[..count])?;
        if let Some(status) = status {
            return Ok(status);
        }
    }
    Ok(server.phase.status())
}

/// Serves a client on standard input and output, and returns the status: that of the phase that the session ends in.
pub fn serve<R: io::Input + Print + AllocGlobal, L: Language>(
    rt: &R,
    language: &L,
) -> Result<u8, ProgramFault>
    ensures { IfOk result IsStatus }
{
    let alloc = rt.alloc();
    let mut source = Recorded::new(rt.reader());
    let mut out = Recorded::new(io::writer(rt));
    let mut server = Server::new(alloc);
    let mut frames = Frames::new(alloc);
    let ended = serve_with(
        alloc,
        language,
        &mut source,
        &mut out,
        &mut server,
        &mut frames,
    );
    drop(frames);
    drop(server);
    ended
}
