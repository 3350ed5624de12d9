//! What is sent, as JSON with its heading.

ghost use Rattle.std.specs.Prelude.{◌≡◌, IfOk, OnOk, codes, string_bytes};
ghost use Rattle.language_server.specs.Frames.{IsFrame, IsFrameOf, frame};
ghost use Rattle.language_server.specs.Texts.{Member, WritesAnswer, WritesRefusal, WritesResponse};

use crate::answers::{Answer, Published, Response};
use crate::fault::ServeFault;
use crate::messages::{ErrorCode, Id};
use crate::offers::write_begun;
use serde::{Case, Described, Serialize, Serializer};
use std::alloc::Global;

/// Diagnostics as a notification.
#[derive(Debug, Drop, Serialize)]
struct Note<'a> {
    jsonrpc: &'static str,
    method: &'static str,
    params: &'a Published,
}

/// Writes a member: its key, and then its value.
pub(crate) fn write_member<T: Serialize, S: Serializer>(
    key: &str,
    value: &T,
    out: &mut S,
) -> Result<(), S::Error>
    ensures { OnOk result (Member key.now (T.writes value.now) (S.written out.old) (S.written out.new)) }
{
    out.key_cased(key, Case::AsIs)?;
    value.serialize(out)
}

impl Described for Id {
    ghost use Rattle.language_server.specs.Texts.{WritesId};

    ghost writes = { WritesId };
}

impl Serialize for Id {
    fn serialize<S: Serializer>(&self, out: &mut S) -> Result<(), S::Error> {
        match self {
            Id::Number(number) => out.i64(*number),
            Id::Text(text) => out.str(text.as_str()),
            Id::Null => out.unit(),
        }
    }
}

impl Described for ErrorCode {
    ghost use Rattle.language_server.specs.Texts.{WritesError};

    ghost writes = { WritesError };
}

impl Serialize for ErrorCode {
    fn serialize<S: Serializer>(&self, out: &mut S) -> Result<(), S::Error> {
        out.begin_map(None)?;
        write_member("code", &self.number(), out)?;
        write_member("message", &self.words(), out)?;
        out.end_map()
    }
}

/// Writes the member with an answer.
fn write_answer<S: Serializer>(answer: &Answer, out: &mut S) -> Result<(), S::Error>
    ensures { OnOk result (WritesAnswer answer.now (S.written out.old) (S.written out.new)) }
{
    match answer {
        Answer::Initialized(offers, encoding) => write_begun(*offers, *encoding, out),
        Answer::Done => write_member("result", &(), out),
        Answer::Error(code) => write_member("error", code, out),
        Answer::Refused(words) => write_refusal(words.as_str(), out),
        Answer::Locations(places) => write_member("result", places, out),
        Answer::Highlights(highlights) => write_member("result", highlights, out),
        Answer::Range(range) => write_member("result", range, out),
        Answer::Edits(edits) => write_member("result", edits, out),
        Answer::Symbols(list) => write_member("result", list, out),
        Answer::Outline(outline) => write_member("result", outline, out),
        Answer::Folds(list) => write_member("result", list, out),
        Answer::Items(list) => write_member("result", list, out),
        Answer::Hover(hover) => write_member("result", hover, out),
    }
}

/// Writes the member with the error of a refusal.
fn write_refusal<S: Serializer>(words: &str, out: &mut S) -> Result<(), S::Error>
    ensures { OnOk result (Member (codes "error") (WritesRefusal words.now) (S.written out.old) (S.written out.new)) }
{
    out.key_cased("error", Case::AsIs)?;
    out.begin_map(None)?;
    write_member("code", &ErrorCode::RequestFailed.number(), out)?;
    write_member("message", &words, out)?;
    out.end_map()
}

impl Described for Response {
    ghost use Rattle.language_server.specs.Texts.{WritesResponse};

    ghost writes = { WritesResponse };
}

impl Serialize for Response {
    fn serialize<S: Serializer>(&self, out: &mut S) -> Result<(), S::Error> {
        out.begin_map(None)?;
        write_member("jsonrpc", &"2.0", out)?;
        write_member("id", &self.id, out)?;
        write_answer(&self.answer, out)?;
        out.end_map()
    }
}

/// Returns a message behind its heading.
fn frame_text(alloc: Global, body: &str) -> Result<String, ServeFault>
    ensures { IfOk result (λ s. string_bytes s ≡ frame body.now) }
{
    let len = body.len();
    let text = format!(in alloc; "Content-Length: {len}\r\n\r\n{body}")?;
    Ok(text)
}

/// Returns an answer as it is sent.
pub fn response_text(alloc: Global, response: &Response) -> Result<String, ServeFault>
    ensures { IfOk result (λ s. IsFrameOf (WritesResponse response.now) (string_bytes s)) }
{
    match serde_json::to_string(alloc, response) {
        Ok(body) => frame_text(alloc, body.as_str()),
        Err(_) => Err(ServeFault::Unwritten),
    }
}

/// Returns diagnostics as they are sent.
pub fn published_text(alloc: Global, published: &Published) -> Result<String, ServeFault>
    ensures { IfOk result (λ s. IsFrame (string_bytes s)) }
{
    let note = Note {
        jsonrpc: "2.0",
        method: "textDocument/publishDiagnostics",
        params: published,
    };
    match serde_json::to_string(alloc, &note) {
        Ok(body) => frame_text(alloc, body.as_str()),
        Err(_) => Err(ServeFault::Unwritten),
    }
}
