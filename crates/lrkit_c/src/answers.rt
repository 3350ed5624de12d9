//! What a call answers, and texts that it writes.

ghost use Rattle.std.specs.Prelude.{◌≡◌, ◌≤◌, ◌++◌, length, take, drop};
ghost use Rattle.lrkit_c.specs.Answers.{Puts, TellsStatus, answer_of};

use crate::status::Status;

/// What a call answers: the number of a status, and a count of what it wrote or wants room for.
#[repr(C)]
#[derive(Clone, Copy)]
pub struct LrkitAnswer {
    /// The number of the status.
    pub status: u32,
    /// How many bytes, lexemes, nodes or tokens.
    pub count: usize,
}

/// A part of a text, and the token that is there.
#[repr(C)]
#[derive(Clone, Copy)]
pub struct LrkitPlace {
    /// The token's number; `UINT32_MAX` where the lexer has none.
    pub token: u32,
    /// The byte offset at which it begins.
    pub start: usize,
    /// The byte offset at which it ends.
    pub end: usize,
}

/// Makes an answer.
pub fn answer(status: Status, count: usize) -> LrkitAnswer
    ensures { result ≡ answer_of status count }
{
    LrkitAnswer {
        status: status.number(),
        count,
    }
}

/// Writes values at the front of the room.
pub fn fill<T: Copy>(from: &[T], out: &mut [T])
    requires { length from.now ≤ length out.old }
    ensures { out.new ≡ from.now ++ drop (length from.now) out.old }
{
    'each: for index in 0..from.len() {
        out[index] = from[index];
    }
}

/// Writes values at the front of the room, where they fit.
pub fn put_all<T: Copy>(status: Status, from: &[T], out: &mut [T]) -> LrkitAnswer
    ensures { Puts status from.now out.old out.new result }
{
    if out.len() < from.len() {
        return answer(Status::Room, from.len());
    }
    fill(from, out);
    answer(status, from.len())
}

/// Writes a text at the front of the room, where it fits.
pub fn put_text(status: Status, text: &[u8], out: &mut [u8]) -> LrkitAnswer
    ensures { Puts status text.now out.old out.new result }
{
    put_all(status, text, out)
}

/// Writes the text of a status.
#[unsafe(no_mangle)]
pub extern "C" fn lrkit_error_text(status: u32, out: &mut [u8]) -> LrkitAnswer
    ensures { TellsStatus status out.old out.new result }
{
    match Status::of_number(status) {
        Some(found) => put_text(Status::Done, found.text().as_bytes(), out),
        None => answer(Status::Unknown, 0),
    }
}
