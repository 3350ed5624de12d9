//! Bytes of a text: their classes, longest runs, and the gaps between words.

ghost use Rattle.std.specs.Prelude.{◌≡◌, ◌+◌, ◌≤◌, ◌<◌, length, slice_get, IfSome, IsTrue};
ghost use Rattle.std.specs.List.{prefix_len};
ghost use Rattle.cfg_base.specs.Text.{is_white, is_letter, is_digit, is_in_line, run_end, line_end, is_comment_end, comment_end, gap_at, FitsGap};

/// The part of a gap at an offset.
#[derive(Clone, Copy, PartialEq, Eq)]
pub enum GapPart {
    /// One white byte or one comment, which ends before this offset.
    Part(usize),
    /// A `/*` without `*/`.
    Unclosed,
    /// Neither a white byte nor a comment.
    NoPart,
}

/// Returns whether a byte is a space, a tab, CR or LF.
pub fn is_white(b: u8) -> bool
    ensures { result ≡ is_white b }
{
    b == b' ' || b == b'\t' || b == b'\r' || b == b'\n'
}

/// Returns whether a byte is an ASCII letter.
pub fn is_letter(b: u8) -> bool
    ensures { result ≡ is_letter b }
{
    b.is_ascii_uppercase() || b.is_ascii_lowercase()
}

/// Returns whether a byte is a decimal digit.
pub fn is_digit(b: u8) -> bool
    ensures { result ≡ is_digit b }
{
    b.is_ascii_digit()
}

/// Counts the white bytes in front.
pub fn white_len(bytes: &[u8]) -> usize
    ensures value { result ≡ prefix_len is_white bytes.now }
    ensures within { result ≤ length bytes.now }
{
    bytes.iter().take_while(|b| is_white(**b)).count()
}

/// Counts the digits in front.
pub fn digits_len(bytes: &[u8]) -> usize
    ensures value { result ≡ prefix_len is_digit bytes.now }
    ensures within { result ≤ length bytes.now }
{
    bytes.iter().take_while(|b| is_digit(**b)).count()
}

/// Counts the bytes before the first LF.
pub fn line_len(bytes: &[u8]) -> usize
    ensures value { result ≡ prefix_len is_in_line bytes.now }
    ensures within { result ≤ length bytes.now }
{
    bytes.iter().take_while(|b| **b != b'\n').count()
}

/// Returns the byte at an offset; `None` from the text's end on.
pub fn byte_at(text: &str, offset: usize) -> Option<u8>
    ensures value { result ≡ slice_get text.now offset }
    ensures within { IfSome result (λ _. offset < length text.now) }
{
    text.as_bytes().get(offset).copied()
}

/// Returns the offset behind the white bytes that begin at `offset`.
#[tactic(auto, unfolding(crate::specs::Text::run_end))]
pub fn white_end(text: &str, offset: usize) -> usize
    requires { offset ≤ length text.now }
    ensures value { result ≡ run_end is_white text.now offset }
    ensures from { offset ≤ result }
    ensures within { result ≤ length text.now }
{
    offset + white_len(&text.as_bytes()[offset..])
}

/// Returns the offset behind the digits that begin at `offset`.
#[tactic(auto, unfolding(crate::specs::Text::run_end))]
pub fn digits_end(text: &str, offset: usize) -> usize
    requires { offset ≤ length text.now }
    ensures value { result ≡ run_end is_digit text.now offset }
    ensures from { offset ≤ result }
    ensures within { result ≤ length text.now }
{
    offset + digits_len(&text.as_bytes()[offset..])
}

/// Returns the offset of the line's end: that of its LF, or the text's length.
#[tactic(auto, unfolding(crate::specs::Text::run_end))]
pub fn line_end(text: &str, offset: usize) -> usize
    requires { offset ≤ length text.now }
    ensures value { result ≡ line_end text.now offset }
    ensures from { offset ≤ result }
    ensures within { result ≤ length text.now }
{
    offset + line_len(&text.as_bytes()[offset..])
}

/// Returns whether `*/` is here.
pub fn is_comment_end(text: &str, offset: usize) -> bool
    ensures value { result ≡ is_comment_end text.now offset }
    ensures within { IsTrue result → offset + 2 ≤ length text.now }
{
    byte_at(text, offset) == Some(b'*') && byte_at(text, offset + 1) == Some(b'/')
}

/// Returns the offset of the first `*/` from `offset` on.
pub fn comment_end(text: &str, offset: usize) -> Option<usize>
    requires { offset ≤ length text.now }
    ensures value { result ≡ comment_end text.now offset }
    ensures within { IfSome result (λ b. (offset ≤ b) × (b + 2 ≤ length text.now)) }
{
    let mut end = offset;
    'bytes: while end < text.len() {
        if is_comment_end(text, end) {
            return Some(end);
        }
        end += 1;
    }
    None
}

/// Returns the part of a gap at `offset`: one white byte or one comment, with its end; a `/*` without `*/`; or
/// neither.
#[tactic(auto, unfolding(crate::specs::Text::gap_at))]
pub fn gap_at(text: &str, offset: usize) -> GapPart
    ensures value { result ≡ gap_at text.now offset }
    ensures fits { FitsGap text.now offset result }
{
    match byte_at(text, offset) {
        Some(b) if is_white(b) => GapPart::Part(offset + 1),
        Some(b'/') => match byte_at(text, offset + 1) {
            Some(b'/') => GapPart::Part(line_end(text, offset + 2)),
            Some(b'*') => match comment_end(text, offset + 2) {
                Some(end) => GapPart::Part(end + 2),
                None => GapPart::Unclosed,
            },
            _ => GapPart::NoPart,
        },
        _ => GapPart::NoPart,
    }
}
