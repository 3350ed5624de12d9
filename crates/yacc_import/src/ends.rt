//! Where code, quotes, comments, names and numbers end.

/// Returns the bytes from `start` on.
fn rest(bytes: &[u8], start: usize) -> &[u8] {
    bytes.get(start..).unwrap_or(&[])
}

/// Returns the byte offset of an index of the bytes from `start` on, or the end where there is none.
fn offset_of(bytes: &[u8], start: usize, index: Option<usize>) -> usize {
    match index {
        Some(index) => start.saturating_add(index),
        None => bytes.len(),
    }
}

/// Returns the end of the code that begins at `start`: behind the `%}` of a prologue, or else behind the brace that balances the
/// first one. None where it isn't closed.
pub(crate) fn code_end(bytes: &[u8], start: usize, is_prologue: bool) -> Option<usize> {
    let mut depth: usize = 0;
    let mut past = start;
    for (i, byte) in rest(bytes, start).iter().enumerate() {
        let at = start.checked_add(i)?;
        let next = at.checked_add(1)?;
        if at < past {
            continue;
        }
        let mut closed = None;
        match (*byte, byte_at(bytes, next)) {
            (b'"' | b'\'', _) => past = string_end(bytes, at)?,
            (b'/', b'/' | b'*') => past = comment_end(bytes, at)?,
            (b'%', b'}') if is_prologue => return next.checked_add(1),
            (b'{', _) => depth = depth.saturating_add(1),
            (b'<', b'%') => {
                depth = depth.saturating_add(1);
                past = next.saturating_add(1);
            }
            (b'}', _) => closed = Some(next),
            (b'%', b'>') => closed = next.checked_add(1),
            _ => {}
        }
        if closed.is_some() {
            depth = depth.saturating_sub(1);
            if depth == 0 && !is_prologue {
                return closed;
            }
        }
    }
    None
}

/// Returns the end of the string or the character that begins at `start`, with its quote or with the line feed before that.
fn string_end(bytes: &[u8], start: usize) -> Option<usize> {
    let quote = byte_at(bytes, start);
    let mut end = start.checked_add(1)?;
    let mut is_escaped = false;
    for b in rest(bytes, end) {
        end = end.checked_add(1)?;
        if !is_escaped && (*b == quote || *b == b'\n') {
            return Some(end);
        }
        is_escaped = !is_escaped && *b == b'\\';
    }
    None
}

/// Returns the end of the quote that begins at `start`; none where the line ends before.
pub(crate) fn quote_end(bytes: &[u8], start: usize) -> Option<usize> {
    let end = string_end(bytes, start)?;
    if bytes.get(start..end)?.contains(&b'\n') {
        return None;
    }
    Some(end)
}

/// Returns the end of the tag that begins at `start`; none where it isn't closed. A `>` behind a `-` closes nothing.
pub(crate) fn tag_end(bytes: &[u8], start: usize) -> Option<usize> {
    let mut depth: usize = 0;
    let mut last = 0;
    let mut end = start;
    for b in rest(bytes, start) {
        end = end.checked_add(1)?;
        if *b == b'<' {
            depth = depth.saturating_add(1);
        } else if *b == b'>' && last != b'-' {
            depth = depth.saturating_sub(1);
            if depth == 0 {
                return Some(end);
            }
        }
        last = *b;
    }
    None
}

/// Returns the end of the comment that begins at `start`, with its `*/` or before its line feed; none where it isn't closed.
pub(crate) fn comment_end(bytes: &[u8], start: usize) -> Option<usize> {
    if byte_at(bytes, start.saturating_add(1)) == b'/' {
        return Some(line_end(bytes, start, bytes.len()));
    }
    let mut last = 0;
    let mut end = start.checked_add(2)?;
    for b in rest(bytes, end) {
        end = end.checked_add(1)?;
        if last == b'*' && *b == b'/' {
            return Some(end);
        }
        last = *b;
    }
    None
}

/// Returns the byte offset of the first line feed from `start` on, or `end`.
pub(crate) fn line_end(bytes: &[u8], start: usize, end: usize) -> usize {
    let range = bytes.get(start..end).unwrap_or(&[]);
    match range.iter().position(|b| *b == b'\n') {
        Some(index) => start.saturating_add(index),
        None => end,
    }
}

/// Returns the end of the reference in brackets that begins at `start`; none where the line ends before.
pub(crate) fn reference_end(bytes: &[u8], start: usize) -> Option<usize> {
    let index = rest(bytes, start)
        .iter()
        .position(|b| matches!(*b, b']' | b'\n'))?;
    let at = start.checked_add(index)?;
    if byte_at(bytes, at) == b']' {
        at.checked_add(1)
    } else {
        None
    }
}

/// Returns whether a byte may begin a name.
pub(crate) fn is_name_start(byte: u8) -> bool {
    byte.is_ascii_alphabetic() || byte == b'_' || byte == b'.'
}

/// Returns whether a byte may be in a name behind its first.
pub(crate) fn is_name_byte(byte: u8) -> bool {
    is_name_start(byte) || byte.is_ascii_digit() || byte == b'-'
}

/// Returns the end of the run of bytes of a name from `start` on.
pub(crate) fn name_end(bytes: &[u8], start: usize) -> usize {
    let index = rest(bytes, start).iter().position(|b| !is_name_byte(*b));
    offset_of(bytes, start, index)
}

/// Returns the end of a number, also one that begins with `0x`.
pub(crate) fn number_end(bytes: &[u8], start: usize) -> usize {
    let index = rest(bytes, start)
        .iter()
        .position(|b| !b.is_ascii_alphanumeric());
    offset_of(bytes, start, index)
}

/// Returns a byte, or 0 behind the end.
pub(crate) fn byte_at(bytes: &[u8], at: usize) -> u8 {
    bytes.get(at).copied().unwrap_or(0)
}
