//! How long the pieces of a file are.

ghost use Rattle.std.specs.Prelude.{◌≡◌, ◌≤◌, ◌<◌, ◌+◌, ◌&&◌, ◌||◌, ◌==◌, not, false, true, drop, length};
ghost use Rattle.bison_rules.specs.Pieces.{word_size, size_before, quote_size, comment_size, tag_size, first_of, is_quote, opens, closes, behind_slash, is_pair, part_size, depth_after, code_size};

use crate::characters::is_word_byte;

/// Returns the items behind the first `count`.
pub(crate) fn behind<T>(items: &[T], count: usize) -> &[T]
    ensures { result.now ≡ drop count items.now }
{
    match items.get(count..) {
        Some(rest) => rest,
        None => &[],
    }
}

/// Returns the first byte, or 0.
pub(crate) fn first_of(bytes: &[u8]) -> u8
    ensures { result ≡ first_of bytes.now }
{
    match bytes {
        [] => 0,
        [b, ..] => *b,
    }
}

/// Returns whether a byte is a quote.
pub(crate) fn is_quote(b: u8) -> bool
    ensures { result ≡ is_quote b }
{
    b == b'"' || b == b'\''
}

/// Returns how many bytes a text begins with that are those of a word.
pub(crate) fn word_size(bytes: &[u8]) -> usize
    ensures size { result ≡ word_size bytes.now }
    ensures within { result ≤ length bytes.now }
{
    'bytes: for (i, b) in bytes.iter().enumerate() {
        if !is_word_byte(*b) {
            return i;
        }
    }
    bytes.len()
}

/// Returns how many bytes are before a byte.
pub(crate) fn size_before(end: u8, bytes: &[u8]) -> usize
    ensures size { result ≡ size_before end bytes.now }
    ensures within { result ≤ length bytes.now }
{
    'bytes: for (i, b) in bytes.iter().enumerate() {
        if *b == end {
            return i;
        }
    }
    bytes.len()
}

/// Returns whether a byte ends a quote.
fn ends_quote(quote: u8, escaped: bool, b: u8) -> bool
    ensures { result ≡ (not escaped && (b == quote || b == 10)) }
{
    !escaped && (b == quote || b == b'\n')
}

/// Returns whether a byte escapes the next one.
fn escapes(escaped: bool, b: u8) -> bool
    ensures { result ≡ (not escaped && b == 92) }
{
    !escaped && b == b'\\'
}

/// Returns how many bytes are before the quote or the line feed that ends a quote.
pub(crate) fn quote_size(quote: u8, bytes: &[u8]) -> usize
    ensures size { result ≡ quote_size quote false bytes.now }
    ensures within { result ≤ length bytes.now }
{
    let mut escaped = false;
    'bytes: for (i, b) in bytes.iter().enumerate() {
        if ends_quote(quote, escaped, *b) {
            return i;
        }
        escaped = escapes(escaped, *b);
    }
    bytes.len()
}

/// Returns how many bytes a comment has up to its end.
fn comment_size(bytes: &[u8]) -> usize
    ensures size { result ≡ comment_size 0 bytes.now }
    ensures within { result ≤ length bytes.now }
{
    let mut last = 0;
    'bytes: for (i, b) in bytes.iter().enumerate() {
        if last == b'*' && *b == b'/' {
            return i + 1;
        }
        last = *b;
    }
    bytes.len()
}

/// Returns how many bytes a tag has up to its end.
pub(crate) fn tag_size(bytes: &[u8]) -> usize
    ensures size { result ≡ tag_size 0 0 bytes.now }
    ensures within { result ≤ length bytes.now }
{
    let mut depth: usize = 0;
    let mut last = 0;
    'bytes: for (i, b) in bytes.iter().enumerate() {
        if *b == b'>' && last != b'-' {
            if depth == 0 {
                return i + 1;
            }
            depth -= 1;
        } else if *b == b'<' {
            depth += 1;
        }
        last = *b;
    }
    bytes.len()
}

/// Returns whether a brace or a digraph for one opens code.
fn opens(is_prologue: bool, b: u8, c: u8) -> bool
    ensures { result ≡ opens is_prologue b c }
{
    !is_prologue && (b == b'{' || (b == b'<' && c == b'%'))
}

/// Returns whether a brace or a digraph for one closes code, or what closes a prologue is there.
fn closes(is_prologue: bool, b: u8, c: u8) -> bool
    ensures { result ≡ closes is_prologue b c }
{
    if is_prologue {
        b == b'%' && c == b'}'
    } else {
        b == b'}' || (b == b'%' && c == b'>')
    }
}

/// Returns how many bytes of a comment are behind its first slash; none where there is no comment.
pub(crate) fn behind_slash(bytes: &[u8]) -> usize
    ensures size { result ≡ behind_slash bytes.now }
    ensures within { result ≤ length bytes.now }
{
    match bytes {
        [] => 0,
        [b, rest @ ..] => {
            if *b == b'/' {
                size_before(b'\n', bytes)
            } else if *b == b'*' {
                1 + comment_size(rest)
            } else {
                0
            }
        }
    }
}

/// Returns whether two bytes are one piece of code.
fn is_pair(is_prologue: bool, b: u8, c: u8) -> bool
    ensures { result ≡ is_pair is_prologue b c }
{
    (b == b'<' && c == b'%') || (b == b'%' && (c == b'>' || (is_prologue && c == b'}')))
}

/// Returns how many bytes behind a byte of code belong to it.
fn part_size(is_prologue: bool, b: u8, bytes: &[u8]) -> usize
    ensures size { result ≡ part_size is_prologue b bytes.now }
    ensures within { result ≤ length bytes.now + 1 }
{
    if is_quote(b) {
        1 + quote_size(b, bytes)
    } else if b == b'/' {
        behind_slash(bytes)
    } else if is_pair(is_prologue, b, first_of(bytes)) {
        1
    } else {
        0
    }
}

/// Returns how many bytes code has up to its end.
pub(crate) fn code_size(is_prologue: bool, bytes: &[u8]) -> usize
    ensures size { result ≡ code_size is_prologue 0 0 bytes.now }
    ensures within { result ≤ length bytes.now + 1 }
{
    let mut depth: usize = 0;
    let mut skipped: usize = 0;
    'bytes: for (i, b) in bytes.iter().enumerate() {
        let byte = *b;
        if skipped > 0 {
            skipped -= 1;
            continue;
        }
        let rest = behind(bytes, i + 1);
        let next = first_of(rest);
        skipped = part_size(is_prologue, byte, rest);
        if closes(is_prologue, byte, next) {
            if depth == 0 {
                return i + 1 + skipped;
            }
            depth -= 1;
        } else if opens(is_prologue, byte, next) {
            depth += 1;
        }
    }
    bytes.len()
}
