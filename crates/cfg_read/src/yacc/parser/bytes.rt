//! Bytes of a grammar text.

ghost use Rattle.std.specs.Prelude.{◌≡◌, ◌≤◌, length};
ghost use Rattle.std.specs.List.{prefix_len, suffix_len, list_any};
ghost use Rattle.cfg_base.specs.Text.{is_white, is_letter, is_digit, is_line_feed, is_in_line};
ghost use Rattle.cfg_read.specs.Bytes.{is_blank, is_name_start, is_name_byte, is_keyword_byte, is_quote, is_plain, is_quoted_by};

use cfg_base::text::{is_digit, is_letter, is_white};

/// Returns whether a byte is white within a line: space, tab, CR.
pub(crate) fn is_blank(b: u8) -> bool
    ensures { result ≡ is_blank b }
{
    b == b' ' || b == b'\t' || b == b'\r'
}

/// Returns whether a name may begin with a byte: a letter, `_`, `.`.
pub(crate) fn is_name_start(b: u8) -> bool
    ensures { result ≡ is_name_start b }
{
    is_letter(b) || b == b'_' || b == b'.'
}

/// Returns whether a name may have a byte: a letter, a digit, `_`, `.`.
fn is_name_byte(b: u8) -> bool
    ensures { result ≡ is_name_byte b }
{
    is_name_start(b) || is_digit(b)
}

/// Returns whether a declaration's word may have a byte: a letter, `_`, `-`.
fn is_keyword_byte(b: u8) -> bool
    ensures { result ≡ is_keyword_byte b }
{
    is_letter(b) || b == b'_' || b == b'-'
}

/// Returns whether a byte is a quote, single or double.
pub(crate) fn is_quote(b: u8) -> bool
    ensures { result ≡ is_quote b }
{
    b == b'\'' || b == b'"'
}

/// Counts the name bytes in front.
pub(crate) fn name_len(bytes: &[u8]) -> usize
    ensures value { result ≡ prefix_len is_name_byte bytes.now }
    ensures within { result ≤ length bytes.now }
{
    bytes.iter().take_while(|b| is_name_byte(**b)).count()
}

/// Counts the bytes of a declaration's word in front.
pub(crate) fn keyword_len(bytes: &[u8]) -> usize
    ensures value { result ≡ prefix_len is_keyword_byte bytes.now }
    ensures within { result ≤ length bytes.now }
{
    bytes.iter().take_while(|b| is_keyword_byte(**b)).count()
}

/// Counts the bytes before the first such quote or LF.
pub(crate) fn quoted_len(quote: u8, bytes: &[u8]) -> usize
    ensures value { result ≡ prefix_len (is_quoted_by quote) bytes.now }
    ensures within { result ≤ length bytes.now }
{
    bytes
        .iter()
        .take_while(|b| **b != quote && **b != b'\n')
        .count()
}

/// Counts the white bytes at the end.
pub(crate) fn last_white_len(bytes: &[u8]) -> usize
    ensures value { result ≡ suffix_len is_white bytes.now }
    ensures within { result ≤ length bytes.now }
{
    bytes.iter().rev().take_while(|b| is_white(**b)).count()
}

/// Counts the bytes other than `\` in front.
pub(crate) fn plain_len(bytes: &[u8]) -> usize
    ensures value { result ≡ prefix_len is_plain bytes.now }
    ensures within { result ≤ length bytes.now }
{
    bytes.iter().take_while(|b| **b != b'\\').count()
}

/// Returns whether one of the bytes is LF.
pub(crate) fn has_line_feed(bytes: &[u8]) -> bool
    ensures { result ≡ list_any is_line_feed bytes.now }
{
    bytes.iter().any(|b| *b == b'\n')
}
