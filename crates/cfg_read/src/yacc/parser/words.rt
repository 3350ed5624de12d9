//! Longer words of a grammar text: the words of declarations, numbers, strings, actions, trimmed texts.

ghost use Rattle.std.specs.Prelude.{◌≡◌, ◌+◌, ◌^◌, ◌≤◌, ◌<◌, length, slice_get, slice_range, Some, None, IfSome, MatchOption, IsTrue};
ghost use Rattle.std.specs.Str.{IsCharBoundary, IsUtf8};
ghost use Rattle.cfg_base.specs.Text.{first_offset};
ghost use Rattle.cfg_read.specs.Bytes.{trim_start, trim_end, trimmed};
ghost use Rattle.cfg_read.specs.Words.{keyword, keyword_end, number_of, closes_string, breaks_string, stops_string, string_at, is_lone_colon, lone_colon, action_end};
ghost use Rattle.cfg_read.specs.Declarations.{declaration_of};
ghost use Rattle.cfg_read.specs.Reading.{has_letters};
ghost use Rattle.cfg_read.specs.Scanning.{FitsDigits, FitsPart, FitsString, depth_behind};

use crate::yacc::parser::bytes;
use crate::yacc::parser::declaration::{Declaration, declaration_named, knows};
use crate::yacc::parser::scan::{Scanner, StringKind};
use cfg_base::span::Span;
use cfg_base::text;

/// Counts the braces that are open behind a byte, where `depth` are before it; `None` where the byte
/// closes the action itself.
fn depth_behind(byte: u8, depth: usize) -> Option<usize>
    requires { depth + 1 < 2 ^ 64 }
    ensures { result ≡ depth_behind byte depth }
{
    match byte {
        b'}' => depth.checked_sub(1),
        b'{' => Some(depth + 1),
        _ => Some(depth),
    }
}

impl<'a> Scanner<'a> {
    /// Finds where the word behind the `%` at an offset ends.
    #[tactic(auto, unfolding(cfg_base::specs::Text::run_end))]
    fn keyword_end(&self, offset: usize) -> usize
        requires { offset < length self.now.text.now }
        ensures value { result ≡ keyword_end self.now.text.now offset }
        ensures utf8 { IsUtf8 self.now.text.now }
    {
        offset + 1 + bytes::keyword_len(&self.text.as_bytes()[offset + 1..])
    }

    /// Reads the word behind the `%` at an offset, and returns its declaration, and the offset behind the word.
    pub(crate) fn parse_keyword(&self, offset: usize) -> Option<(Declaration, usize)>
        requires { (offset < length self.now.text.now) × IsCharBoundary self.now.text.now (offset + 1) }
        ensures value { MatchOption result (declaration_of self.now.kind (keyword self.now.text.now offset) ≡ None) (λ d. (declaration_of self.now.kind (keyword self.now.text.now offset) ≡ Some d.0) × (d.1 ≡ keyword_end self.now.text.now offset)) }
        ensures fits { IfSome result (λ d. FitsPart self.now.text.now (offset + 1) d.1) }
    {
        let end = self.keyword_end(offset);
        match declaration_named(&self.text[offset + 1..end]) {
            Some(declaration) if knows(self.kind, declaration) => Some((declaration, end)),
            _ => None,
        }
    }

    /// Returns whether `empty` is behind the `%` at an offset.
    #[tactic(auto, unfolding(crate::specs::Reading::has_letters))]
    pub(crate) fn has_empty(&self, offset: usize) -> bool
        requires { offset < length self.now.text.now }
        ensures value { result ≡ has_letters self.now.text.now offset "empty" }
        ensures within { IsTrue result → offset + 6 ≤ length self.now.text.now }
    {
        self.text.as_bytes()[offset + 1..].starts_with(b"empty")
    }

    /// Returns whether `prec` is behind the `%` at an offset.
    #[tactic(auto, unfolding(crate::specs::Reading::has_letters))]
    pub(crate) fn has_prec(&self, offset: usize) -> bool
        requires { offset < length self.now.text.now }
        ensures value { result ≡ has_letters self.now.text.now offset "prec" }
        ensures within { IsTrue result → offset + 5 ≤ length self.now.text.now }
    {
        self.text.as_bytes()[offset + 1..].starts_with(b"prec")
    }

    /// Returns the number that these digits write, if it isn't too large.
    #[tactic(auto, unfolding(crate::specs::Words::number_of))]
    pub(crate) fn number_value(&self, start: usize, end: usize) -> Option<usize>
        requires { FitsDigits self.now.text.now start end }
        ensures { result ≡ number_of (slice_range self.now.text.now start end) }
    {
        self.text[start..end].parse().ok()
    }

    /// Returns whether this quote is here and ends a string.
    fn closes_string(&self, quote: u8, offset: usize) -> bool
        requires { 0 < offset }
        ensures value { result ≡ closes_string quote self.now.text.now offset }
        ensures quote { IsTrue result → slice_get self.now.text.now offset ≡ Some quote }
    {
        self.byte(offset) == Some(quote) && self.byte(offset - 1) != Some(b'\\')
    }

    /// Returns whether a string can't have what is here.
    fn breaks_string(&self, offset: usize) -> bool
        ensures { result ≡ breaks_string self.now.text.now offset }
    {
        match self.byte(offset) {
            Some(b'\r' | b'\n') => true,
            Some(b'\\') => !matches!(self.byte(offset + 1), Some(b'\'' | b'"')),
            _ => false,
        }
    }

    /// Returns whether a string ends or breaks here.
    fn stops_string(&self, quote: u8, offset: usize) -> bool
        requires { 0 < offset }
        ensures { result ≡ stops_string quote self.now.text.now offset }
    {
        self.closes_string(quote, offset) || self.breaks_string(offset)
    }

    /// Finds the first offset from this one on where a string ends or breaks.
    fn string_stop(&self, quote: u8, offset: usize) -> Option<usize>
        requires { 0 < offset }
        ensures value { result ≡ first_offset (stops_string quote self.now.text.now) offset (length self.now.text.now) }
        ensures within { IfSome result (λ b. (offset ≤ b) × (b < length self.now.text.now)) }
    {
        let mut end = offset;
        'bytes: while end < self.text.len() {
            if self.stops_string(quote, end) {
                return Some(end);
            }
            end += 1;
        }
        None
    }

    /// Returns the string at an offset: closed, or broken.
    #[tactic(auto, unfolding(crate::specs::Words::string_at))]
    pub(crate) fn string_at(&self, offset: usize) -> StringKind
        ensures value { result ≡ string_at self.now.text.now offset }
        ensures fits { FitsString self.now.text.now offset result }
    {
        match self.byte(offset) {
            Some(quote) if bytes::is_quote(quote) => match self.string_stop(quote, offset + 1) {
                Some(end) if self.closes_string(quote, end) => StringKind::Closed(end),
                Some(end) => StringKind::Broken(end),
                None => StringKind::Broken(self.text.len()),
            },
            _ => StringKind::Broken(offset),
        }
    }

    /// Returns whether a `:` is here that isn't next to another.
    fn is_lone_colon(&self, offset: usize) -> bool
        requires { 0 < offset }
        ensures value { result ≡ is_lone_colon self.now.text.now offset }
        ensures utf8 { IsUtf8 self.now.text.now }
    {
        self.byte(offset) == Some(b':')
            && self.byte(offset + 1) != Some(b':')
            && self.byte(offset - 1) != Some(b':')
    }

    /// Finds the first `:` between two offsets that isn't next to another.
    pub(crate) fn lone_colon(&self, start: usize, end: usize) -> Option<usize>
        requires { 0 < start }
        ensures value { result ≡ lone_colon self.now.text.now start end }
        ensures within { IfSome result (λ c. (start ≤ c) × (c < end) × IsCharBoundary self.now.text.now c × IsCharBoundary self.now.text.now (c + 1)) }
    {
        let mut offset = start;
        'bytes: while offset < end {
            if self.is_lone_colon(offset) {
                return Some(offset);
            }
            offset += 1;
        }
        None
    }

    /// Finds the `}` of the action that begins at this offset, behind its `{`.
    pub(crate) fn action_end(&self, start: usize) -> Option<usize>
        ensures value { result ≡ action_end self.now.text.now start }
        ensures within { IfSome result (λ b. (start ≤ b) × (b < length self.now.text.now) × IsCharBoundary self.now.text.now b) }
    {
        let mut offset = start;
        let mut depth: usize = 0;
        'bytes: while let Some(byte) = self.byte(offset) {
            let Some(next) = depth_behind(byte, depth) else {
                return Some(offset);
            };
            depth = next;
            offset += 1;
        }
        None
    }

    /// Returns the span of the text between two offsets without the white at its ends.
    pub(crate) fn trim(&self, start: usize, end: usize) -> Span
        requires { FitsPart self.now.text.now start end }
        ensures value { result ≡ trimmed self.now.text.now start end }
        ensures fits { FitsPart self.now.text.now result.start result.end }
    {
        let from = self.trim_start(start, end);
        Span::new(from, self.trim_end(from, end))
    }

    /// Finds where the text between two offsets begins without its first white.
    #[tactic(auto, unfolding(crate::specs::Bytes::trim_start))]
    fn trim_start(&self, start: usize, end: usize) -> usize
        requires { FitsPart self.now.text.now start end }
        ensures value { result ≡ trim_start self.now.text.now start end }
        ensures utf8 { IsUtf8 self.now.text.now }
    {
        start + text::white_len(&self.text.as_bytes()[start..end])
    }

    /// Finds where the text between two offsets ends without its last white.
    #[tactic(auto, unfolding(crate::specs::Bytes::trim_end))]
    fn trim_end(&self, start: usize, end: usize) -> usize
        requires { FitsPart self.now.text.now start end }
        ensures { result ≡ trim_end self.now.text.now start end }
    {
        end - bytes::last_white_len(&self.text.as_bytes()[start..end])
    }
}
