//! Finds what is at an offset of a section, and where it ends.

ghost use Rattle.std.specs.Prelude.{◌≡◌, ◌+◌, ◌≤◌, ◌<◌, length, slice_get, IfSome, IsTrue, slice_range};
ghost use Rattle.std.specs.List.{prefix_len};
ghost use Rattle.std.specs.Str.{IsUtf8};
ghost use Rattle.cfg_base.specs.Text.{is_digit, run_end};
ghost use Rattle.cfg_sections.specs.HeaderWords.{is_key_byte, is_word_byte, is_in_text, gap_part, begins_word, colons_at, token_of, token_at, path_at, FitsPart, FitsToken, FitsPath};

use cfg_base::text;
use cfg_base::text::{GapPart, is_digit, is_letter};

/// Returns whether a byte may be in a key behind its first letter.
fn is_key_byte(b: u8) -> bool
    ensures { result ≡ is_key_byte b }
{
    is_letter(b) || b == b'_'
}

/// Returns whether a byte may be in a word behind its first.
fn is_word_byte(b: u8) -> bool
    ensures { result ≡ is_word_byte b }
{
    is_key_byte(b) || is_digit(b)
}

/// Counts the bytes of a key in front.
fn key_len(bytes: &[u8]) -> usize
    ensures value { result ≡ prefix_len is_key_byte bytes.now }
    ensures within { result ≤ length bytes.now }
{
    bytes.iter().take_while(|b| is_key_byte(**b)).count()
}

/// Counts the bytes of a word in front.
fn word_len(bytes: &[u8]) -> usize
    ensures value { result ≡ prefix_len is_word_byte bytes.now }
    ensures within { result ≤ length bytes.now }
{
    bytes.iter().take_while(|b| is_word_byte(**b)).count()
}

/// Counts the bytes before the first quote.
fn text_len(bytes: &[u8]) -> usize
    ensures value { result ≡ prefix_len is_in_text bytes.now }
    ensures within { result ≤ length bytes.now }
{
    bytes.iter().take_while(|b| **b != b'"').count()
}

/// What begins at an offset, by its first character.
#[derive(Clone, Copy, PartialEq, Eq)]
pub enum TokenKind {
    /// `A` to `Z` or `a` to `z`.
    Letter,
    /// `_`, with which a word may begin too.
    Underscore,
    /// `0` to `9`.
    Digit,
    /// `"`, which begins and ends a text.
    Quote,
    /// `!`, which clears a flag.
    Exclamation,
    /// `{`, which opens the section.
    OpenBrace,
    /// `}`, which ends the section.
    CloseBrace,
    /// `[`, which opens an array.
    OpenBracket,
    /// `]`, which ends an array.
    CloseBracket,
    /// `(`, which opens a constructor's argument.
    OpenParen,
    /// `)`, which ends a constructor's argument.
    CloseParen,
    /// `,`, which separates pairs and an array's items.
    Comma,
    /// `:`, which separates a key from its setting; two of them are part of a path.
    Colon,
    /// Any other character, or the text's end.
    Other,
}

impl TokenKind {
    /// Returns the kind of a first byte; `Other` at the text's end.
    fn of(b: Option<u8>) -> TokenKind
        ensures { result ≡ token_of b }
    {
        match b {
            None => TokenKind::Other,
            Some(b) if is_letter(b) => TokenKind::Letter,
            Some(b) if is_digit(b) => TokenKind::Digit,
            Some(b'_') => TokenKind::Underscore,
            Some(b'"') => TokenKind::Quote,
            Some(b'!') => TokenKind::Exclamation,
            Some(b'{') => TokenKind::OpenBrace,
            Some(b'}') => TokenKind::CloseBrace,
            Some(b'[') => TokenKind::OpenBracket,
            Some(b']') => TokenKind::CloseBracket,
            Some(b'(') => TokenKind::OpenParen,
            Some(b')') => TokenKind::CloseParen,
            Some(b',') => TokenKind::Comma,
            Some(b':') => TokenKind::Colon,
            Some(_) => TokenKind::Other,
        }
    }

    /// Returns whether a word begins here.
    fn begins_word(self) -> bool
        ensures { result ≡ begins_word self }
    {
        matches!(self, TokenKind::Letter | TokenKind::Underscore)
    }
}

/// The shape of the path at an offset.
#[derive(Clone, Copy, PartialEq, Eq)]
pub enum PathShape {
    /// One word, which ends here.
    Alone(usize),
    /// A word that ends at the first offset, `::`, and a word that ends at the second.
    Within(usize, usize),
    /// A word that ends here, and `::` without a word behind.
    Unfinished(usize),
    /// No word begins here.
    NoPath,
}

/// Reads a text, at offsets that its calls are given.
#[derive(Clone, Copy)]
pub struct Scanner<'a> {
    /// The whole text, from its first byte, so that offsets are those of the file.
    pub text: &'a str,
}

impl<'a> Scanner<'a> {
    /// Returns the byte at an offset; `None` from the text's end on.
    fn byte(&self, offset: usize) -> Option<u8>
        ensures value { result ≡ slice_get self.now.text.now offset }
        ensures within { IfSome result (λ _. offset < length self.now.text.now) }
        ensures utf8 { IsUtf8 self.now.text.now }
    {
        text::byte_at(self.text, offset)
    }

    /// Returns the offset behind the key that begins here.
    #[tactic(auto, unfolding(cfg_base::specs::Text::run_end))]
    pub fn key_end(&self, offset: usize) -> usize
        requires { offset ≤ length self.now.text.now }
        ensures value { result ≡ run_end is_key_byte self.now.text.now offset }
        ensures utf8 { IsUtf8 self.now.text.now }
        ensures within { result ≤ length self.now.text.now }
    {
        offset + key_len(&self.text.as_bytes()[offset..])
    }

    /// Returns the offset behind the word that begins here.
    #[tactic(auto, unfolding(cfg_base::specs::Text::run_end))]
    fn word_end(&self, offset: usize) -> usize
        requires { offset ≤ length self.now.text.now }
        ensures value { result ≡ run_end is_word_byte self.now.text.now offset }
        ensures within { result ≤ length self.now.text.now }
    {
        offset + word_len(&self.text.as_bytes()[offset..])
    }

    /// Returns the offset behind the number that begins here.
    pub fn number_end(&self, offset: usize) -> usize
        requires { offset ≤ length self.now.text.now }
        ensures value { result ≡ run_end is_digit self.now.text.now offset }
        ensures utf8 { IsUtf8 self.now.text.now }
        ensures within { result ≤ length self.now.text.now }
    {
        text::digits_end(self.text, offset)
    }

    /// Returns the offset of the next quote, which ends the text that begins here, or that of the whole text's
    /// end.
    #[tactic(auto, unfolding(cfg_base::specs::Text::run_end))]
    pub fn text_end(&self, offset: usize) -> usize
        requires { offset ≤ length self.now.text.now }
        ensures value { result ≡ run_end is_in_text self.now.text.now offset }
        ensures utf8 { IsUtf8 self.now.text.now }
        ensures from { offset ≤ result }
        ensures within { result ≤ length self.now.text.now }
    {
        offset + text_len(&self.text.as_bytes()[offset..])
    }

    /// Returns the offset behind the white byte or the comment that begins here, or `None` where neither does.
    #[tactic(auto, unfolding(crate::specs::HeaderWords::gap_part))]
    pub fn gap_part(&self, offset: usize) -> Option<usize>
        ensures value { result ≡ gap_part self.now.text.now offset }
        ensures fits { FitsPart self.now.text.now offset result }
    {
        match text::gap_at(self.text, offset) {
            GapPart::Part(end) => Some(end),
            GapPart::Unclosed | GapPart::NoPart => None,
        }
    }

    /// Returns the kind of the token that begins here.
    #[tactic(auto, unfolding(crate::specs::HeaderWords::token_at))]
    pub fn token(&self, offset: usize) -> TokenKind
        ensures value { result ≡ token_at self.now.text.now offset }
        ensures fits { FitsToken self.now.text.now offset result }
        ensures utf8 { IsUtf8 self.now.text.now }
    {
        TokenKind::of(self.byte(offset))
    }

    /// Returns whether `::` is here.
    fn colons(&self, offset: usize) -> bool
        ensures value { result ≡ colons_at self.now.text.now offset }
        ensures within { IsTrue result → offset + 2 ≤ length self.now.text.now }
    {
        self.byte(offset) == Some(b':') && self.byte(offset + 1) == Some(b':')
    }

    /// Returns the shape of the path that begins here.
    #[tactic(auto, unfolding(crate::specs::HeaderWords::path_at))]
    pub fn path_shape(&self, offset: usize) -> PathShape
        ensures value { result ≡ path_at self.now.text.now offset }
        ensures fits { FitsPath self.now.text.now offset result }
    {
        if !self.token(offset).begins_word() {
            return PathShape::NoPath;
        }
        let end = self.word_end(offset);
        if !self.colons(end) {
            return PathShape::Alone(end);
        }
        if self.token(end + 2).begins_word() {
            PathShape::Within(end, self.word_end(end + 2))
        } else {
            PathShape::Unfinished(end)
        }
    }
}
