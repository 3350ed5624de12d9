//! Finds what is at an offset of a grammar text, and where it ends.

ghost use Rattle.std.specs.Prelude.{◌≡◌, ◌+◌, ◌≤◌, ◌<◌, length, slice_get, IfSome, IsTrue};
ghost use Rattle.std.specs.Rc.{rc_str_bytes};
ghost use Rattle.std.specs.Str.{IsUtf8};
ghost use Rattle.cfg_base.specs.Text.{is_white, is_digit, run_end, line_end, is_comment_end, comment_end, gap_at, FitsGap};
ghost use Rattle.cfg_read.specs.Bytes.{is_name_byte, is_quoted_by, holds_line_feed};
ghost use Rattle.cfg_read.specs.Words.{line_gap_at, token_kind_at, quoted_kind, sign_kind};
ghost use Rattle.cfg_read.specs.Reading.{ends_tokens, ends_line};
ghost use Rattle.cfg_read.specs.Scanning.{FitsToken, begins_token};

use crate::yacc::YaccKind;
use crate::yacc::parser::bytes;
use cfg_base::text;
use cfg_base::text::GapPart;
use std::rc::RcStr;

/// What is at an offset, and where it ends.
#[derive(Clone, Copy, PartialEq, Eq)]
pub(crate) enum TokenKind {
    End,
    /// A name, up to here.
    Name(usize),
    /// Decimal digits, up to here.
    Digits(usize),
    /// A quoted token, whose second quote is here.
    Quoted(usize),
    /// A quote that begins no token.
    OpenQuote,
    /// `%%`.
    Separator,
    /// A `%` with something else behind it.
    Percent,
    Colon,
    Semicolon,
    Bar,
    /// `{`.
    Brace,
    /// `->`.
    Arrow,
    /// LF, or the beginning of a comment.
    Break,
    Other,
}

/// The string at an offset.
#[derive(Clone, Copy, PartialEq, Eq)]
pub(crate) enum StringKind {
    /// Its second quote is here.
    Closed(usize),
    /// It is none, because of what is here.
    Broken(usize),
}

/// A text and its kind. Offsets are in bytes; past the text's end nothing is found.
#[derive(Clone, Copy)]
pub(crate) struct Scanner<'a> {
    pub(crate) text: &'a str,
    /// The text once more, for names that share it.
    pub(crate) shared: &'a RcStr,
    pub(crate) kind: YaccKind,
    ghost same: { rc_str_bytes shared.now ≡ text.now },
}

impl<'a> Scanner<'a> {
    /// Returns the byte at an offset; `None` from the text's end on.
    pub(crate) fn byte(&self, offset: usize) -> Option<u8>
        ensures value { result ≡ slice_get self.now.text.now offset }
        ensures within { IfSome result (λ _. offset < length self.now.text.now) }
        ensures utf8 { IsUtf8 self.now.text.now }
    {
        text::byte_at(self.text, offset)
    }

    /// Finds where the run of name bytes that begins here ends.
    #[tactic(auto, unfolding(cfg_base::specs::Text::run_end))]
    fn name_end(&self, offset: usize) -> usize
        requires { offset ≤ length self.now.text.now }
        ensures value { result ≡ run_end is_name_byte self.now.text.now offset }
        ensures within { result ≤ length self.now.text.now }
    {
        offset + bytes::name_len(&self.text.as_bytes()[offset..])
    }

    /// Finds the first such quote, or LF, from this offset on, else the text's end.
    #[tactic(auto, unfolding(cfg_base::specs::Text::run_end))]
    fn quoted_end(&self, quote: u8, offset: usize) -> usize
        requires { offset ≤ length self.now.text.now }
        ensures value { result ≡ run_end (is_quoted_by quote) self.now.text.now offset }
        ensures from { offset ≤ result }
        ensures within { result ≤ length self.now.text.now }
    {
        offset + bytes::quoted_len(quote, &self.text.as_bytes()[offset..])
    }

    /// Finds where the line ends: at the LF, or at the text's end.
    pub(crate) fn line_end(&self, offset: usize) -> usize
        requires { offset ≤ length self.now.text.now }
        ensures value { result ≡ line_end self.now.text.now offset }
        ensures from { offset ≤ result }
        ensures within { result ≤ length self.now.text.now }
        ensures utf8 { IsUtf8 self.now.text.now }
    {
        text::line_end(self.text, offset)
    }

    /// Finds where the run of white that begins here ends.
    pub(crate) fn white_end(&self, offset: usize) -> usize
        requires { offset ≤ length self.now.text.now }
        ensures value { result ≡ run_end is_white self.now.text.now offset }
        ensures utf8 { IsUtf8 self.now.text.now }
    {
        text::white_end(self.text, offset)
    }

    /// Returns whether an LF is between two offsets.
    #[tactic(auto, unfolding(crate::specs::Bytes::holds_line_feed))]
    fn holds_line_feed(&self, start: usize, end: usize) -> bool
        requires { (start ≤ end) × (end ≤ length self.now.text.now) }
        ensures { result ≡ holds_line_feed self.now.text.now start end }
    {
        bytes::has_line_feed(&self.text.as_bytes()[start..end])
    }

    /// Returns the part of a gap within a line at an offset.
    #[tactic(auto, unfolding(crate::specs::Words::line_gap_at))]
    pub(crate) fn line_gap_at(&self, offset: usize) -> GapPart
        ensures value { result ≡ line_gap_at self.now.text.now offset }
        ensures fits { FitsGap self.now.text.now offset result }
    {
        match self.byte(offset) {
            Some(b) if bytes::is_blank(b) => GapPart::Part(offset + 1),
            Some(b'/') if self.byte(offset + 1) == Some(b'*') => match text::comment_end(
                self.text,
                offset + 2,
            ) {
                Some(end) if self.holds_line_feed(offset + 2, end) => GapPart::NoPart,
                Some(end) => GapPart::Part(end + 2),
                None => GapPart::Unclosed,
            },
            _ => GapPart::NoPart,
        }
    }

    /// Returns the kind of the token at a quote.
    fn quoted_kind(&self, quote: u8, offset: usize) -> TokenKind
        requires quote { slice_get self.now.text.now offset ≡ Some quote }
        requires ascii { quote < 128 }
        ensures value { result ≡ quoted_kind quote self.now.text.now offset }
        ensures fits { FitsToken self.now.text.now offset result }
    {
        match self.byte(offset + 1) {
            Some(b) if b != b'\n' => {
                let end = self.quoted_end(quote, offset + 2);
                if self.byte(end) == Some(quote) {
                    TokenKind::Quoted(end)
                } else {
                    TokenKind::OpenQuote
                }
            }
            _ => TokenKind::OpenQuote,
        }
    }

    /// Returns the kind of the sign here.
    fn sign_kind(&self, b: u8, offset: usize) -> TokenKind
        requires { slice_get self.now.text.now offset ≡ Some b }
        ensures value { result ≡ sign_kind b self.now.text.now offset }
        ensures fits { FitsToken self.now.text.now offset result }
    {
        let next = self.byte(offset + 1);
        let is_arrow = next == Some(b'>');
        match b {
            b'%' if next == Some(b'%') => TokenKind::Separator,
            b'%' => TokenKind::Percent,
            b':' => TokenKind::Colon,
            b';' => TokenKind::Semicolon,
            b'|' => TokenKind::Bar,
            b'{' => TokenKind::Brace,
            b'-' if is_arrow => TokenKind::Arrow,
            b'\n' => TokenKind::Break,
            b'/' if matches!(next, Some(b'/' | b'*')) => TokenKind::Break,
            _ => TokenKind::Other,
        }
    }

    /// Returns the kind of the token at an offset, with its end.
    #[tactic(auto, unfolding(crate::specs::Words::token_kind_at))]
    pub(crate) fn token_kind_at(&self, offset: usize) -> TokenKind
        ensures value { result ≡ token_kind_at self.now.text.now offset }
        ensures fits { FitsToken self.now.text.now offset result }
    {
        match self.byte(offset) {
            None => TokenKind::End,
            Some(b) if bytes::is_name_start(b) => TokenKind::Name(self.name_end(offset)),
            Some(b) if text::is_digit(b) => TokenKind::Digits(text::digits_end(self.text, offset)),
            Some(b) if bytes::is_quote(b) => self.quoted_kind(b, offset),
            Some(b) => self.sign_kind(b, offset),
        }
    }
}

impl TokenKind {
    /// Returns whether a token begins here.
    pub(crate) fn begins_token(self) -> bool
        ensures { result ≡ begins_token self }
    {
        matches!(self, TokenKind::Name(_) | TokenKind::Quoted(_))
    }

    /// Returns whether the tokens of `%token` end here.
    pub(crate) fn ends_tokens(self) -> bool
        ensures { result ≡ ends_tokens self }
    {
        matches!(
            self,
            TokenKind::End | TokenKind::Separator | TokenKind::Percent
        )
    }

    /// Returns whether a line ends here, behind a line gap.
    pub(crate) fn ends_line(self) -> bool
        ensures { result ≡ ends_line self }
    {
        matches!(self, TokenKind::End | TokenKind::Break)
    }
}
