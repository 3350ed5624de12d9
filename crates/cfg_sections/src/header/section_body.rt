//! Reads the pairs of a section, and the section.

ghost use Rattle.std.specs.Prelude.{◌≡◌, ◌+◌, ◌≤◌, ◌<◌, ◌++◌, ◌∷◌, [], List, true, false, length, map, IfOk, IfErr, IsTrue, slice_range, string_bytes};
ghost use Rattle.std.specs.Char.{to_ascii_lowercase};
ghost use Rattle.cfg_sections.specs.declared.header.scan.TokenKind.TheVariants as tokens;
ghost use Rattle.cfg_sections.specs.HeaderWords.{token_at};
ghost use Rattle.cfg_sections.specs.Sections.{At, Spaced, Section, Brace, Pairs, PairEnd, Nothing, PairText, Steps, key_end, is_colon, is_open_brace, is_close_brace, is_section_at, begins_key, beginning, Reads};
ghost use Rattle.cfg_sections.specs.SectionResults.{Fails, ReadsPair, FailsPair, pair_text, IsMemory};

use crate::header::error::HeaderErrorKind;
use crate::header::scan::{Scanner, TokenKind};
use crate::header::settings::{Fault, Pair};
use crate::header::value::Value;
use cfg_base::span::Span;
use std::alloc::Global;

impl<'a> Scanner<'a> {
    /// Reads a key, and returns it in lower case with the offset behind it.
    #[tactic(auto, using(crate::proofs::HeaderRuns::letter_within))]
    fn parse_key(&self, alloc: Global, offset: usize) -> Result<(String, usize), Fault>
        requires token { token_at self.now.text.now offset ≡ tokens.Letter }
        ensures key { IfOk result (λ r. string_bytes r.0 ≡ map to_ascii_lowercase (slice_range self.now.text.now offset (key_end self.now.text.now offset))) }
        ensures end { IfOk result (λ r. r.1 ≡ key_end self.now.text.now offset) }
        ensures within { IfOk result (λ r. (offset < r.1) × (r.1 ≤ length self.now.text.now)) }
        ensures err { IfErr result (λ e. IsMemory e) }
    {
        let end = self.key_end(offset);
        let mut key = self.word(alloc, offset, end)?;
        key.make_ascii_lowercase();
        Ok((key, end))
    }

    /// Returns whether a key begins here.
    fn begins_key(&self, offset: usize) -> bool
        ensures value { result ≡ begins_key (token_at self.now.text.now offset) }
        ensures within { IsTrue result → offset < length self.now.text.now }
    {
        matches!(self.token(offset), TokenKind::Letter)
    }

    /// Reads `!` and a key, and the gap behind it.
    #[tactic(auto, using(crate::proofs::HeaderRuns::exclamation_within))]
    fn parse_negated(&self, alloc: Global, offset: usize) -> Result<(Pair, usize), Fault>
        requires token { token_at self.now.text.now offset ≡ tokens.Exclamation }
        ensures ok { IfOk result (λ r. ReadsPair self.now.text.now offset r.0 r.1) }
        ensures within { IfOk result (λ r. (offset < r.1) × (r.1 ≤ length self.now.text.now)) }
        ensures err { IfErr result (λ e. FailsPair self.now.text.now offset e) }
    {
        let start = offset + 1;
        if !self.begins_key(start) {
            return Err(Fault::At(HeaderErrorKind::IllegalName, start));
        }
        let (key, end) = self.parse_key(alloc, start)?;
        let span = Span::new(start, end);
        let value = Value::Flag(false, Span::new(offset, end));
        Ok((Pair { key, span, value }, self.parse_ws(end)))
    }

    /// Returns whether `:` is here.
    fn colon(&self, offset: usize) -> bool
        ensures value { result ≡ is_colon (token_at self.now.text.now offset) }
        ensures within { IsTrue result → offset < length self.now.text.now }
    {
        matches!(self.token(offset), TokenKind::Colon)
    }

    /// Reads a key and its setting, if it has one, and the gap behind it.
    fn parse_keyed(&self, alloc: Global, offset: usize) -> Result<(Pair, usize), Fault>
        requires token { token_at self.now.text.now offset ≡ tokens.Letter }
        ensures ok { IfOk result (λ r. ReadsPair self.now.text.now offset r.0 r.1) }
        ensures within { IfOk result (λ r. (offset < r.1) × (r.1 ≤ length self.now.text.now)) }
        ensures err { IfErr result (λ e. FailsPair self.now.text.now offset e) }
    {
        let (key, after) = self.parse_key(alloc, offset)?;
        let span = Span::new(offset, after);
        let end = self.parse_ws(after);
        if self.colon(end) {
            let start = self.parse_ws(end + 1);
            let (setting, end) = self.parse_setting(alloc, start, 0)?;
            let value = Value::Setting(setting);
            Ok((Pair { key, span, value }, end))
        } else {
            let value = Value::Flag(true, span);
            Ok((Pair { key, span, value }, end))
        }
    }

    /// Reads a pair, and the gap behind it. Returns `At` with what is wrong and its byte offset where no pair
    /// reads from `offset` on, and `Memory` where memory is refused.
    pub fn parse_pair(&self, alloc: Global, offset: usize) -> Result<(Pair, usize), Fault>
        ensures ok { IfOk result (λ r. ReadsPair self.now.text.now offset r.0 r.1) }
        ensures within { IfOk result (λ r. (offset < r.1) × (r.1 ≤ length self.now.text.now)) }
        ensures err { IfErr result (λ e. FailsPair self.now.text.now offset e) }
    {
        match self.token(offset) {
            TokenKind::Letter => self.parse_keyed(alloc, offset),
            TokenKind::Exclamation => self.parse_negated(alloc, offset),
            _ => Err(Fault::At(HeaderErrorKind::IllegalName, offset)),
        }
    }

    /// Reads the `,` behind a pair and the gap behind it, unless a `}` is here.
    fn parse_pair_end(&self, offset: usize) -> Result<usize, Fault>
        ensures ok { IfOk result (λ b. (p : PairText) (x : List PairText) → Steps self.now.text.now (At (PairEnd p) x offset) (At Pairs (x ++ p ∷ []) b)) }
        ensures within { IfOk result (λ b. (offset ≤ b) × (b ≤ length self.now.text.now)) }
        ensures err { IfErr result (λ e. (p : PairText) (x : List PairText) → Fails self.now.text.now (At (PairEnd p) x offset) e) }
    {
        match self.token(offset) {
            TokenKind::Comma => Ok(self.parse_ws(offset + 1)),
            TokenKind::CloseBrace => Ok(offset),
            _ => Err(Fault::At(HeaderErrorKind::ExpectedToken('}'), offset)),
        }
    }

    /// Returns whether `}` is here.
    fn closes_brace(&self, offset: usize) -> bool
        ensures value { result ≡ is_close_brace (token_at self.now.text.now offset) }
        ensures within { IsTrue result → offset < length self.now.text.now }
    {
        matches!(self.token(offset), TokenKind::CloseBrace)
    }

    /// Reads all pairs, and the `}`.
    fn parse_pairs(&self, alloc: Global, offset: usize) -> Result<(Vec<Pair>, usize), Fault>
        requires { offset ≤ length self.now.text.now }
        ensures ok { IfOk result (λ r. Steps self.now.text.now (Spaced Pairs [] offset) (At Nothing (map pair_text r.0.items) r.1)) }
        ensures within { IfOk result (λ r. r.1 ≤ length self.now.text.now) }
        ensures err { IfErr result (λ e. Fails self.now.text.now (Spaced Pairs [] offset) e) }
    {
        let mut pairs = Vec::new(alloc);
        let mut end = self.parse_ws(offset);
        'pairs: while !self.closes_brace(end) {
            let (pair, after) = self.parse_pair(alloc, end)?;
            pairs.push(pair)?;
            end = self.parse_pair_end(after)?;
        }
        Ok((pairs, end + 1))
    }

    /// Returns whether `%grmtools` is here.
    fn is_section(&self, offset: usize) -> bool
        requires { offset ≤ length self.now.text.now }
        ensures value { result ≡ is_section_at self.now.text.now offset }
        ensures within { IsTrue result → offset + 9 ≤ length self.now.text.now }
    {
        self.text.as_bytes()[offset..].starts_with(b"%grmtools")
    }

    /// Reads the `{` of a section.
    fn parse_open_brace(&self, offset: usize) -> Result<usize, Fault>
        ensures ok { IfOk result (λ b. (is_open_brace (token_at self.now.text.now offset) ≡ true) × (b ≡ offset + 1)) }
        ensures within { IfOk result (λ b. b ≤ length self.now.text.now) }
        ensures err { IfErr result (λ e. (x : List PairText) → Fails self.now.text.now (At Brace x offset) e) }
    {
        match self.token(offset) {
            TokenKind::OpenBrace => Ok(offset + 1),
            _ => Err(Fault::At(HeaderErrorKind::ExpectedToken('{'), offset)),
        }
    }

    /// Reads the section at the front, if there is one, and returns its pairs and the byte offset behind it.
    ///
    /// # Errors
    ///
    /// - `At` with what is wrong and its byte offset where a section begins and doesn't read, or where one is
    ///   `required` and none begins.
    /// - `Memory` where memory is refused.
    pub fn parse_section(&self, alloc: Global, required: bool) -> Result<(Vec<Pair>, usize), Fault>
        ensures ok { IfOk result (λ r. Reads required self.now.text.now (map pair_text r.0.items) r.1) }
        ensures within { IfOk result (λ r. r.1 ≤ length self.now.text.now) }
        ensures err { IfErr result (λ e. Fails self.now.text.now (beginning required) e) }
    {
        let start = self.parse_ws(0);
        if !self.is_section(start) {
            if required {
                let kind = HeaderErrorKind::MissingGrmtoolsSection;
                return Err(Fault::At(kind, 0));
            }
            return Ok((Vec::new(alloc), 0));
        }
        let brace = self.parse_ws(start + 9);
        let pairs = self.parse_open_brace(brace)?;
        let (pairs, end) = self.parse_pairs(alloc, pairs)?;
        Ok((pairs, end))
    }
}
