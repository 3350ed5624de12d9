//! Reads the settings of a section, and the gaps between its words.

ghost use Rattle.std.specs.Prelude.{◌≡◌, ◌+◌, ◌≤◌, ◌<◌, ◌^◌, ◌++◌, ◌∷◌, [], ℕ, List, Some, length, map, true, false, IfOk, IfErr, IsTrue, slice_range, string_bytes};
ghost use Rattle.std.specs.Str.{IsCharBoundary};
ghost use Rattle.std.specs.Char.{to_ascii_lowercase};
ghost use Rattle.cfg_base.specs.SpanModel.{SpanModel};
ghost use Rattle.cfg_sections.specs.declared.header.scan.TokenKind.TheVariants as tokens;
ghost use Rattle.cfg_sections.specs.declared.header.settings.Fault.TheVariants as faults;
ghost use Rattle.cfg_sections.specs.HeaderWords.{token_at, begins_word};
ghost use Rattle.cfg_sections.specs.HeaderTexts.{ItemsText, more, construct, PathText, SettingText, setting_text, path_text};
ghost use Rattle.cfg_sections.specs.Sections.{Wanted, Spaced, At, Section, Brace, Pairs, PairEnd, Argument, CloseParen, Behind, Items, Nothing, Open, inside, most_depth, Key, PairText, span, key_end, IsPath, Steps, is_colon, is_open_paren, is_open_brace, is_close_brace, is_close_bracket, is_section_at, beginning};
ghost use Rattle.cfg_sections.specs.SectionResults.{Fails, FailsPath, ReadsSetting, FailsSetting, ReadsPair, FailsPair, pair_text, IsMemory};

use crate::header::error::HeaderErrorKind;
use crate::header::scan::{PathShape, Scanner, TokenKind};
use crate::header::value::{Namespaced, Setting, Value};
use cfg_base::span::Span;
use std::alloc::{AllocError, AllocFailed, Global};

/// The number of arrays that may be open at once.
const MOST_DEPTH: usize = 64;

/// Why reading stops.
#[derive(Drop)]
pub enum Fault {
    /// The request for memory that was refused.
    Memory(AllocError),
    /// What is wrong, and at which offset.
    At(HeaderErrorKind, usize),
}

impl From<AllocError> for Fault {
    ghost from_gives = { λ refused e. e ≡ faults.Memory refused };

    fn from(refused: AllocError) -> Fault {
        Fault::Memory(refused)
    }
}

impl<T: Drop> From<AllocFailed<T>> for Fault {
    ghost from_gives = { λ _ e. IsMemory e };

    fn from(refused: AllocFailed<T>) -> Fault {
        Fault::Memory(AllocError::from(refused))
    }
}

/// A key in lower case, its span, and its value.
#[derive(Drop)]
pub struct Pair {
    /// The key's word in lower case; of `!key` without the `!`.
    pub key: String,
    /// The byte offsets of the key's word.
    pub span: Span,
    /// A flag, or the setting behind the `:`.
    pub value: Value<Span>,
}

impl<'a> Scanner<'a> {
    /// Skips white and comments, and returns the offset behind them.
    pub fn parse_ws(&self, offset: usize) -> usize
        requires { offset ≤ length self.now.text.now }
        ensures steps { (w : Wanted) (x : List PairText) → Steps self.now.text.now (Spaced w x offset) (At w x result) }
        ensures from { offset ≤ result }
        ensures within { result ≤ length self.now.text.now }
    {
        let mut end = offset;
        'parts: while let Some(next) = self.gap_part(end) {
            end = next;
        }
        end
    }

    /// Copies the text between two byte offsets. Returns `Memory` where memory is refused, and no other error.
    pub fn word(&self, alloc: Global, start: usize, end: usize) -> Result<String, Fault>
        requires order { start ≤ end }
        requires start { IsCharBoundary self.now.text.now start }
        requires end { IsCharBoundary self.now.text.now end }
        ensures ok { IfOk result (λ w. string_bytes w ≡ slice_range self.now.text.now start end) }
        ensures err { IfErr result (λ e. IsMemory e) }
    {
        Ok(String::from_str(alloc, &self.text[start..end])?)
    }

    /// Copies a word, with its span.
    fn word_at(&self, alloc: Global, start: usize, end: usize) -> Result<(String, Span), Fault>
        requires order { start ≤ end }
        requires start { IsCharBoundary self.now.text.now start }
        requires end { IsCharBoundary self.now.text.now end }
        ensures word { IfOk result (λ w. string_bytes w.0 ≡ slice_range self.now.text.now start end) }
        ensures span { IfOk result (λ w. w.1 ≡ span start end) }
        ensures err { IfErr result (λ e. IsMemory e) }
    {
        let word = self.word(alloc, start, end)?;
        Ok((word, Span::new(start, end)))
    }

    /// Reads a path.
    fn parse_path(&self, alloc: Global, offset: usize) -> Result<(Namespaced<Span>, usize), Fault>
        ensures ok { IfOk result (λ r. IsPath self.now.text.now offset (path_text r.0) r.1) }
        ensures within { IfOk result (λ r. (offset < r.1) × (r.1 ≤ length self.now.text.now)) }
        ensures err { IfErr result (λ e. FailsPath self.now.text.now offset e) }
    {
        match self.path_shape(offset) {
            PathShape::Alone(end) => {
                let member = self.word_at(alloc, offset, end)?;
                let namespace = None;
                Ok((Namespaced { namespace, member }, end))
            }
            PathShape::Within(middle, end) => {
                let outer = self.word_at(alloc, offset, middle)?;
                let member = self.word_at(alloc, middle + 2, end)?;
                let namespace = Some(outer);
                Ok((Namespaced { namespace, member }, end))
            }
            PathShape::Unfinished(end) => Err(Fault::At(HeaderErrorKind::IllegalName, end + 2)),
            PathShape::NoPath => Err(Fault::At(HeaderErrorKind::IllegalName, offset)),
        }
    }

    /// Reads a number, and the gap behind it.
    #[tactic(auto, using(crate::proofs::HeaderRuns::digit_within))]
    fn parse_number(&self, offset: usize, depth: usize) -> Result<(Setting<Span>, usize), Fault>
        requires token { token_at self.now.text.now offset ≡ tokens.Digit }
        ensures ok { IfOk result (λ r. ReadsSetting self.now.text.now depth offset r.0 r.1) }
        ensures within { IfOk result (λ r. (offset < r.1) × (r.1 ≤ length self.now.text.now)) }
        ensures err { IfErr result (λ e. FailsSetting self.now.text.now depth offset e) }
    {
        let end = self.number_end(offset);
        match self.text[offset..end].parse::<u64>() {
            Ok(value) => Ok((
                Setting::Num(value, Span::new(offset, end)),
                self.parse_ws(end),
            )),
            Err(_) => Err(Fault::At(HeaderErrorKind::InvalidEntry("number"), offset)),
        }
    }

    /// Reads a text, and the gap behind it.
    #[tactic(auto, using(crate::proofs::HeaderRuns::quote_within))]
    fn parse_quoted(
        &self,
        alloc: Global,
        offset: usize,
        depth: usize,
    ) -> Result<(Setting<Span>, usize), Fault>
        requires token { token_at self.now.text.now offset ≡ tokens.Quote }
        ensures ok { IfOk result (λ r. ReadsSetting self.now.text.now depth offset r.0 r.1) }
        ensures within { IfOk result (λ r. (offset < r.1) × (r.1 ≤ length self.now.text.now)) }
        ensures err { IfErr result (λ e. FailsSetting self.now.text.now depth offset e) }
    {
        let end = self.text_end(offset + 1);
        if end >= self.text.len() {
            let kind = HeaderErrorKind::ExpectedToken('"');
            return Err(Fault::At(kind, self.text.len()));
        }
        let text = self.word(alloc, offset + 1, end)?;
        let span = Span::new(offset, end + 1);
        Ok((Setting::String(text, span), self.parse_ws(end + 1)))
    }

    /// Returns whether `(` is here.
    fn opens_paren(&self, offset: usize) -> bool
        ensures value { result ≡ is_open_paren (token_at self.now.text.now offset) }
        ensures within { IsTrue result → offset < length self.now.text.now }
    {
        matches!(self.token(offset), TokenKind::OpenParen)
    }

    /// Reads the `)` of a constructor, and the gap behind it.
    fn parse_close_paren(&self, offset: usize) -> Result<usize, Fault>
        ensures ok { IfOk result (λ b. (k : Key) (o : Open) (p q : PathText SpanModel) (x : List PairText) → Steps self.now.text.now (At (CloseParen k o p q) x offset) (At (Behind k o (construct p q)) x b)) }
        ensures within { IfOk result (λ b. (offset < b) × (b ≤ length self.now.text.now)) }
        ensures err { IfErr result (λ e. (k : Key) (o : Open) (p q : PathText SpanModel) (x : List PairText) → Fails self.now.text.now (At (CloseParen k o p q) x offset) e) }
    {
        match self.token(offset) {
            TokenKind::CloseParen => Ok(self.parse_ws(offset + 1)),
            _ => Err(Fault::At(HeaderErrorKind::ExpectedToken(')'), offset)),
        }
    }

    /// Reads the argument of a constructor behind the `(`, the `)` and the gap behind it.
    fn parse_constructor(
        &self,
        alloc: Global,
        ctor: Namespaced<Span>,
        offset: usize,
    ) -> Result<(Setting<Span>, usize), Fault>
        requires { offset ≤ length self.now.text.now }
        ensures ok { IfOk result (λ r. (k : Key) (o : Open) (x : List PairText) → Steps self.now.text.now (Spaced (Argument k o (path_text ctor)) x offset) (At (Behind k o (setting_text r.0)) x r.1)) }
        ensures within { IfOk result (λ r. (offset < r.1) × (r.1 ≤ length self.now.text.now)) }
        ensures err { IfErr result (λ e. (k : Key) (o : Open) (x : List PairText) → Fails self.now.text.now (Spaced (Argument k o (path_text ctor)) x offset) e) }
    {
        let start = self.parse_ws(offset);
        let (arg, after) = self.parse_path(alloc, start)?;
        let end = self.parse_close_paren(self.parse_ws(after))?;
        Ok((Setting::Constructor { ctor, arg }, end))
    }

    /// Reads a path, alone or with an argument, and the gap behind it.
    fn parse_named(
        &self,
        alloc: Global,
        offset: usize,
        depth: usize,
    ) -> Result<(Setting<Span>, usize), Fault>
        requires token { begins_word (token_at self.now.text.now offset) ≡ true }
        ensures ok { IfOk result (λ r. ReadsSetting self.now.text.now depth offset r.0 r.1) }
        ensures within { IfOk result (λ r. (offset < r.1) × (r.1 ≤ length self.now.text.now)) }
        ensures err { IfErr result (λ e. FailsSetting self.now.text.now depth offset e) }
    {
        let (path, after) = self.parse_path(alloc, offset)?;
        let end = self.parse_ws(after);
        if self.opens_paren(end) {
            let (setting, end) = self.parse_constructor(alloc, path, end + 1)?;
            Ok((setting, end))
        } else {
            Ok((Setting::Unitary(path), end))
        }
    }

    /// Returns whether `]` is here.
    fn closes_bracket(&self, offset: usize) -> bool
        ensures value { result ≡ is_close_bracket (token_at self.now.text.now offset) }
        ensures within { IsTrue result → offset < length self.now.text.now }
    {
        matches!(self.token(offset), TokenKind::CloseBracket)
    }

    /// Reads the `,` behind an item and the gap behind it, unless a `]` is here.
    fn parse_item_end(&self, offset: usize) -> Result<usize, Fault>
        ensures ok { IfOk result (λ b. (k : Key) (o : Open) (items : ItemsText SpanModel) (start : SpanModel) (s : SettingText SpanModel) (x : List PairText) → Steps self.now.text.now (At (Behind k (inside o items start) s) x offset) (At (Items k o (more items s) start) x b)) }
        ensures within { IfOk result (λ b. (offset ≤ b) × (b ≤ length self.now.text.now)) }
        ensures err { IfErr result (λ e. (k : Key) (o : Open) (items : ItemsText SpanModel) (start : SpanModel) (s : SettingText SpanModel) (x : List PairText) → Fails self.now.text.now (At (Behind k (inside o items start) s) x offset) e) }
    {
        match self.token(offset) {
            TokenKind::Comma => Ok(self.parse_ws(offset + 1)),
            TokenKind::CloseBracket => Ok(offset),
            _ => Err(Fault::At(HeaderErrorKind::ExpectedToken(']'), offset)),
        }
    }

    /// Reads an array within `depth` others, and the gap behind it.
    #[tactic(auto, using(crate::proofs::HeaderRuns::open_bracket_within))]
    #[cycle(parse_setting)]
    fn parse_array(
        &self,
        alloc: Global,
        offset: usize,
        depth: usize,
    ) -> Result<(Setting<Span>, usize), Fault>
        requires token { token_at self.now.text.now offset ≡ tokens.OpenBracket }
        requires depth { depth < most_depth }
        ensures ok { IfOk result (λ r. ReadsSetting self.now.text.now depth offset r.0 r.1) }
        ensures within { IfOk result (λ r. (offset < r.1) × (r.1 ≤ length self.now.text.now)) }
        ensures err { IfErr result (λ e. FailsSetting self.now.text.now depth offset e) }
    {
        let mut items = Vec::new(alloc);
        let mut end = self.parse_ws(offset + 1);
        'items: while !self.closes_bracket(end) {
            let (item, after) = self.parse_setting(alloc, end, depth + 1)?;
            items.push(item)?;
            end = self.parse_item_end(after)?;
        }
        let open = Span::new(offset, offset + 1);
        let close = Span::new(end, end + 1);
        Ok((Setting::Array(items, open, close), self.parse_ws(end + 1)))
    }

    /// Reads a setting within `depth` arrays, and the gap behind it. Returns `At` with what is wrong and its byte
    /// offset where no setting reads from `offset` on, and `Memory` where memory is refused.
    #[cycle(parse_setting)]
    pub fn parse_setting(
        &self,
        alloc: Global,
        offset: usize,
        depth: usize,
    ) -> Result<(Setting<Span>, usize), Fault>
        requires depth { depth ≤ most_depth }
        ensures ok { IfOk result (λ r. ReadsSetting self.now.text.now depth offset r.0 r.1) }
        ensures within { IfOk result (λ r. (offset < r.1) × (r.1 ≤ length self.now.text.now)) }
        ensures err { IfErr result (λ e. FailsSetting self.now.text.now depth offset e) }
    {
        match self.token(offset) {
            TokenKind::Digit => self.parse_number(offset, depth),
            TokenKind::Quote => self.parse_quoted(alloc, offset, depth),
            TokenKind::Letter => self.parse_named(alloc, offset, depth),
            TokenKind::Underscore => self.parse_named(alloc, offset, depth),
            TokenKind::OpenBracket => {
                if depth >= MOST_DEPTH {
                    Err(Fault::At(HeaderErrorKind::InvalidEntry("array"), offset))
                } else {
                    self.parse_array(alloc, offset, depth)
                }
            }
            _ => Err(Fault::At(HeaderErrorKind::IllegalName, offset)),
        }
    }
}
