//! Reads white and comments, words, tokens, numbers, strings and the rest of a line.

ghost use Rattle.std.specs.Prelude.{◌≡◌, ◌+◌, ◌≤◌, ◌<◌, Some, None, length, IfOk, IfErr, IfSome, OnOk, MatchOption, ◌++◌, slice_range};
ghost use Rattle.std.specs.List.{filter, prefix_len};
ghost use Rattle.std.specs.Str.{IsCharBoundary, IsUtf8};
ghost use Rattle.std.specs.String.{string_bytes};
ghost use Rattle.cfg_read.specs.declared.yacc.parser.error.YaccGrammarErrorKind.TheVariants as faults;
ghost use Rattle.cfg_read.specs.declared.yacc.parser.scan.TokenKind.TheVariants as tokens;
ghost use Rattle.cfg_base.specs.Text.{line_end};
ghost use Rattle.cfg_read.specs.Bytes.{is_plain};
ghost use Rattle.cfg_read.specs.Words.{token_kind_at};
ghost use Rattle.cfg_read.specs.SyntaxTexts.{SymbolText, SyntaxText};
ghost use Rattle.cfg_read.specs.SyntaxUpdates.{word_at, word, token_text, trimmed_word, rest_of_line, parameter};
ghost use Rattle.cfg_read.specs.Reading.{Wanted, Spaced, InLine, At, IsToken, Steps};
ghost use Rattle.cfg_read.specs.SyntaxErrors.{name_fault, token_fault, number_at, FailsFrom};
ghost use Rattle.cfg_read.specs.NameTexts.{name_text};
ghost use Rattle.cfg_read.specs.SyntaxModels.{word_of, mark_at, symbol_of, number_text, param_of};
ghost use Rattle.cfg_read.specs.Scanning.{Encloses, FitsPart, FitsToken, FitsDigits, IsNumber, IsString, IsFaultAt, IsFault, IsStringFault};

use crate::yacc::name::{Name, NameSet};
use crate::yacc::parser::bytes;
use crate::yacc::parser::error::{ReadError, YaccGrammarErrorKind};
use crate::yacc::parser::scan::{Scanner, StringKind, TokenKind};
use crate::yacc::parser::syntax::{Number, Param, Symbol, Word};
use cfg_base::span::Span;
use cfg_base::text;
use cfg_base::text::GapPart;
use std::alloc::{AllocError, Global};

impl<'a> Scanner<'a> {
    /// Reads white and comments.
    pub(crate) fn parse_ws(&self, offset: usize) -> Result<usize, ReadError>
        ensures ok { IfOk result (λ b. (w : Wanted) (x : SyntaxText) → Steps self.now.kind self.now.text.now (Spaced w x offset) (At w x b)) }
        ensures err { IfErr result (λ e. (w : Wanted) (x : SyntaxText) → FailsFrom self.now.kind self.now.text.now (Spaced w x offset) e) }
        ensures from { IfOk result (λ b. offset ≤ b) }
    {
        let mut end = offset;
        'parts: loop {
            match text::gap_at(self.text, end) {
                GapPart::Part(next) => end = next,
                GapPart::Unclosed => return Err(ReadError::Fault(
                    YaccGrammarErrorKind::IncompleteComment,
                    end,
                )),
                GapPart::NoPart => return Ok(end),
            }
        }
    }

    /// Reads white and comments of a line.
    pub(crate) fn parse_line_ws(&self, offset: usize) -> Result<usize, ReadError>
        ensures ok { IfOk result (λ b. (w : Wanted) (x : SyntaxText) → Steps self.now.kind self.now.text.now (InLine w x offset) (At w x b)) }
        ensures err { IfErr result (λ e. (w : Wanted) (x : SyntaxText) → FailsFrom self.now.kind self.now.text.now (InLine w x offset) e) }
        ensures from { IfOk result (λ b. offset ≤ b) }
    {
        let mut end = offset;
        'parts: loop {
            match self.line_gap_at(end) {
                GapPart::Part(next) => end = next,
                GapPart::Unclosed => return Err(ReadError::Fault(
                    YaccGrammarErrorKind::IncompleteComment,
                    end,
                )),
                GapPart::NoPart => return Ok(end),
            }
        }
    }

    /// Copies the text of a span.
    fn word_at(&self, alloc: Global, span: Span) -> Result<Word, AllocError>
        requires { FitsPart self.now.text.now span.start span.end }
        ensures { IfOk result (λ w. word_of w ≡ word_at self.now.text.now span) }
    {
        let text = String::from_str(alloc, &self.text[span.start()..span.end()])?;
        Ok(Word { text, span })
    }

    /// Copies the text between two offsets.
    pub(crate) fn word(&self, alloc: Global, start: usize, end: usize) -> Result<Word, AllocError>
        requires { FitsPart self.now.text.now start end }
        ensures { IfOk result (λ w. word_of w ≡ word self.now.text.now start end) }
    {
        self.word_at(alloc, Span::new(start, end))
    }

    /// Copies the text between two offsets, without the white at its ends.
    pub(crate) fn trimmed_word(
        &self,
        alloc: Global,
        start: usize,
        end: usize,
    ) -> Result<Word, AllocError>
        requires { FitsPart self.now.text.now start end }
        ensures { IfOk result (λ w. word_of w ≡ trimmed_word self.now.text.now start end) }
    {
        self.word_at(alloc, self.trim(start, end))
    }

    /// Reads a name.
    pub(crate) fn parse_name(
        &self,
        alloc: Global,
        offset: usize,
    ) -> Result<(Word, usize), ReadError>
        ensures ok { IfOk result (λ r. (token_kind_at self.now.text.now offset ≡ tokens.Name r.1) × (word_of r.0 ≡ word self.now.text.now offset r.1)) }
        ensures within { IfOk result (λ r. (offset < r.1) × (r.1 ≤ length self.now.text.now)) }
        ensures err { IfErr result (λ e. IsFaultAt (name_fault (token_kind_at self.now.text.now offset)) offset e) }
    {
        match self.token_kind_at(offset) {
            TokenKind::Name(end) => Ok((self.word(alloc, offset, end)?, end)),
            _ => Err(ReadError::Fault(YaccGrammarErrorKind::IllegalName, offset)),
        }
    }

    /// Returns the name from one offset up to another, noted.
    fn name_at(
        &self,
        alloc: Global,
        names: &mut NameSet,
        start: usize,
        end: usize,
    ) -> Result<Name, AllocError>
        requires { FitsPart self.now.text.now start end }
        ensures { IfOk result (λ n. name_text n ≡ slice_range self.now.text.now start end) }
    {
        let mut name = Name::of_part(alloc, self.shared, start, end)?;
        names.note(&mut name)?;
        Ok(name)
    }

    /// Reads the name of a rule, and returns it with its span and where it ends.
    pub(crate) fn parse_heading_name(
        &self,
        alloc: Global,
        names: &mut NameSet,
        offset: usize,
    ) -> Result<(Name, Span, usize), ReadError>
        ensures ok { IfOk result (λ r. (token_kind_at self.now.text.now offset ≡ tokens.Name r.2) × (record { text = name_text r.0; span = r.1 } ≡ word self.now.text.now offset r.2)) }
        ensures within { IfOk result (λ r. (offset < r.2) × (r.2 ≤ length self.now.text.now)) }
        ensures err { IfErr result (λ e. IsFaultAt (name_fault (token_kind_at self.now.text.now offset)) offset e) }
    {
        match self.token_kind_at(offset) {
            TokenKind::Name(end) => {
                let name = self.name_at(alloc, names, offset, end)?;
                Ok((name, Span::new(offset, end), end))
            }
            _ => Err(ReadError::Fault(YaccGrammarErrorKind::IllegalName, offset)),
        }
    }

    /// Finds a token of the kind that is here: whether it is quoted, the span of its text, and where it ends.
    pub(crate) fn token_part(
        &self,
        kind: TokenKind,
        offset: usize,
    ) -> Result<(bool, Span, usize), ReadError>
        requires kind { token_kind_at self.now.text.now offset ≡ kind }
        requires fits { FitsToken self.now.text.now offset kind }
        ensures ok { IfOk result (λ r. IsToken self.now.text.now offset (token_text self.now.text.now r.0 r.1) r.2) }
        ensures part { IfOk result (λ r. FitsPart self.now.text.now r.1.start r.1.end) }
        ensures marks { IfOk result (λ r. Encloses r.0 r.1 offset r.2) }
        ensures within { IfOk result (λ r. (offset < r.2) × (r.2 ≤ length self.now.text.now)) }
        ensures err { IfErr result (λ e. IsFaultAt (token_fault (token_kind_at self.now.text.now offset)) offset e) }
    {
        match kind {
            TokenKind::Name(end) => Ok((false, Span::new(offset, end), end)),
            TokenKind::Quoted(end) => Ok((true, Span::new(offset + 1, end), end + 1)),
            TokenKind::OpenQuote => Err(ReadError::Fault(
                YaccGrammarErrorKind::IllegalString,
                offset,
            )),
            _ => Err(ReadError::Fault(YaccGrammarErrorKind::IllegalName, offset)),
        }
    }

    /// Returns the symbol of a span of the text.
    pub(crate) fn symbol_at(
        &self,
        alloc: Global,
        names: &mut NameSet,
        is_quoted: bool,
        is_optional: bool,
        span: Span,
    ) -> Result<Symbol, AllocError>
        requires { FitsPart self.now.text.now span.start span.end }
        ensures { IfOk result (λ s. symbol_of s ≡ record (token_text self.now.text.now is_quoted span) { optional = mark_at is_quoted is_optional span }) }
    {
        let mut name = self.name_at(alloc, names, span.start(), span.end())?;
        name.set_optional(is_optional);
        if is_quoted {
            Ok(Symbol::Token(name, span))
        } else {
            Ok(Symbol::Rule(name, span))
        }
    }

    /// Reads a token of the kind that is here.
    pub(crate) fn token_of(
        &self,
        alloc: Global,
        names: &mut NameSet,
        kind: TokenKind,
        offset: usize,
    ) -> Result<(Symbol, usize), ReadError>
        requires kind { token_kind_at self.now.text.now offset ≡ kind }
        requires fits { FitsToken self.now.text.now offset kind }
        ensures ok { IfOk result (λ r. IsToken self.now.text.now offset (symbol_of r.0) r.1) }
        ensures marks { IfOk result (λ r. Encloses (symbol_of r.0).is_quoted (symbol_of r.0).word.span offset r.1) }
        ensures within { IfOk result (λ r. (offset < r.1) × (r.1 ≤ length self.now.text.now)) }
        ensures err { IfErr result (λ e. IsFaultAt (token_fault (token_kind_at self.now.text.now offset)) offset e) }
    {
        let (is_quoted, span, end) = self.token_part(kind, offset)?;
        let symbol = self.symbol_at(alloc, names, is_quoted, false, span)?;
        Ok((symbol, end))
    }

    /// Reads a token.
    pub(crate) fn parse_token(
        &self,
        alloc: Global,
        names: &mut NameSet,
        offset: usize,
    ) -> Result<(Symbol, usize), ReadError>
        ensures ok { IfOk result (λ r. IsToken self.now.text.now offset (symbol_of r.0) r.1) }
        ensures within { IfOk result (λ r. (offset < r.1) × (r.1 ≤ length self.now.text.now)) }
        ensures err { IfErr result (λ e. IsFaultAt (token_fault (token_kind_at self.now.text.now offset)) offset e) }
    {
        self.token_of(alloc, names, self.token_kind_at(offset), offset)
    }

    /// Reads a token, of which only the text is wanted.
    pub(crate) fn parse_token_word(
        &self,
        alloc: Global,
        offset: usize,
    ) -> Result<(Word, usize), ReadError>
        ensures ok { IfOk result (λ r. (t : SymbolText) × (t.word ≡ word_of r.0) × IsToken self.now.text.now offset t r.1) }
        ensures within { IfOk result (λ r. (offset < r.1) × (r.1 ≤ length self.now.text.now)) }
        ensures err { IfErr result (λ e. IsFaultAt (token_fault (token_kind_at self.now.text.now offset)) offset e) }
    {
        let (_is_quoted, span, end) = self.token_part(self.token_kind_at(offset), offset)?;
        let word = self.word_at(alloc, span)?;
        Ok((word, end))
    }

    /// Reads digits, and returns the offset behind them.
    fn parse_digits(&self, offset: usize) -> Option<usize>
        ensures value { MatchOption result (number_at self.now.text.now offset (token_kind_at self.now.text.now offset) ≡ None) (λ b. token_kind_at self.now.text.now offset ≡ tokens.Digits b) }
        ensures fits { IfSome result (λ b. FitsDigits self.now.text.now offset b) }
    {
        match self.token_kind_at(offset) {
            TokenKind::Digits(end) => Some(end),
            _ => None,
        }
    }

    /// Reads a number.
    pub(crate) fn parse_number(&self, offset: usize) -> Option<(Number, usize)>
        ensures value { MatchOption result (number_at self.now.text.now offset (token_kind_at self.now.text.now offset) ≡ None) (λ r. IsNumber self.now.text.now offset (number_text r.0) r.1) }
        ensures more { IfSome result (λ r. offset < r.1) }
    {
        let end = self.parse_digits(offset)?;
        let value = self.number_value(offset, end)?;
        Some((
            Number {
                value,
                span: Span::new(offset, end),
            },
            end,
        ))
    }

    /// Returns the offset of the first `\` between two offsets, or the second offset where there is none.
    fn plain_end(&self, start: usize, end: usize) -> usize
        requires { FitsPart self.now.text.now start end }
        ensures value { result ≡ start + prefix_len is_plain (slice_range self.now.text.now start end) }
        ensures utf8 { IsUtf8 self.now.text.now }
    {
        start + bytes::plain_len(&self.text.as_bytes()[start..end])
    }

    /// Pushes the text between two offsets.
    fn push_part(&self, text: &mut String, start: usize, end: usize) -> Result<(), AllocError>
        requires { FitsPart self.now.text.now start end }
        ensures { OnOk result (string_bytes text.new ≡ string_bytes text.old ++ slice_range self.now.text.now start end) }
    {
        text.push_str(&self.text[start..end])?;
        Ok(())
    }

    /// Copies the text between the quotes of a string, without the `\` of its escapes.
    fn unescape(&self, alloc: Global, start: usize, end: usize) -> Result<String, AllocError>
        requires { FitsPart self.now.text.now start end }
        ensures { IfOk result (λ s. string_bytes s ≡ filter is_plain (slice_range self.now.text.now start end)) }
    {
        let mut text = String::new(alloc);
        let mut offset = start;
        'parts: loop {
            let stop = self.plain_end(offset, end);
            self.push_part(&mut text, offset, stop)?;
            if stop == end {
                return Ok(text);
            }
            offset = stop + 1;
        }
    }

    /// Reads a string.
    pub(crate) fn parse_string(
        &self,
        alloc: Global,
        offset: usize,
    ) -> Result<(Word, usize), ReadError>
        ensures ok { IfOk result (λ r. IsString self.now.text.now offset (word_of r.0) r.1) }
        ensures more { IfOk result (λ r. offset < r.1) }
        ensures err { IfErr result (λ e. IsStringFault self.now.text.now offset e) }
    {
        match self.string_at(offset) {
            StringKind::Closed(end) => {
                let text = self.unescape(alloc, offset + 1, end)?;
                let span = Span::new(offset, end + 1);
                Ok((Word { text, span }, end + 1))
            }
            StringKind::Broken(end) => Err(ReadError::Fault(
                YaccGrammarErrorKind::InvalidString,
                end,
            )),
        }
    }

    /// Reads the rest of a line, and returns the span of its text, and the offset of the line's end.
    pub(crate) fn parse_rest_span(&self, offset: usize) -> Result<(Span, usize), ReadError>
        requires { IsCharBoundary self.now.text.now offset }
        ensures ok { IfOk result (λ r. (rest_of_line self.now.text.now offset ≡ Some (word_at self.now.text.now r.0)) × (r.1 ≡ line_end self.now.text.now offset)) }
        ensures fits { IfOk result (λ r. FitsPart self.now.text.now r.0.start r.0.end) }
        ensures within { IfOk result (λ r. FitsPart self.now.text.now offset r.1) }
        ensures err { IfErr result (λ e. IsFault (rest_of_line self.now.text.now offset ≡ None) faults.ReachedEOL (line_end self.now.text.now offset) e) }
    {
        let end = self.line_end(offset);
        let span = self.trim(offset, end);
        if span.start() == span.end() {
            return Err(ReadError::Fault(YaccGrammarErrorKind::ReachedEOL, end));
        }
        Ok((span, end))
    }

    /// Reads the rest of a line, and returns its text, and the offset of the line's end.
    pub(crate) fn parse_rest_of_line(
        &self,
        alloc: Global,
        offset: usize,
    ) -> Result<(Word, usize), ReadError>
        requires { IsCharBoundary self.now.text.now offset }
        ensures ok { IfOk result (λ r. (rest_of_line self.now.text.now offset ≡ Some (word_of r.0)) × (r.1 ≡ line_end self.now.text.now offset)) }
        ensures within { IfOk result (λ r. FitsPart self.now.text.now offset r.1) }
        ensures err { IfErr result (λ e. IsFault (rest_of_line self.now.text.now offset ≡ None) faults.ReachedEOL (line_end self.now.text.now offset) e) }
    {
        let (span, end) = self.parse_rest_span(offset)?;
        Ok((self.word_at(alloc, span)?, end))
    }

    /// Reads a name, `:` and a type up to the line's end.
    pub(crate) fn parse_typed_name(
        &self,
        alloc: Global,
        offset: usize,
        end: usize,
    ) -> Result<Param, ReadError>
        requires fits { FitsPart self.now.text.now offset end }
        requires more { 0 < offset }
        requires end { end ≡ line_end self.now.text.now offset }
        ensures ok { IfOk result (λ p. parameter self.now.text.now offset ≡ Some (param_of p)) }
        ensures err { IfErr result (λ e. IsFault (parameter self.now.text.now offset ≡ None) faults.MissingColon end e) }
    {
        let Some(colon) = self.lone_colon(offset, end) else {
            return Err(ReadError::Fault(YaccGrammarErrorKind::MissingColon, end));
        };
        let name = self.trimmed_word(alloc, offset, colon)?;
        let param_type = self.trimmed_word(alloc, colon + 1, end)?;
        Ok(Param { name, param_type })
    }
}
