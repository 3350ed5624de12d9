//! Reads the rules of a text.

ghost use Rattle.std.specs.Prelude.{◌≡◌, ◌+◌, ◌-◌, ◌^◌, ◌≤◌, ◌<◌, ℕ, Option, None, Some, true, false, not, length, map, option_map, ◌++◌, ◌∷◌, [], IfOk, IfErr, OnOk, IsTrue};
ghost use Rattle.std.specs.Bool.{Decides};
ghost use Rattle.std.specs.Str.{IsCharBoundary};
ghost use Rattle.cfg_read.specs.declared.yacc.parser.scan.TokenKind.TheVariants as tokens;
ghost use Rattle.cfg_base.specs.Text.{is_at, is_white, run_end};
ghost use Rattle.cfg_read.specs.Words.{token_kind_at};
ghost use Rattle.cfg_read.specs.SyntaxTexts.{WordText, RuleText, SyntaxText};
ghost use Rattle.cfg_read.specs.SyntaxUpdates.{word, mark_end, marked, Part, no_part, alternative, heading, append_rule};
ghost use Rattle.cfg_read.specs.Declarations.{is_grmtools};
ghost use Rattle.cfg_read.specs.Reading.{Declared, RuleName, RuleColon, More, PrecToken, Nothing, Spaced, At, IsLiteral, Steps, Reads};
ghost use Rattle.cfg_read.specs.SyntaxErrors.{token_fault, rule_fault, alternative_fault, FailsFrom, IsErrorOf};
ghost use Rattle.cfg_read.specs.SyntaxModels.{word_of, boxed_word, symbol_of, alternative_of, rule_of, part_of, syntax_of};
ghost use Rattle.cfg_read.specs.Scanning.{IsMemory, StartsBy, Encloses, FitsToken, IsFaultAt, is_part, ends_alternative, bar_or_semicolon, rule_text, ends_rules, end_or_separator, begins_name};

use crate::yacc::YaccKind;
use crate::yacc::name::NameSet;
use crate::yacc::parser::draft::Draft;
use crate::yacc::parser::error::{ReadError, YaccGrammarErrorKind};
use crate::yacc::parser::scan::{Scanner, TokenKind};
use crate::yacc::parser::syntax::{Alternative, Rule, Symbol, Syntax, Word};
use cfg_base::name_hasher::NameHasher;
use cfg_base::span::Span;
use std::alloc::{AllocError, Global};
use std::rc::RcStr;

/// In how many bytes of a text one more name may be met, where room for names is made at once.
const BYTES_A_NAME: usize = 32;

/// Puts the last alternative of a rule behind the others, with room for no further ones.
fn push_last(
    alternatives: &mut Vec<Alternative>,
    alternative: Alternative,
) -> Result<(), AllocError>
    ensures { OnOk result (alternatives.new.items ≡ alternatives.old.items ++ alternative ∷ []) }
{
    alternatives.reserve_exact(1)?;
    alternatives.push(alternative)?;
    Ok(())
}

/// Puts an alternative of a rule behind the others.
fn push_alternative(
    alternatives: &mut Vec<Alternative>,
    alternative: Alternative,
    is_last: bool,
) -> Result<(), AllocError>
    ensures { OnOk result (alternatives.new.items ≡ alternatives.old.items ++ alternative ∷ []) }
{
    if is_last {
        return push_last(alternatives, alternative);
    }
    alternatives.push(alternative)?;
    Ok(())
}

/// Returns whether a token of this kind begins a part of an alternative; else it ends one.
fn begins_part(kind: TokenKind, offset: usize) -> Result<bool, ReadError>
    ensures ok { IfOk result (λ b. (is_part kind ≡ b) × (ends_alternative kind ≡ not b)) }
    ensures err { IfErr result (λ e. IsFaultAt (alternative_fault kind) offset e) }
{
    match kind {
        TokenKind::Name(_) | TokenKind::Quoted(_) | TokenKind::Percent | TokenKind::Brace => Ok(
            true,
        ),
        TokenKind::Bar | TokenKind::Semicolon => Ok(false),
        TokenKind::End => Err(ReadError::Fault(YaccGrammarErrorKind::IncompleteRule, offset)),
        TokenKind::OpenQuote => Err(ReadError::Fault(YaccGrammarErrorKind::IllegalString, offset)),
        _ => Err(ReadError::Fault(YaccGrammarErrorKind::ProductionNotTerminated, offset)),
    }
}

impl<'a> Scanner<'a> {
    /// Returns whether a `?` is here.
    #[inline(always)]
    fn has_mark(&self, offset: usize) -> bool
        ensures value { result ≡ is_at self.now.text.now offset 63 }
        ensures fits { IsTrue result → offset < 2 ^ 64 - 1 }
    {
        self.byte(offset) == Some(b'?')
    }

    /// Reads a symbol of an alternative, a token of the kind that is here.
    fn parse_symbol(
        &self,
        alloc: Global,
        names: &mut NameSet,
        draft: &mut Draft,
        kind: TokenKind,
        offset: usize,
    ) -> Result<usize, ReadError>
        requires kind { token_kind_at self.now.text.now offset ≡ kind }
        requires fits { FitsToken self.now.text.now offset kind }
        requires token { token_fault (token_kind_at self.now.text.now offset) ≡ None }
        requires starts { StartsBy draft.old.span offset }
        ensures ok { IfOk result (λ b. (r : RuleText) (x : SyntaxText) → Steps self.now.kind self.now.text.now (At (More r (part_of draft.old)) x offset) (Spaced (More r (part_of draft.new)) x b)) }
        ensures err { IfErr result (λ e. (r : RuleText) (x : SyntaxText) → FailsFrom self.now.kind self.now.text.now (At (More r (part_of draft.old)) x offset) e) }
        ensures more { IfOk result (λ b. offset < b) }
        ensures starts { IfOk result (λ b. StartsBy draft.new.span b) }
    {
        let (is_quoted, span, end) = self.token_part(kind, offset)?;
        if draft.is_empty {
            return Err(ReadError::Fault(YaccGrammarErrorKind::NonEmptyProduction, offset));
        }
        if !draft.is_open() {
            return Err(ReadError::Fault(YaccGrammarErrorKind::ProductionNotTerminated, offset));
        }
        let is_optional = self.has_mark(end);
        let after = if is_optional { end + 1 } else { end };
        let symbol = self.symbol_at(alloc, names, is_quoted, is_optional, span)?;
        draft.add_symbol(symbol, offset, after)?;
        Ok(after)
    }

    /// Reads the `%empty` that is here.
    fn parse_empty(&self, draft: &mut Draft, offset: usize) -> Result<usize, ReadError>
        requires literal { IsLiteral self.now.text.now offset "empty" }
        requires within { offset + 6 ≤ length self.now.text.now }
        requires starts { StartsBy draft.old.span offset }
        ensures ok { IfOk result (λ b. (r : RuleText) (x : SyntaxText) → Steps self.now.kind self.now.text.now (At (More r (part_of draft.old)) x offset) (Spaced (More r (part_of draft.new)) x b)) }
        ensures err { IfErr result (λ e. (r : RuleText) (x : SyntaxText) → FailsFrom self.now.kind self.now.text.now (At (More r (part_of draft.old)) x offset) e) }
        ensures within { IfOk result (λ b. b ≡ offset + 6) }
        ensures starts { IfOk result (λ b. StartsBy draft.new.span b) }
    {
        if !draft.symbols.is_empty() {
            return Err(ReadError::Fault(YaccGrammarErrorKind::NonEmptyProduction, offset));
        }
        if !draft.takes_empty() {
            return Err(ReadError::Fault(YaccGrammarErrorKind::ProductionNotTerminated, offset));
        }
        draft.add_empty(offset, offset + 6);
        Ok(offset + 6)
    }

    /// Reads the token of the `%prec` at `offset`.
    fn parse_prec_token(
        &self,
        alloc: Global,
        draft: &mut Draft,
        offset: usize,
    ) -> Result<usize, ReadError>
        requires within { offset + 5 ≤ length self.now.text.now }
        requires starts { StartsBy draft.old.span offset }
        ensures ok { IfOk result (λ b. (r : RuleText) (x : SyntaxText) → Steps self.now.kind self.now.text.now (Spaced (PrecToken r (part_of draft.old) offset) x (offset + 5)) (Spaced (More r (part_of draft.new)) x b)) }
        ensures err { IfErr result (λ e. (r : RuleText) (x : SyntaxText) → FailsFrom self.now.kind self.now.text.now (Spaced (PrecToken r (part_of draft.old) offset) x (offset + 5)) e) }
        ensures more { IfOk result (λ b. offset < b) }
        ensures starts { IfOk result (λ b. StartsBy draft.new.span b) }
    {
        let start = self.parse_ws(offset + 5)?;
        if !self.token_kind_at(start).begins_token() {
            return Err(ReadError::Fault(YaccGrammarErrorKind::PrecNotFollowedByToken, start));
        }
        let (word, end) = self.parse_token_word(alloc, start)?;
        draft.add_precedence(Box::new(alloc, word)?, offset, end);
        Ok(end)
    }

    /// Reads `%empty`, or `%prec` with its token.
    fn parse_percent_part(
        &self,
        alloc: Global,
        draft: &mut Draft,
        offset: usize,
    ) -> Result<usize, ReadError>
        requires percent { token_kind_at self.now.text.now offset ≡ tokens.Percent }
        requires within { offset < length self.now.text.now }
        requires starts { StartsBy draft.old.span offset }
        ensures ok { IfOk result (λ b. (r : RuleText) (x : SyntaxText) → Steps self.now.kind self.now.text.now (At (More r (part_of draft.old)) x offset) (Spaced (More r (part_of draft.new)) x b)) }
        ensures err { IfErr result (λ e. (r : RuleText) (x : SyntaxText) → FailsFrom self.now.kind self.now.text.now (At (More r (part_of draft.old)) x offset) e) }
        ensures more { IfOk result (λ b. offset < b) }
        ensures starts { IfOk result (λ b. StartsBy draft.new.span b) }
    {
        if self.has_empty(offset) {
            let end = self.parse_empty(draft, offset)?;
            return Ok(end);
        }
        if !self.has_prec(offset) {
            return Err(ReadError::Fault(YaccGrammarErrorKind::ProductionNotTerminated, offset));
        }
        if !draft.is_open() {
            return Err(ReadError::Fault(YaccGrammarErrorKind::ProductionNotTerminated, offset));
        }
        let end = self.parse_prec_token(alloc, draft, offset)?;
        Ok(end)
    }

    /// Reads the action whose `{` is here.
    fn parse_action(
        &self,
        alloc: Global,
        draft: &mut Draft,
        offset: usize,
    ) -> Result<usize, ReadError>
        requires brace { token_kind_at self.now.text.now offset ≡ tokens.Brace }
        requires fits { (offset < length self.now.text.now) × IsCharBoundary self.now.text.now (offset + 1) }
        requires starts { StartsBy draft.old.span offset }
        ensures ok { IfOk result (λ b. (r : RuleText) (x : SyntaxText) → Steps self.now.kind self.now.text.now (At (More r (part_of draft.old)) x offset) (Spaced (More r (part_of draft.new)) x b)) }
        ensures err { IfErr result (λ e. (r : RuleText) (x : SyntaxText) → FailsFrom self.now.kind self.now.text.now (At (More r (part_of draft.old)) x offset) e) }
        ensures more { IfOk result (λ b. offset < b) }
        ensures starts { IfOk result (λ b. StartsBy draft.new.span b) }
    {
        if draft.action.is_some() {
            return Err(ReadError::Fault(YaccGrammarErrorKind::ProductionNotTerminated, offset));
        }
        let Some(end) = self.action_end(offset + 1) else {
            return Err(ReadError::Fault(YaccGrammarErrorKind::IncompleteAction, offset));
        };
        let word = self.trimmed_word(alloc, offset + 1, end)?;
        draft.add_action(word);
        Ok(end + 1)
    }

    /// Reads a part of an alternative, which begins with a token of the kind that is here.
    fn parse_part_alone(
        &self,
        alloc: Global,
        names: &mut NameSet,
        draft: &mut Draft,
        kind: TokenKind,
        offset: usize,
    ) -> Result<usize, ReadError>
        requires kind { token_kind_at self.now.text.now offset ≡ kind }
        requires fits { FitsToken self.now.text.now offset kind }
        requires part { is_part kind ≡ true }
        requires starts { StartsBy draft.old.span offset }
        ensures ok { IfOk result (λ b. (r : RuleText) (x : SyntaxText) → Steps self.now.kind self.now.text.now (At (More r (part_of draft.old)) x offset) (Spaced (More r (part_of draft.new)) x b)) }
        ensures err { IfErr result (λ e. (r : RuleText) (x : SyntaxText) → FailsFrom self.now.kind self.now.text.now (At (More r (part_of draft.old)) x offset) e) }
        ensures more { IfOk result (λ b. offset < b) }
        ensures starts { IfOk result (λ b. StartsBy draft.new.span b) }
    {
        match kind {
            TokenKind::Percent => self.parse_percent_part(alloc, draft, offset),
            TokenKind::Brace => self.parse_action(alloc, draft, offset),
            _ => self.parse_symbol(alloc, names, draft, kind, offset),
        }
    }

    /// Reads a part of an alternative, which begins with a token of the kind that is here, and the gap behind it.
    fn parse_part(
        &self,
        alloc: Global,
        names: &mut NameSet,
        draft: &mut Draft,
        kind: TokenKind,
        offset: usize,
    ) -> Result<usize, ReadError>
        requires kind { token_kind_at self.now.text.now offset ≡ kind }
        requires fits { FitsToken self.now.text.now offset kind }
        requires part { is_part kind ≡ true }
        requires starts { StartsBy draft.old.span offset }
        ensures ok { IfOk result (λ b. (r : RuleText) (x : SyntaxText) → Steps self.now.kind self.now.text.now (At (More r (part_of draft.old)) x offset) (At (More r (part_of draft.new)) x b)) }
        ensures err { IfErr result (λ e. (r : RuleText) (x : SyntaxText) → FailsFrom self.now.kind self.now.text.now (At (More r (part_of draft.old)) x offset) e) }
        ensures more { IfOk result (λ b. offset < b) }
        ensures starts { IfOk result (λ b. StartsBy draft.new.span b) }
    {
        let end = self.parse_part_alone(alloc, names, draft, kind, offset)?;
        Ok(self.parse_ws(end)?)
    }

    /// Reads an alternative, up to the `|` or `;` behind it.
    fn parse_alternative(
        &self,
        alloc: Global,
        names: &mut NameSet,
        draft: &mut Draft,
        offset: usize,
    ) -> Result<(Alternative, usize), ReadError>
        requires blank { part_of draft.old ≡ no_part }
        ensures anew { OnOk result (part_of draft.new ≡ no_part) }
        ensures ok { IfOk result (λ f. (p : Part) × (alternative_of f.0 ≡ alternative p f.1) × ((r : RuleText) (x : SyntaxText) → Steps self.now.kind self.now.text.now (Spaced (More r no_part) x offset) (At (More r p) x f.1))) }
        ensures end { IfOk result (λ f. ends_alternative (token_kind_at self.now.text.now f.1) ≡ true) }
        ensures err { IfErr result (λ e. (r : RuleText) (x : SyntaxText) → FailsFrom self.now.kind self.now.text.now (Spaced (More r no_part) x offset) e) }
        ensures within { IfOk result (λ f. (offset ≤ f.1) × (f.1 < length self.now.text.now)) }
    {
        let mut end = self.parse_ws(offset)?;
        let mut kind = self.token_kind_at(end);
        'parts: while begins_part(kind, end)? {
            end = self.parse_part(alloc, names, draft, kind, end)?;
            kind = self.token_kind_at(end);
        }
        let alternative = draft.finish(alloc, end)?;
        Ok((alternative, end))
    }

    /// Returns whether the alternative ends with `;`; else it ends with `|`.
    fn is_last(&self, offset: usize) -> bool
        requires end { ends_alternative (token_kind_at self.now.text.now offset) ≡ true }
        ensures { token_kind_at self.now.text.now offset ≡ bar_or_semicolon result }
    {
        !matches!(self.token_kind_at(offset), TokenKind::Bar)
    }

    /// Reads the alternatives of a rule, and the `;`.
    fn parse_alternatives(
        &self,
        alloc: Global,
        names: &mut NameSet,
        draft: &mut Draft,
        offset: usize,
    ) -> Result<(Vec<Alternative>, usize), ReadError>
        requires blank { part_of draft.old ≡ no_part }
        ensures anew { OnOk result (part_of draft.new ≡ no_part) }
        ensures ok { IfOk result (λ f. (n : WordText) (t : Option WordText) (x : SyntaxText) → Steps self.now.kind self.now.text.now (Spaced (More (heading n t) no_part) x offset) (Spaced RuleName (append_rule x (rule_text n t (map alternative_of f.0.items))) f.1)) }
        ensures err { IfErr result (λ e. (n : WordText) (t : Option WordText) (x : SyntaxText) → FailsFrom self.now.kind self.now.text.now (Spaced (More (heading n t) no_part) x offset) e) }
        ensures more { IfOk result (λ f. offset < f.1) }
    {
        let mut alternatives = Vec::new(alloc);
        let mut start = offset;
        'alternatives: loop {
            let (alternative, end) = self.parse_alternative(alloc, names, draft, start)?;
            let is_last = self.is_last(end);
            push_alternative(&mut alternatives, alternative, is_last)?;
            start = end + 1;
            if is_last {
                return Ok((alternatives, start));
            }
        }
    }

    /// Reads the `:` behind a rule's name.
    fn parse_colon(&self, offset: usize) -> Result<usize, ReadError>
        requires kind { is_grmtools self.now.kind ≡ false }
        ensures ok { IfOk result (λ b. (r : WordText) (x : SyntaxText) → Steps self.now.kind self.now.text.now (At (RuleColon r) x offset) (Spaced (More (heading r None) no_part) x b)) }
        ensures err { IfErr result (λ e. (r : WordText) (x : SyntaxText) → FailsFrom self.now.kind self.now.text.now (At (RuleColon r) x offset) e) }
        ensures more { IfOk result (λ b. offset < b) }
    {
        match self.token_kind_at(offset) {
            TokenKind::Colon => Ok(offset + 1),
            _ => Err(ReadError::Fault(YaccGrammarErrorKind::MissingColon, offset)),
        }
    }

    /// Returns whether `->` is here.
    fn is_arrow(&self, offset: usize) -> bool
        ensures arrow { Decides result (token_kind_at self.now.text.now offset ≡ tokens.Arrow) }
        ensures fits { IsTrue result → (offset + 2 ≤ length self.now.text.now) × IsCharBoundary self.now.text.now (offset + 2) }
    {
        matches!(self.token_kind_at(offset), TokenKind::Arrow)
    }

    /// Reads the `->`, the type and the `:` behind a rule's name.
    fn parse_typed_colon(&self, alloc: Global, offset: usize) -> Result<(Word, usize), ReadError>
        requires kind { is_grmtools self.now.kind ≡ true }
        ensures ok { IfOk result (λ f. (r : WordText) (x : SyntaxText) → Steps self.now.kind self.now.text.now (At (RuleColon r) x offset) (Spaced (More (heading r (Some (word_of f.0))) no_part) x f.1)) }
        ensures err { IfErr result (λ e. (r : WordText) (x : SyntaxText) → FailsFrom self.now.kind self.now.text.now (At (RuleColon r) x offset) e) }
        ensures more { IfOk result (λ f. offset < f.1) }
    {
        if !self.is_arrow(offset) {
            return Err(ReadError::Fault(YaccGrammarErrorKind::MissingRightArrow, offset));
        }
        let Some(colon) = self.lone_colon(offset + 2, self.text.len()) else {
            return Err(ReadError::Fault(YaccGrammarErrorKind::MissingColon, self.text.len()));
        };
        let word = self.trimmed_word(alloc, offset + 2, colon)?;
        Ok((word, colon + 1))
    }

    /// Reads the text between a rule's name and its alternatives.
    fn parse_heading(
        &self,
        alloc: Global,
        offset: usize,
    ) -> Result<(Option<Box<Word>>, usize), ReadError>
        ensures ok { IfOk result (λ f. (r : WordText) (x : SyntaxText) → Steps self.now.kind self.now.text.now (At (RuleColon r) x offset) (Spaced (More (heading r (option_map boxed_word f.0)) no_part) x f.1)) }
        ensures err { IfErr result (λ e. (r : WordText) (x : SyntaxText) → FailsFrom self.now.kind self.now.text.now (At (RuleColon r) x offset) e) }
        ensures more { IfOk result (λ f. offset < f.1) }
    {
        match self.kind {
            YaccKind::Grmtools => {
                let (word, end) = self.parse_typed_colon(alloc, offset)?;
                let boxed = Box::new(alloc, word)?;
                Ok((Some(boxed), end))
            }
            _ => {
                let end = self.parse_colon(offset)?;
                Ok((None, end))
            }
        }
    }

    /// Reads a rule.
    fn parse_rule(
        &self,
        alloc: Global,
        names: &mut NameSet,
        draft: &mut Draft,
        offset: usize,
    ) -> Result<(Rule, usize), ReadError>
        requires blank { part_of draft.old ≡ no_part }
        requires name { begins_name (token_kind_at self.now.text.now offset) ≡ true }
        ensures ok { IfOk result (λ f. (x : SyntaxText) → Steps self.now.kind self.now.text.now (At RuleName x offset) (Spaced RuleName (append_rule x (rule_of f.0)) f.1)) }
        ensures err { IfErr result (λ e. (x : SyntaxText) → FailsFrom self.now.kind self.now.text.now (At RuleName x offset) e) }
        ensures within { IfOk result (λ f. (offset < length self.now.text.now) × (offset < f.1)) }
        ensures anew { OnOk result (part_of draft.new ≡ no_part) }
    {
        let (name, span, after) = self.parse_heading_name(alloc, names, offset)?;
        let start = self.parse_ws(after)?;
        let (action_type, body) = self.parse_heading(alloc, start)?;
        let (alternatives, end) = self.parse_alternatives(alloc, names, draft, body)?;
        Ok((
            Rule {
                name,
                span,
                action_type,
                alternatives,
            },
            end,
        ))
    }

    /// Returns whether a rule begins here; else the rules end here.
    fn begins_rule(&self, offset: usize) -> Result<bool, ReadError>
        ensures ok { IfOk result (λ b. (begins_name (token_kind_at self.now.text.now offset) ≡ b) × (ends_rules (token_kind_at self.now.text.now offset) ≡ not b)) }
        ensures err { IfErr result (λ e. IsFaultAt (rule_fault (token_kind_at self.now.text.now offset)) offset e) }
    {
        match self.token_kind_at(offset) {
            TokenKind::Name(_) => Ok(true),
            TokenKind::End | TokenKind::Separator => Ok(false),
            _ => Err(ReadError::Fault(YaccGrammarErrorKind::IllegalName, offset)),
        }
    }

    /// Reads all rules and the gap behind them, each alternative into this draft.
    fn parse_rules_by(
        &self,
        alloc: Global,
        syntax: &mut Syntax,
        draft: &mut Draft,
        offset: usize,
    ) -> Result<usize, ReadError>
        requires blank { part_of draft.old ≡ no_part }
        ensures ok { IfOk result (λ b. Steps self.now.kind self.now.text.now (Spaced RuleName (syntax_of syntax.old) offset) (At RuleName (syntax_of syntax.new) b)) }
        ensures end { IfOk result (λ b. ends_rules (token_kind_at self.now.text.now b) ≡ true) }
        ensures err { IfErr result (λ e. FailsFrom self.now.kind self.now.text.now (Spaced RuleName (syntax_of syntax.old) offset) e) }
    {
        let mut end = self.parse_ws(offset)?;
        'rules: while self.begins_rule(end)? {
            let (rule, after) = self.parse_rule(alloc, &mut syntax.names, draft, end)?;
            syntax.rules.push(rule)?;
            end = self.parse_ws(after)?;
        }
        Ok(end)
    }

    /// Reads all rules and the gap behind them.
    fn parse_rules(
        &self,
        alloc: Global,
        syntax: &mut Syntax,
        offset: usize,
    ) -> Result<usize, ReadError>
        ensures ok { IfOk result (λ b. Steps self.now.kind self.now.text.now (Spaced RuleName (syntax_of syntax.old) offset) (At RuleName (syntax_of syntax.new) b)) }
        ensures end { IfOk result (λ b. ends_rules (token_kind_at self.now.text.now b) ≡ true) }
        ensures err { IfErr result (λ e. FailsFrom self.now.kind self.now.text.now (Spaced RuleName (syntax_of syntax.old) offset) e) }
    {
        let mut draft = Draft::new(alloc);
        let read = self.parse_rules_by(alloc, syntax, &mut draft, offset);
        drop(draft);
        read
    }

    /// Returns whether the rules end with `%%`; else the text ends.
    fn has_programs(&self, offset: usize) -> bool
        requires end { ends_rules (token_kind_at self.now.text.now offset) ≡ true }
        ensures kind { token_kind_at self.now.text.now offset ≡ end_or_separator result }
        ensures fits { FitsToken self.now.text.now offset (end_or_separator result) }
    {
        matches!(self.token_kind_at(offset), TokenKind::Separator)
    }

    /// Reads the programs behind the `%%` that is here.
    fn parse_programs(&self, alloc: Global, offset: usize) -> Result<Word, ReadError>
        requires { (offset + 2 ≤ length self.now.text.now) × IsCharBoundary self.now.text.now (offset + 2) }
        ensures ok { IfOk result (λ w. word_of w ≡ word self.now.text.now (run_end is_white self.now.text.now (offset + 2)) (length self.now.text.now)) }
        ensures err { IfErr result IsMemory }
    {
        let start = self.white_end(offset + 2);
        Ok(self.word(alloc, start, self.text.len())?)
    }

    /// Reads the text behind the rules.
    fn parse_last_part(
        &self,
        alloc: Global,
        syntax: &mut Syntax,
        offset: usize,
    ) -> Result<(), ReadError>
        requires end { ends_rules (token_kind_at self.now.text.now offset) ≡ true }
        ensures ok { IfOk result (λ _. (b : ℕ) × Steps self.now.kind self.now.text.now (At RuleName (syntax_of syntax.old) offset) (At Nothing (syntax_of syntax.new) b)) }
        ensures err { IfErr result IsMemory }
    {
        if !self.has_programs(offset) {
            return Ok(());
        }
        let word = self.parse_programs(alloc, offset)?;
        syntax.programs = Some(word);
        Ok(())
    }

    /// Reads all that a text says from an offset on, behind its section.
    fn parse_all(&self, alloc: Global, syntax: &mut Syntax, start: usize) -> Result<(), ReadError>
        ensures ok { IfOk result (λ _. (b : ℕ) × Steps self.now.kind self.now.text.now (Spaced Declared (syntax_of syntax.old) start) (At Nothing (syntax_of syntax.new) b)) }
        ensures err { IfErr result (λ e. FailsFrom self.now.kind self.now.text.now (Spaced Declared (syntax_of syntax.old) start) e) }
    {
        let rules = self.parse_declarations(alloc, syntax, start)?;
        let end = self.parse_rules(alloc, syntax, rules)?;
        self.parse_last_part(alloc, syntax, end)?;
        Ok(())
    }
}

/// Reads a text of a kind from the byte offset `start` on, behind its section. Returns `Fault` with the text's one
/// fault and its offset where it doesn't read, and `Memory` where memory is refused.
pub fn read_syntax(
    alloc: Global,
    kind: YaccKind,
    text: &str,
    start: usize,
) -> Result<Syntax, ReadError>
    ensures ok { IfOk result (λ x. Reads kind text.now start (syntax_of x)) }
    ensures err { IfErr result (λ e. IsErrorOf kind text.now start e) }
{
    let shared = RcStr::from_str(alloc, text)?;
    let scanner = Scanner {
        text,
        shared: &shared,
        kind,
    };
    let names = NameSet::with_room(alloc, text.len() / BYTES_A_NAME, NameHasher::of_text(text))?;
    let mut syntax = Syntax::new(alloc, names);
    match scanner.parse_all(alloc, &mut syntax, start) {
        Ok(()) => Ok(syntax),
        Err(e) => {
            drop(syntax);
            Err(e)
        }
    }
}
