//! Reads the declarations of a text.

ghost use Rattle.std.specs.Prelude.{◌≡◌, ◌+◌, ◌≤◌, ◌<◌, [], length, IfOk, IfErr};
ghost use Rattle.std.specs.Str.{IsCharBoundary};
ghost use Rattle.cfg_read.specs.declared.yacc.parser.declaration.LineList.{LineList};
ghost use Rattle.cfg_read.specs.declared.yacc.parser.declaration.LineText.TheVariants as texts;
ghost use Rattle.cfg_read.specs.declared.yacc.parser.scan.TokenKind.TheVariants as tokens;
ghost use Rattle.cfg_read.specs.Words.{token_kind_at};
ghost use Rattle.cfg_read.specs.SyntaxTexts.{SyntaxText};
ghost use Rattle.cfg_read.specs.SyntaxUpdates.{append_list};
ghost use Rattle.cfg_read.specs.Reading.{Declared, StartName, DeclaredToken, LineItem, NumberWord, EppToken, EppString, Rest, RuleName, Spaced, InLine, At, Steps, begins};
ghost use Rattle.cfg_read.specs.SyntaxErrors.{declaration_fault, FailsFrom};
ghost use Rattle.cfg_read.specs.SyntaxModels.{word_of, symbols_of, syntax_of};
ghost use Rattle.cfg_read.specs.Scanning.{FitsToken, IsFaultAt, percent_or_separator};

use crate::yacc::name::NameSet;
use crate::yacc::parser::declaration::{Count, Declaration, LineList, LineText};
use crate::yacc::parser::error::{ReadError, YaccGrammarErrorKind};
use crate::yacc::parser::scan::{Scanner, TokenKind};
use crate::yacc::parser::syntax::{Epp, Symbol, Syntax, Word};
use std::alloc::Global;

impl<'a> Scanner<'a> {
    /// Reads the tokens of `%token`.
    fn parse_declared_tokens(
        &self,
        alloc: Global,
        syntax: &mut Syntax,
        offset: usize,
    ) -> Result<usize, ReadError>
        ensures ok { IfOk result (λ b. Steps self.now.kind self.now.text.now (Spaced DeclaredToken (syntax_of syntax.old) offset) (At Declared (syntax_of syntax.new) b)) }
        ensures err { IfErr result (λ e. FailsFrom self.now.kind self.now.text.now (Spaced DeclaredToken (syntax_of syntax.old) offset) e) }
        ensures from { IfOk result (λ b. offset ≤ b) }
    {
        let mut end = self.parse_ws(offset)?;
        'tokens: while !self.token_kind_at(end).ends_tokens() {
            let (token, after) = self.parse_token(alloc, &mut syntax.names, end)?;
            syntax.tokens.push(token)?;
            end = self.parse_ws(after)?;
        }
        Ok(end)
    }

    /// Reads names and quoted tokens up to the line's end.
    fn parse_line_items(
        &self,
        alloc: Global,
        names: &mut NameSet,
        offset: usize,
    ) -> Result<(Vec<Symbol>, usize), ReadError>
        ensures ok { IfOk result (λ r. (l : LineList) (x : SyntaxText) → Steps self.now.kind self.now.text.now (InLine (LineItem l []) x offset) (Spaced Declared (append_list x l (symbols_of r.0.items)) r.1)) }
        ensures err { IfErr result (λ e. (l : LineList) (x : SyntaxText) → FailsFrom self.now.kind self.now.text.now (InLine (LineItem l []) x offset) e) }
        ensures from { IfOk result (λ r. offset ≤ r.1) }
    {
        let mut items = Vec::new(alloc);
        let mut end = self.parse_line_ws(offset)?;
        'items: loop {
            let kind = self.token_kind_at(end);
            if kind.ends_line() {
                return Ok((items, end));
            }
            let (item, after) = self.token_of(alloc, names, kind, end)?;
            items.push(item)?;
            end = self.parse_line_ws(after)?;
        }
    }

    /// Reads a list that runs to the line's end, and the gap behind it.
    fn parse_list(
        &self,
        alloc: Global,
        syntax: &mut Syntax,
        list: LineList,
        offset: usize,
    ) -> Result<usize, ReadError>
        ensures ok { IfOk result (λ b. Steps self.now.kind self.now.text.now (InLine (LineItem list []) (syntax_of syntax.old) offset) (At Declared (syntax_of syntax.new) b)) }
        ensures err { IfErr result (λ e. FailsFrom self.now.kind self.now.text.now (InLine (LineItem list []) (syntax_of syntax.old) offset) e) }
        ensures from { IfOk result (λ b. offset ≤ b) }
    {
        let (items, end) = self.parse_line_items(alloc, &mut syntax.names, offset)?;
        syntax.add_list(list, items)?;
        Ok(self.parse_ws(end)?)
    }

    /// Reads the name of `%start`, and the gap behind it.
    fn parse_start(
        &self,
        alloc: Global,
        syntax: &mut Syntax,
        offset: usize,
    ) -> Result<usize, ReadError>
        ensures ok { IfOk result (λ b. Steps self.now.kind self.now.text.now (Spaced StartName (syntax_of syntax.old) offset) (At Declared (syntax_of syntax.new) b)) }
        ensures err { IfErr result (λ e. FailsFrom self.now.kind self.now.text.now (Spaced StartName (syntax_of syntax.old) offset) e) }
        ensures from { IfOk result (λ b. offset ≤ b) }
    {
        let start = self.parse_ws(offset)?;
        let (word, end) = self.parse_name(alloc, start)?;
        syntax.starts.push(word)?;
        Ok(self.parse_ws(end)?)
    }

    /// Reads the number of `%expect` or `%expect-rr`, and the gap behind it.
    fn parse_count(
        &self,
        syntax: &mut Syntax,
        count: Count,
        offset: usize,
    ) -> Result<usize, ReadError>
        ensures ok { IfOk result (λ b. Steps self.now.kind self.now.text.now (Spaced (NumberWord count) (syntax_of syntax.old) offset) (At Declared (syntax_of syntax.new) b)) }
        ensures err { IfErr result (λ e. FailsFrom self.now.kind self.now.text.now (Spaced (NumberWord count) (syntax_of syntax.old) offset) e) }
        ensures from { IfOk result (λ b. offset ≤ b) }
    {
        let start = self.parse_ws(offset)?;
        let Some((number, end)) = self.parse_number(start) else {
            return Err(ReadError::Fault(YaccGrammarErrorKind::IllegalInteger, start));
        };
        syntax.add_number(count, number)?;
        Ok(self.parse_ws(end)?)
    }

    /// Reads the token of `%epp`, and the gap behind it.
    fn parse_epp_token(&self, alloc: Global, offset: usize) -> Result<(Word, usize), ReadError>
        ensures ok { IfOk result (λ r. (x : SyntaxText) → Steps self.now.kind self.now.text.now (Spaced EppToken x offset) (At (EppString (word_of r.0)) x r.1)) }
        ensures err { IfErr result (λ e. (x : SyntaxText) → FailsFrom self.now.kind self.now.text.now (Spaced EppToken x offset) e) }
        ensures from { IfOk result (λ r. offset ≤ r.1) }
    {
        let start = self.parse_ws(offset)?;
        let (token, after) = self.parse_token_word(alloc, start)?;
        let end = self.parse_ws(after)?;
        Ok((token, end))
    }

    /// Reads the token and the string of `%epp`, and the gap behind them.
    fn parse_epp(
        &self,
        alloc: Global,
        syntax: &mut Syntax,
        offset: usize,
    ) -> Result<usize, ReadError>
        ensures ok { IfOk result (λ b. Steps self.now.kind self.now.text.now (Spaced EppToken (syntax_of syntax.old) offset) (At Declared (syntax_of syntax.new) b)) }
        ensures err { IfErr result (λ e. FailsFrom self.now.kind self.now.text.now (Spaced EppToken (syntax_of syntax.old) offset) e) }
        ensures from { IfOk result (λ b. offset ≤ b) }
    {
        let (token, start) = self.parse_epp_token(alloc, offset)?;
        let (text, end) = self.parse_string(alloc, start)?;
        syntax.epp.push(Epp { token, text })?;
        Ok(self.parse_ws(end)?)
    }

    /// Reads the type of `%actiontype`, and the gap behind it.
    fn parse_action_type(
        &self,
        alloc: Global,
        syntax: &mut Syntax,
        offset: usize,
    ) -> Result<usize, ReadError>
        requires { IsCharBoundary self.now.text.now offset }
        ensures ok { IfOk result (λ b. Steps self.now.kind self.now.text.now (At (Rest texts.ActionType) (syntax_of syntax.old) offset) (At Declared (syntax_of syntax.new) b)) }
        ensures err { IfErr result (λ e. FailsFrom self.now.kind self.now.text.now (At (Rest texts.ActionType) (syntax_of syntax.old) offset) e) }
        ensures from { IfOk result (λ b. offset ≤ b) }
    {
        let (word, end) = self.parse_rest_of_line(alloc, offset)?;
        syntax.action_types.push(word)?;
        Ok(self.parse_ws(end)?)
    }

    /// Reads the text of `%parse-generics`, and the gap behind it.
    fn parse_generics(
        &self,
        alloc: Global,
        syntax: &mut Syntax,
        offset: usize,
    ) -> Result<usize, ReadError>
        requires { IsCharBoundary self.now.text.now offset }
        ensures ok { IfOk result (λ b. Steps self.now.kind self.now.text.now (At (Rest texts.ParseGenerics) (syntax_of syntax.old) offset) (At Declared (syntax_of syntax.new) b)) }
        ensures err { IfErr result (λ e. FailsFrom self.now.kind self.now.text.now (At (Rest texts.ParseGenerics) (syntax_of syntax.old) offset) e) }
        ensures from { IfOk result (λ b. offset ≤ b) }
    {
        let (word, end) = self.parse_rest_of_line(alloc, offset)?;
        syntax.parse_generics = Some(word);
        Ok(self.parse_ws(end)?)
    }

    /// Reads the name and the type of `%parse-param`, and the gap behind them.
    fn parse_param(
        &self,
        alloc: Global,
        syntax: &mut Syntax,
        offset: usize,
    ) -> Result<usize, ReadError>
        requires boundary { IsCharBoundary self.now.text.now offset }
        requires more { 0 < offset }
        ensures ok { IfOk result (λ b. Steps self.now.kind self.now.text.now (At (Rest texts.ParseParam) (syntax_of syntax.old) offset) (At Declared (syntax_of syntax.new) b)) }
        ensures err { IfErr result (λ e. FailsFrom self.now.kind self.now.text.now (At (Rest texts.ParseParam) (syntax_of syntax.old) offset) e) }
        ensures from { IfOk result (λ b. offset ≤ b) }
    {
        let (_rest, end) = self.parse_rest_span(offset)?;
        let param = self.parse_typed_name(alloc, offset, end)?;
        syntax.parse_param = Some(param);
        Ok(self.parse_ws(end)?)
    }

    /// Reads what a declaration wants behind its word, and the gap behind it.
    fn parse_behind_keyword(
        &self,
        alloc: Global,
        syntax: &mut Syntax,
        declaration: Declaration,
        offset: usize,
    ) -> Result<usize, ReadError>
        requires boundary { IsCharBoundary self.now.text.now offset }
        requires more { 0 < offset }
        ensures ok { IfOk result (λ b. Steps self.now.kind self.now.text.now (begins declaration (syntax_of syntax.old) offset) (At Declared (syntax_of syntax.new) b)) }
        ensures err { IfErr result (λ e. FailsFrom self.now.kind self.now.text.now (begins declaration (syntax_of syntax.old) offset) e) }
        ensures from { IfOk result (λ b. offset ≤ b) }
    {
        match declaration {
            Declaration::Token => self.parse_declared_tokens(alloc, syntax, offset),
            Declaration::Start => self.parse_start(alloc, syntax, offset),
            Declaration::Epp => self.parse_epp(alloc, syntax, offset),
            Declaration::Items(list) => self.parse_list(alloc, syntax, list, offset),
            Declaration::Number(count) => self.parse_count(syntax, count, offset),
            Declaration::Rest(LineText::ActionType) => self.parse_action_type(
                alloc, syntax, offset,
            ),
            Declaration::Rest(LineText::ParseGenerics) => self.parse_generics(
                alloc, syntax, offset,
            ),
            Declaration::Rest(LineText::ParseParam) => self.parse_param(alloc, syntax, offset),
        }
    }

    /// Returns whether a `%` with a word is here; else the `%%` does.
    fn begins_declaration(&self, offset: usize) -> Result<bool, ReadError>
        ensures ok { IfOk result (λ b. token_kind_at self.now.text.now offset ≡ percent_or_separator b) }
        ensures fits { IfOk result (λ b. FitsToken self.now.text.now offset (percent_or_separator b)) }
        ensures err { IfErr result (λ e. IsFaultAt (declaration_fault (token_kind_at self.now.text.now offset)) offset e) }
    {
        match self.token_kind_at(offset) {
            TokenKind::Separator => Ok(false),
            TokenKind::Percent => Ok(true),
            TokenKind::End => Err(ReadError::Fault(YaccGrammarErrorKind::PrematureEnd, offset)),
            _ => Err(ReadError::Fault(YaccGrammarErrorKind::UnknownDeclaration, offset)),
        }
    }

    /// Reads the declaration whose `%` is here, and the gap behind it.
    fn parse_declaration(
        &self,
        alloc: Global,
        syntax: &mut Syntax,
        offset: usize,
    ) -> Result<usize, ReadError>
        requires percent { token_kind_at self.now.text.now offset ≡ tokens.Percent }
        requires fits { (offset < length self.now.text.now) × IsCharBoundary self.now.text.now (offset + 1) }
        ensures ok { IfOk result (λ b. Steps self.now.kind self.now.text.now (At Declared (syntax_of syntax.old) offset) (At Declared (syntax_of syntax.new) b)) }
        ensures err { IfErr result (λ e. FailsFrom self.now.kind self.now.text.now (At Declared (syntax_of syntax.old) offset) e) }
        ensures within { IfOk result (λ b. (offset < length self.now.text.now) × (offset < b)) }
    {
        let Some((declaration, after)) = self.parse_keyword(offset) else {
            return Err(ReadError::Fault(YaccGrammarErrorKind::UnknownDeclaration, offset));
        };
        let end = self.parse_behind_keyword(alloc, syntax, declaration, after)?;
        Ok(end)
    }

    /// Reads all declarations and the `%%`.
    pub(crate) fn parse_declarations(
        &self,
        alloc: Global,
        syntax: &mut Syntax,
        offset: usize,
    ) -> Result<usize, ReadError>
        ensures ok { IfOk result (λ b. Steps self.now.kind self.now.text.now (Spaced Declared (syntax_of syntax.old) offset) (Spaced RuleName (syntax_of syntax.new) b)) }
        ensures err { IfErr result (λ e. FailsFrom self.now.kind self.now.text.now (Spaced Declared (syntax_of syntax.old) offset) e) }
    {
        let mut end = self.parse_ws(offset)?;
        'declarations: while self.begins_declaration(end)? {
            end = self.parse_declaration(alloc, syntax, end)?;
        }
        Ok(end + 2)
    }
}
