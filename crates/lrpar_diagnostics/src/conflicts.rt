//! Conflicts with the names and the productions that they are of underlined.

ghost use Rattle.std.specs.Prelude.{◌≡◌, ◌<◌, ◌++◌, ℕ, length, codes, map, Some, IfOk, OnOk};
ghost use Rattle.std.specs.List.{flat_map};
ghost use Rattle.std.specs.String.{string_bytes};
ghost use Rattle.state_table.specs.CellViews.{pair_of, pairs_of, shift_of, shifts_of};
ghost use Rattle.state_table.specs.ConflictTexts.{ConflictsInRange, PairsInRange, ShiftsInRange};
ghost use Rattle.lrpar_diagnostics.specs.Places.{located_text};
ghost use Rattle.lrpar_diagnostics.specs.ConflictTexts.{told, told_if, reduced_text, rule_span, shift_message, shift_parts, shift_text, token_span, pair_message, pair_parts, pair_text, conflicts_text, IsSpanOfToken};

use crate::conflict_names::{
    production_spans, rule_name, rule_span, shown_token, span_of_token, token_span,
};
use crate::diagnostics::SpannedDiagnosticFormatter;
use crate::marks::Underline;
use cfg_base::index::IndexStorage;
use cfg_base::span::Span;
use cfg_base::symbol::{PIdx, TIdx};
use cfg_numbered::yacc::NumberedGrammar;
use cfg_read::yacc::ast::GrammarAST;
use state_table::conflicts::Conflicts;
use state_table::stategraph::StateGraph;
use state_table::statetable::StateTable;
use state_table::stidx::StIdx;
use std::alloc::{AllocError, Global};

/// A grammar that was read from the source.
#[derive(Drop)]
struct ReadGrammar<'g, S: IndexStorage> {
    grm: &'g NumberedGrammar<S>,
    ast: &'g GrammarAST,
    /// Where the end token is shown.
    dollar: &'g Option<Span>,
}

fn shift_message<S: IndexStorage>(
    alloc: Global,
    grm: &NumberedGrammar<S>,
    tidx: TIdx<S>,
    pidx: PIdx<S>,
) -> Result<String, AllocError>
    requires { S.number pidx.0 < length grm.now.grammar.productions }
    ensures { IfOk result (λ text. string_bytes text ≡ shift_message grm.now (S.number tidx.0) (S.number pidx.0)) }
{
    let mut text = String::from_str(alloc, "Shift/Reduce conflict, can shift '")?;
    text.push_str(shown_token(grm, tidx))?;
    text.push_str("' or reduce '")?;
    text.push_str(rule_name(grm, pidx))?;
    text.push_str("'")?;
    Ok(text)
}

fn pair_message<S: IndexStorage>(
    alloc: Global,
    grm: &NumberedGrammar<S>,
    tidx: TIdx<S>,
    first: PIdx<S>,
    second: PIdx<S>,
) -> Result<String, AllocError>
    requires first { S.number first.0 < length grm.now.grammar.productions }
    requires second { S.number second.0 < length grm.now.grammar.productions }
    ensures { IfOk result (λ text. string_bytes text ≡ pair_message grm.now (S.number tidx.0) (S.number first.0) (S.number second.0)) }
{
    let mut text = String::from_str(alloc, "Reduce/Reduce conflict, can reduce '")?;
    text.push_str(rule_name(grm, first))?;
    text.push_str("' or '")?;
    text.push_str(rule_name(grm, second))?;
    text.push_str("' with lookahead '")?;
    text.push_str(shown_token(grm, tidx))?;
    text.push_str("'")?;
    Ok(text)
}

impl<'a> SpannedDiagnosticFormatter<'a> {
    /// Puts a message with its place, and an LF.
    fn push_located(
        &self,
        alloc: Global,
        text: &mut String,
        message: &str,
        span: Span,
    ) -> Result<(), AllocError>
        ensures { OnOk result (string_bytes text.new ≡ string_bytes text.old ++ (located_text self.now message.now (Some span) ++ codes "\n")) }
    {
        let located = self.file_location_msg(alloc, message, Some(span))?;
        text.push_str(located.as_str())?;
        text.push_str("\n")?;
        Ok(())
    }

    /// Puts a span underlined, with its message.
    fn push_told(
        &self,
        alloc: Global,
        text: &mut String,
        span: Span,
        message: &str,
    ) -> Result<(), AllocError>
        ensures { OnOk result (string_bytes text.new ≡ string_bytes text.old ++ told self.now.text span message.now) }
    {
        let underline = Underline {
            prefix: "",
            span,
            mark: '^',
        };
        self.push_underlined(alloc, text, &underline, message)?;
        text.push_str("\n")?;
        Ok(())
    }

    /// Does so where there is a span.
    fn push_told_if(
        &self,
        alloc: Global,
        text: &mut String,
        span: Option<Span>,
        message: &str,
    ) -> Result<(), AllocError>
        ensures { OnOk result (string_bytes text.new ≡ string_bytes text.old ++ told_if self.now.text span message.now) }
    {
        match span {
            Some(span) => self.push_told(alloc, text, span, message),
            None => Ok(()),
        }
    }

    /// Puts the symbols of the production that is reduced by, and an empty line.
    fn push_reduced(
        &self,
        alloc: Global,
        text: &mut String,
        ast: &GrammarAST,
        number: usize,
    ) -> Result<(), AllocError>
        ensures { OnOk result (string_bytes text.new ≡ string_bytes text.old ++ reduced_text self.now.text ast.now number) }
    {
        let spans = production_spans(alloc, ast, number)?;
        self.push_marked_lines(alloc, text, spans.as_slice())?;
        text.push_str(" Reduced productions\n\n")?;
        Ok(())
    }

    /// Puts a shift against a reduction: its message, its rule, its token and its production.
    fn push_shift_parts<S: IndexStorage>(
        &self,
        alloc: Global,
        text: &mut String,
        message: &str,
        read: &ReadGrammar<'_, S>,
        entry: (TIdx<S>, PIdx<S>, StIdx<S>),
    ) -> Result<(), AllocError>
        requires { S.number entry.1.0 < length read.now.grm.now.grammar.productions }
        ensures { OnOk result (string_bytes text.new ≡ string_bytes text.old ++ shift_parts self.now message.now (rule_span read.now.grm.now (S.number entry.1.0)) (token_span read.now.grm.now read.now.dollar.now (S.number entry.0.0)) read.now.ast.now (S.number entry.1.0)) }
    {
        let (tidx, pidx, _) = entry;
        let rule = rule_span(read.grm, pidx);
        let token = token_span(read.grm, read.dollar, tidx);
        self.push_located(alloc, text, message, rule)?;
        self.push_told_if(alloc, text, token, "Shift")?;
        self.push_told(alloc, text, rule, "Reduced rule")?;
        self.push_reduced(alloc, text, read.ast, pidx.0.to_usize())?;
        Ok(())
    }

    /// Puts a pair of reductions: its message, its rules and its token.
    fn push_pair_parts(
        &self,
        alloc: Global,
        text: &mut String,
        message: &str,
        rules: (Span, Span),
        token: Option<Span>,
    ) -> Result<(), AllocError>
        ensures { OnOk result (string_bytes text.new ≡ string_bytes text.old ++ pair_parts self.now message.now rules.0 rules.1 token) }
    {
        let (rule, other) = rules;
        self.push_located(alloc, text, message, rule)?;
        self.push_told(alloc, text, rule, "First reduce")?;
        self.push_told(alloc, text, other, "Second reduce")?;
        self.push_told_if(alloc, text, token, "Lookahead")?;
        text.push_str("\n")?;
        Ok(())
    }

    /// Puts a shift against a reduction.
    fn push_shift<S: IndexStorage>(
        &self,
        alloc: Global,
        text: &mut String,
        read: &ReadGrammar<'_, S>,
        entry: (TIdx<S>, PIdx<S>, StIdx<S>),
    ) -> Result<(), AllocError>
        requires { S.number entry.1.0 < length read.now.grm.now.grammar.productions }
        ensures { OnOk result (string_bytes text.new ≡ string_bytes text.old ++ shift_text self.now read.now.grm.now read.now.ast.now read.now.dollar.now (shift_of S.number entry)) }
    {
        let message = shift_message(alloc, read.grm, entry.0, entry.1)?;
        self.push_shift_parts(alloc, text, message.as_str(), read, entry)?;
        Ok(())
    }

    /// Puts a pair of reductions.
    fn push_pair<S: IndexStorage>(
        &self,
        alloc: Global,
        text: &mut String,
        grm: &NumberedGrammar<S>,
        dollar: &Option<Span>,
        entry: (TIdx<S>, PIdx<S>, PIdx<S>, StIdx<S>),
    ) -> Result<(), AllocError>
        requires first { S.number entry.1.0 < length grm.now.grammar.productions }
        requires second { S.number entry.2.0 < length grm.now.grammar.productions }
        ensures { OnOk result (string_bytes text.new ≡ string_bytes text.old ++ pair_text self.now grm.now dollar.now (pair_of S.number entry)) }
    {
        let (tidx, first, second, _) = entry;
        let message = pair_message(alloc, grm, tidx, first, second)?;
        let rule = rule_span(grm, first);
        let other = rule_span(grm, second);
        let token = token_span(grm, dollar, tidx);
        self.push_pair_parts(alloc, text, message.as_str(), (rule, other), token)?;
        Ok(())
    }

    /// Puts shifts against reductions.
    fn push_shifts<S: IndexStorage>(
        &self,
        alloc: Global,
        text: &mut String,
        read: &ReadGrammar<'_, S>,
        entries: &[(TIdx<S>, PIdx<S>, StIdx<S>)],
    ) -> Result<(), AllocError>
        requires { ShiftsInRange read.now.grm.now (shifts_of S.number entries.now) }
        ensures { OnOk result (string_bytes text.new ≡ string_bytes text.old ++ flat_map (shift_text self.now read.now.grm.now read.now.ast.now read.now.dollar.now) (shifts_of S.number entries.now)) }
    {
        'entries: for i in 0..entries.len() {
            self.push_shift(alloc, text, read, entries[i])?;
        }
        Ok(())
    }

    /// Puts pairs of reductions.
    fn push_pairs<S: IndexStorage>(
        &self,
        alloc: Global,
        text: &mut String,
        grm: &NumberedGrammar<S>,
        dollar: &Option<Span>,
        entries: &[(TIdx<S>, PIdx<S>, PIdx<S>, StIdx<S>)],
    ) -> Result<(), AllocError>
        requires { PairsInRange grm.now (pairs_of S.number entries.now) }
        ensures { OnOk result (string_bytes text.new ≡ string_bytes text.old ++ flat_map (pair_text self.now grm.now dollar.now) (pairs_of S.number entries.now)) }
    {
        'entries: for i in 0..entries.len() {
            self.push_pair(alloc, text, grm, dollar, entries[i])?;
        }
        Ok(())
    }

    /// Returns the text of the conflicts of a grammar that was read from this source, those among reductions
    /// first. Each is shown at the name of the rule that is reduced to, with the rules, the token and the
    /// production underlined. The end token is shown as `$`, at a token of that name. The states aren't looked
    /// at.
    pub fn format_conflicts<S: IndexStorage>(
        &self,
        alloc: Global,
        grm: &NumberedGrammar<S>,
        ast: &GrammarAST,
        c: &Conflicts<S>,
        _sgraph: &StateGraph<S>,
        _stable: &StateTable<S>,
    ) -> Result<String, AllocError>
        requires { ConflictsInRange grm.now c.now }
        ensures { IfOk result (λ text. (dollar : _) × IsSpanOfToken grm.now (codes "$") dollar × (string_bytes text ≡ conflicts_text self.now grm.now ast.now dollar c.now)) }
    {
        let dollar = span_of_token(grm, "$");
        let mut text = String::new(alloc);
        self.push_pairs(alloc, &mut text, grm, &dollar, c.rr_conflicts().as_slice())?;
        let read = ReadGrammar {
            grm,
            ast,
            dollar: &dollar,
        };
        self.push_shifts(alloc, &mut text, &read, c.sr_conflicts().as_slice())?;
        Ok(text)
    }

    /// Returns the text of a listed shift against a reduction alone, as `format_conflicts` shows it.
    pub fn format_shift_reduce<S: IndexStorage>(
        &self,
        alloc: Global,
        grm: &NumberedGrammar<S>,
        ast: &GrammarAST,
        entry: &(TIdx<S>, PIdx<S>, StIdx<S>),
    ) -> Result<String, AllocError>
        requires { S.number entry.now.1.0 < length grm.now.grammar.productions }
        ensures { IfOk result (λ text. (dollar : _) × IsSpanOfToken grm.now (codes "$") dollar × (string_bytes text ≡ shift_text self.now grm.now ast.now dollar (shift_of S.number entry.now))) }
    {
        let dollar = span_of_token(grm, "$");
        let mut text = String::new(alloc);
        let read = ReadGrammar {
            grm,
            ast,
            dollar: &dollar,
        };
        self.push_shift(alloc, &mut text, &read, *entry)?;
        Ok(text)
    }

    /// Returns the text of a listed pair of reductions alone, as `format_conflicts` shows it.
    pub fn format_reduce_reduce<S: IndexStorage>(
        &self,
        alloc: Global,
        grm: &NumberedGrammar<S>,
        entry: &(TIdx<S>, PIdx<S>, PIdx<S>, StIdx<S>),
    ) -> Result<String, AllocError>
        requires first { S.number entry.now.1.0 < length grm.now.grammar.productions }
        requires second { S.number entry.now.2.0 < length grm.now.grammar.productions }
        ensures { IfOk result (λ text. (dollar : _) × IsSpanOfToken grm.now (codes "$") dollar × (string_bytes text ≡ pair_text self.now grm.now dollar (pair_of S.number entry.now))) }
    {
        let dollar = span_of_token(grm, "$");
        let mut text = String::new(alloc);
        self.push_pair(alloc, &mut text, grm, &dollar, *entry)?;
        Ok(text)
    }
}
