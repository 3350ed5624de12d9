//! What is wrong with a text that reads.

ghost use Rattle.std.specs.Prelude.{◌≡◌, ◌++◌, ◌∷◌, [], List, OnOk, IfOk};
ghost use Rattle.cfg_read.specs.SyntaxTexts.{RuleText};
ghost use Rattle.cfg_read.specs.SyntaxModels.{words_of, syntax_of};
ghost use Rattle.cfg_read.specs.Settling.{AreUsesOf, uses_of};
ghost use Rattle.cfg_read.specs.Judging.{with_rules, has_items};
ghost use Rattle.cfg_read.specs.LinesByName.{AreLinesOf};
ghost use Rattle.cfg_read.specs.ErrorModels.{failures_in, kind_of};
ghost use Rattle.cfg_read.specs.Validity.{failure_at, failures, no_start_rule, unknown_precs};

use crate::yacc::ast::parts::Lines;
use crate::yacc::ast::settle::Uses;
use crate::yacc::parser::error::YaccGrammarErrorKind;
use crate::yacc::parser::syntax::{Syntax, Word};
use cfg_base::span::{Span, Spanned, SpansKind};
use cfg_sections::header::HeaderError;
use std::alloc::{AllocError, Global};
use std::error::Error;
use std::fmt;
use std::fmt::{Display, Formatter, Write};

mod repeated;
pub(crate) mod unknown;

/// What is wrong with a grammar text, and the spans that show it.
#[derive(Debug, Drop)]
pub struct YaccGrammarError {
    /// What is wrong at the spans.
    pub kind: YaccGrammarErrorKind,
    /// The byte spans of all occurrences of what may occur once, in order; else one span.
    pub spans: Vec<Span>,
}

impl Display for YaccGrammarError {
    ghost use Rattle.std.specs.Prelude.{Some};
    ghost use Rattle.cfg_read.specs.ErrorModels.{failure_of};
    ghost use Rattle.cfg_read.specs.ErrorTexts.{failure_text};

    ghost output = { λ e. Some (failure_text (failure_of e).kind) };

    fn fmt<W: Write>(&self, f: &mut Formatter<W>) -> fmt::Result {
        let kind = &self.kind;
        write!(f, "{kind}")
    }
}

impl Error for YaccGrammarError {}

impl Spanned for YaccGrammarError {
    ghost use Rattle.cfg_read.specs.ErrorModels.{spans_kind};

    ghost spans_of = { λ e. e.spans.items };

    ghost spanskind_of = { λ e. spans_kind e.kind };

    fn spans(&self) -> &[Span] {
        self.spans.as_slice()
    }

    fn spanskind(&self) -> SpansKind {
        match self.kind {
            YaccGrammarErrorKind::DuplicatePrecedence
            | YaccGrammarErrorKind::DuplicateEPP
            | YaccGrammarErrorKind::DuplicateAvoidInsertDeclaration
            | YaccGrammarErrorKind::DuplicateImplicitTokensDeclaration
            | YaccGrammarErrorKind::DuplicateStartDeclaration
            | YaccGrammarErrorKind::DuplicateExpectDeclaration
            | YaccGrammarErrorKind::DuplicateExpectRRDeclaration
            | YaccGrammarErrorKind::DuplicateActiontypeDeclaration => SpansKind::DuplicationError,
            YaccGrammarErrorKind::Header(_, spans) => spans,
            _ => SpansKind::Error,
        }
    }
}

impl Clone for YaccGrammarError {
    ghost use Rattle.std.specs.Prelude.{◌≡◌};
    ghost use Rattle.cfg_read.specs.ErrorModels.{failure_of};

    ghost is_clone = { λ e copy. failure_of copy ≡ failure_of e };

    fn clone(&self) -> Result<YaccGrammarError, AllocError> {
        let spans = self.spans.clone()?;
        let kind = self.kind.clone()?;
        Ok(YaccGrammarError { kind, spans })
    }
}

impl From<HeaderError<Span>> for YaccGrammarError {
    ghost use Rattle.std.specs.Prelude.{◌≡◌};
    ghost use Rattle.cfg_sections.specs.SectionResults.{error_text};
    ghost use Rattle.cfg_read.specs.Validity.{header_failure};
    ghost use Rattle.cfg_read.specs.ErrorModels.{failure_of};

    ghost from_gives = { λ e error. failure_of error ≡ header_failure (error_text e) };

    /// Takes an error of the section, with the same spans.
    fn from(e: HeaderError<Span>) -> YaccGrammarError {
        let kind = YaccGrammarErrorKind::Header(e.kind, e.spanskind());
        let spans = e.locations;
        YaccGrammarError { kind, spans }
    }
}

/// Copies a list of errors.
pub fn copy_errors(
    alloc: Global,
    errors: &[YaccGrammarError],
) -> Result<Vec<YaccGrammarError>, AllocError>
    ensures { IfOk result (λ es. failures_in es.items ≡ failures_in errors.now) }
{
    let mut copies = Vec::new(alloc);
    'errors: for error in errors {
        copies.push(error.clone()?)?;
    }
    Ok(copies)
}

/// Puts a failure of this kind, with this span, behind the others.
fn push_failure(
    alloc: Global,
    errors: &mut Vec<YaccGrammarError>,
    kind: YaccGrammarErrorKind,
    span: Span,
) -> Result<(), AllocError>
    ensures { OnOk result (failures_in errors.new.items ≡ failures_in errors.old.items ++ failure_at (kind_of kind) span ∷ []) }
{
    match vec![in alloc; span] {
        Ok(spans) => {
            errors.push(YaccGrammarError { kind, spans })?;
            Ok(())
        }
        Err(e) => {
            drop(kind);
            Err(e.into())
        }
    }
}

/// Puts the failure of a text without `%start` and rules behind the others.
fn push_no_start(
    alloc: Global,
    errors: &mut Vec<YaccGrammarError>,
    starts: &[Word],
    has_rules: bool,
) -> Result<(), AllocError>
    ensures { (rules : List RuleText) → has_rules ≡ has_items rules → OnOk result (failures_in errors.new.items
        ≡ failures_in errors.old.items ++ no_start_rule (words_of starts.now) rules) }
{
    if starts.is_empty() && !has_rules {
        push_failure(
            alloc,
            errors,
            YaccGrammarErrorKind::NoStartRule,
            Span::new(0, 0),
        )?;
    }
    Ok(())
}

/// Lists all that is wrong with a text that reads, but for its rules, which were taken over.
pub(crate) fn failures_by(
    alloc: Global,
    x: &Syntax,
    uses: &Uses,
    lines: &Lines,
    has_rules: bool,
    precs: Vec<YaccGrammarError>,
) -> Result<Vec<YaccGrammarError>, AllocError>
    requires { AreLinesOf (syntax_of x.now) lines.now }
    ensures { (rules : List RuleText) → has_rules ≡ has_items rules → AreUsesOf (with_rules (syntax_of x.now) rules) (uses_of uses.now)
        → failures_in precs.items ≡ unknown_precs (with_rules (syntax_of x.now) rules)
        → IfOk result (λ errors. failures_in errors.items ≡ failures (with_rules (syntax_of x.now) rules)) }
{
    let mut errors = Vec::new(alloc);
    push_no_start(alloc, &mut errors, &x.starts, has_rules)?;
    unknown::push_unknown_names(alloc, &mut errors, x, uses, precs)?;
    repeated::push_repeated_words(alloc, &mut errors, x, lines)?;
    repeated::push_repeated_declarations(alloc, &mut errors, x)?;
    Ok(errors)
}
