//! Errors and warnings under the text: made up ones, and those of a grammar's text.

use crate::lines::push_lines;
use crate::spans::{push_unknown, span_of};
use cfg_base::span::{Span, Spanned, SpansKind};
use cfg_read::yacc::ast::GrammarAST;
use cfg_read::yacc::{
    ASTWithValidityInfo, YaccGrammarError, YaccGrammarFailure, YaccGrammarWarning, YaccKind,
};
use lrpar_diagnostics::{DiagnosticFormatter, SpannedDiagnosticFormatter};
use std::alloc::{AllocError, Global};
use std::error::Error;
use std::fmt;
use std::fmt::{Display, Formatter, Write};

/// An error that is made up of its message and its spans.
#[derive(Debug, Drop)]
struct MadeUp<'a> {
    message: &'a str,
    spans: Vec<Span>,
    kind: SpansKind,
}

impl<'a> Display for MadeUp<'a> {
    fn fmt<W: Write>(&self, f: &mut Formatter<W>) -> fmt::Result {
        write!(f, "{}", self.message)
    }
}

impl<'a> Error for MadeUp<'a> {}

impl<'a> Spanned for MadeUp<'a> {
    ghost spans_of = { λ e. e.spans.items };

    ghost spanskind_of = { λ e. e.kind };

    fn spans(&self) -> &[Span] {
        self.spans.as_slice()
    }

    fn spanskind(&self) -> SpansKind {
        self.kind
    }
}

/// The spans of a word such as `7-10,13-16`; none of one that tells none.
fn spans_of(alloc: Global, word: &str) -> Result<Vec<Span>, AllocError> {
    let mut spans = Vec::new(alloc);
    for part in word.split(',') {
        if let Some(span) = span_of(part) {
            spans.push(span)?;
        }
    }
    Ok(spans)
}

/// The text of an error, and that of it as a warning where it is another.
fn push_both<E: Spanned + Error>(
    alloc: Global,
    out: &mut String,
    formatter: &SpannedDiagnosticFormatter,
    error: &E,
) -> Result<(), AllocError> {
    let text = formatter.format_error(alloc, error)?;
    push_lines(out, text.as_str())?;
    if formatter.format_warning(alloc, error)? != text {
        out.push_str("another warning\n")?;
    }
    Ok(())
}

/// The text of an error of this kind, with the spans and the message that words tell.
pub fn push_made_up(
    alloc: Global,
    out: &mut String,
    formatter: &SpannedDiagnosticFormatter,
    kind: SpansKind,
    words: &str,
) -> Result<(), AllocError> {
    let Some((spans, message)) = words.split_once(' ') else {
        return push_unknown(out);
    };
    let spans = spans_of(alloc, spans)?;
    let error = MadeUp {
        message,
        spans,
        kind,
    };
    let pushed = push_both(alloc, out, formatter, &error);
    drop(error);
    pushed
}

fn push_errors(
    alloc: Global,
    out: &mut String,
    formatter: &SpannedDiagnosticFormatter,
    errors: &[YaccGrammarError],
) -> Result<(), AllocError> {
    for error in errors {
        push_both(alloc, out, formatter, error)?;
    }
    Ok(())
}

fn push_each_warning(
    alloc: Global,
    out: &mut String,
    formatter: &SpannedDiagnosticFormatter,
    warnings: &[YaccGrammarWarning],
) -> Result<(), AllocError> {
    for warning in warnings {
        push_lines(out, formatter.format_warning(alloc, warning)?.as_str())?;
    }
    Ok(())
}

fn push_warnings(
    alloc: Global,
    out: &mut String,
    formatter: &SpannedDiagnosticFormatter,
    ast: &GrammarAST,
) -> Result<(), AllocError> {
    let warnings = ast.warnings(alloc)?;
    let pushed = push_each_warning(alloc, out, formatter, warnings.as_slice());
    drop(warnings);
    pushed
}

/// The errors of a text, and then its warnings.
fn push_checked(
    alloc: Global,
    out: &mut String,
    formatter: &SpannedDiagnosticFormatter,
    checked: &ASTWithValidityInfo,
) -> Result<(), AllocError> {
    push_errors(alloc, out, formatter, checked.errors())?;
    push_warnings(alloc, out, formatter, checked.ast())
}

/// The errors of a text of a kind, and then its warnings.
fn push_by_kind(
    alloc: Global,
    out: &mut String,
    formatter: &SpannedDiagnosticFormatter,
    kind: YaccKind,
    text: &str,
) -> Result<(), AllocError> {
    let checked = ASTWithValidityInfo::new(alloc, kind, text)?;
    let pushed = push_checked(alloc, out, formatter, &checked);
    drop(checked);
    pushed
}

fn push_failure(
    alloc: Global,
    out: &mut String,
    formatter: &SpannedDiagnosticFormatter,
    failure: &YaccGrammarFailure,
) -> Result<(), AllocError> {
    match failure {
        YaccGrammarFailure::Memory(e) => Err(*e),
        YaccGrammarFailure::Invalid(errors) => {
            push_errors(alloc, out, formatter, errors.as_slice())
        }
    }
}

/// The errors of a text that has no kind.
fn push_by_section(
    alloc: Global,
    out: &mut String,
    formatter: &SpannedDiagnosticFormatter,
    text: &str,
) -> Result<(), AllocError> {
    match ASTWithValidityInfo::from_str(alloc, text) {
        Ok(checked) => {
            drop(checked);
            push_unknown(out)
        }
        Err(failure) => {
            let pushed = push_failure(alloc, out, formatter, &failure);
            drop(failure);
            pushed
        }
    }
}

pub fn push_of_text(
    alloc: Global,
    out: &mut String,
    formatter: &SpannedDiagnosticFormatter,
    kind: Option<YaccKind>,
    text: &str,
) -> Result<(), AllocError> {
    match kind {
        Some(kind) => push_by_kind(alloc, out, formatter, kind, text),
        None => push_by_section(alloc, out, formatter, text),
    }
}
