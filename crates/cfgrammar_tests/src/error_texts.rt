//! What errors print, each seen as a `std::error::Error`.

use crate::same::same;
use cfg_base::span::{Span, Spanned};
use cfg_read::yacc::parser::error::ReadError;
use cfg_read::yacc::parser::{
    SpansKind, YaccGrammarError, YaccGrammarErrorKind, YaccGrammarWarning, YaccGrammarWarningKind,
    read_syntax,
};
use cfg_read::yacc::{
    ASTModificationError, KindError, YaccGrammarFailure, YaccKind, YaccOriginalActionKind,
};
use cfg_sections::header::Value;
use std::alloc::{AllocError, Global};
use std::error::Error;
use std::test::*;

const TREE: YaccKind = YaccKind::Original(YaccOriginalActionKind::GenericParseTree);

/// Returns what an error prints, and drops it.
fn text_of<E: Error + Drop>(alloc: Global, error: E) -> Result<String, AllocError> {
    let text = format!(in alloc; "{error}");
    drop(error);
    text
}

#[test]
fn want_of_memory(rt: HostRuntime) -> Result<(), Fail> {
    let alloc = rt.alloc();
    let reading = text_of(alloc, ReadError::Memory(AllocError))?;
    same(&rt, "reading", reading.as_str(), "Memory");
    let failure = text_of(alloc, YaccGrammarFailure::Memory(AllocError))?;
    same(&rt, "failure", failure.as_str(), "Memory");
    let kind = text_of(alloc, KindError::<Span>::Memory(AllocError))?;
    same(&rt, "kind", kind.as_str(), "Memory");
    let change = text_of(alloc, ASTModificationError::Memory(AllocError))?;
    same(&rt, "change", change.as_str(), "Memory");
    Ok(())
}

/// Returns what the fault of a text prints.
fn fault_in(alloc: Global, text: &str) -> Result<String, AllocError> {
    match read_syntax(alloc, TREE, text, 0) {
        Ok(syntax) => {
            drop(syntax);
            Ok(String::new(alloc))
        }
        Err(ReadError::Memory(e)) => Err(e),
        Err(e) => text_of(alloc, e),
    }
}

/// Returns what an error prints from which a value has no kind.
fn refused_value(alloc: Global) -> Result<String, AllocError> {
    let value = Value::Flag(true, Span::new(10, 18));
    let kind = YaccKind::try_from_value(alloc, &value);
    drop(value);
    match kind {
        Ok(_kind) => Ok(String::new(alloc)),
        Err(KindError::Memory(e)) => Err(e),
        Err(e) => text_of(alloc, e),
    }
}

#[test]
fn faults(rt: HostRuntime) -> Result<(), Fail> {
    let alloc = rt.alloc();
    let found = fault_in(alloc, "%% S: 'a' %prec ;")?;
    same(
        &rt,
        "text",
        found.as_str(),
        "%prec not followed by token name",
    );
    let found = refused_value(alloc)?;
    same(&rt, "value", found.as_str(), "Invalid");
    let found = text_of(alloc, YaccGrammarFailure::Invalid(Vec::new(alloc)))?;
    same(&rt, "failure", found.as_str(), "Invalid");
    Ok(())
}

// The kinds of faults that no text has: what others print is in rows of `read_rows`.
#[test]
fn kinds_without_texts(rt: HostRuntime) -> Result<(), Fail> {
    let kinds = [
        (YaccGrammarErrorKind::MismatchedBrace, "MismatchedBrace"),
        (
            YaccGrammarErrorKind::ProgramsNotSupported,
            "ProgramsNotSupported",
        ),
        (YaccGrammarErrorKind::ExpectedInput, "ExpectedInput"),
    ];
    for (kind, wanted) in kinds {
        let found = kind_shown(rt.alloc(), kind)?;
        same(&rt, "kind", found.as_str(), wanted);
    }
    Ok(())
}

fn kind_shown(alloc: Global, kind: YaccGrammarErrorKind) -> Result<String, AllocError> {
    let text = format!(in alloc; "{kind}");
    drop(kind);
    text
}

fn unknown_token(alloc: Global) -> Result<YaccGrammarError, AllocError> {
    let name = String::from_str(alloc, "x")?;
    let spans = vec![in alloc; Span::new(3, 4)]?;
    let kind = YaccGrammarErrorKind::UnknownToken(name);
    Ok(YaccGrammarError { kind, spans })
}

/// Errors, warnings and what their spans are have names in the module of the parser too.
#[test]
fn names_in_the_parser(rt: HostRuntime) -> Result<(), Fail> {
    let alloc = rt.alloc();
    let error = unknown_token(alloc)?;
    let of_spans = error.spanskind();
    let found = text_of(alloc, error)?;
    same(&rt, "error", found.as_str(), "Unknown token 'x'");
    same(&rt, "spans", of_spans, SpansKind::Error);
    let kind = YaccGrammarWarningKind::UnusedToken;
    let spans = vec![in alloc; Span::new(3, 4)]?;
    let found = warning_shown(alloc, YaccGrammarWarning { kind, spans })?;
    same(&rt, "warning", found.as_str(), "Unused token");
    Ok(())
}

fn warning_shown(alloc: Global, warning: YaccGrammarWarning) -> Result<String, AllocError> {
    let text = format!(in alloc; "{warning}");
    drop(warning);
    text
}
