//! What `cfg_read` answers to a text.

use crate::header::push_section;
use crate::tree::{push_differences, push_tree};
use cfg_base::span::Spanned;
use cfg_read::yacc::ast::GrammarAST;
use cfg_read::yacc::{
    ASTModificationError, ASTWithValidityInfo, YaccGrammarFailure, YaccGrammarWarning, YaccKind,
};
use row_files::{Part, kind_of, parts, push_errors, push_spans};
use std::alloc::{AllocError, Global};

/// A warning as its kind, its spans and its text.
fn push_warning(
    alloc: Global,
    out: &mut String,
    warning: &YaccGrammarWarning,
) -> Result<(), AllocError> {
    let kind = warning.kind;
    out.push_str(format!(in alloc; "warning {kind:?}")?.as_str())?;
    push_spans(alloc, out, warning.spans())?;
    out.push_str(format!(in alloc; ": {warning}\n")?.as_str())
}

fn push_each_warning(
    alloc: Global,
    out: &mut String,
    warnings: &[YaccGrammarWarning],
) -> Result<(), AllocError> {
    for warning in warnings {
        push_warning(alloc, out, warning)?;
    }
    Ok(())
}

fn push_warnings(alloc: Global, out: &mut String, ast: &GrammarAST) -> Result<(), AllocError> {
    let warnings = ast.warnings(alloc)?;
    let pushed = push_each_warning(alloc, out, warnings.as_slice());
    drop(warnings);
    pushed
}

/// Whether the text is valid, its errors, its tree and its warnings.
fn push_checked(
    alloc: Global,
    out: &mut String,
    checked: &ASTWithValidityInfo,
) -> Result<(), AllocError> {
    out.push_str(if checked.is_valid() {
        "valid\n"
    } else {
        "invalid\n"
    })?;
    push_errors(alloc, out, checked.errors())?;
    push_tree(alloc, out, checked.ast())?;
    push_differences(alloc, out, checked.ast())?;
    push_warnings(alloc, out, checked.ast())
}

/// The answer to a text with another start rule.
fn push_changed(
    alloc: Global,
    out: &mut String,
    checked: &ASTWithValidityInfo,
    start: &str,
) -> Result<(), AllocError> {
    match checked.clone_and_change_start_rule(alloc, start) {
        Ok(changed) => {
            let pushed = push_checked(alloc, out, &changed);
            drop(changed);
            pushed
        }
        Err(ASTModificationError::Memory(e)) => Err(e),
        Err(e) => out.push_str(format!(in alloc; "{e:?}: {e}\n")?.as_str()),
    }
}

fn push_kept(
    alloc: Global,
    out: &mut String,
    checked: &ASTWithValidityInfo,
    start: Option<&str>,
) -> Result<(), AllocError> {
    match start {
        Some(name) => push_changed(alloc, out, checked, name),
        None => push_checked(alloc, out, checked),
    }
}

/// The answer to a text of a kind, behind a line where the text is kept as one of another.
fn push_of_kind(
    alloc: Global,
    out: &mut String,
    checked: &ASTWithValidityInfo,
    kind: YaccKind,
    start: Option<&str>,
) -> Result<(), AllocError> {
    if checked.yacc_kind() != kind {
        out.push_str("of another kind\n")?;
    }
    push_kept(alloc, out, checked, start)
}

fn push_by_kind(
    alloc: Global,
    out: &mut String,
    kind: YaccKind,
    text: &str,
    start: Option<&str>,
) -> Result<(), AllocError> {
    let checked = ASTWithValidityInfo::new(alloc, kind, text)?;
    let pushed = push_of_kind(alloc, out, &checked, kind, start);
    drop(checked);
    pushed
}

fn push_failure(
    alloc: Global,
    out: &mut String,
    failure: &YaccGrammarFailure,
) -> Result<(), AllocError> {
    match failure {
        YaccGrammarFailure::Memory(e) => Err(*e),
        YaccGrammarFailure::Invalid(errors) => {
            out.push_str("no kind\n")?;
            push_errors(alloc, out, errors.as_slice())
        }
    }
}

fn push_kind_and_kept(
    alloc: Global,
    out: &mut String,
    checked: &ASTWithValidityInfo,
    start: Option<&str>,
) -> Result<(), AllocError> {
    let kind = checked.yacc_kind();
    out.push_str(format!(in alloc; "kind {kind:?}\n")?.as_str())?;
    push_kept(alloc, out, checked, start)
}

/// The answer to a text whose section tells its kind.
fn push_by_section(
    alloc: Global,
    out: &mut String,
    text: &str,
    start: Option<&str>,
) -> Result<(), AllocError> {
    match ASTWithValidityInfo::from_str(alloc, text) {
        Ok(checked) => {
            let pushed = push_kind_and_kept(alloc, out, &checked, start);
            drop(checked);
            pushed
        }
        Err(failure) => {
            let pushed = push_failure(alloc, out, &failure);
            drop(failure);
            pushed
        }
    }
}

/// Adds the answer to a text, with another start rule where one is named; or what its section says.
fn push_answer(
    alloc: Global,
    out: &mut String,
    heading: &str,
    text: &str,
    start: Option<&str>,
) -> Result<(), AllocError> {
    match (kind_of(heading), heading) {
        (Some(kind), _) => push_by_kind(alloc, out, kind, text, start),
        (None, "header") => push_section(alloc, out, text, false),
        (None, "header required") => push_section(alloc, out, text, true),
        (None, _) => push_by_section(alloc, out, text, start),
    }
}

fn push_part(alloc: Global, out: &mut String, part: &Part) -> Result<(), AllocError> {
    match part {
        Part::Line(line) => {
            out.push_str(line)?;
            out.push('\n')
        }
        Part::Text(heading, text, start) => push_answer(alloc, out, heading, text.as_str(), *start),
    }
}

fn push_parts(alloc: Global, out: &mut String, parts: &[Part]) -> Result<(), AllocError> {
    for part in parts {
        push_part(alloc, out, part)?;
    }
    Ok(())
}

/// The file with the right answers.
pub fn answer_file(alloc: Global, file: &str) -> Result<String, AllocError> {
    let mut out = String::new(alloc);
    let parts = parts(alloc, file)?;
    let pushed = push_parts(alloc, &mut out, parts.as_slice());
    drop(parts);
    pushed?;
    Ok(out)
}
