//! Names that lead to numbers, and kept texts.

ghost use Rattle.std.specs.Prelude.{◌<◌, length};

use crate::make::{has_prod, has_rule, has_token};
use crate::numbers::push_number;
use cfgrammar::index::IndexStorage;
use cfgrammar::yacc::YaccGrammar;
use cfgrammar::{PIdx, RIdx, TIdx};
use row_files::{push_quoted, push_span};
use std::alloc::{AllocError, Global};

fn push_text(out: &mut String, label: &str, text: Option<&String>) -> Result<(), AllocError> {
    if let Some(text) = text {
        out.push_str(label)?;
        push_quoted(out, text.as_str())?;
        out.push('\n')?;
    }
    Ok(())
}

/// The rule that the rule's name leads to, its type, and the token of the same name.
fn push_rule<S: IndexStorage>(
    alloc: Global,
    out: &mut String,
    grm: &YaccGrammar<S>,
    ridx: RIdx<S>,
) -> Result<(), AllocError>
    requires { S.number ridx.0 < grm.now.grammar.rules }
{
    let name = grm.rule_name(ridx);
    out.push_str(name)?;
    match grm.rule_idx(name) {
        Some(found) => push_number(alloc, out, " r", usize::from(found))?,
        None => out.push_str(" no rule")?,
    }
    if let Some(tidx) = grm.token_idx(name) {
        push_number(alloc, out, " t", usize::from(tidx))?;
    }
    if let Some(text) = grm.actiontype(ridx) {
        out.push(' ')?;
        push_quoted(out, text.as_str())?;
    }
    out.push('\n')
}

/// The token that the token's name leads to, how it is shown, and whether it is not to be inserted.
fn push_token<S: IndexStorage>(
    alloc: Global,
    out: &mut String,
    grm: &YaccGrammar<S>,
    tidx: TIdx<S>,
) -> Result<(), AllocError>
    requires { S.number tidx.0 < grm.now.grammar.tokens }
{
    if let Some(name) = grm.token_name(tidx) {
        push_quoted(out, name)?;
        match grm.token_idx(name) {
            Some(found) => push_number(alloc, out, " t", usize::from(found))?,
            None => out.push_str(" no token")?,
        }
        if let Some(ridx) = grm.rule_idx(name) {
            push_number(alloc, out, " r", usize::from(ridx))?;
        }
    }
    match grm.token_epp(tidx) {
        Some(shown) => {
            out.push(' ')?;
            push_quoted(out, shown)?;
        }
        None => out.push_str("not shown")?,
    }
    out.push_str(if grm.avoid_insert(tidx) {
        " avoided\n"
    } else {
        "\n"
    })
}

fn push_action<S: IndexStorage>(
    alloc: Global,
    out: &mut String,
    grm: &YaccGrammar<S>,
    pidx: PIdx<S>,
) -> Result<(), AllocError>
    requires { S.number pidx.0 < length grm.now.grammar.productions }
{
    if let Some(action) = grm.action(pidx) {
        push_number(alloc, out, "action ", usize::from(pidx))?;
        out.push(' ')?;
        push_quoted(out, action.as_str())?;
        if let Some(span) = grm.action_span(pidx) {
            push_span(alloc, out, &span)?;
        }
        out.push('\n')?;
    }
    Ok(())
}

/// The tokens by their map.
fn push_map<S: IndexStorage>(
    alloc: Global,
    out: &mut String,
    grm: &YaccGrammar<S>,
) -> Result<(), AllocError> {
    let tokens = grm.tokens_map(alloc)?;
    out.push_str("map")?;
    for (name, tidx) in &tokens {
        out.push(' ')?;
        push_quoted(out, name)?;
        push_number(alloc, out, " ", usize::from(*tidx))?;
    }
    out.push('\n')
}

fn push_expected(
    alloc: Global,
    out: &mut String,
    label: &str,
    number: Option<usize>,
) -> Result<(), AllocError> {
    if let Some(number) = number {
        push_number(alloc, out, label, number)?;
        out.push('\n')?;
    }
    Ok(())
}

/// What is kept of the whole text.
fn push_whole<S: IndexStorage>(
    alloc: Global,
    out: &mut String,
    grm: &YaccGrammar<S>,
) -> Result<(), AllocError> {
    if let Some((name, kind)) = grm.parse_param() {
        out.push_str("parse-param ")?;
        push_quoted(out, name.as_str())?;
        out.push(' ')?;
        push_quoted(out, kind.as_str())?;
        out.push('\n')?;
    }
    push_text(out, "parse-generics ", grm.parse_generics().as_ref())?;
    push_text(out, "programs ", grm.programs().as_ref())?;
    push_expected(alloc, out, "expect ", grm.expect())?;
    push_expected(alloc, out, "expect-rr ", grm.expectrr())
}

fn push_names<S: IndexStorage>(
    alloc: Global,
    out: &mut String,
    grm: &YaccGrammar<S>,
) -> Result<(), AllocError> {
    for ridx in grm.iter_rules() {
        if has_rule(grm, ridx) {
            push_rule(alloc, out, grm, ridx)?;
        }
    }
    for tidx in grm.iter_tidxs() {
        if has_token(grm, tidx) {
            push_token(alloc, out, grm, tidx)?;
        }
    }
    Ok(())
}

pub fn push_kept<S: IndexStorage>(
    alloc: Global,
    out: &mut String,
    grm: &YaccGrammar<S>,
) -> Result<(), AllocError> {
    push_names(alloc, out, grm)?;
    push_map(alloc, out, grm)?;
    for pidx in grm.iter_pidxs() {
        if has_prod(grm, pidx) {
            push_action(alloc, out, grm, pidx)?;
        }
    }
    push_whole(alloc, out, grm)
}
