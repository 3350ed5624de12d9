//! Rules, productions and tokens by their numbers, with names, spans and precedences.

ghost use Rattle.std.specs.Prelude.{◌<◌, length};

use crate::make::{has_prod, has_rule, has_token};
use cfgrammar::index::IndexStorage;
use cfgrammar::yacc::{AssocKind, Precedence, YaccGrammar};
use cfgrammar::{PIdx, RIdx, Symbol, TIdx};
use row_files::{push_quoted, push_span};
use std::alloc::{AllocError, Global};

pub fn push_number(
    alloc: Global,
    out: &mut String,
    before: &str,
    number: usize,
) -> Result<(), AllocError> {
    out.push_str(format!(in alloc; "{before}{number}")?.as_str())
}

fn push_precedence(
    alloc: Global,
    out: &mut String,
    precedence: Option<Precedence>,
) -> Result<(), AllocError> {
    if let Some(found) = precedence {
        out.push_str(match found.kind {
            AssocKind::Left => " Left",
            AssocKind::Right => " Right",
            AssocKind::Nonassoc => " Nonassoc",
        })?;
        let level = found.level;
        out.push_str(format!(in alloc; " {level}")?.as_str())?;
    }
    Ok(())
}

fn push_rule<S: IndexStorage>(
    alloc: Global,
    out: &mut String,
    grm: &YaccGrammar<S>,
    ridx: RIdx<S>,
) -> Result<(), AllocError>
    requires { S.number ridx.0 < grm.now.grammar.rules }
{
    push_number(alloc, out, "rule ", usize::from(ridx))?;
    out.push(' ')?;
    out.push_str(grm.rule_name_str(ridx))?;
    push_span(alloc, out, &grm.rule_name_span(ridx))?;
    out.push(':')?;
    for pidx in grm.rule_to_prods(ridx) {
        push_number(alloc, out, " ", usize::from(*pidx))?;
    }
    out.push('\n')
}

/// The symbols as `r` or `t` and their numbers.
fn push_symbols<S: IndexStorage>(
    alloc: Global,
    out: &mut String,
    symbols: &[Symbol<S>],
) -> Result<(), AllocError> {
    for symbol in symbols {
        match symbol {
            Symbol::Rule(ridx) => push_number(alloc, out, " r", usize::from(*ridx))?,
            Symbol::Token(tidx) => push_number(alloc, out, " t", usize::from(*tidx))?,
        }
    }
    Ok(())
}

/// A production as its number, printed text, rule, symbols and their count, span and precedence.
fn push_production<S: IndexStorage>(
    alloc: Global,
    out: &mut String,
    grm: &YaccGrammar<S>,
    pidx: PIdx<S>,
) -> Result<(), AllocError>
    requires { S.number pidx.0 < length grm.now.grammar.productions }
{
    push_number(alloc, out, "prod ", usize::from(pidx))?;
    out.push(' ')?;
    out.push_str(grm.pp_prod(alloc, pidx)?.as_str())?;
    push_number(alloc, out, ", r", usize::from(grm.prod_to_rule(pidx)))?;
    out.push(':')?;
    push_symbols(alloc, out, grm.prod(pidx))?;
    push_number(alloc, out, ", ", usize::from(grm.prod_len(pidx)))?;
    out.push(',')?;
    push_span(alloc, out, &grm.prod_span(pidx))?;
    push_precedence(alloc, out, grm.prod_precedence(pidx))?;
    out.push('\n')
}

fn push_token<S: IndexStorage>(
    alloc: Global,
    out: &mut String,
    grm: &YaccGrammar<S>,
    tidx: TIdx<S>,
) -> Result<(), AllocError>
    requires { S.number tidx.0 < grm.now.grammar.tokens }
{
    push_number(alloc, out, "token ", usize::from(tidx))?;
    if let Some(name) = grm.token_name(tidx) {
        out.push(' ')?;
        push_quoted(out, name)?;
    }
    if let Some(span) = grm.token_span(tidx) {
        push_span(alloc, out, &span)?;
    }
    push_precedence(alloc, out, grm.token_precedence(tidx))?;
    out.push('\n')
}

/// The numbers that stand for more than themselves.
fn push_marked<S: IndexStorage>(
    alloc: Global,
    out: &mut String,
    grm: &YaccGrammar<S>,
) -> Result<(), AllocError> {
    push_number(alloc, out, "start r", usize::from(grm.start_rule_idx()))?;
    push_number(alloc, out, ", prod ", usize::from(grm.start_prod()))?;
    push_number(alloc, out, ", end t", usize::from(grm.eof_token_idx()))?;
    if let Some(ridx) = grm.implicit_rule() {
        push_number(alloc, out, ", implicit r", usize::from(ridx))?;
    }
    out.push('\n')
}

fn push_rules<S: IndexStorage>(
    alloc: Global,
    out: &mut String,
    grm: &YaccGrammar<S>,
) -> Result<(), AllocError> {
    for ridx in grm.iter_rules() {
        if has_rule(grm, ridx) {
            push_rule(alloc, out, grm, ridx)?;
        }
    }
    Ok(())
}

fn push_productions<S: IndexStorage>(
    alloc: Global,
    out: &mut String,
    grm: &YaccGrammar<S>,
) -> Result<(), AllocError> {
    for pidx in grm.iter_pidxs() {
        if has_prod(grm, pidx) {
            push_production(alloc, out, grm, pidx)?;
        }
    }
    Ok(())
}

fn push_tokens<S: IndexStorage>(
    alloc: Global,
    out: &mut String,
    grm: &YaccGrammar<S>,
) -> Result<(), AllocError> {
    for tidx in grm.iter_tidxs() {
        if has_token(grm, tidx) {
            push_token(alloc, out, grm, tidx)?;
        }
    }
    Ok(())
}

pub fn push_numbers<S: IndexStorage>(
    alloc: Global,
    out: &mut String,
    grm: &YaccGrammar<S>,
) -> Result<(), AllocError> {
    push_rules(alloc, out, grm)?;
    push_productions(alloc, out, grm)?;
    push_tokens(alloc, out, grm)?;
    push_marked(alloc, out, grm)
}

/// How many rules, productions and tokens there are.
pub fn push_counts<S: IndexStorage>(
    alloc: Global,
    out: &mut String,
    grm: &YaccGrammar<S>,
) -> Result<(), AllocError> {
    push_number(alloc, out, "", usize::from(grm.rules_len()))?;
    push_number(alloc, out, " rules, ", usize::from(grm.prods_len()))?;
    push_number(alloc, out, " productions, ", usize::from(grm.tokens_len()))?;
    out.push_str(" tokens\n")
}
