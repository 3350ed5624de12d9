//! FIRST, FOLLOW and paths.

ghost use Rattle.std.specs.Prelude.{◌≡◌, ◌<◌, length};

use crate::make::{has_rule, has_token};
use crate::numbers::push_number;
use cfgrammar::RIdx;
use cfgrammar::index::IndexStorage;
use cfgrammar::yacc::{YaccFirsts, YaccFollows, YaccGrammar};
use row_files::push_quoted;
use std::alloc::{AllocError, Global};
use vob::Vob;

/// The tokens of a set by their names.
fn push_set<S: IndexStorage>(
    out: &mut String,
    grm: &YaccGrammar<S>,
    set: &Vob,
) -> Result<(), AllocError> {
    for tidx in grm.iter_tidxs() {
        if has_token(grm, tidx) && set.get(usize::from(tidx)) == Some(true) {
            match grm.token_name(tidx) {
                Some(name) => {
                    out.push(' ')?;
                    push_quoted(out, name)?;
                }
                None => out.push_str(" end")?,
            }
        }
    }
    Ok(())
}

fn push_listed(alloc: Global, set: &Vob) -> Result<String, AllocError> {
    let mut out = String::new(alloc);
    for number in set.iter_set_bits(..) {
        push_number(alloc, &mut out, " ", number)?;
    }
    Ok(out)
}

/// The numbers of the tokens in a rule's FIRST set, token by token.
fn first_numbers<S: IndexStorage>(
    alloc: Global,
    grm: &YaccGrammar<S>,
    firsts: &YaccFirsts<S>,
    ridx: RIdx<S>,
) -> Result<String, AllocError>
    requires rule { S.number ridx.0 < length firsts.now.rows }
    requires tokens { firsts.now.tokens ≡ grm.now.grammar.tokens }
{
    let mut out = String::new(alloc);
    for tidx in grm.iter_tidxs() {
        if has_token(grm, tidx) && firsts.is_set(ridx, tidx) {
            push_number(alloc, &mut out, " ", usize::from(tidx))?;
        }
    }
    Ok(out)
}

/// The numbers of the tokens in a rule's FOLLOW set, token by token.
fn follow_numbers<S: IndexStorage>(
    alloc: Global,
    grm: &YaccGrammar<S>,
    follows: &YaccFollows<S>,
    ridx: RIdx<S>,
) -> Result<String, AllocError>
    requires rule { S.number ridx.0 < length follows.now.rows }
    requires tokens { follows.now.tokens ≡ grm.now.grammar.tokens }
{
    let mut out = String::new(alloc);
    for tidx in grm.iter_tidxs() {
        if has_token(grm, tidx) && follows.is_set(ridx, tidx) {
            push_number(alloc, &mut out, " ", usize::from(tidx))?;
        }
    }
    Ok(out)
}

/// A rule's FIRST set, `-` where it derives the empty list, and its FOLLOW set.
fn push_rule<S: IndexStorage>(
    alloc: Global,
    out: &mut String,
    grm: &YaccGrammar<S>,
    firsts: &YaccFirsts<S>,
    follows: &YaccFollows<S>,
    ridx: RIdx<S>,
) -> Result<(), AllocError>
    requires rule { S.number ridx.0 < grm.now.grammar.rules }
    requires first_rows { length firsts.now.rows ≡ grm.now.grammar.rules }
    requires first_tokens { firsts.now.tokens ≡ grm.now.grammar.tokens }
    requires follow_rows { length follows.now.rows ≡ grm.now.grammar.rules }
    requires follow_tokens { follows.now.tokens ≡ grm.now.grammar.tokens }
{
    out.push_str(grm.rule_name_str(ridx))?;
    out.push_str(": first")?;
    push_set(out, grm, firsts.firsts(ridx))?;
    out.push_str(if firsts.is_epsilon_set(ridx) {
        " -, follow"
    } else {
        ", follow"
    })?;
    push_set(out, grm, follows.follows(ridx))?;
    if first_numbers(alloc, grm, firsts, ridx)? != push_listed(alloc, firsts.firsts(ridx))? {
        out.push_str(", other bits of FIRST")?;
    }
    if follow_numbers(alloc, grm, follows, ridx)? != push_listed(alloc, follows.follows(ridx))? {
        out.push_str(", other bits of FOLLOW")?;
    }
    out.push('\n')
}

fn push_rules<S: IndexStorage>(
    alloc: Global,
    out: &mut String,
    grm: &YaccGrammar<S>,
    firsts: &YaccFirsts<S>,
    follows: &YaccFollows<S>,
) -> Result<(), AllocError>
    requires first_rows { length firsts.now.rows ≡ grm.now.grammar.rules }
    requires first_tokens { firsts.now.tokens ≡ grm.now.grammar.tokens }
    requires follow_rows { length follows.now.rows ≡ grm.now.grammar.rules }
    requires follow_tokens { follows.now.tokens ≡ grm.now.grammar.tokens }
{
    for ridx in grm.iter_rules() {
        if has_rule(grm, ridx) {
            push_rule(alloc, out, grm, firsts, follows, ridx)?;
        }
    }
    Ok(())
}

fn push_with_follows<S: IndexStorage>(
    alloc: Global,
    out: &mut String,
    grm: &YaccGrammar<S>,
    firsts: &YaccFirsts<S>,
) -> Result<(), AllocError>
    requires rows { length firsts.now.rows ≡ grm.now.grammar.rules }
    requires tokens { firsts.now.tokens ≡ grm.now.grammar.tokens }
{
    let follows = grm.follows(alloc)?;
    let pushed = push_rules(alloc, out, grm, firsts, &follows);
    drop(follows);
    pushed
}

pub fn push_sets<S: IndexStorage>(
    alloc: Global,
    out: &mut String,
    grm: &YaccGrammar<S>,
) -> Result<(), AllocError> {
    let firsts = grm.firsts(alloc)?;
    let pushed = push_with_follows(alloc, out, grm, &firsts);
    drop(firsts);
    pushed
}

/// The rules that a rule reaches.
fn push_paths_from<S: IndexStorage>(
    alloc: Global,
    out: &mut String,
    grm: &YaccGrammar<S>,
    from: RIdx<S>,
) -> Result<(), AllocError>
    requires { S.number from.0 < grm.now.grammar.rules }
{
    out.push_str(grm.rule_name_str(from))?;
    out.push(':')?;
    for to in grm.iter_rules() {
        if has_rule(grm, to) && grm.has_path(alloc, from, to)? {
            out.push(' ')?;
            out.push_str(grm.rule_name_str(to))?;
        }
    }
    out.push('\n')
}

pub fn push_paths<S: IndexStorage>(
    alloc: Global,
    out: &mut String,
    grm: &YaccGrammar<S>,
) -> Result<(), AllocError> {
    for from in grm.iter_rules() {
        if has_rule(grm, from) {
            push_paths_from(alloc, out, grm, from)?;
        }
    }
    Ok(())
}
