//! What is printed of a text.

ghost use Rattle.std.specs.Prelude.{◌<◌};
ghost use Rattle.cfg_sets.specs.Firsts.{AreFirsts};
ghost use Rattle.cfg_sets.specs.Follows.{AreFollows};

use crate::first_sets::{begins, follows, is_nullable};
use crate::text_errors::grammar;
use cfgrammar::index::IndexStorage;
use cfgrammar::yacc::{NumberedGrammar, YaccFirsts, YaccFollows, YaccGrammar};
use cfgrammar::{RIdx, TIdx};
use std::alloc::{AllocError, Global};

/// Adds a token's name, or that of the end.
fn push_name<S: IndexStorage>(
    grm: &NumberedGrammar<S>,
    tidx: TIdx<S>,
    line: &mut String,
) -> Result<(), AllocError>
    requires { S.number tidx.0 < grm.now.grammar.tokens }
{
    line.push_str(" ")?;
    line.push_str(grm.token_epp(tidx).unwrap_or("$"))
}

fn push_firsts<S: IndexStorage>(
    grm: &NumberedGrammar<S>,
    firsts: &YaccFirsts<S>,
    ridx: RIdx<S>,
    line: &mut String,
) -> Result<(), AllocError>
    requires rule { S.number ridx.0 < grm.now.grammar.rules }
    requires firsts { AreFirsts grm.now.grammar firsts.now }
{
    for number in 0..usize::from(grm.tokens_len()) {
        let tidx = grm.token_at(number);
        if begins(grm, firsts, ridx, tidx) {
            push_name(grm, tidx, line)?;
        }
    }
    Ok(())
}

fn push_follows<S: IndexStorage>(
    grm: &NumberedGrammar<S>,
    sets: &YaccFollows<S>,
    ridx: RIdx<S>,
    line: &mut String,
) -> Result<(), AllocError>
    requires rule { S.number ridx.0 < grm.now.grammar.rules }
    requires sets { AreFollows grm.now.grammar sets.now }
{
    for number in 0..usize::from(grm.tokens_len()) {
        let tidx = grm.token_at(number);
        if follows(grm, sets, ridx, tidx) {
            push_name(grm, tidx, line)?;
        }
    }
    Ok(())
}

/// Adds a line with the sets of a rule.
fn push_rule<S: IndexStorage>(
    grm: &NumberedGrammar<S>,
    firsts: &YaccFirsts<S>,
    sets: &YaccFollows<S>,
    ridx: RIdx<S>,
    out: &mut String,
) -> Result<(), AllocError>
    requires rule { S.number ridx.0 < grm.now.grammar.rules }
    requires firsts { AreFirsts grm.now.grammar firsts.now }
    requires sets { AreFollows grm.now.grammar sets.now }
{
    out.push_str(grm.rule_name_str(ridx))?;
    if is_nullable(grm, firsts, ridx) {
        out.push_str(" is nullable,")?;
    }
    out.push_str(" begins with")?;
    push_firsts(grm, firsts, ridx, out)?;
    out.push_str(", comes before")?;
    push_follows(grm, sets, ridx, out)?;
    out.push_str("\n")
}

/// Adds a line for each rule.
fn push_rules<S: IndexStorage>(
    grm: &NumberedGrammar<S>,
    firsts: &YaccFirsts<S>,
    sets: &YaccFollows<S>,
    out: &mut String,
) -> Result<(), AllocError>
    requires firsts { AreFirsts grm.now.grammar firsts.now }
    requires sets { AreFollows grm.now.grammar sets.now }
{
    for number in 0..usize::from(grm.rules_len()) {
        push_rule(grm, firsts, sets, grm.rule_at(number), out)?;
    }
    Ok(())
}

/// Returns the sets of each rule, the added start rule `^` among them.
fn sets_report<S: IndexStorage>(alloc: Global, grm: &YaccGrammar<S>) -> Result<String, AllocError> {
    let mut out = String::new(alloc);
    let firsts = grm.firsts(alloc)?;
    let sets = match grm.follows(alloc) {
        Ok(sets) => sets,
        Err(e) => {
            drop(firsts);
            return Err(e);
        }
    };
    let pushed = push_rules(grm, &firsts, &sets, &mut out);
    drop(sets);
    drop(firsts);
    pushed?;
    Ok(out)
}

/// Returns the sets of a text's grammar, or why it has none.
pub fn report_on(alloc: Global, text: &str) -> Result<String, AllocError> {
    match grammar(alloc, text)? {
        Ok(grm) => {
            let report = sets_report(alloc, &grm);
            drop(grm);
            report
        }
        Err(report) => Ok(report),
    }
}
