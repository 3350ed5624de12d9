//! Loops over a grammar's rules, and a token put into a FIRST set.

ghost use Rattle.std.specs.Prelude.{◌<◌, length};

use crate::make::grammar_of;
use crate::same::same;
use cfgrammar::index::IndexStorage;
use cfgrammar::yacc::grammar::laws::walks_stay_below;
use cfgrammar::yacc::{YaccFirsts, YaccGrammar};
use cfgrammar::{RIdx, TIdx};
use std::alloc::{AllocError, Global};
use std::test::*;

/// Whether the token wasn't in the rule's set, and is once it is put there.
fn is_put<S: IndexStorage>(firsts: &mut YaccFirsts<S>, ridx: RIdx<S>, tidx: TIdx<S>) -> bool
    requires rule { S.number ridx.0 < length firsts.old.rows }
    requires token { S.number tidx.0 < firsts.old.tokens }
{
    let was = firsts.set(ridx, tidx);
    !was && firsts.is_set(ridx, tidx) && firsts.set(ridx, tidx)
}

fn is_put_in<S: IndexStorage>(
    alloc: Global,
    grm: &YaccGrammar<S>,
    ridx: RIdx<S>,
    tidx: TIdx<S>,
) -> Result<bool, AllocError> {
    let mut firsts = grm.firsts(alloc)?;
    let is_put = grm.has_rule(ridx) && grm.has_token(tidx) && is_put(&mut firsts, ridx, tidx);
    drop(firsts);
    Ok(is_put)
}

/// Returns whether a new token, one that is there, and one for a rule that is not there are put.
fn are_put(alloc: Global, grm: &YaccGrammar<u8>) -> Result<[bool; 3], AllocError> {
    let new = is_put_in(alloc, grm, RIdx(1), TIdx(2))?;
    let old = is_put_in(alloc, grm, RIdx(1), TIdx(1))?;
    Ok([new, old, is_put_in(alloc, grm, RIdx(9), TIdx(1))?])
}

#[test]
fn a_token_is_put(rt: HostRuntime) -> Result<(), Fail> {
    let grm = grammar_of(rt.alloc(), "%% S: 'a' | 'b' T; T: 'c';")?;
    let found = are_put(rt.alloc(), &grm);
    drop(grm);
    same(&rt, "put", found?, [true, false, false]);
    Ok(())
}

/// The length of the longest name of a rule, by numbers: this loop needs no proof file.
fn longest_name_by_numbers<S: IndexStorage>(grm: &YaccGrammar<S>) -> usize {
    let mut longest = 0;
    for number in 0..usize::from(grm.rules_len()) {
        longest = longest.max(grm.rule_name_str(grm.rule_at(number)).len());
    }
    longest
}

/// The length of the longest name of a rule, by an iterator, which gives the indices of rules alone.
fn longest_name<S: IndexStorage>(grm: &YaccGrammar<S>) -> usize {
    let mut longest = 0;
    walks_stay_below();
    'rules: for ridx in grm.iter_rules() {
        longest = longest.max(grm.rule_name_str(ridx).len());
    }
    longest
}

#[test]
fn loops_give_all_rules(rt: HostRuntime) -> Result<(), Fail> {
    let grm = grammar_of(rt.alloc(), "%% S: Long T; Long: 'a'; T: ;")?;
    let found = (longest_name(&grm), longest_name_by_numbers(&grm));
    drop(grm);
    same(&rt, "by an iterator and by numbers", found, (4, 4));
    Ok(())
}
