//! Productions that go round.

ghost use Rattle.std.specs.Prelude.{◌<◌, length, IsTrue, IfOk, IfSome};
ghost use Rattle.cfg_numbered.specs.Symbols.{numbers_of};
ghost use Rattle.refused_tables.specs.Cycles.{Continues, IsRound};

use crate::paths::string_to;
use crate::runs::Run;
use cfg_base::symbol::{PIdx, RIdx, Symbol, TIdx};
use cfg_numbered::yacc::NumberedGrammar;
use lrtable::{FromYaccError, Minimiser, StIdx, StateGraph, StateTable, from_yacc};
use std::alloc::{AllocError, Global};

/// How many reductions are looked at.
const MOST: usize = 1000;

/// Where reductions without end begin, as `KitError::TooManyReductions` says it.
#[derive(Clone, Copy, Debug)]
pub struct Beginning {
    /// The state.
    pub state: StIdx<u32>,
    /// The rule on which a goto leads on from the state, if the reductions begin behind it.
    pub rule: Option<RIdx<u32>>,
    /// The token before which all the reductions are made.
    pub token: TIdx<u32>,
}

/// Productions that are reduced again and again, and how a text leads there.
#[derive(Debug, Drop)]
pub struct ReductionCycle {
    /// The symbols of a shortest string that leads to where the reductions begin.
    pub before: Vec<Symbol<u32>>,
    /// The productions of one round, in the order in which they are reduced.
    pub productions: Vec<PIdx<u32>>,
}

/// Returns whether the second half of a list goes on as it did `period` items before.
fn repeats(list: &[PIdx<u32>], period: usize) -> bool {
    for index in list.len() / 2..list.len().saturating_sub(period) {
        match (list.get(index), list.get(index.saturating_add(period))) {
            (Some(one), Some(other)) => {
                if one != other {
                    return false;
                }
            }
            _ => return false,
        }
    }
    true
}

/// Returns the length of the shortest round that the second half of a list is made of, if there is one.
fn period_of(list: &[PIdx<u32>]) -> Option<usize> {
    for period in 1..list.len() / 4 {
        if repeats(list, period) {
            return Some(period);
        }
    }
    None
}

/// Returns the index at which the rounds begin.
fn first_round(list: &[PIdx<u32>], period: usize) -> usize {
    let mut first = list.len() / 2;
    for back in 0..list.len() / 2 {
        let index = (list.len() / 2).saturating_sub(back);
        match (list.get(index), list.get(index.saturating_add(period))) {
            (Some(one), Some(other)) => {
                if one != other {
                    return first;
                }
            }
            _ => return first,
        }
        first = index;
    }
    first
}

/// Returns whether a production may be reduced right behind another one.
fn continues(grm: &NumberedGrammar<u32>, before: PIdx<u32>, pidx: PIdx<u32>) -> bool
    ensures within { IsTrue result → pidx.0 < length grm.now.grammar.productions }
    ensures continues { IsTrue result → Continues grm.now.grammar before.0 pidx.0 }
{
    if !grm.has_prod(before) || !grm.has_prod(pidx) {
        return false;
    }
    match grm.prod(pidx).last() {
        Some(Symbol::Rule(ridx)) => ridx.0 == grm.prod_to_rule(before).0,
        Some(Symbol::Token(_)) => false,
        None => true,
    }
}

/// Returns whether each of these productions may be reduced right behind the one before, and the first behind the last.
fn is_round(grm: &NumberedGrammar<u32>, productions: &[PIdx<u32>]) -> bool
    ensures { IsTrue result → IsRound grm.now.grammar (numbers_of (λ n. n) productions.now) }
{
    let Some(last) = productions.last() else {
        return false;
    };
    let mut before = *last;
    'productions: for index in 0..productions.len() {
        if !continues(grm, before, productions[index]) {
            return false;
        }
        before = productions[index];
    }
    true
}

/// Returns a round of a list, if its second half is made of rounds.
fn round_of(
    alloc: Global,
    grm: &NumberedGrammar<u32>,
    list: &[PIdx<u32>],
) -> Result<Option<Vec<PIdx<u32>>>, AllocError>
    ensures { IfOk result (λ r. IfSome r (λ ps. IsRound grm.now.grammar (numbers_of (λ n. n) ps.items))) }
{
    let Some(period) = period_of(list) else {
        return Ok(None);
    };
    let first = first_round(list, period);
    let mut round = Vec::new(alloc);
    for index in first..first.saturating_add(period) {
        if let Some(pidx) = list.get(index) {
            round.push(*pidx)?;
        }
    }
    if !is_round(grm, round.as_slice()) {
        return Ok(None);
    }
    Ok(Some(round))
}

/// Returns the productions that go round before a token, behind these symbols.
fn round_behind(
    alloc: Global,
    grm: &NumberedGrammar<u32>,
    parts: &(StateGraph<u32>, StateTable<u32>),
    before: &[Symbol<u32>],
    token: TIdx<u32>,
) -> Result<Option<Vec<PIdx<u32>>>, AllocError>
    ensures { IfOk result (λ r. IfSome r (λ ps. IsRound grm.now.grammar (numbers_of (λ n. n) ps.items))) }
{
    let mut run = Run::new(alloc, grm, &parts.1)?;
    run.follow(&parts.0, before)?;
    let list = run.reductions_before(alloc, token, MOST)?;
    round_of(alloc, grm, list.as_slice())
}

/// Finds the productions that go round in the tables of a grammar.
fn cycle_in(
    alloc: Global,
    grm: &NumberedGrammar<u32>,
    parts: &(StateGraph<u32>, StateTable<u32>),
    beginning: Beginning,
) -> Result<Option<ReductionCycle>, AllocError>
    ensures { IfOk result (λ r. IfSome r (λ c. IsRound grm.now.grammar (numbers_of (λ n. n) c.productions.items))) }
{
    let mut before = string_to(alloc, &parts.0, beginning.state)?;
    if let Some(ridx) = beginning.rule {
        before.push(Symbol::Rule(ridx))?;
    }
    match round_behind(alloc, grm, parts, before.as_slice(), beginning.token)? {
        Some(productions) => Ok(Some(ReductionCycle {
            before,
            productions,
        })),
        None => Ok(None),
    }
}

/// Finds the productions that a grammar's own table reduces without end from a beginning, and a shortest string that
/// leads to its state. Each of them can follow the one before, and the first the last: it has no symbols, or has the
/// rule of that production last. Returns `None` where the grammar has no table, or where at most 1,000 reductions are
/// made there or these don't go round. Fails where memory is refused.
///
/// That the table makes these reductions, and behind this string, is not proved; reports show both for a reader to check.
pub fn find_cycle(
    alloc: Global,
    grm: &NumberedGrammar<u32>,
    beginning: Beginning,
) -> Result<Option<ReductionCycle>, AllocError>
    ensures { IfOk result (λ r. IfSome r (λ c. IsRound grm.now.grammar (numbers_of (λ n. n) c.productions.items))) }
{
    let parts = match from_yacc(alloc, grm, Minimiser::Pager) {
        Ok(parts) => parts,
        Err(FromYaccError::Memory(e)) => return Err(e),
        Err(_) => return Ok(None),
    };
    let found = cycle_in(alloc, grm, &parts, beginning);
    drop(parts);
    found
}
