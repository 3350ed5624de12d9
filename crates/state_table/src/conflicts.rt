//! The conflicts of a table that no precedence settles.

ghost use Rattle.std.specs.Prelude.{◌≡◌, ◌<◌, ◌++◌, ℕ, length, IfOk, OnOk};
ghost use Rattle.std.specs.List.{flat_map};
ghost use Rattle.std.specs.Slice.Iter.{iter_rest};
ghost use Rattle.std.specs.String.{string_bytes};
ghost use Rattle.state_table.specs.CellViews.{pair_of, pairs_of, shift_of, shifts_of};
ghost use Rattle.state_table.specs.ConflictTexts.{PairsInRange, ShiftsInRange, conflicts_text, pair_line, pairs_text, reduce_text, shift_line, shifts_text, shown_token, state_front};

use crate::state_rows::{ReduceReduce, ShiftReduce};
use crate::stidx::StIdx;
use cfg_base::index::IndexStorage;
use cfg_base::symbol::{PIdx, TIdx};
use cfg_numbered::yacc::NumberedGrammar;
use std::alloc::{AllocError, Global};
use std::marker::Model;
use std::slice::Iter;

/// The conflicts of a table that no precedence settles, by state, token and production. Contracts see the two lists.
#[derive(Drop)]
pub struct Conflicts<S: IndexStorage> {
    reduce_reduce: Vec<ReduceReduce<S>>,
    shift_reduce: Vec<ShiftReduce<S>>,
}

impl<S: IndexStorage> Model for Conflicts<S> {
    ghost use Rattle.table_theory.specs.Cells.{Conflicts as ConflictLists};
    ghost use Rattle.state_table.specs.CellViews.{pairs_of, shifts_of};

    ghost Value = { ConflictLists };

    ghost view = { λ c. record { reduce_reduce = pairs_of S.number c.reduce_reduce.items; shift_reduce = shifts_of S.number c.shift_reduce.items } };
}

/// Returns the conflicts of two lists.
pub(crate) fn of_lists<S: IndexStorage>(
    reduce_reduce: Vec<ReduceReduce<S>>,
    shift_reduce: Vec<ShiftReduce<S>>,
) -> Conflicts<S>
    ensures { result ≡ record { reduce_reduce = pairs_of S.number reduce_reduce.items; shift_reduce = shifts_of S.number shift_reduce.items } }
{
    Conflicts {
        reduce_reduce,
        shift_reduce,
    }
}

impl<S: IndexStorage> Conflicts<S> {
    /// Iterates over the pairs of reductions: the token, the two productions, and the state.
    pub fn rr_conflicts(&self) -> Iter<'_, (TIdx<S>, PIdx<S>, PIdx<S>, StIdx<S>)>
        ensures { pairs_of S.number (iter_rest result) ≡ self.now.reduce_reduce }
    {
        self.reduce_reduce.as_slice().iter()
    }

    /// Iterates over the shifts against reductions: the token, the production, and the state.
    pub fn sr_conflicts(&self) -> Iter<'_, (TIdx<S>, PIdx<S>, StIdx<S>)>
        ensures { shifts_of S.number (iter_rest result) ≡ self.now.shift_reduce }
    {
        self.shift_reduce.as_slice().iter()
    }

    /// Counts the pairs of reductions.
    pub fn rr_len(&self) -> usize
        ensures { result ≡ length self.now.reduce_reduce }
    {
        self.reduce_reduce.len()
    }

    /// Counts the shifts against reductions.
    pub fn sr_len(&self) -> usize
        ensures { result ≡ length self.now.shift_reduce }
    {
        self.shift_reduce.len()
    }

    /// Returns the shifts against reductions as text: a heading, and a line for each. Nothing where there is
    /// none.
    pub fn pp_sr(&self, alloc: Global, grm: &NumberedGrammar<S>) -> Result<String, AllocError>
        requires { ShiftsInRange grm.now self.now.shift_reduce }
        ensures { IfOk result (λ text. string_bytes text ≡ shifts_text grm.now self.now.shift_reduce) }
    {
        let mut text = String::new(alloc);
        if self.shift_reduce.is_empty() {
            return Ok(text);
        }
        text.push_str("Shift/Reduce conflicts:\n")?;
        push_shifts(alloc, &mut text, grm, self.shift_reduce.as_slice())?;
        Ok(text)
    }

    /// Returns the pairs of reductions as text: a heading, and a line for each. Nothing where there is none.
    pub fn pp_rr(&self, alloc: Global, grm: &NumberedGrammar<S>) -> Result<String, AllocError>
        requires { PairsInRange grm.now self.now.reduce_reduce }
        ensures { IfOk result (λ text. string_bytes text ≡ pairs_text grm.now self.now.reduce_reduce) }
    {
        let mut text = String::new(alloc);
        if self.reduce_reduce.is_empty() {
            return Ok(text);
        }
        text.push_str("Reduce/Reduce conflicts:\n")?;
        push_pairs(alloc, &mut text, grm, self.reduce_reduce.as_slice())?;
        Ok(text)
    }

    /// Returns both as text, the shifts against reductions first.
    pub fn pp(&self, alloc: Global, grm: &NumberedGrammar<S>) -> Result<String, AllocError>
        requires shifts { ShiftsInRange grm.now self.now.shift_reduce }
        requires pairs { PairsInRange grm.now self.now.reduce_reduce }
        ensures { IfOk result (λ text. string_bytes text ≡ conflicts_text grm.now self.now) }
    {
        let mut text = self.pp_sr(alloc, grm)?;
        let pairs = self.pp_rr(alloc, grm)?;
        text.push_str(pairs.as_str())?;
        Ok(text)
    }
}

/// Returns the name of a token; `$` for the end token.
pub(crate) fn shown_name<S: IndexStorage>(grm: &NumberedGrammar<S>, tidx: TIdx<S>) -> &str
    requires { S.number tidx.0 < grm.now.grammar.tokens }
    ensures { result.now ≡ shown_token grm.now (S.number tidx.0) }
{
    grm.token_name(tidx).unwrap_or("$")
}

/// Puts the front of a line: the state.
fn push_state<S: IndexStorage>(
    alloc: Global,
    text: &mut String,
    stidx: StIdx<S>,
) -> Result<(), AllocError>
    ensures { OnOk result (string_bytes text.new ≡ string_bytes text.old ++ state_front (S.number stidx.0)) }
{
    let number = stidx.0.to_usize();
    let front = format!(in alloc; "   State {number}: ")?;
    text.push_str(front.as_str())?;
    Ok(())
}

/// Puts a reduction by its production.
fn push_reduce<S: IndexStorage>(
    alloc: Global,
    text: &mut String,
    grm: &NumberedGrammar<S>,
    pidx: PIdx<S>,
) -> Result<(), AllocError>
    requires { S.number pidx.0 < length grm.now.grammar.productions }
    ensures { OnOk result (string_bytes text.new ≡ string_bytes text.old ++ reduce_text grm.now (S.number pidx.0)) }
{
    let production = grm.pp_prod(alloc, pidx)?;
    text.push_str("Reduce(")?;
    text.push_str(production.as_str())?;
    text.push_str(")")?;
    Ok(())
}

/// Puts the line of a shift against a reduction.
fn push_shift<S: IndexStorage>(
    alloc: Global,
    text: &mut String,
    grm: &NumberedGrammar<S>,
    entry: ShiftReduce<S>,
) -> Result<(), AllocError>
    requires token { S.number entry.0.0 < grm.now.grammar.tokens }
    requires production { S.number entry.1.0 < length grm.now.grammar.productions }
    ensures { OnOk result (string_bytes text.new ≡ string_bytes text.old ++ shift_line grm.now (shift_of S.number entry)) }
{
    let (tidx, pidx, stidx) = entry;
    push_state(alloc, text, stidx)?;
    text.push_str("Shift(\"")?;
    text.push_str(shown_name(grm, tidx))?;
    text.push_str("\") / ")?;
    push_reduce(alloc, text, grm, pidx)?;
    text.push_str("\n")?;
    Ok(())
}

/// Puts the line of a pair of reductions.
fn push_pair<S: IndexStorage>(
    alloc: Global,
    text: &mut String,
    grm: &NumberedGrammar<S>,
    entry: ReduceReduce<S>,
) -> Result<(), AllocError>
    requires first { S.number entry.1.0 < length grm.now.grammar.productions }
    requires second { S.number entry.2.0 < length grm.now.grammar.productions }
    ensures { OnOk result (string_bytes text.new ≡ string_bytes text.old ++ pair_line grm.now (pair_of S.number entry)) }
{
    let (_, first, second, stidx) = entry;
    push_state(alloc, text, stidx)?;
    push_reduce(alloc, text, grm, first)?;
    text.push_str(" / ")?;
    push_reduce(alloc, text, grm, second)?;
    text.push_str("\n")?;
    Ok(())
}

/// Puts the lines of shifts against reductions.
fn push_shifts<S: IndexStorage>(
    alloc: Global,
    text: &mut String,
    grm: &NumberedGrammar<S>,
    entries: &[ShiftReduce<S>],
) -> Result<(), AllocError>
    requires { ShiftsInRange grm.now (shifts_of S.number entries.now) }
    ensures { OnOk result (string_bytes text.new ≡ string_bytes text.old ++ flat_map (shift_line grm.now) (shifts_of S.number entries.now)) }
{
    'entries: for i in 0..entries.len() {
        push_shift(alloc, text, grm, entries[i])?;
    }
    Ok(())
}

/// Puts the lines of pairs of reductions.
fn push_pairs<S: IndexStorage>(
    alloc: Global,
    text: &mut String,
    grm: &NumberedGrammar<S>,
    entries: &[ReduceReduce<S>],
) -> Result<(), AllocError>
    requires { PairsInRange grm.now (pairs_of S.number entries.now) }
    ensures { OnOk result (string_bytes text.new ≡ string_bytes text.old ++ flat_map (pair_line grm.now) (pairs_of S.number entries.now)) }
{
    'entries: for i in 0..entries.len() {
        push_pair(alloc, text, grm, entries[i])?;
    }
    Ok(())
}
