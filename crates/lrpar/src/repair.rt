//! Tests the sequences of repairs that are passed at an error.

ghost use Rattle.std.specs.Prelude.{◌<◌, ◌≤◌, length, drop, Some, [], IfOk, IfSome};
ghost use Rattle.lrpar.specs.Reducing.{stack_of, AreStates};
ghost use Rattle.lrpar.specs.Replay.{overlaid, IsOver};
ghost use Rattle.lrpar.specs.NextStates.{AreInside};
ghost use Rattle.parse_trees.specs.Lex.{token_by};
ghost use Rattle.parse_trees.specs.Edits.{edit_of, edits_of, sequences_of};
ghost use Rattle.lrpar.specs.Taking.{StepTells, SequenceTells, ListTells};
ghost use Rattle.lr_theory.specs.Repair.{insert, keep};

use crate::machine::Machine;
use crate::overlay::{Overlay, accepts_on, shift_on};
use cfg_base::index::IndexStorage;
use cfg_base::symbol::TIdx;
use parse_trees::lex_api::Lexeme;
use parse_trees::lexeme_list::LexemeList;
use parse_trees::parse_repair::{RepairStep, step_at};
use state_table::StIdx;
use std::alloc::{AllocError, Global};

/// Returns the index of the next lexeme after an insertion, where it can be made.
fn take_insert<S: IndexStorage, L: Lexeme<S>, E: Copy>(
    machine: &Machine<'_, S>,
    base: &[StIdx<S>],
    overlay: &mut Overlay<S>,
    lexemes: &LexemeList<'_, L, E>,
    index: usize,
    tidx: TIdx<S>,
) -> Result<Option<usize>, AllocError>
    requires index { index ≤ length lexemes.now }
    requires over { IsOver S.number machine.now.stable.now base.now overlay.old }
    ensures tells { IfOk result (λ next. StepTells S.MAX machine.now.grm.now.grammar machine.now.stable.now (token_by L.lex) (insert (S.number tidx.0)) (overlaid S.number base.now overlay.old) (drop index lexemes.now) (overlaid S.number base.now overlay.new) lexemes.now next) }
    ensures index { IfOk result (λ next. IfSome next (λ i. i ≤ length lexemes.now)) }
    ensures over { IfOk result (λ next. IsOver S.number machine.now.stable.now base.now overlay.new) }
{
    if tidx.0.to_usize() >= machine.grm.eof_token_idx().0.to_usize() {
        return Ok(None);
    }
    if !shift_on(machine, base, overlay, tidx)? {
        return Ok(None);
    }
    Ok(Some(index))
}

/// Returns the index of the next lexeme after the one at an index is shifted, where it can be.
fn take_shift<S: IndexStorage, L: Lexeme<S>, E: Copy>(
    machine: &Machine<'_, S>,
    base: &[StIdx<S>],
    overlay: &mut Overlay<S>,
    lexemes: &LexemeList<'_, L, E>,
    index: usize,
) -> Result<Option<usize>, AllocError>
    requires inside { AreInside machine.now.grm.now.grammar (token_by L.lex) lexemes.now }
    requires over { IsOver S.number machine.now.stable.now base.now overlay.old }
    ensures tells { IfOk result (λ next. StepTells S.MAX machine.now.grm.now.grammar machine.now.stable.now (token_by L.lex) keep (overlaid S.number base.now overlay.old) (drop index lexemes.now) (overlaid S.number base.now overlay.new) lexemes.now next) }
    ensures index { IfOk result (λ next. IfSome next (λ i. i ≤ length lexemes.now)) }
    ensures over { IfOk result (λ next. IsOver S.number machine.now.stable.now base.now overlay.new) }
{
    let count = lexemes.len();
    if index >= count {
        return Ok(None);
    }
    let tidx = TIdx(lexemes.at(index).tok_id());
    if !shift_on(machine, base, overlay, tidx)? {
        return Ok(None);
    }
    Ok(Some(index + 1))
}

/// Returns the index of the next lexeme after a step, where it can be made.
fn take_step<S: IndexStorage, L: Lexeme<S>, E: Copy>(
    machine: &Machine<'_, S>,
    base: &[StIdx<S>],
    overlay: &mut Overlay<S>,
    lexemes: &LexemeList<'_, L, E>,
    index: usize,
    step: RepairStep<S>,
) -> Result<Option<usize>, AllocError>
    requires inside { AreInside machine.now.grm.now.grammar (token_by L.lex) lexemes.now }
    requires index { index ≤ length lexemes.now }
    requires over { IsOver S.number machine.now.stable.now base.now overlay.old }
    ensures tells { IfOk result (λ next. StepTells S.MAX machine.now.grm.now.grammar machine.now.stable.now (token_by L.lex) (edit_of S.number step) (overlaid S.number base.now overlay.old) (drop index lexemes.now) (overlaid S.number base.now overlay.new) lexemes.now next) }
    ensures index { IfOk result (λ next. IfSome next (λ i. i ≤ length lexemes.now)) }
    ensures over { IfOk result (λ next. IsOver S.number machine.now.stable.now base.now overlay.new) }
{
    let count = lexemes.len();
    match step {
        RepairStep::Insert(tidx) => take_insert(machine, base, overlay, lexemes, index, tidx),
        RepairStep::Shift => take_shift(machine, base, overlay, lexemes, index),
        RepairStep::Delete => {
            if index >= count {
                return Ok(None);
            }
            Ok(Some(index + 1))
        }
    }
}

/// Returns whether the next lexeme is shifted, or past the last one the run accepts.
fn gets_past<S: IndexStorage, L: Lexeme<S>, E: Copy>(
    machine: &Machine<'_, S>,
    base: &[StIdx<S>],
    overlay: &mut Overlay<S>,
    lexemes: &LexemeList<'_, L, E>,
    index: usize,
) -> Result<bool, AllocError>
    requires inside { AreInside machine.now.grm.now.grammar (token_by L.lex) lexemes.now }
    requires index { index ≤ length lexemes.now }
    requires over { IsOver S.number machine.now.stable.now base.now overlay.old }
    ensures { IfOk result (λ past. SequenceTells S.MAX machine.now.grm.now.grammar machine.now.stable.now (token_by L.lex) [] (overlaid S.number base.now overlay.old) (drop index lexemes.now) past) }
{
    if index >= lexemes.len() {
        let past = accepts_on(machine, base, overlay)?;
        return Ok(past);
    }
    let tidx = TIdx(lexemes.at(index).tok_id());
    let past = shift_on(machine, base, overlay, tidx)?;
    Ok(past)
}

/// Returns whether the sequence can be taken where the lexeme at an index is next. Its steps can be made, and then
/// the next lexeme is shifted, or the run accepts where none is left.
fn is_taken<S: IndexStorage, L: Lexeme<S>, E: Copy>(
    machine: &Machine<'_, S>,
    base: &[StIdx<S>],
    overlay: &mut Overlay<S>,
    lexemes: &LexemeList<'_, L, E>,
    index: usize,
    steps: &[RepairStep<S>],
) -> Result<bool, AllocError>
    requires inside { AreInside machine.now.grm.now.grammar (token_by L.lex) lexemes.now }
    requires index { index ≤ length lexemes.now }
    requires states { AreStates machine.now.stable.now (stack_of S.number base.now) }
    requires some { 0 < length base.now }
    ensures { IfOk result (λ taken. SequenceTells S.MAX machine.now.grm.now.grammar machine.now.stable.now (token_by L.lex) (edits_of S.number steps.now) (stack_of S.number base.now) (drop index lexemes.now) taken) }
{
    overlay.kept = base.len();
    overlay.over.clear();
    let mut at = index;
    'steps: for number in 0..steps.len() {
        let step = step_at(steps, number);
        let Some(next) = take_step(machine, base, overlay, lexemes, at, step)? else {
            return Ok(false);
        };
        at = next;
    }
    let taken = gets_past(machine, base, overlay, lexemes, at)?;
    Ok(taken)
}

/// Returns those of the passed sequences that can be taken where the lexeme at an index is next, in their order.
pub(crate) fn taken_of<S: IndexStorage, L: Lexeme<S>, E: Copy>(
    alloc: Global,
    machine: &Machine<'_, S>,
    base: &[StIdx<S>],
    lexemes: &LexemeList<'_, L, E>,
    index: usize,
    offered: Vec<Vec<RepairStep<S>>>,
) -> Result<Vec<Vec<RepairStep<S>>>, AllocError>
    requires inside { AreInside machine.now.grm.now.grammar (token_by L.lex) lexemes.now }
    requires index { index ≤ length lexemes.now }
    requires states { AreStates machine.now.stable.now (stack_of S.number base.now) }
    requires some { 0 < length base.now }
    ensures { IfOk result (λ taken. ListTells S.MAX machine.now.grm.now.grammar machine.now.stable.now (token_by L.lex) (stack_of S.number base.now) (drop index lexemes.now) (sequences_of S.number offered.items) (sequences_of S.number taken.items)) }
{
    let mut overlay = Overlay {
        kept: 0,
        over: Vec::new(alloc),
    };
    let mut taken = Vec::new(alloc);
    'sequences: for steps in offered {
        if is_taken(
            machine,
            base,
            &mut overlay,
            lexemes,
            index,
            steps.as_slice(),
        )? {
            taken.push(steps)?;
        }
    }
    Ok(taken)
}
