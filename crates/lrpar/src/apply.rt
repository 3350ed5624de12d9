//! Applies a sequence of repairs to the stacks of a run.

ghost use Rattle.std.specs.Prelude.{◌≡◌, ◌<◌, ◌≤◌, ◌∷◌, ℕ, true, List, length, drop, slice_get, Some, IfOk, OnOk};
ghost use Rattle.cfg_theory.specs.Grammar.{end_token};
ghost use Rattle.lr_theory.specs.Machine.{Config};
ghost use Rattle.lr_theory.specs.Repair.{Edit, Takes};
ghost use Rattle.state_table.specs.Tables.{automaton_of};
ghost use Rattle.parse_trees.specs.Lex.{lex_at, token_by};
ghost use Rattle.lrpar.specs.Made.{next_start, end_of, made_by};
ghost use Rattle.parse_trees.specs.Lexemes.{AreLexemes};
ghost use Rattle.lrpar.specs.Run.{AreStacks, StandFor, GoesOn, StartsByNext};
ghost use Rattle.parse_trees.specs.Edits.{edit_of, edits_of};
ghost use Rattle.lrpar.specs.Applied.{FailsPast, OnWay, GoesOnWay, IsApplied};

use crate::machine::Machine;
use crate::run::{Advance, advance_to};
use crate::stacks::Stacks;
use cfg_base::index::IndexStorage;
use cfg_base::symbol::TIdx;
use parse_trees::lex_api::Lexeme;
use parse_trees::lexeme_list::LexemeList;
use parse_trees::parse_repair::RepairStep;
use parse_trees::values::ValueStack;
use std::alloc::{AllocError, Global};

/// Returns the offset at which the last lexeme ends, 0 where there is none.
pub(crate) fn end_offset<S: IndexStorage, L: Lexeme<S>, E: Copy>(
    lexemes: &LexemeList<'_, L, E>,
) -> usize
    ensures { result ≡ end_of L.lex lexemes.now }
{
    let count = lexemes.len();
    if count == 0 {
        return 0;
    }
    lexemes.at(count - 1).span().end()
}

/// Returns the byte offset of a lexeme that is inserted before the one at the index: past the last one, the end of all.
fn start_before<S: IndexStorage, L: Lexeme<S>, E: Copy>(
    lexemes: &LexemeList<'_, L, E>,
    index: usize,
) -> usize
    ensures { result ≡ next_start L.lex (end_of L.lex lexemes.now) (drop index lexemes.now) }
{
    match lexemes.get(index) {
        Some(lexeme) => lexeme.span().start(),
        None => end_offset(lexemes),
    }
}

/// Returns the lexeme of a token that is inserted before the one at the index.
fn made_before<S: IndexStorage, L: Lexeme<S>, E: Copy>(
    lexemes: &LexemeList<'_, L, E>,
    index: usize,
    tidx: TIdx<S>,
) -> L
    ensures made { result ≡ made_by L.faulty_of L.lex (end_of L.lex lexemes.now) (S.number tidx.0) (drop index lexemes.now) }
    ensures is { L.lex result ≡ lex_at (S.number tidx.0) (next_start L.lex (end_of L.lex lexemes.now) (drop index lexemes.now)) 0 true }
{
    // For the proof alone: this read shows that the number is one.
    let _token = tidx.0.to_usize();
    let start = start_before(lexemes, index);
    L::new_faulty(tidx.0, start, 0)
}

/// Takes turns until a lexeme that comes next is shifted, where no run fails at it.
fn put_on<S: IndexStorage, L: Lexeme<S>, V: ValueStack<S, L>>(
    alloc: Global,
    machine: &Machine<'_, S>,
    stacks: &mut Stacks<S, V>,
    lexeme: L,
) -> Result<(), AllocError>
    requires inside { (L.lex lexeme).token < end_token machine.now.grm.now.grammar }
    requires stacks { AreStacks S.number machine.now.stable.now stacks.old }
    requires start { V.starts_by stacks.old.values (L.lex lexeme).places.start }
    requires stand { (input : List L) × (c : Config L) × StandFor S.number L.lex machine.now.grm.now.grammar machine.now.sgraph.now machine.now.stable.now (V.stands machine.now.grm.now.grammar) input stacks.old c × (c.rest ≡ lexeme ∷ drop 1 c.rest) × FailsPast L.lex machine.now.grm.now.grammar machine.now.sgraph.now machine.now.stable.now c c.rest }
    ensures goes { OnOk result ((input : List L) (c : Config L) → StandFor S.number L.lex machine.now.grm.now.grammar machine.now.sgraph.now machine.now.stable.now (V.stands machine.now.grm.now.grammar) input stacks.old c → c.rest ≡ lexeme ∷ drop 1 c.rest →
        (n : ℕ) × GoesOn S.number L.lex machine.now.grm.now.grammar machine.now.sgraph.now machine.now.stable.now (V.stands machine.now.grm.now.grammar) input n c stacks.new (drop 1 c.rest)) }
    ensures stacks { OnOk result (AreStacks S.number machine.now.stable.now stacks.new) }
    ensures start { OnOk result (V.starts_by stacks.new.values (L.lex lexeme).places.start) }
    ensures keeps { OnOk result (V.keeps stacks.old.values stacks.new.values) }
{
    match advance_to(alloc, machine, stacks, Some(lexeme))? {
        Advance::Shifted => Ok(()),
        Advance::Accepted => unreachable!(),
        Advance::Failed => unreachable!(),
    }
}

/// Applies one step before the lexeme at the index, and returns the index of the next one that is left.
fn apply_step<S: IndexStorage, L: Lexeme<S>, E: Copy, V: ValueStack<S, L>>(
    alloc: Global,
    machine: &Machine<'_, S>,
    stacks: &mut Stacks<S, V>,
    lexemes: &LexemeList<'_, L, E>,
    index: usize,
    step: RepairStep<S>,
) -> Result<usize, AllocError>
    requires lexemes { AreLexemes machine.now.grm.now.grammar L.lex lexemes.now }
    requires stacks { AreStacks S.number machine.now.stable.now stacks.old }
    requires starts { StartsByNext L.lex (V.starts_by stacks.old.values) lexemes.now index }
    requires index { index ≤ length lexemes.now }
    requires on { (input : List L) × (c : Config L) × (es : List Edit) × (left : List L) × OnWay S.number L.lex machine.now.grm.now.grammar machine.now.sgraph.now machine.now.stable.now (V.stands machine.now.grm.now.grammar) (made_by L.faulty_of L.lex (end_of L.lex lexemes.now)) input c stacks.old (drop index lexemes.now) (edit_of S.number step ∷ es) left }
    ensures on { IfOk result (λ p. (input : List L) (c : Config L) (es : List Edit) (left : List L) → OnWay S.number L.lex machine.now.grm.now.grammar machine.now.sgraph.now machine.now.stable.now (V.stands machine.now.grm.now.grammar) (made_by L.faulty_of L.lex (end_of L.lex lexemes.now)) input c stacks.old (drop index lexemes.now) (edit_of S.number step ∷ es) left →
        GoesOnWay S.number L.lex machine.now.grm.now.grammar machine.now.sgraph.now machine.now.stable.now (V.stands machine.now.grm.now.grammar) (made_by L.faulty_of L.lex (end_of L.lex lexemes.now)) input c stacks.new (drop p lexemes.now) es left) }
    ensures stacks { OnOk result (AreStacks S.number machine.now.stable.now stacks.new) }
    ensures starts { IfOk result (StartsByNext L.lex (V.starts_by stacks.new.values) lexemes.now) }
    ensures index { IfOk result (λ p. p ≤ length lexemes.now) }
    ensures keeps { OnOk result (V.keeps stacks.old.values stacks.new.values) }
{
    // For the proof alone: this read shows that the number of lexemes fits.
    let _count = lexemes.len();
    match step {
        RepairStep::Insert(tidx) => {
            let made = made_before(lexemes, index, tidx);
            put_on(alloc, machine, stacks, made)?;
            Ok(index)
        }
        RepairStep::Shift => {
            put_on(alloc, machine, stacks, lexemes.at(index))?;
            Ok(index + 1)
        }
        RepairStep::Delete => Ok(index + 1),
    }
}

/// Returns the step of a number.
fn step_at<S: IndexStorage>(steps: &[RepairStep<S>], number: usize) -> RepairStep<S>
    requires { number < length steps.now }
    ensures { slice_get steps.now number ≡ Some result }
{
    steps[number]
}

/// Applies a sequence that can be taken before the lexeme at the index, and returns the index of the next one that is
/// left.
pub(crate) fn apply_steps<S: IndexStorage, L: Lexeme<S>, E: Copy, V: ValueStack<S, L>>(
    alloc: Global,
    machine: &Machine<'_, S>,
    stacks: &mut Stacks<S, V>,
    lexemes: &LexemeList<'_, L, E>,
    at: usize,
    steps: &[RepairStep<S>],
) -> Result<usize, AllocError>
    requires lexemes { AreLexemes machine.now.grm.now.grammar L.lex lexemes.now }
    requires index { at ≤ length lexemes.now }
    requires stacks { AreStacks S.number machine.now.stable.now stacks.old }
    requires starts { StartsByNext L.lex (V.starts_by stacks.old.values) lexemes.now at }
    requires stand { (input : List L) × (d : Config L) × StandFor S.number L.lex machine.now.grm.now.grammar machine.now.sgraph.now machine.now.stable.now (V.stands machine.now.grm.now.grammar) input stacks.old d × (d.rest ≡ drop at lexemes.now) × Takes machine.now.grm.now.grammar (automaton_of machine.now.sgraph.now machine.now.stable.now) (token_by L.lex) (made_by L.faulty_of L.lex (end_of L.lex lexemes.now)) d (edits_of S.number steps.now) }
    ensures applied { IfOk result (λ p. (input : List L) (d : Config L) → StandFor S.number L.lex machine.now.grm.now.grammar machine.now.sgraph.now machine.now.stable.now (V.stands machine.now.grm.now.grammar) input stacks.old d → d.rest ≡ drop at lexemes.now →
        (k : Takes machine.now.grm.now.grammar (automaton_of machine.now.sgraph.now machine.now.stable.now) (token_by L.lex) (made_by L.faulty_of L.lex (end_of L.lex lexemes.now)) d (edits_of S.number steps.now)) →
        IsApplied S.number L.lex machine.now.grm.now.grammar machine.now.sgraph.now machine.now.stable.now (V.stands machine.now.grm.now.grammar) (made_by L.faulty_of L.lex (end_of L.lex lexemes.now)) d (edits_of S.number steps.now) k stacks.new (drop p lexemes.now)) }
    ensures stacks { OnOk result (AreStacks S.number machine.now.stable.now stacks.new) }
    ensures starts { IfOk result (StartsByNext L.lex (V.starts_by stacks.new.values) lexemes.now) }
    ensures index { IfOk result (λ p. p ≤ length lexemes.now) }
    ensures keeps { OnOk result (V.keeps stacks.old.values stacks.new.values) }
{
    let mut index = at;
    'steps: for number in 0..steps.len() {
        let step = step_at(steps, number);
        index = apply_step(alloc, machine, stacks, lexemes, index, step)?;
    }
    Ok(index)
}
