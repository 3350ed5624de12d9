//! An overlay over the states of a run, on which turns are made without touching or copying the run's own stack.

ghost use Rattle.std.specs.Prelude.{◌≡◌, ◌<◌, ◌≤◌, ◌∷◌, false, length, drop, IfOk, OnOk};
ghost use Rattle.cfg_theory.specs.Grammar.{end_token};
ghost use Rattle.state_table.specs.Tables.{automaton_of};
ghost use Rattle.lrpar.specs.Reducing.{ReducesTo};
ghost use Rattle.lrpar.specs.Replay.{overlaid, IsOver, first_of, Rests, TellsShift, TellsAccept};
ghost use Rattle.lrpar.specs.Taking.{EditsAreTaken};
ghost use Rattle.state_table.specs.Graphs.{GraphValue};
ghost use Rattle.state_table.specs.CellViews.{state_of};

use crate::machine::Machine;
use cfg_base::index::IndexStorage;
use cfg_base::symbol::TIdx;
use state_table::{Action, StIdx};
use std::alloc::AllocError;

/// The lowest `kept` states of a base, and the states over them. The top is last.
#[derive(Drop)]
pub(crate) struct Overlay<S: IndexStorage> {
    pub kept: usize,
    pub over: Vec<StIdx<S>>,
}

/// Returns the state with `count` others above it.
pub(crate) fn under<S: IndexStorage>(
    base: &[StIdx<S>],
    overlay: &Overlay<S>,
    count: usize,
) -> Option<StIdx<S>>
    requires within { overlay.now.kept ≤ length base.now }
    ensures { state_of S.number result ≡ first_of (drop count (overlaid S.number base.now overlay.now)) }
{
    let over = overlay.over.len();
    if count < over {
        return Some(overlay.over[over - 1 - count]);
    }
    let more = count - over;
    if more < overlay.kept {
        return Some(base[overlay.kept - 1 - more]);
    }
    None
}

/// Takes the `count` topmost states off.
fn cut<S: IndexStorage>(base: &[StIdx<S>], overlay: &mut Overlay<S>, count: usize)
    requires within { overlay.old.kept ≤ length base.now }
    requires enough { count ≤ length (overlaid S.number base.now overlay.old) }
    ensures within { overlay.new.kept ≤ length base.now }
    ensures stack { overlaid S.number base.now overlay.new ≡ drop count (overlaid S.number base.now overlay.old) }
{
    let over = overlay.over.len();
    if count <= over {
        overlay.over.truncate(over - count);
        return;
    }
    overlay.kept -= count - over;
    overlay.over.clear();
}

/// Puts a state in the place of the `count` topmost ones.
pub(crate) fn replace<S: IndexStorage>(
    base: &[StIdx<S>],
    overlay: &mut Overlay<S>,
    count: usize,
    target: StIdx<S>,
) -> Result<(), AllocError>
    requires within { overlay.old.kept ≤ length base.now }
    requires enough { count ≤ length (overlaid S.number base.now overlay.old) }
    ensures within { OnOk result (overlay.new.kept ≤ length base.now) }
    ensures stack { OnOk result (overlaid S.number base.now overlay.new ≡ S.number target.0 ∷ drop count (overlaid S.number base.now overlay.old)) }
{
    cut(base, overlay, count);
    overlay.over.push(target)?;
    Ok(())
}

/// Makes one reduction on the token, where one is made that leaves a state, and returns whether it did.
pub(crate) fn reduce_on<S: IndexStorage>(
    machine: &Machine<'_, S>,
    base: &[StIdx<S>],
    overlay: &mut Overlay<S>,
    tidx: TIdx<S>,
) -> Result<bool, AllocError>
    requires token { S.number tidx.0 < machine.now.stable.now.tokens }
    requires over { IsOver S.number machine.now.stable.now base.now overlay.old }
    ensures made { IfOk result (λ made. (g : GraphValue) → ReducesTo machine.now.grm.now.grammar (automaton_of g machine.now.stable.now) (S.number tidx.0) (overlaid S.number base.now overlay.old) (overlaid S.number base.now overlay.new) made) }
    ensures same { IfOk result (λ made. made ≡ false → overlaid S.number base.now overlay.new ≡ overlaid S.number base.now overlay.old) }
    ensures over { IfOk result (λ made. IsOver S.number machine.now.stable.now base.now overlay.new) }
{
    let Some(top) = under(base, overlay, 0) else {
        return Ok(false);
    };
    let Action::Reduce(pidx) = machine.stable.action(top, tidx) else {
        return Ok(false);
    };
    let count = machine.grm.prod_len(pidx).0.to_usize();
    let Some(below) = under(base, overlay, count) else {
        return Ok(false);
    };
    let Some(target) = machine.stable.goto(below, machine.grm.prod_to_rule(pidx)) else {
        return Ok(false);
    };
    replace(base, overlay, count, target)?;
    Ok(true)
}

/// Reduces on the token until it has no more reductions. As chains of them are within the limit, this ends.
pub(crate) fn reduce_all<S: IndexStorage>(
    machine: &Machine<'_, S>,
    base: &[StIdx<S>],
    overlay: &mut Overlay<S>,
    tidx: TIdx<S>,
) -> Result<(), AllocError>
    requires token { S.number tidx.0 < machine.now.stable.now.tokens }
    requires over { IsOver S.number machine.now.stable.now base.now overlay.old }
    ensures rests { OnOk result ((g : GraphValue) → Rests machine.now.grm.now.grammar (automaton_of g machine.now.stable.now) (S.number tidx.0) (overlaid S.number base.now overlay.old) (overlaid S.number base.now overlay.new)) }
    ensures over { OnOk result (IsOver S.number machine.now.stable.now base.now overlay.new) }
{
    'reductions: loop {
        if !reduce_on(machine, base, overlay, tidx)? {
            return Ok(());
        }
    }
}

/// Returns whether the token is shifted after reductions on it; where it is, that is done.
pub(crate) fn shift_on<S: IndexStorage>(
    machine: &Machine<'_, S>,
    base: &[StIdx<S>],
    overlay: &mut Overlay<S>,
    tidx: TIdx<S>,
) -> Result<bool, AllocError>
    requires token { S.number tidx.0 < machine.now.stable.now.tokens }
    requires over { IsOver S.number machine.now.stable.now base.now overlay.old }
    ensures shifts { IfOk result (λ shifted. (g : GraphValue) → TellsShift machine.now.grm.now.grammar (automaton_of g machine.now.stable.now) (S.number tidx.0) (overlaid S.number base.now overlay.old) (overlaid S.number base.now overlay.new) shifted) }
    ensures over { IfOk result (λ shifted. IsOver S.number machine.now.stable.now base.now overlay.new) }
{
    reduce_all(machine, base, overlay, tidx)?;
    let Some(top) = under(base, overlay, 0) else {
        return Ok(false);
    };
    let Action::Shift(target) = machine.stable.action(top, tidx) else {
        return Ok(false);
    };
    replace(base, overlay, 0, target)?;
    Ok(true)
}

/// Returns whether the run accepts after reductions on the end token.
pub(crate) fn accepts_on<S: IndexStorage>(
    machine: &Machine<'_, S>,
    base: &[StIdx<S>],
    overlay: &mut Overlay<S>,
) -> Result<bool, AllocError>
    requires over { IsOver S.number machine.now.stable.now base.now overlay.old }
    ensures { IfOk result (λ accepts. (g : GraphValue) → TellsAccept machine.now.grm.now.grammar (automaton_of g machine.now.stable.now) (end_token machine.now.grm.now.grammar) (overlaid S.number base.now overlay.old) accepts) }
{
    let eof = machine.grm.eof_token_idx();
    reduce_all(machine, base, overlay, eof)?;
    let Some(top) = under(base, overlay, 0) else {
        return Ok(false);
    };
    match machine.stable.action(top, eof) {
        Action::Accept => Ok(true),
        _ => Ok(false),
    }
}

/// Proves that the turns on one token decide, edit by edit, whether a sequence of repairs can be taken.
#[tactic(auto, using(crate::proofs::Taken::edits_are_taken))]
pub fn edits_are_taken<L>()
    ensures { EditsAreTaken L }
{}
