//! The run over checked tables: shifts and reductions, with values from functions that are passed.

ghost use Rattle.std.specs.Prelude.{◌≡◌, ◌≤◌, ◌+◌, List, length, drop, IfOk, OnOk};
ghost use Rattle.lr_theory.specs.Machine.{Config};
ghost use Rattle.state_table.specs.Graphs.{GraphValue};
ghost use Rattle.state_table.specs.Tables.{automaton_of};
ghost use Rattle.lrpar.specs.Reducing.{stack_of};
ghost use Rattle.parse_trees.specs.Lexemes.{AreLexemes};
ghost use Rattle.lrpar.specs.Run.{StartsByNext, StandFor, AreStacks, token_of, NextOf, NextInside, StartsBefore, Turned, StacksAfter, StartsAfter, TurnReduces, Advanced, StacksAdvanced, Ended, StacksEnded};
ghost use Rattle.parse_trees.specs.Lex.{token_by};
ghost use Rattle.cfg_theory.specs.Grammar.{end_token};

use crate::machine::Machine;
use crate::stacks::{Stacks, reduce_onto, shift_onto};
use cfg_base::index::IndexStorage;
use cfg_base::symbol::TIdx;
use cfg_numbered::yacc::grammar::NumberedGrammar;
use parse_trees::lex_api::Lexeme;
use parse_trees::lexeme_list::LexemeList;
use parse_trees::values::ValueStack;
use state_table::Action;
use std::alloc::{AllocError, Global};

/// How a turn of a run ends.
pub(crate) enum Turn {
    Reduced,
    Shifted,
    Accepted,
    Failed,
}

/// How the turns up to the next shift end.
pub(crate) enum Advance {
    Shifted,
    Accepted,
    Failed,
}

/// How a run ends: it accepts, or fails at the lexeme at this index (the number of lexemes: past the last one).
pub(crate) enum Ending {
    Accepted,
    Failed(usize),
}

/// Returns the token of the next lexeme, or the end token where there is none.
fn next_token<S: IndexStorage, L: Lexeme<S>>(grm: &NumberedGrammar<S>, next: Option<L>) -> TIdx<S>
    ensures { S.number result.0 ≡ token_of (token_by L.lex) (end_token grm.now.grammar) next }
{
    match next {
        Some(lexeme) => TIdx(lexeme.tok_id()),
        None => grm.eof_token_idx(),
    }
}

/// Makes one step of the machine, on the stacks. `tidx` is the token of the next lexeme, or the end token where there
/// is none.
#[inline(always)]
fn take_turn<S: IndexStorage, L: Lexeme<S>, V: ValueStack<S, L>>(
    alloc: Global,
    machine: &Machine<'_, S>,
    stacks: &mut Stacks<S, V>,
    next: Option<L>,
    tidx: TIdx<S>,
) -> Result<Turn, AllocError>
    requires inside { NextInside machine.now.grm.now.grammar L.lex next }
    requires token { S.number tidx.0 ≡ token_of (token_by L.lex) (end_token machine.now.grm.now.grammar) next }
    requires stacks { AreStacks S.number machine.now.stable.now stacks.old }
    requires starts { StartsBefore L.lex (V.starts_by stacks.old.values) next }
    requires stand { (input : List L) × (d : Config L) × StandFor S.number L.lex machine.now.grm.now.grammar machine.now.sgraph.now machine.now.stable.now (V.stands machine.now.grm.now.grammar) input stacks.old d × NextOf next d.rest }
    ensures turned { IfOk result (λ t. (input : List L) (d : Config L) → StandFor S.number L.lex machine.now.grm.now.grammar machine.now.sgraph.now machine.now.stable.now (V.stands machine.now.grm.now.grammar) input stacks.old d → NextOf next d.rest →
        Turned S.number L.lex machine.now.grm.now.grammar machine.now.sgraph.now machine.now.stable.now (V.stands machine.now.grm.now.grammar) input d stacks.new next t) }
    ensures stacks { IfOk result (StacksAfter S.number machine.now.stable.now stacks.new) }
    ensures starts { IfOk result (StartsAfter L.lex (V.starts_by stacks.old.values) (V.starts_by stacks.new.values) next) }
    ensures keeps { OnOk result (V.keeps stacks.old.values stacks.new.values) }
    ensures reduces { IfOk result (λ t. (g : GraphValue) → TurnReduces machine.now.grm.now.grammar (automaton_of g machine.now.stable.now) (token_of (token_by L.lex) (end_token machine.now.grm.now.grammar) next) (stack_of S.number stacks.old.states.items) (stack_of S.number stacks.new.states.items) t) }
{
    let top = stacks.states[stacks.states.len() - 1];
    match machine.stable.action(top, tidx) {
        Action::Shift(target) => match next {
            Some(lexeme) => {
                shift_onto(alloc, stacks, lexeme, target)?;
                Ok(Turn::Shifted)
            }
            None => unreachable!(),
        },
        Action::Reduce(pidx) => {
            reduce_onto(alloc, machine, stacks, pidx)?;
            Ok(Turn::Reduced)
        }
        Action::Accept => Ok(Turn::Accepted),
        Action::Error => Ok(Turn::Failed),
    }
}

/// Turns until a lexeme is shifted, the run accepts or it fails. As chains of reductions are within the limit, it ends.
pub(crate) fn advance_to<S: IndexStorage, L: Lexeme<S>, V: ValueStack<S, L>>(
    alloc: Global,
    machine: &Machine<'_, S>,
    stacks: &mut Stacks<S, V>,
    next: Option<L>,
) -> Result<Advance, AllocError>
    requires inside { NextInside machine.now.grm.now.grammar L.lex next }
    requires stacks { AreStacks S.number machine.now.stable.now stacks.old }
    requires starts { StartsBefore L.lex (V.starts_by stacks.old.values) next }
    requires stand { (input : List L) × (d : Config L) × StandFor S.number L.lex machine.now.grm.now.grammar machine.now.sgraph.now machine.now.stable.now (V.stands machine.now.grm.now.grammar) input stacks.old d × NextOf next d.rest }
    ensures advanced { IfOk result (λ t. (input : List L) (d : Config L) → StandFor S.number L.lex machine.now.grm.now.grammar machine.now.sgraph.now machine.now.stable.now (V.stands machine.now.grm.now.grammar) input stacks.old d → NextOf next d.rest →
        Advanced S.number L.lex machine.now.grm.now.grammar machine.now.sgraph.now machine.now.stable.now (V.stands machine.now.grm.now.grammar) input d stacks.new next t) }
    ensures stacks { IfOk result (StacksAdvanced S.number L.lex machine.now.stable.now (V.starts_by stacks.old.values) (V.starts_by stacks.new.values) stacks.new next) }
    ensures keeps { OnOk result (V.keeps stacks.old.values stacks.new.values) }
{
    let tidx = next_token(machine.grm, next);
    'turns: loop {
        match take_turn(alloc, machine, stacks, next, tidx)? {
            Turn::Reduced => {}
            Turn::Shifted => return Ok(Advance::Shifted),
            Turn::Accepted => return Ok(Advance::Accepted),
            Turn::Failed => return Ok(Advance::Failed),
        }
    }
}

/// Runs from an index on until the run accepts or fails.
pub(crate) fn run_from<S: IndexStorage, L: Lexeme<S>, E: Copy, V: ValueStack<S, L>>(
    alloc: Global,
    machine: &Machine<'_, S>,
    stacks: &mut Stacks<S, V>,
    lexemes: &LexemeList<'_, L, E>,
    index: usize,
) -> Result<Ending, AllocError>
    requires lexemes { AreLexemes machine.now.grm.now.grammar L.lex lexemes.now }
    requires index { index ≤ length lexemes.now }
    requires stacks { AreStacks S.number machine.now.stable.now stacks.old }
    requires starts { StartsByNext L.lex (V.starts_by stacks.old.values) lexemes.now index }
    requires stand { (input : List L) × (d : Config L) × StandFor S.number L.lex machine.now.grm.now.grammar machine.now.sgraph.now machine.now.stable.now (V.stands machine.now.grm.now.grammar) input stacks.old d × (d.rest ≡ drop index lexemes.now) }
    ensures ended { IfOk result (λ e. (input : List L) (d : Config L) → StandFor S.number L.lex machine.now.grm.now.grammar machine.now.sgraph.now machine.now.stable.now (V.stands machine.now.grm.now.grammar) input stacks.old d → d.rest ≡ drop index lexemes.now →
        Ended S.number L.lex machine.now.grm.now.grammar machine.now.sgraph.now machine.now.stable.now (V.stands machine.now.grm.now.grammar) input d stacks.new lexemes.now e) }
    ensures stacks { IfOk result (StacksEnded S.number L.lex machine.now.stable.now (V.starts_by stacks.new.values) stacks.new lexemes.now) }
    ensures keeps { OnOk result (V.keeps stacks.old.values stacks.new.values) }
{
    // For the proof alone: this read shows that the number of lexemes fits.
    let _count = lexemes.len();
    let mut at = index;
    'lexemes: loop {
        let next = lexemes.get(at);
        match advance_to(alloc, machine, stacks, next)? {
            Advance::Shifted => at += 1,
            Advance::Accepted => return Ok(Ending::Accepted),
            Advance::Failed => return Ok(Ending::Failed(at)),
        }
    }
}
