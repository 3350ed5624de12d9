//! Parses with repairs: a run, and at each of its errors the first passed sequence that can be taken.

ghost use Rattle.std.specs.Prelude.{◌≡◌, ◌≤◌, ◌<◌, ℕ, List, [], length, drop, IfOk, OnOk};
ghost use Rattle.lr_theory.specs.Machine.{Config};
ghost use Rattle.lr_theory.specs.Stack.{Stands};
ghost use Rattle.state_table.specs.Tables.{automaton_of};
ghost use Rattle.lrpar.specs.Made.{end_of, made_by, next_lexeme};
ghost use Rattle.lrpar.specs.Parses.{HoldsValue, IsParse};
ghost use Rattle.lrpar.specs.Parsing.{error_of, errors_of, IsFoundAt, ComesOf, StacksResume};
ghost use Rattle.lrpar.specs.Reducing.{stack_of, AreStates};
ghost use Rattle.parse_trees.specs.Lexemes.{AreLexemes};
ghost use Rattle.lrpar.specs.Run.{StartsByNext, StandFor, AreStacks};
ghost use Rattle.parse_trees.specs.Lex.{token_by};

use crate::apply::{apply_steps, end_offset};
use crate::machine::Machine;
use crate::recoverer::{Recoverer, RepairStep};
use crate::repair::taken_of;
use crate::run::{Ending, run_from};
use crate::stacks::Stacks;
use cfg_base::index::IndexStorage;
use cfg_numbered::yacc::grammar::NumberedGrammar;
use parse_trees::lex_api::Lexeme;
use parse_trees::lexeme_list::LexemeList;
use parse_trees::values::ValueStack;
use state_table::StIdx;
use std::alloc::{AllocError, Global};

/// An error of a run.
#[derive(Drop)]
pub(crate) struct ErrorFound<S: IndexStorage, L> {
    /// The state on top.
    pub stidx: StIdx<S>,
    /// The next lexeme, or past the last one a faulty lexeme of the end token.
    pub lexeme: L,
    /// The lexeme's index.
    pub index: usize,
    /// The sequences that can be taken there, in the order in which they were passed.
    pub repairs: Vec<Vec<RepairStep<S>>>,
}

/// An error, and the index at which the run goes on after its first sequence, if it has one.
#[derive(Drop)]
pub(crate) struct Mended<S: IndexStorage, L> {
    pub found: ErrorFound<S, L>,
    pub next: Option<usize>,
}

/// The result of a parse: its values, whether it accepts, and its errors.
#[derive(Drop)]
pub(crate) struct Parsed<S: IndexStorage, L, V> {
    pub values: V,
    pub accepted: bool,
    pub errors: Vec<ErrorFound<S, L>>,
}

/// Returns the lexeme at the index, or past the last one a faulty lexeme of the end token.
fn lexeme_or_end<S: IndexStorage, L: Lexeme<S>, E: Copy>(
    grm: &NumberedGrammar<S>,
    lexemes: &LexemeList<'_, L, E>,
    index: usize,
) -> L
    ensures { result ≡ next_lexeme grm.now.grammar (made_by L.faulty_of L.lex (end_of L.lex lexemes.now)) (drop index lexemes.now) }
{
    match lexemes.get(index) {
        Some(lexeme) => lexeme,
        None => L::new_faulty(grm.eof_token_idx().0, end_offset(lexemes), 0),
    }
}

/// Returns the error of a run that failed at the index: asks the recoverer, and lists what can be taken.
fn find_error<S: IndexStorage, L: Lexeme<S>, E: Copy, R: Recoverer<S, L>>(
    alloc: Global,
    machine: &Machine<'_, S>,
    states: &[StIdx<S>],
    lexemes: &LexemeList<'_, L, E>,
    index: usize,
    recoverer: &R,
) -> Result<ErrorFound<S, L>, AllocError>
    requires lexemes { AreLexemes machine.now.grm.now.grammar L.lex lexemes.now }
    requires index { index ≤ length lexemes.now }
    requires states { AreStates machine.now.stable.now (stack_of S.number states.now) }
    requires some { 0 < length states.now }
    ensures { IfOk result (λ e. (input : List L) (d : Config L) → Stands machine.now.grm.now.grammar (automaton_of machine.now.sgraph.now machine.now.stable.now) (token_by L.lex) input d → d.states ≡ stack_of S.number states.now → d.rest ≡ drop index lexemes.now →
        IsFoundAt machine.now.grm.now.grammar (automaton_of machine.now.sgraph.now machine.now.stable.now) (token_by L.lex) (made_by L.faulty_of L.lex (end_of L.lex lexemes.now)) (R.answers recoverer.now) lexemes.now d (error_of S.number e)) }
{
    let stidx = states[states.len() - 1];
    let lexeme = lexeme_or_end(machine.grm, lexemes, index);
    let offered = recoverer.sequences(alloc, stidx, index, lexeme)?;
    let repairs = taken_of(alloc, machine, states, lexemes, index, offered)?;
    Ok(ErrorFound {
        stidx,
        lexeme,
        index,
        repairs,
    })
}

/// Finds the error of a run that failed at the index, and applies the first sequence that can be taken there.
fn repair_at<S: IndexStorage, L: Lexeme<S>, E: Copy, V: ValueStack<S, L>, R: Recoverer<S, L>>(
    alloc: Global,
    machine: &Machine<'_, S>,
    stacks: &mut Stacks<S, V>,
    lexemes: &LexemeList<'_, L, E>,
    index: usize,
    recoverer: &R,
) -> Result<Mended<S, L>, AllocError>
    requires lexemes { AreLexemes machine.now.grm.now.grammar L.lex lexemes.now }
    requires index { index ≤ length lexemes.now }
    requires stacks { AreStacks S.number machine.now.stable.now stacks.old }
    requires starts { StartsByNext L.lex (V.starts_by stacks.old.values) lexemes.now index }
    requires stand { (input : List L) × (d : Config L) × StandFor S.number L.lex machine.now.grm.now.grammar machine.now.sgraph.now machine.now.stable.now (V.stands machine.now.grm.now.grammar) input stacks.old d × (d.rest ≡ drop index lexemes.now) }
    ensures mended { IfOk result (λ m. (input : List L) (d : Config L) → StandFor S.number L.lex machine.now.grm.now.grammar machine.now.sgraph.now machine.now.stable.now (V.stands machine.now.grm.now.grammar) input stacks.old d → d.rest ≡ drop index lexemes.now →
        ComesOf S.number L.lex machine.now.grm.now.grammar machine.now.sgraph.now machine.now.stable.now (V.stands machine.now.grm.now.grammar) (made_by L.faulty_of L.lex (end_of L.lex lexemes.now)) (R.answers recoverer.now) lexemes.now d stacks.new m) }
    ensures keeps { OnOk result (V.keeps stacks.old.values stacks.new.values) }
    ensures stacks { IfOk result (λ m. StacksResume S.number L.lex machine.now.stable.now (V.starts_by stacks.new.values) stacks.new lexemes.now m.next) }
{
    let found = find_error(
        alloc,
        machine,
        stacks.states.as_slice(),
        lexemes,
        index,
        recoverer,
    )?;
    match found.repairs.first() {
        Some(steps) => {
            let applied = apply_steps(alloc, machine, stacks, lexemes, index, steps.as_slice());
            match applied {
                Ok(next) => Ok(Mended {
                    found,
                    next: Some(next),
                }),
                Err(e) => {
                    drop(found);
                    Err(e)
                }
            }
        }
        None => Ok(Mended { found, next: None }),
    }
}

/// Runs over the lexemes, applying at each error the first passed sequence that can be taken; where there is none,
/// the parse ends.
pub(crate) fn parse_lexemes<
    S: IndexStorage,
    L: Lexeme<S>,
    E: Copy,
    V: ValueStack<S, L> + Drop,
    R: Recoverer<S, L>,
>(
    alloc: Global,
    machine: &Machine<'_, S>,
    lexemes: &LexemeList<'_, L, E>,
    recoverer: &R,
    values: V,
) -> Result<Parsed<S, L, V>, AllocError>
    requires lexemes { AreLexemes machine.now.grm.now.grammar L.lex lexemes.now }
    requires empty { V.stands machine.now.grm.now.grammar values [] }
    requires starts { (n : ℕ) → V.starts_by values n }
    ensures keeps { IfOk result (λ p. V.keeps values p.values) }
    ensures parse { IfOk result (λ p. IsParse machine.now.grm.now.grammar (automaton_of machine.now.sgraph.now machine.now.stable.now) (token_by L.lex) (made_by L.faulty_of L.lex (end_of L.lex lexemes.now)) (R.answers recoverer.now) (HoldsValue (V.stands machine.now.grm.now.grammar p.values) p.accepted) lexemes.now (errors_of S.number p.errors.items)) }
{
    let mut stack = Stacks::start(alloc, machine.stable.start_state(), values)?;
    let mut errors = Vec::new(alloc);
    let mut at = 0;
    'errors: loop {
        let ending = match run_from(alloc, machine, &mut stack, lexemes, at) {
            Ok(ending) => ending,
            Err(e) => {
                drop(stack);
                drop(errors);
                return Err(e);
            }
        };
        match ending {
            Ending::Accepted => {
                return Ok(Parsed {
                    values: stack.values,
                    accepted: true,
                    errors,
                });
            }
            Ending::Failed(index) => {
                let mended = repair_at(alloc, machine, &mut stack, lexemes, index, recoverer);
                let Mended { found, next } = match mended {
                    Ok(mended) => mended,
                    Err(e) => {
                        drop(stack);
                        drop(errors);
                        return Err(e);
                    }
                };
                errors.push(found)?;
                match next {
                    Some(index) => at = index,
                    None => {
                        return Ok(Parsed {
                            values: stack.values,
                            accepted: false,
                            errors,
                        });
                    }
                }
            }
        }
    }
}
