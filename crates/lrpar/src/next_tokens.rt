//! The tokens that may come after some lexemes.

ghost use Rattle.std.specs.Prelude.{◌<◌, ◌↔◌, ℕ, [], ◌∷◌, ◌++◌, length, map, IfOk, IfSome, IsNone, IsSome};
ghost use Rattle.cfg_theory.specs.Derivation.{AllProductive, BeginsSentence, IsSentence};
ghost use Rattle.cfg_theory.specs.Grammar.{end_token, start_symbol};
ghost use Rattle.lr_theory.specs.Automaton.{Complete};
ghost use Rattle.lr_theory.specs.Machine.{Config};
ghost use Rattle.state_table.specs.Graphs.{GraphValue};
ghost use Rattle.state_table.specs.Tables.{IsTableOf, automaton_of};
ghost use Rattle.lrpar.specs.NextStates.{AreInside, TellsInside, TellsNext, TellBelow, TellsStates, TellsAfter};
ghost use Rattle.lrpar.specs.NextTokens.{Reaches, HasError, IsSet, AreNext};
ghost use Rattle.lrpar.specs.Reducing.{AreStates, stack_of};
ghost use Rattle.parse_trees.specs.Lex.{token_by};

use crate::machine::Machine;
use crate::overlay::{Overlay, accepts_on, shift_on};
use crate::parserdata::ParserData;
use cfg_base::index::IndexStorage;
use cfg_base::symbol::TIdx;
use cfg_numbered::yacc::grammar::NumberedGrammar;
use parse_trees::lex_api::Lexeme;
use state_table::StIdx;
use std::alloc::{AllocError, Global};
use vob::Vob;

/// Returns whether all lexemes are of tokens of the grammar other than the end.
fn are_inside<S: IndexStorage, L: Lexeme<S>>(grm: &NumberedGrammar<S>, lexemes: &[L]) -> bool
    ensures { TellsInside grm.now.grammar (token_by L.lex) lexemes.now result }
{
    let end = grm.eof_token_idx().0.to_usize();
    'lexemes: for index in 0..lexemes.len() {
        if lexemes[index].tok_id().to_usize() >= end {
            return false;
        }
    }
    true
}

/// Returns the states right after the last of the lexemes was shifted, the last one on top; None where the run fails
/// before one.
fn states_behind<S: IndexStorage, L: Lexeme<S>>(
    alloc: Global,
    machine: &Machine<'_, S>,
    lexemes: &[L],
) -> Result<Option<Vec<StIdx<S>>>, AllocError>
    requires inside { AreInside machine.now.grm.now.grammar (token_by L.lex) lexemes.now }
    ensures reaches { IfOk result (λ o. TellsStates S.number machine.now.grm.now.grammar (automaton_of machine.now.sgraph.now machine.now.stable.now) (token_by L.lex) lexemes.now o) }
    ensures states { IfOk result (λ o. IfSome o (λ ss. AreStates machine.now.stable.now (stack_of S.number ss.items))) }
    ensures some { IfOk result (λ o. IfSome o (λ ss. 0 < length ss.items)) }
{
    let mut over = Vec::new(alloc);
    over.push(machine.stable.start_state())?;
    let mut overlay = Overlay { kept: 0, over };
    let base = Vec::new(alloc);
    'lexemes: for index in 0..lexemes.len() {
        let tidx = TIdx(lexemes[index].tok_id());
        if !shift_on(machine, base.as_slice(), &mut overlay, tidx)? {
            return Ok(None);
        }
    }
    Ok(Some(overlay.over))
}

/// Returns whether a token may come next on the base: it is shifted after the reductions that it asks for, or for the
/// end token the run accepts. What the overlay held is let go.
fn may_follow<S: IndexStorage>(
    machine: &Machine<'_, S>,
    base: &[StIdx<S>],
    overlay: &mut Overlay<S>,
    tidx: TIdx<S>,
) -> Result<bool, AllocError>
    requires token { S.number tidx.0 < machine.now.stable.now.tokens }
    requires states { AreStates machine.now.stable.now (stack_of S.number base.now) }
    requires some { 0 < length base.now }
    ensures { IfOk result (λ told. (g : GraphValue) → TellsNext machine.now.grm.now.grammar (automaton_of g machine.now.stable.now) (S.number tidx.0) (stack_of S.number base.now) told) }
{
    overlay.kept = base.len();
    overlay.over.clear();
    if tidx.0.to_usize() == machine.grm.eof_token_idx().0.to_usize() {
        let accepts = accepts_on(machine, base, overlay)?;
        return Ok(accepts);
    }
    let shifts = shift_on(machine, base, overlay, tidx)?;
    Ok(shifts)
}

/// Returns a bit for each token: whether it may come next on the base.
pub(crate) fn tokens_behind<S: IndexStorage>(
    alloc: Global,
    machine: &Machine<'_, S>,
    base: &[StIdx<S>],
) -> Result<Vob, AllocError>
    requires states { AreStates machine.now.stable.now (stack_of S.number base.now) }
    requires some { 0 < length base.now }
    ensures { IfOk result (λ v. (g : GraphValue) → TellBelow machine.now.grm.now.grammar (automaton_of g machine.now.stable.now) (stack_of S.number base.now) machine.now.grm.now.grammar.tokens v.bits) }
{
    let count = machine.grm.tokens_len().0.to_usize();
    let mut bits = Vob::from_elem(alloc, false, count)?;
    let mut overlay = Overlay {
        kept: 0,
        over: Vec::new(alloc),
    };
    'tokens: for number in 0..count {
        let tidx = machine.grm.token_at(number);
        let told = may_follow(machine, base, &mut overlay, tidx)?;
        bits.set(number, told);
    }
    Ok(bits)
}

/// Returns a bit for each token: whether it may come after the lexemes. None where these have an error themselves.
fn told_behind<S: IndexStorage, L: Lexeme<S>>(
    alloc: Global,
    machine: &Machine<'_, S>,
    lexemes: &[L],
) -> Result<Option<Vob>, AllocError>
    ensures { IfOk result (λ o. TellsAfter machine.now.grm.now.grammar (automaton_of machine.now.sgraph.now machine.now.stable.now) (token_by L.lex) lexemes.now o) }
{
    if !are_inside(machine.grm, lexemes) {
        return Ok(None);
    }
    let Some(states) = states_behind(alloc, machine, lexemes)? else {
        return Ok(None);
    };
    let bits = tokens_behind(alloc, machine, states.as_slice())?;
    Ok(Some(bits))
}

impl<S: IndexStorage> ParserData<S> {
    /// Returns the tokens that may come after these lexemes, a bit for each token by its number. The bit of the
    /// end token is set where the lexemes are a sentence. `None` where the lexemes have an error themselves. At
    /// an error, pass the lexemes before its index.
    ///
    /// A token's bit is set if and only if a run on the lexemes shifts that token next, or accepts at the end
    /// token. The stack is the one right after the last shift, since the stack at an error may have been reduced
    /// on the wrong lexeme already, and would give too few tokens. With a grammar's own table, where each rule
    /// derives some text, each such token begins a sentence with the lexemes; where `complete` holds too, no
    /// other does. A token costs the reductions before it, at most one chain.
    pub fn next_tokens<L: Lexeme<S>>(
        &self,
        alloc: Global,
        lexemes: &[L],
    ) -> Result<Option<Vob>, AllocError>
        ensures some { IfOk result (λ o. IfSome o (λ v. (c : Config L) × Reaches self.now.grammar.grammar (automaton_of self.now.graph self.now.table) (token_by L.lex) lexemes.now [] c × AreNext self.now.grammar.grammar (automaton_of self.now.graph self.now.table) (token_by L.lex) c v.bits)) }
        ensures none { IfOk result (λ o. IsNone o → HasError self.now.grammar.grammar (automaton_of self.now.graph self.now.table) (token_by L.lex) lexemes.now) }
        ensures sound { IfOk result (λ o. IfSome o (λ v. IsTableOf self.now.grammar self.now.graph self.now.table → AllProductive self.now.grammar.grammar →
            (t : ℕ) → t < end_token self.now.grammar.grammar → IsSet v.bits t → BeginsSentence self.now.grammar.grammar (start_symbol self.now.grammar.grammar) (map (token_by L.lex) lexemes.now ++ t ∷ []))) }
        ensures sound_end { IfOk result (λ o. IfSome o (λ v. IsSet v.bits (end_token self.now.grammar.grammar) → IsSentence self.now.grammar.grammar (start_symbol self.now.grammar.grammar) (map (token_by L.lex) lexemes.now))) }
        ensures exact { IfOk result (λ o. IfSome o (λ v. IsTableOf self.now.grammar self.now.graph self.now.table → Complete self.now.grammar.grammar (automaton_of self.now.graph self.now.table) → AllProductive self.now.grammar.grammar →
            (t : ℕ) → t < end_token self.now.grammar.grammar → IsSet v.bits t ↔ BeginsSentence self.now.grammar.grammar (start_symbol self.now.grammar.grammar) (map (token_by L.lex) lexemes.now ++ t ∷ []))) }
        ensures exact_end { IfOk result (λ o. IfSome o (λ v. IsTableOf self.now.grammar self.now.graph self.now.table → Complete self.now.grammar.grammar (automaton_of self.now.graph self.now.table) → AllProductive self.now.grammar.grammar →
            IsSet v.bits (end_token self.now.grammar.grammar) ↔ IsSentence self.now.grammar.grammar (start_symbol self.now.grammar.grammar) (map (token_by L.lex) lexemes.now))) }
        ensures begins { IfOk result (λ o. IsTableOf self.now.grammar self.now.graph self.now.table → Complete self.now.grammar.grammar (automaton_of self.now.graph self.now.table) → AllProductive self.now.grammar.grammar →
            IsSome o ↔ BeginsSentence self.now.grammar.grammar (start_symbol self.now.grammar.grammar) (map (token_by L.lex) lexemes.now)) }
    {
        self.facts();
        // For the proof alone: this read shows that each token's number is one.
        let _end = self.grm().eof_token_idx().0.to_usize();
        told_behind(alloc, &self.machine(), lexemes)
    }
}
