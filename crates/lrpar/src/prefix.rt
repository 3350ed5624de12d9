//! Tokens that a run shifts one after another; after each of them it can be asked which tokens may come next.

ghost use Rattle.std.specs.Prelude.{◌≡◌, ◌<◌, ◌≤◌, ◌↔◌, ℕ, false, true, [], ◌∷◌, ◌++◌, length, IfOk, OnErr, OnOk, IsTrue};
ghost use Rattle.cfg_theory.specs.Derivation.{AllProductive, BeginsSentence, IsSentence};
ghost use Rattle.cfg_theory.specs.Grammar.{end_token, start_symbol};
ghost use Rattle.lr_theory.specs.Automaton.{Complete};
ghost use Rattle.lr_theory.specs.Machine.{Config};
ghost use Rattle.state_table.specs.Graphs.{GraphValue};
ghost use Rattle.state_table.specs.Tables.{automaton_of};
ghost use Rattle.lrpar.specs.NextTokens.{Reaches, HasError, IsSet, AreNext};
ghost use Rattle.lrpar.specs.Prefixes.{grammar_in, machine_in, IsTableIn, own, tokens_of};
ghost use Rattle.lrpar.specs.Reducing.{AreStates, stack_of};
ghost use Rattle.lrpar.specs.Replay.{overlaid, TellsShift};

use crate::machine::Machine;
use crate::next_tokens::tokens_behind;
use crate::overlay::{Overlay, shift_on};
use crate::parserdata::ParserData;
use cfg_base::index::IndexStorage;
use cfg_base::symbol::TIdx;
use state_table::StIdx;
use std::alloc::{AllocError, Global};
use std::marker::Model;
use vob::Vob;

/// Tokens of which none is an error, and the states of a run right after it shifted the last of them. Contracts see
/// the data and the tokens.
///
/// To ask at several indices of a list of lexemes which tokens may come next, go through it once, and push the tokens
/// between two indices, each at the cost of its reductions. The stack of a run at an error doesn't serve, since it
/// may have been reduced on the wrong lexeme already.
#[derive(Drop)]
pub struct Prefix<'a, S: IndexStorage> {
    data: &'a ParserData<S>,
    tokens: Vec<TIdx<S>>,
    /// The states of the run right after the last token.
    states: Vec<StIdx<S>>,
    /// A buffer: the states after reductions on a token.
    overlay: Overlay<S>,
}

impl<'a, S: IndexStorage> Model for Prefix<'a, S> {
    ghost use Rattle.lrpar.specs.Prefixes.{PrefixValue, IsPrefix, tokens_of};
    ghost use Rattle.lrpar.specs.Reducing.{stack_of};

    ghost Value = { PrefixValue };

    ghost view = { λ p. record { parser = p.data.now; tokens = tokens_of S.number p.tokens.items } };

    ghost invariant = { λ p. IsPrefix p.data.now (tokens_of S.number p.tokens.items) (stack_of S.number p.states.items) };
}

/// Makes the stack of an overlay that of its base. Where memory is refused, the base stays.
fn settle<S: IndexStorage>(
    states: &mut Vec<StIdx<S>>,
    overlay: &Overlay<S>,
) -> Result<(), AllocError>
    requires { overlay.now.kept ≤ length states.old.items }
    ensures stack { OnOk result (stack_of S.number states.new.items ≡ overlaid S.number states.old.items overlay.now) }
    ensures same { OnErr result (states.new.items ≡ states.old.items) }
{
    states.reserve(overlay.over.len())?;
    states.truncate(overlay.kept);
    states.extend_from_slice(overlay.over.as_slice()).unwrap();
    Ok(())
}

/// Shifts a token on a stack after the reductions that it asks for. Where it isn't shifted, or there is no memory, the stack
/// stays. What the overlay held is let go.
fn shift_whole<S: IndexStorage>(
    machine: &Machine<'_, S>,
    states: &mut Vec<StIdx<S>>,
    overlay: &mut Overlay<S>,
    tidx: TIdx<S>,
) -> Result<bool, AllocError>
    requires token { S.number tidx.0 < machine.now.stable.now.tokens }
    requires states { AreStates machine.now.stable.now (stack_of S.number states.old.items) }
    requires some { 0 < length states.old.items }
    ensures shifts { IfOk result (λ told. (g : GraphValue) → TellsShift machine.now.grm.now.grammar (automaton_of g machine.now.stable.now) (S.number tidx.0) (stack_of S.number states.old.items) (stack_of S.number states.new.items) told) }
    ensures states { IfOk result (λ told. AreStates machine.now.stable.now (stack_of S.number states.new.items)) }
    ensures stays { IfOk result (λ told. told ≡ false → states.new.items ≡ states.old.items) }
    ensures same { OnErr result (states.new.items ≡ states.old.items) }
{
    overlay.kept = states.len();
    overlay.over.clear();
    if !shift_on(machine, states.as_slice(), overlay, tidx)? {
        return Ok(false);
    }
    settle(states, overlay)?;
    Ok(true)
}

impl<S: IndexStorage> ParserData<S> {
    /// Makes a prefix without tokens, to which some are pushed.
    pub fn prefix(&self, alloc: Global) -> Result<Prefix<'_, S>, AllocError>
        ensures { IfOk result (λ p. p ≡ record { parser = self.entry.now; tokens = [] }) }
    {
        self.facts();
        let mut states = Vec::new(alloc);
        states.push(self.stable().start_state())?;
        let overlay = Overlay {
            kept: 0,
            over: Vec::new(alloc),
        };
        Ok(Prefix {
            data: self,
            tokens: Vec::new(alloc),
            states,
            overlay,
        })
    }
}

impl<'a, S: IndexStorage> Prefix<'a, S> {
    /// Lends the tokens, in order.
    pub fn tokens(&self) -> &[TIdx<S>]
        ensures { tokens_of S.number result.now ≡ self.now.tokens }
    {
        self.tokens.as_slice()
    }

    /// Adds a token, if a run on the tokens so far shifts it next, and returns whether it does. Where it doesn't,
    /// or memory is refused, nothing is changed. The cost is that of the reductions before the shift.
    pub fn push(&mut self, tidx: TIdx<S>) -> Result<bool, AllocError>
        ensures pushed { IfOk result (λ told. told ≡ true → self.new ≡ record { parser = self.old.parser; tokens = self.old.tokens ++ S.number tidx.0 ∷ [] }) }
        ensures stays { IfOk result (λ told. told ≡ false → self.new ≡ self.old) }
        ensures error { IfOk result (λ told. told ≡ false → HasError (grammar_in self.old.parser) (machine_in self.old.parser) own (self.old.tokens ++ S.number tidx.0 ∷ [])) }
        ensures begins { IfOk result (λ told. IsTableIn self.old.parser → Complete (grammar_in self.old.parser) (machine_in self.old.parser) → AllProductive (grammar_in self.old.parser) →
            IsTrue told ↔ BeginsSentence (grammar_in self.old.parser) (start_symbol (grammar_in self.old.parser)) (self.old.tokens ++ S.number tidx.0 ∷ [])) }
        ensures same { OnErr result (self.new ≡ self.old) }
    {
        self.data.facts();
        let grm = self.data.grm();
        if tidx.0.to_usize() >= grm.eof_token_idx().0.to_usize() {
            return Ok(false);
        }
        self.tokens.reserve(1)?;
        let machine = self.data.machine();
        if !shift_whole(&machine, &mut self.states, &mut self.overlay, tidx)? {
            return Ok(false);
        }
        self.tokens.push(tidx).unwrap();
        Ok(true)
    }

    /// Returns the tokens that may come next, a bit for each token by its number. The bit of the end token is set
    /// where the tokens are a sentence. The result is that of `ParserData::next_tokens` for lexemes of these
    /// tokens, without running over them anew: a token costs its reductions, at most one chain.
    pub fn next_tokens(&self, alloc: Global) -> Result<Vob, AllocError>
        ensures told { IfOk result (λ v. (c : Config ℕ) × Reaches (grammar_in self.now.parser) (machine_in self.now.parser) own self.now.tokens [] c × AreNext (grammar_in self.now.parser) (machine_in self.now.parser) own c v.bits) }
        ensures sound { IfOk result (λ v. IsTableIn self.now.parser → AllProductive (grammar_in self.now.parser) →
            (t : ℕ) → t < end_token (grammar_in self.now.parser) → IsSet v.bits t → BeginsSentence (grammar_in self.now.parser) (start_symbol (grammar_in self.now.parser)) (self.now.tokens ++ t ∷ [])) }
        ensures sound_end { IfOk result (λ v. IsSet v.bits (end_token (grammar_in self.now.parser)) → IsSentence (grammar_in self.now.parser) (start_symbol (grammar_in self.now.parser)) self.now.tokens) }
        ensures exact { IfOk result (λ v. IsTableIn self.now.parser → Complete (grammar_in self.now.parser) (machine_in self.now.parser) → AllProductive (grammar_in self.now.parser) →
            (t : ℕ) → t < end_token (grammar_in self.now.parser) → IsSet v.bits t ↔ BeginsSentence (grammar_in self.now.parser) (start_symbol (grammar_in self.now.parser)) (self.now.tokens ++ t ∷ [])) }
        ensures exact_end { IfOk result (λ v. IsTableIn self.now.parser → Complete (grammar_in self.now.parser) (machine_in self.now.parser) → AllProductive (grammar_in self.now.parser) →
            IsSet v.bits (end_token (grammar_in self.now.parser)) ↔ IsSentence (grammar_in self.now.parser) (start_symbol (grammar_in self.now.parser)) self.now.tokens) }
    {
        self.data.facts();
        tokens_behind(alloc, &self.data.machine(), self.states.as_slice())
    }
}
