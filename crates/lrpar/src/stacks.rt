//! The stacks of a run: the states, the last one on top, and beside them what is made of the symbols between them.

ghost use Rattle.std.specs.Prelude.{◌≡◌, ◌<◌, ◌≤◌, ◌∷◌, ℕ, List, length, [], Some, OnOk, IfOk};
ghost use Rattle.cfg_theory.specs.Grammar.{Grammar, body_of};
ghost use Rattle.cfg_theory.specs.Tree.{Tree, Forest, leaf, node, none};
ghost use Rattle.lr_theory.specs.Automaton.{reduce};
ghost use Rattle.lr_theory.specs.Chains.{reduce_by};
ghost use Rattle.lr_theory.specs.Machine.{pop};
ghost use Rattle.state_table.specs.Tables.{automaton_of};
ghost use Rattle.lrpar.specs.Reducing.{states_of, stack_of, AreStates};
ghost use Rattle.state_table.specs.Graphs.{GraphValue};

use crate::machine::Machine;
use cfg_base::index::IndexStorage;
use cfg_base::symbol::PIdx;
use parse_trees::lex_api::Lexeme;
use parse_trees::values::ValueStack;
use parse_trees::vec_stack::put_above;
use state_table::StIdx;
use std::alloc::{AllocError, Global};

/// The states of a run, the last one on top, and what is made of the symbols between them.
#[derive(Drop)]
pub(crate) struct Stacks<S: IndexStorage, V> {
    pub states: Vec<StIdx<S>>,
    pub values: V,
}

impl<S: IndexStorage, V: Drop> Stacks<S, V> {
    /// Returns the stacks of a run's start.
    pub(crate) fn start(alloc: Global, state: StIdx<S>, values: V) -> Result<Self, AllocError>
        ensures states { IfOk result (λ s. states_of S.number s.states.items ≡ S.number state.0 ∷ []) }
        ensures values { IfOk result (λ s. s.values ≡ values) }
    {
        let mut states = Vec::with_capacity(alloc, 64)?;
        states.push(state)?;
        Ok(Stacks { states, values })
    }
}

/// Shifts a lexeme: its entry and the state after it come on top.
pub(crate) fn shift_onto<S: IndexStorage, L: Lexeme<S>, V: ValueStack<S, L>>(
    alloc: Global,
    stacks: &mut Stacks<S, V>,
    lexeme: L,
    target: StIdx<S>,
) -> Result<(), AllocError>
    requires held { (G : Grammar) × (ts : List (Tree L)) × V.stands G stacks.old.values ts }
    requires start { V.starts_by stacks.old.values (L.lex lexeme).places.start }
    ensures held { OnOk result ((G : Grammar) (ts : List (Tree L)) → V.stands G stacks.old.values ts → V.stands G stacks.new.values (leaf lexeme ∷ ts)) }
    ensures states { OnOk result (stack_of S.number stacks.new.states.items ≡ S.number target.0 ∷ stack_of S.number stacks.old.states.items) }
    ensures start { OnOk result (V.starts_by stacks.new.values (L.lex lexeme).places.start) }
    ensures keeps { OnOk result (V.keeps stacks.old.values stacks.new.values) }
{
    stacks.values.shift(alloc, lexeme)?;
    stacks.states.push(target)?;
    Ok(())
}

/// Reduces by a production: the entry for its node and the state after its rule take the place of its symbols.
pub(crate) fn reduce_onto<S: IndexStorage, L: Lexeme<S>, V: ValueStack<S, L>>(
    alloc: Global,
    machine: &Machine<'_, S>,
    stacks: &mut Stacks<S, V>,
    pidx: PIdx<S>,
) -> Result<(), AllocError>
    requires production { S.number pidx.0 < length machine.now.grm.now.grammar.productions }
    requires states { AreStates machine.now.stable.now (states_of S.number stacks.old.states.items) }
    requires held { (ts : List (Tree L)) × V.stands machine.now.grm.now.grammar stacks.old.values ts × (length (body_of machine.now.grm.now.grammar (S.number pidx.0)) ≤ length ts) }
    requires goes { (g : GraphValue) → (next : List ℕ) × (reduce_by machine.now.grm.now.grammar (automaton_of g machine.now.stable.now) (reduce (S.number pidx.0)) (stack_of S.number stacks.old.states.items) ≡ Some next) }
    ensures goes { OnOk result ((g : GraphValue) → reduce_by machine.now.grm.now.grammar (automaton_of g machine.now.stable.now) (reduce (S.number pidx.0)) (stack_of S.number stacks.old.states.items) ≡ Some (stack_of S.number stacks.new.states.items)) }
    ensures held { OnOk result ((ts below : List (Tree L)) (f : Forest L) → V.stands machine.now.grm.now.grammar stacks.old.values ts → pop (length (body_of machine.now.grm.now.grammar (S.number pidx.0))) ts none ≡ Some (f, below) → V.stands machine.now.grm.now.grammar stacks.new.values (node (S.number pidx.0) f ∷ below)) }
    ensures states { OnOk result (AreStates machine.now.stable.now (states_of S.number stacks.new.states.items)) }
    ensures some { OnOk result (0 < length stacks.new.states.items) }
    ensures start { OnOk result ((offset : ℕ) → V.starts_by stacks.old.values offset → V.starts_by stacks.new.values offset) }
    ensures keeps { OnOk result (V.keeps stacks.old.values stacks.new.values) }
{
    let count = machine.grm.prod_len(pidx).0.to_usize();
    let ridx = machine.grm.prod_to_rule(pidx);
    stacks.values.reduce(alloc, pidx, ridx, count)?;
    let left = stacks.states.len() - count;
    let below = stacks.states[left - 1];
    let next = machine.stable.target(below, ridx);
    put_above(&mut stacks.states, left, next)?;
    Ok(())
}
