//! Stacks of states that share their lower parts, and what a token does on one.

ghost use Rattle.std.specs.Prelude.{◌≡◌, ◌<◌, ◌≤◌, ◌+◌, OnOk};

use cfg_base::index::IndexStorage;
use cfg_base::symbol::{PIdx, TIdx};
use lrpar::ParserData;
use state_table::{Action, StIdx};
use std::alloc::{AllocError, Global};

/// A state on a stack.
#[derive(Clone, Copy)]
struct Node<S> {
    state: StIdx<S>,
    /// The index of the state below; that of the node itself where none is.
    below: usize,
}

/// What a token comes to on a stack.
#[derive(Clone, Copy)]
pub(crate) enum Turn {
    /// It was shifted, and this is the new top.
    Shifted(usize),
    /// The run accepts.
    Accepted,
    /// It was not shifted. This is the top after the reductions that were made.
    Stuck(usize),
}

/// States by their indices, of which each stack is named by that of its top.
#[derive(Drop)]
pub(crate) struct Stacks<'a, S: IndexStorage> {
    data: &'a ParserData<S>,
    nodes: Vec<Node<S>>,
    /// Whether only one stack is of use, so that what is popped is let go.
    pub(crate) alone: bool,
    /// How many more actions may be looked up.
    pub(crate) left: usize,
}

impl<'a, S: IndexStorage> Stacks<'a, S> {
    /// Makes the stack of a run's start, whose top is at index 0.
    pub(crate) fn new(alloc: Global, data: &'a ParserData<S>) -> Result<Self, AllocError> {
        let mut nodes = Vec::new(alloc);
        let state = data.stable().start_state();
        nodes.push(Node { state, below: 0 })?;
        Ok(Stacks {
            data,
            nodes,
            alone: true,
            left: usize::MAX,
        })
    }

    /// Lets all states above a stack go.
    pub(crate) fn truncate(&mut self, top: usize)
        ensures { self.new.left ≡ self.old.left }
    {
        self.nodes.truncate(top.saturating_add(1));
    }

    /// Puts a state on a stack, and returns the new top.
    fn put(&mut self, below: usize, state: StIdx<S>) -> Result<usize, AllocError>
        ensures { OnOk result (self.new.left ≡ self.old.left) }
    {
        if self.alone {
            self.truncate(below);
        }
        let top = self.nodes.len();
        self.nodes.push(Node { state, below })?;
        Ok(top)
    }

    /// Returns the index of the state that is so many below the top.
    fn under(&self, top: usize, count: usize) -> usize {
        let mut at = top;
        'states: for _state in 0..count {
            if let Some(node) = self.nodes.get(at) {
                at = node.below;
            }
        }
        at
    }

    /// Returns the action on a token, and counts that it was looked up.
    fn look(&mut self, top: usize, tidx: TIdx<S>) -> Action<S>
        requires { 0 < self.old.left }
        ensures { self.new.left + 1 ≡ self.old.left }
    {
        self.left -= 1;
        let table = self.data.stable();
        match self.nodes.get(top) {
            Some(node) => {
                if table.has_state(node.state)
                    && tidx.0.to_usize() < table.tokens_len().0.to_usize()
                {
                    table.action(node.state, tidx)
                } else {
                    Action::Error
                }
            }
            None => Action::Error,
        }
    }

    /// Returns the state that a reduction leads to above a stack.
    fn goto(&self, below: usize, pidx: PIdx<S>) -> Option<StIdx<S>> {
        let table = self.data.stable();
        let node = self.nodes.get(below)?;
        if !table.has_state(node.state) || !self.data.grm().has_prod(pidx) {
            return None;
        }
        let ridx = self.data.grm().prod_to_rule(pidx);
        if ridx.0.to_usize() >= table.rules_len().0.to_usize() {
            return None;
        }
        table.goto(node.state, ridx)
    }

    /// Makes a reduction, and returns the new top.
    fn reduce(&mut self, top: usize, pidx: PIdx<S>) -> Result<Option<usize>, AllocError>
        ensures { OnOk result (self.new.left ≡ self.old.left) }
    {
        if !self.data.grm().has_prod(pidx) {
            return Ok(None);
        }
        let count = self.data.grm().prod_len(pidx).0.to_usize();
        let below = self.under(top, count);
        let Some(state) = self.goto(below, pidx) else {
            return Ok(None);
        };
        let next = self.put(below, state)?;
        Ok(Some(next))
    }

    /// Shifts a token after the reductions that it asks for, if it can be and enough actions may be looked up.
    pub(crate) fn advance(&mut self, top: usize, tidx: TIdx<S>) -> Result<Turn, AllocError>
        ensures at_most { OnOk result (self.new.left ≤ self.old.left) }
        ensures counts { OnOk result (0 < self.old.left → self.new.left < self.old.left) }
    {
        let mut at = top;
        'turns: while self.left > 0 {
            match self.look(at, tidx) {
                Action::Shift(target) => {
                    let next = self.put(at, target)?;
                    return Ok(Turn::Shifted(next));
                }
                Action::Reduce(pidx) => match self.reduce(at, pidx)? {
                    Some(next) => at = next,
                    None => return Ok(Turn::Stuck(at)),
                },
                Action::Accept => return Ok(Turn::Accepted),
                Action::Error => return Ok(Turn::Stuck(at)),
            }
        }
        Ok(Turn::Stuck(at))
    }
}
