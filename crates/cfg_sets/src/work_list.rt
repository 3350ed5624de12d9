//! Tables over the rules of a grammar that a work list fills: a rule is taken from the list, and what depends on the
//! rule is updated; a rule whose entry grows enters the list.

ghost use Rattle.std.specs.Prelude.{◌≡◌, ℕ, ◌+◌, ◌<◌, ◌≤◌, ◌⊎◌, List, [], ◌∷◌, ◌++◌, length, OnOk, IfOk, IfSome, MatchOption};
ghost use Rattle.std.specs.List.{All, Contains};
ghost use Rattle.cfg_sets.specs.WorkLists.{Work};

use cfg_base::steps::Steps;
use std::alloc::{AllocError, Global};
use std::marker::Model;
use std::sync::ledger::Ledger;
use vob::Vob;

/// Rules that wait to be taken, each once. The last one is taken first.
#[derive(Drop)]
pub struct WorkList {
    list: Vec<usize>,
    waits: Vob,
}

impl Model for WorkList {
    ghost use Rattle.std.specs.Prelude.{ℕ, ◌<◌, IsTrue, length};
    ghost use Rattle.std.specs.List.{All, Contains};
    ghost use Rattle.vob.specs.Sets.{is_set};
    ghost use Rattle.cfg_sets.specs.WorkLists.{Work};

    ghost Value = { Work };

    ghost view = { λ w. record { rules = length w.waits.bits; list = w.list.items } };

    ghost invariant = { λ w.
        All (λ A. A < length w.waits.bits) w.list.items ×
        ((A : ℕ) → IsTrue (is_set w.waits.bits A) → Contains w.list.items A) };
}

impl WorkList {
    /// Creates a list of rules below `rules` in which none waits.
    pub fn new(alloc: Global, rules: usize) -> Result<WorkList, AllocError>
        ensures { IfOk result (λ w. w ≡ record { rules = rules; list = [] }) }
    {
        Ok(WorkList {
            list: Vec::new(alloc),
            waits: Vob::from_elem(alloc, false, rules)?,
        })
    }

    /// Puts a rule into the list, where it isn't there.
    pub fn put(&mut self, rule: usize) -> Result<(), AllocError>
        requires { rule < self.old.rules }
        ensures rules { OnOk result (self.new.rules ≡ self.old.rules) }
        ensures waits { OnOk result (Contains self.new.list rule) }
        ensures kept { OnOk result ((A : ℕ) → Contains self.old.list A → Contains self.new.list A) }
        ensures only { OnOk result ((A : ℕ) → Contains self.new.list A → Contains self.old.list A ⊎ (A ≡ rule)) }
        ensures longer { OnOk result (length self.new.list ≤ length self.old.list + 1) }
    {
        if self.waits.get_unchecked(rule) {
            return Ok(());
        }
        self.list.push(rule)?;
        self.waits.set(rule, true);
        Ok(())
    }

    /// Takes the last rule off the list, and counts that as a step.
    pub fn take<L: Ledger>(&mut self, steps: &mut Steps<L>) -> Option<usize>
        ensures counted { MatchOption result (steps.new ≡ steps.old) (λ _. steps.new ≡ steps.old + 1) }
        ensures rules { self.new.rules ≡ self.old.rules }
        ensures list { MatchOption result (self.old.list ≡ []) (λ A. self.old.list ≡ self.new.list ++ A ∷ []) }
        ensures within { IfSome result (λ A. A < self.old.rules) }
    {
        match self.list.pop() {
            Some(rule) => {
                self.waits.set(rule, false);
                steps.tick();
                Some(rule)
            }
            None => None,
        }
    }

    /// Returns the rules of the list.
    pub fn into_list(self) -> Vec<usize>
        ensures list { result.items ≡ self.list }
        ensures within { All (λ A. A < self.rules) self.list }
    {
        self.list
    }

    /// Proves that the rules of the list are below their number.
    pub fn stays_within(&self)
        ensures { All (λ A. A < self.now.rules) self.now.list }
    {
        // For the proof alone: this read gives it the invariant of each such list.
        let _list = &self.list;
    }

    /// Creates a list in which all rules below `rules` wait, the least first.
    pub fn full(alloc: Global, rules: usize) -> Result<WorkList, AllocError>
        ensures rules { IfOk result (λ w. w.rules ≡ rules) }
        ensures all { IfOk result (λ w. (A : ℕ) → A < rules → Contains w.list A) }
        ensures length { IfOk result (λ w. length w.list ≤ rules) }
    {
        let mut work = WorkList::new(alloc, rules)?;
        'rules: for number in 0..rules {
            work.put(rules - 1 - number)?;
        }
        Ok(work)
    }
}

/// A table over numbered rules that a work list fills.
pub trait WorkTable {
    /// The number of rules. Rules are numbered from 0, and no call changes it.
    ghost rules: { Self → ℕ };

    /// What holds of the table at all times, such as that each entry is true of its rule.
    ghost is_sound: { Self → Type 0 };

    /// An upper bound of how often the table can still change; each change lessens it.
    ghost room: { Self → ℕ };

    /// The table is closed, except for what depends on the rules of the list.
    ghost is_closed_but: { Self → List ℕ → Type 0 };

    /// Two tables are filled from the same data, which no call changes.
    ghost is_of_same: { Self → Self → Type 0 };

    /// A table is filled from the same data as itself.
    ghost same_refl: { (s : Self) → is_of_same s s };

    /// Tables with the same data as a third one have the same data.
    ghost same_trans: { (s t u : Self) → is_of_same s t → is_of_same t u → is_of_same s u };

    /// Updates what depends on a rule that was taken off the list. Each rule whose entry grows enters the list.
    fn take(&mut self, rule: usize, work: &mut WorkList) -> Result<(), AllocError>
        requires rule { rule < rules self.old }
        requires work { work.old.rules ≡ rules self.old }
        requires sound { is_sound self.old }
        requires closed { is_closed_but self.old (work.old.list ++ rule ∷ []) }
        ensures rules { OnOk result (rules self.new ≡ rules self.old) }
        ensures work { OnOk result (work.new.rules ≡ work.old.rules) }
        ensures same { OnOk result (is_of_same self.old self.new) }
        ensures sound { OnOk result (is_sound self.new) }
        ensures closed { OnOk result (is_closed_but self.new work.new.list) }
        ensures room { OnOk result (room self.new + length work.new.list ≤ room self.old + length work.old.list) };
}

/// Takes rules off the list until none is left. Each taking is counted as a step.
pub fn fill<T: WorkTable, L: Ledger>(
    table: &mut T,
    work: &mut WorkList,
    steps: &mut Steps<L>,
) -> Result<(), AllocError>
    requires work { work.old.rules ≡ T.rules table.old }
    requires sound { T.is_sound table.old }
    requires closed { T.is_closed_but table.old work.old.list }
    ensures same { OnOk result (T.is_of_same table.old table.new) }
    ensures sound { OnOk result (T.is_sound table.new) }
    ensures closed { OnOk result (T.is_closed_but table.new []) }
    ensures takings { steps.new ≤ steps.old + (T.room table.old + length work.old.list) }
{
    'takings: loop {
        match work.take(steps) {
            Some(rule) => table.take(rule, work)?,
            None => return Ok(()),
        }
    }
}
