//! Iterators over the cells of a state.

ghost use Rattle.std.specs.Prelude.{◌≡◌, ◌<◌, ◌≤◌, ◌+◌, ◌-◌, ◌∷◌, [], ℕ, drop, length, slice_index_or, MatchOption};
ghost use Rattle.std.specs.Iterator.{YieldsFirstBy, item_count};
ghost use Rattle.state_table.specs.CellViews.{action_of, cells_of};
ghost use Rattle.state_table.specs.Rows.{Below};
ghost use Rattle.state_table.specs.TableValues.{keeps, kept_tokens, reduced_from};
ghost use Rattle.state_table.specs.LeastReduced.{IsLeastReduced, IsLesser};
ghost use Rattle.state_table.specs.declared.cells.Action.{Action as TableAction};

use crate::cells::{Action, reduced_by};
use cfg_base::index::IndexStorage;
use cfg_base::symbol::{PIdx, TIdx};
use std::marker::Model;

/// An iterator over the tokens on which a state does something, or over those that it shifts, ascending. Contracts see
/// the numbers that are left.
#[derive(Drop)]
pub struct StateActionsIterator<'a, S: IndexStorage> {
    row: &'a [(u32, Action<S>)],
    index: usize,
    shifts: bool,
}

impl<'a, S: IndexStorage> Model for StateActionsIterator<'a, S> {
    ghost use Rattle.std.specs.Prelude.{List, ℕ, length, drop, ◌+◌, ◌≤◌};
    ghost use Rattle.state_table.specs.CellViews.{cells_of};
    ghost use Rattle.state_table.specs.Rows.{Below};
    ghost use Rattle.state_table.specs.TableValues.{kept_tokens};

    ghost Value = { List ℕ };

    ghost view = { λ w. kept_tokens w.shifts (cells_of S.number (drop w.index w.row.now)) };

    ghost invariant = { λ w. (w.index ≤ length w.row.now) × Below (S.MAX + 1) w.row.now };
}

/// Returns whether a cell is one that is given: a shift, or any that is filled.
fn is_kept<S: IndexStorage>(shifts: bool, cell: Action<S>) -> bool
    ensures { result ≡ keeps shifts (action_of S.number cell) }
{
    if shifts {
        return matches!(cell, Action::Shift(_));
    }
    !matches!(cell, Action::Error)
}

/// Returns the index of the next cell that is given.
fn next_kept<S: IndexStorage>(row: &[(u32, Action<S>)], from: usize, shifts: bool) -> Option<usize>
    requires { from ≤ length row.now }
    ensures { MatchOption result (kept_tokens shifts (cells_of S.number (drop from row.now)) ≡ []) (λ i. (i < length row.now) × ((d : ℕ × TableAction S) → kept_tokens shifts (cells_of S.number (drop from row.now)) ≡ (slice_index_or row.now i d).0 ∷ kept_tokens shifts (cells_of S.number (drop (i + 1) row.now)))) }
{
    'each: for i in from..row.len() {
        let cell = row[i];
        if is_kept(shifts, cell.1) {
            return Some(i);
        }
    }
    None
}

/// Returns the tokens of a row's cells, or of its shifts alone.
pub(crate) fn tokens_of_row<S: IndexStorage>(
    row: &[(u32, Action<S>)],
    shifts: bool,
) -> StateActionsIterator<'_, S>
    requires { Below (S.MAX + 1) row.now }
    ensures { result ≡ kept_tokens shifts (cells_of S.number row.now) }
{
    StateActionsIterator {
        row,
        index: 0,
        shifts,
    }
}

impl<'a, S: IndexStorage> Iterator for StateActionsIterator<'a, S> {
    type Item = TIdx<S>;

    ghost next_gives = { YieldsFirstBy (λ t. S.number t.0) (λ s. s) };

    ghost remaining = { item_count (λ s. s) };

    fn next(&mut self) -> Option<TIdx<S>> {
        match next_kept(self.row, self.index, self.shifts) {
            Some(index) => {
                self.index = index + 1;
                let cell = self.row[index];
                Some(TIdx(S::from_usize(cell.0 as usize).unwrap()))
            }
            None => {
                self.index = self.row.len();
                None
            }
        }
    }
}

/// An iterator over the productions by which the cells of a state reduce, ascending. Contracts see the numbers that are
/// left.
#[derive(Drop)]
pub struct CoreReducesIterator<'a, S: IndexStorage> {
    row: &'a [(u32, Action<S>)],
    next: usize,
    end: usize,
}

impl<'a, S: IndexStorage> Model for CoreReducesIterator<'a, S> {
    ghost use Rattle.std.specs.Prelude.{List, ℕ, ◌-◌, ◌≤◌};
    ghost use Rattle.state_table.specs.CellViews.{cells_of};
    ghost use Rattle.state_table.specs.TableValues.{reduced_from};

    ghost Value = { List ℕ };

    ghost view = { λ w. reduced_from (cells_of S.number w.row.now) w.next (w.end - w.next) };

    ghost invariant = { λ w. (w.next ≤ w.end) × (w.end ≤ S.MAX) };
}

/// Returns the production by which a cell reduces, if it lies from one number up to before another, else that other.
fn lesser<S: IndexStorage>(cell: Action<S>, from: usize, below: usize) -> usize
    ensures { IsLesser (action_of S.number cell) from below result }
{
    match reduced_by(cell) {
        Some(pidx) => {
            let number = pidx.0.to_usize();
            if number < from {
                return below;
            }
            if number >= below {
                return below;
            }
            number
        }
        None => below,
    }
}

/// Returns the least production from one number up to before another by which a row reduces, else that other.
fn least_reduced<S: IndexStorage>(row: &[(u32, Action<S>)], from: usize, end: usize) -> usize
    requires { from ≤ end }
    ensures { IsLeastReduced (cells_of S.number row.now) from end result }
{
    let mut below = end;
    'each: for i in 0..row.len() {
        let cell = row[i];
        below = lesser(cell.1, from, below);
    }
    below
}

/// Returns the next production by which a row reduces.
fn next_reduced<S: IndexStorage>(row: &[(u32, Action<S>)], from: usize, end: usize) -> Option<usize>
    requires { from ≤ end }
    ensures { MatchOption result (reduced_from (cells_of S.number row.now) from (end - from) ≡ []) (λ p. (p < end) × (reduced_from (cells_of S.number row.now) from (end - from) ≡ p ∷ reduced_from (cells_of S.number row.now) (p + 1) (end - (p + 1)))) }
{
    let number = least_reduced(row, from, end);
    if number == end {
        return None;
    }
    Some(number)
}

/// Returns the productions by which a row reduces, before a number.
pub(crate) fn productions_of_row<S: IndexStorage>(
    row: &[(u32, Action<S>)],
    end: usize,
) -> CoreReducesIterator<'_, S>
    requires { end ≤ S.MAX }
    ensures { result ≡ reduced_from (cells_of S.number row.now) 0 end }
{
    CoreReducesIterator { row, next: 0, end }
}

impl<'a, S: IndexStorage> Iterator for CoreReducesIterator<'a, S> {
    type Item = PIdx<S>;

    ghost next_gives = { YieldsFirstBy (λ p. S.number p.0) (λ s. s) };

    ghost remaining = { item_count (λ s. s) };

    fn next(&mut self) -> Option<PIdx<S>> {
        match next_reduced(self.row, self.next, self.end) {
            Some(number) => {
                self.next = number + 1;
                Some(PIdx(S::from_usize(number).unwrap()))
            }
            None => None,
        }
    }
}
