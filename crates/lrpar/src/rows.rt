//! Reads entries of a state's rows of a table.

ghost use Rattle.std.specs.Prelude.{◌≡◌, ◌<◌, Some, IfSome, length, slice_get};
ghost use Rattle.state_table.specs.CellViews.{action_of, cells_of, targets_of};

use cfg_base::index::IndexStorage;
use state_table::{Action, StIdx};

/// Returns the cell at an index of a row, beside its token's number.
pub(crate) fn cell_of_row<S: IndexStorage>(
    row: &[(u32, Action<S>)],
    index: usize,
) -> (usize, Action<S>)
    requires { index < length row.now }
    ensures { slice_get (cells_of S.number row.now) index ≡ Some (result.0, action_of S.number result.1) }
{
    let (number, action) = row[index];
    (number as usize, action)
}

/// Returns the goto at an index of a row, beside its rule's number.
pub(crate) fn goto_of_row<S: IndexStorage>(
    row: &[(u32, StIdx<S>)],
    index: usize,
) -> (usize, StIdx<S>)
    requires { index < length row.now }
    ensures { slice_get (targets_of S.number row.now) index ≡ Some (result.0, S.number result.1.0) }
{
    let (number, target) = row[index];
    (number as usize, target)
}

/// Returns the index of the entry with a number in a row that ascends, by halving.
pub(crate) fn index_of<V>(row: &[(u32, V)], number: usize) -> Option<usize>
    ensures { IfSome result (λ i. i < length row.now) }
{
    let mut low = 0;
    let mut high = row.len();
    'halves: while low < high {
        let middle = low + (high - low) / 2;
        let here = row[middle].0 as usize;
        if here == number {
            return Some(middle);
        }
        if here < number {
            low = middle + 1;
        } else {
            high = middle;
        }
    }
    None
}
