//! Rows of a table: pairs of a number and a value, their numbers rising.

ghost use Rattle.std.specs.Prelude.{◌≡◌, ◌+◌, ◌-◌, ◌*◌, ◌^◌, ◌<◌, ◌≤◌, ℕ, length, get_or, MatchOption};
ghost use Rattle.std.specs.Ordering.{nat_cmp};
ghost use Rattle.state_table.specs.Rows.{Rises, HasAt, at_of};

use cfg_base::index::IndexStorage;
use cfg_base::steps::Steps;
use std::cmp::Ordering;
use std::marker::Brand;
use std::sync::ledger::{Blank, Ledger};

/// Compares a number of a row with the one that is looked for, and counts the step.
fn compare<L: Ledger>(at: usize, number: usize, steps: &mut Steps<L>) -> Ordering
    ensures order { result ≡ nat_cmp at number }
    ensures counted { steps.new ≡ steps.old + 1 }
{
    steps.tick();
    at.cmp(&number)
}

/// Returns an index as rows keep it: each index type's numbers fit.
pub(crate) fn row_number<S: IndexStorage>(index: S) -> u32
    ensures { result ≡ S.number index }
{
    index.to_usize() as u32
}

/// Returns the value beside a number in a row whose numbers rise, if it is there, by halving. A step is a comparison;
/// there are at most as many as the row's length has binary digits, and none in an empty row.
pub fn row_search<V: Copy, L: Ledger>(
    row: &[(u32, V)],
    number: usize,
    steps: &mut Steps<L>,
) -> Option<V>
    requires { Rises row.now }
    ensures found { MatchOption result ((v : V) → HasAt row.now number v → ⊥) (λ v. HasAt row.now number v) }
    ensures more { steps.old ≤ steps.new }
    ensures cost { 2 ^ (steps.new - steps.old) ≤ 2 * length row.now + 1 }
{
    let mut low = 0;
    let mut high = row.len();
    'halves: while low < high {
        let middle = low + (high - low) / 2;
        let (at, value) = row[middle];
        match compare(at as usize, number, steps) {
            Ordering::Equal => return Some(value),
            Ordering::Less => low = middle + 1,
            Ordering::Greater => high = middle,
        }
    }
    None
}

fn search_with<V: Copy, L: Ledger>(row: &[(u32, V)], number: usize, blank: Blank) -> Option<V>
    requires rises { Rises row.now }
    requires name { blank.name ≡ L.name }
    requires parts { blank.parts ≡ L.parts }
    requires one { blank.parts ≡ 1 }
    ensures { result ≡ at_of row.now number }
{
    let mut steps = Steps::<L>::new(blank);
    row_search(row, number, &mut steps)
}

/// Finds the value beside a number as `row_search` does, without a step counter.
pub(crate) fn look_up<V: Copy>(row: &[(u32, V)], number: usize) -> Option<V>
    requires { Rises row.now }
    ensures { result ≡ at_of row.now number }
{
    search_with::<V, Brand>(row, number, Blank::new(1))
}
