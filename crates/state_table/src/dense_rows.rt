//! Full rows beside those that a table stores, in which cells and gotos are read at once.

ghost use Rattle.std.specs.Prelude.{◌≡◌, ◌<◌, ℕ, List, Some, length, slice_get, slice_set, IfOk, IfSome};
ghost use Rattle.std.specs.declared.alloc.Global.{Global};
ghost use Rattle.std.specs.declared.vec.Vec.{Vec};
ghost use Rattle.state_table.specs.Rows.{Rises, Below};
ghost use Rattle.state_table.specs.SpreadRows.{IsSpread, AreSpread, CanSpread, TellsAt};

use std::alloc::{AllocError, Global};

/// Puts a value at a place.
fn put<V: Copy>(spread: &mut Vec<Option<V>>, number: usize, value: V)
    requires { number < length spread.old.items }
    ensures { spread.new.items ≡ slice_set spread.old.items number (Some value) }
{
    spread[number] = Some(value);
}

/// Returns a place for each number below the count, with what the row has beside it.
fn spread_row<V: Copy>(
    alloc: Global,
    row: &[(u32, V)],
    count: usize,
) -> Result<Vec<Option<V>>, AllocError>
    requires rises { Rises row.now }
    requires below { Below count row.now }
    ensures { IfOk result (λ v. IsSpread row.now v.items) }
{
    let mut spread = vec![in alloc; None; count]?;
    'entries: for i in 0..row.len() {
        let entry = row[i];
        put(&mut spread, entry.0 as usize, entry.1);
    }
    Ok(spread)
}

/// Returns the full row of a row of several entries; of fewer none, since halving finds them as fast.
fn spread_if_long<V: Copy>(
    alloc: Global,
    row: &[(u32, V)],
    count: usize,
) -> Result<Vec<Option<V>>, AllocError>
    requires rises { Rises row.now }
    requires below { Below count row.now }
    ensures { IfOk result (λ v. IsSpread row.now v.items) }
{
    if row.len() < 4 {
        return Ok(Vec::new(alloc));
    }
    spread_row(alloc, row, count)
}

/// Returns the row of a state.
fn row_of<E>(rows: &[Vec<E>], s: usize) -> &Vec<E>
    requires { s < length rows.now }
    ensures { slice_get rows.now s ≡ Some result.now }
{
    &rows[s]
}

/// Returns the entry of a full row at a number, if the row reaches that far.
fn place_in<V: Copy>(spread: &[Option<V>], number: usize) -> Option<Option<V>>
    ensures { result ≡ slice_get spread.now number }
{
    spread.get(number).copied()
}

/// Returns the full rows of a table's rows.
pub(crate) fn spread_rows<V: Copy>(
    alloc: Global,
    rows: &[Vec<(u32, V)>],
    count: usize,
) -> Result<Vec<Vec<Option<V>>>, AllocError>
    requires { CanSpread count rows.now }
    ensures { IfOk result (λ v. AreSpread rows.now v.items) }
{
    let mut spreads = Vec::with_capacity(alloc, rows.len())?;
    'rows: for s in 0..rows.len() {
        let spread = spread_if_long(alloc, row_of(rows, s).as_slice(), count)?;
        spreads.push(spread)?;
    }
    Ok(spreads)
}

/// Returns the entry of a state's full row at a number, if there is a full row and it reaches that far.
pub(crate) fn spread_at<V: Copy>(
    spreads: &[Vec<Option<V>>],
    s: usize,
    number: usize,
) -> Option<Option<V>>
    ensures { IfSome result (λ o. (rows : List (Vec (ℕ × V) Global)) → AreSpread rows spreads.now → TellsAt rows s number o) }
{
    if s >= spreads.len() {
        return None;
    }
    place_in(row_of(spreads, s).as_slice(), number)
}
