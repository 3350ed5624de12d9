//! Which rules are tried where.

ghost use Rattle.std.specs.Prelude.{◌≡◌, ◌<◌, ◌≤◌, [], ℕ, true, false, length, slice_index_or, OnOk};
ghost use Rattle.maximal_munch.specs.Beginnings.{row_items, rows_of, is_tried, KeepsTried};

use regex_levels::Level;
use std::alloc::{AllocError, Global};

/// The number of rows, one for each byte.
const BYTES: usize = 256;

/// For each byte, the numbers of the rules that are tried before it.
#[derive(Drop)]
pub(crate) struct TriedRules {
    pub(crate) rows: Vec<Vec<usize>>,
}

/// Appends a rule to the row of a byte.
fn push_at(rows: &mut Vec<Vec<usize>>, byte: usize, rule: usize) -> Result<(), AllocError>
    requires { byte < length (row_items rows.old) }
    ensures keeps { KeepsTried (row_items rows.old) (row_items rows.new) }
    ensures adds { OnOk result (is_tried (row_items rows.new) byte rule ≡ true) }
    ensures len { length (row_items rows.new) ≡ length (row_items rows.old) }
{
    let row = &mut rows[byte];
    row.push(rule)?;
    Ok(())
}

impl TriedRules {
    /// Makes rows for no rule.
    pub(crate) fn new(alloc: Global) -> TriedRules {
        TriedRules {
            rows: Vec::new(alloc),
        }
    }

    /// Makes the rows that are missing.
    fn fill(&mut self) -> Result<(), AllocError>
        ensures rows { OnOk result (256 ≤ length (rows_of self.new)) }
        ensures keeps { KeepsTried (rows_of self.old) (rows_of self.new) }
    {
        let alloc = *self.rows.allocator();
        'rows: while self.rows.len() < BYTES {
            self.rows.push(Vec::new(alloc))?;
        }
        Ok(())
    }

    /// Adds a rule to the row of each byte that its matches may begin with.
    pub(crate) fn add(&mut self, rule: usize, first: &Level) -> Result<(), AllocError>
        ensures keeps { KeepsTried (rows_of self.old) (rows_of self.new) }
        ensures adds { OnOk result ((byte : ℕ) → slice_index_or first.now byte false ≡ true → is_tried (rows_of self.new) byte rule ≡ true) }
    {
        self.fill()?;
        'bytes: for byte in 0..BYTES {
            if first[byte] {
                push_at(&mut self.rows, byte, rule)?;
            }
        }
        Ok(())
    }

    /// Returns the numbers of the rules that are tried before a byte.
    pub(crate) fn at(&self, byte: u8) -> &[usize]
        ensures { result.now ≡ slice_index_or (rows_of self.now) byte [] }
    {
        match self.rows.get(byte as usize) {
            Some(row) => row.as_slice(),
            None => &[],
        }
    }
}
