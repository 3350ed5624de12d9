//! Lines of words: their items, the places of these, and texts of repairs.

mod items;
mod repairs;

/// Tokens `+`, `ID` and `ä`, with the numbers 0, 1 and 2.
pub const SUMS: &str = "%token '+' 'ID' 'ä' %start E %% E: T '+' E | T; T: 'ID' | 'ä';";
