//! Tests of `lrpar_diagnostics` of what the rows of `diagnostic_rows` don't ask. They stand apart from it since a crate with
//! tests is checked twice.
#![tactic(auto)]

#[cfg(test)]
mod bounds;
#[cfg(test)]
mod same;
