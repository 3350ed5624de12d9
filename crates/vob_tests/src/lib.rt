//! Tests of `vob`, a file for each of its modules. They stand apart from it since a crate with tests is checked twice.
#![tactic(auto)]

#[cfg(test)]
mod common;
#[cfg(test)]
mod error;
#[cfg(test)]
mod extend;
#[cfg(test)]
mod items;
#[cfg(test)]
mod iter;
#[cfg(test)]
mod raw;
#[cfg(test)]
mod sets;
#[cfg(test)]
mod steps;
#[cfg(test)]
mod traits;
