//! Tests of `cfg_base`, one file a module. They stand apart from it since a crate with tests is checked twice.
#![tactic(auto)]

#[cfg(test)]
mod header;
#[cfg(test)]
mod header_convert;
#[cfg(test)]
mod index;
#[cfg(test)]
mod markmap;
#[cfg(test)]
mod newlinecache;
#[cfg(test)]
mod same;
#[cfg(test)]
mod span;
#[cfg(test)]
mod symbol;
#[cfg(test)]
mod text;
