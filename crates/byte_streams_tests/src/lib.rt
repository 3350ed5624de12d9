//! Tests of `byte_streams`: inputs that come in parts, fail or never end, and writers that take little, fail or take nothing.
#![tactic(auto)]

#[cfg(test)]
mod inputs;
#[cfg(test)]
mod outputs;
#[cfg(test)]
mod same;
