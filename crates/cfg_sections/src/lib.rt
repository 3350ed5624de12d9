//! Maps with marks, and the sections `%grmtools{..}` of grammar and lexer files, which are read into them.
//!
//! Contracts see a map as a finite map with a mark for each key. The contracts that matter most are those of
//! `markmap::MarkMap::merge_from`, and of `header::GrmtoolsSectionParser`, whose answers are those of `specs/Sections`: the pairs
//! of the section and the offset behind it, or all that is wrong with it.
#![tactic(auto)]

pub mod header;
pub mod markmap;
