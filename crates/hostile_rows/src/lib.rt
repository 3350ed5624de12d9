//! Reads files of hostile grammars, lines and repairs, and tells of which the kit or the program answers what it may not:
//! of each text of a grammar there is a kit, or it is refused by a name whose offsets lie in the text, on starts of
//! characters; a run ends, and writes nothing where it is refused. `tools/evidence/hostile --rows` makes the files of a seed.
//!
//! A line `|TEXT` is a grammar, `<TEXT` below it its lines and `?TEXT` its repairs, each with `\x` and two hexadecimal digits
//! for a byte that isn't shown.
#![tactic(auto)]

mod kits;
mod rows;
mod runs;

pub use rows::summary_of;
