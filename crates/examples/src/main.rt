//! Prints what each example shows, simplest first. Each module is one, with its own text of a grammar; its first page says which
//! contract of its own is proved from those of the calls.
//!
//! - `places` over `cfg_base`; `bits` over `vob`; `first_sets` and `shortest` over `cfgrammar`; `conflicts` over `lrtable`;
//!   `calc` over `lrpar`; `editor` over `lrpar` and `lrpar_diagnostics`; `kit` over `parser_kit`.
//! - `text_errors` makes the grammar of a text, `parser_data` what a parser runs on; several of them use these. `deep_runs` is a test of long lines and deep trees, `kit_runs` one of kits.
#![tactic(auto)]

mod bits;
mod calc;
mod conflicts;
mod deep_runs;
mod editor;
mod first_sets;
mod kit;
mod kit_runs;
mod parser_data;
mod places;
mod shortest;
mod text_errors;

use std::io;

fn main(rt: HostRuntime) -> io::Result<()> {
    let alloc = rt.alloc();
    print!(rt; "{}", places::output(alloc)?)?;
    print!(rt; "{}", bits::output(alloc)?)?;
    print!(rt; "{}", first_sets::output(alloc)?)?;
    print!(rt; "{}", shortest::output(alloc)?)?;
    print!(rt; "{}", conflicts::output(alloc)?)?;
    print!(rt; "{}", calc::output(alloc)?)?;
    print!(rt; "{}", editor::output(alloc)?)?;
    print!(rt; "{}", kit::output(alloc)?)?;
    print!(rt; "{}", kit_runs::output(alloc)?)?;
    print!(rt; "{}", deep_runs::output(alloc)?)
}
