//! A test, and no example of use: parses lists of a million lexemes, left- and right-recursive ones, copies, compares and drops
//! their trees, and reports an error at the end of such a line. A tree is as deep as its line is long: what recursed by depth
//! would end the program by a stack overflow. Then recoverers offer what no sensible one does: a sequence of a million steps, a
//! thousand sequences, none that can be taken. At last the grammar of a chain of 100,000 rules is asked for paths, sets, costs
//! and a sentence.
mod chains;
mod lexer;
mod mended;
mod nodes;
mod offers;
mod outcome;
mod runs;

use std::alloc::{AllocError, Global};

/// Returns what long lines, strange recoverers and a chain of rules come to.
pub fn output(alloc: Global) -> Result<String, AllocError> {
    let mut out = String::new(alloc);
    runs::push_runs(alloc, &mut out)?;
    mended::push_sums(alloc, &mut out)?;
    chains::push_chain(alloc, &mut out)?;
    Ok(out)
}
