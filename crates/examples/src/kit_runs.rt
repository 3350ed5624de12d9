//! A test, and no example of use: which texts have kits and what these report, with numbers of one, two and four bytes; what lines
//! yield through kits by each call that parses; and a line of the tests of the ported crates, whose value names rules and tokens.
mod kits;
mod lexer;
mod lines;
mod names;
mod spell;

use std::alloc::{AllocError, Global};

/// Returns what texts and lines come to.
pub fn output(alloc: Global) -> Result<String, AllocError> {
    let mut out = String::new(alloc);
    kits::push_kits(alloc, &mut out)?;
    lines::push_lines(alloc, &mut out)?;
    names::push_names(alloc, &mut out)?;
    Ok(out)
}
