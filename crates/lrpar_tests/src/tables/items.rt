//! Item sets as texts.

use cfg_base::index::IndexStorage;
use lrtable::itemset::Itemset;
use std::alloc::{AllocError, Global};
use vob::Vob;

/// Returns each lookahead behind a blank.
fn push_lookaheads(alloc: Global, out: &mut String, set: &Vob) -> Result<(), AllocError> {
    for number in set.iter_set_bits(..) {
        out.push_str(format!(in alloc; " {number}")?.as_str())?;
    }
    Ok(())
}

/// Returns the items as production, dot and lookaheads, each followed by a semicolon.
pub fn push_items<S: IndexStorage>(
    alloc: Global,
    out: &mut String,
    set: &Itemset<S>,
) -> Result<(), AllocError> {
    for ((pidx, dot), lookaheads) in set.items() {
        let production = usize::from(pidx);
        let place = usize::from(dot);
        out.push_str(format!(in alloc; "{production}.{place}")?.as_str())?;
        push_lookaheads(alloc, out, lookaheads)?;
        out.push(';')?;
    }
    Ok(())
}
