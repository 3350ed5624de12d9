//! Searches for the candidates of a conflict: first a path to its state, then the spines along this path.

use crate::backward_search::path_to;
use crate::left_corner::steps_behind;
use crate::productions::has_production;
use crate::source::Source;
use crate::spine_search::spine_along;
use crate::witness::Candidate;
use cfg_base::index::IndexStorage;
use cfg_base::symbol::{PIdx, SIdx, Symbol};
use state_table::stidx::StIdx;
use std::alloc::{AllocError, Global};

/// Returns the production with its dot at the end.
fn complete<'a, S: IndexStorage>(
    source: &Source<'a, S>,
    pidx: PIdx<S>,
) -> Option<(PIdx<S>, SIdx<S>)> {
    if !has_production(source.grm, pidx) {
        return None;
    }
    Some((pidx, source.grm.prod_len(pidx)))
}

/// Returns a reduction after the path.
fn reduce_candidate<'a, S: IndexStorage>(
    alloc: Global,
    source: &Source<'a, S>,
    path: &[StIdx<S>],
    item: (PIdx<S>, SIdx<S>),
) -> Result<Option<Candidate<S>>, AllocError> {
    let Some(items) = spine_along(alloc, source, path, item, true)? else {
        return Ok(None);
    };
    let Some(steps) = steps_behind(alloc, source, items.as_slice())? else {
        return Ok(None);
    };
    Ok(Some(Candidate { items, steps }))
}

/// Returns a shift after the path to the state.
fn shift_candidate<'a, S: IndexStorage>(
    alloc: Global,
    source: &Source<'a, S>,
    path: &[StIdx<S>],
    stidx: StIdx<S>,
) -> Result<Option<Candidate<S>>, AllocError> {
    let mut before = Vec::new(alloc);
    let token = Symbol::Token(source.token);
    source.items_before(stidx, token, false, &mut before)?;
    'items: for k in 0..before.len() {
        if let Some(items) = spine_along(alloc, source, path, before[k], false)? {
            let steps = Vec::new(alloc);
            return Ok(Some(Candidate { items, steps }));
        }
    }
    Ok(None)
}

/// Returns a reduction, or a shift where no first production is given, and a second reduction, after one path to the state.
pub(crate) fn candidates<'a, S: IndexStorage>(
    alloc: Global,
    source: &Source<'a, S>,
    first: Option<PIdx<S>>,
    second: PIdx<S>,
    stidx: StIdx<S>,
) -> Result<Option<(Candidate<S>, Candidate<S>)>, AllocError> {
    let first = match first {
        Some(pidx) => complete(source, pidx),
        None => None,
    };
    let Some(second) = complete(source, second) else {
        return Ok(None);
    };
    let Some(path) = path_to(alloc, source, stidx, first, Some(second))? else {
        return Ok(None);
    };
    let one = match first {
        Some(item) => reduce_candidate(alloc, source, path.as_slice(), item)?,
        None => shift_candidate(alloc, source, path.as_slice(), stidx)?,
    };
    let Some(one) = one else {
        return Ok(None);
    };
    let Some(other) = reduce_candidate(alloc, source, path.as_slice(), second)? else {
        return Ok(None);
    };
    Ok(Some((one, other)))
}
