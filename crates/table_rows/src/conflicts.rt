//! Conflicts, by numbers and as texts.

ghost use Rattle.state_table.specs.ConflictTexts.{ConflictsInRange};

use crate::refusals::push_number;
use cfgrammar::index::IndexStorage;
use cfgrammar::yacc::YaccGrammar;
use lrtable::conflicts::Conflicts;
use std::alloc::{AllocError, Global};

/// The pairs of reductions: state, token and productions.
fn push_pairs<S: IndexStorage>(
    alloc: Global,
    out: &mut String,
    conflicts: &Conflicts<S>,
) -> Result<(), AllocError> {
    push_number(alloc, out, "rr ", conflicts.rr_len())?;
    for (tidx, first, second, stidx) in conflicts.rr_conflicts() {
        push_number(alloc, out, ", s", usize::from(*stidx))?;
        push_number(alloc, out, " t", usize::from(*tidx))?;
        push_number(alloc, out, " p", usize::from(*first))?;
        push_number(alloc, out, " p", usize::from(*second))?;
    }
    out.push('\n')
}

/// The shifts against reductions: state, token and production.
fn push_shifts<S: IndexStorage>(
    alloc: Global,
    out: &mut String,
    conflicts: &Conflicts<S>,
) -> Result<(), AllocError> {
    push_number(alloc, out, "sr ", conflicts.sr_len())?;
    for (tidx, pidx, stidx) in conflicts.sr_conflicts() {
        push_number(alloc, out, ", s", usize::from(*stidx))?;
        push_number(alloc, out, " t", usize::from(*tidx))?;
        push_number(alloc, out, " p", usize::from(*pidx))?;
    }
    out.push('\n')
}

/// The text of all conflicts, where it is that of the shifts and then that of the pairs.
fn push_texts<S: IndexStorage>(
    alloc: Global,
    out: &mut String,
    grm: &YaccGrammar<S>,
    conflicts: &Conflicts<S>,
) -> Result<(), AllocError>
    requires { ConflictsInRange grm.now conflicts.now }
{
    let mut parts = conflicts.pp_sr(alloc, grm)?;
    parts.push_str(conflicts.pp_rr(alloc, grm)?.as_str())?;
    if conflicts.pp(alloc, grm)? != parts {
        out.push_str("another text of both\n")?;
    }
    out.push_str(parts.as_str())
}

pub fn push_conflicts<S: IndexStorage>(
    alloc: Global,
    out: &mut String,
    grm: &YaccGrammar<S>,
    conflicts: &Conflicts<S>,
) -> Result<(), AllocError>
    requires { ConflictsInRange grm.now conflicts.now }
{
    push_shifts(alloc, out, conflicts)?;
    push_pairs(alloc, out, conflicts)?;
    push_texts(alloc, out, grm, conflicts)
}
