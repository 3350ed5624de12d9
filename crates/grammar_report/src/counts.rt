//! Counts of a grammar, and whether its conflicts are expected.

ghost use Rattle.std.specs.Prelude.{◌≡◌, Some, IfOk};
ghost use Rattle.grammar_report.specs.Outcomes.{TellsExpected, TellsOutcome, counts_of, expect_of, expect_rr_of, listed_counts};

use crate::outcome::Outcome;
use crate::sentences::has_sentences;
use cfg_base::index::IndexStorage;
use lrtable::Conflicts;
use parser_kit::ParserKit;
use std::alloc::{AllocError, Global};

/// Counts of a grammar. Those of rules, tokens and productions are of what the text has, with what optional symbols stand for.
#[derive(Clone, Copy, Debug, PartialEq, Eq)]
pub struct Counts {
    /// Rules of the text.
    pub rules: usize,
    /// Tokens of the text.
    pub tokens: usize,
    /// Alternatives of the text.
    pub productions: usize,
    /// States of the graph.
    pub states: usize,
    /// Listed conflicts of a shift and a reduction.
    pub shift_reduce: usize,
    /// Listed pairs of reductions.
    pub reduce_reduce: usize,
    /// The number of `%expect`, else 0.
    pub expected_shift_reduce: usize,
    /// The number of `%expect-rr`, else 0.
    pub expected_reduce_reduce: usize,
}

/// Returns the outcome of a text that gives a kit.
pub(crate) fn outcome_of(alloc: Global, kit: &ParserKit<u32>) -> Result<Outcome, AllocError>
    ensures { IfOk result (TellsOutcome kit.now) }
{
    if has_sentences(alloc, kit.grm())? {
        Ok(expectation_of(kit))
    } else {
        Ok(Outcome::Barren)
    }
}

/// Returns whether a kit lists as many conflicts as `%expect` and `%expect-rr` say. A missing number counts as zero. A kit with
/// no conflict is as expected, whatever they say.
pub(crate) fn expectation_of(kit: &ParserKit<u32>) -> Outcome
    ensures { TellsExpected kit.now result }
{
    match kit.conflicts() {
        Some(conflicts) => compare(kit, conflicts),
        None => Outcome::Expected,
    }
}

/// Returns how many shifts against reductions are expected, and how many pairs of reductions.
fn expected(kit: &ParserKit<u32>) -> (usize, usize)
    ensures { result ≡ (expect_of kit.now, expect_rr_of kit.now) }
{
    let shifts = kit.grm().expect().unwrap_or(0);
    let pairs = kit.grm().expectrr().unwrap_or(0);
    (shifts, pairs)
}

// Compares the counts of these conflicts with those that are expected.
fn compare(kit: &ParserKit<u32>, conflicts: &Conflicts<u32>) -> Outcome
    requires { kit.now.parser.table.conflicts ≡ Some conflicts.now }
    ensures { TellsExpected kit.now result }
{
    let (expect, expect_rr) = expected(kit);
    if conflicts.sr_len() == expect && conflicts.rr_len() == expect_rr {
        Outcome::Expected
    } else {
        Outcome::Unexpected
    }
}

/// Returns how many shifts against reductions are listed, and how many pairs of reductions.
fn listed_counts(kit: &ParserKit<u32>) -> (usize, usize)
    ensures { result ≡ listed_counts kit.now.parser.table.conflicts }
{
    match kit.conflicts() {
        Some(conflicts) => (conflicts.sr_len(), conflicts.rr_len()),
        None => (0, 0),
    }
}

/// Returns the counts of a kit's text, graph and conflicts.
pub fn counts_of(kit: &ParserKit<u32>) -> Counts
    ensures { result ≡ counts_of kit.now }
{
    let (shift_reduce, reduce_reduce) = listed_counts(kit);
    let (expected_shift_reduce, expected_reduce_reduce) = expected(kit);
    Counts {
        rules: kit.ast().rules().len(),
        tokens: kit.ast().tokens().len(),
        productions: kit.ast().prods().len(),
        states: kit.sgraph().all_states_len().0.to_usize(),
        shift_reduce,
        reduce_reduce,
        expected_shift_reduce,
        expected_reduce_reduce,
    }
}

/// Returns how many rules, tokens and productions the text has, how many states there are, and the conflicts, if any are listed,
/// in words.
pub(crate) fn counts_text(alloc: Global, counts: Counts) -> Result<String, AllocError> {
    let (rules, tokens, prods) = (counts.rules, counts.tokens, counts.productions);
    let (states, sr, rr) = (counts.states, counts.shift_reduce, counts.reduce_reduce);
    let (expect, expect_rr) = (counts.expected_shift_reduce, counts.expected_reduce_reduce);
    let mut text = format!(in alloc;
        "rules: {rules}, tokens: {tokens}, productions: {prods}, states: {states}\n"
    )?;
    if sr > 0 || rr > 0 {
        let conflicts = format!(in alloc;
            "conflicts: {sr} shift/reduce, {rr} reduce/reduce, expected {expect} and {expect_rr}\n"
        )?;
        text.push_str(conflicts.as_str())?;
    }
    text.push('\n')?;
    Ok(text)
}
