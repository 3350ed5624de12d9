//! From a grammar's text to the plain values of its report.

ghost use Rattle.std.specs.Prelude.{◌≡◌, ◌+◌, length, None, Some, IsSomeAnd, IfOk, OnOk, IfErr, option_map};
ghost use Rattle.grammar_report.specs.declared.outcome.Outcome.TheVariants.{Invalid};
ghost use Rattle.grammar_report.specs.Messages.{DecidesUntabled, is_large_found};
ghost use Rattle.grammar_report.specs.Outcomes.{IsOutcome, status_of};
ghost use Rattle.report_values.specs.Drawn.{Draws, Fits, IsTooMany, drawn_len, state_count};

use crate::conflicts::{View, push_conflicts};
use crate::findings_error::FindingsError;
use crate::ranges::{LeftOut, first_messages, push_messages};
use crate::rules::push_rules;
use crate::states::{push_states, states_len};
use grammar_report::{
    Outcome, Reading, Untabled, counts_of, push_first_kit_warnings, push_refusal,
    push_unproductive, push_untabled, read_grammar, status,
};
use parser_kit::{KitError, ParserKit};
use report_forms::{Counts, Findings, Object, Said, said_of};
use std::alloc::{AllocError, Global};
use text_messages::{Message, Messages, Source};

/// The version of the object. It grows if a member changes its meaning or goes.
const VERSION: u32 = 1;

/// What is found of a grammar's text.
#[derive(Drop)]
pub struct Found {
    /// What holds for the text.
    pub outcome: Outcome,
    /// What the report says of it.
    pub findings: Findings,
}

/// What the values are to hold.
#[derive(Clone, Copy, Debug)]
pub struct Wanted {
    /// The conflicts, with an example each.
    pub conflicts: bool,
    /// An entry for each listed conflict, in place of one for each production or pair of productions.
    pub each: bool,
    /// Each example from the start rule on.
    pub full: bool,
    /// The rules.
    pub rules: bool,
    /// The states, of a grammar that has at most this many.
    pub states: Option<usize>,
}

/// What is found of a grammar's text, with the first errors and warnings alone.
#[derive(Drop)]
pub struct FirstFound {
    /// What is found, with the first of the messages.
    pub found: Found,
    /// How many messages are left out.
    pub left: LeftOut,
}

/// The first messages about a text without a table.
#[derive(Drop)]
pub struct FirstSaid {
    /// The messages.
    pub list: Vec<Said>,
    /// How many messages there are, those that aren't in the list too.
    pub len: usize,
    /// Whether they are the warnings of a large text; else they are errors.
    pub is_large: bool,
}

/// Returns the counts of a kit.
fn object_counts(kit: &ParserKit<u32>) -> Counts
    ensures { result.states ≡ state_count kit.now }
{
    let counts = counts_of(kit);
    Counts {
        rules: counts.rules,
        tokens: counts.tokens,
        productions: counts.productions,
        states: states_len(kit),
        shift_reduce: counts.shift_reduce,
        reduce_reduce: counts.reduce_reduce,
        expected_shift_reduce: counts.expected_shift_reduce,
        expected_reduce_reduce: counts.expected_reduce_reduce,
    }
}

/// Adds the messages about a kit's text, but of unused names the first `most` alone, and returns how many of these are left.
fn push_kit_messages(
    alloc: Global,
    messages: &mut Messages<'_>,
    kit: &ParserKit<u32>,
    most: usize,
) -> Result<usize, AllocError> {
    let left = push_first_kit_warnings(alloc, messages, kit, most)?;
    push_unproductive(alloc, messages, kit)?;
    Ok(left)
}

/// Puts messages that were collected into the errors and warnings, until a list has `most`, and returns how many are left out, with the
/// warnings that were not collected.
fn put_messages(
    object: &mut Object,
    source: &Source<'_>,
    messages: Messages<'_>,
    collected: Result<usize, AllocError>,
    most: usize,
) -> Result<LeftOut, AllocError>
    ensures status { OnOk result (object.new.status ≡ object.old.status) }
    ensures counts { OnOk result (object.new.counts ≡ object.old.counts) }
{
    match collected {
        Ok(more) => {
            let mut left = push_messages(object, source, messages.into_vec(), most)?;
            left.warnings = left.warnings.saturating_add(more);
            Ok(left)
        }
        Err(e) => {
            drop(messages);
            Err(e)
        }
    }
}

/// Returns a refusal where states are wanted and a grammar has too many of them.
fn refuse_states(len: usize, most: Option<usize>) -> Result<(), FindingsError>
    ensures fits { OnOk result (Fits most len) }
    ensures refusal { IfErr result (IsTooMany most) }
{
    match most {
        Some(most) if most < len => Err(FindingsError::TooManyStates(len)),
        _ => Ok(()),
    }
}

/// Fills in the errors and warnings, the counts and the conflicts of a kit.
fn fill_object(
    alloc: Global,
    object: &mut Object,
    source: &Source<'_>,
    kit: &ParserKit<u32>,
    wanted: Wanted,
    most: usize,
) -> Result<LeftOut, AllocError>
    ensures status { OnOk result (object.new.status ≡ object.old.status) }
    ensures counts { OnOk result (IsSomeAnd object.new.counts (λ counts. counts.states ≡ state_count kit.now)) }
{
    let mut messages = Messages::new(alloc, source.text());
    let collected = push_kit_messages(alloc, &mut messages, kit, most);
    let left = put_messages(object, source, messages, collected, most)?;
    object.counts = Some(object_counts(kit));
    if !wanted.conflicts {
        return Ok(left);
    }
    let full = wanted.full;
    let view = View { source, kit, full };
    push_conflicts(alloc, &mut object.conflicts, &view, wanted.each)?;
    Ok(left)
}

/// Fills in the rules and the states, as far as they are wanted.
fn fill_drawn(
    alloc: Global,
    findings: &mut Findings,
    kit: &ParserKit<u32>,
    wanted: Wanted,
) -> Result<(), AllocError>
    ensures object { OnOk result (findings.new.object ≡ findings.old.object) }
    ensures states { OnOk result (length findings.new.states.items ≡ length findings.old.states.items + drawn_len wanted.states (state_count kit.now)) }
{
    if wanted.rules {
        push_rules(alloc, &mut findings.rules, kit.grm())?;
    }
    if wanted.states.is_some() {
        return push_states(alloc, &mut findings.states, kit);
    }
    Ok(())
}

/// Fills in what is found of a kit.
fn fill_of_kit(
    alloc: Global,
    findings: &mut Findings,
    source: &Source<'_>,
    kit: &ParserKit<u32>,
    wanted: Wanted,
    most: usize,
) -> Result<LeftOut, FindingsError>
    ensures status { OnOk result (findings.new.object.status ≡ findings.old.object.status) }
    ensures counts { OnOk result (IsSomeAnd findings.new.object.counts (λ counts. counts.states ≡ state_count kit.now)) }
    ensures states { OnOk result (length findings.new.states.items ≡ length findings.old.states.items + drawn_len wanted.states (state_count kit.now)) }
    ensures fits { OnOk result (Fits wanted.states (state_count kit.now)) }
    ensures refusal { IfErr result (IsTooMany wanted.states) }
{
    refuse_states(states_len(kit), wanted.states)?;
    let left = fill_object(alloc, &mut findings.object, source, kit, wanted, most)?;
    fill_drawn(alloc, findings, kit, wanted)?;
    Ok(left)
}

/// Fills in why a text gives no parser.
fn fill_of_refusal(
    alloc: Global,
    object: &mut Object,
    source: &Source<'_>,
    refusal: &KitError<u32>,
    most: usize,
) -> Result<LeftOut, AllocError>
    ensures status { OnOk result (object.new.status ≡ object.old.status) }
    ensures counts { OnOk result (object.new.counts ≡ object.old.counts) }
{
    let mut messages = Messages::new(alloc, source.text());
    let collected = match push_refusal(alloc, &mut messages, refusal) {
        Ok(()) => Ok(0),
        Err(e) => Err(e),
    };
    put_messages(object, source, messages, collected, most)
}

/// Fills in what is found of what a source's text gives.
fn fill(
    alloc: Global,
    findings: &mut Findings,
    source: &Source<'_>,
    reading: &Reading,
    wanted: Wanted,
    most: usize,
) -> Result<LeftOut, FindingsError>
    requires no_counts { findings.old.object.counts ≡ None }
    requires no_states { length findings.old.states.items ≡ 0 }
    ensures status { OnOk result (findings.new.object.status ≡ findings.old.object.status) }
    ensures states { OnOk result (Draws wanted.states findings.new) }
    ensures refusal { IfErr result (IsTooMany wanted.states) }
{
    match &reading.kit {
        Ok(kit) => fill_of_kit(alloc, findings, source, kit, wanted, most),
        Err(refusal) => {
            let left = fill_of_refusal(alloc, &mut findings.object, source, refusal, most)?;
            Ok(left)
        }
    }
}

/// Returns findings with an outcome alone.
fn no_findings(alloc: Global, outcome: Outcome) -> Findings
    ensures status { result.object.status ≡ status_of outcome }
    ensures counts { result.object.counts ≡ None }
    ensures errors { length result.object.errors.items ≡ 0 }
    ensures states { length result.states.items ≡ 0 }
{
    Findings {
        object: Object {
            version: VERSION,
            status: status(outcome),
            errors: Vec::new(alloc),
            warnings: Vec::new(alloc),
            conflicts: Vec::new(alloc),
            counts: None,
            notes: Vec::new(alloc),
        },
        rules: Vec::new(alloc),
        states: Vec::new(alloc),
    }
}

/// Returns what is found of what a source's text gives, with the first `most` errors and warnings.
fn findings_of(
    alloc: Global,
    source: &Source<'_>,
    reading: &Reading,
    wanted: Wanted,
    most: usize,
) -> Result<(Findings, LeftOut), FindingsError>
    ensures status { IfOk result (λ r. r.0.object.status ≡ status_of reading.now.outcome) }
    ensures states { IfOk result (λ r. Draws wanted.states r.0) }
    ensures refusal { IfErr result (IsTooMany wanted.states) }
{
    let mut findings = no_findings(alloc, reading.outcome);
    match fill(alloc, &mut findings, source, reading, wanted, most) {
        Ok(left) => Ok((findings, left)),
        Err(e) => {
            drop(findings);
            Err(e)
        }
    }
}

/// Adds an error.
fn push_error(object: &mut Object, source: &Source<'_>, error: Message) -> Result<(), AllocError>
    ensures status { OnOk result (object.new.status ≡ object.old.status) }
    ensures errors { OnOk result (length object.new.errors.items ≡ length object.old.errors.items + 1) }
{
    object.errors.push(said_of(source, error))?;
    Ok(())
}

/// Returns the findings of a file that gives no text to read, for one error.
pub fn findings_of_error(
    alloc: Global,
    source: &Source<'_>,
    error: Message,
) -> Result<Found, AllocError>
    ensures outcome { IfOk result (λ f. f.outcome ≡ Invalid) }
    ensures status { IfOk result (λ f. f.findings.object.status ≡ 2) }
    ensures errors { IfOk result (λ f. length f.findings.object.errors.items ≡ 1) }
{
    let outcome = Outcome::Invalid;
    let mut findings = no_findings(alloc, outcome);
    match push_error(&mut findings.object, source, error) {
        Ok(()) => Ok(Found { outcome, findings }),
        Err(e) => {
            drop(findings);
            Err(e)
        }
    }
}

/// Returns the first messages about a source's text, at most `most`, with `left` others that were not collected.
fn first_said(
    alloc: Global,
    source: &Source<'_>,
    messages: Messages<'_>,
    most: usize,
    left: usize,
    is_large: bool,
) -> Result<Option<FirstSaid>, AllocError>
    ensures { IfOk result (λ o. option_map (λ x. x.is_large) o ≡ Some is_large) }
{
    let messages = messages.into_vec();
    let len = messages.len().saturating_add(left);
    let list = first_messages(alloc, source, messages, most)?;
    Ok(Some(FirstSaid {
        list,
        len,
        is_large,
    }))
}

/// Returns what is found of a source's text without a table, by the messages that were collected.
fn said_untabled(
    alloc: Global,
    source: &Source<'_>,
    messages: Messages<'_>,
    most: usize,
    untabled: Untabled,
) -> Result<Option<FirstSaid>, AllocError>
    ensures { IfOk result (λ o. option_map (λ x. x.is_large) o ≡ is_large_found untabled) }
{
    match untabled {
        Untabled::Errors(left) => first_said(alloc, source, messages, most, left, false),
        Untabled::Warnings(left) => first_said(alloc, source, messages, most, left, true),
        Untabled::Neither => {
            drop(messages);
            Ok(None)
        }
    }
}

/// Returns what is found of a source's text without a table, with the first `most` messages: the errors of a text in which something is
/// wrong; the warnings of another one with more than `size` productions and symbols in them. Else there is nothing, and so where its
/// section names no kind.
pub fn untabled_on(
    alloc: Global,
    source: &Source<'_>,
    size: usize,
    most: usize,
) -> Result<Option<FirstSaid>, AllocError>
    ensures { IfOk result (λ o. DecidesUntabled size source.now.text (option_map (λ x. x.is_large) o)) }
{
    let mut messages = Messages::new(alloc, source.text());
    match push_untabled(alloc, &mut messages, size, most) {
        Ok(untabled) => said_untabled(alloc, source, messages, most, untabled),
        Err(e) => {
            drop(messages);
            Err(e)
        }
    }
}

/// Returns what `findings_on` does, with the first `most` errors and the first `most` warnings.
pub fn first_findings_on(
    alloc: Global,
    source: &Source<'_>,
    wanted: Wanted,
    most: usize,
) -> Result<FirstFound, FindingsError>
    ensures outcome { IfOk result (λ f. IsOutcome source.now.text f.found.outcome) }
    ensures status { IfOk result (λ f. f.found.findings.object.status ≡ status_of f.found.outcome) }
    ensures states { IfOk result (λ f. Draws wanted.states f.found.findings) }
    ensures refusal { IfErr result (IsTooMany wanted.states) }
{
    let reading = read_grammar(alloc, source.text())?;
    let outcome = reading.outcome;
    let found = findings_of(alloc, source, &reading, wanted, most);
    drop(reading);
    let (findings, left) = found?;
    let found = Found { outcome, findings };
    Ok(FirstFound { found, left })
}

/// Returns what is found of a source's text, as `grammar_report::read_grammar` reads it. Places are those of the source. Where
/// the states are wanted and there are too many, they are counted and nothing else is made.
pub fn findings_on(
    alloc: Global,
    source: &Source<'_>,
    wanted: Wanted,
) -> Result<Found, FindingsError>
    ensures outcome { IfOk result (λ f. IsOutcome source.now.text f.outcome) }
    ensures status { IfOk result (λ f. f.findings.object.status ≡ status_of f.outcome) }
    ensures states { IfOk result (λ f. Draws wanted.states f.findings) }
    ensures refusal { IfErr result (IsTooMany wanted.states) }
{
    let first = first_findings_on(alloc, source, wanted, usize::MAX)?;
    Ok(first.found)
}
