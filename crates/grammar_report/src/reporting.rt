//! The report on a text.

ghost use Rattle.std.specs.Prelude.{◌≡◌, [], IfOk, OnErr, OnOk, map, string_bytes};
ghost use Rattle.text_messages.specs.Added.{AddsSome, said};
ghost use Rattle.grammar_report.specs.Messages.{AreFirstWarnings, AreOfConflicts, AreOfKit, AreOfText, AreOfWarnings, AreUnproductive, ExplainRefusal, Shows, ShowsSome, source_of};
ghost use Rattle.grammar_report.specs.Outcomes.{IsKitIn, IsOutcome, TellsOutcome};
ghost use Rattle.grammar_report.specs.declared.outcome.Outcome.TheVariants.{Invalid};

use crate::asked::Asked;
use crate::conflicts::push_conflicts;
use crate::counts::{counts_of, counts_text};
use crate::faults::{push_first_warnings, push_refusal, push_warnings};
use crate::idle::push_idle;
use crate::next::push_next;
use crate::outcome::{Outcome, Report};
use crate::reading::{Reading, read_grammar};
use crate::sentences::{push_sentences, push_unproductive};
use crate::settled::{all_pairs, push_settled};
use parser_kit::{KitError, ParserKit};
use refused_tables::Listed;
use std::alloc::{AllocError, Global};
use text_messages::{Message, Messages, Source};

/// Returns whether each line that is a sentence gets its only tree, or that no line is one.
fn completeness(kit: &ParserKit<u32>, barren: bool) -> &'static str {
    if barren {
        "No line is a sentence.\n"
    } else if kit.complete() {
        "Each line that is a sentence gets its tree, which is its only one.\n"
    } else {
        "This grammar is ambiguous or has conflicts: a valid line may have several trees, or be rejected.\n"
    }
}

/// Adds the warnings of a text that gives a parser.
pub fn push_kit_warnings(
    alloc: Global,
    messages: &mut Messages<'_>,
    kit: &ParserKit<u32>,
) -> Result<(), AllocError>
    ensures { OnOk result (AddsSome (AreOfWarnings messages.old.text kit.now.kept.ast) messages.old messages.new) }
{
    push_warnings(alloc, messages, kit.ast())?;
    let pairs = all_pairs(alloc, kit)?;
    push_idle(alloc, messages, kit, pairs.as_slice())
}

/// Adds the warnings of `push_kit_warnings`, but of unused names the first `most` alone, and returns how many of these are left.
pub fn push_first_kit_warnings(
    alloc: Global,
    messages: &mut Messages<'_>,
    kit: &ParserKit<u32>,
    most: usize,
) -> Result<usize, AllocError>
    ensures { IfOk result (λ left. AddsSome (AreFirstWarnings messages.old.text most kit.now.kept.ast left) messages.old messages.new) }
{
    let left = push_first_warnings(alloc, messages, kit.ast(), most)?;
    let pairs = all_pairs(alloc, kit)?;
    push_idle(alloc, messages, kit, pairs.as_slice())?;
    Ok(left)
}

/// Adds messages.
fn push_messages(
    alloc: Global,
    text: &mut String,
    source: &Source<'_>,
    messages: &[Message],
) -> Result<(), AllocError>
    ensures { OnOk result (Shows source.now (string_bytes text.old) (map said messages.now) (string_bytes text.new)) }
{
    'messages: for message in messages {
        source.push(alloc, text, message)?;
    }
    Ok(())
}

/// Adds messages, and an empty line behind them, if there are any.
fn push_part(
    alloc: Global,
    text: &mut String,
    source: &Source<'_>,
    messages: &[Message],
) -> Result<(), AllocError>
    ensures { OnOk result (Shows source.now (string_bytes text.old) (map said messages.now) (string_bytes text.new)) }
{
    push_messages(alloc, text, source, messages)?;
    if !messages.is_empty() {
        text.push('\n')?;
    }
    Ok(())
}

/// Adds the warnings of a kit.
fn show_warnings(
    alloc: Global,
    text: &mut String,
    source: &Source<'_>,
    kit: &ParserKit<u32>,
) -> Result<(), AllocError>
    ensures { OnOk result (ShowsSome (AreOfWarnings source.now.text kit.now.kept.ast) source.now (string_bytes text.old) (string_bytes text.new)) }
{
    let mut messages = Messages::new(alloc, source.text());
    push_kit_warnings(alloc, &mut messages, kit)?;
    push_part(alloc, text, source, messages.as_slice())
}

/// Adds the rules of a kit that derive no list of tokens.
fn show_unproductive(
    alloc: Global,
    text: &mut String,
    source: &Source<'_>,
    kit: &ParserKit<u32>,
) -> Result<(), AllocError>
    ensures { OnOk result (ShowsSome (AreUnproductive source.now.text kit.now.parser.grammar kit.now.kept.ast) source.now (string_bytes text.old) (string_bytes text.new)) }
{
    let mut messages = Messages::new(alloc, source.text());
    push_unproductive(alloc, &mut messages, kit)?;
    push_part(alloc, text, source, messages.as_slice())
}

/// Adds the conflicts of a kit.
fn show_conflicts(
    alloc: Global,
    text: &mut String,
    source: &Source<'_>,
    kit: &ParserKit<u32>,
    asked: Asked<'_>,
) -> Result<(), AllocError>
    ensures { OnOk result (ShowsSome (AreOfConflicts ⟦<Listed as Ord>⟧.cmp asked.entry.each source.now.text kit.now) source.now (string_bytes text.old) (string_bytes text.new)) }
{
    let mut messages = Messages::new(alloc, source.text());
    push_conflicts(alloc, &mut messages, kit, asked)?;
    push_messages(alloc, text, source, messages.as_slice())
}

/// Adds the closed states.
fn push_states(alloc: Global, text: &mut String, kit: &ParserKit<u32>) -> Result<(), AllocError> {
    kit.kit().stays_tabled();
    text.push_str("\nStates:\n")?;
    let states = kit.sgraph().pp_closed_states(alloc, kit.grm())?;
    text.push_str(states.as_str())
}

/// Adds what was asked for.
fn push_asked(
    alloc: Global,
    text: &mut String,
    kit: &ParserKit<u32>,
    asked: Asked<'_>,
    color: bool,
) -> Result<(), AllocError> {
    if asked.states {
        push_states(alloc, text, kit)?;
    }
    if asked.sentences {
        push_sentences(alloc, text, kit.grm(), kit.ast())?;
    }
    if let Some(lines) = asked.next {
        push_next(alloc, text, kit, lines, color)?;
    }
    Ok(())
}

/// Returns what a report has behind the conflicts: what precedences settle, whether each sentence gets its only tree, and what
/// was asked for.
fn rest_of(
    alloc: Global,
    kit: &ParserKit<u32>,
    outcome: Outcome,
    asked: Asked<'_>,
    color: bool,
) -> Result<String, AllocError> {
    let mut text = String::new(alloc);
    let pairs = all_pairs(alloc, kit)?;
    push_settled(&mut text, kit.grm(), pairs.as_slice())?;
    text.push_str(completeness(kit, outcome == Outcome::Barren))?;
    push_asked(alloc, &mut text, kit, asked, color)?;
    Ok(text)
}

/// Returns the report on a text that gives a parser.
fn text_of_kit(
    alloc: Global,
    source: &Source<'_>,
    kit: &ParserKit<u32>,
    outcome: Outcome,
    asked: Asked<'_>,
) -> Result<String, AllocError>
    ensures { IfOk result (λ text. ShowsSome (AreOfKit ⟦<Listed as Ord>⟧.cmp asked.entry.each source.now.text kit.now) source.now [] (string_bytes text)) }
{
    let counts = counts_text(alloc, counts_of(kit))?;
    let rest = rest_of(alloc, kit, outcome, asked, source.in_color())?;
    let mut text = String::new(alloc);
    show_warnings(alloc, &mut text, source, kit)?;
    text.push_str(counts.as_str())?;
    show_unproductive(alloc, &mut text, source, kit)?;
    show_conflicts(alloc, &mut text, source, kit, asked)?;
    text.push_str(rest.as_str())?;
    Ok(text)
}

/// Returns the errors of a text that gives no parser.
fn text_of_refusal(
    alloc: Global,
    source: &Source<'_>,
    refusal: &KitError<u32>,
) -> Result<String, AllocError>
    ensures { IfOk result (λ text. ShowsSome (ExplainRefusal source.now.text refusal.now) source.now [] (string_bytes text)) }
{
    let mut messages = Messages::new(alloc, source.text());
    push_refusal(alloc, &mut messages, refusal)?;
    let mut text = String::new(alloc);
    push_messages(alloc, &mut text, source, messages.as_slice())?;
    Ok(text)
}

/// Returns the report on what a source's text gives.
fn text_of(
    alloc: Global,
    source: &Source<'_>,
    reading: &Reading,
    asked: Asked<'_>,
) -> Result<String, AllocError>
    requires kit { IfOk reading.now.kit (λ k. IsKitIn source.now.text k × TellsOutcome k reading.now.outcome) }
    requires refusal { OnErr reading.now.kit (reading.now.outcome ≡ Invalid) }
    ensures { IfOk result (λ text. ShowsSome (AreOfText ⟦<Listed as Ord>⟧.cmp asked.entry.each source.now.text reading.now.outcome) source.now [] (string_bytes text)) }
{
    match &reading.kit {
        Ok(kit) => text_of_kit(alloc, source, kit, reading.outcome, asked),
        Err(refusal) => text_of_refusal(alloc, source, refusal),
    }
}

/// Returns the report on a source's text, as `read_grammar` reads it. Places are those of the source.
pub fn report_on(alloc: Global, source: &Source<'_>, asked: Asked<'_>) -> Result<Report, AllocError>
    ensures outcome { IfOk result (λ r. IsOutcome source.now.text r.outcome) }
    ensures shows { IfOk result (λ r. ShowsSome (AreOfText ⟦<Listed as Ord>⟧.cmp asked.entry.each source.now.text r.outcome) source.now [] (string_bytes r.text)) }
{
    let reading = read_grammar(alloc, source.text())?;
    let outcome = reading.outcome;
    let made = text_of(alloc, source, &reading, asked);
    drop(reading);
    let text = made?;
    Ok(Report { text, outcome })
}

/// Returns the report on a grammar's text, as `report_on` makes it. Places have the path.
pub fn report(alloc: Global, text: &str, path: &str, asked: Asked<'_>) -> Result<Report, AllocError>
    ensures outcome { IfOk result (λ r. IsOutcome text.now r.outcome) }
    ensures shows { IfOk result (λ r. ShowsSome (AreOfText ⟦<Listed as Ord>⟧.cmp asked.entry.each text.now r.outcome) (source_of text.now path.now) [] (string_bytes r.text)) }
{
    let source = Source::new(alloc, text, path)?;
    let made = report_on(alloc, &source, asked);
    drop(source);
    made
}
