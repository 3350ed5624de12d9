//! Conflicts that no precedence settles, each with its example.

ghost use Rattle.std.specs.Prelude.{◌≡◌, IfOk, IfSome, OnOk, map, string_bytes, take};
ghost use Rattle.grammar_report.specs.Messages.{AreOfBlock, AreOfBlocks, AreOfConflict, AreOfConflicts, AreOfEach, AreWithNote, IsConflictSeverity, count_told, kind_text, most_blocks};
ghost use Rattle.text_messages.specs.Added.{AddsSaid, AddsSome, said_in};
ghost use Rattle.text_messages.specs.Places.{BeginsWith};
ghost use Rattle.text_messages.specs.declared.source.Severity.TheVariants.{Note};

use crate::asked::Asked;
use crate::counts::expectation_of;
use crate::listed::{conflict_blocks, example_of, push_states, push_tokens};
use crate::outcome::Outcome;
use crate::production_places::{production_span, shift_span};
use conflict_examples::{ConflictExample, ExampleFinder};
use grammar_names::{push_prod, push_token};
use parser_kit::ParserKit;
use refused_tables::{Listed, nearest, push_example};
use std::alloc::{AllocError, Global};
use text_messages::{Message, Messages, Severity};

/// How many blocks are shown.
const MOST_BLOCKS: usize = 100;

/// What blocks are made of.
#[derive(Clone, Copy)]
struct View<'a> {
    kit: &'a ParserKit<u32>,
    severity: Severity,
    each: bool,
    full: bool,
}

/// Returns how grave listed conflicts are: notes where they are as many as expected, else warnings.
fn conflict_severity(kit: &ParserKit<u32>) -> Severity
    ensures { IsConflictSeverity kit.now result }
{
    match expectation_of(kit) {
        Outcome::Expected => Severity::Note,
        _ => Severity::Warning,
    }
}

/// Returns what a conflict is called.
fn kind_of(first: &Listed) -> &'static str
    ensures { result.now ≡ kind_text first.now.other }
{
    match first.other {
        Some(_) => "reduce/reduce conflict",
        None => "shift/reduce conflict",
    }
}

/// Returns the states, the productions and the tokens of conflicts of the same productions, in words.
fn details_of(
    alloc: Global,
    view: &View<'_>,
    listed: &[Listed],
    first: &Listed,
) -> Result<String, AllocError> {
    let mut text = String::new(alloc);
    push_states(alloc, &mut text, listed, view.each)?;
    text.push_str(": reduce ")?;
    push_prod(&mut text, view.kit.grm(), first.pidx)?;
    match first.other {
        Some(other) => {
            text.push_str(", or ")?;
            push_prod(&mut text, view.kit.grm(), other)?;
            text.push_str(", before")?;
        }
        None => text.push_str(", or shift")?,
    }
    push_tokens(&mut text, view.kit.grm(), listed)?;
    Ok(text)
}

/// Returns what conflicts of the same productions are, in words.
fn words_of(
    alloc: Global,
    view: &View<'_>,
    listed: &[Listed],
    first: &Listed,
) -> Result<String, AllocError>
    ensures { IfOk result (λ words. BeginsWith (kind_text first.now.other) (string_bytes words)) }
{
    let details = details_of(alloc, view, listed, first)?;
    let mut words = String::from_str(alloc, kind_of(first))?;
    words.push_str(details.as_str())?;
    Ok(words)
}

/// Returns a note at the other action, if it has a place: the second production of a pair, or the token that is shifted.
fn other_action(
    alloc: Global,
    view: &View<'_>,
    first: &Listed,
    example: &ConflictExample<u32>,
) -> Result<Option<Message>, AllocError>
    ensures { IfOk result (λ o. IfSome o (λ m. m.severity ≡ Note)) }
{
    let (span, what) = match first.other {
        Some(other) => (production_span(view.kit.ast(), other), "or reduce "),
        None => (shift_span(view.kit, example), "shift"),
    };
    if span.is_none() {
        return Ok(None);
    }
    let mut words = String::from_str(alloc, what)?;
    match first.other {
        Some(other) => push_prod(&mut words, view.kit.grm(), other)?,
        None => push_token(&mut words, view.kit.grm(), example.token)?,
    }
    Ok(Some(Message::new(Severity::Note, span, words)))
}

/// Returns the lines of an example, from the nearest rule on or from the start, and an empty line.
fn example_lines(
    alloc: Global,
    view: &View<'_>,
    first: &Listed,
    example: &ConflictExample<u32>,
) -> Result<String, AllocError> {
    let grm = view.kit.grm();
    let mut text = String::new(alloc);
    if view.full {
        push_example(alloc, &mut text, grm, example, first.pidx, first.other)?;
    } else {
        let near = nearest(alloc, grm, example)?;
        push_example(alloc, &mut text, grm, &near, first.pidx, first.other)?;
    }
    text.push('\n')?;
    Ok(text)
}

/// Adds the message of a block, and behind it the other action with an example.
fn push_shown(
    alloc: Global,
    messages: &mut Messages<'_>,
    view: &View<'_>,
    first: &Listed,
    message: Message,
    example: &ConflictExample<u32>,
) -> Result<(), AllocError>
    ensures { OnOk result (AddsSome (AreWithNote (said_in messages.old.text message.severity message.span (string_bytes message.words))) messages.old messages.new) }
{
    let mut message = message;
    let lines = example_lines(alloc, view, first, example)?;
    match other_action(alloc, view, first, example)? {
        Some(mut note) => {
            note.example = Some(lines);
            messages.push(message)?;
            messages.push(note)
        }
        None => {
            message.example = Some(lines);
            messages.push(message)
        }
    }
}

/// Adds the message of a block for which no example is found.
fn push_unshown(
    alloc: Global,
    messages: &mut Messages<'_>,
    message: Message,
) -> Result<(), AllocError>
    ensures { OnOk result (AddsSome (AreWithNote (said_in messages.old.text message.severity message.span (string_bytes message.words))) messages.old messages.new) }
{
    let mut message = message;
    let lines = String::from_str(alloc, "  No example was found.\n\n")?;
    message.example = Some(lines);
    messages.push(message)
}

/// Adds the messages of conflicts of the same productions, of which this is the first.
fn push_conflict(
    alloc: Global,
    messages: &mut Messages<'_>,
    view: &View<'_>,
    finder: &ExampleFinder<'_, u32>,
    listed: &[Listed],
    first: &Listed,
) -> Result<(), AllocError>
    ensures { OnOk result (AddsSome (AreOfConflict messages.old.text view.now.kit.now.kept.ast view.now.severity first.now) messages.old messages.new) }
{
    let words = words_of(alloc, view, listed, first)?;
    let span = production_span(view.kit.ast(), first.pidx);
    let message = Message::new(view.severity, span, words);
    let example = example_of(alloc, finder, listed)?;
    match &example {
        Some(example) => push_shown(alloc, messages, view, first, message, example),
        None => push_unshown(alloc, messages, message),
    }
}

/// Adds the messages of a block of conflicts.
fn push_block(
    alloc: Global,
    messages: &mut Messages<'_>,
    view: &View<'_>,
    finder: &ExampleFinder<'_, u32>,
    listed: &[Listed],
) -> Result<(), AllocError>
    ensures { OnOk result (AddsSome (AreOfBlock messages.old.text view.now.kit.now.kept.ast view.now.severity listed.now) messages.old messages.new) }
{
    match listed.first() {
        Some(first) => push_conflict(alloc, messages, view, finder, listed, first),
        None => Ok(()),
    }
}

/// Adds the messages of blocks.
fn push_blocks(
    alloc: Global,
    messages: &mut Messages<'_>,
    view: &View<'_>,
    finder: &ExampleFinder<'_, u32>,
    blocks: &[Vec<Listed>],
) -> Result<(), AllocError>
    ensures { OnOk result (AddsSome (AreOfEach (AreOfBlock messages.old.text view.now.kit.now.kept.ast view.now.severity) (map (λ b. b.items) blocks.now)) messages.old messages.new) }
{
    'each: for block in blocks {
        push_block(alloc, messages, view, finder, block.as_slice())?;
    }
    Ok(())
}

/// Adds the messages of blocks; where there is none, no example is looked for.
fn push_of_blocks(
    alloc: Global,
    messages: &mut Messages<'_>,
    view: &View<'_>,
    blocks: &[Vec<Listed>],
) -> Result<(), AllocError>
    ensures { OnOk result (AddsSome (AreOfEach (AreOfBlock messages.old.text view.now.kit.now.kept.ast view.now.severity) (map (λ b. b.items) blocks.now)) messages.old messages.new) }
{
    if blocks.is_empty() {
        return Ok(());
    }
    let finder = ExampleFinder::new(alloc, view.kit.grm(), view.kit.sgraph())?;
    let pushed = push_blocks(alloc, messages, view, &finder, blocks);
    drop(finder);
    pushed
}

/// Returns the blocks that are shown: the first ones.
fn shown_blocks(blocks: &[Vec<Listed>]) -> &[Vec<Listed>]
    ensures { result.now ≡ take most_blocks blocks.now }
{
    if blocks.len() <= MOST_BLOCKS {
        return blocks;
    }
    &blocks[..MOST_BLOCKS]
}

/// Adds how many blocks there are, and an empty line, if not all are shown.
fn push_count(alloc: Global, messages: &mut Messages<'_>, count: usize) -> Result<(), AllocError>
    ensures { OnOk result (AddsSaid (count_told messages.old.text count) messages.old messages.new) }
{
    if count <= MOST_BLOCKS {
        return Ok(());
    }
    let words = format!(in alloc; "100 of {count} groups of conflicts are shown")?;
    let mut message = Message::new(Severity::Note, None, words);
    message.example = Some(String::from_str(alloc, "\n")?);
    messages.push(message)
}

/// Adds the messages of the first blocks, and then how many there are, if not all are shown.
fn push_first(
    alloc: Global,
    messages: &mut Messages<'_>,
    view: &View<'_>,
    blocks: &[Vec<Listed>],
) -> Result<(), AllocError>
    ensures { OnOk result (AddsSome (AreOfBlocks messages.old.text view.now.kit.now.kept.ast view.now.severity (map (λ b. b.items) blocks.now)) messages.old messages.new) }
{
    push_of_blocks(alloc, messages, view, shown_blocks(blocks))?;
    push_count(alloc, messages, blocks.len())
}

/// Adds the messages of the conflicts that no precedence settles, in blocks, each with its example. Of many blocks it adds the
/// first hundred, and then how many there are.
pub(crate) fn push_conflicts(
    alloc: Global,
    messages: &mut Messages<'_>,
    kit: &ParserKit<u32>,
    asked: Asked<'_>,
) -> Result<(), AllocError>
    ensures { OnOk result (AddsSome (AreOfConflicts ⟦<Listed as Ord>⟧.cmp asked.entry.each messages.old.text kit.now) messages.old messages.new) }
{
    let blocks = conflict_blocks(alloc, kit, asked.each)?;
    let severity = conflict_severity(kit);
    let (each, full) = (asked.each, asked.full);
    let view = View {
        kit,
        severity,
        each,
        full,
    };
    push_first(alloc, messages, &view, blocks.as_slice())
}
