//! What an import of a Bison file left out or changed, in words.

ghost use Rattle.std.specs.Prelude.{◌≡◌, ◌∷◌, ◌++◌, [], string_bytes, map, flat_map, codes, option_to_list, option_map, IfOk, OnOk};
ghost use Rattle.bison_sources.specs.Notes as spec;

use cfg_base::span::Span;
use std::alloc::{AllocError, Global};
use text_messages::{Message, Severity, Source};
use yacc_import::{Note, NoteKind};

/// Returns what a note says of what is left out.
fn words_of(kind: NoteKind) -> &'static str
    ensures { result.now ≡ spec.words_of kind }
{
    match kind {
        NoteKind::Prologue => "prologue left out",
        NoteKind::Epilogue => "part of the epilogue left out",
        NoteKind::Directive => "word of a directive left out",
        NoteKind::Moved => "moved",
        NoteKind::Tag => "tag left out",
        NoteKind::Number => "token number left out",
        NoteKind::Alias => "alias left out where it is declared",
        NoteKind::Mark => "mark or comment left out",
        NoteKind::Action => "action left out",
        NoteKind::Midrule => "action in the middle made a rule",
        NoteKind::Midrules => "rules of actions in the middle",
        NoteKind::Reference => "reference left out",
        NoteKind::RuleDirective => "word of a directive in a rule left out",
        NoteKind::Spelling => "spelled otherwise",
        NoteKind::Word => "called by another word",
        NoteKind::Unsettled => "word of a precedence level left out: its conflicts stay",
        NoteKind::Unleveled => "word of %prec left out: the token has no precedence",
        NoteKind::Declared => "declaration added",
        NoteKind::Semicolon => "added",
    }
}

/// Returns whether a change is one that a report on the grammar shows: in its conflicts, or in its names.
fn shows(kind: NoteKind) -> bool
    ensures { result ≡ spec.shows kind }
{
    matches!(
        kind,
        NoteKind::Midrule | NoteKind::RuleDirective | NoteKind::Unsettled | NoteKind::Unleveled
    )
}

/// Returns a note in words, with what is put there if anything is.
fn note_message(alloc: Global, note: &Note) -> Result<Message, AllocError>
    ensures { IfOk result (λ m. spec.said m ≡ spec.message_of note.now) }
{
    let span = Some(Span::new(note.start, note.start));
    let words = words_of(note.kind);
    let words = match &note.text {
        Some(put) => {
            let put = put.as_str().trim();
            format!(in alloc; "{words}: {put}")?
        }
        None => String::from_str(alloc, words)?,
    };
    Ok(Message::new(Severity::Note, span, words))
}

/// Adds the messages of notes: all, or those that change what a report says.
fn push_messages(
    alloc: Global,
    messages: &mut Vec<Message>,
    notes: &[Note],
    all: bool,
) -> Result<(), AllocError>
    ensures { OnOk result (map spec.said messages.new.items ≡ map spec.said messages.old.items ++ spec.messages_of all notes.now) }
{
    'notes: for note in notes {
        if all || shows(note.kind) {
            note_message(alloc, note)?.push_to(messages)?;
        }
    }
    Ok(())
}

/// Returns the message that a file shows at an offset that it is one of Bison.
fn sign_message(alloc: Global, at: usize) -> Result<Message, AllocError>
    ensures { IfOk result (λ m. spec.said m ≡ spec.sign_message at) }
{
    let words = "read as a Bison file; --bison lists all that is left out or changed";
    let words = String::from_str(alloc, words)?;
    Ok(Message::new(Severity::Note, Some(Span::new(at, at)), words))
}

/// Adds the messages on a file that shows at an offset that it is one of Bison.
fn push_sign(
    alloc: Global,
    messages: &mut Vec<Message>,
    sign: Option<usize>,
) -> Result<(), AllocError>
    ensures { OnOk result (map spec.said messages.new.items ≡ map spec.said messages.old.items ++ option_to_list (option_map spec.sign_message sign)) }
{
    let Some(at) = sign else {
        return Ok(());
    };
    sign_message(alloc, at)?.push_to(messages)?;
    Ok(())
}

/// Returns a message on each note; where the file shows by itself that it is one of Bison, that, and a message on each note that
/// changes what a report says.
pub fn note_messages(
    alloc: Global,
    notes: &[Note],
    sign: Option<usize>,
) -> Result<Vec<Message>, AllocError>
    ensures { IfOk result (λ v. map spec.said v.items ≡ spec.note_messages notes.now sign) }
{
    let mut messages = Vec::new(alloc);
    push_sign(alloc, &mut messages, sign)?;
    push_messages(alloc, &mut messages, notes, sign.is_none())?;
    Ok(messages)
}

/// Adds the lines of messages that have a place.
fn push_lines(
    alloc: Global,
    text: &mut String,
    file: &Source<'_>,
    notes: &[Message],
) -> Result<(), AllocError>
    ensures { OnOk result (string_bytes text.new ≡ string_bytes text.old ++ flat_map (spec.line_of file.now) notes.now) }
{
    'notes: for note in notes {
        if let Some(span) = note.span {
            file.push_heading(alloc, text, note.severity, span, note.words.as_str())?;
        }
    }
    Ok(())
}

/// Adds a line for each message on a file, and an empty line behind them, if there are any.
pub fn push_notes(
    alloc: Global,
    text: &mut String,
    file: &Source<'_>,
    notes: &[Message],
) -> Result<(), AllocError>
    ensures { OnOk result (string_bytes text.new ≡ string_bytes text.old ++ spec.lines_of file.now notes.now) }
{
    if notes.is_empty() {
        return Ok(());
    }
    push_lines(alloc, text, file, notes)?;
    text.push('\n')
}
