//! What an import changed, a line a kind.

ghost use Rattle.std.specs.Prelude.{◌≡◌, ◌++◌, OnOk, IfOk, flat_map, string_bytes};
ghost use Rattle.lrkit_import.specs.Counts.{words_of, count_of, line_of, counts_text};

use std::alloc::{AllocError, Global};
use yacc_import::{Note, NoteKind};

/// The kinds that have a line, in order. The rules of actions in the middle have none: their actions have one.
const KINDS: &[NoteKind] = &[
    NoteKind::Prologue,
    NoteKind::Epilogue,
    NoteKind::Directive,
    NoteKind::Moved,
    NoteKind::Tag,
    NoteKind::Number,
    NoteKind::Alias,
    NoteKind::Mark,
    NoteKind::Action,
    NoteKind::Midrule,
    NoteKind::Reference,
    NoteKind::RuleDirective,
    NoteKind::Spelling,
    NoteKind::Word,
    NoteKind::Unsettled,
    NoteKind::Unleveled,
    NoteKind::Declared,
    NoteKind::Semicolon,
];

/// Returns what a line says of notes of a kind.
fn words_of(kind: NoteKind) -> &'static str
    ensures { result.now ≡ words_of kind }
{
    match kind {
        NoteKind::Prologue => "prologues left out",
        NoteKind::Epilogue => "parts of the epilogue left out",
        NoteKind::Directive => "words of directives left out",
        NoteKind::Moved => "words moved",
        NoteKind::Tag => "tags left out",
        NoteKind::Number => "token numbers left out",
        NoteKind::Alias => "aliases left out where they are declared",
        NoteKind::Mark => "marks and comments left out",
        NoteKind::Action => "actions left out",
        NoteKind::Midrule => "actions in the middle made rules",
        NoteKind::Midrules => "rules of actions added",
        NoteKind::Reference => "references left out",
        NoteKind::RuleDirective => "words of directives in rules left out",
        NoteKind::Spelling => "symbols spelled otherwise",
        NoteKind::Word => "directives called by another word",
        NoteKind::Unsettled => "words of precedence levels left out: their conflicts stay",
        NoteKind::Unleveled => "words of %prec left out: the token has no precedence",
        NoteKind::Declared => "declarations added",
        NoteKind::Semicolon => "semicolons added",
    }
}

/// Returns how many notes have these words.
fn count_of(notes: &[Note], words: &str) -> usize
    ensures { result ≡ count_of words.now notes.now }
{
    let mut count: usize = 0;
    'notes: for note in notes {
        if words_of(note.kind) == words {
            count += 1;
        }
    }
    count
}

/// Adds the line of a kind, if there are notes of it.
fn push_line(
    alloc: Global,
    out: &mut String,
    notes: &[Note],
    kind: NoteKind,
) -> Result<(), AllocError>
    ensures { OnOk result (string_bytes out.new ≡ string_bytes out.old ++ line_of notes.now kind) }
{
    let words = words_of(kind);
    let count = count_of(notes, words);
    if count == 0 {
        return Ok(());
    }
    let line = format!(in alloc; "{count} {words}\n")?;
    out.push_str(line.as_str())
}

/// Adds the lines of kinds.
fn push_lines(
    alloc: Global,
    out: &mut String,
    notes: &[Note],
    kinds: &[NoteKind],
) -> Result<(), AllocError>
    ensures { OnOk result (string_bytes out.new ≡ string_bytes out.old ++ flat_map (line_of notes.now) kinds.now) }
{
    'kinds: for kind in kinds {
        push_line(alloc, out, notes, *kind)?;
    }
    Ok(())
}

/// Returns a line for each kind of which there are notes: how many, and what was done.
pub fn counts_text(alloc: Global, notes: &[Note]) -> Result<String, AllocError>
    ensures { IfOk result (λ text. string_bytes text ≡ counts_text notes.now) }
{
    let mut out = String::new(alloc);
    push_lines(alloc, &mut out, notes, KINDS)?;
    Ok(out)
}
