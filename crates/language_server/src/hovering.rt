//! What there is to say of the name at a place.

ghost use Rattle.std.specs.Prelude.{◌≡◌, IfOk, None};
ghost use Rattle.language_server.specs.Protocol.{error_in};

use crate::answers::{Answer, Contents, Hover};
use crate::asked::Asked;
use crate::messages::Params;
use grammar_index::{Occurrence, kind_in, means_token, references};
use std::alloc::{AllocError, Global};
use symbol_notes::{rule_note, token_note};

/// Returns what there is to say of a token: how often it is named, and its precedence.
fn token_words(
    alloc: Global,
    asked: &Asked<'_>,
    one: Occurrence,
    note: Option<String>,
) -> Result<String, AllocError> {
    let name = asked.part(one.start, one.end);
    let count = references(alloc, asked.text, asked.index.names(), one)?.len();
    match note {
        Some(note) => { format!(in alloc; "token {name}, named {count} times\n{note}") }
        None => format!(in alloc; "token {name}, named {count} times"),
    }
}

/// Returns what there is to say of a name, if there is something.
fn words_of(
    alloc: Global,
    asked: &Asked<'_>,
    one: Occurrence,
) -> Result<Option<String>, AllocError> {
    let Some(kind) = kind_in(alloc, asked.text)? else {
        return Ok(None);
    };
    let name = asked.part(one.start, one.end);
    if !means_token(asked.text, asked.index.names(), one) {
        return rule_note(alloc, kind, asked.text, name);
    }
    let note = token_note(alloc, kind, asked.text, name)?;
    Ok(Some(token_words(alloc, asked, one, note)?))
}

/// Answers what there is to say of the name at a place.
pub fn hover_answer(alloc: Global, asked: &Asked<'_>, params: &Params) -> Result<Answer, AllocError>
    ensures { IfOk result (λ a. error_in a ≡ None) }
{
    let Some(one) = asked.name_at(params.place) else {
        return Ok(Answer::Done);
    };
    let Some(value) = words_of(alloc, asked, one)? else {
        return Ok(Answer::Done);
    };
    let kind = "plaintext";
    let range = asked.range_of(one);
    let contents = Contents { kind, value };
    Ok(Answer::Hover(Hover { contents, range }))
}
