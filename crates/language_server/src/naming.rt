//! Where a name is defined and used, and what renames it.

ghost use Rattle.std.specs.Prelude.{◌≡◌, IfOk, None};
ghost use Rattle.language_server.specs.Protocol.{MayFail, error_in};
ghost use Rattle.language_server.specs.declared.messages.Query.TheVariants.{Rename};

use crate::answers::{Answer, Edits, Highlights, Places};
use crate::asked::Asked;
use crate::messages::Params;
use grammar_index::{Occurrence, RenameFault, check_rename, definitions, references};
use std::alloc::{AllocError, Global};

/// Returns the locations of names.
fn locations(alloc: Global, asked: &Asked<'_>, names: &[Occurrence]) -> Result<Answer, AllocError>
    ensures { IfOk result (λ a. error_in a ≡ None) }
{
    let uri = String::from_str(alloc, asked.uri)?;
    let ranges = asked.ranges_of(alloc, names)?;
    Ok(Answer::Locations(Places { uri, ranges }))
}

/// Answers where what is named at a place is defined.
pub fn definition_answer(
    alloc: Global,
    asked: &Asked<'_>,
    params: &Params,
) -> Result<Answer, AllocError>
    ensures { IfOk result (λ a. error_in a ≡ None) }
{
    let Some(one) = asked.name_at(params.place) else {
        return Ok(Answer::Done);
    };
    let found = definitions(alloc, asked.text, asked.index.names(), one)?;
    locations(alloc, asked, found.as_slice())
}

/// Answers where what is named at a place is named.
pub fn references_answer(
    alloc: Global,
    asked: &Asked<'_>,
    params: &Params,
) -> Result<Answer, AllocError>
    ensures { IfOk result (λ a. error_in a ≡ None) }
{
    let Some(one) = asked.name_at(params.place) else {
        return Ok(Answer::Done);
    };
    let found = references(alloc, asked.text, asked.index.names(), one)?;
    locations(alloc, asked, found.as_slice())
}

/// Answers which places to highlight with a place.
pub fn highlights_answer(
    alloc: Global,
    asked: &Asked<'_>,
    params: &Params,
) -> Result<Answer, AllocError>
    ensures { IfOk result (λ a. error_in a ≡ None) }
{
    let Some(one) = asked.name_at(params.place) else {
        return Ok(Answer::Done);
    };
    let found = references(alloc, asked.text, asked.index.names(), one)?;
    let ranges = asked.ranges_of(alloc, found.as_slice())?;
    Ok(Answer::Highlights(Highlights { ranges }))
}

/// Answers the range of the name at a place, which may be renamed.
pub fn renamable_answer(asked: &Asked<'_>, params: &Params) -> Answer
    ensures { error_in result ≡ None }
{
    match asked.name_at(params.place) {
        Some(one) => Answer::Range(asked.range_of(one)),
        None => Answer::Done,
    }
}

/// Returns why a name is refused, in words.
fn refusal(alloc: Global, name: &str, fault: RenameFault) -> Result<String, AllocError> {
    match fault {
        RenameFault::NoName => format!(in alloc; "'{name}' is no name here"),
        RenameFault::Taken => format!(in alloc; "'{name}' is taken"),
    }
}

/// Returns the edits that rename what is named at an occurrence.
fn rename_edits(
    alloc: Global,
    asked: &Asked<'_>,
    one: Occurrence,
    name: &str,
) -> Result<Answer, AllocError>
    ensures { IfOk result (λ a. error_in a ≡ None) }
{
    let found = references(alloc, asked.text, asked.index.names(), one)?;
    let uri = String::from_str(alloc, asked.uri)?;
    let ranges = asked.ranges_of(alloc, found.as_slice())?;
    let new_text = String::from_str(alloc, name)?;
    Ok(Answer::Edits(Edits {
        uri,
        ranges,
        new_text,
    }))
}

/// Answers the edits that rename what is named at a place, or why it can't have the name.
pub fn rename_answer(
    alloc: Global,
    asked: &Asked<'_>,
    params: &Params,
) -> Result<Answer, AllocError>
    ensures { IfOk result (λ a. MayFail (error_in a) Rename) }
{
    let (Some(one), Some(name)) = (asked.name_at(params.place), &params.new_name) else {
        return Ok(Answer::Done);
    };
    let name = name.as_str();
    match check_rename(alloc, asked.text, asked.index.names(), one, name)? {
        Some(fault) => Ok(Answer::Refused(refusal(alloc, name, fault)?)),
        None => rename_edits(alloc, asked, one, name),
    }
}
