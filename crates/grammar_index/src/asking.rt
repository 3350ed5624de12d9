//! Which occurrences name the same thing.

ghost use Rattle.std.specs.Prelude.{◌≡◌, filter, IfOk, length};
ghost use Rattle.std.specs.List.{list_any};
ghost use Rattle.grammar_index.specs.Occurrences.{bool_eq, declares, definitions_of, is_declared_role, is_definition, is_definition_role, is_within, means_token, names_it, references_of, role_means_token, spelled, spells};

use crate::occurrence::{Occurrence, Role};
use std::alloc::{AllocError, Global};

/// Returns whether an occurrence is a part of a text of `len` bytes.
pub(crate) fn is_within(len: usize, one: Occurrence) -> bool
    ensures { result ≡ is_within len one }
{
    one.start <= one.end && one.end <= len
}

/// Returns the bytes of an occurrence; none where it is no part of the text.
pub fn spelling<'a>(text: &'a str, one: Occurrence) -> &'a [u8]
    ensures { result.now ≡ spelled text.entry.now one }
{
    let bytes = text.as_bytes();
    if is_within(bytes.len(), one) {
        return &bytes[one.start..one.end];
    }
    &[]
}

/// Returns whether a name is there.
pub(crate) fn spells(text: &str, name: &[u8], one: Occurrence) -> bool
    ensures { result ≡ spells text.now name.now one }
{
    name == spelling(text, one)
}

/// Returns whether `%token` declares a name there.
fn declares(text: &str, name: &[u8], one: Occurrence) -> bool
    ensures { result ≡ declares text.now name.now one }
{
    match one.role {
        Role::Declared => spells(text, name, one),
        _ => false,
    }
}

/// Returns whether `%token` declares a name.
fn is_declared(text: &str, names: &[Occurrence], name: &[u8]) -> bool
    ensures { result ≡ list_any (declares text.now name.now) names.now }
{
    'names: for one in names {
        if declares(text, name, *one) {
            return true;
        }
    }
    false
}

/// Returns whether a role makes a name a token's.
fn role_means_token(role: Role, is_declared: bool) -> bool
    ensures { result ≡ role_means_token role is_declared }
{
    match role {
        Role::Head => false,
        Role::Start => false,
        Role::Declared => true,
        Role::Token => true,
        Role::Bare => is_declared,
    }
}

/// Returns whether an occurrence names a token.
pub fn means_token(text: &str, names: &[Occurrence], one: Occurrence) -> bool
    ensures { result ≡ means_token text.now names.now one }
{
    role_means_token(one.role, is_declared(text, names, spelling(text, one)))
}

/// What is asked for: a name, as a token or as a rule.
#[derive(Clone, Copy)]
struct Asked<'a> {
    text: &'a str,
    name: &'a [u8],
    is_declared: bool,
    is_token: bool,
}

/// Returns whether an occurrence names what is asked for.
fn names_it(asked: &Asked<'_>, one: Occurrence) -> bool
    ensures { result ≡ names_it asked.now.text.now asked.now.name.now asked.now.is_declared asked.now.is_token one }
{
    asked.is_token == role_means_token(one.role, asked.is_declared)
        && spells(asked.text, asked.name, one)
}

/// Collects the occurrences that name what is asked for.
fn collect(
    alloc: Global,
    names: &[Occurrence],
    asked: &Asked<'_>,
) -> Result<Vec<Occurrence>, AllocError>
    ensures { IfOk result (λ v. v.items ≡ filter (names_it asked.now.text.now asked.now.name.now asked.now.is_declared asked.now.is_token) names.now) }
{
    let mut found = Vec::new(alloc);
    'names: for one in names {
        if names_it(asked, *one) {
            found.push(*one)?;
        }
    }
    Ok(found)
}

/// Returns all occurrences that name what is named at one, in the order of the index.
pub fn references(
    alloc: Global,
    text: &str,
    names: &[Occurrence],
    one: Occurrence,
) -> Result<Vec<Occurrence>, AllocError>
    ensures { IfOk result (λ v. v.items ≡ references_of text.now names.now one) }
{
    let name = spelling(text, one);
    let is_declared = is_declared(text, names, name);
    let is_token = role_means_token(one.role, is_declared);
    let asked = Asked {
        text,
        name,
        is_declared,
        is_token,
    };
    collect(alloc, names, &asked)
}

/// Returns whether an occurrence is the heading of a rule, or in `%token`.
pub(crate) fn is_definition(one: Occurrence) -> bool
    ensures { result ≡ is_definition one }
{
    match one.role {
        Role::Head => true,
        Role::Declared => true,
        _ => false,
    }
}

/// Collects the definitions among occurrences.
fn definitions_among(alloc: Global, places: &[Occurrence]) -> Result<Vec<Occurrence>, AllocError>
    ensures { IfOk result (λ v. v.items ≡ filter is_definition places.now) }
{
    let mut found = Vec::new(alloc);
    'places: for one in places {
        if is_definition(*one) {
            found.push(*one)?;
        }
    }
    Ok(found)
}

/// Returns the headings of the rule, or the declarations of the token, that is named at an occurrence.
pub fn definitions(
    alloc: Global,
    text: &str,
    names: &[Occurrence],
    one: Occurrence,
) -> Result<Vec<Occurrence>, AllocError>
    ensures { IfOk result (λ v. v.items ≡ definitions_of text.now names.now one) }
{
    let all = references(alloc, text, names, one)?;
    definitions_among(alloc, all.as_slice())
}
