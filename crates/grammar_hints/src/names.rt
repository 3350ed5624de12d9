//! Hints for names that no rule and no declaration has.

use cfg_read::yacc::ast::GrammarAST;
use std::alloc::{AllocError, Global};
use strsim::osa_distance;

/// The name that is nearest so far, and how many characters differ.
#[derive(Clone, Copy)]
struct Nearest<'a> {
    name: &'a str,
    distance: usize,
}

/// Returns how many characters of a name may differ for another to be meant: one of three, so that none is meant by a name of
/// two.
fn most_distant(name: &str) -> usize {
    name.chars().count() / 3
}

/// Returns the nearer one of a name and the nearest before it.
fn nearer<'a>(
    alloc: Global,
    name: &str,
    other: &'a str,
    before: Option<Nearest<'a>>,
) -> Result<Option<Nearest<'a>>, AllocError> {
    let distance = osa_distance(alloc, name, other)?;
    let below = match before {
        Some(nearest) => nearest.distance,
        None => most_distant(name).saturating_add(1),
    };
    if distance == 0 || distance >= below {
        return Ok(before);
    }
    Ok(Some(Nearest {
        name: other,
        distance,
    }))
}

/// Returns the rule or the token that is nearest to a name, if one is near: the first of those that are as near, rules before
/// tokens.
fn nearest_name<'a>(
    alloc: Global,
    name: &str,
    ast: &'a GrammarAST,
) -> Result<Option<Nearest<'a>>, AllocError> {
    let mut nearest = None;
    'rules: for (other, _rule) in ast.rules() {
        nearest = nearer(alloc, name, other.as_str(), nearest)?;
    }
    'tokens: for (other, _span) in ast.tokens() {
        nearest = nearer(alloc, name, other.as_str(), nearest)?;
    }
    Ok(nearest)
}

/// Returns what is said of a name that is neither a rule nor a token.
pub(crate) fn unknown_words(
    alloc: Global,
    name: &str,
    ast: &GrammarAST,
) -> Result<String, AllocError> {
    let mut words = String::from_str(alloc, "used, but no rule and no %token declares it")?;
    if let Some(nearest) = nearest_name(alloc, name, ast)? {
        words.push_str("; did you mean '")?;
        words.push_str(nearest.name)?;
        words.push_str("'?")?;
    }
    Ok(words)
}

/// Returns what is said of a token of `%prec` that has no precedence.
pub(crate) fn precedence_words(
    alloc: Global,
    name: &str,
    ast: &GrammarAST,
) -> Result<String, AllocError> {
    let words = if ast.rules().get(name).is_some() {
        "a rule has no precedence: %prec wants a token of a %left, %right or %nonassoc line"
    } else {
        "no %left, %right or %nonassoc line has it"
    };
    String::from_str(alloc, words)
}
