//! What of the tokens that `%token` declares means something else than it seems to.

ghost use Rattle.std.specs.Prelude.{IfOk, OnOk};
ghost use Rattle.grammar_hints.specs.Within.{IsWithin, AreWithin};

use crate::hint::Hint;
use cfg_base::span::Span;
use cfg_base::text::{GapPart, gap_at};
use std::alloc::{AllocError, Global};

/// A token of a `%token` list.
#[derive(Clone, Copy, PartialEq, Eq, PartialOrd, Ord)]
struct Declared<'a> {
    name: &'a str,
    /// Where it begins, its quote included.
    offset: usize,
    end: usize,
    /// Whether it stands between double quotes.
    in_double_quotes: bool,
}

/// Returns the text from an offset on.
fn text_from(text: &str, offset: usize) -> &str {
    text.get(offset..).unwrap_or("")
}

/// Returns where the gap that begins here ends.
fn gap_end(text: &str, offset: usize) -> usize {
    let mut end = offset;
    'parts: while end < text.len() {
        match gap_at(text, end) {
            GapPart::Part(next) => end = next.max(end.saturating_add(1)),
            _ => return end,
        }
    }
    end
}

/// Returns the quoted token that begins here, without its quotes.
fn quoted_at(text: &str, offset: usize) -> Option<&str> {
    let rest = text_from(text, offset);
    let quote = rest.chars().next()?;
    if quote != '\'' && quote != '"' {
        return None;
    }
    let behind = text_from(rest, 1);
    let first = behind.chars().next()?;
    let line = behind.split('\n').next().unwrap_or("");
    let (inner, _) = text_from(line, first.len_utf8()).split_once(quote)?;
    behind.get(..inner.len().saturating_add(first.len_utf8()))
}

fn is_name_char(c: char) -> bool {
    c.is_ascii_alphanumeric() || c == '_' || c == '.'
}

/// Returns the token that begins here.
fn token_at(text: &str, offset: usize) -> Option<Declared<'_>> {
    if let Some(name) = quoted_at(text, offset) {
        return Some(Declared {
            name,
            offset,
            end: offset.saturating_add(name.len()).saturating_add(2),
            in_double_quotes: text_from(text, offset).starts_with('"'),
        });
    }
    let rest = text_from(text, offset);
    let behind = rest.trim_start_matches(is_name_char);
    let length = rest.len().saturating_sub(behind.len());
    if length == 0 {
        return None;
    }
    Some(Declared {
        name: rest.get(..length).unwrap_or(""),
        offset,
        end: offset.saturating_add(length),
        in_double_quotes: false,
    })
}

/// Adds the tokens of a list, and returns where it ends.
fn push_list<'a>(
    text: &'a str,
    offset: usize,
    declared: &mut Vec<Declared<'a>>,
) -> Result<usize, AllocError> {
    let mut end = gap_end(text, offset);
    'tokens: while end < text.len() {
        let Some(token) = token_at(text, end) else {
            return Ok(end);
        };
        declared.push(token)?;
        end = gap_end(text, token.end).max(end.saturating_add(1));
    }
    Ok(end)
}

/// Returns the tokens of all `%token` declarations, in order.
fn declared_tokens(alloc: Global, text: &str) -> Result<Vec<Declared<'_>>, AllocError> {
    let mut declared = Vec::new(alloc);
    let mut offset = gap_end(text, 0);
    'parts: while offset < text.len() {
        let rest = text_from(text, offset);
        if rest.starts_with("%%") {
            return Ok(declared);
        }
        let next = if rest.starts_with("%token") {
            push_list(text, offset.saturating_add(6), &mut declared)?
        } else if let Some(name) = quoted_at(text, offset) {
            offset.saturating_add(name.len()).saturating_add(2)
        } else {
            offset.saturating_add(1)
        };
        offset = gap_end(text, next).max(offset.saturating_add(1));
    }
    Ok(declared)
}

/// Makes a warning at a token.
fn warning_at(
    alloc: Global,
    text: &str,
    token: Declared<'_>,
    words: &str,
) -> Result<Hint, AllocError>
    ensures within { IfOk result (λ h. IsWithin text.now h.span) }
{
    let end = token.end.min(text.len());
    Ok(Hint {
        words: String::from_str(alloc, words)?,
        span: Some(Span::new(token.offset.min(end), end)),
    })
}

/// Adds a warning for each text in double quotes behind a name on its line, which is no other spelling of the name here.
fn push_aliases(
    alloc: Global,
    text: &str,
    declared: &[Declared<'_>],
    warnings: &mut Vec<Hint>,
) -> Result<(), AllocError>
    requires within { AreWithin text.now warnings.old.items }
    ensures within { OnOk result (AreWithin text.now warnings.new.items) }
{
    'tokens: for index in 1..declared.len() {
        let (name, quoted) = (declared[index - 1], declared[index]);
        let between = text.get(name.end..quoted.offset).unwrap_or("\n");
        let is_name = text_from(text, name.offset).starts_with(is_name_char);
        if is_name && quoted.in_double_quotes && !between.contains('\n') {
            let (first, second) = (name.name, quoted.name);
            let words = format!(in alloc;
                "two tokens: \"{second}\" is no other spelling of {first} here"
            )?;
            warnings.push(warning_at(alloc, text, quoted, words.as_str())?)?;
        }
    }
    Ok(())
}

/// Returns the tokens that were declared before, each behind its offset, in the order of the text.
fn repeated_tokens<'a>(
    alloc: Global,
    declared: &mut Vec<Declared<'a>>,
) -> Result<Vec<(usize, Declared<'a>)>, AllocError> {
    let mut repeated = Vec::new(alloc);
    declared.sort()?;
    'tokens: for index in 1..declared.len() {
        let token = declared[index];
        if declared[index - 1].name == token.name {
            repeated.push((token.offset, token))?;
        }
    }
    repeated.sort()?;
    Ok(repeated)
}

/// Adds a warning for each token that was declared before.
fn push_repeated(
    alloc: Global,
    text: &str,
    declared: &mut Vec<Declared<'_>>,
    warnings: &mut Vec<Hint>,
) -> Result<(), AllocError>
    requires within { AreWithin text.now warnings.old.items }
    ensures within { OnOk result (AreWithin text.now warnings.new.items) }
{
    let repeated = repeated_tokens(alloc, declared)?;
    'tokens: for index in 0..repeated.len() {
        let (_, token) = repeated[index];
        let name = token.name;
        let words = format!(in alloc; "Token '{name}' is declared twice")?;
        warnings.push(warning_at(alloc, text, token, words.as_str())?)?;
    }
    Ok(())
}

/// Returns warnings of the tokens that a text declares: a text in double quotes behind a name, which other tools take for another
/// spelling of it and which is a second token here, and a token that is declared twice. Each has its place, in the order of the
/// text for either kind.
pub fn token_warnings(alloc: Global, text: &str) -> Result<Vec<Hint>, AllocError>
    ensures within { IfOk result (λ hints. AreWithin text.now hints.items) }
{
    let mut warnings = Vec::new(alloc);
    let mut declared = declared_tokens(alloc, text)?;
    push_aliases(alloc, text, declared.as_slice(), &mut warnings)?;
    push_repeated(alloc, text, &mut declared, &mut warnings)?;
    Ok(warnings)
}
