//! How the kit's syntax spells a symbol of a Bison file.

ghost use Rattle.std.specs.Prelude.{◌≡◌};
ghost use Rattle.std.specs.Str.{bytes_eq};
ghost use Rattle.checked_import.specs.Spelling.{all_pairs, is_byte_for, inner, is_joined, is_code, spells_character, spells_string, spells_action, spells, is_quoted};

use bison_rules::code_of;

/// Returns whether a byte is that of a name, with `_` for `-`.
fn is_byte_for(b: u8, c: u8) -> bool
    ensures { result ≡ is_byte_for b c }
{
    if b == b'-' { c == b'_' } else { c == b }
}

/// Returns whether a text is a name with `_` for each `-`.
fn is_underscored(name: &[u8], text: &[u8]) -> bool
    ensures { result ≡ all_pairs is_byte_for name.now text.now }
{
    if name.len() != text.len() {
        return false;
    }
    'bytes: for i in 0..name.len() {
        if !is_byte_for(name[i], text[i]) {
            return false;
        }
    }
    true
}

/// Returns a text without its first and its last byte.
fn inner(text: &[u8]) -> &[u8]
    ensures { result.now ≡ inner text.now }
{
    match text.get(1..text.len().saturating_sub(1)) {
        Some(part) => part,
        None => &[],
    }
}

/// Returns whether a code is this one.
fn is_code(code: u8, found: Option<u8>) -> bool
    ensures { result ≡ is_code code found }
{
    match found {
        Some(found) => code == found,
        None => false,
    }
}

/// Returns whether a text spells a character, of which the code is the first byte.
fn spells_character(code: &[u8], text: &[u8]) -> bool
    ensures { result ≡ spells_character code.now text.now }
{
    match code {
        [] => false,
        [c, ..] => is_code(*c, code_of(text)) || is_code(*c, code_of(inner(text))),
    }
}

/// Returns whether a text spells a string, which has its quotes.
fn spells_string(string: &[u8], text: &[u8]) -> bool
    ensures { result ≡ spells_string string.now text.now }
{
    text == string || text == inner(string)
}

/// Returns whether a text is one part behind another.
fn is_joined(first: &[u8], second: &[u8], text: &[u8]) -> bool
    ensures { result ≡ is_joined first.now second.now text.now }
{
    if first.len() > text.len() {
        return false;
    }
    let (front, rest) = text.split_at(first.len());
    front == first && rest == second
}

/// Returns whether a text is the name of the rule of an action with this number.
fn spells_action(number: &[u8], text: &[u8]) -> bool
    ensures { result ≡ spells_action number.now text.now }
{
    is_joined("mid_".as_bytes(), number, text)
        || is_joined("midrule_".as_bytes(), number, text)
        || is_joined("action_".as_bytes(), number, text)
}

/// Returns whether a text spells a symbol.
pub(crate) fn spells(symbol: &[u8], text: &[u8]) -> bool
    ensures { result ≡ spells symbol.now text.now }
{
    let [first, more @ ..] = symbol else {
        return false;
    };
    if *first == b'\'' {
        return spells_character(more, text);
    }
    if *first == b'"' {
        return spells_string(symbol, text);
    }
    if *first == b'$' {
        return spells_action(more.get(1..).unwrap_or(&[]), text);
    }
    is_underscored(symbol, text)
}

/// Returns whether a symbol is a string or a character.
pub(crate) fn is_quoted(symbol: &[u8]) -> bool
    ensures { result ≡ is_quoted symbol.now }
{
    match symbol {
        [] => false,
        [b, ..] => *b == b'\'' || *b == b'"',
    }
}
