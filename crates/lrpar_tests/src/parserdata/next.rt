//! The tokens that may come next.

use crate::make::data;
use crate::same::same;
use cfg_base::symbol::TIdx;
use cfg_numbered::yacc::grammar::NumberedGrammar;
use lrpar::{DefaultLexeme, Lexeme, ParserData, Prefix};
use std::alloc::{AllocError, Global};
use std::test::*;
use vob::Vob;

/// Returns the token with a name, the end token for `$`.
fn token_of(grm: &NumberedGrammar<u8>, name: &str) -> TIdx<u8> {
    match grm.token_idx(name) {
        Some(tidx) => tidx,
        None => grm.eof_token_idx(),
    }
}

/// Returns lexemes of the tokens with these names.
fn lexemes_of(
    alloc: Global,
    grm: &NumberedGrammar<u8>,
    names: &[&str],
) -> Result<Vec<DefaultLexeme<u8>>, AllocError> {
    let mut lexemes = Vec::new(alloc);
    for index in 0..names.len() {
        lexemes.push(DefaultLexeme::new(token_of(grm, names[index]).0, 0, 0))?;
    }
    Ok(lexemes)
}

/// Returns the names of the tokens whose bits are set.
fn names_of(alloc: Global, grm: &NumberedGrammar<u8>, bits: &Vob) -> Result<String, AllocError> {
    let mut text = String::new(alloc);
    for number in 0..usize::from(grm.tokens_len()) {
        if bits.get(number) == Some(true) {
            text.push(' ')?;
            text.push_str(grm.token_name(grm.token_at(number)).unwrap_or("$"))?;
        }
    }
    Ok(text)
}

/// Returns what may come after lexemes of the tokens with these names.
fn next_of(alloc: Global, data: &ParserData<u8>, names: &[&str]) -> Result<String, AllocError> {
    let lexemes = lexemes_of(alloc, data.grm(), names)?;
    match data.next_tokens(alloc, lexemes.as_slice())? {
        Some(bits) => names_of(alloc, data.grm(), &bits),
        None => String::from_str(alloc, "none"),
    }
}

/// Adds what may come behind a prefix.
fn push_next(
    alloc: Global,
    grm: &NumberedGrammar<u8>,
    prefix: &Prefix<'_, u8>,
    text: &mut String,
) -> Result<(), AllocError> {
    let bits = prefix.next_tokens(alloc)?;
    text.push_str(names_of(alloc, grm, &bits)?.as_str())
}

/// Pushes each of the tokens with these names, and adds ` !` where it isn't shifted, and what may come then; the number of tokens
/// that were shifted behind the last one.
fn push_names(
    alloc: Global,
    grm: &NumberedGrammar<u8>,
    prefix: &mut Prefix<'_, u8>,
    names: &[&str],
    text: &mut String,
) -> Result<(), AllocError> {
    for index in 0..names.len() {
        if !prefix.push(token_of(grm, names[index]))? {
            text.push_str(" !")?;
        }
        text.push_str(" |")?;
        push_next(alloc, grm, prefix, text)?;
    }
    let count = prefix.tokens().len();
    text.push_str(format!(in alloc; " {count}")?.as_str())
}

/// Adds what may come first, and behind each of the tokens with these names.
fn push_prefix(
    alloc: Global,
    data: &ParserData<u8>,
    names: &[&str],
    text: &mut String,
) -> Result<(), AllocError> {
    let mut prefix = data.prefix(alloc)?;
    let first = push_next(alloc, data.grm(), &prefix, text);
    let others = push_names(alloc, data.grm(), &mut prefix, names, text);
    drop(prefix);
    first?;
    others
}

/// Returns what may come after these tokens by the grammar of a text; behind a semicolon what may come first and after each.
fn next(alloc: Global, text: &str, names: &[&str]) -> Result<String, Fail> {
    let data = data(alloc, text)?;
    let next = next_of(alloc, &data, names);
    let mut behind = String::new(alloc);
    let pushed = push_prefix(alloc, &data, names, &mut behind);
    drop(data);
    pushed?;
    let mut found = next?;
    found.push_str(" ;")?;
    found.push_str(behind.as_str())?;
    Ok(found)
}

// After `a q` the state of `q` is that after `b q` too, so that it reduces on `t` and on `u`. A stack that was not kept at `u`
// would allow `t` alone behind it.
const MERGED: &str = "%start S %% S: 'a' A 't' | 'a' B | 'b' A 'u' | 'b' B; A: 'q'; B: 'q' 'x';";

const SUMS: &str = "%start E %% E: E '+' T | T; T: T '*' F | F; F: '(' E ')' | 'INT';";

const LIST: &str = "%start L %% L: 'ID' | ;";

/// Texts of grammars, names of tokens, and what may come.
const NEXT: &[(&str, &[&str], &str)] = &[
    (MERGED, &["a", "q"], " t x ; a b | q | t x 2"),
    (MERGED, &["a", "q", "x"], " $ ; a b | q | t x | $ 3"),
    (
        SUMS,
        &["(", "INT", "+"],
        " ( INT ; ( INT | ( INT | + * ) | ( INT 3",
    ),
    (
        SUMS,
        &["(", "INT", ")"],
        " + * $ ; ( INT | ( INT | + * ) | + * $ 3",
    ),
    (LIST, &[], " ID $ ; ID $ 0"),
    (MERGED, &["a", "q", "u"], "none ; a b | q | t x ! | t x 2"),
    (
        SUMS,
        &["(", "INT", "+", ")"],
        "none ; ( INT | ( INT | + * ) | ( INT ! | ( INT 3",
    ),
    (LIST, &["$"], "none ; ID $ ! | ID $ 0"),
    (
        MERGED,
        &["a", "q", "u", "x", "$", "x"],
        "none ; a b | q | t x ! | t x | $ ! | $ ! | $ 3",
    ),
    (MERGED, &["b", "q"], " u x ; a b | q | u x 2"),
    (
        SUMS,
        &["(", "INT", "*", "+", "INT", ")"],
        "none ; ( INT | ( INT | + * ) | ( INT ! | ( INT | + * ) | + * $ 5",
    ),
];

#[test]
fn next_tokens_are_told(rt: HostRuntime) -> Result<(), Fail> {
    for index in 0..NEXT.len() {
        let (text, names, told) = NEXT[index];
        let found = next(rt.alloc(), text, names)?;
        same(&rt, text, found.as_str(), told);
    }
    Ok(())
}
