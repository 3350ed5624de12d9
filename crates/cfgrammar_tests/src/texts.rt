//! What texts say and their trees don't hold: spans of `%actiontype`, of `%parse-param` and of the types of rules. What the
//! trees hold of the same texts are rows of `read_rows`.

use crate::same::same;
use cfg_read::yacc::parser::error::ReadError;
use cfg_read::yacc::parser::read_syntax;
use cfg_read::yacc::parser::syntax::{Rule, Syntax, Word};
use cfg_read::yacc::{YaccKind, YaccOriginalActionKind};
use std::alloc::{AllocError, Global};
use std::test::*;

const YACC: YaccKind = YaccKind::Original(YaccOriginalActionKind::UserAction);

/// Adds a word as its text in round brackets and its span, behind a label.
fn push_word(alloc: Global, out: &mut String, label: &str, word: &Word) -> Result<(), AllocError> {
    let text = word.text.as_str();
    let start = word.span.start();
    let end = word.span.end();
    out.push_str(format!(in alloc; "{label}({text}){start}-{end}")?.as_str())
}

fn push_types(alloc: Global, out: &mut String, rules: &[Rule]) -> Result<(), AllocError> {
    for rule in rules {
        if let Some(word) = &rule.action_type {
            push_word(alloc, out, "->", word)?;
        }
    }
    Ok(())
}

/// Renders the types of actions, the parameter with its type, and the types of rules.
fn words_in(alloc: Global, x: &Syntax) -> Result<String, AllocError> {
    let mut out = String::new(alloc);
    for word in &x.action_types {
        push_word(alloc, &mut out, "type", word)?;
    }
    if let Some(param) = &x.parse_param {
        push_word(alloc, &mut out, "param", &param.name)?;
        push_word(alloc, &mut out, ":", &param.param_type)?;
    }
    push_types(alloc, &mut out, x.rules.as_slice())?;
    Ok(out)
}

/// Returns these words of a text, if it reads.
fn answer(alloc: Global, kind: YaccKind, text: &str) -> Result<String, AllocError> {
    match read_syntax(alloc, kind, text, 0) {
        Ok(x) => {
            let found = words_in(alloc, &x);
            drop(x);
            found
        }
        Err(ReadError::Memory(e)) => Err(e),
        Err(ReadError::Fault(fault, _offset)) => {
            drop(fault);
            String::from_str(alloc, "a fault")
        }
    }
}

const READINGS: &[(YaccKind, &str, &str)] = &[
    (YACC, "%start S", "a fault"),
    (YACC, "%start E %% E: T '+' E | T; T: 'ID';", ""),
    (
        YACC,
        "%actiontype  Vec<u8> // x\r\n%%",
        "type(Vec<u8> // x)13-25",
    ),
    (
        YACC,
        "%parse-param p : &'a T // x\n%%",
        "param(p)13-14:(&'a T // x)17-27",
    ),
    (
        YACC,
        "%parse-param a :: b : c::d\n%%",
        "param(a :: b)13-19:(c::d)22-26",
    ),
    (YACC, "%parse-param :\n%%", "param()13-13:()14-14"),
    (
        YaccKind::Grmtools,
        "%% S -> Result<a::B, ()> : 'a'; T->:;",
        "->(Result<a::B, ()>)8-24->()35-35",
    ),
];

#[test]
fn words_outside_of_trees(rt: HostRuntime) -> Result<(), Fail> {
    for (kind, text, expected) in READINGS {
        let found = answer(rt.alloc(), *kind, text)?;
        same(&rt, text, found.as_str(), *expected);
    }
    Ok(())
}
