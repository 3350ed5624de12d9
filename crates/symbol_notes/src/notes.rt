//! Notes on the names of a text.

use crate::rules::push_rule;
use cfgrammar::yacc::{AssocKind, Precedence, YaccGrammar, YaccGrammarMakeError, YaccKind};
use grammar_names::Grammar;
use std::alloc::{AllocError, Global};

/// Returns the grammar of a text of a kind, if it is one.
fn grammar_of(
    alloc: Global,
    kind: YaccKind,
    text: &str,
) -> Result<Option<YaccGrammar<u32>>, AllocError> {
    match YaccGrammar::new(alloc, kind, text) {
        Ok(grm) => Ok(Some(grm)),
        Err(YaccGrammarMakeError::Memory(e)) => Err(e),
        Err(_) => Ok(None),
    }
}

/// Returns what a grammar says of the rule of a name, if it has one.
fn note_on_rule(alloc: Global, grm: &Grammar, name: &str) -> Result<Option<String>, AllocError> {
    let Some(ridx) = grm.rule_idx(name) else {
        return Ok(None);
    };
    let mut text = String::new(alloc);
    push_rule(alloc, &mut text, grm, ridx)?;
    Ok(Some(text))
}

/// Returns what the grammar of a text says of the rule of a name, a line each: its productions, FIRST, FOLLOW, and a sentence with
/// as few tokens as can be. Of a grammar of more than 12000 productions or tokens these are the productions, and a line that says so.
pub fn rule_note(
    alloc: Global,
    kind: YaccKind,
    text: &str,
    name: &str,
) -> Result<Option<String>, AllocError> {
    match grammar_of(alloc, kind, text)? {
        Some(grm) => {
            let note = note_on_rule(alloc, &grm, name);
            drop(grm);
            note
        }
        None => Ok(None),
    }
}

/// Returns the word of a precedence line.
fn kind_word(kind: AssocKind) -> &'static str {
    match kind {
        AssocKind::Left => "%left",
        AssocKind::Right => "%right",
        AssocKind::Nonassoc => "%nonassoc",
    }
}

/// Returns a precedence in words.
fn precedence_words(alloc: Global, precedence: Option<Precedence>) -> Result<String, AllocError> {
    match precedence {
        Some(precedence) => {
            let word = kind_word(precedence.kind);
            let level = precedence.level.saturating_add(1);
            format!(in alloc; "{word}, level {level}")
        }
        None => String::from_str(alloc, "no precedence"),
    }
}

/// Returns the precedence of the token of a name, if a grammar has one.
fn note_on_token(alloc: Global, grm: &Grammar, name: &str) -> Result<Option<String>, AllocError> {
    match grm.token_idx(name) {
        Some(tidx) => Ok(Some(precedence_words(alloc, grm.token_precedence(tidx))?)),
        None => Ok(None),
    }
}

/// Returns the precedence of the token of a name in the grammar of a text, in words. The line that binds least has level 1.
pub fn token_note(
    alloc: Global,
    kind: YaccKind,
    text: &str,
    name: &str,
) -> Result<Option<String>, AllocError> {
    match grammar_of(alloc, kind, text)? {
        Some(grm) => {
            let note = note_on_token(alloc, &grm, name);
            drop(grm);
            note
        }
        None => Ok(None),
    }
}
