//! What is said of a grammar and a lexer that serve: names that only one of them has, and conflicts.

use bison_sources::{BisonFile, note_messages, push_notes, refusal_message};
use cfg_base::index::IndexStorage;
use cfg_base::symbol::TIdx;
use checked_import::CheckedError;
use lrlex::{BoundRules, LexRules};
use parser_kit::ParserKit;
use std::alloc::AllocError;
use text_messages::Source;
use text_parses::token_name;
use yacc_import::Note;

/// Returns the name of a rule of the lexer; nothing for one that is skipped.
fn rule_name(rules: &LexRules, rule: usize) -> &str {
    match rules.names().get(rule) {
        Some(Some(name)) => name.as_str(),
        _ => "",
    }
}

/// Says which rules of the lexer have a name that is no token's.
fn say_unknown<R: Eprint + AllocGlobal>(
    rt: &R,
    path: &str,
    rules: &LexRules,
    bound: &BoundRules<'_, u32>,
) -> Result<(), AllocError> {
    let missing = bound.missing_from_parser(rt.alloc())?;
    'rules: for rule in &missing {
        let name = rule_name(rules, *rule);
        let _ = eprintln!(rt; "{path}: warning: the grammar has no token '{name}'");
    }
    Ok(())
}

/// Says for which tokens the lexer has no rule.
fn say_unlexed<R: Eprint + AllocGlobal>(
    rt: &R,
    path: &str,
    kit: &ParserKit<u32>,
    bound: &BoundRules<'_, u32>,
) -> Result<(), AllocError> {
    let missing = bound.missing_from_lexer(rt.alloc(), kit.grm())?;
    'tokens: for token in &missing {
        if *token < kit.grm().tokens_len().0.to_usize() {
            let tidx: TIdx<u32> = kit.grm().token_at(*token);
            let name = token_name(kit.grm(), tidx);
            let _ = eprintln!(rt; "{path}: warning: the lexer has no rule for the token '{name}'");
        }
    }
    Ok(())
}

/// Says how many conflicts are listed, where they are others than the grammar expects.
pub fn say_conflicts(rt: &impl Eprint, path: &str, kit: &ParserKit<u32>) {
    if let Some(conflicts) = kit.conflicts() {
        let shift_reduce = conflicts.sr_len();
        let reduce_reduce = conflicts.rr_len();
        let expect = kit.grm().expect().unwrap_or(0);
        let expect_rr = kit.grm().expectrr().unwrap_or(0);
        if shift_reduce != expect || reduce_reduce != expect_rr {
            let _ = eprintln!(rt;
                "{path}: warning: conflicts: {shift_reduce} shift/reduce, {reduce_reduce} reduce/reduce, expected {expect} and {expect_rr}"
            );
        }
    }
}

/// Says on standard error what a user of the grammar and the lexer should know.
pub fn say_warnings<R: Eprint + AllocGlobal>(
    rt: &R,
    grammar: &str,
    lexer: &str,
    kit: &ParserKit<u32>,
    rules: &LexRules,
    bound: &BoundRules<'_, u32>,
) -> Result<(), AllocError> {
    say_conflicts(rt, grammar, kit);
    say_unknown(rt, lexer, rules, bound)?;
    say_unlexed(rt, grammar, kit, bound)
}

/// Says how a Bison file was read: all that was left out or changed, or what a user of its parser should know.
pub fn say_notes<R: Eprint + AllocGlobal>(
    rt: &R,
    file: BisonFile<'_>,
    notes: &[Note],
) -> Result<(), AllocError> {
    let source = Source::new(rt.alloc(), file.text, file.path)?;
    let mut text = String::new(rt.alloc());
    let notes = note_messages(rt.alloc(), notes, file.sign)?;
    push_notes(rt.alloc(), &mut text, &source, notes.as_slice())?;
    let _ = eprint!(rt; "{text}");
    Ok(())
}

/// Says why a Bison file is not imported.
pub fn say_refusal<R: Eprint + AllocGlobal>(
    rt: &R,
    file: BisonFile<'_>,
    error: CheckedError,
) -> Result<(), AllocError> {
    let error = refusal_message(rt.alloc(), error)?;
    say_notes(rt, file, &[])?;
    let source = Source::new(rt.alloc(), file.text, file.path)?;
    let mut text = String::new(rt.alloc());
    source.push(rt.alloc(), &mut text, &error)?;
    let _ = eprint!(rt; "{text}");
    Ok(())
}
