//! Cheapest sentences of rules, and rules without sentences. Each token costs one.

ghost use Rattle.std.specs.Prelude.{◌≡◌, ◌<◌, IfOk, OnOk};
ghost use Rattle.cfg_theory.specs.Decides.{Decides};
ghost use Rattle.cfg_theory.specs.Derivation.{IsProductive};
ghost use Rattle.text_messages.specs.Added.{AddsOne, AddsSome};
ghost use Rattle.grammar_report.specs.Messages.{AreUnproductive, IsOfUnproductive, IsUnproductive, is_start};

use crate::faults::push_named;
use cfg_base::span::Span;
use cfg_base::symbol::{RIdx, TIdx};
use cfg_read::yacc::ast::GrammarAST;
use cfg_sentences::{CostError, SentenceError, SentenceGenerator};
use grammar_names::{Grammar, push_line, push_token, push_word};
use parser_kit::ParserKit;
use std::alloc::{AllocError, Global};
use text_messages::{Messages, Severity};

/// Returns whether a rule of the text derives no list of tokens.
fn is_unproductive(grm: &Grammar, costs: &SentenceGenerator<'_, u32>, name: &str) -> bool
    requires { costs.now.grammar ≡ grm.now.grammar }
    ensures { Decides (IsUnproductive grm.now name.now) result }
{
    let Some(ridx) = grm.rule_idx(name) else {
        return false;
    };
    match costs.min_sentence_cost(ridx) {
        Err(CostError::NoSentence) => true,
        _ => false,
    }
}

/// Returns whether a rule is the one that sentences begin with.
fn is_start(ast: &GrammarAST, name: &str) -> bool
    ensures { result ≡ is_start ast.now name.now }
{
    match ast.start() {
        Some((start, _)) => start.as_str() == name,
        None => false,
    }
}

/// Adds that a rule derives no list of tokens: an error of the start rule.
fn push_unproductive_rule(
    alloc: Global,
    messages: &mut Messages<'_>,
    span: Span,
    starts: bool,
) -> Result<(), AllocError>
    ensures { OnOk result (AddsOne (IsOfUnproductive messages.old.text starts span) messages.old messages.new) }
{
    if starts {
        let what = "No line is a sentence: unproductive start rule";
        push_named(alloc, messages, Severity::Error, span, what)
    } else {
        push_named(
            alloc,
            messages,
            Severity::Warning,
            span,
            "Unproductive rule",
        )
    }
}

/// Adds the rules of the text that derive no list of tokens.
fn push_unproductive_of(
    alloc: Global,
    messages: &mut Messages<'_>,
    grm: &Grammar,
    ast: &GrammarAST,
    costs: &SentenceGenerator<'_, u32>,
) -> Result<(), AllocError>
    requires { costs.now.grammar ≡ grm.now.grammar }
    ensures { OnOk result (AddsSome (AreUnproductive messages.old.text grm.now ast.now) messages.old messages.new) }
{
    'rules: for (name, rule) in ast.rules() {
        if is_unproductive(grm, costs, name.as_str()) {
            let starts = is_start(ast, name.as_str());
            push_unproductive_rule(alloc, messages, rule.name.1, starts)?;
        }
    }
    Ok(())
}

/// Adds a message for each rule of the text that derives no list of tokens: an error for the start rule, warnings for others.
pub fn push_unproductive(
    alloc: Global,
    messages: &mut Messages<'_>,
    kit: &ParserKit<u32>,
) -> Result<(), AllocError>
    ensures { OnOk result (AddsSome (AreUnproductive messages.old.text kit.now.parser.grammar kit.now.kept.ast) messages.old messages.new) }
{
    let costs = SentenceGenerator::new(alloc, kit.grm(), |_token| 1)?;
    let pushed = push_unproductive_of(alloc, messages, kit.grm(), kit.ast(), &costs);
    drop(costs);
    pushed
}

/// Returns whether the start rule derives some list of tokens.
pub(crate) fn has_sentences(alloc: Global, grm: &Grammar) -> Result<bool, AllocError>
    ensures { IfOk result (λ b. Decides (IsProductive grm.now.grammar 0) b) }
{
    let start = grm.start_rule_idx();
    let costs = SentenceGenerator::new(alloc, grm, |_token| 1)?;
    let least = costs.min_sentence_cost(start);
    drop(costs);
    match least {
        Ok(_) => Ok(true),
        Err(CostError::CostTooLarge) => Ok(true),
        Err(CostError::NoSentence) => Ok(false),
    }
}

fn push_tokens(text: &mut String, grm: &Grammar, tokens: &[TIdx<u32>]) -> Result<(), AllocError> {
    if tokens.is_empty() {
        return push_word(text, "%empty");
    }
    'tokens: for index in 0..tokens.len() {
        push_token(text, grm, tokens[index])?;
    }
    Ok(())
}

/// Adds the cheapest list of a rule, or why none is given.
fn push_cheapest(
    alloc: Global,
    text: &mut String,
    grm: &Grammar,
    costs: &SentenceGenerator<'_, u32>,
    ridx: RIdx<u32>,
) -> Result<(), AllocError>
    requires { ridx.0 < costs.now.grammar.rules }
{
    match costs.min_sentence(alloc, ridx) {
        Ok(tokens) => {
            text.push(':')?;
            push_tokens(text, grm, tokens.as_slice())
        }
        Err(SentenceError::Memory(e)) => Err(e),
        Err(SentenceError::NoSentence) => text.push_str(" derives no sentence"),
        Err(SentenceError::CostTooLarge) => text.push_str(
            " derives no sentence of at most 65535 tokens",
        ),
    }
}

/// Adds a line for a rule of the text.
fn push_sentence(
    alloc: Global,
    text: &mut String,
    grm: &Grammar,
    costs: &SentenceGenerator<'_, u32>,
    name: &str,
) -> Result<(), AllocError>
    requires { costs.now.grammar ≡ grm.now.grammar }
{
    text.push_str(name)?;
    if let Some(ridx) = grm.rule_idx(name) {
        push_cheapest(alloc, text, grm, costs, ridx)?;
    }
    text.push('\n')
}

fn push_sentences_of(
    alloc: Global,
    text: &mut String,
    grm: &Grammar,
    ast: &GrammarAST,
    costs: &SentenceGenerator<'_, u32>,
) -> Result<(), AllocError>
    requires { costs.now.grammar ≡ grm.now.grammar }
{
    'rules: for (name, _rule) in ast.rules() {
        push_sentence(alloc, text, grm, costs, name.as_str())?;
    }
    Ok(())
}

/// Adds a cheapest sentence of each rule of the text.
pub(crate) fn push_sentences(
    alloc: Global,
    text: &mut String,
    grm: &Grammar,
    ast: &GrammarAST,
) -> Result<(), AllocError> {
    push_line(text, "\nCheapest sentences:")?;
    let costs = SentenceGenerator::new(alloc, grm, |_token| 1)?;
    let pushed = push_sentences_of(alloc, text, grm, ast, &costs);
    drop(costs);
    pushed
}
