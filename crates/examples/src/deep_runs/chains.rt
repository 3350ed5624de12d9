//! What calls on a grammar return for a long chain of rules, each of which is the next one.

ghost use Rattle.std.specs.Prelude.{◌<◌};

use crate::text_errors::grammar;
use cfgrammar::RIdx;
use cfgrammar::yacc::{SentenceError, SentenceGenerator, YaccGrammar};
use std::alloc::{AllocError, Global};

const RULES: u32 = 100_000;

/// Returns the text of the chain, whose last rule is a token.
fn text_of(alloc: Global) -> Result<String, AllocError> {
    let mut text = String::from_str(alloc, "%start r0 %%")?;
    for number in 0..RULES {
        let next = number.saturating_add(1);
        text.push_str(format!(in alloc; " r{number}: r{next};")?.as_str())?;
    }
    text.push_str(" r100000: 'a';")?;
    Ok(text)
}

/// Adds whether the first rule reaches the last one, and the other way round.
fn push_paths(alloc: Global, out: &mut String, grm: &YaccGrammar<u32>) -> Result<(), AllocError> {
    let Some(first) = grm.rule_idx("r0") else {
        return out.push_str("no first rule\n");
    };
    let Some(last) = grm.rule_idx("r100000") else {
        return out.push_str("no last rule\n");
    };
    let there = grm.has_path(alloc, first, last)?;
    let back = grm.has_path(alloc, last, first)?;
    out.push_str(format!(in alloc; "path: {there}, back: {back}\n")?.as_str())
}

/// Adds that the sets of all rules are made.
fn push_sets(alloc: Global, out: &mut String, grm: &YaccGrammar<u32>) -> Result<(), AllocError> {
    let firsts = grm.firsts(alloc)?;
    drop(firsts);
    let follows = grm.follows(alloc)?;
    drop(follows);
    out.push_str("sets: made\n")
}

/// Adds the least and the greatest cost of a rule, and the length of its first cheapest token list.
fn push_rule_costs(
    alloc: Global,
    out: &mut String,
    sentences: &SentenceGenerator<'_, u32>,
    ridx: RIdx<u32>,
) -> Result<(), AllocError>
    requires { ridx.0 < sentences.now.grammar.rules }
{
    let Ok(least) = sentences.min_sentence_cost(ridx) else {
        return out.push_str("no least cost\n");
    };
    let Ok(Some(greatest)) = sentences.max_sentence_cost(ridx) else {
        return out.push_str("no greatest cost\n");
    };
    match sentences.min_sentence(alloc, ridx) {
        Ok(list) => {
            let tokens = list.len();
            out.push_str(format!(in alloc;
                "costs: {least} to {greatest}, tokens: {tokens}\n"
            )?.as_str())
        }
        Err(SentenceError::Memory(e)) => Err(e),
        Err(_) => out.push_str("no token list\n"),
    }
}

/// Adds the costs and a sentence of the first rule.
fn push_costs(alloc: Global, out: &mut String, grm: &YaccGrammar<u32>) -> Result<(), AllocError> {
    let Some(first) = grm.rule_idx("r0") else {
        return out.push_str("no first rule\n");
    };
    let sentences = grm.sentence_generator(alloc, |_token| 1)?;
    let pushed = push_rule_costs(alloc, out, &sentences, first);
    drop(sentences);
    pushed
}

/// Adds what each call answers.
fn push_answers(alloc: Global, out: &mut String, grm: &YaccGrammar<u32>) -> Result<(), AllocError> {
    push_paths(alloc, out, grm)?;
    push_sets(alloc, out, grm)?;
    push_costs(alloc, out, grm)
}

/// Adds what the chain comes to.
pub fn push_chain(alloc: Global, out: &mut String) -> Result<(), AllocError> {
    out.push_str("a chain of rules\n")?;
    let text = text_of(alloc)?;
    match grammar(alloc, text.as_str())? {
        Ok(grm) => {
            let pushed = push_answers(alloc, out, &grm);
            drop(grm);
            pushed
        }
        Err(_) => out.push_str("no grammar\n"),
    }
}
