//! Costs of sentences, and the cheapest ones.

ghost use Rattle.std.specs.Prelude.{◌≡◌, ◌<◌};

use crate::make::has_rule;
use crate::numbers::push_number;
use cfgrammar::index::IndexStorage;
use cfgrammar::yacc::{CostError, SentenceError, SentenceGenerator, YaccGrammar};
use cfgrammar::{RIdx, TIdx};
use std::alloc::{AllocError, Global};

fn push_least(
    alloc: Global,
    out: &mut String,
    cost: Result<u16, CostError>,
) -> Result<(), AllocError> {
    match cost {
        Ok(cost) => push_number(alloc, out, " least ", usize::from(cost)),
        Err(e) => out.push_str(format!(in alloc; " {e}")?.as_str()),
    }
}

/// The greatest cost, if there is one.
fn push_greatest(
    alloc: Global,
    out: &mut String,
    cost: Result<Option<u16>, CostError>,
) -> Result<(), AllocError> {
    match cost {
        Ok(Some(cost)) => push_number(alloc, out, ", greatest ", usize::from(cost)),
        Ok(None) => out.push_str(", no greatest"),
        Err(e) => out.push_str(format!(in alloc; ", {e}")?.as_str()),
    }
}

fn push_list<S: IndexStorage>(
    alloc: Global,
    out: &mut String,
    list: &[TIdx<S>],
) -> Result<(), AllocError> {
    out.push_str(" [")?;
    for tidx in list {
        push_number(alloc, out, " ", usize::from(*tidx))?;
    }
    out.push_str(" ]")
}

fn push_lists<S: IndexStorage>(
    alloc: Global,
    out: &mut String,
    lists: Result<Vec<Vec<TIdx<S>>>, SentenceError>,
) -> Result<(), AllocError> {
    match lists {
        Ok(lists) => {
            out.push(',')?;
            for list in &lists {
                push_list(alloc, out, list.as_slice())?;
            }
            Ok(())
        }
        Err(SentenceError::Memory(e)) => Err(e),
        Err(e) => out.push_str(format!(in alloc; ", {e}")?.as_str()),
    }
}

fn push_first<S: IndexStorage>(
    alloc: Global,
    out: &mut String,
    list: Result<Vec<TIdx<S>>, SentenceError>,
) -> Result<(), AllocError> {
    match list {
        Ok(list) => {
            out.push_str(", the first")?;
            push_list(alloc, out, list.as_slice())
        }
        Err(SentenceError::Memory(e)) => Err(e),
        Err(e) => out.push_str(format!(in alloc; ", {e}")?.as_str()),
    }
}

/// A rule's least and greatest cost, its cheapest lists, and the first of them.
fn push_rule<'a, S: IndexStorage>(
    alloc: Global,
    out: &mut String,
    sentences: &SentenceGenerator<'a, S>,
    ridx: RIdx<S>,
) -> Result<(), AllocError>
    requires { S.number ridx.0 < sentences.now.grammar.rules }
{
    push_least(alloc, out, sentences.min_sentence_cost(ridx))?;
    push_greatest(alloc, out, sentences.max_sentence_cost(ridx))?;
    push_lists(alloc, out, sentences.min_sentences(alloc, ridx))?;
    push_first(alloc, out, sentences.min_sentence(alloc, ridx))?;
    out.push('\n')
}

fn push_rules<'a, S: IndexStorage>(
    alloc: Global,
    out: &mut String,
    grm: &YaccGrammar<S>,
    sentences: &SentenceGenerator<'a, S>,
) -> Result<(), AllocError>
    requires { sentences.now.grammar ≡ grm.now.grammar }
{
    for ridx in grm.iter_rules() {
        if has_rule(grm, ridx) {
            out.push_str(grm.rule_name_str(ridx))?;
            out.push(':')?;
            push_rule(alloc, out, sentences, ridx)?;
        }
    }
    Ok(())
}

/// Where each token costs the same.
pub fn push_costs<S: IndexStorage>(
    alloc: Global,
    out: &mut String,
    grm: &YaccGrammar<S>,
    cost: u8,
) -> Result<(), AllocError> {
    let sentences = grm.sentence_generator(alloc, |_token| cost)?;
    let pushed = push_rules(alloc, out, grm, &sentences);
    drop(sentences);
    pushed
}

/// The cost of a token that falls with its number.
fn falling(number: usize) -> u8 {
    match number {
        0 => 9,
        1 => 5,
        2 => 3,
        _ => 1,
    }
}

/// Where tokens with greater numbers cost less: 9, 5, 3, and then 1.
pub fn push_falling_costs<S: IndexStorage>(
    alloc: Global,
    out: &mut String,
    grm: &YaccGrammar<S>,
) -> Result<(), AllocError> {
    let sentences = grm.sentence_generator(alloc, |token| falling(usize::from(token)))?;
    let pushed = push_rules(alloc, out, grm, &sentences);
    drop(sentences);
    pushed
}
