//! The lines of a rule.

ghost use Rattle.std.specs.Prelude.{◌<◌, ◌≡◌, ◌||◌, length, nat_lt};
ghost use Rattle.cfg_sets.specs.Firsts.{AreFirsts};
ghost use Rattle.cfg_sets.specs.Follows.{AreFollows};

use cfg_base::symbol::{PIdx, RIdx, Symbol, TIdx};
use cfg_sentences::{SentenceError, SentenceGenerator};
use cfg_sets::{YaccFirsts, YaccFollows};
use grammar_names::{Grammar, push_prod, push_token, push_word};
use std::alloc::{AllocError, Global};

/// FIRST, FOLLOW and sentences are made of no grammar that has more productions, or more tokens, than these.
const MOST: usize = 12000;

/// The last line on a rule of such a grammar.
const NOT_MADE: &str =
    "FIRST, FOLLOW and cheapest sentence: not of more than 12000 productions or tokens";

/// Returns whether a grammar has too many productions, or too many tokens, for FIRST, FOLLOW and sentences. The start's production
/// and the end token count too.
fn is_large(grm: &Grammar) -> bool
    ensures { result ≡ (nat_lt 12000 (length grm.now.grammar.productions) || nat_lt 12000 grm.now.grammar.tokens) }
{
    usize::from(grm.prods_len()) > MOST || usize::from(grm.tokens_len()) > MOST
}

/// Adds the productions, a line each.
fn push_prods(text: &mut String, grm: &Grammar, prods: &[PIdx<u32>]) -> Result<(), AllocError> {
    'prods: for index in 0..prods.len() {
        push_prod(text, grm, prods[index])?;
        text.push('\n')?;
    }
    Ok(())
}

/// Adds the tokens that texts of a rule begin with, and `%empty` if it derives nothing too.
fn push_firsts(
    text: &mut String,
    grm: &Grammar,
    firsts: &YaccFirsts<u32>,
    ridx: RIdx<u32>,
) -> Result<(), AllocError>
    requires rule { ridx.0 < grm.now.grammar.rules }
    requires firsts { AreFirsts grm.now.grammar firsts.now }
{
    text.push_str("FIRST:")?;
    for number in 0..usize::from(grm.tokens_len()) {
        let tidx = grm.token_at(number);
        if firsts.is_set(ridx, tidx) {
            push_token(text, grm, tidx)?;
        }
    }
    if firsts.is_nullable(Symbol::Rule(ridx)) {
        push_word(text, "%empty")?;
    }
    text.push('\n')
}

/// Adds the tokens that may come behind a rule.
fn push_follows(
    text: &mut String,
    grm: &Grammar,
    follows: &YaccFollows<u32>,
    ridx: RIdx<u32>,
) -> Result<(), AllocError>
    requires rule { ridx.0 < grm.now.grammar.rules }
    requires follows { AreFollows grm.now.grammar follows.now }
{
    text.push_str("FOLLOW:")?;
    for number in 0..usize::from(grm.tokens_len()) {
        let tidx = grm.token_at(number);
        if follows.is_set(ridx, tidx) {
            push_token(text, grm, tidx)?;
        }
    }
    text.push('\n')
}

/// Adds tokens.
fn push_tokens(text: &mut String, grm: &Grammar, tokens: &[TIdx<u32>]) -> Result<(), AllocError> {
    if tokens.is_empty() {
        return push_word(text, "%empty");
    }
    'tokens: for index in 0..tokens.len() {
        push_token(text, grm, tokens[index])?;
    }
    Ok(())
}

/// Adds a sentence of a rule with as few tokens as can be, or that it has none.
fn push_cheapest(
    alloc: Global,
    text: &mut String,
    grm: &Grammar,
    costs: &SentenceGenerator<'_, u32>,
    ridx: RIdx<u32>,
) -> Result<(), AllocError>
    requires { ridx.0 < costs.now.grammar.rules }
{
    match costs.min_sentence(alloc, ridx) {
        Ok(tokens) => {
            text.push_str("cheapest sentence:")?;
            push_tokens(text, grm, tokens.as_slice())
        }
        Err(SentenceError::Memory(e)) => Err(e),
        Err(SentenceError::NoSentence) => text.push_str("unproductive: it derives no sentence"),
        Err(SentenceError::CostTooLarge) => {
            text.push_str("each sentence has more than 65535 tokens")
        }
    }
}

/// Adds the sets of a rule.
fn push_sets(
    alloc: Global,
    text: &mut String,
    grm: &Grammar,
    ridx: RIdx<u32>,
) -> Result<(), AllocError>
    requires { ridx.0 < grm.now.grammar.rules }
{
    let firsts = YaccFirsts::new(alloc, grm)?;
    let pushed = push_firsts(text, grm, &firsts, ridx);
    drop(firsts);
    pushed?;
    let follows = YaccFollows::new(alloc, grm)?;
    let pushed = push_follows(text, grm, &follows, ridx);
    drop(follows);
    pushed
}

/// Adds the sets of a rule and a sentence.
fn push_derived(
    alloc: Global,
    text: &mut String,
    grm: &Grammar,
    ridx: RIdx<u32>,
) -> Result<(), AllocError>
    requires { ridx.0 < grm.now.grammar.rules }
{
    push_sets(alloc, text, grm, ridx)?;
    let costs = SentenceGenerator::new(alloc, grm, |_token| 1)?;
    let pushed = push_cheapest(alloc, text, grm, &costs, ridx);
    drop(costs);
    pushed
}

/// Adds the lines of a rule: of a large grammar its productions, and that there is no more.
pub(crate) fn push_rule(
    alloc: Global,
    text: &mut String,
    grm: &Grammar,
    ridx: RIdx<u32>,
) -> Result<(), AllocError>
    requires { ridx.0 < grm.now.grammar.rules }
{
    push_prods(text, grm, grm.rule_to_prods(ridx))?;
    if is_large(grm) {
        return text.push_str(NOT_MADE);
    }
    push_derived(alloc, text, grm, ridx)
}
