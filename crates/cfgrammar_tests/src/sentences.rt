//! The first of very many cheapest sentences, by costs that a function tells, which is asked of each token once.
//! Grammars and what they give are lent to what asks, and dropped by name.

ghost use Rattle.std.specs.Prelude.{◌<◌};

use crate::make::TREE;
use crate::same::same;
use cfgrammar::RIdx;
use cfgrammar::index::IndexStorage;
use cfgrammar::yacc::{SentenceError, SentenceGenerator, YaccGrammar, YaccGrammarMakeError};
use std::alloc::{AllocError, Global};
use std::cell::Cell;
use std::test::*;

// How many tokens a list has, and how many of them are the first token.
type Counts = Option<(usize, usize)>;

fn counts_of<S: IndexStorage>(
    alloc: Global,
    sentences: &SentenceGenerator<'_, S>,
    ridx: RIdx<S>,
) -> Result<Counts, AllocError>
    requires { S.number ridx.0 < sentences.now.grammar.rules }
{
    match sentences.min_sentence(alloc, ridx) {
        Ok(list) => {
            let firsts = list.iter().filter(|tidx| tidx.0.to_usize() == 0).count();
            Ok(Some((list.len(), firsts)))
        }
        Err(SentenceError::Memory(e)) => Err(e),
        Err(_) => Ok(None),
    }
}

/// A text, a rule, and what the end token and each other one cost.
type Asked = (&'static str, &'static str, u8, u8);

// The tokens that costs were asked of, each as a digit one more than its number; and the counts of the first list.
type Found = (usize, Counts);

fn found_in<S: IndexStorage>(
    alloc: Global,
    grm: &YaccGrammar<S>,
    asked: Asked,
) -> Result<Found, AllocError> {
    let (_text, rule, end, cost) = asked;
    let Some(ridx) = grm.rule_idx(rule) else {
        return Ok((0, None));
    };
    let last = grm.eof_token_idx().0.to_usize();
    let digits = Cell::new(0usize);
    let sentences = grm.sentence_generator(alloc, |token| {
        let number = token.0.to_usize();
        let digit = number.wrapping_add(1);
        digits.set(digits.get().wrapping_mul(10).wrapping_add(digit));
        if number == last { end } else { cost }
    })?;
    let counts = counts_of(alloc, &sentences, ridx);
    drop(sentences);
    Ok((digits.get(), counts?))
}

/// Returns what is found in a grammar, if it was made.
fn answer<S: IndexStorage>(
    alloc: Global,
    made: Result<YaccGrammar<S>, YaccGrammarMakeError>,
    asked: Asked,
) -> Result<Found, AllocError> {
    match made {
        Ok(grm) => {
            let found = found_in(alloc, &grm, asked);
            drop(grm);
            found
        }
        Err(YaccGrammarMakeError::Memory(e)) => Err(e),
        Err(refusal) => {
            drop(refusal);
            Ok((0, None))
        }
    }
}

const CHOICES: &str =
    "%token a b %% R10: R9 R9; R9: R8 R8; R8: R7 R7; R7: R6 R6; R6: R5 R5; R5: R4 R4; R4: R3 R3; R3: R2 R2; R2: R1 R1; R1: R0 R0; R0: 'b' | 'a';";

const FEW: &str = "%token a b %% S: 'c' 'b' T; T: 'a' 'b' | ;";

// There are 2 to the power of 1,024 cheapest lists; as many, where the end token costs nothing, and where no token does.
const ROWS: &[(Asked, Found)] = &[
    ((CHOICES, "R10", 1, 1), (123, Some((1024, 1024)))),
    ((CHOICES, "R10", 0, 1), (123, Some((1024, 1024)))),
    ((CHOICES, "R10", 0, 0), (123, Some((1024, 1024)))),
    ((FEW, "S", 1, 1), (1234, Some((2, 0)))),
];

#[test]
fn first_cheapest_lists(rt: HostRuntime) -> Result<(), AllocError> {
    let alloc = rt.alloc();
    'rows: for (asked, wanted) in ROWS {
        let wide = answer(alloc, YaccGrammar::new(alloc, TREE, asked.0), *asked)?;
        same(&rt, "u32", wide, *wanted);
        let made = YaccGrammar::<u16>::new_with_storaget(alloc, TREE, asked.0);
        same(&rt, "u16", answer(alloc, made, *asked)?, *wanted);
        let made = YaccGrammar::<u8>::new_with_storaget(alloc, TREE, asked.0);
        same(&rt, "u8", answer(alloc, made, *asked)?, *wanted);
    }
    Ok(())
}
