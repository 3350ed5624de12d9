//! What `cfgrammar` answers to a text, at index types of four bytes and of one.

use crate::costs::{push_costs, push_falling_costs};
use crate::kept::push_kept;
use crate::make::grammar_of;
use crate::numbers::{push_counts, push_number, push_numbers};
use crate::sets::{push_paths, push_sets};
use cfgrammar::index::IndexStorage;
use cfgrammar::yacc::{TooMany, YaccGrammar, YaccGrammarMakeError};
use row_files::{Part, kind_of, parts, push_errors};
use std::alloc::{AllocError, Global};

/// What is asked of a grammar; costs where each token costs the same, or less by its number.
#[derive(Clone, Copy)]
enum Asked {
    Numbers,
    Counts,
    Kept,
    Sets,
    Paths,
    Costs(u8),
    Falling,
}

const WORDS: &[(&str, Asked)] = &[
    ("numbers", Asked::Numbers),
    ("counts", Asked::Counts),
    ("kept", Asked::Kept),
    ("sets", Asked::Sets),
    ("paths", Asked::Paths),
    ("ones", Asked::Costs(1)),
    ("threes", Asked::Costs(3)),
    ("noughts", Asked::Costs(0)),
    ("greatest", Asked::Costs(255)),
    ("falling", Asked::Falling),
];

/// Returns what the second word of a heading asks, if it asks anything.
fn asked_by(heading: &str) -> Option<Asked> {
    let word = heading.split_whitespace().nth(1)?;
    'words: for (name, asked) in WORDS {
        if *name == word {
            return Some(*asked);
        }
    }
    None
}

fn push_asked<S: IndexStorage>(
    alloc: Global,
    out: &mut String,
    heading: &str,
    grm: &YaccGrammar<S>,
) -> Result<(), AllocError> {
    match asked_by(heading) {
        Some(Asked::Numbers) => push_numbers(alloc, out, grm),
        Some(Asked::Counts) => push_counts(alloc, out, grm),
        Some(Asked::Kept) => push_kept(alloc, out, grm),
        Some(Asked::Sets) => push_sets(alloc, out, grm),
        Some(Asked::Paths) => push_paths(alloc, out, grm),
        Some(Asked::Costs(cost)) => push_costs(alloc, out, grm, cost),
        Some(Asked::Falling) => push_falling_costs(alloc, out, grm),
        None => out.push_str("asks for nothing\n"),
    }
}

fn push_too_many(alloc: Global, out: &mut String, many: TooMany) -> Result<(), AllocError> {
    let count = match many {
        TooMany::TooManyRules(count) => count,
        TooMany::TooManyProds(count) => count,
        TooMany::TooManyTokens(count) => count,
        TooMany::TooManySymbols(count) => count,
    };
    out.push_str(format!(in alloc; "{many}")?.as_str())?;
    push_number(alloc, out, " ", count)?;
    out.push('\n')
}

fn push_refusal(
    alloc: Global,
    out: &mut String,
    refusal: &YaccGrammarMakeError,
) -> Result<(), AllocError> {
    match refusal {
        YaccGrammarMakeError::Memory(e) => Err(*e),
        YaccGrammarMakeError::Invalid(errors) => push_errors(alloc, out, errors.as_slice()),
        YaccGrammarMakeError::TooMany(many) => push_too_many(alloc, out, *many),
    }
}

/// The answer at one index type.
fn answer<S: IndexStorage>(
    alloc: Global,
    heading: &str,
    text: &str,
    start: Option<&str>,
) -> Result<String, AllocError> {
    let mut out = String::new(alloc);
    let pushed = match grammar_of::<S>(alloc, kind_of(heading), text, start) {
        Ok(grm) => {
            let pushed = push_asked(alloc, &mut out, heading, &grm);
            drop(grm);
            pushed
        }
        Err(refusal) => {
            let pushed = push_refusal(alloc, &mut out, &refusal);
            drop(refusal);
            pushed
        }
    };
    pushed?;
    Ok(out)
}

/// The answer at index types of four bytes, and that of one byte where it is another one.
fn push_answer(
    alloc: Global,
    out: &mut String,
    heading: &str,
    text: &str,
    start: Option<&str>,
) -> Result<(), AllocError> {
    let wide = answer::<u32>(alloc, heading, text, start)?;
    let narrow = answer::<u8>(alloc, heading, text, start)?;
    out.push_str(wide.as_str())?;
    if narrow != wide {
        out.push_str("by u8: ")?;
        out.push_str(narrow.as_str())?;
    }
    Ok(())
}

fn push_part(alloc: Global, out: &mut String, part: &Part) -> Result<(), AllocError> {
    match part {
        Part::Line(line) => {
            out.push_str(line)?;
            out.push('\n')
        }
        Part::Text(heading, text, start) => push_answer(alloc, out, heading, text.as_str(), *start),
    }
}

fn push_parts(alloc: Global, out: &mut String, parts: &[Part]) -> Result<(), AllocError> {
    for part in parts {
        push_part(alloc, out, part)?;
    }
    Ok(())
}

/// The file with the right answers.
pub fn answer_file(alloc: Global, file: &str) -> Result<String, AllocError> {
    let mut out = String::new(alloc);
    let parts = parts(alloc, file)?;
    let pushed = push_parts(alloc, &mut out, parts.as_slice());
    drop(parts);
    pushed?;
    Ok(out)
}
