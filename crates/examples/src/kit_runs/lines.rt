//! Lines through kits.

use crate::kit_runs::kits::{kit_of, push_answers};
use crate::kit_runs::lexer::lexer_of;
use crate::kit_runs::spell::{branch, by_rule, flat_text, folded_text, leaf, mapped_text};
use cfg_base::index::IndexOrder;
use cfg_base::span::Span;
use cfg_base::symbol::{PIdx, RIdx};
use lrpar::{DefaultLexeme, DefaultLexerTypes, ListLexer, NoRecovery};
use parser_kit::{KitError, ParserKit};
use std::alloc::{AllocError, Global};

/// Returns what the lexemes fold to.
fn by_productions<S: IndexOrder>(
    alloc: Global,
    kit: &ParserKit<S>,
    lexer: &ListLexer<DefaultLexerTypes<S>>,
) -> Result<String, AllocError> {
    let fterm = |alloc: Global, lexeme: DefaultLexeme<S>| leaf(alloc, lexeme);
    let fnonterm = |alloc: Global, pidx: PIdx<S>, ridx: RIdx<S>, span: Span, args: Vec<String>| {
        branch(alloc, pidx, ridx, span, args)
    };
    let outcome = kit.parse_fold::<DefaultLexerTypes<S>, _, _, _, _, _>(
        alloc,
        lexer,
        &NoRecovery,
        &fterm,
        &fnonterm,
    );
    let text = folded_text(alloc, &outcome);
    drop(outcome);
    text
}

/// Returns what the lexemes yield by rule.
fn by_rules<S: IndexOrder>(
    alloc: Global,
    kit: &ParserKit<S>,
    lexer: &ListLexer<DefaultLexerTypes<S>>,
) -> Result<String, AllocError> {
    let fterm = |alloc: Global, lexeme: DefaultLexeme<S>| leaf(alloc, lexeme);
    let fnonterm = |alloc: Global, ridx: RIdx<S>, args: Vec<String>| by_rule(alloc, ridx, args);
    let outcome = kit.parse::<DefaultLexerTypes<S>, _, _, _, _, _>(
        alloc,
        lexer,
        &NoRecovery,
        &fterm,
        &fnonterm,
    );
    let text = mapped_text(alloc, &outcome);
    drop(outcome);
    text
}

/// Returns how many nodes the tree of the lexemes has.
fn as_nodes<S: IndexOrder>(
    alloc: Global,
    kit: &ParserKit<S>,
    lexer: &ListLexer<DefaultLexerTypes<S>>,
) -> Result<String, AllocError> {
    let outcome = kit.parse_flat::<DefaultLexerTypes<S>, _, _>(alloc, lexer, &NoRecovery);
    let text = flat_text(alloc, &outcome);
    drop(outcome);
    text
}

/// Returns what the lexemes yield by each call that parses.
fn each_way<S: IndexOrder>(
    alloc: Global,
    kit: &ParserKit<S>,
    lexer: &ListLexer<DefaultLexerTypes<S>>,
) -> Result<String, AllocError> {
    let mut text = by_productions(alloc, kit, lexer)?;
    text.push_str(" / ")?;
    text.push_str(by_rules(alloc, kit, lexer)?.as_str())?;
    text.push_str(" / ")?;
    text.push_str(as_nodes(alloc, kit, lexer)?.as_str())?;
    Ok(text)
}

/// Returns what these lexemes yield by each call that parses.
fn text_by<S: IndexOrder>(
    alloc: Global,
    kit: &ParserKit<S>,
    lexemes: &[(u8, u16, u16)],
) -> Result<String, AllocError> {
    let lexer = lexer_of::<S>(alloc, lexemes)?;
    let text = each_way(alloc, kit, &lexer);
    drop(lexer);
    text
}

/// Returns what the lexemes yield with the kit of a text, or that it has none.
fn line_text<S: IndexOrder>(
    alloc: Global,
    text: &str,
    lexemes: &[(u8, u16, u16)],
) -> Result<String, AllocError> {
    let made = kit_of::<S>(alloc, text);
    let found = match &made {
        Ok(kit) => text_by(alloc, kit, lexemes),
        Err(KitError::Memory(e)) => Err(*e),
        Err(_) => String::from_str(alloc, "no kit"),
    };
    drop(made);
    found
}

const TWO: &str = "%start S %% S: 'a' A 'd' | 'b' B 'd' | 'a' B 'e' | 'b' A 'e'; A: 'c'; B: 'c';";

const PLUS: &str = "%start E %% E: E '+' E | 'n';";

const MERGED: &str = "%start S %% S: A 'x' 'y' | B 'x' 'z'; A: 'a'; B: 'a';";

const ENDLESS: &str = "%start S %% S: 'a' U | 'b'; U: 'u' U;";

/// Texts, and tokens with their starts and lengths.
const LINES: &[(&str, &[(u8, u16, u16)])] = &[
    (TWO, &[(0, 0, 1), (4, 2, 1), (3, 4, 1)]),
    (
        PLUS,
        &[(1, 0, 1), (0, 2, 1), (1, 4, 1), (0, 6, 1), (1, 8, 1)],
    ),
    (MERGED, &[(3, 0, 1), (0, 2, 1), (2, 4, 1)]),
    // without a sentence
    (ENDLESS, &[(0, 0, 1), (2, 2, 1)]),
    // a number past the tokens
    (ENDLESS, &[(9, 0, 1)]),
];

/// Adds what each line yields, by functions of productions, by functions of rules, and as a list of nodes.
pub fn push_lines(alloc: Global, out: &mut String) -> Result<(), AllocError> {
    for index in 0..LINES.len() {
        let (text, lexemes) = LINES[index];
        let narrow = line_text::<u8>(alloc, text, lexemes)?;
        let middle = line_text::<u16>(alloc, text, lexemes)?;
        let wide = line_text::<u32>(alloc, text, lexemes)?;
        push_answers(out, narrow.as_str(), middle.as_str(), wide.as_str())?;
    }
    Ok(())
}
