//! Texts and their items.

ghost use Rattle.std.specs.Prelude.{◌≡◌, IfOk};

use crate::lexers::rules::{Row, TOKENS, rules_of};
use crate::make::grammar;
use crate::same::same;
use cfg_base::span::Span;
use cfg_numbered::yacc::NumberedGrammar;
use lrlex::{DefaultLexeme, LRLexError, LRNonStreamingLexer, LexErrorKind, LexRules};
use maximal_munch::Target;
use parse_trees::lex_api::{Lexer, NonStreamingLexer};
use std::alloc::{AllocError, Global};
use std::test::*;

/// A calculator's rules. White is skipped.
const CALCULATOR: &[Row] = &[
    Row {
        expression: r"[0-9]+",
        name: Some("NUMBER"),
        conditions: &[],
        target: Target::Stay,
    },
    Row {
        expression: r"\+",
        name: Some("+"),
        conditions: &[],
        target: Target::Stay,
    },
    Row {
        expression: r"\*",
        name: Some("*"),
        conditions: &[],
        target: Target::Stay,
    },
    Row {
        expression: r"\(",
        name: Some("("),
        conditions: &[],
        target: Target::Stay,
    },
    Row {
        expression: r"\)",
        name: Some(")"),
        conditions: &[],
        target: Target::Stay,
    },
    Row {
        expression: r"\s+",
        name: None,
        conditions: &[],
        target: Target::Stay,
    },
];

/// Rules of which some match as much as others, or more.
const TIES: &[Row] = &[
    Row {
        expression: r"if",
        name: Some("IF"),
        conditions: &[],
        target: Target::Stay,
    },
    Row {
        expression: r"[a-z]+",
        name: Some("ID"),
        conditions: &[],
        target: Target::Stay,
    },
    Row {
        expression: r"=",
        name: Some("="),
        conditions: &[],
        target: Target::Stay,
    },
    Row {
        expression: r"==",
        name: Some("=="),
        conditions: &[],
        target: Target::Stay,
    },
    Row {
        expression: r" +",
        name: None,
        conditions: &[],
        target: Target::Stay,
    },
];

/// Names, and comments that may be within others.
const COMMENTS: &[Row] = &[
    Row {
        expression: r"[a-z]+",
        name: Some("ID"),
        conditions: &[],
        target: Target::Stay,
    },
    Row {
        expression: r" +",
        name: None,
        conditions: &[],
        target: Target::Stay,
    },
    Row {
        expression: r"/\*",
        name: None,
        conditions: &[0, 1],
        target: Target::Push(1),
    },
    Row {
        expression: r"\*/",
        name: None,
        conditions: &[1],
        target: Target::Pop,
    },
    Row {
        expression: r".",
        name: None,
        conditions: &[1],
        target: Target::Stay,
    },
];

/// Names in condition 0, and each way to change the stack.
const STACKS: &[Row] = &[
    Row {
        expression: r"[a-z]+",
        name: Some("ID"),
        conditions: &[],
        target: Target::Stay,
    },
    Row {
        expression: r"\(",
        name: None,
        conditions: &[0, 1],
        target: Target::Push(1),
    },
    Row {
        expression: r"<",
        name: None,
        conditions: &[1],
        target: Target::Replace(1),
    },
    Row {
        expression: r">",
        name: None,
        conditions: &[0, 1],
        target: Target::Pop,
    },
];

/// Rules of which one has a name that is no token's.
const ONE_SIDED: &[Row] = &[
    Row {
        expression: r"[0-9]+",
        name: Some("NUMBER"),
        conditions: &[],
        target: Target::Stay,
    },
    Row {
        expression: r"-",
        name: Some("MINUS"),
        conditions: &[],
        target: Target::Stay,
    },
    Row {
        expression: r" +",
        name: None,
        conditions: &[],
        target: Target::Stay,
    },
];

/// Puts an item: the token's number and its span; the offset of an error behind `?` where nothing matches, behind `!` where the
/// name is no token's.
fn put_item(
    alloc: Global,
    out: &mut String,
    item: Result<DefaultLexeme<u8>, LRLexError>,
) -> Result<(), AllocError> {
    let shown = match item {
        Ok(lexeme) => {
            let start = lexeme.span.start();
            let end = lexeme.span.end();
            format!(in alloc; "{}[{start},{end}] ", lexeme.tok_id)?
        }
        Err(error) => {
            let mark = match error.kind {
                LexErrorKind::NoMatch => '?',
                LexErrorKind::UnknownName => '!',
            };
            format!(in alloc; "{mark}{}", error.span.start())?
        }
    };
    out.push_str(shown.as_str())
}

/// Returns the items of a lexer.
fn items_of(alloc: Global, lexer: &LRNonStreamingLexer<'_, u8>) -> Result<String, AllocError> {
    let mut out = String::new(alloc);
    for item in lexer.iter() {
        put_item(alloc, &mut out, *item)?;
    }
    Ok(out)
}

/// Returns the lexer of a text by rules.
fn lexer_by_rules<'t>(
    alloc: Global,
    rules: &LexRules,
    text: &'t str,
) -> Result<LRNonStreamingLexer<'t, u8>, Fail>
    ensures { IfOk result (λ l. l.text ≡ text.entry.now) }
{
    let grm = grammar(alloc, TOKENS)?;
    let bound = rules.bind(alloc, &grm);
    drop(grm);
    let bound = bound?;
    let lexer = bound.lex(alloc, text);
    drop(bound);
    Ok(lexer?)
}

/// Returns the items of a text by rules.
fn items_by_rules(alloc: Global, rules: &LexRules, text: &str) -> Result<String, Fail> {
    let lexer = lexer_by_rules(alloc, rules, text)?;
    let out = items_of(alloc, &lexer);
    drop(lexer);
    Ok(out?)
}

/// Returns the items of a text by the rules of rows.
fn items_by_rows(alloc: Global, rows: &[Row], text: &str) -> Result<String, Fail> {
    let rules = rules_of(alloc, rows)?;
    let out = items_by_rules(alloc, &rules, text);
    drop(rules);
    out
}

/// Rules, texts, and their items.
const TEXTS: &[(&[Row], &str, &str)] = &[
    (CALCULATOR, "", ""),
    (
        CALCULATOR,
        "2 + 3*(4)",
        "0[0,1] 1[2,3] 0[4,5] 2[5,6] 3[6,7] 0[7,8] 4[8,9] ",
    ),
    (CALCULATOR, "12 +\n 3 x 4", "0[0,2] 1[3,4] 0[6,7] ?8"),
    (
        TIES,
        "if iff = == ===",
        "5[0,2] 6[3,6] 7[7,8] 8[9,11] 8[12,14] 7[14,15] ",
    ),
    (COMMENTS, "a /* b /* c */ d */ e", "6[0,1] 6[20,21] "),
    (COMMENTS, "a /* b\n c */ */", "6[0,1] ?13"),
    (COMMENTS, "a /* b", "6[0,1] "),
    // What was below is gone, so condition 0 comes back.
    (STACKS, "a((<>b", "6[0,1] 6[5,6] "),
    (STACKS, "a((>b", "6[0,1] ?4"),
    (STACKS, "a>>b", "6[0,1] 6[3,4] "),
    (ONE_SIDED, "1 - 2", "0[0,1] !2"),
];

#[test]
fn texts_have_items(rt: HostRuntime) -> Result<(), Fail> {
    for row in TEXTS {
        let found = items_by_rows(rt.alloc(), row.0, row.1)?;
        same(&rt, row.1, found.as_str(), row.2);
    }
    Ok(())
}

#[test]
fn an_error_has_a_line_and_a_column(rt: HostRuntime) -> Result<(), Fail> {
    let rules = rules_of(rt.alloc(), CALCULATOR)?;
    let made = lexer_by_rules(rt.alloc(), &rules, "12 +\n 3 x 4");
    drop(rules);
    let lexer = made?;
    let span = Span::new(8, 8);
    same(&rt, "places", lexer.line_col(span), ((2, 4), (2, 4)));
    same(&rt, "lines", lexer.span_lines_str(span), " 3 x 4");
    drop(lexer);
    Ok(())
}

/// Writes `7+` five thousand times.
fn long_text(alloc: Global) -> Result<String, AllocError> {
    let mut text = String::new(alloc);
    for _ in 0..5000 {
        text.push_str("7+")?;
    }
    Ok(text)
}

/// Returns how many words a text has.
fn words_in(text: &str) -> usize {
    let mut count = 0usize;
    for _word in text.split_whitespace() {
        count = count.wrapping_add(1);
    }
    count
}

#[test]
fn a_long_text_has_all_items(rt: HostRuntime) -> Result<(), Fail> {
    let text = long_text(rt.alloc())?;
    let found = items_by_rows(rt.alloc(), CALCULATOR, text.as_str())?;
    same(&rt, "items", words_in(found.as_str()), 10_000);
    Ok(())
}

/// Returns the rules whose names are no token's, and the tokens whose names are no rule's.
fn missing(
    alloc: Global,
    rules: &LexRules,
    grm: &NumberedGrammar<u8>,
) -> Result<(Vec<usize>, Vec<usize>), AllocError> {
    let bound = rules.bind(alloc, grm)?;
    let names = bound.missing_from_parser(alloc);
    let tokens = bound.missing_from_lexer(alloc, grm);
    drop(bound);
    Ok((names?, tokens?))
}

/// Returns the same by a grammar of its own.
fn missing_by_rules(alloc: Global, rules: &LexRules) -> Result<(Vec<usize>, Vec<usize>), Fail> {
    let grm = grammar(alloc, TOKENS)?;
    let found = missing(alloc, rules, &grm);
    drop(grm);
    Ok(found?)
}

#[test]
fn names_of_one_side_are_known(rt: HostRuntime) -> Result<(), Fail> {
    let rules = rules_of(rt.alloc(), ONE_SIDED)?;
    let found = missing_by_rules(rt.alloc(), &rules);
    drop(rules);
    let (names, tokens) = found?;
    same(&rt, "rules", names.as_slice(), &[1][..]);
    same(
        &rt,
        "tokens",
        tokens.as_slice(),
        &[1, 2, 3, 4, 5, 6, 7, 8][..],
    );
    Ok(())
}
