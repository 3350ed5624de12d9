//! Syntax trees, a line for each part.

use cfg_base::name_hasher::NameHasher;
use cfg_base::span::Span;
use cfg_read::yacc::ast::{GrammarAST, Production, Rule, Symbol};
use indexmap::IndexMap;
use row_files::{push_quoted, push_span, push_spans};
use std::alloc::{AllocError, Global};

/// A rule's name, or a token in quotes, and the span.
fn push_symbol(alloc: Global, out: &mut String, symbol: &Symbol) -> Result<(), AllocError> {
    out.push(' ')?;
    match symbol {
        Symbol::Rule(name, span) => {
            out.push_str(name.as_str())?;
            push_span(alloc, out, span)
        }
        Symbol::Token(name, span) => {
            push_quoted(out, name.as_str())?;
            push_span(alloc, out, span)
        }
    }
}

fn push_symbols(alloc: Global, out: &mut String, symbols: &[Symbol]) -> Result<(), AllocError> {
    for symbol in symbols {
        push_symbol(alloc, out, symbol)?;
    }
    Ok(())
}

/// Adds a text in quotes behind a label, if there is one.
fn push_option(out: &mut String, label: &str, text: Option<&String>) -> Result<(), AllocError> {
    if let Some(text) = text {
        out.push_str(label)?;
        push_quoted(out, text.as_str())?;
    }
    Ok(())
}

/// A production's span, symbols, `%prec`, and action with its span.
fn push_production(alloc: Global, out: &mut String, made: &Production) -> Result<(), AllocError> {
    out.push_str("prod")?;
    push_span(alloc, out, &made.prod_span())?;
    out.push(':')?;
    push_symbols(alloc, out, made.symbols())?;
    push_option(out, " %prec ", made.precedence())?;
    push_option(out, " action ", made.action())?;
    if let Some(span) = made.action_span() {
        push_span(alloc, out, &span)?;
    }
    out.push('\n')
}

fn push_productions(alloc: Global, out: &mut String, ast: &GrammarAST) -> Result<(), AllocError> {
    for made in ast.prods() {
        push_production(alloc, out, made)?;
    }
    Ok(())
}

fn push_numbers(alloc: Global, out: &mut String, numbers: &[usize]) -> Result<(), AllocError> {
    for number in numbers {
        out.push_str(format!(in alloc; " {number}")?.as_str())?;
    }
    Ok(())
}

/// A rule's name with its span, the type of its actions and the numbers of its productions.
fn push_rule(alloc: Global, out: &mut String, rule: &Rule) -> Result<(), AllocError> {
    out.push_str("rule ")?;
    out.push_str(rule.name.0.as_str())?;
    push_span(alloc, out, &rule.name.1)?;
    push_option(out, " -> ", rule.actiont.as_ref())?;
    out.push(':')?;
    push_numbers(alloc, out, rule.pidxs.as_slice())?;
    out.push('\n')
}

fn push_rules(alloc: Global, out: &mut String, ast: &GrammarAST) -> Result<(), AllocError> {
    for (_name, rule) in ast.rules() {
        push_rule(alloc, out, rule)?;
    }
    Ok(())
}

fn push_start(alloc: Global, out: &mut String, ast: &GrammarAST) -> Result<(), AllocError> {
    if let Some((name, span)) = ast.start() {
        out.push_str("start ")?;
        out.push_str(name.as_str())?;
        push_span(alloc, out, span)?;
        out.push('\n')?;
    }
    Ok(())
}

/// A line for each name and its span.
fn push_names(
    alloc: Global,
    out: &mut String,
    label: &str,
    names: &IndexMap<String, Span, NameHasher>,
) -> Result<(), AllocError> {
    for (name, span) in names {
        out.push_str(label)?;
        push_quoted(out, name.as_str())?;
        push_span(alloc, out, span)?;
        out.push('\n')?;
    }
    Ok(())
}

fn push_precedences(alloc: Global, out: &mut String, ast: &GrammarAST) -> Result<(), AllocError> {
    for (name, (precedence, span)) in ast.precs() {
        let level = precedence.level;
        let kind = precedence.kind;
        out.push_str(format!(in alloc; "{kind:?} {level} ")?.as_str())?;
        push_quoted(out, name.as_str())?;
        push_span(alloc, out, span)?;
        out.push('\n')?;
    }
    Ok(())
}

fn push_epps(alloc: Global, out: &mut String, ast: &GrammarAST) -> Result<(), AllocError> {
    for (name, (span, (text, text_span))) in ast.epp() {
        out.push_str("epp ")?;
        push_quoted(out, name.as_str())?;
        push_span(alloc, out, span)?;
        out.push(' ')?;
        push_quoted(out, text.as_str())?;
        push_span(alloc, out, text_span)?;
        out.push('\n')?;
    }
    Ok(())
}

fn push_number(
    alloc: Global,
    out: &mut String,
    label: &str,
    number: Option<(usize, Span)>,
) -> Result<(), AllocError> {
    if let Some((number, span)) = number {
        out.push_str(format!(in alloc; "{label} {number}")?.as_str())?;
        push_span(alloc, out, &span)?;
        out.push('\n')?;
    }
    Ok(())
}

fn push_text(out: &mut String, label: &str, text: Option<&String>) -> Result<(), AllocError> {
    if let Some(text) = text {
        out.push_str(label)?;
        push_quoted(out, text.as_str())?;
        out.push('\n')?;
    }
    Ok(())
}

/// What is told once.
fn push_single(alloc: Global, out: &mut String, ast: &GrammarAST) -> Result<(), AllocError> {
    push_number(alloc, out, "expect", ast.expect())?;
    push_number(alloc, out, "expect-rr", ast.expectrr())?;
    if let Some((name, kind)) = ast.parse_param() {
        out.push_str("parse-param ")?;
        push_quoted(out, name.as_str())?;
        out.push(' ')?;
        push_quoted(out, kind.as_str())?;
        out.push('\n')?;
    }
    push_text(out, "parse-generics ", ast.parse_generics())?;
    push_text(out, "programs ", ast.programs())
}

/// The symbols of `%expect-unused`, if there are any.
fn push_unused(alloc: Global, out: &mut String, symbols: &[Symbol]) -> Result<(), AllocError> {
    if symbols.is_empty() {
        return Ok(());
    }
    out.push_str("expect-unused")?;
    push_symbols(alloc, out, symbols)?;
    out.push('\n')
}

/// The start rule, rules, productions and tokens, and then the declarations.
pub fn push_tree(alloc: Global, out: &mut String, ast: &GrammarAST) -> Result<(), AllocError> {
    push_start(alloc, out, ast)?;
    push_rules(alloc, out, ast)?;
    push_productions(alloc, out, ast)?;
    push_names(alloc, out, "token ", ast.tokens())?;
    push_names(alloc, out, "implicit ", ast.implicit_tokens())?;
    push_precedences(alloc, out, ast)?;
    push_names(alloc, out, "avoid ", ast.avoid_insert())?;
    push_epps(alloc, out, ast)?;
    push_unused(alloc, out, ast.expect_unused())?;
    push_single(alloc, out, ast)
}

fn tree_of(alloc: Global, ast: &GrammarAST) -> Result<String, AllocError> {
    let mut out = String::new(alloc);
    push_tree(alloc, &mut out, ast)?;
    Ok(out)
}

fn copied_tree(alloc: Global, ast: &GrammarAST) -> Result<String, AllocError> {
    let copy: GrammarAST = ast.clone()?;
    let tree = tree_of(alloc, &copy);
    drop(copy);
    tree
}

/// The spans of the tokens, by their map.
fn token_spans(alloc: Global, ast: &GrammarAST) -> Result<String, AllocError> {
    let mut out = String::new(alloc);
    for (_name, span) in ast.tokens() {
        push_span(alloc, &mut out, span)?;
    }
    Ok(out)
}

/// A line where a copy of the tree isn't like it, and one where the list of its tokens' spans isn't like their map.
pub fn push_differences(
    alloc: Global,
    out: &mut String,
    ast: &GrammarAST,
) -> Result<(), AllocError> {
    if copied_tree(alloc, ast)? != tree_of(alloc, ast)? {
        out.push_str("the copy differs\n")?;
    }
    let mut spans = String::new(alloc);
    push_spans(alloc, &mut spans, ast.spans())?;
    if spans != token_spans(alloc, ast)? {
        out.push_str("the spans differ\n")?;
    }
    Ok(())
}
