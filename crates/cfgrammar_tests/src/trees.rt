//! Syntax trees, changed.

ghost use Rattle.std.specs.Prelude.{◌<◌};

use crate::same::same;
use cfg_base::span::Span;
use cfg_read::yacc::ast::{GrammarAST, Production, Rule};
use cfg_read::yacc::{ASTWithValidityInfo, YaccKind, YaccOriginalActionKind};
use std::alloc::{AllocError, Global};
use std::test::*;

const TREE: YaccKind = YaccKind::Original(YaccOriginalActionKind::GenericParseTree);

/// Adds a rule's name and span, the numbers of its productions and the type of its actions.
fn push_rule(alloc: Global, out: &mut String, rule: &Rule) -> Result<(), AllocError> {
    let name = rule.name.0.as_str();
    let start = rule.name.1.start();
    let end = rule.name.1.end();
    let numbers = rule.pidxs.as_slice();
    out.push_str(format!(in alloc; "{name} {start}-{end} {numbers:?}")?.as_str())?;
    if let Some(kind) = &rule.actiont {
        out.push_str(" ->")?;
        out.push_str(kind.as_str())?;
    }
    out.push_str("; ")
}

/// Renders the rules, and then the programs.
fn rules_text(alloc: Global, ast: &GrammarAST) -> Result<String, AllocError> {
    let mut out = String::new(alloc);
    for (_name, rule) in ast.rules() {
        push_rule(alloc, &mut out, rule)?;
    }
    if let Some(text) = ast.programs() {
        out.push_str(text.as_str())?;
    }
    Ok(out)
}

/// Returns whether a tree has nothing else that a grammar has once, no start rule and no token.
fn has_no_more(ast: &GrammarAST) -> bool {
    let has_numbers = ast.expect().is_some() || ast.expectrr().is_some();
    let has_texts = ast.parse_param().is_some() || ast.parse_generics().is_some();
    !has_numbers && !has_texts && ast.start().is_none() && ast.tokens().is_empty()
}

fn span_of(start: usize) -> Span
    requires { start < 1000 }
{
    Span::new(start, start + 1)
}

fn name_at(alloc: Global, name: &str, start: usize) -> Result<(String, Span), AllocError>
    requires { start < 1000 }
{
    Ok((String::from_str(alloc, name)?, span_of(start)))
}

fn empty_tree(alloc: Global) -> Result<GrammarAST, AllocError> {
    let checked = ASTWithValidityInfo::new(alloc, TREE, "")?;
    let copy: Result<GrammarAST, AllocError> = checked.ast().clone();
    drop(checked);
    copy
}

/// Adds a production without symbols, where the rule is there.
fn add_production(alloc: Global, ast: &mut GrammarAST, rule: &str) -> Result<(), AllocError> {
    let production = Production::new(alloc, Vec::new(alloc), None, None, span_of(5))?;
    if ast.get_rule(rule).is_some() {
        ast.add_prod(rule, production)?;
    }
    Ok(())
}

fn add_rules(alloc: Global, ast: &mut GrammarAST) -> Result<(), AllocError> {
    ast.add_rule(alloc, name_at(alloc, "S", 0)?, None)?;
    ast.add_rule(alloc, name_at(alloc, "T", 2)?, None)?;
    add_production(alloc, ast, "S")?;
    add_production(alloc, ast, "T")?;
    add_production(alloc, ast, "U")?;
    add_production(alloc, ast, "S")
}

fn replace_rule(alloc: Global, ast: &mut GrammarAST) -> Result<(), AllocError> {
    let kind = String::from_str(alloc, "u8")?;
    ast.add_rule(alloc, name_at(alloc, "S", 7)?, Some(kind))
}

fn set_texts(alloc: Global, ast: &mut GrammarAST) -> Result<(), AllocError> {
    ast.set_programs(String::from_str(alloc, "p")?);
    ast.add_programs(String::from_str(alloc, "q")?);
    Ok(())
}

/// Changes a tree in three steps, and returns it after each.
fn changes(alloc: Global, ast: &mut GrammarAST) -> Result<[String; 3], AllocError> {
    add_rules(alloc, ast)?;
    let added = rules_text(alloc, ast)?;
    replace_rule(alloc, ast)?;
    let replaced = rules_text(alloc, ast)?;
    set_texts(alloc, ast)?;
    Ok([added, replaced, rules_text(alloc, ast)?])
}

#[test]
fn changed_trees(rt: HostRuntime) -> Result<(), Fail> {
    let mut ast = empty_tree(rt.alloc())?;
    let changes = changes(rt.alloc(), &mut ast);
    let count = ast.prods().len();
    let has_none = ast.get_rule("U").is_none() && !ast.has_token("a") && has_no_more(&ast);
    drop(ast);
    let [added, replaced, programs] = changes?;
    same(
        &rt,
        "added rules",
        added.as_str(),
        "S 0-1 [0, 2]; T 2-3 [1]; ",
    );
    same(
        &rt,
        "replaced rule",
        replaced.as_str(),
        "S 7-8 [] ->u8; T 2-3 [1]; ",
    );
    same(
        &rt,
        "programs",
        programs.as_str(),
        "S 7-8 [] ->u8; T 2-3 [1]; q",
    );
    same(
        &rt,
        "productions and nothing else",
        (count, has_none),
        (3, true),
    );
    Ok(())
}
