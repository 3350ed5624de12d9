//! What stands beside the numbers of rules and tokens, and what is kept of the whole text.

ghost use Rattle.std.specs.Prelude.{◌≡◌, ◌++◌, ◌∷◌, [], ℕ, ◌<◌, ◌≤◌, false, length, map, option_map, slice_get, Some, IfOk, OnOk};
ghost use Rattle.std.specs.List.{list_any};
ghost use Rattle.std.specs.Option.{option_copied};
ghost use Rattle.std.specs.String.{string_bytes};
ghost use Rattle.std.specs.Str.{bytes_eq};
ghost use Rattle.std.specs.declared.alloc.Global.{Global};
ghost use Rattle.std.specs.declared.string.String.{String};
ghost use Rattle.cfg_read.specs.Asts.{Ast};
ghost use Rattle.cfg_read.specs.AstChanges.{without_rules};
ghost use Rattle.cfg_read.specs.AstModels.{named_rule, named_epps};
ghost use Rattle.cfg_read.specs.WellFormedAst.{AreDistinct, names_of_tokens};
ghost use Rattle.cfg_numbered.specs.Info.{rule_facts, token_facts, kept_facts, param_facts};
ghost use Rattle.cfgrammar.specs.FromAst as tree;

use super::by_name::put_last;
use super::numbers::tilde;
use cfg_base::index::IndexStorage;
use cfg_base::name_hasher::NameHasher;
use cfg_base::span::Span;
use cfg_numbered::yacc::info::{KeptInfo, RuleInfo, TokenInfo};
use cfg_read::yacc::Precedence;
use cfg_read::yacc::ast::{GrammarAST, Rule};
use indexmap::IndexMap;
use std::alloc::{AllocError, Global};

/// A copy of a text that may be there.
pub(crate) fn copy_of(text: Option<&String>) -> Result<Option<String>, AllocError>
    ensures { IfOk result (λ copy. option_map string_bytes copy ≡ option_map string_bytes (option_copied text.entry)) }
{
    match text {
        Some(text) => Ok(Some(text.clone()?)),
        None => Ok(None),
    }
}

/// The precedence that the text declares for a token.
pub(crate) fn precedence_of(ast: &GrammarAST, name: &str) -> Option<Precedence>
    ensures { result ≡ tree.precedence_of ast.now name.now }
{
    match ast.precs().get(name) {
        Some(found) => Some(found.0),
        None => None,
    }
}

/// The precedences of the tokens of these names, in order.
fn levels_of(
    alloc: Global,
    ast: &GrammarAST,
    names: &[String],
) -> Result<Vec<Option<Precedence>>, AllocError>
    ensures { IfOk result (λ v. v.items ≡ map (tree.precedence_of ast.now) (map string_bytes names.now)) }
{
    let mut levels = Vec::with_capacity(alloc, names.len())?;
    'names: for name in names {
        levels.push(precedence_of(ast, name.as_str()))?;
    }
    Ok(levels)
}

/// The precedences of the tokens, in order.
pub(crate) fn levels(alloc: Global, ast: &GrammarAST) -> Result<Vec<Option<Precedence>>, AllocError>
    ensures { IfOk result (λ v. v.items ≡ map (tree.precedence_of ast.now) (names_of_tokens ast.now)) }
{
    let names = ast.tokens().keys();
    levels_of(alloc, ast, names.as_slice())
}

/// The precedence of the token of this number.
pub(crate) fn level_of(levels: &[Option<Precedence>], number: usize) -> Option<Precedence>
    requires { number < length levels.now }
    ensures { slice_get levels.now number ≡ Some result }
{
    levels[number]
}

/// What stands beside the name of a rule of the file, taken over.
fn info_of(rule: Rule) -> RuleInfo
    ensures { (name : String Global) → rule_facts (name, result) ≡ tree.file_rule_facts (named_rule (name, rule)) }
{
    let Rule {
        name,
        pidxs: _,
        actiont,
    } = rule;
    RuleInfo {
        span: name.1,
        action_type: actiont,
    }
}

/// Puts a rule that the text doesn't have behind the others.
fn add_rule(
    alloc: Global,
    rules: &mut IndexMap<String, RuleInfo, NameHasher>,
    name: &str,
) -> Result<(), AllocError>
    requires { list_any (λ e. bytes_eq name.now (string_bytes e.0)) rules.old.entries ≡ false }
    ensures { OnOk result (map rule_facts rules.new.entries ≡ map rule_facts rules.old.entries ++ tree.added_rule_facts name.now ∷ []) }
{
    let name = String::from_str(alloc, name)?;
    let rule = RuleInfo {
        span: Span::new(0, 0),
        action_type: None,
    };
    put_last(rules, name, rule)
}

/// Puts the two rules that are added for implicit tokens behind the others.
fn add_implicit(
    alloc: Global,
    rules: &mut IndexMap<String, RuleInfo, NameHasher>,
) -> Result<(), AllocError>
    requires start { list_any (λ e. bytes_eq tree.implicit_start_name (string_bytes e.0)) rules.old.entries ≡ false }
    requires rule { list_any (λ e. bytes_eq tree.implicit_name (string_bytes e.0)) rules.old.entries ≡ false }
    ensures { OnOk result (map rule_facts rules.new.entries ≡ map rule_facts rules.old.entries ++ tree.added_rule_facts tree.implicit_start_name ∷ tree.added_rule_facts tree.implicit_name ∷ []) }
{
    add_rule(alloc, rules, "^~")?;
    add_rule(alloc, rules, "~")
}

/// The rules by their names, which are taken out of the tree.
pub(crate) fn rules(
    alloc: Global,
    ast: &mut GrammarAST,
    implicit: bool,
) -> Result<IndexMap<String, RuleInfo, NameHasher>, AllocError>
    requires { AreDistinct (map (λ r. r.name) (tree.rules_of implicit ast.old)) }
    ensures rules { IfOk result (λ m. map rule_facts m.entries ≡ tree.rules_of implicit ast.old) }
    ensures rest { ast.new ≡ without_rules ast.old }
{
    let from = ast.take_rules(alloc);
    let room = from.len().saturating_add(3);
    let mut rules = IndexMap::with_capacity_and_hasher(alloc, room, *from.hasher())?;
    add_rule(alloc, &mut rules, "^")?;
    'rules: for (name, rule) in from {
        put_last(&mut rules, name, info_of(rule))?;
    }
    if implicit {
        add_implicit(alloc, &mut rules)?;
    }
    Ok(rules)
}

/// Takes out the printed text of a token.
fn take_epp(
    epps: &mut IndexMap<String, (Span, (String, Span)), NameHasher>,
    name: &str,
) -> Option<String>
    ensures text { option_map string_bytes result ≡ tree.epp_in (named_epps epps.old) name.now }
    ensures others { (q : String Global) → bytes_eq name.now (string_bytes q) ≡ false → tree.epp_in (named_epps epps.new) (string_bytes q) ≡ tree.epp_in (named_epps epps.old) (string_bytes q) }
{
    match epps.swap_remove(name) {
        Some((_span, (text, _))) => Some(text),
        None => None,
    }
}

/// What stands beside the name of a token of the file, with its printed text taken over.
fn file_token(
    ast: &GrammarAST,
    epps: &mut IndexMap<String, (Span, (String, Span)), NameHasher>,
    precedence: Option<Precedence>,
    name: &str,
    span: Span,
) -> TokenInfo
    ensures token { (from : Ast) (key : String Global) → string_bytes key ≡ name.now
        → from.avoid_insert ≡ ast.now.avoid_insert → tree.epp_in (named_epps epps.old) name.now ≡ tree.epp_of from name.now → precedence ≡ tree.precedence_of from name.now
        → token_facts (key, result) ≡ tree.file_token_facts from (record { text = name.now; span = span }) }
    ensures others { (q : String Global) → bytes_eq name.now (string_bytes q) ≡ false → tree.epp_in (named_epps epps.new) (string_bytes q) ≡ tree.epp_in (named_epps epps.old) (string_bytes q) }
{
    TokenInfo {
        span,
        epp: take_epp(epps, name),
        precedence,
        is_avoided: ast.avoid_insert().contains_key(name),
    }
}

/// The tokens of the text by their names, which are taken out of the tree with their printed texts.
pub(crate) fn tokens(
    alloc: Global,
    ast: &mut GrammarAST,
    levels: &[Option<Precedence>],
) -> Result<IndexMap<String, TokenInfo, NameHasher>, AllocError>
    requires apart { AreDistinct (names_of_tokens ast.old) }
    requires told { levels.now ≡ map (tree.precedence_of ast.old) (names_of_tokens ast.old) }
    ensures { IfOk result (λ m. map token_facts m.entries ≡ map (tree.file_token_facts ast.old) ast.old.tokens) }
{
    let from = ast.take_tokens(alloc);
    let mut epps = ast.take_epp(alloc);
    let room = from.len().saturating_add(1);
    let mut tokens = IndexMap::with_capacity_and_hasher(alloc, room, *from.hasher())?;
    'tokens: for (name, span) in from {
        let precedence = level_of(levels, tokens.len());
        let token = file_token(ast, &mut epps, precedence, name.as_str(), span);
        put_last(&mut tokens, name, token)?;
    }
    Ok(tokens)
}

fn param_of(ast: &GrammarAST) -> Result<Option<(String, String)>, AllocError>
    ensures { IfOk result (λ p. option_map param_facts p ≡ option_map tree.param_of ast.now.parse_param) }
{
    match ast.parse_param() {
        Some(pair) => {
            let name = pair.0.clone()?;
            let param_type = pair.1.clone()?;
            Ok(Some((name, param_type)))
        }
        None => Ok(None),
    }
}

fn number_of(number: Option<(usize, Span)>) -> Option<usize>
    ensures { result ≡ option_map (λ n. n.0) number }
{
    match number {
        Some(number) => Some(number.0),
        None => None,
    }
}

/// What is kept of the whole text.
pub(crate) fn info_of_text<S: IndexStorage>(
    ast: &GrammarAST,
    implicit: bool,
) -> Result<KeptInfo<S>, AllocError>
    requires { length (tree.rules_of implicit ast.now) ≤ S.MAX }
    ensures { IfOk result (λ k. kept_facts S.number k ≡ tree.kept_of implicit ast.now) }
{
    let parse_param = param_of(ast)?;
    let parse_generics = copy_of(ast.parse_generics())?;
    let programs = copy_of(ast.programs())?;
    let implicit_rule = if implicit { Some(tilde(ast)) } else { None };
    Ok(KeptInfo {
        implicit_rule,
        parse_param,
        parse_generics,
        programs,
        expect: number_of(ast.expect()),
        expect_rr: number_of(ast.expectrr()),
    })
}
