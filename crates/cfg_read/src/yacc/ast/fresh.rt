//! Fresh rules, which optional symbols mean, and their productions.

ghost use Rattle.std.specs.Prelude.{◌≡◌, ◌++◌, map, fold, IfOk, OnOk};
ghost use Rattle.std.specs.List.{flat_map};
ghost use Rattle.std.specs.String.{string_bytes};
ghost use Rattle.cfg_read.specs.Asts.{fresh_production};
ghost use Rattle.cfg_read.specs.AstBuild.{with_first, fresh_rule};
ghost use Rattle.cfg_read.specs.AstModels.{ast_symbol_of, production_of, named_rules, rule_entry_of, rule_keys, own_names};
ghost use Rattle.cfg_read.specs.Settling.{named_fresh};
ghost use Rattle.cfg_read.specs.Judging.{both_at, both_of, words_of_fresh};

use super::settle::Fresh;
use super::{Production, Rule, Symbol};
use cfg_base::name_hasher::NameHasher;
use cfg_base::span::Span;
use indexmap::IndexMap;
use std::alloc::{AllocError, Global};

/// Returns a rule without productions and type.
fn blank_rule(alloc: Global, name: &str, span: Span) -> Result<Rule, AllocError>
    ensures { IfOk result (λ made. rule_entry_of made ≡ fresh_rule (record { text = name.now; span = span })) }
{
    let name = String::from_str(alloc, name)?;
    Ok(Rule {
        name: (name, span),
        pidxs: Vec::new(alloc),
        actiont: None,
    })
}

/// Puts a fresh rule behind the others, without productions, where there is none of its name yet.
fn insert_fresh_rule(
    alloc: Global,
    rules: &mut IndexMap<String, Rule, NameHasher>,
    name: &str,
    span: Span,
) -> Result<(), AllocError>
    requires { own_names rules.old ≡ rule_keys rules.old }
    ensures rules { OnOk result (named_rules rules.new ≡ with_first (named_rules rules.old) (fresh_rule (record { text = name.now; span = span }))) }
    ensures names { own_names rules.new ≡ rule_keys rules.new }
{
    if !rules.contains_key(name) {
        let key = String::from_str(alloc, name)?;
        let new = blank_rule(alloc, name, span)?;
        rules.insert(key, new)?;
    }
    Ok(())
}

/// Puts the fresh rules of these symbols behind the others, without productions.
pub(super) fn insert_fresh_rules(
    alloc: Global,
    rules: &mut IndexMap<String, Rule, NameHasher>,
    fresh: &IndexMap<String, Fresh, NameHasher>,
) -> Result<(), AllocError>
    requires { own_names rules.old ≡ rule_keys rules.old }
    ensures rules { OnOk result (named_rules rules.new ≡ fold with_first (named_rules rules.old) (map fresh_rule (words_of_fresh (named_fresh fresh.now)))) }
    ensures names { own_names rules.new ≡ rule_keys rules.new }
{
    'fresh: for (name, entry) in fresh {
        insert_fresh_rule(alloc, rules, name.as_str(), entry.span)?;
    }
    Ok(())
}

/// Returns a production of a fresh rule at this span.
fn to_production(alloc: Global, symbols: Vec<Symbol>, span: Span) -> Result<Production, AllocError>
    ensures { IfOk result (λ p. production_of p ≡ fresh_production span (map ast_symbol_of symbols.items)) }
{
    Production::new(alloc, symbols, None, None, span)
}

/// Puts the two productions of the fresh rule of a symbol behind the others.
fn push_both(alloc: Global, made: &mut Vec<Production>, fresh: &Fresh) -> Result<(), AllocError>
    ensures { OnOk result (map production_of made.new.items
        ≡ map production_of made.old.items ++ both_at fresh.now.span (ast_symbol_of fresh.now.inner)) }
{
    let span = fresh.span;
    let mut symbols = Vec::new(alloc);
    symbols.push(fresh.inner.plain()?)?;
    let full = to_production(alloc, symbols, span)?;
    made.push(full)?;
    let empty = to_production(alloc, Vec::new(alloc), span)?;
    made.push(empty)?;
    Ok(())
}

/// Returns the productions of the fresh rules of these symbols.
pub(super) fn fresh_productions(
    alloc: Global,
    fresh: &IndexMap<String, Fresh, NameHasher>,
) -> Result<Vec<Production>, AllocError>
    ensures { IfOk result (λ made. map production_of made.items ≡ flat_map both_of (named_fresh fresh.now)) }
{
    let mut made = Vec::new(alloc);
    'fresh: for (_name, entry) in fresh {
        push_both(alloc, &mut made, entry)?;
    }
    Ok(made)
}
