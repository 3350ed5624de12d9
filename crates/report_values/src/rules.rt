//! Rules as plain values.

ghost use Rattle.std.specs.Prelude.{◌<◌};

use cfg_base::index::IndexStorage;
use cfg_base::symbol::{PIdx, RIdx, Symbol};
use grammar_names::{Grammar, prod_body, symbol_name};
use report_forms::{Name, Rule};
use std::alloc::{AllocError, Global};

/// Adds the symbols of a production.
fn push_names(
    alloc: Global,
    names: &mut Vec<Name>,
    grm: &Grammar,
    symbols: &[Symbol<u32>],
) -> Result<(), AllocError> {
    'symbols: for index in 0..symbols.len() {
        let symbol = symbols[index];
        let rule = match symbol {
            Symbol::Rule(ridx) => Some(ridx.0.to_usize()),
            Symbol::Token(_) => None,
        };
        let name = String::from_str(alloc, symbol_name(grm, symbol))?;
        names.push(Name { name, rule })?;
    }
    Ok(())
}

/// Fills in the productions of a rule.
fn fill_rule(
    alloc: Global,
    rule: &mut Rule,
    grm: &Grammar,
    prods: &[PIdx<u32>],
) -> Result<(), AllocError> {
    'prods: for index in 0..prods.len() {
        let mut names = Vec::new(alloc);
        push_names(alloc, &mut names, grm, prod_body(grm, prods[index]))?;
        rule.productions.push(names)?;
    }
    Ok(())
}

/// Adds a rule.
fn push_rule(
    alloc: Global,
    rules: &mut Vec<Rule>,
    grm: &Grammar,
    ridx: RIdx<u32>,
) -> Result<(), AllocError>
    requires { ridx.0 < grm.now.grammar.rules }
{
    let mut rule = Rule {
        name: String::from_str(alloc, grm.rule_name_str(ridx))?,
        productions: Vec::new(alloc),
    };
    match fill_rule(alloc, &mut rule, grm, grm.rule_to_prods(ridx)) {
        Ok(()) => {
            rules.push(rule)?;
            Ok(())
        }
        Err(e) => {
            drop(rule);
            Err(e)
        }
    }
}

/// Adds all rules of a grammar.
pub(crate) fn push_rules(
    alloc: Global,
    rules: &mut Vec<Rule>,
    grm: &Grammar,
) -> Result<(), AllocError> {
    'rules: for number in 0..usize::from(grm.rules_len()) {
        push_rule(alloc, rules, grm, grm.rule_at(number))?;
    }
    Ok(())
}
