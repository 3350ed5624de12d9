//! Groups of rules that lead on to each other by usable productions: strongly connected components, each after those
//! that it leads on to. A depth-first walk against the references gives an order of the rules, from whose end the
//! groups are gathered. Only how soon rules leave a set depends on this.

ghost use Rattle.std.specs.Prelude.{◌≡◌, ◌<◌, OnOk, IfOk, length};

use super::kept_costs::KeptCosts;
use cfg_base::index::IndexStorage;
use cfg_base::symbol::{PIdx, Symbol};
use cfg_sets::naming::Naming;
use cfg_sets::orders::{Stop, push_rules};
use std::alloc::{AllocError, Global};
use vob::Vob;

/// Puts the rule of a production that can be used on the stack.
fn push_head<S: IndexStorage>(
    costly: &KeptCosts<S>,
    number: usize,
    stack: &mut Vec<Stop>,
) -> Result<(), AllocError> {
    if costly.prods_len().0.to_usize() <= number {
        return Ok(());
    }
    let pidx = costly.prod_at(number);
    if costly.body_cost(pidx).is_none() {
        return Ok(());
    }
    let rule = costly.prod_to_rule(pidx).0.to_usize();
    let is_behind = false;
    stack.push(Stop { rule, is_behind })?;
    Ok(())
}

fn push_heads<S: IndexStorage>(
    costly: &KeptCosts<S>,
    named: &[usize],
    stack: &mut Vec<Stop>,
) -> Result<(), AllocError> {
    'prods: for index in 0..named.len() {
        push_head(costly, named[index], stack)?;
    }
    Ok(())
}

/// Goes on from a rule that was taken off the stack, to the rules of the productions that name it.
fn go_on<S: IndexStorage>(
    costly: &KeptCosts<S>,
    naming: &Naming,
    stop: Stop,
    seen: &mut Vob,
    stack: &mut Vec<Stop>,
    left: &mut Vec<usize>,
) -> Result<(), AllocError>
    requires naming { length naming.now ≡ costly.now.grammar.rules }
    requires seen { length seen.old.bits ≡ costly.now.grammar.rules }
    ensures seen { OnOk result (length seen.new.bits ≡ costly.now.grammar.rules) }
{
    let rule = stop.rule;
    if stop.is_behind {
        left.push(rule)?;
        return Ok(());
    }
    let Some(false) = seen.get(rule) else {
        return Ok(());
    };
    seen.set(rule, true);
    let is_behind = true;
    stack.push(Stop { rule, is_behind })?;
    push_heads(costly, naming.of(rule), stack)
}

/// Returns the rules as a walk in depth, from each rule to those of the productions that name it, leaves them behind.
pub(super) fn left_behind<S: IndexStorage>(
    alloc: Global,
    costly: &KeptCosts<S>,
    naming: &Naming,
) -> Result<Vec<usize>, AllocError>
    requires { length naming.now ≡ costly.now.grammar.rules }
{
    let rules = costly.rules_len().0.to_usize();
    let mut seen = Vob::from_elem(alloc, false, rules)?;
    let mut stack = Vec::new(alloc);
    let mut left = Vec::new(alloc);
    push_rules(rules, &mut stack)?;
    // Each rule is gone on from once, so that the stack is empty long before the last turn.
    'turns: for _ in 0..usize::MAX {
        let Some(stop) = stack.pop() else {
            return Ok(left);
        };
        go_on(costly, naming, stop, &mut seen, &mut stack, &mut left)?;
    }
    Ok(left)
}

/// Puts the rules that a production names on the stack, where it can be used.
fn push_named<S: IndexStorage>(
    costly: &KeptCosts<S>,
    pidx: PIdx<S>,
    stack: &mut Vec<usize>,
) -> Result<(), AllocError>
    requires { S.number pidx.0 < length costly.now.grammar.productions }
{
    if costly.body_cost(pidx).is_none() {
        return Ok(());
    }
    let symbols = costly.prod(pidx);
    'symbols: for index in 0..symbols.len() {
        if let Symbol::Rule(rule) = symbols[index] {
            stack.push(rule.0.to_usize())?;
        }
    }
    Ok(())
}

/// Puts a rule that was not seen yet into the group, and those that it leads on to on the stack.
fn enter<S: IndexStorage>(
    costly: &KeptCosts<S>,
    rule: usize,
    seen: &mut Vob,
    stack: &mut Vec<usize>,
    group: &mut Vec<usize>,
) -> Result<(), AllocError>
    requires { length seen.old.bits ≡ costly.now.grammar.rules }
    ensures { OnOk result (length seen.new.bits ≡ costly.now.grammar.rules) }
{
    let Some(false) = seen.get(rule) else {
        return Ok(());
    };
    seen.set(rule, true);
    group.push(rule)?;
    let prods = costly.rule_to_prods(costly.rule_at(rule));
    'prods: for index in 0..prods.len() {
        push_named(costly, prods[index], stack)?;
    }
    Ok(())
}

/// Returns the rules that one leads on to and that were not seen yet, itself among them. They are seen from then on.
pub(super) fn gather<S: IndexStorage>(
    alloc: Global,
    costly: &KeptCosts<S>,
    rule: usize,
    seen: &mut Vob,
) -> Result<Vec<usize>, AllocError>
    requires { length seen.old.bits ≡ costly.now.grammar.rules }
    ensures { IfOk result (λ _. length seen.new.bits ≡ costly.now.grammar.rules) }
{
    let mut group = Vec::new(alloc);
    let mut stack = Vec::new(alloc);
    stack.push(rule)?;
    'turns: for _ in 0..usize::MAX {
        let Some(next) = stack.pop() else {
            return Ok(group);
        };
        enter(costly, next, seen, &mut stack, &mut group)?;
    }
    Ok(group)
}
