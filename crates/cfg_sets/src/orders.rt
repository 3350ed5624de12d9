//! An order of a grammar's productions in which a work list has little left to do: those of a rule come after those
//! of the rules that they name, unless names lead around in a cycle.

ghost use Rattle.std.specs.Prelude.{◌≡◌, ◌<◌, [], ◌∷◌, ◌++◌, IfOk, OnOk, MatchOption, length, get_or};
ghost use Rattle.cfg_sets.specs.Orders.{IsOrder, stops_below};

use crate::work_list::WorkList;
use cfg_base::index::IndexStorage;
use cfg_base::symbol::{PIdx, Symbol};
use cfg_numbered::yacc::grammar::NumberedGrammar;
use std::alloc::{AllocError, Global};
use std::marker::Model;
use vob::Vob;

/// A rule to which a walk comes: before those that its productions name, and again behind them.
#[derive(Clone, Copy)]
pub struct Stop {
    /// The rule's number.
    pub rule: usize,
    /// Whether the walk comes back from the rules that the rule's productions name.
    pub is_behind: bool,
}

/// Puts the rules that a production names on the stack.
fn push_named<S: IndexStorage>(
    grm: &NumberedGrammar<S>,
    pidx: PIdx<S>,
    stack: &mut Vec<Stop>,
) -> Result<(), AllocError>
    requires { S.number pidx.0 < length grm.now.grammar.productions }
{
    let symbols = grm.prod(pidx);
    'symbols: for index in 0..symbols.len() {
        if let Symbol::Rule(rule) = symbols[index] {
            let rule = rule.0.to_usize();
            let is_behind = false;
            stack.push(Stop { rule, is_behind })?;
        }
    }
    Ok(())
}

/// Puts the rules that a rule's productions name on the stack.
fn push_all_named<S: IndexStorage>(
    grm: &NumberedGrammar<S>,
    rule: usize,
    stack: &mut Vec<Stop>,
) -> Result<(), AllocError>
    requires { rule < grm.now.grammar.rules }
{
    let prods = grm.rule_to_prods(grm.rule_at(rule));
    'prods: for index in 0..prods.len() {
        push_named(grm, prods[index], stack)?;
    }
    Ok(())
}

/// Puts the productions of a rule into the order.
fn put_prods<S: IndexStorage>(
    grm: &NumberedGrammar<S>,
    rule: usize,
    order: &mut WorkList,
) -> Result<(), AllocError>
    requires rule { rule < grm.now.grammar.rules }
    requires order { order.old.rules ≡ length grm.now.grammar.productions }
    ensures { OnOk result (order.new.rules ≡ order.old.rules) }
{
    let prods = grm.rule_to_prods(grm.rule_at(rule));
    'prods: for index in 0..prods.len() {
        order.put(prods[index].0.to_usize())?;
    }
    Ok(())
}

/// Goes on from a rule that was taken off the stack.
fn go_on<S: IndexStorage>(
    grm: &NumberedGrammar<S>,
    stop: Stop,
    seen: &mut Vob,
    stack: &mut Vec<Stop>,
    order: &mut WorkList,
) -> Result<(), AllocError>
    requires seen { length seen.old.bits ≡ grm.now.grammar.rules }
    requires order { order.old.rules ≡ length grm.now.grammar.productions }
    ensures seen { OnOk result (length seen.new.bits ≡ grm.now.grammar.rules) }
    ensures order { OnOk result (order.new.rules ≡ order.old.rules) }
{
    let rule = stop.rule;
    let Some(was_seen) = seen.get(rule) else {
        return Ok(());
    };
    if stop.is_behind {
        return put_prods(grm, rule, order);
    }
    if was_seen {
        return Ok(());
    }
    seen.set(rule, true);
    let is_behind = true;
    stack.push(Stop { rule, is_behind })?;
    push_all_named(grm, rule, stack)
}

/// Puts the rules below a number on the stack, the first on top.
pub fn push_rules(rules: usize, stack: &mut Vec<Stop>) -> Result<(), AllocError>
    ensures { OnOk result (stack.new.items ≡ stack.old.items ++ stops_below rules) }
{
    'rules: for number in 0..rules {
        let rule = rules - 1 - number;
        let is_behind = false;
        stack.push(Stop { rule, is_behind })?;
    }
    Ok(())
}

/// Puts the productions into the order as a walk through all rules, in depth, leaves their rules behind.
fn walk<S: IndexStorage>(
    alloc: Global,
    grm: &NumberedGrammar<S>,
    order: &mut WorkList,
) -> Result<(), AllocError>
    requires { order.old.rules ≡ length grm.now.grammar.productions }
    ensures { OnOk result (order.new.rules ≡ order.old.rules) }
{
    let rules = grm.rules_len().0.to_usize();
    let mut seen = Vob::from_elem(alloc, false, rules)?;
    let mut stack = Vec::new(alloc);
    push_rules(rules, &mut stack)?;
    // Each rule is gone on from once, so that the stack is empty long before the last turn.
    'turns: for _ in 0..usize::MAX {
        let Some(stop) = stack.pop() else {
            return Ok(());
        };
        go_on(grm, stop, &mut seen, &mut stack, order)?;
    }
    Ok(())
}

/// Puts the productions that aren't there behind the others.
fn put_rest(prods: usize, order: &mut WorkList) -> Result<(), AllocError>
    requires { order.old.rules ≡ prods }
    ensures rules { OnOk result (order.new.rules ≡ order.old.rules) }
    ensures all { OnOk result (IsOrder prods order.new.list) }
{
    'prods: for number in 0..prods {
        order.put(number)?;
    }
    order.stays_within();
    Ok(())
}

/// The productions of a grammar in an order.
#[derive(Drop)]
pub struct Order {
    list: Vec<usize>,
}

impl Model for Order {
    ghost use Rattle.std.specs.Prelude.{ℕ, List};

    ghost Value = { List ℕ };

    ghost view = { λ o. o.list.items };
}

impl Order {
    /// Returns an order of all productions in which those of a rule come after those of the rules that they name,
    /// unless names lead around in a cycle.
    pub fn named_first<S: IndexStorage>(
        alloc: Global,
        grm: &NumberedGrammar<S>,
    ) -> Result<Order, AllocError>
        ensures { IfOk result (λ o. IsOrder (length grm.now.grammar.productions) o) }
    {
        let prods = grm.prods_len().0.to_usize();
        let mut order = WorkList::new(alloc, prods)?;
        walk(alloc, grm, &mut order)?;
        Order::begun_with(prods, order)
    }

    /// Returns the productions of a list, and behind them the others.
    pub fn begun_with(prods: usize, list: WorkList) -> Result<Order, AllocError>
        requires { list.rules ≡ prods }
        ensures { IfOk result (λ o. IsOrder prods o) }
    {
        let mut order = list;
        put_rest(prods, &mut order)?;
        Ok(Order {
            list: order.into_list(),
        })
    }

    /// Returns how many productions there are.
    pub fn len(&self) -> usize
        ensures { result ≡ length self.now }
    {
        self.list.len()
    }

    /// Returns the production at an index of the order.
    pub fn at(&self, index: usize) -> usize
        requires { index < length self.now }
        ensures { result ≡ get_or self.now index 0 }
    {
        self.list[index]
    }

    /// Takes the last production off.
    pub fn pop(&mut self) -> Option<usize>
        ensures { MatchOption result (self.old ≡ []) (λ p. self.old ≡ self.new ++ p ∷ []) }
    {
        self.list.pop()
    }
}
