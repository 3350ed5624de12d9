//! An order of a grammar's productions in which least costs are found at once: a production by which its rule costs
//! least comes after those by which the rules that it names do, and a cheaper one before a dearer one. Knuth's
//! generalization of Dijkstra's algorithm (1977) finds costs so; here it only gives the order, and costs that it
//! doesn't find are found later.

ghost use Rattle.std.specs.Prelude.{◌≡◌, ℕ, ◌<◌, ◌≤◌, IfOk, OnOk, length};
ghost use Rattle.cfg_sentences.specs.CostTable.{AreCapped};
ghost use Rattle.cfg_sets.specs.WorkLists.{ListsNaming};
ghost use Rattle.cfg_sets.specs.Orders.{IsOrder};

use super::least::no_costs;
use super::max_cost::at_most;
use super::token_costs::{BOUND, TokenCosts};
use cfg_base::index::IndexStorage;
use cfg_sets::naming::Naming;
use cfg_sets::orders::Order;
use cfg_sets::work_list::WorkList;
use std::alloc::{AllocError, Global};
use std::cmp::Reverse;
use std::collections::BinaryHeap;

/// A production of which each rule that it names has its cost, and what its symbols cost.
#[derive(Clone, Copy, PartialEq, Eq, PartialOrd, Ord)]
struct Due {
    cost: u32,
    number: usize,
}

/// How far the search for an order is.
#[derive(Drop)]
struct Search {
    /// For each production, how many of the rules that it names have no cost.
    lacking: Vec<usize>,
    /// The costs of the rules that have theirs.
    costs: Vec<Option<u32>>,
    /// The productions that wait to be taken.
    due: BinaryHeap<Reverse<Due>>,
}

/// Raises the counts of these productions by one.
fn count_named(named: &[usize], lacking: &mut Vec<usize>)
    ensures { length lacking.new.items ≡ length lacking.old.items }
{
    'prods: for index in 0..named.len() {
        let number = named[index];
        if number < lacking.len() {
            lacking[number] = lacking[number].wrapping_add(1);
        }
    }
}

/// Returns how many rules each production names.
fn count_open(alloc: Global, prods: usize, naming: &Naming) -> Result<Vec<usize>, AllocError>
    ensures { IfOk result (λ v. length v.items ≡ prods) }
{
    let mut lacking = vec![in alloc; 0; prods]?;
    'rules: for rule in 0..naming.len() {
        count_named(naming.of(rule), &mut lacking);
    }
    Ok(lacking)
}

/// Lowers the count of a production by one, and returns whether that was the last.
fn close_one(number: usize, lacking: &mut Vec<usize>) -> bool
    ensures { length lacking.new.items ≡ length lacking.old.items }
{
    if lacking.len() <= number {
        return false;
    }
    let left = lacking[number].wrapping_sub(1);
    lacking[number] = left;
    left == 0
}

/// Has a production wait to be taken, if its symbols have costs.
fn push_due<S: IndexStorage>(
    tokens: &TokenCosts<S>,
    number: usize,
    costs: &[Option<u32>],
    due: &mut BinaryHeap<Reverse<Due>>,
) -> Result<(), AllocError>
    requires rules { length costs.now ≡ tokens.now.grammar.rules }
    requires capped { AreCapped costs.now }
{
    if tokens.prods_len().0.to_usize() <= number {
        return Ok(());
    }
    let Some(cost) = tokens.body_cost(tokens.prod_at(number), costs) else {
        return Ok(());
    };
    due.push(Reverse(Due { cost, number }))?;
    Ok(())
}

/// Has the productions wait that name no rule.
fn start<S: IndexStorage>(
    tokens: &TokenCosts<S>,
    lacking: &Vec<usize>,
    costs: &[Option<u32>],
    due: &mut BinaryHeap<Reverse<Due>>,
) -> Result<(), AllocError>
    requires rules { length costs.now ≡ tokens.now.grammar.rules }
    requires capped { AreCapped costs.now }
{
    'prods: for number in 0..lacking.len() {
        if lacking[number] == 0 {
            push_due(tokens, number, costs, due)?;
        }
    }
    Ok(())
}

/// Counts a rule that has its cost now in the productions that name it. Those of which it was the last one wait.
fn hand_on<S: IndexStorage>(
    tokens: &TokenCosts<S>,
    named: &[usize],
    lacking: &mut Vec<usize>,
    costs: &[Option<u32>],
    due: &mut BinaryHeap<Reverse<Due>>,
) -> Result<(), AllocError>
    requires rules { length costs.now ≡ tokens.now.grammar.rules }
    requires capped { AreCapped costs.now }
{
    'prods: for index in 0..named.len() {
        let number = named[index];
        if close_one(number, lacking) {
            push_due(tokens, number, costs, due)?;
        }
    }
    Ok(())
}

/// Gives a rule its cost, where it has none, and returns whether it had none.
fn put_cost(rule: usize, cost: u32, costs: &mut Vec<Option<u32>>) -> bool
    requires rule { rule < length costs.old.items }
    requires capped { AreCapped costs.old.items }
    ensures rules { length costs.new.items ≡ length costs.old.items }
    ensures capped { AreCapped costs.new.items }
{
    if costs[rule].is_some() {
        return false;
    }
    costs[rule] = Some(at_most(cost, BOUND));
    true
}

/// Takes a production that waited: where its rule has no cost, this one gives it, and is the next of the order.
fn settle<S: IndexStorage>(
    tokens: &TokenCosts<S>,
    naming: &Naming,
    next: Due,
    search: &mut Search,
    order: &mut WorkList,
) -> Result<(), AllocError>
    requires naming { length naming.now ≡ tokens.now.grammar.rules }
    requires rules { length search.old.costs.items ≡ tokens.now.grammar.rules }
    requires capped { AreCapped search.old.costs.items }
    requires order { order.old.rules ≡ length tokens.now.grammar.productions }
    ensures rules { OnOk result (length search.new.costs.items ≡ tokens.now.grammar.rules) }
    ensures capped { OnOk result (AreCapped search.new.costs.items) }
    ensures order { OnOk result (order.new.rules ≡ order.old.rules) }
{
    if tokens.prods_len().0.to_usize() <= next.number {
        return Ok(());
    }
    tokens.stays_well_formed();
    let rule = tokens
        .prod_to_rule(tokens.prod_at(next.number))
        .0
        .to_usize();
    if !put_cost(rule, next.cost, &mut search.costs) {
        return Ok(());
    }
    order.put(next.number)?;
    let costs = search.costs.as_slice();
    hand_on(
        tokens,
        naming.of(rule),
        &mut search.lacking,
        costs,
        &mut search.due,
    )
}

/// Takes productions that wait, the cheapest first, until none is left.
fn settle_all<S: IndexStorage>(
    alloc: Global,
    tokens: &TokenCosts<S>,
    naming: &Naming,
    order: &mut WorkList,
) -> Result<(), AllocError>
    requires naming { length naming.now ≡ tokens.now.grammar.rules }
    requires order { order.old.rules ≡ length tokens.now.grammar.productions }
    ensures order { OnOk result (order.new.rules ≡ order.old.rules) }
{
    let mut search = Search {
        lacking: count_open(alloc, tokens.prods_len().0.to_usize(), naming)?,
        costs: no_costs(alloc, tokens.rules_len().0.to_usize())?,
        due: BinaryHeap::new(alloc),
    };
    let costs = search.costs.as_slice();
    start(tokens, &search.lacking, costs, &mut search.due)?;
    // Each production waits once, so that none is left long before the last turn.
    'turns: for _ in 0..usize::MAX {
        let Some(Reverse(next)) = search.due.pop() else {
            return Ok(());
        };
        settle(tokens, naming, next, &mut search, order)?;
    }
    Ok(())
}

/// Returns all productions; in front, one for each rule that derives a token list, by which it costs least.
pub(super) fn cheapest_first<S: IndexStorage>(
    alloc: Global,
    tokens: &TokenCosts<S>,
    naming: &Naming,
) -> Result<Order, AllocError>
    requires naming { ListsNaming tokens.now.grammar (length tokens.now.grammar.productions) naming.now }
    ensures { IfOk result (λ o. IsOrder (length tokens.now.grammar.productions) o) }
{
    let prods = tokens.prods_len().0.to_usize();
    let mut order = WorkList::new(alloc, prods)?;
    settle_all(alloc, tokens, naming, &mut order)?;
    Order::begun_with(prods, order)
}
