//! Tables over the rules of a grammar that productions fill: each production is taken in once, in an order, and again
//! where it names a rule whose entry changed.

ghost use Rattle.std.specs.Prelude.{◌≡◌, ℕ, ◌+◌, ◌<◌, ◌≤◌, ◌⊎◌, List, length, Option, IfOk, OnOk};
ghost use Rattle.cfg_theory.specs.Grammar.{Grammar};
ghost use Rattle.cfg_sets.specs.WorkLists.{ListsNaming, NamesOne, TakesIn};
ghost use Rattle.cfg_sets.specs.Orders.{IsOrder};

use cfg_base::steps::Steps;
use cfg_sets::naming::Naming;
use cfg_sets::orders::Order;
use cfg_sets::work_list::{WorkList, WorkTable, fill};
use std::alloc::{AllocError, Global};
use std::marker::Brand;
use std::sync::ledger::{Blank, Ledger};

/// A table over the rules of a grammar that productions fill.
pub trait ProdTable {
    /// The grammar whose productions fill the table. No call changes it.
    ghost grammar: { Self → Grammar };

    /// What holds of the table at all times, such as that each entry is true of its rule.
    ghost is_sound: { Self → Type 0 };

    /// An upper bound of how often the table can still change; each change lessens it.
    ghost room: { Self → ℕ };

    /// The table is closed under a production: to take that one in again would change nothing.
    ghost is_closed_by: { Self → ℕ → Type 0 };

    /// Two tables are filled from the same data, which no call changes.
    ghost is_of_same: { Self → Self → Type 0 };

    /// A table is filled from the same data as itself.
    ghost same_refl: { (s : Self) → is_of_same s s };

    /// Tables with the same data as a third one have the same data.
    ghost same_trans: { (s t u : Self) → is_of_same s t → is_of_same t u → is_of_same s u };

    /// Takes in a production, and returns its rule where that changed the rule's entry.
    fn take_prod(&mut self, number: usize) -> Result<Option<usize>, AllocError>
        requires production { number < length (grammar self.old).productions }
        requires sound { is_sound self.old }
        ensures grammar { IfOk result (λ o. grammar self.new ≡ grammar self.old) }
        ensures same { IfOk result (λ o. is_of_same self.old self.new) }
        ensures sound { IfOk result (λ o. is_sound self.new) }
        ensures takes { IfOk result (λ o. TakesIn (grammar self.old) room is_closed_by number self.old self.new o) };
}

/// Such a table, with the productions that name each rule.
#[derive(Drop)]
pub struct ByProds<'n, T> {
    /// The table that is filled.
    pub table: T,
    /// The productions that name each rule: where the table changes at a rule, these are taken in again.
    pub naming: &'n Naming,
}

/// Takes in a production. Where that changed the entry of its rule, the rule enters the list.
fn take_in<T: ProdTable>(
    table: &mut T,
    number: usize,
    work: &mut WorkList,
) -> Result<(), AllocError>
    requires production { number < length (T.grammar table.old).productions }
    requires sound { T.is_sound table.old }
    requires work { work.old.rules ≡ (T.grammar table.old).rules }
    ensures grammar { OnOk result (T.grammar table.new ≡ T.grammar table.old) }
    ensures same { OnOk result (T.is_of_same table.old table.new) }
    ensures sound { OnOk result (T.is_sound table.new) }
    ensures work { OnOk result (work.new.rules ≡ work.old.rules) }
    ensures kept { OnOk result ((p : ℕ) → T.is_closed_by table.old p ⊎ NamesOne (T.grammar table.old) work.old.list p → T.is_closed_by table.new p ⊎ NamesOne (T.grammar table.old) work.new.list p) }
    ensures here { OnOk result (T.is_closed_by table.new number ⊎ NamesOne (T.grammar table.old) work.new.list number) }
    ensures room { OnOk result (T.room table.new + length work.new.list ≤ T.room table.old + length work.old.list) }
{
    let Some(rule) = table.take_prod(number)? else {
        return Ok(());
    };
    work.put(rule)?;
    Ok(())
}

impl<'n, T: ProdTable + Drop> WorkTable for ByProds<'n, T> {
    ghost use Rattle.std.specs.Prelude.{◌≡◌, ℕ, ◌<◌, ◌⊎◌, length, refl};
    ghost use Rattle.std.proofs.Common.{◌∙◌};
    ghost use Rattle.cfg_sets.specs.WorkLists.{ListsNaming, NamesOne};

    ghost rules = { λ s. (T.grammar s.table).rules };

    ghost is_sound = { λ s. T.is_sound s.table × ListsNaming (T.grammar s.table) (length (T.grammar s.table).productions) s.naming.now };

    ghost room = { λ s. T.room s.table };

    ghost is_closed_but = { λ s list. (p : ℕ) → p < length (T.grammar s.table).productions → T.is_closed_by s.table p ⊎ NamesOne (T.grammar s.table) list p };

    ghost is_of_same = { λ s t. (T.grammar t.table ≡ T.grammar s.table) × T.is_of_same s.table t.table };

    ghost same_refl = { λ s. (refl, T.same_refl s.table) };

    ghost same_trans = { λ s t u h k. (k.0 ∙ h.0, T.same_trans s.table t.table u.table h.1 k.1) };

    fn take(&mut self, rule: usize, work: &mut WorkList) -> Result<(), AllocError> {
        let named = self.naming.of(rule);
        'prods: for index in 0..named.len() {
            take_in(&mut self.table, named[index], work)?;
        }
        Ok(())
    }
}

/// Takes in all productions once, in the order.
fn start<T: ProdTable>(table: &mut T, order: &Order, work: &mut WorkList) -> Result<(), AllocError>
    requires order { IsOrder (length (T.grammar table.old).productions) order.now }
    requires sound { T.is_sound table.old }
    requires work { work.old.rules ≡ (T.grammar table.old).rules }
    ensures grammar { OnOk result (T.grammar table.new ≡ T.grammar table.old) }
    ensures same { OnOk result (T.is_of_same table.old table.new) }
    ensures sound { OnOk result (T.is_sound table.new) }
    ensures work { OnOk result (work.new.rules ≡ work.old.rules) }
    ensures closed { OnOk result ((p : ℕ) → p < length (T.grammar table.old).productions → T.is_closed_by table.new p ⊎ NamesOne (T.grammar table.old) work.new.list p) }
    ensures room { OnOk result (T.room table.new + length work.new.list ≤ T.room table.old + length work.old.list) }
{
    'prods: for index in 0..order.len() {
        take_in(table, order.at(index), work)?;
    }
    Ok(())
}

/// Fills a table until it is closed under each production. A step is counted for each rule that is taken from the work
/// list: at most one for each change of the table.
pub fn fill_by_prods<T: ProdTable + Drop, L: Ledger>(
    alloc: Global,
    order: &Order,
    filling: &mut ByProds<T>,
    steps: &mut Steps<L>,
) -> Result<(), AllocError>
    requires order { IsOrder (length (T.grammar filling.old.table).productions) order.now }
    requires naming { ListsNaming (T.grammar filling.old.table) (length (T.grammar filling.old.table).productions) filling.old.naming.now }
    requires sound { T.is_sound filling.old.table }
    ensures same { OnOk result (T.is_of_same filling.old.table filling.new.table) }
    ensures sound { OnOk result (T.is_sound filling.new.table) }
    ensures closed { OnOk result ((p : ℕ) → p < length (T.grammar filling.old.table).productions → T.is_closed_by filling.new.table p) }
    ensures takings { steps.new ≤ steps.old + T.room filling.old.table }
{
    let mut work = WorkList::new(alloc, filling.naming.len())?;
    start(&mut filling.table, order, &mut work)?;
    fill(filling, &mut work, steps)?;
    Ok(())
}

/// Fills a table until it is closed under all productions, without a step counter.
pub fn close_by_prods<T: ProdTable + Drop>(
    alloc: Global,
    order: &Order,
    filling: &mut ByProds<T>,
) -> Result<(), AllocError>
    requires order { IsOrder (length (T.grammar filling.old.table).productions) order.now }
    requires naming { ListsNaming (T.grammar filling.old.table) (length (T.grammar filling.old.table).productions) filling.old.naming.now }
    requires sound { T.is_sound filling.old.table }
    ensures same { OnOk result (T.is_of_same filling.old.table filling.new.table) }
    ensures sound { OnOk result (T.is_sound filling.new.table) }
    ensures closed { OnOk result ((p : ℕ) → p < length (T.grammar filling.old.table).productions → T.is_closed_by filling.new.table p) }
{
    fill_with_blank::<T, Brand>(alloc, order, filling, Blank::new(1))
}

fn fill_with_blank<T: ProdTable + Drop, L: Ledger>(
    alloc: Global,
    order: &Order,
    filling: &mut ByProds<T>,
    blank: Blank,
) -> Result<(), AllocError>
    requires order { IsOrder (length (T.grammar filling.old.table).productions) order.now }
    requires naming { ListsNaming (T.grammar filling.old.table) (length (T.grammar filling.old.table).productions) filling.old.naming.now }
    requires sound { T.is_sound filling.old.table }
    requires name { blank.name ≡ L.name }
    requires parts { blank.parts ≡ L.parts }
    requires one { blank.parts ≡ 1 }
    ensures same { OnOk result (T.is_of_same filling.old.table filling.new.table) }
    ensures sound { OnOk result (T.is_sound filling.new.table) }
    ensures closed { OnOk result ((p : ℕ) → p < length (T.grammar filling.old.table).productions → T.is_closed_by filling.new.table p) }
{
    let mut steps = Steps::<L>::new(blank);
    fill_by_prods(alloc, order, filling, &mut steps)
}
