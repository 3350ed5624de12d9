//! Items that are added by hand.

ghost use Rattle.std.specs.Prelude.{length, OnOk};
ghost use Rattle.state_table.specs.Itemsets.{HasWidth};

use crate::same::same;
use crate::tables::items::push_items;
use cfg_base::index::IndexStorage;
use cfg_base::symbol::{PIdx, SIdx};
use lrtable::itemset::Itemset;
use std::alloc::{AllocError, Global};
use std::test::*;
use vob::Vob;

/// Adds an item, and shows whether something was new and what the set has then.
fn push_added<S: IndexStorage>(
    alloc: Global,
    out: &mut String,
    set: &mut Itemset<S>,
    item: (PIdx<S>, SIdx<S>),
    ctx: &Vob,
) -> Result<(), AllocError>
    requires { HasWidth (length ctx.now.bits) set.old }
    ensures { OnOk result (HasWidth (length ctx.now.bits) set.new) }
{
    let (pidx, dot) = item;
    let grew = set.add(pidx, dot, ctx)?;
    out.push_str(if grew { "new " } else { "old " })?;
    push_items(alloc, out, set)?;
    out.push('\n')
}

/// Returns an item is added without lookaheads, again, with one, and again without; then one that goes before it.
fn push_all<S: IndexStorage>(
    alloc: Global,
    out: &mut String,
    set: &mut Itemset<S>,
    low: S,
    high: S,
) -> Result<(), AllocError>
    requires { HasWidth 3 set.old }
{
    let none = Vob::from_elem(alloc, false, 3)?;
    let mut one = Vob::from_elem(alloc, false, 3)?;
    one.set(1, true);
    push_added(alloc, out, set, (PIdx(high), SIdx(low)), &none)?;
    push_added(alloc, out, set, (PIdx(high), SIdx(low)), &none)?;
    push_added(alloc, out, set, (PIdx(high), SIdx(low)), &one)?;
    push_added(alloc, out, set, (PIdx(high), SIdx(low)), &none)?;
    push_added(alloc, out, set, (PIdx(low), SIdx(high)), &one)
}

fn added_text<S: IndexStorage>(alloc: Global, low: S, high: S) -> Result<String, AllocError> {
    let mut out = String::new(alloc);
    let mut set = Itemset::new(alloc);
    push_all(alloc, &mut out, &mut set, low, high)?;
    let found = set.get(PIdx(high), SIdx(low)).is_some();
    let missing = set.get(PIdx(high), SIdx(high)).is_some();
    out.push_str(format!(in alloc; "{found} {missing}")?.as_str())?;
    Ok(out)
}

const ADDED: &str = "new 7.2;\nold 7.2;\nnew 7.2 1;\nold 7.2 1;\nnew 2.7 1;7.2 1;\ntrue false";

#[test]
fn items_are_added(rt: HostRuntime) -> Result<(), Fail> {
    same(
        &rt,
        "u8",
        added_text::<u8>(rt.alloc(), 2, 7)?.as_str(),
        ADDED,
    );
    same(
        &rt,
        "u32",
        added_text::<u32>(rt.alloc(), 2, 7)?.as_str(),
        ADDED,
    );
    Ok(())
}
