//! Halving over a row, and indices of states.

ghost use Rattle.std.specs.Prelude.{◌≡◌};
ghost use Rattle.state_table.specs.Rows.{Rises};

use crate::same::same;
use cfg_base::steps::Steps;
use lrtable::rows::row_search;
use lrtable::stidx::StIdx;
use std::marker::Brand;
use std::sync::ledger::{Blank, Ledger};
use std::test::*;

fn found_in<L: Ledger>(row: &[(u32, u8)], number: usize, blank: Blank) -> Option<u8>
    requires rises { Rises row.now }
    requires name { blank.name ≡ L.name }
    requires parts { blank.parts ≡ L.parts }
    requires one { blank.parts ≡ 1 }
{
    let mut steps = Steps::<L>::new(blank);
    row_search(row, number, &mut steps)
}

#[test]
fn rows_are_searched(rt: HostRuntime) {
    let row = [(1, 10), (3, 30), (8, 80)];
    for (number, wanted) in [
        (0, None),
        (1, Some(10)),
        (3, Some(30)),
        (5, None),
        (8, Some(80)),
    ] {
        let found = found_in::<Brand>(&row, number, Blank::new(1));
        same(&rt, "row", (number, found), (number, wanted));
    }
}

#[test]
fn state_indices_are_numbers(rt: HostRuntime) {
    same(&rt, "u8", usize::from(StIdx(255u8)), 255);
    same(&rt, "u16", u32::from(StIdx(65_535u16)), 65_535);
    same(&rt, "u32", StIdx(7u32).as_storaget(), 7);
    assert!(rt; StIdx(2u8) < StIdx(10u8));
}
