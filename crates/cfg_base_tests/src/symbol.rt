//! Tests of indices and symbols.

use crate::same::same;
use cfg_base::symbol::{PIdx, RIdx, SIdx, Symbol, TIdx};
use std::collections::BTreeMap;
use std::test::Fail;

#[test]
fn indices_give_their_numbers(rt: HostRuntime) {
    let stored = (
        RIdx(7u8).as_storaget(),
        PIdx(8u16).as_storaget(),
        SIdx(9u32).as_storaget(),
        TIdx(10u8).as_storaget(),
    );
    same(&rt, "stored", stored, (7, 8, 9, 10));
}

#[test]
fn indices_are_numbers_of_any_size(rt: HostRuntime) {
    let numbers = [
        usize::from(RIdx(255u8)),
        usize::from(PIdx(65_535u16)),
        usize::from(SIdx(4_294_967_295u32)),
        usize::from(TIdx(1u16)),
    ];
    same(&rt, "usize", numbers, [255, 65_535, 4_294_967_295, 1]);
    let numbers = [
        u32::from(RIdx(4_294_967_295u32)),
        u32::from(PIdx(2u8)),
        u32::from(SIdx(3u16)),
        u32::from(TIdx(4u32)),
    ];
    same(&rt, "u32", numbers, [4_294_967_295, 2, 3, 4]);
}

#[test]
fn symbols_are_keys(rt: HostRuntime) -> Result<(), Fail> {
    let symbols = [
        Symbol::Token(TIdx(0u8)),
        Symbol::Rule(RIdx(9)),
        Symbol::Token(TIdx(3)),
        Symbol::Rule(RIdx(2)),
    ];
    let mut numbers: BTreeMap<Symbol<u8>, usize> = BTreeMap::new(rt.alloc());
    for (number, symbol) in symbols.iter().enumerate() {
        numbers.insert(*symbol, number)?;
    }
    let in_order: Vec<usize> = numbers.values().copied().collect(rt.alloc())?;
    same(&rt, "order", in_order.as_slice(), [3, 1, 0, 2].as_slice());
    assert!(rt; Symbol::Rule(RIdx(9u8)) < Symbol::Token(TIdx(0)));
    assert!(rt; Symbol::Rule(RIdx(3u8)) != Symbol::Token(TIdx(3)));
    let text = format!(in rt.alloc(); "{:?}", Symbol::Rule(RIdx(3u8)))?;
    same(&rt, "text", text.as_str(), "Rule(RIdx(3))");
    Ok(())
}
