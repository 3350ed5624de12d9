//! Tests of the types that indices are stored in.

use crate::same::same;
use cfg_base::index::IndexStorage;

fn round_trip<S: IndexStorage>(n: usize) -> Option<usize> {
    S::from_usize(n).map(|index| index.to_usize())
}

const NUMBERS: &[(usize, bool, bool, bool)] = &[
    (0, true, true, true),
    (255, true, true, true),
    (256, false, true, true),
    (65_535, false, true, true),
    (65_536, false, false, true),
    (4_294_967_295, false, false, true),
    (4_294_967_296, false, false, false),
    (usize::MAX, false, false, false),
];

#[test]
fn numbers_up_to_the_greatest_fit(rt: HostRuntime) {
    'numbers: for (n, narrow, middle, wide) in NUMBERS {
        same(&rt, "u8", round_trip::<u8>(*n), narrow.then_some(*n));
        same(&rt, "u16", round_trip::<u16>(*n), middle.then_some(*n));
        same(&rt, "u32", round_trip::<u32>(*n), wide.then_some(*n));
    }
}
