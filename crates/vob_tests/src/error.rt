//! Calls that are refused, and how a refusal is printed.

use crate::common::{full, same};
use std::alloc::Global;
use std::test::Fail;
use vob::Vob;
use vob::error::VobError;

// A refused `extend` keeps the old items and a first part of the new ones, here the eighth item.
#[test]
fn a_refused_extension_keeps_a_part(rt: HostRuntime) -> Result<(), Fail> {
    let items = [false, true, true];
    let mut list = full(rt.alloc(), 7)?;
    let wanted = match list.extend(items.iter().copied()) {
        Ok(()) => (10, [0x7f, 0x03].as_slice()),
        Err(_) => (8, [0x7f].as_slice()),
    };
    same(&rt, "items", (list.len(), list.get_storage()), wanted);
    Ok(())
}

/// Asks for more room than a list can have, and returns what the refusal prints.
fn refusal(list: &mut Vob<u8>, alloc: Global) -> Result<String, VobError> {
    let Err(refusal) = list.reserve(usize::MAX) else {
        return Ok(String::new(alloc));
    };
    Ok(format!(in alloc; "{refusal}")?)
}

#[test]
fn a_refusal_prints_its_name(rt: HostRuntime) -> Result<(), Fail> {
    let mut list = full(rt.alloc(), 1)?;
    let text = refusal(&mut list, rt.alloc());
    drop(list);
    same(&rt, "name", text?.as_str(), "TooLong");
    Ok(())
}
