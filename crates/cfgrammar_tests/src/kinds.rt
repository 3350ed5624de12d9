//! Kinds made into values.

use crate::same::same;
use cfg_base::span::Location;
use cfg_read::yacc::{YaccKind, YaccOriginalActionKind};
use cfg_sections::header::Value;
use std::process::Abort;
use std::test::*;

const KINDS_MADE_INTO_VALUES: &[(YaccKind, &str)] = &[
    (
        YaccKind::Grmtools,
        "Setting(Unitary(Namespaced { namespace: Some((\"YaccKind\", Other(\"YaccKind\"))), member: (\"Grmtools\", Other(\"YaccKind\")) }))",
    ),
    (
        YaccKind::Eco,
        "Setting(Unitary(Namespaced { namespace: Some((\"YaccKind\", Other(\"YaccKind\"))), member: (\"Eco\", Other(\"YaccKind\")) }))",
    ),
    (
        YaccKind::Original(YaccOriginalActionKind::UserAction),
        "Setting(Constructor { ctor: Namespaced { namespace: Some((\"YaccKind\", Other(\"YaccKind\"))), member: (\"Original\", Other(\"YaccKind\")) }, arg: Namespaced { namespace: Some((\"YaccOriginalActionKind\", Other(\"YaccKind\"))), member: (\"UserAction\", Other(\"YaccKind\")) } })",
    ),
    (
        YaccKind::Original(YaccOriginalActionKind::GenericParseTree),
        "Setting(Constructor { ctor: Namespaced { namespace: Some((\"YaccKind\", Other(\"YaccKind\"))), member: (\"Original\", Other(\"YaccKind\")) }, arg: Namespaced { namespace: Some((\"YaccOriginalActionKind\", Other(\"YaccKind\"))), member: (\"GenericParseTree\", Other(\"YaccKind\")) } })",
    ),
    (
        YaccKind::Original(YaccOriginalActionKind::NoAction),
        "Setting(Constructor { ctor: Namespaced { namespace: Some((\"YaccKind\", Other(\"YaccKind\"))), member: (\"Original\", Other(\"YaccKind\")) }, arg: Namespaced { namespace: Some((\"YaccOriginalActionKind\", Other(\"YaccKind\"))), member: (\"NoAction\", Other(\"YaccKind\")) } })",
    ),
];

/// Compares the value that a kind is made into, and the kind that this stands for.
fn compare_value(
    rt: &(impl Abort + AllocGlobal),
    kind: YaccKind,
    value: &Value<Location>,
    expected: &str,
) -> Result<(), Fail> {
    let found = format!(in rt.alloc(); "{value:?}")?;
    same(rt, "value", found.as_str(), expected);
    let back = YaccKind::try_from_value(rt.alloc(), value).ok();
    assert!(rt; back == Some(kind));
    Ok(())
}

#[test]
fn kinds_made_into_values(rt: HostRuntime) -> Result<(), Fail> {
    for (kind, expected) in KINDS_MADE_INTO_VALUES {
        let value = kind.try_to_value(rt.alloc())?;
        let compared = compare_value(&rt, *kind, &value, expected);
        drop(value);
        compared?;
    }
    Ok(())
}
